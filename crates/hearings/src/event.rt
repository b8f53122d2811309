// What a play comes to, one event after the other.
use receiver::outcome::Outcome;
use timing::refusal::Refusal;

#[derive(PartialEq, Eq, Drop)]
pub struct Saying {
    pub interval: u16,
    pub index: u8,
    pub text: Vec<u8>,
}

// What a receiver delivers, by whether the play's sender said it before.
#[derive(Drop)]
pub enum Delivery {
    Said(Saying),
    NotSaid(Saying),
}

// What one receiver makes of bytes that are brought to it; receivers count from 1.
#[derive(Drop)]
pub struct Hearing {
    pub receiver: u64,
    pub outcome: Outcome,
    pub deliveries: Vec<Delivery>,
}

// A record on the air; a disclosed interval of 0 is no key.
#[derive(Drop)]
pub enum Sent {
    Message { saying: Saying, disclosed: u16 },
    Key { interval: u16 },
}

#[derive(Drop)]
pub enum Deed {
    // records count from 1
    Sent {
        number: u64,
        sent: Sent,
    },
    // the sender refuses to say it
    NotSaid(Refusal),
    // a record of the air, or made-up bytes
    Brought {
        record: Option<u64>,
        hearings: Vec<Hearing>,
    },
}

#[derive(Drop)]
pub struct Event {
    // the line of the script
    pub line: u64,
    pub deed: Deed,
}
