// What happens in a play, one event after the other.
use receiver::outcome::Outcome;
use timing::refusal::Refusal;

// Receivers, records on the air and messages that were said count from 1.
#[derive(Clone, Copy, PartialEq, Eq, Debug, Drop)]
pub enum Deed {
    // time went on
    Passed,
    // the sender disclosed a key by itself
    Disclosed {
        record: u64,
    },
    // the sender said a message
    Said {
        record: u64,
        message: usize,
    },
    // the sender refused to say it
    NotSaid(Refusal),
    // a receiver was told a tick of its own clock
    Told {
        receiver: u64,
        tick: u64,
    },
    // bytes reached a receiver: which record they are, if they are brought as one, and which message that was said, if they are one
    Heard {
        receiver: u64,
        clock: u64,
        record: Option<u64>,
        message: Option<usize>,
        outcome: Outcome,
    },
    // a receiver delivered a message: which one that was said, if it was said
    Delivered {
        receiver: u64,
        message: Option<usize>,
    },
    // a message of an interval, by time alone
    Judged {
        receiver: u64,
        clock: u64,
        interval: u32,
        judgement: Result<(), Refusal>,
    },
}

// line: that of the script; time: the real time.
#[derive(Clone, Copy, PartialEq, Eq, Debug, Drop)]
pub struct Event {
    pub line: u64,
    pub time: u64,
    pub deed: Deed,
}
