// The commands of a play.
use timing::parameters::Numbers;

// Whom something is brought to; receivers count from 1.
#[derive(Clone, Copy, Drop)]
pub enum Whom {
    One(u64),
    All,
}

#[derive(Drop)]
pub enum Command {
    // the script is a play
    Play,
    // the numbers of the settings
    Settings(Numbers),
    // the key of the last interval
    Drawn(Vec<u8>),
    // how many receivers there are
    Receivers(u64),
    // the real time, which is the sender's
    Time(u64),
    // what one receiver's clock shows now
    Clock { receiver: u64, tick: u64 },
    // what every receiver's clock shows now
    Clocks(Vec<u64>),
    // the sender says this
    Say(Vec<u8>),
    // a record of the air is brought as it was; records count from 1
    Bring { record: u64, to: Whom },
    // made-up bytes are brought
    Bytes { to: Whom, bytes: Vec<u8> },
    End,
}
