// A message that reaches a receiver.
use timing::refusal::Refusal;

#[derive(Clone, Copy, PartialEq, Eq, Debug, Drop)]
pub struct Arrival {
    // the line of the script that sends the message
    pub line: u64,
    pub interval: u32,
    // receivers count from 1
    pub receiver: u64,
    // what the receiver's clock shows
    pub clock: u64,
    // what the message comes to by that clock
    pub judgement: Result<(), Refusal>,
}
