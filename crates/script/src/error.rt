// Why a script is not read.
use timing::refusal::Refusal;

// The first line at fault; lines count from 1.
#[derive(Clone, Copy, PartialEq, Eq, Debug, Drop)]
pub struct Fault {
    pub line: u64,
    pub refusal: Refusal,
}

#[derive(Clone, Copy, PartialEq, Eq, Debug, Drop)]
pub enum Error {
    Faulty(Fault),
    NoMemory,
}
