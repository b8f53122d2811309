// What became of each message that was said, at each receiver, by the end of a play.
#![tactic(auto)]

pub mod fate;
pub mod fates;
pub mod laws;
#[cfg(test)]
mod plays;
