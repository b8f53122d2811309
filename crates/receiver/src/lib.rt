// A receiver: clock, buffer and newest key, in fixed memory.
#![tactic(auto)]

pub mod calls;
pub mod outcome;
mod rules;
pub mod state;
