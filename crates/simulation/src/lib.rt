// Plays: a sender and receivers by their public calls, with clocks, deeds and bytes from a script.
#![tactic(auto)]

mod cast;
pub mod counts;
pub mod mode;
pub mod play;
mod stage;
