// Lines of a play as commands.
#![tactic(auto)]

pub mod command;
mod fields;
pub mod hex;
pub mod keyword;
pub mod line;
