// Scripts as text: lines, words and numbers, and the command of a line.
#![tactic(auto)]

pub mod command;
pub mod error;
pub mod keyword;
pub mod reader;
pub mod stop;
pub mod text;
