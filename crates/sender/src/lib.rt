// A sender: its messages, its turns of disclosure, and the key chain kept in part.
#![tactic(auto)]

pub mod sending;
pub mod state;
