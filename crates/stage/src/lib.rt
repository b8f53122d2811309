// The stage of a play: a sender, receivers and the air, moved by their public calls, and all that happened.
#![tactic(auto)]

pub mod calls;
pub mod cast;
pub mod event;
pub mod said;
