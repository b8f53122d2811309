// What the sender, receivers and their own clocks hand to each other, as bytes.
#![tactic(auto)]

pub mod air;
pub mod clock;
pub mod delivery;
pub mod key;
mod kind;
pub mod laws;
pub mod message;
pub mod said;
pub mod settings;
