// Scripts of what receivers with bad clocks hear, played whole or not at all.
#![tactic(auto)]

pub mod arrival;
pub mod laws;
pub mod play;
mod receivers;
mod scene;
