// Frames: where bytes come from, how many they are, and the bytes.
#![tactic(auto)]

pub mod head;
pub mod laws;
pub mod split;
