// What the sender said, and what receivers make of bytes that are brought to them.
#![tactic(auto)]

pub mod event;
pub mod hearing;
pub mod place;
pub mod said;
pub mod sent;
#[cfg(test)]
mod tests;
