// Time as receivers and the sender reckon it, the numbers of the settings, and the refusals of the whole project.
#![tactic(auto)]

pub mod clocks;
pub mod parameters;
pub mod refusal;
pub mod safety;
