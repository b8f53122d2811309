// A key chain kept in part: of each 128 intervals the last key, the keys of the part where it is, and the last keys of the part before.
#![tactic(auto)]

pub mod descent;
pub mod parts;
pub mod walking;
