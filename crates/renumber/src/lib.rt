// The calls that give ports and steps new numbers, and log each: resize and the two compactions.
#![tactic(auto)]

pub mod compact;
pub mod log;
pub mod moves;
pub mod resize;
