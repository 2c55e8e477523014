// The calls that renumber nothing: questions, linking, steps that come and go, swap, clear. Each decides its answer first, and
// moves words only where that is done.
#![tactic(auto)]

pub mod answer;
pub mod below;
pub mod clear;
pub mod free_slots;
pub mod linking;
pub mod questions;
pub mod steps;
pub mod store;
pub mod swap;
