// The lower crate of the wiring store: its words, its counters and its slabs of ports.
#![tactic(auto)]

pub mod counters;
pub mod links;
pub mod node_entry;
pub mod port_entry;
pub mod rows;
pub mod slab;
