//! The mode `threads` of the program `bwlog`: each writer's script is run by a thread of its own
//! over one store, and readers look keys up meanwhile.
#![tactic(auto)]

mod legs;
mod readers;
mod room;
mod runs;
mod writers;

pub use writers::threads;
