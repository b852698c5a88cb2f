//! A log is written whole: pairs in the order of their keys become full pages, one after the other.
//!
//! A log that grew by records has Deltas, Splits and pages that are half full. What is written here
//! has only Bases: page 1 with the empty low, then pages whose low is their first key, each full
//! but for the last. They stand in frames as long as those may be, and these in segments. Nothing
//! of it is judged by whether a folder holds it: a `Writer` makes bytes, and who writes them into
//! files is another (`bw_rescue`).
#![tactic(auto)]

mod fault;
mod frames;
pub mod laws;
mod writer;

pub use fault::{NotPut, WholeFault};
pub use writer::Writer;
