//! Calls on a core, and on a store with readers, as steps: each goes over both, and the answer is
//! whether it went as it was to. A test is a table of steps (`steps`).
#![tactic(auto)]

pub mod asking;
pub mod putting;
mod questions;
pub mod reading;
pub mod steps;
pub mod subject;
