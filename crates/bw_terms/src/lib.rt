//! What a store is opened with, and what it refuses.
//!
//! Whoever opens a store names its numbers, and finds here which are in range; each call that is
//! refused answers one of these faults. They are the words of a store to those who use it, and the
//! store stands on them: nothing here keeps a page, a record or a segment. A fault of a page, of a
//! log or of a cleaning is said in the store's words, each by one clause (`specs/Told.antt`).
#![tactic(auto)]

mod config;
mod fault;

pub use config::Config;
pub use fault::{OpenFault, StoreFault, TurnFault};
