//! What the crates of tests stand on: worked segments and bytes shown as text, tables that are gone
//! through, and calls whose memory is refused.
#![tactic(auto)]

pub mod marks;
pub mod refusals;
pub mod tables;
pub mod vectors;
