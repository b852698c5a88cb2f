//! Values that only the proof knows.
#![tactic(auto)]

mod told;

pub use told::Told;
