//! One run of bytes, which its owners share: one allocation has the count, the length and the
//! bytes, and an owner is one pointer.
#![tactic(auto)]

mod room;
mod run;

pub use run::Run;
