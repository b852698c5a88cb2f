//! A store that lives twice: it ends, is recovered from what its boxes hold, and goes on.
//!
//! This is what a process does that stops and starts again, with the boxes handed on in memory: so
//! one contract says what of the first life the second begins with (`specs/Lives.antt`). A store
//! whose append failed stands for one that was stopped in the middle of it.
#![tactic(auto)]

mod fault;
mod laws;
mod lives;

pub use fault::ReliveFault;
pub use laws::lives_lose_nothing;
pub use lives::relive;
