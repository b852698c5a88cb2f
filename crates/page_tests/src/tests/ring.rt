//! `bw_ring`: an end of a ring asks the ring for what it does not know yet, and a ring carries records
//! between two threads.
//!
//! Tables of steps, each walked to the first that goes otherwise than expected.

mod ends;
mod rings;
mod threads;
