//! Append-only segments, leases on them, and segments that fail on purpose.
//!
//! A segment is a place that bytes are appended to and read from, and `Segment` is all that a log
//! knows of one: what it holds, how much it can hold, the number of its lease, and how many of its
//! calls failed. A failed append may leave any beginning of its piece, which is also what a crash
//! in the middle of it leaves, so whoever is proved against the trait is proved against both. A
//! `Desk` gives out numbers, so that no two segments have one at the same time. A number comes back
//! by one atomic store when its lease is dropped, in whatever thread, and is free from the next
//! `collect` on.
#![tactic(auto)]

mod boxes;
mod dead;
mod fuse;
mod leases;
mod memory;
mod refusals;
mod segments;

pub use boxes::{
    append_to, are_spares, capacity_of, failures_of, is_spare, lease_of, len_of, lend_of, read_from,
};
pub use dead::DeadSegment;
pub use fuse::FuseSegment;
pub use leases::{Desk, Lease, MAX_LEASES};
pub use memory::{MAX_CAPACITY, MemSegment};
pub use refusals::{NotMade, NotTaken, Refused};
pub use segments::{Fault, Segment};
