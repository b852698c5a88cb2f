//! Marks by which a test speaks with the shim that refuses allocations (`tools/refuse.c`).
//!
//! A mark is an allocation of a length that no other call asks for. What is to be refused is said
//! before what is asked stands, so that a test makes all that it needs with memory, and one call
//! without. If there is no shim, nothing is refused: each test then asks its calls only with
//! memory.

use std::alloc::Global;

/// No system grants so many bytes: the shim reads the number above it, and grants them neither.
const FAR: usize = 1 << 60;

/// A window in which one allocation is refused.
const BEGIN: usize = 1 << 61;

/// A window in which each one is.
const WITHOUT: usize = (1 << 61) + 1;

/// The shim grants so many bytes if it refused none in the window, which this ends.
const END: usize = 1_000_003;

/// Whether so many bytes are refused.
fn is_refused(alloc: Global, bytes: usize) -> bool {
    let told: Result<Vec<u8>, _> = Vec::with_capacity(alloc, bytes);
    told.is_err()
}

/// From here on the windows' allocation of this number, counted from 1, is refused.
pub fn refuse(alloc: Global, number: u32) {
    let _ = is_refused(alloc, FAR.saturating_add(number as usize));
}

/// Begins a window: its allocations count.
pub fn begin(alloc: Global) {
    let _ = is_refused(alloc, BEGIN);
}

/// Begins a window in which each allocation is refused.
pub fn begin_without(alloc: Global) {
    let _ = is_refused(alloc, WITHOUT);
}

/// Ends the window, and answers whether an allocation was refused in it.
pub fn end(alloc: Global) -> bool {
    is_refused(alloc, END)
}
