//! The segments over which a store is: how many, how large, and one in memory.

use crate::options::Options;
use bw_device::{Desk, MemSegment};
use std::alloc::Global;

/// How many bytes a segment has room for, all of which it takes when it is made.
pub const CAPACITY: u64 = 16_777_216;

/// The most bytes that a put adds to the log beside its key and value, of which a second copy is
/// its part of a page that is split.
const AROUND: u64 = 144;

/// How many segments hold all puts, with two spares more.
pub fn count_of(options: Options) -> u32 {
    let pair = u64::from(options.shared) + u64::from(options.value_length);
    let bytes = options.puts().saturating_mul(AROUND + 2 * pair);
    let full = bytes / CAPACITY;
    u32::try_from(full).unwrap_or(u32::MAX).saturating_add(4)
}

/// A segment in memory of the desk's next lease. It has one.
pub fn memory(
    alloc: Global,
    desk: &mut Desk,
    capacity: u64,
    bytes: &[u8],
) -> Option<Box<MemSegment>> {
    let lease = desk.take().ok()?;
    let segment = MemSegment::with_bytes(alloc, lease, capacity, bytes).ok()?;
    Box::new(alloc, segment).ok()
}
