//! Segments in memory with the bytes of texts in hex, and what is recovered from boxes. Each crate
//! of tests puts the segments into boxes itself.

ghost use Rattle.std.specs.Prelude.{IfSome};
ghost use Rattle.bw_care.specs.Found.{IsRecovered};

use bw_care::{Recovered, recover};
use bw_device::{Desk, FuseSegment, MemSegment, Segment};
use std::alloc::Global;

/// The least capacity of a box for frames of 65,536 bytes.
pub const LEAST: u64 = 65_560;

/// After how many of its calls a box fails, once, and how many bytes of an append it then keeps.
pub type Fuse = (u64, u64);

/// No box has so many calls.
pub const NEVER: Fuse = (u64::MAX, 0);

/// One more segment of a desk, of this room, which holds these bytes and fails so.
pub fn fused(
    alloc: Global,
    desk: &mut Desk,
    bytes: &[u8],
    room: u64,
    fuse: Fuse,
) -> Option<FuseSegment> {
    let segment = MemSegment::with_bytes(alloc, desk.take().ok()?, room, bytes).ok()?;
    Some(FuseSegment::new(segment, fuse.0, fuse.1))
}

/// So many segments of this capacity, with leases 0, 1, .., of which the first ones have the bytes
/// of these texts in hex, and the others none; the first one fails so. And the desk of their
/// leases.
pub fn segments_of(
    alloc: Global,
    many: usize,
    texts: &[&'static str],
    capacity: u64,
    fuse: Fuse,
) -> Option<(Vec<FuseSegment>, Desk)> {
    let mut desk = Desk::new(alloc, 64).ok()?;
    let mut segments = Vec::new(alloc);
    let mut fuse = fuse;
    for i in 0..many {
        let bytes = hex::decode(alloc, texts.get(i).copied().unwrap_or("")).ok()?;
        segments
            .push(fused(alloc, &mut desk, &bytes, capacity, fuse)?)
            .ok()?;
        fuse = NEVER;
    }
    Some((segments, desk))
}

/// What is recovered from boxes.
pub fn found_in(alloc: Global, boxes: Vec<Box<dyn Segment>>) -> Option<Recovered>
    ensures { IfSome result (λ r. IsRecovered holding r) }
{
    match recover(alloc, boxes) {
        Ok(found) => Some(found),
        Err(_) => None,
    }
}
