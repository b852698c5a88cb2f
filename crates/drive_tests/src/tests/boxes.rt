//! Boxes in memory.

use bw_device::Segment;
use bw_store::Config;
use std::alloc::Global;
use test_boxes::{Fuse, LEAST, NEVER, segments_of};

/// So many boxes of this capacity without bytes, of which the first one fails so.
pub(super) fn boxes_of(
    alloc: Global,
    many: usize,
    capacity: u64,
    fuse: Fuse,
) -> Option<Vec<Box<dyn Segment>>> {
    let (segments, _desk) = segments_of(alloc, many, &[], capacity, fuse)?;
    let mut boxes: Vec<Box<dyn Segment>> = Vec::new(alloc);
    for segment in segments {
        boxes.push(Box::new(alloc, segment).ok()?).ok()?;
    }
    Some(boxes)
}

/// The numbers of a store of two writers.
pub(super) const TWO_WRITERS: &Config = &Config {
    writers: 2,
    places: 8,
    readers: 1,
    m: 4,
    f: 65_536,
};

/// Four boxes of the least capacity.
pub(super) fn four_boxes(alloc: Global) -> Option<Vec<Box<dyn Segment>>> {
    boxes_of(alloc, 4, LEAST, NEVER)
}
