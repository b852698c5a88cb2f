//! Boxes in memory.

use bw_device::{Desk, Segment};
use std::alloc::Global;
use test_boxes::{Fuse, LEAST, NEVER, segments_of};

/// Boxes, and the desk of their leases.
pub(super) struct Supply {
    pub(super) boxes: Vec<Box<dyn Segment>>,
    pub(super) desk: Desk,
}

/// So many boxes, of which the first ones have the bytes of these texts in hex, and the others
/// none; the first one fails once, if asked, after so many calls, and keeps so many bytes.
pub(super) fn supplied(
    alloc: Global,
    many: usize,
    texts: &[&'static str],
    fuse: Option<Fuse>,
) -> Option<Supply> {
    let fuse = fuse.unwrap_or(NEVER);
    let (segments, desk) = segments_of(alloc, many, texts, LEAST, fuse)?;
    let mut boxes: Vec<Box<dyn Segment>> = Vec::new(alloc);
    for segment in segments {
        boxes.push(Box::new(alloc, segment).ok()?).ok()?;
    }
    Some(Supply { boxes, desk })
}
