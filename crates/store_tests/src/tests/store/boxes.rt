//! Boxes in memory.

use super::opening::Supply;
use bw_device::{DeadSegment, Desk, FuseSegment, MemSegment, Segment};
use std::alloc::Global;

/// The least capacity of a box for frames of 65,536 bytes.
pub(super) const LEAST: u64 = 65_560;

/// Where boxes of one capacity come from.
#[derive(Drop)]
pub(super) struct Maker {
    alloc: Global,
    desk: Desk,
    capacity: u64,
}

pub(super) fn maker_of(alloc: Global, capacity: u64) -> Option<Maker> {
    Some(Maker {
        alloc,
        desk: Desk::new(alloc, 128).ok()?,
        capacity,
    })
}

impl Maker {
    /// A box more, with these bytes.
    pub(super) fn push(&mut self, bytes: &[u8], boxes: &mut Vec<Box<dyn Segment>>) -> Option<()> {
        let lease = self.desk.take().ok()?;
        let segment = MemSegment::with_bytes(self.alloc, lease, self.capacity, bytes).ok()?;
        boxes.push(Box::new(self.alloc, segment).ok()?).ok()
    }

    /// A box more, with the bytes of a text in hex.
    pub(super) fn push_hex(
        &mut self,
        text: &'static str,
        boxes: &mut Vec<Box<dyn Segment>>,
    ) -> Option<()> {
        let bytes = hex::decode(self.alloc, text).ok()?;
        self.push(&bytes, boxes)
    }

    /// So many boxes more.
    pub(super) fn fill(&mut self, many: u32, boxes: &mut Vec<Box<dyn Segment>>) -> Option<()> {
        for _ in 0..many {
            self.push(&[], boxes)?;
        }
        Some(())
    }

    // A box that fails once, after so many calls, and keeps so many bytes of an append.
    fn fuse(&mut self, fuse: (u64, u64), boxes: &mut Vec<Box<dyn Segment>>) -> Option<()> {
        let lease = self.desk.take().ok()?;
        let inner = MemSegment::new(self.alloc, lease, self.capacity).ok()?;
        let segment = FuseSegment::new(inner, fuse.0, fuse.1);
        boxes.push(Box::new(self.alloc, segment).ok()?).ok()
    }
}

/// Six boxes, of which the one with this lease fails for good after so many calls and keeps so many
/// bytes of an append.
pub(super) fn dying(alloc: Global, lease: u32, dead: (u64, u64)) -> Option<Supply> {
    let mut maker = maker_of(alloc, LEAST)?;
    let mut boxes: Vec<Box<dyn Segment>> = Vec::new(alloc);
    maker.fill(lease, &mut boxes)?;
    let inner = MemSegment::new(alloc, maker.desk.take().ok()?, LEAST).ok()?;
    let segment = DeadSegment::new(inner, dead.0, dead.1, 0);
    boxes.push(Box::new(alloc, segment).ok()?).ok()?;
    maker.fill(5u32.saturating_sub(lease), &mut boxes)?;
    Some(Supply {
        boxes,
        more: Vec::new(alloc),
    })
}

/// A box with the bytes of a text in hex, of which no further failure can be counted, and so many
/// after it.
pub(super) fn worn(alloc: Global, text: &'static str, behind: u32) -> Option<Supply> {
    let mut maker = maker_of(alloc, LEAST)?;
    let mut boxes: Vec<Box<dyn Segment>> = Vec::new(alloc);
    let bytes = hex::decode(alloc, text).ok()?;
    let lease = maker.desk.take().ok()?;
    let inner = MemSegment::with_bytes(alloc, lease, LEAST, &bytes).ok()?;
    let segment = DeadSegment::new(inner, 9, 0, u64::MAX);
    boxes.push(Box::new(alloc, segment).ok()?).ok()?;
    maker.fill(behind, &mut boxes)?;
    Some(Supply {
        boxes,
        more: Vec::new(alloc),
    })
}

/// Which boxes there are, each of this capacity.
#[derive(Clone, Copy)]
pub(super) struct Row {
    pub(super) boxes: u32,
    /// After them one that fails once, after so many calls, and keeps so many bytes of an append.
    pub(super) fuse: Option<(u64, u64)>,
    /// So many after that one.
    pub(super) behind: u32,
    /// So many more.
    pub(super) more: u32,
    pub(super) capacity: u64,
}

/// So many boxes of the least capacity, and so many more.
pub(super) fn plain(boxes: u32, more: u32) -> Row {
    Row {
        boxes,
        fuse: None,
        behind: 0,
        more,
        capacity: LEAST,
    }
}

/// So many boxes of that capacity, then one that fails so, and so many after it.
pub(super) fn fused(boxes: u32, fuse: (u64, u64), behind: u32) -> Row {
    Row {
        fuse: Some(fuse),
        behind,
        ..plain(boxes, 0)
    }
}

/// The boxes of a row, of one desk.
pub(super) fn supplied(alloc: Global, row: &Row) -> Option<Supply> {
    let mut maker = maker_of(alloc, row.capacity)?;
    let mut supply = Supply {
        boxes: Vec::new(alloc),
        more: Vec::new(alloc),
    };
    maker.fill(row.boxes, &mut supply.boxes)?;
    if let Some(fuse) = row.fuse {
        maker.fuse(fuse, &mut supply.boxes)?;
    }
    maker.fill(row.behind, &mut supply.boxes)?;
    maker.fill(row.more, &mut supply.more)?;
    Some(supply)
}
