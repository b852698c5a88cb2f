//! Yards with boxes of worked bytes.

use bw_device::{Desk, Segment};
use std::alloc::Global;
use std::mem;
use test_boxes::{Fuse, Kept, LEAST, NEVER, Piece, bytes_of, fused};

/// A desk, and boxes with leases of it.
#[derive(Drop)]
pub(super) struct Yard {
    pub(super) alloc: Global,
    pub(super) desk: Desk,
    pub(super) boxes: Vec<Box<dyn Segment>>,
}

/// A yard without a box.
pub(super) fn empty_yard(alloc: Global, leases: u32) -> Option<Yard> {
    match Desk::new(alloc, leases) {
        Ok(desk) => Some(Yard {
            alloc,
            desk,
            boxes: Vec::new(alloc),
        }),
        Err(_) => None,
    }
}

/// Whether one more box of this room stands there, which holds these bytes and fails so.
pub(super) fn add_box(yard: &mut Yard, bytes: &[u8], room: u64, fuse: Fuse) -> bool {
    let Some(segment) = fused(yard.alloc, &mut yard.desk, bytes, room, fuse) else {
        return false;
    };
    match Box::new(yard.alloc, segment) {
        Ok(one) => yard.boxes.push(one).is_ok(),
        Err(_) => false,
    }
}

/// Whether so many boxes more of this room stand there, of which each holds these bytes.
pub(super) fn add_boxes(yard: &mut Yard, many: u32, bytes: &[u8], room: u64) -> bool {
    for _ in 0..many {
        if !add_box(yard, bytes, room, NEVER) {
            return false;
        }
    }
    true
}

/// What stood in a yard.
pub(super) fn all_out(yard: &mut Yard) -> Vec<Box<dyn Segment>> {
    mem::replace(&mut yard.boxes, Vec::new(yard.alloc))
}

/// What stood in a yard, where one more box of this room stands from then on.
pub(super) fn taken_out(yard: &mut Yard, room: u64) -> Option<Vec<Box<dyn Segment>>> {
    let boxes = all_out(yard);
    if add_box(yard, &[], room, NEVER) {
        Some(boxes)
    } else {
        None
    }
}

/// Whether one more box stands there, for a piece.
pub(super) fn add_piece(yard: &mut Yard, piece: &Piece, room: u64, fuse: Fuse) -> bool {
    match bytes_of(yard.alloc, piece) {
        Some(bytes) => add_box(yard, &bytes, room, fuse),
        None => false,
    }
}

/// Whether a box of the least capacity stands there for each piece.
pub(super) fn add_pieces(yard: &mut Yard, pieces: &[Piece]) -> bool {
    for piece in pieces {
        if !add_piece(yard, piece, LEAST, NEVER) {
            return false;
        }
    }
    true
}

/// Whether a box stands there for each of these, of which one fails so.
pub(super) fn add_kept(yard: &mut Yard, fuse: Fuse, all: &[Kept]) -> bool {
    for (piece, room, fails) in all {
        let fuse = if *fails { fuse } else { NEVER };
        if !add_piece(yard, piece, *room, fuse) {
            return false;
        }
    }
    true
}
