//! Segments, desks and the log: that calls succeed if memory is there, that a lease comes back when
//! it is dropped, which box takes what, and the worked bytes.

ghost use Rattle.std.specs.Prelude.{◌≡◌, ◌≤◌, [], true, length, IfSome};
ghost use Rattle.std.specs.List.{AllByRecursion};
ghost use Rattle.bw_buffer.specs.Joining.{added};
ghost use Rattle.bw_codec.specs.Grammar.{IsBlock};

use bw_buffer::Buffer;
use bw_codec::Block;
use bw_device::{Desk, Segment};
use std::alloc::Global;
use std::mem;
use test_boxes::{Fuse, LEAST, NEVER, fused};

mod devices;
mod failing;
mod filled;
mod memory;
mod page;
mod spares;
mod splits;
mod walking;

// A sealed buffer of these blocks.
fn sealed(alloc: Global, frame: u64, blocks: &[Block]) -> Option<Buffer>
    requires numbered { 1 ≤ frame }
    requires some { 1 ≤ length blocks.now }
    requires lawful { AllByRecursion (IsBlock 32) blocks.now }
    ensures { IfSome result (λ b. b ≡ record {
      frame = frame;
      limit = 65536;
      blocks = added [] blocks.now;
      is_sealed = true;
    }) }
{
    let Ok(mut buffer) = Buffer::new(alloc, frame, 65_536) else {
        return None;
    };
    match buffer.put_all(blocks) {
        Ok(_) => {
            buffer.seal();
            Some(buffer)
        }
        Err(_) => None,
    }
}

/// A desk, and boxes with leases of it.
#[derive(Drop)]
struct Yard {
    alloc: Global,
    desk: Desk,
    boxes: Vec<Box<dyn Segment>>,
}

/// A yard without a box.
fn empty_yard(alloc: Global, leases: u32) -> Option<Yard> {
    match Desk::new(alloc, leases) {
        Ok(desk) => Some(Yard {
            alloc,
            desk,
            boxes: Vec::new(alloc),
        }),
        Err(_) => None,
    }
}

/// Whether one more box of this room stands there, which holds these bytes and fails so.
fn add_box(yard: &mut Yard, bytes: &[u8], room: u64, fuse: Fuse) -> bool {
    let Some(segment) = fused(yard.alloc, &mut yard.desk, bytes, room, fuse) else {
        return false;
    };
    match Box::new(yard.alloc, segment) {
        Ok(one) => yard.boxes.push(one).is_ok(),
        Err(_) => false,
    }
}

/// Whether a box of the least capacity stands there, which fails so, and after it so many more.
fn add_boxes(yard: &mut Yard, more: u32, fuse: Fuse) -> bool {
    if !add_box(yard, &[], LEAST, fuse) {
        return false;
    }
    for _ in 0..more {
        if !add_box(yard, &[], LEAST, NEVER) {
            return false;
        }
    }
    true
}

/// A yard of a box of the least capacity, which fails so, and so many more, with leases from 0 on.
fn yard_of(alloc: Global, more: u32, fuse: Fuse) -> Option<Yard> {
    let Some(mut full) = empty_yard(alloc, 8) else {
        return None;
    };
    if add_boxes(&mut full, more, fuse) {
        Some(full)
    } else {
        None
    }
}

/// What stood in a yard, in which one more box of this room stands then.
fn taken_out(yard: &mut Yard, room: u64) -> Option<Vec<Box<dyn Segment>>> {
    let boxes = mem::replace(&mut yard.boxes, Vec::new(yard.alloc));
    if add_box(yard, &[], room, NEVER) {
        Some(boxes)
    } else {
        None
    }
}
