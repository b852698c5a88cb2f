//! Each byte of each vector changed: recovery never stops short, and hands the box back or finds
//! leaves, which are lawful by their type.

use super::boxes::{add_box, all_out, empty_yard};
use bw_care::recover;
use bw_device::Segment;
use std::alloc::Global;
use test_boxes::NEVER;
use test_kit::tables::{Table, WrongStep, tables_go};
use test_kit::vectors::{
    FIRST, GREATEST, OLD_FIRST, OLD_GREATEST, OLD_SECOND, OLD_THIRD_NEWER, SECOND, THIRD_NEWER,
};

// Whether the boxes of a yard, which is one, are answered.
fn are_answered(alloc: Global, boxes: Vec<Box<dyn Segment>>) -> bool {
    match recover(alloc, boxes) {
        Ok(found) => found.leaves.count() > 0 && found.log.live() == 1,
        Err(fault) => fault.boxes.len() == 1,
    }
}

// Whether one box with these bytes is answered.
fn is_answered(alloc: Global, bytes: &[u8]) -> bool {
    match empty_yard(alloc, 1) {
        Some(mut one) => {
            add_box(&mut one, bytes, 1_000, NEVER) && are_answered(alloc, all_out(&mut one))
        }
        None => false,
    }
}

// The first byte that was changed to one of these values without an answer.
fn first_unanswered(alloc: Global, bytes: &mut [u8]) -> Option<usize> {
    for at in 0..bytes.len() {
        let kept = bytes[at];
        for byte in [0x00, 0x01, 0x7f, 0xff] {
            bytes[at] = byte;
            if !is_answered(alloc, bytes) {
                return Some(at);
            }
        }
        bytes[at] = kept;
    }
    None
}

// A vector of so many bytes.
struct OfBytes(&'static str, usize);

impl Table for OfBytes {
    // The first byte that was changed without an answer.
    fn wrong_step(&self, alloc: Global) -> Option<usize> {
        match hex::decode(alloc, self.0) {
            Ok(mut bytes) if bytes.len() == self.1 => first_unanswered(alloc, bytes.as_mut_slice()),
            _ => Some(self.1),
        }
    }
}

const VECTORS: &[OfBytes] = &[
    OfBytes(FIRST, 77),
    OfBytes(SECOND, 297),
    OfBytes(THIRD_NEWER, 107),
    OfBytes(GREATEST, 52),
    OfBytes(OLD_FIRST, 76),
    OfBytes(OLD_SECOND, 289),
    OfBytes(OLD_THIRD_NEWER, 104),
    OfBytes(OLD_GREATEST, 52),
];

#[test]
fn each_changed_byte_is_answered(rt: HostRuntime) -> Result<(), WrongStep> {
    tables_go(rt.alloc(), VECTORS)
}
