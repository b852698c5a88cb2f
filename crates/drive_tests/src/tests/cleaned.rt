//! A run with cleanings is recovered from the segments that it leaves.

use super::reading::reads;
use super::scripts::Part;
use super::steps::Step::Drives;
use super::steps::{MANY, Pace, Run};
use super::walking::{PLAIN, Table, walked};
use bw_care::recover;
use bw_device::Segment;
use bw_drive::OpenGate;
use bw_store::Store;
use std::sync::Wait;
use std::thread::Threads;

/// 8,000 records of each writer, over 100 keys in turn.
const PART: Part = Part(0, 8000, 100);

/// The oldest segment is given up if three are live.
const PACE: Pace = Pace(64, 4, 3, MANY);

const BOXES: u32 = 64;

const TABLE: &Table = &Table {
    name: "cleaned",
    boxes: BOXES,
    steps: &[Drives(Run(PART, PACE, Ok((8000, 8000))))],
    ..PLAIN
};

// Whether each key is in the pages recovered from these boxes.
fn are_read_back<R: AllocGlobal + Wait>(rt: &R, boxes: Vec<Box<dyn Segment>>) -> bool {
    let Ok(found) = recover(rt.alloc(), boxes) else {
        return false;
    };
    let Ok((mut store, _)) = Store::reopen(rt, rt.alloc(), found, 2, 8, 1) else {
        return false;
    };
    let are_read = reads(&mut store, 2, PART.1, PART.2) && store.history().is_empty();
    let _ = store.shut(rt);
    are_read
}

// Whether each key is in the pages recovered from all boxes that the table leaves, of which some
// were given up.
fn is_recovered<R: AllocGlobal + Threads + Wait>(rt: &R) -> bool {
    let Ok((mut boxes, mut spares)) = walked(rt, TABLE, &OpenGate) else {
        return false;
    };
    // What was put fills seven segments at least, and one may have been begun since the last
    // cleaning.
    let few = boxes.len() <= 4 && boxes.len() + spares.len() + 3 <= BOXES as usize;
    few && boxes.append(&mut spares).is_ok() && are_read_back(rt, boxes)
}

#[test]
fn a_run_with_cleanings_is_recovered(rt: HostRuntime) {
    assert!(rt; is_recovered(&rt));
}
