//! Numbers that stand at their greatest value: what a flush answers, and at which place.

use super::boxes::worn;
use super::walking::{Stand, Tables, all_go};
use bw_care::{RecoverCause, recover};
use bw_store::StoreFault;
use std::alloc::Global;
use test_kit::vectors::{FIRST, GREATEST};
use test_subjects::steps::Step;
use test_subjects::steps::Step::{Live, Page, Put, Refused, Roll, Stands, Turn};

/// The first worked segment, with the greatest number.
const LAST_SEGMENT: &str =
    "42574c4f47534732ffffffffffffffff040000000000010046524d3201000000000000002100000002000000\
    02010000000000000101000000010000000000000000000000010001016b010076";

/// No segment follows, and the roster stays.
const NO_SEGMENT_LEFT: &[Step] = &[
    Roll,
    Put(0, b"j", b"2"),
    Turn(8, 1),
    Refused(StoreFault::Spent),
    Refused(StoreFault::Spent),
    Stands(1, 2),
    Live(0, u64::MAX, 0, 77),
    Page(1, "1 : j=2 k=v"),
];

/// That a spare is wanting is said before.
const NO_SPARE_LEFT: &[Step] = &[
    Roll,
    Put(0, b"j", b"2"),
    Turn(8, 1),
    Refused(StoreFault::NoSegment),
    Stands(1, 1),
];

/// That no frame follows is said before both, and if nothing waits.
const NO_FRAME_LEFT: &[Step] = &[
    Refused(StoreFault::Spent),
    Roll,
    Refused(StoreFault::Spent),
    Stands(1, 1),
];

/// A failure of the box that would be begun could not be counted.
const NO_FAILURE_LEFT: &[Step] = &[
    Put(0, b"j", b"2"),
    Turn(8, 1),
    Refused(StoreFault::Spent),
    Refused(StoreFault::Spent),
    Stands(0, 2),
    Page(1, "1 : j=2"),
];

/// That a second spare is wanting is said before.
const ONE_WORN_SPARE: &[Step] = &[
    Put(0, b"j", b"2"),
    Turn(8, 1),
    Refused(StoreFault::NoSegment),
    Stands(0, 1),
];

const TABLES: &[Tables] = &[
    (Stand::Bytes(&[LAST_SEGMENT]), &[NO_SEGMENT_LEFT]),
    (Stand::Last(&[LAST_SEGMENT]), &[NO_SPARE_LEFT]),
    (Stand::Last(&[GREATEST]), &[NO_FRAME_LEFT]),
    (Stand::Worn(1), &[NO_FAILURE_LEFT]),
    (Stand::Worn(0), &[ONE_WORN_SPARE]),
];

#[test]
fn a_flush_tells_a_counter_at_its_greatest_value(rt: HostRuntime) {
    all_go(&rt, TABLES);
}

// Whether a recovery of these bytes in a box that is not asked is refused, and all three come back.
fn is_refused(alloc: Global) -> bool {
    let Some(supply) = worn(alloc, FIRST, 2) else {
        return false;
    };
    match recover(alloc, supply.boxes) {
        Ok(_) => false,
        Err(fault) => fault.cause == RecoverCause::Spent && fault.boxes.len() == 3,
    }
}

#[test]
fn a_recovery_asks_no_box_whose_failures_cannot_be_counted(rt: HostRuntime) {
    assert!(rt; is_refused(rt.alloc()));
}
