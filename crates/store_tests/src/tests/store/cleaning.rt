//! The oldest segment is given up: the tables.

use super::walking::{Stand, Tables, all_go};
use bw_store::StoreFault;
use test_kit::vectors::{THIRD_NEWER, THIRD_OLDER};
use test_subjects::putting::Op::Set;
use test_subjects::putting::{AGAIN, TWO};
use test_subjects::steps::Step;
use test_subjects::steps::Step::{
    Add, Bytes, Clean, Cuts, Flush, Frame, Get, History, Live, Lives, Page, Put, Refused, Roll,
    Segments, Settle, Stands, Taken, Uncleaned,
};

/// A cleaning that writes a page again, then one with nothing to write, then none.
const THREE_SEGMENTS: &[Step] = &[
    Segments(1, AGAIN),
    Stands(3, 1),
    Clean(1, 0, 1, 1),
    Page(1, "1 : j=2 k=3"),
    Cuts(&[1, 2, 3, 3], 4),
    Lives(&[(2, 1, 69), (3, 2, 107)]),
    Stands(2, 1),
    Bytes(2, THIRD_OLDER),
    Bytes(3, THIRD_NEWER),
    Clean(2, 1, 0, 0),
    Live(0, 3, 2, 107),
    Stands(1, 1),
    Cuts(&[1, 2, 3, 3], 4),
    Uncleaned(StoreFault::NothingOld),
    Settle(3),
    Page(1, "1 : j=2 k=3"),
];

/// What waits is not flushed if nothing is old.
const NOTHING_OLD: &[Step] = &[
    Uncleaned(StoreFault::NothingOld),
    Cuts(&[], 0),
    Frame(b"k", b"v", 1),
    Taken(b"j", b"w"),
    Uncleaned(StoreFault::NothingOld),
    Cuts(&[1], 1),
    Live(0, 1, 0, 77),
    Flush(Some(2)),
    Cuts(&[1, 2], 2),
];

/// If one spare is left, a flush is refused; the flush of a cleaning takes it.
const THREE_BOXES: &[Step] = &[
    Segments(1, TWO),
    Roll,
    Taken(b"c", b"3"),
    Refused(StoreFault::NoSegment),
    Stands(2, 1),
    Clean(1, 0, 1, 1),
    Lives(&[(2, 1, 69), (3, 2, 112)]),
    Stands(2, 0),
    Cuts(&[1, 2, 3, 3], 4),
    Page(1, "1 : a=1 b=2 c=3"),
    History("0 put a 1;0 put b 2;0 put c 3;"),
    Add,
    Stands(2, 1),
    Put(0, b"d", b"4"),
    Settle(4),
    Page(1, "1 : a=1 b=2 c=3 d=4"),
];

const TABLES: &[Tables] = &[
    (Stand::Boxes(4, 8), &[THREE_SEGMENTS, NOTHING_OLD]),
    (Stand::Boxes(3, 8), &[THREE_BOXES]),
];

#[test]
fn the_oldest_segment_is_given_up(rt: HostRuntime) {
    all_go(&rt, TABLES);
}

/// The cleaner's append fails: no box is dropped, and pages and values are as before.
const FAILED: &[Step] = &[
    Segments(1, &[Set(b"k", b"1"), Set(b"j", b"2")]),
    Stands(2, 1),
    Uncleaned(StoreFault::Device { lease: 1 }),
    Stands(2, 1),
    Cuts(&[1, 2], 2),
    Page(1, "1 : j=2 k=1"),
    Get(b"k", b"1"),
    Uncleaned(StoreFault::Failed),
    Refused(StoreFault::Failed),
    Stands(2, 1),
    Page(1, "1 : j=2 k=1"),
];

/// A header, a frame and the read of a page pass; the cleaner's frame has 38 bytes.
const FAILS: &[Tables] = &[(Stand::Fuse(1, (3, 3), (0, 38)), &[FAILED])];

#[test]
fn a_failed_append_of_the_cleaner_drops_no_box(rt: HostRuntime) {
    all_go(&rt, FAILS);
}
