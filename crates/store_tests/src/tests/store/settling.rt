//! All that was accepted is taken and flushed: the tables.

use super::walking::{Stand, Tables, all_go};
use bw_store::StoreFault;
use test_subjects::steps::Step;
use test_subjects::steps::Step::{
    Add, Cuts, Del, Flush, Full, Get, History, Page, Put, Puts, Reads, Settle, Stands, Stops, Turn,
    Unsettled,
};

/// Rings of two places.
const TWO_PLACES: &[Step] = &[
    Put(0, b"a", b"1"),
    Put(0, b"b", b"2"),
    Full(0, b"c", b"3"),
    Turn(9, 2),
    Put(0, b"c", b"3"),
    Settle(3),
    History("0 put a 1;0 put b 2;0 put c 3;"),
    Cuts(&[3], 1),
    Page(1, "1 : a=1 b=2 c=3"),
];

/// Each of two equal records is an entry.
const ONE_KEY: &[Step] = &[
    Put(0, b"k", b"1"),
    Put(0, b"k", b"1"),
    Del(0, b"k"),
    Del(0, b"k"),
    Settle(4),
    History("0 put k 1;0 put k 1;0 del k;0 del k;"),
    Page(1, "1 :"),
    Get(b"k", b""),
];

/// What waits is taken lane by lane.
const WRITERS: &[Step] = &[
    Put(1, b"b", b"1"),
    Put(0, b"a", b"1"),
    Put(1, b"c", b"2"),
    Settle(3),
    History("0 put a 1;1 put b 1;1 put c 2;"),
    Cuts(&[3], 1),
    Settle(3),
];

/// A store with nothing to take has its first page to append.
const EMPTY: &[Step] = &[
    Settle(0),
    Cuts(&[0], 1),
    Page(1, "1 :"),
    Settle(0),
    Cuts(&[0], 1),
    Stands(1, 3),
];

/// One spare is not enough to begin a segment: what was taken stays, and one more is.
const NO_SPARE: &[Step] = &[
    Put(0, b"k", b"v"),
    Unsettled(StoreFault::NoSegment),
    History("0 put k v;"),
    Page(1, "1 : k=v"),
    Cuts(&[], 0),
    Put(1, b"j", b"w"),
    Add,
    Settle(2),
    History("0 put k v;1 put j w;"),
    Cuts(&[2], 1),
];

/// The append fails: what was taken stays, nothing is durable, and no more is taken.
const FAILED: &[Step] = &[
    Put(0, b"k", b"v"),
    Unsettled(StoreFault::Device { lease: 0 }),
    Cuts(&[1], 0),
    Page(1, "1 : k=v"),
    Unsettled(StoreFault::Failed),
    Put(1, b"j", b"w"),
    Stops(9, 0, StoreFault::Failed),
    Unsettled(StoreFault::Failed),
    History("0 put k v;"),
];

/// 1,500 records need several frames.
const FRAMES: &[Step] = &[
    Puts(0, 750),
    Puts(1, 750),
    Settle(1500),
    Reads(750),
    Turn(9, 0),
    Flush(None),
    Settle(1500),
    Reads(750),
];

const SETTLED: &[Tables] = &[
    (Stand::Boxes(4, 2), &[TWO_PLACES]),
    (Stand::Boxes(4, 8), &[ONE_KEY, WRITERS, EMPTY]),
    (Stand::Boxes(12, 1024), &[FRAMES]),
];

#[test]
fn all_that_was_accepted_is_settled(rt: HostRuntime) {
    all_go(&rt, SETTLED);
}

/// The append of the header fails, or that of the frame.
const REFUSED: &[Tables] = &[
    (Stand::Boxes(1, 8), &[NO_SPARE]),
    (Stand::Fuse(0, (0, 1), (10, 10)), &[FAILED]),
];

#[test]
fn a_refused_settle_keeps_what_it_took(rt: HostRuntime) {
    all_go(&rt, REFUSED);
}
