//! Pages are written again, and pages that are evicted answer from their newest frame: the tables.

use super::walking::{Stand, Tables, all_go};
use bw_store::StoreFault;
use test_subjects::steps::Step;
use test_subjects::steps::Step::{
    Add, Clean, Cuts, Del, Evict, Flush, Get, History, Live, Needed, Page, Put, Rewrite, Roll,
    Settle, Taken, Unread, Walk,
};

/// A frame has 20 bytes around its blocks, a Delta of one put 25, a Base of two pairs 18. What
/// waits is flushed first. A page that is named twice is written twice, and no page is no frame.
const WRITTEN_AGAIN: &[Step] = &[
    Walk(1, Some(0)),
    Put(0, b"k", b"1"),
    Settle(1),
    Walk(1, Some(1)),
    Put(0, b"j", b"2"),
    Settle(2),
    Walk(1, Some(2)),
    Live(0, 1, 0, 122),
    Taken(b"k", b"3"),
    Walk(1, Some(2)),
    Rewrite(&[1], Ok(1)),
    Walk(1, Some(1)),
    Walk(0, None),
    Walk(2, None),
    Live(0, 1, 0, 205),
    Cuts(&[1, 2, 3, 3], 4),
    Page(1, "1 : j=2 k=3"),
    Needed(0, Some(18)),
    History("0 put k 1;0 put j 2;0 put k 3;"),
    Rewrite(&[], Ok(0)),
    Live(0, 1, 0, 205),
    Rewrite(&[1, 1], Ok(1)),
    Live(0, 1, 0, 261),
    Cuts(&[1, 2, 3, 3, 3], 5),
    Evict(1, Ok(true)),
    Page(1, "1 : j=2 k=3"),
    Put(0, b"k", b"4"),
    Settle(4),
    Walk(1, Some(2)),
    Page(1, "1 : j=2 k=4"),
];

/// No page stands after the last one, and none has the number 0: then nothing is flushed either.
const NO_PAGE: &[Step] = &[
    Taken(b"k", b"1"),
    Rewrite(&[0], Err(StoreFault::NoPage)),
    Rewrite(&[2], Err(StoreFault::NoPage)),
    Rewrite(&[1, 2], Err(StoreFault::NoPage)),
    Cuts(&[], 0),
    Flush(Some(1)),
    Rewrite(&[1], Ok(1)),
];

/// A page that was written again does not need the segment before, and a cleaning writes nothing.
const GIVEN_UP: &[Step] = &[
    Put(0, b"k", b"1"),
    Settle(1),
    Roll,
    Rewrite(&[1], Ok(1)),
    Needed(0, Some(0)),
    Needed(1, Some(13)),
    Put(0, b"k", b"1"),
    Settle(2),
    Walk(1, Some(2)),
    Clean(1, 0, 0, 0),
    Walk(1, Some(2)),
    Page(1, "1 : k=1"),
];

const TABLES: &[Tables] = &[(Stand::Boxes(4, 8), &[WRITTEN_AGAIN, NO_PAGE, GIVEN_UP])];

#[test]
fn pages_are_written_again(rt: HostRuntime) {
    all_go(&rt, TABLES);
}

/// A header, a frame and the read of a page pass; the append fails, and the log with it.
const FAILED: &[Step] = &[
    Put(0, b"k", b"1"),
    Settle(1),
    Roll,
    Put(0, b"j", b"2"),
    Settle(2),
    Rewrite(&[1], Err(StoreFault::Device { lease: 1 })),
    Page(1, "1 : j=2 k=1"),
    Rewrite(&[1], Err(StoreFault::Failed)),
];

/// The first segment's header and frame pass, and then one read fails: a value of the second
/// segment is answered without it, and so is a key that was deleted there; the page is not.
const NEWEST_FIRST: &[Step] = &[
    Add,
    Put(0, b"k", b"1"),
    Put(0, b"j", b"2"),
    Settle(2),
    Roll,
    Put(0, b"k", b"3"),
    Settle(3),
    Del(0, b"j"),
    Settle(4),
    Evict(1, Ok(true)),
    Get(b"k", b"3"),
    Get(b"j", b""),
    Unread(1, StoreFault::Device { lease: 0 }),
    Get(b"i", b""),
    Page(1, "1 : k=3"),
];

const FAILS: &[Tables] = &[
    (Stand::Fuse(1, (3, 3), (0, 0)), &[FAILED]),
    (Stand::Fuse(0, (2, 2), (0, 0)), &[NEWEST_FIRST]),
];

#[test]
fn what_cannot_be_read_or_appended_is_told(rt: HostRuntime) {
    all_go(&rt, FAILS);
}
