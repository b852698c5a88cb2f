//! The history leaves memory, receipts of writers, and how many pairs there are: the tables.

use super::walking::{Stand, Tables, all_go};
use test_subjects::putting::Op::{Set, Unset};
use test_subjects::steps::Step;
use test_subjects::steps::Step::{
    Clean, Count, Cuts, Del, Evict, Flush, Forget, Frame, Get, Group, History, Page, Put, Puts,
    Reads, Receipt, Roll, Settle, Stands, Turn,
};

/// What was only taken stays in memory, and what was flushed leaves it once. Receipts count what
/// was flushed, of each writer by itself.
const BY_FLUSHES: &[Step] = &[
    Count(0),
    Receipt(0, 0),
    Put(0, b"a", b"1"),
    Put(1, b"b", b"1"),
    Put(0, b"a", b"2"),
    Receipt(0, 0),
    Turn(9, 3),
    Receipt(0, 0),
    Receipt(1, 0),
    Forget(0, 0),
    Count(2),
    Flush(Some(1)),
    Receipt(0, 2),
    Receipt(1, 1),
    Receipt(2, 0),
    Receipt(65_535, 0),
    Put(1, b"c", b"3"),
    Turn(9, 1),
    Receipt(1, 1),
    History("0 put a 1;1 put b 1;0 put a 2;1 put c 3;"),
    Forget(3, 3),
    History("1 put c 3;"),
    Forget(0, 3),
    Cuts(&[3], 1),
    Put(0, b"b", b"4"),
    Settle(5),
    Receipt(0, 3),
    Receipt(1, 2),
    History("1 put c 3;0 put b 4;"),
    Forget(2, 5),
    History(""),
    Cuts(&[3, 5], 2),
    Count(3),
    Page(1, "1 : a=2 b=4 c=3"),
    Get(b"b", b"4"),
    Settle(5),
    Forget(0, 5),
];

/// A group is counted by its records.
const GROUPS: &[Step] = &[
    Group(1, &[Set(b"a", b"1"), Set(b"b", b"2"), Unset(b"a")]),
    Put(0, b"c", b"3"),
    Turn(9, 4),
    Receipt(1, 0),
    Flush(Some(1)),
    Receipt(1, 3),
    Receipt(0, 1),
    Forget(4, 4),
    Group(1, &[Set(b"d", b"4"), Set(b"e", b"5")]),
    Settle(6),
    Receipt(1, 5),
    Count(4),
];

/// A cleaning's cuts are those of a history that is forgotten.
const CLEANED: &[Step] = &[
    Frame(b"k", b"1", 1),
    Forget(1, 1),
    Roll,
    Put(1, b"j", b"2"),
    Turn(9, 1),
    Flush(Some(2)),
    Clean(1, 0, 1, 1),
    Receipt(0, 1),
    Receipt(1, 1),
    Cuts(&[1, 2, 2], 3),
    Forget(1, 2),
    Page(1, "1 : j=2 k=1"),
    Del(0, b"k"),
    Settle(3),
    Count(1),
    Forget(1, 3),
    Stands(1, 2),
];

/// Pages that are evicted are counted too.
const AWAY: &[Step] = &[
    Puts(0, 750),
    Puts(1, 750),
    Settle(1500),
    Forget(1500, 1500),
    Count(1500),
    Evict(1, Ok(true)),
    Evict(2, Ok(true)),
    Evict(9, Ok(true)),
    Count(1500),
    Reads(750),
    Receipt(0, 750),
    Receipt(1, 750),
];

const FORGOTTEN: &[Tables] = &[
    (Stand::Boxes(4, 8), &[BY_FLUSHES, GROUPS, CLEANED]),
    (Stand::Boxes(12, 1024), &[AWAY]),
];

#[test]
fn what_readers_have_leaves_memory_once(rt: HostRuntime) {
    all_go(&rt, FORGOTTEN);
}
