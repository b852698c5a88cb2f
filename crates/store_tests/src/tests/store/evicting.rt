//! Pages leave memory and are read from their segments: the tables.

use super::walking::{Stand, Tables, all_go};
use bw_store::StoreFault;
use test_kit::vectors::FIRST;
use test_subjects::putting::{BESIDE_ZERO, FOUR, TWO};
use test_subjects::steps::Step;
use test_subjects::steps::Step::{
    Below, Clean, Del, Each, Evict, Flush, Frame, Get, Group, Last, Page, Pages, Put, Segments,
    Settle, Shared, Stands, Stops, Stretch, Taken, Turn, Unread, Walk,
};

/// A page that no frame has yet stays. One that left is read from its segment, which fails once,
/// and stays evicted.
const READ_AGAIN: &[Step] = &[
    Put(0, b"k", b"v"),
    Turn(1, 1),
    Evict(1, Ok(false)),
    Flush(Some(1)),
    Evict(1, Ok(true)),
    Evict(1, Ok(false)),
    Unread(1, StoreFault::Device { lease: 0 }),
    Page(1, "1 : k=v"),
    Get(b"k", b"v"),
    Shared(b"k", b"v"),
    Evict(1, Ok(false)),
];

/// A turn that cannot bring a page back leaves the record in its ring, and the next one takes it.
const TURNED_AGAIN: &[Step] = &[
    Frame(b"k", b"v", 1),
    Evict(1, Ok(true)),
    Put(0, b"b", b"2"),
    Stops(9, 0, StoreFault::Device { lease: 0 }),
    Evict(1, Ok(false)),
    Turn(9, 1),
    Page(1, "1 : b=2 k=v"),
];

/// What no frame has yet stays with a page that leaves; a turn brings the page back.
const UNFLUSHED: &[Step] = &[
    Frame(b"a", b"1", 1),
    Evict(1, Ok(true)),
    Taken(b"b", b"2"),
    Page(1, "1 : a=1 b=2"),
    Evict(1, Ok(true)),
    Page(1, "1 : a=1 b=2"),
    Get(b"b", b"2"),
    Get(b"x", b""),
    Shared(b"a", b"1"),
    Shared(b"b", b"2"),
    Shared(b"x", b""),
    Put(0, b"a", b"3"),
    Del(0, b"b"),
    Turn(9, 2),
    Shared(b"a", b"3"),
    Shared(b"b", b""),
    Evict(1, Ok(true)),
    Shared(b"a", b"3"),
    Shared(b"b", b""),
    Page(1, "1 : a=3"),
    Flush(Some(2)),
    Page(1, "1 : a=3"),
    Evict(1, Ok(false)),
    Settle(4),
    Get(b"b", b""),
];

/// A page that is evicted is cut; neither part leaves before the frame is appended.
const CUT: &[Step] = &[
    Each(0, FOUR),
    Turn(9, 4),
    Flush(Some(1)),
    Evict(1, Ok(true)),
    Taken(b"e", b"5"),
    Evict(1, Ok(false)),
    Evict(2, Ok(false)),
    Evict(3, Err(StoreFault::NoPage)),
    Evict(0, Err(StoreFault::NoPage)),
    Walk(1, Some(1)),
    Walk(2, Some(0)),
    Flush(Some(2)),
    Walk(1, Some(2)),
    Walk(2, Some(1)),
    Evict(1, Ok(true)),
    Evict(2, Ok(true)),
    Pages(&["1 : a=1 b=2", "2 c: c=3 d=4 e=5"]),
    Get(b"e", b"5"),
    Page(3, ""),
    Page(0, ""),
];

/// A page stays evicted while it is written again, and is then read from where it stands now.
const CLEANED: &[Step] = &[
    Segments(1, TWO),
    Evict(1, Ok(true)),
    Clean(1, 0, 1, 1),
    Stands(1, 2),
    Evict(1, Ok(false)),
    Page(1, "1 : a=1 b=2"),
    Taken(b"c", b"3"),
    Evict(1, Ok(true)),
    Page(1, "1 : a=1 b=2 c=3"),
];

/// A recovered page may leave at once.
const OPENED_AGAIN: &[Step] = &[
    Walk(1, Some(1)),
    Evict(1, Ok(true)),
    Page(1, "1 : k=v"),
    Taken(b"j", b"2"),
    Evict(1, Ok(true)),
    Page(1, "1 : j=2 k=v"),
    Flush(Some(2)),
    Walk(1, Some(2)),
];

/// A walk back goes over pages in memory and over evicted ones, from a low and from between keys,
/// and over a page whose pairs are all gone. It brings no page back.
const BACKWARDS: &[Step] = &[
    Each(0, FOUR),
    Turn(9, 4),
    Taken(b"e", b"5"),
    Last(b"z", b"e", b"5"),
    Last(b"c", b"c", b"3"),
    Below(b"c", b"b", b"2"),
    Last(b"bz", b"b", b"2"),
    Below(b"a", b"", b""),
    Last(b"A", b"", b""),
    Flush(Some(1)),
    Evict(1, Ok(true)),
    Evict(2, Ok(true)),
    Last(b"z", b"e", b"5"),
    Last(b"c", b"c", b"3"),
    Below(b"c", b"b", b"2"),
    Below(b"a", b"", b""),
    Del(0, b"c"),
    Del(0, b"d"),
    Del(0, b"e"),
    Turn(9, 3),
    Last(b"z", b"b", b"2"),
    Evict(2, Ok(true)),
    Last(b"d", b"b", b"2"),
    Below(b"c", b"b", b"2"),
    Evict(1, Ok(false)),
    Evict(2, Ok(false)),
];

/// A walk that shares its pairs goes over pages in memory and over evicted ones, from a low and
/// from between keys, and over a page whose pairs are all gone. It brings no page back.
const SHARED: &[Step] = &[
    Each(0, FOUR),
    Turn(9, 4),
    Taken(b"e", b"5"),
    Stretch(b"A", 9, " a=1 b=2 c=3 d=4 e=5"),
    Stretch(b"b", 3, " b=2 c=3 d=4"),
    Stretch(b"c", 1, " c=3"),
    Stretch(b"bz", 2, " c=3 d=4"),
    Stretch(b"f", 9, ""),
    Stretch(b"a", 0, ""),
    Flush(Some(1)),
    Evict(1, Ok(true)),
    Evict(2, Ok(true)),
    Stretch(b"b", 9, " b=2 c=3 d=4 e=5"),
    Del(0, b"a"),
    Del(0, b"b"),
    Turn(9, 2),
    Stretch(b"A", 2, " c=3 d=4"),
    Evict(1, Ok(true)),
    Stretch(b"a", 9, " c=3 d=4 e=5"),
    Evict(1, Ok(false)),
    Evict(2, Ok(false)),
];

/// The first page loses its pairs, and a walk passes by it; so does the next walk. A record that
/// comes there is found by each walk after it, also one of a group, and one that was put back.
const EMPTIED: &[Step] = &[
    Each(0, FOUR),
    Turn(9, 4),
    Taken(b"e", b"5"),
    Del(0, b"a"),
    Del(0, b"b"),
    Turn(9, 2),
    Stretch(b"A", 1, " c=3"),
    Stretch(b"a", 9, " c=3 d=4 e=5"),
    Taken(b"b", b"6"),
    Stretch(b"A", 1, " b=6"),
    Stretch(b"bz", 1, " c=3"),
    Del(0, b"b"),
    Turn(9, 1),
    Stretch(b"A", 2, " c=3 d=4"),
    Group(0, TWO),
    Turn(9, 2),
    Stretch(b"A", 3, " a=1 b=2 c=3"),
    Del(0, b"a"),
    Del(0, b"b"),
    Turn(9, 2),
    Flush(Some(1)),
    Evict(1, Ok(true)),
    Stretch(b"A", 1, " c=3"),
    Stretch(b"A", 1, " c=3"),
    Taken(b"A", b"7"),
    Stretch(b"A", 2, " A=7 c=3"),
];

/// The second page begins with a key that ends with a byte 0, and the first one has its front.
const ZERO: &[Step] = &[
    Each(0, BESIDE_ZERO),
    Turn(9, 5),
    Page(2, "2 a\0: a\0=3 b=4 c=5"),
    Last(b"a\0\0", b"a\0", b"3"),
    Below(b"a\0", b"a", b"2"),
    Below(b"a", b"A", b"1"),
    Del(0, b"a\0"),
    Turn(9, 1),
    Last(b"a\0", b"a", b"2"),
];

const TABLES: &[Tables] = &[
    (Stand::Fuse(0, (2, 2), (0, 0)), &[READ_AGAIN, TURNED_AGAIN]),
    (
        Stand::Boxes(4, 8),
        &[UNFLUSHED, CUT, CLEANED, BACKWARDS, SHARED, EMPTIED, ZERO],
    ),
    (Stand::Bytes(&[FIRST]), &[OPENED_AGAIN]),
];

#[test]
fn pages_that_left_memory_are_read_from_their_segments(rt: HostRuntime) {
    all_go(&rt, TABLES);
}
