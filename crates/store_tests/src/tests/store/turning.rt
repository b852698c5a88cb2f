//! Turns and flushes: the tables.

use super::walking::{Stand, Tables, all_go};
use bw_store::StoreFault;
use test_kit::vectors::{FIRST, JOINED, SECOND, TWO_JOINED};
use test_subjects::putting::{FIVE, TWO};
use test_subjects::steps::Step;
use test_subjects::steps::Step::{
    Add, Bytes, Cuts, Each, Flush, Frame, Frames, Get, History, Live, Page, Pages, Put, Refused,
    Roll, Stands, Stops, Turn, Unsettled,
};

const ONE_FRAME: &[Step] = &[
    Frame(b"k", b"v", 1),
    Flush(None),
    Cuts(&[1], 1),
    Stands(1, 3),
    Live(0, 1, 0, 77),
    Bytes(1, FIRST),
    Page(1, "1 : k=v"),
    Flush(None),
];

const FIVE_FRAMES: &[Step] = &[
    Frames(1, FIVE),
    Bytes(1, SECOND),
    Cuts(&[1, 2, 3, 4, 5], 5),
    Pages(&["1 : a=1 b=2", "2 c: c=3 d=4 e=5", ""]),
    Page(0, ""),
    Live(0, 1, 0, 297),
    Stands(1, 3),
    Put(0, b"bz", b"6"),
    Put(0, b"c", b"7"),
    Turn(9, 2),
    Flush(Some(6)),
    Pages(&["1 : a=1 b=2 bz=6", "2 c: c=7 d=4 e=5"]),
    Get(b"c", b"7"),
    Get(b"x", b""),
];

/// A record joins the Delta of its page in the frame in the making.
const ONE_DELTA: &[Step] = &[
    Each(0, TWO),
    Turn(9, 2),
    Flush(Some(1)),
    Bytes(1, TWO_JOINED),
    Live(0, 1, 0, 83),
    Page(1, "1 : a=1 b=2"),
];

/// A page is cut after five records of one Delta.
const CUT: &[Step] = &[
    Each(0, FIVE),
    Turn(9, 5),
    Flush(Some(1)),
    Live(0, 1, 0, 141),
    Stands(1, 3),
    Pages(&["1 : a=1 b=2", "2 c: c=3 d=4 e=5"]),
];

/// And a record more of that page joins no Delta over the Split.
const SIX: &[Step] = &[
    Each(0, FIVE),
    Put(0, b"bz", b"6"),
    Turn(9, 6),
    Flush(Some(1)),
    Bytes(1, JOINED),
    Live(0, 1, 0, 167),
    Pages(&["1 : a=1 b=2 bz=6", "2 c: c=3 d=4 e=5"]),
];

/// An empty store has its first page to append.
const EMPTY: &[Step] = &[
    Stands(0, 4),
    Flush(Some(1)),
    Cuts(&[0], 1),
    Page(1, "1 :"),
    Live(0, 1, 0, 52),
    Stands(1, 3),
    Flush(None),
];

/// Rounds begin at lane 0, and each writer's records stay in order.
const WRITERS: &[Step] = &[
    Put(1, b"b", b"1"),
    Put(0, b"a", b"1"),
    Put(1, b"c", b"2"),
    Put(1, b"d", b"2"),
    Put(0, b"e", b"2"),
    Turn(9, 5),
    History("0 put a 1;1 put b 1;0 put e 2;1 put c 2;1 put d 2;"),
    Turn(9, 0),
];

const LIMITS: &[Step] = &[
    Turn(0, 0),
    Turn(3, 0),
    Each(0, TWO),
    Put(0, b"c", b"3"),
    Turn(0, 0),
    Turn(1, 1),
    History("0 put a 1;"),
    Turn(9, 2),
    Turn(9, 0),
];

/// One spare is not enough to begin a segment: nothing is changed, and one more is.
const NO_SPARE: &[Step] = &[
    Put(0, b"k", b"v"),
    Turn(1, 1),
    Refused(StoreFault::NoSegment),
    Cuts(&[], 0),
    History("0 put k v;"),
    Stands(0, 1),
    Add,
    Stands(0, 2),
    Flush(Some(1)),
    Bytes(1, FIRST),
    Cuts(&[1], 1),
];

/// A closed segment takes no more frames.
const ROLLED: &[Step] = &[
    Flush(Some(1)),
    Roll,
    Roll,
    Frame(b"k", b"v", 2),
    Stands(2, 2),
];

/// The append of the frame fails: the cut stays, nothing is durable, and no more is taken.
pub(super) const FAILED: &[Step] = &[
    Put(0, b"k", b"v"),
    Turn(1, 1),
    Refused(StoreFault::Device { lease: 0 }),
    Refused(StoreFault::Failed),
    Cuts(&[1], 0),
    Turn(9, 0),
    Put(1, b"j", b"w"),
    Stops(9, 0, StoreFault::Failed),
    History("0 put k v;"),
    Refused(StoreFault::Failed),
    Unsettled(StoreFault::Failed),
    Page(1, "1 : k=v"),
    Get(b"j", b""),
];

const TABLES: &[Tables] = &[
    (
        Stand::Boxes(4, 8),
        &[
            ONE_FRAME,
            FIVE_FRAMES,
            ONE_DELTA,
            CUT,
            SIX,
            EMPTY,
            WRITERS,
            LIMITS,
            ROLLED,
        ],
    ),
    (Stand::Boxes(1, 8), &[NO_SPARE]),
];

#[test]
fn turns_and_flushes_go_as_told(rt: HostRuntime) {
    all_go(&rt, TABLES);
}

/// The append of a header fails, or that of a frame.
const FAILS: &[Tables] = &[(Stand::Fuse(0, (0, 1), (0, 54)), &[FAILED])];

#[test]
fn a_failed_append_of_a_header_or_a_frame_ends_the_store(rt: HostRuntime) {
    all_go(&rt, FAILS);
}
