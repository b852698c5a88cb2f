//! Groups: the tables, and a group's frame cut at each of its bytes.

ghost use Rattle.std.specs.Prelude.{IfSome};
ghost use Rattle.bw_care.specs.Found.{IsRecovered};

use super::boxes::{LEAST, maker_of, plain, supplied};
use super::cutting::{dumped, shows};
use super::opening::{Supply, opened, shut};
use super::telling::went;
use super::walking::{Stand, Tables, all_go, wrong_step};
use bw_care::{Recovered, recover};
use bw_store::StoreFault;
use std::alloc::Global;
use std::sync::Wait;
use test_subjects::putting::Op::{Set, Unset};
use test_subjects::putting::{FOUR, NEXT};
use test_subjects::steps::Step;
use test_subjects::steps::Step::{
    Cuts, Evict, Flush, Frame, Full, FullGroup, Get, Group, History, Live, Page, Pages, Put, Same,
    Settle, Stops, Turn,
};
use test_subjects::subject::{BOTH, Over, config_of};

/// A turn counts groups and answers records; a settling takes one lane after the other.
const WRITERS: &[Step] = &[
    Group(0, &[Set(b"a", b"1"), Set(b"b", b"2")]),
    Put(1, b"c", b"3"),
    Group(0, &[Unset(b"a")]),
    Turn(1, 2),
    History("0 put a 1;0 put b 2;"),
    Settle(4),
    History("0 put a 1;0 put b 2;0 del a;1 put c 3;"),
    Page(1, "1 : b=2 c=3"),
    Cuts(&[4], 1),
];

/// A turn counts groups and answers records; here the second turn begins at lane 0 again.
const ROUNDS: &[Step] = &[
    Group(0, &[Set(b"a", b"1"), Set(b"b", b"2")]),
    Group(1, &[Set(b"p", b"1"), Set(b"q", b"2"), Set(b"r", b"3")]),
    Group(0, &[Set(b"c", b"3"), Unset(b"a")]),
    Put(1, b"s", b"4"),
    Turn(0, 0),
    Turn(3, 7),
    Turn(9, 1),
    Turn(9, 0),
    History("0 put a 1;0 put b 2;1 put p 1;1 put q 2;1 put r 3;0 put c 3;0 del a;1 put s 4;"),
];

/// A ring of one place holds one group.
const ONE_PLACE: &[Step] = &[
    Group(0, &[Set(b"a", b"1"), Set(b"b", b"2")]),
    Full(0, b"c", b"3"),
    FullGroup(0, &[Set(b"c", b"3")]),
    Turn(1, 2),
    Put(0, b"c", b"3"),
];

/// 172 and 179 bytes of a value.
const SHORT: &[u8] = &[b'v'; 172];

const LONG: &[u8] = &[b'v'; 179];

/// The second frame has room for the first record of the group, and not for the second: both stand
/// in the third. (A record is 5 bytes and its value; 126 of 517 bytes and a head of 19 leave 355.)
const ROOM_FOR_ONE: &[Step] = &[
    Frame(b"k", b"v", 1),
    Same(0, b"k", 126, 512),
    Turn(200, 126),
    Group(0, &[Set(b"k", SHORT), Set(b"k", LONG)]),
    Turn(1, 2),
    Cuts(&[1, 127], 2),
    Flush(Some(3)),
    Cuts(&[1, 127, 129], 3),
    Live(0, 1, 0, 65_258),
    Live(1, 2, 1, 424),
    Get(b"k", LONG),
];

/// If both have room, they stand in the second.
const ROOM_FOR_BOTH: &[Step] = &[
    Frame(b"k", b"v", 1),
    Same(0, b"k", 126, 512),
    Group(0, &[Set(b"k", SHORT), Set(b"k", SHORT)]),
    Turn(200, 128),
    Cuts(&[1], 1),
    Flush(Some(2)),
    Cuts(&[1, 129], 2),
    Live(0, 1, 0, 77),
    Live(1, 2, 1, 65_559),
];

/// A group cuts the page, and then the page that it made.
const CUTS_TWICE: &[Step] = &[
    Group(0, FOUR),
    Turn(1, 4),
    Flush(Some(1)),
    Evict(1, Ok(true)),
    Group(0, NEXT),
    Turn(1, 4),
    Pages(&["1 : a=1 b=2", "2 c: c=3 d=4", "3 e: e=5 f=6 g=7 h=8"]),
    Flush(Some(2)),
    Cuts(&[4, 8], 2),
    Evict(2, Ok(true)),
    Evict(3, Ok(true)),
    Pages(&["1 : a=1 b=2", "2 c: c=3 d=4", "3 e: e=5 f=6 g=7 h=8", ""]),
];

/// Four pages, all in memory, then all evicted: a group touches each of them.
const FOUR_PAGES: &[Step] = &[
    Group(0, FOUR),
    Group(0, NEXT),
    Group(0, &[Set(b"i", b"9"), Set(b"j", b"0")]),
    Group(
        0,
        &[
            Set(b"g", b"g"),
            Set(b"e", b"e"),
            Set(b"c", b"c"),
            Set(b"a", b"a"),
        ],
    ),
    Turn(9, 14),
    Pages(&[
        "1 : a=a b=2",
        "2 c: c=c d=4",
        "3 e: e=e f=6",
        "4 g: g=g h=8 i=9 j=0",
    ]),
    Flush(Some(1)),
    Evict(1, Ok(true)),
    Evict(2, Ok(true)),
    Evict(3, Ok(true)),
    Evict(4, Ok(true)),
    Group(
        0,
        &[Unset(b"b"), Set(b"d", b"x"), Unset(b"f"), Set(b"k", b"k")],
    ),
    Turn(1, 4),
    Pages(&[
        "1 : a=a",
        "2 c: c=c d=x",
        "3 e: e=e",
        "4 g: g=g h=8",
        "5 i: i=9 j=0 k=k",
    ]),
    Flush(Some(2)),
    Cuts(&[14, 18], 2),
    Page(5, "5 i: i=9 j=0 k=k"),
];

/// The page of the group's second record is not read: the group stays in its ring, whole, and the
/// next turn takes it.
const UNREAD: &[Step] = &[
    Group(0, FOUR),
    Put(0, b"e", b"5"),
    Turn(9, 5),
    Flush(Some(1)),
    Evict(2, Ok(true)),
    Group(0, &[Set(b"a", b"9"), Set(b"d", b"9")]),
    Stops(9, 0, StoreFault::Device { lease: 0 }),
    Page(1, "1 : a=1 b=2"),
    History("0 put a 1;0 put b 2;0 put c 3;0 put d 4;0 put e 5;"),
    Turn(9, 2),
    Pages(&["1 : a=9 b=2", "2 c: c=3 d=9 e=5"]),
    Flush(Some(2)),
    Cuts(&[5, 7], 2),
];

/// A put and a delete of one key, and the last of two values.
const SAME_KEY: &[Step] = &[
    Group(
        0,
        &[
            Set(b"a", b"1"),
            Set(b"a", b"2"),
            Set(b"b", b"3"),
            Unset(b"b"),
        ],
    ),
    Turn(1, 4),
    Page(1, "1 : a=2"),
    Settle(4),
    Page(1, "1 : a=2"),
];

const TABLES: &[Tables] = &[
    (
        Stand::Boxes(4, 8),
        &[WRITERS, ROUNDS, CUTS_TWICE, FOUR_PAGES, SAME_KEY],
    ),
    (Stand::Boxes(4, 1), &[ONE_PLACE]),
    (Stand::Boxes(4, 256), &[ROOM_FOR_ONE, ROOM_FOR_BOTH]),
    (Stand::Fuse(0, (2, 2), (0, 0)), &[UNREAD]),
];

#[test]
fn groups_go_as_told(rt: HostRuntime) {
    all_go(&rt, TABLES);
}

/// A frame of a page of four, and one of a group that cuts it.
const TWO_FRAMES: &[Step] = &[
    Group(0, FOUR),
    Turn(1, 4),
    Flush(Some(1)),
    Group(0, &[Set(b"e", b"5"), Set(b"f", b"6")]),
    Turn(1, 2),
    Flush(Some(2)),
    Live(0, 1, 0, WHOLE as u64),
];

/// Where the second frame begins, and where it ends.
const FIRST: usize = 95;

const WHOLE: usize = 205;

/// No part of the group.
const BEFORE: &[Step] = &[Page(1, "1 : a=1 b=2 c=3 d=4"), Page(2, "")];

/// All of it.
const BEHIND: &[Step] = &[Pages(&["1 : a=1 b=2", "2 c: c=3 d=4 e=5 f=6", ""])];

// The segment of a store that went through these frames.
fn segment<R: AllocGlobal + Wait>(rt: &R, over: Over) -> Option<Vec<u8>> {
    let mut supply = supplied(rt.alloc(), &plain(4, 0))?;
    let mut held = opened(rt, over, &config_of(2, 8, 1), &mut supply)?;
    let wrong = wrong_step(rt, &mut held, TWO_FRAMES);
    let bytes = dumped(rt.alloc(), &mut held, 1);
    let _ = shut(rt, held, &mut supply);
    if wrong.is_some() {
        return None;
    }
    bytes
}

// What is recovered of it, cut at a length, and of an empty box, by an empty supply.
fn cut_at(alloc: Global, bytes: &[u8], length: usize, supply: &mut Supply) -> Option<Recovered>
    ensures { IfSome result (λ r. IsRecovered holding r) }
{
    let mut maker = maker_of(alloc, LEAST)?;
    maker.push(bytes.get(..length)?, &mut supply.boxes)?;
    maker.fill(1, &mut supply.boxes)?;
    let boxes = std::mem::replace(&mut supply.boxes, Vec::new(alloc));
    match recover(alloc, boxes) {
        Ok(recovered) => Some(recovered),
        Err(_fault) => None,
    }
}

// Whether the segment, cut at a length, shows the whole group or none of it.
fn cut_shows<R: AllocGlobal + Wait>(rt: &R, over: Over, bytes: &[u8], length: usize) -> bool {
    let mut supply = Supply {
        boxes: Vec::new(rt.alloc()),
        more: Vec::new(rt.alloc()),
    };
    let Some(recovered) = cut_at(rt.alloc(), bytes, length, &mut supply) else {
        return false;
    };
    let steps = if length < WHOLE { BEFORE } else { BEHIND };
    shows(rt, over, recovered, &mut supply, steps).is_none()
}

// The first cut of the group's frame that does not.
fn each_cut<R: AllocGlobal + Wait>(rt: &R, over: Over) -> Option<usize> {
    let Some(bytes) = segment(rt, over) else {
        return Some(1000);
    };
    for length in FIRST..=WHOLE {
        if !cut_shows(rt, over, bytes.as_slice(), length) {
            return Some(length);
        }
    }
    None
}

#[test]
fn each_cut_shows_a_whole_group_or_none_of_it(rt: HostRuntime) {
    for over in BOTH {
        went(&rt, over, each_cut(&rt, over));
    }
}
