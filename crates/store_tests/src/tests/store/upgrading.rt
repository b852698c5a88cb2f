//! All segments of format 1 are given up: the tables, and an upgrade that runs out of spares.

use super::boxes::maker_of;
use super::opening::Supply;
use super::telling::went;
use super::walking::{Stand, Tables, all_go, lives_on};
use bw_device::Segment;
use bw_store::{Counters, StoreFault};
use std::alloc::Global;
use std::sync::Wait;
use test_kit::vectors::{
    FIRST, OLD_FIRST, OLD_SECOND, OLD_THIRD_NEWER, OLD_THIRD_OLDER, THIRD_OLDER, UPGRADED,
    UPGRADED_THIRD,
};
use test_subjects::steps::Step;
use test_subjects::steps::Step::{
    Add, Bytes, Clean, Counts, Cuts, Flush, Get, History, Live, Lives, NotUpgraded, Page, Pages,
    Put, Refused, Settle, Stands, Taken, Turn, Upgrade,
};
use test_subjects::subject::{BOTH, Over};

/// The page is written again, and the history goes on after it.
const ONE: &[Step] = &[
    Page(1, "1 : k=v"),
    Upgrade(1, 1, 1),
    Live(0, 2, 1, 57),
    Bytes(2, UPGRADED),
    Stands(1, 1),
    Cuts(&[0], 1),
    Page(1, "1 : k=v"),
    NotUpgraded(StoreFault::NothingOld),
    Put(0, b"j", b"2"),
    Settle(1),
    Page(1, "1 : j=2 k=v"),
    Get(b"j", b"2"),
    Cuts(&[0, 1], 2),
];

/// What waits is flushed before, into a segment of format 2.
const WAITING: &[Step] = &[
    Taken(b"j", b"2"),
    Upgrade(1, 1, 1),
    Live(0, 2, 1, 107),
    Stands(1, 1),
    Cuts(&[1, 1], 2),
    Page(1, "1 : j=2 k=v"),
    History("0 put j 2;"),
    Flush(None),
];

/// What is counted: the flush before is none of the upgrade's. A header has 24 bytes, a frame 20
/// around its blocks, a Delta of one put 25, an empty Base 8 and each of its pairs 5 here.
const COUNTED: &[Step] = &[
    Taken(b"i", b"1"),
    Upgrade(2, 1, 1),
    Live(0, 4, 2, 112),
    Counts(
        Counters {
            records: 1,
            frames: 2,
            bytes: 112,
            cleaner_frames: 1,
            cleaner_bytes: 43,
            splits: 0,
            evictions: 0,
            reads: 0,
            cleanings: 2,
        },
        1,
    ),
    Page(1, "1 : i=1 j=2 k=3"),
];

/// A log goes on in format 2 before it is upgraded, and is cleaned across both.
const CLEANED_BEFORE: &[Step] = &[
    Put(0, b"j", b"2"),
    Settle(1),
    Bytes(2, THIRD_OLDER),
    Clean(1, 0, 1, 1),
    NotUpgraded(StoreFault::NothingOld),
    Page(1, "1 : j=2 k=v"),
];

/// Two pages of one segment.
const TWO_PAGES: &[Step] = &[
    Upgrade(1, 2, 1),
    Pages(&["1 : a=1 b=2", "2 c: c=3 d=4 e=5"]),
    Put(0, b"f", b"6"),
    Settle(1),
    Page(2, "2 c: c=3 d=4 e=5 f=6"),
];

/// Two segments, of which the second sets the page.
const TWO_SEGMENTS: &[Step] = &[
    Upgrade(2, 1, 1),
    Bytes(4, UPGRADED_THIRD),
    Stands(1, 1),
    Page(1, "1 : j=2 k=3"),
    NotUpgraded(StoreFault::NothingOld),
];

/// Two segments after a stop when all frames stood: before the first box was dropped, and after it.
const BEFORE_THE_FIRST: &[Step] = &[
    Stands(3, 2),
    Upgrade(2, 0, 0),
    Bytes(4, UPGRADED_THIRD),
    Stands(1, 2),
    Cuts(&[], 0),
    Page(1, "1 : j=2 k=3"),
];

const BEHIND_THE_FIRST: &[Step] = &[
    Stands(2, 2),
    Page(1, "1 : j=2 k=3"),
    Upgrade(1, 0, 0),
    Bytes(4, UPGRADED_THIRD),
    Stands(1, 2),
    Page(1, "1 : j=2 k=3"),
];

const BEHIND_BOTH: &[Step] = &[NotUpgraded(StoreFault::NothingOld), Page(1, "1 : j=2 k=3")];

/// What waits is not flushed if nothing is old.
const NOTHING_OLD: &[Step] = &[
    Taken(b"j", b"w"),
    NotUpgraded(StoreFault::NothingOld),
    Cuts(&[], 0),
    Live(0, 1, 0, 77),
    Flush(Some(2)),
    Cuts(&[1], 1),
];

/// One spare is not enough for a flush, and enough for an upgrade.
const LAST_SPARE: &[Step] = &[
    Taken(b"j", b"2"),
    Refused(StoreFault::NoSegment),
    Upgrade(1, 1, 1),
    Stands(1, 0),
    Page(1, "1 : j=2 k=v"),
    Cuts(&[1, 1], 2),
];

const TABLES: &[Tables] = &[
    (Stand::Bytes(&[OLD_FIRST]), &[ONE, WAITING, CLEANED_BEFORE]),
    (Stand::Bytes(&[OLD_SECOND]), &[TWO_PAGES]),
    (
        Stand::Bytes(&[OLD_THIRD_OLDER, OLD_THIRD_NEWER]),
        &[TWO_SEGMENTS, COUNTED],
    ),
    (
        Stand::Bytes(&[OLD_THIRD_OLDER, OLD_THIRD_NEWER, UPGRADED_THIRD]),
        &[BEFORE_THE_FIRST],
    ),
    (
        Stand::Bytes(&[OLD_THIRD_NEWER, UPGRADED_THIRD]),
        &[BEHIND_THE_FIRST],
    ),
    (Stand::Bytes(&[UPGRADED_THIRD]), &[BEHIND_BOTH]),
    (Stand::Bytes(&[FIRST]), &[NOTHING_OLD]),
    (Stand::Last(&[OLD_FIRST]), &[LAST_SPARE]),
];

#[test]
fn old_segments_are_given_up(rt: HostRuntime) {
    all_go(&rt, TABLES);
}

// ---- more pages than a segment has room for

/// A key of 64 bytes: two more name the page and the pair.
const KEY: &[u8] = &[b'k'; 62];

const VALUE: &[u8] = &[b'v'; 128];

/// How many such pages stand in a frame of 16,384 bytes, and in how many frames of a segment.
const PAGES: u8 = 19;

const FRAMES: u8 = 4;

// The bytes of each part.
fn put(out: &mut Vec<u8>, parts: &[&[u8]]) -> Option<()> {
    for part in parts {
        out.extend_from_slice(part).ok()?;
    }
    Some(())
}

// A page of four pairs in a Base of format 1, of 848 bytes; that of page 1 has no low key, and 64
// bytes fewer.
fn put_base(out: &mut Vec<u8>, page: u8) -> Option<()> {
    if page == 1 {
        put(out, &[&[2, 1, 0, 0, 0, 0, 4, 0]])?;
    } else {
        put(out, &[&[2, page, 0, 0, 0, 64], KEY, &[page, 0, 4, 0]])?;
    }
    for pair in 0..4u8 {
        put(out, &[&[64], KEY, &[page, pair, 128], VALUE])?;
    }
    Some(())
}

// A frame of such pages, from the one after this on.
fn put_frame(out: &mut Vec<u8>, number: u8, behind: u8) -> Option<()> {
    let body: u32 = if behind == 0 { 16_048 } else { 16_112 };
    put(
        out,
        &[
            b"FRM1",
            &[number, 0, 0, 0, 0, 0, 0, 0],
            &body.to_le_bytes(),
            &[PAGES, 0, 0, 0],
        ],
    )?;
    for page in 0..PAGES {
        put_base(out, behind.checked_add(page)?.checked_add(1)?)?;
    }
    Some(())
}

// The segment of this number, 1 or 2: frames of such pages.
fn old_segment(alloc: Global, number: u8) -> Option<Vec<u8>> {
    let mut out = Vec::new(alloc);
    put(
        &mut out,
        &[
            b"BWLOGSG1",
            &[number, 0, 0, 0, 0, 0, 0, 0],
            &[4, 0, 0, 0, 0, 64, 0, 0],
        ],
    )?;
    let first = FRAMES.checked_mul(number.checked_sub(1)?)?;
    for frame in 0..FRAMES {
        let before = first.checked_add(frame)?;
        put_frame(&mut out, before.checked_add(1)?, PAGES.checked_mul(before)?)?;
    }
    Some(out)
}

// Both, one spare, and one more in reserve.
fn supply(alloc: Global) -> Option<Supply> {
    let mut maker = maker_of(alloc, 65_560)?;
    let mut boxes: Vec<Box<dyn Segment>> = Vec::new(alloc);
    let mut more: Vec<Box<dyn Segment>> = Vec::new(alloc);
    for number in 1..3u8 {
        maker.push(&old_segment(alloc, number)?, &mut boxes)?;
    }
    maker.fill(1, &mut boxes)?;
    maker.fill(1, &mut more)?;
    Some(Supply { boxes, more })
}

/// 152 pages of 852 bytes, of which a frame has room for 76, as a segment has for a frame. After
/// the first frame the spares are used up; with one more the other half is written.
const TWICE: &[Step] = &[
    Stands(2, 1),
    NotUpgraded(StoreFault::NoSegment),
    Stands(3, 0),
    Lives(&[(1, 0, 64_488), (2, 1, 64_552), (3, 2, 64_732)]),
    Cuts(&[0], 1),
    Add,
    Upgrade(2, 76, 1),
    Stands(2, 0),
    Lives(&[(3, 2, 64_732), (4, 3, 64_796)]),
    Cuts(&[0, 0], 2),
    NotUpgraded(StoreFault::NothingOld),
];

/// The boxes of a store that was upgraded so hold its pages.
const AGAIN: &[Step] = &[Stands(2, 0), NotUpgraded(StoreFault::NothingOld), Settle(0)];

/// The first step that did not go as expected, in the first of two lives where one did not.
fn half_by_half<R: AllocGlobal + Wait>(rt: &R, over: Over) -> Option<usize> {
    let Some(mut supply) = supply(rt.alloc()) else {
        return Some(100);
    };
    let first = lives_on(rt, over, &mut supply, Some(8), TWICE);
    let second = lives_on(rt, over, &mut supply, None, AGAIN);
    first.or(second)
}

#[test]
fn an_upgrade_goes_on_once_there_is_a_spare(rt: HostRuntime) {
    for over in BOTH {
        went(&rt, over, half_by_half(&rt, over));
    }
}
