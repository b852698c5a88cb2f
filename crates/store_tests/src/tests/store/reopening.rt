//! A store is opened again over the bytes of worked segments: the tables.

use super::opening::{reopened, shut};
use super::telling::went;
use super::walking::{Stand, Tables, all_go, recovered_from, with_bytes, wrong_step};
use bw_store::StoreFault;
use std::sync::Wait;
use test_kit::vectors::{FIRST, GREATEST, THIRD_NEWER, THIRD_OLDER};
use test_subjects::steps::Step;
use test_subjects::steps::Step::{
    Bytes, Clean, Cuts, Evict, Flush, Get, History, Live, Page, Put, Refused, Roll, Settle, Stands,
    Taken,
};
use test_subjects::subject::Over;

/// After the first worked segment: frame 2 in a segment of its own has the bytes of the third.
const AFTER_THE_FIRST: &[Step] = &[
    Page(1, "1 : k=v"),
    History(""),
    Cuts(&[], 0),
    Flush(None),
    Roll,
    Put(0, b"j", b"2"),
    Settle(1),
    Cuts(&[1], 1),
    History("0 put j 2;"),
    Page(1, "1 : j=2 k=v"),
    Live(1, 2, 1, 69),
    Bytes(2, THIRD_OLDER),
];

/// After the third: pages go on from what the cleaner wrote, and the older segment is given up.
const AFTER_THE_THIRD: &[Step] = &[
    Page(1, "1 : j=2 k=3"),
    Get(b"j", b"2"),
    Stands(2, 2),
    Put(1, b"j", b"5"),
    Settle(1),
    Clean(2, 0, 0, 0),
    Stands(1, 2),
    Page(1, "1 : j=5 k=3"),
    Cuts(&[1], 1),
];

/// After the greatest frame number there is no further one, even if nothing waits.
const AFTER_THE_GREATEST: &[Step] = &[Page(1, "1 :"), Refused(StoreFault::Spent)];

const TABLES: &[Tables] = &[
    (Stand::Bytes(&[FIRST]), &[AFTER_THE_FIRST]),
    (
        Stand::Bytes(&[THIRD_OLDER, THIRD_NEWER]),
        &[AFTER_THE_THIRD],
    ),
    (Stand::Bytes(&[GREATEST]), &[AFTER_THE_GREATEST]),
];

#[test]
fn a_store_goes_on_from_worked_segments(rt: HostRuntime) {
    all_go(&rt, TABLES);
}

/// No page is in memory. One that is asked for is read and does not stay; one that a record changes
/// is brought back.
const AWAY: &[Step] = &[
    Evict(1, Ok(false)),
    Page(1, "1 : j=2 k=3"),
    Get(b"j", b"2"),
    Get(b"x", b""),
    Evict(1, Ok(false)),
    Taken(b"l", b"4"),
    Page(1, "1 : j=2 k=3 l=4"),
    Flush(Some(5)),
    Evict(1, Ok(true)),
    Get(b"l", b"4"),
    Clean(2, 0, 0, 0),
    Page(1, "1 : j=2 k=3 l=4"),
];

// The first step that does not go as expected over a core that begins without its pages.
fn away<R: AllocGlobal + Wait>(rt: &R, texts: &[&'static str], steps: &[Step]) -> Option<usize> {
    let Some(mut supply) = with_bytes(rt.alloc(), texts, 2) else {
        return Some(0);
    };
    let Some(recovered) = recovered_from(rt.alloc(), &mut supply) else {
        return Some(0);
    };
    let Some(mut opened) = reopened(rt, Over::Core, recovered, 8, &mut supply) else {
        return Some(0);
    };
    let wrong = wrong_step(rt, &mut opened, steps);
    let _ = shut(rt, opened, &mut supply);
    wrong
}

#[test]
fn a_core_begins_without_its_pages(rt: HostRuntime) {
    went(
        &rt,
        Over::Core,
        away(&rt, &[THIRD_OLDER, THIRD_NEWER], AWAY),
    );
}
