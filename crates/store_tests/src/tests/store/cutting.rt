//! What is left of a store after a stop, and of a log whose newest segment was cut.

ghost use Rattle.std.specs.Prelude.{IfSome};
ghost use Rattle.bw_care.specs.Found.{IsRecovered};
ghost use Rattle.test_subjects.specs.Views.{IsSoundBeside};

use super::boxes::{LEAST, fused, maker_of, plain, supplied};
use super::opening::{Held, Supply, opened, reopened, shut};
use super::telling::{holds, went};
use super::turning::FAILED;
use super::walking::{lives, wrong_step};
use bw_care::{RecoverCause, Recovered, recover};
use bw_store::StoreFault;
use std::alloc::Global;
use std::sync::Wait;
use test_subjects::putting::AGAIN;
use test_subjects::steps::Step;
use test_subjects::steps::Step::{Cuts, Flush, Frame, Lives, Page, Put, Refused, Segments, Turn};
use test_subjects::subject::{BOTH, Over, config_of};

/// The third append fails.
const SECOND: &[Step] = &[
    Frame(b"k", b"v", 1),
    Put(0, b"j", b"2"),
    Turn(1, 1),
    Refused(StoreFault::Device { lease: 0 }),
    Cuts(&[1, 2], 1),
];

const AFTER: &[Step] = &[
    Page(1, "1 : k=v"),
    Put(0, b"j", b"2"),
    Turn(8, 1),
    Flush(Some(2)),
    Lives(&[(1, 0, 107), (2, 1, 69)]),
    Cuts(&[1], 1),
];

/// Three segments of a frame each.
pub(super) const THREE: &[Step] = &[Segments(1, AGAIN)];

// Whether nothing is found of a store whose first box fails so, and all boxes come back.
fn finds_nothing<R: AllocGlobal + Wait>(rt: &R, over: Over, fuse: (u64, u64)) -> bool {
    let Some(mut supply) = supplied(rt.alloc(), &fused(0, fuse, 3)) else {
        return false;
    };
    if lives(rt, over, &mut supply, 8, FAILED).is_some() {
        return false;
    }
    match recover(rt.alloc(), supply.boxes) {
        Ok(_recovered) => false,
        Err(fault) => (fault.cause == RecoverCause::Empty) & (fault.boxes.len() == 4),
    }
}

fn goes_on<R: AllocGlobal + Wait>(rt: &R, over: Over) -> Option<usize> {
    let Some(mut supply) = supplied(rt.alloc(), &fused(0, (2, 30), 3)) else {
        return Some(100);
    };
    let first = lives(rt, over, &mut supply, 8, SECOND);
    if first.is_some() {
        return first;
    }
    let boxes = std::mem::replace(&mut supply.boxes, Vec::new(rt.alloc()));
    let Ok(recovered) = recover(rt.alloc(), boxes) else {
        return Some(101);
    };
    if (recovered.first, recovered.last, recovered.tail) != (1, 1, 30) {
        return Some(102);
    }
    shows(rt, over, recovered, &mut supply, AFTER)
}

// The first step that did not go as expected over what was recovered; the boxes are put in a
// supply.
pub(super) fn shows<R: AllocGlobal + Wait>(
    rt: &R,
    over: Over,
    recovered: Recovered,
    supply: &mut Supply,
    steps: &[Step],
) -> Option<usize>
    requires { IsRecovered holding recovered }
{
    let Some(mut held) = reopened(rt, over, recovered, 8, supply) else {
        return Some(103);
    };
    let wrong = wrong_step(rt, &mut held, steps);
    let _ = shut(rt, held, supply);
    wrong
}

/// The bytes of three segments.
#[derive(Drop)]
struct ThreeSegments {
    first: Vec<u8>,
    second: Vec<u8>,
    last: Vec<u8>,
}

// What is recovered of them, the last cut at a length, and of an empty box, by an empty supply.
fn cut_at(
    alloc: Global,
    three: &ThreeSegments,
    length: usize,
    supply: &mut Supply,
) -> Option<Recovered>
    ensures { IfSome result (λ r. IsRecovered holding r) }
{
    let mut maker = maker_of(alloc, LEAST)?;
    maker.push(&three.first, &mut supply.boxes)?;
    maker.push(&three.second, &mut supply.boxes)?;
    maker.push(three.last.as_slice().get(..length)?, &mut supply.boxes)?;
    maker.fill(1, &mut supply.boxes)?;
    let boxes = std::mem::replace(&mut supply.boxes, Vec::new(alloc));
    match recover(alloc, boxes) {
        Ok(recovered) => Some(recovered),
        Err(_fault) => None,
    }
}

fn is_told(recovered: &Recovered, length: usize) -> bool {
    let last = if length < 69 { 2 } else { 3 };
    let dropped = if (1..24).contains(&length) { 1 } else { 0 };
    let tail = if (24..69).contains(&length) {
        length as u64 - 24
    } else {
        0
    };
    (
        recovered.first,
        recovered.last,
        recovered.tail,
        recovered.dropped,
    ) == (1, last, tail, dropped)
}

// The bytes of a live segment.
pub(super) fn dumped(alloc: Global, held: &mut Held, segment: u64) -> Option<Vec<u8>>
    requires { IsSoundBeside held.old.store holding }
    ensures sound { IsSoundBeside held.new.store holding }
{
    let mut bytes = Vec::new(alloc);
    match held.store.dump(segment, &mut bytes) {
        Ok(true) => Some(bytes),
        _ => None,
    }
}

// The segments of a store that went through three flushes.
fn three<R: AllocGlobal + Wait>(rt: &R, over: Over) -> Option<ThreeSegments> {
    let alloc = rt.alloc();
    let mut supply = supplied(alloc, &plain(4, 0))?;
    let mut held = opened(rt, over, &config_of(2, 8, 1), &mut supply)?;
    let wrong = wrong_step(rt, &mut held, THREE);
    let first = dumped(alloc, &mut held, 1);
    let second = dumped(alloc, &mut held, 2);
    let last = dumped(alloc, &mut held, 3);
    let _ = shut(rt, held, &mut supply);
    if wrong.is_some() {
        return None;
    }
    Some(ThreeSegments {
        first: first?,
        second: second?,
        last: last?,
    })
}

const OLDER: &[Step] = &[Page(1, "1 : j=2 k=1")];

const NEWER: &[Step] = &[Page(1, "1 : j=2 k=3")];

// Whether the newest segment, cut at a length, shows just the frames that are whole.
fn cut_shows<R: AllocGlobal + Wait>(
    rt: &R,
    over: Over,
    bytes: &ThreeSegments,
    length: usize,
) -> bool {
    let mut supply = Supply {
        boxes: Vec::new(rt.alloc()),
        more: Vec::new(rt.alloc()),
    };
    let Some(recovered) = cut_at(rt.alloc(), bytes, length, &mut supply) else {
        return false;
    };
    if !is_told(&recovered, length) {
        return false;
    }
    let steps = if length < 69 { OLDER } else { NEWER };
    shows(rt, over, recovered, &mut supply, steps).is_none()
}

// The first cut of the newest of three segments that does not.
fn each_cut<R: AllocGlobal + Wait>(rt: &R, over: Over) -> Option<usize> {
    let Some(bytes) = three(rt, over) else {
        return Some(1000);
    };
    for length in 0..=69 {
        if !cut_shows(rt, over, &bytes, length) {
            return Some(length);
        }
    }
    None
}

#[test]
fn nothing_is_found_where_no_frame_is_whole(rt: HostRuntime) {
    for over in BOTH {
        holds(&rt, over, finds_nothing(&rt, over, (0, 10)));
        holds(&rt, over, finds_nothing(&rt, over, (1, 52)));
    }
}

#[test]
fn a_torn_second_frame_is_left_out(rt: HostRuntime) {
    for over in BOTH {
        went(&rt, over, goes_on(&rt, over));
    }
}

#[test]
fn each_cut_shows_a_cut_of_the_history(rt: HostRuntime) {
    for over in BOTH {
        went(&rt, over, each_cut(&rt, over));
    }
}
