//! Tables are walked.

ghost use Rattle.std.specs.Prelude.{IfSome};
ghost use Rattle.bw_care.specs.Found.{IsRecovered};
ghost use Rattle.test_subjects.specs.Views.{AreItsFeeds, IsSoundBeside};

use super::boxes::{LEAST, Row, fused, maker_of, plain, supplied, worn};
use super::opening::{Held, Supply, opened, reopened, shut};
use super::steps::goes;
use super::telling::all_went;
use bw_care::{Recovered, recover};
use bw_device::Segment;
use std::alloc::Global;
use std::mem;
use std::process::Abort;
use std::sync::Wait;
use test_subjects::steps::Step;
use test_subjects::subject::{BOTH, Over, config_of};

// The first step that did not go as expected.
pub(super) fn wrong_step<R: AllocGlobal + Wait>(
    rt: &R,
    opened: &mut Held,
    steps: &[Step],
) -> Option<usize>
    requires sound { IsSoundBeside opened.old.store holding }
    requires feeds { AreItsFeeds opened.old.feeds.items opened.old.store holding }
    ensures sound { IsSoundBeside opened.new.store holding }
    ensures feeds { AreItsFeeds opened.new.feeds.items opened.new.store holding }
{
    for (i, step) in steps.iter().enumerate() {
        if !goes(rt, rt.alloc(), opened, step) {
            return Some(i);
        }
    }
    None
}

/// The steps over a store of these boxes, with rings of so many places: the first that did not go
/// as expected, and the first one if there was no store. The boxes then come out of it.
pub(super) fn lives<R: AllocGlobal + Wait>(
    rt: &R,
    over: Over,
    supply: &mut Supply,
    places: usize,
    steps: &[Step],
) -> Option<usize> {
    let Some(mut opened) = opened(rt, over, &config_of(2, places, 1), supply) else {
        return Some(0);
    };
    let wrong = wrong_step(rt, &mut opened, steps);
    let _ = shut(rt, opened, supply);
    wrong
}

// Whether frames 1 to `last` were found, without a tail; if it is not told, any.
fn are_found(recovered: &Recovered, last: Option<u64>) -> bool {
    match last {
        Some(last) => (recovered.first, recovered.last, recovered.tail) == (1, last, 0),
        None => true,
    }
}

/// What is recovered from the boxes of a supply.
pub(super) fn recovered_from(alloc: Global, supply: &mut Supply) -> Option<Recovered>
    ensures { IfSome result (λ r. IsRecovered holding r) }
{
    let boxes = mem::replace(&mut supply.boxes, Vec::new(alloc));
    match recover(alloc, boxes) {
        Ok(recovered) => Some(recovered),
        Err(_fault) => None,
    }
}

/// The steps over a core or a store of what is recovered from these boxes, with each page in
/// memory: the first step that did not go as expected, and the first one if there was none to walk
/// them over. Recovery finds frames 1 to `last`, or any if it is `None`.
pub(super) fn lives_on<R: AllocGlobal + Wait>(
    rt: &R,
    over: Over,
    supply: &mut Supply,
    last: Option<u64>,
    steps: &[Step],
) -> Option<usize> {
    let Some(recovered) = recovered_from(rt.alloc(), supply) else {
        return Some(0);
    };
    if !are_found(&recovered, last) {
        return Some(0);
    }
    let Ok(recovered) = recovered.warm() else {
        return Some(0);
    };
    let Some(mut opened) = reopened(rt, over, recovered, 8, supply) else {
        return Some(0);
    };
    let wrong = wrong_step(rt, &mut opened, steps);
    let _ = shut(rt, opened, supply);
    wrong
}

// Over these boxes, with rings of so many places.
fn within<R: AllocGlobal + Wait>(
    rt: &R,
    over: Over,
    row: &Row,
    places: usize,
    steps: &[Step],
) -> Option<usize> {
    match supplied(rt.alloc(), row) {
        Some(mut supply) => lives(rt, over, &mut supply, places, steps),
        None => Some(0),
    }
}

// Over so many boxes, then one that fails, one time after the other, after each of these numbers of
// calls and keeps each of these numbers of bytes (the least and the greatest), and a spare.
fn over_fuses<R: AllocGlobal + Wait>(
    rt: &R,
    over: Over,
    boxes: u32,
    calls: (u64, u64),
    keeps: (u64, u64),
    steps: &[Step],
) -> Option<usize> {
    for first in calls.0..=calls.1 {
        for keep in keeps.0..=keeps.1 {
            let mut row = fused(boxes, (first, keep), 1);
            row.more = 1;
            if let Some(step) = within(rt, over, &row, 8, steps) {
                return Some(step);
            }
        }
    }
    None
}

/// A box for each of these texts in hex, and so many spares.
pub(super) fn with_bytes(alloc: Global, texts: &[&'static str], spares: u32) -> Option<Supply> {
    let mut maker = maker_of(alloc, LEAST)?;
    let mut boxes: Vec<Box<dyn Segment>> = Vec::new(alloc);
    for text in texts {
        maker.push_hex(text, &mut boxes)?;
    }
    maker.fill(spares, &mut boxes)?;
    Some(Supply {
        boxes,
        more: Vec::new(alloc),
    })
}

// Over what is recovered from a box for each of these texts in hex, in any order, and so many
// spares.
fn over_bytes<R: AllocGlobal + Wait>(
    rt: &R,
    over: Over,
    texts: &[&'static str],
    spares: u32,
    steps: &[Step],
) -> Option<usize> {
    match with_bytes(rt.alloc(), texts, spares) {
        Some(mut supply) => lives_on(rt, over, &mut supply, None, steps),
        None => Some(0),
    }
}

// Over a box whose failures cannot be counted any more, and so many after it.
fn over_worn<R: AllocGlobal + Wait>(
    rt: &R,
    over: Over,
    behind: u32,
    steps: &[Step],
) -> Option<usize> {
    match worn(rt.alloc(), "", behind) {
        Some(mut supply) => lives(rt, over, &mut supply, 8, steps),
        None => Some(0),
    }
}

/// What a table's store stands over.
#[derive(Drop)]
pub(super) enum Stand {
    /// So many boxes, one more in reserve, and rings of so many places.
    Boxes(u32, usize),
    /// So many boxes, then one that fails, one time after the other, after each of these numbers of
    /// calls and keeps each of these numbers of bytes of an append (the least and the greatest), a
    /// spare, and one more in reserve.
    Fuse(u32, (u64, u64), (u64, u64)),
    /// A box for each of these texts in hex, in any order, and two spares: the store goes on from
    /// what is recovered.
    Bytes(&'static [&'static str]),
    /// A box for each of these texts in hex, in any order, and one spare: the store goes on from
    /// what is recovered.
    Last(&'static [&'static str]),
    /// A box whose failures cannot be counted any more, and so many after it.
    Worn(u32),
}

fn walked<R: AllocGlobal + Wait>(
    rt: &R,
    over: Over,
    stand: &Stand,
    steps: &[Step],
) -> Option<usize> {
    match stand {
        Stand::Boxes(many, places) => within(rt, over, &plain(*many, 1), *places, steps),
        Stand::Fuse(many, calls, keeps) => over_fuses(rt, over, *many, *calls, *keeps, steps),
        Stand::Bytes(texts) => over_bytes(rt, over, *texts, 2, steps),
        Stand::Last(texts) => over_bytes(rt, over, *texts, 1, steps),
        Stand::Worn(behind) => over_worn(rt, over, *behind, steps),
    }
}

/// Tables, and what the store of each of them stands over.
pub(super) type Tables = (Stand, &'static [&'static [Step]]);

// The first of the tables that went otherwise than expected, and its step.
fn first_wrong<R: AllocGlobal + Wait>(
    rt: &R,
    over: Over,
    rows: &[Tables],
) -> Option<(usize, usize)> {
    let mut count: usize = 0;
    for (stand, tables) in rows {
        for steps in *tables {
            if let Some(step) = walked(rt, over, stand, *steps) {
                return Some((count, step));
            }
            count = count.saturating_add(1);
        }
    }
    None
}

/// All tables go as expected, over a core and then over a store.
pub(super) fn all_go<R: Abort + AllocGlobal + Wait>(rt: &R, rows: &[Tables]) {
    for over in BOTH {
        all_went(rt, over, first_wrong(rt, over, rows));
    }
}
