//! One call, with what it has to answer.

ghost use Rattle.std.specs.Prelude.{◌≡◌, map};
ghost use Rattle.bw_ring.specs.Ends.{ring_of_feed};
ghost use Rattle.bw_store.specs.Views.{kept_by, IsSound};

use super::reading::{is_split, learns, reads};
use super::scripts::{Part, Sizes, begun, scripts};
use bw_drive::{DriveFault, Driven, Gate, Plan, drive};
use bw_ring::Feed;
use bw_store::{Store, StoreFault};
use std::sync::Wait;
use std::thread::Threads;

/// How a run goes: a turn's limit, after how many turns it flushes, at how many segments it cleans,
/// and how often each side tries.
#[derive(Clone, Copy)]
pub(super) struct Pace(
    pub(super) u32,
    pub(super) u32,
    pub(super) u32,
    pub(super) u64,
);

/// So many tries that none is the last.
pub(super) const MANY: u64 = 1_000_000_000;

/// A run, and how it ends: of each writer's records so many are accepted, at least and at most, or
/// it has this cause.
#[derive(Clone, Copy)]
pub(super) struct Run(
    pub(super) Part,
    pub(super) Pace,
    pub(super) Result<(u64, u64), StoreFault>,
);

#[derive(Drop)]
pub(super) enum Step {
    Drives(Run),
    /// A run by a plan that forgets: how many entries are in memory after it, at least and at most,
    /// and likewise how many were forgotten.
    Forgets(Run, (u64, u64), (u64, u64)),
    /// All is taken and flushed, or refused.
    Settles(Result<(), StoreFault>),
    /// The history is the first records of each writer, and has so many entries at most.
    Begins(u32, usize),
    /// How many frames are durable, at least and at most.
    Durable(u64, u64),
    /// How many boxes there are, and how many of them are live at most.
    Boxes(u32, u32),
    /// All pages together have the last value of each key of the first so many records of all
    /// writers, and no more.
    Reads(u32, u32),
    /// A new reader that learnt the last news sees the last of the first so many records of each
    /// writer.
    Learns(u32, u32),
    /// The first page has the first two records of writer 0, and no more.
    Splits,
}

use Step::{Begins, Boxes, Drives, Durable, Forgets, Learns, Reads, Settles, Splits};

// Whether of each writer so many records were accepted here, at least and at most, and all that its
// feed accepted was taken.
fn are_taken(accepted: &[u64], taken: &[u32], part: Part, least: u64, most: u64) -> bool {
    for (accepted, taken) in accepted.iter().zip(taken) {
        let all = accepted.saturating_add(u64::from(part.0));
        if *accepted < least || *accepted > most || all != u64::from(*taken) {
            return false;
        }
    }
    true
}

// Whether a run of so many feeds that ended well was to end so: each writer's records in the
// history are all that its feed accepted, so many here, at least and at most.
fn is_told(store: &Store, driven: &Driven, many: usize, run: &Run) -> bool {
    let Run(part, _, Ok((least, most))) = run else {
        return false;
    };
    let are_all = driven.feeds.len() == many
        && driven.accepted.len() == many
        && driven.entries == store.history().len() as u64;
    match begun(store.history(), part.2) {
        Some(taken) => {
            are_all && are_taken(driven.accepted.as_slice(), &taken, *part, *least, *most)
        }
        None => false,
    }
}

// Whether so many entries are in memory, and so many were forgotten.
fn is_forgotten(store: &Store, kept: (u64, u64), gone: (u64, u64)) -> bool {
    let (here, past) = (store.history().len() as u64, store.forgotten());
    kept.0 <= here && here <= kept.1 && gone.0 <= past && past <= gone.1
}

fn sum_of(counts: &[u64]) -> u64 {
    let mut sum: u64 = 0;
    for count in counts {
        sum = sum.saturating_add(*count);
    }
    sum
}

// Whether a run by a plan that forgets was to end so, with as many entries as were accepted.
fn is_summed(driven: &Driven, run: &Run) -> bool {
    let Run(_, _, told) = *run;
    let all = sum_of(driven.accepted.as_slice());
    driven.entries == all && told == Ok((all, all))
}

// A run by a plan that forgets, or by one that does not: the feeds, and whether it went as
// expected.
fn drives<R: AllocGlobal + Threads + Wait, G: Gate>(
    rt: &R,
    store: &mut Store,
    feeds: Vec<Feed>,
    gate: &G,
    run: &Run,
    sizes: Sizes,
    forgets: bool,
) -> (Vec<Feed>, bool)
    requires sound { IsSound store.old holding }
    requires feeds { map ring_of_feed feeds.items ≡ (kept_by store.old holding).rings }
    ensures sound { IsSound store.new holding }
    ensures feeds { map ring_of_feed result.0.items ≡ (kept_by store.new holding).rings }
{
    let Run(part, Pace(limit, flush_every, clean_at, max_turns), told) = *run;
    let many = feeds.len();
    let Ok(scripts) = scripts(rt.alloc(), many, part, sizes) else {
        return (feeds, false);
    };
    let plan = Plan {
        limit: limit.max(1),
        flush_every: flush_every.max(1),
        clean_at,
        forgets,
    };
    match drive(rt, store, feeds, scripts, gate, plan, max_turns) {
        Ok(driven) => {
            let went = if forgets {
                is_summed(&driven, run)
            } else {
                is_told(store, &driven, many, run)
            };
            (driven.feeds, went)
        }
        Err(DriveFault { feeds, cause }) => {
            let went = feeds.len() == many && told == Err(cause);
            (feeds, went)
        }
    }
}

// All is taken and flushed, or it is refused.
fn settles<R: Wait>(
    rt: &R,
    store: &mut Store,
    feeds: &mut Vec<Feed>,
    told: Result<(), StoreFault>,
) -> bool
    requires sound { IsSound store.old holding }
    requires feeds { map ring_of_feed feeds.old.items ≡ (kept_by store.old holding).rings }
    ensures sound { IsSound store.new holding }
    ensures feeds { map ring_of_feed feeds.new.items ≡ (kept_by store.new holding).rings }
{
    match store.settle(rt, feeds) {
        Ok(entries) => told == Ok(()) && entries == store.history().len() as u64,
        Err(cause) => told == Err(cause),
    }
}

// A step that only asks, of a store of so many writers.
fn answers(store: &mut Store, writers: usize, step: &Step) -> bool
    requires { IsSound store.old holding }
    ensures sound { IsSound store.new holding }
    ensures rings { (kept_by store.new holding).rings ≡ (kept_by store.old holding).rings }
{
    match step {
        Begins(keys, most) => {
            let history = store.history();
            history.len() <= *most && begun(history, *keys).is_some()
        }
        Durable(least, most) => *least <= store.durable() && store.durable() <= *most,
        Boxes(all, live) => {
            let (here, spares) = (store.live(), store.spares());
            here <= *live && here.saturating_add(spares) == *all
        }
        Splits => is_split(store),
        Reads(records, keys) => reads(store, writers, *records, *keys),
        Learns(records, keys) => learns(store, writers, *records, *keys),
        _ => false,
    }
}

/// What a step leaves of the feeds, and whether it goes as expected.
pub(super) fn goes<R: AllocGlobal + Threads + Wait, G: Gate>(
    rt: &R,
    store: &mut Store,
    feeds: Vec<Feed>,
    gate: &G,
    sizes: Sizes,
    step: &Step,
) -> (Vec<Feed>, bool)
    requires sound { IsSound store.old holding }
    requires feeds { map ring_of_feed feeds.items ≡ (kept_by store.old holding).rings }
    ensures sound { IsSound store.new holding }
    ensures feeds { map ring_of_feed result.0.items ≡ (kept_by store.new holding).rings }
{
    match step {
        Drives(run) => drives(rt, store, feeds, gate, run, sizes, false),
        Forgets(run, kept, gone) => {
            let (feeds, went) = drives(rt, store, feeds, gate, run, sizes, true);
            let went = went && is_forgotten(store, *kept, *gone);
            (feeds, went)
        }
        Settles(told) => {
            let mut feeds = feeds;
            let went = settles(rt, store, &mut feeds, *told);
            (feeds, went)
        }
        _ => {
            let went = answers(store, feeds.len(), step);
            (feeds, went)
        }
    }
}
