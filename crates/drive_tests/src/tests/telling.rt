//! What each writer hears after each flush.

ghost use Rattle.std.specs.Prelude.{◌≡◌, ◌<◌, length, map};
ghost use Rattle.bw_ring.specs.Ends.{ring_of_feed};
ghost use Rattle.bw_store.specs.Views.{kept_by, IsSound};

use super::boxes::{TWO_WRITERS, four_boxes};
use super::scripts::{Part, Sizes, numbered, scripts};
use bw_codec::Record;
use bw_drive::{Driven, Gate, Plan, drive};
use bw_ring::Feed;
use bw_store::Store;
use std::alloc::Global;
use std::sync::Wait;
use std::sync::atomic::{AtomicU64, Ordering};
use std::thread;
use std::thread::Threads;

/// Each number has a key of its own.
const KEYS: u32 = 10_000;

/// So many flushes come before a writer may put.
const FLUSHES: u64 = 3;

/// How often a writer looks whether they came.
const LOOKS: u64 = 100_000_000;

/// Notes the numbers that each of two writers is told: those after the first three flushes as the
/// digits of one number, and the last. A writer puts nothing before these flushes.
#[derive(Drop)]
struct Notes {
    digits: [AtomicU64; 2],
    last: [AtomicU64; 2],
    told: AtomicU64,
}

impl Notes {
    fn new() -> Notes {
        Notes {
            digits: [AtomicU64::new(0), AtomicU64::new(0)],
            last: [AtomicU64::new(0), AtomicU64::new(0)],
            told: AtomicU64::new(0),
        }
    }

    fn number(row: &[AtomicU64; 2], writer: usize) -> u64 {
        row[writer % 2].load(Ordering::SeqCst)
    }
}

impl Gate for Notes {
    fn before(&self, _writer: usize, _index: u64) {
        for _ in 0..LOOKS {
            if self.told.load(Ordering::SeqCst) >= 2 * FLUSHES {
                return;
            }
            thread::yield_now();
        }
    }

    fn after(&self, _writer: usize, _index: u64) {}

    fn durable(&self, writer: usize, count: u64) {
        let told = self.told.fetch_add(1, Ordering::SeqCst);
        if told < 2 * FLUSHES {
            let digits = Notes::number(&self.digits, writer);
            let more = digits.saturating_mul(10).saturating_add(count);
            self.digits[writer % 2].store(more, Ordering::SeqCst);
        }
        self.last[writer % 2].store(count, Ordering::SeqCst);
    }
}

// Whether the feed of this writer accepted the record of a number.
fn put_at(feeds: &mut Vec<Feed>, writer: usize, number: u32) -> bool
    ensures { map ring_of_feed feeds.new.items ≡ map ring_of_feed feeds.old.items }
{
    let item = numbered(writer, number, KEYS);
    if writer >= feeds.as_slice().len() {
        return false;
    }
    is_put(feeds, writer, item)
}

fn is_put(feeds: &mut Vec<Feed>, writer: usize, item: Record) -> bool
    requires { writer < length feeds.old.items }
    ensures { map ring_of_feed feeds.new.items ≡ map ring_of_feed feeds.old.items }
{
    let _ = feeds.as_slice().len();
    feeds[writer].put(item).is_ok()
}

// Whether the feeds accepted four records of the first writer and two of the second.
fn fill(feeds: &mut Vec<Feed>) -> bool
    ensures { map ring_of_feed feeds.new.items ≡ map ring_of_feed feeds.old.items }
{
    let first = put_at(feeds, 0, 0) & put_at(feeds, 0, 1) & put_at(feeds, 0, 2);
    let last = put_at(feeds, 0, 3) & put_at(feeds, 1, 0) & put_at(feeds, 1, 1);
    first & last
}

// A run of a store whose feeds were filled: two groups a turn, one of each writer, and a flush
// after two turns. Each writer puts one record more.
fn driven<R: AllocGlobal + Threads + Wait>(
    rt: &R,
    store: &mut Store,
    feeds: Vec<Feed>,
    gate: &Notes,
) -> Option<Driven>
    requires sound { IsSound store.old holding }
    requires feeds { map ring_of_feed feeds.items ≡ (kept_by store.old holding).rings }
    ensures { IsSound store.new holding }
{
    let Ok(scripts) = scripts(rt.alloc(), feeds.len(), Part(4, 1, KEYS), Sizes::One) else {
        return None;
    };
    let plan = Plan {
        limit: 2,
        flush_every: 2,
        clean_at: 0,
        forgets: false,
    };
    match drive(rt, store, feeds, scripts, gate, plan, 1_000_000_000) {
        Ok(driven) => Some(driven),
        Err(_) => None,
    }
}

// A run over a new store of two writers, whose feeds are filled before.
fn run<R: AllocGlobal + Threads + Wait>(rt: &R, alloc: Global, gate: &Notes) -> Option<Driven> {
    let boxes = four_boxes(alloc)?;
    let Ok((mut store, mut feeds)) = Store::open(rt, alloc, TWO_WRITERS, boxes) else {
        return None;
    };
    let are_put = fill(&mut feeds);
    let driven = driven(rt, &mut store, feeds, gate);
    let _ = store.shut(rt);
    if are_put { driven } else { None }
}

// Whether each writer was told, after each flush, how many of its own records were in the segments
// then: two of each, then the last two of the first, then no more; and all at the end.
fn are_told<R: AllocGlobal + Threads + Wait>(rt: &R) -> bool {
    let gate = Notes::new();
    let Some(driven) = run(rt, rt.alloc(), &gate) else {
        return false;
    };
    driven.entries == 8
        && Notes::number(&gate.digits, 0) == 244
        && Notes::number(&gate.digits, 1) == 222
        && Notes::number(&gate.last, 0) == 5
        && Notes::number(&gate.last, 1) == 3
}

#[test]
fn each_writer_is_told_its_own_behind_each_flush(rt: HostRuntime) {
    assert!(rt; are_told(&rt));
}
