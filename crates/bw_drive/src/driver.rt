//! Writers in threads of their own over one store.

ghost use Rattle.std.specs.Prelude.{List, Vec, ◌≡◌, ◌≤◌, map, vec_len, IfOk, IfErr, MatchResult};
ghost use Rattle.std.specs.Vec.{vec_capacity};
ghost use Rattle.std.specs.declared.alloc.Global.{Global};
ghost use Rattle.bw_record.specs.declared.record.Record.{Record};
ghost use Rattle.bw_ring.specs.declared.feed.Feed.{Feed};
ghost use Rattle.bw_ring.specs.Ends.{accepted, ring_of_feed};
ghost use Rattle.bw_store.specs.Kept.{Kept};
ghost use Rattle.bw_store.specs.Views.{kept_by, IsSound};
ghost use Rattle.bw_drive.specs.Written.{Wrote, WroteSome};
ghost use Rattle.bw_drive.specs.Ran.{Runs, Stops};
ghost use Rattle.bw_drive.specs.Settling.{HasSettled};

use crate::driven::{DriveFault, Driven};
use crate::flags::{Ended, Flags};
use crate::gate::Gate;
use crate::pace::Pace;
use crate::plan::Plan;
use crate::store_thread::{tell, tend};
use crate::writer_threads::{end_all, start_all};
use crate::writers::Writer;
use bw_ring::{Feed, Group};
use bw_store::{Store, StoreFault};
use std::sync::Wait;
use std::thread;
use std::thread::{Scope, Threads};

/// What a run begins with: the feeds and scripts of the writers, and room for what comes back. From
/// here on nothing but a thread is asked for before the store is turned.
#[derive(Drop)]
struct Start {
    feeds: Vec<Feed>,
    scripts: Vec<Vec<Group>>,
    writers: Vec<Writer>,
    back: Vec<Feed>,
    counts: Vec<u64>,
    ghost one_each: { vec_len scripts ≡ vec_len feeds },
    ghost writers_room: { (vec_len writers ≡ 0) × (vec_len feeds ≤ vec_capacity writers) },
    ghost back_room: { (vec_len back ≡ 0) × (vec_len feeds ≤ vec_capacity back) },
    ghost counts_room: { (vec_len counts ≡ 0) × (vec_len feeds ≤ vec_capacity counts) },
}

/// What the writers left, and how the store was tended meanwhile.
#[derive(Drop)]
struct Left {
    feeds: Vec<Feed>,
    accepted: Vec<u64>,
    run: Result<Option<Ended>, StoreFault>,
}

fn start_of(feeds: Vec<Feed>, scripts: Vec<Vec<Group>>) -> Result<Start, Vec<Feed>>
    requires { vec_len scripts ≡ vec_len feeds }
    ensures feeds { IfOk result (λ s. s.feeds.items ≡ feeds.items) }
    ensures scripts { IfOk result (λ s. s.scripts.items ≡ scripts.items) }
    ensures back { IfErr result (λ back. back.items ≡ feeds.items) }
{
    let alloc = *feeds.allocator();
    let count = feeds.len();
    let Ok(writers) = Vec::with_capacity(alloc, count) else {
        return Err(feeds);
    };
    let Ok(back) = Vec::with_capacity(alloc, count) else {
        return Err(feeds);
    };
    let Ok(counts) = Vec::with_capacity(alloc, count) else {
        return Err(feeds);
    };
    Ok(Start {
        feeds,
        scripts,
        writers,
        back,
        counts,
    })
}

// Runs the writers, and tends the store beside them. Every way out waits for all writers.
fn run_writers<'s, E, R: Threads + Wait, G: Gate>(
    scope: &Scope<'s, E>,
    rt: &R,
    store: &mut Store,
    start: Start,
    gate: &'s G,
    flags: &'s Flags,
    plan: Plan,
    max_turns: u64,
) -> Left
    requires sound { IsSound store.old holding }
    requires often { 1 ≤ plan.flush_every }
    ensures sound { IsSound store.new holding }
    ensures runs { Runs plan.clean_at (kept_by store.old holding) (kept_by store.new holding) }
    ensures refused { IfErr result.run (λ cause.
        Stops plan.clean_at (kept_by store.old holding) cause (kept_by store.new holding)) }
    ensures wrote { Wrote start.feeds.items start.scripts.items result.accepted.items
        result.feeds.items }
{
    let Start {
        feeds,
        scripts,
        writers,
        back,
        counts,
    } = start;
    let count = feeds.len() as u64;
    let (writers, are_all) = start_all(scope, feeds, scripts, writers, gate, flags, max_turns);
    let mut pace = Pace::new();
    let run = tend(
        rt, store, gate, &mut pace, flags, are_all, count, plan, max_turns,
    );
    if run.is_err() {
        flags.stop();
    }
    let (feeds, accepted) = end_all(rt, writers, back, counts);
    Left {
        feeds,
        accepted,
        run,
    }
}

// Settles if nothing was refused. What the run was before it, is what both are from its start.
fn finish<R: Wait, G: Gate>(
    rt: &R,
    store: &mut Store,
    left: Left,
    gate: &G,
    plan: Plan,
) -> Result<Driven, DriveFault>
    requires sound { IsSound store.old holding }
    requires feeds { map ring_of_feed left.feeds.items ≡ (kept_by store.old holding).rings }
    ensures wrote { (first : List Feed) → (scripts : List (Vec (List Record) Global))
        → Wrote first scripts left.accepted.items left.feeds.items
        → MatchResult result
        (λ driven. Wrote first scripts driven.accepted.items driven.feeds.items)
        (λ fault. WroteSome first scripts fault.feeds.items) }
    ensures settled { IfOk result (λ driven.
        HasSettled (kept_by store.new holding) driven.feeds.items driven.entries) }
    ensures refused { (first : Kept) → Runs plan.clean_at first (kept_by store.old holding)
        → IfErr left.run (λ cause. Stops plan.clean_at first cause (kept_by store.old holding))
        → IfErr result (λ fault.
        Stops plan.clean_at first fault.cause (kept_by store.new holding)) }
    ensures sound { IsSound store.new holding }
    ensures runs { (first : Kept) → Runs plan.clean_at first (kept_by store.old holding)
        → Runs plan.clean_at first (kept_by store.new holding) }
{
    let Left {
        mut feeds,
        accepted,
        run,
    } = left;
    if let Err(cause) = run {
        return Err(DriveFault { feeds, cause });
    }
    match store.settle(rt, &mut feeds) {
        Ok(entries) => {
            tell(store, gate, feeds.len() as u64, plan.forgets);
            Ok(Driven {
                feeds,
                accepted,
                entries,
            })
        }
        Err(cause) => Err(DriveFault { feeds, cause }),
    }
}

/// Puts each script's records by a writer in a thread of its own, while the caller's thread turns,
/// flushes and cleans by the plan; once all writers have ended it settles. The feeds are those that
/// `open` or `reopen` gave, all of them, in order, and script w is writer w's.
///
/// A writer tries each group until its feed accepts it, at most `max_turns` times, between
/// `gate.before` and `gate.after`; if these tries are used up, it ends. The caller's thread turns
/// at most `max_turns` times, and then waits for the writers. After each flush and the last settle
/// it says to `gate.durable` how many records of each writer are durable.
///
/// The first refusal ends the run, and is the cause: memory or a thread that cannot be had before
/// the store is turned (`NoMemory`), a turn, a flush, a cleaning, or the last settle. Nothing is
/// turned, flushed, cleaned or settled after it; the writers end at their next try, and are waited
/// for. Such a run may be followed by another over the same feeds.
pub fn drive<R: Threads + Wait, G: Gate>(
    rt: &R,
    store: &mut Store,
    feeds: Vec<Feed>,
    scripts: Vec<Vec<Group>>,
    gate: &G,
    plan: Plan,
    max_turns: u64,
) -> Result<Driven, DriveFault>
    requires sound { IsSound store.old holding }
    requires feeds { map ring_of_feed feeds.items ≡ (kept_by store.old holding).rings }
    requires one_each { vec_len scripts ≡ vec_len feeds }
    requires plan { (1 ≤ plan.limit) × (1 ≤ plan.flush_every) }

    // Each feed comes back in its place, and accepted the first records of its script.
    ensures wrote { MatchResult result
        (λ driven. Wrote feeds.items scripts.items driven.accepted.items driven.feeds.items)
        (λ fault. WroteSome feeds.items scripts.items fault.feeds.items) }
    ensures settled { IfOk result (λ driven.
        HasSettled (kept_by store.new holding) driven.feeds.items driven.entries) }

    ensures refused { IfErr result (λ fault. Stops plan.clean_at (kept_by store.old holding)
        fault.cause (kept_by store.new holding)) }

    ensures sound { IsSound store.new holding }
    ensures runs { Runs plan.clean_at (kept_by store.old holding) (kept_by store.new holding) }
{
    let start = match start_of(feeds, scripts) {
        Ok(start) => start,
        Err(feeds) => {
            return Err(DriveFault {
                feeds,
                cause: StoreFault::NoMemory,
            });
        }
    };
    let flags = Flags::new();
    let shared = &flags;
    let (store, left) = thread::scope(
        thread::scope_env(),
        rt,
        move |scope| -> (&mut Store, Left)
            requires sound { IsSound store.now holding }
            requires often { 1 ≤ plan.flush_every }
            ensures same { result.0.ghost_name ≡ store.entry.ghost_name }
            ensures sound { IsSound result.0.now holding }
            ensures runs { Runs plan.clean_at (kept_by store.entry.now holding)
                (kept_by result.0.now holding) }
            ensures refused { IfErr result.1.run (λ cause. Stops plan.clean_at
                (kept_by store.entry.now holding) cause (kept_by result.0.now holding)) }
            ensures wrote { Wrote start.feeds.items start.scripts.items result.1.accepted.items
                result.1.feeds.items }
        {
            let left = run_writers(scope, rt, &mut *store, start, gate, shared, plan, max_turns);
            (store, left)
        },
    );
    finish(rt, store, left, gate, plan)
}
