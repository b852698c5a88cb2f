//! The caller's thread turns, flushes and cleans while writers put.

ghost use Rattle.std.specs.Prelude.{◌≡◌, ◌<◌, ◌≤◌, ◌+◌, ◌⊎◌, IfOk, IfErr, OnOk, IsFalse, MatchOption, MatchResult};
ghost use Rattle.bw_store.specs.Kept.{Kept};
ghost use Rattle.bw_store.specs.Views.{kept_by, IsSound};
ghost use Rattle.bw_drive.specs.Pace.{FlushesAndCleans, FlushOrCleanStops, Paces, PaceStops, Tends, TurnedOnce, TurnStops};
ghost use Rattle.bw_drive.specs.Ran.{Runs, StopsAfter, Stops};

use crate::flags::{Ended, Flags};
use crate::gate::Gate;
use crate::pace::Pace;
use crate::plan::Plan;
use bw_store::{Store, StoreFault};
use std::sync::Wait;

// Flushes, and cleans if many segments are live.
fn flush_and_clean<R: Wait>(rt: &R, store: &mut Store, clean_at: u32) -> Result<(), StoreFault>
    requires { IsSound store.old holding }
    ensures sound { IsSound store.new holding }
    ensures runs { Runs clean_at (kept_by store.old holding) (kept_by store.new holding) }
    ensures refused { IfErr result (λ cause.
        StopsAfter clean_at (kept_by store.old holding) cause (kept_by store.new holding)) }
    ensures paced { MatchResult result
        (λ _. FlushesAndCleans clean_at (kept_by store.old holding) (kept_by store.new holding))
        (λ cause. FlushOrCleanStops clean_at (kept_by store.old holding) cause
        (kept_by store.new holding)) }
{
    let _ = store.flush(rt)?;
    if clean_at == 0 || store.live() < clean_at {
        return Ok(());
    }
    let _ = store.clean(rt)?;
    Ok(())
}

// One turn, and what follows it if a flush is due.
fn turn_and_tend<R: Wait>(
    rt: &R,
    store: &mut Store,
    pace: &mut Pace,
    is_due: bool,
    plan: Plan,
) -> Result<(), StoreFault>
    requires few { pace.old.turns < u64.MAX }
    requires sound { IsSound store.old holding }
    ensures counted { pace.new.turns ≡ pace.old.turns + 1 }
    ensures sound { IsSound store.new holding }
    ensures runs { Runs plan.clean_at (kept_by store.old holding) (kept_by store.new holding) }
    ensures refused { IfErr result (λ cause.
        StopsAfter plan.clean_at (kept_by store.old holding) cause (kept_by store.new holding)) }
    ensures paced { MatchResult result
        (λ _. (turned : Kept) × TurnedOnce plan.limit (kept_by store.old holding) turned
        × Tends is_due plan.clean_at turned (kept_by store.new holding))
        (λ cause. TurnStops plan is_due (kept_by store.old holding) cause
        (kept_by store.new holding)) }
{
    pace.turn(store, plan.limit)?;
    if !is_due {
        return Ok(());
    }
    flush_and_clean(rt, store, plan.clean_at)
}

/// Says to each writer's gate how much of it is durable, and lets go of what readers have of the
/// history if the plan wants it. A store has at most 64 writers.
pub(crate) fn tell<G: Gate>(store: &mut Store, gate: &G, writers: u64, forgets: bool)
    requires sound { IsSound store.old holding }
    ensures sound { IsSound store.new holding }
    ensures same { kept_by store.new holding ≡ kept_by store.old holding }
{
    for writer in 0..writers.min(64) {
        gate.durable(writer as usize, store.durable_of(writer as u16));
    }
    if forgets {
        let _ = store.forget();
    }
}

// After a turn: says to each writer's gate how much of it is durable, if a flush was due.
fn tell_due<G: Gate>(store: &mut Store, gate: &G, writers: u64, is_due: bool, plan: Plan)
    requires sound { IsSound store.old holding }
    ensures sound { IsSound store.new holding }
    ensures same { kept_by store.new holding ≡ kept_by store.old holding }
{
    if is_due {
        tell(store, gate, writers, plan.forgets);
    }
}

/// Turns, flushes and cleans by the plan until so many writers have ended, at most `max_turns`
/// turns, and answers what the flags said last. If not each of them has a thread, the store is left
/// as it is.
pub(crate) fn tend<R: Wait, G: Gate>(
    rt: &R,
    store: &mut Store,
    gate: &G,
    pace: &mut Pace,
    flags: &Flags,
    are_all: bool,
    writers: u64,
    plan: Plan,
    max_turns: u64,
) -> Result<Option<Ended>, StoreFault>
    requires none { pace.old.turns ≡ 0 }
    requires sound { IsSound store.old holding }
    requires often { 1 ≤ plan.flush_every }
    ensures sound { IsSound store.new holding }
    ensures runs { Runs plan.clean_at (kept_by store.old holding) (kept_by store.new holding) }
    ensures refused { IfErr result (λ cause.
        Stops plan.clean_at (kept_by store.old holding) cause (kept_by store.new holding)) }

    // So many turns were made as are counted, each with what the plan wants after it.
    ensures paced { OnOk result (Paces plan pace.new.turns (kept_by store.old holding)
        (kept_by store.new holding)) }
    // They are as many as there may be, unless the flags said that all writers have ended.
    ensures until { IfOk result (λ ended. MatchOption ended (pace.new.turns ≡ max_turns)
        (λ e. writers ≤ e.count)) }
    ensures stopped { IfErr result (λ cause. (IsFalse are_all × (cause ≡ StoreFault.NoMemory)
        × (kept_by store.new holding ≡ kept_by store.old holding))
        ⊎ PaceStops plan max_turns (kept_by store.old holding) cause (kept_by store.new holding)) }
{
    if !are_all {
        return Err(StoreFault::NoMemory);
    }
    let every = u64::from(plan.flush_every);
    'turns: for turn in 0..max_turns {
        // What the last writers put is taken by the settle that follows.
        let ended = flags.ended();
        if ended.count() >= writers {
            return Ok(Some(ended));
        }
        let is_due = (turn + 1) % every == 0;
        turn_and_tend(rt, store, pace, is_due, plan)?;
        tell_due(store, gate, writers, is_due, plan);
    }
    Ok(None)
}
