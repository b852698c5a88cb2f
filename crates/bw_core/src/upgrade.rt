//! All segments of format 1 are given up, and no page changes.
//!
//! It is a cleaning of several segments at once (`clean`), and the same holds of it: what waits is
//! flushed first, and what a refusal leaves is noted. The frames of format 1 are read by their
//! version until the last of them is gone.

ghost use Rattle.std.specs.Prelude.{◌≡◌, ◌≤◌, ◌↔◌, take, is_ok, IsErrOf, IfOk};
ghost use Rattle.bw_care.specs.Upgrading.{old_segments};
ghost use Rattle.bw_core.specs.Cleaning.{HasBoxesBut, HasFloorBut};
ghost use Rattle.bw_core.specs.Counting.{counted_gone, CountsUpgraded};
ghost use Rattle.bw_core.specs.Following.{Continues};
ghost use Rattle.bw_core.specs.Machine.{MayBeStoppedBefore, RunsAs};
ghost use Rattle.bw_core.specs.Upgrading.{UpgradeMoves, UpgradeLeaves};

use crate::store::Core;
use bw_care::{Upgraded, bytes_upto, live_bytes, old_segments, upgrade};
use bw_terms::StoreFault;

impl Core {
    ghost use Rattle.bw_core.specs.Moving.{MayMove};
    ghost use Rattle.bw_core.specs.Going.{IsQuiet};
    ghost use Rattle.bw_core.specs.Views.{forgotten_of, kept_by, noted_of, IsSound};

    /// Gives up all live segments of format 1: what waits is flushed, then each page that was last
    /// set in one of them is written again in format 2, and their boxes are dropped, oldest first.
    ///
    /// Refused `NothingOld`, exactly if no live segment has format 1, before anything else. Then it
    /// is refused as `flush` is, but `NoSegment` only if no spare stands at all. Then it is refused
    /// `NoMemory`, and then as the upgrade of `bw_care` is. A refused step leaves the steps before
    /// it done: frames that were appended stay and are durable, each with a cut at the end of the
    /// history, and no box is dropped. After a refusal other than `Failed` and a failed append it
    /// may be called again: it does not write a page again that stands in a segment of format 2 by
    /// then. So if the spares run out (`NoSegment`), `add_segment` and a second call go on.
    ///
    /// It costs what a flush and `bw_care::upgrade` cost, and a look at each page's line in memory.
    pub fn upgrade(&mut self) -> Result<Upgraded, StoreFault>
        requires sound { IsSound self.old holding }
        ensures sound { IsSound self.new holding }
        ensures leaves { UpgradeLeaves (kept_by self.old holding) result
            (kept_by self.new holding) }

        ensures nothing_old { IsErrOf result StoreFault.NothingOld
            ↔ (old_segments (kept_by self.old holding).log ≡ 0) }
        ensures none_left { IfOk result (λ _. old_segments (kept_by self.new holding).log ≡ 0) }

        // The floor is what is durable once segments are given up, and otherwise stays.
        ensures floor { HasFloorBut (kept_by self.old holding) result (kept_by self.new holding) }

        ensures follows { Continues (kept_by self.old holding) (kept_by self.new holding) }
        // Nothing is forgotten, and what is counted is what the upgrade did.
        ensures gone { forgotten_of self.new ≡ forgotten_of self.old }
        ensures counts { CountsUpgraded (kept_by self.old holding) (noted_of self.old).tally result
            (kept_by self.new holding) (noted_of self.new).tally }
        ensures boxes { HasBoxesBut (old_segments (kept_by self.old holding).log)
            (kept_by self.old holding) result (kept_by self.new holding) }

        // As the machine: all that was taken is kept, and what a stop leaves is found.
        ensures runs { RunsAs (kept_by self.old holding) result (kept_by self.new holding) }

        // What a stop leaves is found even if segments that were given up still have what they had,
        // and stand before the others: their files are emptied after this call, one by one.
        ensures before { IfOk result (λ _. MayBeStoppedBefore
            (take (old_segments (kept_by self.old holding).log) (kept_by self.old holding).log.live)
            (kept_by self.new holding)) }
    {
        if self.old_segments() == 0 {
            return Err(StoreFault::NothingOld);
        }
        self.make_ready()?;
        self.upgrade_counted()
    }

    /// How many live segments have format 1: an upgrade would give them up. No memory is taken.
    pub fn old_segments(&self) -> u32
        requires { IsSound self.now holding }
        ensures { result ≡ old_segments (kept_by self.now holding).log }
    {
        old_segments(&self.log)
    }

    // The upgrade, if nothing waits, and what is counted of it.
    fn upgrade_counted(&mut self) -> Result<Upgraded, StoreFault>
        requires ready { MayMove self.old holding }
        requires some { 1 ≤ old_segments (kept_by self.old holding).log }
        ensures sound { IsSound self.new holding }
        ensures leaves { UpgradeMoves (kept_by self.old holding) result (kept_by self.new holding) }
        ensures counts { (noted_of self.new).tally
            ≡ counted_gone (old_segments (kept_by self.old holding).log) (noted_of self.old).tally
            (kept_by self.old holding) (is_ok result) (kept_by self.new holding) }
        ensures none_left { IfOk result (λ _. old_segments (kept_by self.new holding).log ≡ 0) }
        ensures gone { forgotten_of self.new ≡ forgotten_of self.old }
    {
        let durable = self.seals.durable;
        let before = live_bytes(&self.log);
        let segments = self.old_segments();
        let oldest = bytes_upto(&self.log, segments);
        let moved = self.upgrade_pages();
        let after = live_bytes(&self.log);
        let frames = self.seals.durable.saturating_sub(durable);
        let (tally, count) = (self.counts.tally, u64::from(segments));
        self.counts.tally = tally.with_moved(moved.is_ok(), frames, before, after, oldest, count);
        moved
    }

    // The upgrade, if nothing waits, and what the store notes of its frames.
    fn upgrade_pages(&mut self) -> Result<Upgraded, StoreFault>
        requires ready { MayMove self.old holding }
        requires some { 1 ≤ old_segments (kept_by self.old holding).log }
        ensures quiet { IsQuiet self.old self.new holding }
        ensures leaves { UpgradeMoves (kept_by self.old holding) result (kept_by self.new holding) }
        ensures none_left { IfOk result (λ _. old_segments (kept_by self.new holding).log ≡ 0) }
    {
        let alloc = *self.seals.cuts.allocator();
        let first = self.log.next_frame();
        let result = upgrade(alloc, &mut self.log);
        self.note_moved(first);
        match result {
            Ok(upgraded) => {
                self.seals.floor = self.seals.durable;
                Ok(upgraded)
            }
            Err(fault) => Err(StoreFault::from(fault)),
        }
    }
}
