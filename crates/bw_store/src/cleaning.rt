//! Segments are given up and pages written again: the core's calls, and then what is durable is
//! published.

ghost use Rattle.std.specs.Prelude.{◌≡◌, ◌<◌, ◌↔◌, false, length, IsErrOf, IfOk};
ghost use Rattle.bw_care.specs.Upgrading.{old_segments};
ghost use Rattle.bw_core.specs.Rewriting.{are_pages};
ghost use Rattle.bw_store.specs.Following.{Continues};
ghost use Rattle.bw_store.specs.Machine.{RunsAs};
ghost use Rattle.bw_store.specs.Renewing.{CleanShows, CountsCleaning, CountsUpgrade, HasBoxesAfter, HasFloorAfter, MayBeStoppedBefore, RewriteShows, UpgradeShows};

use crate::store::Store;
use bw_core::{Cleaned, StoreFault, Upgraded};
use std::sync::Wait;

impl Store {
    ghost use Rattle.bw_store.specs.Going.{GoesOn};
    ghost use Rattle.bw_store.specs.Views.{forgotten_of, kept_by, noted_of, IsSound};

    /// Gives up the oldest live segment: what waits is flushed, then each page that was last set in
    /// that segment is written again, and its box is dropped.
    ///
    /// Refused `NothingOld`, exactly if fewer than two segments are live, before anything else.
    /// Then it is refused as `flush` is, but `NoSegment` only if no spare stands at all. Then it is
    /// refused `NoMemory`, and then as the cleaner is. A refused step leaves the steps before it
    /// done: frames that were appended stay and are durable, each with a cut at the end of the
    /// history, and no box is dropped. After a refusal other than `Failed` and a failed append it
    /// may be called again.
    ///
    /// Then what is durable is published, as `flush` does it. If only that finds no memory, the
    /// call is refused `NoMemory`, though the segment is given up: its box is dropped.
    ///
    /// It costs what a flush and `bw_care::clean` cost, and a look at each page's line in memory.
    pub fn clean<R: Wait>(&mut self, rt: &R) -> Result<Cleaned, StoreFault>
        requires sound { IsSound self.old holding }
        ensures sound { IsSound self.new holding }
        ensures leaves { CleanShows (kept_by self.old holding) result (kept_by self.new holding) }

        ensures nothing_old { IsErrOf result StoreFault.NothingOld
            ↔ (length (kept_by self.old holding).log.live < 2) }

        // The floor is what is durable once a segment is given up, and otherwise stays.
        ensures floor { HasFloorAfter 1 (kept_by self.old holding) result (kept_by self.new holding) }

        // Nothing is forgotten, and what is counted is what the cleaner did.
        ensures gone { forgotten_of self.new ≡ forgotten_of self.old }
        ensures counts { CountsCleaning (kept_by self.old holding) (noted_of self.old).tally result
            (kept_by self.new holding) (noted_of self.new).tally }

        ensures follows { Continues (kept_by self.old holding) (kept_by self.new holding) }
        ensures boxes { HasBoxesAfter 1 (kept_by self.old holding) result (kept_by self.new holding) }

        // As the machine: all that was taken is kept and then shown, and what a stop leaves is
        // found.
        ensures runs { RunsAs (kept_by self.old holding) result (kept_by self.new holding) }

        // What a stop leaves is found even if the segment that was given up still has what it had,
        // and stands before the others: its file is emptied after this call.
        ensures before { MayBeStoppedBefore 1 (kept_by self.old holding) result
            (kept_by self.new holding) }
    {
        let cleaned = self.core.clean()?;
        self.publish(rt)?;
        Ok(cleaned)
    }

    /// Gives up all live segments of format 1: what waits is flushed, then each page that was last
    /// set in one of them is written again in format 2, and their boxes are dropped, oldest first.
    ///
    /// Refused `NothingOld`, exactly if no live segment has format 1, before anything else. Then it
    /// is refused as `flush` is, but `NoSegment` only if no spare stands at all. Then it is refused
    /// `NoMemory`, and then as the upgrade of `bw_care` is. A refused step leaves the steps before
    /// it done: frames that were appended stay and are durable, each with a cut at the end of the
    /// history, and no box is dropped. After a refusal other than `Failed` and a failed append it
    /// may be called again: it does not write a page again that stands in a segment of format 2 by
    /// then. So if the spares run out (`NoSegment`), `add_segment` and a second call go on.
    ///
    /// Then what is durable is published, as `flush` does it. If only that finds no memory, the
    /// call is refused `NoMemory`, though the segments are given up: their boxes are dropped.
    ///
    /// It costs what a flush and `bw_care::upgrade` cost, and a look at each page's line in memory.
    pub fn upgrade<R: Wait>(&mut self, rt: &R) -> Result<Upgraded, StoreFault>
        requires sound { IsSound self.old holding }
        ensures sound { IsSound self.new holding }
        ensures leaves { UpgradeShows (kept_by self.old holding) result (kept_by self.new holding) }

        ensures nothing_old { IsErrOf result StoreFault.NothingOld
            ↔ (old_segments (kept_by self.old holding).log ≡ 0) }
        ensures none_left { IfOk result (λ _. old_segments (kept_by self.new holding).log ≡ 0) }

        // The floor is what is durable once segments are given up, and otherwise stays.
        ensures floor { HasFloorAfter (old_segments (kept_by self.old holding).log)
            (kept_by self.old holding) result (kept_by self.new holding) }

        ensures follows { Continues (kept_by self.old holding) (kept_by self.new holding) }
        ensures boxes { HasBoxesAfter (old_segments (kept_by self.old holding).log)
            (kept_by self.old holding) result (kept_by self.new holding) }
        // Nothing is forgotten, and what is counted is what the upgrade did.
        ensures gone { forgotten_of self.new ≡ forgotten_of self.old }
        ensures counts { CountsUpgrade (kept_by self.old holding) (noted_of self.old).tally result
            (kept_by self.new holding) (noted_of self.new).tally }

        // As the machine: all that was taken is kept and then shown, and what a stop leaves is
        // found.
        ensures runs { RunsAs (kept_by self.old holding) result (kept_by self.new holding) }

        // What a stop leaves is found even if segments that were given up still have what they had,
        // and stand before the others: their files are emptied after this call, one by one.
        ensures before { MayBeStoppedBefore (old_segments (kept_by self.old holding).log)
            (kept_by self.old holding) result (kept_by self.new holding) }
    {
        let upgraded = self.core.upgrade()?;
        self.publish(rt)?;
        Ok(upgraded)
    }

    /// Writes each of these pages again, whole, and answers in how many frames: what waits is
    /// flushed, then a Base of each page is appended, in this order, as many to a frame as fit. No
    /// page changes, and no segment is given up.
    ///
    /// A page that is evicted is read back from all frames that touched it since it was last
    /// written whole; after this call it is read from one. So whoever evicts pages that many
    /// flushes changed calls it first. A page that is named twice is written twice.
    ///
    /// Refused `NoPage`, exactly if one of the numbers is no page's, before anything else. Then it
    /// is refused as `flush` is, but `NoSegment` only if no spare stands at all. Then it is refused
    /// `NoMemory`, and then as `bw_care::rewrite` is. A refused step leaves the steps before it
    /// done: frames that were appended stay and are durable, each with a cut at the end of the
    /// history. After a refusal other than `Failed` and a failed append it may be called again.
    ///
    /// Then what is durable is published, as `flush` does it. If only that finds no memory, the
    /// call is refused `NoMemory`, though the pages are written.
    ///
    /// It costs what a flush and reading these pages cost, the bytes of the new frames, and a look
    /// at each page's line in memory.
    pub fn rewrite<R: Wait>(&mut self, rt: &R, pages: &[u32]) -> Result<u64, StoreFault>
        requires sound { IsSound self.old holding }
        ensures goes { GoesOn self.old self.new holding }
        ensures leaves { RewriteShows (kept_by self.old holding) pages.now result
            (kept_by self.new holding) }

        ensures no_page { IsErrOf result StoreFault.NoPage
            ↔ (are_pages (length (kept_by self.old holding).filed.leaves) pages.now ≡ false) }

        // As the machine: all that was taken is kept and then shown, and what a stop leaves is
        // found.
        ensures runs { RunsAs (kept_by self.old holding) result (kept_by self.new holding) }
    {
        let frames = self.core.rewrite(pages)?;
        self.publish(rt)?;
        Ok(frames)
    }
}
