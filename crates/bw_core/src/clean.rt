//! The oldest segment is given up, and no page changes.
//!
//! What waits is flushed first. The frame in the making has the next number, and its blocks link to
//! the last blocks of their pages. The frames of a cleaning would take that number, and their Bases
//! would come between. And a log that is full has one spare left at the most: this flush and these
//! frames may take it, and no other may.
//!
//! A refusal part-way keeps the frames that were written. They change no page, and the store notes
//! them as its own: each has a cut where the history ends, so that the count of cuts and that of
//! frames never part.

ghost use Rattle.std.specs.Prelude.{◌≡◌, ◌≤◌, ◌<◌, ◌+◌, ◌↔◌, [], true, false, length, take, vec_len, is_ok, IfErr, IfOk, IsErrOf, OnOk};
ghost use Rattle.std.specs.Vec.{vec_capacity};
ghost use Rattle.bw_core.specs.Cleaning.{MoveLeaves, CleanLeaves, HasBoxesBut, HasFloorBut};
ghost use Rattle.bw_core.specs.Counting.{counted_gone, CountsClean};
ghost use Rattle.bw_core.specs.Emptied.{Emptied, IsUnready};
ghost use Rattle.bw_core.specs.Following.{Continues};
ghost use Rattle.bw_core.specs.Machine.{MayBeStoppedBefore, RunsAs};
ghost use Rattle.bw_core.specs.Settled.{IsSettled};

use crate::flush::Spares;
use crate::store::Core;
use bw_care::{Cleaned, bytes_upto, clean, live_bytes};
use bw_terms::StoreFault;

impl Core {
    ghost use Rattle.bw_core.specs.Moving.{MayMove};
    ghost use Rattle.bw_core.specs.Going.{GoesOn, IsQuiet};
    ghost use Rattle.bw_core.specs.Views.{forgotten_of, kept_by, noted_of, IsSound};

    /// Gives up the oldest live segment: what waits is flushed, then each page that was last set in
    /// that segment is written again, and its box is dropped.
    ///
    /// Refused `NothingOld`, exactly if fewer than two segments are live, before anything else.
    /// Then it is refused as `flush` is, but `NoSegment` only if no spare stands at all. Then it is
    /// refused `NoMemory`, and then as the cleaner is. A refused step leaves the steps before it
    /// done: frames that were appended stay and are durable, each with a cut at the end of the
    /// history, and no box is dropped. After a refusal other than `Failed` and a failed append it
    /// may be called again.
    ///
    /// It costs what a flush and `bw_care::clean` cost, and a look at each page's line in memory.
    pub fn clean(&mut self) -> Result<Cleaned, StoreFault>
        requires sound { IsSound self.old holding }
        ensures sound { IsSound self.new holding }
        ensures leaves { CleanLeaves (kept_by self.old holding) result (kept_by self.new holding) }

        ensures nothing_old { IsErrOf result StoreFault.NothingOld
            ↔ (length (kept_by self.old holding).log.live < 2) }

        // The floor is what is durable once a segment is given up, and otherwise stays.
        ensures floor { HasFloorBut (kept_by self.old holding) result (kept_by self.new holding) }

        // Nothing is forgotten, and what is counted is what the cleaner did.
        ensures gone { forgotten_of self.new ≡ forgotten_of self.old }
        ensures counts { CountsClean (kept_by self.old holding) (noted_of self.old).tally result
            (kept_by self.new holding) (noted_of self.new).tally }

        ensures follows { Continues (kept_by self.old holding) (kept_by self.new holding) }
        ensures boxes { HasBoxesBut 1 (kept_by self.old holding) result (kept_by self.new holding) }

        // As the machine: all that was taken is kept, and what a stop leaves is found.
        ensures runs { RunsAs (kept_by self.old holding) result (kept_by self.new holding) }

        // What a stop leaves is found even if the segment that was given up still has what it had,
        // and stands before the others: its file is emptied after this call.
        ensures before { IfOk result (λ _. MayBeStoppedBefore
            (take 1 (kept_by self.old holding).log.live) (kept_by self.new holding)) }
    {
        if self.log.live() < 2 {
            return Err(StoreFault::NothingOld);
        }
        self.make_ready()?;
        self.move_pages()
    }

    // What waits is flushed, and there is room for a cut for each page: a step that writes pages
    // again adds no more frames than that.
    pub(crate) fn make_ready(&mut self) -> Result<(), StoreFault>
        requires sound { IsSound self.old holding }
        ensures goes { GoesOn self.old self.new holding }
        ensures emptied { OnOk result
            (Emptied true (kept_by self.old holding) (kept_by self.new holding)) }
        ensures settled { OnOk result (IsSettled (kept_by self.new holding)) }
        ensures empty { OnOk result (self.new.pages.making.blocks ≡ []) }
        ensures works { OnOk result ((kept_by self.new holding).log.is_failed ≡ false) }
        ensures room { OnOk result (vec_len self.new.seals.cuts
            + length (kept_by self.new holding).log.pages ≤ vec_capacity self.new.seals.cuts) }
        ensures refused { IfErr result (λ fault. IsUnready (kept_by self.old holding) fault
            (kept_by self.new holding)) }
    {
        self.flush_making(Spares::All)?;
        let pages = self.log.pages() as usize;
        self.reserve_cuts(pages)?;
        Ok(())
    }

    // The cleaner, if nothing waits, and what is counted of it.
    fn move_pages(&mut self) -> Result<Cleaned, StoreFault>
        requires ready { MayMove self.old holding }
        requires two { 2 ≤ length (kept_by self.old holding).log.live }
        ensures sound { IsSound self.new holding }
        ensures leaves { MoveLeaves (kept_by self.old holding) result (kept_by self.new holding) }
        ensures counts { (noted_of self.new).tally ≡ counted_gone 1 (noted_of self.old).tally
            (kept_by self.old holding) (is_ok result) (kept_by self.new holding) }
        ensures gone { forgotten_of self.new ≡ forgotten_of self.old }
    {
        let durable = self.seals.durable;
        let before = live_bytes(&self.log);
        let oldest = bytes_upto(&self.log, 1);
        let moved = self.move_all();
        let after = live_bytes(&self.log);
        let frames = self.seals.durable.saturating_sub(durable);
        let tally = self.counts.tally;
        self.counts.tally = tally.with_moved(moved.is_ok(), frames, before, after, oldest, 1);
        moved
    }

    // The cleaner, and what the store notes of its frames.
    fn move_all(&mut self) -> Result<Cleaned, StoreFault>
        requires ready { MayMove self.old holding }
        requires two { 2 ≤ length (kept_by self.old holding).log.live }
        ensures quiet { IsQuiet self.old self.new holding }
        ensures leaves { MoveLeaves (kept_by self.old holding) result (kept_by self.new holding) }
    {
        let alloc = *self.seals.cuts.allocator();
        let first = self.log.next_frame();
        let result = clean(alloc, &mut self.log);
        self.note_moved(first);
        match result {
            Ok(cleaned) => {
                self.seals.floor = self.seals.durable;
                Ok(cleaned)
            }
            Err(fault) => Err(StoreFault::from(fault)),
        }
    }
}
