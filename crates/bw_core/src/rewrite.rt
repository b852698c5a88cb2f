//! Pages that many frames touched are written again, so that reading them is short.
//!
//! Whoever evicts a page pays for each frame that touched it since it was last written whole, when
//! it comes back. A store that flushes often and evicts the pages that it changes would read more
//! and more. Nothing is given up here: what was written before goes with its segment.

ghost use Rattle.std.specs.Prelude.{◌≡◌, ◌≤◌, ◌+◌, ◌↔◌, [], false, length, vec_len, IsErrOf};
ghost use Rattle.std.specs.List.{AllByRecursion};
ghost use Rattle.std.specs.Vec.{vec_capacity};
ghost use Rattle.bw_log.specs.Reads.{IsPage};
ghost use Rattle.bw_core.specs.Machine.{RunsAs};
ghost use Rattle.bw_core.specs.Rewriting.{are_pages, RewriteLeaves, RewriteMoves};
ghost use Rattle.bw_core.specs.Settled.{IsSettled};

use crate::flush::Spares;
use crate::store::Core;
use bw_care::rewrite;
use bw_terms::StoreFault;

impl Core {
    ghost use Rattle.bw_core.specs.Going.{GoesOn, IsQuiet};
    ghost use Rattle.bw_core.specs.Views.{kept_by, IsSound};

    /// Writes each of these pages again, whole, and answers in how many frames: what waits is
    /// flushed, then a Base of each page is appended, in this order, as many to a frame as fit. No
    /// page changes, and no segment is given up.
    ///
    /// A page that is evicted is read back from all frames that touched it since it was last
    /// written whole; after this call it is read from one. So whoever evicts pages that many
    /// flushes changed calls it first. A page that is named twice is written twice.
    ///
    /// Refused `NoPage`, exactly if one of the numbers is no page's, before anything else. Then it
    /// is refused as `flush` is, but `NoSegment` only if no spare stands at all. Then it is refused
    /// `NoMemory`, and then as `bw_care::rewrite` is. A refused step leaves the steps before it
    /// done: frames that were appended stay and are durable, each with a cut at the end of the
    /// history. After a refusal other than `Failed` and a failed append it may be called again.
    ///
    /// It costs what a flush and reading these pages cost, the bytes of the new frames, and a look
    /// at each page's line in memory.
    pub fn rewrite(&mut self, pages: &[u32]) -> Result<u64, StoreFault>
        requires sound { IsSound self.old holding }
        ensures goes { GoesOn self.old self.new holding }
        ensures leaves { RewriteLeaves (kept_by self.old holding) pages.now result
            (kept_by self.new holding) }

        ensures no_page { IsErrOf result StoreFault.NoPage
            ↔ (are_pages (length (kept_by self.old holding).filed.leaves) pages.now ≡ false) }

        // As the machine: all that was taken is kept, and what a stop leaves is found.
        ensures runs { RunsAs (kept_by self.old holding) result (kept_by self.new holding) }
    {
        if !are_pages(self.pages.leaves.count(), pages) {
            return Err(StoreFault::NoPage);
        }
        self.flush_making(Spares::All)?;
        self.reserve_cuts(pages.len())?;
        self.rewrite_pages(pages)
    }

    // Rewrites the pages, if nothing waits, and what the store notes of their frames.
    fn rewrite_pages(&mut self, pages: &[u32]) -> Result<u64, StoreFault>
        requires sound { IsSound self.old holding }
        requires settled { IsSettled (kept_by self.old holding) }
        requires empty { self.old.pages.making.blocks ≡ [] }
        requires works { (kept_by self.old holding).log.is_failed ≡ false }
        requires pages { AllByRecursion (IsPage (kept_by self.old holding).log) pages.now }
        requires room { vec_len self.old.seals.cuts + length pages.now
            ≤ vec_capacity self.old.seals.cuts }
        ensures quiet { IsQuiet self.old self.new holding }
        ensures leaves { RewriteMoves (kept_by self.old holding) pages.now result
            (kept_by self.new holding) }
    {
        let alloc = *self.seals.cuts.allocator();
        let first = self.log.next_frame();
        let result = rewrite(alloc, &mut self.log, pages);
        self.note_moved(first);
        match result {
            Ok(frames) => Ok(frames),
            Err(fault) => Err(StoreFault::from(fault)),
        }
    }
}

// Whether each of these numbers is one of so many pages.
fn are_pages(count: u32, pages: &[u32]) -> bool
    ensures { result ≡ are_pages count pages.now }
{
    pages.iter().all(|page| 1 <= *page && *page <= count)
}
