//! Pages leave memory, and what it takes to bring them back.
//!
//! A page may leave while the frame in the making has records of it: they stand in that frame, and
//! whoever reads the page adds them. But a page that this frame makes or splits stands nowhere in
//! the log, or with a range that it no longer has. It stays until the frame is appended.
//!
//! A record of an evicted page brings it back first. Its turn is refused as a read is, and nothing
//! was taken then.

ghost use Rattle.std.specs.Prelude.{ℕ, ◌≡◌, ◌≤◌, ◌==◌, ◌↔◌, ◌&&◌, not, true, false, None, Some, length, if◌then◌else◌, List, IfOk, IfErr, IsErrOf, MatchOption, MatchResult, OnErr, OnOk};
ghost use Rattle.std.specs.List.{list_any};
ghost use Rattle.bw_record.specs.Touch.{touches};
ghost use Rattle.bw_page.specs.Leaves.{home, leaf_at};
ghost use Rattle.bw_page.specs.Shown.{IsHere};
ghost use Rattle.bw_log.specs.Contents.{counted};
ghost use Rattle.bw_log.specs.Reads.{HoldsPage};
ghost use Rattle.bw_log.specs.Places.{walk_of};
ghost use Rattle.bw_core.specs.Counting.{noted_left};
ghost use Rattle.bw_core.specs.Reading.{leaves_now, HasRead, ReadLeaves};
ghost use Rattle.bw_making.specs.Overlay.{is_made};

use crate::store::Core;
use bw_codec::Key;
use bw_making::makes;
use bw_terms::StoreFault;

impl Core {
    ghost use Rattle.bw_core.specs.Going.{KeepsIntake};
    ghost use Rattle.bw_core.specs.Views.{away_in, kept_by, is_evicted, noted_of, IsSound};

    /// From how many frames a page would be read, if it were evicted: those that were appended and
    /// have a block of it, from the last that says all of it on. It is 0 if no frame has the page
    /// yet, and `None` if there is no such page, evicted or not. `rewrite` makes it 1.
    ///
    /// No memory is taken, and it costs the same for each page. Whoever evicts pages asks this
    /// first, and writes a page again whose walk is long, so that bringing it back stays cheap.
    pub fn walk_of(&self, page: u32) -> Option<u64>
        requires { IsSound self.now holding }
        ensures { MatchOption (leaf_at page (leaves_now (kept_by self.now holding)))
            (result ≡ None)
            (λ _. result ≡ Some (walk_of page (counted (kept_by self.now holding).log))) }
    {
        if page == 0 || page > self.pages.leaves.count() {
            return None;
        }
        Some(self.log.walk_of(page))
    }

    /// Drops a page from memory; answers whether it left. The page stays: it is then read from the
    /// log, and the records that no frame has yet are kept. It does not leave if it is evicted, nor
    /// if the frame in the making makes it or cuts it.
    ///
    /// Refused `NoPage` if the number is 0 or above the number of pages. No memory is taken. It
    /// costs a look at each block of the frame in the making, if that has one of the page.
    pub fn evict(&mut self, page: u32) -> Result<bool, StoreFault>
        requires { IsSound self.old holding }
        ensures left { IfOk result (λ left. left
            ≡ (not (is_evicted page self.old)
            && not (is_made page (kept_by self.old holding).making.blocks))) }
        ensures evicted { IfOk result (λ left. (p : ℕ) → is_evicted p self.new
            ≡ (if left && (p == page) then true else is_evicted p self.old)) }

        ensures no_page { IsErrOf result StoreFault.NoPage
            ↔ (leaf_at page (leaves_now (kept_by self.old holding)) ≡ None) }
        ensures only { IfErr result (λ fault. fault ≡ StoreFault.NoPage) }
        ensures same { kept_by self.new holding ≡ kept_by self.old holding }
        ensures noted { MatchResult result
            (λ left. noted_of self.new ≡ noted_left left (noted_of self.old))
            (λ _. noted_of self.new ≡ noted_of self.old) }
    {
        if page == 0 || page > self.pages.leaves.count() {
            return Err(StoreFault::NoPage);
        }
        if !self.pages.leaves.is_here(page) {
            return Ok(false);
        }
        if self.is_made(page) {
            return Ok(false);
        }
        self.pages.leaves.evict_page(page);
        self.counts.tally = self.counts.tally.with_eviction();
        Ok(true)
    }

    /// Whether the frame in the making makes a page or cuts it.
    pub(crate) fn is_made(&self, page: u32) -> bool
        requires sound { IsSound self.now holding }
        requires inside { (1 ≤ page) × (page ≤ length self.now.pages.leaves.leaves) }
        ensures { result ≡ is_made page self.now.pages.making.blocks }
    {
        self.is_making(page) && makes(&self.pages.making, page)
    }

    /// Whether the newest block of a page stands in the frame in the making. If it does not, that
    /// frame has no block of the page, and need not be looked through.
    pub(crate) fn is_making(&self, page: u32) -> bool
        requires sound { IsSound self.now holding }
        requires inside { (1 ≤ page) × (page ≤ length self.now.pages.leaves.leaves) }
        ensures { result ≡ false → list_any (touches page) self.now.pages.making.blocks ≡ false }
    {
        let _ = self.pages.newest.as_slice().len(); // For the proof.
        self.pages.newest[page as usize - 1].frame == self.pages.making.frame()
    }

    /// Brings back the page that a record of this key changes, if it is evicted, and says which it
    /// is.
    pub(crate) fn fetch(&mut self, key: &Key) -> Result<u32, StoreFault>
        requires sound { IsSound self.old holding }
        ensures page { IfOk result (λ page.
            page ≡ (home key.now self.new.pages.leaves.leaves).page) }
        ensures here { OnOk result (IsHere key.now self.new.pages.leaves) }
        ensures others { OnOk result ((other : List ℕ) → IsHere other self.old.pages.leaves
            → IsHere other self.new.pages.leaves) }
        ensures keeps { KeepsIntake self.old self.new holding }
        ensures read { HasRead (kept_by self.old holding) (kept_by self.new holding) }
        ensures leaves { ReadLeaves (HoldsPage (kept_by self.old holding).log
            (home key.now (kept_by self.old holding).filed.leaves).page)
            (kept_by self.old holding) result (kept_by self.new holding) }
        ensures away { OnErr result (away_in self.new
            (home key.now (kept_by self.old holding).filed.leaves).page ≡ true) }
    {
        let page = self.pages.leaves.find(key);
        if self.pages.leaves.is_here(page) {
            return Ok(page);
        }
        let leaf = self.read_evicted(page)?;
        self.pages.leaves.bring_back(page, leaf);
        Ok(page)
    }
}
