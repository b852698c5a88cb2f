//! Pages and values, as the history leaves them, in memory or read from the log.
//!
//! A page in memory has all records, also those that no frame has yet. A page that was evicted is
//! what the log has of it with what the frame in the making adds: read without that, a value that
//! was put and not yet flushed would be gone until the next flush. A value is looked for from the
//! newest block back, so a key that changed lately costs one frame, and not the whole page.
//!
//! A read changes one thing in the store, the count of a segment's failures. The page stays where
//! it is, so a walk over more pages than memory has room for drives none out.

ghost use Rattle.std.specs.Prelude.{◌≡◌, ◌≤◌, ◌↔◌, ◌⊎◌, true, false, Some, None, length, IfOk, IfErr, IsErrOf};
ghost use Rattle.std.specs.FinMap as finite;
ghost use Rattle.bw_log.specs.Reads.{HoldsPage};
ghost use Rattle.bw_page.specs.Leaves.{leaf_at, home, plain};
ghost use Rattle.bw_page.specs.Shown.{is_evicted_page};
ghost use Rattle.bw_leaf.specs.Words.{records_word, value_on};
ghost use Rattle.bw_history.specs.Entries.{records};
ghost use Rattle.bw_core.specs.Reading.{leaves_now, ReadLeaves, PageLeaves};
ghost use Rattle.bw_making.specs.Share.{ops_at};

use crate::store::Core;
use bw_codec::{Key, Leaf, Packed, Value};
use bw_making::overlay_of;
use bw_page::{Word, change_all, word_in_records};
use bw_terms::StoreFault;
use std::alloc::AllocError;

impl Core {
    ghost use Rattle.bw_core.specs.Looking.{LooksAt, OnlyReads};
    ghost use Rattle.bw_core.specs.Views.{kept_by, is_evicted, IsSound};

    /// A copy of a page as all records of the history leave it, flushed or not, in memory or
    /// evicted. A page that is evicted is read from the log, and stays evicted.
    ///
    /// Refused `NoPage` if the number is 0 or above the number of pages, and `NoMemory`. If the
    /// page is evicted, it is also refused `Device` if the read failed: the next one may not. And
    /// it is refused `Spent` if one more failure of a segment that has to be read could not be
    /// counted.
    pub fn page(&mut self, page: u32) -> Result<Leaf, StoreFault>
        requires { IsSound self.old holding }
        ensures value { IfOk result (λ leaf.
            leaf_at page (leaves_now (kept_by self.old holding)) ≡ Some leaf) }
        ensures no_page { IsErrOf result StoreFault.NoPage
            ↔ (leaf_at page (leaves_now (kept_by self.old holding)) ≡ None) }
        ensures reads { OnlyReads self.old self.new holding }
        ensures leaves { PageLeaves (HoldsPage (kept_by self.old holding).log page)
            (kept_by self.old holding) result (kept_by self.new holding) }
        ensures memory { is_evicted page self.old ≡ false → IfErr result (λ fault.
            (fault ≡ StoreFault.NoPage) ⊎ (fault ≡ StoreFault.NoMemory)) }
    {
        if page == 0 || page > self.pages.leaves.count() {
            return Err(StoreFault::NoPage);
        }
        if let Some(leaf) = self.pages.leaves.page(page) {
            return Ok(leaf.copy()?);
        }
        self.read_evicted(page)
    }

    /// The value of a key as all records of the history leave it, flushed or not, in memory or
    /// evicted. It is refused as `page` is, but never `NoPage`, and its page stays where it is. If
    /// the page is evicted, it is read from its newest block back, up to the first that speaks of
    /// the key: a key that changed lately costs one frame.
    pub fn get(&mut self, key: &Key) -> Result<Option<Value>, StoreFault>
        requires { IsSound self.old holding }
        ensures value { IfOk result (λ value. value
            ≡ finite.get (plain (kept_by self.old holding).start
            (records (kept_by self.old holding).entries)) key.now) }
        ensures reads { OnlyReads self.old self.new holding }
        ensures leaves { ReadLeaves (HoldsPage (kept_by self.old holding).log
            (home key.now (leaves_now (kept_by self.old holding))).page)
            (kept_by self.old holding) result (kept_by self.new holding) }
        ensures memory { is_evicted (home key.now (leaves_now (kept_by self.old holding))).page
            self.old ≡ false → IfErr result (λ fault. fault ≡ StoreFault.NoMemory) }
    {
        let page = self.pages.leaves.find(key);
        if self.pages.leaves.is_here(page) {
            self.note_asked(page);
            return Ok(self.pages.leaves.get(key));
        }
        self.value_of_evicted(page, key)
    }

    /// A page that is evicted: what the log has of it, and the records that the frame in the making
    /// has of it. It stays evicted.
    pub(crate) fn read_evicted(&mut self, page: u32) -> Result<Leaf, StoreFault>
        requires sound { IsSound self.old holding }
        requires inside { (1 ≤ page) × (page ≤ length self.old.pages.leaves.leaves) }
        requires evicted { is_evicted_page page self.old.pages.leaves ≡ true }
        ensures leaf { IfOk result (λ leaf. leaf_at page self.old.pages.leaves.leaves ≡ Some leaf) }
        ensures looks { LooksAt page self.old result self.new holding }
        ensures intake { self.new.intake ≡ self.old.intake }
    {
        let overlay = self.overlay(page)?;
        let below = match self.log.read_page(page) {
            Ok(below) => below,
            Err(fault) => return Err(StoreFault::from(fault)),
        };
        self.counts.looks.read_one();
        Ok(change_all(below, overlay.as_slice())?)
    }

    /// The value of a key on a page that is evicted: what the newest record of the frame in the
    /// making says, or what the log has of it. The page stays evicted.
    pub(crate) fn value_of_evicted(
        &mut self,
        page: u32,
        key: &Key,
    ) -> Result<Option<Value>, StoreFault>
        requires sound { IsSound self.old holding }
        requires inside { (1 ≤ page) × (page ≤ length self.old.pages.leaves.leaves) }
        requires evicted { is_evicted_page page self.old.pages.leaves ≡ true }
        ensures value { IfOk result (λ value. value
            ≡ value_on key.now (leaf_at page self.old.pages.leaves.leaves)) }
        ensures looks { LooksAt page self.old result self.new holding }
    {
        let word = self.word(page, key)?;
        match word {
            Word::Silent => {}
            Word::Gone => return Ok(None),
            Word::Holds(value) => return Ok(Some(value)),
        }
        match self.log.read_value(page, key) {
            Ok(value) => {
                self.counts.looks.read_one();
                Ok(value)
            }
            Err(fault) => Err(StoreFault::from(fault)),
        }
    }

    // What the newest record that the frame in the making has of a page says of a key.
    fn word(&self, page: u32, key: &Key) -> Result<Word, AllocError>
        requires sound { IsSound self.now holding }
        requires inside { (1 ≤ page) × (page ≤ length self.now.pages.leaves.leaves) }
        ensures { IfOk result (λ word. word
            ≡ records_word key.now (ops_at page self.now.pages.making.blocks)) }
    {
        let overlay = self.overlay(page)?;
        Ok(word_in_records(overlay.as_slice(), key))
    }

    // The records that the frame in the making has of a page, in order. If the frame has no block
    // of the page, it is not looked through, and no memory is taken.
    fn overlay(&self, page: u32) -> Result<Vec<Packed>, AllocError>
        requires sound { IsSound self.now holding }
        requires inside { (1 ≤ page) × (page ≤ length self.now.pages.leaves.leaves) }
        ensures { IfOk result (λ records.
            records.items ≡ ops_at page self.now.pages.making.blocks) }
    {
        let alloc = *self.pages.newest.allocator();
        if !self.is_making(page) {
            return Ok(Vec::new(alloc));
        }
        overlay_of(alloc, &self.pages.making, page)
    }
}
