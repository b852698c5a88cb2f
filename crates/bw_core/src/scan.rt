//! A walk over the pairs of all pages in the order of their keys.
//!
//! Pages are numbered as they were made, and their lows are in no order. So a walk goes from a
//! key's page to the page with the next low, which a search among the lows finds. Pages without pairs
//! that it passes by are noted as a gap, and the next walk does not look at them again.

ghost use Rattle.std.specs.Prelude.{◌≡◌, false, IfOk, IfErr, OnOk, IsTrue};
ghost use Rattle.bw_leaf.specs.Above.{pair_above, pairs_above, with_some};
ghost use Rattle.bw_page.specs.Ahead.{HasCome, IsFirst, IsStretch};
ghost use Rattle.bw_page.specs.Leaves.{home, plain, union};
ghost use Rattle.bw_history.specs.Entries.{records};

use crate::store::Core;
use bw_codec::{Key, Value};
use bw_page::{add_pairs, pair_from};
use bw_terms::StoreFault;

impl Core {
    ghost use Rattle.bw_core.specs.Looking.{LooksAt, OnlyReads, Walks};
    ghost use Rattle.bw_core.specs.Views.{kept_by, noted_of, is_evicted, IsSound};

    /// The first pair at or above a key of the page on which a record of the key would stand.
    fn pair_from(&mut self, key: &Key) -> Result<Option<(Key, Value)>, StoreFault>
        requires { IsSound self.old holding }
        ensures value { IfOk result (λ pair. pair
            ≡ pair_above key.now (home key.now self.old.pages.leaves.leaves).pairs) }
        ensures looks { LooksAt (home key.now self.old.pages.leaves.leaves).page
            self.old result self.new holding }
        ensures memory { is_evicted (home key.now self.old.pages.leaves.leaves).page
            self.old ≡ false → IfErr result (λ fault. fault ≡ StoreFault.NoMemory) }
    {
        let page = self.pages.leaves.find(key);
        if let Some(leaf) = self.pages.leaves.page(page) {
            return Ok(pair_from(leaf, key));
        }
        let leaf = self.read_evicted(page)?;
        Ok(pair_from(&leaf, key))
    }

    /// Notes that no key at or above the one, and below the other, has a value, if this is so:
    /// later walks pass by the pages between.
    pub(crate) fn note_gap(&mut self, is_gap: bool, from: &Key, to: &Key)
        requires sound { IsSound self.old holding }
        requires come { IsTrue is_gap
            → HasCome (union self.old.pages.leaves.leaves) from.now to.now }
        ensures sound { IsSound self.new holding }
        ensures same { kept_by self.new holding ≡ kept_by self.old holding }
        ensures pages { self.new.pages.leaves ≡ self.old.pages.leaves }
        ensures noted { noted_of self.new ≡ noted_of self.old }
    {
        if is_gap {
            self.pages.leaves.note_gap(from, to);
        }
    }

    /// The pair with the least key at or above this one, as all records of the history leave it,
    /// flushed or not, in memory or evicted; `None` after the last pair. Pages that are evicted are
    /// read from the log, and stay evicted.
    ///
    /// It costs a search and a look at a page; and, if that page has no such pair, another search
    /// and look for each page after it that has none. Such pages are passed by at once by the next
    /// walk that begins below them, if no record has come there since; of walks in several places
    /// one has this. Refused as `get` is.
    pub fn next_at(&mut self, key: &Key) -> Result<Option<(Key, Value)>, StoreFault>
        requires { IsSound self.old holding }
        ensures value { IfOk result (λ pair. IsFirst (plain (kept_by self.old holding).start
            (records (kept_by self.old holding).entries)) key.now pair) }
        ensures reads { OnlyReads self.old self.new holding }
        ensures walks { Walks self.old result self.new holding }
    {
        let mut from = self.pages.leaves.past_gap(key);
        'pages: loop {
            let found = self.pair_from(&from)?;
            if found.is_some() {
                return Ok(found);
            }
            match self.pages.leaves.low_above(&from) {
                Some(low) => {
                    self.note_gap(true, &from, &low);
                    from = low;
                }
                None => return Ok(None),
            }
        }
    }

    /// Adds the pairs at or above a key of the page on which a record of the key would stand, until
    /// there are so many.
    fn add_pairs(
        &mut self,
        key: &Key,
        most: usize,
        found: &mut Vec<(Key, Value)>,
    ) -> Result<(), StoreFault>
        requires { IsSound self.old holding }
        ensures value { OnOk result (found.new.items ≡ with_some most found.old.items
            (pairs_above key.now (home key.now self.old.pages.leaves.leaves).pairs)) }
        ensures looks { LooksAt (home key.now self.old.pages.leaves.leaves).page
            self.old result self.new holding }
        ensures memory { is_evicted (home key.now self.old.pages.leaves.leaves).page
            self.old ≡ false → IfErr result (λ fault. fault ≡ StoreFault.NoMemory) }
    {
        let page = self.pages.leaves.find(key);
        if let Some(leaf) = self.pages.leaves.page(page) {
            add_pairs(leaf, key, most, found)?;
            return Ok(());
        }
        let leaf = self.read_evicted(page)?;
        add_pairs(&leaf, key, most, found)?;
        Ok(())
    }

    /// Puts the pairs at or above a key into `found`, as all records of the history leave them, in
    /// the order of keys and no more than so many. What stood in `found` is dropped before. A walk
    /// goes on after the last of them. Pages that are evicted are read from the log, and stay
    /// evicted.
    ///
    /// It costs a search and a look for each page, and a copy of each pair. Refused as `get` is, or
    /// `NoMemory` if `found` does not grow; it then has some of the pairs.
    pub fn scan(
        &mut self,
        key: &Key,
        most: usize,
        found: &mut Vec<(Key, Value)>,
    ) -> Result<(), StoreFault>
        requires { IsSound self.old holding }
        ensures value { OnOk result (IsStretch (plain (kept_by self.old holding).start
            (records (kept_by self.old holding).entries)) key.now most found.new.items) }
        ensures reads { OnlyReads self.old self.new holding }
        ensures walks { Walks self.old result self.new holding }
    {
        found.clear();
        let mut from = self.pages.leaves.past_gap(key);
        'pages: while found.len() < most {
            self.add_pairs(&from, most, found)?;
            match self.pages.leaves.low_above(&from) {
                Some(low) => {
                    self.note_gap(found.as_slice().is_empty(), &from, &low);
                    from = low;
                }
                None => return Ok(()),
            }
        }
        Ok(())
    }
}
