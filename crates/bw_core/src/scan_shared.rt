//! A walk over the pairs of all pages, in the order of their keys, that copies none of their bytes.
//!
//! Each pair is found as a handle to the run of bytes that its page has of it (`bw_walks`).

ghost use Rattle.std.specs.Prelude.{◌≡◌, false, IfErr, OnOk};
ghost use Rattle.bw_leaf.specs.Above.{pairs_above, with_some};
ghost use Rattle.bw_page.specs.Ahead.{IsStretch};
ghost use Rattle.bw_page.specs.Leaves.{home, plain};
ghost use Rattle.bw_history.specs.Entries.{records};

use crate::store::Core;
use bw_codec::{Key, Pair};
use bw_terms::StoreFault;
use bw_walks::share_pairs;

impl Core {
    ghost use Rattle.bw_core.specs.Looking.{LooksAt, OnlyReads, Walks};
    ghost use Rattle.bw_core.specs.Views.{kept_by, is_evicted, IsSound};

    /// Adds the pairs at or above a key of the page on which a record of the key would stand, until
    /// there are so many.
    fn share_page(
        &mut self,
        key: &Key,
        most: usize,
        found: &mut Vec<Pair>,
    ) -> Result<(), StoreFault>
        requires { IsSound self.old holding }
        ensures value { OnOk result (found.new.items ≡ with_some most found.old.items
            (pairs_above key.now (home key.now self.old.pages.leaves.leaves).pairs)) }
        ensures looks { LooksAt (home key.now self.old.pages.leaves.leaves).page
            self.old result self.new holding }
        ensures memory { is_evicted (home key.now self.old.pages.leaves.leaves).page
            self.old ≡ false → IfErr result (λ fault. fault ≡ StoreFault.NoMemory) }
    {
        let page = self.pages.leaves.find(key);
        if let Some(leaf) = self.pages.leaves.page(page) {
            share_pairs(leaf, key, most, found)?;
            return Ok(());
        }
        let leaf = self.read_evicted(page)?;
        share_pairs(&leaf, key, most, found)?;
        Ok(())
    }

    /// Puts the pairs at or above a key into `found`, as `scan` does, but copies none of their
    /// bytes: a pair that was found shares them with its page. It stays as it was found, whatever
    /// becomes of the page, and they stay in memory as long as it does.
    ///
    /// It costs a search and a look for each page, and a look at each pair. Refused as `scan` is;
    /// `NoMemory` also if the count of those that share a pair is full.
    pub fn scan_shared(
        &mut self,
        key: &Key,
        most: usize,
        found: &mut Vec<Pair>,
    ) -> Result<(), StoreFault>
        requires { IsSound self.old holding }
        ensures value { OnOk result (IsStretch (plain (kept_by self.old holding).start
            (records (kept_by self.old holding).entries)) key.now most found.new.items) }
        ensures reads { OnlyReads self.old self.new holding }
        ensures walks { Walks self.old result self.new holding }
    {
        found.clear();
        let mut from = self.pages.leaves.past_gap(key);
        'pages: while found.len() < most {
            self.share_page(&from, most, found)?;
            match self.pages.leaves.low_above(&from) {
                Some(low) => {
                    self.note_gap(found.as_slice().is_empty(), &from, &low);
                    from = low;
                }
                None => return Ok(()),
            }
        }
        Ok(())
    }
}
