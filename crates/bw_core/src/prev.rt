//! A walk back over the pairs of all pages, in the falling order of their keys.
//!
//! It begins on the page of its key and goes from there to the page with the next lower low, which
//! `bw_walks` finds.

ghost use Rattle.std.specs.Prelude.{◌≡◌, ◌≤◌, false, length, IfOk, IfErr};
ghost use Rattle.std.specs.FinMap as finite;
ghost use Rattle.bw_page.specs.Leaves.{plain};
ghost use Rattle.bw_history.specs.Entries.{records};
ghost use Rattle.bw_walks.specs.Back.{IsGreatest, IsInReach, IsLast, IsLastBelow};

use crate::store::Core;
use bw_codec::{Key, Value};
use bw_terms::StoreFault;
use bw_walks::{Look, Reach, found_on, page_before};

impl Core {
    ghost use Rattle.bw_walks.specs.Back.{TellsOfPage};
    ghost use Rattle.bw_core.specs.Looking.{LooksAt, OnlyReads, Walks};
    ghost use Rattle.bw_core.specs.Views.{kept_by, is_evicted, IsSound};

    /// What a walk back finds on a page, in memory or evicted.
    fn look_back(&mut self, page: u32, key: &Key, reach: Reach) -> Result<Look, StoreFault>
        requires sound { IsSound self.old holding }
        requires inside { (1 ≤ page) × (page ≤ length self.old.pages.leaves.leaves) }
        ensures value { IfOk result (λ look.
            TellsOfPage reach key.now page self.old.pages.leaves.leaves look) }
        ensures looks { LooksAt page self.old result self.new holding }
        ensures memory { is_evicted page self.old ≡ false
            → IfErr result (λ fault. fault ≡ StoreFault.NoMemory) }
    {
        let _ = self.pages.leaves.count(); // For the proof.
        if let Some(leaf) = self.pages.leaves.page(page) {
            return Ok(found_on(leaf, key, reach));
        }
        let leaf = self.read_evicted(page)?;
        Ok(found_on(&leaf, key, reach))
    }

    /// The pair with the greatest key in reach, as all records of the history leave it.
    fn walk_back(&mut self, key: &Key, reach: Reach) -> Result<Option<(Key, Value)>, StoreFault>
        requires { IsSound self.old holding }
        ensures value { IfOk result (λ pair.
            IsGreatest (λ q. finite.get (plain (kept_by self.old holding).start
            (records (kept_by self.old holding).entries)) q) (IsInReach reach key.now) pair) }
        ensures reads { OnlyReads self.old self.new holding }
        ensures walks { Walks self.old result self.new holding }
    {
        let mut page = self.pages.leaves.find(key);
        'pages: loop {
            match self.look_back(page, key, reach)? {
                Look::Found(pair) => return Ok(Some(pair)),
                Look::Before(low) => page = page_before(&self.pages.leaves, &low),
                Look::End => return Ok(None),
            }
        }
    }

    /// The pair with the greatest key at or below this one, as all records of the history leave it,
    /// flushed or not, in memory or evicted; `None` before the first pair. Pages that are evicted
    /// are read from the log, and stay evicted.
    ///
    /// It costs a search and a look at a page; and, if that page has no such pair, two searches and
    /// a look for each page before it that has none. Refused as `get` is.
    pub fn prev_at(&mut self, key: &Key) -> Result<Option<(Key, Value)>, StoreFault>
        requires { IsSound self.old holding }
        ensures value { IfOk result (λ pair. IsLast (plain (kept_by self.old holding).start
            (records (kept_by self.old holding).entries)) key.now pair) }
        ensures reads { OnlyReads self.old self.new holding }
        ensures walks { Walks self.old result self.new holding }
    {
        self.walk_back(key, Reach::With)
    }

    /// The pair with the greatest key below this one, as all records of the history leave it;
    /// `None` before the first pair. A walk back goes on so after the pair that it came to. As
    /// `prev_at` otherwise.
    pub fn prev_below(&mut self, key: &Key) -> Result<Option<(Key, Value)>, StoreFault>
        requires { IsSound self.old holding }
        ensures value { IfOk result (λ pair. IsLastBelow (plain (kept_by self.old holding).start
            (records (kept_by self.old holding).entries)) key.now pair) }
        ensures reads { OnlyReads self.old self.new holding }
        ensures walks { Walks self.old result self.new holding }
    {
        self.walk_back(key, Reach::Without)
    }
}
