//! Pages and values, as the history leaves them: the core's calls.

ghost use Rattle.std.specs.Prelude.{ℕ, ◌≡◌, ◌==◌, ◌↔◌, ◌⊎◌, ◌&&◌, not, true, false, None, Some, if◌then◌else◌, IfOk, IfErr, OnOk, IsErrOf, MatchResult};
ghost use Rattle.std.specs.FinMap as finite;
ghost use Rattle.bw_log.specs.Reads.{HoldsPage};
ghost use Rattle.bw_page.specs.Ahead.{IsFirst, IsStretch};
ghost use Rattle.bw_page.specs.Leaves.{leaf_at, home, plain};
ghost use Rattle.bw_history.specs.Entries.{records};
ghost use Rattle.bw_walks.specs.Back.{IsLast, IsLastBelow};
ghost use Rattle.bw_walks.specs.Shared.{with_key};
ghost use Rattle.bw_core.specs.Counting.{noted_left};
ghost use Rattle.bw_making.specs.Overlay.{is_made};
ghost use Rattle.bw_store.specs.Reading.{leaves_now, PageLeaves, ReadLeaves};

use crate::store::Store;
use bw_codec::{Key, Leaf, Pair, Value};
use bw_core::StoreFault;

impl Store {
    ghost use Rattle.bw_store.specs.Looking.{KeepsPages, OnlyReads, Walks};
    ghost use Rattle.bw_store.specs.Views.{kept_by, is_evicted, noted_of, IsSound};

    /// A copy of a page as all records of the history leave it, flushed or not, in memory or
    /// evicted. A page that is evicted is read from the log, and stays evicted.
    ///
    /// Refused `NoPage` if the number is 0 or above the number of pages, and `NoMemory`. If the
    /// page is evicted, it is also refused `Device` if the read failed: the next one may not. And
    /// it is refused `Spent` if one more failure of a segment that has to be read could not be
    /// counted.
    pub fn page(&mut self, page: u32) -> Result<Leaf, StoreFault>
        requires { IsSound self.old holding }
        ensures value { IfOk result (λ leaf.
            leaf_at page (leaves_now (kept_by self.old holding)) ≡ Some leaf) }
        ensures no_page { IsErrOf result StoreFault.NoPage
            ↔ (leaf_at page (leaves_now (kept_by self.old holding)) ≡ None) }
        ensures reads { OnlyReads self.old self.new holding }
        ensures leaves { PageLeaves (HoldsPage (kept_by self.old holding).log page)
            (kept_by self.old holding) result (kept_by self.new holding) }
        ensures memory { is_evicted page self.old ≡ false → IfErr result (λ fault.
            (fault ≡ StoreFault.NoPage) ⊎ (fault ≡ StoreFault.NoMemory)) }
    {
        self.core.page(page)
    }

    /// The value of a key as all records of the history leave it, flushed or not, in memory or
    /// evicted. It is refused as `page` is, but never `NoPage`, and its page stays where it is. If
    /// the page is evicted, it is read from its newest block back, up to the first that speaks of
    /// the key: a key that changed lately costs one frame.
    pub fn get(&mut self, key: &Key) -> Result<Option<Value>, StoreFault>
        requires { IsSound self.old holding }
        ensures value { IfOk result (λ value. value
            ≡ finite.get (plain (kept_by self.old holding).start
            (records (kept_by self.old holding).entries)) key.now) }
        ensures reads { OnlyReads self.old self.new holding }
        ensures leaves { ReadLeaves (HoldsPage (kept_by self.old holding).log
            (home key.now (leaves_now (kept_by self.old holding))).page)
            (kept_by self.old holding) result (kept_by self.new holding) }
        ensures memory { is_evicted (home key.now (leaves_now (kept_by self.old holding))).page
            self.old ≡ false → IfErr result (λ fault. fault ≡ StoreFault.NoMemory) }
    {
        self.core.get(key)
    }

    /// The pair of a key, with the value that `get` finds. If its page is in memory, the pair
    /// shares its bytes with the page: nothing is copied, and no memory is taken. It stays as it
    /// was found, whatever becomes of the page, and its bytes stay in memory as long as it does. If
    /// the page is evicted, it has bytes of its own.
    ///
    /// It costs what `get` does, without the copy; of an evicted page, memory for the pair and a
    /// copy more. Refused as `get` is; `NoMemory` also if the count of those that share the pair is
    /// full.
    pub fn get_shared(&mut self, key: &Key) -> Result<Option<Pair>, StoreFault>
        requires { IsSound self.old holding }
        ensures value { IfOk result (λ pair. pair ≡ with_key key.now
            (finite.get (plain (kept_by self.old holding).start
            (records (kept_by self.old holding).entries)) key.now)) }
        ensures reads { OnlyReads self.old self.new holding }
        ensures leaves { ReadLeaves (HoldsPage (kept_by self.old holding).log
            (home key.now (leaves_now (kept_by self.old holding))).page)
            (kept_by self.old holding) result (kept_by self.new holding) }
        ensures memory { is_evicted (home key.now (leaves_now (kept_by self.old holding))).page
            self.old ≡ false → IfErr result (λ fault. fault ≡ StoreFault.NoMemory) }
    {
        self.core.get_shared(key)
    }

    /// The pair with the least key at or above this one, as all records of the history leave it,
    /// flushed or not, in memory or evicted; `None` after the last pair. Pages that are evicted are
    /// read from the log, and stay evicted.
    ///
    /// It costs a search and a look at a page; and, if that page has no such pair, another search
    /// and look for each page after it that has none. Refused as `get` is.
    pub fn next_at(&mut self, key: &Key) -> Result<Option<(Key, Value)>, StoreFault>
        requires { IsSound self.old holding }
        ensures value { IfOk result (λ pair. IsFirst (plain (kept_by self.old holding).start
            (records (kept_by self.old holding).entries)) key.now pair) }
        ensures reads { OnlyReads self.old self.new holding }
        ensures walks { Walks self.old result self.new holding }
    {
        self.core.next_at(key)
    }

    /// The pair with the greatest key at or below this one, as all records of the history leave it,
    /// flushed or not, in memory or evicted; `None` before the first pair. Pages that are evicted
    /// are read from the log, and stay evicted.
    ///
    /// It costs a search and a look at a page; and, if that page has no such pair, two searches and
    /// a look for each page before it that has none. Refused as `get` is.
    pub fn prev_at(&mut self, key: &Key) -> Result<Option<(Key, Value)>, StoreFault>
        requires { IsSound self.old holding }
        ensures value { IfOk result (λ pair. IsLast (plain (kept_by self.old holding).start
            (records (kept_by self.old holding).entries)) key.now pair) }
        ensures reads { OnlyReads self.old self.new holding }
        ensures walks { Walks self.old result self.new holding }
    {
        self.core.prev_at(key)
    }

    /// The pair with the greatest key below this one, as all records of the history leave it;
    /// `None` before the first pair. A walk back goes on so after the pair that it came to. As
    /// `prev_at` otherwise.
    pub fn prev_below(&mut self, key: &Key) -> Result<Option<(Key, Value)>, StoreFault>
        requires { IsSound self.old holding }
        ensures value { IfOk result (λ pair. IsLastBelow (plain (kept_by self.old holding).start
            (records (kept_by self.old holding).entries)) key.now pair) }
        ensures reads { OnlyReads self.old self.new holding }
        ensures walks { Walks self.old result self.new holding }
    {
        self.core.prev_below(key)
    }

    /// Puts the pairs at or above a key into `found`, as all records of the history leave them, in
    /// the order of keys and no more than so many. What stood in `found` is dropped before. A walk
    /// goes on after the last of them. Pages that are evicted are read from the log, and stay
    /// evicted.
    ///
    /// It costs a search and a look for each page, and a copy of each pair. Refused as `get` is, or
    /// `NoMemory` if `found` does not grow; it then has some of the pairs.
    pub fn scan(
        &mut self,
        key: &Key,
        most: usize,
        found: &mut Vec<(Key, Value)>,
    ) -> Result<(), StoreFault>
        requires { IsSound self.old holding }
        ensures value { OnOk result (IsStretch (plain (kept_by self.old holding).start
            (records (kept_by self.old holding).entries)) key.now most found.new.items) }
        ensures reads { OnlyReads self.old self.new holding }
        ensures walks { Walks self.old result self.new holding }
    {
        self.core.scan(key, most, found)
    }

    /// Puts the pairs at or above a key into `found`, as `scan` does, but copies none of their
    /// bytes: a pair that was found shares them with its page. It stays as it was found, whatever
    /// becomes of the page, and they stay in memory as long as it does.
    ///
    /// It costs a search and a look for each page, and a look at each pair. Refused as `scan` is;
    /// `NoMemory` also if the count of those that share a pair is full.
    pub fn scan_shared(
        &mut self,
        key: &Key,
        most: usize,
        found: &mut Vec<Pair>,
    ) -> Result<(), StoreFault>
        requires { IsSound self.old holding }
        ensures value { OnOk result (IsStretch (plain (kept_by self.old holding).start
            (records (kept_by self.old holding).entries)) key.now most found.new.items) }
        ensures reads { OnlyReads self.old self.new holding }
        ensures walks { Walks self.old result self.new holding }
    {
        self.core.scan_shared(key, most, found)
    }

    /// How many pairs there are, as all records of the history leave them, flushed or not, in
    /// memory or evicted. Pages that are evicted are read from the log, and stay evicted.
    ///
    /// It costs a look at each page. Refused as `get` is.
    pub fn count(&mut self) -> Result<u64, StoreFault>
        requires { IsSound self.old holding }
        ensures value { IfOk result (λ count. count
            ≡ finite.len (plain (kept_by self.old holding).start
            (records (kept_by self.old holding).entries))) }
        ensures reads { OnlyReads self.old self.new holding }
        ensures walks { Walks self.old result self.new holding }
    {
        self.core.count()
    }

    /// Drops a page from memory; answers whether it left. The page stays: it is then read from the
    /// log, and the records that no frame has yet are kept. It does not leave if it is evicted, nor
    /// if the frame in the making makes it or cuts it.
    ///
    /// Refused `NoPage` if the number is 0 or above the number of pages. No memory is taken.
    pub fn evict(&mut self, page: u32) -> Result<bool, StoreFault>
        requires { IsSound self.old holding }
        ensures left { IfOk result (λ left. left
            ≡ (not (is_evicted page self.old)
            && not (is_made page (kept_by self.old holding).making.blocks))) }
        ensures evicted { IfOk result (λ left. (p : ℕ) → is_evicted p self.new
            ≡ (if left && (p == page) then true else is_evicted p self.old)) }

        ensures no_page { IsErrOf result StoreFault.NoPage
            ↔ (leaf_at page (leaves_now (kept_by self.old holding)) ≡ None) }
        ensures only { IfErr result (λ fault. fault ≡ StoreFault.NoPage) }
        ensures same { kept_by self.new holding ≡ kept_by self.old holding }
        ensures noted { MatchResult result
            (λ left. noted_of self.new ≡ noted_left left (noted_of self.old))
            (λ _. noted_of self.new ≡ noted_of self.old) }
    {
        self.core.evict(page)
    }

    /// Lets pages leave memory until those that stay take at most so many bytes, and answers how
    /// many they take then. What readers are shown stays in memory. As `Core::keep_pages`.
    pub fn keep_pages(&mut self, bytes: u64, long: &mut Vec<u32>) -> u64
        requires { IsSound self.old holding }
        ensures { KeepsPages self.old self.new holding }
    {
        self.core.keep_pages(bytes, long)
    }
}
