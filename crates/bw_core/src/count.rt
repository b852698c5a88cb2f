//! How many pairs there are.
//!
//! No number is kept beside the pages. A put may be a new key or an update, and only a look at its
//! page says which: a count that is kept would cost each record of an evicted page a read. So it is
//! asked for, and costs a look at each page.

ghost use Rattle.std.specs.Prelude.{◌≡◌, ◌≤◌, ◌-◌, false, length, slice_index_or, IfOk, IfErr};
ghost use Rattle.std.specs.FinMap as finite;
ghost use Rattle.bw_leaf.specs.Changed.{empty_leaf};
ghost use Rattle.bw_page.specs.Leaves.{plain};
ghost use Rattle.bw_history.specs.Entries.{records};

use crate::store::Core;
use bw_terms::StoreFault;

impl Core {
    ghost use Rattle.bw_core.specs.Looking.{LooksAt, OnlyReads, Walks};
    ghost use Rattle.bw_core.specs.Views.{kept_by, is_evicted, IsSound};

    // How many pairs a page has.
    fn pairs_on(&mut self, page: u32) -> Result<u64, StoreFault>
        requires sound { IsSound self.old holding }
        requires inside { (1 ≤ page) × (page ≤ length self.old.pages.leaves.leaves) }
        ensures value { IfOk result (λ count. count
            ≡ length (slice_index_or self.old.pages.leaves.leaves (page - 1) empty_leaf).pairs) }
        ensures looks { LooksAt page self.old result self.new holding }
        ensures memory { is_evicted page self.old ≡ false
            → IfErr result (λ fault. fault ≡ StoreFault.NoMemory) }
    {
        if let Some(leaf) = self.pages.leaves.page(page) {
            return Ok(leaf.pairs.as_slice().len() as u64);
        }
        let leaf = self.read_evicted(page)?;
        Ok(leaf.pairs.as_slice().len() as u64)
    }

    /// How many pairs there are, as all records of the history leave them, flushed or not, in
    /// memory or evicted. Pages that are evicted are read from the log, and stay evicted.
    ///
    /// It costs a look at each page. Refused as `get` is.
    pub fn count(&mut self) -> Result<u64, StoreFault>
        requires { IsSound self.old holding }
        ensures value { IfOk result (λ count. count
            ≡ finite.len (plain (kept_by self.old holding).start
            (records (kept_by self.old holding).entries))) }
        ensures reads { OnlyReads self.old self.new holding }
        ensures walks { Walks self.old result self.new holding }
    {
        let pages = self.pages.leaves.count();
        let mut pairs = 0;
        'pages: for before in 0..pages {
            pairs += self.pairs_on(before + 1)?;
        }
        Ok(pairs)
    }
}
