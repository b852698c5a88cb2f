//! A get that copies none of the bytes of a page in memory.

ghost use Rattle.std.specs.Prelude.{◌≡◌, false, true, is_some, IfOk, IfErr};
ghost use Rattle.std.specs.FinMap as finite;
ghost use Rattle.bw_log.specs.Reads.{HoldsPage};
ghost use Rattle.bw_page.specs.Leaves.{home, plain};
ghost use Rattle.bw_page.specs.Shown.{leaf_here};
ghost use Rattle.bw_walks.specs.Shared.{pair_at, with_key};
ghost use Rattle.bw_history.specs.Entries.{records};
ghost use Rattle.bw_core.specs.Reading.{leaves_now, ReadLeaves};

use crate::store::Core;
use bw_codec::{Key, Pair, Value};
use bw_terms::StoreFault;
use bw_walks::share_pair;
use std::alloc::{AllocError, Global};

impl Core {
    ghost use Rattle.bw_core.specs.Looking.{OnlyReads};
    ghost use Rattle.bw_core.specs.Views.{kept_by, is_evicted, IsSound};

    /// The pair of a key, with the value that `get` finds. If its page is in memory, the pair
    /// shares its bytes with the page: nothing is copied, and no memory is taken. It stays as it
    /// was found, whatever becomes of the page, and its bytes stay in memory as long as it does. If
    /// the page is evicted, it has bytes of its own.
    ///
    /// It costs what `get` does, without the copy; of an evicted page, memory for the pair and a
    /// copy more. Refused as `get` is; `NoMemory` also if the count of those that share the pair is
    /// full.
    pub fn get_shared(&mut self, key: &Key) -> Result<Option<Pair>, StoreFault>
        requires { IsSound self.old holding }
        ensures value { IfOk result (λ pair. pair ≡ with_key key.now
            (finite.get (plain (kept_by self.old holding).start
            (records (kept_by self.old holding).entries)) key.now)) }
        ensures reads { OnlyReads self.old self.new holding }
        ensures leaves { ReadLeaves (HoldsPage (kept_by self.old holding).log
            (home key.now (leaves_now (kept_by self.old holding))).page)
            (kept_by self.old holding) result (kept_by self.new holding) }
        ensures memory { is_evicted (home key.now (leaves_now (kept_by self.old holding))).page
            self.old ≡ false → IfErr result (λ fault. fault ≡ StoreFault.NoMemory) }
    {
        let page = self.pages.leaves.find(key);
        if self.pages.leaves.is_here(page) {
            self.note_asked(page);
            let pair = self.share_here(page, key)?;
            return Ok(pair);
        }
        let alloc = *self.pages.newest.allocator();
        let value = self.value_of_evicted(page, key)?;
        let pair = pair_of(alloc, key, value)?;
        Ok(pair)
    }

    // The pair of a key on its page, which is in memory.
    fn share_here(&self, page: u32, key: &Key) -> Result<Option<Pair>, AllocError>
        requires sound { IsSound self.now holding }
        requires page { page ≡ (home key.now self.now.pages.leaves.leaves).page }
        requires here { is_some (leaf_here page self.now.pages.leaves) ≡ true }
        ensures { IfOk result (λ pair. pair
            ≡ pair_at key.now (home key.now self.now.pages.leaves.leaves).pairs) }
    {
        match self.pages.leaves.page(page) {
            Some(leaf) => share_pair(leaf, key),
            None => unreachable!(),
        }
    }
}

// A pair of this key and value, if there is one, with bytes of its own.
fn pair_of(alloc: Global, key: &Key, value: Option<Value>) -> Result<Option<Pair>, AllocError>
    ensures { IfOk result (λ pair. pair ≡ with_key key.now value) }
{
    match value {
        Some(value) => {
            let pair = Pair::of(alloc, key, &value)?;
            Ok(Some(pair))
        }
        None => Ok(None),
    }
}
