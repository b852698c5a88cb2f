//! A walk over the pairs of all pages in the order of their keys.

ghost use Rattle.std.specs.Prelude.{◌≡◌, [], OnOk};
ghost use Rattle.bw_page.specs.Ahead.{IsFirst, IsStretch};
ghost use Rattle.bw_page.specs.Leaves.{union};

use super::Leaves;
use bw_codec::{Key, Value};
use bw_leaf::{add_pairs, pair_from};
use std::alloc::AllocError;

impl Leaves {
    /// The pair with the least key at or above this one, if there is one; no page is evicted.
    ///
    /// It costs a search and a look at a page; and, if that page has no such pair, another search
    /// and look for each page after it that has none.
    pub fn next_at(&self, key: &Key) -> Option<(Key, Value)>
        requires { self.now.evicted ≡ [] }
        ensures { IsFirst (union self.now.leaves) key.now result }
    {
        let _ = self.count(); // For the proof.
        let mut from = key.copy();
        'pages: loop {
            let found = pair_from(self.home_of(&from), &from);
            if found.is_some() {
                return found;
            }
            match self.low_above(&from) {
                Some(low) => from = low,
                None => return None,
            }
        }
    }

    /// Puts the pairs at or above a key into `found`, in order and no more than so many; no page is
    /// evicted. What stood in `found` is dropped before.
    ///
    /// It costs a search and a look for each page, and a copy of each pair. A refused growth is the
    /// only error; `found` then has some of the pairs.
    pub fn scan(
        &self,
        key: &Key,
        most: usize,
        found: &mut Vec<(Key, Value)>,
    ) -> Result<(), AllocError>
        requires { self.now.evicted ≡ [] }
        ensures { OnOk result (IsStretch (union self.now.leaves) key.now most found.new.items) }
    {
        let _ = self.count(); // For the proof.
        found.clear();
        let mut from = key.copy();
        'pages: while found.len() < most {
            add_pairs(self.home_of(&from), &from, most, found)?;
            match self.low_above(&from) {
                Some(low) => from = low,
                None => return Ok(()),
            }
        }
        Ok(())
    }
}
