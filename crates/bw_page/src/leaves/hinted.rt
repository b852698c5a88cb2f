//! Records whose page is guessed: a look at it may show that it is the right one, and a search
//! among the pages follows only if it does not.

ghost use Rattle.std.specs.Prelude.{◌≡◌, Err, IfOk, IfSome, OnOk, OnErr, IsTrue};
ghost use Rattle.bw_record.specs.Record.{key_of};
ghost use Rattle.bw_leaf.specs.Changed.{changed_map};
ghost use Rattle.bw_page.specs.Leaves.{union};
ghost use Rattle.bw_page.specs.Shown.{IsSpent, after_record, IsHere, applied_by};
ghost use Rattle.bw_page.specs.Aim.{IsAim};
ghost use Rattle.bw_leaf.specs.Seek.{IsBetween};

use super::{Applied, Leaves};
use crate::fault::ApplyError;
use bw_codec::Packed;
use bw_leaf::{count_packed, find_key};

impl Leaves {
    /// Does what `apply` does, given a page at which the record may be directed: it costs no search
    /// among the pages if one of the page's pairs has the record's key, or the key lies between two
    /// of them. Any number may be given, also that of no page.
    pub fn apply_hinted(&mut self, page: u32, change: &Packed) -> Result<Applied, ApplyError>
        requires { IsHere (key_of change.now) self.old }
        ensures ok { OnOk result (self.new ≡ after_record self.old change.now) }
        ensures plain { OnOk result (union self.new.leaves
            ≡ changed_map (union self.old.leaves) change.now) }

        ensures applied { IfOk result (λ a. a ≡ applied_by self.old change.now) }
        ensures evicted { self.new.evicted ≡ self.old.evicted }

        // The page number is looked for before memory is.
        ensures spent { IsSpent self.old change.now → result ≡ Err ApplyError.Spent }
        ensures only_spent { result ≡ Err ApplyError.Spent → IsSpent self.old change.now }
        ensures unchanged { OnErr result (self.new ≡ self.old) }
    {
        let (at, count, found) = self.aim_by(page, change);
        self.apply_at(at, count, found, change)
    }

    /// What `aim` says, given a page at which the record may be directed.
    pub(super) fn aim_by(&self, page: u32, change: &Packed) -> (usize, usize, Result<usize, usize>)
        requires { IsHere (key_of change.now) self.now }
        ensures { IsAim self.now change.now result.0 result.1 result.2 }
    {
        match self.aim_at(page, change) {
            Some(aim) => aim,
            None => self.aim(self.find_packed(change), change),
        }
    }

    /// What `aim` says for this page, if the pairs of this page show that the record is directed at
    /// it.
    fn aim_at(&self, page: u32, change: &Packed) -> Option<(usize, usize, Result<usize, usize>)>
        requires { IsHere (key_of change.now) self.now }
        ensures { IfSome result (λ a. IsAim self.now change.now a.0 a.1 a.2) }
    {
        // Shows the proof that the leaves are lawful.
        let _ = self.count();
        let Some(leaf) = self.page(page) else {
            return None;
        };
        let found = find_key(&leaf.pairs, change.key());
        let pairs = leaf.pairs.as_slice();
        if !is_between(found, pairs.len()) {
            return None;
        }
        let count = count_packed(pairs, found, change);
        Some((leaf.page as usize - 1, count, found))
    }
}

// Whether a search among so many pairs ended at one of them or between two.
fn is_between(found: Result<usize, usize>, count: usize) -> bool
    ensures { IsTrue result → IsBetween count found }
{
    match found {
        Ok(_) => true,
        Err(at) => 1 <= at && at < count,
    }
}
