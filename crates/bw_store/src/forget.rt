//! What readers have of the history leaves memory.

ghost use Rattle.std.specs.Prelude.{◌≡◌, ◌≤◌, ◌+◌, length};
ghost use Rattle.bw_versions.specs.Batches.{entries_of};
ghost use Rattle.bw_history.specs.History.{cut};
ghost use Rattle.bw_store.specs.Following.{Follows, HasBoxes};

use crate::store::Store;

impl Store {
    ghost use Rattle.bw_store.specs.Views.{forgotten_of, kept_by, noted_of, IsSound};

    /// Lets go of what the readers' book has of the history, all of it durable, and answers how
    /// many entries more are forgotten by that.
    pub fn forget(&mut self) -> u64
        requires { IsSound self.old holding }
        ensures sound { IsSound self.new holding }
        ensures same { kept_by self.new holding ≡ kept_by self.old holding }
        ensures answer { forgotten_of self.new ≡ forgotten_of self.old + result }
        ensures noted { noted_of self.new
            ≡ record (noted_of self.old) { gone = forgotten_of self.new } }
        ensures shown { forgotten_of self.new
            ≡ length (entries_of (kept_by self.new holding).versions.entered) }

        // Nothing is forgotten that is not durable.
        ensures durable { forgotten_of self.new
            ≤ cut (kept_by self.new holding).cuts (kept_by self.new holding).durable }
        ensures follows { Follows (kept_by self.old holding) (kept_by self.new holding) }
        ensures boxes { HasBoxes (kept_by self.old holding) (kept_by self.new holding) }
    {
        let known = self.versions.entered();
        self.core.forget_upto(known as u64)
    }
}
