//! What is durable of the history leaves memory.
//!
//! Every clause speaks of the whole history, and a store that runs for a year must not hold it. So
//! entries leave memory and stay in the clauses: what is left is the part that no frame has yet, or
//! that readers have still to be shown. Receipts go by lengths, and lose nothing.

ghost use Rattle.std.specs.Prelude.{◌≡◌, ◌+◌, max, min};
ghost use Rattle.bw_core.specs.Following.{Follows, HasBoxes};
ghost use Rattle.bw_history.specs.History.{cut};

use crate::store::Core;

impl Core {
    ghost use Rattle.bw_core.specs.Views.{forgotten_of, kept_by, noted_of, IsSound};

    /// Lets go of all entries of the history up to the last durable cut, and answers how many
    /// entries more are forgotten by that. They leave only memory: nothing that a clause says of
    /// the store changes, `history` then has the entries after them, and `forgotten` says how many
    /// they are. No other call but `forget_upto` does this (`noted` of each).
    ///
    /// No memory is taken, and the room of what was forgotten is used again. It costs a step for
    /// each entry that was kept.
    pub fn forget(&mut self) -> u64
        requires { IsSound self.old holding }
        ensures sound { IsSound self.new holding }
        ensures same { kept_by self.new holding ≡ kept_by self.old holding }
        ensures answer { forgotten_of self.new ≡ forgotten_of self.old + result }
        ensures noted { noted_of self.new
            ≡ record (noted_of self.old) { gone = forgotten_of self.new } }
        ensures all { forgotten_of self.new
            ≡ cut (kept_by self.new holding).cuts (kept_by self.new holding).durable }
        ensures follows { Follows (kept_by self.old holding) (kept_by self.new holding) }
        ensures boxes { HasBoxes (kept_by self.old holding) (kept_by self.new holding) }
    {
        let end = self.durable_end();
        self.forget_upto(end as u64)
    }

    /// Lets go of the entries of the history up to the last durable cut, or up to this index if
    /// that is less, and answers how many entries more are forgotten by that. As `forget`
    /// otherwise.
    pub fn forget_upto(&mut self, end: u64) -> u64
        requires { IsSound self.old holding }
        ensures sound { IsSound self.new holding }
        ensures same { kept_by self.new holding ≡ kept_by self.old holding }
        ensures answer { forgotten_of self.new ≡ forgotten_of self.old + result }
        ensures noted { noted_of self.new
            ≡ record (noted_of self.old) { gone = forgotten_of self.new } }
        ensures upto { forgotten_of self.new ≡ max (forgotten_of self.old) (min end
            (cut (kept_by self.new holding).cuts (kept_by self.new holding).durable)) }
        ensures follows { Follows (kept_by self.old holding) (kept_by self.new holding) }
        ensures boxes { HasBoxes (kept_by self.old holding) (kept_by self.new holding) }
    {
        let gone = self.intake.gone();
        let last = self.durable_end();
        let known = end.min(last as u64) as usize;
        if known <= gone {
            return 0;
        }
        self.intake.forget(known);
        (known - gone) as u64
    }
}
