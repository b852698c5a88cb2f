//! Turns are counted where they are made, and nowhere else.

ghost use Rattle.std.specs.Prelude.{◌≡◌, ◌+◌, ◌<◌, MatchResult};
ghost use Rattle.bw_store.specs.Views.{away_in, kept_by, lanes_of, IsSound};
ghost use Rattle.bw_store.specs.Following.{Follows, HasBoxes, RefusedAt};
ghost use Rattle.bw_drive.specs.Pace.{TurnedOnce};

use bw_store::{Store, StoreFault};
use std::thread;

/// How many turns a run has made. The count is private to this module: only a turn raises it, so a
/// loop that says how far it came has made its turns.
#[derive(Drop)]
pub(crate) struct Pace {
    turns: u64,
}

impl Pace {
    pub(crate) fn new() -> Pace
        ensures { result.turns ≡ 0 }
    {
        Pace { turns: 0 }
    }

    /// A turn. If it took nothing, another thread may go first.
    pub(crate) fn turn(&mut self, store: &mut Store, limit: u32) -> Result<(), StoreFault>
        requires few { self.old.turns < u64.MAX }
        requires sound { IsSound store.old holding }
        ensures counted { self.new.turns ≡ self.old.turns + 1 }
        ensures sound { IsSound store.new holding }
        ensures took { MatchResult result
            (λ _. TurnedOnce limit (kept_by store.old holding) (kept_by store.new holding))
            (λ cause. RefusedAt (kept_by store.old holding) (lanes_of store.new)
            (away_in store.new) cause (kept_by store.new holding)) }
        ensures follows { Follows (kept_by store.old holding) (kept_by store.new holding) }
        ensures boxes { HasBoxes (kept_by store.old holding) (kept_by store.new holding) }
    {
        self.turns += 1;
        match store.turn(limit) {
            Ok(taken) => {
                if taken == 0 {
                    thread::yield_now();
                }
                Ok(())
            }
            Err(fault) => Err(fault.cause),
        }
    }
}
