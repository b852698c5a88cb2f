//! All that was accepted is taken, appended and published.

ghost use Rattle.std.specs.Prelude.{◌≡◌, Err, true, map, IfErr, IfOk, MatchResult};
ghost use Rattle.bw_ring.specs.Ends.{ring_of_feed};
ghost use Rattle.bw_history.specs.Machine.{TakesAndStops};
ghost use Rattle.bw_core.specs.Goal.{SameFeeds};
ghost use Rattle.bw_store.specs.Goal.{Goal, Sequel};
ghost use Rattle.bw_store.specs.Machine.{machine_of, TakesKeepsShows};
ghost use Rattle.bw_store.specs.Showing.{SettleRefuses};

use crate::store::Store;
use bw_core::StoreFault;
use bw_ring::Feed;
use std::sync::Wait;

impl Store {
    ghost use Rattle.bw_store.specs.Views.{away_in, kept_by, lanes_of, noted_of, IsSound};

    /// Takes all that the feeds accepted, flushes, and answers the length of the history. The feeds
    /// are those that `open` or `reopen` gave, all of them, in order.
    ///
    /// On Ok the segments hold, page for page, each accepted record exactly once, and readers see
    /// them. A refusal leaves what a refused `turn` or `flush` leaves, and says its cause; `settle`
    /// may be called again. The time is that of a turn over what was accepted, and of a flush.
    pub fn settle<R: Wait>(&mut self, rt: &R, feeds: &mut Vec<Feed>) -> Result<u64, StoreFault>
        requires sound { IsSound self.old holding }
        requires feeds { map ring_of_feed feeds.old.items ≡ (kept_by self.old holding).rings }

        ensures goal { IfOk result
            (Goal feeds.new.items (kept_by self.old holding) (kept_by self.new holding)) }
        ensures refused { IfErr result (λ cause.
            SettleRefuses (kept_by self.old holding) (lanes_of self.new)
            (away_in self.new) cause (kept_by self.new holding)) }
        ensures failed { (kept_by self.old holding).log.is_failed ≡ true
            → result ≡ Err StoreFault.Failed }
        ensures steps { MatchResult result
            (λ _. TakesKeepsShows (machine_of (kept_by self.old holding))
            (machine_of (kept_by self.new holding)))
            (λ _. TakesAndStops (machine_of (kept_by self.old holding))
            (machine_of (kept_by self.new holding))) }
        ensures sound { IsSound self.new holding }
        ensures feeds { SameFeeds feeds.old.items feeds.new.items }
        ensures sequel { Sequel (kept_by self.old holding) (kept_by self.new holding)
            (noted_of self.old) (noted_of self.new) }
    {
        let entries = self.core.settle(feeds)?;
        self.publish(rt)?;
        Ok(entries)
    }
}
