//! All that was accepted is taken, and waits for a flush.

ghost use Rattle.std.specs.Prelude.{◌≡◌, ◌<◌, length, map, IfErr, IfOk, MatchResult, OnOk};
ghost use Rattle.std.specs.List.{AllByRecursion};
ghost use Rattle.bw_ring.specs.Ends.{accepted, ring_of_feed};
ghost use Rattle.bw_history.specs.History.{streams};
ghost use Rattle.bw_history.specs.Machine.{TakesAndStops, TakesMany};
ghost use Rattle.bw_core.specs.Following.{groups_since, RefusedAt};
ghost use Rattle.bw_core.specs.Goal.{SameFeeds, Sequel};
ghost use Rattle.bw_core.specs.Heard.{IsOfFeeds};
ghost use Rattle.bw_core.specs.Machine.{machine_of};

use crate::store::Core;
use bw_ring::Feed;
use bw_terms::StoreFault;

impl Core {
    ghost use Rattle.bw_core.specs.Views.{away_in, kept_by, lanes_of, noted_of, IsSound};

    /// Takes all that the feeds accepted into the pages, and answers the length of the history. The
    /// feeds are those that `open` or `reopen` gave, all of them, in order.
    ///
    /// Nothing is flushed but a frame that is full, before a group that does not fit: what was
    /// taken is kept by the next `flush` or `settle`. If nothing waits, nothing is done, and
    /// nothing refused. A refusal leaves what a refused `turn` leaves, and says its cause. Whatever
    /// the answer is, the history has nothing but what the feeds accepted, in their order.
    pub fn take_all(&mut self, feeds: &mut Vec<Feed>) -> Result<u64, StoreFault>
        requires sound { IsSound self.old holding }
        requires feeds { map ring_of_feed feeds.old.items ≡ (kept_by self.old holding).rings }
        ensures exactly { OnOk result
            (streams 0 (length feeds.new.items) (kept_by self.new holding).entries
            ≡ map accepted feeds.new.items) }
        ensures writers { OnOk result (AllByRecursion (λ e. e.writer < length feeds.new.items)
            (kept_by self.new holding).entries) }
        ensures answer { IfOk result (λ n. n ≡ length (kept_by self.new holding).entries) }
        ensures refused { IfErr result (λ cause.
            RefusedAt (kept_by self.old holding) (lanes_of self.new) (away_in self.new) cause
            (kept_by self.new holding)) }
        ensures steps { MatchResult result
            (λ _. TakesMany (groups_since (kept_by self.old holding) (kept_by self.new holding))
            (machine_of (kept_by self.old holding)) (machine_of (kept_by self.new holding)))
            (λ _. TakesAndStops (machine_of (kept_by self.old holding))
            (machine_of (kept_by self.new holding))) }
        ensures sound { IsSound self.new holding }
        ensures heard { IsOfFeeds feeds.new.items (kept_by self.new holding).entries }
        ensures feeds { SameFeeds feeds.old.items feeds.new.items }
        ensures sequel { Sequel (kept_by self.old holding) (kept_by self.new holding)
            (noted_of self.old) (noted_of self.new) }
    {
        self.look_beside(feeds);
        self.take_known()?;
        Ok(self.intake.len())
    }
}
