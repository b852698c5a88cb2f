//! All that was accepted is taken and appended.
//!
//! While a turn asks the rings again and again, a settling looks at each ring once, with both of
//! its ends at hand, and takes what it knows of then. A further look could show more, and nothing
//! would bound the loop; and what the feeds had accepted at the call is what the caller may speak
//! of. It goes lane by lane: no promise speaks of the order among writers.

ghost use Rattle.std.specs.Prelude.{◌≡◌, ◌<◌, Err, [], true, length, map, IfErr, IfOk, MatchResult, OnOk};
ghost use Rattle.bw_ring.specs.Ends.{accepted, given, ring_of_feed, taken};
ghost use Rattle.bw_history.specs.Lanes.{known_at, StayDry};
ghost use Rattle.bw_history.specs.Machine.{TakesAndKeeps, TakesAndStops};
ghost use Rattle.bw_core.specs.Following.{RefusedAt, TookSome};
ghost use Rattle.bw_core.specs.Goal.{Goal, SameFeeds, Sequel};
ghost use Rattle.bw_core.specs.Heard.{IsOfFeeds};
ghost use Rattle.bw_core.specs.Machine.{machine_of};
ghost use Rattle.bw_core.specs.Settling.{SettleRefuses};

use crate::flush::Spares;
use crate::store::Core;
use bw_ring::Feed;
use bw_terms::StoreFault;

impl Core {
    ghost use Rattle.bw_core.specs.Going.{IsQuiet};
    ghost use Rattle.bw_core.specs.Views.{away_in, kept_by, lanes_of, noted_of, IsSound};

    /// Takes all that the feeds accepted, flushes, and answers the length of the history. The feeds
    /// are those that `open` or `reopen` gave, all of them, in order.
    ///
    /// On Ok the segments hold, page for page, each accepted record exactly once: `Goal` has each
    /// line of it. What was taken is flushed as `flush` does it, also if nothing waits: a log that
    /// failed answers `Failed`, and one without a further number `Spent`. A refusal leaves what a
    /// refused `turn` or `flush` leaves, and says its cause; `settle` may be called again. Whatever
    /// the answer is, the history has nothing but what the feeds accepted, in their order. The time
    /// is that of a turn over what was accepted, and of a flush.
    pub fn settle(&mut self, feeds: &mut Vec<Feed>) -> Result<u64, StoreFault>
        requires sound { IsSound self.old holding }
        requires feeds { map ring_of_feed feeds.old.items ≡ (kept_by self.old holding).rings }

        ensures goal { IfOk result
            (Goal feeds.new.items (kept_by self.old holding) (kept_by self.new holding)) }
        ensures refused { IfErr result (λ cause.
            SettleRefuses (kept_by self.old holding) (lanes_of self.new)
            (away_in self.new) cause (kept_by self.new holding)) }
        ensures failed { (kept_by self.old holding).log.is_failed ≡ true
            → result ≡ Err StoreFault.Failed }
        ensures steps { MatchResult result
            (λ _. TakesAndKeeps (machine_of (kept_by self.old holding))
            (machine_of (kept_by self.new holding)))
            (λ _. TakesAndStops (machine_of (kept_by self.old holding))
            (machine_of (kept_by self.new holding))) }
        ensures sound { IsSound self.new holding }
        ensures heard { IsOfFeeds feeds.new.items (kept_by self.new holding).entries }
        ensures feeds { SameFeeds feeds.old.items feeds.new.items }
        ensures sequel { Sequel (kept_by self.old holding) (kept_by self.new holding)
            (noted_of self.old) (noted_of self.new) }
    {
        self.look_beside(feeds);
        self.take_known()?;
        self.flush_making(Spares::ButLast)?;
        Ok(self.intake.len())
    }

    // A look at both ends of all rings.
    pub(crate) fn look_beside(&mut self, feeds: &mut Vec<Feed>)
        requires { map ring_of_feed feeds.old.items ≡ (kept_by self.old holding).rings }
        ensures same { kept_by self.new holding ≡ kept_by self.old holding }
        ensures ends { map ring_of_feed feeds.new.items ≡ map ring_of_feed feeds.old.items }
        ensures accepted { map accepted feeds.new.items ≡ map accepted feeds.old.items }
        ensures whole { map given self.new.intake.lanes.items ≡ map accepted feeds.old.items }
        ensures noted { noted_of self.new ≡ noted_of self.old }
    {
        self.intake.look_beside(feeds);
    }

    // Takes all that the lanes know of, lane by lane. No ring is looked at.
    pub(crate) fn take_known(&mut self) -> Result<(), StoreFault>
        requires sound { IsSound self.old holding }
        ensures quiet { IsQuiet self.old self.new holding }
        ensures given { map given self.new.intake.lanes.items
            ≡ map given self.old.intake.lanes.items }
        ensures taken { OnOk result
            (map taken self.new.intake.lanes.items ≡ map given self.old.intake.lanes.items) }
        ensures took { MatchResult result
            (λ _. TookSome (kept_by self.old holding) (kept_by self.new holding))
            (λ cause. RefusedAt (kept_by self.old holding) self.new.intake.lanes.items
            (away_in self.new) cause (kept_by self.new holding)) }
    {
        let lanes = self.intake.writers();
        'lanes: for lane in 0..lanes {
            self.take_lane(lane)?;
        }
        Ok(())
    }

    // Takes all that a lane knows of.
    fn take_lane(&mut self, lane: usize) -> Result<(), StoreFault>
        requires sound { IsSound self.old holding }
        requires inside { lane < length self.old.intake.lanes.items }
        ensures quiet { IsQuiet self.old self.new holding }
        ensures count { length self.new.intake.lanes.items ≡ length self.old.intake.lanes.items }
        ensures given { map given self.new.intake.lanes.items
            ≡ map given self.old.intake.lanes.items }
        ensures dry { OnOk result (known_at self.new.intake.lanes.items lane ≡ []) }
        ensures others { OnOk result
            (StayDry self.old.intake.lanes.items self.new.intake.lanes.items) }
        ensures took { MatchResult result
            (λ _. TookSome (kept_by self.old holding) (kept_by self.new holding))
            (λ cause. RefusedAt (kept_by self.old holding) self.new.intake.lanes.items
            (away_in self.new) cause (kept_by self.new holding)) }
    {
        'records: while self.intake.waits(lane) {
            self.take_waiting(lane)?;
        }
        Ok(())
    }
}
