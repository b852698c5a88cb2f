//! Turns: the core's. Nothing is published.

ghost use Rattle.std.specs.Prelude.{◌≤◌, ◌<◌, IfOk, IfErr, MatchResult};
ghost use Rattle.bw_history.specs.Lanes.{AreDry};
ghost use Rattle.bw_history.specs.Machine.{TakesAndStops, TakesMany};
ghost use Rattle.bw_store.specs.Following.{IsFair, Turned, TookInTurn, RefusedAfter, groups_since};
ghost use Rattle.bw_store.specs.Machine.{machine_of, MayBeStopped};

use crate::store::Store;
use bw_core::TurnFault;

impl Store {
    ghost use Rattle.bw_store.specs.Going.{IsQuiet};
    ghost use Rattle.bw_store.specs.Views.{away_in, kept_by, lanes_of, IsSound};

    /// Takes groups in rounds over lanes 0, 1, .., one from each that has one, until `limit` of
    /// them are taken or a round took none; answers how many records these have. A group's blocks
    /// go into one frame: they are put into the frame in the making, and if they do not fit there,
    /// that one is appended first.
    ///
    /// A refusal says how many records were taken before it. The refused group is still the first
    /// in its ring, whole: all growths, reads and appends come before a group is taken. `Failed`
    /// comes only if a group is found, and so do `Spent`, `NoSegment`, `NoMemory` and `Device`. A
    /// record costs a search among the pages, work in one page, and its blocks; in a group of more
    /// than one, the work in its page comes twice. If a page is evicted, it is read from the log
    /// and is in memory from then on, unless that read is refused `Device`, `Spent` or `NoMemory`.
    pub fn turn(&mut self, limit: u32) -> Result<u64, TurnFault>
        requires sound { IsSound self.old holding }
        ensures quiet { IsQuiet self.old self.new holding }
        ensures turned { MatchResult result (λ n.
            Turned n (kept_by self.old holding) (kept_by self.new holding))
            (λ fault. Turned fault.taken (kept_by self.old holding) (kept_by self.new holding)) }

        // The limit is of groups, and so is what is below it.
        ensures within { IfOk result (λ n.
            groups_since (kept_by self.old holding) (kept_by self.new holding) ≤ limit) }
        ensures dry { IfOk result (λ n.
            groups_since (kept_by self.old holding) (kept_by self.new holding) < limit
            → AreDry (lanes_of self.new)) }

        // One group after the other, and no frame before one that fits. `Failed` exactly if an
        // append failed before; every other cause with its reason. The refused group is still the
        // first of its lane, and was tried within the limit.
        ensures took { IfOk result (λ n.
            TookInTurn n (kept_by self.old holding) (kept_by self.new holding)) }
        ensures refused { IfErr result (λ fault. RefusedAfter fault.taken
            (kept_by self.old holding) (lanes_of self.new) (away_in self.new) fault.cause
            (kept_by self.new holding)) }
        ensures tried { IfErr result (λ fault.
            groups_since (kept_by self.old holding) (kept_by self.new holding) < limit) }

        // No lane falls behind: as long as one has not given all groups of which it knew before, no
        // other gave two more than it.
        ensures fair { IsFair (lanes_of self.old) (kept_by self.old holding)
            (kept_by self.new holding) }

        // As the machine: so many groups are taken, and what a stop leaves is found.
        ensures steps { MatchResult result
            (λ _. TakesMany (groups_since (kept_by self.old holding) (kept_by self.new holding))
            (machine_of (kept_by self.old holding)) (machine_of (kept_by self.new holding)))
            (λ _. TakesAndStops (machine_of (kept_by self.old holding))
            (machine_of (kept_by self.new holding))) }
        ensures may_leave { MayBeStopped (kept_by self.new holding) }
    {
        self.core.turn(limit)
    }
}
