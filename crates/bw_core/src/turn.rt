//! Turns: rounds over the lanes.
//!
//! A turn takes one group from each lane and begins again at the first, so a writer that puts
//! without end keeps no other waiting. It ends with a round that took none, or at its limit:
//! without one, a writer in a thread of its own could keep it from ending.

ghost use Rattle.std.specs.Prelude.{◌≡◌, ◌≤◌, ◌<◌, ◌+◌, ◌*◌, length, IfOk, IfErr, MatchResult};
ghost use Rattle.bw_core.specs.Following.{Turned, TookInTurn, RefusedAfter, TurnsOn, groups_since};
ghost use Rattle.bw_core.specs.Machine.{machine_of, MayBeStopped};
ghost use Rattle.bw_core.specs.Rounds.{GoesOver, GoesRound, IsFair};
ghost use Rattle.bw_history.specs.Lanes.{Dries, AreDry};
ghost use Rattle.bw_history.specs.Machine.{TakesAndStops, TakesMany};

use crate::store::Core;
use bw_terms::TurnFault;

/// How many groups were taken, and how many records these have.
#[derive(Clone, Copy)]
pub(crate) struct Count {
    pub(crate) groups: u32,
    pub(crate) records: u64,
}

impl Core {
    ghost use Rattle.bw_core.specs.Going.{IsQuiet};
    ghost use Rattle.bw_core.specs.Views.{away_in, kept_by, lanes_of, IsSound};

    /// Takes groups in rounds over lanes 0, 1, .., one from each that has one, until `limit` of
    /// them are taken or a round took none; answers how many records these have. A group's blocks
    /// go into one frame: they are put into the frame in the making, and if they do not fit there,
    /// that one is appended first.
    ///
    /// A refusal says how many records were taken before it. The refused group is still the first
    /// in its ring, whole: all growths, reads and appends come before a group is taken. `Failed`
    /// comes only if a group is found, and so do `Spent`, `NoSegment`, `NoMemory` and `Device`. A
    /// record costs a search among the pages, work in one page, and its blocks; in a group of more
    /// than one, the work in its page comes twice. If a page is evicted, it is read from the log
    /// and is in memory from then on, unless that read is refused `Device`, `Spent` or `NoMemory`.
    pub fn turn(&mut self, limit: u32) -> Result<u64, TurnFault>
        requires sound { IsSound self.old holding }
        ensures quiet { IsQuiet self.old self.new holding }
        ensures turned { MatchResult result (λ n.
            Turned n (kept_by self.old holding) (kept_by self.new holding))
            (λ fault. Turned fault.taken (kept_by self.old holding) (kept_by self.new holding)) }

        // The limit is of groups, and so is what is below it.
        ensures within { IfOk result (λ n.
            groups_since (kept_by self.old holding) (kept_by self.new holding) ≤ limit) }
        ensures dry { IfOk result (λ n.
            groups_since (kept_by self.old holding) (kept_by self.new holding) < limit
            → AreDry (lanes_of self.new)) }

        // One group after the other, and no frame before one that fits. `Failed` exactly if an
        // append failed before; every other cause with its reason. The refused group is still the
        // first of its lane, and was tried within the limit.
        ensures took { IfOk result (λ n.
            TookInTurn n (kept_by self.old holding) (kept_by self.new holding)) }
        ensures refused { IfErr result (λ fault. RefusedAfter fault.taken
            (kept_by self.old holding) (lanes_of self.new) (away_in self.new) fault.cause
            (kept_by self.new holding)) }
        ensures tried { IfErr result (λ fault.
            groups_since (kept_by self.old holding) (kept_by self.new holding) < limit) }

        // No lane falls behind: as long as one has not given all groups of which it knew before, no
        // other gave two more than it.
        ensures fair { IsFair (lanes_of self.old) (kept_by self.old holding)
            (kept_by self.new holding) }

        // As the machine: so many groups are taken, and what a stop leaves is found.
        ensures steps { MatchResult result
            (λ _. TakesMany (groups_since (kept_by self.old holding) (kept_by self.new holding))
            (machine_of (kept_by self.old holding)) (machine_of (kept_by self.new holding)))
            (λ _. TakesAndStops (machine_of (kept_by self.old holding))
            (machine_of (kept_by self.new holding))) }
        ensures may_leave { MayBeStopped (kept_by self.new holding) }
    {
        let mut taken = Count {
            groups: 0,
            records: 0,
        };
        'rounds: while taken.groups < limit {
            let more = self.round_more(taken, limit)?;
            if more.groups == taken.groups {
                return Ok(more.records);
            }
            taken = more;
        }
        Ok(taken.records)
    }

    // A round after what was taken: one group from each lane that has one.
    fn round_more(&mut self, taken: Count, limit: u32) -> Result<Count, TurnFault>
        requires sound { IsSound self.old holding }
        requires within { taken.groups ≤ limit }
        requires few { taken.records ≤ 4 * taken.groups }
        ensures quiet { IsQuiet self.old self.new holding }
        ensures turned { TurnsOn limit taken (kept_by self.old holding) result
            self.new.intake.lanes.items (away_in self.new) (kept_by self.new holding) }
        ensures within { IfOk result (λ n. (taken.groups ≤ n.groups) × (n.groups ≤ limit)) }
        ensures few { IfOk result (λ n. n.records ≤ 4 * n.groups) }
        ensures dry { IfOk result (λ n. n.groups ≡ taken.groups → taken.groups < limit
            → AreDry self.new.intake.lanes.items) }
        ensures rounds { GoesRound limit self.old.intake.lanes.items (kept_by self.old holding)
            result self.new.intake.lanes.items (kept_by self.new holding) }
    {
        let mut so_far = taken;
        let lanes = self.intake.writers();
        'lanes: for lane in 0..lanes {
            if so_far.groups == limit {
                return Ok(so_far);
            }
            so_far = self.take_more(lane, so_far)?;
        }
        Ok(so_far)
    }

    // One group more, if the lane has one.
    fn take_more(&mut self, lane: usize, taken: Count) -> Result<Count, TurnFault>
        requires sound { IsSound self.old holding }
        requires inside { lane < length self.old.intake.lanes.items }
        requires room { taken.groups < u32.MAX }
        requires few { taken.records ≤ 4 * taken.groups }
        ensures quiet { IsQuiet self.old self.new holding }
        ensures count { length self.new.intake.lanes.items ≡ length self.old.intake.lanes.items }
        ensures turned { TurnsOn (taken.groups + 1) taken (kept_by self.old holding) result
            self.new.intake.lanes.items (away_in self.new) (kept_by self.new holding) }
        ensures within { IfOk result (λ n.
            (taken.groups ≤ n.groups) × (n.groups ≤ taken.groups + 1)) }
        ensures few { IfOk result (λ n. n.records ≤ 4 * n.groups) }
        ensures dry { IfOk result (λ n. n.groups ≡ taken.groups
            → Dries lane self.old.intake.lanes.items self.new.intake.lanes.items) }
        ensures rounds { GoesOver lane self.old.intake.lanes.items (kept_by self.old holding)
            result self.new.intake.lanes.items (kept_by self.new holding) }
    {
        match self.take_from(lane) {
            Ok(Some(records)) => Ok(Count {
                groups: taken.groups + 1,
                records: taken.records + records,
            }),
            Ok(None) => Ok(taken),
            Err(cause) => Err(TurnFault {
                taken: taken.records,
                cause,
            }),
        }
    }
}
