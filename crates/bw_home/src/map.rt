//! A home with one writer as a map: what is set is seen at once, and kept by `keep`.

ghost use Rattle.std.specs.Prelude.{◌≡◌, ◌↔◌, ◌<◌, length, map, IfErr, IfOk, IsErrOf, MatchOption, MatchResult, OnErr, OnOk};
ghost use Rattle.std.specs.FinMap as finite;
ghost use Rattle.std.specs.List.{fold, AllByRecursion};
ghost use Rattle.bw_leaf.specs.Changed.{changed_map};
ghost use Rattle.bw_ring.specs.Ends.{accepted};
ghost use Rattle.bw_history.specs.History.{streams};
ghost use Rattle.bw_history.specs.Machine.{TakesAndStops, TakesMany};
ghost use Rattle.bw_core.specs.Following.{Follows, groups_since, RefusedAt};
ghost use Rattle.bw_core.specs.Goal.{SameFeeds, Sequel};
ghost use Rattle.bw_core.specs.Heard.{IsOfFeeds};
ghost use Rattle.bw_core.specs.Machine.{machine_of};
ghost use Rattle.bw_home.specs.Cuts.{ChangedCuts};
ghost use Rattle.bw_home.specs.Maps.{Has, Keeps, Refuses};
ghost use Rattle.bw_home.specs.Putting.{AddedGroup};
ghost use Rattle.bw_home.specs.Reasons.{IsReason, IsStillFull, IsWaitRefused};

use crate::fault::MapFault;
use crate::home::Home;
use bw_codec::{Key, Record, Value};
use bw_core::StoreFault;
use bw_ring::{FullGroup, Group};

impl Home {
    ghost use Rattle.bw_core.specs.Views.{away_in, lanes_of, noted_of};
    ghost use Rattle.bw_home.specs.Maps.{maps_of, IsMapBy, StaysMap};
    ghost use Rattle.bw_home.specs.Ready.{kept_in, IsReady};

    /// Takes all that was put into the pages; answers how many records were taken since the store
    /// was opened. As `Core::take_all`.
    pub fn take_all(&mut self) -> Result<u64, StoreFault>
        requires { IsReady self.old holding }
        ensures ready { IsReady self.new holding }
        ensures exactly { OnOk result
            (streams 0 (length self.new.feeds.items) (kept_in self.new holding).entries
            ≡ map accepted self.new.feeds.items) }
        ensures writers { OnOk result (AllByRecursion (λ e. e.writer < length self.new.feeds.items)
            (kept_in self.new holding).entries) }
        ensures answer { IfOk result (λ n. n ≡ length (kept_in self.new holding).entries) }
        ensures refused { IfErr result (λ cause. RefusedAt (kept_in self.old holding)
            (lanes_of self.new.store) (away_in self.new.store) cause
            (kept_in self.new holding)) }
        ensures steps { MatchResult result
            (λ _. TakesMany (groups_since (kept_in self.old holding) (kept_in self.new holding))
            (machine_of (kept_in self.old holding)) (machine_of (kept_in self.new holding)))
            (λ _. TakesAndStops (machine_of (kept_in self.old holding))
            (machine_of (kept_in self.new holding))) }
        ensures heard { IsOfFeeds self.new.feeds.items (kept_in self.new holding).entries }
        ensures feeds { SameFeeds self.old.feeds.items self.new.feeds.items }
        ensures sequel { Sequel (kept_in self.old holding) (kept_in self.new holding)
            (noted_of self.old.store) (noted_of self.new.store) }
        ensures stays { StaysMap self.old self.new holding }
    {
        self.store.take_all(&mut self.feeds)
    }

    /// Sets the value of a key. From then on `get`, `next_at` and `scan` see it; `keep` makes it
    /// durable.
    ///
    /// Refused `Writers` if there is not exactly one writer, and `NotPut` if the queue is full and
    /// the store was refused to take what waits there: the map is as it was. Refused `Waits` if the
    /// store was refused to take it: it waits in the queue, and the next call of this kind takes it
    /// first.
    pub fn set(&mut self, key: Key, value: Value) -> Result<(), MapFault>
        requires { IsReady self.old holding }
        ensures ready { IsReady self.new holding }
        ensures set { OnOk result
            (Has (finite.insert (maps_of self.old holding).put key value)
            (maps_of self.new holding)) }
        ensures refused { IfErr result (λ fault. Refuses fault (maps_of self.old holding).put
            (finite.insert (maps_of self.old holding).put key value) (maps_of self.new holding)) }
        ensures map { IsMapBy self.old holding → IsMapBy self.new holding }
        ensures cuts { IsMapBy self.old holding → ChangedCuts result
            (maps_of self.old holding).cuts
            (finite.insert (maps_of self.old holding).put key value)
            (maps_of self.new holding).cuts }
        ensures writers { IsErrOf result MapFault.Writers
            ↔ (length self.old.feeds.items ≡ 1 → ⊥) }
        ensures reason { IfErr result (λ fault. IsReason fault self.new.feeds.items
            (kept_in self.old holding) (lanes_of self.new.store) (away_in self.new.store)
            (kept_in self.new holding)) }
        ensures follows { Follows (kept_in self.old holding) (kept_in self.new holding) }
    {
        self.change(Group::one(Record::Put(key, value)))
    }

    /// Drops the value of a key, if it has one. Otherwise as `set`.
    pub fn delete(&mut self, key: Key) -> Result<(), MapFault>
        requires { IsReady self.old holding }
        ensures ready { IsReady self.new holding }
        ensures deleted { OnOk result
            (Has (finite.remove (maps_of self.old holding).put key) (maps_of self.new holding)) }
        ensures refused { IfErr result (λ fault. Refuses fault (maps_of self.old holding).put
            (finite.remove (maps_of self.old holding).put key) (maps_of self.new holding)) }
        ensures map { IsMapBy self.old holding → IsMapBy self.new holding }
        ensures cuts { IsMapBy self.old holding → ChangedCuts result
            (maps_of self.old holding).cuts
            (finite.remove (maps_of self.old holding).put key)
            (maps_of self.new holding).cuts }
        ensures writers { IsErrOf result MapFault.Writers
            ↔ (length self.old.feeds.items ≡ 1 → ⊥) }
        ensures reason { IfErr result (λ fault. IsReason fault self.new.feeds.items
            (kept_in self.old holding) (lanes_of self.new.store) (away_in self.new.store)
            (kept_in self.new holding)) }
        ensures follows { Follows (kept_in self.old holding) (kept_in self.new holding) }
    {
        self.change(Group::one(Record::Del(key)))
    }

    /// Makes the changes of a group, one after the other: all of them, or none, also if the store
    /// is stopped. Otherwise as `set`.
    pub fn change(&mut self, group: Group) -> Result<(), MapFault>
        requires { IsReady self.old holding }
        ensures ready { IsReady self.new holding }
        ensures changed { OnOk result
            (Has (fold changed_map (maps_of self.old holding).put group)
            (maps_of self.new holding)) }
        ensures refused { IfErr result (λ fault. Refuses fault (maps_of self.old holding).put
            (fold changed_map (maps_of self.old holding).put group) (maps_of self.new holding)) }
        ensures map { IsMapBy self.old holding → IsMapBy self.new holding }
        ensures cuts { IsMapBy self.old holding → ChangedCuts result
            (maps_of self.old holding).cuts
            (fold changed_map (maps_of self.old holding).put group)
            (maps_of self.new holding).cuts }
        ensures writers { IsErrOf result MapFault.Writers
            ↔ (length self.old.feeds.items ≡ 1 → ⊥) }
        ensures reason { IfErr result (λ fault. IsReason fault self.new.feeds.items
            (kept_in self.old holding) (lanes_of self.new.store) (away_in self.new.store)
            (kept_in self.new holding)) }
        ensures follows { Follows (kept_in self.old holding) (kept_in self.new holding) }
    {
        let _ = group.as_slice(); // For the proof.
        if self.feeds.len() != 1 {
            return Err(MapFault::Writers);
        }
        if let Err(cause) = self.queue(group) {
            return Err(MapFault::NotPut(cause));
        }
        match self.take_all() {
            Ok(_) => Ok(()),
            Err(cause) => Err(MapFault::Waits(cause)),
        }
    }

    // Puts a group into the queue of the only writer. If it is full, all that waits is taken
    // before; a refusal says why that was not done, or nothing if the queue is full all the same.
    // Not by
    // `put_group`, which takes turns: no clause of a turn says that what it took is what was put.
    fn queue(&mut self, group: Group) -> Result<(), Option<StoreFault>>
        requires ready { IsReady self.old holding }
        ensures ready { IsReady self.new holding }
        ensures added { OnOk result (AddedGroup 0 group self.old.feeds.items self.new.feeds.items) }
        ensures unchanged { OnErr result
            (map accepted self.new.feeds.items ≡ map accepted self.old.feeds.items) }
        ensures heard { OnErr result
            (IsOfFeeds self.new.feeds.items (kept_in self.new holding).entries) }
        ensures refused { IfErr result (λ cause. MatchOption cause
            (IsStillFull self.new.feeds.items (kept_in self.old holding)
            (kept_in self.new holding))
            (IsWaitRefused (kept_in self.old holding) (lanes_of self.new.store)
            (away_in self.new.store) (kept_in self.new holding))) }
        ensures follows { Follows (kept_in self.old holding) (kept_in self.new holding) }
    {
        let group = match self.offer(0, group) {
            Ok(()) => return Ok(()),
            Err(FullGroup(group)) => group,
        };
        if let Err(cause) = self.take_all() {
            return Err(Some(cause));
        }
        match self.offer(0, group) {
            Ok(()) => Ok(()),
            Err(FullGroup(_)) => Err(None),
        }
    }

    /// Keeps the map as it is now, with all that was put; answers how many changes were kept since
    /// the store was opened. Whatever stops from then on, this is found again. Refused `Writers`,
    /// and `NotKept`, as `settle` is: the map stays then, and what is kept is what was, or a later
    /// one.
    pub fn keep(&mut self) -> Result<u64, MapFault>
        requires { IsReady self.old holding }
        ensures ready { IsReady self.new holding }
        ensures kept { OnOk result
            (Keeps (maps_of self.old holding).put (maps_of self.new holding)) }
        ensures answer { IfOk result (λ n. n ≡ length (kept_in self.new holding).entries) }
        ensures put { (maps_of self.new holding).put ≡ (maps_of self.old holding).put }
        ensures stays { StaysMap self.old self.new holding }
        ensures writers { IsErrOf result MapFault.Writers
            ↔ (length self.old.feeds.items ≡ 1 → ⊥) }
        ensures reason { IfErr result (λ fault. IsReason fault self.new.feeds.items
            (kept_in self.old holding) (lanes_of self.new.store) (away_in self.new.store)
            (kept_in self.new holding)) }
        ensures follows { Follows (kept_in self.old holding) (kept_in self.new holding) }
    {
        if self.feeds.len() != 1 {
            return Err(MapFault::Writers);
        }
        match self.settle() {
            Ok(changes) => Ok(changes),
            Err(cause) => Err(MapFault::NotKept(cause)),
        }
    }
}
