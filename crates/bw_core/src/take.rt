//! One group is taken from a lane, whole or not at all.
//!
//! A reader of the log must never see a part of a group, and no stop may leave one. So a group's
//! blocks go into one frame: if they do not fit the frame in the making, that one is appended
//! first, and the group begins the next. And the group leaves its ring as the last thing of all:
//! were it popped before its page is read or its frame appended, a refusal would lose it. All that
//! can be refused (a read of an evicted page, a growth, an append) comes before; so whoever was
//! refused finds the same group first in its ring, and may ask again.
//!
//! A record by itself is the common case, and nearly none splits its page: it is lent all the way
//! down, and written where it belongs. If its page is split, its blocks are planned first, by
//! `plan`. Several records are planned one after the other (`groups.rt`) before the first of them
//! changes a page.

ghost use Rattle.std.specs.Prelude.{◌≡◌, ◌≤◌, ◌<◌, ◌∷◌, [], false, length, IsTrue, IfOk, IfErr, OnOk, MatchResult};
ghost use Rattle.std.specs.List.{AllByRecursion};
ghost use Rattle.std.specs.Option.{IsSomeAnd};
ghost use Rattle.bw_codec.specs.Grammar.{body_bytes, IsBlock};
ghost use Rattle.bw_record.specs.Record.{key_of};
ghost use Rattle.bw_page.specs.Aim.{IsFound};
ghost use Rattle.bw_page.specs.Leaves.{result_of, HasPages};
ghost use Rattle.bw_core.specs.Fitting.{Fits};
ghost use Rattle.bw_history.specs.Lanes.{IsWaiting, Dries, KnowMore};
ghost use Rattle.bw_making.specs.Planning.{listed};
ghost use Rattle.bw_core.specs.Taking.{TakeLeaves, WaitingLeaves, GroupLeaves, IsPlan, IsStopped, IsUnplanned};

use crate::flush::Spares;
use crate::store::Core;
use bw_codec::Record;
use bw_history::PackedEntry;
use bw_making::{Plan, place_for, planned_for};
use bw_ring::{Group, Items};
use bw_terms::StoreFault;

impl Core {
    ghost use Rattle.bw_core.specs.Takes.{Comes, HasFrame, HasLane, IsAt, IsPacked, TakesAny, TakesGroup, TakesWaiting, Waits};
    ghost use Rattle.bw_core.specs.Views.{away_in, kept_by, noted_of, IsSound};

    /// Takes the next group of a lane, if there is one; answers how many records it has, 1 to 4.
    pub(crate) fn take_from(&mut self, lane: usize) -> Result<Option<u64>, StoreFault>
        requires there { HasLane lane self.old holding }
        ensures takes { TakesAny lane self.old result self.new holding }
        ensures leaves { TakeLeaves lane self.new.intake.lanes.items (away_in self.new)
            (kept_by self.old holding) result (kept_by self.new holding) }
    {
        if let Some(item) = self.intake.alone(lane) {
            self.take_item(lane, &item)?;
            return Ok(Some(1));
        }
        self.take_looked(lane)
    }

    // Takes the next group of a lane after a look at its ring. A group has the room of four
    // records, which is made and moved only if there are more than one.
    fn take_looked(&mut self, lane: usize) -> Result<Option<u64>, StoreFault>
        requires there { HasLane lane self.old holding }
        ensures takes { TakesAny lane self.old result self.new holding }
        ensures leaves { TakeLeaves lane self.new.intake.lanes.items (away_in self.new)
            (kept_by self.old holding) result (kept_by self.new holding) }
    {
        if !self.look(lane) {
            return Ok(None);
        }
        if let Some(item) = self.intake.alone(lane) {
            self.take_item(lane, &item)?;
            return Ok(Some(1));
        }
        self.take_several(lane)
    }

    // Takes the next group of a lane, which the lane knows of and which may have more than one
    // record; answers how many it has.
    fn take_several(&mut self, lane: usize) -> Result<Option<u64>, StoreFault>
        requires waits { Waits lane self.old holding }
        ensures takes { TakesAny lane self.old result self.new holding }
        ensures some { IfOk result (λ took. IsSomeAnd took (λ n. n ≤ 4)) }
        ensures leaves { TakeLeaves lane self.new.intake.lanes.items (away_in self.new)
            (kept_by self.old holding) result (kept_by self.new holding) }
    {
        let group = self.intake.first(lane);
        let records = group.len() as u64;
        self.take_group(lane, group)?;
        Ok(Some(records))
    }

    /// Takes the next group of a lane, which the lane knows of: its ring is not looked at.
    pub(crate) fn take_waiting(&mut self, lane: usize) -> Result<(), StoreFault>
        requires waits { Waits lane self.old holding }
        ensures takes { TakesWaiting lane self.old result self.new holding }
        ensures leaves { WaitingLeaves lane self.new.intake.lanes.items (away_in self.new)
            (kept_by self.old holding) result (kept_by self.new holding) }
    {
        if let Some(item) = self.intake.alone(lane) {
            return self.take_item(lane, &item);
        }
        self.take_first(lane)
    }

    // Takes the next group of a lane, which the lane knows of and which may have more than one
    // record.
    fn take_first(&mut self, lane: usize) -> Result<(), StoreFault>
        requires waits { Waits lane self.old holding }
        ensures takes { TakesWaiting lane self.old result self.new holding }
        ensures leaves { WaitingLeaves lane self.new.intake.lanes.items (away_in self.new)
            (kept_by self.old holding) result (kept_by self.new holding) }
    {
        let group = self.intake.first(lane);
        self.take_group(lane, group)
    }

    // Takes this group, which is the next of its lane.
    fn take_group(&mut self, lane: usize, group: Group) -> Result<(), StoreFault>
        requires comes { Comes lane group self.old holding }
        ensures takes { TakesGroup lane self.old result self.new holding }
        ensures leaves { GroupLeaves lane (away_in self.new) group
            (kept_by self.old holding) result (kept_by self.new holding) }
    {
        match alone(group) {
            Ok(item) => self.take_item(lane, &item),
            Err(group) => self.take_many(lane, group),
        }
    }

    // Takes a group of this one record.
    fn take_item(&mut self, lane: usize, item: &Record) -> Result<(), StoreFault>
        requires comes { Comes lane (item.now ∷ []) self.old holding }
        ensures takes { TakesGroup lane self.old result self.new holding }
        ensures leaves { GroupLeaves lane (away_in self.new) (item.now ∷ [])
            (kept_by self.old holding) result (kept_by self.new holding) }
    {
        self.goes_on()?;
        let page = self.fetch(item.key())?;
        self.take_here(lane, item, page)
    }

    // Takes a group of this one record, if the page at which it is directed is in memory.
    fn take_here(&mut self, lane: usize, item: &Record, page: u32) -> Result<(), StoreFault>
        requires comes { Comes lane (item.now ∷ []) self.old holding }
        requires at { IsAt page item.now self.old }
        ensures takes { TakesGroup lane self.old result self.new holding }
        ensures leaves { GroupLeaves lane (away_in self.new) (item.now ∷ [])
            (kept_by self.old holding) result (kept_by self.new holding) }
    {
        let found = self.pages.leaves.place_on(page, item.key().as_slice());
        if self.pages.leaves.is_split_by(page, found, item) {
            return self.take_split(lane, item, page);
        }
        self.take_delta(lane, item, page, found)
    }

    // Takes a group of this one record, if it does not split its page, and the search for its key
    // there ended so: no block is made of it, and it is moved nowhere. A frame that is appended
    // changes no page, so the place is still the right one after it.
    fn take_delta(
        &mut self,
        lane: usize,
        item: &Record,
        page: u32,
        found: Result<usize, usize>,
    ) -> Result<(), StoreFault>
        requires comes { Comes lane (item.now ∷ []) self.old holding }
        requires at { IsAt page item.now self.old }
        requires found { IsFound self.old.pages.leaves.leaves (key_of item.now) found }
        requires whole { length (result_of self.old.pages.leaves.leaves item.now).pairs
            ≤ self.old.pages.leaves.m }
        ensures takes { TakesGroup lane self.old result self.new holding }
        ensures leaves { GroupLeaves lane (away_in self.new) (item.now ∷ [])
            (kept_by self.old holding) result (kept_by self.new holding) }
    {
        let _ = item.key(); // For the proof.
        self.goes_on()?;
        if self.pages.making.has_room_for(page, item) {
            return self.enter_delta(lane, item, page, found);
        }
        self.flush_making(Spares::ButLast)?;
        self.goes_on()?;
        self.enter_delta(lane, item, page, found)
    }

    // Takes a group of this one record, if it splits its page: its blocks are planned.
    fn take_split(&mut self, lane: usize, item: &Record, page: u32) -> Result<(), StoreFault>
        requires comes { Comes lane (item.now ∷ []) self.old holding }
        requires at { IsAt page item.now self.old }
        ensures takes { TakesGroup lane self.old result self.new holding }
        ensures leaves { GroupLeaves lane (away_in self.new) (item.now ∷ [])
            (kept_by self.old holding) result (kept_by self.new holding) }
    {
        let plan = self.plan(page, item)?;
        if self.pages.making.has_room(plan.blocks.as_slice()) {
            return self.enter(lane, item, plan.page, plan.back, plan.blocks.as_slice());
        }
        self.flush_making(Spares::ButLast)?;
        let plan = self.plan(page, item)?;
        self.enter(lane, item, plan.page, plan.back, plan.blocks.as_slice())
    }

    // Takes a group of several records: all of it is planned before anything is entered.
    fn take_many(&mut self, lane: usize, group: Group) -> Result<(), StoreFault>
        requires comes { Comes lane group self.old holding }
        ensures takes { TakesGroup lane self.old result self.new holding }
        ensures leaves { GroupLeaves lane (away_in self.new) group
            (kept_by self.old holding) result (kept_by self.new holding) }
    {
        let _ = group.len(); // For the proof.
        self.goes_on()?;
        self.fetch_all(group.as_slice())?;
        let entries = self.intake.packed(lane, &group)?;
        match self.draft(lane, group.as_slice(), entries.as_slice())? {
            Some(draft) => self.enter_all(lane, group, entries, &draft),
            None => self.take_behind(lane, group, entries),
        }
    }

    // Takes a group of several records, if the frame in the making has no room for all of it: that
    // frame is appended first.
    fn take_behind(
        &mut self,
        lane: usize,
        group: Group,
        entries: Vec<PackedEntry>,
    ) -> Result<(), StoreFault>
        requires comes { Comes lane group self.old holding }
        requires packed { IsPacked lane group entries.items self.old }
        requires works { (kept_by self.old holding).log.is_failed ≡ false }
        requires room { HasPages self.old.pages.leaves.m self.old.pages.leaves.leaves group }
        requires full { Fits (kept_by self.old holding) group → ⊥ }
        ensures takes { TakesGroup lane self.old result self.new holding }
        ensures leaves { GroupLeaves lane (away_in self.new) group
            (kept_by self.old holding) result (kept_by self.new holding) }
    {
        let _ = group.len(); // For the proof.
        self.flush_making(Spares::ButLast)?;
        match self.draft(lane, group.as_slice(), entries.as_slice())? {
            Some(draft) => self.enter_all(lane, group, entries, &draft),
            None => unreachable!(),
        }
    }

    // Whether a lane has a group to give, if need be by a look at its ring.
    fn look(&mut self, lane: usize) -> bool
        requires { lane < length self.old.intake.lanes.items }
        ensures same { kept_by self.new holding ≡ kept_by self.old holding }
        ensures count { length self.new.intake.lanes.items ≡ length self.old.intake.lanes.items }
        ensures waits { IsTrue result → IsWaiting self.new.intake.lanes.items lane }
        ensures none { result ≡ false → Dries lane self.old.intake.lanes.items
            self.new.intake.lanes.items }
        ensures knows { KnowMore self.old.intake.lanes.items self.new.intake.lanes.items }
        ensures noted { noted_of self.new ≡ noted_of self.old }
    {
        self.intake.finds(lane)
    }

    // Whether there is a frame for a further record.
    pub(crate) fn goes_on(&self) -> Result<(), StoreFault>
        requires sound { IsSound self.now holding }
        ensures works { OnOk result ((kept_by self.now holding).log.is_failed ≡ false) }
        ensures frame { OnOk result (HasFrame self.now holding) }
        ensures refused { IfErr result (IsStopped (kept_by self.now holding)) }
    {
        if self.log.is_failed() {
            return Err(StoreFault::Failed);
        }
        match self.log.next_frame() {
            Some(_) => Ok(()),
            None => Err(StoreFault::Spent),
        }
    }

    // What a record of this page adds, if there is a frame for it.
    fn plan(&self, page: u32, item: &Record) -> Result<Plan, StoreFault>
        requires sound { IsSound self.now holding }
        requires at { IsAt page item.now self.now }
        ensures works { OnOk result ((kept_by self.now holding).log.is_failed ≡ false) }
        ensures frame { OnOk result (HasFrame self.now holding) }
        ensures plan { IfOk result (IsPlan (kept_by self.now holding) item.now) }
        ensures lawful { IfOk result (λ p. AllByRecursion (IsBlock 32) (listed p.blocks)
            × (length (listed p.blocks) ≤ 2)) }
        ensures short { IfOk result (λ p. length (body_bytes (listed p.blocks)) ≤ 12000) }
        ensures refused { IfErr result
            (IsUnplanned (kept_by self.now holding) (item.now ∷ [])) }
    {
        self.goes_on()?;
        let _ = item.key(); // For the proof.
        let _ = self.pages.making.room(); // For the proof.
        let here = place_for(&self.pages.making, page);
        let alloc = *self.seals.cuts.allocator();
        let plan = planned_for(
            alloc,
            &self.pages.leaves,
            &self.pages.newest,
            here,
            page,
            item,
        )?;
        Ok(plan)
    }
}

// The record of a group of one, or the group.
fn alone(group: Group) -> Result<Record, Group>
    ensures { MatchResult result (λ item. item ∷ [] ≡ group)
        (λ back. (back ≡ group) × (2 ≤ length group) × (length group ≤ 4)) }
{
    if group.len() > 1 {
        return Err(group);
    }
    match group.into_items() {
        Items::One([item]) => Ok(item),
        _ => unreachable!(),
    }
}
