//! A group of several records: all of it is planned, and then all of it is entered.
//!
//! What a record adds to the frame depends on the records before it: it may stand on a page that
//! one of these makes, or join the Delta of one. But no page may change before it is sure that the
//! whole group fits the frame. So the group is drafted on what the records before would leave:
//! `Leaves::steps` applies all but the last to the pages, notes what each did, and takes them back.
//! The work in the pages comes twice; a draft is only blocks and places, and is thrown away if they
//! do not fit.

ghost use Rattle.std.specs.Prelude.{ℕ, ◌≡◌, ◌<◌, ◌+◌, Some, true, false, List, length, take, IfOk, IfErr, OnOk, OnErr, MatchOption};
ghost use Rattle.std.specs.List.{AllByRecursion};
ghost use Rattle.bw_record.specs.Lawful.{IsOp};
ghost use Rattle.bw_record.specs.Record.{key_of};
ghost use Rattle.bw_history.specs.Entries.{records as records_of};
ghost use Rattle.bw_page.specs.Batch.{AreHere, steps_of};
ghost use Rattle.bw_log.specs.Reads.{HoldsPage};
ghost use Rattle.bw_page.specs.Leaves.{directed_at, HasPages};
ghost use Rattle.bw_page.specs.Shown.{IsHere};
ghost use Rattle.bw_ring.specs.Marks.{marked};
ghost use Rattle.bw_core.specs.Drafting.{IsAhead, IsDraft, Stands};
ghost use Rattle.bw_core.specs.Fitting.{Fits};
ghost use Rattle.bw_core.specs.Reading.{HasRead, ReadLeaves};
ghost use Rattle.bw_core.specs.Taken.{taken_all};
ghost use Rattle.bw_core.specs.Taking.{FetchLeaves, IsUnplanned, IsWanting};

use crate::store::Core;
use bw_codec::Record;
use bw_history::PackedEntry;
use bw_making::{Draft, apply_entries, copy_of, file_all, guessed, steps_in};
use bw_page::Step;
use bw_ring::Group;
use bw_terms::StoreFault;
use std::alloc::AllocError;

impl Core {
    ghost use Rattle.bw_core.specs.Takes.{Comes, HasFrame, IsPacked, TakesGroup};
    ghost use Rattle.bw_core.specs.Going.{KeepsIntake};
    ghost use Rattle.bw_core.specs.Views.{away_in, kept_by, IsSound};

    /// Brings back the pages of all records of a group, before it is planned. A page that one of
    /// them makes comes out of a page that is then in memory.
    pub(crate) fn fetch_all(&mut self, records: &[Record]) -> Result<(), StoreFault>
        requires sound { IsSound self.old holding }
        ensures keeps { KeepsIntake self.old self.new holding }
        ensures here { OnOk result (AreHere self.new.pages.leaves records.now) }
        ensures lawful { OnOk result (AllByRecursion IsOp records.now) }
        ensures leaves { FetchLeaves (away_in self.new) records.now (kept_by self.old holding)
            result (kept_by self.new holding) }
    {
        'records: for at in 0..records.len() {
            self.fetch_one(&records[at])?;
        }
        let _ = self.pages.leaves.count(); // For the proof.
        Ok(())
    }

    // Brings back the page of one record, if it is evicted.
    fn fetch_one(&mut self, item: &Record) -> Result<(), StoreFault>
        requires sound { IsSound self.old holding }
        ensures keeps { KeepsIntake self.old self.new holding }
        ensures here { OnOk result (IsHere (key_of item.now) self.new.pages.leaves) }
        ensures others { OnOk result ((key : List ℕ) → IsHere key self.old.pages.leaves
            → IsHere key self.new.pages.leaves) }
        ensures lawful { IsOp item.now }
        ensures read { HasRead (kept_by self.old holding) (kept_by self.new holding) }
        ensures away { OnErr result (away_in self.new
            (directed_at (kept_by self.old holding).filed.leaves item.now) ≡ true) }
        ensures leaves { ReadLeaves (HoldsPage (kept_by self.old holding).log
            (directed_at (kept_by self.old holding).filed.leaves item.now))
            (kept_by self.old holding) result (kept_by self.new holding) }
    {
        let _ = self.fetch(item.key())?;
        Ok(())
    }

    /// What a group adds to the frame in the making, or `None` if it does not fit there whole.
    pub(crate) fn draft(
        &mut self,
        lane: usize,
        records: &[Record],
        entries: &[PackedEntry],
    ) -> Result<Option<Draft>, StoreFault>
        requires sound { IsSound self.old holding }
        requires inside { lane < length self.old.intake.lanes.items }
        requires entries { records_of entries.now ≡ records.now }
        requires here { AreHere self.old.pages.leaves records.now }
        requires lawful { AllByRecursion IsOp records.now }
        ensures keeps { KeepsIntake self.old self.new holding }
        ensures same { kept_by self.new holding ≡ kept_by self.old holding }
        ensures pages { self.new.pages.leaves ≡ self.old.pages.leaves }
        ensures works { OnOk result ((kept_by self.old holding).log.is_failed ≡ false) }
        ensures unsealed { OnOk result (self.new.pages.making.is_sealed ≡ false) }
        ensures next { OnOk result ((kept_by self.new holding).log.next
            ≡ Some self.new.pages.making.frame) }
        ensures room { OnOk result
            (HasPages self.old.pages.leaves.m self.old.pages.leaves.leaves records.now) }
        ensures draft { IfOk result (λ o. MatchOption o
            (Fits (kept_by self.old holding) records.now → ⊥)
            (IsDraft (kept_by self.old holding) records.now)) }
        ensures refused { IfErr result
            (IsUnplanned (kept_by self.old holding) records.now) }
    {
        self.goes_on()?;
        let steps = steps_in(&mut self.pages.leaves, records, entries)?;
        Ok(self.lay(lane, records, steps.as_slice())?)
    }

    // What a group adds to the frame in the making, from what its records do to the pages; `None`
    // if it does not fit there whole.
    fn lay(
        &self,
        lane: usize,
        records: &[Record],
        steps: &[Step],
    ) -> Result<Option<Draft>, AllocError>
        requires sound { IsSound self.now holding }
        requires inside { lane < length self.now.intake.lanes.items }
        requires works { (kept_by self.now holding).log.is_failed ≡ false }
        requires next { (kept_by self.now holding).log.next ≡ Some self.now.pages.making.frame }
        requires lawful { AllByRecursion IsOp records.now }
        requires room { HasPages self.now.pages.leaves.m self.now.pages.leaves.leaves records.now }
        requires steps { steps.now ≡ steps_of self.now.pages.leaves records.now }
        ensures { IfOk result (λ o. MatchOption o
            (Fits (kept_by self.now holding) records.now → ⊥)
            (IsDraft (kept_by self.now holding) records.now)) }
    {
        let mut draft = Draft::new(*self.seals.cuts.allocator(), &self.pages.making);
        let _ = self.pages.making.room(); // For the proof.
        'records: for at in 0..records.len() {
            if !self.lay_one(lane, &mut draft, records, steps, at)? {
                return Ok(None);
            }
        }
        Ok(Some(draft))
    }

    // Adds to the draft what one record of a group adds, after those before it; answers whether
    // there is room so far.
    fn lay_one(
        &self,
        lane: usize,
        draft: &mut Draft,
        records: &[Record],
        steps: &[Step],
        at: usize,
    ) -> Result<bool, AllocError>
        requires inside { lane < length self.now.intake.lanes.items }
        requires lawful { AllByRecursion IsOp records.now }
        requires room { HasPages self.now.pages.leaves.m self.now.pages.leaves.leaves records.now }
        requires steps { steps.now ≡ steps_of self.now.pages.leaves records.now }
        requires at { at < length records.now }
        requires stands { Stands (kept_by self.now holding) lane (take at records.now) }
        requires ahead { IsAhead (kept_by self.now holding) (take at records.now) draft.old }
        ensures full { IfOk result (λ fits. fits ≡ false
            → Fits (kept_by self.now holding) records.now → ⊥) }
        ensures stands { IfOk result (λ fits. fits ≡ true
            → Stands (kept_by self.now holding) lane (take (at + 1) records.now)) }
        ensures ahead { IfOk result (λ fits. fits ≡ true
            → IsAhead (kept_by self.now holding) (take (at + 1) records.now) draft.new) }
    {
        let step = &steps[at];
        let upper = copy_of(&step.upper)?;
        draft.add(
            &self.pages.making,
            &self.pages.newest,
            &records[at],
            step.page,
            upper,
        )?;
        Ok(self.pages.making.has_room(draft.blocks.as_slice()))
    }

    /// Enters a group whose draft fits the frame in the making: all growths come first.
    pub(crate) fn enter_all(
        &mut self,
        lane: usize,
        group: Group,
        entries: Vec<PackedEntry>,
        draft: &Draft,
    ) -> Result<(), StoreFault>
        requires comes { Comes lane group self.old holding }
        requires packed { IsPacked lane group entries.items self.old }
        requires frame { HasFrame self.old holding }
        requires draft { IsDraft (kept_by self.old holding) group draft.now }
        ensures takes { TakesGroup lane self.old result self.new holding }
        ensures ok { OnOk result (kept_by self.new holding
            ≡ taken_all (kept_by self.old holding) lane (marked group)) }
        ensures unchanged { OnErr result (kept_by self.new holding ≡ kept_by self.old holding) }
        ensures refused { IfErr result (IsWanting (kept_by self.old holding) group) }
    {
        let rows = draft.rows.as_slice();
        let _ = self.pages.leaves.count(); // For the proof.
        self.intake.reserve()?;
        self.pages.newest.reserve(group.len())?;
        apply_entries(&mut self.pages.leaves, group.as_slice(), entries.as_slice())?;
        file_all(
            &mut self.pages.making,
            &mut self.pages.newest,
            rows,
            draft.blocks.as_slice(),
        );
        self.intake.enter(lane, &group, guessed(entries, rows));
        Ok(())
    }
}
