//! Records applied as one: what takes each of them back is kept until the last is applied.
//!
//! A record that adds no pair takes back most of them: a put of the key's old value, or a delete of
//! a key that had none. To put back a pair that was removed might take memory; there the pair is
//! kept, and room for all pairs of its page. A page that was split is joined again in room that was
//! made before the split.

ghost use Rattle.std.specs.Prelude.{◌≡◌, ◌≤◌, ◌<◌, ◌+◌, [], length, map, vec_len, is_none, is_some, IfOk, IfSome, IsOk, IsErr, OnOk, OnErr, ◌⊎◌};
ghost use Rattle.std.specs.Vec.{vec_capacity};
ghost use Rattle.bw_record.specs.Lawful.{IsOp};
ghost use Rattle.bw_record.specs.Record.{key_of};
ghost use Rattle.std.specs.FinMap.Entries.{find};
ghost use Rattle.bw_leaf.specs.Changed.{order};
ghost use Rattle.bw_page.specs.Leaves.{home, HasPage, HasPages, directed_at, result_of, union, plain};
ghost use Rattle.bw_leaf.specs.Seek.{back_of};
ghost use Rattle.bw_page.specs.Shown.{IsSpent, after_record, run, IsHere};
ghost use Rattle.bw_page.specs.Journal.{displaced_by, undo_of, undone, all_undone, GoesBack, IsJournal, IsNewest};
ghost use Rattle.bw_page.specs.Batch.{SomeIsSpent, AreHere, upper_if, step_of, steps_of};
ghost use Rattle.bw_page.specs.Aim.{IsAim};

use super::Leaves;
use crate::fault::ApplyError;
use crate::gap::pass;
use crate::index::take_above;
use crate::journal::{Displaced, Undo};
use bw_codec::{Leaf, Packed};
use bw_leaf::{Halves, change_packed, count_packed, find_key, removes, split_in_two};
use std::alloc::AllocError;

/// A value in which a record stands.
pub trait HasRecord {
    ghost use Rattle.bw_record.specs.declared.record.Record.{Record as RecordValue};

    ghost record_of: { Self → RecordValue };

    /// The record.
    fn record(&self) -> &Packed
        ensures { result.now ≡ record_of self.now };

    /// The page at which the record may be directed, which is looked at first. Nothing is known of
    /// it: any number may be given, and 0 is that of no page.
    fn guess(&self) -> u32;
}

impl HasRecord for Packed {
    ghost record_of = { λ r. r };

    fn record(&self) -> &Packed {
        self
    }

    fn guess(&self) -> u32 {
        NO_PAGE
    }
}

/// What a record does to the pages.
#[derive(Drop)]
pub struct Step {
    /// The page at which it is directed.
    pub page: u32,
    /// The page that it makes, if that one is split in two.
    pub upper: Option<Leaf>,
}

/// The number of no page.
const NO_PAGE: u32 = 0;

impl Leaves {
    /// Applies records one after the other, all or none: a refusal changes nothing.
    ///
    /// Beside what `apply` costs, it costs for each record that removes a pair room for the pairs
    /// of its page, held until the end.
    pub fn apply_all(&mut self, records: &[Packed]) -> Result<(), ApplyError>
        requires { self.old.evicted ≡ [] }
        ensures ok { OnOk result (self.new ≡ run self.old records.now) }
        ensures plain { OnOk result (union self.new.leaves ≡ plain self.old.leaves records.now) }

        // It answers `Spent` only if one of the records needs a page number that does not exist,
        // and is refused whenever one does: perhaps for want of memory before that record.
        ensures spent { SomeIsSpent self.old records.now → IsErr result }
        ensures only_spent { result ≡ Err ApplyError.Spent → SomeIsSpent self.old records.now }
        ensures unchanged { OnErr result (self.new ≡ self.old) }
    {
        self.apply_all_of(records)
    }

    /// Applies the records that stand in these values, one after the other, all or none, if the
    /// page of each is in memory when its turn comes. None of the records is copied. Each is looked
    /// for on the page that was guessed for it, as by `apply_hinted`.
    pub fn apply_all_of<T: HasRecord>(&mut self, items: &[T]) -> Result<(), ApplyError>
        requires { AreHere self.old (map T.record_of items.now) }
        ensures ok { OnOk result (self.new ≡ run self.old (map T.record_of items.now)) }
        ensures plain { OnOk result (union self.new.leaves
            ≡ plain self.old.leaves (map T.record_of items.now)) }
        ensures spent { SomeIsSpent self.old (map T.record_of items.now) → IsErr result }
        ensures only_spent { result ≡ Err ApplyError.Spent
            → SomeIsSpent self.old (map T.record_of items.now) }
        ensures unchanged { OnErr result (self.new ≡ self.old) }
    {
        let _ = self.count(); // For the proof.
        let ahead = (self.read_ahead(items) % 2) as usize;
        let mut journal = Vec::with_capacity(self.leaves.allocator(), items.len().max(ahead))?;
        for item in items {
            match self.displace(item.guess(), item.record()) {
                Ok(undo) => match journal.push(undo) {
                    Ok(()) => {}
                    Err(_) => unreachable!(),
                },
                Err(error) => {
                    self.take_back(journal);
                    return Err(error);
                }
            }
        }
        Ok(())
    }

    /// What each of these records does, one after the other. The pages are left as they were: all
    /// records but the last are applied, and then taken back.
    ///
    /// Beside what `apply_all_of` costs, it costs for each page that is split a copy of that page.
    pub fn steps<T: HasRecord>(&mut self, items: &[T]) -> Result<Vec<Step>, ApplyError>
        requires { AreHere self.old (map T.record_of items.now) }
        ensures steps { IfOk result (λ steps. steps.items
            ≡ steps_of self.old (map T.record_of items.now)) }
        ensures room { OnOk result (HasPages self.old.m self.old.leaves
            (map T.record_of items.now)) }
        ensures same { self.new ≡ self.old }

        // `Spent` as of `apply_all`.
        ensures spent { SomeIsSpent self.old (map T.record_of items.now) → IsErr result }
        ensures only_spent { result ≡ Err ApplyError.Spent
            → SomeIsSpent self.old (map T.record_of items.now) }
    {
        let mut steps = Vec::with_capacity(self.leaves.allocator(), items.len())?;
        let Some((last, front)) = items.split_last() else {
            return Ok(steps);
        };
        let mut undos = Vec::with_capacity(self.leaves.allocator(), front.len())?;
        let walked = self.walk(front, &mut undos, &mut steps);
        let ended = self.end_of(walked, last);
        self.take_back(undos);
        steps.push_reserved(ended?);
        Ok(steps)
    }

    /// Applies records, and keeps what each of them does and what takes it back.
    fn walk<T: HasRecord>(
        &mut self,
        items: &[T],
        journal: &mut Vec<Undo>,
        steps: &mut Vec<Step>,
    ) -> Result<(), ApplyError>
        requires here { AreHere self.old (map T.record_of items.now) }
        requires empty { (journal.old.items ≡ []) × (steps.old.items ≡ []) }
        requires none { (vec_len journal.old ≡ 0) × (vec_len steps.old ≡ 0) }
        requires room { (length items.now ≤ vec_capacity journal.old)
            × (length items.now + 1 ≤ vec_capacity steps.old) }
        ensures back { GoesBack self.old self.new journal.new.items }
        ensures run { OnOk result (self.new ≡ run self.old (map T.record_of items.now)) }
        ensures steps { OnOk result (steps.new.items
            ≡ steps_of self.old (map T.record_of items.now)) }
        ensures more { OnOk result (vec_len steps.new < vec_capacity steps.new) }
        ensures pages { OnOk result (HasPages self.old.m self.old.leaves
            (map T.record_of items.now)) }
        ensures only_spent { result ≡ Err ApplyError.Spent
            → SomeIsSpent self.old (map T.record_of items.now) }
    {
        let _ = self.count(); // For the proof.
        for item in items {
            let change = item.record();
            steps.push_reserved(self.step(change)?);
            journal.push_reserved(self.displace(NO_PAGE, change)?);
        }
        Ok(())
    }

    /// What the last of the records does, if those before it were applied.
    fn end_of<T: HasRecord>(
        &self,
        walked: Result<(), ApplyError>,
        last: &T,
    ) -> Result<Step, ApplyError>
        requires { OnOk walked (IsHere (key_of (T.record_of last.now)) self.now) }
        ensures walked { IsErr walked → IsErr result }
        ensures step { IfOk result (λ step. step ≡ step_of self.now (T.record_of last.now)) }
        ensures room { OnOk result (HasPage self.now.m self.now.leaves (T.record_of last.now)) }
        ensures spent { IsSpent self.now (T.record_of last.now) → IsErr result }
        ensures only_spent { result ≡ Err ApplyError.Spent → (walked ≡ Err ApplyError.Spent)
            ⊎ (IsOk walked × IsSpent self.now (T.record_of last.now)) }
    {
        walked?;
        self.step(last.record())
    }

    /// What a record would do. It costs a search among the pages, and a copy of the page that it
    /// would split.
    pub fn step(&self, change: &Packed) -> Result<Step, ApplyError>
        requires { IsHere (key_of change.now) self.now }
        ensures step { IfOk result (λ step. step ≡ step_of self.now change.now) }
        ensures room { OnOk result (HasPage self.now.m self.now.leaves change.now) }
        ensures spent { IsSpent self.now change.now → result ≡ Err ApplyError.Spent }
        ensures only_spent { result ≡ Err ApplyError.Spent → IsSpent self.now change.now }
    {
        let page = self.find_packed(change);
        let upper = self.upper_of(page, change)?;
        Ok(Step { page, upper })
    }

    /// The page that a record of this page would make, if it does.
    fn upper_of(&self, page: u32, change: &Packed) -> Result<Option<Leaf>, ApplyError>
        requires here { IsHere (key_of change.now) self.now }
        requires page { page ≡ directed_at self.now.leaves change.now }
        ensures upper { IfOk result (λ upper. upper ≡ upper_if self.now.m
            (length self.now.leaves + 1) (result_of self.now.leaves change.now)) }
        ensures room { OnOk result (HasPage self.now.m self.now.leaves change.now) }
        ensures spent { IsSpent self.now change.now → result ≡ Err ApplyError.Spent }
        ensures only_spent { result ≡ Err ApplyError.Spent → IsSpent self.now change.now }
    {
        let leaf = self.home_on(page, change.key());
        let found = find_key(&leaf.pairs, change.key());
        if count_packed(leaf.pairs.as_slice(), found, change) <= usize::from(self.m) {
            return Ok(None);
        }
        let Some(made) = self.count().checked_add(1) else {
            return Err(ApplyError::Spent);
        };
        let mut whole = leaf.copy()?;
        change_packed(&mut whole, change)?;
        let Halves { lower: _, upper } = split_in_two(
            self.leaves.allocator(),
            self.m,
            whole,
            made,
        )?;
        Ok(Some(upper))
    }

    /// Applies a record, which may be directed at this page, and gives what takes it back. A
    /// refusal changes nothing.
    fn displace(&mut self, page: u32, change: &Packed) -> Result<Undo, ApplyError>
        requires { IsHere (key_of change.now) self.old }
        ensures undo { IfOk result (λ undo. undo ≡ undo_of self.old change.now) }
        ensures ok { OnOk result (self.new ≡ after_record self.old change.now) }
        ensures lawful { IsOp change.now }
        ensures room { OnOk result (HasPage self.old.m self.old.leaves change.now) }
        ensures only_spent { result ≡ Err ApplyError.Spent → IsSpent self.old change.now }
        ensures unchanged { OnErr result (self.new ≡ self.old) }
    {
        let (at, count, found) = self.aim_by(page, change);
        if count <= usize::from(self.m) {
            return Ok(self.displace_pair(at, count, found, change)?);
        }
        let (displaced, _) = self.split_page(at, count, found, change)?;
        Ok(Undo::Page(displaced))
    }

    /// Applies a record where `aim` says, which splits no page, and gives what takes it back. A
    /// refusal changes nothing.
    fn displace_pair(
        &mut self,
        at: usize,
        count: usize,
        found: Result<usize, usize>,
        change: &Packed,
    ) -> Result<Undo, AllocError>
        requires aim { IsAim self.old change.now at count found }
        requires few { count ≤ self.old.m }
        ensures undo { IfOk result (λ undo. undo ≡ undo_of self.old change.now) }
        ensures ok { OnOk result (self.new ≡ after_record self.old change.now) }
        ensures unchanged { OnErr result (self.new ≡ self.old) }
    {
        let kept = self.lost_page(at, count, found, change)?;
        match self.change_at(at, count, found, change)? {
            Some(back) => Ok(Undo::Back(back)),
            None => match kept {
                Some(displaced) => Ok(Undo::Page(displaced)),
                None => unreachable!(),
            },
        }
    }

    /// The page where `aim` says, if the record removes a pair from it.
    fn lost_page(
        &self,
        at: usize,
        count: usize,
        found: Result<usize, usize>,
        change: &Packed,
    ) -> Result<Option<Displaced>, AllocError>
        requires aim { IsAim self.now change.now at count found }
        requires few { count ≤ self.now.m }
        ensures leaf { IfOk result (λ kept. IfSome kept (λ displaced.
            displaced ≡ displaced_by self.now change.now)) }
        ensures kept { IfOk result (λ kept. is_none kept ≡ is_some (back_of change.now
            (find order (key_of change.now) (home (key_of change.now) self.now.leaves).pairs))) }
    {
        let leaf = self.leaves.get(at);
        if !removes(found, change) {
            return Ok(None);
        }
        match found {
            Ok(place) => Ok(Some(Displaced::lost(leaf, place, self.count())?)),
            Err(_) => Ok(None),
        }
    }

    /// Takes records back, the newest first. It is never refused.
    fn take_back(&mut self, journal: Vec<Undo>)
        requires { IsJournal self.old journal.items }
        ensures { self.new ≡ all_undone self.old journal.items }
    {
        let mut journal = journal;
        while let Some(undo) = journal.pop() {
            self.put_back(undo);
        }
    }

    /// Takes the newest record back. It is never refused.
    fn put_back(&mut self, undo: Undo)
        requires { IsNewest self.old undo }
        ensures { self.new ≡ undone self.old undo }
    {
        match undo {
            Undo::Back(back) => self.change_back(back),
            Undo::Page(displaced) => self.put_page_back(displaced),
        }
    }

    /// Takes the newest record back by another.
    fn change_back(&mut self, back: Packed)
        requires { IsNewest self.old (Undo.Back back) }
        ensures { self.new ≡ undone self.old (Undo.Back back) }
    {
        let (at, _, found) = self.aim(self.find_packed(&back), &back);
        pass(&mut self.gap, back.key());
        self.leaves.take_back(at, found, back);
    }

    /// Takes the newest record back by the leaf that it displaced: with the pair that it lost, or
    /// joined of its parts.
    fn put_page_back(&mut self, displaced: Displaced)
        requires { IsNewest self.old (Undo.Page displaced) }
        ensures { self.new ≡ undone self.old (Undo.Page displaced) }
    {
        pass(&mut self.gap, displaced.key());
        let upper = take_above(&mut self.leaves, &mut self.index, displaced.pages());
        let leaf = displaced.into_leaf(&mut self.leaves, upper);
        let at = leaf.page as usize - 1;
        self.leaves.set(at, leaf);
    }
}
