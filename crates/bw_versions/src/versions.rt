//! What a store publishes: its start leaves, and its history up to the durable cut.
//!
//! Nothing is shown that a crash could take back: a reader that acted on such a value would have
//! seen what never was. So a batch ends at a cut that is durable, and has all entries up to it. A
//! publication that is refused memory may have entered its batch in the book already; it is counted
//! as entered then, or the next one would bring the same entries again.

ghost use Rattle.std.specs.Prelude.{◌≡◌, ◌↔◌, ◌+◌, ◌≤◌, ◌-◌, [], Some, Err, IsOk, IfOk, OnOk, OnErr, length};
ghost use mathlib.Core.List.{IsPrefix};
ghost use Rattle.bw_versions.specs.Batches.{entries_of};
ghost use Rattle.bw_versions.specs.Posted.{posted_of};
ghost use Rattle.bw_versions.specs.Versioned.{EntersWhole, IsUpTo, history_of};

use crate::board::Batch;
use crate::publisher::{Publisher, Unpublished};
use crate::reader::{News, ReadFault, Reader};
use bw_history::PackedEntry;
use bw_page::{Leaves, Start};
use std::alloc::{AllocError, Global};
use std::marker::Model;
use std::snapshot::Snapshot;
use std::sync::Wait;

/// What a store publishes by. The history is the store's: of the entries published nothing is kept
/// but how many they are. It is ended only by `shut`.
pub struct Versions {
    alloc: Global,
    publisher: Publisher,
    /// The start leaves, until the book has them.
    start: Option<Start>,
    /// How many entries of the history the book has.
    count: usize,
    /// The start leaves, which only the proof knows.
    began: Snapshot<Start>,
}

impl Model for Versions {
    ghost use Rattle.bw_versions.specs.Versioned.{Versioned};

    ghost Value = { Versioned };

    ghost use Rattle.bw_versions.specs.Holds.{versioned, IsHeld};

    ghost view = { versioned };

    ghost invariant = { IsHeld };
}

impl Versions {
    /// Nothing is published, and so many readers may be made, 1 to 64. The leaves at which the
    /// store starts, all of them in memory, wait for the first publication. A refused growth is
    /// the only error.
    pub fn open<R: Wait>(
        rt: &R,
        alloc: Global,
        places: usize,
        start: Leaves,
    ) -> Result<Versions, AllocError>
        requires places { (1 ≤ places) × (places ≤ 64) }
        requires here { start.evicted ≡ [] }
        ensures start { IfOk result (λ v. v.start ≡ start) }
        ensures nothing { IfOk result (λ v. (v.published ≡ []) × (v.entered ≡ [])) }
        ensures places { IfOk result (λ v. v.places ≡ places) }
    {
        Versions::open_at(rt, alloc, places, Start::of(start))
    }

    /// Versions of a store that starts at these leaves, which wait already.
    pub fn open_at<R: Wait>(
        rt: &R,
        alloc: Global,
        places: usize,
        start: Start,
    ) -> Result<Versions, AllocError>
        requires places { (1 ≤ places) × (places ≤ 64) }
        requires here { start.evicted ≡ [] }
        ensures start { IfOk result (λ v. v.start ≡ start) }
        ensures nothing { IfOk result (λ v. (v.published ≡ []) × (v.entered ≡ [])) }
        ensures places { IfOk result (λ v. v.places ≡ places) }
    {
        let publisher = Publisher::open(rt, alloc, places)?;
        let began = Snapshot::of(&start);
        Ok(Versions {
            alloc,
            publisher,
            start: Some(start),
            count: 0,
            began,
        })
    }

    /// How many entries the book has, those of a refused publication included. No memory is taken.
    pub fn entered(&self) -> usize
        ensures { result ≡ length (entries_of self.now.entered) }
    {
        self.count
    }

    /// Publishes the history up to `end`, all of it at once. `fresh` are its entries that the book
    /// does not have: they are one batch, and the first also brings the start leaves. If nothing is
    /// new, nothing is done. Readers' copies share the bytes of the entries, and look for a record
    /// on the page that was guessed for its entry.
    ///
    /// It may wait for readers. A refused growth is the only error: then what is published stays,
    /// and the next call brings it. A call costs what the new entries cost to apply, and no page
    /// is copied; the first one that succeeds costs all pages of the start.
    pub fn publish_up_to<R: Wait>(
        &mut self,
        rt: &R,
        end: usize,
        fresh: &[PackedEntry],
    ) -> Result<(), AllocError>
        requires { length (entries_of self.old.entered) + length fresh.now ≡ end }
        ensures begins { IsPrefix (entries_of self.new.entered) (history_of self.old fresh.now) }
        ensures whole { EntersWhole self.old.entered self.new.entered
            (history_of self.old fresh.now) }
        ensures same { (self.new.start ≡ self.old.start) × (self.new.book ≡ self.old.book)
            × (self.new.places ≡ self.old.places) }

        ensures published { OnOk result (posted_of self.new.published
            ≡ Some (record { start = self.old.start; entries = history_of self.old fresh.now })) }
        ensures all { OnOk result (IsUpTo self.new (history_of self.old fresh.now)) }
        ensures grows { OnOk result (IsPrefix self.old.published self.new.published) }

        ensures idle { IsUpTo self.old (history_of self.old fresh.now)
            → (self.new ≡ self.old) × IsOk result }
        ensures unchanged { OnErr result (self.new.published ≡ self.old.published) }
    {
        let Versions {
            alloc,
            publisher,
            start,
            count,
            began: _,
        } = self;
        if start.is_none() && fresh.is_empty() {
            return publisher.catch_up(rt);
        }
        let entries = copies(*alloc, fresh)?;
        let batch = Batch::of(start.take(), entries);
        match publisher.publish(rt, batch) {
            Ok(()) => {
                *count = end;
                Ok(())
            }
            Err(Unpublished::Entered) => {
                *count = end;
                Err(AllocError)
            }
            Err(Unpublished::Back(batch)) => {
                *start = batch.into_start();
                Err(AllocError)
            }
        }
    }

    /// What is published. No memory is taken.
    pub fn news(&self) -> News
        ensures { result ≡ record { book = self.now.book; log = self.now.published } }
    {
        self.publisher.news()
    }

    /// One more reader, which saw nothing.
    ///
    /// Refused `NoReader` exactly if no place is left: a dropped reader frees none. Else a refused
    /// growth is the only error.
    pub fn reader(&mut self) -> Result<Reader, ReadFault>
        ensures made { IfOk result (λ r.
            r ≡ record { book = self.old.book; seen = []; learnt = [] }) }
        ensures same { self.new ≡ record self.old { places = self.new.places } }
        ensures place { OnOk result (self.new.places ≡ self.old.places - 1) }
        ensures no_reader { (result ≡ Err ReadFault.NoReader) ↔ (self.old.places ≡ 0) }
        ensures unchanged { OnErr result (self.new ≡ self.old) }
    {
        self.publisher.reader()
    }

    /// Ends the versions. It may wait for readers; from then on they are refused.
    pub fn shut<R: Wait>(self, rt: &R) {
        let Versions {
            alloc: _,
            publisher,
            start: _start,
            count: _,
            began: _began,
        } = self;
        publisher.shut(rt);
    }
}

// Copies of these entries, which share their bytes.
fn copies(alloc: Global, entries: &[PackedEntry]) -> Result<Vec<PackedEntry>, AllocError>
    ensures { IfOk result (λ v. v.items ≡ entries.now) }
{
    let mut all = Vec::with_capacity(alloc, entries.len())?;
    for entry in entries {
        all.push(entry.copy()?)?;
    }
    Ok(all)
}
