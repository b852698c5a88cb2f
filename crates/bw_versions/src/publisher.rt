//! The writer of a store's versions, with the book of its batches.
//!
//! A batch is entered in the book before the writer takes it, so one whose publication is refused
//! is kept, and the next publication brings it, as a batch of its own.

ghost use Rattle.std.specs.Prelude.{◌≡◌, ◌↔◌, ◌++◌, ◌∷◌, ◌<◌, ◌-◌, ◌^◌, [], Some, None, Err, IsOk, IsTrue, IfOk, OnOk, OnErr, IfErr, drop};
ghost use mathlib.Core.List.{IsPrefix};
ghost use Rattle.bw_versions.specs.Sending.{waiting_of};
ghost use Rattle.bw_versions.specs.Refusals.{WasKept};

use crate::board::{Batch, blank};
use crate::book::{Front, Head, open};
use crate::reader::{News, ReadFault, Reader};
use crate::writer::{Operation, VersionWriter, informed, publish};
use core::mem::replace_with;
use left_right::writer::Writer;
use std::alloc::{AllocError, Global};
use std::marker::Model;
use std::sync::Wait;

/// More batches than a book has numbers for, or than any run enters.
const MOST: u64 = 1 << 62;

/// There was no memory for a publication.
#[derive(Drop)]
pub enum Unpublished {
    /// The batch is in the book: the next publication brings it.
    Entered,
    /// The batch comes back.
    Back(Batch),
}

// Gives the writer the operation that waits.
fn hand_over(writer: &mut VersionWriter, waiting: &mut Option<Operation>) -> Result<(), AllocError>
    ensures desk { writer.new.desk ≡ writer.old.desk }
    ensures all { drop writer.new.behind writer.new.log.items ++ waiting_of waiting.new
        ≡ drop writer.old.behind writer.old.log.items ++ waiting_of waiting.old }
    ensures ok { OnOk result (waiting.new ≡ None) }
{
    match waiting.take() {
        Some(operation) => match writer.append(operation) {
            Ok(()) => Ok(()),
            Err(operation) => {
                *waiting = Some(operation);
                Err(AllocError)
            }
        },
        None => Ok(()),
    }
}

// Enters a batch in the book. It comes back if the book has more than was seen, which it never has:
// its word is here only.
fn enter(head: &Head, front: &mut Front, batch: Batch) -> Result<Operation, Batch>
    requires { head.now.word.book ≡ front.old.book }
    ensures entered { IfOk result (λ o. (o.batch ≡ batch) × (o.mark ≡ front.new)
        × (front.new ≡ record front.old { log = front.old.log ++ batch ∷ [] })) }
    ensures back { IfErr result (λ b. (b ≡ batch) × (front.new ≡ front.old)) }
{
    if front.len() >= MOST {
        return Err(batch);
    }
    let mut next = front.again();
    if !next.add(head, &batch) {
        return Err(batch);
    }
    *front = next.again();
    Ok(Operation { batch, mark: next })
}

// Enters a batch in the book, and lets its operation wait.
fn post(
    head: &Head,
    front: &mut Front,
    waiting: &mut Option<Operation>,
    batch: Batch,
) -> Result<(), Batch>
    requires head { head.now.word.book ≡ front.old.book }
    requires none { waiting.old ≡ None }
    ensures ok { OnOk result
        ((front.new ≡ record front.old { log = front.old.log ++ batch ∷ [] })
        × (waiting.new ≡ Some (record { batch = batch; mark = front.new }))) }
    ensures err { OnErr result ((front.new ≡ front.old) × (waiting.new ≡ None)) }
    ensures back { IfErr result (λ b. b ≡ batch) }
{
    match enter(head, front, batch) {
        Ok(operation) => {
            *waiting = Some(operation);
            Ok(())
        }
        Err(batch) => Err(batch),
    }
}

/// What a store publishes by. It is ended only by `shut`.
pub struct Publisher {
    writer: VersionWriter,
    head: Head,
    /// The beginning of the book, for new readers.
    origin: Front,
    /// All that the book has.
    front: Front,
    /// What the writer could not take yet.
    waiting: Option<Operation>,
    /// How many readers may still be made.
    places: usize,
}

impl Model for Publisher {
    ghost use Rattle.bw_versions.specs.Publishing.{Publishing};

    ghost Value = { Publishing };

    ghost use Rattle.bw_versions.specs.Sending.{publishing, IsSent};

    ghost view = { publishing };

    ghost invariant = { IsSent };
}

impl Publisher {
    /// Nothing is published, and so many readers may be made. A refused growth is the only error.
    pub fn open<R: Wait>(rt: &R, alloc: Global, places: usize) -> Result<Publisher, AllocError>
        requires { (0 < places) × (places < 2 ^ 32) }
        ensures nothing { IfOk result (λ p. (p.published.log ≡ []) × (p.entered ≡ p.published)
            × (p.waits ≡ None)) }
        ensures places { IfOk result (λ p. p.places ≡ places) }
    {
        let (head, origin) = open();
        let front = origin.again();
        let first = blank(alloc, &origin);
        let second = blank(alloc, &origin);
        let writer: VersionWriter = Writer::new(alloc, first, second, places)?;
        // From this empty publication on the writer knows its book. It waits for nobody.
        let (writer, begun) = publish(writer, rt);
        match begun {
            Ok(()) => Ok(Publisher {
                writer,
                head,
                origin,
                front,
                waiting: None,
                places,
            }),
            Err(_) => {
                drop(writer.take(rt));
                Err(AllocError)
            }
        }
    }

    /// Publishes what was refused before, and then this batch, all at once. It may wait for
    /// readers. A refused growth is the only error.
    pub fn publish<R: Wait>(&mut self, rt: &R, batch: Batch) -> Result<(), Unpublished>
        ensures same { (self.new.entered.book ≡ self.old.entered.book)
            × (self.new.places ≡ self.old.places) }
        ensures added { OnOk result
            ((self.new.published.log ≡ self.old.entered.log ++ batch ∷ [])
            × (self.new.entered ≡ self.new.published)) }
        ensures grows { OnOk result (IsPrefix self.old.published.log self.new.published.log) }
        ensures unchanged { OnErr result (self.new.published ≡ self.old.published) }
        ensures kept { IfErr result
            (WasKept batch self.old.entered.log self.new.entered.log) }
    {
        if self.send().is_err() {
            return Err(Unpublished::Back(batch));
        }
        if let Err(batch) = self.note(batch) {
            return Err(Unpublished::Back(batch));
        }
        if self.send().is_err() || self.show(rt).is_err() {
            return Err(Unpublished::Entered);
        }
        Ok(())
    }

    /// Publishes what was refused before; if nothing was, nothing is done. It may wait for readers.
    /// A refused growth is the only error.
    pub fn catch_up<R: Wait>(&mut self, rt: &R) -> Result<(), AllocError>
        ensures same { (self.new.entered ≡ self.old.entered)
            × (self.new.places ≡ self.old.places) }
        ensures added { OnOk result (self.new.published ≡ self.old.entered) }
        ensures grows { OnOk result (IsPrefix self.old.published.log self.new.published.log) }
        ensures unchanged { OnErr result (self.new.published ≡ self.old.published) }
        ensures idle { self.old.published.log ≡ self.old.entered.log
            → (self.new ≡ self.old) × IsOk result }
    {
        if self.is_level() {
            return Ok(());
        }
        self.send()?;
        self.show(rt)
    }

    /// What is published. No memory is taken.
    pub fn news(&self) -> News
        ensures told { result ≡ self.now.published }
        ensures own { result.book ≡ self.now.entered.book }
    {
        self.is_behind();
        News::of(self.writer.published().mark.again())
    }

    /// One more reader, which saw nothing.
    pub fn reader(&mut self) -> Result<Reader, ReadFault>
        ensures made { IfOk result (λ r. r ≡ record {
          book = self.old.entered.book;
          seen = [];
          learnt = [];
        }) }
        ensures same { self.new ≡ record self.old { places = self.new.places } }
        ensures place { OnOk result (self.new.places ≡ self.old.places - 1) }
        ensures no_reader { (result ≡ Err ReadFault.NoReader) ↔ (self.old.places ≡ 0) }
        ensures unchanged { OnErr result (self.new ≡ self.old) }
    {
        let Publisher {
            writer,
            head: _,
            origin,
            front: _,
            waiting: _,
            places,
        } = self;
        if *places == 0 {
            return Err(ReadFault::NoReader);
        }
        let Ok(inner) = informed(writer) else {
            return Err(ReadFault::NoMemory);
        };
        *places -= 1;
        Ok(Reader::new(inner, origin))
    }

    /// Ends the versions. It may wait for readers; from then on they are refused.
    pub fn shut<R: Wait>(self, rt: &R) {
        let Publisher {
            writer,
            head: _head,
            origin: _origin,
            front: _front,
            waiting: _waiting,
            places: _,
        } = self;
        drop(writer.take(rt));
    }

    // The operation that waits goes to the writer.
    fn send(&mut self) -> Result<(), AllocError>
        ensures same { (self.new.published ≡ self.old.published)
            × (self.new.entered ≡ self.old.entered) × (self.new.places ≡ self.old.places) }
        ensures ok { OnOk result (self.new.waits ≡ None) }
    {
        let Publisher {
            writer,
            head: _,
            origin: _,
            front: _,
            waiting,
            places: _,
        } = self;
        hand_over(writer, waiting)
    }

    // A batch enters the book, and its operation waits.
    fn note(&mut self, batch: Batch) -> Result<(), Batch>
        requires { self.old.waits ≡ None }
        ensures same { (self.new.published ≡ self.old.published)
            × (self.new.places ≡ self.old.places) }
        ensures ok { OnOk result (self.new.entered
            ≡ record self.old.entered { log = self.old.entered.log ++ batch ∷ [] }) }
        ensures err { OnErr result (self.new.entered ≡ self.old.entered) }
        ensures back { IfErr result (λ b. b ≡ batch) }
    {
        let Publisher {
            writer: _,
            head,
            origin: _,
            front,
            waiting,
            places: _,
        } = self;
        post(head, front, waiting, batch)
    }

    // The writer shows all that it has.
    fn show<R: Wait>(&mut self, rt: &R) -> Result<(), AllocError>
        requires { self.old.waits ≡ None }
        ensures same { (self.new.entered ≡ self.old.entered)
            × (self.new.places ≡ self.old.places) }
        ensures ok { OnOk result (self.new.published ≡ self.old.entered) }
        ensures behind { IsPrefix self.old.published.log self.old.entered.log }
        ensures err { OnErr result (self.new.published ≡ self.old.published) }
    {
        self.is_behind();
        let Publisher {
            writer,
            head: _,
            origin: _,
            front: _,
            waiting: _,
            places: _,
        } = self;
        replace_with(writer, rt, |writer, rt| publish(writer, rt))
    }

    // What is published is a beginning of what the book has.
    fn is_behind(&self)
        ensures book { self.now.published.book ≡ self.now.entered.book }
        ensures log { IsPrefix self.now.published.log self.now.entered.log }
    {
        let _front = &self.front;
    }

    // Whether all that the book has is published.
    fn is_level(&self) -> bool
        ensures level { IsTrue result → self.now.published ≡ self.now.entered }
        ensures only_level { self.now.published.log ≡ self.now.entered.log → IsTrue result }
    {
        self.is_behind();
        self.writer.published().mark.len() == self.front.len()
    }
}
