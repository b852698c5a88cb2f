//! The book of all batches of a store, and beginnings of it.
//!
//! A reader must never go back before what it saw or heard, and it learns that in threads that
//! share no lock. The book only grows, so whoever saw it has a beginning of it, its front, and of
//! two fronts one is a beginning of the other. That is all that a reader has to compare. The
//! batches themselves take no bytes there: what is shared is one word, which counts them.

ghost use Rattle.std.specs.Prelude.{◌≡◌, ◌+◌, ◌==◌, ◌<◌, ◌^◌, ◌++◌, ◌∷◌, [], length, MatchBool};
ghost use Rattle.bw_versions.specs.BookRule.{head_of, IsLonger};
ghost use mathlib.Core.List.{IsPrefix};

use crate::board::Batch;
use logbook::{Gain, Offer, Plain, Play, Rule, Seen, Start, Word};
use std::marker::Model;

/// The rule of the book. Clients keep nothing beside it.
pub struct Law;

impl Rule<Batch, u64> for Law {
    ghost use Rattle.std.specs.Prelude.{[]};
    ghost use base.Fml.{ftrue};
    ghost use Rattle.bw_versions.specs.BookRule.{IsKept};

    ghost holds = { IsKept };

    ghost first = { [] };

    ghost hinted = { λ n log. Unit {0} };

    ghost shows = { λ log. [] };

    ghost keeps = { λ names log. ftrue };

    ghost moves = { λ ask before after answer. Unit {0} };
}

/// An update that trades nothing.
pub struct Nothing;

impl Gain<Batch, u64> for Nothing {
    ghost use base.Fml.{ftrue};

    ghost after = { λ names about answer. ftrue };
}

/// A step that enters one batch.
pub struct Add;

impl Play<Batch, u64> for Add {
    ghost use Rattle.bw_versions.specs.BookRule.{Adds};

    ghost then = { Adds };
}

impl Plain<Batch, Batch, u64> for Add {
    ghost use Rattle.std.specs.Prelude.{None};

    ghost ask = { λ batch. batch };

    ghost state = { λ batch. None };
}

/// That the book had these batches. It takes no bytes.
pub type Mark = Seen<Batch, u64, Law>;

/// The word that counts the batches. Who has it may enter some.
#[derive(Drop)]
pub struct Head {
    pub(crate) word: Word<Batch, u64, Law>,
    ghost is_head: { word ≡ head_of word.book },
}

/// A beginning of a book's batches: how many they are, and that the book had them.
#[derive(Drop)]
pub struct Front {
    count: u64,
    seen: Mark,
}

impl Model for Front {
    ghost use Rattle.std.specs.Prelude.{◌≡◌, length};
    ghost use Rattle.bw_versions.specs.Reach.{Reach};

    ghost Value = { Reach };

    ghost view = { λ f. record { book = f.seen.book; log = f.seen.log } };

    ghost invariant = { λ f. f.count ≡ length f.seen.log };
}

/// A new book: its word, and the front that has nothing.
pub fn open() -> (Head, Front)
    ensures { (result.1.log ≡ []) × (result.0.word.book ≡ result.1.book) }
{
    let (seen, mut first, _second) = Seen::open(Start::alone(), 0, 0);
    let head = Head {
        word: Word::tracked(0, &mut first),
    };
    (head, Front { count: 0, seen })
}

impl Front {
    /// How many batches it has.
    pub fn len(&self) -> u64
        ensures { result ≡ length self.now.log }
    {
        self.count
    }

    /// A copy of this front.
    pub fn again(&self) -> Front
        ensures { result ≡ self.now }
    {
        Front {
            count: self.count,
            seen: self.seen.again(),
        }
    }

    /// Whether the other is a beginning of this one; else this one is of it.
    pub fn has(&self, other: &Front) -> bool
        requires { other.now.book ≡ self.now.book }
        ensures { MatchBool result (IsPrefix other.now.log self.now.log)
            (IsPrefix self.now.log other.now.log) }
    {
        let mut both = self.seen.again();
        both.learn(&other.seen);
        if other.count <= self.count {
            return true;
        }
        false
    }

    /// Enters a batch after all that was seen, if the book has no more.
    pub fn add(&mut self, head: &Head, batch: &Batch) -> bool
        requires room { length self.old.log < 2 ^ 62 }
        requires own { head.now.word.book ≡ self.old.book }
        ensures book { self.new.book ≡ self.old.book }
        ensures added { MatchBool result (self.new.log ≡ self.old.log ++ batch.now ∷ [])
            (IsLonger self.old.log self.new.log) }
    {
        let mut offer: Offer<Batch, u64, Law, Nothing> = self
            .seen
            .plain::<Nothing, Batch, Add>(batch);
        let mut pen = self.seen.no_pen();
        let count = self.count;
        let found = head
            .word
            .compare_exchange::<Add, Nothing>(
                count,
                count + 1,
                &mut self.seen,
                &mut offer,
                &mut pen,
            );
        self.count = if found == count { count + 1 } else { found };
        found == count
    }
}
