//! Readers, and news.
//!
//! A reader looks at the board that is shown, and the two boards change places while it asks. What
//! it saw last, and what it heard by news, are fronts of one book: an answer whose front is shorter
//! is none. Without that, a thread that heard of a record could ask for it and be shown the board
//! before.

ghost use Rattle.std.specs.Prelude.{◌≡◌, ◌⊎◌, OnOk, OnErr, IfOk, IfSome};
ghost use mathlib.Core.List.{IsPrefix};
ghost use Rattle.bw_versions.specs.Posted.{posted_of, value_in, pair_in, leaf_in, IsFirstIn, IsStretchIn};
ghost use Rattle.bw_versions.specs.Heard.{Beyond, Reads};

use crate::book::Front;
use crate::view::{Looker, NextAt, PageOf, Question, SharedOf, Stretch, VersionReader};
use bw_codec::{Key, Leaf, Pair, Value};
use core::mem::replace_with;
use std::marker::Model;
use thiserror::Error;

/// No place for a reader is left, or the reader's place was not entered.
#[derive(Debug, Clone, Copy, PartialEq, Eq, Error)]
#[error("no reader")]
pub struct NoReader;

/// Why no reader was made, or a page was not read.
#[derive(Debug, Clone, Copy, PartialEq, Eq, Error)]
pub enum ReadFault {
    /// A growth was refused.
    #[error("out of memory")]
    NoMemory,
    /// No place for a reader is left, or the reader's place was not entered.
    #[error("no reader")]
    NoReader,
}

/// What a store had published. It may go through threads.
#[derive(Drop)]
pub struct News {
    front: Front,
}

impl Model for News {
    ghost use Rattle.bw_versions.specs.Reach.{Reach};

    ghost Value = { Reach };

    ghost view = { λ n. n.front };
}

impl News {
    /// That these batches are published.
    pub(crate) fn of(front: Front) -> News
        ensures { result ≡ front }
    {
        News { front }
    }
}

/// Reads what a store published, in any thread. A call waits for nobody.
#[derive(Drop)]
pub struct ReaderOf<L: Looker> {
    inner: L,
    seen: Front,
    learnt: Front,
}

/// A store's reader. Dropped, it frees no place.
pub type Reader = ReaderOf<VersionReader>;

impl<L: Looker> Model for ReaderOf<L> {
    ghost use Rattle.std.specs.Prelude.{◌≡◌};
    ghost use Rattle.bw_versions.specs.Heard.{Heard, Beyond};

    ghost Value = { Heard };

    ghost view = { λ r. record { book = r.seen.book; seen = r.seen.log; learnt = r.learnt.log } };

    ghost invariant = { λ r. (r.learnt.book ≡ r.seen.book) × Beyond r.seen (L.knows r.inner) };
}

impl<L: Looker> ReaderOf<L> {
    /// A reader that saw what this front has.
    pub(crate) fn new(inner: L, origin: &Front) -> ReaderOf<L>
        requires { Beyond origin.now (L.knows inner) }
        ensures { result ≡ record {
          book = origin.now.book;
          seen = origin.now.log;
          learnt = origin.now.log;
        } }
    {
        ReaderOf {
            inner,
            seen: origin.again(),
            learnt: origin.again(),
        }
    }

    /// The value of a key in what was published, if it has one; before the first publication none
    /// has. No memory is taken.
    ///
    /// Refused if the reader's place was not entered: its store is shut.
    pub fn get(&mut self, key: &Key) -> Result<Option<Value>, NoReader>
        ensures reads { OnOk result (Reads self.old self.new) }
        ensures answer { IfOk result (λ v. v ≡ value_in (posted_of self.new.seen) key.now) }
        ensures unchanged { OnErr result (self.new ≡ self.old) }
    {
        let ReaderOf {
            inner,
            seen,
            learnt,
        } = self;
        let Some((value, mark)) = looked(inner, seen, learnt, key) else {
            return Err(NoReader);
        };
        *seen = mark.again();
        *learnt = mark;
        Ok(value)
    }

    /// The pair of a key, with the value that `get` finds. Its bytes are not copied, and stay in
    /// memory as long as the pair does. No memory is taken.
    ///
    /// Refused `NoReader` as `get` is, or `NoMemory` if the count of those that share the pair is
    /// full.
    pub fn get_shared(&mut self, key: &Key) -> Result<Option<Pair>, ReadFault>
        ensures reads { OnOk result (Reads self.old self.new) }
        ensures answer { IfOk result (λ pair. pair ≡ pair_in (posted_of self.new.seen) key.now) }
        ensures unchanged { OnErr result (self.new ≡ self.old) }
    {
        let ReaderOf {
            inner,
            seen,
            learnt,
        } = self;
        let Some((pair, mark)) = looked(inner, seen, learnt, &SharedOf(key)) else {
            return Err(ReadFault::NoReader);
        };
        let Ok(pair) = pair else {
            return Err(ReadFault::NoMemory);
        };
        *seen = mark.again();
        *learnt = mark;
        Ok(pair)
    }

    /// The pair with the least key at or above this one in what was published, if there is one. No
    /// memory is taken. It costs what a store's `next_at` costs.
    ///
    /// Each call reads what is published then: a walk by calls may see a later version at each
    /// step. Refused as `get` is.
    pub fn next_at(&mut self, key: &Key) -> Result<Option<(Key, Value)>, NoReader>
        ensures reads { OnOk result (Reads self.old self.new) }
        ensures answer { IfOk result (λ pair. IsFirstIn (posted_of self.new.seen) key.now pair) }
        ensures unchanged { OnErr result (self.new ≡ self.old) }
    {
        let ReaderOf {
            inner,
            seen,
            learnt,
        } = self;
        let Some((pair, mark)) = looked(inner, seen, learnt, &NextAt(key)) else {
            return Err(NoReader);
        };
        *seen = mark.again();
        *learnt = mark;
        Ok(pair)
    }

    /// The pairs at or above a key in what was published, in order and no more than so many. All
    /// are of one version: no publication comes between two of them. Their bytes are not copied,
    /// and stay in memory as long as a pair does that was found.
    ///
    /// It costs a search and a look for each page, and a look at each pair; meanwhile a publication
    /// waits. Refused `NoReader` as `get` is, or `NoMemory`.
    pub fn scan(&mut self, key: &Key, most: usize) -> Result<Vec<Pair>, ReadFault>
        ensures reads { OnOk result (Reads self.old self.new) }
        ensures answer { IfOk result (λ pairs.
            IsStretchIn (posted_of self.new.seen) key.now most pairs.items) }
        ensures unchanged { OnErr result (self.new ≡ self.old) }
    {
        let ReaderOf {
            inner,
            seen,
            learnt,
        } = self;
        let asked = Stretch { from: key, most };
        let Some((pairs, mark)) = looked(inner, seen, learnt, &asked) else {
            return Err(ReadFault::NoReader);
        };
        let Ok(pairs) = pairs else {
            return Err(ReadFault::NoMemory);
        };
        *seen = mark.again();
        *learnt = mark;
        Ok(pairs)
    }

    /// A copy of a page of what was published, if there is such a page; before the first
    /// publication there is none.
    ///
    /// Refused `NoReader` as `get` is, or `NoMemory`.
    pub fn page(&mut self, page: u32) -> Result<Option<Leaf>, ReadFault>
        ensures reads { OnOk result (Reads self.old self.new) }
        ensures answer { IfOk result (λ leaf. leaf ≡ leaf_in (posted_of self.new.seen) page) }
        ensures unchanged { OnErr result (self.new ≡ self.old) }
    {
        let ReaderOf {
            inner,
            seen,
            learnt,
        } = self;
        let Some((leaf, mark)) = looked(inner, seen, learnt, &PageOf(page)) else {
            return Err(ReadFault::NoReader);
        };
        let Ok(leaf) = leaf else {
            return Err(ReadFault::NoMemory);
        };
        *seen = mark.again();
        *learnt = mark;
        Ok(leaf)
    }

    /// Takes in news of the reader's own store: the next read begins with them.
    pub fn learn(&mut self, news: News)
        requires own { news.book ≡ self.old.book }
        ensures same { (self.new.book ≡ self.old.book) × (self.new.seen ≡ self.old.seen) }
        ensures learnt { IsPrefix self.old.learnt self.new.learnt
            × IsPrefix news.log self.new.learnt }
        ensures longest { (self.new.learnt ≡ self.old.learnt) ⊎ (self.new.learnt ≡ news.log) }
    {
        let News { front } = news;
        if !self.learnt.has(&front) {
            self.learnt = front;
        }
    }
}

// The answer to a question, with the front of what was asked: that begins with what was seen and
// with what was learnt.
fn looked<L: Looker, Q: Question>(
    inner: &mut L,
    seen: &Front,
    learnt: &Front,
    question: &Q,
) -> Option<(Q::Answer, Front)>
    requires book { learnt.now.book ≡ seen.now.book }
    requires knows { Beyond seen.now (L.knows inner.old) }
    ensures knows { Beyond seen.now (L.knows inner.new) }
    ensures sees { IfSome result (λ r. Beyond r.1 (L.knows inner.new)) }
    ensures book { IfSome result (λ r. r.1.book ≡ seen.now.book) }
    ensures seen { IfSome result (λ r. IsPrefix seen.now.log r.1.log) }
    ensures learnt { IfSome result (λ r. IsPrefix learnt.now.log r.1.log) }
    ensures answer { IfSome result (λ r. Q.answers question.now (posted_of r.1.log) r.0) }
{
    let (answer, mark) = replace_with(inner, (seen, question), |reader, asked| {
        reader.look(asked.0, asked.1)
    })?;
    // What was heard was published before, so the machine's steps never bring this about; no clause
    // of the versions says so.
    if !mark.has(learnt) {
        return None;
    }
    Some((answer, mark))
}
