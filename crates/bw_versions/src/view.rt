//! The readers' rule, and one read.
//!
//! Two versions change places at a publication, and news of it go another way: so a reader may have
//! learnt of batches that the version which it enters does not show. An answer from there would go
//! back before what the reader heard. Each version has a mark of how far into the book it goes, and
//! the read gives that mark with its answer: whoever asked compares it with what was seen and
//! learnt before, and counts a shorter one as not entered.

ghost use Rattle.std.specs.Prelude.{◌≡◌, IfSome};
ghost use mathlib.Core.List.{IsPrefix};
ghost use Rattle.left_right.specs.Sides.{view};
ghost use Rattle.bw_versions.specs.Posted.{posted_of};
ghost use Rattle.bw_versions.specs.Heard.{Beyond};

use crate::board::{Posts, Version};
use crate::book::Front;
use bw_codec::{Key, Leaf, Pair, Value};
use crossbeam_utils::rule::{Outcome, Protocol};
use std::alloc::AllocError;

/// What a seat knows: the book, and how much of it was seen. No value of it is made.
pub type View = Option<Front>;

/// The rule of writer and readers: they have one book.
pub struct OneBook;

impl Protocol<Version, View> for OneBook {
    ghost use Rattle.std.specs.Prelude.{None};
    ghost use Rattle.bw_versions.specs.Keeping.{Keeps};

    ghost holds = { Keeps };

    ghost first = { None };
}

/// What an entry, and a publication, says.
pub struct Looks;

impl Outcome<Version, View> for Looks {
    ghost use Rattle.bw_versions.specs.Keeping.{Sees};

    ghost then = { Sees };
}

pub type VersionReader = left_right::reader::Reader<Version, View, OneBook>;

/// What is asked of what is shown.
pub trait Question {
    type Answer: Drop;

    ghost use Rattle.std.specs.Prelude.{Option};
    ghost use Rattle.bw_versions.specs.Posted.{Posted};

    ghost answers: { Self → Option Posted → Self.Answer → Type 0 };

    fn ask(&self, posts: &Posts) -> Self::Answer
        ensures { answers self.now (posted_of posts.now) result };
}

/// The value of a key.
impl Question for Key {
    type Answer = Option<Value>;

    ghost use Rattle.std.specs.Prelude.{◌≡◌};
    ghost use Rattle.bw_versions.specs.Posted.{value_in};

    ghost answers = { λ key p value. value ≡ value_in p key };

    fn ask(&self, posts: &Posts) -> Option<Value> {
        posts.get(self)
    }
}

/// The pair of a key, which shares its bytes.
#[derive(Drop)]
pub struct SharedOf<'k>(pub &'k Key);

impl<'k> Question for SharedOf<'k> {
    type Answer = Result<Option<Pair>, AllocError>;

    ghost use Rattle.std.specs.Prelude.{◌≡◌, IfOk};
    ghost use Rattle.bw_versions.specs.Posted.{pair_in};

    ghost answers = { λ asked p answer. IfOk answer (λ pair. pair ≡ pair_in p asked.0.now) };

    fn ask(&self, posts: &Posts) -> Result<Option<Pair>, AllocError> {
        posts.get_shared(self.0)
    }
}

/// The pair with the least key at or above this one.
#[derive(Drop)]
pub struct NextAt<'k>(pub &'k Key);

impl<'k> Question for NextAt<'k> {
    type Answer = Option<(Key, Value)>;

    ghost use Rattle.bw_versions.specs.Posted.{IsFirstIn};

    ghost answers = { λ next p pair. IsFirstIn p next.0.now pair };

    fn ask(&self, posts: &Posts) -> Option<(Key, Value)> {
        posts.next_at(self.0)
    }
}

/// The pairs at or above a key, and no more than so many.
#[derive(Drop)]
pub struct Stretch<'k> {
    pub from: &'k Key,
    pub most: usize,
}

impl<'k> Question for Stretch<'k> {
    type Answer = Result<Vec<Pair>, AllocError>;

    ghost use Rattle.std.specs.Prelude.{IfOk};
    ghost use Rattle.bw_versions.specs.Posted.{IsStretchIn};

    ghost answers = { λ asked p answer. IfOk answer (λ pairs.
        IsStretchIn p asked.from.now asked.most pairs.items) };

    fn ask(&self, posts: &Posts) -> Result<Vec<Pair>, AllocError> {
        posts.stretch(self.from, self.most)
    }
}

/// A copy of a page, by its number.
#[derive(Clone, Copy)]
pub struct PageOf(pub u32);

impl Question for PageOf {
    type Answer = Result<Option<Leaf>, AllocError>;

    ghost use Rattle.std.specs.Prelude.{◌≡◌, IfOk};
    ghost use Rattle.bw_versions.specs.Posted.{leaf_in};

    ghost answers = { λ page p answer. IfOk answer (λ leaf. leaf ≡ leaf_in p page.0) };

    fn ask(&self, posts: &Posts) -> Result<Option<Leaf>, AllocError> {
        posts.page(self.0)
    }
}

/// A reader's seat at what is shown.
pub trait Looker: Drop {
    ghost use Rattle.std.specs.Prelude.{Option};
    ghost use Rattle.bw_versions.specs.Reach.{Reach};

    ghost knows: { Self → Option Reach };

    /// Asks by a seat that knows its book: the answer, and the front of what was asked. If the
    /// versions have ended it is none.
    fn look<Q: Question>(self, seen: &Front, question: &Q) -> (Self, Option<(Q::Answer, Front)>)
        requires { Beyond seen.now (knows self) }
        ensures view { Beyond seen.now (knows result.0) }
        ensures seen { IfSome result.1 (λ r. Beyond r.1 (knows result.0)) }
        ensures book { IfSome result.1 (λ r. r.1.book ≡ seen.now.book) }
        ensures later { IfSome result.1 (λ r. IsPrefix seen.now.log r.1.log) }
        ensures answer { IfSome result.1 (λ r.
            Q.answers question.now (posted_of r.1.log) r.0) };
}

impl Looker for VersionReader {
    ghost knows = { λ r. view r.place };

    fn look<Q: Question>(
        self,
        seen: &Front,
        question: &Q,
    ) -> (VersionReader, Option<(Q::Answer, Front)>) {
        look_at(self, seen, question)
    }
}

fn look_at<Q: Question>(
    reader: VersionReader,
    seen: &Front,
    question: &Q,
) -> (VersionReader, Option<(Q::Answer, Front)>)
    requires { Beyond seen.now (view reader.place) }
    ensures view { Beyond seen.now (view result.0.place) }
    ensures seen { IfSome result.1 (λ r. Beyond r.1 (view result.0.place)) }
    ensures book { IfSome result.1 (λ r. r.1.book ≡ seen.now.book) }
    ensures later { IfSome result.1 (λ r. IsPrefix seen.now.log r.1.log) }
    ensures answer { IfSome result.1 (λ r. Q.answers question.now (posted_of r.1.log) r.0) }
{
    match reader.enter_as::<Looks>() {
        Ok(reading) => {
            let version = reading.get();
            let mark = version.mark.again();
            let answer = question.ask(&version.posts);
            (reading.leave(), Some((answer, mark)))
        }
        Err(reader) => (reader, None),
    }
}
