//! What is durable is shown to readers.

ghost use Rattle.std.specs.Prelude.{◌≡◌, ◌↔◌, ◌-◌, [], Err, MatchResult, IfOk, OnOk, OnErr};
ghost use Rattle.bw_versions.specs.declared.reader.ReadFault.TheVariants as read;
ghost use Rattle.bw_store.specs.Showing.{Hides, Shows, with_places};

use crate::store::Store;
use bw_versions::{News, ReadFault, Reader};
use std::alloc::AllocError;
use std::sync::Wait;

/// How many publications there were. What is counted here is known to no clause.
#[derive(Clone, Copy)]
pub(crate) struct Publications {
    count: u64,
    /// The history's length at the last one, if there was one.
    end: Option<usize>,
}

impl Publications {
    /// None yet.
    pub(crate) fn none() -> Publications {
        Publications {
            count: 0,
            end: None,
        }
    }

    // The history is published up to this length, or it was refused. It counts if that is new.
    fn count_upto(&mut self, end: usize, is_shown: bool) {
        if is_shown && self.end != Some(end) {
            self.count = self.count.saturating_add(1);
            self.end = Some(end);
        }
    }
}

impl Store {
    ghost use Rattle.bw_store.specs.Going.{GoesOn, IsQuiet};
    ghost use Rattle.bw_store.specs.Views.{kept_by, IsSound};

    /// A reader of what this store publishes, which may go to another thread. It saw nothing yet.
    ///
    /// Refused `NoReader` exactly if no place for a reader is left: a dropped reader frees none; or
    /// `NoMemory`.
    pub fn reader(&mut self) -> Result<Reader, ReadFault>
        requires sound { IsSound self.old holding }
        ensures goes { GoesOn self.old self.new holding }
        ensures made { IfOk result (λ r. r
            ≡ record { book = (kept_by self.old holding).versions.book; seen = []; learnt = [] }) }
        ensures place { kept_by self.new holding ≡ with_places (kept_by self.old holding)
            (kept_by self.new holding).versions.places }
        ensures one { OnOk result ((kept_by self.new holding).versions.places
            ≡ (kept_by self.old holding).versions.places - 1) }
        ensures no_reader { (result ≡ Err read.NoReader)
            ↔ ((kept_by self.old holding).versions.places ≡ 0) }
        ensures unchanged { OnErr result (kept_by self.new holding ≡ kept_by self.old holding) }
    {
        self.versions.reader()
    }

    /// What is published, as a value that a reader of this store may learn. No memory is taken.
    pub fn news(&self) -> News
        ensures { result ≡ record {
          book = (kept_by self.now holding).versions.book;
          log = (kept_by self.now holding).versions.published;
        } }
    {
        self.versions.news()
    }

    /// How many publications showed readers something new, since this store was opened.
    pub fn publications(&self) -> u64 {
        self.publications.count
    }

    // Publishes the entries up to the durable cut.
    pub(crate) fn publish<R: Wait>(&mut self, rt: &R) -> Result<(), AllocError>
        requires sound { IsSound self.old holding }
        ensures quiet { IsQuiet self.old self.new holding }
        ensures core { self.new.core ≡ self.old.core }
        ensures leaves { MatchResult result
            (λ _. Shows (kept_by self.old holding) (kept_by self.new holding))
            (λ _. Hides (kept_by self.old holding) (kept_by self.new holding)) }
    {
        let end = self.core.durable_end();
        let known = self.versions.entered();
        let fresh = self.core.entries(known, end);
        let went = self.versions.publish_up_to(rt, end, fresh);
        self.publications.count_upto(end, went.is_ok());
        went
    }
}
