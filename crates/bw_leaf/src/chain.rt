//! A delta chain: a page in memory as its newest records over a whole page, or over the log.

ghost use Rattle.std.specs.Prelude.{◌≡◌, ◌<◌, ◌≤◌, ◌-◌, true, [], ◌∷◌, None, length, is_some, IsTrue, IsOk, IfOk, IfSome, OnOk, OnErr};
ghost use Rattle.std.specs.List.{list_any};
ghost use Rattle.bw_record.specs.declared.leaf.Leaf.{Leaf as LeafValue};
ghost use Rattle.bw_leaf.specs.Links.{count_deltas, content_of, log_end, is_flushed, evicted, consolidated, after_evict, after_consolidate, marked_content, records_of};
ghost use Rattle.bw_leaf.specs.Words.{records_word};
ghost use Rattle.bw_leaf.specs.Marks.{mark_after};

use crate::changes::change_packed;
use crate::words::{Word, word_packed};
use bw_codec::{Key, Leaf, Packed, Place};
use smallvec::SmallVec;
use std::alloc::{AllocError, Global};
use std::marker::Model;

/// One link of a chain.
#[derive(Drop)]
pub enum Link {
    /// The page was changed by this record.
    Delta(Packed),
    /// What stands below is in the log, at this place.
    Flushed(Place),
}

/// What a chain ends in.
#[derive(Drop)]
pub enum End {
    /// The whole page.
    Whole(Leaf),
    /// The page in the log, at this place.
    OnLog(Place),
}

impl Default for Link {
    fn default() -> Link {
        Link::Flushed(Place { frame: 1, index: 0 })
    }
}

/// The links of a page over a whole page or over the log.
#[derive(Drop)]
pub struct Chain {
    /// Oldest first, so that the newest is a push. None stands in the chain itself: there is one a
    /// page, and most have no link.
    links: SmallVec<Link, 0>,
    end: End,
}

impl Model for Chain {
    ghost use Rattle.bw_leaf.specs.Links.{Chained};

    ghost Value = { Chained };

    ghost use Rattle.bw_leaf.specs.Linked.{view_of};

    ghost view = { view_of };
}

impl Chain {
    /// A whole page without any link, nor room for one. No memory is taken.
    pub fn whole(alloc: Global, leaf: Leaf) -> Chain
        ensures links { result.links ≡ [] }
        ensures end { result.end ≡ End.Whole leaf }
        ensures room { result.room ≡ 0 }
    {
        Chain {
            links: SmallVec::new(alloc),
            end: End::Whole(leaf),
        }
    }

    /// A page in the log without any link, nor room for one. No memory is taken.
    pub fn on_log(alloc: Global, place: Place) -> Chain
        ensures links { result.links ≡ [] }
        ensures end { result.end ≡ End.OnLog place }
        ensures room { result.room ≡ 0 }
    {
        Chain {
            links: SmallVec::new(alloc),
            end: End::OnLog(place),
        }
    }

    /// Makes room for `more` links, so that as many calls of `prepend` and `mark_flushed` cannot be
    /// refused. A refused growth is the only error, and changes nothing.
    pub fn reserve(&mut self, more: usize) -> Result<(), AllocError>
        ensures links { self.new.links ≡ self.old.links }
        ensures end { self.new.end ≡ self.old.end }
        ensures room { OnOk result (more ≤ self.new.room) }
        ensures kept { self.old.room ≤ self.new.room }
    {
        self.links.reserve(more)
    }

    /// Adds a record as the newest link. A refusal changes nothing.
    pub fn prepend(&mut self, change: Packed) -> Result<(), AllocError>
        ensures ok { OnOk result (self.new.links ≡ Link.Delta change ∷ self.old.links) }
        ensures end { self.new.end ≡ self.old.end }
        ensures room { self.old.room - 1 ≤ self.new.room }
        ensures succeeds { 0 < self.old.room → IsOk result }
        ensures unchanged { OnErr result (self.new ≡ self.old) }
    {
        self.links.push(Link::Delta(change))?;
        Ok(())
    }

    /// Marks that all there is now stands in the log, at a place. A refusal changes nothing.
    pub fn mark_flushed(&mut self, place: Place) -> Result<(), AllocError>
        ensures ok { OnOk result (self.new.links ≡ Link.Flushed place ∷ self.old.links) }
        ensures end { self.new.end ≡ self.old.end }
        ensures room { self.old.room - 1 ≤ self.new.room }
        ensures succeeds { 0 < self.old.room → IsOk result }
        ensures unchanged { OnErr result (self.new ≡ self.old) }
    {
        self.links.push(Link::Flushed(place))?;
        Ok(())
    }

    /// How many records stand in the chain.
    pub fn deltas(&self) -> usize
        ensures { result ≡ count_deltas self.now.links }
    {
        let mut count = 0;
        for link in self.links.as_slice() {
            if let Link::Delta(_) = link {
                count += 1;
            }
        }
        count
    }

    /// The place in the log that the chain ends on, if it does not end in a whole page.
    pub fn ends_on_log(&self) -> Option<Place>
        ensures { result ≡ log_end self.now.end }
    {
        match &self.end {
            End::Whole(_) => None,
            End::OnLog(place) => Some(*place),
        }
    }

    /// The page: the records of the chain, oldest first, over its whole page, or over `below`: the
    /// page in the log at the place that the chain ends on. A refused growth is the only error.
    pub fn content(&self, below: &Leaf) -> Result<Leaf, AllocError>
        ensures { IfOk result (λ leaf. leaf ≡ content_of self.now below.now) }
    {
        let mut leaf = match &self.end {
            End::Whole(leaf) => leaf.copy()?,
            End::OnLog(_) => below.copy()?,
        };
        for link in self.links.as_slice() {
            if let Link::Delta(record) = link {
                change_packed(&mut leaf, record)?;
            }
        }
        Ok(leaf)
    }

    /// What the newest of the chain's records that speaks of a key says. No memory is taken. Time
    /// is linear in the links.
    pub fn word(&self, key: &Key) -> Word
        ensures { result ≡ records_word key.now (records_of self.now.links) }
    {
        let mut word = Word::Silent;
        for link in self.links.as_slice() {
            if let Link::Delta(item) = link {
                word = word.then(word_packed(item, key));
            }
        }
        word
    }

    /// Drops from memory what stands in the log: the newest flushed link and all below it become
    /// its place. It answers whether there was such a link; without one nothing changes. No memory
    /// is taken.
    pub fn evict(&mut self) -> bool
        ensures flushed { result ≡ list_any is_flushed self.old.links }
        ensures acts { result ≡ is_some (evicted self.old) }
        ensures links { self.new.links ≡ (after_evict self.old).links }
        ensures end { self.new.end ≡ (after_evict self.old).end }

        // Over the page that the log has at the mark, the content is the old one.
        ensures content { IsTrue result → (below : LeafValue)
            → content_of self.new (marked_content self.old below) ≡ content_of self.old below }
        ensures room { self.old.room ≤ self.new.room }
    {
        match newest_mark(self.links.as_slice()) {
            Some((at, place)) => {
                let _ = self.links.drain(..at + 1);
                self.end = End::OnLog(place);
                true
            }
            None => false,
        }
    }

    /// The log has the page at this place: no link stands above it any longer. No memory is taken.
    pub fn rest_on(&mut self, place: Place)
        ensures links { self.new.links ≡ [] }
        ensures end { self.new.end ≡ End.OnLog place }
        ensures room { self.old.room ≤ self.new.room }
    {
        self.links.clear();
        self.end = End::OnLog(place);
    }

    /// Puts the whole page in the place of what stands below the newest link, if that is a flushed
    /// one. It answers whether it was; if not, nothing changes, nor does it on a refusal.
    pub fn consolidate(&mut self, below: &Leaf) -> Result<bool, AllocError>
        ensures acts { IfOk result (λ b. b ≡ is_some (consolidated self.old below.now)) }
        ensures links { OnOk result (self.new.links
            ≡ (after_consolidate self.old below.now).links) }
        ensures end { OnOk result (self.new.end ≡ (after_consolidate self.old below.now).end) }
        ensures unchanged { OnErr result (self.new ≡ self.old) }

        // The content no longer depends on the log, and is what it was.
        ensures content { result ≡ Ok true → (other : LeafValue)
            → content_of self.new other ≡ content_of self.old below.now }
        ensures room { self.old.room ≤ self.new.room }
    {
        let len = self.links.as_slice().len();
        match self.links.as_slice().last() {
            Some(Link::Flushed(_)) => {
                let leaf = self.content(below)?;
                let _ = self.links.drain(..len - 1);
                self.end = End::Whole(leaf);
                Ok(true)
            }
            _ => Ok(false),
        }
    }
}

/// The index and the place of the newest flushed link; links stand oldest first.
fn newest_mark(links: &[Link]) -> Option<(usize, Place)>
    ensures mark { result ≡ mark_after 0 None links.now }
    ensures within { IfSome result (λ mark. mark.0 < length links.now) }
{
    let mut found = None;
    for (i, link) in links.iter().enumerate() {
        if let Link::Flushed(place) = link {
            found = Some((i, *place));
        }
    }
    found
}
