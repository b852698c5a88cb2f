//! Which page leaves memory next, and how many bytes the pages in memory have.
//!
//! The pages in memory stand in a ring, and a hand goes round it. A page that somebody asked for
//! since the hand passed it last is passed once more, and that somebody asked is forgotten. Any
//! other may leave. So pages that nobody asks for leave first, and all that is kept of a page for
//! this is one bit.
//!
//! No clause says any of it, and none has to: whichever page leaves, what the pages hold is the
//! same. Tests say it.

use bw_codec::{Leaf, Packed, Pair};
use std::alloc::Global;

/// How many bytes a Base has beside its low key and its pairs.
const BESIDE: usize = 8;

/// The ring, its hand, and the count of bytes.
#[derive(Drop)]
pub(crate) struct Clock {
    /// The index of each seat whose leaf is in memory, once, if memory was there to enter it. The
    /// entry of a seat whose leaf left stands until the hand meets it.
    ring: Vec<u32>,
    /// The entry that the hand meets next. Behind the last one, it is the first.
    hand: usize,
    /// How many bytes the leaves in memory have, as Bases.
    here: u64,
}

impl Clock {
    /// Nothing is in memory.
    pub(crate) fn new(alloc: Global) -> Clock {
        Clock {
            ring: Vec::new(alloc),
            hand: 0,
            here: 0,
        }
    }

    /// How many bytes the leaves in memory have, as Bases.
    pub(crate) fn bytes(&self) -> u64 {
        self.here
    }

    /// How many entries the hand meets in two rounds.
    pub(crate) fn two_rounds(&self) -> usize {
        self.ring.len().saturating_mul(2)
    }

    /// Counts that a leaf has so many bytes, and no more those that it had. 0 is for a leaf that is
    /// not in memory.
    pub(crate) fn recount(&mut self, was: u32, now: u32) {
        self.here = self
            .here
            .saturating_sub(u64::from(was))
            .saturating_add(u64::from(now));
    }

    /// Enters a seat, and tells whether it did. If memory is refused, the leaf only stays in memory
    /// until its seat is entered, which is tried again whenever somebody asks for it.
    pub(crate) fn enter(&mut self, at: usize) -> bool {
        match u32::try_from(at) {
            Ok(at) => self.ring.push(at).is_ok(),
            Err(_) => false,
        }
    }

    /// The index of the seat that the hand meets next.
    pub(crate) fn at_hand(&mut self) -> Option<usize> {
        if self.hand >= self.ring.len() {
            self.hand = 0;
        }
        match self.ring.as_slice().get(self.hand) {
            Some(at) => Some(*at as usize),
            None => None,
        }
    }

    /// The hand passes the entry that it met.
    pub(crate) fn go_on(&mut self) {
        self.hand = self.hand.saturating_add(1);
    }

    /// Takes out the entry that the hand met. The last one comes into its place, and is met next.
    pub(crate) fn take_out(&mut self) {
        self.take_out_at(self.hand);
    }

    /// Takes out the entry of a seat that there is no more.
    ///
    /// Only the newest seat is taken off, if the record that made it is taken back. So its entry is
    /// looked for from the back: behind it stands only what later records of the batch entered.
    pub(crate) fn forget(&mut self, at: usize) {
        let mut entries = self.ring.as_slice().iter();
        if let Some(place) = entries.rposition(|entry| *entry as usize == at) {
            self.take_out_at(place);
        }
    }

    fn take_out_at(&mut self, place: usize) {
        if place < self.ring.len() {
            let _ = self.ring.swap_remove(place);
        }
    }
}

/// How many bytes the Base of a leaf has.
pub(crate) fn base_bytes(leaf: &Leaf) -> u32 {
    let low = leaf.low.as_slice().len();
    pairs_bytes(leaf).saturating_add(narrow(low.saturating_add(BESIDE)))
}

/// How many bytes the pairs of a leaf have in its Base.
pub(crate) fn pairs_bytes(leaf: &Leaf) -> u32 {
    let mut sum: u32 = 0;
    for pair in leaf.pairs.as_slice() {
        sum = sum.saturating_add(pair_bytes(pair));
    }
    sum
}

/// How many bytes the pair has at which a search ended, or 0 if the key was not there.
pub(crate) fn found_bytes(leaf: &Leaf, found: Result<usize, usize>) -> u32 {
    let Ok(at) = found else {
        return 0;
    };
    match leaf.pairs.as_slice().get(at) {
        Some(pair) => pair_bytes(pair),
        None => 0,
    }
}

/// How many bytes the pair has that a record puts, or 0 if it deletes one.
pub(crate) fn put_bytes(item: &Packed) -> u32 {
    match item.pair() {
        Ok(pair) => pair_bytes(pair),
        Err(_) => 0,
    }
}

// How many bytes a pair has in a Base: two lengths stand beside it, in three bytes.
fn pair_bytes(pair: &Pair) -> u32 {
    narrow(pair.key().len() + pair.value().len() + 3)
}

// A length of a lawful leaf, which has fewer than 2 ^ 24 bytes.
fn narrow(length: usize) -> u32 {
    match u32::try_from(length) {
        Ok(length) => length,
        Err(_) => u32::MAX,
    }
}
