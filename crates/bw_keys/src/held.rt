//! Records that come in the order of their keys go in so that pages get full.
//!
//! A page that gets too many pairs keeps the first half of them. So records in the order of their
//! keys would leave pages that are half full. Here every second record waits until its page has
//! been split off: the others make the pages, and these fill them.

ghost use Rattle.std.specs.Prelude.{◌≡◌, ◌⊎◌, ◌∷◌, ◌++◌, [], map, true, false, None, IsNone, IfOk};
ghost use Rattle.bw_record.specs.Record.{key_of};
ghost use Rattle.bw_keys.specs.Keyed.{Follows, are_upto};

use bw_codec::{Key, Record, is_before};
use std::alloc::{AllocError, Global};
use std::collections::VecDeque;

/// A record that waits.
#[derive(Drop)]
struct Waiting {
    /// How many records had gone ahead of it when it came.
    ahead: u64,
    item: Record,
}

/// Records that were read and did not go in yet. Those of one key keep their order, and so does all
/// that follows a record whose key does not ascend.
#[derive(Drop)]
pub struct Held {
    /// How many pairs a page has at most.
    pairs_a_page: u64,
    /// The key of the last record that was read, if the next one may follow it.
    last: Option<Key>,
    /// The place of that record among those of its page, from 0.
    place: u64,
    /// How many records went ahead.
    ahead: u64,
    /// Those that wait, by their keys.
    waiting: VecDeque<Waiting>,
    /// Whether all that wait go in now.
    is_released: bool,
    /// A record that does not ascend, which goes in after those that wait.
    next: Option<Record>,
    ghost upto: { is_released ≡ false
        → are_upto last (map (λ w. key_of w.item) waiting.items) ≡ true },
    ghost alone: { is_released ≡ false → next ≡ None },
}

impl Held {
    ghost use Rattle.bw_keys.specs.Held.{pending, goes_in, Accepts, IsIdle};

    /// None, for pages of at most so many pairs.
    pub fn new(alloc: Global, pairs_a_page: u16) -> Held
        ensures none { pending result ≡ [] }
    {
        Held {
            pairs_a_page: u64::from(pairs_a_page),
            last: None,
            place: 0,
            ahead: 0,
            waiting: VecDeque::new(alloc),
            is_released: false,
            next: None,
        }
    }

    /// Whether the first record that waits goes in now. Once more records than a page holds went
    /// ahead of it, its page has been split off.
    fn is_due(&self) -> bool
        ensures due { self.now.is_released ≡ true → self.now.waiting.items ≡ [] → result ≡ false }
        ensures released { self.now.is_released ≡ true → result ≡ false → self.now.waiting.items ≡ [] }
    {
        match self.waiting.front() {
            Some(first) => {
                self.is_released || self.ahead.saturating_sub(first.ahead) > self.pairs_a_page
            }
            None => false,
        }
    }

    /// All that wait go in now.
    pub fn release(&mut self)
        ensures pending { pending self.new ≡ pending self.old }
        ensures released { self.new.is_released ≡ true }
    {
        self.is_released = true;
    }

    /// The next record that goes in now.
    pub fn take(&mut self) -> Option<Record>
        ensures taken { pending self.old ≡ goes_in result ++ pending self.new }
        ensures idle { IsNone result → IsIdle self.new }
        ensures all { IsNone result → self.old.is_released ≡ true → pending self.new ≡ [] }
        ensures ended { self.old.is_released ≡ true
            → (self.new.is_released ≡ true) ⊎ (pending self.new ≡ []) }
    {
        if self.is_due() {
            return self.waiting.pop_front().map(|first| first.item);
        }
        if self.waiting.is_empty() {
            self.is_released = false;
            return self.next.take();
        }
        None
    }

    /// What is to be done with a record that was read: it is given back if it goes in now. A
    /// refused growth is the only error, and the record is gone then.
    pub fn accept(&mut self, item: Record) -> Result<Option<Record>, AllocError>
        ensures { IsIdle self.old → IfOk result (λ now. Accepts item now self.old self.new) }
    {
        if !follows(&mut self.last, &item) {
            self.place = 0;
            self.is_released = true;
            self.next = Some(item);
            return Ok(None);
        }
        self.place = place_after(self.place, self.pairs_a_page);
        if self.place % 2 == 1 {
            self.waiting.push_back(Waiting {
                ahead: self.ahead,
                item,
            })?;
            return Ok(None);
        }
        self.ahead = self.ahead.saturating_add(1);
        Ok(Some(item))
    }
}

/// The next place of a page.
fn place_after(place: u64, pairs_a_page: u64) -> u64 {
    let next = place.saturating_add(1);
    if next >= pairs_a_page { 0 } else { next }
}

/// Whether a record comes after the last one in the order of keys. It is the last one from now on,
/// if it is a put.
fn follows(last: &mut Option<Key>, item: &Record) -> bool
    ensures { result ≡ true → Follows last.old last.new (key_of item.now) }
{
    let Record::Put(key, _) = item else {
        *last = None;
        return false;
    };
    match last.replace(key.copy()) {
        Some(before) => is_before(before.as_slice(), key.as_slice()),
        None => false,
    }
}
