//! A block: lows with their pages, in the order of the lows if the index holds them.

ghost use Rattle.std.specs.Prelude.{◌≡◌, ◌≤◌, ◌<◌, [], ◌∷◌, ◌++◌, length, insert, remove, slice_set, vec_len, vec_capacity, OnOk, OnErr, IfOk, IfSome};
ghost use Rattle.std.specs.Ordering.{is_eq};
ghost use Rattle.bw_record.specs.Keys.{is_below, IsBytes};
ghost use Rattle.bw_record.specs.Heads.{head};
ghost use Rattle.bw_lows.specs.LowHeads.{order};
ghost use Rattle.bw_lows.specs.Rows.{low_at, page_at, Ascends, IsBoundary};
ghost use Rattle.bw_lows.specs.LowRow.{IsHeadBehind};

use crate::entry::Entry;
use crate::row::{Row, make_room};
use bw_record::Key;
use std::alloc::{AllocError, Global};
use std::cmp::Ordering;
use std::marker::Model;

/// Lows with their pages.
#[derive(Drop)]
pub(crate) struct Block {
    entries: Vec<Entry>,
    /// The page of each, beside them: a search reads heads and a page, and seldom a low.
    pages: Vec<u32>,
    row: Row,
}

impl Model for Block {
    ghost use Rattle.std.specs.Prelude.{List, ℕ};
    ghost use Rattle.bw_lows.specs.Beside.{lows_of, IsBlock};

    ghost Value = { List (List ℕ × ℕ) };

    ghost view = { lows_of };

    ghost invariant = { IsBlock };
}

impl Block {
    /// A block of one low. It takes memory, whose refusal is the only error.
    pub(crate) fn of(alloc: Global, entry: Entry, page: u32) -> Result<Block, AllocError>
        ensures { IfOk result (λ block. block ≡ (entry, page) ∷ []) }
    {
        let mut entries = Vec::new(alloc);
        entries.push(entry)?;
        let mut pages = Vec::new(alloc);
        pages.push(page)?;
        let row = Row::of(alloc, entries.as_slice());
        Ok(Block {
            entries,
            pages,
            row,
        })
    }

    /// How many lows it has.
    pub(crate) fn len(&self) -> usize
        ensures { result ≡ length self.now }
    {
        self.entries.as_slice().len()
    }

    /// The low at an index.
    pub(crate) fn low(&self, at: usize) -> Key
        requires { at < length self.now }
        ensures { result ≡ low_at self.now at }
    {
        let _ = self.entries.as_slice().len(); // For the proof.
        self.entries[at].low()
    }

    /// The page of the low at an index.
    pub(crate) fn page(&self, at: usize) -> u32
        requires { at < length self.now }
        ensures { result ≡ page_at self.now at }
    {
        let _ = self.pages.as_slice().len(); // For the proof.
        self.pages[at]
    }

    /// Whether the low at an index is a key.
    pub(crate) fn is_at(&self, at: usize, key: &Key) -> bool
        requires { at < length self.now }
        ensures { result ≡ is_eq (order key.now (low_at self.now at)) }
    {
        let _ = self.entries.as_slice().len(); // For the proof.
        self.entries[at].compare(key) == Ordering::Equal
    }

    /// Whether the low at an index is above a key with this head.
    pub(crate) fn is_above(&self, at: usize, start: u64, key: &Key) -> bool
        requires within { at < length self.now }
        requires start { start ≡ head key.now }
        requires bytes { IsBytes key.now }
        ensures { result ≡ is_below key.now (low_at self.now at) }
    {
        let _ = self.entries.as_slice().len(); // For the proof.
        self.entries[at].is_above(start, key)
    }

    /// The head of what stands in the first low after these bytes, if it begins with them.
    pub(crate) fn head_behind(&self, shared: &[u8]) -> Option<u64>
        ensures { IfSome result (λ h. IsHeadBehind shared.now (low_at self.now 0) h) }
    {
        match self.entries.as_slice().first() {
            Some(entry) => entry.head_behind(shared),
            None => None,
        }
    }

    /// How many lows are not above a key with this head.
    pub(crate) fn count_upto(&self, start: u64, key: &Key) -> usize
        requires ascends { Ascends self.now }
        requires start { start ≡ head key.now }
        requires bytes { IsBytes key.now }
        ensures { IsBoundary (λ i. is_below key.now (low_at self.now i)) (length self.now) result }
    {
        let (mut from, mut to) = self.row.bounds(self.len(), key);
        while from < to {
            let middle = from + (to - from) / 2;
            if self.is_above(middle, start, key) {
                to = middle;
            } else {
                from = middle + 1;
            }
        }
        from
    }

    /// Puts a low before the one at an index, or last. A refusal changes nothing.
    pub(crate) fn insert(&mut self, at: usize, entry: Entry, page: u32) -> Result<(), AllocError>
        requires { at ≤ length self.old }
        ensures ok { OnOk result (self.new ≡ insert self.old at (entry, page)) }
        ensures err { OnErr result (self.new ≡ self.old) }
    {
        let _ = self.entries.as_slice().len(); // For the proof.
        let _ = self.pages.as_slice().len(); // For the proof.
        let count = self.len();
        make_room(&mut self.entries)?;
        make_room(&mut self.pages)?;
        let head = self.row.head(&entry);
        put(&mut self.entries, at, entry);
        put(&mut self.pages, at, page);
        self.row.insert(count, at, head);
        if self.row.is_missing() {
            self.row = Row::of(*self.entries.allocator(), self.entries.as_slice());
        }
        Ok(())
    }

    /// Sets the page of the low at an index.
    pub(crate) fn set_page(&mut self, at: usize, page: u32)
        requires { at < length self.old }
        ensures { self.new ≡ slice_set self.old at (low_at self.old at, page) }
    {
        let _ = self.pages.as_slice().len(); // For the proof.
        self.pages[at] = page;
    }

    /// Removes the low at an index; those after it move up. No memory is taken.
    pub(crate) fn remove(&mut self, at: usize)
        requires { at < length self.old }
        ensures { self.new ≡ remove self.old at }
    {
        let _ = self.entries.as_slice().len(); // For the proof.
        let _ = self.pages.as_slice().len(); // For the proof.
        let _ = self.entries.remove(at);
        let _ = self.pages.remove(at);
        self.row.remove(at);
    }

    /// Takes off the upper half of the lows. What stays keeps no more room than it needs. A refusal
    /// changes nothing.
    pub(crate) fn split(&mut self) -> Result<Block, AllocError>
        requires { 2 ≤ length self.old }
        ensures all { IfOk result (λ upper. self.new ++ upper ≡ self.old) }
        ensures lower { OnOk result (0 < length self.new) }
        ensures upper { IfOk result (λ upper. 0 < length upper) }
        ensures err { OnErr result (self.new ≡ self.old) }
    {
        let half = self.entries.as_slice().len() / 2;
        let alloc = *self.entries.allocator();
        let pages = Vec::from_slice(alloc, &self.pages[half..])?;
        let entries = self.entries.split_off(half)?;
        self.entries.shrink_to_fit();
        self.pages.truncate(half);
        self.pages.shrink_to_fit();
        self.row = Row::of(alloc, self.entries.as_slice());
        let row = Row::of(alloc, entries.as_slice());
        Ok(Block {
            entries,
            pages,
            row,
        })
    }
}

// Puts an item before the one at an index, or last, where there is room for it.
fn put<T: Drop>(items: &mut Vec<T>, at: usize, item: T)
    requires within { at ≤ vec_len items.old }
    requires room { vec_len items.old < vec_capacity items.old }
    ensures { items.new.items ≡ insert items.old.items at item }
{
    match items.insert(at, item) {
        Ok(()) => {}
        Err(_) => unreachable!(),
    }
}
