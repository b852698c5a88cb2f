//! The index itself.

ghost use Rattle.std.specs.Prelude.{◌≡◌, [], None, Some, if◌then◌else◌, IfSome, OnOk, OnErr};
ghost use Rattle.std.specs.Bool.{OnTrue, OnFalse};
ghost use Rattle.std.specs.Ordering.{eq_by_cmp};
ghost use Rattle.bw_lows.specs.LowHeads.{Bytes, order, page_of_low, IsGreatestLow, HasNoLow, IsLeastLow, HasNoHigher};

use crate::blocks::Blocks;
use crate::entry::Entry;
use bw_record::Key;
use std::alloc::{AllocError, Global};
use std::marker::Model;

/// How many lows a block may have: few enough that moving them costs little, and enough that there
/// are few blocks.
const MOST: usize = 256;

/// Low keys with their pages.
#[derive(Drop)]
pub struct LowIndex {
    blocks: Blocks,
}

impl Model for LowIndex {
    ghost use Rattle.std.specs.Prelude.{ℕ, List};
    ghost use Rattle.bw_lows.specs.LowHeads.{Bytes};
    ghost use Rattle.bw_lows.specs.Flat.{flat, AreBlocks};

    ghost Value = { List (Bytes × ℕ) };

    ghost view = { λ a. flat a.blocks };

    ghost invariant = { λ a. AreBlocks a.blocks };
}

impl LowIndex {
    /// No lows. No memory is taken.
    pub fn new(alloc: Global) -> LowIndex
        ensures { result ≡ [] }
    {
        LowIndex {
            blocks: Blocks::new(alloc),
        }
    }

    /// The page of the greatest low that is not above a key, if there is one.
    pub fn find(&self, key: &Key) -> Option<u32>
        ensures some { IfSome result (λ p. IsGreatestLow (page_of_low self.now) key.now p) }
        ensures none { result ≡ None → HasNoLow (page_of_low self.now) key.now }
    {
        let (at, within) = self.blocks.place(key);
        if within == 0 {
            return None;
        }
        Some(self.blocks.block(at).page(within - 1))
    }

    /// The least low that is above a key, if there is one.
    pub fn above(&self, key: &Key) -> Option<Key>
        ensures some { IfSome result (λ low. IsLeastLow (page_of_low self.now) key.now low) }
        ensures none { result ≡ None → HasNoHigher (page_of_low self.now) key.now }
    {
        let (at, within) = self.blocks.place(key);
        if at >= self.blocks.len() {
            return None;
        }
        let block = self.blocks.block(at);
        if within < block.len() {
            return Some(block.low(within));
        }
        if at + 1 < self.blocks.len() {
            return Some(self.blocks.block(at + 1).low(0));
        }
        None
    }

    /// Sets the page of a low. A refused growth is the only error, and changes nothing.
    pub fn insert(&mut self, low: Key, page: u32) -> Result<(), AllocError>
        ensures ok { OnOk result ((q : Bytes) → page_of_low self.new q
            ≡ (if eq_by_cmp order q low then Some page else page_of_low self.old q)) }
        ensures unchanged { OnErr result (self.new ≡ self.old) }
    {
        if self.set_page(&low, page) {
            return Ok(());
        }
        self.make_room(&low)?;
        self.add(&low, page)
    }

    // Sets the page of a low if it has one already, and says whether it has.
    fn set_page(&mut self, low: &Key, page: u32) -> bool
        ensures set { OnTrue result ((q : Bytes) → page_of_low self.new q
            ≡ (if eq_by_cmp order q low.now then Some page else page_of_low self.old q)) }
        ensures same { OnFalse result (self.new ≡ self.old) }
        ensures absent { OnFalse result (page_of_low self.old low.now ≡ None) }
    {
        let (at, within) = self.blocks.place(low);
        if within == 0 {
            return false;
        }
        if !self.blocks.block(at).is_at(within - 1, low) {
            return false;
        }
        self.blocks.set_page(at, within - 1, page);
        true
    }

    // Halves the block that a low belongs to, if it has no room for one more.
    fn make_room(&mut self, low: &Key) -> Result<(), AllocError>
        ensures { self.new ≡ self.old }
    {
        let (at, _) = self.blocks.place(low);
        if at >= self.blocks.len() || self.blocks.block(at).len() < MOST {
            return Ok(());
        }
        self.blocks.halve(at)
    }

    // Adds a low that has no page yet.
    fn add(&mut self, low: &Key, page: u32) -> Result<(), AllocError>
        requires { page_of_low self.old low.now ≡ None }
        ensures ok { OnOk result ((q : Bytes) → page_of_low self.new q
            ≡ (if eq_by_cmp order q low.now then Some page else page_of_low self.old q)) }
        ensures unchanged { OnErr result (self.new ≡ self.old) }
    {
        let entry = Entry::of(self.blocks.allocator(), low)?;
        let (at, within) = self.blocks.place(low);
        if at >= self.blocks.len() {
            return self.blocks.begin(entry, page);
        }
        self.blocks.insert(at, within, entry, page)
    }

    /// Drops a low. No memory is taken.
    pub fn remove(&mut self, low: &Key)
        ensures { (q : Bytes) → page_of_low self.new q
            ≡ (if eq_by_cmp order q low.now then None else page_of_low self.old q) }
    {
        let (at, within) = self.blocks.place(low);
        if within == 0 {
            return;
        }
        if !self.blocks.block(at).is_at(within - 1, low) {
            return;
        }
        self.blocks.take_out(at, within - 1);
    }
}
