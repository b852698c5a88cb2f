//! Blocks one after the other: where a key parts their lows, and changes there.

ghost use Rattle.std.specs.Prelude.{◌≡◌, ◌≤◌, ◌<◌, ◌+◌, [], ◌∷◌, ◌++◌, length, insert, slice_set, List, OnOk, OnErr};
ghost use Rattle.bw_record.specs.Keys.{is_below, IsBytes};
ghost use Rattle.bw_record.specs.Heads.{head};
ghost use Rattle.bw_lows.specs.Rows.{Low, low_at, IsBoundary};
ghost use Rattle.bw_lows.specs.LowRow.{IsRow};
ghost use Rattle.bw_lows.specs.Flat.{flat, block_at, firsts, lows_before, lows_behind, AreFilled, AreBlocks, IsPlace};

use crate::block::Block;
use crate::entry::Entry;
use crate::row::Row;
use bw_record::Key;
use std::alloc::{AllocError, Global};
use std::marker::Model;

/// Blocks, and beside them the heads of their first lows, which a search reads in place of blocks.
#[derive(Drop)]
pub(crate) struct Blocks {
    blocks: Vec<Block>,
    begins: Row,
}

impl Model for Blocks {
    ghost use Rattle.std.specs.Prelude.{List, ℕ};
    ghost use Rattle.bw_lows.specs.LowRow.{IsRow};
    ghost use Rattle.bw_lows.specs.Flat.{firsts};

    ghost Value = { List (List (List ℕ × ℕ)) };

    ghost view = { λ b. b.blocks.items };

    ghost invariant = { λ b. IsRow b.begins.shared.items b.begins.heads.items (firsts b.blocks.items) };
}

impl Blocks {
    /// No blocks. No memory is taken.
    pub(crate) fn new(alloc: Global) -> Blocks
        ensures { result ≡ [] }
    {
        Blocks {
            blocks: Vec::new(alloc),
            begins: Row::none(alloc),
        }
    }

    /// What memory is taken from.
    pub(crate) fn allocator(&self) -> Global {
        *self.blocks.allocator()
    }

    /// How many blocks there are.
    pub(crate) fn len(&self) -> usize
        ensures { result ≡ length self.now }
    {
        self.blocks.as_slice().len()
    }

    /// The block at an index.
    pub(crate) fn block(&self, at: usize) -> &Block
        requires { at < length self.now }
        ensures { result.now ≡ block_at self.now at }
    {
        let _ = self.blocks.as_slice().len(); // For the proof.
        &self.blocks[at]
    }

    // How many blocks begin with a low that is not above a key with this head.
    fn count_begun(&self, start: u64, key: &Key) -> usize
        requires blocks { AreBlocks self.now }
        requires start { start ≡ head key.now }
        requires bytes { IsBytes key.now }
        ensures { IsBoundary (λ i. is_below key.now (low_at (block_at self.now i) 0))
            (length self.now) result }
    {
        let (mut from, mut to) = self.begins.bounds(self.len(), key);
        while from < to {
            let middle = from + (to - from) / 2;
            if self.block(middle).is_above(0, start, key) {
                to = middle;
            } else {
                from = middle + 1;
            }
        }
        from
    }

    /// The block whose lows a key belongs to, and how many of them are not above it.
    pub(crate) fn place(&self, key: &Key) -> (usize, usize)
        requires { AreBlocks self.now }
        ensures { IsPlace key.now self.now result.0 result.1 }
    {
        let start = key.head();
        let count = self.count_begun(start, key);
        if count == 0 {
            return (0, 0);
        }
        (count - 1, self.block(count - 1).count_upto(start, key))
    }

    /// Adds a block of one low after all blocks. A refusal changes nothing.
    pub(crate) fn begin(&mut self, entry: Entry, page: u32) -> Result<(), AllocError>
        ensures ok { OnOk result (self.new ≡ self.old ++ ((entry, page) ∷ []) ∷ []) }
        ensures err { OnErr result (self.new ≡ self.old) }
    {
        let alloc = *self.blocks.allocator();
        self.blocks.push(Block::of(alloc, entry, page)?)?;
        self.begins = Row::of_firsts(alloc, self.blocks.as_slice());
        Ok(())
    }

    /// Puts a low into a block, before the one at an index or last. A refusal changes nothing.
    pub(crate) fn insert(
        &mut self,
        at: usize,
        index: usize,
        entry: Entry,
        page: u32,
    ) -> Result<(), AllocError>
        requires within { at < length self.old }
        requires low { index ≤ length (block_at self.old at) }
        ensures ok { OnOk result (self.new
            ≡ slice_set self.old at (insert (block_at self.old at) index (entry, page))) }
        ensures err { OnErr result (self.new ≡ self.old) }
    {
        let _ = self.blocks.as_slice().len(); // For the proof.
        self.blocks[at].insert(index, entry, page)?;
        note_first(&mut self.begins, self.blocks.as_slice(), at);
        mend(&mut self.begins, self.blocks.as_slice());
        Ok(())
    }

    /// Sets the page of a low.
    pub(crate) fn set_page(&mut self, at: usize, index: usize, page: u32)
        requires within { at < length self.old }
        requires low { index < length (block_at self.old at) }
        ensures { self.new ≡ slice_set self.old at
            (slice_set (block_at self.old at) index (low_at (block_at self.old at) index, page)) }
    {
        let _ = self.blocks.as_slice().len(); // For the proof.
        self.blocks[at].set_page(index, page);
    }

    /// Halves a block: its upper half becomes a block after it. A refusal changes nothing.
    pub(crate) fn halve(&mut self, at: usize) -> Result<(), AllocError>
        requires within { at < length self.old }
        requires long { 2 ≤ length (block_at self.old at) }
        ensures lows { flat self.new ≡ flat self.old }
        ensures filled { AreFilled self.old → AreFilled self.new }
    {
        let count = self.blocks.as_slice().len();
        self.blocks.reserve(1)?;
        let upper = self.blocks[at].split()?;
        let head = self.begins.head_of_first(&upper);
        match self.blocks.insert(at + 1, upper) {
            Ok(()) => {}
            Err(_) => unreachable!(),
        }
        self.begins.insert(count, at + 1, head);
        mend(&mut self.begins, self.blocks.as_slice());
        Ok(())
    }

    /// Removes a low of a block, and the block if it was the only one. No memory is taken.
    pub(crate) fn take_out(&mut self, at: usize, index: usize)
        requires within { at < length self.old }
        requires low { index < length (block_at self.old at) }
        ensures lows { flat self.new
            ≡ lows_before self.old at index ++ lows_behind self.old at (index + 1) }
        ensures filled { AreFilled self.old → AreFilled self.new }
    {
        let _ = self.blocks.as_slice().len(); // For the proof.
        self.blocks[at].remove(index);
        if self.blocks[at].len() == 0 {
            let _ = self.blocks.remove(at);
            self.begins.remove(at);
        } else {
            note_first(&mut self.begins, self.blocks.as_slice(), at);
        }
    }
}

// The row of the first lows takes that of a block which was changed. No memory is taken.
fn note_first(begins: &mut Row, blocks: &[Block], at: usize)
    requires { at < length blocks.now }
    ensures { (was : List (List Low)) (block : List Low) → blocks.now ≡ slice_set was at block
        → IsRow begins.old.shared.items begins.old.heads.items (firsts was)
        → IsRow begins.new.shared.items begins.new.heads.items (firsts blocks.now) }
{
    let head = begins.head_of_first(&blocks[at]);
    begins.set(at, head);
}

// Makes the row of the first lows anew if it is missing: only what takes memory anyway does so.
fn mend(begins: &mut Row, blocks: &[Block])
    ensures { IsRow begins.old.shared.items begins.old.heads.items (firsts blocks.now)
        → IsRow begins.new.shared.items begins.new.heads.items (firsts blocks.now) }
{
    if begins.is_missing() {
        *begins = Row::of_firsts(begins.allocator(), blocks);
    }
}
