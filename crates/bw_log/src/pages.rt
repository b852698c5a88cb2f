//! Reading back: segments as they are, and pages by the links from block to block.
//!
//! The blocks of a page lie scattered over the log. Each Delta and Split says where the block
//! before it stands, so a page is read from its last block back to the one that sets it, and the
//! blocks read are then applied forwards. By the law of locality that is what a reading of the
//! whole log gives.

ghost use Rattle.std.specs.Prelude.{◌≡◌, ◌≢◌, ◌↔◌, ◌∷◌, ◌++◌, [], Some, None, Err, true, false, reverse, IfOk, OnErr, MatchOption};
ghost use Rattle.std.specs.List.{fold};
ghost use Rattle.bw_record.specs.Touch.{sets};
ghost use Rattle.bw_leaf.specs.Forwards.{after, content, blocks_of};
ghost use Rattle.bw_log.specs.Places.{all_placed};
ghost use Rattle.bw_log.specs.Contents.{counted};
ghost use Rattle.bw_log.specs.Reads.{IsPage, IsKept, IsNumbered, HoldsPage, ReadStops, segment_at};
ghost use Rattle.bw_log.specs.Walking.{first_back, IsWalk};

use crate::fault::LogFault;
use crate::log::Log;
use bw_codec::{Block, Leaf, Place};
use bw_device::len_of;
use bw_page::Draft;
use std::alloc::AllocError;

// Whether a block sets a page.
fn sets_page(page: u32, block: &Block) -> bool
    ensures { result ≡ sets page block.now }
{
    match block {
        Block::Delta { .. } => false,
        Block::Base(leaf) => leaf.page == page,
        Block::Split { upper, .. } => upper.page == page,
    }
}

/// Where a block links back to, if it changes this page.
pub(crate) fn back_of(page: u32, block: &Block) -> Option<Place>
    ensures { result ≡ first_back page (block.now ∷ []) }
{
    match block {
        Block::Delta { page: of, back, .. } => { if *of == page { Some(*back) } else { None } }
        Block::Base(_) => None,
        Block::Split { page: of, back, .. } => { if *of == page { Some(*back) } else { None } }
    }
}

// What a page is after these blocks, of which the first is the newest.
fn replay(blocks: Vec<Block>, page: u32) -> Result<Option<Leaf>, AllocError>
    ensures { IfOk result (λ leaf. leaf ≡ fold (after page) None (reverse blocks.items)) }
{
    let mut blocks = blocks;
    let mut draft = None;
    while let Some(block) = blocks.pop() {
        draft = Draft::after(page, draft, block)?;
    }
    match draft {
        Some(draft) => Ok(Some(draft.into_leaf()?)),
        None => Ok(None),
    }
}

impl Log {
    ghost use Rattle.bw_log.specs.Views.{seen_by, IsSound};

    // The blocks of a page, from the newest back to the one that sets it last.
    fn walk(&mut self, page: u32, start: Place) -> Result<Vec<Block>, LogFault>
        requires sound { IsSound holding self.old }
        requires starts { IsWalk page (all_placed (counted (seen_by holding self.old))) start [] }
        ensures walked { IfOk result (λ blocks.
            content page (blocks_of (counted (seen_by holding self.old)))
            ≡ fold (after page) None (reverse blocks.items)) }
        ensures stops { ReadStops (HoldsPage (seen_by holding self.old) page)
            (seen_by holding self.old) result (seen_by holding self.new) }
        ensures paged { result ≢ Err LogFault.NoPage }
    {
        let mut blocks = Vec::new(*self.frames.allocator());
        let mut place = start;
        'back: loop {
            let block = self.block_at(place)?;
            let ends = sets_page(page, &block);
            let link = back_of(page, &block);
            blocks.push(block)?;
            if ends {
                return Ok(blocks);
            }
            match link {
                Some(back) => place = back,
                None => unreachable!(),
            }
        }
    }

    /// A page as the counted frames leave it, by the links back from its last block. It reads the
    /// blocks of the page, from the newest to the one that sets it last, and holds them in memory
    /// together. Of a frame of which no block was read before it reads all bytes, once. A page that
    /// is not there is `NoPage`. `Device` names the segment that failed and does not make the log
    /// `Failed`. `Spent` comes if no more failure of a segment that has to be read could be
    /// counted.
    pub fn read_page(&mut self, page: u32) -> Result<Leaf, LogFault>
        requires { IsSound holding self.old }
        ensures page { IfOk result (λ leaf.
            content page (blocks_of (counted (seen_by holding self.old))) ≡ Some leaf) }
        ensures sound { IsSound holding self.new }
        ensures kept { IsKept (seen_by holding self.old) (seen_by holding self.new) }

        ensures no_page { result ≡ Err LogFault.NoPage
            ↔ (IsPage (seen_by holding self.old) page → ⊥) }
        ensures stops { ReadStops (HoldsPage (seen_by holding self.old) page)
            (seen_by holding self.old) result (seen_by holding self.new) }
    {
        let Some(entry) = self.page_at(page) else {
            return Err(LogFault::NoPage);
        };
        let blocks = self.walk(page, entry.place)?;
        match replay(blocks, page) {
            Ok(Some(leaf)) => Ok(leaf),
            Ok(None) => unreachable!(),
            Err(_) => Err(LogFault::NoMemory),
        }
    }

    /// Appends the bytes of the live segment with this number to a `Vec`; answers `false` if no
    /// live segment has it. A refusal leaves the `Vec` as it was.
    pub fn dump(&mut self, segment: u64, out: &mut Vec<u8>) -> Result<bool, LogFault>
        requires { IsSound holding self.old }
        ensures found { IfOk result (λ found.
            MatchOption (segment_at (seen_by holding self.old) segment)
            ((found ≡ false) × (out.new.items ≡ out.old.items))
            (λ h. (found ≡ true) × (out.new.items ≡ out.old.items ++ h.bytes))) }
        ensures sound { IsSound holding self.new }
        ensures kept { IsKept (seen_by holding self.old) (seen_by holding self.new) }

        ensures unchanged { OnErr result (out.new.items ≡ out.old.items) }
        ensures stops { ReadStops (IsNumbered (seen_by holding self.old) segment)
            (seen_by holding self.old) result (seen_by holding self.new) }
        ensures no_page { result ≢ Err LogFault.NoPage }
    {
        if segment < self.number || segment - self.number >= self.live.len() as u64 {
            return Ok(false);
        }
        let at = (segment - self.number) as usize;
        let len = len_of(&self.live, at) as u32;
        self.read_onto(at, 0, len, out)?;
        Ok(true)
    }
}
