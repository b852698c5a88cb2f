//! Blocks, where they stand, and the frames of them that flushes write.

ghost use Rattle.std.specs.Prelude.{◌≡◌};
ghost use Rattle.bw_record.specs.Touch.{sets, touches, back_of};

use crate::leaf::Leaf;
use crate::ops::Ops;
use std::marker::Model;

/// Where a block stands: its frame's number, from 1, and its index in that frame, from 0. It does
/// not depend on the segment.
#[derive(Debug, Clone, Copy, PartialEq, Eq)]
pub struct Place {
    pub frame: u64,
    pub index: u32,
}

/// What became of a page.
#[derive(Drop)]
pub enum Block {
    /// The page was changed by these records, after the block at `back`.
    Delta { page: u32, back: Place, ops: Ops },
    /// The page is this leaf, whatever it was.
    Base(Leaf),
    /// The page lost all keys from the low key of `upper` on, after the block at `back`, and
    /// `upper` is the page that they became.
    Split { page: u32, back: Place, upper: Leaf },
}

impl Block {
    /// Whether the block says what a page is, whatever it was before.
    pub fn sets(&self, page: u32) -> bool
        ensures { result ≡ sets page self.now }
    {
        match self {
            Block::Delta { .. } => false,
            Block::Base(leaf) => leaf.page == page,
            Block::Split { upper, .. } => upper.page == page,
        }
    }

    /// Whether the block says anything of a page.
    pub fn touches(&self, page: u32) -> bool
        ensures { result ≡ touches page self.now }
    {
        match self {
            Block::Delta { page: of, .. } => *of == page,
            Block::Base(leaf) => leaf.page == page,
            Block::Split {
                page: of,
                upper,
                ..
            } => *of == page || upper.page == page,
        }
    }

    /// Where the block of a page before this one stands, if this one changes or splits that page. A
    /// block that sets the page has none.
    pub fn back(&self, page: u32) -> Option<Place>
        ensures { result ≡ back_of page self.now }
    {
        match self {
            Block::Base(_) => None,
            Block::Delta { page: of, back, .. } | Block::Split { page: of, back, .. } => {
                if *of == page { Some(*back) } else { None }
            }
        }
    }
}

/// Blocks, in the order in which they apply.
#[derive(Drop)]
pub struct Blocks {
    items: Vec<Block>,
}

impl Model for Blocks {
    ghost use Rattle.std.specs.Prelude.{List};
    ghost use Rattle.bw_record.specs.declared.block.Block.{Block};

    ghost Value = { List Block };

    ghost view = { λ b. b.items.items };
}

impl Blocks {
    /// Blocks as they stand in a `Vec`.
    pub fn of(items: Vec<Block>) -> Blocks
        ensures { result ≡ items.items }
    {
        Blocks { items }
    }

    /// The `Vec` again. No memory is taken.
    pub fn into_vec(self) -> Vec<Block>
        ensures { result.items ≡ self }
    {
        let Blocks { items } = self;
        items
    }

    /// The blocks.
    pub fn as_slice(&self) -> &[Block]
        ensures { result.now ≡ self.now }
    {
        self.items.as_slice()
    }
}

/// What one flush wrote.
#[derive(Drop)]
pub struct Frame {
    /// From 1, one after the other over all segments of a log.
    pub number: u64,
    pub blocks: Blocks,
}
