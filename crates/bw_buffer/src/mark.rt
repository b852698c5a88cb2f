//! What a block does, in the few words that a table of places needs.

ghost use Rattle.std.specs.Prelude.{◌≡◌};
ghost use Rattle.bw_buffer.specs.Marks.{mark_of};

use bw_codec::Block;

/// Which pages a block changes, sets or splits.
#[derive(Debug, Clone, Copy, PartialEq, Eq)]
pub enum Mark {
    /// A Delta of this page.
    Changes(u32),
    /// A Base of this page.
    Sets(u32),
    /// A Split of the first page, whose new page is the second.
    Splits(u32, u32),
}

impl Mark {
    /// What this block does.
    pub fn of(block: &Block) -> Mark
        ensures { result ≡ mark_of block.now }
    {
        match block {
            Block::Delta { page, .. } => Mark::Changes(*page),
            Block::Base(leaf) => Mark::Sets(leaf.page),
            Block::Split { page, upper, .. } => Mark::Splits(*page, upper.page),
        }
    }
}
