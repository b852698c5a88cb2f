//! One page, read forwards over blocks. The log, the cleaner and recovery all read pages so.

ghost use Rattle.std.specs.Prelude.{◌≡◌, IfOk};
ghost use Rattle.std.specs.List.{fold};
ghost use Rattle.bw_leaf.specs.Changed.{all_changed};
ghost use Rattle.bw_leaf.specs.Forwards.{after, kept_below};

use crate::draft::Draft;
use bw_codec::{Block, Leaf, Packed, Pairs};
use std::alloc::AllocError;

/// The leaf after records, one after the other, whose bytes it then shares. A refused growth is the
/// only error; the leaf is then dropped.
pub fn change_all(leaf: Leaf, records: &[Packed]) -> Result<Leaf, AllocError>
    ensures { IfOk result (λ l. l ≡ all_changed records.now leaf) }
{
    Draft::of(leaf).change_all(records)?.into_leaf()
}

/// The leaf without its pairs from a key on, in no more room than the others take. It is never
/// refused; if memory is wanting, it keeps its room, or has no row of heads.
pub fn keep_below(leaf: Leaf, separator: &[u8]) -> Leaf
    ensures { result ≡ kept_below separator.now leaf }
{
    let page = leaf.page;
    let (low, pairs) = leaf.into_parts();
    let mut kept = pairs.into_vec();
    kept.retain(|pair| bw_codec::is_before(pair.key(), separator));
    kept.shrink_to_fit();
    Leaf {
        page,
        low,
        pairs: Pairs::of(kept),
    }
}

// A page to be read on, if it was set.
fn opened(was: Option<Leaf>) -> Option<Draft>
    ensures { result ≡ was }
{
    match was {
        Some(leaf) => Some(Draft::of(leaf)),
        None => None,
    }
}

// A page that was read, if it was set.
fn closed(draft: Option<Draft>) -> Result<Option<Leaf>, AllocError>
    ensures { IfOk result (λ leaf. leaf ≡ draft) }
{
    match draft {
        Some(draft) => Ok(Some(draft.into_leaf()?)),
        None => Ok(None),
    }
}

/// What a page is after one more block, if it was `was` before; `None` if it was never set. A block
/// that does not touch the page costs a look at its numbers. A refused growth is the only error;
/// leaf and block are then dropped.
pub fn read_block(page: u32, was: Option<Leaf>, block: Block) -> Result<Option<Leaf>, AllocError>
    ensures { IfOk result (λ leaf. leaf ≡ after page was block) }
{
    closed(Draft::after(page, opened(was), block)?)
}

/// What a page is after blocks, one after the other, if it was `was` before. A refused growth is
/// the only error; leaf and blocks are then dropped.
pub fn read_blocks(
    page: u32,
    was: Option<Leaf>,
    blocks: Vec<Block>,
) -> Result<Option<Leaf>, AllocError>
    ensures { IfOk result (λ leaf. leaf ≡ fold (after page) was blocks.items) }
{
    closed(Draft::after_all(page, opened(was), blocks)?)
}
