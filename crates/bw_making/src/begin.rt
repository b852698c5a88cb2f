//! The frame in the making, as it begins.

ghost use Rattle.std.specs.Prelude.{◌≡◌, ◌≤◌, ◌∷◌, [], length, true, false, IfOk, IfSome};
ghost use Rattle.std.specs.List.{AllByRecursion};
ghost use Rattle.bw_codec.specs.Grammar.{IsBlock};
ghost use Rattle.bw_record.specs.declared.block.Block.TheVariants.{Base};
ghost use Rattle.bw_buffer.specs.Filling.{size_of, with_all};
ghost use Rattle.bw_leaf.specs.Changed.{empty_leaf};
ghost use Rattle.bw_making.specs.Begun.{first_making, IsNext};

use bw_buffer::Buffer;
use bw_codec::Block;
use bw_page::empty_page;
use std::alloc::{AllocError, Global};

/// The frame in the making of a new store: the first, with the first page.
pub fn first_frame(alloc: Global, f: u32) -> Result<Buffer, AllocError>
    requires { (65536 ≤ f) × (f ≤ 262144) }
    ensures { IfOk result (λ b. b ≡ first_making f) }
{
    let blocks = first_blocks(alloc)?;
    let mut making = Buffer::new(alloc, 1, f)?;
    put_first(&mut making, &blocks);
    Ok(making)
}

fn first_blocks(alloc: Global) -> Result<Vec<Block>, AllocError>
    ensures { IfOk result (λ bs. bs.items ≡ Base empty_leaf ∷ []) }
{
    let mut blocks = Vec::new(alloc);
    blocks.push(Block::Base(empty_page(alloc)))?;
    Ok(blocks)
}

fn put_first(making: &mut Buffer, blocks: &[Block])
    requires unsealed { making.old.is_sealed ≡ false }
    requires some { 1 ≤ length blocks.now }
    requires lawful { AllByRecursion (IsBlock 32) blocks.now }
    requires fits { size_of (with_all making.old blocks.now) ≤ making.old.limit }
    ensures { making.new ≡ with_all making.old blocks.now }
{
    let Ok(_) = making.put_all(blocks) else {
        unreachable!();
    };
}

/// The frame in the making of a store that goes on: the next one, if it has a number.
pub fn next_buffer(alloc: Global, next: Option<u64>, f: u32) -> Result<Buffer, AllocError>
    requires some { IfSome next (λ n. 1 ≤ n) }
    requires limit { (65536 ≤ f) × (f ≤ 262144) }
    ensures limit { IfOk result (λ b. b.limit ≡ f) }
    ensures empty { IfOk result (λ b. b.blocks ≡ []) }
    ensures unsealed { IfOk result (λ b. b.is_sealed ≡ false) }
    ensures number { IfOk result (λ b. IfSome next (λ n. b.frame ≡ n)) }
{
    match next {
        Some(next) => Buffer::new(alloc, next, f),
        None => Buffer::new(alloc, 1, f),
    }
}

/// Makes a sealed buffer the empty one of the next frame, if there is a number for it.
pub fn begin_next(making: &mut Buffer)
    requires { making.old.is_sealed ≡ true }
    ensures { IsNext making.old making.new }
{
    let next = making.frame().saturating_add(1);
    making.restart(next);
}

/// Gives an empty buffer the next frame's number, if there is one, and seals it if an append
/// failed.
pub fn begin_at(making: &mut Buffer, next: Option<u64>, failed: bool)
    requires empty { making.old.blocks ≡ [] }
    requires unsealed { making.old.is_sealed ≡ false }
    requires numbered { IfSome next (λ n. 1 ≤ n) }
    ensures limit { making.new.limit ≡ making.old.limit }
    ensures empty { making.new.blocks ≡ [] }
    ensures sealed { making.new.is_sealed ≡ failed }
    ensures number { IfSome next (λ n. making.new.frame ≡ n) }
{
    if let Some(next) = next {
        making.restart(next);
    }
    if failed {
        making.seal();
    }
}
