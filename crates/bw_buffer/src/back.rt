//! A block of the frame in the making, read back out of its pieces.
//!
//! A page may leave memory while the frame in the making still has records of it. It is then read
//! from the log, and without these records a value that was put and not yet flushed would be gone
//! until the next flush. Nothing is kept beside the frame for that, since each record would cost
//! its bytes twice: the block is spelled out of the frame's own pieces when it is asked for. That
//! looks at all pieces of the frame, and only pages that left memory pay for it.

ghost use Rattle.std.specs.Prelude.{◌≡◌, ◌++◌, [], length, if◌then◌else◌, IfOk, OnOk};
ghost use Rattle.bw_codec.specs.Grammar.{block_bytes, IsBlock};
ghost use Rattle.bw_record.specs.declared.block.Block.{Block as BlockValue};
ghost use Rattle.bw_buffer.specs.Filling.{SpellsBlock};
ghost use Rattle.bw_buffer.specs.Rows.{bytes_at, front_of, parts, pieces_length, IsFewBy};

use crate::layout::push_front;
use crate::rows::{DELTA_HEAD, Piece, Row};
use bw_codec::limits::{LATEST, MAX_PAIRS};
use bw_codec::{Block, CodecFault, read_block};
use std::alloc::{AllocError, Global};

/// The bytes of the block of this row and index: what stands before its pieces, and then these. All
/// pieces are looked at.
pub(crate) fn spelled(
    alloc: Global,
    block: u32,
    row: &Row,
    pieces: &[Piece],
    arena: &[u8],
) -> Result<Vec<u8>, AllocError>
    requires few { IsFewBy row.now.mark row.now.ops }
    requires parted { pieces_length pieces.now ≡ length arena.now }
    ensures { IfOk result (λ bytes. bytes.items
        ≡ front_of row.now ++ bytes_at block (parts pieces.now arena.now)) }
{
    let mut bytes = Vec::with_capacity(alloc, DELTA_HEAD as usize + row.len as usize)?;
    push_front(row, &mut bytes);
    let mut rest = arena;
    for piece in pieces {
        let (front, behind) = rest.split_at(piece.len as usize);
        push_if(piece.block == block, front, &mut bytes)?;
        rest = behind;
    }
    Ok(bytes)
}

// Appends a piece, if it is one of the block's.
fn push_if(is_its: bool, piece: &[u8], bytes: &mut Vec<u8>) -> Result<(), AllocError>
    ensures { OnOk result (bytes.new.items
        ≡ bytes.old.items ++ (if is_its then piece.now else [])) }
{
    if !is_its {
        return Ok(());
    }
    bytes.extend_from_slice(piece)
}

/// The lawful block that these bytes spell.
pub(crate) fn block_from(alloc: Global, bytes: &[u8]) -> Result<Block, AllocError>
    requires { SpellsBlock bytes.now }
    ensures { (block : BlockValue) → IsBlock 32 block → bytes.now ≡ block_bytes block
        → IfOk result (λ b. b ≡ block) }
{
    match read_block(alloc, bytes, LATEST, MAX_PAIRS) {
        Ok(block) => Ok(block),
        Err(CodecFault::NoMemory) => Err(AllocError),
        Err(CodecFault::BadBytes) => unreachable!(),
    }
}
