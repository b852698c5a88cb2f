//! A frame laid out: heads and gaps first, then each piece into the gap of its block.
//!
//! The pieces of one Delta stand apart from each other, in the order in which records came.
//! Gathered block by block, each block would look at all pieces, and a frame of many small Deltas
//! would cost the square. So one pass writes the heads and leaves a gap for each block's pieces,
//! and a second one writes each piece where its block's gap goes on. Neither takes memory: all room
//! was reserved when the buffer was made.

ghost use Rattle.std.specs.Prelude.{◌≡◌, ◌≤◌, ◌<◌, ◌+◌, ◌-◌, ◌∷◌, ◌++◌, ◌^◌, [], length, replicate, slice_index, slice_set};
ghost use Rattle.std.specs.List.{AllByRecursion};
ghost use Rattle.std.specs.Vec.{vec_capacity};
ghost use Rattle.bw_codec.specs.Grammar.{head_bytes};
ghost use Rattle.bw_codec.specs.Writing.{HasRoom, Adds};
ghost use Rattle.bw_buffer.specs.Gaps.{zeros, written};
ghost use Rattle.bw_buffer.specs.Rows.{parts, pieces_length, front_of, laid, IsFewBy, AreMeasured};

use crate::mark::Mark;
use crate::rows::{Piece, Row};
use bw_codec::{frame_cells, write_delta_head};

/// Appends bytes that are there already.
pub(crate) fn copy_in(spelled: &[u8], bytes: &mut Vec<u8>)
    requires { HasRoom bytes.old (length spelled.now) }
    ensures { Adds bytes.old bytes.new spelled.now }
{
    match bytes.extend_from_slice(spelled) {
        Ok(()) => {}
        Err(_) => unreachable!(),
    }
}

// Appends so many zeros.
fn push_gap(len: u32, bytes: &mut Vec<u8>)
    requires room { HasRoom bytes.old len }
    requires few { length bytes.old.items + len < 2 ^ 32 }
    ensures { Adds bytes.old bytes.new (replicate len 0) }
{
    let end = bytes.as_slice().len() + len as usize;
    match bytes.resize(end, 0) {
        Ok(()) => {}
        Err(_) => unreachable!(),
    }
}

/// Appends what stands before a block's pieces.
pub(crate) fn push_front(row: &Row, bytes: &mut Vec<u8>)
    requires room { HasRoom bytes.old (length (front_of row.now)) }
    requires few { IsFewBy row.now.mark row.now.ops }
    ensures { Adds bytes.old bytes.new (front_of row.now) }
{
    match row.mark {
        Mark::Changes(page) => write_delta_head(page, &row.back, row.ops as u16, bytes),
        Mark::Sets(_) => {}
        Mark::Splits(_, _) => {}
    }
}

// Appends what stands before a block's pieces, and a gap for them, and notes where the gap begins.
fn push_row(row: &Row, spots: &mut Vec<u32>, bytes: &mut Vec<u8>)
    requires few { IsFewBy row.now.mark row.now.ops }
    requires room { HasRoom bytes.old (length (front_of row.now) + row.now.len) }
    requires short { length bytes.old.items + (length (front_of row.now) + row.now.len) ≤ 262144 }
    requires spot { HasRoom spots.old 1 }
    ensures bytes { Adds bytes.old bytes.new (front_of row.now ++ zeros row.now.len) }
    ensures spots { Adds spots.old spots.new
        ((length bytes.old.items + length (front_of row.now)) ∷ []) }
{
    push_front(row, bytes);
    spots.push_reserved(bytes.as_slice().len() as u32);
    push_gap(row.len, bytes);
}

// Writes over bytes from an index on.
fn write_at(bytes: &mut [u8], at: usize, piece: &[u8])
    requires { at + length piece.now ≤ length bytes.old }
    ensures { bytes.new ≡ written at piece.now bytes.old }
{
    bytes[at..at + piece.len()].copy_from_slice(piece);
}

// Writes a piece where its block's spot is, which moves on after it.
fn put_piece(block: u32, piece: &[u8], spots: &mut Vec<u32>, bytes: &mut Vec<u8>)
    requires spot { block < length spots.old.items }
    requires within { slice_index spots.old.items block + length piece.now
        ≤ length bytes.old.items }
    requires short { length bytes.old.items ≤ 262144 }
    ensures bytes { bytes.new.items
        ≡ written (slice_index spots.old.items block) piece.now bytes.old.items }
    ensures spots { spots.new.items ≡ slice_set spots.old.items block
        (slice_index spots.old.items block + length piece.now) }
    ensures bytes_room { vec_capacity bytes.new ≡ vec_capacity bytes.old }
    ensures spots_room { vec_capacity spots.new ≡ vec_capacity spots.old }
{
    let at = spots[block as usize];
    write_at(bytes.as_mut_slice(), at as usize, piece);
    spots[block as usize] = at + piece.len() as u32;
}

/// Lays out a frame of so many bytes.
pub(crate) fn lay_out(
    number: u64,
    size: u32,
    rows: &[Row],
    pieces: &[Piece],
    arena: &[u8],
    spots: &mut Vec<u32>,
    bytes: &mut Vec<u8>,
)
    requires measured { AreMeasured 0 rows.now (parts pieces.now arena.now) }
    requires within { AllByRecursion (λ q. q.block < length rows.now) pieces.now }
    requires parted { pieces_length pieces.now ≡ length arena.now }
    requires size { size ≡ 20 + length (laid 0 rows.now (parts pieces.now arena.now)) }
    requires short { size ≤ 262144 }
    requires few { length rows.now < 2 ^ 32 }
    requires room { size ≤ vec_capacity bytes.old }
    requires spots { length rows.now ≤ vec_capacity spots.old }
    ensures bytes { bytes.new.items ≡ head_bytes number (size - 20) (length rows.now)
        ++ laid 0 rows.now (parts pieces.now arena.now) }
    ensures capacity { vec_capacity bytes.old ≤ vec_capacity bytes.new }
    ensures spots { vec_capacity spots.old ≤ vec_capacity spots.new }
{
    bytes.clear();
    spots.clear();
    copy_in(&frame_cells(number, size - 20, rows.len() as u32), bytes);
    for row in rows {
        push_row(row, spots, bytes);
    }
    let mut rest = arena;
    for piece in pieces {
        let (spelled, behind) = rest.split_at(piece.len as usize);
        put_piece(piece.block, spelled, spots, bytes);
        rest = behind;
    }
}
