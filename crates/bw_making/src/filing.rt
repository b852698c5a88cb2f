//! Blocks go into the frame in the making, and the places of their pages are noted.
//!
//! The two belong together: the next block of a page links to the place that was noted last. One
//! that was put and not noted would be passed over by whoever reads the page back.

ghost use Rattle.std.specs.Prelude.{◌≡◌, ◌≤◌, ◌<◌, ◌+◌, ◌-◌, ◌∷◌, [], false, length, slice_set, vec_len};
ghost use Rattle.std.specs.List.{AllByRecursion, fold};
ghost use Rattle.std.specs.Vec.{vec_capacity};
ghost use Rattle.bw_codec.specs.Grammar.{IsBlock};
ghost use Rattle.bw_record.specs.declared.block.Block.TheVariants.{Delta};
ghost use Rattle.bw_buffer.specs.Filling.{frame_of, size_of, with_all};
ghost use Rattle.bw_making.specs.Adding.{here_for, last_for, noted};
ghost use Rattle.bw_making.specs.Drafting.{AreIn, count_by, set_row};
ghost use Rattle.bw_making.specs.Filing.{AreOne, FitsDelta};

use crate::draft::Row;
use bw_buffer::Buffer;
use bw_codec::{Block, Packed, Place};

/// Puts the blocks of one record into the frame in the making, and notes where the last of them
/// stands: a Delta that joined stands where the one before it of its page does, and a Split stands
/// after all blocks.
pub fn file(making: &mut Buffer, newest: &mut Vec<Place>, page: u32, blocks: &[Block])
    requires unsealed { making.old.is_sealed ≡ false }
    requires fits { size_of (with_all making.old blocks.now) ≤ making.old.limit }
    requires lawful { AllByRecursion (IsBlock 32) blocks.now }
    requires one { AreOne page blocks.now }
    requires page { (1 ≤ page) × (page ≤ length newest.old.items) }
    requires room { vec_len newest.old < vec_capacity newest.old }
    ensures making { making.new ≡ with_all making.old blocks.now }
    ensures newest { newest.new.items ≡ noted newest.old.items page
        (here_for (frame_of making.old) page) (last_for (frame_of making.old) page)
        (length blocks.now) }
{
    let Ok(first) = making.put_all(blocks) else {
        unreachable!();
    };
    let _ = newest.as_slice().len(); // For the proof.
    if blocks.len() <= 1 {
        newest[page as usize - 1] = first;
        return;
    }
    let last = Place {
        frame: first.frame,
        index: making.count() - 1,
    };
    newest[page as usize - 1] = last;
    newest.push_reserved(last);
}

/// Puts a record into the frame in the making, and notes where its Delta stands: where the one that
/// it joined does, or after all blocks.
pub fn file_delta(
    making: &mut Buffer,
    newest: &mut Vec<Place>,
    page: u32,
    back: Place,
    item: &Packed,
)
    requires unsealed { making.old.is_sealed ≡ false }
    requires fits { FitsDelta making.old page item.now }
    requires lawful { IsBlock 32 (Delta page back (item.now ∷ [])) }
    requires page { (1 ≤ page) × (page ≤ length newest.old.items) }
    ensures making { making.new ≡ with_all making.old (Delta page back (item.now ∷ []) ∷ []) }
    ensures newest { newest.new.items ≡ slice_set newest.old.items (page - 1)
        (here_for (frame_of making.old) page) }
{
    let Ok(place) = making.put_record(page, &back, item) else {
        unreachable!();
    };
    let _ = newest.as_slice().len(); // For the proof.
    newest[page as usize - 1] = place;
}

/// Puts the blocks of a group into the frame in the making, all at once, and notes where the last
/// block of each of its pages stands.
pub fn file_all(making: &mut Buffer, newest: &mut Vec<Place>, rows: &[Row], blocks: &[Block])
    requires unsealed { making.old.is_sealed ≡ false }
    requires some { 1 ≤ length blocks.now }
    requires fits { size_of (with_all making.old blocks.now) ≤ making.old.limit }
    requires lawful { AllByRecursion (IsBlock 32) blocks.now }
    requires inside { AreIn (length newest.old.items) rows.now }
    requires room { vec_len newest.old + length rows.now ≤ vec_capacity newest.old }
    ensures making { making.new ≡ with_all making.old blocks.now }
    ensures newest { newest.new.items ≡ fold set_row newest.old.items rows.now }
{
    let Ok(_) = making.put_all(blocks) else {
        unreachable!();
    };
    set_all(newest, rows);
}

fn set_all(newest: &mut Vec<Place>, rows: &[Row])
    requires inside { AreIn (length newest.old.items) rows.now }
    requires room { vec_len newest.old + length rows.now ≤ vec_capacity newest.old }
    ensures { newest.new.items ≡ fold set_row newest.old.items rows.now }
{
    'rows: for at in 0..rows.len() {
        set_one(newest, rows[at]);
    }
}

fn set_one(newest: &mut Vec<Place>, row: Row)
    requires inside { (1 ≤ row.page) × (row.page ≤ length newest.old.items) }
    requires room { vec_len newest.old < vec_capacity newest.old }
    ensures items { newest.new.items ≡ set_row newest.old.items row }
    ensures count { length newest.new.items ≡ count_by row.made (length newest.old.items) }
    ensures len { vec_len newest.new ≤ vec_len newest.old + 1 }
    ensures capacity { vec_capacity newest.new ≡ vec_capacity newest.old }
{
    let _ = newest.as_slice().len(); // For the proof.
    newest[row.page as usize - 1] = row.place;
    match row.made {
        Some(_) => newest.push_reserved(row.place),
        None => {}
    }
}
