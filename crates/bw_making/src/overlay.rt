//! What the frame in the making does to a page that the log has.
//!
//! A page that leaves memory is the page in the log with the records that the frame in the making
//! has of it: its overlay. Nothing is kept for that beside the frame, so a record that is taken
//! costs nothing here: the records are read back out of the frame when somebody asks for the page.
//! A page that the frame makes or splits has no overlay: it stays until the log has it whole.

ghost use Rattle.std.specs.Prelude.{◌≡◌, ◌<◌, ◌++◌, length, slice_get, IfOk, IfSome, OnOk};
ghost use Rattle.bw_making.specs.Share.{ops_at, ops_of};
ghost use Rattle.bw_making.specs.Overlay.{is_made, changed_by, made_by};

use bw_buffer::{Buffer, Mark};
use bw_codec::{Block, Packed};
use std::alloc::{AllocError, Global};

/// Whether the frame makes a page or splits it. It costs a look at each block, and takes no memory.
pub fn makes(making: &Buffer, page: u32) -> bool
    ensures { result ≡ is_made page making.now.blocks }
{
    'marks: for i in 0..making.count() {
        if mark_makes(making.mark(i), page) {
            return true;
        }
    }
    false
}

// Whether one block makes the page or splits it.
fn mark_makes(mark: Mark, page: u32) -> bool
    ensures { result ≡ made_by page mark }
{
    match mark {
        Mark::Changes(_) => false,
        Mark::Sets(of) => of == page,
        Mark::Splits(of, upper) => of == page || upper == page,
    }
}

// Whether a block is a Delta of a page.
fn mark_changes(mark: Mark, page: u32) -> bool
    ensures { result ≡ changed_by page mark }
{
    match mark {
        Mark::Changes(of) => of == page,
        Mark::Sets(_) => false,
        Mark::Splits(_, _) => false,
    }
}

/// The records that the frame has of a page, in order. It costs a look at each block, and a reading
/// of the page's Deltas; if there is none, no memory is taken.
pub fn overlay_of(alloc: Global, making: &Buffer, page: u32) -> Result<Vec<Packed>, AllocError>
    ensures { IfOk result (λ records. records.items ≡ ops_at page making.now.blocks) }
{
    let mut records = Vec::new(alloc);
    'marks: for i in 0..making.count() {
        add_block(&mut records, making, i, page)?;
    }
    Ok(records)
}

// Adds the records that one block has of the page.
fn add_block(
    records: &mut Vec<Packed>,
    making: &Buffer,
    i: u32,
    page: u32,
) -> Result<(), AllocError>
    requires { i < length making.now.blocks }
    ensures { OnOk result (IfSome (slice_get making.now.blocks i)
        (λ block. records.new.items ≡ records.old.items ++ ops_of page block)) }
{
    if !mark_changes(making.mark(i), page) {
        return Ok(());
    }
    let block = making.block(*records.allocator(), i)?;
    add_ops(records, &block, page)
}

// Adds the records that a block has of the page, which was read.
fn add_ops(records: &mut Vec<Packed>, block: &Block, page: u32) -> Result<(), AllocError>
    ensures { OnOk result (records.new.items ≡ records.old.items ++ ops_of page block.now) }
{
    match block {
        Block::Delta { page: of, ops, .. } => {
            if *of == page {
                add_all(records, ops.as_slice())
            } else {
                Ok(())
            }
        }
        Block::Base(_) => Ok(()),
        Block::Split { .. } => Ok(()),
    }
}

// Adds copies of all these records.
fn add_all(records: &mut Vec<Packed>, ops: &[Packed]) -> Result<(), AllocError>
    ensures { OnOk result (records.new.items ≡ records.old.items ++ ops.now) }
{
    for item in ops {
        records.push(item.copy()?)?;
    }
    Ok(())
}
