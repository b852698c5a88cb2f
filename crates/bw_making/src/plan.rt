//! What one record adds to the frame in the making, if it splits its page.
//!
//! Nearly no record does, and none of the others is planned: what it adds is one Delta, which the
//! frame takes by only the record (`file_delta`).

ghost use Rattle.std.specs.Prelude.{◌≡◌, ◌≤◌, ◌<◌, ◌+◌, ◌-◌, ◌^◌, Some, length, slice_get, IfOk, IfErr, OnOk};
ghost use Rattle.bw_record.specs.Record.{key_of};
ghost use Rattle.bw_leaf.specs.Changed.{changed};
ghost use Rattle.bw_page.specs.Leaves.{directed_at, result_of, HasPage};
ghost use Rattle.bw_page.specs.Shown.{IsHere};
ghost use Rattle.bw_making.specs.Adding.{upper_if, blocks_for};
ghost use Rattle.bw_making.specs.Planning.{listed, IsWantingAt};

use crate::blocks::{Blocks, blocks_of};
use bw_codec::{Leaf, Place, Record};
use bw_page::{ApplyError, Halves, Leaves, change, count_after, split_in_two};
use std::alloc::Global;

/// A record's page, the block before on that page, and the record's blocks.
#[derive(Drop)]
pub struct Plan {
    pub page: u32,
    pub back: Place,
    pub blocks: Blocks,
}

// The upper part of a leaf, if the record splits it.
fn upper_of(
    alloc: Global,
    m: u16,
    leaf: &Leaf,
    item: &Record,
    pages: u32,
) -> Result<Option<Leaf>, ApplyError>
    requires { 1 ≤ m }
    ensures upper { IfOk result (λ o. o ≡ upper_if m (pages + 1) (changed item.now leaf.now)) }
    ensures room { OnOk result (m < length (changed item.now leaf.now).pairs → pages + 1 < 2 ^ 32) }
    ensures refused { IfErr result
        (IsWantingAt m (length (changed item.now leaf.now).pairs) pages) }
{
    if count_after(leaf, item) <= usize::from(m) {
        return Ok(None);
    }
    let Some(page) = pages.checked_add(1) else {
        return Err(ApplyError::Spent);
    };
    let mut whole = leaf.copy()?;
    change(&mut whole, item)?;
    let Halves { lower: _, upper } = split_in_two(alloc, m, whole, page)?;
    Ok(Some(upper))
}

/// What a record of this page adds, the first of its blocks here.
pub fn planned_for(
    alloc: Global,
    leaves: &Leaves,
    newest: &[Place],
    here: Place,
    page: u32,
    item: &Record,
) -> Result<Plan, ApplyError>
    requires here { IsHere (key_of item.now) leaves.now }
    requires page { page ≡ directed_at leaves.now.leaves item.now }
    requires within { (1 ≤ page) × (page ≤ length leaves.now.leaves) }
    requires count { length newest.now ≡ length leaves.now.leaves }
    ensures page { IfOk result (λ p. p.page ≡ directed_at leaves.now.leaves item.now) }
    ensures back { IfOk result (λ p. slice_get newest.now (p.page - 1) ≡ Some p.back) }
    ensures room { OnOk result (HasPage leaves.now.m leaves.now.leaves item.now) }
    ensures blocks { IfOk result (λ p. listed p.blocks
        ≡ blocks_for leaves.now.m leaves.now.leaves p.back here item.now) }
    ensures refused { IfErr result (IsWantingAt leaves.now.m
        (length (result_of leaves.now.leaves item.now).pairs) (length leaves.now.leaves)) }
{
    let _ = item.key(); // For the proof.
    let back = newest[page as usize - 1];
    let pages = leaves.count();
    let Some(leaf) = leaves.page(page) else {
        unreachable!();
    };
    let upper = upper_of(alloc, leaves.limit(), leaf, item, pages)?;
    let blocks = blocks_of(alloc, page, back, here, item, upper)?;
    Ok(Plan { page, back, blocks })
}
