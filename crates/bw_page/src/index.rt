//! All leaves at once: copied, and the index of their low keys.

ghost use Rattle.std.specs.Prelude.{◌≡◌, ◌≤◌, ◌<◌, ◌+◌, false, [], None, Some, drop, take, length, slice_index_or, if◌then◌else◌, IfOk};
ghost use Rattle.std.specs.List.{AllByRecursion};
ghost use Rattle.std.specs.FinMap.Entries.{find};
ghost use Rattle.std.specs.Ordering.{eq_by_cmp};
ghost use Rattle.bw_record.specs.Keys.{IsKey};
ghost use Rattle.bw_record.specs.declared.leaf.Leaf.{Leaf as LeafValue};
ghost use Rattle.bw_leaf.specs.Changed.{Bytes, order};
ghost use Rattle.bw_page.specs.Lows.{lows_of};
ghost use Rattle.bw_lows.specs.LowHeads.{page_of_low};
ghost use Rattle.bw_page.specs.Seats.{is_among};

use crate::seats::Seats;
use bw_codec::{Key, Leaf};
use bw_leaf::{HollowPage, fitted_copy};
use bw_lows::LowIndex;
use std::alloc::{AllocError, Global};

/// A copy of these leaves, all of them in memory, each in no more room than it needs.
pub(crate) fn copy_all(alloc: Global, leaves: &Seats) -> Result<Vec<Leaf>, AllocError>
    requires { leaves.now.evicted ≡ [] }
    ensures { IfOk result (λ copy. copy.items ≡ leaves.now.items) }
{
    let count = leaves.len();
    let mut copy = Vec::with_capacity(alloc, count)?;
    for at in 0..count {
        copy.push(fitted_copy(alloc, leaves.get(at))?)?;
    }
    Ok(copy)
}

/// A copy of these leaves with their seats, all of them in memory.
pub(crate) fn copy_seats(leaves: &Seats) -> Result<Seats, AllocError>
    requires { leaves.now.evicted ≡ [] }
    ensures items { IfOk result (λ copy. copy.items ≡ leaves.now.items) }
    ensures evicted { IfOk result (λ copy. copy.evicted ≡ []) }
{
    let alloc = leaves.allocator();
    let count = leaves.len();
    let mut copy = Seats::new(alloc);
    copy.reserve(count)?;
    for at in 0..count {
        copy.push(fitted_copy(alloc, leaves.get(at))?)?;
    }
    Ok(copy)
}

/// The page of each low key but that of the first leaf. It goes from the last leaf down, so that
/// the first of equal lows would count.
pub(crate) fn index_of(alloc: Global, leaves: &[Leaf]) -> Result<LowIndex, AllocError>
    requires some { 1 ≤ length leaves.now }
    requires keys { AllByRecursion (λ l. IsKey l.low) (drop 1 leaves.now) }
    ensures { IfOk result (λ index. (q : Bytes)
        → page_of_low index q ≡ find order q (lows_of (drop 1 leaves.now))) }
{
    let mut index = LowIndex::new(alloc);
    let mut at = leaves.len();
    while at > 1 {
        at -= 1;
        let leaf = &leaves[at];
        match Key::new(leaf.low.as_slice()) {
            Ok(low) => {
                index.insert(low, leaf.page)?;
            }
            Err(_) => unreachable!(),
        }
    }
    Ok(index)
}

/// The page of each low key but that of the first page, of pages that were found in the log.
pub(crate) fn index_of_found(alloc: Global, pages: &[HollowPage]) -> Result<LowIndex, AllocError>
    requires some { 1 ≤ length pages.now }
    requires keys { AllByRecursion (λ l. IsKey l.low) (drop 1 pages.now) }
    ensures { IfOk result (λ index. (q : Bytes)
        → page_of_low index q ≡ find order q (lows_of (drop 1 pages.now))) }
{
    let mut index = LowIndex::new(alloc);
    let mut at = pages.len();
    while at > 1 {
        at -= 1;
        let found = &pages[at];
        match Key::new(found.low()) {
            Ok(low) => {
                index.insert(low, found.page())?;
            }
            Err(_) => unreachable!(),
        }
    }
    Ok(index)
}

/// Takes off the last leaf, and its low key from the index, if there are more leaves than these. No
/// memory is taken.
pub(crate) fn take_above(leaves: &mut Seats, index: &mut LowIndex, pages: u32) -> Option<Leaf>
    requires over { length leaves.old.items ≤ pages + 1 }
    requires key { (d : LeafValue) → pages < length leaves.old.items
        → IsKey (slice_index_or leaves.old.items pages d).low }
    requires here { is_among (pages + 1) leaves.old.evicted ≡ false }
    ensures leaves { leaves.new.items ≡ take pages leaves.old.items }
    ensures evicted { leaves.new.evicted ≡ leaves.old.evicted }
    ensures upper { (d : LeafValue) → pages < length leaves.old.items
        → result ≡ Some (slice_index_or leaves.old.items pages d) }
    ensures kept { length leaves.old.items ≤ pages → index.new ≡ index.old }
    ensures dropped { (d : LeafValue) → pages < length leaves.old.items → (q : Bytes)
        → page_of_low index.new q
        ≡ (if eq_by_cmp order q (slice_index_or leaves.old.items pages d).low
        then None else page_of_low index.old q) }
{
    if leaves.len() <= pages as usize {
        return None;
    }
    let upper = leaves.pop();
    match Key::new(upper.low.as_slice()) {
        Ok(low) => {
            index.remove(&low);
        }
        Err(_) => unreachable!(),
    }
    Some(upper)
}
