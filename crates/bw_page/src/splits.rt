//! A leaf changed in its place and split in two by the split rule, among all pages.

ghost use Rattle.std.specs.Prelude.{◌≡◌, ◌<◌, ◌≤◌, ◌+◌, ◌++◌, false, [], ◌∷◌, length, slice_set, slice_index_or, Some, if◌then◌else◌, OnOk, OnErr, IfOk};
ghost use Rattle.std.specs.Ordering.{eq_by_cmp};
ghost use Rattle.bw_record.specs.Record.{key_of};
ghost use Rattle.bw_record.specs.declared.leaf.Leaf.{Leaf as LeafValue};
ghost use Rattle.bw_leaf.specs.Changed.{Bytes, order, changed};
ghost use Rattle.bw_leaf.specs.SplitRule.{lower_of, upper_of};
ghost use Rattle.bw_page.specs.Splitting.{changed_at};
ghost use Rattle.bw_lows.specs.LowHeads.{page_of_low};
ghost use Rattle.bw_page.specs.Seats.{is_among};
ghost use Rattle.bw_leaf.specs.Seek.{seek_of, IsWithin, AddsOne};

use crate::seats::Seats;
use bw_codec::{Leaf, Low, Packed};
use bw_leaf::{half_of, new_pair};
use bw_lows::LowIndex;
use std::alloc::{AllocError, Global};

/// Changes a leaf by a record that adds one pair too many, if the search for its key ended so, and
/// moves off the part that becomes a new page, whose low key goes into the index. A refusal changes
/// nothing.
pub(crate) fn split_leaf(
    index: &mut LowIndex,
    m: u16,
    leaf: &mut Leaf,
    found: Result<usize, usize>,
    item: &Packed,
    page: u32,
) -> Result<Leaf, AllocError>
    requires some { 1 ≤ m }
    requires found { found ≡ seek_of (key_of item.now) leaf.old.pairs }
    requires within { IsWithin (length leaf.old.pairs) found }
    requires adds { AddsOne item.now found }
    requires over { m < length (changed item.now leaf.old).pairs }
    ensures lower { OnOk result (leaf.new ≡ lower_of m (changed item.now leaf.old)) }
    ensures upper { IfOk result (λ upper. upper ≡ upper_of m page (changed item.now leaf.old)) }
    ensures index { (q : Bytes) → OnOk result (page_of_low index.new q
        ≡ (if eq_by_cmp order q (upper_of m page (changed item.now leaf.old)).low
        then Some page else page_of_low index.old q)) }
    ensures leaf_stays { OnErr result (leaf.new ≡ leaf.old) }
    ensures index_stays { OnErr result (index.new ≡ index.old) }
{
    let (at, own) = new_pair(found, item)?;
    leaf.pairs.insert(at, own)?;
    match sever(index, m, leaf, page) {
        Ok(upper) => Ok(upper),
        Err(error) => {
            leaf.pairs.remove(at);
            Err(error)
        }
    }
}

// Moves the part off a leaf that becomes a new page, whose low key goes into the index. A refusal
// changes nothing.
fn sever(index: &mut LowIndex, m: u16, leaf: &mut Leaf, page: u32) -> Result<Leaf, AllocError>
    requires some { 1 ≤ m }
    requires over { m < length leaf.old.pairs }
    ensures lower { OnOk result (leaf.new ≡ lower_of m leaf.old) }
    ensures upper { IfOk result (λ upper. upper ≡ upper_of m page leaf.old) }
    ensures index { (q : Bytes) → OnOk result (page_of_low index.new q
        ≡ (if eq_by_cmp order q (upper_of m page leaf.old).low
        then Some page else page_of_low index.old q)) }
    ensures leaf_stays { OnErr result (leaf.new ≡ leaf.old) }
    ensures index_stays { OnErr result (index.new ≡ index.old) }
{
    let alloc = leaf.pairs.allocator();
    let half = half_of(m);
    let pairs = leaf.pairs.as_slice();
    let count = pairs.len() - half;
    let low = pairs[half].to_key();
    let bytes = Vec::from_slice(alloc, low.as_slice())?;
    let room = Vec::with_capacity(alloc, count)?;
    index.insert(low, page)?;
    let pairs = leaf.pairs.move_off(half, room);
    Ok(Leaf {
        page,
        low: Low::of(bytes),
        pairs,
    })
}

/// Splits one of some leaves that has one pair too many after a record, in which the search for its
/// key ended so: the lower part stays in its place, the upper one stands last and in the index. A
/// refusal changes nothing.
pub(crate) fn split_one(
    leaves: &mut Seats,
    index: &mut LowIndex,
    m: u16,
    at: usize,
    found: Result<usize, usize>,
    item: &Packed,
    page: u32,
) -> Result<(), AllocError>
    requires some { 1 ≤ m }
    requires within { at < length leaves.old.items }
    requires here { is_among (at + 1) leaves.old.evicted ≡ false }
    requires found { (d : LeafValue)
        → found ≡ seek_of (key_of item.now) (slice_index_or leaves.old.items at d).pairs }
    requires found_within { (d : LeafValue)
        → IsWithin (length (slice_index_or leaves.old.items at d).pairs) found }
    requires adds { AddsOne item.now found }
    requires over { (d : LeafValue) → m < length (changed_at item.now leaves.old.items at d).pairs }
    ensures leaves { (d : LeafValue) → OnOk result (leaves.new.items
        ≡ slice_set leaves.old.items at (lower_of m (changed_at item.now leaves.old.items at d))
        ++ upper_of m page (changed_at item.now leaves.old.items at d) ∷ []) }
    ensures index { (d : LeafValue) (q : Bytes) → OnOk result (page_of_low index.new q
        ≡ (if eq_by_cmp order q (upper_of m page (changed_at item.now leaves.old.items at d)).low
        then Some page else page_of_low index.old q)) }
    ensures evicted { leaves.new.evicted ≡ leaves.old.evicted }
    ensures leaves_stay { OnErr result (leaves.new.items ≡ leaves.old.items) }
    ensures index_stays { OnErr result (index.new ≡ index.old) }
{
    leaves.reserve(1)?;
    let upper = leaves.split(index, m, at, found, item, page)?;
    match leaves.push(upper) {
        Ok(()) => Ok(()),
        Err(_) => unreachable!(),
    }
}
