//! The split rule: a leaf of more than `m` pairs becomes two.

ghost use Rattle.std.specs.Prelude.{◌≡◌, ◌<◌, ◌≤◌, ◌+◌, ◌/◌, length, Err, OnOk, IfOk};
ghost use Rattle.bw_record.specs.declared.record.Record.TheVariants.{Put};
ghost use Rattle.bw_leaf.specs.SplitRule.{lower_of, upper_of};
ghost use Rattle.bw_leaf.specs.Seek.{AddsOne};

use bw_codec::{Leaf, Low, Packed, Pair};
use std::alloc::{AllocError, Global};

/// A leaf that was split in two.
#[derive(Drop)]
pub struct Halves {
    /// The part that stays.
    pub lower: Leaf,
    /// The part that becomes a new page.
    pub upper: Leaf,
}

/// Splits a leaf that has more than `m` pairs: the first (m + 1) / 2 stay, and the others become
/// the page of this number. A refused growth is the only error; the leaf is then dropped.
pub fn split_in_two(alloc: Global, m: u16, leaf: Leaf, page: u32) -> Result<Halves, AllocError>
    requires some { 1 ≤ m }
    requires over { m < length leaf.pairs }
    ensures lower { IfOk result (λ c. c.lower ≡ lower_of m leaf) }
    ensures upper { IfOk result (λ c. c.upper ≡ upper_of m page leaf) }
{
    let mut lower = leaf;
    let upper = take_upper(alloc, m, &mut lower, page)?;
    Ok(Halves { lower, upper })
}

/// How many pairs stay in a leaf that is split.
pub fn half_of(m: u16) -> usize
    ensures { result ≡ (m + 1) / 2 }
{
    (usize::from(m) + 1) / 2
}

// Takes the part off a leaf that becomes a new page.
fn take_upper(alloc: Global, m: u16, leaf: &mut Leaf, page: u32) -> Result<Leaf, AllocError>
    requires some { 1 ≤ m }
    requires over { m < length leaf.old.pairs }
    ensures lower { OnOk result (leaf.new ≡ lower_of m leaf.old) }
    ensures upper { IfOk result (λ upper. upper ≡ upper_of m page leaf.old) }
{
    let pairs = leaf.pairs.split_off(half_of(m))?;
    let low = Vec::from_slice(alloc, pairs.as_slice()[0].key())?;
    Ok(Leaf {
        page,
        low: Low::of(low),
        pairs,
    })
}

/// Where the pair goes that a record adds, and that pair, which shares the record's bytes: where
/// the search for its key ended. It is refused only if the count of those that share is full.
pub fn new_pair(found: Result<usize, usize>, item: &Packed) -> Result<(usize, Pair), AllocError>
    requires adds { AddsOne item.now found }
    ensures at { IfOk result (λ r. found ≡ Err r.0) }
    ensures pair { IfOk result (λ r. item.now ≡ Put r.1.0 r.1.1) }
{
    match (found, item.pair()) {
        (Err(at), Ok(pair)) => Ok((at, pair.copy()?)),
        (Err(_), Err(_)) => unreachable!(),
        (Ok(_), Ok(_)) => unreachable!(),
        (Ok(_), Err(_)) => unreachable!(),
    }
}
