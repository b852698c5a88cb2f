//! The pairs of pages, in the order of their keys.

use bw_codec::{Key, Leaf, Pair, is_before};
use std::alloc::{AllocError, Global};
use std::collections::BTreeMap;

/// The positions of the pages of a list, in the order of their lows. Of two pages with one low the
/// later one counts.
fn by_low(alloc: Global, leaves: &[Leaf]) -> Result<Vec<usize>, AllocError> {
    let mut first = None;
    let mut lows = BTreeMap::new(alloc);
    for (position, leaf) in leaves.iter().enumerate() {
        // The one low that is no key is the empty one, with which the first page begins.
        match Key::new(leaf.low.as_slice()) {
            Ok(low) => {
                let _ = lows.insert(low, position)?;
            }
            Err(_) => first = Some(position),
        }
    }
    let mut order = Vec::new(alloc);
    if let Some(position) = first {
        order.push(position)?;
    }
    for (_, position) in &lows {
        order.push(*position)?;
    }
    Ok(order)
}

/// Whether a key is within a page whose next one begins there.
fn is_within(key: &[u8], leaf: &Leaf, next: Option<&Leaf>) -> bool {
    let is_above = !is_before(key, leaf.low.as_slice());
    match next {
        Some(next) => is_above && is_before(key, next.low.as_slice()),
        None => is_above,
    }
}

/// Adds the pairs of a page below the low of the next one.
fn add_pairs(pairs: &mut Vec<Pair>, leaf: &Leaf, next: Option<&Leaf>) -> Result<(), AllocError> {
    for pair in leaf.pairs.as_slice() {
        if is_within(pair.key(), leaf, next) {
            pairs.push(pair.copy()?)?;
        }
    }
    Ok(())
}

/// All pairs of these pages, in the order of their keys: of each page those from its low on, and
/// below the next greater low of any.
pub(crate) fn pairs_of(alloc: Global, leaves: &[Leaf]) -> Result<Vec<Pair>, AllocError> {
    let order = by_low(alloc, leaves)?;
    let mut pairs = Vec::new(alloc);
    for (index, position) in order.as_slice().iter().enumerate() {
        let next = match order.as_slice().get(index.saturating_add(1)) {
            Some(next) => leaves.get(*next),
            None => None,
        };
        if let Some(leaf) = leaves.get(*position) {
            add_pairs(&mut pairs, leaf, next)?;
        }
    }
    Ok(pairs)
}
