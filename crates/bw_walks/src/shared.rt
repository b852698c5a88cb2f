//! The pairs of a page from a key on, handed out without a copy of their bytes.
//!
//! A page holds each pair as a handle to one run of bytes, and so does whoever asked for it: the
//! run never changes, and stays in memory as long as one of them holds it.

ghost use Rattle.std.specs.Prelude.{◌≡◌, ◌+◌, ◌≤◌, ◌++◌, [], length, vec_len, IfOk, IsTrue, OnOk};
ghost use Rattle.std.specs.Vec.{vec_capacity};
ghost use Rattle.std.specs.FinMap as finite;
ghost use Rattle.bw_record.specs.Keys.{ascends};
ghost use Rattle.bw_leaf.specs.Above.{pairs_above, with_some};
ghost use Rattle.bw_leaf.specs.Seek.{seek_of, end_of};
ghost use Rattle.bw_page.specs.Ahead.{IsStretch};
ghost use Rattle.bw_page.specs.Leaves.{home, union};
ghost use Rattle.bw_walks.specs.Shared.{pair_at, with_key};

use bw_codec::{Key, Leaf, Pair, Pairs};
use bw_leaf::find_key;
use bw_page::Leaves;
use std::alloc::AllocError;

/// The index of the first pair at or above a key, or how many pairs there are.
fn first_from(pairs: &Pairs, key: &Key) -> usize
    ensures at { result ≡ end_of (seek_of key.now pairs.now) }
    ensures within { result ≤ length pairs.now }
{
    match find_key(pairs, key.as_slice()) {
        Ok(at) => at,
        Err(at) => at,
    }
}

/// Reads the first byte of each run, which may be far away in memory: the processor waits for many
/// of them at once. What it answers is of no use; but the reads are made only if it is used.
fn read_runs(pairs: &[Pair]) -> usize {
    let mut sum = 0;
    for pair in pairs {
        sum ^= pair.key().len();
    }
    sum
}

/// Adds these pairs, for which there is room, and shares their bytes.
fn push_shared(found: &mut Vec<Pair>, pairs: &[Pair]) -> Result<(), AllocError>
    requires { vec_len found.old + length pairs.now ≤ vec_capacity found.old }
    ensures { OnOk result (found.new.items ≡ found.old.items ++ pairs.now) }
{
    for pair in pairs {
        found.push_reserved(pair.copy()?);
    }
    Ok(())
}

/// The pair of this key on a page, if it has one. It shares its bytes with the page.
///
/// It costs a search among the page's pairs. Refused if the count of those that share the pair is
/// full.
pub fn share_pair(leaf: &Leaf, key: &Key) -> Result<Option<Pair>, AllocError>
    requires { IsTrue (ascends leaf.now.pairs) }
    ensures { IfOk result (λ pair. pair ≡ pair_at key.now leaf.now.pairs) }
{
    match find_key(&leaf.pairs, key.as_slice()) {
        Ok(at) => {
            let pair = leaf.pairs.as_slice()[at].copy()?;
            Ok(Some(pair))
        }
        Err(_) => Ok(None),
    }
}

/// The pair of this key, if it has one; no page is evicted. As `share_pair`, after a search among
/// the pages.
pub fn share_of(leaves: &Leaves, key: &Key) -> Result<Option<Pair>, AllocError>
    requires { leaves.now.evicted ≡ [] }
    ensures { IfOk result (λ pair.
        pair ≡ with_key key.now (finite.get (union leaves.now.leaves) key.now)) }
{
    let _ = leaves.count(); // For the proof.
    match leaves.page(leaves.find(key)) {
        Some(leaf) => share_pair(leaf, key),
        None => unreachable!(),
    }
}

/// Adds the pairs of a page at or above a key, in order, until `found` has so many: what stood
/// there is counted too, and stays.
///
/// It costs a search among the page's pairs, and a look at each that is added. Refused if `found`
/// does not grow, or the count of those that share a pair is full; some pairs may be added then.
pub fn share_pairs(
    leaf: &Leaf,
    key: &Key,
    most: usize,
    found: &mut Vec<Pair>,
) -> Result<(), AllocError>
    ensures { OnOk result (found.new.items
        ≡ with_some most found.old.items (pairs_above key.now leaf.now.pairs)) }
{
    let pairs = leaf.pairs.as_slice();
    let from = first_from(&leaf.pairs, key);
    let count = (pairs.len() - from).min(most.saturating_sub(found.len()));
    let pairs = &pairs[from..from + count];
    let ahead = read_runs(pairs) % 2;
    found.reserve(count.max(ahead))?;
    push_shared(found, pairs)
}

/// Adds the pairs at or above a key of the page on which a record of the key would stand, in order,
/// until `found` has so many. No page is evicted.
fn share_home(
    leaves: &Leaves,
    key: &Key,
    most: usize,
    found: &mut Vec<Pair>,
) -> Result<(), AllocError>
    requires { leaves.now.evicted ≡ [] }
    ensures { OnOk result (found.new.items ≡ with_some most found.old.items
        (pairs_above key.now (home key.now leaves.now.leaves).pairs)) }
{
    let _ = leaves.count(); // For the proof.
    match leaves.page(leaves.find(key)) {
        Some(leaf) => share_pairs(leaf, key, most, found),
        None => unreachable!(),
    }
}

/// Puts the pairs at or above a key into `found`, in order and no more than so many; no page is
/// evicted. What stood in `found` is dropped before.
///
/// It costs a search and a look for each page, and a look at each pair. Refused as `share_pairs`
/// is; `found` then has some of the pairs.
pub fn share_stretch(
    leaves: &Leaves,
    key: &Key,
    most: usize,
    found: &mut Vec<Pair>,
) -> Result<(), AllocError>
    requires { leaves.now.evicted ≡ [] }
    ensures { OnOk result (IsStretch (union leaves.now.leaves) key.now most found.new.items) }
{
    let _ = leaves.count(); // For the proof.
    found.clear();
    let mut from = key.copy();
    'pages: while found.len() < most {
        share_home(leaves, &from, most, found)?;
        match leaves.low_above(&from) {
            Some(low) => from = low,
            None => return Ok(()),
        }
    }
    Ok(())
}
