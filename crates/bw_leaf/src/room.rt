//! Leaves in no more room than their pairs take: those that a store begins with are many, and most
//! of them are not changed soon.

ghost use Rattle.std.specs.Prelude.{◌≡◌, IfOk};

use bw_codec::{Leaf, Pair, Pairs};
use std::alloc::{AllocError, Global};

/// This leaf in no more room than it needs. It is never refused; if memory is wanting, it keeps
/// what it has, or has no row of heads.
pub(crate) fn fitted(leaf: Leaf) -> Leaf
    ensures { result ≡ leaf }
{
    let page = leaf.page;
    let (low, pairs) = leaf.into_parts();
    let mut kept = pairs.into_vec();
    kept.shrink_to_fit();
    Leaf {
        page,
        low,
        pairs: Pairs::of(kept),
    }
}

/// A copy of this leaf in memory of its own, and in no more than it needs. A refused growth is the
/// only error.
pub fn fitted_copy(alloc: Global, leaf: &Leaf) -> Result<Leaf, AllocError>
    ensures { IfOk result (λ copy. copy ≡ leaf.now) }
{
    let low = leaf.low.copy()?;
    let pairs = same_pairs(alloc, leaf.pairs.as_slice())?;
    Ok(Leaf {
        page: leaf.page,
        low,
        pairs: Pairs::of(pairs),
    })
}

// A copy of these pairs in no more room than they need.
fn same_pairs(alloc: Global, pairs: &[Pair]) -> Result<Vec<Pair>, AllocError>
    ensures { IfOk result (λ copy. copy.items ≡ pairs.now) }
{
    let mut copy = Vec::with_capacity(alloc, pairs.len())?;
    for pair in pairs {
        copy.push(pair.copy()?)?;
    }
    Ok(copy)
}
