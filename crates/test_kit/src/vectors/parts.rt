//! Blocks and pages that tests begin with.

ghost use Rattle.std.specs.Prelude.{◌≡◌, ◌≤◌, ◌∷◌, [], length, IfOk, IfSome};
ghost use Rattle.std.specs.List.{AllByRecursion};
ghost use Rattle.bw_codec.specs.Grammar.{IsBlock};

use bw_codec::limits::{LATEST, MAX_FRAME};
use bw_codec::{Blocks, FrameRead, Header, Key, Leaf, Low, Pair, Pairs, Value, read_frame};
use std::alloc::{AllocError, Global};

/// The blocks of the frame at the front of bytes, which a buffer takes.
pub fn blocks_in(alloc: Global, bytes: &[u8]) -> Option<Blocks>
    ensures some { IfSome result (λ blocks. 1 ≤ length blocks) }
    ensures lawful { IfSome result (λ blocks. AllByRecursion (IsBlock 32) blocks) }
{
    let header = Header {
        version: LATEST,
        number: 1,
        m: 32,
        f: MAX_FRAME,
    };
    match read_frame(alloc, bytes, &header).ok()? {
        FrameRead::Whole(frame, _) => Some(frame.blocks),
        FrameRead::Tail => None,
    }
}

/// A leaf of one pair. A key or a value of another length is refused as well.
pub fn leaf_of(
    alloc: Global,
    page: u32,
    low: &[u8],
    key: &[u8],
    value: &[u8],
) -> Result<Leaf, AllocError>
    ensures { IfOk result (λ l.
        l ≡ record { page = page; low = low.now; pairs = (key.now, value.now) ∷ [] }) }
{
    let (Ok(key), Ok(value)) = (Key::new(key), Value::new(value)) else {
        return Err(AllocError);
    };
    let from = Vec::from_slice(alloc, low)?;
    let mut pairs = Vec::new(alloc);
    pairs.push(Pair::of(alloc, &key, &value)?)?;
    Ok(Leaf {
        page,
        low: Low::of(from),
        pairs: Pairs::of(pairs),
    })
}
