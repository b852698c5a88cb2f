//! Whether a new folder holds what was read.

ghost use Rattle.std.specs.Prelude.{◌≡◌, ◌<◌, ◌^◌, ◌++◌, ◌∷◌, List, []};
ghost use Rattle.std.specs.Prelude.{IfOk, OnOk, IsTrue, ◌↔◌};
ghost use Rattle.bw_digest.specs.Rows.{reach};
ghost use Rattle.bw_digest.specs.Sums.{after, sum_of};
ghost use Rattle.bw_rescue.specs.Tallied.{Pair as PairValue, IsTallyOf, Compares};

use bw_codec::Pair;
use bw_digest::{Row, Sum};
use bw_look::Image;
use std::alloc::{AllocError, Global};

/// No pairs have so many bytes together.
const ENOUGH: u64 = u64::MAX / 2;

/// Pairs in the order of their keys: a row of digests, one for each of them, of which each goes on
/// from the one before it.
#[derive(Drop)]
pub struct Tally {
    row: Row,
    /// The sum of the last pair.
    last: Option<Sum>,
    /// The bytes of the last pair.
    piece: Vec<u8>,
}

// The row with a sum for one more piece, which has a byte; and that sum.
fn after(row: &Row, piece: &[u8]) -> Result<(Row, Sum), AllocError>
    ensures row { IfOk result (λ r. reach r.0
        ≡ after (reach row.now) (sum_of (reach row.now) piece.now)) }
    ensures sum { IfOk result (λ r. r.1 ≡ sum_of (reach row.now) piece.now) }
    ensures short { IfOk result (λ r. r.1.end < 2 ^ 64) }
{
    if piece.is_empty() || piece.len() as u64 > ENOUGH || row.end() > ENOUGH {
        return Err(AllocError);
    }
    let sum = row.sum_of(piece);
    Ok((row.with(sum), sum))
}

// Whether both are no sum, or one sum.
fn are_one(last: Option<Sum>, other: Option<Sum>) -> bool
    ensures { IsTrue result ↔ (last ≡ other) }
{
    match (last, other) {
        (Some(sum), Some(theirs)) => {
            sum.end == theirs.end && sum.digest == theirs.digest && sum.mark == theirs.mark
        }
        (None, None) => true,
        (Some(_), None) => false,
        (None, Some(_)) => false,
    }
}

impl Tally {
    /// Of no pair.
    pub fn new(alloc: Global) -> Tally
        ensures { IsTallyOf [] result }
    {
        Tally {
            row: Row::new(),
            last: None,
            piece: Vec::new(alloc),
        }
    }

    /// Adds a pair. A refused growth is the only error, as long as all pairs together have less
    /// than 2^63 bytes.
    pub fn add(&mut self, pair: &Pair) -> Result<(), AllocError>
        ensures { (pairs : List PairValue) → IsTallyOf pairs self.old
            → OnOk result (IsTallyOf (pairs ++ pair.now ∷ []) self.new) }
    {
        self.piece.clear();
        self.piece.push(pair.key().len() as u8)?;
        self.piece.extend_from_slice(pair.key())?;
        self.piece.extend_from_slice(pair.value())?;
        let (row, sum) = after(&self.row, self.piece.as_slice())?;
        self.row = row;
        self.last = Some(sum);
        Ok(())
    }

    /// Adds pairs. It is refused as `add` is.
    pub fn add_all(&mut self, pairs: &[Pair]) -> Result<(), AllocError>
        ensures { (before : List PairValue) → IsTallyOf before self.old
            → OnOk result (IsTallyOf (before ++ pairs.now) self.new) }
    {
        for pair in pairs {
            self.add(pair)?;
        }
        Ok(())
    }

    /// Whether other pairs were as many, of the same bytes as far as digests say.
    pub fn is_same(&self, other: &Tally) -> bool
        ensures { (pairs others : List PairValue) → IsTallyOf pairs self.now
            → IsTallyOf others other.now → Compares result pairs others }
    {
        are_one(self.last, other.last) && self.row.count() == other.row.count()
    }
}

/// What a new folder has to hold: these segments, byte by byte, and no other, and these pairs, if
/// their tally is there.
#[derive(Clone, Copy)]
pub(crate) struct Wanted<'a> {
    pub(crate) images: &'a [Image],
    pub(crate) tally: Option<&'a Tally>,
}
