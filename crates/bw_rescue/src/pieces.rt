//! The pieces of a file by the sums beside it, of which each is looked at, be others damaged or
//! not.
//! `bw_digest::check`, by which a file is opened, ends at the first that does not fit.

ghost use Rattle.std.specs.Prelude.{◌≡◌, ◌<◌, ◌≤◌, ◌==◌, ℕ, true, length, map};
ghost use Rattle.std.specs.Prelude.{slice_get, IfOk, MatchOption};
ghost use Rattle.bw_digest.specs.Digest.{digest};
ghost use Rattle.bw_digest.specs.Rows.{reach};
ghost use Rattle.bw_digest.specs.Sums.{follows, piece_to};
ghost use Rattle.bw_rescue.specs.Hurt.{cut_of, cuts, is_hurt, is_hurt_in, is_hurt_at, Follow};
ghost use Rattle.bw_rescue.specs.Hurt.{ArePassed, AreOpen, ArePieces};

use bw_digest::{Row, SUM_LEN, Sum};
use std::alloc::{AllocError, Global};

/// A piece of a file, of which a sum speaks that counts.
#[derive(Clone, Copy)]
pub struct Piece {
    /// Where it begins, in bytes.
    pub from: u64,
    /// Where it ends.
    pub to: u64,
    /// Whether it has its digest.
    pub fits: bool,
    /// Whether a frame in it was taken.
    pub is_taken: bool,
}

/// The pieces of a file, in their order, and how many of them end before what is looked at.
#[derive(Drop)]
pub(crate) struct Pieces {
    rows: Vec<Piece>,
    passed: usize,
}

/// The piece after a row, of which a sum speaks that follows it.
fn piece_of(bytes: &[u8], row: &Row, sum: Sum) -> Piece
    requires { follows (length bytes.now) (reach row.now) sum ≡ true }
    ensures { cut_of result ≡ record {
      from = (reach row.now).end;
      to = sum.end;
      fits = digest (piece_to bytes.now (reach row.now) sum.end) == sum.digest;
    } }
{
    let from = row.end();
    Piece {
        from,
        to: sum.end,
        fits: sum.fits(&bytes[from as usize..sum.end as usize]),
        is_taken: false,
    }
}

/// The pieces of these bytes, as far as the sums count.
fn rows_of(alloc: Global, bytes: &[u8], sums: &[u8]) -> Result<Vec<Piece>, AllocError>
    ensures follow { IfOk result (λ rows. Follow 0 (map cut_of rows.items)) }
    ensures hurt { (from to : ℕ) → IfOk result (λ rows.
        is_hurt_in (map cut_of rows.items) from to ≡ is_hurt bytes.now sums.now from to) }
{
    let mut rows = Vec::new(alloc);
    let mut row = Row::new();
    for index in 0..sums.len() / SUM_LEN {
        let sum = Sum::read(&sums[index * SUM_LEN..]);
        if !row.is_followed_by(sum, bytes.len() as u64) {
            return Ok(rows);
        }
        rows.push(piece_of(bytes, &row, sum))?;
        row = row.with(sum);
    }
    Ok(rows)
}

/// The index of the first piece, from one on, that ends after an offset; how many there are, if
/// none does.
fn first_after(rows: &[Piece], from: usize, at: u64) -> usize
    ensures passed { ArePassed at from (map cut_of rows.now)
        → ArePassed at result (map cut_of rows.now) }
    ensures next { MatchOption (slice_get rows.now result) (length rows.now ≤ result)
        (λ row. at < row.to) }
{
    for index in from..rows.len() {
        if rows[index].to > at {
            return index;
        }
    }
    rows.len()
}

/// The piece of an index, if there is one.
fn row_at(rows: &[Piece], index: usize) -> Option<Piece>
    ensures { result ≡ slice_get rows.now index }
{
    if index < rows.len() {
        Some(rows[index])
    } else {
        None
    }
}

impl Pieces {
    /// The pieces of these bytes, as far as the sums count.
    pub(crate) fn of(alloc: Global, bytes: &[u8], sums: &[u8]) -> Result<Pieces, AllocError>
        ensures { IfOk result (λ p. ArePieces bytes.now sums.now p) }
    {
        let rows = rows_of(alloc, bytes, sums)?;
        Ok(Pieces { rows, passed: 0 })
    }

    /// The piece in which an offset is, if a sum speaks of one. No earlier one is looked at again.
    pub(crate) fn around(&mut self, at: u64) -> Option<Piece>
        ensures same { cuts self.new ≡ cuts self.old }
        ensures open { AreOpen at self.old → AreOpen at self.new }
        ensures hurt { AreOpen at self.old
            → (to : ℕ) → is_hurt_at result at to ≡ is_hurt_in (cuts self.old) at to }
    {
        self.passed = first_after(self.rows.as_slice(), self.passed, at);
        match row_at(self.rows.as_slice(), self.passed) {
            Some(row) if row.from <= at => Some(row),
            _ => None,
        }
    }

    /// Notes that a frame in the piece that was looked at last was taken.
    pub(crate) fn take(&mut self)
        ensures same { cuts self.new ≡ cuts self.old }
        ensures passed { self.new.passed ≡ self.old.passed }
    {
        if self.passed < self.rows.len() {
            self.rows[self.passed].is_taken = true;
        }
    }

    /// All of them.
    pub(crate) fn rows(&self) -> &[Piece] {
        self.rows.as_slice()
    }
}
