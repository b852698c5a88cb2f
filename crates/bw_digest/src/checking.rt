// The check of bytes against a row of sums.
ghost use Rattle.std.specs.Prelude.{◌≡◌, ◌≤◌, ◌↔◌, length, IsOk, IfOk, IfErr};
ghost use Rattle.bw_digest.specs.Sums.{sums_in, with_all, no_sums, told_end, Fits};
ghost use Rattle.bw_digest.specs.Rows.{reach};
ghost use Rattle.bw_digest.specs.Checked.{checked, IsAnswer, IsDamage};

use crate::digest::digest_of;
use crate::row::Row;
use crate::sum::{SUM_LEN, Sum};
use thiserror::Error;

/// Why bytes do not fit their sums.
#[derive(Clone, Copy, Debug, PartialEq, Eq, Error)]
pub enum Damage {
    /// The piece that begins here, in bytes, has not the digest that it was given: it, or what it
    /// stands in, was changed.
    #[error("damaged at {at}")]
    Changed { at: u64 },
    /// Each piece that is all there fits, and the bytes end here: the sums say that they went on.
    #[error("missing from {from} to {to}")]
    Missing { from: u64, to: u64 },
}

// The check, piece by piece; where the first piece begins that does not fit.
fn walked(bytes: &[u8], sums: &[u8]) -> Result<Row, u64>
    ensures answer { IsAnswer result
        (checked bytes.now no_sums (sums_in (length bytes.now) sums.now)) }
    ensures within { IfOk result (λ row. (reach row).end ≤ length bytes.now) }
{
    let mut row = Row::new();
    for i in 0..sums.len() / SUM_LEN {
        let sum = Sum::read(&sums[i * SUM_LEN..]);
        if !row.is_followed_by(sum, bytes.len() as u64) {
            return Ok(row);
        }
        let at = row.end();
        let piece = &bytes[at as usize..sum.end as usize];
        if digest_of(piece) != sum.digest {
            return Err(at);
        }
        row = row.with(sum);
    }
    Ok(row)
}

/// Where the last piece ends of which these sums say something, in bytes, be it there or not; 0 if
/// none counts. It costs a walk over the sums.
pub fn told_end(sums: &[u8]) -> u64
    ensures { result ≡ told_end sums.now }
{
    let mut row = Row::new();
    let count = sums.len() / SUM_LEN;
    for i in 0..count {
        let sum = Sum::read(&sums[i * SUM_LEN..]);
        if !row.is_followed_by(sum, u64::MAX) {
            return row.end();
        }
        row = row.with(sum);
    }
    row.end()
}

/// Checks the bytes of a file against the bytes of its sums, and answers the row of those that
/// count.
///
/// These are the first ones, as far as each follows the one before it: what a crash may have left
/// after them is not looked at. Bytes after the last piece have no digest. `Changed` says where the
/// first piece begins that does not fit. `Missing` comes if all pieces that are there fit, and a
/// sum that follows says that there was more: a sum is written once its piece stands, so these
/// bytes were lost. It costs one walk over the bytes, and two over the sums.
pub fn check(bytes: &[u8], sums: &[u8]) -> Result<Row, Damage>
    ensures whole { IsOk result ↔
        (Fits bytes.now no_sums (sums_in (length bytes.now) sums.now)
        × (told_end sums.now ≤ length bytes.now)) }
    ensures row { IfOk result
        (λ row. reach row ≡ with_all no_sums (sums_in (length bytes.now) sums.now)) }
    ensures within { IfOk result (λ row. (reach row).end ≤ length bytes.now) }
    ensures damage { IfErr result (λ d. IsDamage bytes.now sums.now d) }
{
    let row = match walked(bytes, sums) {
        Ok(row) => row,
        Err(at) => return Err(Damage::Changed { at }),
    };
    let from = bytes.len() as u64;
    let to = told_end(sums);
    if to > from {
        return Err(Damage::Missing { from, to });
    }
    Ok(row)
}
