// The sums beside a segment's file: by them its bytes are checked when they are read again.
ghost use Rattle.std.specs.Prelude.{◌≡◌, ◌≢◌, ◌+◌, ◌≤◌, ◌↔◌, length, drop, ◌++◌, IsOk, IfOk, IfErr, OnOk, OnErr, MatchOption};
ghost use Rattle.bw_device.specs.declared.memory.TheConstants.{MAX_CAPACITY};
ghost use Rattle.bw_digest.specs.Sums.{no_sums, sum_of, sums_in, with_all, told_end, Fits};
ghost use Rattle.bw_digest.specs.Rows.{reach};
ghost use Rattle.bw_file.specs.Asked.{sum_calls, broken_off};
ghost use Rattle.bw_file.specs.Settled.{sum_of_rest};
ghost use Rattle.bw_file.specs.Written.{AreSumsUpTo, AreSumsOf};
ghost use Rattle.bw_file.specs.Damage.{IsDamage};
ghost use Rattle.bw_file.specs.declared.refusals.FolderFault.TheVariants.{BadConfig};

use crate::asked::{Asked, Pair, write_sums};
use crate::files::SegmentFile;
use crate::refusals::FolderFault;
use bw_device::MAX_CAPACITY;
use bw_digest::{Damage, Row, SUM_LEN, Sum, check};
use std::alloc::{AllocError, Global};
use std::io;

/// The bytes of an open file of sums. Of a long one as many are read as a segment may have: what
/// stands after them is as good as lost.
pub(crate) fn sums_of<F: SegmentFile>(alloc: Global, sums: &F) -> Result<Vec<u8>, FolderFault>
    ensures cause { IfErr result (λ cause. cause ≢ BadConfig) }
{
    let len = sums.metadata()?.len().min(MAX_CAPACITY);
    let mut bytes = vec![in alloc; 0u8; len as usize]?;
    sums.read_exact_at(&mut bytes, 0)?;
    Ok(bytes)
}

/// The row of the sums that count, if the bytes of the lease's file fit them, and none is missing.
pub(crate) fn checked(lease: u32, bytes: &[u8], sums: &[u8]) -> Result<Row, FolderFault>
    ensures whole { IsOk result ↔
        (Fits bytes.now no_sums (sums_in (length bytes.now) sums.now)
        × (told_end sums.now ≤ length bytes.now)) }
    ensures row { IfOk result
        (λ row. reach row ≡ with_all no_sums (sums_in (length bytes.now) sums.now)) }
    ensures within { IfOk result (λ row. (reach row).end ≤ length bytes.now) }
    ensures damaged { IfErr result (λ cause. IsDamage lease bytes.now sums.now cause) }
{
    match check(bytes, sums) {
        Ok(row) => Ok(row),
        Err(Damage::Changed { at }) => Err(FolderFault::Damaged { lease, at }),
        Err(Damage::Missing { from, to }) => Err(FolderFault::Missing { lease, from, to }),
    }
}

/// Writes the sum of a piece after those of the row, and answers the row with it. A piece of no
/// bytes has no sum. The piece has to stand on the disk: a sum is never there without its bytes.
pub(crate) fn note<F: SegmentFile>(
    files: &Pair<F>,
    row: Row,
    piece: &[u8],
    asked: &mut Asked,
) -> io::Result<Row>
    requires { (reach row).end + length piece.now ≤ MAX_CAPACITY }
    ensures end { IfOk result (λ new. (reach new).end ≡ (reach row).end + length piece.now) }
    ensures asked { OnOk result
        (asked.new.value ≡ asked.old.value ++ sum_calls (reach row) piece.now) }
    ensures failed { OnErr result (asked.new.value
        ≡ asked.old.value ++ broken_off 0 (sum_calls (reach row) piece.now)) }
    ensures has_one { OnErr result (length (sum_calls (reach row) piece.now) ≡ 1) }
{
    if piece.is_empty() {
        return Ok(row);
    }
    let sum = row.sum_of(piece);
    write_sums(files, row.count() * SUM_LEN as u64, &sum.to_bytes(), asked)?;
    Ok(row.with(sum))
}

/// The row with one sum for the bytes after its last piece, and that sum; none if there are no such
/// bytes. Nothing is written.
pub(crate) fn filled_up(row: Row, bytes: &[u8]) -> (Row, Option<Sum>)
    requires end { (reach row).end ≤ length bytes.now }
    requires within { length bytes.now ≤ MAX_CAPACITY }
    ensures end { (reach result.0).end ≡ length bytes.now }
    ensures filled { MatchOption result.1
        ((reach row).end ≡ length bytes.now)
        (λ sum. sum ≡ sum_of (reach row) (drop (reach row).end bytes.now)) }
    ensures rest { result.1 ≡ sum_of_rest (reach row) (drop (reach row).end bytes.now) }
{
    let rest = &bytes[row.end() as usize..];
    if rest.is_empty() {
        return (row, None);
    }
    let sum = row.sum_of(rest);
    (row.with(sum), Some(sum))
}

// Adds the sum of the piece that ends here to the row, and its bytes to the list. An end that is
// not ahead, or that is past the bytes, adds nothing.
fn add_sum(list: &mut Vec<u8>, row: Row, bytes: &[u8], end: u64) -> Result<Row, AllocError>
    requires within { length bytes.now ≤ MAX_CAPACITY }
    requires end { (reach row).end ≤ length bytes.now }
    requires so_far { AreSumsUpTo bytes.now (reach row) list.old.items }
    ensures within { IfOk result (λ new. (reach new).end ≤ length bytes.now) }
    ensures all { IfOk result (λ new. (end ≡ length bytes.now) →
        (reach new).end ≡ length bytes.now) }
    ensures added { IfOk result (λ new. AreSumsUpTo bytes.now (reach new) list.new.items) }
{
    if end <= row.end() || end > bytes.len() as u64 {
        return Ok(row);
    }
    let sum = row.sum_of(&bytes[row.end() as usize..end as usize]);
    list.extend_from_slice(&sum.to_bytes())?;
    Ok(row.with(sum))
}

/// The sums of all these bytes, in pieces that end here; the last one ends with the bytes. Ends
/// ascend: one that does not, or that is past the bytes, is passed over.
pub(crate) fn sums_for(alloc: Global, bytes: &[u8], ends: &[u64]) -> Result<Vec<u8>, AllocError>
    requires within { length bytes.now ≤ MAX_CAPACITY }
    ensures sums { IfOk result (λ list. AreSumsOf bytes.now list.items) }
{
    let mut list = Vec::new(alloc);
    let mut row = Row::new();
    for end in ends {
        row = add_sum(&mut list, row, bytes, *end)?;
    }
    let _ = add_sum(&mut list, row, bytes, bytes.len() as u64)?;
    Ok(list)
}
