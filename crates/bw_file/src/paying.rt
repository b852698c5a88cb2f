// What is owed to a segment that was read is paid. Its end is written again and waited for, sums
// that do not count are taken off, and then the end gets its sum.
ghost use Rattle.std.specs.Prelude.{◌≡◌, ◌++◌, OnOk, OnErr};
ghost use Rattle.bw_file.specs.Asked.{IsStopped};
ghost use Rattle.bw_file.specs.Settled.{end_calls, cut_calls, told_calls, owed_calls};
ghost use Rattle.bw_file.specs.Written.{IsPaidAgain};
ghost use Rattle.bw_file.specs.FileHolding.{owed_of};

use crate::asked::{
    Asked, Pair, cut_sums, len_in, read_from, sync_all_bytes, sync_all_sums, write_bytes,
    write_sums,
};
use crate::files::SegmentFile;
use crate::refusals::FolderFault;
use crate::unsettled::{LAST, Owed};
use bw_digest::Sum;
use std::alloc::Global;
use std::io;

// Writes this end from this offset on, and waits until it stands, if it has bytes.
fn write_end<F: SegmentFile>(
    files: &Pair<F>,
    from: u64,
    end: &[u8],
    asked: &mut Asked,
) -> io::Result<()>
    ensures asked { OnOk result (asked.new.value ≡ asked.old.value ++ end_calls from end.now) }
    ensures stopped { OnErr result
        (IsStopped (end_calls from end.now) asked.old.value asked.new.value) }
{
    if end.is_empty() {
        return Ok(());
    }
    write_bytes(files, from, end, asked)?;
    sync_all_bytes(files, asked)
}

// Takes off the sums that do not count, if there are any.
fn cut_to<F: SegmentFile>(
    files: &Pair<F>,
    held: u64,
    counted: u64,
    asked: &mut Asked,
) -> io::Result<()>
    ensures asked { OnOk result (asked.new.value ≡ asked.old.value ++ cut_calls held counted) }
    ensures stopped { OnErr result
        (IsStopped (cut_calls held counted) asked.old.value asked.new.value) }
{
    if held == counted {
        return Ok(());
    }
    cut_sums(files, counted, asked)
}

// Writes this sum after those that count, if there is one.
fn tell<F: SegmentFile>(
    files: &Pair<F>,
    counted: u64,
    sum: Option<Sum>,
    asked: &mut Asked,
) -> io::Result<()>
    ensures asked { OnOk result (asked.new.value ≡ asked.old.value ++ told_calls counted sum) }
    ensures stopped { OnErr result
        (IsStopped (told_calls counted sum) asked.old.value asked.new.value) }
{
    match sum {
        Some(sum) => write_sums(files, counted, &sum.to_bytes(), asked),
        None => Ok(()),
    }
}

/// Pays what is owed. The end stands before its sum is written, for which nobody waits, as in an
/// append.
pub(crate) fn pay<F: SegmentFile>(files: &Pair<F>, owed: &Owed, asked: &mut Asked) -> io::Result<()>
    ensures asked { OnOk result
        (asked.new.value ≡ asked.old.value ++ owed_calls (owed_of 0 owed.now)) }
    ensures stopped { OnErr result
        (IsStopped (owed_calls (owed_of 0 owed.now)) asked.old.value asked.new.value) }
{
    write_end(files, owed.from, &owed.end, asked)?;
    cut_to(files, owed.held, owed.counted, asked)?;
    tell(files, owed.counted, owed.sum, asked)
}

/// Writes the end of the segment's file once more, and waits until it and the sums stand.
pub(crate) fn pay_again<F: SegmentFile>(
    alloc: Global,
    files: &Pair<F>,
    asked: &mut Asked,
) -> Result<(), FolderFault>
    ensures { OnOk result (IsPaidAgain asked.old.value asked.new.value) }
{
    let length = len_in(files, asked)?;
    let from = length.saturating_sub(LAST as u64);
    let mut end = vec![in alloc; 0u8; (length - from) as usize]?;
    read_from(files, from, &mut end, asked)?;
    write_bytes(files, from, &end, asked)?;
    sync_all_bytes(files, asked)?;
    sync_all_sums(files, asked)?;
    Ok(())
}
