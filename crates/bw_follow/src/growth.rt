//! What a segment of the followed folder has more than the follower has of it.

use crate::fault::FollowFault;
use crate::files::{read, segment_path};
use crate::halt::Halt;
use crate::held::{Held, front_of, rest_of, sum_in, sums_behind};
use bw_beside::{Host, Live, bytes_in, header_in, stretch_in, sums_from, sums_in, sums_length};
use bw_codec::Header;
use bw_digest::{Row, SUM_LEN, Sum, check};
use std::alloc::{AllocError, Global};

/// What a segment has more.
#[derive(Drop)]
pub(crate) struct Growth {
    /// The bytes after those that the follower has.
    pub(crate) bytes: Vec<u8>,
    /// Where their pieces end in the segment, ascending; the last one with the bytes.
    pub(crate) ends: Vec<u64>,
}

/// Where these sums say that pieces end, after an offset.
fn ends_of(alloc: Global, sums: &[Sum], behind: u64) -> Result<Vec<u64>, AllocError> {
    let mut ends = Vec::new(alloc);
    for sum in sums {
        if sum.end > behind {
            ends.push(sum.end)?;
        }
    }
    Ok(ends)
}

/// Whether each of these bytes, which begin at an offset, is in a piece that fits its sum.
fn do_fit(sums: &[Sum], bytes: &[u8], begin: u64) -> bool {
    let mut at = begin;
    for sum in sums {
        let first = at.saturating_sub(begin) as usize;
        let len = sum.end.saturating_sub(at) as usize;
        if !sum.fits(front_of(rest_of(bytes, first), len)) {
            return false;
        }
        at = sum.end;
    }
    true
}

/// The header of the segment that was seen in a file, if it still is there.
pub(crate) fn still<R: Host>(rt: &R, folder: &str, live: Live) -> Result<Header, Halt> {
    match header_in(rt, folder, live.lease)? {
        Some(header) if header.number == live.number => Ok(header),
        _ => Err(Halt::Moved),
    }
}

/// What stands after the follower's last sum, if that stands at its place.
fn behind_sum<R: Host>(
    rt: &R,
    folder: &str,
    live: Live,
    held: &Held,
    sums: &[u8],
) -> Result<Growth, Halt> {
    let begin = held.end();
    let sums = sums_behind(rt.alloc(), held.row, sums)?;
    let end = sums.last().map_or(begin, |sum| sum.end);
    let bytes = stretch_in(rt, folder, live.lease, begin, end)?;
    let _ = still(rt, folder, live)?;
    if !do_fit(sums.as_slice(), bytes.as_slice(), begin) {
        return Err(Halt::Moved);
    }
    let ends = ends_of(rt.alloc(), sums.as_slice(), begin)?;
    Ok(Growth { bytes, ends })
}

/// The bytes that the follower has of a segment.
fn ours_of<R: Host>(rt: &R, own: &str, held: &Held) -> Result<Vec<u8>, FollowFault> {
    let path = segment_path(rt, own, held.lease).map_err(FollowFault::of_target)?;
    let mut bytes = read(rt, path.as_str()).map_err(FollowFault::of_target)?;
    bytes.truncate(held.end() as usize);
    Ok(bytes)
}

/// What stands after the follower's bytes, if its sums are others: the bytes themselves are
/// compared then.
fn behind_bytes<R: Host>(
    rt: &R,
    folder: &str,
    live: Live,
    held: &Held,
    own: &str,
) -> Result<Growth, Halt> {
    let sums = sums_in(rt, folder, live.lease)?;
    let bytes = bytes_in(rt, folder, live.lease)?;
    let _ = still(rt, folder, live)?;
    let begin = held.end() as usize;
    let ours = ours_of(rt, own, held)?;
    if bytes.len() < begin || front_of(bytes.as_slice(), begin) != ours.as_slice() {
        return Err(Halt::Fault(FollowFault::Strayed {
            segment: live.number,
        }));
    }
    if check(bytes.as_slice(), sums.as_slice()).is_err() {
        return Err(Halt::Moved);
    }
    let sums = sums_behind(rt.alloc(), Row::new(), sums.as_slice())?;
    let ends = ends_of(rt.alloc(), sums.as_slice(), held.end())?;
    let end = ends.last().copied().unwrap_or(held.end());
    let len = end.saturating_sub(held.end()) as usize;
    let mut more = Vec::new(rt.alloc());
    more.extend_from_slice(front_of(rest_of(bytes.as_slice(), begin), len))?;
    Ok(Growth { bytes: more, ends })
}

/// Whether the follower's last sum stands at its place among those of the segment that was seen;
/// and what stands after it.
fn sums_behind_last<R: Host>(
    rt: &R,
    folder: &str,
    live: Live,
    held: &Held,
) -> Result<Option<Vec<u8>>, Halt> {
    let sums = sums_from(rt, folder, live.lease, held.last_at())?;
    if held.last.is_none() {
        return Ok(Some(sums));
    }
    if sum_in(sums.as_slice()) != held.last {
        return Ok(None);
    }
    let mut rest = Vec::new(rt.alloc());
    rest.extend_from_slice(rest_of(sums.as_slice(), SUM_LEN))?;
    Ok(Some(rest))
}

/// What a segment that was seen has more than the follower, whose own folder is read if bytes have
/// to be compared. Only what has a sum counts: that is durable there.
pub(crate) fn growth_of<R: Host>(
    rt: &R,
    folder: &str,
    live: Live,
    held: &Held,
    own: &str,
) -> Result<Growth, Halt> {
    match sums_behind_last(rt, folder, live, held)? {
        Some(sums) => behind_sum(rt, folder, live, held, sums.as_slice()),
        None => behind_bytes(rt, folder, live, held, own),
    }
}

/// Compares the bytes of a segment to which nothing is added any more with the follower's. What
/// stands after these is not looked at: it is a tail, since later segments go on from them.
pub(crate) fn compare<R: Host>(
    rt: &R,
    folder: &str,
    live: Live,
    held: &Held,
    own: &str,
) -> Result<(), Halt> {
    let bytes = bytes_in(rt, folder, live.lease)?;
    let _ = still(rt, folder, live)?;
    let ours = ours_of(rt, own, held)?;
    if front_of(bytes.as_slice(), held.end() as usize) == ours.as_slice() {
        Ok(())
    } else {
        Err(Halt::Fault(FollowFault::Strayed {
            segment: live.number,
        }))
    }
}

/// The last sum of a segment to which nothing is added any more.
pub(crate) fn last_sum<R: Host>(rt: &R, folder: &str, live: Live) -> Result<Option<Sum>, Halt> {
    let len = sums_length(rt, folder, live.lease)?;
    let whole = len / SUM_LEN as u64;
    if whole == 0 {
        return Ok(None);
    }
    let at = whole.saturating_sub(1).saturating_mul(SUM_LEN as u64);
    let sums = sums_from(rt, folder, live.lease, at)?;
    Ok(sum_in(sums.as_slice()))
}
