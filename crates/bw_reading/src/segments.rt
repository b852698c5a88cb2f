//! The pages of segments, as recovery finds them.

ghost use Rattle.std.specs.Prelude.{◌≡◌, ◌+◌, ◌<◌, ◌≤◌, ◌^◌, [], map, take, drop, length, max, not, true, position, slice_set, Some, IfOk};
ghost use Rattle.bw_device.specs.Memory.{memory_holding, fresh_holding};
ghost use Rattle.bw_reading.specs.Handed.{boxes_in, FitSums, AreWhole};
ghost use Rattle.bw_reading.specs.Pages.{ArePagesOf};

use crate::answer::Fault;
use bw_care::{RecoverCause, RecoverFault, recover};
use bw_codec::limits::{HEADER_LEN, MAX_FRAME};
use bw_codec::{HeaderRead, read_header};
use bw_device::{Desk, MemSegment, Segment};
use bw_digest::check;
use bw_page::Leaves;
use std::alloc::Global;

/// The least capacity of a copy, in bytes: a header and the longest frame.
const LEAST: u64 = HEADER_LEN as u64 + MAX_FRAME as u64;

/// The most pairs of a page, of a store that has none yet.
const NONE_LIMIT: u16 = 32;

// A piece of bytes, if it is all there.
fn piece(bytes: &[u8], at: u64, len: u64) -> Result<&[u8], Fault>
    ensures value { IfOk result (λ piece. piece.now ≡ take len (drop at bytes.now)) }
    ensures within { IfOk result (λ piece. at + len ≤ length bytes.now) }
    ensures small { IfOk result (λ piece. at + len < 2 ^ 64) }
{
    let Some(end) = at.checked_add(len) else {
        return Err(Fault::Damaged);
    };
    if end > bytes.len() as u64 {
        return Err(Fault::Damaged);
    }
    Ok(&bytes[at as usize..end as usize])
}

// A copy of a segment in memory, whose bytes fit the sums beside them, with the desk's next lease.
fn copy_of(alloc: Global, desk: &mut Desk, bytes: &[u8], sums: &[u8]) -> Result<MemSegment, Fault>
    ensures fits { IfOk result (λ copy. FitSums bytes.now sums.now) }
    ensures lease { IfOk result
        (λ copy. position not desk.old ≡ Some (memory_holding copy).lease) }
    ensures taken { IfOk result
        (λ copy. desk.new ≡ slice_set desk.old (memory_holding copy).lease true) }
    ensures made { IfOk result (λ copy. memory_holding copy
        ≡ fresh_holding (memory_holding copy).lease (max LEAST (length bytes.now)) bytes.now) }
{
    check(bytes, sums)?;
    let lease = desk.take()?;
    let capacity = LEAST.max(bytes.len() as u64);
    Ok(MemSegment::with_bytes(alloc, lease, capacity, bytes)?)
}

// The segments, each as a copy in memory whose bytes fit their sums.
fn copies_of(
    alloc: Global,
    bytes: &[u8],
    sums: &[u8],
    parts: &[u64],
) -> Result<Vec<MemSegment>, Fault>
    ensures copies { IfOk result (λ copies.
        map memory_holding copies.items ≡ boxes_in bytes.now parts.now) }
    ensures whole { IfOk result (λ copies. AreWhole bytes.now sums.now parts.now) }
{
    let count = (parts.len() / 2).min(u32::MAX as usize);
    let mut desk = Desk::new(alloc, count as u32)?;
    let mut copies = Vec::new(alloc);
    let (mut at, mut sums_at) = (0u64, 0u64);
    for i in 0..count {
        let (len, sums_len) = (parts[2 * i], parts[2 * i + 1]);
        let its = piece(bytes, at, len)?;
        let copy = copy_of(alloc, &mut desk, its, piece(sums, sums_at, sums_len)?)?;
        copies.push(copy)?;
        at = at.saturating_add(len);
        sums_at = sums_at.saturating_add(sums_len);
    }
    Ok(copies)
}

// Whether a segment, of a log in which no frame is whole, may be the first that was ever begun: it
// has no bytes or a part of a header, or the header of segment 1.
fn may_be_first(one: &mut Box<dyn Segment>) -> bool {
    let mut front = [0u8; 24];
    if one.len() < 24 {
        return true;
    }
    if one.failures() == u64::MAX || one.read(0, &mut front).is_err() {
        return false;
    }
    matches!(read_header(&front), HeaderRead::Whole(header) if header.number == 1)
}

// Whether these segments, which have no whole frame, hold only the beginning of a first one, of
// which nothing was ever durable: whoever writes there begins anew.
fn are_begun(boxes: &mut [Box<dyn Segment>]) -> bool {
    let mut count = 0usize;
    for one in boxes {
        if one.len() > 0 {
            count = count.saturating_add(1);
            if !may_be_first(one) {
                return false;
            }
        }
    }
    count <= 1
}

// The pages of these segments: one empty page if nothing was ever durable in them.
fn pages_of(alloc: Global, boxes: Vec<Box<dyn Segment>>) -> Result<Leaves, Fault>
    requires { Unit {0} }
    ensures here { IfOk result (λ leaves. leaves.evicted ≡ []) }
    ensures pages { IfOk result (λ leaves. ArePagesOf (map holding boxes.items) leaves.leaves) }
{
    match recover(alloc, boxes) {
        Ok(found) => match found.warm() {
            Ok(found) => Ok(found.leaves),
            Err(refused) => Err(Fault::from(refused.cause)),
        },
        Err(refused) => {
            let RecoverFault { mut boxes, cause } = refused;
            if matches!(cause, RecoverCause::Empty) && are_begun(&mut boxes) {
                return Ok(Leaves::one_empty(alloc, NONE_LIMIT)?);
            }
            Err(Fault::from(cause))
        }
    }
}

// The pages of these copies in memory. Their boxes are made here only.
fn pages_in_copies(alloc: Global, copies: Vec<MemSegment>) -> Result<Leaves, Fault>
    ensures here { IfOk result (λ leaves. leaves.evicted ≡ []) }
    ensures pages { IfOk result
        (λ leaves. ArePagesOf (map memory_holding copies.items) leaves.leaves) }
{
    let mut boxes: Vec<Box<dyn Segment>> = Vec::new(alloc);
    for copy in copies {
        boxes.push(Box::new(alloc, copy)?)?;
    }
    pages_of(alloc, boxes)
}

/// The pages of segments: of `parts` two lengths for each, of its bytes and of its sums, which
/// stand one after the other in `bytes` and in `sums`. Bytes that do not fit their sums are
/// refused.
///
/// It takes memory for a copy of all bytes, and the time of a recovery.
pub(crate) fn pages_in(
    alloc: Global,
    bytes: &[u8],
    sums: &[u8],
    parts: &[u64],
) -> Result<Leaves, Fault>
    ensures here { IfOk result (λ leaves. leaves.evicted ≡ []) }
    ensures whole { IfOk result (λ leaves. AreWhole bytes.now sums.now parts.now) }
    ensures pages { IfOk result
        (λ leaves. ArePagesOf (boxes_in bytes.now parts.now) leaves.leaves) }
{
    let copies = copies_of(alloc, bytes, sums, parts)?;
    pages_in_copies(alloc, copies)
}
