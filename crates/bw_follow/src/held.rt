//! A segment that the folder that follows has, and how far it has come.

use bw_codec::{FrameSeen, Header, check_frame};
use bw_device::MAX_CAPACITY;
use bw_digest::{Row, SUM_LEN, Sum};
use std::alloc::{AllocError, Global};

/// A segment that the folder that follows has.
#[derive(Clone, Copy)]
pub(crate) struct Held {
    pub(crate) lease: u32,
    pub(crate) header: Header,
    /// How far its sums have come: what stands after that is not counted.
    pub(crate) row: Row,
    /// The last of these.
    pub(crate) last: Option<Sum>,
    /// The last sum of the followed folder's file, if its sums are others and its bytes were found
    /// to be the same.
    pub(crate) other: Option<Sum>,
}

impl Held {
    /// One that is begun, with no bytes yet.
    pub(crate) fn begun(lease: u32, header: Header) -> Held {
        Held {
            lease,
            header,
            row: Row::new(),
            last: None,
            other: None,
        }
    }

    pub(crate) fn number(&self) -> u64 {
        self.header.number
    }

    /// How many bytes it has.
    pub(crate) fn end(&self) -> u64 {
        self.row.end()
    }

    /// Where the last sum stands in the file of sums, in bytes; 0 if there is none.
    pub(crate) fn last_at(&self) -> u64 {
        self.row
            .count()
            .saturating_sub(1)
            .saturating_mul(SUM_LEN as u64)
    }

    /// Where the next one will stand.
    pub(crate) fn next_at(&self) -> u64 {
        self.row.count().saturating_mul(SUM_LEN as u64)
    }

    /// Counts a piece, and adds its sum to these bytes of sums. An empty piece has none.
    pub(crate) fn add(&mut self, sums: &mut Vec<u8>, piece: &[u8]) -> Result<(), AllocError> {
        if let Some((row, sum)) = noted(self.row, piece) {
            sums.extend_from_slice(&sum.to_bytes())?;
            self.row = row;
            self.last = Some(sum);
        }
        Ok(())
    }

    /// Counts these bytes, which stand after it in pieces that end here; their sums as bytes.
    pub(crate) fn count(
        &mut self,
        alloc: Global,
        bytes: &[u8],
        ends: &[u64],
    ) -> Result<Vec<u8>, AllocError> {
        let begin = self.end();
        let mut sums = Vec::new(alloc);
        for end in ends {
            let piece = between(bytes, begin, self.end(), *end);
            self.add(&mut sums, piece)?;
        }
        Ok(sums)
    }
}

/// The bytes of a segment from one offset up to another, among those that begin at an offset of it.
pub(crate) fn between(bytes: &[u8], begin: u64, from: u64, to: u64) -> &[u8] {
    let first = from.saturating_sub(begin) as usize;
    let last = to.saturating_sub(begin) as usize;
    if first <= last && last <= bytes.len() {
        &bytes[first..last]
    } else {
        &[]
    }
}

/// What stands from an offset on.
pub(crate) fn rest_of(bytes: &[u8], at: usize) -> &[u8] {
    if at <= bytes.len() { &bytes[at..] } else { &[] }
}

/// What stands before an offset.
pub(crate) fn front_of(bytes: &[u8], at: usize) -> &[u8] {
    if at <= bytes.len() {
        &bytes[..at]
    } else {
        bytes
    }
}

/// The row with the sum of this piece, and that sum; none if the piece is empty, or longer than any
/// segment.
pub(crate) fn noted(row: Row, piece: &[u8]) -> Option<(Row, Sum)> {
    if row.end() > MAX_CAPACITY || piece.len() as u64 > MAX_CAPACITY {
        return None;
    }
    let sum = row.sum_of(piece);
    if row.end() < sum.end {
        Some((row.with(sum), sum))
    } else {
        None
    }
}

/// The sums that count, in these bytes, after a row.
pub(crate) fn sums_behind(alloc: Global, row: Row, sums: &[u8]) -> Result<Vec<Sum>, AllocError> {
    let mut found = Vec::new(alloc);
    let mut row = row;
    for i in 0..sums.len() / SUM_LEN {
        let sum = Sum::read(&sums[i * SUM_LEN..]);
        if !row.is_followed_by(sum, u64::MAX) {
            return Ok(found);
        }
        row = row.with(sum);
        found.push(sum)?;
    }
    Ok(found)
}

/// The last sum that these bytes begin with, if so many are there.
pub(crate) fn sum_in(sums: &[u8]) -> Option<Sum> {
    if sums.len() >= SUM_LEN {
        Some(Sum::read(sums))
    } else {
        None
    }
}

/// The number of the frame that follows these bytes, which stand after whole frames of a segment,
/// and before which this number is the next; none if they are no frames that go on from there. A
/// tail may follow them.
pub(crate) fn next_behind(header: &Header, bytes: &[u8], next: u64) -> Option<u64> {
    let mut at = 0usize;
    let mut next = next;
    // A frame has bytes, so there are fewer frames than bytes.
    for _ in 0..bytes.len() {
        match check_frame(rest_of(bytes, at), header) {
            Ok(FrameSeen::Whole(number, len)) if number == next => {
                at = at.saturating_add(len);
                next = next.saturating_add(1);
            }
            Ok(FrameSeen::Tail) => return Some(next),
            _ => return None,
        }
    }
    Some(next)
}
