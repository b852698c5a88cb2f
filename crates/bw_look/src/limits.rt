//! The limits of a log, as a segment of it says them.

use crate::frames::{Frames, Step};
use bw_codec::limits::{HEADER_LEN, MAX_FRAME, MIN_FRAME};
use bw_codec::{HeaderRead, read_header};
use std::alloc::{AllocError, Global};

/// What a log goes on with, whatever is asked for.
#[derive(Debug, Clone, Copy)]
pub struct Limits {
    /// The most pairs that a page has.
    pub m: u16,
    /// The most bytes that a frame has.
    pub f: u32,
}

/// The most bytes of a frame of a new store in a folder, if nothing is said of them: as many as a
/// segment of this capacity has room for, of those that are allowed. Each frame is synced once, so
/// long ones are fast.
pub fn frame_in_folder(capacity: u64) -> u32 {
    let room = capacity.saturating_sub(HEADER_LEN as u64);
    u32::try_from(room)
        .unwrap_or(MAX_FRAME)
        .max(MIN_FRAME)
        .min(MAX_FRAME)
}

/// The limits that a segment says, if it has a whole frame: without one nothing goes on.
pub fn limits_in(alloc: Global, bytes: &[u8]) -> Result<Option<Limits>, AllocError> {
    let HeaderRead::Whole(header) = read_header(bytes) else {
        return Ok(None);
    };
    match Frames::behind(bytes, header, HEADER_LEN).step(alloc)? {
        Step::Frame(..) => Ok(Some(Limits {
            m: header.m,
            // Format 1 allows shorter ones, which no frame that is appended is held to.
            f: header.f.max(MIN_FRAME),
        })),
        _ => Ok(None),
    }
}
