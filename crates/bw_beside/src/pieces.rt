//! The pieces of a segment, as a store appends them: its header, and each of its frames.

use bw_codec::limits::HEADER_LEN;
use bw_codec::{FrameSeen, Header, HeaderRead, check_frame, read_header};
use std::alloc::{AllocError, Global};

/// What stands from an offset on.
fn rest_of(bytes: &[u8], at: usize) -> &[u8] {
    if at <= bytes.len() { &bytes[at..] } else { &[] }
}

/// Adds where each whole frame after a header ends.
fn add_frames(ends: &mut Vec<u64>, bytes: &[u8], header: &Header) -> Result<(), AllocError> {
    let mut at = HEADER_LEN;
    // A frame has bytes, so there are fewer frames than bytes.
    for _ in 0..bytes.len() {
        match check_frame(rest_of(bytes, at), header) {
            Ok(FrameSeen::Whole(_, len)) => {
                at = at.saturating_add(len);
                ends.push(at as u64)?;
            }
            _ => return Ok(()),
        }
    }
    Ok(())
}

/// The numbers of the first and the last whole frame after a header, if there is one.
pub fn frames_in(bytes: &[u8], header: &Header) -> Option<(u64, u64)> {
    let mut found = None;
    let mut at = HEADER_LEN;
    for _ in 0..bytes.len() {
        let Ok(FrameSeen::Whole(number, len)) = check_frame(rest_of(bytes, at), header) else {
            return found;
        };
        at = at.saturating_add(len);
        found = match found {
            Some((first, _)) => Some((first, number)),
            None => Some((number, number)),
        };
    }
    found
}

/// Where the pieces of a segment end, in bytes, ascending. What stands after its last whole frame
/// is in none of them.
pub fn ends_of(alloc: Global, bytes: &[u8]) -> Result<Vec<u64>, AllocError> {
    let mut ends = Vec::new(alloc);
    if let HeaderRead::Whole(header) = read_header(bytes) {
        ends.push(HEADER_LEN as u64)?;
        add_frames(&mut ends, bytes, &header)?;
    }
    Ok(ends)
}
