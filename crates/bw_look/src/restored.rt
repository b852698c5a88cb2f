//! A log as it was when a frame was its last.

ghost use Rattle.std.specs.Prelude.{◌≡◌, drop, IfOk, MatchOption};
ghost use Rattle.bw_look.specs.Restored.{Ends, IsNext, IsKeptAfter, IsKept};

use crate::image::Image;
use crate::survey::Survey;
use bw_codec::limits::HEADER_LEN;
use bw_codec::{CodecFault, FrameRead, Header, HeaderRead, read_frame, read_header};
use std::alloc::{AllocError, Global};

// What stands from an offset on.
fn rest_of(bytes: &[u8], at: usize) -> &[u8]
    ensures { result.now ≡ drop at bytes.now }
{
    if at <= bytes.len() { &bytes[at..] } else { &[] }
}

// Where the frame ends that stands at an offset, if one does, whose number is this one at most.
fn next(
    alloc: Global,
    bytes: &[u8],
    header: Header,
    at: usize,
    last: u64,
) -> Result<Option<usize>, AllocError>
    ensures { IfOk result (λ end. MatchOption end (Ends last header (drop at bytes.now))
        (IsNext last header bytes.now at)) }
{
    match read_frame(alloc, rest_of(bytes, at), &header) {
        Ok(FrameRead::Whole(frame, len)) => {
            if frame.number <= last {
                Ok(Some(at.saturating_add(len)))
            } else {
                Ok(None)
            }
        }
        Ok(FrameRead::Tail) => Ok(None),
        Err(CodecFault::BadBytes) => Ok(None),
        Err(CodecFault::NoMemory) => Err(AllocError),
    }
}

// How many bytes a segment with this header had when this frame was the last of the log.
fn kept_after(alloc: Global, bytes: &[u8], header: Header, last: u64) -> Result<usize, AllocError>
    ensures { IfOk result (IsKeptAfter last header bytes.now) }
{
    let mut at = HEADER_LEN;
    let mut kept = 0;
    'frames: for _ in 0..bytes.len() {
        match next(alloc, bytes, header, at, last)? {
            Some(end) => {
                at = end;
                kept = end;
            }
            None => return Ok(kept),
        }
    }
    Ok(kept)
}

/// How many bytes a segment had when this frame was the last of the log; 0 if it was not begun: its
/// header, and its frames up to that one. A refused growth is the only error.
pub fn kept_bytes(alloc: Global, image: &Image, frame: u64) -> Result<usize, AllocError>
    ensures { IfOk result (IsKept frame image.now.bytes.items) }
{
    let bytes = image.bytes.as_slice();
    match read_header(bytes) {
        HeaderRead::Whole(header) => kept_after(alloc, bytes, header, frame),
        HeaderRead::Part => Ok(0),
        HeaderRead::Bad => Ok(0),
    }
}

/// How many pages there were when this frame was the last, if there are so many now. Pages are made
/// by Splits, one after the other.
pub fn pages_at(survey: &Survey, frame: u64, now: u64) -> u64 {
    let mut pages = now;
    for row in survey.blocks() {
        if row.frame > frame {
            if let Some(made) = row.made {
                pages = pages.min(u64::from(made).saturating_sub(1));
            }
        }
    }
    pages
}
