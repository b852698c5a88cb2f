//! What recovery says of segments that were read, and what their pages are asked. Each page is read
//! from its log when it is wanted, and none stays.

ghost use Rattle.bw_care.specs.Found.{IsRecovered};

use bw_care::{RecoverCause, Recovered, recover};
use bw_codec::limits::{HEADER_LEN, MAX_FRAME};
use bw_device::{Desk, MAX_CAPACITY, MAX_LEASES, MemSegment, NotMade, NotTaken, Segment};
use bw_look::Image;
use std::alloc::Global;

/// The least capacity of a segment in memory, in bytes: a header and the longest frame.
const LEAST: u64 = HEADER_LEN as u64 + MAX_FRAME as u64;

/// What is asked of the pages of a store that is only looked at; a watch `W` hears of it.
pub trait Ask<W>: Drop {
    /// What it answers.
    type Answer;

    /// Asks it.
    fn ask(&mut self, pages: Recovered, watch: &mut W) -> Self::Answer
        requires { IsRecovered (λ b. holding (b.vtable, b.value)) pages };
}

fn not_taken(fault: NotTaken) -> RecoverCause {
    match fault {
        NotTaken::NoMemory => RecoverCause::NoMemory,
        NotTaken::NoLease => RecoverCause::BadConfig,
    }
}

fn not_made(fault: NotMade) -> RecoverCause {
    match fault {
        NotMade::NoMemory => RecoverCause::NoMemory,
        NotMade::BadConfig => RecoverCause::BadConfig,
    }
}

/// A desk for the leases of segments in memory. Each segment gets the least that is free.
fn desk(alloc: Global) -> Result<Desk, RecoverCause> {
    Desk::new(alloc, MAX_LEASES).map_err(not_made)
}

/// A segment in memory that holds a copy of these bytes.
fn copy_of(alloc: Global, desk: &mut Desk, bytes: &[u8]) -> Result<MemSegment, RecoverCause> {
    let lease = desk.take().map_err(not_taken)?;
    match MemSegment::with_bytes(alloc, lease, LEAST.max(bytes.len() as u64), bytes) {
        Ok(copy) => Ok(copy),
        Err(refused) => Err(not_made(refused.cause)),
    }
}

/// A segment in memory that holds these bytes, in the list that has them, which gets the room of
/// the segment.
fn segment_of(desk: &mut Desk, bytes: Vec<u8>) -> Result<MemSegment, RecoverCause> {
    let lease = desk.take().map_err(not_taken)?;
    let len = bytes.len() as u64;
    if len > MAX_CAPACITY {
        return Err(RecoverCause::BadConfig);
    }
    let capacity = LEAST.max(len);
    let mut bytes = bytes;
    bytes.reserve_exact((capacity - len) as usize)?;
    Ok(MemSegment::of_vec(lease, capacity, bytes))
}

/// Segments in memory with the bytes of these, which stay.
fn copies_of(alloc: Global, images: &[Image]) -> Result<Vec<MemSegment>, RecoverCause> {
    let mut desk = desk(alloc)?;
    let mut segments = Vec::new(alloc);
    for image in images {
        segments.push(copy_of(alloc, &mut desk, image.bytes.as_slice())?)?;
    }
    Ok(segments)
}

/// Segments in memory with the bytes of these.
fn segments_of(alloc: Global, images: Vec<Image>) -> Result<Vec<MemSegment>, RecoverCause> {
    let mut desk = desk(alloc)?;
    let mut segments = Vec::new(alloc);
    for image in images {
        segments.push(segment_of(&mut desk, image.bytes)?)?;
    }
    Ok(segments)
}

// Asks the pages in these boxes, if recovery accepts them.
fn ask_boxes<W, A: Ask<W>>(
    alloc: Global,
    boxes: Vec<Box<dyn Segment>>,
    ask: &mut A,
    watch: &mut W,
) -> Result<A::Answer, RecoverCause>
    requires { Unit {0} }
{
    match recover(alloc, boxes) {
        Ok(pages) => Ok(ask.ask(pages, watch)),
        Err(fault) => Err(fault.cause),
    }
}

// Asks the pages in these segments. Their boxes are made only here: a function that takes or gives
// a box makes none.
fn ask_segments<W, A: Ask<W>>(
    alloc: Global,
    segments: Vec<MemSegment>,
    ask: &mut A,
    watch: &mut W,
) -> Result<A::Answer, RecoverCause> {
    let mut boxes: Vec<Box<dyn Segment>> = Vec::new(alloc);
    for segment in segments {
        let Ok(segment) = Box::new(alloc, segment) else {
            return Err(RecoverCause::NoMemory);
        };
        boxes.push(segment)?;
    }
    ask_boxes(alloc, boxes, ask, watch)
}

/// Asks the pages in these segments, which stay, if recovery accepts them. It takes memory for a
/// copy of all bytes, and the time of a recovery and of what is asked.
pub fn ask_images<W, A: Ask<W>>(
    alloc: Global,
    images: &[Image],
    ask: &mut A,
    watch: &mut W,
) -> Result<A::Answer, RecoverCause> {
    ask_segments(alloc, copies_of(alloc, images)?, ask, watch)
}

/// Asks the pages in these segments, if recovery accepts them. It takes the time of a recovery and
/// of what is asked. The lists of their bytes become the segments, so at most a growth of one
/// copies any.
pub fn ask_owned<W, A: Ask<W>>(
    alloc: Global,
    images: Vec<Image>,
    ask: &mut A,
    watch: &mut W,
) -> Result<A::Answer, RecoverCause> {
    ask_segments(alloc, segments_of(alloc, images)?, ask, watch)
}
