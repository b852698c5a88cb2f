//! The whole frames of a segment, be others damaged or not.

ghost use Rattle.std.specs.Prelude.{◌≡◌, ◌<◌, ◌+◌, ℕ, List, Some, drop};
ghost use Rattle.std.specs.Prelude.{IfOk, OnOk, IsTrue, MatchOption};
ghost use Rattle.bw_record.specs.declared.block.Frame.{Frame as FrameValue};
ghost use Rattle.bw_codec.specs.declared.head.Header.{Header as HeaderValue};
ghost use Rattle.bw_rescue.specs.Taken.{StandsAt, NoneAt, IsSpotAt, AreTaken, last_of};
ghost use Rattle.bw_rescue.specs.Taken.{IsFormat, IsReadBy, BeginsWith, TakesAll};
ghost use Rattle.bw_rescue.specs.Hurt.{cuts, is_hurt_at, is_hurt_in, AreOpen, ArePieces};
ghost use Rattle.bw_rescue.specs.Walked.{is_damaged, GoesTo};

use crate::pieces::{Piece, Pieces};
use bw_codec::limits::{HEADER_LEN, MAX_FRAME, MAX_PAIRS};
use bw_codec::{CodecFault, Frame, FrameRead, Header, HeaderRead, read_frame, read_header};
use std::alloc::{AllocError, Global};

/// A whole frame of a segment.
#[derive(Debug, Clone, Copy)]
pub struct Spot {
    /// Its number.
    pub number: u64,
    /// Where it begins, in bytes.
    pub at: usize,
}

/// A segment as it was read, and its whole frames.
#[derive(Drop)]
pub struct Held {
    /// The lease of its file.
    pub lease: u32,
    /// The bytes of its file.
    pub bytes: Vec<u8>,
    /// By which its frames are read: of its own header only the format counts.
    pub header: Header,
    /// Its whole frames, in the order of the file.
    pub spots: Vec<Spot>,
    /// The pieces that have not their digest, and of which frames were taken.
    pub unchecked: Vec<Piece>,
}

/// The text that a frame of format 1 begins with, and one of format 2.
const TEXTS: [[u8; 4]; 2] = [*b"FRM1", *b"FRM2"];

fn text_of(version: u16) -> [u8; 4] {
    if version == 1 { TEXTS[0] } else { TEXTS[1] }
}

/// Whether these bytes begin with the text of a frame of format 1, where the first frame stands.
fn begins_old(bytes: &[u8]) -> bool {
    bytes.len() >= HEADER_LEN && bytes[HEADER_LEN..].starts_with(&TEXTS[0])
}

// The format of the frames of a segment with this heading. If its header is damaged, the first
// frame says the format.
fn format_of(heading: HeaderRead, bytes: &[u8]) -> u16
    ensures { IsFormat heading result }
{
    match heading {
        HeaderRead::Whole(header) => header.version,
        HeaderRead::Part => { if begins_old(bytes) { 1 } else { 2 } }
        HeaderRead::Bad => { if begins_old(bytes) { 1 } else { 2 } }
    }
}

/// A header by which each frame of a segment can be read, whatever its own one says of limits.
fn header_of(bytes: &[u8]) -> Header
    ensures { IsReadBy bytes.now result }
{
    let version = format_of(read_header(bytes), bytes);
    Header {
        version,
        number: 1,
        m: MAX_PAIRS,
        f: MAX_FRAME,
    }
}

/// Where the text of a frame stands next, from an offset on.
fn next_text(bytes: &[u8], from: usize, version: u16) -> Option<usize> {
    if from > bytes.len() {
        return None;
    }
    let text = text_of(version);
    for (index, cells) in bytes[from..].windows(4).enumerate() {
        if cells == text.as_slice() {
            return Some(from.saturating_add(index));
        }
    }
    None
}

/// What stands from an offset on.
fn rest_of(bytes: &[u8], at: usize) -> &[u8]
    ensures { result.now ≡ drop at bytes.now }
{
    if at <= bytes.len() { &bytes[at..] } else { &[] }
}

/// The frame at an offset, with its length, if a whole one stands there. A refused growth is the
/// only error.
pub fn frame_at(
    alloc: Global,
    bytes: &[u8],
    header: Header,
    at: usize,
) -> Result<Option<(Frame, usize)>, AllocError>
    ensures found { IfOk result (λ found. MatchOption found (NoneAt header bytes.now at)
        (λ f. StandsAt header bytes.now at f.0 f.1)) }
    ensures only { (frame : FrameValue) (len : ℕ) → StandsAt header bytes.now at frame len
        → IfOk result (λ found. found ≡ Some (frame, len)) }
{
    match read_frame(alloc, rest_of(bytes, at), &header) {
        Ok(FrameRead::Whole(frame, len)) => Ok(Some((frame, len))),
        Ok(FrameRead::Tail) => Ok(None),
        Err(CodecFault::BadBytes) => Ok(None),
        Err(CodecFault::NoMemory) => Err(AllocError),
    }
}

/// What is known of a frame beside its piece.
#[derive(Clone, Copy, PartialEq, Eq)]
enum Worth {
    /// It may be taken.
    Sound,
    /// It is its piece, which has not its digest.
    Damaged,
    /// It is a part of such a piece.
    Unchecked,
}

fn worth_of(piece: Option<Piece>, at: usize, end: usize) -> Worth
    ensures { is_damaged result ≡ is_hurt_at piece at end }
{
    match piece {
        Some(piece) if !piece.fits => {
            if piece.from == at as u64 && piece.to == end as u64 {
                Worth::Damaged
            } else {
                Worth::Unchecked
            }
        }
        _ => Worth::Sound,
    }
}

/// Where a frame may stand after an offset at which none does. A piece that is no longer than a
/// frame is passed over; else the text of a frame is looked for.
fn next_start(bytes: &[u8], header: Header, piece: Option<Piece>, at: usize) -> Option<usize> {
    match piece {
        Some(piece)
            if piece.from == at as u64
                && piece.to.saturating_sub(piece.from) <= u64::from(MAX_FRAME) => usize::try_from(
            piece.to,
        ).ok(),
        _ => next_text(bytes, at.saturating_add(1), header.version),
    }
}

/// A walk over a segment.
#[derive(Drop)]
struct Walk {
    pieces: Pieces,
    spots: Vec<Spot>,
    at: usize,
    /// The number of the last frame that was taken.
    last: u64,
}

impl Walk {
    // Takes a frame, if it is sound, and goes on to its end.
    fn take(&mut self, number: u64, end: usize, worth: Worth) -> Result<(), AllocError>
        ensures taken { (header : HeaderValue) (bytes : List ℕ)
            → AreTaken header bytes self.old.last self.old.spots.items
            → IsSpotAt header bytes number self.old.at → self.old.last < number
            → OnOk result (AreTaken header bytes self.new.last self.new.spots.items) }
        ensures goes { OnOk result (GoesTo number end (is_damaged worth) self.old self.new) }
        ensures passed { self.new.pieces.passed ≡ self.old.pieces.passed }
    {
        match worth {
            Worth::Damaged => {
                self.at = end;
                return Ok(());
            }
            Worth::Unchecked => self.pieces.take(),
            Worth::Sound => {}
        }
        self.spots.push(Spot {
            number,
            at: self.at,
        })?;
        self.last = number;
        self.at = end;
        Ok(())
    }

    // Looks at what stands next, and says whether there is more.
    fn step(&mut self, alloc: Global, bytes: &[u8], header: Header) -> Result<bool, AllocError>
        ensures taken { AreTaken header bytes.now self.old.last self.old.spots.items
            → OnOk result (AreTaken header bytes.now self.new.last self.new.spots.items) }
        ensures kept { OnOk result (BeginsWith self.old.spots.items self.new.spots.items) }
        ensures goes { (frame : FrameValue) (len : ℕ)
            → StandsAt header bytes.now self.old.at frame len → self.old.last < frame.number
            → AreOpen self.old.at self.old.pieces → IfOk result (λ more. IsTrue more
            × AreOpen self.old.at self.new.pieces
            × GoesTo frame.number (self.old.at + len)
            (is_hurt_in (cuts self.old.pieces) self.old.at (self.old.at + len))
            self.old self.new) }
    {
        let piece = self.pieces.around(self.at as u64);
        match frame_at(alloc, bytes, header, self.at)? {
            // The frames of a segment ascend: what does not is the image of a frame in a value.
            Some((frame, len)) if frame.number > self.last => {
                let end = self.at.saturating_add(len);
                self.take(frame.number, end, worth_of(piece, self.at, end))?;
                Ok(true)
            }
            _ => match next_start(bytes, header, piece, self.at) {
                Some(next) => {
                    self.at = next;
                    Ok(true)
                }
                None => Ok(false),
            },
        }
    }
}

// Goes over all bytes of a segment. Each step comes to a later one.
fn walked(alloc: Global, bytes: &[u8], header: Header, pieces: Pieces) -> Result<Walk, AllocError>
    ensures taken { IfOk result (λ walk.
        AreTaken header bytes.now walk.last walk.spots.items) }
    ensures all { (sums : List ℕ) → ArePieces bytes.now sums pieces
        → IfOk result (λ walk. TakesAll header bytes.now sums walk.spots.items) }
{
    let mut walk = Walk {
        pieces,
        spots: Vec::new(alloc),
        at: HEADER_LEN,
        last: 0,
    };
    'steps: for _ in 0..bytes.len() {
        if !walk.step(alloc, bytes, header)? {
            return Ok(walk);
        }
    }
    Ok(walk)
}

/// The pieces that have not their digest, and of which frames were taken.
fn unchecked_of(alloc: Global, pieces: &Pieces) -> Result<Vec<Piece>, AllocError> {
    let mut unchecked = Vec::new(alloc);
    for row in pieces.rows() {
        if !row.fits && row.is_taken {
            unchecked.push(*row)?;
        }
    }
    Ok(unchecked)
}

impl Held {
    /// The segment of a lease, with these bytes and sums. Each frame that is taken is whole, and
    /// their numbers ascend. All frames that stand in a row after the header are taken first, but
    /// for those of which each is a piece by itself that has not its digest. After the row more may
    /// be found, as behind damaged bytes, or in a value that holds the image of a frame. A refused
    /// growth is the only error.
    pub fn of(alloc: Global, lease: u32, bytes: Vec<u8>, sums: &[u8]) -> Result<Held, AllocError>
        ensures lease { IfOk result (λ h. h.lease ≡ lease) }
        ensures bytes { IfOk result (λ h. h.bytes ≡ bytes) }
        ensures header { IfOk result (λ h. IsReadBy bytes.items h.header) }
        ensures taken { IfOk result (λ h. AreTaken h.header h.bytes.items
            (last_of 0 h.spots.items) h.spots.items) }
        ensures all { IfOk result (λ h.
            TakesAll h.header h.bytes.items sums.now h.spots.items) }
    {
        let header = header_of(bytes.as_slice());
        let pieces = Pieces::of(alloc, bytes.as_slice(), sums)?;
        let Walk { pieces, spots, .. } = walked(alloc, bytes.as_slice(), header, pieces)?;
        let unchecked = unchecked_of(alloc, &pieces)?;
        Ok(Held {
            lease,
            bytes,
            header,
            spots,
            unchecked,
        })
    }

    /// The most pairs that a page has, as its own header says, if it has one.
    pub fn m(&self) -> Option<u16> {
        match read_header(self.bytes.as_slice()) {
            HeaderRead::Whole(header) => Some(header.m),
            _ => None,
        }
    }
}
