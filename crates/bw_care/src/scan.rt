//! One box's bytes, read from left to right.
//!
//! What stands after the last whole frame is a tail, or damage, and everything hangs on which. A
//! stop leaves a beginning of a lawful frame there. Were damage taken for a tail, records that were
//! durable would be dropped in silence; were a tail taken for damage, a store would be refused
//! after each loss of power. No beginning of a lawful frame is a whole one or begins another, so
//! only the bytes decide.

ghost use Rattle.std.specs.Prelude.{◌≡◌, ◌≤◌, ◌<◌, ◌^◌, ℕ, None, IfOk, IfErr, Result, Ok, Err, length, map, slice_get, OnOk, IfSome};
ghost use Rattle.bw_codec.specs.Grammar.{IsFront};
ghost use Rattle.bw_codec.specs.Checking.{IsSeen};
ghost use Rattle.bw_codec.specs.Reading.{Gives, front_at};
ghost use Rattle.bw_record.specs.declared.block.Frame.{Frame};
ghost use Rattle.bw_log.specs.Starts.{starts_of};
ghost use Rattle.bw_care.specs.Scanning.{fault_behind, fault_in, FaultIs};
ghost use Rattle.bw_care.specs.Scanned.{IsScan, IsScanned, AreScans};
ghost use Rattle.bw_care.specs.Behind.{IsBehind};
ghost use Rattle.bw_care.specs.Spelling.{IsSpelling};
ghost use Rattle.bw_care.specs.Passing.{ReadStops, PassStops};

use crate::lent::lent_at;
use bw_codec::{
    CodecFault, FrameRead, FrameSeen, Header, HeaderRead, check_frame, read_frame, read_header,
};
use bw_device::{Segment, failures_of, lease_of, len_of, read_from};
use bw_lines::RecoverCause;
use bw_log::{FrameAt, Starts};
use std::alloc::{AllocError, AllocFailed, Global};

/// Why bytes cannot be read.
#[derive(Clone, Copy)]
pub enum ScanFault {
    NoMemory,
    /// What stands here is neither a frame nor a tail.
    BadBytes(u64),
}

impl From<AllocError> for ScanFault {
    ghost use Rattle.bw_care.specs.declared.scan.ScanFault.TheVariants.{NoMemory};

    ghost from_gives = { λ _ fault. fault ≡ NoMemory };

    fn from(_error: AllocError) -> ScanFault {
        ScanFault::NoMemory
    }
}

impl<T: Drop> From<AllocFailed<T>> for ScanFault {
    ghost use Rattle.bw_care.specs.declared.scan.ScanFault.TheVariants.{NoMemory};

    ghost from_gives = { λ _ fault. fault ≡ NoMemory };

    fn from(_error: AllocFailed<T>) -> ScanFault {
        ScanFault::NoMemory
    }
}

/// What stands after a header.
#[derive(Drop)]
pub struct Behind {
    /// Where the whole frames stand, each in segment 0.
    pub lines: Vec<FrameAt>,
    /// How many bytes follow the last of them.
    pub tail: usize,
}

impl Behind {
    /// Where the whole frames stand.
    pub(crate) fn into_lines(self) -> Vec<FrameAt>
        ensures { result ≡ self.lines }
    {
        let Behind { lines, tail: _ } = self;
        lines
    }
}

/// What stands at the front of bytes after a header of this version and with these limits.
pub(crate) fn front(
    alloc: Global,
    bytes: &[u8],
    version: u16,
    m: u16,
    f: u32,
) -> Result<FrameRead, CodecFault>
    ensures found { IfOk result (IsFront version m f bytes.now) }
    ensures gives { Gives (λ x. x) result (front_at version m f bytes.now) }
{
    let header = Header {
        version,
        number: 1,
        m,
        f,
    };
    read_frame(alloc, bytes, &header)
}

/// What stands at the front of bytes after a header, in short: nothing is made of the frame, and no
/// memory is taken.
fn seen(version: u16, m: u16, f: u32, bytes: &[u8]) -> Result<FrameSeen, CodecFault>
    ensures found { IfOk result (IsSeen version m f bytes.now) }
    ensures none { IfErr result (λ _. front_at version m f bytes.now ≡ None) }
{
    let header = Header {
        version,
        number: 1,
        m,
        f,
    };
    check_frame(bytes, &header)
}

/// A whole frame with this number, which these bytes are, at this place of segment 0.
fn line_of(alloc: Global, header: &Header, number: u64, at: usize, bytes: &[u8]) -> FrameAt
    ghost frame: { Frame }
    requires short { length bytes.now < 2 ^ 32 }
    requires there { IsSpelling header.now.version header.now.m header.now.f frame bytes.now }
    ensures { result ≡ record {
      number = number;
      segment = 0;
      at = at;
      len = length bytes.now;
      starts = starts_of header.now.version frame;
    } }
{
    FrameAt {
        number,
        segment: 0,
        at: at as u64,
        len: bytes.len() as u32,
        starts: Starts::of_found(alloc, header.version, bytes),
    }
}

/// All whole frames after this header of a segment. It costs what the bytes do.
pub fn read_behind(alloc: Global, bytes: &[u8], header: Header) -> Result<Behind, ScanFault>
    requires { 24 ≤ length bytes.now }
    ensures found { IfOk result (IsBehind header bytes.now) }
    ensures fault { IfErr result (FaultIs (fault_behind header bytes.now)) }
{
    let mut lines = Vec::new(alloc);
    let mut at = 24;
    'frames: loop {
        match seen(header.version, header.m, header.f, &bytes[at..]) {
            Ok(FrameSeen::Whole(number, used)) => {
                let frame = &bytes[at..at + used];
                lines.push(line_of(alloc, &header, number, at, frame))?;
                at += used;
            }
            Ok(FrameSeen::Tail) => {
                return Ok(Behind {
                    lines,
                    tail: bytes.len() - at,
                });
            }
            Err(_) => return Err(ScanFault::BadBytes(at as u64)),
        }
    }
}

/// What one box is.
#[derive(Drop)]
pub enum Scan {
    Bare,
    Part,
    Live(Header, Behind),
}

/// What a box with these bytes is.
pub fn scan_bytes(alloc: Global, bytes: &[u8]) -> Result<Scan, ScanFault>
    ensures found { IfOk result (IsScan bytes.now) }
    ensures fault { IfErr result (FaultIs (fault_in bytes.now)) }
{
    if bytes.is_empty() {
        return Ok(Scan::Bare);
    }
    match read_header(bytes) {
        HeaderRead::Whole(header) => {
            let behind = read_behind(alloc, bytes, header)?;
            Ok(Scan::Live(header, behind))
        }
        HeaderRead::Part => Ok(Scan::Part),
        HeaderRead::Bad => Err(ScanFault::BadBytes(0)),
    }
}

/// All bytes of a box; one of no bytes is not asked.
pub(crate) fn read_box(
    alloc: Global,
    boxes: &mut Vec<Box<dyn Segment>>,
    at: usize,
) -> Result<Vec<u8>, RecoverCause>
    requires { at < length boxes.old.items }
    ensures bytes { IfOk result (λ bytes.
        IfSome (slice_get (map holding boxes.old.items) at) (λ h. bytes.items ≡ h.bytes)) }
    ensures same { OnOk result (map holding boxes.new.items ≡ map holding boxes.old.items) }
    ensures stops { IfErr result (λ cause.
        ReadStops at (map holding boxes.old.items) cause (map holding boxes.new.items)) }
    ensures len { length boxes.new.items ≡ length boxes.old.items }
{
    let len = len_of(boxes, at);
    if len == 0 {
        return Ok(Vec::new(alloc));
    }
    if failures_of(boxes, at) == u64::MAX {
        return Err(RecoverCause::Spent);
    }
    let mut bytes = vec![in alloc; 0u8; len as usize]?;
    match read_from(boxes, at, 0, &mut bytes) {
        Ok(()) => Ok(bytes),
        Err(_) => {
            let lease = lease_of(boxes, at);
            Err(RecoverCause::Device { lease })
        }
    }
}

/// What the box at a position is, by the bytes that it lends, or else by those that a read brings.
fn scan_one(
    alloc: Global,
    boxes: &mut Vec<Box<dyn Segment>>,
    at: usize,
) -> Result<Result<Scan, ScanFault>, RecoverCause>
    requires { at < length boxes.old.items }
    ensures found { IfOk result (λ found.
        IfSome (slice_get (map holding boxes.old.items) at) (λ h. IsScanned h.bytes found)) }
    ensures same { OnOk result (map holding boxes.new.items ≡ map holding boxes.old.items) }
    ensures stops { IfErr result (λ cause.
        ReadStops at (map holding boxes.old.items) cause (map holding boxes.new.items)) }
    ensures len { length boxes.new.items ≡ length boxes.old.items }
{
    match lent_at(boxes, at)? {
        Some(bytes) => Ok(scan_bytes(alloc, bytes)),
        None => {
            let bytes = read_box(alloc, boxes, at)?;
            Ok(scan_bytes(alloc, &bytes))
        }
    }
}

/// What each box is, in their order.
pub fn scan_all(alloc: Global, boxes: &mut Vec<Box<dyn Segment>>) -> Result<Vec<Scan>, RecoverCause>
    requires { length boxes.old.items < 2 ^ 32 }
    ensures scans { IfOk result (λ scans. AreScans (map holding boxes.old.items) scans.items) }
    ensures same { OnOk result (map holding boxes.new.items ≡ map holding boxes.old.items) }
    ensures stops { IfErr result (λ cause.
        PassStops (map holding boxes.old.items) cause (map holding boxes.new.items)) }
{
    let mut scans = Vec::new(alloc);
    for at in 0..boxes.len() {
        match scan_one(alloc, boxes, at)? {
            Ok(scan) => scans.push(scan)?,
            Err(ScanFault::NoMemory) => return Err(RecoverCause::NoMemory),
            Err(ScanFault::BadBytes(offset)) => {
                return Err(RecoverCause::BadBytes {
                    segment: at as u32,
                    at: offset,
                });
            }
        }
    }
    Ok(scans)
}
