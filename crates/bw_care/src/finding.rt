//! The forward reading of all segments: a second pass over their boxes, whose bytes are looked at
//! where they lie.
//!
//! A page is what its blocks say one after the other. Read page by page, by the links back, a frame
//! would be looked at once for each page that it touches. Read forwards, each is looked at once,
//! and each of its blocks changes the line of its page. The first pass found that all bytes are
//! lawful, so of a frame only the head is read again, and of a page only the keys and the lengths
//! of its values are kept.

ghost use Rattle.std.specs.Prelude.{◌≡◌, ◌≢◌, ◌≤◌, ◌<◌, ◌++◌, [], Some, None, List, length, map, slice_get, IfOk, IfErr, OnOk, IfSome};
ghost use Rattle.bw_record.specs.declared.block.Place.{Place as PlaceValue};
ghost use Rattle.bw_record.specs.declared.block.Block.{Block as BlockValue};
ghost use Rattle.bw_codec.specs.Checking.{IsSeen};
ghost use Rattle.bw_codec.specs.Reading.{front_at};
ghost use Rattle.bw_device.specs.Holding.{Holding};
ghost use Rattle.bw_log.specs.Places.{all_placed, bad_link};
ghost use Rattle.bw_log.specs.Segments.{segment_frames, frames_of};
ghost use Rattle.bw_care.specs.Behind.{frames_behind, EndsInTail};
ghost use Rattle.bw_care.specs.Forward.{IsFramed, AreReady, ForwardStops, IsForward};
ghost use Rattle.bw_care.specs.Passing.{ReadStops};
ghost use Rattle.bw_care.specs.Planned.{as_cause};
ghost use Rattle.bw_lines.specs.Reading.{IsRead, LinkFaultIs};

use crate::lent::lent_at;
use crate::scan::read_box;
use bw_codec::limits::HEAD_LEN;
use bw_codec::{FrameSeen, Header, HeaderRead, find_frame, read_header};
use bw_device::Segment;
use bw_found::{Touched, read_blocks_linked};
use bw_lines::{ReadFault, RecoverCause};
use std::alloc::Global;
use std::collections::BTreeMap;

// What stands at the front of bytes of which it is known that they are a frame or a tail.
fn known(version: u16, m: u16, f: u32, bytes: &[u8]) -> FrameSeen
    requires { front_at version m f bytes.now ≢ None }
    ensures { IsSeen version m f bytes.now result }
{
    let header = Header {
        version,
        number: 1,
        m,
        f,
    };
    find_frame(bytes, &header)
}

// The blocks of the frames after this header of a segment, which a scan has found lawful.
fn find_frames(
    alloc: Global,
    lines: &mut BTreeMap<u32, Touched>,
    first: u64,
    bytes: &[u8],
    header: Header,
) -> Result<(), ReadFault>
    requires long { 24 ≤ length bytes.now }
    requires lawful { EndsInTail header bytes.now }
    ensures ok { (done : List (PlaceValue × BlockValue)) → IsRead first done lines.old
        → OnOk result
        (IsRead first (done ++ all_placed (frames_behind header bytes.now)) lines.new) }
    ensures fault { (done rest : List (PlaceValue × BlockValue)) → IsRead first done lines.old
        → IfErr result (LinkFaultIs
        (bad_link first [] (done ++ (all_placed (frames_behind header bytes.now) ++ rest)))) }
{
    let mut at = 24;
    'frames: loop {
        match known(header.version, header.m, header.f, &bytes[at..]) {
            FrameSeen::Whole(number, used) => {
                let body = &bytes[at + HEAD_LEN..at + used];
                read_blocks_linked(alloc, lines, first, number, header.version, body)?;
                at += used;
            }
            FrameSeen::Tail => return Ok(()),
        }
    }
}

// The blocks of one segment's frames, which a scan has found lawful.
fn find_segment(
    alloc: Global,
    lines: &mut BTreeMap<u32, Touched>,
    first: u64,
    bytes: &[u8],
) -> Result<(), ReadFault>
    requires { IsFramed bytes.now }
    ensures ok { (done : List (PlaceValue × BlockValue)) → IsRead first done lines.old
        → OnOk result (IsRead first (done ++ all_placed (segment_frames bytes.now)) lines.new) }
    ensures fault { (done rest : List (PlaceValue × BlockValue)) → IsRead first done lines.old
        → IfErr result (LinkFaultIs
        (bad_link first [] (done ++ (all_placed (segment_frames bytes.now) ++ rest)))) }
{
    match read_header(bytes) {
        HeaderRead::Whole(header) => find_frames(alloc, lines, first, bytes, header),
        HeaderRead::Part => unreachable!(),
        HeaderRead::Bad => unreachable!(),
    }
}

// The cause that a fault of a reading is.
fn cause_of(fault: ReadFault) -> RecoverCause
    ensures { result ≡ as_cause fault }
{
    match fault {
        ReadFault::NoMemory => RecoverCause::NoMemory,
        ReadFault::BadLink(page) => RecoverCause::BadLink { page },
    }
}

// What the box at a position says, by the bytes that it lends, or else by those that a read brings.
fn find_box(
    alloc: Global,
    lines: &mut BTreeMap<u32, Touched>,
    boxes: &mut Vec<Box<dyn Segment>>,
    at: usize,
    first: u64,
) -> Result<Result<(), ReadFault>, RecoverCause>
    requires inside { at < length boxes.old.items }
    requires framed { IfSome (slice_get (map holding boxes.old.items) at)
        (λ h. IsFramed h.bytes) }
    ensures found { IfOk result (λ found.
        IfSome (slice_get (map holding boxes.old.items) at)
        (λ h. IsForward first h.bytes lines.old found lines.new)) }
    ensures same { OnOk result (map holding boxes.new.items ≡ map holding boxes.old.items) }
    ensures stops { IfErr result (λ cause.
        ReadStops at (map holding boxes.old.items) cause (map holding boxes.new.items)) }
    ensures len { length boxes.new.items ≡ length boxes.old.items }
{
    match lent_at(boxes, at)? {
        Some(bytes) => Ok(find_segment(alloc, lines, first, bytes)),
        None => {
            let bytes = read_box(alloc, boxes, at)?;
            Ok(find_segment(alloc, lines, first, &bytes))
        }
    }
}

// The blocks of the segment in the box at a position.
fn read_box_forward(
    alloc: Global,
    lines: &mut BTreeMap<u32, Touched>,
    boxes: &mut Vec<Box<dyn Segment>>,
    at: usize,
    first: u64,
) -> Result<(), RecoverCause>
    requires inside { at < length boxes.old.items }
    requires framed { IfSome (slice_get (map holding boxes.old.items) at)
        (λ h. IsFramed h.bytes) }
    ensures ok { (h : Holding) (done : List (PlaceValue × BlockValue))
        → slice_get (map holding boxes.old.items) at ≡ Some h → IsRead first done lines.old
        → OnOk result (IsRead first (done ++ all_placed (segment_frames h.bytes)) lines.new) }
    ensures same { OnOk result (map holding boxes.new.items ≡ map holding boxes.old.items) }
    ensures stops { (h : Holding) (done rest : List (PlaceValue × BlockValue))
        → slice_get (map holding boxes.old.items) at ≡ Some h → IsRead first done lines.old
        → IfErr result (λ cause. ForwardStops first
        (done ++ (all_placed (segment_frames h.bytes) ++ rest))
        (map holding boxes.old.items) cause (map holding boxes.new.items)) }
    ensures len { length boxes.new.items ≡ length boxes.old.items }
{
    match find_box(alloc, lines, boxes, at, first)? {
        Ok(()) => Ok(()),
        Err(fault) => Err(cause_of(fault)),
    }
}

/// What the frames of all segments say of each page that they touch, or the page of the first wrong
/// link. The segments' boxes stand at these positions, in the order of the segments' numbers; each
/// is read once.
pub fn read_forward(
    alloc: Global,
    boxes: &mut Vec<Box<dyn Segment>>,
    places: &[usize],
    first: u64,
) -> Result<BTreeMap<u32, Touched>, RecoverCause>
    requires { (hs : List Holding) × AreReady (map holding boxes.old.items) places.now hs }
    ensures read { (hs : List Holding) → AreReady (map holding boxes.old.items) places.now hs
        → IfOk result (IsRead first (all_placed (frames_of (map (λ h. h.bytes) hs)))) }
    ensures same { OnOk result (map holding boxes.new.items ≡ map holding boxes.old.items) }
    ensures stops { (hs : List Holding) → AreReady (map holding boxes.old.items) places.now hs
        → IfErr result (λ cause. ForwardStops first
        (all_placed (frames_of (map (λ h. h.bytes) hs)))
        (map holding boxes.old.items) cause (map holding boxes.new.items)) }
{
    let mut lines = BTreeMap::new(alloc);
    let mut next = 0;
    'segments: while next < places.len() {
        let place = places[next];
        read_box_forward(alloc, &mut lines, boxes, place, first)?;
        next += 1;
    }
    Ok(lines)
}
