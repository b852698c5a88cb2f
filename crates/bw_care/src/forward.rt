//! The forward reading of one segment, of which one frame is held at a time: the pages that it
//! touches, as its frames leave them.

ghost use Rattle.std.specs.Prelude.{◌≡◌, ◌≤◌, ◌++◌, [], List, length, IfErr, OnOk};
ghost use Rattle.bw_record.specs.declared.block.Place.{Place as PlaceValue};
ghost use Rattle.bw_record.specs.declared.block.Block.{Block as BlockValue};
ghost use Rattle.bw_log.specs.Places.{all_placed, bad_link};
ghost use Rattle.bw_log.specs.Segments.{segment_frames};
ghost use Rattle.bw_care.specs.Behind.{frames_behind, EndsInTail};
ghost use Rattle.bw_care.specs.Forward.{IsFramed};
ghost use Rattle.bw_lines.specs.Reading.{IsRead, LinkFaultIs};

use crate::scan::front;
use bw_codec::{CodecFault, Frame, FrameRead, Header, HeaderRead, read_header};
use bw_lines::{DraftLine, ReadFault, read_blocks_linked};
use std::alloc::Global;
use std::collections::BTreeMap;

// The blocks of the frames after this header of a segment, which a scan has found lawful.
fn read_frames(
    alloc: Global,
    lines: &mut BTreeMap<u32, DraftLine>,
    first: u64,
    bytes: &[u8],
    header: Header,
) -> Result<(), ReadFault>
    requires long { 24 ≤ length bytes.now }
    requires lawful { EndsInTail header bytes.now }
    ensures ok { (done : List (PlaceValue × BlockValue)) → IsRead first done lines.old
        → OnOk result
        (IsRead first (done ++ all_placed (frames_behind header bytes.now)) lines.new) }
    ensures fault { (done rest : List (PlaceValue × BlockValue)) → IsRead first done lines.old
        → IfErr result (LinkFaultIs
        (bad_link first [] (done ++ (all_placed (frames_behind header bytes.now) ++ rest)))) }
{
    let mut at = 24;
    'frames: loop {
        match front(alloc, &bytes[at..], header.version, header.m, header.f) {
            Ok(FrameRead::Whole(frame, used)) => {
                let Frame { number, blocks } = frame;
                read_blocks_linked(lines, first, number, blocks.into_vec())?;
                at += used;
            }
            Ok(FrameRead::Tail) => return Ok(()),
            Err(CodecFault::NoMemory) => return Err(ReadFault::NoMemory),
            Err(CodecFault::BadBytes) => unreachable!(),
        }
    }
}

/// The blocks of one segment's frames, which a scan has found lawful.
pub fn read_segment(
    alloc: Global,
    lines: &mut BTreeMap<u32, DraftLine>,
    first: u64,
    bytes: &[u8],
) -> Result<(), ReadFault>
    requires { IsFramed bytes.now }
    ensures ok { (done : List (PlaceValue × BlockValue)) → IsRead first done lines.old
        → OnOk result (IsRead first (done ++ all_placed (segment_frames bytes.now)) lines.new) }
    ensures fault { (done rest : List (PlaceValue × BlockValue)) → IsRead first done lines.old
        → IfErr result (LinkFaultIs
        (bad_link first [] (done ++ (all_placed (segment_frames bytes.now) ++ rest)))) }
{
    match read_header(bytes) {
        HeaderRead::Whole(header) => read_frames(alloc, lines, first, bytes, header),
        HeaderRead::Part => unreachable!(),
        HeaderRead::Bad => unreachable!(),
    }
}
