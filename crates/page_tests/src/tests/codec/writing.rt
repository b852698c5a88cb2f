// What was read is written again.

ghost use Rattle.std.specs.List.{AllByRecursion};
ghost use Rattle.bw_codec.specs.Grammar.{IsBlock};

use bw_codec::limits::{HEADER_LEN, LATEST, MIN_FRAME};
use bw_codec::{
    Block, Frame, FrameRead, Header, HeaderRead, block_length, encode_block, encode_frame_head,
    encode_header, frame_cells, header_cells, read_frame, read_header, write_block,
};
use bw_page::empty_page;
use std::alloc::Global;
use test_kit::tables::{Row, WrongRow, rows_go};
use test_kit::vectors::digits::bytes_of;
use test_kit::vectors::{
    FIRST, GREATEST, OLD_FIRST, OLD_GREATEST, OLD_SECOND, OLD_THIRD_NEWER, OLD_THIRD_OLDER, SECOND,
    THIRD_NEWER, THIRD_OLDER, behind,
};

/// How many bytes blocks have in format 2.
fn body_length(blocks: &[Block]) -> Option<u32>
    requires { AllByRecursion (IsBlock 32) blocks.now }
{
    let mut length: usize = 0;
    for block in blocks {
        length = length.checked_add(block_length(block))?;
    }
    u32::try_from(length).ok()
}

/// Whether a frame could be written.
fn write_frame(frame: &Frame, out: &mut Vec<u8>) -> Option<()>
    requires { AllByRecursion (IsBlock 32) frame.now.blocks }
{
    let body = body_length(frame.blocks.as_slice())?;
    let count = u32::try_from(frame.blocks.as_slice().len()).ok()?;
    encode_frame_head(frame.number, body, count, out).ok()?;
    for block in frame.blocks.as_slice() {
        encode_block(block, out).ok()?;
    }
    Some(())
}

/// Writes the frame at the front of bytes in format 2, and says its length here: 0 if there is
/// none.
fn copy_frame(alloc: Global, bytes: &[u8], header: &Header, out: &mut Vec<u8>) -> Option<usize> {
    if 32 < header.m {
        return None;
    }
    match read_frame(alloc, bytes, header) {
        Ok(FrameRead::Whole(frame, used)) => {
            write_frame(&frame, out)?;
            Some(used)
        }
        Ok(FrameRead::Tail) => Some(0),
        Err(_) => None,
    }
}

/// Writes a segment's header and whole frames in format 2, from what was read of them.
fn rewrite(alloc: Global, bytes: &[u8], out: &mut Vec<u8>) -> Option<()> {
    let HeaderRead::Whole(header) = read_header(bytes) else {
        return None;
    };
    let new = Header {
        version: LATEST,
        number: header.number,
        m: header.m,
        f: MIN_FRAME,
    };
    encode_header(&new, out).ok()?;
    let mut rest = bytes.get(HEADER_LEN..)?;
    for _ in 0..5 {
        let used = copy_frame(alloc, rest, &header, out)?;
        rest = rest.get(used..)?;
    }
    Some(())
}

/// What is written.
enum Written {
    /// A segment, and what it is in format 2.
    Again(&'static str, &'static str),
    /// The parts of the first segment, by the calls that take no memory.
    Parts,
}

use Written::{Again, Parts};

/// Whether a segment of these bytes is written as the others.
fn is_again(alloc: Global, bytes: &[u8], told: &[u8]) -> bool {
    let mut again = Vec::new(alloc);
    rewrite(alloc, bytes, &mut again).is_some() && again.as_slice() == told
}

/// Whether a segment of these digits is written so.
fn is_spelled(alloc: Global, hex: &str, told: &str) -> bool {
    match (bytes_of(alloc, hex), bytes_of(alloc, told)) {
        (Some(bytes), Some(told)) => is_again(alloc, &bytes, &told),
        _ => false,
    }
}

/// Whether these bytes are an empty page 1, written without memory.
fn is_written(alloc: Global, bytes: &[u8]) -> bool {
    let base = Block::Base(empty_page(alloc));
    match Vec::with_capacity(alloc, block_length(&base)) {
        Ok(mut out) => {
            write_block(&base, &mut out);
            out.as_slice() == bytes
        }
        Err(_) => false,
    }
}

/// Whether the first segment's head, its frame's, and its first block are written as they stand
/// there by the calls that take no memory.
fn are_written(alloc: Global, bytes: &[u8]) -> bool {
    let rest = behind(Some(bytes), header_cells(1, 4, 65_536).as_slice());
    match behind(rest, frame_cells(1, 33, 2).as_slice()) {
        Some(rest) => match rest.get(..8) {
            Some(base) => is_written(alloc, base),
            None => false,
        },
        None => false,
    }
}

fn parts_are_written(alloc: Global) -> bool {
    match bytes_of(alloc, FIRST) {
        Some(bytes) => are_written(alloc, &bytes),
        None => false,
    }
}

impl Row for Written {
    fn goes(&self, alloc: Global) -> Option<bool> {
        match self {
            Again(hex, told) => Some(is_spelled(alloc, hex, told)),
            Parts => Some(parts_are_written(alloc)),
        }
    }
}

/// What is read of either format is written in format 2.
const SEGMENTS: &[Written] = &[
    Again(FIRST, FIRST),
    Again(SECOND, SECOND),
    Again(THIRD_OLDER, THIRD_OLDER),
    Again(THIRD_NEWER, THIRD_NEWER),
    Again(GREATEST, GREATEST),
    Again(OLD_FIRST, FIRST),
    Again(OLD_SECOND, SECOND),
    Again(OLD_THIRD_OLDER, THIRD_OLDER),
    Again(OLD_THIRD_NEWER, THIRD_NEWER),
    Again(OLD_GREATEST, GREATEST),
    Parts,
];

#[test]
fn the_worked_bytes_are_read_and_written_again(rt: HostRuntime) -> Result<(), WrongRow> {
    rows_go(rt.alloc(), SEGMENTS)
}
