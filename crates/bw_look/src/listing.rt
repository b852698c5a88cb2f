//! A segment in words: its header, and each frame with its blocks, up to the first fault.

use crate::frames::{Frames, Step};
use crate::image::Image;
use crate::printer::Printer;
use crate::words::{write_leaf, write_packed};
use bw_codec::limits::{HEAD_LEN, HEADER_LEN};
use bw_codec::{Block, Frame, Header, HeaderRead, Outline, Place, read_header};
use std::alloc::{AllocError, Global};
use std::io::Write;

fn write_place<O: Write>(out: &mut Printer<'_, O>, text: &str, place: Place) {
    out.named(text, place.frame);
    out.named(" ", place.index);
}

/// A block, after its offset and its place.
fn write_block<O: Write>(out: &mut Printer<'_, O>, block: &Block) {
    match block {
        Block::Delta { page, back, ops } => {
            out.named(" delta page ", *page);
            write_place(out, " back ", *back);
            for item in ops.as_slice() {
                write_packed(out, item);
            }
        }
        Block::Base(leaf) => {
            out.named(" base page ", leaf.page);
            write_leaf(out, leaf);
        }
        Block::Split { page, back, upper } => {
            out.named(" split page ", *page);
            write_place(out, " back ", *back);
            out.named(" new page ", upper.page);
            write_leaf(out, upper);
        }
    }
    out.text(b"\n");
}

/// A frame that begins at this offset of a segment, and each of its blocks.
fn write_frame<O: Write>(
    out: &mut Printer<'_, O>,
    version: u16,
    bytes: &[u8],
    at: usize,
    frame: &Frame,
    len: usize,
) {
    let blocks = frame.blocks.as_slice();
    out.named("at ", at);
    out.named(" frame ", frame.number);
    out.named(" blocks ", blocks.len());
    out.line(" bytes ", len);
    let mut from = at.saturating_add(HEAD_LEN);
    for (index, block) in blocks.iter().enumerate() {
        out.named("at ", from);
        out.named(" place ", frame.number);
        out.named(" ", index);
        write_block(out, block);
        from = from.saturating_add(length_at(version, bytes, from));
    }
}

/// How many bytes the block of this format has that begins at this offset; 0 if none does.
pub(crate) fn length_at(version: u16, bytes: &[u8], from: usize) -> usize {
    if from > bytes.len() {
        return 0;
    }
    match Outline::read(version, &bytes[from..]) {
        Some(outline) => outline.len,
        None => 0,
    }
}

/// The frames after a header. If other bytes stand there, their offset is answered.
fn write_frames<O: Write>(
    alloc: Global,
    out: &mut Printer<'_, O>,
    bytes: &[u8],
    header: Header,
) -> Result<Option<usize>, AllocError> {
    let mut frames = Frames::behind(bytes, header, HEADER_LEN);
    // A frame has bytes, so there are fewer frames than bytes.
    for _ in 0..bytes.len() {
        let at = frames.at();
        match frames.step(alloc)? {
            Step::Frame(frame, len) => {
                write_frame(out, header.version, bytes, at, &frame, len);
            }
            Step::Tail(0) => return Ok(None),
            Step::Tail(len) => {
                out.named("at ", at);
                out.line(" tail ", len);
                return Ok(None);
            }
            Step::Bad => return Ok(Some(at)),
        }
    }
    Ok(None)
}

/// The line of a segment, which stands at this position of a list.
fn write_segment<O: Write>(out: &mut Printer<'_, O>, position: usize, image: &Image) {
    out.named("segment ", position);
    if let Some(lease) = image.lease {
        out.named(" lease ", lease);
    }
    out.line(" bytes ", image.bytes.len());
}

/// Writes all of a segment, which stands at this position of a list, up to the first bytes that are
/// neither a header, nor a frame, nor a tail; their offset is answered.
pub fn write_image<O: Write>(
    alloc: Global,
    out: &mut Printer<'_, O>,
    position: usize,
    image: &Image,
) -> Result<Option<usize>, AllocError> {
    write_segment(out, position, image);
    let bytes = image.bytes.as_slice();
    if bytes.is_empty() {
        return Ok(None);
    }
    match read_header(bytes) {
        HeaderRead::Whole(header) => {
            out.named("at 0 header segment ", header.number);
            out.named(" m ", header.m);
            out.line(" frame ", header.f);
            write_frames(alloc, out, bytes, header)
        }
        HeaderRead::Part => {
            out.line("at 0 part of a header ", bytes.len());
            Ok(None)
        }
        HeaderRead::Bad => Ok(Some(0)),
    }
}
