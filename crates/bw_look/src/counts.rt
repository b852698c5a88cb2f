//! How much a log has of each kind, and how much of each segment is still needed.

use crate::printer::Printer;
use crate::survey::{Kind, SegmentRow, Survey};
use std::io::Write;

/// What recovery says of the same segments.
#[derive(Debug, Clone, Copy)]
pub struct Counts {
    /// Segments without a byte.
    pub spares: u64,
    /// Bytes after the last whole frames.
    pub tail: u64,
    pub pages: u64,
    /// The pairs on all pages.
    pub pairs: u64,
    /// The number of the first frame, and of the last.
    pub first: u64,
    pub last: u64,
}

/// How many blocks of a kind there are, and how many bytes they have.
fn sum_of(survey: &Survey, kind: Kind) -> (u64, u64) {
    let mut count = 0u64;
    let mut bytes = 0u64;
    for row in survey.blocks() {
        if row.kind == kind {
            count = count.saturating_add(1);
            bytes = bytes.saturating_add(row.len as u64);
        }
    }
    (count, bytes)
}

fn write_kind<O: Write>(out: &mut Printer<'_, O>, survey: &Survey, name: &str, kind: Kind) {
    let (count, bytes) = sum_of(survey, kind);
    out.named(name, count);
    out.line(" bytes ", bytes);
}

fn frame_bytes(survey: &Survey) -> u64 {
    let mut bytes = 0u64;
    for row in survey.frames() {
        bytes = bytes.saturating_add(row.len as u64);
    }
    bytes
}

/// How many bytes of the blocks of a segment, by its index, are still needed.
pub(crate) fn needed_in(survey: &Survey, segment: usize) -> u64 {
    let mut bytes = 0u64;
    for (index, row) in survey.blocks().iter().enumerate() {
        if row.segment == segment && survey.is_needed(index, row) {
            bytes = bytes.saturating_add(row.len as u64);
        }
    }
    bytes
}

/// How many bytes the pages have that a block of a segment, by its index, set last.
pub(crate) fn rewritten_in(survey: &Survey, segment: usize, lengths: &[u64]) -> u64 {
    let blocks = survey.blocks();
    let mut bytes = 0u64;
    for (page, set) in survey.set() {
        let length = lengths.get((*page as usize).saturating_sub(1));
        if let (Some(block), Some(length)) = (blocks.get(*set), length) {
            if block.segment == segment {
                bytes = bytes.saturating_add(*length);
            }
        }
    }
    bytes
}

fn write_segment<O: Write>(
    out: &mut Printer<'_, O>,
    row: &SegmentRow,
    needed: u64,
    rewritten: u64,
) {
    out.named("segment ", row.number);
    if let Some(lease) = row.lease {
        out.named(" lease ", lease);
    }
    out.named(" bytes ", row.len);
    out.named(" needed ", needed);
    out.line(" rewritten ", rewritten);
}

/// How many pairs the pages have room for.
fn room_of(survey: &Survey, pages: u64) -> u64 {
    match survey.segments().first() {
        Some(row) => pages.saturating_mul(u64::from(row.m)),
        None => 0,
    }
}

/// Writes how many segments, frames, blocks, pages and pairs there are, and of each segment how
/// many bytes of its blocks are still needed, and how many bytes of Bases its cleaning would write,
/// were it the oldest; beside these it writes 20 bytes for each frame. `lengths` says how long the
/// Base of each page is, from page 1 on.
pub fn write_counts<O: Write>(
    out: &mut Printer<'_, O>,
    survey: &Survey,
    counts: Counts,
    lengths: &[u64],
) {
    out.named("segments ", survey.segments().len());
    out.line(" spares ", counts.spares);
    out.named("frames ", survey.frames().len());
    out.named(" bytes ", frame_bytes(survey));
    out.named(" tail ", counts.tail);
    out.named(" first ", counts.first);
    out.line(" last ", counts.last);
    write_kind(out, survey, "bases ", Kind::Base);
    write_kind(out, survey, "deltas ", Kind::Delta);
    write_kind(out, survey, "splits ", Kind::Split);
    out.named("pages ", counts.pages);
    out.named(" pairs ", counts.pairs);
    out.line(" of ", room_of(survey, counts.pages));
    for (index, row) in survey.segments().iter().enumerate() {
        let needed = needed_in(survey, index);
        write_segment(out, row, needed, rewritten_in(survey, index, lengths));
    }
}
