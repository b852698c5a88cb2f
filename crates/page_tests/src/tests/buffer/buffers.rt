// Buffers, step by step.

ghost use Rattle.std.specs.Prelude.{◌≤◌, length, IfSome};
ghost use Rattle.std.specs.List.{AllByRecursion};
ghost use Rattle.bw_codec.specs.Grammar.{IsBlock};

use bw_buffer::{Buffer, Mark, PutError};
use bw_codec::limits::MIN_FRAME;
use bw_codec::{Block, Blocks, Place, encode_block};
use std::alloc::Global;
use test_kit::tables::wrong_table;
use test_kit::vectors::blocks_in;
use test_kit::vectors::digits::{bytes_of, framed};

/// An empty page 1.
pub(super) const EMPTY: &str = "46524d32 0100000000000000 08000000 01000000 \
    02 01000000 00 0000";

/// The frames of five flushes of one put each; the last one splits page 1.
pub(super) const PUT_A: &str = "46524d32 0100000000000000 21000000 02000000 \
    02 01000000 00 0000 \
    01 01000000 0100000000000000 00000000 0100 01 01 61 0100 31";

pub(super) const PUT_B: &str = "46524d32 0200000000000000 19000000 01000000 \
    01 01000000 0100000000000000 01000000 0100 01 01 62 0100 32";

pub(super) const PUT_C: &str = "46524d32 0300000000000000 19000000 01000000 \
    01 01000000 0200000000000000 00000000 0100 01 01 63 0100 33";

pub(super) const PUT_D: &str = "46524d32 0400000000000000 19000000 01000000 \
    01 01000000 0300000000000000 00000000 0100 01 01 64 0100 34";

const SPLIT: &str = "46524d32 0500000000000000 41000000 02000000 \
    01 01000000 0400000000000000 00000000 0100 01 01 65 0100 35 \
    03 01000000 0500000000000000 00000000 01 63 02000000 0300 01 63 0100 33 01 64 0100 34 01 65 \
    0100 35";

/// A head without blocks.
const NONE: &str = "46524d32 0200000000000000 00000000 00000000";

/// The place of the first block that is put, or the refusal.
type Told = Result<(u64, u32), PutError>;

/// One call, with what it has to answer.
#[derive(Drop)]
pub(super) enum Step {
    /// The blocks of a frame are put: the first one's place, or the refusal.
    Put(&'static str, Told),
    /// Those of several frames, one after the other, in frame 1: the index of the first of each.
    Puts(&'static [(&'static str, u32)]),
    /// The first block of a frame, a Base, is copied as its bytes: its place, or the refusal.
    Copy(&'static str, Told),
    /// So many Deltas of one put, of a key and a value of so many bytes: of this page and of those
    /// after it, one each.
    Spread(u8, u8, u16, u32),
    /// So many Deltas of one put, of a key and a value of so many bytes, all of one page.
    Heap(u8, u8, u16, u32),
    /// Whether there is room for the blocks of a frame.
    HasRoom(&'static str, bool),
    Seal,
    Restart(u64),
    /// The frame's number, the count of blocks, the free bytes, and the seal.
    Is(u64, u32, u32, bool),
    /// The bytes, once sealed.
    Gives(&'static str),
    /// How many records the Deltas have that the bytes spell, once sealed.
    Spells(usize),
    Mark(u32, Mark),
    /// Which Delta one of this page joins.
    Joins(u32, Option<(u64, u32)>),
}

/// The blocks of the frame that digits spell, which a buffer takes.
pub(super) fn blocks_of(alloc: Global, hex: &str) -> Option<Blocks>
    ensures some { IfSome result (λ blocks. 1 ≤ length blocks) }
    ensures lawful { IfSome result (λ blocks. AllByRecursion (IsBlock 32) blocks) }
{
    let bytes = bytes_of(alloc, hex)?;
    blocks_in(alloc, &bytes)
}

/// Whether a put was answered as expected.
fn is_told(answer: Result<Place, PutError>, told: Told) -> bool {
    match (answer, told) {
        (Ok(place), Ok((frame, index))) => place.frame == frame && place.index == index,
        (Err(error), Err(told)) => error == told,
        _ => false,
    }
}

fn puts(alloc: Global, buffer: &mut Buffer, hex: &str, told: Told) -> Option<bool> {
    let blocks = blocks_of(alloc, hex)?;
    let before = (buffer.count(), buffer.room());
    let answer = buffer.put_all(blocks.as_slice());
    let stays = answer.is_ok() || before == (buffer.count(), buffer.room());
    Some(is_told(answer, told) && stays)
}

/// Whether those of each frame were put at this place in frame 1.
fn puts_each(alloc: Global, buffer: &mut Buffer, frames: &[(&'static str, u32)]) -> Option<bool> {
    for (hex, index) in frames {
        if !puts(alloc, buffer, *hex, Ok((1, *index)))? {
            return Some(false);
        }
    }
    Some(true)
}

fn copies(alloc: Global, buffer: &mut Buffer, hex: &str, told: Told) -> Option<bool> {
    let blocks = blocks_of(alloc, hex)?;
    let [first, ..] = blocks.as_slice() else {
        return Some(false);
    };
    let Block::Base(leaf) = first else {
        return Some(false);
    };
    let mut bytes = Vec::new(alloc);
    encode_block(first, &mut bytes).ok()?;
    Some(is_told(buffer.put_base(&bytes, leaf.page), told))
}

fn pushes(body: &mut Vec<u8>, times: u16) -> Option<()> {
    for _ in 0..times {
        body.push(b'a').ok()?;
    }
    Some(())
}

/// The frame of one Delta of a page that puts a key and a value of so many bytes.
fn delta_of(alloc: Global, page: u8, lengths: (u8, u16)) -> Option<Vec<u8>> {
    let mut body = Vec::new(alloc);
    for byte in [1, page] {
        body.push(byte).ok()?;
    }
    body.extend_from_slice(&bytes_of(alloc, "000000 0100000000000000 00000000 0100 01")?)
        .ok()?;
    body.push(lengths.0).ok()?;
    pushes(&mut body, u16::from(lengths.0))?;
    body.extend_from_slice(&lengths.1.to_le_bytes()).ok()?;
    pushes(&mut body, lengths.1)?;
    framed(alloc, 1, &body)
}

/// Deltas of one put; each is of so many pages on from the one before it.
fn fills(
    alloc: Global,
    buffer: &mut Buffer,
    pages: (u8, u8),
    lengths: (u8, u16),
    times: u32,
) -> Option<bool> {
    let mut page = pages.0;
    for _ in 0..times {
        let bytes = delta_of(alloc, page, lengths)?;
        let blocks = blocks_in(alloc, &bytes)?;
        let _ = buffer.put_all(blocks.as_slice()).ok()?;
        page = page.wrapping_add(pages.1);
    }
    Some(true)
}

fn tells_room(alloc: Global, buffer: &Buffer, hex: &str, told: bool) -> Option<bool> {
    let blocks = blocks_of(alloc, hex)?;
    Some(buffer.has_room(blocks.as_slice()) == told)
}

fn restarts(buffer: &mut Buffer, frame: u64) -> bool {
    if frame == 0 {
        return false;
    }
    if !buffer.is_sealed() {
        buffer.seal();
    }
    buffer.restart(frame);
    true
}

fn gives(alloc: Global, buffer: &Buffer, hex: &str) -> Option<bool> {
    let bytes = bytes_of(alloc, hex)?;
    Some(buffer.is_sealed() && buffer.bytes() == bytes.as_slice())
}

/// How many records the Deltas have that a sealed buffer's bytes spell.
pub(super) fn spelled(alloc: Global, buffer: &Buffer) -> Option<usize> {
    if !buffer.is_sealed() {
        return None;
    }
    let blocks = blocks_in(alloc, buffer.bytes())?;
    let mut count: usize = 0;
    for block in blocks.as_slice() {
        if let Block::Delta { ops, .. } = block {
            count = count.wrapping_add(ops.as_slice().len());
        }
    }
    Some(count)
}

/// Whether a Delta of a page joins the one at this place, or none.
fn joins(buffer: &Buffer, page: u32, told: Option<(u64, u32)>) -> bool {
    match (buffer.joins(page), told) {
        (Some(place), Some((frame, index))) => place.frame == frame && place.index == index,
        (None, None) => true,
        _ => false,
    }
}

/// Whether the step went as expected.
fn goes(alloc: Global, buffer: &mut Buffer, step: &Step) -> Option<bool> {
    match step {
        Step::Put(hex, told) => puts(alloc, buffer, hex, *told),
        Step::Puts(frames) => puts_each(alloc, buffer, *frames),
        Step::Copy(hex, told) => copies(alloc, buffer, hex, *told),
        Step::Spread(page, key, value, times) => {
            fills(alloc, buffer, (*page, 1), (*key, *value), *times)
        }
        Step::Heap(page, key, value, times) => {
            fills(alloc, buffer, (*page, 0), (*key, *value), *times)
        }
        Step::HasRoom(hex, told) => tells_room(alloc, buffer, hex, *told),
        Step::Seal => {
            buffer.seal();
            Some(true)
        }
        Step::Restart(frame) => Some(restarts(buffer, *frame)),
        Step::Is(frame, count, room, sealed) => Some(
            buffer.frame() == *frame
                && buffer.count() == *count
                && buffer.room() == *room
                && MIN_FRAME.checked_sub(*room) == Some(buffer.len())
                && buffer.is_sealed() == *sealed
                && buffer.limit() == MIN_FRAME,
        ),
        Step::Gives(hex) => gives(alloc, buffer, hex),
        Step::Spells(count) => Some(spelled(alloc, buffer)? == *count),
        Step::Mark(i, mark) => Some(*i < buffer.count() && buffer.mark(*i) == *mark),
        Step::Joins(page, told) => Some(joins(buffer, *page, *told)),
    }
}

/// The first step that did not go as expected with this buffer.
pub(super) fn walked(alloc: Global, buffer: &mut Buffer, steps: &[Step]) -> Option<usize> {
    for (i, step) in steps.iter().enumerate() {
        if goes(alloc, buffer, step) != Some(true) {
            return Some(i);
        }
    }
    None
}

/// The first step that did not go as expected with a new buffer; the first of all if memory was
/// wanting for it.
fn wrong_step(alloc: Global, number: u64, steps: &[Step]) -> Option<usize> {
    if number == 0 {
        return Some(0);
    }
    match Buffer::new(alloc, number, MIN_FRAME) {
        Ok(mut buffer) => walked(alloc, &mut buffer, steps),
        Err(_) => Some(0),
    }
}

const SEALED: &[Step] = &[
    Step::Put(EMPTY, Ok((1, 0))),
    Step::Is(1, 1, 65508, false),
    Step::Seal,
    Step::Is(1, 1, 65508, true),
    Step::Gives(EMPTY),
    Step::Put(EMPTY, Err(PutError::Sealed)),
    Step::Put(PUT_B, Err(PutError::Sealed)),
    Step::Is(1, 1, 65508, true),
    Step::HasRoom(EMPTY, true),
    Step::Gives(EMPTY),
];

const COPIED: &[Step] = &[
    Step::Copy(EMPTY, Ok((1, 0))),
    Step::Mark(0, Mark::Sets(1)),
    Step::Is(1, 1, 65508, false),
    Step::Seal,
    Step::Gives(EMPTY),
    Step::Copy(EMPTY, Err(PutError::Sealed)),
    Step::Is(1, 1, 65508, true),
    Step::Gives(EMPTY),
];

/// A Base of 8 bytes when 8 are free, then when none is.
const COPIED_TO_THE_END: &[Step] = &[
    Step::Spread(2, 128, 512, 98),
    Step::Spread(100, 1, 510, 1),
    Step::Is(1, 99, 8, false),
    Step::Copy(EMPTY, Ok((1, 99))),
    Step::Is(1, 100, 0, false),
    Step::Copy(EMPTY, Err(PutError::NoRoom)),
    Step::Is(1, 100, 0, false),
    Step::Seal,
    Step::Spells(99),
];

/// 98 Deltas of the greatest length, 663 bytes, and one of 502, of pages 2 to 100: 40 bytes are
/// free, in which a Delta of 25 bytes and its Split of 40 do not fit together.
const FULL: &[Step] = &[
    Step::Spread(2, 128, 512, 98),
    Step::Spread(100, 1, 478, 1),
    Step::Is(1, 99, 40, false),
    Step::HasRoom(SPLIT, false),
    Step::Put(SPLIT, Err(PutError::NoRoom)),
    Step::Is(1, 99, 40, false),
    Step::HasRoom(PUT_D, true),
    Step::Restart(2),
    Step::Put(SPLIT, Ok((2, 0))),
];

/// The worked frames, made one after the other by one buffer.
const WORKED: &[Step] = &[
    Step::Put(PUT_A, Ok((1, 0))),
    Step::Mark(0, Mark::Sets(1)),
    Step::Mark(1, Mark::Changes(1)),
    Step::Seal,
    Step::Gives(PUT_A),
    Step::Restart(2),
    Step::Is(2, 0, 65516, false),
    Step::Seal,
    Step::Gives(NONE),
    Step::Restart(2),
    Step::Put(PUT_B, Ok((2, 0))),
    Step::Seal,
    Step::Gives(PUT_B),
    Step::Restart(3),
    Step::Put(PUT_C, Ok((3, 0))),
    Step::Seal,
    Step::Gives(PUT_C),
    Step::Restart(4),
    Step::Put(PUT_D, Ok((4, 0))),
    Step::Restart(5),
    Step::Put(SPLIT, Ok((5, 0))),
    Step::Mark(0, Mark::Changes(1)),
    Step::Mark(1, Mark::Splits(1, 2)),
    Step::Seal,
    Step::Gives(SPLIT),
];

/// The first step that did not go as expected with a new buffer of frame 1.
pub(super) fn wrong_steps(alloc: Global, steps: &&'static [Step]) -> Option<usize> {
    wrong_step(alloc, 1, *steps)
}

const TABLES: &[&[Step]] = &[SEALED, COPIED, COPIED_TO_THE_END, FULL, WORKED];

#[test]
fn buffers_go_as_told(rt: HostRuntime) {
    let wrong = wrong_table(TABLES, |steps| wrong_steps(rt.alloc(), steps));
    assert_eq!(rt; wrong, None);
}

/// Whether a new buffer of this number gives the bytes whose blocks it takes, and a second seal
/// changes nothing.
fn is_given(alloc: Global, number: u64, hex: &'static str) -> bool {
    let steps = [
        Step::Put(hex, Ok((number, 0))),
        Step::Seal,
        Step::Gives(hex),
        Step::Seal,
        Step::Gives(hex),
    ];
    wrong_step(alloc, number, &steps).is_none()
}

/// The first of these frames, from frame 1 on, that is not given.
fn wrong_frame(alloc: Global, frames: &[&'static str]) -> Option<usize> {
    for (i, hex) in frames.iter().enumerate() {
        if !is_given(alloc, i as u64 + 1, *hex) {
            return Some(i);
        }
    }
    None
}

#[test]
fn frames_made_by_buffers_are_the_worked_bytes(rt: HostRuntime) {
    assert_eq!(rt; wrong_frame(rt.alloc(), &[EMPTY]), None);
    let wrong = wrong_frame(rt.alloc(), &[PUT_A, PUT_B, PUT_C, PUT_D, SPLIT]);
    assert_eq!(rt; wrong, None);
}
