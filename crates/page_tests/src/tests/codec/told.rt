// What the worked bytes say, block by block.

use bw_codec::{
    Block, Frame, FrameRead, FrameSeen, Header, HeaderRead, Outline, Packed, Place, check_frame,
    read_frame, read_header,
};
use std::alloc::Global;
use std::slice;
use test_kit::tables::{Row, WrongRow, rows_go};
use test_kit::vectors::digits::bytes_of;
use test_kit::vectors::{
    FIRST, OLD_FIRST, OLD_SECOND, OLD_THIRD_NEWER, OLD_THIRD_OLDER, SECOND, THIRD_NEWER,
    THIRD_OLDER, are_shown, shows,
};

/// What a block of page 1 says: the frame and the index of its back place, and its page or its
/// record as a text.
pub(super) enum Told {
    Base(&'static str),
    /// A Delta of one put.
    Put(u64, u32, &'static str),
    /// The new page is 2.
    Split(u64, u32, &'static str),
}

fn place(frame: u64, index: u32) -> Place {
    Place { frame, index }
}

/// Whether records are one put, which is shown so.
fn are_put(ops: &[Packed], text: &str) -> bool {
    match ops {
        [op] => match op.pair() {
            Ok(pair) => are_shown(slice::from_ref(&pair), text),
            Err(_) => false,
        },
        _ => false,
    }
}

/// Whether a block says so.
pub(super) fn is_told(block: &Block, told: &Told) -> bool {
    match (block, told) {
        (Block::Base(leaf), Told::Base(text)) => leaf.page == 1 && shows(leaf, text.as_bytes()),
        (Block::Delta { page, back, ops }, Told::Put(frame, index, text)) => {
            *page == 1 && *back == place(*frame, *index) && are_put(ops.as_slice(), text)
        }
        (Block::Split { page, back, upper }, Told::Split(frame, index, text)) => {
            [*page, upper.page] == [1, 2]
                && *back == place(*frame, *index)
                && shows(upper, text.as_bytes())
        }
        _ => false,
    }
}

/// Which of the pages 1, 2 and 3 a block touches, which it sets, and its back place.
fn done_by(told: &Told) -> ([bool; 3], [bool; 3], Option<Place>) {
    match told {
        Told::Base(_) => ([true, false, false], [true, false, false], None),
        Told::Put(frame, index, _) => (
            [true, false, false],
            [false; 3],
            Some(place(*frame, *index)),
        ),
        Told::Split(frame, index, _) => (
            [true, true, false],
            [false, true, false],
            Some(place(*frame, *index)),
        ),
    }
}

/// Whether a block says by its calls what it does to pages 1, 2 and 3.
fn does(block: &Block, told: &Told) -> bool {
    let (touched, set, back) = done_by(told);
    [block.touches(1), block.touches(2), block.touches(3)] == touched
        && [block.sets(1), block.sets(2), block.sets(3)] == set
        && [block.back(1), block.back(2)] == [back, None]
}

/// Whether an outline says what its block does to pages 1, 2 and 3.
fn outlines(outline: &Outline, told: &Told) -> bool {
    let touched = done_by(told).0;
    let made = if touched[1] { Some(2) } else { None };
    outline.page == 1
        && outline.made == made
        && [outline.touches(1), outline.touches(2), outline.touches(3)] == touched
}

/// What is left of a body of this format after so many blocks, which are stepped over.
fn behind_blocks(version: u16, body: &[u8], count: usize) -> Option<&[u8]> {
    let mut rest = body;
    for _ in 0..count {
        rest = rest.get(Outline::read(version, rest)?.len..)?;
    }
    Some(rest)
}

/// Whether the outline of the block of this index in a body of this format says so.
fn is_outlined(version: u16, body: &[u8], index: usize, told: &Told) -> bool {
    match behind_blocks(version, body, index) {
        Some(rest) => match Outline::read(version, rest) {
            Some(outline) => outlines(&outline, told),
            None => false,
        },
        None => false,
    }
}

/// Whether the block of this index says so in a frame.
fn tells(frame: &Frame, index: usize, told: &Told) -> bool {
    match frame.blocks.as_slice().get(index) {
        Some(block) => does(block, told) && is_told(block, told),
        None => false,
    }
}

/// A block: its segment, its frame and its index there, and what it says.
struct Worked(&'static str, u64, usize, Told);

/// The bytes of the frame of this number among five.
fn frame_bytes<'a>(frames: &'a [u8], header: &Header, number: u64) -> Option<&'a [u8]> {
    let mut rest = frames;
    for _ in 0..5 {
        let Ok(FrameSeen::Whole(seen, used)) = check_frame(rest, header) else {
            return None;
        };
        if seen == number {
            return rest.get(..used);
        }
        rest = rest.get(used..)?;
    }
    None
}

/// Whether it says so in its frame, which has these bytes.
fn is_in(alloc: Global, bytes: &[u8], header: &Header, worked: &Worked) -> bool {
    let Worked(_, number, index, told) = worked;
    let outlined = match bytes.get(20..) {
        Some(body) => is_outlined(header.version, body, *index, told),
        None => false,
    };
    match read_frame(alloc, bytes, header) {
        Ok(FrameRead::Whole(frame, used)) => {
            outlined
                && used == bytes.len()
                && frame.number == *number
                && tells(&frame, *index, told)
        }
        _ => false,
    }
}

/// Whether it says so in its segment, which has these bytes.
fn is_in_segment(alloc: Global, bytes: &[u8], worked: &Worked) -> bool {
    match (read_header(bytes), bytes.get(24..)) {
        (HeaderRead::Whole(header), Some(frames)) => match frame_bytes(frames, &header, worked.1) {
            Some(bytes) => is_in(alloc, bytes, &header, worked),
            None => false,
        },
        _ => false,
    }
}

impl Row for Worked {
    fn goes(&self, alloc: Global) -> Option<bool> {
        match bytes_of(alloc, self.0) {
            Some(bytes) => Some(is_in_segment(alloc, &bytes, self)),
            None => None,
        }
    }
}

const BLOCKS: &[Worked] = &[
    Worked(OLD_FIRST, 1, 0, Told::Base(":")),
    Worked(OLD_FIRST, 1, 1, Told::Put(1, 0, " k=v")),
    Worked(OLD_SECOND, 1, 0, Told::Base(":")),
    Worked(OLD_SECOND, 1, 1, Told::Put(1, 0, " a=1")),
    Worked(OLD_SECOND, 2, 0, Told::Put(1, 1, " b=2")),
    Worked(OLD_SECOND, 3, 0, Told::Put(2, 0, " c=3")),
    Worked(OLD_SECOND, 4, 0, Told::Put(3, 0, " d=4")),
    Worked(OLD_SECOND, 5, 0, Told::Put(4, 0, " e=5")),
    Worked(OLD_SECOND, 5, 1, Told::Split(5, 0, "c: c=3 d=4 e=5")),
    Worked(OLD_THIRD_OLDER, 2, 0, Told::Put(1, 1, " j=2")),
    Worked(OLD_THIRD_NEWER, 3, 0, Told::Put(2, 0, " k=3")),
    Worked(OLD_THIRD_NEWER, 4, 0, Told::Base(": j=2 k=3")),
    Worked(FIRST, 1, 0, Told::Base(":")),
    Worked(FIRST, 1, 1, Told::Put(1, 0, " k=v")),
    Worked(SECOND, 1, 0, Told::Base(":")),
    Worked(SECOND, 1, 1, Told::Put(1, 0, " a=1")),
    Worked(SECOND, 2, 0, Told::Put(1, 1, " b=2")),
    Worked(SECOND, 3, 0, Told::Put(2, 0, " c=3")),
    Worked(SECOND, 4, 0, Told::Put(3, 0, " d=4")),
    Worked(SECOND, 5, 0, Told::Put(4, 0, " e=5")),
    Worked(SECOND, 5, 1, Told::Split(5, 0, "c: c=3 d=4 e=5")),
    Worked(THIRD_OLDER, 2, 0, Told::Put(1, 1, " j=2")),
    Worked(THIRD_NEWER, 3, 0, Told::Put(2, 0, " k=3")),
    Worked(THIRD_NEWER, 4, 0, Told::Base(": j=2 k=3")),
];

#[test]
fn the_worked_bytes_hold_what_they_tell(rt: HostRuntime) -> Result<(), WrongRow> {
    rows_go(rt.alloc(), BLOCKS)
}
