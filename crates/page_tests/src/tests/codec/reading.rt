// Frames that are whole, that are torn, or that are bad.

use bw_codec::{CodecFault, FrameRead, FrameSeen, Header, check_frame, read_frame};
use std::alloc::Global;
use test_kit::tables::{Row, WrongRow, rows_go};
use test_kit::vectors::digits::{bytes_of, changed};
use test_kit::vectors::{FIRST, OLD_FIRST};

/// What reading finds.
#[derive(Clone, Copy, PartialEq, Eq)]
pub(crate) enum Found {
    Whole(usize),
    Tail,
    Bad,
}

/// What a check finds, which makes no frame.
fn seen_in(bytes: &[u8], header: &Header) -> Found {
    match check_frame(bytes, header) {
        Ok(FrameSeen::Whole(_, used)) => Found::Whole(used),
        Ok(FrameSeen::Tail) => Found::Tail,
        Err(_) => Found::Bad,
    }
}

/// Whether this stands at the front of the bytes of a frame of this format, if a page has at most
/// so many pairs and frames are of the least limit, and a check finds it as well.
pub(super) fn is_found(alloc: Global, version: u16, m: u16, bytes: &[u8], told: Found) -> bool {
    let header = Header {
        version,
        number: 1,
        m,
        f: if version == 1 { 16_384 } else { 65_536 },
    };
    let found = match read_frame(alloc, bytes, &header) {
        Ok(FrameRead::Whole(_, used)) => Found::Whole(used),
        Ok(FrameRead::Tail) => Found::Tail,
        Err(CodecFault::BadBytes) => Found::Bad,
        Err(CodecFault::NoMemory) => return false,
    };
    [found, seen_in(bytes, &header)] == [told, told]
}

/// How many bytes are left of a frame and the byte after it.
#[derive(Clone, Copy)]
enum Left {
    /// The frame, and that byte.
    More,
    /// The frame.
    All,
    /// The frame but its last byte.
    Less,
    /// So many.
    Count(usize),
}

/// What stands at the front then.
#[derive(Clone, Copy)]
enum Kind {
    /// The frame.
    Whole,
    Tail,
    Bad,
}

/// Bytes, and what stands at their front.
enum Front {
    /// The byte at this index of the frame of the first segment of either format, or the one after
    /// it, becomes this, and so many bytes are left.
    Both(usize, u8, Left, Kind),
    /// The frame of this format, of which so many bytes are left.
    Of(u16, usize, u8, usize, Found),
    /// Digits of a format.
    Digits(u16, &'static str, Found),
}

use Front::{Both, Digits, Of};

/// The frame of this format in the first segment has so many bytes.
fn length_of(version: u16) -> usize {
    if version == 1 { 52 } else { 53 }
}

fn left_of(length: usize, left: Left) -> usize {
    match left {
        Left::More => length.saturating_add(1),
        Left::All => length,
        Left::Less => length.saturating_sub(1),
        Left::Count(count) => count,
    }
}

fn found_of(length: usize, kind: Kind) -> Found {
    match kind {
        Kind::Whole => Found::Whole(length),
        Kind::Tail => Found::Tail,
        Kind::Bad => Found::Bad,
    }
}

/// Whether this stands at the front of so many bytes after a segment's header.
fn is_behind(alloc: Global, version: u16, segment: &[u8], left: usize, told: Found) -> bool {
    match segment.get(24..left.saturating_add(24)) {
        Some(frame) => is_found(alloc, version, 4, frame, told),
        None => false,
    }
}

/// Whether this stands at the front of the frame of this format then.
fn is_changed(
    alloc: Global,
    version: u16,
    (at, to): (usize, u8),
    left: usize,
    told: Found,
) -> bool {
    let first = if version == 1 { OLD_FIRST } else { FIRST };
    match changed(alloc, first, at.saturating_add(24), to) {
        Some(segment) => is_behind(alloc, version, &segment, left, told),
        None => false,
    }
}

/// Whether a change of the first frame's bytes is found so, in this format.
fn is_so_in(alloc: Global, version: u16, change: (usize, u8), left: Left, kind: Kind) -> bool {
    let length = length_of(version);
    is_changed(
        alloc,
        version,
        change,
        left_of(length, left),
        found_of(length, kind),
    )
}

impl Row for Front {
    fn goes(&self, alloc: Global) -> Option<bool> {
        let is_so = match self {
            Both(at, to, left, kind) => {
                is_so_in(alloc, 1, (*at, *to), *left, *kind)
                    && is_so_in(alloc, 2, (*at, *to), *left, *kind)
            }
            Of(version, at, to, left, found) => {
                is_changed(alloc, *version, (*at, *to), *left, *found)
            }
            Digits(version, hex, found) => {
                is_found(alloc, *version, 4, &bytes_of(alloc, hex)?, *found)
            }
        };
        Some(is_so)
    }
}

/// A frame that is torn, or one of whose bytes was changed. That of format 1 has 52 bytes, and that
/// of format 2 has 53.
const FRAMES: &[Front] = &[
    Both(0, 0x46, Left::All, Kind::Whole),
    Both(0, 0x46, Left::More, Kind::Whole),
    Both(0, 0x46, Left::Less, Kind::Tail),
    Both(0, 0x46, Left::Count(20), Kind::Tail),
    Both(0, 0x46, Left::Count(19), Kind::Tail),
    Both(0, 0x46, Left::Count(4), Kind::Tail),
    Both(0, 0x46, Left::Count(0), Kind::Tail),
    Both(45, 0x00, Left::All, Kind::Bad),
    Both(0, 0x47, Left::All, Kind::Bad),
    Both(0, 0x47, Left::Count(1), Kind::Bad),
    // Frame 0, a body of 7 bytes, no block.
    Both(4, 0x00, Left::All, Kind::Bad),
    Both(12, 0x07, Left::All, Kind::Bad),
    Both(16, 0x00, Left::All, Kind::Bad),
    // The byte after the frame.
    Of(1, 52, 0x46, 53, Found::Whole(52)),
    Of(1, 52, 0xff, 53, Found::Whole(52)),
    // A body of one byte more, and of one less; the word of the other format; a body beyond the
    // limit.
    Of(1, 12, 0x21, 52, Found::Tail),
    Of(1, 12, 0x1f, 52, Found::Bad),
    Of(1, 3, 0x32, 52, Found::Bad),
    Of(1, 13, 0x40, 52, Found::Bad),
    // In format 2: the byte after the frame; a body of one byte more, and of one less; the word of
    // the other format; a body beyond the limit.
    Of(2, 53, 0xff, 54, Found::Whole(53)),
    Of(2, 12, 0x22, 53, Found::Tail),
    Of(2, 12, 0x20, 53, Found::Bad),
    Of(2, 3, 0x31, 53, Found::Bad),
    Of(2, 3, 0x31, 4, Found::Bad),
    Of(2, 3, 0x31, 3, Found::Tail),
    Of(2, 14, 0x01, 53, Found::Bad),
    // The length of the value: none, more than there is, by its first byte or its second.
    Of(2, 50, 0x00, 53, Found::Bad),
    Of(2, 50, 0x02, 53, Found::Bad),
    Of(2, 51, 0x01, 53, Found::Bad),
];

/// Heads of a body of 2^32 - 1 bytes, of one beyond the limit, and of the limit's.
const HEADS: &[Front] = &[
    Digits(
        1,
        "46524d31 0100000000000000 ffffffff 01000000 02 01000000 00 0000",
        Found::Bad,
    ),
    Digits(
        1,
        "46524d31 0100000000000000 ffffffff ffffffff 02 01000000 00 0000",
        Found::Bad,
    ),
    Digits(
        1,
        "46524d31 0100000000000000 ed3f0000 01000000 02 01000000 00 0000",
        Found::Bad,
    ),
    Digits(
        1,
        "46524d31 0100000000000000 ec3f0000 ffffffff 02 01000000 00 0000",
        Found::Tail,
    ),
    Digits(
        2,
        "46524d32 0100000000000000 ffffffff 01000000 02 01000000 00 0000",
        Found::Bad,
    ),
    Digits(
        2,
        "46524d32 0100000000000000 ffffffff ffffffff 02 01000000 00 0000",
        Found::Bad,
    ),
    Digits(
        2,
        "46524d32 0100000000000000 edff0000 01000000 02 01000000 00 0000",
        Found::Bad,
    ),
    Digits(
        2,
        "46524d32 0100000000000000 ecff0000 ffffffff 02 01000000 00 0000",
        Found::Tail,
    ),
];

#[test]
fn a_frame_cut_short_is_a_tail_and_a_changed_one_is_bad(rt: HostRuntime) -> Result<(), WrongRow> {
    rows_go(rt.alloc(), FRAMES)
}

#[test]
fn a_body_of_the_greatest_length_is_bad(rt: HostRuntime) -> Result<(), WrongRow> {
    rows_go(rt.alloc(), HEADS)
}
