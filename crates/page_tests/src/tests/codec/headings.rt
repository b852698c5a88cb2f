// What a segment begins with.

use bw_codec::{Header, HeaderRead, read_header};
use std::alloc::Global;
use test_kit::tables::{Row, WrongRow, rows_go};
use test_kit::vectors::digits::changed;
use test_kit::vectors::{FIRST, OLD_FIRST};

/// What the first segment of either format begins with then: its own header, a part of one, or
/// none.
#[derive(Clone, Copy)]
enum Begun {
    Whole,
    Part,
    Bad,
}

/// The byte at an index of a segment becomes another one, and so many bytes are left.
enum Heading {
    /// The first segment of either format; if it is not told, all bytes are left.
    Both(usize, u8, Option<usize>, Begun),
    /// This segment.
    Of(&'static str, usize, u8, usize, HeaderRead),
}

use Heading::{Both, Of};

/// Whether so many of these bytes begin with this.
fn is_read(bytes: &[u8], left: usize, told: HeaderRead) -> bool {
    match bytes.get(..left) {
        Some(bytes) => read_header(bytes) == told,
        None => false,
    }
}

/// Whether the segment begins with this then.
fn begins(
    alloc: Global,
    segment: &str,
    (at, to): (usize, u8),
    left: usize,
    told: HeaderRead,
) -> bool {
    match changed(alloc, segment, at, to) {
        Some(bytes) => is_read(&bytes, left, told),
        None => false,
    }
}

/// What a segment of this header begins with.
fn told_of(begun: Begun, header: Header) -> HeaderRead {
    match begun {
        Begun::Whole => HeaderRead::Whole(header),
        Begun::Part => HeaderRead::Part,
        Begun::Bad => HeaderRead::Bad,
    }
}

impl Row for Heading {
    fn goes(&self, alloc: Global) -> Option<bool> {
        let is_so = match self {
            Both(at, to, left, begun) => {
                let (old, new) = (left.unwrap_or(76), left.unwrap_or(77));
                let change = (*at, *to);
                begins(alloc, OLD_FIRST, change, old, told_of(*begun, HEADER))
                    && begins(alloc, FIRST, change, new, told_of(*begun, NEW_HEADER))
            }
            Of(segment, at, to, left, told) => begins(alloc, segment, (*at, *to), *left, *told),
        };
        Some(is_so)
    }
}

const HEADER: Header = Header {
    version: 1,
    number: 1,
    m: 4,
    f: 16_384,
};

const NEW_HEADER: Header = Header {
    version: 2,
    number: 1,
    m: 4,
    f: 65_536,
};

const HEADINGS: &[Heading] = &[
    Both(0, 0x42, None, Begun::Whole),
    Both(0, 0x42, Some(24), Begun::Whole),
    Both(0, 0x42, Some(23), Begun::Part),
    Both(0, 0x42, Some(1), Begun::Part),
    Both(0, 0x42, Some(0), Begun::Bad),
    Both(0, 0x43, None, Begun::Bad),
    Both(0, 0x43, Some(1), Begun::Bad),
    // Segment 0, pages of 3 and of 33 pairs, a zero that is none.
    Both(8, 0x00, None, Begun::Bad),
    Both(16, 0x03, None, Begun::Bad),
    Both(16, 0x21, None, Begun::Bad),
    Both(18, 0x01, None, Begun::Bad),
    // What follows the word is not looked at before all of it is there.
    Both(8, 0x00, Some(23), Begun::Part),
    // Frames of too few and too many bytes.
    Of(OLD_FIRST, 21, 0x3f, 76, HeaderRead::Bad),
    Of(OLD_FIRST, 22, 0x01, 76, HeaderRead::Bad),
    Of(FIRST, 22, 0x00, 77, HeaderRead::Bad),
    Of(FIRST, 22, 0x05, 77, HeaderRead::Bad),
    // The text of the other format, whose frames are longer, and one of none.
    Of(OLD_FIRST, 7, 0x32, 76, HeaderRead::Bad),
    Of(OLD_FIRST, 7, 0x32, 23, HeaderRead::Part),
    Of(OLD_FIRST, 7, 0x33, 8, HeaderRead::Bad),
    // The text of the other format: this limit of frames is lawful in both.
    Of(
        FIRST,
        7,
        0x31,
        77,
        HeaderRead::Whole(Header {
            version: 1,
            ..NEW_HEADER
        }),
    ),
    // The greatest limit.
    Of(
        FIRST,
        22,
        0x04,
        77,
        HeaderRead::Whole(Header {
            f: 262_144,
            ..NEW_HEADER
        }),
    ),
];

#[test]
fn a_header_cut_short_is_a_part_of_one(rt: HostRuntime) -> Result<(), WrongRow> {
    rows_go(rt.alloc(), HEADINGS)
}
