// Each place where a block can be wrong, beside bytes that are lawful there.

use super::reading::{Found, is_found};
use std::alloc::Global;
use test_kit::tables::{Row, Table, WrongRow, WrongStep, rows_go, tables_go};
use test_kit::vectors::digits::{body_of, framed_in, spelled_body};

/// A frame. In format 2, if it is whole, it has a byte more for each value.
enum Frame {
    /// One of a block, its body in digits, which is bad.
    Bad(&'static str),
    /// One of a block, its body in digits, which is whole: how many bytes it has.
    Whole(&'static str, usize),
    /// One of so many blocks, its body in digits, and what it is.
    Of(u32, &'static str, Found),
}

use Frame::{Bad, Of, Whole};

const BASES: &[Frame] = &[
    Whole("02 01000000 00 0000", 28),
    // The page: torn, and zero.
    Of(2, "02 01000000 00 0000 02 010000", Found::Bad),
    Bad("02 00000000 00 0000"),
    // The low key: its length is not there, and it is torn.
    Of(2, "02 01000000 00 0000 02 01000000", Found::Bad),
    Bad("02 01000000 05 6162"),
    // The count of pairs: torn, the greatest, and one more.
    Bad("02 01000000 01 61 00"),
    Whole(
        "02 01000000 00 0400 01 61 v00 01 62 v00 01 63 v00 01 64 v00",
        40,
    ),
    Bad("02 01000000 00 0500 01 61 v00 01 62 v00 01 63 v00 01 64 v00 01 65 v00"),
    // The order of keys.
    Whole("02 01000000 00 0200 01 6a v01 32 01 6b v01 33", 36),
    Bad("02 01000000 00 0200 01 6b v01 33 01 6a v01 32"),
    Bad("02 01000000 00 0200 01 6a v01 32 01 6a v01 33"),
];

const PAIRS: &[Frame] = &[
    // A key of no byte.
    Bad("02 01000000 00 0100 00 v00"),
    // No value.
    Bad("02 01000000 00 0100 01 61"),
];

const DELTAS: &[Frame] = &[
    Whole(
        "01 01000000 0100000000000000 00000000 0100 01 01 61 v00",
        43,
    ),
    Whole("01 01000000 0100000000000000 00000000 0100 02 01 61", 42),
    // The page: zero. The place back: its frame is torn, is zero, its index is torn.
    Bad("01 00000000 0100000000000000 00000000 0100 02 01 61"),
    Bad("01 01000000 01000000"),
    Bad("01 01000000 0000000000000000 00000000 0100 02 01 61"),
    Bad("01 01000000 0100000000000000 0000"),
    // The count of records: torn, and zero; fewer records than it says, and more.
    Bad("01 01000000 0100000000000000 00000000 01"),
    Bad("01 01000000 0100000000000000 00000000 0000"),
    Bad("01 01000000 0100000000000000 00000000 0200 02 01 61"),
    Bad("01 01000000 0100000000000000 00000000 0100 02 01 61 02 01 61"),
    // A record's kind.
    Bad("01 01000000 0100000000000000 00000000 0100 00 01 61"),
    Bad("01 01000000 0100000000000000 00000000 0100 03 01 61"),
    // Its key: not there, torn, of no byte.
    Bad("01 01000000 0100000000000000 00000000 0100 02"),
    Bad("01 01000000 0100000000000000 00000000 0100 02 02 61"),
    Bad("01 01000000 0100000000000000 00000000 0100 02 00"),
];

const SPLITS: &[Frame] = &[
    Whole(
        "03 01000000 0100000000000000 00000000 01 61 02000000 0100 01 61 v00",
        48,
    ),
    // The page that is split: zero. The place back: frame zero.
    Bad("03 00000000 0100000000000000 00000000 01 61 02000000 0100 01 61 v00"),
    Bad("03 01000000 0000000000000000 00000000 01 61 02000000 0100 01 61 v00"),
    // The new page: torn, page 1, and the page that is split.
    Bad("03 01000000 0100000000000000 00000000 01 61 0200"),
    Bad("03 02000000 0100000000000000 00000000 01 61 01000000 0100 01 61 v00"),
    Bad("03 02000000 0100000000000000 00000000 01 61 02000000 0100 01 61 v00"),
    // The separator is not the first key; there is no first key.
    Bad("03 01000000 0100000000000000 00000000 01 62 02000000 0100 01 61 v00"),
    Bad("03 01000000 0100000000000000 00000000 00 02000000 0100 01 61 v00"),
    Bad("03 01000000 0100000000000000 00000000 00 02000000 0000"),
];

const BODIES: &[Frame] = &[
    Of(
        2,
        "02 01000000 00 0000 02 02000000 00 0000",
        Found::Whole(36),
    ),
    // A block's kind.
    Bad("00 01000000 00 0000"),
    Bad("04 01000000 00 0000"),
    // Fewer blocks than the head says; more bytes than its blocks have.
    Of(2, "02 01000000 00 0000", Found::Bad),
    Bad("02 01000000 00 0000 00"),
    Bad("02 01000000 00 0000 02 02000000 00 0000"),
];

/// What has a greatest length.
#[derive(Clone, Copy, PartialEq, Eq)]
enum Part {
    Key,
    Value,
}

/// Frames of one block with a key or a value of the greatest length, and of one byte more, which is
/// bad: digits in front of its length, what it is, digits after it, and how many bytes the first of
/// them has in format 1 and in format 2.
struct Longest(&'static str, Part, &'static str, usize, usize);

const LONGEST: &[Longest] = &[
    Longest("02 01000000", Part::Key, "0000", 92, 156),
    Longest("02 01000000 00 0100", Part::Key, "v00", 94, 159),
    Longest("02 01000000 00 0100 01 61", Part::Value, "", 159, 544),
    Longest(DELETE, Part::Key, "", 105, 169),
    Longest(PUT, Part::Key, "v00", 106, 171),
    Longest(PUT_61, Part::Value, "", 171, 556),
];

/// A Delta of one delete, and of one put, up to the key, and up to the value.
const DELETE: &str = "01 01000000 0100000000000000 00000000 0100 02";

const PUT: &str = "01 01000000 0100000000000000 00000000 0100 01";

const PUT_61: &str = "01 01000000 0100000000000000 00000000 0100 01 01 61";

/// Counts of so many that room for them all would not be had.
const COUNTS: &[Frame] = &[
    Of(u32::MAX, "02 01000000 00 0000", Found::Bad),
    Bad("01 01000000 0100000000000000 00000000 ffff 02 01 61"),
    Bad("02 01000000 00 ffff 01 61 v00"),
    Bad("03 01000000 0100000000000000 00000000 01 61 02000000 ffff 01 61 v00"),
];

/// Whether this stands at the front of a frame of this format with so many blocks and this body.
fn is_framed(alloc: Global, version: u16, m: u16, count: u32, body: &[u8], told: Found) -> bool {
    match framed_in(alloc, version, count, body) {
        Some(frame) => is_found(alloc, version, m, &frame, told),
        None => false,
    }
}

/// What is found if this is told, in a frame of this format with so many values.
fn found_with(told: Found, version: u16, values: usize) -> Found {
    match told {
        Found::Whole(used) if version == 2 => Found::Whole(used.saturating_add(values)),
        told => told,
    }
}

/// Whether a row is found as expected, written in this format.
fn is_so(alloc: Global, version: u16, m: u16, row: &Frame) -> bool {
    let (count, hex, told) = match row {
        Bad(hex) => (1, *hex, Found::Bad),
        Whole(hex, used) => (1, *hex, Found::Whole(*used)),
        Of(count, hex, told) => (*count, *hex, *told),
    };
    match spelled_body(alloc, version, hex) {
        Some((body, values)) => {
            let told = found_with(told, version, values);
            is_framed(alloc, version, m, count, &body, told)
        }
        None => false,
    }
}

/// Frames of pages of at most so many pairs, in either format.
struct OfPairs(u16, &'static [Frame]);

impl Table for OfPairs {
    fn wrong_step(&self, alloc: Global) -> Option<usize> {
        for (i, row) in self.1.iter().enumerate() {
            if !is_so(alloc, 1, self.0, row) || !is_so(alloc, 2, self.0, row) {
                return Some(i);
            }
        }
        None
    }
}

const TABLES: &[OfPairs] = &[
    OfPairs(4, BASES),
    OfPairs(4, PAIRS),
    OfPairs(4, DELTAS),
    OfPairs(4, SPLITS),
    OfPairs(4, BODIES),
    // A count is no reason to take memory.
    OfPairs(4, COUNTS),
    OfPairs(32, COUNTS),
    OfPairs(u16::MAX, COUNTS),
];

#[test]
fn each_part_of_a_block_is_looked_at(rt: HostRuntime) -> Result<(), WrongStep> {
    tables_go(rt.alloc(), TABLES)
}

/// The greatest length of a part in this format.
fn greatest(version: u16, part: Part) -> u16 {
    match part {
        Part::Key if version == 1 => 64,
        Part::Value if version == 2 => 512,
        _ => 128,
    }
}

/// Whether a part of so many bytes is found so in this format.
fn is_part(alloc: Global, version: u16, row: &Longest, many: u16, told: Found) -> bool {
    let Longest(front, part, behind, _, _) = row;
    let is_wide = version == 2 && *part == Part::Value;
    match body_of(alloc, version, (front, behind), is_wide, many) {
        Some(body) => is_framed(alloc, version, 4, 1, &body, told),
        None => false,
    }
}

/// Whether the longest is found whole, and one byte more bad, in this format.
fn is_longest(alloc: Global, version: u16, row: &Longest, used: usize) -> bool {
    let many = greatest(version, row.1);
    is_part(alloc, version, row, many, Found::Whole(used))
        && is_part(alloc, version, row, many.saturating_add(1), Found::Bad)
}

impl Row for Longest {
    fn goes(&self, alloc: Global) -> Option<bool> {
        Some(is_longest(alloc, 1, self, self.3) && is_longest(alloc, 2, self, self.4))
    }
}

#[test]
fn one_byte_more_than_the_greatest_length_is_bad(rt: HostRuntime) -> Result<(), WrongRow> {
    rows_go(rt.alloc(), LONGEST)
}
