//! What recovery says of worked boxes.

ghost use Rattle.bw_care.specs.Found.{IsRecovered};

use super::boxes::{
    Yard, add_box, add_boxes, add_kept, add_piece, add_pieces, all_out, empty_yard,
};
use bw_care::{RecoverCause, recover};
use bw_device::{Desk, Segment};
use std::alloc::Global;
use test_boxes::{Kept, LEAST, NEVER, Piece, are_shown};
use test_kit::tables::{Table, WrongStep, tables_go};
use test_kit::vectors::{
    CUT_AT_ONCE, FIRST, GREATEST, JOINED, OLD_CUT_AT_ONCE, OLD_FIRST, OLD_GREATEST, OLD_JOINED,
    OLD_SECOND, OLD_THIRD_NEWER, OLD_THIRD_OLDER, SECOND, THIRD_NEWER, THIRD_OLDER, UPGRADED,
};

/// What is said of a list of boxes.
#[derive(Clone, Copy)]
enum Told {
    /// The first and the last frame, tail bytes, live segments, spares, boxes dropped, and the
    /// pages.
    Found(u64, u64, u64, u32, u32, u32, &'static str),
    Fault(RecoverCause),
}

/// A list of boxes.
enum Boxes {
    /// One of ample room for each piece.
    Ample(&'static [Piece]),
    /// One of this room for a piece, and a spare of this room.
    Beside(Piece, u64, u64),
    /// The older one of the third vector and the newer one, after a recovery that the newer one's
    /// call of this number failed, which was said.
    Again(u64),
    /// 4,097 of a bad byte each, one of them of another desk.
    Many,
}

/// Boxes, and what is said of them.
struct Row(Boxes, Told);

use Boxes::{Again, Ample, Beside, Many};
use Piece::{Behind, Torn, Whole, With};
use RecoverCause::{BadBytes, BadConfig, BadLink, Empty, Gap, Mixed, Unlawful};
use Told::{Fault, Found};

const KV: &str = "1 : k=v;";

const ABCD: &str = "1 : a=1 b=2 c=3 d=4;";

const JK: &str = "1 : j=2 k=3;";

// ---- either format

/// A vector in format 2, and in format 1.
type Text = (&'static str, &'static str);

const ONE: Text = (FIRST, OLD_FIRST);

const FIVE: Text = (SECOND, OLD_SECOND);

const AT_ONCE: Text = (CUT_AT_ONCE, OLD_CUT_AT_ONCE);

const JOIN: Text = (JOINED, OLD_JOINED);

const GREAT: Text = (GREATEST, OLD_GREATEST);

const OLDER: Text = (THIRD_OLDER, OLD_THIRD_OLDER);

const NEWER: Text = (THIRD_NEWER, OLD_THIRD_NEWER);

/// The last letter of a frame's mark in the format above.
const ABOVE: (&[u8], &[u8]) = (&[0x33], &[0x32]);

/// A piece in either format, with a number for each.
enum Part {
    All(Text),
    /// So many of its bytes, from the first on.
    To(Text, (usize, usize)),
    /// With other bytes from an offset on.
    At(Text, (usize, usize), &'static [u8]),
    /// With the mark of a frame in the format above.
    Marked(Text),
    /// With more bytes at the end.
    And(Text, &'static [u8]),
}

/// Boxes of ample room in either format, and what is said of them, or of those in format 2 and of
/// those in format 1.
enum Twice {
    Same(&'static [Part], Told),
    Other(&'static [Part], (Told, Told)),
}

use Part::{All, And, At, Marked, To};
use Twice::{Other, Same};

const TWO_PAGES: &str = "1 : a=1 b=2;2 c: c=3 d=4 e=5;";

const TWO_JOINED: &str = "1 : a=1 b=2 bz=6;2 c: c=3 d=4 e=5;";

/// The first frame of the first box.
const AT_FRAME: Told = Fault(BadBytes { segment: 0, at: 24 });

const ALL_ONES: &[u8] = &[0xff, 0xff, 0xff, 0xff];

/// Vectors whole, cut, exchanged, doubled, and with a stray byte at the end.
const WORKED: &[Twice] = &[
    Same(&[All(ONE)], Found(1, 1, 0, 1, 0, 0, KV)),
    Same(&[All(FIVE)], Found(1, 5, 0, 1, 0, 0, TWO_PAGES)),
    Same(&[All(AT_ONCE)], Found(1, 1, 0, 1, 0, 0, TWO_PAGES)),
    Same(&[All(JOIN)], Found(1, 1, 0, 1, 0, 0, TWO_JOINED)),
    Other(
        &[To(FIVE, (296, 288))],
        (
            Found(1, 4, 84, 1, 0, 0, ABCD),
            Found(1, 4, 80, 1, 0, 0, ABCD),
        ),
    ),
    Same(&[To(FIVE, (76, 75))], Fault(Empty)),
    Same(&[To(FIVE, (24, 24))], Fault(Empty)),
    Same(&[To(FIVE, (23, 23))], Fault(Empty)),
    Same(&[], Fault(Empty)),
    Same(&[All(GREAT)], Found(u64::MAX, u64::MAX, 0, 1, 0, 0, "1 :;")),
    Other(
        &[And(ONE, &[0x58])],
        (
            Fault(BadBytes { segment: 0, at: 77 }),
            Fault(BadBytes { segment: 0, at: 76 }),
        ),
    ),
    Same(&[And(ONE, &[0x46])], Found(1, 1, 1, 1, 0, 0, KV)),
    Same(&[All(OLDER), All(NEWER)], Found(2, 4, 0, 2, 0, 0, JK)),
    Same(&[All(NEWER), All(OLDER)], Found(2, 4, 0, 2, 0, 0, JK)),
    Same(&[All(OLDER)], Fault(Unlawful { page: 1 })),
    Same(
        &[All(OLDER), To(NEWER, (106, 103))],
        Fault(Unlawful { page: 1 }),
    ),
    Same(&[All(OLDER), All(OLDER)], Fault(Gap)),
    Same(
        &[All(ONE), All(OLDER)],
        Found(1, 2, 0, 2, 0, 0, "1 : j=2 k=v;"),
    ),
    Same(
        &[To(ONE, (0, 0)), All(ONE), To(ONE, (3, 3))],
        Found(1, 1, 0, 1, 1, 1, KV),
    ),
];

/// Hostile boxes: each fault by changed bytes.
const HOSTILE: &[Twice] = &[
    Same(&[At(JOIN, (114, 109), &[0x00])], Fault(BadLink { page: 1 })),
    Same(&[At(JOIN, (154, 146), &[0x01])], Fault(BadLink { page: 1 })),
    Same(&[Marked(ONE)], AT_FRAME),
    Same(
        &[At(ONE, (16, 16), &[0x03])],
        Fault(BadBytes { segment: 0, at: 0 }),
    ),
    Same(
        &[All(ONE), Marked(OLDER)],
        Fault(BadBytes { segment: 1, at: 24 }),
    ),
    Same(&[At(ONE, (36, 36), ALL_ONES)], AT_FRAME),
    Same(&[At(ONE, (40, 40), ALL_ONES)], AT_FRAME),
    Same(&[All(ONE), All(NEWER)], Fault(Gap)),
    Same(&[All(ONE), At(OLDER, (16, 16), &[0x05])], Fault(Mixed)),
    Same(
        &[All(ONE), At(OLDER, (57, 57), &[0x00])],
        Fault(BadLink { page: 1 }),
    ),
    Same(&[At(ONE, (53, 53), &[0x03])], Fault(BadLink { page: 3 })),
    Same(&[At(GREAT, (45, 45), &[0x02])], Fault(Unlawful { page: 1 })),
    Same(
        &[At(GREAT, (45, 45), ALL_ONES)],
        Fault(Unlawful { page: 1 }),
    ),
];

/// Lists with two faults, of which the earlier one is said: bytes before limits, limits before
/// gaps, gaps before no frame, and a wrong link before a page at fault.
const ORDERED: &[Twice] = &[
    Same(
        &[All(ONE), At(OLDER, (16, 16), &[0x05]), Marked(ONE)],
        Fault(BadBytes { segment: 2, at: 24 }),
    ),
    Same(&[All(ONE), At(NEWER, (16, 16), &[0x05])], Fault(Mixed)),
    Same(&[To(ONE, (24, 24)), To(NEWER, (24, 24))], Fault(Gap)),
    Same(
        &[At(ONE, (53, 53), &[0x03]), To(OLDER, (24, 24))],
        Fault(BadLink { page: 3 }),
    ),
];

/// Format 2, or format 1.
#[derive(Clone, Copy)]
enum Format {
    Latest,
    Old,
}

// That of the two which is for this format.
fn of<T: Copy>(format: Format, both: &(T, T)) -> T {
    match format {
        Format::Latest => both.0,
        Format::Old => both.1,
    }
}

fn piece_of(format: Format, part: &Part) -> Piece {
    match part {
        All(text) => Whole(of(format, text)),
        To(text, len) => Torn(of(format, text), of(format, len)),
        At(text, at, with) => With(of(format, text), of(format, at), *with),
        Marked(text) => With(of(format, text), 27, of(format, &ABOVE)),
        And(text, more) => Behind(of(format, text), *more),
    }
}

// Whether a box stands there for each part in this format.
fn add_parts(yard: &mut Yard, format: Format, parts: &[Part]) -> bool {
    for part in parts {
        if !add_piece(yard, &piece_of(format, part), LEAST, NEVER) {
            return false;
        }
    }
    true
}

// Whether this is said of the boxes in this format.
fn is_told_in(alloc: Global, format: Format, row: &Twice) -> bool {
    let (parts, told) = match row {
        Same(parts, told) => (*parts, *told),
        Other(parts, told) => (*parts, of(format, told)),
    };
    match empty_yard(alloc, 8) {
        Some(mut yard) => {
            add_parts(&mut yard, format, parts) && is_told(alloc, &mut yard, &told)
        }
        None => false,
    }
}

/// Rows in one format.
#[derive(Drop)]
struct InFormat(Format, &'static [Twice]);

impl Table for InFormat {
    fn wrong_step(&self, alloc: Global) -> Option<usize> {
        for (i, row) in self.1.iter().enumerate() {
            if !is_told_in(alloc, self.0, row) {
                return Some(i);
            }
        }
        None
    }
}

// ---- both formats

/// Old segments before new ones, in either order of the list, and the other way round; with another
/// limit of frames in one format, and with another M.
const MIXED: &[Row] = &[
    Row(
        Ample(&[Whole(OLD_FIRST), Whole(THIRD_OLDER)]),
        Found(1, 2, 0, 2, 0, 0, "1 : j=2 k=v;"),
    ),
    Row(
        Ample(&[Whole(THIRD_NEWER), Whole(OLD_FIRST), Whole(THIRD_OLDER)]),
        Found(1, 4, 0, 3, 0, 0, JK),
    ),
    Row(
        Ample(&[Whole(OLD_FIRST), Whole(UPGRADED)]),
        Found(1, 2, 0, 2, 0, 0, KV),
    ),
    Row(Ample(&[Whole(FIRST), Whole(OLD_THIRD_OLDER)]), Fault(Mixed)),
    Row(Ample(&[Whole(OLD_THIRD_OLDER), Whole(FIRST)]), Fault(Mixed)),
    Row(
        Ample(&[Whole(FIRST), With(THIRD_OLDER, 22, &[0x02])]),
        Fault(Mixed),
    ),
    Row(
        Ample(&[Whole(OLD_FIRST), With(OLD_THIRD_OLDER, 21, &[0x80])]),
        Fault(Mixed),
    ),
    Row(
        Ample(&[Whole(OLD_FIRST), With(THIRD_OLDER, 16, &[0x05])]),
        Fault(Mixed),
    ),
    // Two segments of one number are of one log as far as headers go.
    Row(Ample(&[Whole(OLD_FIRST), Whole(FIRST)]), Fault(Gap)),
    // The text of the other format, of a segment and of a frame.
    Row(
        Ample(&[With(OLD_FIRST, 7, &[0x32])]),
        Fault(BadBytes { segment: 0, at: 0 }),
    ),
    Row(Ample(&[With(FIRST, 7, &[0x31])]), AT_FRAME),
    Row(Ample(&[With(FIRST, 27, &[0x31])]), AT_FRAME),
    Row(Ample(&[With(OLD_FIRST, 27, &[0x32])]), AT_FRAME),
    Row(
        Ample(&[Behind(FIRST, b"FRM1")]),
        Fault(BadBytes { segment: 0, at: 77 }),
    ),
    Row(
        Ample(&[Behind(OLD_FIRST, b"FRM2")]),
        Fault(BadBytes { segment: 0, at: 76 }),
    ),
    Row(
        Ample(&[Whole(FIRST), Torn(OLD_FIRST, 8)]),
        Found(1, 1, 0, 1, 0, 1, KV),
    ),
];

/// The log's limit of frames is that of the new segments, or else 65,536: a spare of an old log has
/// to have room for that.
const OLD_SPARES: &[Row] = &[
    Row(
        Beside(Whole(OLD_FIRST), 76, 65_560),
        Found(1, 1, 0, 1, 1, 0, KV),
    ),
    Row(Beside(Whole(OLD_FIRST), 76, 65_559), Fault(BadConfig)),
    Row(
        Beside(With(FIRST, 22, &[0x02]), 77, 131_096),
        Found(1, 1, 0, 1, 1, 0, KV),
    ),
    Row(
        Beside(With(FIRST, 22, &[0x02]), 77, 131_095),
        Fault(BadConfig),
    ),
];

// Whether no page is in memory, and all of them are shown so once they are brought there.
fn are_read(found: bw_care::Recovered, pages: &str) -> bool
    requires { IsRecovered (λ b. holding (b.vtable, b.value)) found }
{
    let is_away = !found.leaves.is_here(1);
    match found.warm() {
        Ok(found) => is_away && are_shown(&found.leaves, pages),
        Err(_) => false,
    }
}

// How many pairs a text has: each has one sign of equality.
fn pairs_in(pages: &str) -> u64 {
    pages.bytes().filter(|byte| *byte == b'=').count() as u64
}

// Whether it was found as expected, where it was; the desk tells how many boxes were dropped.
fn is_found(found: bw_care::Recovered, returned: u32, told: &Told) -> bool
    requires { IsRecovered (λ b. holding (b.vtable, b.value)) found }
{
    match told {
        Found(first, last, tail, live, spares, dropped, pages) => {
            let numbers = [found.first, found.last, found.tail] == [*first, *last, *tail];
            let counts = [
                found.log.live(),
                found.log.spares(),
                found.dropped,
                returned,
            ] == [*live, *spares, *dropped, *dropped];
            numbers && counts && found.pairs == pairs_in(pages) && are_read(found, pages)
        }
        Fault(_) => false,
    }
}

/// Live segments of the room that their bytes need, which may be less than that of a spare, and a
/// spare.
const SPARES: &[Row] = &[
    Row(
        Beside(Whole(FIRST), 77, 65_560),
        Found(1, 1, 0, 1, 1, 0, KV),
    ),
    Row(Beside(Whole(FIRST), 77, 65_559), Fault(BadConfig)),
    Row(Beside(Torn(FIRST, 24), 24, 65_559), Fault(Empty)),
    Row(
        Beside(With(FIRST, 53, &[0x03]), 77, 65_559),
        Fault(BadConfig),
    ),
];

const AGAIN: &[Kept] = &[
    (Whole(THIRD_OLDER), LEAST, false),
    (Whole(THIRD_NEWER), LEAST, true),
];

/// Each read of the newer box fails, and counts.
const FAILING: &[Row] = &[
    Row(Again(0), Found(2, 4, 0, 2, 0, 0, JK)),
    Row(Again(1), Found(2, 4, 0, 2, 0, 0, JK)),
];

// Whether the same boxes stand there after a recovery that the second of them failed.
fn are_failed(yard: &mut Yard) -> bool {
    match recover(yard.alloc, all_out(yard)) {
        Ok(_) => false,
        Err(fault) => {
            let is_so = fault.cause == (RecoverCause::Device { lease: 1 });
            yard.boxes = fault.boxes;
            is_so
        }
    }
}

// Whether a box of another desk stands there, and after it 4,096 of this one.
fn add_too_many(yard: &mut Yard) -> bool {
    if !add_box(yard, b"X", 1, NEVER) {
        return false;
    }
    match Desk::new(yard.alloc, 4_096) {
        Ok(desk) => {
            yard.desk = desk;
            add_boxes(yard, 4_096, b"X", 1)
        }
        Err(_) => false,
    }
}

// Whether the boxes stand there.
fn add_all(yard: &mut Yard, boxes: &Boxes) -> bool {
    match boxes {
        Ample(pieces) => add_pieces(yard, *pieces),
        Beside(piece, room, spare) => {
            add_piece(yard, piece, *room, NEVER) && add_box(yard, b"", *spare, NEVER)
        }
        Again(calls) => add_kept(yard, (*calls, 0), AGAIN) && are_failed(yard),
        Many => add_too_many(yard),
    }
}

// Whether this is said of boxes; a fault hands all of them back, in order.
fn is_told(alloc: Global, yard: &mut Yard, told: &Told) -> bool {
    let boxes = all_out(yard);
    let count = boxes.len();
    match recover(alloc, boxes) {
        Ok(found) => is_found(found, yard.desk.collect(), told),
        Err(fault) => {
            let back = fault.boxes.len() == count && yard.desk.collect() == 0;
            match told {
                Fault(cause) => back && fault.cause == *cause,
                _ => false,
            }
        }
    }
}

// Whether what the row says is said of its boxes.
fn goes(alloc: Global, row: &Row) -> bool {
    match empty_yard(alloc, 8) {
        Some(mut yard) => add_all(&mut yard, &row.0) && is_told(alloc, &mut yard, &row.1),
        None => false,
    }
}

/// Rows of boxes.
struct Rows(&'static [Row]);

impl Table for Rows {
    fn wrong_step(&self, alloc: Global) -> Option<usize> {
        for (i, row) in self.0.iter().enumerate() {
            if !goes(alloc, row) {
                return Some(i);
            }
        }
        None
    }
}

/// The tables of either format, in this one.
fn in_format(format: Format) -> [InFormat; 3] {
    [
        InFormat(format, WORKED),
        InFormat(format, HOSTILE),
        InFormat(format, ORDERED),
    ]
}

#[test]
fn worked_boxes_are_told(rt: HostRuntime) -> Result<(), WrongStep> {
    tables_go(rt.alloc(), &in_format(Format::Latest))
}

#[test]
fn worked_boxes_of_format_1_are_told(rt: HostRuntime) -> Result<(), WrongStep> {
    tables_go(rt.alloc(), &in_format(Format::Old))
}

const TABLES: &[Rows] = &[
    // A small spare is refused after no frame and before links.
    Rows(SPARES),
    Rows(FAILING),
    // Too many boxes are refused before any byte.
    Rows(&[Row(Many, Fault(BadConfig))]),
    // Boxes of both formats.
    Rows(MIXED),
    Rows(OLD_SPARES),
];

#[test]
fn boxes_are_told(rt: HostRuntime) -> Result<(), WrongStep> {
    tables_go(rt.alloc(), TABLES)
}
