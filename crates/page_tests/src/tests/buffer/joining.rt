// Records that join the last Delta of their page in a buffer, to the byte.

use super::buffers::{
    EMPTY, PUT_A, PUT_B, PUT_C, PUT_D, Step, blocks_of, spelled, walked, wrong_steps,
};
use bw_buffer::{Buffer, Mark, PutError};
use bw_codec::limits::{MAX_FRAME, MIN_FRAME};
use std::alloc::Global;
use test_kit::tables::{wrong_row, wrong_table};
use test_kit::vectors::blocks_in;
use test_kit::vectors::digits::{bytes_of, framed};

/// An empty page 1 and two puts of it.
const TWO_PUTS: &str = "46524d32 0100000000000000 27000000 02000000 \
    02 01000000 00 0000 \
    01 01000000 0100000000000000 00000000 0200 01 01 61 0100 31 01 01 62 0100 32";

/// The fifth put of page 1 and its Split, after the Delta at (1, 1).
const FIFTH: &str = "46524d32 0100000000000000 41000000 02000000 \
    01 01000000 0100000000000000 01000000 0100 01 01 65 0100 35 \
    03 01000000 0100000000000000 01000000 01 63 02000000 0300 01 63 0100 33 01 64 0100 34 01 65 \
    0100 35";

/// A put of page 1 after the Split at (1, 2).
const LATER: &str = "46524d32 0100000000000000 1a000000 01000000 \
    01 01000000 0100000000000000 02000000 0100 01 02 627a 0100 36";

/// Five puts of page 1, which is split then: the Delta, and after it the Split.
const CUT: &str = "46524d32 0100000000000000 61000000 03000000 \
    02 01000000 00 0000 \
    01 01000000 0100000000000000 00000000 0500 01 01 61 0100 31 01 01 62 0100 32 01 01 63 0100 \
    33 01 01 64 0100 34 01 01 65 0100 35 \
    03 01000000 0100000000000000 01000000 01 63 02000000 0300 01 63 0100 33 01 64 0100 34 01 65 \
    0100 35";

/// Five puts of page 1, which is split then, and a put of page 1 after the Split, in a Delta of its
/// own.
const CUT_AND_CHANGED: &str = "46524d32 0100000000000000 7b000000 04000000 \
    02 01000000 00 0000 \
    01 01000000 0100000000000000 00000000 0500 01 01 61 0100 31 01 01 62 0100 32 01 01 63 0100 \
    33 01 01 64 0100 34 01 01 65 0100 35 \
    03 01000000 0100000000000000 01000000 01 63 02000000 0300 01 63 0100 33 01 64 0100 34 01 65 \
    0100 35 \
    01 01000000 0100000000000000 02000000 0100 01 02 627a 0100 36";

/// A delete at page 1.
const DELETE: &str = "46524d32 0100000000000000 16000000 01000000 \
    01 01000000 0100000000000000 00000000 0100 02 01 61";

/// Two puts of page 2.
const SECOND_PAGE: &str = "46524d32 0100000000000000 19000000 01000000 \
    01 02000000 0100000000000000 00000000 0100 01 01 78 0100 37";

const SECOND_AGAIN: &str = "46524d32 0100000000000000 19000000 01000000 \
    01 02000000 0100000000000000 00000000 0100 01 01 79 0100 38";

/// Page 1 has a, then nothing at a and b; page 2 has x and y.
const BY_TURNS: &str = "46524d32 0100000000000000 49000000 03000000 \
    02 01000000 00 0000 \
    01 01000000 0100000000000000 00000000 0300 01 01 61 0100 31 02 01 61 01 01 62 0100 32 \
    01 02000000 0100000000000000 00000000 0200 01 01 78 0100 37 01 01 79 0100 38";

/// Two puts of page 1 in two Deltas, which one call gives, and those of a frame that took them.
const APART: &str = "46524d32 0100000000000000 32000000 02000000 \
    01 01000000 0100000000000000 00000000 0100 01 01 61 0100 31 \
    01 01000000 0100000000000000 01000000 0100 01 01 62 0100 32";

const TOGETHER: &str = "46524d32 0100000000000000 1f000000 01000000 \
    01 01000000 0100000000000000 00000000 0200 01 01 61 0100 31 01 01 62 0100 32";

/// The first four puts of page 1: the last three join the first.
const FOUR_PUTS: &[(&str, u32)] = &[(PUT_A, 0), (PUT_B, 1), (PUT_C, 1), (PUT_D, 1)];

/// A put joins the first one, after an empty page.
const JOINED: &[Step] = &[
    Step::Joins(1, None),
    Step::Put(PUT_A, Ok((1, 0))),
    Step::Joins(1, Some((1, 1))),
    Step::Joins(2, None),
    Step::Is(1, 2, 65483, false),
    Step::Put(PUT_B, Ok((1, 1))),
    Step::Is(1, 2, 65477, false),
    Step::Joins(1, Some((1, 1))),
    Step::Mark(0, Mark::Sets(1)),
    Step::Mark(1, Mark::Changes(1)),
    Step::Seal,
    Step::Is(1, 2, 65477, true),
    Step::Gives(TWO_PUTS),
    Step::Joins(1, Some((1, 1))),
    Step::Restart(2),
    Step::Joins(1, None),
    Step::Put(PUT_B, Ok((2, 0))),
    Step::Put(PUT_C, Ok((2, 0))),
    Step::Seal,
    Step::Spells(2),
];

/// The page is split after five puts; a later put joins none of them, and is joined itself.
const CUT_IN_ONE_FRAME: &[Step] = &[
    Step::Puts(FOUR_PUTS),
    Step::Is(1, 2, 65465, false),
    Step::Put(FIFTH, Ok((1, 1))),
    Step::Is(1, 3, 65419, false),
    Step::Mark(1, Mark::Changes(1)),
    Step::Mark(2, Mark::Splits(1, 2)),
    Step::Joins(1, None),
    Step::Joins(2, None),
    Step::Seal,
    Step::Gives(CUT),
    Step::Restart(1),
    Step::Puts(FOUR_PUTS),
    Step::Puts(&[(FIFTH, 1), (LATER, 3)]),
    Step::Joins(1, Some((1, 3))),
    Step::Is(1, 4, 65393, false),
    Step::Seal,
    Step::Gives(CUT_AND_CHANGED),
    Step::Restart(1),
    Step::Puts(&[
        (PUT_A, 0),
        (FIFTH, 1),
        (SECOND_PAGE, 3),
        (LATER, 4),
        (SECOND_AGAIN, 3),
        (PUT_B, 4),
    ]),
    Step::Is(1, 5, 65374, false),
    Step::Seal,
    Step::Spells(6),
];

/// No record joins over a Base of its page, which was given as a block or as its bytes.
const SET_BETWEEN: &[Step] = &[
    Step::Puts(&[(PUT_A, 0), (EMPTY, 2)]),
    Step::Joins(1, None),
    Step::Puts(&[(PUT_B, 3), (PUT_C, 3)]),
    Step::Copy(EMPTY, Ok((1, 4))),
    Step::Joins(1, None),
    Step::Put(PUT_D, Ok((1, 5))),
    Step::Is(1, 6, 65411, false),
    Step::Seal,
    Step::Spells(4),
];

/// Records of two pages by turns: each joins the Delta of its page, in the order in which they
/// came.
const TURNS: &[Step] = &[
    Step::Puts(&[
        (PUT_A, 0),
        (SECOND_PAGE, 2),
        (DELETE, 1),
        (SECOND_AGAIN, 2),
        (PUT_B, 1),
    ]),
    Step::Is(1, 3, 65443, false),
    Step::Seal,
    Step::Gives(BY_TURNS),
];

/// Two Deltas of one page in one call: the second joins the first. If 31 bytes are free they fit,
/// and if 30 are they do not.
const ONE_CALL: &[Step] = &[
    Step::Put(APART, Ok((1, 0))),
    Step::Is(1, 1, 65485, false),
    Step::Seal,
    Step::Gives(TOGETHER),
    Step::Restart(1),
    Step::Spread(2, 128, 512, 98),
    Step::Spread(100, 1, 488, 1),
    Step::Is(1, 99, 30, false),
    Step::HasRoom(APART, false),
    Step::Put(APART, Err(PutError::NoRoom)),
    Step::Restart(1),
    Step::Spread(2, 128, 512, 98),
    Step::Spread(100, 1, 487, 1),
    Step::Is(1, 99, 31, false),
    Step::HasRoom(APART, true),
    Step::Put(APART, Ok((1, 99))),
    Step::Is(1, 100, 0, false),
    Step::Seal,
    Step::Spells(101),
];

/// Records of one page up to the frame's last byte, 102 in one Delta. If 6 bytes are free, one more
/// of that page fits, and none of another page.
const TO_THE_END: &[Step] = &[
    Step::Heap(2, 128, 512, 101),
    Step::Is(1, 1, 453, false),
    Step::Heap(2, 128, 321, 1),
    Step::Is(1, 1, 0, false),
    Step::HasRoom(SECOND_PAGE, false),
    Step::Put(SECOND_PAGE, Err(PutError::NoRoom)),
    Step::Seal,
    Step::Spells(102),
    Step::Restart(1),
    Step::Heap(2, 128, 512, 101),
    Step::Heap(2, 128, 315, 1),
    Step::Is(1, 1, 6, false),
    Step::HasRoom(PUT_B, false),
    Step::HasRoom(SECOND_PAGE, true),
    Step::Put(PUT_B, Err(PutError::NoRoom)),
    Step::Put(SECOND_PAGE, Ok((1, 0))),
    Step::Is(1, 1, 0, false),
    Step::Seal,
    Step::Spells(103),
];

const TABLES: &[&[Step]] = &[
    JOINED,
    CUT_IN_ONE_FRAME,
    SET_BETWEEN,
    TURNS,
    ONE_CALL,
    TO_THE_END,
];

#[test]
fn records_join_the_last_delta_of_their_page(rt: HostRuntime) {
    let wrong = wrong_table(TABLES, |steps| wrong_steps(rt.alloc(), steps));
    assert_eq!(rt; wrong, None);
}

/// A sealed buffer that was walked so.
fn made(alloc: Global, steps: &[Step]) -> Option<Buffer> {
    let mut buffer = Buffer::new(alloc, 1, MIN_FRAME).ok()?;
    if walked(alloc, &mut buffer, steps).is_some() {
        return None;
    }
    buffer.seal();
    Some(buffer)
}

/// Steps with refusals, and the same without.
type Refused = (&'static [Step], &'static [Step]);

/// Whether the same bytes come of both.
fn refused_goes(alloc: Global, row: &Refused) -> Option<bool> {
    let one = made(alloc, row.0)?;
    let other = made(alloc, row.1)?;
    Some(one.is_sealed() && other.is_sealed() && one.bytes() == other.bytes())
}

/// One Delta of many records, and 6 bytes free.
const NEARLY_FULL: &[Step] = &[Step::Heap(2, 128, 512, 101), Step::Heap(2, 128, 315, 1)];

const REFUSED: &[Refused] = &[
    (
        &[
            Step::Heap(2, 128, 512, 101),
            Step::Heap(2, 128, 315, 1),
            Step::Put(PUT_B, Err(PutError::NoRoom)),
            Step::Put(APART, Err(PutError::NoRoom)),
            Step::Copy(EMPTY, Err(PutError::NoRoom)),
        ],
        NEARLY_FULL,
    ),
    (
        &[
            Step::Heap(2, 128, 512, 101),
            Step::Heap(2, 128, 315, 1),
            Step::Seal,
            Step::Put(SECOND_PAGE, Err(PutError::Sealed)),
            Step::Copy(EMPTY, Err(PutError::Sealed)),
        ],
        NEARLY_FULL,
    ),
];

#[test]
fn a_refused_put_leaves_the_frame(rt: HostRuntime) {
    let wrong = wrong_row(REFUSED, |row| refused_goes(rt.alloc(), row));
    assert_eq!(rt; wrong, None);
}

/// The frame of one Delta of page 1 that deletes a so many times.
fn deletes(alloc: Global, times: u16) -> Option<Vec<u8>> {
    let mut body = bytes_of(alloc, "01 01000000 0100000000000000 00000000")?;
    body.extend_from_slice(&times.to_le_bytes()).ok()?;
    for _ in 0..times {
        body.extend_from_slice(&[2, 1, b'a']).ok()?;
    }
    framed(alloc, 1, &body)
}

/// Whether the last of 65,536 records of one page begins a Delta of its own, after a Delta of
/// 65,534 that one more has joined; and the one after it joins that.
fn a_full_delta_is_left(alloc: Global) -> Option<bool> {
    let mut buffer = Buffer::new(alloc, 1, MAX_FRAME).ok()?;
    let many = deletes(alloc, 65_534)?;
    let first = blocks_in(alloc, &many)?;
    let one = blocks_of(alloc, DELETE)?;
    let placed = buffer.put_all(first.as_slice()).ok()?;
    let joined = buffer.put_all(one.as_slice()).ok()?;
    let is_full = buffer.joins(1).is_none() && buffer.len() == 39 + 3 * 65_535;
    let apart = buffer.put_all(one.as_slice()).ok()?;
    let again = buffer.put_all(one.as_slice()).ok()?;
    buffer.seal();
    Some(
        placed.index == 0
            && joined.index == 0
            && is_full
            && apart.index == 1
            && again.index == 1
            && buffer.count() == 2
            && buffer.len() == 39 + 3 * 65_535 + 22 + 3
            && spelled(alloc, &buffer) == Some(65_537),
    )
}

#[test]
fn a_delta_has_no_more_than_65_535_records(rt: HostRuntime) {
    assert!(rt; a_full_delta_is_left(rt.alloc()) == Some(true));
}
