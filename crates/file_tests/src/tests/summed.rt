//! The sums beside a segment's file: their bytes, what is said of a file that was changed, and what
//! a crash may leave of both files, of which nothing is said.

use super::cleared;
use super::steps::Act::{
    Append, Bytes, Copy, Fail, File, Has, HeldBack, Holds, Leave, Link, Listed, Look, LookEvicted,
    Make, NoFile, Open, Opens, Segment, Spare, Stop, Verify, Whole, Write,
};
use super::steps::Told::{Damaged, Done, Missing, NotPlain, System};
use super::steps::{Act, Row, Stand, Table, at, is_told, wrong_table};
use std::fs;

const FILE: &str = "segment-0000.bw";

const SUMS: &str = "segment-0000.sum";

/// The sums of these pieces, one after the other, worked out by another program.
const ABC_DE: &str = "0300000000000000f2302604a0c33bc09d16479505e235c8\
    05000000000000006968d295a462a12f95622a23a733fc5d";

const ABCDE: &str = "0500000000000000a284d75b723c1f253397b873d470b1b8";

const XYZ_DE: &str = "0300000000000000aa6ac8137f43177d6289f3072d580fc8\
    05000000000000006968d295a462a12fdad4893307a3745e";

/// The first of the last ones, and the second of the first ones.
const MIXED: &str = "0300000000000000aa6ac8137f43177d6289f3072d580fc8\
    05000000000000006968d295a462a12f95622a23a733fc5d";

/// The second of the first ones after a hole.
const HOLE: &str = "000000000000000000000000000000000000000000000000\
    05000000000000006968d295a462a12f95622a23a733fc5d";

/// Each piece has a sum, but for one of no bytes. A folder without sums gets them.
const SUMMED: &[Row] = &[
    Row(Open, Done, "doanool"),
    Row(Segment(0, 64), Done, "nnoonolnoa"),
    Row(Append(0, "abc"), Done, "wsw"),
    Row(Append(0, ""), Done, "s"),
    Row(Has(SUMS, ABC_DE, 24), Done, ""),
    Row(Append(0, "de"), Done, "wsw"),
    Row(Has(SUMS, ABC_DE, 48), Done, ""),
    Row(Stop(0), Done, ""),
    Row(Segment(0, 64), Done, "nnolomrmra"),
    Row(Holds(0, "abcde", 0), Done, ""),
    Row(Has(SUMS, ABC_DE, 48), Done, ""),
    Row(Stop(0), Done, ""),
    Row(Spare(0, 64), Done, "nnoloacaca"),
    Row(File(SUMS, ""), Done, ""),
    Row(Stop(0), Done, ""),
    Row(Write(FILE, "abcde"), Done, ""),
    Row(Segment(0, 64), Done, "nnolomrmwawa"),
    Row(Has(SUMS, ABCDE, 24), Done, ""),
];

/// A file that is written whole has a sum for each piece, written at once after its bytes. Ends
/// that do not ascend, or that are past the bytes, end no piece.
const WHOLE: &[Row] = &[
    Row(Open, Done, "doanool"),
    Row(Whole(0, "abcde", &[]), Done, "nnoloacacwaw"),
    Row(File(FILE, "abcde"), Done, ""),
    Row(Has(SUMS, ABCDE, 24), Done, ""),
    Row(Whole(0, "abcde", &[0, 3, 2, 3, 6]), Done, "nnoloacacwaw"),
    Row(Has(SUMS, ABC_DE, 48), Done, ""),
    Row(Whole(0, "", &[3]), Done, "nnoloacaca"),
    Row(File(SUMS, ""), Done, ""),
    Row(HeldBack(0, "abcde", &[3, 5]), Done, "nnoloacacwwawaw"),
    Row(File(FILE, "abcde"), Done, ""),
    Row(Has(SUMS, ABC_DE, 48), Done, ""),
    Row(Fail(12, 0), Done, ""),
    Row(HeldBack(0, "abcde", &[]), System, "nnoloacacwwaw"),
    Row(File(SUMS, ""), Done, ""),
    Row(Opens(0, 64), Done, ""),
    Row(Holds(0, "\0bcde", 0), Done, ""),
];

/// Bytes that the sums speak of, and that are not there, are reported, and nothing is written.
const LOST: &[Row] = &[
    Row(Open, Done, "doanool"),
    Row(Segment(0, 64), Done, "nnoonolnoa"),
    Row(Append(0, "abc"), Done, "wsw"),
    Row(Append(0, "de"), Done, "wsw"),
    Row(Stop(0), Done, ""),
    Row(Write(FILE, "abcd"), Done, ""),
    Row(Segment(0, 64), Missing(0, 4, 5), "nnolomrmr"),
    Row(Write(FILE, "abX"), Done, ""),
    Row(Segment(0, 64), Damaged(0, 0), "nnolomrmr"),
    Row(Write(FILE, "ab"), Done, ""),
    Row(Segment(0, 64), Missing(0, 2, 5), "nnolomrmr"),
    Row(Write(FILE, ""), Done, ""),
    Row(Segment(0, 64), Missing(0, 0, 5), "nnolommr"),
    Row(File(FILE, ""), Done, ""),
    Row(Has(SUMS, ABC_DE, 48), Done, ""),
    Row(Leave, Done, ""),
    Row(Look, Done, "pnok"),
    Row(Copy(0, 64, ""), Missing(0, 0, 5), "nomnomr"),
    Row(Verify(0, 0, 0, 0), Missing(0, 0, 5), "nomnomr"),
];

/// The sums of a file that is gone say so, and its lease is listed.
const GONE: &[Row] = &[
    Row(Make, Done, ""),
    Row(Bytes(SUMS, ABC_DE, 48), Done, ""),
    Row(Listed(&[0]), Done, ""),
    Row(Look, Done, "pnok"),
    Row(Copy(0, 64, ""), Missing(0, 0, 5), "nonomr"),
    Row(NoFile(FILE), Done, ""),
    Row(LookEvicted, Done, ""),
    Row(Open, Done, "dnool"),
    Row(Segment(0, 64), Missing(0, 0, 5), "nnoomr"),
    Row(Has(SUMS, ABC_DE, 48), Done, ""),
];

/// What was changed is reported by where its piece begins, and nothing is written.
const CHANGED: &[Row] = &[
    Row(Open, Done, "doanool"),
    Row(Segment(0, 64), Done, "nnoonolnoa"),
    Row(Append(0, "abc"), Done, "wsw"),
    Row(Append(0, "de"), Done, "wsw"),
    Row(Stop(0), Done, ""),
    Row(Write(FILE, "abXde"), Done, ""),
    Row(Segment(0, 64), Damaged(0, 0), "nnolomrmr"),
    Row(Write(FILE, "abcdX"), Done, ""),
    Row(Segment(0, 64), Damaged(0, 3), "nnolomrmr"),
    Row(Write(FILE, "abcdXfgh"), Done, ""),
    Row(Segment(0, 64), Damaged(0, 3), "nnolomrmr"),
    Row(File(FILE, "abcdXfgh"), Done, ""),
    Row(Has(SUMS, ABC_DE, 48), Done, ""),
    Row(Leave, Done, ""),
    Row(Look, Done, "pnok"),
    Row(Copy(0, 64, "abcdXfgh"), Damaged(0, 3), "nomrnomr"),
    Row(Verify(0, 8, 5, 2), Damaged(0, 3), "nomrnomr"),
    Row(Write(FILE, "abcdefgh"), Done, ""),
    Row(Copy(0, 64, "abcdefgh"), Done, "nomrnomr"),
    Row(Verify(0, 8, 5, 2), Done, "nomrnomr"),
    Row(LookEvicted, Done, ""),
    Row(Open, Done, "dnool"),
    Row(Segment(0, 64), Done, "nnolomrmrwawa"),
    Row(Holds(0, "abcdefgh", 0), Done, ""),
];

/// The sums of an earlier segment are gone before any bytes follow.
const EMPTIED: &[Row] = &[
    Row(Make, Done, ""),
    Row(Write(FILE, "abcde"), Done, ""),
    Row(Bytes(SUMS, ABC_DE, 48), Done, ""),
    Row(Open, Done, "dnool"),
    Row(Spare(0, 64), Done, "nnoloacaca"),
    Row(File(SUMS, ""), Done, ""),
    Row(Append(0, "xyz"), Done, "wsw"),
    Row(Append(0, "de"), Done, "wsw"),
    Row(Has(SUMS, XYZ_DE, 48), Done, ""),
];

/// A sum counts after the very one that it was written after.
const BEHIND: &[Row] = &[
    Row(Make, Done, ""),
    Row(Write(FILE, "xyzde"), Done, ""),
    Row(Bytes(SUMS, MIXED, 48), Done, ""),
    Row(Open, Done, "dnool"),
    Row(Segment(0, 64), Done, "nnolomrmrwacwa"),
    Row(Has(SUMS, XYZ_DE, 48), Done, ""),
    Row(Stop(0), Done, ""),
    Row(Write(FILE, "abcde"), Done, ""),
    Row(Bytes(SUMS, HOLE, 48), Done, ""),
    Row(Segment(0, 64), Done, "nnolomrmrwacwa"),
    Row(Has(SUMS, ABCDE, 24), Done, ""),
];

/// What has the name of the sums and is no plain file is not opened.
const PLAIN: &[Row] = &[
    Row(Open, Done, "doanool"),
    Row(Write("other", "abc"), Done, ""),
    Row(Link(SUMS, "other"), Done, ""),
    Row(Segment(0, 64), NotPlain, "nn"),
    Row(Spare(0, 64), NotPlain, "nn"),
    Row(NoFile(FILE), Done, ""),
    Row(Write(FILE, "abc"), Done, ""),
    Row(Leave, Done, ""),
    Row(Look, Done, "pnok"),
    Row(Copy(0, 64, "abc"), NotPlain, "nomrn"),
    Row(File("other", "abc"), Done, ""),
];

const TABLES: &[Table] = &[
    ("summed", SUMMED),
    ("whole", WHOLE),
    ("lost", LOST),
    ("gone", GONE),
    ("changed", CHANGED),
    ("emptied", EMPTIED),
    ("behind", BEHIND),
    ("plain-sums", PLAIN),
];

#[test]
fn each_piece_has_a_sum_and_damage_is_told(rt: HostRuntime) {
    assert_eq!(rt; wrong_table(rt, TABLES), None);
}

/// So many bytes are left of the file, with what they are then, and of the sums.
const HELD: [&str; 6] = ["", "a", "ab", "abc", "abcd", "abcde"];

const LEFT: [usize; 8] = [0, 1, 23, 24, 25, 32, 47, 48];

// Whether a row goes as expected.
fn goes(stand: &mut Stand, act: Act, letters: &'static str) -> bool {
    is_told(stand, &Row(act, Done, letters))
}

// Whether the file is opened as it was left, and each of its bytes has a sum then.
fn is_opened(stand: &mut Stand, held: &'static str) -> bool {
    let again = if held.is_empty() {
        "nnolomma"
    } else {
        "nnolomrmra"
    };
    goes(stand, Opens(0, 64), "")
        && goes(stand, Holds(0, held, 0), "")
        && goes(stand, Stop(0), "")
        && goes(stand, Segment(0, 64), again)
        && goes(stand, Holds(0, held, 0), "")
}

// Where the last piece ends of which so many bytes of the sums say something.
fn told_end(sums: usize) -> u64 {
    match sums / 24 {
        0 => 0,
        1 => 3,
        _ => 5,
    }
}

// Whether what is missing of the file is reported, and the file stays as it is.
fn is_missed(stand: &mut Stand, held: &'static str, told: u64) -> bool {
    let calls = if held.is_empty() {
        "nnolommr"
    } else {
        "nnolomrmr"
    };
    let missing = Missing(0, held.len() as u64, told);
    is_told(stand, &Row(Segment(0, 64), missing, calls)) && goes(stand, File(FILE, held), "")
}

// Whether a file with so many bytes of the sums is opened, or what is missing of it is reported. A
// crash leaves no sum without its piece.
fn is_right(stand: &mut Stand, held: &'static str, sums: usize) -> bool {
    let told = told_end(sums);
    goes(stand, Make, "")
        && goes(stand, Write(FILE, held), "")
        && goes(stand, Bytes(SUMS, ABC_DE, sums), "")
        && goes(stand, Open, "dnool")
        && if told > held.len() as u64 {
            is_missed(stand, held, told)
        } else {
            is_opened(stand, held)
        }
}

// The first that is not, by the bytes of both.
fn wrong_left(rt: HostRuntime) -> Option<(&'static str, usize)> {
    for held in &HELD {
        for sums in &LEFT {
            let went = match at(rt, "left") {
                Some(mut stand) => is_right(&mut stand, *held, *sums),
                None => false,
            };
            if !went {
                return Some((*held, *sums));
            }
        }
    }
    None
}

#[test]
fn what_a_crash_left_is_no_damage_and_what_was_lost_is_told(rt: HostRuntime) {
    assert_eq!(rt; cleared(rt, "left", wrong_left(rt)), None);
}

// Whether a file in which this bit is another is reported, by where its piece begins.
fn is_found(rt: HostRuntime, byte: usize, bit: u32) -> bool {
    let Some(mut stand) = at(rt, "flipped") else {
        return false;
    };
    let mut bytes = *b"abcde";
    if let Some(one) = bytes.get_mut(byte) {
        *one ^= 1u8.rotate_left(bit);
    }
    let told = Damaged(0, if byte < 3 { 0 } else { 3 });
    goes(&mut stand, Make, "")
        && fs::write(&rt, "flipped/segment-0000.bw", &bytes).is_ok()
        && goes(&mut stand, Bytes(SUMS, ABC_DE, 48), "")
        && goes(&mut stand, Open, "dnool")
        && is_told(&mut stand, &Row(Segment(0, 64), told, "nnolomrmr"))
}

// The first bit that was not found.
fn wrong_bit(rt: HostRuntime) -> Option<(&'static str, usize)> {
    for byte in 0..5usize {
        for bit in 0..8u32 {
            if !is_found(rt, byte, bit) {
                return Some(("bit", byte * 8 + bit as usize));
            }
        }
    }
    None
}

#[test]
fn each_changed_bit_is_found(rt: HostRuntime) {
    assert_eq!(rt; cleared(rt, "flipped", wrong_bit(rt)), None);
}
