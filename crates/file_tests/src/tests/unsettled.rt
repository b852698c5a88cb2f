//! Files that are opened again, and settled once what was read is taken: up to then nothing is made
//! or written, and nothing is appended.

use super::steps::Act::{
    Append, Bytes, Empty, File, Forget, Has, Holds, Leave, Make, NoFile, Open, OpenAgain, Reads,
    Segment, Settle, Spare, Stop, Write,
};
use super::steps::Told::{BadConfig, Damaged, Done, InUse, Missing, System};
use super::steps::{Row, Table, wrong_table};

const FILE: &str = "segment-0000.bw";

const SUMS: &str = "segment-0000.sum";

const SECOND: &str = "segment-0001.bw";

const ITS_SUMS: &str = "segment-0001.sum";

/// The sums of these pieces, as in `summed`.
const ABC_DE: &str = "0300000000000000f2302604a0c33bc09d16479505e235c8\
    05000000000000006968d295a462a12f95622a23a733fc5d";

const ABCDE: &str = "0500000000000000a284d75b723c1f253397b873d470b1b8";

/// The second of the first ones after a hole.
const HOLE: &str = "000000000000000000000000000000000000000000000000\
    05000000000000006968d295a462a12f95622a23a733fc5d";

/// A folder that was never open is not opened again.
const NEVER: &[Row] = &[
    Row(OpenAgain, System, "no"),
    Row(Make, Done, ""),
    Row(OpenAgain, System, "noo"),
    Row(NoFile("lock"), Done, ""),
];

/// A file whose sums say each byte is not written, and waited for only by its name.
const WHOLE: &[Row] = &[
    Row(Open, Done, "doanool"),
    Row(Segment(0, 64), Done, "nnoonolnoa"),
    Row(Append(0, "abc"), Done, "wsw"),
    Row(Stop(0), Done, ""),
    Row(Leave, Done, ""),
    Row(OpenAgain, Done, "nool"),
    Row(OpenAgain, InUse, "nool"),
    Row(Reads(0, 64), Done, "nnolomrmr"),
    Row(Reads(0, 64), InUse, "nnol"),
    Row(Holds(0, "abc", 0), Done, ""),
    Row(Settle, Done, "a"),
    Row(Append(0, "de"), Done, "wsw"),
    Row(File(FILE, "abcde"), Done, ""),
    Row(Has(SUMS, ABC_DE, 48), Done, ""),
    Row(Leave, Done, ""),
    Row(Stop(0), Done, ""),
    Row(Open, Done, "dnool"),
    Row(Segment(0, 64), Done, "nnolomrmra"),
    Row(Holds(0, "abcde", 0), Done, ""),
];

/// Nothing is appended before the folder is settled, in no segment of it and without a call; and as
/// after any append that failed, nothing is afterwards.
const EARLY: &[Row] = &[
    Row(Open, Done, "doanool"),
    Row(Segment(0, 64), Done, "nnoonolnoa"),
    Row(Append(0, "abc"), Done, "wsw"),
    Row(Stop(0), Done, ""),
    Row(Leave, Done, ""),
    Row(OpenAgain, Done, "nool"),
    Row(Reads(0, 64), Done, "nnolomrmr"),
    Row(Spare(1, 64), Done, "nnoloacaca"),
    Row(Append(1, "d"), System, ""),
    Row(Append(0, "d"), System, ""),
    Row(Holds(0, "abc", 1), Done, ""),
    Row(File(FILE, "abc"), Done, ""),
    Row(Settle, Done, "a"),
    Row(Append(0, "d"), System, ""),
    Row(Append(1, "d"), System, ""),
    Row(Holds(0, "abc", 2), Done, ""),
    Row(File(FILE, "abc"), Done, ""),
    Row(Leave, Done, ""),
    Row(Stop(0), Done, ""),
    Row(Stop(1), Done, ""),
    Row(OpenAgain, Done, "nool"),
    Row(Reads(0, 64), Done, "nnolomrmr"),
    Row(Settle, Done, "a"),
    Row(Append(0, "de"), Done, "wsw"),
];

/// What is missing is made once it is settled.
const LACKING: &[Row] = &[
    Row(Open, Done, "doanool"),
    Row(Leave, Done, ""),
    Row(Write(FILE, "abcde"), Done, ""),
    Row(OpenAgain, Done, "nool"),
    Row(Reads(0, 64), Done, "nnolomr"),
    Row(Reads(1, 64), Done, "nnoo"),
    Row(Holds(0, "abcde", 0), Done, ""),
    Row(Holds(1, "", 0), Done, ""),
    Row(NoFile(SUMS), Done, ""),
    Row(NoFile(SECOND), Done, ""),
    Row(NoFile(ITS_SUMS), Done, ""),
    Row(Settle, Done, "nowawnolnoa"),
    Row(File(FILE, "abcde"), Done, ""),
    Row(Has(SUMS, ABCDE, 24), Done, ""),
    Row(File(SECOND, ""), Done, ""),
    Row(File(ITS_SUMS, ""), Done, ""),
    Row(Append(1, "abc"), Done, "wsw"),
    Row(Append(1, "de"), Done, "wsw"),
    Row(Has(ITS_SUMS, ABC_DE, 48), Done, ""),
    Row(Empty(1), InUse, "nnol"),
    Row(Stop(1), Done, ""),
    Row(Empty(1), Done, "nnolocaca"),
];

/// Bytes without a sum are written again, and get one; sums that do not count are taken off.
const LAGGING: &[Row] = &[
    Row(Open, Done, "doanool"),
    Row(Leave, Done, ""),
    Row(Write(FILE, "abcde"), Done, ""),
    Row(Bytes(SUMS, ABC_DE, 24), Done, ""),
    Row(Write(SECOND, "abcde"), Done, ""),
    Row(Bytes(ITS_SUMS, HOLE, 48), Done, ""),
    Row(OpenAgain, Done, "nool"),
    Row(Reads(0, 64), Done, "nnolomrmr"),
    Row(Reads(1, 64), Done, "nnolomrmr"),
    Row(Has(SUMS, ABC_DE, 24), Done, ""),
    Row(Has(ITS_SUMS, HOLE, 48), Done, ""),
    Row(Settle, Done, "wawwacwa"),
    Row(File(FILE, "abcde"), Done, ""),
    Row(Has(SUMS, ABC_DE, 48), Done, ""),
    Row(File(SECOND, "abcde"), Done, ""),
    Row(Has(ITS_SUMS, ABCDE, 24), Done, ""),
];

/// A part of a sum after those that count is taken off.
const TORN: &[Row] = &[
    Row(Open, Done, "doanool"),
    Row(Leave, Done, ""),
    Row(Write(FILE, "abc"), Done, ""),
    Row(Bytes(SUMS, ABC_DE, 40), Done, ""),
    Row(OpenAgain, Done, "nool"),
    Row(Reads(0, 64), Done, "nnolomrmr"),
    Row(Settle, Done, "ca"),
    Row(Has(SUMS, ABC_DE, 24), Done, ""),
    Row(Append(0, "de"), Done, "wsw"),
    Row(Has(SUMS, ABC_DE, 48), Done, ""),
];

/// What does not fit its sums, or is not there though they speak of it, is not opened, and stays.
const UNFIT: &[Row] = &[
    Row(Open, Done, "doanool"),
    Row(Leave, Done, ""),
    Row(Write(FILE, "abXde"), Done, ""),
    Row(Bytes(SUMS, ABC_DE, 48), Done, ""),
    Row(Bytes(ITS_SUMS, ABC_DE, 24), Done, ""),
    Row(OpenAgain, Done, "nool"),
    Row(Reads(0, 64), Damaged(0, 0), "nnolomrmr"),
    Row(Reads(1, 64), Missing(1, 0, 3), "nnoomr"),
    Row(Reads(0, 0), BadConfig, ""),
    Row(File(FILE, "abXde"), Done, ""),
    Row(NoFile(SECOND), Done, ""),
    Row(Has(ITS_SUMS, ABC_DE, 24), Done, ""),
];

/// What is let go is locked by nobody, and nothing is appended to it.
const FORGOTTEN: &[Row] = &[
    Row(Open, Done, "doanool"),
    Row(Leave, Done, ""),
    Row(Write(FILE, "abc"), Done, ""),
    Row(OpenAgain, Done, "nool"),
    Row(Reads(0, 64), Done, "nnolomr"),
    Row(Empty(0), InUse, "nnol"),
    Row(Forget, Done, ""),
    Row(Append(0, "d"), System, ""),
    Row(NoFile(SUMS), Done, ""),
    Row(Empty(0), Done, "nnolocaca"),
    Row(File(FILE, ""), Done, ""),
];

const OPENED: &[Table] = &[
    ("never", NEVER),
    ("whole-again", WHOLE),
    ("lacking", LACKING),
    ("lagging", LAGGING),
    ("torn", TORN),
];

const REFUSED: &[Table] = &[("early", EARLY), ("unfit", UNFIT), ("forgotten", FORGOTTEN)];

#[test]
fn what_is_opened_again_is_written_only_once_it_is_settled(rt: HostRuntime) {
    assert_eq!(rt; wrong_table(rt, OPENED), None);
}

#[test]
fn nothing_is_appended_before_all_is_settled(rt: HostRuntime) {
    assert_eq!(rt; wrong_table(rt, REFUSED), None);
}
