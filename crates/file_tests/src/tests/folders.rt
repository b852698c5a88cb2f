//! The tables. A letter is a call of the system: o opens a file, d makes a folder, p looks at a
//! path, n at what has a name without following it, l takes a lock, k takes one beside other
//! readers, m asks for a length, r reads, w writes, c cuts, s waits until the bytes stand, a until
//! the length or the name stands too.

use super::steps::Act::{
    Append, Copy, Empty, Fail as Failing, File, Full, Holds, Leave, Lengthen, Link, Look,
    LookEvicted, Make, NoFile, Open, Segment, Spare, Stop, Write,
};
use super::steps::Told::{BadConfig, Done, InUse, No, NotPlain, System, TooLong};
use super::steps::{Row, Table, wrong_table};
use bw_device::MAX_CAPACITY;

/// What was appended is there again after a stop, twice, and none of it after the file was emptied.
const KEPT: &[Row] = &[
    Row(Open, Done, "doanool"),
    Row(Segment(0, 64), Done, "nnoonolnoa"),
    Row(Holds(0, "", 0), Done, ""),
    Row(Append(0, "abc"), Done, "wsw"),
    Row(Append(0, ""), Done, "s"),
    Row(File("segment-0000.bw", "abc"), Done, ""),
    Row(Holds(0, "abc", 0), Done, ""),
    Row(Leave, Done, ""),
    Row(Append(0, "d"), Done, "wsw"),
    Row(Stop(0), Done, ""),
    Row(File("segment-0000.bw", "abcd"), Done, ""),
    Row(Open, Done, "dnool"),
    Row(Segment(0, 64), Done, "nnolomrmra"),
    Row(Holds(0, "abcd", 0), Done, ""),
    Row(Append(0, "ef"), Done, "wsw"),
    Row(Stop(0), Done, ""),
    Row(Leave, Done, ""),
    Row(Open, Done, "dnool"),
    Row(Segment(0, 64), Done, "nnolomrmra"),
    Row(Holds(0, "abcdef", 0), Done, ""),
    Row(Empty(0), InUse, "nnol"),
    Row(Segment(0, 64), InUse, "nnol"),
    Row(Spare(0, 64), InUse, "nnol"),
    Row(Stop(0), Done, ""),
    Row(Empty(0), Done, "nnolocaca"),
    Row(File("segment-0000.bw", ""), Done, ""),
    Row(Segment(0, 64), Done, "nnolomma"),
];

/// Limits are looked at before any file, a length before any byte; a file may be longer than the
/// capacity that is asked for.
const LIMITS: &[Row] = &[
    Row(Open, Done, "doanool"),
    Row(Segment(0, 0), BadConfig, ""),
    Row(Segment(0, MAX_CAPACITY + 1), BadConfig, ""),
    Row(NoFile("segment-0000.bw"), Done, ""),
    Row(Write("segment-0000.bw", "abc"), Done, ""),
    Row(Spare(0, 0), BadConfig, ""),
    Row(Spare(0, MAX_CAPACITY + 1), BadConfig, ""),
    Row(File("segment-0000.bw", "abc"), Done, ""),
    Row(Segment(0, 2), Done, "nnolomrnowawa"),
    Row(Holds(0, "abc", 0), Done, ""),
    Row(Append(0, "d"), No, ""),
    Row(Append(0, ""), Done, "s"),
    Row(Stop(0), Done, ""),
    Row(Lengthen, Done, ""),
    Row(Segment(0, 64), TooLong, "nnolom"),
    Row(Spare(0, 64), Done, "nnoloacaca"),
    Row(Holds(0, "", 0), Done, ""),
];

/// A folder is open once: as long as it or a segment of it stands, and beside no reader.
const ONCE: &[Row] = &[
    Row(Look, System, "p"),
    Row(Empty(0), No, ""),
    Row(Open, Done, "doanool"),
    Row(Empty(0), System, "nno"),
    Row(NoFile("segment-0000.bw"), Done, ""),
    Row(Open, InUse, "dnool"),
    Row(Look, InUse, "pnok"),
    Row(Segment(1, 64), Done, "nnoonolnoa"),
    Row(Leave, Done, ""),
    Row(Open, InUse, "dnool"),
    Row(Look, InUse, "pnok"),
    Row(Stop(1), Done, ""),
    Row(Look, Done, "pnok"),
    Row(Look, Done, "pnok"),
    Row(Open, InUse, "dnool"),
    Row(LookEvicted, Done, ""),
    Row(Open, Done, "dnool"),
    Row(File("segment-0001.bw", ""), Done, ""),
];

/// A reader makes no file and writes none, also if the folder was never opened.
const READ: &[Row] = &[
    Row(Make, Done, ""),
    Row(Write("segment-0000.bw", "abc"), Done, ""),
    Row(Look, Done, "pno"),
    Row(Copy(0, 64, "abc"), Done, "nomrno"),
    Row(Copy(0, 1, "abc"), Done, "nomrno"),
    Row(Copy(0, 0, "abc"), BadConfig, ""),
    Row(Copy(0, MAX_CAPACITY + 1, "abc"), BadConfig, ""),
    Row(Copy(1, 64, ""), Done, "nono"),
    Row(NoFile("segment-0001.bw"), Done, ""),
    Row(NoFile("lock"), Done, ""),
    Row(Lengthen, Done, ""),
    Row(Copy(0, 64, "abc"), TooLong, "nom"),
    Row(LookEvicted, Done, ""),
    Row(Open, Done, "dnool"),
];

/// After a failed append each later one fails, in every segment of the folder and without a call,
/// until the folder is opened again: what the file kept of the piece is then there.
const CLOSED: &[Row] = &[
    Row(Open, Done, "doanool"),
    Row(Segment(0, 64), Done, "nnoonolnoa"),
    Row(Segment(1, 64), Done, "nnoonolnoa"),
    Row(Append(0, "abc"), Done, "wsw"),
    Row(Append(1, "xy"), Done, "wsw"),
    Row(Failing(0, 2), Done, ""),
    Row(Append(0, "defg"), System, "w"),
    Row(Holds(0, "abc", 1), Done, ""),
    Row(File("segment-0000.bw", "abcde"), Done, ""),
    Row(Append(0, "h"), System, ""),
    Row(Append(1, "z"), System, ""),
    Row(Append(1, ""), System, ""),
    Row(Holds(0, "abc", 2), Done, ""),
    Row(Holds(1, "xy", 2), Done, ""),
    Row(Stop(0), Done, ""),
    Row(Segment(0, 64), Done, "nnolomrmrwawa"),
    Row(Append(0, "h"), System, ""),
    Row(Stop(0), Done, ""),
    Row(Stop(1), Done, ""),
    Row(Leave, Done, ""),
    Row(Open, Done, "dnool"),
    Row(Segment(1, 64), Done, "nnolomrmra"),
    Row(Append(1, "z"), Done, "wsw"),
    Row(Holds(1, "xyz", 0), Done, ""),
];

/// A sync that fails: the copy has nothing of the piece, and the file, opened again, has it.
const UNSYNCED: &[Row] = &[
    Row(Open, Done, "doanool"),
    Row(Segment(0, 64), Done, "nnoonolnoa"),
    Row(Failing(1, 0), Done, ""),
    Row(Append(0, "abc"), System, "ws"),
    Row(Holds(0, "", 1), Done, ""),
    Row(Stop(0), Done, ""),
    Row(Leave, Done, ""),
    Row(Open, Done, "dnool"),
    Row(Segment(0, 64), Done, "nnolomrmwawa"),
    Row(Holds(0, "abc", 0), Done, ""),
];

/// A device that is full: the system's own refusal of a write.
const FULL: &[Row] = &[
    Row(Open, Done, "doanool"),
    Row(Segment(0, 64), Done, "nnoonolnoa"),
    Row(Append(0, "abc"), Done, "wsw"),
    Row(Full(true), Done, ""),
    Row(Append(0, "d"), System, "w"),
    Row(Full(false), Done, ""),
    Row(Append(0, "d"), System, ""),
    Row(Holds(0, "abc", 2), Done, ""),
    Row(File("segment-0000.bw", "abc"), Done, ""),
];

/// What is no plain file is not opened, neither to be written nor to be looked at: no link is
/// followed, also if it leads to nothing yet.
const PLAIN: &[Row] = &[
    Row(Open, Done, "doanool"),
    Row(Write("other", "abc"), Done, ""),
    Row(Link("segment-0000.bw", "other"), Done, ""),
    Row(Link("segment-0001.bw", "nothing"), Done, ""),
    Row(Segment(0, 64), NotPlain, "n"),
    Row(Segment(1, 64), NotPlain, "n"),
    Row(Spare(0, 64), NotPlain, "n"),
    Row(Empty(0), NotPlain, "n"),
    Row(Leave, Done, ""),
    Row(Look, Done, "pnok"),
    Row(Copy(0, 64, "abc"), NotPlain, "n"),
    Row(Copy(1, 64, ""), NotPlain, "n"),
    Row(LookEvicted, Done, ""),
    Row(File("other", "abc"), Done, ""),
    Row(NoFile("nothing"), Done, ""),
];

/// Nor is a lock that is none.
const NO_LOCK: &[Row] = &[
    Row(Make, Done, ""),
    Row(Link("lock", "nothing"), Done, ""),
    Row(Open, NotPlain, "dn"),
    Row(Look, NotPlain, "pn"),
    Row(NoFile("nothing"), Done, ""),
];

const APPENDED: &[Table] = &[("kept", KEPT), ("limits", LIMITS)];

const OPENED: &[Table] = &[
    ("once", ONCE),
    ("read", READ),
    ("plain", PLAIN),
    ("no-lock", NO_LOCK),
];

const REFUSED: &[Table] = &[("closed", CLOSED), ("unsynced", UNSYNCED), ("full", FULL)];

#[test]
fn what_was_appended_is_there_again(rt: HostRuntime) {
    assert_eq!(rt; wrong_table(rt, APPENDED), None);
}

#[test]
fn a_folder_is_open_once_and_a_reader_writes_nothing(rt: HostRuntime) {
    assert_eq!(rt; wrong_table(rt, OPENED), None);
}

#[test]
fn a_failed_append_closes_its_folder(rt: HostRuntime) {
    assert_eq!(rt; wrong_table(rt, REFUSED), None);
}
