//! Which leases have a file, or only sums: by the names of the files only.

use super::steps::Act::{Listed, Write};
use super::steps::Told::Done;
use super::steps::{Row, Table, wrong_table};
use bw_file::{Folder, FolderReader};

/// Names of four leases, one of which has only sums, of none of a desk's, and of other files.
const LISTED: &[Row] = &[
    Row(Listed(&[]), Done, ""),
    Row(Write("segment-0007.bw", ""), Done, ""),
    Row(Write("segment-4095.bw", ""), Done, ""),
    Row(Write("segment-0000.bw", ""), Done, ""),
    Row(Write("segment-4096.bw", ""), Done, ""),
    Row(Write("segment-12.bw", ""), Done, ""),
    Row(Write("segment-00012.bw", ""), Done, ""),
    Row(Write("segment-+012.bw", ""), Done, ""),
    Row(Write("segment-0003.bw.old", ""), Done, ""),
    Row(Write("Segment-0004.bw", ""), Done, ""),
    Row(Write("segment-0005", ""), Done, ""),
    Row(Write("notes", ""), Done, ""),
    Row(Write("segment-0009.sum", ""), Done, ""),
    Row(Write("segment-09.sum", ""), Done, ""),
    Row(Write("segment-0010.sums", ""), Done, ""),
    Row(Listed(&[0, 7, 9, 4095]), Done, ""),
];

const TABLES: &[Table] = &[("listed", LISTED)];

// The leases with a file, by a folder that is open, or by one that is only looked at.
fn leases_of(rt: &HostRuntime, path: &str, looks: bool) -> Option<Vec<u32>> {
    if looks {
        FolderReader::open(rt, path).ok()?.leases(rt).ok()
    } else {
        Folder::open(rt, path).ok()?.leases(rt).ok()
    }
}

/// Whether there are files for these leases, by both.
pub(super) fn are_listed(rt: &HostRuntime, path: &str, told: &[u32]) -> bool {
    for looks in [false, true] {
        match leases_of(rt, path, looks) {
            Some(leases) if leases.as_slice() == told => {}
            _ => return false,
        }
    }
    true
}

#[test]
fn the_leases_with_a_file_are_listed(rt: HostRuntime) {
    assert_eq!(rt; wrong_table(rt, TABLES), None);
}
