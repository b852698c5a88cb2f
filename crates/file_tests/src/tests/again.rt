//! The end of a file is written again when it is settled, if it has no sum: all of a short one, and
//! of a long one as many bytes as a header and the longest frame have.

use super::Watched;
use super::steps::lease_of;
use bw_file::Folder;
use std::fs;

/// A file's length, and where the write of its end goes and how many bytes it has.
const ENDS: [(usize, u64, u64); 4] = [
    (20_000, 0, 20_000),
    (262_168, 0, 262_168),
    (262_169, 1, 262_168),
    (500_000, 237_832, 262_168),
];

// Whether a file of so many bytes in this folder is there.
fn is_made(watched: &Watched, length: usize) -> bool {
    let rt = watched.rt;
    let Ok(bytes) = Vec::from_elem(rt.alloc(), 7u8, length) else {
        return false;
    };
    fs::create_dir(&rt, watched.path).is_ok()
        && fs::write(&rt, "again/segment-0000.bw", bytes.as_slice()).is_ok()
}

// What is written of it when it is settled: sums are made, the end is written, and the wait for
// that fails.
fn written(rt: HostRuntime, length: usize) -> Option<(u64, u64)> {
    let watched = Watched::new(rt, "again")?;
    if !is_made(&watched, length) {
        return None;
    }
    let mut folder = Folder::open(&watched, "again").ok()?;
    let lease = lease_of(rt.alloc(), 0)?;
    let _segment = folder.segment(&watched, lease, 600_000).ok()?;
    watched.watch.fail_after(3, 0);
    match folder.settle(&watched) {
        Ok(()) => None,
        Err(_) => Some(watched.watch.wrote()),
    }
}

// The first row that goes otherwise.
fn wrong_end(rt: HostRuntime) -> Option<(&'static str, usize)> {
    for (i, (length, at, many)) in ENDS.iter().enumerate() {
        if written(rt, *length) != Some((*at, *many)) {
            return Some(("ends", i));
        }
    }
    None
}

#[test]
fn the_end_is_written_again(rt: HostRuntime) {
    assert_eq!(rt; wrong_end(rt), None);
}
