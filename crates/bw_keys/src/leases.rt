//! How many segments a run over a folder may have.

use bw_device::MAX_LEASES;
use bw_file::{FolderFault, FolderReader};
use bw_home::System;

/// How many there may be in memory, and in a folder whose last file has a name far above the
/// others.
pub const FEW: u32 = 64;

/// How many files a run makes at most for leases below one that has a file.
const MOST_MADE: u32 = 256;

/// The leases of a folder that have a file.
fn leases_there<R: System>(rt: &R, dir: &str) -> Result<Vec<u32>, FolderFault> {
    FolderReader::open(rt, dir)?.leases(rt)
}

/// Whether a run over these leases would make too many files.
fn are_far(leases: &[u32]) -> bool {
    let wanted = leases.last().map_or(0, |last| last.saturating_add(1));
    let made = u64::from(wanted).saturating_sub(leases.len() as u64);
    made > u64::from(MOST_MADE)
}

/// How many leases there are for a run that writes a folder.
///
/// A run begins with a segment for each lease up to the last that has a file. If that would make
/// more than 256 files there are 64 leases, so the run is refused: no name of a file that was only
/// read makes thousands of others. A folder that cannot be read has all of them here.
pub fn leases_of<R: System>(rt: &R, dir: &str) -> u32 {
    match leases_there(rt, dir) {
        Ok(leases) if are_far(leases.as_slice()) => FEW,
        _ => MAX_LEASES,
    }
}
