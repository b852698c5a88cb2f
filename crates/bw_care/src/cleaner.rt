//! Cleaning: the pages that were last set in the oldest segment are written again, and its box is
//! dropped.
//!
//! The order is all of it. Each page stands in a later frame before the segment goes: the other way
//! round, a stop in between would lose pages. The frames of a cleaning may take the last spare, and
//! no other frame may: were it taken by a flush, a log that is full could never win room again.

ghost use Rattle.std.specs.Prelude.{◌≡◌, ◌<◌, ◌≤◌, ◌↔◌, Some, Err, true, length, IfOk, IfErr, IsErrOf};
ghost use Rattle.bw_log.specs.Contents.{KeepsLeaves};
ghost use Rattle.bw_care.specs.Moving.{IsCleaned, Refuses};
ghost use Rattle.bw_care.specs.Views.{seen, IsSound};

use crate::fault::CleanFault;
use crate::moves::{last_old, move_pages, old_pages};
use bw_device::Segment;
use bw_log::{Log, LogFault};
use std::alloc::Global;

/// What a cleaning did.
#[derive(Debug, Clone, Copy, PartialEq, Eq)]
pub struct Cleaned {
    /// The number of the segment that was given up.
    pub segment: u64,
    /// Its box's lease.
    pub lease: u32,
    /// How many pages were written again.
    pub pages: usize,
    /// In how many frames, only those of the cleaning.
    pub frames: u64,
}

/// Gives up the oldest live segment, once each page that was last set there is written again.
///
/// A page is *old* if its last setting block (its Base, or the Split that made it) stands in the
/// oldest segment. Each old page is read back and written as one Base, by ascending page, as many
/// to a frame as fit; such a frame may take the last spare. Then the oldest box is dropped, so its
/// lease comes back.
///
/// E11 comes first, exactly if fewer than two segments are live, then E7, exactly if the log is
/// Failed. Then E8 if a frame is wanted and has no number, E1, E5 if no spare is left, and E6. A
/// refusal part-way keeps the frames already written, drops no box and changes no page. After E1,
/// E5 and a failed read it may be called again; if an append failed, the log is Failed.
///
/// It costs a look at each page's line in memory, and four bytes for each old page. If a page is
/// old, the oldest segment is read once. An old page whose last block of all is its Base there is
/// copied as the bytes of this Base. If there are others whose last block stands there, the segment
/// is decoded once, and these are spelled again after its bytes. The segment's bytes stand in
/// memory until all pages are written, with sixteen more for each old page and the bytes of those
/// spelled; while it is decoded, so do all the pages that it touches.
///
/// An old page that a later frame touches costs what `read_page` does: each frame with a block of
/// that page since its last setting one is read whole. So does each old page of a segment of more
/// than 16 MiB, or if memory for reading ahead is refused. Then come the bytes of the new frames.
pub fn clean(alloc: Global, log: &mut Log) -> Result<Cleaned, CleanFault>
    requires { IsSound log.old holding }
    ensures sound { IsSound log.new holding }
    // Too few segments are looked at first, then a log that failed.
    ensures nothing_old { IsErrOf result CleanFault.NothingOld
        ↔ (length (seen log.old holding).live < 2) }
    ensures failed { IsErrOf result (CleanFault.Log LogFault.Failed)
        ↔ ((2 ≤ length (seen log.old holding).live) × ((seen log.old holding).is_failed ≡ true)) }

    ensures cleaned { IfOk result (λ cleaned.
        IsCleaned (seen log.old holding) cleaned (seen log.new holding)) }
    ensures refused { IfErr result (λ fault.
        Refuses fault (seen log.old holding) (seen log.new holding)) }

    // Whatever is answered, the counted frames stand for the leaves for which they stood.
    ensures stands { KeepsLeaves (seen log.old holding) (seen log.new holding) }
{
    if log.live() < 2 {
        return Err(CleanFault::NothingOld);
    }
    if log.is_failed() {
        return Err(CleanFault::Log(LogFault::Failed));
    }
    let Some((segment, lease, _)) = log.live_segment(0) else {
        unreachable!();
    };
    let pages = match old_pages(alloc, log, last_old(log)) {
        Ok(pages) => pages,
        Err(_) => return Err(CleanFault::Log(LogFault::NoMemory)),
    };
    let frames = match move_pages(alloc, log, pages.as_slice()) {
        Ok(frames) => frames,
        Err(fault) => return Err(CleanFault::Log(fault)),
    };
    log.give_up_oldest();
    Ok(Cleaned {
        segment,
        lease,
        pages: pages.len(),
        frames,
    })
}
