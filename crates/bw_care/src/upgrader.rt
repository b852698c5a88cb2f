//! An upgrade: the pages that were last set in segments of version 1 are written again, and all of
//! these segments are given up.
//!
//! What is written now has version 2, so the segments of version 1 are the oldest ones, and
//! recovery refuses any other order. They go oldest first, each once nothing that is read stands in
//! it. A stop in between leaves younger ones of version 1: they are lawful, and the next call goes
//! on.

ghost use Rattle.std.specs.Prelude.{◌≡◌, ◌<◌, ◌≤◌, ◌↔◌, ℕ, Some, Err, true, false, length, take, slice_get, IfOk, IfErr, IfSome, IsErrOf};
ghost use Rattle.bw_log.specs.Contents.{counted, KeepsLeaves};
ghost use Rattle.bw_log.specs.Oldest.{IsAfter, last_number};
ghost use Rattle.bw_log.specs.Places.{base_of};
ghost use Rattle.bw_log.specs.Reads.{IsPage};
ghost use Rattle.bw_care.specs.Upgrading.{old_segments, last_among, GivenInTurn, GivenUp, IsUpgraded, RefusesUpgrade};
ghost use Rattle.bw_care.specs.Views.{seen, IsSound};

use crate::copies::nothing;
use crate::fault::CleanFault;
use crate::moves::{move_all, old_pages};
use bw_device::Segment;
use bw_log::{Log, LogFault};
use std::alloc::Global;

/// What an upgrade did.
#[derive(Debug, Clone, Copy, PartialEq, Eq)]
pub struct Upgraded {
    /// How many segments were given up.
    pub segments: u32,
    /// How many pages were written again.
    pub pages: usize,
    /// In how many frames, only those of the upgrade.
    pub frames: u64,
}

/// How many of the live segments have version 1: they are the oldest ones. No memory is taken. Time
/// is that of a look at each of them.
pub fn old_segments(log: &Log) -> u32
    requires { IsSound log.now holding }
    ensures { result ≡ old_segments (seen log.now holding) }
{
    for i in 0..log.live() {
        let Some(version) = log.live_version(i) else {
            unreachable!();
        };
        if version != 1 {
            return i;
        }
    }
    log.live()
}

// The greatest number of a counted frame in the first so many live segments, or 0.
fn last_among(log: &Log, count: u32) -> u64
    requires sound { IsSound log.now holding }
    requires inside { count ≤ length (seen log.now holding).live }
    ensures { result
        ≡ last_among (seen log.now holding) (take count (seen log.now holding).live) }
{
    let mut last: u64 = 0;
    for i in 0..count {
        let Some(number) = log.live_last(i) else {
            unreachable!();
        };
        if last < number {
            last = number;
        }
    }
    last
}

// Gives up the first so many live segments, in which no page's last setting block stands.
fn give_up(log: &mut Log, count: u32)
    requires sound { IsSound log.old holding }
    requires works { (seen log.old holding).is_failed ≡ false }
    requires more { count < length (seen log.old holding).live }
    requires bases { (i page : ℕ) → i < count → IsPage (seen log.old holding) page
        → IfSome (slice_get (seen log.old holding).live i) (λ h.
        IsAfter (last_number (seen log.old holding) h)
        (base_of page (counted (seen log.old holding)))) }
    ensures sound { IsSound log.new holding }
    ensures given_up { GivenUp count (seen log.old holding) (seen log.new holding) }
    ensures in_turn { GivenInTurn count (seen log.old holding) }
    ensures stands { KeepsLeaves (seen log.old holding) (seen log.new holding) }
{
    let mut given = 0;
    while given < count {
        log.give_up_oldest();
        given += 1;
    }
}

/// Gives up all live segments of version 1, once each page that was last set in one of them is
/// written again. A frame is counted.
///
/// Each such page is read back and written as one Base, by ascending page, as many to a frame as
/// fit; such a frame may take the last spare. Then the boxes of version 1 are dropped, the oldest
/// first, so their leases come back. At each point between two drops the counted frames stand for
/// what they stood for.
///
/// E11 comes first, exactly if no live segment has version 1, then E7, exactly if the log is
/// Failed. Then E8 if a frame is wanted and has no number, E1, E5 if no spare is left, and E6. A
/// refusal part-way keeps the frames already written, drops no box and changes no page. After E1,
/// E5 and a failed read it may be called again; if an append failed, the log is Failed.
///
/// It costs a look at each page's line in memory and four bytes for each page that is written
/// again, and of each what `read_page` costs. Then come the bytes of the new frames, and a pass
/// over the lines of all counted frames for each segment that is given up.
pub fn upgrade(alloc: Global, log: &mut Log) -> Result<Upgraded, CleanFault>
    requires sound { IsSound log.old holding }
    requires some { 0 < length (counted (seen log.old holding)) }
    ensures sound { IsSound log.new holding }
    // Segments of version 1 are looked for first, then it is asked whether the log failed.
    ensures nothing_old { IsErrOf result CleanFault.NothingOld
        ↔ (old_segments (seen log.old holding) ≡ 0) }
    ensures failed { IsErrOf result (CleanFault.Log LogFault.Failed)
        ↔ ((1 ≤ old_segments (seen log.old holding))
        × ((seen log.old holding).is_failed ≡ true)) }

    ensures none_left { IfOk result (λ _. old_segments (seen log.new holding) ≡ 0) }

    ensures upgraded { IfOk result (λ upgraded.
        IsUpgraded (seen log.old holding) upgraded (seen log.new holding)) }
    ensures refused { IfErr result (λ fault.
        RefusesUpgrade fault (seen log.old holding) (seen log.new holding)) }

    // Whatever is answered, the counted frames stand for the leaves for which they stood.
    ensures stands { KeepsLeaves (seen log.old holding) (seen log.new holding) }
{
    let segments = old_segments(log);
    if segments == 0 {
        return Err(CleanFault::NothingOld);
    }
    if log.is_failed() {
        return Err(CleanFault::Log(LogFault::Failed));
    }
    let pages = match old_pages(alloc, log, last_among(log, segments)) {
        Ok(pages) => pages,
        Err(_) => return Err(CleanFault::Log(LogFault::NoMemory)),
    };
    let frames = match move_all(alloc, log, &nothing(alloc), pages.as_slice()) {
        Ok(frames) => frames,
        Err(fault) => return Err(CleanFault::Log(fault)),
    };
    give_up(log, segments);
    Ok(Upgraded {
        segments,
        pages: pages.len(),
        frames,
    })
}
