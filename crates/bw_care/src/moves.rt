//! The steps of a cleaning.
//!
//! A refusal may come between any two frames, and a stop inside of one. So each frame by itself
//! changes no page: it says whole what older blocks say, and whoever stops after it has pages that
//! are read from two places and are the same from both. Only once all of them are out does the
//! segment go.

ghost use Rattle.std.specs.Prelude.{◌≡◌, ◌≢◌, ◌+◌, ◌^◌, ◌<◌, ◌≤◌, ℕ, [], take, drop, length, false, Err, IfOk, IfErr, IfSome};
ghost use Rattle.std.specs.List.{AllByRecursion};
ghost use Rattle.bw_buffer.specs.Filling.{frame_of};
ghost use Rattle.bw_log.specs.Reads.{HoldsPage, IsPage, ReadStops};
ghost use Rattle.bw_care.specs.Ahead.{AreSpots, IsBaseOf, Puts};
ghost use Rattle.bw_care.specs.Cleaning.{is_old, old_pages, oldest_last, pages_upto};
ghost use Rattle.bw_care.specs.Moving.{AreBases, HoldsSome, IsFull, IsNextBehind, IsReason, Moved, MovedBehind, Refused, Stopped, StoppedBehind};
ghost use Rattle.bw_care.specs.Views.{seen, IsSound};

use crate::copies::{Ahead, read_ahead};
use bw_buffer::Buffer;
use bw_codec::{Block, Place};
use bw_device::Segment;
use bw_log::{Log, LogFault};
use std::alloc::{AllocError, Global};

/// Whether a place, if there is one, stands in the frames up to this one.
pub(crate) fn is_old(last: u64, place: Option<Place>) -> bool
    ensures { result ≡ is_old last place }
{
    match place {
        Some(place) => place.frame <= last,
        None => false,
    }
}

/// The number of the last frame in the oldest segment, or 0 if it has none.
pub(crate) fn last_old(log: &Log) -> u64
    requires sound { IsSound log.now holding }
    requires some { 0 < length (seen log.now holding).live }
    ensures { result ≡ oldest_last (seen log.now holding) (seen log.now holding).live }
{
    match log.oldest() {
        Some((_, last)) => last,
        None => 0,
    }
}

/// The pages whose last setting block stands in the frames up to this one, ascending. It looks at
/// each page once, in memory.
pub(crate) fn old_pages(alloc: Global, log: &Log, last: u64) -> Result<Vec<u32>, AllocError>
    requires { IsSound log.now holding }
    ensures { IfOk result (λ pages. pages.items ≡ pages_upto last (seen log.now holding)) }
{
    let mut pages = Vec::new(alloc);
    for index in 0..log.pages() {
        let page = index + 1;
        if is_old(last, log.base_of(page)) {
            pages.push(page)?;
        }
    }
    Ok(pages)
}

// Puts a page's Base into the buffer, a copy of its bytes if they were found, and answers whether
// there was room for it.
fn put_page(
    log: &mut Log,
    found: Option<&[u8]>,
    buffer: &mut Buffer,
    page: u32,
) -> Result<bool, LogFault>
    requires sound { IsSound log.old holding }
    requires page { IsPage (seen log.old holding) page }
    requires found { IfSome found (λ piece. IsBaseOf (seen log.old holding) page piece.now) }
    requires unsealed { buffer.old.is_sealed ≡ false }
    ensures sound { IsSound log.new holding }
    ensures put { IfOk result (λ fits.
        Puts (seen log.old holding) page buffer.old fits buffer.new) }
    ensures stops { ReadStops (HoldsPage (seen log.old holding) page)
        (seen log.old holding) result (seen log.new holding) }
    ensures paged { result ≢ Err LogFault.NoPage }
{
    // A buffer that is not sealed refuses only for want of room.
    match found {
        Some(bytes) => Ok(buffer.put_base(bytes, page).is_ok()),
        None => {
            let leaf = log.read_page(page)?;
            let block = [Block::Base(leaf)];
            Ok(buffer.put_all(&block).is_ok())
        }
    }
}

/// Puts pages, one or more, into an empty buffer as Bases, as many as fit, and answers how many. Of
/// what was found ahead, the spots from an index on are theirs.
fn fill(
    log: &mut Log,
    ahead: &Ahead,
    from: usize,
    buffer: &mut Buffer,
    pages: &[u32],
) -> Result<usize, LogFault>
    requires sound { IsSound log.old holding }
    requires some { 0 < length pages.now }
    requires pages { AllByRecursion (IsPage (seen log.old holding)) pages.now }
    requires ahead { AreSpots (seen log.old holding)
        ahead.now.bytes.items (drop from ahead.now.spots.items) pages.now }
    requires few { from + length pages.now < 2 ^ 64 }
    requires limit { buffer.old.limit ≡ (seen log.old holding).f }
    requires empty { buffer.old.blocks ≡ [] }
    requires unsealed { buffer.old.is_sealed ≡ false }
    ensures sound { IsSound log.new holding }
    ensures filled { IfOk result (λ n. (0 < n) × (n ≤ length pages.now)
        × (buffer.new ≡ record buffer.old { blocks = buffer.new.blocks })
        × AreBases (seen log.old holding) buffer.new.blocks (take n pages.now)
        × IsFull (seen log.old holding) (frame_of buffer.new) (drop n pages.now)) }
    ensures stops { ReadStops (HoldsSome (seen log.old holding) pages.now)
        (seen log.old holding) result (seen log.new holding) }
    ensures paged { result ≢ Err LogFault.NoPage }
{
    for at in 0..pages.len() {
        let fits = put_page(log, ahead.base(from + at), buffer, pages[at])?;
        if !fits {
            return Ok(at);
        }
    }
    Ok(pages.len())
}

/// Writes one frame of as many of the pages as fit, and answers how many. Of what was found ahead,
/// the spots from an index on are theirs.
fn move_some(
    alloc: Global,
    log: &mut Log,
    ahead: &Ahead,
    from: usize,
    pages: &[u32],
) -> Result<usize, LogFault>
    requires sound { IsSound log.old holding }
    requires works { (seen log.old holding).is_failed ≡ false }
    requires some { 0 < length pages.now }
    requires pages { AllByRecursion (IsPage (seen log.old holding)) pages.now }
    requires ahead { AreSpots (seen log.old holding)
        ahead.now.bytes.items (drop from ahead.now.spots.items) pages.now }
    requires few { from + length pages.now < 2 ^ 64 }
    ensures sound { IsSound log.new holding }
    ensures some { IfOk result (λ n. (0 < n) × (n ≤ length pages.now)) }
    ensures moved { (last : ℕ) → IsNextBehind last (seen log.old holding)
        → IfOk result (λ n. MovedBehind last (seen log.old holding) (seen log.new holding)
        (take n pages.now) (drop n pages.now) 1) }
    ensures refused { IfErr result (λ fault.
        Refused fault (seen log.old holding) (seen log.new holding)) }
    ensures reason { IfErr result (λ fault. IsReason fault (seen log.old holding) pages.now) }
{
    let Some(number) = log.next_frame() else {
        return Err(LogFault::Spent);
    };
    let mut buffer = Buffer::new(alloc, number, log.limit())?;
    let count = fill(log, ahead, from, &mut buffer, pages)?;
    buffer.seal();
    // The bytes show the proof that the frame is no longer than the limit.
    let _ = buffer.bytes();
    log.append_care(&buffer)?;
    Ok(count)
}

/// Writes all the pages again, those that were found ahead as copies.
pub(crate) fn move_all(
    alloc: Global,
    log: &mut Log,
    ahead: &Ahead,
    pages: &[u32],
) -> Result<u64, LogFault>
    requires sound { IsSound log.old holding }
    requires works { (seen log.old holding).is_failed ≡ false }
    requires pages { AllByRecursion (IsPage (seen log.old holding)) pages.now }
    requires ahead { AreSpots (seen log.old holding)
        ahead.now.bytes.items ahead.now.spots.items pages.now }
    ensures sound { IsSound log.new holding }
    ensures moved { (last : ℕ) → IsNextBehind last (seen log.old holding)
        → IfOk result (λ frames. MovedBehind last (seen log.old holding) (seen log.new holding)
        pages.now [] frames) }
    ensures refused { (last : ℕ) → IsNextBehind last (seen log.old holding)
        → IfErr result (λ fault. StoppedBehind last (seen log.old holding) pages.now fault
        (seen log.new holding)) }
{
    let mut frames = 0;
    let mut at = 0;
    while at < pages.len() {
        at += move_some(alloc, log, ahead, at, &pages[at..])?;
        frames += 1;
    }
    Ok(frames)
}

/// Writes all the pages again, in frames of as many as fit, and answers how many frames.
pub(crate) fn move_pages(alloc: Global, log: &mut Log, pages: &[u32]) -> Result<u64, LogFault>
    requires sound { IsSound log.old holding }
    requires works { (seen log.old holding).is_failed ≡ false }
    requires some { 0 < length (seen log.old holding).live }
    requires pages { pages.now ≡ old_pages (seen log.old holding) }
    ensures sound { IsSound log.new holding }
    ensures moved { IfOk result (λ frames. Moved (seen log.old holding) (seen log.new holding)
        (old_pages (seen log.old holding)) [] frames) }
    ensures refused { IfErr result (λ fault.
        Stopped (seen log.old holding) fault (seen log.new holding)) }
{
    let ahead = read_ahead(alloc, log, pages)?;
    move_all(alloc, log, &ahead, pages)
}
