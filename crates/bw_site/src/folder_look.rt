//! A look at a folder before a store begins there, or is upgraded: what that would be refused is
//! refused before anything is written.

ghost use Rattle.bw_care.specs.Views.{IsSound};

use crate::beginning::beginning_of;
use crate::fault::HomeFault;
use crate::site::{count_over, desk_of, taken};
use crate::system::System;
use bw_care::recover;
use bw_codec::limits::{HEADER_LEN, MAX_FRAME};
use bw_device::{Desk, MemSegment, Segment};
use bw_file::{FolderFault, FolderReader};
use bw_log::Log;
use bw_terms::StoreFault;
use std::alloc::Global;
use std::io::ErrorKind;

/// The length of the longest segment of a log, in bytes.
fn longest_of(log: &Log) -> u64
    requires { IsSound log.now holding }
{
    let mut longest = 0u64;
    for i in 0..log.live() {
        if let Some((_, _, length)) = log.live_segment(i) {
            longest = longest.max(length);
        }
    }
    longest
}

/// The length of the longest of these segments, if a store would go on from them; 0 if it would
/// begin anew in their place.
fn would_begin(alloc: Global, boxes: Vec<Box<dyn Segment>>) -> Result<u64, HomeFault> {
    match recover(alloc, boxes) {
        Ok(found) => Ok(longest_of(&found.log)),
        Err(fault) => {
            let _ = beginning_of(fault)?;
            Ok(0)
        }
    }
}

/// The length of the longest of these copies, if a store would go on from them; 0 if it would begin
/// anew in their place. Their boxes are made here only.
fn would_go_on(alloc: Global, copies: Vec<MemSegment>) -> Result<u64, HomeFault> {
    let mut boxes: Vec<Box<dyn Segment>> = Vec::new(alloc);
    for copy in copies {
        boxes.push(Box::new(alloc, copy)?)?;
    }
    would_begin(alloc, boxes)
}

/// A copy of the file of the desk's next lease; an empty segment if that is none of these leases.
pub fn copy_of<R: System>(
    rt: &R,
    reader: &FolderReader,
    desk: &mut Desk,
    leases: &[u32],
    capacity: u64,
) -> Result<MemSegment, HomeFault> {
    let lease = taken(desk)?;
    if leases.contains(&lease.number()) {
        return match reader.copy(rt, lease, capacity) {
            Ok(copy) => Ok(copy),
            Err(refused) => Err(HomeFault::from(refused.cause)),
        };
    }
    match MemSegment::new(rt.alloc(), lease, capacity) {
        Ok(segment) => Ok(segment),
        Err(refused) => Err(HomeFault::from(refused.cause)),
    }
}

/// Copies of all segments that a store would begin with, by a desk of so many leases.
fn copies_of<R: System>(
    rt: &R,
    reader: &FolderReader,
    leases: u32,
    least: u32,
    capacity: u64,
) -> Result<Vec<MemSegment>, HomeFault> {
    let files = reader.leases(rt)?;
    let mut desk = desk_of(rt.alloc(), leases)?;
    let mut copies = Vec::new(rt.alloc());
    for _ in 0..count_over(&files, least) {
        copies.push(copy_of(rt, reader, &mut desk, &files, capacity)?)?;
    }
    Ok(copies)
}

/// Looks at the folder of this path, if there is one, and changes nothing there. It would be opened
/// with so many segments at least, of this capacity in bytes, by a desk of so many leases. Answers
/// how many bytes the longest of its live segments has; 0 if it has none.
///
/// What recovery refuses of its segments is refused, but for the beginning of a first frame.
/// Whoever opens it looks again at what is opened, so nothing hangs on what somebody else does in
/// between. It takes memory for a copy of all files, and the time of a recovery.
pub fn look<R: System>(
    rt: &R,
    path: &str,
    leases: u32,
    least: u32,
    capacity: u64,
) -> Result<u64, HomeFault> {
    let reader = match FolderReader::open(rt, path) {
        Ok(reader) => reader,
        // Whoever opens it makes it.
        Err(FolderFault::System(error)) if error.kind() == ErrorKind::NotFound => return Ok(0),
        Err(fault) => return Err(HomeFault::from(fault)),
    };
    let copies = copies_of(rt, &reader, leases, least, capacity)?;
    if copies.iter().all(|copy| copy.len() == 0) {
        return Ok(0);
    }
    would_go_on(rt.alloc(), copies)
}

/// The least capacity of a segment that is made for an upgrade, in bytes: a header and the longest
/// frame.
const LEAST: u64 = HEADER_LEN as u64 + MAX_FRAME as u64;

/// What a folder with segments of format 1 has.
#[derive(Clone, Copy)]
pub struct Old {
    /// The most bytes that a segment there has, or `LEAST`.
    pub capacity: u64,
    /// How many pages were last set in segments of format 1.
    pub pages: usize,
    /// The number of the next frame; 0 if there is none.
    pub next: u64,
}

/// The number of the last frame of the segments of format 1, or 0.
fn last_old(log: &Log) -> u64
    requires { IsSound log.now holding }
{
    let mut last = 0u64;
    for i in 0..log.live() {
        if log.live_version(i) == Some(1) {
            last = last.max(log.live_last(i).unwrap_or(0));
        }
    }
    last
}

/// How many pages were last set in segments of format 1.
fn old_pages(log: &Log) -> usize
    requires { IsSound log.now holding }
{
    let last = last_old(log);
    let mut pages = 0usize;
    for index in 0..log.pages() {
        if let Some(place) = log.base_of(index.saturating_add(1)) {
            if place.frame <= last {
                pages = pages.saturating_add(1);
            }
        }
    }
    pages
}

/// What a log has of format 1, in segments of this capacity; refused if it has no such segment.
fn old_of(log: &Log, capacity: u64) -> Result<Old, HomeFault>
    requires { IsSound log.now holding }
{
    if log.live_version(0) != Some(1) {
        return Err(HomeFault::from(StoreFault::NothingOld));
    }
    Ok(Old {
        capacity,
        pages: old_pages(log),
        next: log.next_frame().unwrap_or(0),
    })
}

/// What the log in these segments has of format 1, in segments of this capacity; refused if it has
/// no such segment.
fn found_old(alloc: Global, boxes: Vec<Box<dyn Segment>>, capacity: u64) -> Result<Old, HomeFault> {
    match recover(alloc, boxes) {
        Ok(found) => old_of(&found.log, capacity),
        Err(fault) => Err(HomeFault::from(fault.cause)),
    }
}

/// What the log in these copies has of format 1, in segments of the greatest of their capacities.
/// Their boxes are made here only.
fn old_in(alloc: Global, copies: Vec<MemSegment>) -> Result<Old, HomeFault> {
    let mut boxes: Vec<Box<dyn Segment>> = Vec::new(alloc);
    let mut capacity = LEAST;
    for copy in copies {
        capacity = capacity.max(copy.capacity());
        boxes.push(Box::new(alloc, copy)?)?;
    }
    found_old(alloc, boxes, capacity)
}

/// Looks at the folder of this path, which has to be there, and changes nothing. What recovery
/// refuses of its segments is refused, and then a log without a segment of format 1.
pub fn look_for_old<R: System>(rt: &R, path: &str, leases: u32) -> Result<Old, HomeFault> {
    let reader = FolderReader::open(rt, path)?;
    old_in(rt.alloc(), copies_of(rt, &reader, leases, 0, LEAST)?)
}
