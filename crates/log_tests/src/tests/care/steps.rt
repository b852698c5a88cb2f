//! Calls on logs that were recovered from worked segments, walked to the first that goes otherwise
//! than expected.

ghost use Rattle.bw_log.specs.Views.{IsSound as IsSoundBeside};
ghost use Rattle.test_boxes.specs.Views.{IsSound};

use super::boxes::{Yard, add_kept, empty_yard, taken_out};
use bw_care::{CleanFault, Cleaned, Upgraded, clean, recover, upgrade};
use bw_device::Segment;
use bw_log::Log;
use std::alloc::Global;
use test_boxes::{Fuse, Kept, LEAST, NEVER, are_bytes, is_added, is_page};
use test_kit::tables::Table;

/// One call on a log, with what it has to answer.
#[derive(Drop)]
pub(super) enum Step {
    /// A cleaning: the segment given up, its lease, how many pages, in how many frames. The lease
    /// comes back.
    Cleans(u64, u32, usize, u64),
    /// No lease comes back.
    NotCleaned(CleanFault),
    /// An upgrade: how many segments were given up, how many pages were written, in how many
    /// frames. As many leases come back.
    Upgrades(u32, usize, u64),
    /// No lease comes back.
    NotUpgraded(CleanFault),
    /// A page as `shown`.
    Page(u32, &'static str),
    /// The bytes of a live segment.
    Bytes(u64, &'static str),
    /// The formats of the live segments, and the last frame of each, or 0.
    Versions(&'static [(u16, u64)]),
    /// How many segments are live, how many spares stand, and the next frame's number.
    Stands(u32, u32, u64),
    /// A segment more.
    Add,
}

use Step::{Add, Bytes, Cleans, NotCleaned, NotUpgraded, Page, Stands, Upgrades, Versions};

/// What a cleaning says.
pub(super) fn cleaned(segment: u64, lease: u32, pages: usize, frames: u64) -> Cleaned {
    Cleaned {
        segment,
        lease,
        pages,
        frames,
    }
}

/// Whether a cleaning answers as expected.
pub(super) fn cleans(alloc: Global, log: &mut Log, told: Result<Cleaned, CleanFault>) -> bool
    requires { IsSound log.old holding }
    ensures { IsSound log.new holding }
{
    clean(alloc, log) == told
}

// Whether an upgrade answers as expected.
fn upgrades(alloc: Global, log: &mut Log, told: Result<Upgraded, CleanFault>) -> bool
    requires { IsSound log.old holding }
    ensures { IsSound log.new holding }
{
    if log.next_frame() == Some(1) {
        return false;
    }
    upgrade(alloc, log) == told
}

// Whether the live segments have these formats and last frames.
fn are_versions(log: &Log, told: &[(u16, u64)]) -> bool
    requires { IsSound log.now holding }
{
    if log.live() as usize != told.len() || log.live_version(log.live()).is_some() {
        return false;
    }
    for (i, (version, last)) in told.iter().enumerate() {
        if log.live_version(i as u32) != Some(*version) || log.live_last(i as u32) != Some(*last) {
            return false;
        }
    }
    log.live_last(log.live()).is_none()
}

fn goes(yard: &mut Yard, log: &mut Log, step: &Step) -> bool
    requires { IsSoundBeside holding log.old }
    ensures { IsSoundBeside holding log.new }
{
    let alloc = yard.alloc;
    match step {
        Cleans(segment, lease, pages, frames) => {
            let told = cleaned(*segment, *lease, *pages, *frames);
            cleans(alloc, log, Ok(told)) && yard.desk.collect() == 1
        }
        NotCleaned(fault) => cleans(alloc, log, Err(*fault)) && yard.desk.collect() == 0,
        Upgrades(segments, pages, frames) => {
            let told = Upgraded {
                segments: *segments,
                pages: *pages,
                frames: *frames,
            };
            upgrades(alloc, log, Ok(told)) && yard.desk.collect() == *segments
        }
        NotUpgraded(fault) => upgrades(alloc, log, Err(*fault)) && yard.desk.collect() == 0,
        Page(page, text) => is_page(log, *page, text),
        Bytes(segment, hex) => are_bytes(alloc, log, *segment, *hex),
        Versions(told) => are_versions(log, *told),
        Stands(live, spares, next) => {
            log.live() == *live && log.spares() == *spares && log.next_frame() == Some(*next)
        }
        Add => is_added(log, &mut yard.boxes),
    }
}

// The first step that did not go as expected.
fn wrong_step(yard: &mut Yard, log: &mut Log, steps: &[Step]) -> Option<usize>
    requires { IsSoundBeside holding log.old }
{
    for (i, step) in steps.iter().enumerate() {
        if !goes(yard, log, step) {
            return Some(i);
        }
    }
    None
}

// The first step that did not go as expected over what is recovered from boxes.
fn wrong_over(
    alloc: Global,
    yard: &mut Yard,
    boxes: Vec<Box<dyn Segment>>,
    steps: &[Step],
) -> Option<usize> {
    match recover(alloc, boxes) {
        Ok(mut found) => wrong_step(yard, &mut found.log, steps),
        Err(_) => Some(0),
    }
}

// The first step that did not go as expected over segments and spares, of which one fails so, with
// one more box in the yard.
fn wrong_in(yard: &mut Yard, kept: &[Kept], fuse: Fuse, steps: &[Step]) -> Option<usize> {
    let alloc = yard.alloc;
    if !add_kept(yard, fuse, kept) {
        return Some(0);
    }
    match taken_out(yard, LEAST) {
        Some(boxes) => wrong_over(alloc, yard, boxes, steps),
        None => Some(0),
    }
}

/// The first step that did not go as expected over what is recovered from segments and spares, of
/// which one fails so, with one more box in the yard.
pub(super) fn walked(alloc: Global, kept: &[Kept], fuse: Fuse, steps: &[Step]) -> Option<usize> {
    match empty_yard(alloc, 8) {
        Some(mut yard) => wrong_in(&mut yard, kept, fuse, steps),
        None => Some(0),
    }
}

/// Segments and spares, and how what is recovered from them goes.
pub(super) struct Course(pub(super) &'static [Kept], pub(super) &'static [Step]);

impl Table for Course {
    fn wrong_step(&self, alloc: Global) -> Option<usize> {
        walked(alloc, self.0, NEVER, self.1)
    }
}
