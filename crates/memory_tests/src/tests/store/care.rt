//! Recovery, the cleaner, and a log that is read, over worked segments.

ghost use Rattle.bw_care.specs.Views.{IsSound};
ghost use Rattle.bw_log.specs.Views.{IsSound as IsSoundBeside};

use super::boxes::{Supply, supplied};
use super::recovering::{found_in, recovered, warmed};
use bw_care::{CleanFault, Cleaned, Upgraded, clean, upgrade};
use bw_device::Segment;
use bw_log::{Log, LogFault};
use std::alloc::Global;
use std::sync::Wait;
use std::thread::Threads;
use test_kit::marks::{begin, end};
use test_kit::refusals::{Row, Try, then, tried, wrong_row};
use test_kit::vectors::{
    OLD_THIRD_LAST, OLD_THIRD_LOST, OLD_THIRD_OLDER, THIRD_LAST, THIRD_LOST, THIRD_NEWER,
    THIRD_OLDER, UPGRADED_LAST, shows, spells,
};

/// One call over the three segments of the third vector before its cleaning and a spare, or one of
/// only boxes.
#[derive(Drop)]
enum Call {
    /// Only recovery: the page is right.
    Recover,
    Clean,
    /// Over the three segments in format 1.
    Upgrade,
    ReadPage,
    Dump,
    /// A box more is a spare.
    Add,
    /// What an append of so many bytes wants is there, for the cleaner's too.
    Ready(bool),
    /// A log of two empty boxes.
    New,
}

/// What a cleaning of the three segments says.
const TOLD: Cleaned = Cleaned {
    segment: 1,
    lease: 0,
    pages: 1,
    frames: 1,
};

/// Whether the segment of this number holds this.
fn holds(alloc: Global, log: &mut Log, segment: u64, told: &str) -> bool
    requires { IsSound log.old holding }
    ensures { IsSound log.new holding }
{
    let mut bytes = Vec::new(alloc);
    match log.dump(segment, &mut bytes) {
        Ok(found) => found && spells(&bytes, told.as_bytes()),
        Err(_) => false,
    }
}

fn is_memory(fault: CleanFault) -> bool {
    fault == CleanFault::Log(LogFault::NoMemory)
}

/// How many segments are live, the bytes of the newest, and how many spares stand.
fn picture(log: &Log) -> (u32, Option<(u64, u32, u64)>, u32)
    requires { IsSound log.now holding }
{
    (
        log.live(),
        log.live_segment(log.live().saturating_sub(1)),
        log.spares(),
    )
}

/// One try of a cleaning: if it is refused, no box is dropped, and no more than its frame stands.
fn cleans(alloc: Global, log: &mut Log) -> Option<Try>
    requires { IsSound log.old holding }
    ensures { IsSound log.new holding }
{
    begin(alloc);
    let answer = clean(alloc, log);
    let refused = end(alloc);
    let now = picture(log);
    match answer {
        Ok(cleaned) => {
            let holds = holds(alloc, log, 3, THIRD_NEWER);
            let is_so = cleaned == TOLD && now == (2, Some((3, 2, 107)), 1);
            tried(true, refused, is_so & holds)
        }
        Err(fault) => {
            let holds = holds(alloc, log, 3, THIRD_LAST);
            let is_left = now == (3, Some((3, 2, 69)), 1);
            tried(false, refused, is_left & holds & is_memory(fault))
        }
    }
}

/// What an upgrade of the three segments says.
const ALL_THREE: Upgraded = Upgraded {
    segments: 3,
    pages: 1,
    frames: 1,
};

/// One try of an upgrade: if it is refused, no box is dropped, and nothing is written.
fn upgrades(alloc: Global, log: &mut Log) -> Option<Try>
    requires { IsSound log.old holding }
    ensures { IsSound log.new holding }
{
    if log.next_frame() != Some(4) {
        return None;
    }
    begin(alloc);
    let answer = upgrade(alloc, log);
    let refused = end(alloc);
    let now = picture(log);
    match answer {
        Ok(upgraded) => {
            let holds = holds(alloc, log, 4, UPGRADED_LAST);
            let is_so = upgraded == ALL_THREE && now == (1, Some((4, 3, 62)), 0);
            tried(true, refused, is_so & holds)
        }
        Err(fault) => {
            let is_left = now == (3, Some((3, 2, 68)), 1);
            tried(false, refused, is_left & is_memory(fault))
        }
    }
}

fn reads(alloc: Global, log: &mut Log) -> Option<Try>
    requires { IsSound log.old holding }
    ensures { IsSound log.new holding }
{
    begin(alloc);
    let answer = log.read_page(1);
    let refused = end(alloc);
    match answer {
        Ok(leaf) => tried(true, refused, shows(&leaf, b": j=2 k=3")),
        Err(fault) => tried(false, refused, fault == LogFault::NoMemory),
    }
}

/// One try of a segment's bytes after what stands there, which stays if that is refused.
fn dumps(alloc: Global, log: &mut Log) -> Option<Try>
    requires { IsSound log.old holding }
    ensures { IsSound log.new holding }
{
    let mut bytes = Vec::new(alloc);
    begin(alloc);
    let answer = log.dump(2, &mut bytes);
    let refused = end(alloc);
    match answer {
        Ok(found) => tried(
            true,
            refused,
            found && spells(&bytes, THIRD_OLDER.as_bytes()),
        ),
        Err(fault) => tried(
            false,
            refused,
            fault == LogFault::NoMemory && bytes.len() == 0,
        ),
    }
}

/// One try of what an append wants: nothing is otherwise after it.
fn readies(alloc: Global, log: &mut Log, takes_last: bool) -> Option<Try>
    requires { IsSound log.old holding }
    ensures { IsSound log.new holding }
{
    if log.limit() < 16_000 {
        return None;
    }
    begin(alloc);
    let answer = log.ready(16_000, takes_last);
    let refused = end(alloc);
    let is_left = picture(log) == (3, Some((3, 2, 69)), 1) && log.next_frame() == Some(4);
    match answer {
        Ok(()) => tried(true, refused, is_left),
        Err(fault) => tried(false, refused, is_left && fault == LogFault::NoMemory),
    }
}

/// One try of a box more: it comes back if it is refused.
fn adds(
    alloc: Global,
    log: &mut Log,
    one: Box<dyn Segment>,
) -> (Option<Try>, Option<Box<dyn Segment>>)
    requires { IsSoundBeside holding log.old }
    ensures { IsSoundBeside holding log.new }
{
    begin(alloc);
    let answer = log.add_segment(one);
    let refused = end(alloc);
    let spares = log.spares();
    match answer {
        Ok(()) => (
            tried(true, refused, spares == 2 && log.spare_leases(1) == Some(0)),
            None,
        ),
        Err((one, fault)) => {
            let is_back = one.lease() == 0 && one.len() == 0 && one.capacity() == 65_560;
            let is_so = is_back && spares == 1 && fault == LogFault::NoMemory;
            (tried(false, refused, is_so), Some(one))
        }
    }
}

/// A box is added, once more if that was refused.
fn is_added(alloc: Global, log: &mut Log, one: Box<dyn Segment>) -> Option<Try>
    requires { IsSoundBeside holding log.old }
{
    match adds(alloc, log, one) {
        (Some(Try::Refused), Some(one)) => then(Try::Refused, adds(alloc, log, one).0),
        (first, _) => first,
    }
}

/// A box of another desk is added to the recovered log.
fn with_one_more(alloc: Global) -> Option<Try> {
    let Supply {
        mut boxes,
        desk: _desk,
    } = supplied(alloc, 1, &[], None)?;
    let one = boxes.pop()?;
    let mut found = found_in(alloc, worked(alloc)?)?;
    is_added(alloc, &mut found.log, one)
}

/// One try of a call on the recovered log.
fn tries(alloc: Global, log: &mut Log, call: &Call) -> Option<Try>
    requires { IsSound log.old holding }
    ensures { IsSound log.new holding }
{
    match call {
        Call::Clean => cleans(alloc, log),
        Call::Upgrade => upgrades(alloc, log),
        Call::ReadPage => reads(alloc, log),
        Call::Dump => dumps(alloc, log),
        Call::Ready(takes_last) => readies(alloc, log, *takes_last),
        _ => None,
    }
}

/// A call on the recovered log, once more if it was refused.
fn asks(alloc: Global, log: &mut Log, call: &Call) -> Option<Try>
    requires { IsSound log.old holding }
{
    let first = tries(alloc, log, call)?;
    if first == Try::Refused {
        return then(first, tries(alloc, log, call));
    }
    Some(first)
}

/// What a scan of the three segments in another order finds.
fn scanned(alloc: Global) -> Option<Try> {
    let supply = supplied(
        alloc,
        5,
        &[THIRD_LAST, "", THIRD_LOST, THIRD_OLDER, "42574c"],
        None,
    )?;
    let Supply { boxes, desk: _desk } = supply;
    let (first, found) = recovered(alloc, boxes)?;
    let is_told = (found.first, found.last, found.tail, found.dropped) == (1, 3, 0, 1);
    let (second, found) = warmed(alloc, found)?;
    match found.leaves.page(1) {
        Some(leaf) if is_told && shows(leaf, b": j=2 k=3") => {
            if first == Try::Went {
                Some(second)
            } else {
                then(first, Some(second))
            }
        }
        _ => None,
    }
}

/// The three segments and a spare.
fn worked(alloc: Global) -> Option<Vec<Box<dyn Segment>>> {
    let Supply { boxes, desk: _desk } = supplied(
        alloc,
        4,
        &[THIRD_LOST, THIRD_OLDER, THIRD_LAST, ""],
        None,
    )?;
    Some(boxes)
}

/// The three segments in format 1, and a spare.
fn old(alloc: Global) -> Option<Vec<Box<dyn Segment>>> {
    let texts = [OLD_THIRD_LOST, OLD_THIRD_OLDER, OLD_THIRD_LAST, ""];
    let Supply { boxes, desk: _desk } = supplied(alloc, 4, &texts, None)?;
    Some(boxes)
}

/// One try of a log of boxes, which come back in order if that is refused.
fn makes(alloc: Global, boxes: Vec<Box<dyn Segment>>) -> (Option<Try>, Vec<Box<dyn Segment>>) {
    begin(alloc);
    let made = Log::new(alloc, boxes, 4, 65_536);
    let refused = end(alloc);
    match made {
        Ok(log) => {
            let is_so = log.spares() == 2 && log.live() == 0 && log.spare_leases(1) == Some(1);
            (tried(true, refused, is_so), Vec::new(alloc))
        }
        Err((boxes, fault)) => {
            let is_so = fault == LogFault::NoMemory && are_two(boxes.as_slice());
            (tried(false, refused, is_so), boxes)
        }
    }
}

fn are_two(boxes: &[Box<dyn Segment>]) -> bool {
    match boxes {
        [one, other] => one.lease() == 0 && other.lease() == 1,
        _ => false,
    }
}

fn is_made(alloc: Global) -> Option<Try> {
    let Supply { boxes, desk: _desk } = supplied(alloc, 2, &[], None)?;
    match makes(alloc, boxes) {
        (Some(Try::Refused), boxes) => then(Try::Refused, makes(alloc, boxes).0),
        (first, _) => first,
    }
}

impl Row for Call {
    fn goes<R: AllocGlobal + Threads + Wait>(&self, rt: &R) -> Option<Try> {
        let alloc = rt.alloc();
        match self {
            Call::Recover => scanned(alloc),
            Call::New => is_made(alloc),
            Call::Add => with_one_more(alloc),
            Call::Upgrade => {
                let mut found = found_in(alloc, old(alloc)?)?;
                asks(alloc, &mut found.log, self)
            }
            _ => {
                let mut found = found_in(alloc, worked(alloc)?)?;
                asks(alloc, &mut found.log, self)
            }
        }
    }

    // The row of heads beside the pairs of a page.
    fn spares(&self) -> bool {
        match self {
            Call::Recover | Call::Clean | Call::Upgrade | Call::ReadPage => true,
            _ => false,
        }
    }
}

const CALLS: &[Call] = &[
    Call::Recover,
    Call::Clean,
    Call::Upgrade,
    Call::ReadPage,
    Call::Dump,
    Call::Add,
    Call::Ready(true),
    Call::New,
];

#[test]
fn recovery_the_cleaner_and_logs(rt: HostRuntime) {
    assert_eq!(rt; wrong_row(&rt, CALLS), None);
}
