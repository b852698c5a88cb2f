// The walker: steps on a log of one page, each with what it has to answer.

ghost use Rattle.std.specs.Prelude.{[], IfSome, OnSome};
ghost use Rattle.bw_log.specs.Views.{seen_by};
ghost use Rattle.test_boxes.specs.Views.{seen};
ghost use Rattle.log_tests.specs.OnePage.{Counts, HoldsOne, Opens};

use super::Yard;
use super::filled::full_opening;
use super::page::{begin, give_up, log_over, opening, put, rewrite};
use bw_buffer::Buffer;
use bw_codec::{Leaf, Place};
use bw_device::Segment;
use bw_log::{Log, LogFault};
use std::alloc::Global;
use test_boxes::{Fuse, NEVER, is_shown, is_spelled};
use test_kit::tables::{Table, WrongStep, tables_go};
use test_kit::vectors::{FIRST, THIRD_NEWER, THIRD_OLDER};

/// One step, with what it has to answer.
enum Step {
    /// A key and a value, and what refuses the append.
    Put(u8, u8, Option<LogFault>),
    /// One value at one key so often, in a frame each.
    Puts(u8, u8, u32),
    /// The page written again, and what refuses that.
    Rewrite(Option<LogFault>),
    Roll,
    /// Whether one more box is taken.
    Add(bool),
    /// Whether the oldest segment could be given up.
    GiveUp(bool),
    /// How many leases come back.
    Collect(u32),
    /// The page as a text.
    Read(&'static str),
    /// The lease of the segment that fails.
    ReadFails(u32),
    NoPage(u32),
    /// Numbers, leases and lengths of the live segments, and the leases of the spares.
    Boxes(&'static [(u64, u32, u64)], &'static [u32]),
    /// The last blocks that touch and that set the page.
    Places(Place, Place),
    Next(u64),
    Oldest(u64, u64),
    /// A segment's bytes in hex; none if it is not live.
    Dump(u64, &'static str),
    Works,
    /// What refuses a frame of so many bytes.
    Ready(u32, Option<LogFault>),
    /// What refuses a frame of the cleaner's of so many bytes.
    ReadyCare(u32, Option<LogFault>),
}

// Whether the log takes the last box of the yard.
fn adds(log: &mut Log, yard: &mut Yard, leaf: &Leaf) -> bool
    requires { HoldsOne (seen_by holding log.old) leaf.now }
    ensures { HoldsOne (seen_by holding log.new) leaf.now }
{
    let Some(one) = yard.boxes.pop() else {
        return false;
    };
    match log.add_segment(one) {
        Ok(()) => true,
        Err(_) => false,
    }
}

// Whether so many puts are not refused.
fn puts(
    alloc: Global,
    log: &mut Log,
    leaf: &mut Leaf,
    key: u8,
    value: u8,
    many: u32,
) -> Option<bool>
    requires { HoldsOne (seen log.old holding) leaf.old }
    ensures { OnSome result (HoldsOne (seen log.new holding) leaf.new) }
{
    for _i in 0..many {
        if !put(alloc, log, leaf, key, value, None)? {
            return Some(false);
        }
    }
    Some(true)
}

// Whether a page is read as this text, or refused so.
fn reads(log: &mut Log, leaf: &Leaf, page: u32, told: Result<&'static str, LogFault>) -> bool
    requires { HoldsOne (seen log.old holding) leaf.now }
    ensures { HoldsOne (seen log.new holding) leaf.now }
{
    match log.read_page(page) {
        Ok(read) => match told {
            Ok(text) => is_shown(&read, text),
            Err(_) => false,
        },
        Err(fault) => told.err() == Some(fault),
    }
}

fn dumps(alloc: Global, log: &mut Log, leaf: &Leaf, segment: u64, hex: &'static str) -> bool
    requires { HoldsOne (seen log.old holding) leaf.now }
    ensures { HoldsOne (seen log.new holding) leaf.now }
{
    let mut bytes = Vec::new(alloc);
    match log.dump(segment, &mut bytes) {
        Ok(_) => is_spelled(alloc, &bytes, hex),
        Err(_) => false,
    }
}

fn is_ready(log: &mut Log, leaf: &Leaf, len: u32, takes_last: bool, told: Option<LogFault>) -> bool
    requires { HoldsOne (seen log.old holding) leaf.now }
    ensures { HoldsOne (seen log.new holding) leaf.now }
{
    if len > log.limit() {
        return false;
    }
    log.ready(len, takes_last).err() == told
}

pub(crate) fn rolls(log: &mut Log, leaf: &Leaf)
    requires { HoldsOne (seen log.old holding) leaf.now }
    ensures { HoldsOne (seen log.new holding) leaf.now }
{
    log.roll();
}

// Whether the boxes are these.
fn are_boxes(log: &Log, leaf: &Leaf, live: &[(u64, u32, u64)], spares: &[u32]) -> bool
    requires { HoldsOne (seen log.now holding) leaf.now }
{
    if log.live() as usize != live.len() || log.spares() as usize != spares.len() {
        return false;
    }
    for (i, told) in live.iter().enumerate() {
        if log.live_segment(i as u32) != Some(*told) {
            return false;
        }
    }
    for (i, told) in spares.iter().enumerate() {
        if log.spare_leases(i as u32) != Some(*told) {
            return false;
        }
    }
    true
}

// What the log says without a read.
fn tells(log: &Log, leaf: &Leaf, step: &Step) -> bool
    requires { HoldsOne (seen log.now holding) leaf.now }
{
    match step {
        Step::Boxes(live, spares) => are_boxes(log, leaf, live, spares),
        Step::Places(place, base) => log.place_of(1) == Some(*place)
            && log.base_of(1) == Some(*base),
        Step::Next(number) => log.next_frame() == Some(*number),
        Step::Oldest(number, last) => log.oldest() == Some((*number, *last)),
        Step::Works => !log.is_failed()
            && log.pages() == 1
            && log.m() == 4
            && log.limit() == 65_536,
        _ => false,
    }
}

// Whether the step went as expected.
fn goes(log: &mut Log, yard: &mut Yard, leaf: &mut Leaf, step: &Step) -> Option<bool>
    requires { HoldsOne (seen_by holding log.old) leaf.old }
    ensures { OnSome result (HoldsOne (seen_by holding log.new) leaf.new) }
{
    let alloc = yard.alloc;
    match step {
        Step::Put(key, value, told) => put(alloc, log, leaf, *key, *value, *told),
        Step::Puts(key, value, many) => puts(alloc, log, leaf, *key, *value, *many),
        Step::Rewrite(told) => rewrite(alloc, log, leaf, *told),
        Step::Roll => {
            rolls(log, leaf);
            Some(true)
        }
        Step::Add(told) => Some(adds(log, yard, leaf) == *told),
        Step::GiveUp(told) => Some(give_up(log, leaf) == *told),
        Step::Collect(told) => Some(yard.desk.collect() == *told),
        Step::Read(text) => Some(reads(log, leaf, 1, Ok(*text))),
        Step::ReadFails(lease) => {
            Some(reads(log, leaf, 1, Err(LogFault::Device { lease: *lease })))
        }
        Step::NoPage(page) => Some(reads(log, leaf, *page, Err(LogFault::NoPage))),
        Step::Dump(segment, told) => Some(dumps(alloc, log, leaf, *segment, *told)),
        Step::Ready(len, told) => Some(is_ready(log, leaf, *len, false, *told)),
        Step::ReadyCare(len, told) => Some(is_ready(log, leaf, *len, true, *told)),
        _ => Some(tells(log, leaf, step)),
    }
}

// The first step that did not go as expected.
fn wrong_step(log: &mut Log, yard: &mut Yard, leaf: &mut Leaf, steps: &[Step]) -> Option<usize>
    requires { HoldsOne (seen_by holding log.old) leaf.old }
{
    for (i, step) in steps.iter().enumerate() {
        match goes(log, yard, leaf, step) {
            Some(true) => {}
            _ => return Some(i),
        }
    }
    None
}

fn opening_of(alloc: Global, fills: bool) -> Option<(Buffer, Leaf)>
    ensures { IfSome result (λ o. Opens o.0 o.1) }
{
    if fills {
        full_opening(alloc)
    } else {
        opening(alloc)
    }
}

/// Appends a first frame, and answers the page that it leaves.
pub(crate) fn begun(alloc: Global, log: &mut Log, fills: bool) -> Option<Leaf>
    requires { Counts (seen log.old holding) [] }
    ensures { IfSome result (λ leaf. HoldsOne (seen log.new holding) leaf) }
{
    let (frame, leaf) = opening_of(alloc, fills)?;
    match begin(log, &frame, &leaf) {
        Ok(()) => Some(leaf),
        Err(_) => None,
    }
}

// Over what steps walk: the fuse of the first box, how many more there are, all of the least
// capacity with leases from 0 on, and whether the first frame fills its segment. One more box
// stands in the yard.
struct Walk(Fuse, u32, bool, &'static [Step]);

impl Table for Walk {
    fn wrong_step(&self, alloc: Global) -> Option<usize> {
        let Some((mut log, mut yard)) = log_over(alloc, self.1, self.0) else {
            return Some(0);
        };
        match begun(alloc, &mut log, self.2) {
            Some(mut leaf) => wrong_step(&mut log, &mut yard, &mut leaf, self.3),
            None => Some(0),
        }
    }
}

// Of two boxes, a new segment wants one more.
const A_SECOND_SEGMENT: &[Step] = &[
    Step::Roll,
    Step::Put(b'b', b'2', Some(LogFault::NoSegment)),
    Step::Boxes(&[(1, 0, 77)], &[1]),
    Step::Add(true),
    Step::Put(b'b', b'2', None),
    Step::Read("1 : b=2 k=v;"),
    Step::NoPage(2),
    Step::NoPage(0),
    Step::Boxes(&[(1, 0, 77), (2, 1, 69)], &[2]),
    Step::Next(3),
    Step::Works,
];

// The third call of the segment, a read, fails.
const A_FAILED_READ: &[Step] = &[
    Step::ReadFails(0),
    Step::Read("1 : k=v;"),
    Step::Works,
    Step::Dump(1, FIRST),
    Step::Dump(2, ""),
];

// The third call of the segment, an append, fails.
const A_FAILED_APPEND: &[Step] = &[
    Step::Put(b'b', b'2', Some(LogFault::Device { lease: 0 })),
    Step::Next(2),
    Step::Read("1 : k=v;"),
    Step::Put(b'b', b'2', Some(LogFault::Failed)),
    Step::Ready(45, Some(LogFault::Failed)),
    Step::ReadyCare(45, Some(LogFault::Failed)),
    Step::GiveUp(false),
    Step::Boxes(&[(1, 0, 87)], &[1]),
];

// The page's older places are given up with their segments, whose boxes are dropped.
const GIVEN_UP: &[Step] = &[
    Step::Roll,
    Step::Put(b'j', b'2', None),
    Step::Roll,
    Step::Put(b'k', b'3', None),
    Step::GiveUp(false),
    Step::Rewrite(None),
    Step::Oldest(1, 1),
    Step::Collect(0),
    Step::GiveUp(true),
    Step::Collect(1),
    Step::Boxes(&[(2, 1, 69), (3, 2, 107)], &[3]),
    Step::Dump(1, ""),
    // Its frame links back to the first segment.
    Step::Dump(2, THIRD_OLDER),
    // With a frame of its own and the cleaner's.
    Step::Dump(3, THIRD_NEWER),
    Step::Read("1 : j=2 k=3;"),
    Step::Places(Place { frame: 4, index: 0 }, Place { frame: 4, index: 0 }),
    Step::Next(5),
    Step::Works,
    Step::GiveUp(true),
    Step::Read("1 : j=2 k=3;"),
];

// A page whose blocks stand in 70 frames.
const MANY_FRAMES: &[Step] = &[
    Step::Puts(b'k', b'v', 69),
    Step::Next(71),
    Step::Places(
        Place {
            frame: 70,
            index: 0,
        },
        Place { frame: 1, index: 0 },
    ),
    Step::Read("1 : k=v;"),
];

// The last of 127 puts at k in one frame, which fills its segment to the last byte.
const FILLED: &[Step] = &[
    Step::Boxes(&[(1, 0, 65_560)], &[1]),
    Step::Read(
        "1 : k=wwwwwwwwwwwwwwwwwwwwwwwwwwwwwwwwwwwwwwwwwwwwwwwwwwwwwwwwwwwwwwwwwwwwwwwwwwwwww\
        wwwwwwwwwwwwwwwwwwwwwwwwwwwwwwwwwwwwwwwwwwwwwwwwwwwwwwwwwwwwwwwwwwwwwwwwwwwwwwwwwwww\
        wwwwwwwwwwwwwwwwwwwwwwwwwwwwwwwwwwwwwwwwwwwwwwwwwwwwwwwwwwwwwwwwwwwwwwwwwwwwwwwwwwww\
        wwwwwwwwwwwwwwwwwwwwwwwwwwwwwwwwwwwwwwwwwwwwwwwwwwwwwwwwwwwwwwwwwwwwwwwwwwwwwwwwwwww\
        wwwwwwwwwwww;",
    ),
    Step::Ready(45, Some(LogFault::NoSegment)),
    Step::ReadyCare(45, None),
];

const TABLES: &[Walk] = &[
    Walk(NEVER, 1, false, A_SECOND_SEGMENT),
    Walk(NEVER, 3, false, GIVEN_UP),
    Walk(NEVER, 1, false, MANY_FRAMES),
    Walk(NEVER, 1, true, FILLED),
    Walk((2, 0), 1, false, A_FAILED_READ),
    Walk((2, 10), 1, false, A_FAILED_APPEND),
];

#[test]
fn logs_of_one_page_go_as_told(rt: HostRuntime) -> Result<(), WrongStep> {
    tables_go(rt.alloc(), TABLES)
}
