//! Of two scripts each append fails in turn, and keeps each number of bytes that it may; and each
//! read fails in turn.

ghost use Rattle.test_subjects.specs.Views.{AreItsFeeds, IsSoundBeside};

use super::boxes::{dying, fused, supplied};
use super::cutting::THREE;
use super::opening::{Held, Supply, opened, shut};
use super::steps::goes;
use super::telling::{all_went, holds};
use super::walking::{lives_on, wrong_step};
use bw_care::{RecoverCause, recover};
use std::sync::Wait;
use test_subjects::putting::FIVE;
use test_subjects::steps::Step;
use test_subjects::steps::Step::{Clean, Evict, Frame, Frames, Get, Page, Put, Turn};
use test_subjects::subject::{BOTH, Over, config_of};

/// Five records, a frame each; the last one cuts its page.
const FIVE_FRAMES: &[Step] = &[Frames(1, FIVE)];

/// Two of three segments are given up.
const CLEANED: &[Step] = &[Clean(1, 0, 1, 1), Clean(2, 1, 0, 0), Page(1, "1 : j=2 k=3")];

/// An append: the lease of its box, how many calls of that box come before it, its length, and how
/// many frames are whole when it failed, with less than all its bytes kept or with all of them.
#[derive(Drop)]
struct Append(u32, u64, u64, usize, usize);

/// Appends of a box, one after the other: its lease, how many of its calls come before the first,
/// and how many frames are whole before it; then of each its length, and how many are whole after
/// it.
#[derive(Drop)]
struct Appends(u32, u64, usize, &'static [(u64, usize)]);

/// A script in two parts, its appends, and for each frame what a store shows that goes on after it.
#[derive(Drop)]
struct Course {
    steps: &'static [Step],
    then: &'static [Step],
    appends: &'static [Appends],
    shown: &'static [&'static [Step]],
}

const COURSES: &[Course] = &[
    Course {
        steps: FIVE_FRAMES,
        then: &[],
        appends: &[Appends(
            0,
            0,
            0,
            &[(24, 0), (53, 1), (45, 2), (45, 3), (45, 4), (85, 5)],
        )],
        shown: &[
            &[Page(1, "1 : a=1"), Frame(b"z", b"9", 2)],
            &[Page(1, "1 : a=1 b=2"), Frame(b"z", b"9", 3)],
            &[Page(1, "1 : a=1 b=2 c=3"), Frame(b"z", b"9", 4)],
            &[
                Page(1, "1 : a=1 b=2 c=3 d=4"),
                Page(2, ""),
                Frame(b"a", b"9", 5),
            ],
            &[
                Page(1, "1 : a=1 b=2"),
                Page(2, "2 c: c=3 d=4 e=5"),
                Frame(b"z", b"9", 6),
            ],
        ],
    },
    Course {
        steps: THREE,
        then: CLEANED,
        appends: &[
            Appends(0, 0, 0, &[(24, 0), (53, 1)]),
            Appends(1, 0, 1, &[(24, 1), (45, 2)]),
            Appends(2, 0, 2, &[(24, 2), (45, 3)]),
            // The cleaner has read the box once by then.
            Appends(2, 3, 3, &[(38, 4)]),
        ],
        shown: &[
            &[Page(1, "1 : k=1"), Frame(b"z", b"9", 2)],
            &[Page(1, "1 : j=2 k=1"), Frame(b"z", b"9", 3)],
            &[Page(1, "1 : j=2 k=3"), Frame(b"z", b"9", 4)],
            &[Page(1, "1 : j=2 k=3"), Frame(b"z", b"9", 5)],
        ],
    },
];

// Whether a step of the script goes otherwise.
fn is_wrong<R: AllocGlobal + Wait>(rt: &R, held: &mut Held, course: &Course) -> bool
    requires sound { IsSoundBeside held.old.store holding }
    requires feeds { AreItsFeeds held.old.feeds.items held.old.store holding }
    ensures { IsSoundBeside held.new.store holding }
{
    if wrong_step(rt, held, course.steps).is_some() {
        return true;
    }
    wrong_step(rt, held, course.then).is_some()
}

// Whether a step of the script goes otherwise over a store of these boxes, which then come out.
fn stops<R: AllocGlobal + Wait>(rt: &R, over: Over, supply: &mut Supply, course: &Course) -> bool {
    let Some(mut held) = opened(rt, over, &config_of(2, 8, 1), supply) else {
        return false;
    };
    let wrong = is_wrong(rt, &mut held, course);
    let _ = shut(rt, held, supply);
    wrong
}

// Whether recovery says that no frame is whole, and hands all boxes back.
fn finds_nothing<R: AllocGlobal>(rt: &R, supply: Supply) -> bool {
    let Supply { boxes, more: _ } = supply;
    match recover(rt.alloc(), boxes) {
        Ok(_recovered) => false,
        Err(fault) => (fault.cause == RecoverCause::Empty) & (fault.boxes.len() == 6),
    }
}

/// A course over a core or a store that stops in an append, of which so many bytes are kept.
#[derive(Clone, Copy)]
struct Stopped<'a> {
    over: Over,
    course: &'a Course,
    append: &'a Append,
    keep: u64,
}

impl Stopped<'_> {
    // Whether the store is found again with the frames that are whole, and goes on.
    fn is_found<R: AllocGlobal + Wait>(&self, rt: &R) -> bool {
        let Append(lease, calls, length, torn, whole) = self.append;
        let row = fused(*lease, (*calls, self.keep), 5u32.saturating_sub(*lease));
        let Some(mut supply) = supplied(rt.alloc(), &row) else {
            return false;
        };
        if !stops(rt, self.over, &mut supply, self.course) {
            return false;
        }
        let frames = if self.keep == *length { *whole } else { *torn };
        if frames == 0 {
            return finds_nothing(rt, supply);
        }
        match self.course.shown.get(frames - 1) {
            Some(steps) => lives_on(rt, self.over, &mut supply, None, *steps).is_none(),
            None => false,
        }
    }

    // Whether a box that failed for good there fails in recovery too, and all boxes come back.
    fn is_dead<R: AllocGlobal + Wait>(&self, rt: &R) -> bool {
        let Append(lease, calls, _, torn, _) = self.append;
        let Some(mut supply) = dying(rt.alloc(), *lease, (*calls, self.keep)) else {
            return false;
        };
        if !stops(rt, self.over, &mut supply, self.course) {
            return false;
        }
        let Supply { boxes, more: _ } = supply;
        // If the box kept nothing, it is a spare, and is not read.
        let is_spare = *calls == 0 && self.keep == 0;
        match recover(rt.alloc(), boxes) {
            Ok(_recovered) => is_spare && *torn > 0,
            Err(fault) => {
                let told = if is_spare && *torn == 0 {
                    RecoverCause::Empty
                } else {
                    RecoverCause::Device { lease: *lease }
                };
                (fault.cause == told) & (fault.boxes.len() == 6)
            }
        }
    }
}

// Whether an append goes as expected with each number of bytes kept.
fn goes_well<R: AllocGlobal + Wait>(rt: &R, over: Over, course: &Course, append: &Append) -> bool {
    for keep in 0..=append.2 {
        let stopped = Stopped {
            over,
            course,
            append,
            keep,
        };
        if !stopped.is_found(rt) || !stopped.is_dead(rt) {
            return false;
        }
    }
    true
}

// The first of a course's appends that does not.
fn wrong_append<R: AllocGlobal + Wait>(rt: &R, over: Over, course: &Course) -> Option<usize> {
    let mut count: usize = 0;
    for Appends(lease, first, before, each) in course.appends {
        let mut calls = *first;
        let mut torn = *before;
        for (length, whole) in *each {
            if !goes_well(
                rt,
                over,
                course,
                &Append(*lease, calls, *length, torn, *whole),
            ) {
                return Some(count);
            }
            (calls, torn) = (calls.saturating_add(1), *whole);
            count = count.saturating_add(1);
        }
    }
    None
}

// The first course with one, and which.
fn wrong_course<R: AllocGlobal + Wait>(rt: &R, over: Over) -> Option<(usize, usize)> {
    for (i, course) in COURSES.iter().enumerate() {
        if let Some(append) = wrong_append(rt, over, course) {
            return Some((i, append));
        }
    }
    None
}

#[test]
fn each_append_fails_in_turn(rt: HostRuntime) {
    for over in BOTH {
        all_went(&rt, over, wrong_course(&rt, over));
    }
}

/// After five frames pages leave memory, are read, and come back.
const AWAY: &[Step] = &[
    Evict(1, Ok(true)),
    Evict(2, Ok(true)),
    Page(1, "1 : a=1 b=2"),
    Get(b"e", b"5"),
    Page(2, "2 c: c=3 d=4 e=5"),
    Put(0, b"a", b"9"),
    Turn(9, 1),
    Page(1, "1 : a=9 b=2"),
    Page(2, "2 c: c=3 d=4 e=5"),
];

// How many steps went otherwise once, and then as expected; none if one went so twice.
fn retried<R: AllocGlobal + Wait>(rt: &R, held: &mut Held, steps: &[Step]) -> Option<usize>
    requires sound { IsSoundBeside held.old.store holding }
    requires feeds { AreItsFeeds held.old.feeds.items held.old.store holding }
    ensures { IsSoundBeside held.new.store holding }
{
    let mut again: usize = 0;
    'steps: for step in steps {
        if goes(rt, rt.alloc(), held, step) {
            continue;
        }
        if !goes(rt, rt.alloc(), held, step) {
            return None;
        }
        again = again.saturating_add(1);
    }
    Some(again)
}

// How many of the last steps were made twice, over boxes of which the first fails once, after so
// many calls; none if one went otherwise twice, or one of the first steps at all.
fn twice<R: AllocGlobal + Wait>(
    rt: &R,
    over: Over,
    calls: u64,
    steps: &[Step],
    last: &[Step],
) -> Option<usize> {
    let mut supply = supplied(rt.alloc(), &fused(0, (calls, 0), 5))?;
    let mut held = opened(rt, over, &config_of(2, 8, 1), &mut supply)?;
    let went = wrong_step(rt, &mut held, steps).is_none();
    let again = retried(rt, &mut held, last);
    let _ = shut(rt, held, &mut supply);
    if went { again } else { None }
}

// Whether each read of the last steps fails in turn, at least so many, and is made again: the first
// of them comes after so many calls of the first box.
fn fail_in_turn<R: AllocGlobal + Wait>(
    rt: &R,
    over: Over,
    calls: u64,
    least: u64,
    steps: &[Step],
    last: &[Step],
) -> bool {
    for reads in 0..64u64 {
        match twice(rt, over, calls.saturating_add(reads), steps, last) {
            Some(1) => {}
            Some(0) => return reads >= least,
            _ => return false,
        }
    }
    false
}

#[test]
fn each_read_fails_in_turn(rt: HostRuntime) {
    for over in BOTH {
        holds(&rt, over, fail_in_turn(&rt, over, 6, 4, FIVE_FRAMES, AWAY));
        holds(&rt, over, fail_in_turn(&rt, over, 2, 1, THREE, CLEANED));
    }
}
