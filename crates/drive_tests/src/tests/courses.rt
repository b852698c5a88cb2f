//! Runs that end well, by their own tries or by a refusal: the tables.

use super::scripts::Part;
use super::steps::Step::{Begins, Boxes, Drives, Durable, Forgets, Learns, Reads, Settles};
use super::steps::{MANY, Pace, Run};
use super::walking::{PLAIN, Table, wrong_table};
use bw_store::StoreFault::{Device, Failed, NoSegment, NothingOld};

/// Each number has a key of its own.
pub(super) const KEYS: u32 = 10_000;

/// More records of each writer than any run below takes.
pub(super) const ALL: Part = Part(0, 1000, KEYS);

/// None of them.
const NONE: Part = Part(0, 0, KEYS);

/// All is accepted, and a second run over the same feeds goes on.
pub(super) const TWICE: Table = Table {
    name: "twice",
    boxes: 8,
    steps: &[
        Drives(Run(Part(0, 300, KEYS), Pace(64, 4, 0, MANY), Ok((300, 300)))),
        Reads(300, KEYS),
        Drives(Run(Part(300, 200, KEYS), Pace(1, 1, 0, MANY), Ok((200, 200)))),
        Reads(500, KEYS),
        Learns(500, KEYS),
        Boxes(8, 8),
    ],
    ..PLAIN
};

/// As many writers as there may be.
const SIXTY_FOUR: &Table = &Table {
    name: "sixty-four",
    writers: 64,
    boxes: 16,
    steps: &[
        Drives(Run(Part(0, 100, KEYS), Pace(64, 4, 0, MANY), Ok((100, 100)))),
        Reads(100, KEYS),
    ],
    ..PLAIN
};

/// All is accepted, and a second run over the same feeds goes on, with a ring of one place each.
const ONE_PLACE: &Table = &Table {
    name: "one place",
    places: 1,
    ..TWICE
};

/// With no try nothing is put, with one no more than a ring holds and the one turn takes.
const FEW_TRIES: &Table = &Table {
    name: "few tries",
    steps: &[
        Drives(Run(ALL, Pace(64, 4, 0, 0), Ok((0, 0)))),
        Drives(Run(NONE, Pace(64, 4, 0, MANY), Ok((0, 0)))),
        Drives(Run(ALL, Pace(1, 1, 0, 1), Ok((8, 9)))),
        Boxes(4, 1),
    ],
    ..PLAIN
};

/// The header of the first segment is not written. Later runs are refused too.
const FIRST_APPEND: &Table = &Table {
    name: "first append",
    fuse: Some(0),
    steps: &[
        Drives(Run(ALL, Pace(64, 1, 0, MANY), Err(Device { lease: 0 }))),
        Begins(KEYS, 64),
        Durable(0, 0),
        Boxes(4, 0),
        Drives(Run(ALL, Pace(64, 1, 0, MANY), Err(Failed))),
        Settles(Err(Failed)),
        Begins(KEYS, 64),
        Boxes(4, 0),
    ],
    ..PLAIN
};

/// A header and four frames, of one turn each, and then a frame fails.
const FIFTH_FRAME: &Table = &Table {
    name: "fifth frame",
    fuse: Some(5),
    steps: &[
        Drives(Run(ALL, Pace(16, 1, 0, MANY), Err(Device { lease: 0 }))),
        Durable(4, 4),
        Begins(KEYS, 80),
        Boxes(4, 1),
        Settles(Err(Failed)),
        Durable(4, 4),
    ],
    ..PLAIN
};

/// The only segment that is live cannot be given up.
const NOTHING_OLD: &Table = &Table {
    name: "nothing old",
    steps: &[
        Drives(Run(ALL, Pace(64, 1, 1, MANY), Err(NothingOld))),
        Durable(1, 1),
        Begins(KEYS, 64),
        Boxes(4, 1),
        Settles(Ok(())),
        Durable(1, 2),
        // A writer has put no more than its ring holds, and what the one turn took.
        Begins(KEYS, 80),
    ],
    ..PLAIN
};

/// The last spare is kept for a cleaning.
const NO_SPARE: &Table = &Table {
    name: "no spare",
    boxes: 1,
    steps: &[
        Drives(Run(ALL, Pace(64, 1, 0, MANY), Err(NoSegment))),
        Begins(KEYS, 64),
        Durable(0, 0),
        Settles(Err(NoSegment)),
        Drives(Run(NONE, Pace(64, 1, 0, MANY), Err(NoSegment))),
        Begins(KEYS, 80),
        Boxes(1, 0),
    ],
    ..PLAIN
};

/// By a plan that forgets, nothing of the history is in memory at the end; what was put is read.
const FORGOTTEN: &Table = &Table {
    name: "forgotten",
    boxes: 8,
    steps: &[
        Forgets(
            Run(Part(0, 300, KEYS), Pace(64, 4, 0, MANY), Ok((600, 600))),
            (0, 0),
            (600, 600),
        ),
        Reads(300, KEYS),
        Learns(300, KEYS),
    ],
    ..PLAIN
};

/// After each flush, and not only at the end: a frame fails after four, of at most 16 records each,
/// and what was flushed has left memory; what was only taken has not.
const FORGOTTEN_BEFORE: &Table = &Table {
    name: "forgotten before",
    fuse: Some(5),
    steps: &[
        Forgets(
            Run(ALL, Pace(16, 1, 0, MANY), Err(Device { lease: 0 })),
            (1, 16),
            (3, 64),
        ),
        Durable(4, 4),
    ],
    ..PLAIN
};

const ENDED: &[&Table] = &[&TWICE, SIXTY_FOUR, ONE_PLACE, FEW_TRIES, FORGOTTEN];

const REFUSED: &[&Table] = &[
    FIRST_APPEND,
    FIFTH_FRAME,
    FORGOTTEN_BEFORE,
    NOTHING_OLD,
    NO_SPARE,
];

#[test]
fn runs_go_as_told(rt: HostRuntime) {
    assert_eq!(rt; wrong_table(&rt, ENDED), None);
}

#[test]
fn nothing_follows_a_refusal(rt: HostRuntime) {
    assert_eq!(rt; wrong_table(&rt, REFUSED), None);
}
