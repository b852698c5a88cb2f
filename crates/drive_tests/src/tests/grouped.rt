//! Groups in threads: the tables.

use super::courses::{ALL, KEYS, TWICE};
use super::scripts::Sizes;
use super::steps::Step::{Begins, Boxes, Drives, Durable, Settles};
use super::steps::{MANY, Pace, Run};
use super::walking::{PLAIN, Table, wrong_table};
use bw_store::StoreFault::{Device, Failed};

/// All is accepted, in a second run too.
const THREE: &Table = &Table {
    name: "groups twice",
    writers: 3,
    sizes: Sizes::Mixed,
    ..TWICE
};

/// A ring of one place each holds a group of four too.
const ONE_PLACE: &Table = &Table {
    name: "groups at one place",
    sizes: Sizes::Mixed,
    places: 1,
    ..TWICE
};

/// With one try a writer puts no more groups than its ring holds and the one turn takes. The first
/// eight have twenty records, and the next one has one.
const FEW_TRIES: &Table = &Table {
    name: "few tries of groups",
    sizes: Sizes::Mixed,
    steps: &[
        Drives(Run(ALL, Pace(1, 1, 0, 1), Ok((20, 21)))),
        Boxes(4, 1),
    ],
    ..PLAIN
};

/// A frame fails. What was taken before is whole groups, at most sixteen of four records a turn.
const FIFTH_FRAME: &Table = &Table {
    name: "fifth frame of groups",
    sizes: Sizes::Mixed,
    fuse: Some(5),
    steps: &[
        Drives(Run(ALL, Pace(16, 1, 0, MANY), Err(Device { lease: 0 }))),
        Durable(4, 4),
        Begins(KEYS, 320),
        Settles(Err(Failed)),
    ],
    ..PLAIN
};

const TABLES: &[&Table] = &[THREE, ONE_PLACE, FEW_TRIES, FIFTH_FRAME];

#[test]
fn groups_go_as_told(rt: HostRuntime) {
    assert_eq!(rt; wrong_table(&rt, TABLES), None);
}
