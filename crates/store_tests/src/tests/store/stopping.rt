//! A store stops, and goes on from its boxes.

use super::boxes::{fused, supplied};
use super::telling::went;
use super::turning::FAILED;
use super::walking::{lives, lives_on};
use std::sync::Wait;
use test_subjects::steps::Step;
use test_subjects::steps::Step::{Cuts, Flush, Page, Put, Turn};
use test_subjects::subject::{BOTH, Over};

const AGAIN: &[Step] = &[
    Page(1, "1 : k=v"),
    Put(0, b"j", b"w"),
    Turn(8, 1),
    Flush(Some(2)),
    Page(1, "1 : j=w k=v"),
    Cuts(&[1], 1),
];

const LAST: &[Step] = &[Page(1, "1 : j=w k=v"), Flush(None)];

// The first step that did not go as expected in the first of three lives where one did not: the
// append of the first frame, the second call of its box, fails, with all its bytes kept.
fn three_lives<R: AllocGlobal + Wait>(rt: &R, over: Over) -> Option<usize> {
    let Some(mut supply) = supplied(rt.alloc(), &fused(0, (1, 53), 3)) else {
        return Some(0);
    };
    let first = lives(rt, over, &mut supply, 8, FAILED);
    let second = lives_on(rt, over, &mut supply, Some(1), AGAIN);
    let third = lives_on(rt, over, &mut supply, Some(2), LAST);
    first.or(second).or(third)
}

#[test]
fn a_store_goes_on_from_its_own_boxes(rt: HostRuntime) {
    for over in BOTH {
        went(&rt, over, three_lives(&rt, over));
    }
}
