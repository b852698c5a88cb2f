//! Readers of two stores side by side: each sees its own store's values.

ghost use Rattle.std.specs.Prelude.{IfSome};
ghost use Rattle.bw_store.specs.Views.{IsSound, IsSoundBeside};

use super::readers::reads;
use super::serving::{ended, store_over, supplied};
use super::sides::Side::{Left, Right};
use super::sides::Step::{Flushes, Rest, Takes};
use super::sides::{Sided, Step, goes};
use bw_device::Segment;
use std::sync::Wait;
use test_subjects::subject::config_of;

/// A step, and the values of `k` that the readers of the left and the right store see after it; of
/// no bytes, none.
type Seen = (Step, &'static [u8], &'static [u8]);

/// What one store takes and flushes, its own reader sees and the other's does not.
const STEPS: &[Seen] = &[
    (Rest, b"", b""),
    (Takes(Left, b"1"), b"", b""),
    (Takes(Right, b"2"), b"", b""),
    (Flushes(Left), b"1", b""),
    (Flushes(Right), b"1", b"2"),
    (Takes(Right, b"3"), b"1", b"2"),
    (Takes(Left, b"4"), b"1", b"2"),
    (Flushes(Right), b"1", b"3"),
    (Flushes(Left), b"4", b"3"),
    (Flushes(Right), b"4", b"3"),
];

// Whether a step goes as expected at both stores, and both readers see as expected after it.
fn go_both<R: Wait>(rt: &R, left: &mut Sided, right: &mut Sided, seen: &Seen) -> bool
    requires left { IsSound left.old.served.store holding }
    requires right { IsSound right.old.served.store holding }
    ensures left { IsSound left.new.served.store holding }
    ensures right { IsSound right.new.served.store holding }
{
    let (step, one, other) = seen;
    let is_left = goes(rt, left, Left, step);
    let is_right = goes(rt, right, Right, step);
    let are_seen = reads(&mut left.reader, *one) & reads(&mut right.reader, *other);
    is_left & is_right & are_seen
}

// The first step that did not go as expected.
fn wrong_step<R: Wait>(rt: &R, left: &mut Sided, right: &mut Sided) -> Option<usize>
    requires left { IsSound left.old.served.store holding }
    requires right { IsSound right.old.served.store holding }
    ensures left { IsSound left.new.served.store holding }
    ensures right { IsSound right.new.served.store holding }
{
    'steps: for (at, seen) in STEPS.iter().enumerate() {
        if !go_both(rt, left, right, seen) {
            return Some(at);
        }
    }
    None
}

// A store over these boxes, and its reader.
fn with_reader<R: AllocGlobal + Wait>(rt: &R, boxes: Vec<Box<dyn Segment>>) -> Option<Sided>
    ensures { IfSome result (λ s. IsSoundBeside s.served.store holding) }
{
    let mut served = store_over(rt, boxes, &config_of(1, 8, 1))?;
    match served.store.reader() {
        Ok(reader) => Some(Sided { served, reader }),
        Err(_) => {
            ended(rt, served);
            None
        }
    }
}

// The first step that did not go as expected with a left store over these boxes, which is then
// shut.
fn go_against<R: AllocGlobal + Wait>(
    rt: &R,
    right: &mut Sided,
    boxes: Vec<Box<dyn Segment>>,
) -> Option<usize>
    requires { IsSoundBeside right.old.served.store holding }
    ensures { IsSoundBeside right.new.served.store holding }
{
    let Some(mut left) = with_reader(rt, boxes) else {
        return Some(0);
    };
    let wrong = wrong_step(rt, &mut left, right);
    let Sided {
        served,
        reader: _reader,
    } = left;
    ended(rt, served);
    wrong
}

// The first step that did not go as expected with two stores, if the right one's reader then sees
// on; the first of all if it does not.
fn walked<R: AllocGlobal + Wait>(rt: &R) -> Option<usize> {
    let Some(boxes) = supplied(rt.alloc(), 4) else {
        return Some(0);
    };
    let Some(more) = supplied(rt.alloc(), 4) else {
        return Some(0);
    };
    let Some(mut right) = with_reader(rt, boxes) else {
        return Some(0);
    };
    let wrong = go_against(rt, &mut right, more);
    let Sided { served, mut reader } = right;
    let sees = reads(&mut reader, b"3");
    ended(rt, served);
    if sees { wrong } else { Some(0) }
}

#[test]
fn each_reader_sees_its_own_store(rt: HostRuntime) {
    assert_eq!(rt; walked(&rt), None);
}
