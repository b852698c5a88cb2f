//! One call over what is held, with what it has to answer.

ghost use Rattle.std.specs.Prelude.{◌≡◌};
ghost use Rattle.test_subjects.specs.Views.{rings_beside, AreItsFeeds, IsSoundBeside};

use super::opening::Held;
use bw_device::Segment;
use std::alloc::Global;
use std::sync::Wait;
use test_subjects::putting::Op;
use test_subjects::steps::Step::{
    Add, Clean, Del, Each, Flush, Frame, Frames, Full, FullGroup, Group, NotUpgraded, Put, Puts,
    Refused, Rewrite, Roll, Same, Segments, Settle, Stops, Taken, Turn, Uncleaned, Unsettled,
    Upgrade,
};
use test_subjects::steps::{Step, answers, changes, puts, puts_one, roll_if, takes};
use test_subjects::subject::Subject;

/// Whether the store has a segment more.
pub(super) fn is_added(store: &mut Subject, more: &mut Vec<Box<dyn Segment>>) -> bool
    requires { IsSoundBeside store.old holding }
    ensures sound { IsSoundBeside store.new holding }
    ensures rings { rings_beside store.new holding ≡ rings_beside store.old holding }
{
    match more.pop() {
        Some(one) => store.is_added(one),
        None => false,
    }
}

// Whether a record is put by the first writer, and taken.
fn is_taken(opened: &mut Held, key: &[u8], value: &[u8]) -> bool
    requires sound { IsSoundBeside opened.old.store holding }
    requires feeds { AreItsFeeds opened.old.feeds.items opened.old.store holding }
    ensures sound { IsSoundBeside opened.new.store holding }
    ensures feeds { AreItsFeeds opened.new.feeds.items opened.new.store holding }
{
    if opened.feeds.is_empty() {
        return false;
    }
    let is_put = puts_one(&mut opened.feeds, 0, key, Some(value), true);
    is_put & takes(&mut opened.store, 9, Ok(1))
}

// Whether it is then appended as the frame of this number.
fn is_appended<R: Wait>(rt: &R, opened: &mut Held, key: &[u8], value: &[u8], told: u64) -> bool
    requires sound { IsSoundBeside opened.old.store holding }
    requires feeds { AreItsFeeds opened.old.feeds.items opened.old.store holding }
    ensures sound { IsSoundBeside opened.new.store holding }
    ensures feeds { AreItsFeeds opened.new.feeds.items opened.new.store holding }
{
    let is_taken = is_taken(opened, key, value);
    is_taken & (opened.store.flush(rt) == Ok(Some(told)))
}

// Whether each of these records is, from the frame of this number on; with each in a segment of its
// own, or not.
fn are_appended<R: Wait>(rt: &R, opened: &mut Held, ops: &[Op], told: u64, apart: bool) -> bool
    requires sound { IsSoundBeside opened.old.store holding }
    requires feeds { AreItsFeeds opened.old.feeds.items opened.old.store holding }
    ensures sound { IsSoundBeside opened.new.store holding }
    ensures feeds { AreItsFeeds opened.new.feeds.items opened.new.store holding }
{
    'records: for (i, op) in ops.iter().enumerate() {
        let Op::Set(key, value) = op else {
            return false;
        };
        roll_if(&mut opened.store, apart & (i > 0));
        if !is_appended(rt, opened, *key, *value, told.saturating_add(i as u64)) {
            return false;
        }
    }
    true
}

/// Whether the step goes as expected.
pub(super) fn goes<R: Wait>(rt: &R, alloc: Global, opened: &mut Held, step: &Step) -> bool
    requires sound { IsSoundBeside opened.old.store holding }
    requires feeds { AreItsFeeds opened.old.feeds.items opened.old.store holding }
    ensures sound { IsSoundBeside opened.new.store holding }
    ensures feeds { AreItsFeeds opened.new.feeds.items opened.new.store holding }
{
    match step {
        Put(..) | Del(..) | Full(..) | Puts(..) => puts(&mut opened.feeds, step),
        Each(..) | Same(..) | Group(..) | FullGroup(..) => puts(&mut opened.feeds, step),
        Turn(..) | Stops(..) | Flush(..) | Refused(..) | Clean(..) | Uncleaned(..) | Roll => {
            changes(rt, &mut opened.store, step)
        }
        Upgrade(..) | NotUpgraded(..) | Rewrite(..) => changes(rt, &mut opened.store, step),
        Taken(key, value) => is_taken(opened, *key, *value),
        Frame(key, value, told) => is_appended(rt, opened, *key, *value, *told),
        Frames(told, ops) => are_appended(rt, opened, *ops, *told, false),
        Segments(told, ops) => are_appended(rt, opened, *ops, *told, true),
        Settle(count) => opened.store.settle(rt, &mut opened.feeds) == Ok(*count),
        Unsettled(fault) => opened.store.settle(rt, &mut opened.feeds) == Err(*fault),
        Add => is_added(&mut opened.store, &mut opened.more),
        _ => answers(alloc, &mut opened.store, step),
    }
}
