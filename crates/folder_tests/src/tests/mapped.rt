//! A home with one writer as a map: what is set is seen at once, `keep` keeps it, and what was not
//! kept is gone with the home.

ghost use Rattle.bw_home.specs.Ready.{IsReady};

use super::again::SMALL;
use bw_codec::{Key, Record, Value};
use bw_core::StoreFault;
use bw_home::{Home, Legs, MapFault, Options, System, with_store_in_legs};
use bw_ring::Group;
use std::fs;
use std::test::Fail;

/// One call, with what it has to answer.
#[derive(Drop)]
enum Step {
    Set(&'static [u8], &'static [u8]),
    /// Sets of a key, each with a value of 400 bytes, until one waits for this reason.
    Fills(&'static [u8], StoreFault),
    /// A set that waits for this reason.
    Waits(&'static [u8], &'static [u8], StoreFault),
    /// A set that is not put for this reason.
    Refused(&'static [u8], &'static [u8], StoreFault),
    Delete(&'static [u8]),
    /// The value of the first key goes to the second, as one change.
    Move(&'static [u8], &'static [u8], &'static [u8]),
    /// The value of a key; no bytes if it has none.
    Get(&'static [u8], &'static [u8]),
    /// All is kept: so many changes since the store was opened.
    Keep(u64),
    /// What was put is not kept.
    NotKept(StoreFault),
    /// Nothing is set or kept in a home that has not one writer.
    NoMap,
}

use Step::{Delete, Fills, Get, Keep, Move, NoMap, NotKept, Refused, Set, Waits};

// What a set answers.
fn set(home: &mut Home, key: &[u8], value: &[u8]) -> Result<Result<(), MapFault>, Fail>
    requires { IsReady home.old holding }
    ensures { IsReady home.new holding }
{
    let key = Key::new(key)?;
    let value = Value::new(value)?;
    Ok(home.set(key, value))
}

fn delete(home: &mut Home, key: &[u8]) -> Result<bool, Fail>
    requires { IsReady home.old holding }
    ensures { IsReady home.new holding }
{
    let key = Key::new(key)?;
    Ok(home.delete(key) == Ok(()))
}

fn moved(home: &mut Home, from: &[u8], to: &[u8], value: &[u8]) -> Result<bool, Fail>
    requires { IsReady home.old holding }
    ensures { IsReady home.new holding }
{
    let mut group = Group::one(Record::Del(Key::new(from)?));
    let put = Record::Put(Key::new(to)?, Value::new(value)?);
    if group.push(put).is_err() {
        return Ok(false);
    }
    Ok(home.change(group) == Ok(()))
}

fn reads(home: &mut Home, key: &[u8], value: &[u8]) -> Result<bool, Fail>
    requires { IsReady home.old holding }
    ensures { IsReady home.new holding }
{
    let key = Key::new(key)?;
    match home.get(&key)? {
        Some(found) => Ok(found.as_slice() == value),
        None => Ok(value.is_empty()),
    }
}

// Whether nothing is set or kept.
fn is_no_map(home: &mut Home) -> Result<bool, Fail>
    requires { IsReady home.old holding }
    ensures { IsReady home.new holding }
{
    if home.keep() != Err(MapFault::Writers) {
        return Ok(false);
    }
    Ok(set(home, b"a", b"1")? == Err(MapFault::Writers))
}

/// How a step went.
#[derive(PartialEq, Eq, Drop)]
enum Went {
    AsTold,
    Otherwise,
    /// It is not done yet.
    On,
}

// As expected exactly if this holds.
fn told(holds: bool) -> Went {
    match holds {
        true => Went::AsTold,
        false => Went::Otherwise,
    }
}

// One set more of a key, until one waits.
fn fills(home: &mut Home, key: &[u8], cause: StoreFault) -> Result<Went, Fail>
    requires { IsReady home.old holding }
    ensures { IsReady home.new holding }
{
    match set(home, key, &[b'x'; 400])? {
        Ok(()) => Ok(Went::On),
        Err(fault) => Ok(told(fault == MapFault::Waits(cause))),
    }
}

// How the step goes.
fn goes(home: &mut Home, step: &Step) -> Result<Went, Fail>
    requires { IsReady home.old holding }
    ensures { IsReady home.new holding }
{
    match step {
        Fills(key, cause) => fills(home, *key, *cause),
        Set(key, value) => Ok(told(set(home, *key, *value)? == Ok(()))),
        Waits(key, value, cause) => {
            Ok(told(set(home, *key, *value)? == Err(MapFault::Waits(*cause))))
        }
        Refused(key, value, cause) => {
            Ok(told(set(home, *key, *value)? == Err(MapFault::NotPut(Some(*cause)))))
        }
        Delete(key) => Ok(told(delete(home, *key)?)),
        Move(from, to, value) => Ok(told(moved(home, *from, *to, *value)?)),
        Get(key, value) => Ok(told(reads(home, *key, *value)?)),
        Keep(changes) => Ok(told(home.keep() == Ok(*changes))),
        NotKept(cause) => Ok(told(home.keep() == Err(MapFault::NotKept(*cause)))),
        NoMap => Ok(told(is_no_map(home)?)),
    }
}

/// Steps, one a leg, or several if a step is not done at once.
#[derive(Drop)]
struct Walks {
    steps: &'static [Step],
    at: usize,
}

impl Walks {
    fn over(steps: &'static [Step]) -> Walks {
        Walks { steps, at: 0 }
    }
}

impl<R: System> Legs<R> for Walks {
    // How many steps went as expected before one did not.
    type Answer = Result<usize, Fail>;

    fn leg(&mut self, _rt: &R, home: &mut Home) -> Option<Result<usize, Fail>> {
        let Some(step) = self.steps.get(self.at) else {
            return Some(Ok(self.at));
        };
        match goes(home, step) {
            Ok(Went::On) => None,
            Ok(Went::AsTold) => {
                self.at = self.at.saturating_add(1);
                None
            }
            Ok(Went::Otherwise) => Some(Ok(self.at)),
            Err(fail) => Some(Err(fail)),
        }
    }
}

const FIRST_LIFE: [Step; 12] = [
    Get(b"a", b""),
    Set(b"a", b"1"),
    Get(b"a", b"1"),
    Set(b"b", b"2"),
    Delete(b"a"),
    Get(b"a", b""),
    Keep(3),
    Move(b"b", b"c", b"3"),
    Get(b"b", b""),
    Get(b"c", b"3"),
    Keep(5),
    Set(b"c", b"4"),
];

// What was not kept is not there.
const SECOND_LIFE: [Step; 4] = [Get(b"a", b""), Get(b"b", b""), Get(b"c", b"3"), Keep(0)];

// The first life in a folder, and the first step of that one, that goes otherwise than expected.
fn wrong_in<R: System>(
    rt: &R,
    path: &str,
    options: &Options,
    lives: &[&'static [Step]],
) -> Result<Option<(usize, usize)>, Fail> {
    for (life, steps) in lives.iter().enumerate() {
        let went = with_store_in_legs(rt, path, options, &mut Walks::over(*steps))??;
        if went != steps.len() {
            return Ok(Some((life, went)));
        }
    }
    fs::remove_dir_all(rt, path)?;
    Ok(None)
}

#[test]
fn a_home_is_a_map(rt: HostRuntime) -> Result<(), Fail> {
    let lives: [&'static [Step]; 2] = [&FIRST_LIFE, &SECOND_LIFE];
    let wrong = wrong_in(&rt, "folder_tests_mapped", &SMALL, &lives)?;
    assert_eq!(&rt; wrong, None);
    Ok(())
}

/// One segment, which an ordinary flush leaves to a cleaning: nothing is ever kept.
const ONE_SPARE: Options = Options {
    segments: 1,
    ..SMALL
};

// Once the first frame is full a change waits in the queue, which has room for eight: all that was
// set before is read, and what waits is not.
const FULL: [Step; 13] = [
    Set(b"a", b"1"),
    NotKept(StoreFault::NoSegment),
    Fills(b"k", StoreFault::NoSegment),
    Waits(b"l", b"1", StoreFault::NoSegment),
    Waits(b"l", b"2", StoreFault::NoSegment),
    Waits(b"l", b"3", StoreFault::NoSegment),
    Waits(b"l", b"4", StoreFault::NoSegment),
    Waits(b"l", b"5", StoreFault::NoSegment),
    Waits(b"l", b"6", StoreFault::NoSegment),
    Waits(b"l", b"7", StoreFault::NoSegment),
    Refused(b"l", b"8", StoreFault::NoSegment),
    Get(b"l", b""),
    Get(b"a", b"1"),
];

#[test]
fn a_change_without_room_waits(rt: HostRuntime) -> Result<(), Fail> {
    let wrong = wrong_in(&rt, "folder_tests_mapped_full", &ONE_SPARE, &[&FULL])?;
    assert_eq!(&rt; wrong, None);
    Ok(())
}

/// Two writers: such a home is no map.
const TWO_WRITERS: Options = Options {
    writers: 2,
    ..SMALL
};

const NO_MAP: [Step; 2] = [NoMap, Get(b"a", b"")];

#[test]
fn a_home_of_two_writers_is_no_map(rt: HostRuntime) -> Result<(), Fail> {
    let wrong = wrong_in(&rt, "folder_tests_no_map", &TWO_WRITERS, &[&NO_MAP])?;
    assert_eq!(&rt; wrong, None);
    Ok(())
}
