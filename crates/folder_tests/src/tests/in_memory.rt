//! A store in memory, and one that goes on from segments there.

ghost use Rattle.bw_home.specs.Ready.{IsReady};

use super::again::SMALL;
use super::{PutAndWalk, Walk, is_first};
use bw_codec::{Key, Record, Value};
use bw_device::{Desk, MemSegment};
use bw_home::{Course, Found, Home, System, with_segments, with_store_in_memory};
use bw_ring::Group;
use std::alloc::Global;
use std::test::Fail;
use test_kit::vectors::FIRST;

#[test]
fn a_store_in_memory_reads_its_pair(rt: HostRuntime) -> Result<(), Fail> {
    let pair = with_store_in_memory(&rt, &SMALL, PutAndWalk)??;
    assert!(&rt; is_first(pair));
    Ok(())
}

// The worked segment of one frame, in memory.
fn first_segment(alloc: Global, desk: &mut Desk) -> Result<MemSegment, Fail> {
    let bytes = hex::decode(alloc, FIRST)?;
    match MemSegment::with_bytes(alloc, desk.take()?, SMALL.capacity, bytes.as_slice()) {
        Ok(segment) => Ok(segment),
        Err(refused) => Err(Fail::from(refused.cause)),
    }
}

#[test]
fn a_store_goes_on_from_the_worked_segment(rt: HostRuntime) -> Result<(), Fail> {
    let mut desk = Desk::new(rt.alloc(), 2)?;
    let segments = vec![in rt.alloc(); first_segment(rt.alloc(), &mut desk)?]?;
    let pair = with_segments(&rt, desk, segments, &SMALL, Walk)??;
    assert!(&rt; is_first(pair));
    Ok(())
}

/// What was found, before anything is done.
#[derive(Drop)]
struct AsFound;

impl<R: System> Course<R> for AsFound {
    type Answer = Option<Found>;

    fn run(self, _rt: &R, home: &mut Home) -> Option<Found> {
        home.found()
    }
}

#[test]
fn what_was_found_is_told(rt: HostRuntime) -> Result<(), Fail> {
    let mut desk = Desk::new(rt.alloc(), 2)?;
    let segments = vec![in rt.alloc(); first_segment(rt.alloc(), &mut desk)?]?;
    let found = with_segments(&rt, desk, segments, &SMALL, AsFound)?;
    let told = Found {
        live: 1,
        spares: 0,
        dropped: 0,
        first: 1,
        last: 1,
        tail: 0,
    };
    assert!(&rt; found == Some(told));
    Ok(())
}

#[test]
fn nothing_was_found_where_all_is_new(rt: HostRuntime) -> Result<(), Fail> {
    let found = with_store_in_memory(&rt, &SMALL, AsFound)?;
    assert!(&rt; found.is_none());
    Ok(())
}

// Whether the queue of a writer takes a group.
fn is_taken(home: &mut Home, writer: usize) -> Result<bool, Fail>
    requires { IsReady home.old holding }
    ensures { IsReady home.new holding }
{
    let group = Group::one(Record::Put(Key::new(b"k")?, Value::new(b"v")?));
    Ok(home.offer(writer, group).is_ok())
}

// How many of so many groups it takes, if nobody takes from it meanwhile.
fn taken_of(home: &mut Home, writer: usize, groups: u32) -> Result<u32, Fail>
    requires { IsReady home.old holding }
    ensures { IsReady home.new holding }
{
    let mut taken = 0u32;
    'groups: for _ in 0..groups {
        taken = taken.saturating_add(u32::from(is_taken(home, writer)?));
    }
    Ok(taken)
}

/// Fills the queue of 8 places, and puts a group all the same; there is no second writer.
#[derive(Drop)]
struct Fill;

impl<R: System> Course<R> for Fill {
    type Answer = Result<bool, Fail>;

    fn run(self, _rt: &R, home: &mut Home) -> Result<bool, Fail> {
        let taken = taken_of(home, 0, 10)?;
        let group = Group::one(Record::Put(Key::new(b"k")?, Value::new(b"w")?));
        let was_put = home.put_group(0, group).is_ok();
        let beside = taken_of(home, 1, 1)?;
        Ok(taken == 8 && was_put && beside == 0)
    }
}

#[test]
fn a_full_queue_is_taken_from_before_a_put(rt: HostRuntime) -> Result<(), Fail> {
    let went = with_store_in_memory(&rt, &SMALL, Fill)??;
    assert!(&rt; went);
    Ok(())
}

// Whether this is the pair of this key; with no key, whether there is none.
fn is_of(pair: Option<(Key, Value)>, key: &[u8]) -> bool {
    match pair {
        Some((at, _)) => at.as_slice() == key,
        None => key.len() == 0,
    }
}

/// Puts two records, and walks back over them.
#[derive(Drop)]
struct PutAndWalkBack;

impl<R: System> Course<R> for PutAndWalkBack {
    type Answer = Result<bool, Fail>;

    fn run(self, _rt: &R, home: &mut Home) -> Result<bool, Fail> {
        home.put(Record::Put(Key::new(b"k")?, Value::new(b"v")?))?;
        home.put(Record::Put(Key::new(b"m")?, Value::new(b"w")?))?;
        home.settle()?;
        let last = is_of(home.prev_at(&Key::new(b"z")?)?, b"m");
        let at = is_of(home.prev_at(&Key::new(b"m")?)?, b"m");
        let below = is_of(home.prev_below(&Key::new(b"m")?)?, b"k");
        let none = is_of(home.prev_below(&Key::new(b"k")?)?, b"");
        Ok(last && at && below && none)
    }
}

#[test]
fn a_walk_back_goes_from_key_to_key(rt: HostRuntime) -> Result<(), Fail> {
    let went = with_store_in_memory(&rt, &SMALL, PutAndWalkBack)??;
    assert!(&rt; went);
    Ok(())
}
