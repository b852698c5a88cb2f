// A ring between two threads.

ghost use Rattle.std.specs.Prelude.{◌≡◌};
ghost use Rattle.bw_ring.specs.Ends.{ring_of_feed, ring_of_lane, IsFeedOf};

use super::rings::{numbered, one_ring};
use bw_ring::{Feed, Group, Lane};
use std::snapshot::Snapshot;
use std::thread;
use std::thread::{Promise, Threads};

/// How many records go through the ring of 8 places.
const RECORDS: u32 = 1000;

/// How many of them are taken while the feed is evicted: the groups that are left fit the ring.
const TAKEN_MEANWHILE: u32 = 980;

/// How many groups are left then: twice one, two, three and four records.
const GROUPS_LEFT: usize = 8;

/// How often each side tries at most, so that the test ends whatever the schedule.
const TRIES: u32 = 50_000_000;

/// The feed that comes back is an end of the ring of the feed that left.
#[derive(Drop)]
struct OfOneRing(Snapshot<Feed>);

impl Promise<Feed> for OfOneRing {
    ghost kept_by = { λ p feed. ring_of_feed feed ≡ ring_of_feed p.0.value };
}

/// The group that begins with this number. Those that follow each other have one, two, three and
/// four records, and then one again.
fn group_at(number: u32) -> Group {
    let count = match number % 10 {
        0 => 1,
        1 => 2,
        3 => 3,
        _ => 4,
    };
    let mut group = Group::one(numbered(number));
    for k in 1..count {
        let _ = group.push(numbered(number.wrapping_add(k)));
    }
    group
}

fn is_group_at(group: &Group, number: u32) -> bool {
    group.as_slice() == group_at(number).as_slice()
}

// The number after those of a group.
fn behind(group: &Group, number: u32) -> u32 {
    number.saturating_add(group.len() as u32)
}

fn put_numbered(feed: Feed) -> Feed
    ensures { ring_of_feed result ≡ ring_of_feed feed }
{
    let mut feed = feed;
    let mut next = 0;
    'tries: for _ in 0..TRIES {
        if next >= RECORDS {
            break;
        }
        let group = group_at(next);
        let after = behind(&group, next);
        match feed.put_group(group) {
            Ok(()) => next = after,
            Err(_) => thread::yield_now(),
        }
    }
    feed
}

/// Whether groups of the records of these numbers are taken, whole and in their order.
fn take_numbered(lane: &mut Lane, first: u32, end: u32) -> bool
    ensures { ring_of_lane lane.new ≡ ring_of_lane lane.old }
{
    let mut next = first;
    'tries: for _ in 0..TRIES {
        if next >= end {
            break;
        }
        match lane.take() {
            Some(group) => {
                if !is_group_at(&group, next) {
                    return false;
                }
                next = behind(&group, next);
            }
            None => thread::yield_now(),
        }
    }
    next == end
}

/// Whether the groups that are left are known beside the feed, and taken, and then none is left.
fn is_left(feed: &mut Feed, lane: &mut Lane) -> bool
    requires { IsFeedOf feed.old lane.old }
{
    lane.rest_beside(feed) == GROUPS_LEFT
        && take_numbered(lane, TAKEN_MEANWHILE, RECORDS)
        && lane.rest_beside(feed) == 0
        && lane.peek().is_none()
}

/// Whether all groups are taken in their order, most of them while the feed is evicted.
fn go_through<R: AllocGlobal + Threads>(rt: &R) -> Option<bool> {
    let Ok((feed, mut lane)) = one_ring(rt.alloc(), 8) else {
        return None;
    };
    let promise = OfOneRing(Snapshot::of(&feed));
    let Ok(writer) = thread::spawn_with(rt, promise, move || put_numbered(feed)) else {
        return None;
    };
    let meanwhile = take_numbered(&mut lane, 0, TAKEN_MEANWHILE);
    let mut feed = writer.join(rt);
    Some(meanwhile && is_left(&mut feed, &mut lane))
}

#[test]
fn a_feed_in_a_thread_of_its_own_is_taken_in_order(rt: HostRuntime) {
    assert!(rt; go_through(&rt) == Some(true));
}
