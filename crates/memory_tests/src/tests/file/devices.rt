//! Desks, segments in memory, and rings.

use bw_device::{Desk, Lease, MemSegment, NotMade, NotTaken, Refused, Segment};
use bw_ring::{Feed, Group, Lane, LanesError, lanes};
use std::alloc::Global;
use std::sync::Wait;
use std::thread::Threads;
use test_kit::marks::{begin, end};
use test_kit::refusals::{Ask, Row, Try, asked_again, then, tried, wrong_row};
use test_kit::vectors::{is, put};

/// One call that may be refused.
#[derive(Drop)]
enum Call {
    NewDesk,
    Take,
    /// A segment, of these bytes if they are told.
    Segment(Option<&'static [u8]>),
    Lanes,
}

fn makes_desk(alloc: Global) -> Option<Try> {
    begin(alloc);
    let made = Desk::new(alloc, 3);
    let refused = end(alloc);
    match made {
        Ok(mut desk) => tried(true, refused, is_next(&mut desk, 0)),
        Err(fault) => tried(false, refused, fault == NotMade::NoMemory),
    }
}

/// Whether the lease that is taken next has this number.
fn is_next(desk: &mut Desk, number: u32) -> bool {
    match desk.take() {
        Ok(lease) => lease.number() == number,
        Err(_) => false,
    }
}

/// One try of the second lease of a desk: if it is refused, it is free.
fn takes(alloc: Global, desk: &mut Desk) -> Option<Try> {
    begin(alloc);
    let taken = desk.take();
    let refused = end(alloc);
    match taken {
        Ok(lease) => tried(true, refused, lease.number() == 1 && desk.is_out(1)),
        Err(fault) => tried(
            false,
            refused,
            fault == NotTaken::NoMemory && !desk.is_out(1),
        ),
    }
}

fn is_taken(alloc: Global) -> Option<Try> {
    let mut desk = Desk::new(alloc, 3).ok()?;
    let _first = desk.take().ok()?;
    let first = takes(alloc, &mut desk)?;
    if first == Try::Refused {
        return then(first, takes(alloc, &mut desk));
    }
    Some(first)
}

/// One try of a segment: the lease that comes back if it is refused.
fn segment(
    alloc: Global,
    lease: Lease,
    bytes: Option<&[u8]>,
) -> (bool, Result<MemSegment, Refused>) {
    begin(alloc);
    let made = match bytes {
        Some(bytes) => MemSegment::with_bytes(alloc, lease, 100, bytes),
        None => MemSegment::new(alloc, lease, 100),
    };
    (end(alloc), made)
}

fn takes_more(segment: &mut MemSegment) -> bool {
    if segment.capacity() != 100 || segment.len() > 90 || segment.failures() != 0 {
        return false;
    }
    segment.append(b"more").is_ok()
}

/// Whether a segment has these bytes, and takes more.
fn holds(segment: &mut MemSegment, bytes: &[u8]) -> bool {
    let mut out = [0; 3];
    let n = bytes.len();
    if segment.len() != n as u64 || segment.failures() != 0 || n > 3 {
        return false;
    }
    let is_read = segment.read(0, &mut out[..n]).is_ok() && is(&out[..n], bytes);
    is_read && segment.lease() == 1 && takes_more(segment)
}

fn is_made(alloc: Global, bytes: Option<&[u8]>) -> Option<Try> {
    let mut desk = Desk::new(alloc, 3).ok()?;
    let _first = desk.take().ok()?;
    let lease = desk.take().ok()?;
    let held = match bytes {
        Some(bytes) => bytes,
        None => b"",
    };
    match segment(alloc, lease, bytes) {
        (refused, Ok(mut made)) => tried(true, refused, holds(&mut made, held)),
        (refused, Err(told)) => {
            let is_left = told.cause == NotMade::NoMemory && told.lease.number() == 1;
            let is_out = desk.collect() == 0 && desk.is_out(1);
            let first = tried(false, refused, is_left && is_out)?;
            match segment(alloc, told.lease, bytes) {
                (false, Ok(mut made)) => {
                    let went = holds(&mut made, held);
                    then(first, tried(true, false, went))
                }
                _ => None,
            }
        }
    }
}

/// Whether a group is the one record of `k`.
fn is_one(group: &Group) -> bool {
    match (group.get(0), put(b"k", b"v")) {
        (Some(first), Some(record)) => group.len() == 1 && *first == record,
        _ => false,
    }
}

/// Whether a record goes through the ends of the second ring.
fn goes_through(feeds: &mut Vec<Feed>, ends: &mut Vec<Lane>) -> bool {
    let (Some(mut feed), Some(mut lane)) = (feeds.pop(), ends.pop()) else {
        return false;
    };
    match put(b"k", b"v") {
        Some(record) => {
            feed.put(record).is_ok() && lane.take().is_some_and(|group| is_one(&group))
        }
        None => false,
    }
}

fn makes_lanes(alloc: Global) -> Option<Try> {
    begin(alloc);
    let made = lanes(alloc, 2, 4);
    let refused = end(alloc);
    match made {
        Ok((mut feeds, mut ends)) => tried(true, refused, goes_through(&mut feeds, &mut ends)),
        Err(fault) => tried(false, refused, fault == LanesError::NoMemory),
    }
}

impl Ask for Call {
    fn asks<R: AllocGlobal + Wait>(&self, rt: &R) -> Option<Try> {
        let alloc = rt.alloc();
        match self {
            Call::Lanes => makes_lanes(alloc),
            _ => makes_desk(alloc),
        }
    }
}

impl Row for Call {
    fn goes<R: AllocGlobal + Threads + Wait>(&self, rt: &R) -> Option<Try> {
        let alloc = rt.alloc();
        match self {
            Call::Take => is_taken(alloc),
            Call::Segment(bytes) => is_made(alloc, *bytes),
            _ => asked_again(rt, self),
        }
    }
}

const CALLS: &[Call] = &[
    Call::NewDesk,
    Call::Take,
    Call::Segment(None),
    Call::Segment(Some(b"")),
    Call::Segment(Some(b"abc")),
    Call::Lanes,
];

#[test]
fn desks_segments_and_rings(rt: HostRuntime) {
    assert_eq!(rt; wrong_row(&rt, CALLS), None);
}
