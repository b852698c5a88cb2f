//! What boxes are, and where they go once nothing can be refused any more.
//!
//! A refusal gives all boxes back in the order in which they were handed in. A box that was moved
//! to its place among the live ones could not be. So it is noted by position what each of them is,
//! the lists get their room, and the boxes move last. One that holds a part of a header is dropped:
//! a crash came while its header was written, nothing stands in it, and its lease comes back.

ghost use Rattle.std.specs.Prelude.{◌≡◌, ◌≤◌, ◌<◌, ◌+◌, length, map, vec_len, IfOk};
ghost use Rattle.std.specs.Vec.{vec_capacity};
ghost use Rattle.bw_care.specs.Parting.{place_among, parted_by, parted};
ghost use Rattle.std.specs.List.{AllByRecursion};
ghost use Rattle.bw_care.specs.Surveying.{kind_seen, parts_seen, tails_found, IsShortFound};

use crate::order::Found;
use crate::scan::Scan;
use bw_device::Segment;
use std::alloc::{AllocError, Global};

/// What a box is.
#[derive(Clone, Copy)]
pub enum Kind {
    Bare,
    Part,
    Live(u64),
}

/// A segment with a header.
#[derive(Drop)]
pub struct Numbered {
    pub number: u64,
    pub segment: Box<dyn Segment>,
}

/// Boxes that hold nothing, and segments in the order of their numbers.
#[derive(Drop)]
pub struct Parts {
    pub live: Vec<Numbered>,
    pub spares: Vec<Box<dyn Segment>>,
}

// Where a number stands in order.
fn place_of(live: &[Numbered], number: u64) -> usize
    ensures place { result ≡ place_among number (map (λ n. n.number) live.now) }
    ensures within { result ≤ length live.now }
{
    for (at, one) in live.iter().enumerate() {
        if number < one.number {
            return at;
        }
    }
    live.len()
}

// One box goes to its place. No memory is taken.
fn part_one(
    live: &mut Vec<Numbered>,
    spares: &mut Vec<Box<dyn Segment>>,
    kind: Kind,
    segment: Box<dyn Segment>,
)
    requires live { vec_len live.old < vec_capacity live.old }
    requires spares { vec_len spares.old < vec_capacity spares.old }
    ensures parted { (
      map (λ n. (n.number, holding n.segment)) live.new.items,
      map holding spares.new.items,
    )
        ≡ parted_by (holding segment) kind
        (map (λ n. (n.number, holding n.segment)) live.old.items, map holding spares.old.items) }
    ensures live_len { vec_len live.new ≤ vec_len live.old + 1 }
    ensures live_room { vec_capacity live.old ≤ vec_capacity live.new }
    ensures spares_len { vec_len spares.new ≤ vec_len spares.old + 1 }
    ensures spares_room { vec_capacity spares.old ≤ vec_capacity spares.new }
{
    match kind {
        Kind::Bare => spares.push_reserved(segment),
        Kind::Part => drop(segment),
        Kind::Live(number) => {
            let place = place_of(live, number);
            match live.insert(place, Numbered { number, segment }) {
                Ok(()) => {}
                Err(_) => unreachable!(),
            }
        }
    }
}

/// Each box goes to its place; one with a part of a header is dropped. No memory is taken.
pub fn part(boxes: Vec<Box<dyn Segment>>, kinds: &[Kind], parts: Parts) -> Parts
    requires same { length kinds.now ≡ length boxes.items }
    requires live { vec_len parts.live + length kinds.now ≤ vec_capacity parts.live }
    requires spares { vec_len parts.spares + length kinds.now ≤ vec_capacity parts.spares }
    ensures { (
      map (λ n. (n.number, holding n.segment)) result.live.items,
      map holding result.spares.items,
    )
        ≡ parted (map holding boxes.items) kinds.now (
          map (λ n. (n.number, holding n.segment)) parts.live.items,
          map holding parts.spares.items,
        ) }
{
    let Parts { live, spares } = parts;
    let mut live = live;
    let mut spares = spares;
    let mut boxes = boxes;
    boxes.reverse();
    let mut at = 0;
    'boxes: while let Some(segment) = boxes.pop() {
        part_one(&mut live, &mut spares, kinds[at], segment);
        at += 1;
    }
    Parts { live, spares }
}

fn kind_of(scan: &Scan) -> Kind
    ensures { result ≡ kind_seen scan.now }
{
    match scan {
        Scan::Live(header, _) => Kind::Live(header.number),
        Scan::Bare => Kind::Bare,
        Scan::Part => Kind::Part,
    }
}

/// What each box is.
pub fn kinds_of(alloc: Global, scans: &[Scan]) -> Result<Vec<Kind>, AllocError>
    ensures { IfOk result (λ kinds. kinds.items ≡ map kind_seen scans.now) }
{
    let mut kinds = Vec::new(alloc);
    let mut at = 0;
    'scans: while at < scans.len() {
        kinds.push(kind_of(&scans[at]))?;
        at += 1;
    }
    Ok(kinds)
}

/// How many boxes hold a part of a header.
pub fn parts_of(scans: &[Scan]) -> u32
    requires { length scans.now ≤ 4096 }
    ensures { result ≡ parts_seen scans.now }
{
    let mut count: u32 = 0;
    let mut at = 0;
    'scans: while at < scans.len() {
        match &scans[at] {
            Scan::Part => count += 1,
            Scan::Bare => {}
            Scan::Live(_, _) => {}
        }
        at += 1;
    }
    count
}

/// The bytes of all tails. A box holds at most 2^30 bytes, so the sum fits.
pub fn tail_of(live: &[Found]) -> u64
    requires few { length live.now ≤ 4096 }
    requires short { AllByRecursion IsShortFound live.now }
    ensures { result ≡ tails_found live.now }
{
    let mut tail: u64 = 0;
    let mut at = 0;
    'live: while at < live.len() {
        tail += live[at].behind.tail as u64;
        at += 1;
    }
    tail
}
