//! Of `bw_ring`, `bw_device`, `bw_log`, `bw_history`, `bw_versions` and `bw_drive`.

ghost use Rattle.std.specs.Prelude.{◌≡◌, IfOk};
ghost use Rattle.bw_ring.specs.Ends.{IsFeedOf, ring_of_feed};
ghost use Rattle.bw_care.specs.Views.{IsSound};

use super::asked;
use bw_care::Recovered;
use bw_codec::{Key, Place, Record};
use bw_device::{
    DeadSegment, Desk, FuseSegment, MemSegment, Segment, append_to, are_spares, capacity_of,
    failures_of, is_spare, lease_of, len_of, lend_of, read_from,
};
use bw_drive::{Gate, MeetGate, OpenGate};
use bw_history::{Entry, PackedEntry};
use bw_log::Log;
use bw_page::Leaves;
use bw_ring::{Feed, FullGroup, Group, Items, Lane, LanesError, lanes};
use bw_versions::Board;
use std::alloc::Global;
use test_boxes::{LEAST, NEVER, found_in, segments_of};
use test_kit::marks::begin_without;
use test_kit::vectors::{THIRD_LOST, THIRD_OLDER, put};

/// The two ends of one ring.
fn one_ring(alloc: Global) -> Result<(Feed, Lane), LanesError>
    ensures { IfOk result (λ ends. IsFeedOf ends.0 ends.1) }
{
    let (mut feeds, mut ends) = lanes(alloc, 1, 4)?;
    match (feeds.pop(), ends.pop()) {
        (Some(feed), Some(lane)) => Ok((feed, lane)),
        _ => Err(LanesError::BadConfig),
    }
}

/// Passes over a record that the lane lends.
fn passes(lane: &mut Lane) -> bool {
    let Some(lent) = lane.alone() else {
        return false;
    };
    let item = lent.copy();
    lane.pass_alone(&item);
    !lane.is_known()
}

/// Puts three records, and takes them by each call that does so.
fn go_through(feed: &mut Feed, lane: &mut Lane, one: Record, other: Record) -> bool
    requires { IsFeedOf feed.old lane.old }
{
    let third = other.copy();
    let are_put = feed.room() == 4 && feed.put(one).is_ok() && feed.put(other).is_ok();
    let is_full = feed.put(third).is_err();
    let waits = lane.rest_beside(feed) == 3;
    let is_taken = lane.peek().is_some() && lane.take().is_some();
    if !lane.finds() {
        return false;
    }
    let is_known = lane.peek_known().len() == 1;
    let is_last = lane.take_known().as_slice().len() == 1 && passes(lane);
    are_put && !is_full && waits && is_taken && is_known && is_last
}

/// Whether a full ring hands a group of two back.
fn is_handed_back(feed: &mut Feed, group: Group) -> bool
    ensures { ring_of_feed feed.new ≡ ring_of_feed feed.old }
{
    match feed.put_group(group) {
        Ok(()) => false,
        Err(FullGroup(back)) => matches!(back.into_items(), Items::Two(_)),
    }
}

/// A group of two, of which nothing takes memory; the group goes through a ring of four places.
fn goes_whole(feed: &mut Feed, lane: &mut Lane, one: Record, other: Record) -> bool
    requires { IsFeedOf feed.old lane.old }
{
    let mut group = Group::one(one);
    let is_longer = group.push(other).is_ok() && group.len() == 2 && group.get(1).is_some();
    let are_two = feed.put_group(group.copy()).is_ok() && feed.put_group(group.copy()).is_ok();
    let are_four = feed.put_group(group.copy()).is_ok() && feed.put_group(group.copy()).is_ok();
    let is_full = is_handed_back(feed, group);
    let waits = lane.rest_beside(feed) == 4;
    let is_put = is_longer && are_two && are_four && is_full && waits;
    is_put && lane.take().is_some_and(|group| group.len() == 2)
}

/// Two records through one ring, each by itself or in groups.
fn through_one_ring(alloc: Global, in_groups: bool) -> Option<bool> {
    let (mut feed, mut lane) = one_ring(alloc).ok()?;
    let (one, other) = (put(b"k", b"v")?, put(b"l", b"w")?);
    begin_without(alloc);
    let is_so = if in_groups {
        goes_whole(&mut feed, &mut lane, one, other)
    } else {
        go_through(&mut feed, &mut lane, one, other)
    };
    asked(alloc, is_so)
}

fn leases(alloc: Global) -> Option<bool> {
    let mut desk = Desk::new(alloc, 2).ok()?;
    let lease = desk.take().ok()?;
    begin_without(alloc);
    let is_so = lease.number() == 0 && desk.is_out(0) && desk.collect() == 0;
    drop(lease);
    asked(alloc, is_so && desk.collect() == 1 && !desk.is_out(0))
}

/// Whether a segment lends these bytes, or lends none if it is one that does not.
fn lends(one: &dyn Segment, is_lender: bool, bytes: &[u8]) -> bool {
    match one.lend() {
        Some(lent) => is_lender && *lent == *bytes,
        None => !is_lender,
    }
}

/// Whether a segment takes three bytes and gives them back, if it has room.
fn holds(one: &mut dyn Segment, lease: u32, is_lender: bool) -> bool {
    let mut out = [0; 3];
    if one.capacity() != 8 || one.len() != 0 || one.failures() != 0 {
        return false;
    }
    let is_held = one.append(b"abc").is_ok();
    if one.len() < 3 || one.failures() != 0 {
        return false;
    }
    let is_lent = lends(one, is_lender, b"abc");
    is_held && is_lent && one.read(0, &mut out).is_ok() && out == *b"abc" && one.lease() == lease
}

/// A segment of each kind in memory.
fn segments(alloc: Global) -> Option<bool> {
    let mut desk = Desk::new(alloc, 4).ok()?;
    let mut one = MemSegment::new(alloc, desk.take().ok()?, 8).ok()?;
    let other = MemSegment::new(alloc, desk.take().ok()?, 8).ok()?;
    let third = MemSegment::new(alloc, desk.take().ok()?, 8).ok()?;
    let lease = desk.take().ok()?;
    let Ok(bytes) = Vec::with_capacity(alloc, 8) else {
        return None;
    };
    begin_without(alloc);
    let mut fourth = MemSegment::of_vec(lease, 8, bytes);
    let mut fuse = FuseSegment::new(other, 9, 0);
    let mut dead = DeadSegment::new(third, 9, 0, 0);
    let are_lenders = holds(&mut one, 0, true) && holds(&mut fourth, 3, true);
    let is_so = are_lenders && holds(&mut fuse, 1, false) && holds(&mut dead, 2, false);
    asked(alloc, is_so)
}

/// Bytes go into the first box, if it takes them, and come out of it.
fn are_held(boxes: &mut Vec<Box<dyn Segment>>) -> bool {
    if boxes.as_slice().len() != 2 {
        return false;
    }
    let (len, room) = (
        len_of(boxes.as_slice(), 0),
        capacity_of(boxes.as_slice(), 0),
    );
    if failures_of(boxes.as_slice(), 0) != 0 || len != 0 || room < 3 {
        return false;
    }
    let went = append_to(boxes, 0, b"abc").is_ok();
    let mut out = [0; 3];
    if boxes.as_slice().len() != 2 || failures_of(boxes.as_slice(), 0) != 0 {
        return false;
    }
    // Boxes of tests count their reads, and lend nothing.
    let lends_none = lend_of(boxes.as_slice(), 0).is_none();
    went && lends_none
        && len_of(boxes.as_slice(), 0) >= 3
        && read_from(boxes, 0, 0, &mut out).is_ok()
        && out == *b"abc"
}

/// What is asked of boxes by their numbers.
fn are_boxes(boxes: &mut Vec<Box<dyn Segment>>) -> bool {
    if boxes.as_slice().len() != 2 {
        return false;
    }
    let all = boxes.as_slice();
    let is_first = is_spare(&all[0], 100) && lease_of(all, 0) == 0 && len_of(all, 0) == 0;
    let are_right = are_spares(all, 100)
        && capacity_of(all, 1) == 65_560
        && failures_of(all, 1) == 0;
    is_first && are_right
}

/// So many boxes, of which the first ones have the bytes of these texts in hex.
fn boxes_of(alloc: Global, many: usize, texts: &[&'static str]) -> Option<Vec<Box<dyn Segment>>> {
    let (segments, _desk) = segments_of(alloc, many, texts, LEAST, NEVER)?;
    let mut boxes: Vec<Box<dyn Segment>> = Vec::new(alloc);
    for segment in segments {
        boxes.push(Box::new(alloc, segment).ok()?).ok()?;
    }
    Some(boxes)
}

fn boxes(alloc: Global) -> Option<bool> {
    let mut boxes = boxes_of(alloc, 2, &[])?;
    begin_without(alloc);
    let is_so = are_boxes(&mut boxes) && are_held(&mut boxes);
    asked(alloc, is_so)
}

/// The empty page 1 and k=1; and after it j=2.
const SEGMENTS: &[&str] = &[THIRD_LOST, THIRD_OLDER];

/// Two segments and a spare.
fn worked(alloc: Global) -> Option<Vec<Box<dyn Segment>>> {
    boxes_of(alloc, 3, SEGMENTS)
}

/// What is asked of a log.
fn is_log(log: &Log) -> bool
    requires { IsSound log.now holding }
{
    let numbers = log.m() == 4 && log.limit() == 65_536 && log.next_frame() == Some(3);
    let counts = log.live() == 2 && log.spares() == 1 && log.pages() == 1 && !log.is_failed();
    let newest = Place { frame: 2, index: 0 };
    let places = log.place_of(1) == Some(newest)
        && log.base_of(1) == Some(Place { frame: 1, index: 0 })
        && log.walk_of(1) == 2;
    let boxes = log.live_segment(1) == Some((2, 1, 69)) && log.spare_leases(0) == Some(2);
    let versions = log.live_version(1) == Some(2) && log.live_last(1) == Some(2);
    versions
        && numbers
        && counts
        && places
        && boxes
        && log.oldest() == Some((1, 1))
        && log.line(1).is_some()
}

fn is_closed(log: &mut Log) -> bool
    requires { IsSound log.old holding }
    ensures { IsSound log.new holding }
{
    let is_so = is_log(log);
    log.roll();
    is_so && log.live() == 2
}

fn logs(alloc: Global) -> Option<bool> {
    let mut found = found_in(alloc, worked(alloc)?)?;
    begin_without(alloc);
    let is_so = is_closed(&mut found.log);
    asked(alloc, is_so)
}

/// The boxes of a log come out of it.
fn log_is_adopted(alloc: Global) -> Option<bool> {
    let Recovered {
        log,
        leaves: _leaves,
        pairs: _pairs,
        first: _first,
        last: _last,
        tail: _tail,
        dropped: _dropped,
    } = found_in(alloc, worked(alloc)?)?;
    begin_without(alloc);
    let (live, spares) = log.into_segments();
    asked(alloc, live.len() == 2 && spares.len() == 1)
}

fn boards(alloc: Global) -> Option<bool> {
    let start = Leaves::one_empty(alloc, 4).ok()?;
    let board = Board::new(alloc, &start).ok()?;
    let key = Key::new(b"k").ok()?;
    begin_without(alloc);
    let is_so = board.leaves().count() == 1 && board.get(&key).is_none();
    asked(alloc, is_so)
}

/// Whether a copy has the same record.
fn is_copied(packed: &PackedEntry) -> bool {
    match packed.copy() {
        Ok(copy) => copy.item().record() == packed.item().record(),
        Err(_) => false,
    }
}

fn entries(alloc: Global) -> Option<bool> {
    let entry = Entry {
        writer: 3,
        more: true,
        item: put(b"k", b"v")?,
    };
    let packed = PackedEntry::of(alloc, 3, true, &entry.item).ok()?;
    begin_without(alloc);
    let is_so = packed.entry() == entry && packed.writer() == 3 && is_copied(&packed);
    asked(alloc, is_so)
}

fn gates(alloc: Global) -> Option<bool> {
    let gate = MeetGate::new(alloc, 1, 9).ok()?;
    begin_without(alloc);
    OpenGate.before(0, 0);
    OpenGate.after(0, 0);
    gate.before(0, 0);
    gate.after(0, 0);
    OpenGate.durable(0, 1);
    gate.durable(0, 1);
    asked(alloc, gate.met())
}

/// What each of these says.
pub(super) fn said(alloc: Global) -> [Option<bool>; 10] {
    [
        through_one_ring(alloc, false),
        through_one_ring(alloc, true),
        leases(alloc),
        segments(alloc),
        boxes(alloc),
        logs(alloc),
        log_is_adopted(alloc),
        boards(alloc),
        entries(alloc),
        gates(alloc),
    ]
}
