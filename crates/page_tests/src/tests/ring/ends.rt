// The two ends of one ring, step by step.

ghost use Rattle.std.specs.Prelude.{◌≡◌, IfSome};
ghost use Rattle.bw_ring.specs.Ends.{ring_of_feed, ring_of_lane, IsFeedOf};

use super::rings::{group_of, holds, numbered, one_ring};
use bw_ring::{Feed, Full, FullGroup, Group, Lane};
use std::alloc::Global;
use test_kit::tables::wrong_table;

/// What a caller knows of a peek and the take after it.
fn peeked_and_taken(lane: &mut Lane) -> Option<(Group, Group)>
    ensures ring { ring_of_lane lane.new ≡ ring_of_lane lane.old }
    ensures same { IfSome result (λ both. both.0 ≡ both.1) }
{
    let peeked = lane.peek()?;
    let taken = lane.take()?;
    Some((peeked, taken))
}

/// The oldest group, taken once a look showed it; `None` if the look shows none.
fn known_taken(lane: &mut Lane) -> Option<(Group, Group)>
    ensures ring { ring_of_lane lane.new ≡ ring_of_lane lane.old }
    ensures same { IfSome result (λ both. both.0 ≡ both.1) }
{
    let peeked = lane.peek()?;
    Some((peeked, lane.take_known()))
}

/// The oldest group that is known, without a look at the ring.
fn known_first(lane: &Lane) -> Option<Group> {
    if !lane.is_known() {
        return None;
    }
    Some(lane.peek_known())
}

/// The numbers of a group's records.
type Numbers = &'static [u32];

/// One call, with what it has to answer; a record goes by its number, and no group by no number.
#[derive(Drop)]
enum Step {
    Room(usize),
    /// A single put.
    Put(u32),
    /// A single put that comes back.
    Full(u32),
    /// A put of a group.
    Group(Numbers),
    /// A put of a group that comes back, whole.
    FullGroup(Numbers),
    Peek(Numbers),
    Take(Numbers),
    /// A peek and a take after it.
    Both(Numbers),
    /// A peek, and a take of what it showed.
    Known(Numbers),
    /// The first that is known, without a look.
    First(Numbers),
    Rest(usize),
}

/// Whether a group has these records, or neither is there.
fn is(group: Option<Group>, told: Numbers) -> bool {
    match group {
        Some(group) => holds(&group, told),
        None => told.is_empty(),
    }
}

/// Whether both groups have these records, or none is there.
fn are(groups: Option<(Group, Group)>, told: Numbers) -> bool {
    match groups {
        Some((a, b)) => holds(&a, told) && holds(&b, told),
        None => told.is_empty(),
    }
}

fn peeks(lane: &mut Lane, told: Numbers) -> bool
    ensures { ring_of_lane lane.new ≡ ring_of_lane lane.old }
{
    is(lane.peek(), told)
}

/// Whether the group of these records is accepted.
fn puts(feed: &mut Feed, numbers: Numbers) -> bool
    ensures { ring_of_feed feed.new ≡ ring_of_feed feed.old }
{
    match group_of(numbers) {
        Some(group) => feed.put_group(group).is_ok(),
        None => false,
    }
}

/// Whether the group of these records comes back.
fn hands_back(feed: &mut Feed, numbers: Numbers) -> bool
    ensures { ring_of_feed feed.new ≡ ring_of_feed feed.old }
{
    let Some(group) = group_of(numbers) else {
        return false;
    };
    match feed.put_group(group) {
        Ok(()) => false,
        Err(FullGroup(back)) => holds(&back, numbers),
    }
}

/// Whether the step went as expected.
fn goes(feed: &mut Feed, lane: &mut Lane, step: &Step) -> bool
    requires { IsFeedOf feed.old lane.old }
    ensures { IsFeedOf feed.new lane.new }
{
    match step {
        Step::Room(told) => feed.room() == *told,
        Step::Put(number) => feed.put(numbered(*number)) == Ok(()),
        Step::Full(number) => feed.put(numbered(*number)) == Err(Full(numbered(*number))),
        Step::Group(numbers) => puts(feed, *numbers),
        Step::FullGroup(numbers) => hands_back(feed, *numbers),
        Step::Peek(told) => peeks(lane, *told),
        Step::Take(told) => is(lane.take(), *told),
        Step::Both(told) => are(peeked_and_taken(lane), *told),
        Step::Known(told) => are(known_taken(lane), *told),
        Step::First(told) => is(known_first(lane), *told),
        Step::Rest(told) => lane.rest_beside(feed) == *told,
    }
}

/// The first step that did not go as expected.
fn walked(feed: &mut Feed, lane: &mut Lane, steps: &[Step]) -> Option<usize>
    requires { IsFeedOf feed.old lane.old }
{
    for (i, step) in steps.iter().enumerate() {
        if !goes(feed, lane, step) {
            return Some(i);
        }
    }
    None
}

/// Steps over a new ring of so many places.
type OfPlaces = (usize, &'static [Step]);

/// The first step over a new ring that did not go as expected; the first of all if the ring was not
/// made.
fn wrong_of_places(alloc: Global, table: &OfPlaces) -> Option<usize> {
    match one_ring(alloc, table.0) {
        Ok((mut feed, mut lane)) => walked(&mut feed, &mut lane, table.1),
        Err(_) => Some(0),
    }
}

/// A ring of two places. The feed looks again, so a place that was freed since is found by a put
/// and by `room`.
const TWO_PLACES: &[Step] = &[
    Step::Room(2),
    Step::Put(0),
    Step::Put(1),
    Step::Room(0),
    Step::Full(2),
    Step::Take(&[0]),
    Step::Put(3),
    Step::Take(&[1]),
    Step::Room(1),
    Step::Rest(1),
    Step::Take(&[3]),
];

/// A peek leaves its record.
const LOOKS: &[Step] = &[
    Step::Peek(&[]),
    Step::Take(&[]),
    Step::Put(7),
    Step::Put(8),
    Step::Peek(&[7]),
    Step::Both(&[7]),
    Step::Known(&[8]),
    Step::Known(&[]),
    Step::Both(&[]),
    Step::Take(&[]),
    Step::Peek(&[]),
];

/// What a lane knows stays as it is until it is taken, whatever was put since.
const KNOWN: &[Step] = &[
    Step::Put(1),
    Step::Put(2),
    Step::First(&[]),
    Step::Peek(&[1]),
    Step::First(&[1]),
    Step::Put(3),
    Step::Peek(&[1]),
    Step::First(&[1]),
    Step::Take(&[1]),
    Step::First(&[2]),
    Step::Rest(2),
    Step::First(&[2]),
    Step::Known(&[2]),
    Step::Take(&[3]),
];

/// Places, and all that is counted, are of groups. A group that found no place comes back whole,
/// and a single put after a group finds none either.
const GROUPS: &[Step] = &[
    Step::Group(&[1, 2]),
    Step::Room(1),
    Step::Group(&[3, 4, 5, 6]),
    Step::Room(0),
    Step::Full(7),
    Step::FullGroup(&[7, 8, 9]),
    Step::First(&[]),
    Step::Peek(&[1, 2]),
    Step::First(&[1, 2]),
    Step::Both(&[1, 2]),
    Step::Group(&[7, 8, 9]),
    Step::Rest(2),
    Step::Known(&[3, 4, 5, 6]),
    Step::Put(10),
    Step::Take(&[7, 8, 9]),
    Step::Take(&[10]),
    Step::Take(&[]),
];

/// One place, whatever the group's length.
const ONE_PLACE: &[Step] = &[
    Step::Group(&[1, 2]),
    Step::Full(3),
    Step::Rest(1),
    Step::Take(&[1, 2]),
    Step::Put(3),
    Step::FullGroup(&[4]),
    Step::Take(&[3]),
    Step::Rest(0),
];

const TABLES: &[OfPlaces] = &[
    (2, TWO_PLACES),
    (4, LOOKS),
    (4, KNOWN),
    (2, GROUPS),
    (1, ONE_PLACE),
];

#[test]
fn ends_go_as_told(rt: HostRuntime) {
    assert_eq!(rt;
        wrong_table(TABLES, |table| wrong_of_places(rt.alloc(), table)),
        None
    );
}
