// Rings of one writer, and how many rings there may be.

ghost use Rattle.std.specs.Prelude.{IfOk};
ghost use Rattle.bw_ring.specs.Ends.{IsFeedOf};

use bw_codec::{Key, Record};
use bw_ring::{Feed, Full, FullGroup, Group, Lane, LanesError, MAX_GROUP, lanes};
use std::alloc::Global;
use test_kit::tables::{first_false, wrong_row};
use test_kit::vectors::is_text;

/// A record that has its number in it.
pub(crate) fn numbered(number: u32) -> Record {
    match Key::new(&number.to_be_bytes()) {
        Ok(key) => Record::Del(key),
        Err(_) => unreachable!(),
    }
}

/// The group of the records of these numbers; `None` if there are none, or too many.
pub(crate) fn group_of(numbers: &[u32]) -> Option<Group> {
    let (first, rest) = numbers.split_first()?;
    let mut group = Group::one(numbered(*first));
    for number in rest {
        group.push(numbered(*number)).ok()?;
    }
    Some(group)
}

/// Whether a group has the records of these numbers and no other, by each call that shows them.
pub(crate) fn holds(group: &Group, numbers: &[u32]) -> bool {
    for (i, number) in numbers.iter().enumerate() {
        if group.get(i) != Some(&numbered(*number)) {
            return false;
        }
    }
    group.len() == numbers.len()
        && group.as_slice().len() == numbers.len()
        && group.get(numbers.len()).is_none()
}

/// The two ends of one ring.
pub(crate) fn one_ring(alloc: Global, places: usize) -> Result<(Feed, Lane), LanesError>
    ensures { IfOk result (λ ends. IsFeedOf ends.0 ends.1) }
{
    let (mut feeds, mut ends) = lanes(alloc, 1, places)?;
    match (feeds.pop(), ends.pop()) {
        (Some(feed), Some(lane)) => Ok((feed, lane)),
        _ => Err(LanesError::BadConfig),
    }
}

/// Writers and places, and whether there may be so many.
type Config = (usize, usize, bool);

/// Whether rings are made, or refused, as expected.
fn config_goes(alloc: Global, row: &Config) -> Option<bool> {
    let (writers, places, told) = *row;
    Some(match lanes(alloc, writers, places) {
        Ok((feeds, ends)) => told && feeds.len() == writers && ends.len() == writers,
        Err(error) => !told && error == LanesError::BadConfig,
    })
}

const CONFIGS: &[Config] = &[
    (0, 1, false),
    (65, 1, false),
    (1, 0, false),
    (1, 4097, false),
    (0, 0, false),
    (1, 1, true),
    (64, 1, true),
    (1, 4096, true),
    (3, 8, true),
];

#[test]
fn the_ranges_are_exact(rt: HostRuntime) {
    assert_eq!(rt;
        wrong_row(CONFIGS, |row| config_goes(rt.alloc(), row)),
        None
    );
}

/// Whether a group of all the numbers but the last takes no more, hands that one back, and is what
/// it was.
fn hands_back(numbers: &[u32]) -> Option<bool> {
    let (last, some) = numbers.split_last()?;
    let mut group = group_of(some)?;
    let back = group.push(numbered(*last)) == Err(numbered(*last));
    let same = holds(&group, some) && holds(&group.copy(), some);
    Some(back && same && some.len() == MAX_GROUP)
}

#[test]
fn a_group_has_one_to_four_records(rt: HostRuntime) {
    let lengths = [
        &[7].as_slice(),
        &[7, 8].as_slice(),
        &[7, 8, 9].as_slice(),
        &[7, 8, 9, 10].as_slice(),
    ];
    let mut are_made = true;
    for numbers in lengths {
        are_made = are_made && group_of(numbers).is_some_and(|group| holds(&group, numbers));
    }
    let ends = group_of(&[]).is_none() && group_of(&[1, 2, 3, 4, 5]).is_none();
    assert_eq!(rt;
        first_false(&[are_made, ends, hands_back(&[1, 2, 3, 4, 5]) == Some(true)]),
        None
    );
}

#[test]
fn the_refusals_have_texts(rt: HostRuntime) {
    let range = "the number of writers or of places is out of range";
    let said = [
        is_text(rt.alloc(), &Full(numbered(0)), "the ring is full"),
        is_text(
            rt.alloc(),
            &FullGroup(Group::one(numbered(0))),
            "the ring is full",
        ),
        is_text(rt.alloc(), &LanesError::BadConfig, range),
        is_text(rt.alloc(), &LanesError::NoMemory, "memory ran out"),
    ];
    assert_eq!(rt; first_false(&said), None);
}
