//! A segment of more than 16 MiB is cleaned: its pages are not read ahead, but one by one.

ghost use Rattle.std.specs.Prelude.{◌≡◌, ◌<◌, length, map};
ghost use Rattle.bw_ring.specs.Ends.{ring_of_feed};
ghost use Rattle.test_subjects.specs.Views.{AreItsFeeds, IsSoundBeside};

use super::boxes::{Row, supplied};
use super::opening::{Held, opened, shut};
use super::telling::holds;
use super::walking::wrong_step;
use bw_ring::Feed;
use std::sync::Wait;
use test_subjects::putting::{is_put, record};
use test_subjects::steps::Step::{Puts, Reads, Roll, Settle};
use test_subjects::subject::{Over, config_of};

/// Three segments of 24 MiB.
const LARGE: Row = Row {
    boxes: 3,
    fuse: None,
    behind: 0,
    more: 0,
    capacity: 25_165_824,
};

/// A record with the longest value has 520 bytes of log after others of its page, so 5 rounds of
/// 8,000 make 20 million.
const ROUNDS: u64 = 5;

/// The longest value.
const LONG: [u8; 512] = [b'v'; 512];

// Whether a writer's feed takes 4,000 records of its first four keys, each with the longest value.
// Few pages, since each is read back through all frames that touch it.
fn are_put(feeds: &mut Vec<Feed>, writer: usize) -> bool
    requires { writer < length feeds.old.items }
    ensures { map ring_of_feed feeds.new.items ≡ map ring_of_feed feeds.old.items }
{
    let letter = if writer == 0 { b'a' } else { b'b' };
    'numbers: for number in 0..4000u32 {
        let [_, _, _, low] = (number % 4).to_be_bytes();
        let Ok(item) = record(&[letter, 0, 0, low], Some(&LONG)) else {
            return false;
        };
        if !is_put(feeds, writer, item) {
            return false;
        }
    }
    true
}

// Whether both writers' are taken and settled.
fn are_settled<R: AllocGlobal + Wait>(rt: &R, held: &mut Held, count: u64) -> bool
    requires sound { IsSoundBeside held.old.store holding }
    requires feeds { AreItsFeeds held.old.feeds.items held.old.store holding }
    ensures sound { IsSoundBeside held.new.store holding }
    ensures feeds { AreItsFeeds held.new.feeds.items held.new.store holding }
{
    if held.feeds.len() != 2 || !are_put(&mut held.feeds, 0) || !are_put(&mut held.feeds, 1) {
        return false;
    }
    held.store.settle(rt, &mut held.feeds) == Ok(count)
}

// Whether the first segment gets so long, and a second one is begun.
fn is_filled<R: AllocGlobal + Wait>(rt: &R, held: &mut Held) -> bool
    requires sound { IsSoundBeside held.old.store holding }
    requires feeds { AreItsFeeds held.old.feeds.items held.old.store holding }
    ensures sound { IsSoundBeside held.new.store holding }
    ensures feeds { AreItsFeeds held.new.feeds.items held.new.store holding }
{
    'rounds: for round in 0..ROUNDS {
        if !are_settled(rt, held, 8000 * (round + 1)) {
            return false;
        }
    }
    let last = [Roll, Puts(0, 4), Puts(1, 4), Settle(8000 * ROUNDS + 8)];
    wrong_step(rt, held, &last).is_none()
}

// Whether the first of the segments is long, and given up, and each key keeps its value.
fn is_cleaned<R: AllocGlobal + Wait>(rt: &R, held: &mut Held) -> bool
    requires sound { IsSoundBeside held.old.store holding }
    requires feeds { AreItsFeeds held.old.feeds.items held.old.store holding }
    ensures { IsSoundBeside held.new.store holding }
{
    let is_long = match held.store.live_segment(0) {
        Some((_, _, length)) => length > 16_777_216,
        None => false,
    };
    match held.store.clean(rt) {
        Ok(cleaned) if is_long && cleaned.pages > 1 => {
            wrong_step(rt, held, &[Reads(4)]).is_none()
        }
        _ => false,
    }
}

// Whether both go well.
fn goes<R: AllocGlobal + Wait>(rt: &R, held: &mut Held) -> bool
    requires sound { IsSoundBeside held.old.store holding }
    requires feeds { AreItsFeeds held.old.feeds.items held.old.store holding }
    ensures { IsSoundBeside held.new.store holding }
{
    if !is_filled(rt, held) {
        return false;
    }
    is_cleaned(rt, held)
}

// Whether they do over a core or a store of its own; none if there was none.
fn goes_over<R: AllocGlobal + Wait>(rt: &R, over: Over) -> Option<bool> {
    let mut supply = supplied(rt.alloc(), &LARGE)?;
    let mut held = opened(rt, over, &config_of(2, 4096, 1), &mut supply)?;
    let went = goes(rt, &mut held);
    let _ = shut(rt, held, &mut supply);
    Some(went)
}

// One life each: a test has a minute.
#[test]
fn a_segment_above_sixteen_mebibytes_is_cleaned_by_a_core(rt: HostRuntime) {
    holds(&rt, Over::Core, goes_over(&rt, Over::Core) == Some(true));
}

#[test]
fn a_segment_above_sixteen_mebibytes_is_cleaned_by_a_store(rt: HostRuntime) {
    holds(&rt, Over::Store, goes_over(&rt, Over::Store) == Some(true));
}
