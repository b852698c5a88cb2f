//! Writers in threads of their own, while the store turns.

ghost use Rattle.std.specs.Prelude.{◌≡◌, ◌++◌, ◌∷◌, [], map, IfSome};
ghost use Rattle.bw_ring.specs.Ends.{ring_of_feed};
ghost use Rattle.bw_store.specs.Views.{kept_by, IsSound};
ghost use Rattle.bw_store.specs.Following.{Follows};

use super::cases::{Case, over};
use super::serving::Served;
use bw_ring::Feed;
use bw_store::{PackedEntry, Store};
use std::snapshot::Snapshot;
use std::sync::Wait;
use std::thread;
use std::thread::{Promise, PromisedHandle, Threads};
use test_subjects::putting::numbered;
use test_subjects::subject::config_of;

/// How many records each of the four writers puts into its ring of 256 places.
const RECORDS: u32 = 1000;

/// How many are taken while the feeds are evicted: those that are left fit any one ring.
const TAKEN_MEANWHILE: usize = 3800;

/// How often each side tries at most, so that the test ends whatever the schedule.
const TRIES: u32 = 50_000_000;

/// The feed that comes back is an end of the ring of the feed that left.
#[derive(Drop)]
pub(super) struct OfOneRing(pub(super) Snapshot<Feed>);

impl Promise<Feed> for OfOneRing {
    ghost kept_by = { λ p feed. ring_of_feed feed ≡ ring_of_feed p.0.value };
}

/// The threads of two writers, the one whose feed was the last before the other.
type Pair = (
    PromisedHandle<Feed, OfOneRing>,
    PromisedHandle<Feed, OfOneRing>,
);

fn put_script(feed: Feed, letter: u8) -> Feed
    ensures { ring_of_feed result ≡ ring_of_feed feed }
{
    let mut feed = feed;
    let mut next: u32 = 0;
    'tries: for _ in 0..TRIES {
        if next >= RECORDS {
            break;
        }
        match feed.put(numbered(letter, next)) {
            Ok(()) => next = next.saturating_add(1),
            Err(_) => thread::yield_now(),
        }
    }
    feed
}

fn start<R: Threads>(rt: &R, feed: Feed, letter: u8) -> Option<PromisedHandle<Feed, OfOneRing>>
    ensures { IfSome result (λ h. ring_of_feed h.promise.0.value ≡ ring_of_feed feed) }
{
    let promise = OfOneRing(Snapshot::of(&feed));
    match thread::spawn_with(rt, promise, move || { put_script(feed, letter) }) {
        Ok(writer) => Some(writer),
        Err(_) => None,
    }
}

// The last feed goes to a thread.
fn leaves<R: Threads>(
    rt: &R,
    feeds: &mut Vec<Feed>,
    letter: u8,
) -> Option<PromisedHandle<Feed, OfOneRing>>
    ensures { IfSome result (λ h. map ring_of_feed feeds.old.items
        ≡ map ring_of_feed feeds.new.items ++ ring_of_feed h.promise.0.value ∷ []) }
{
    match feeds.pop() {
        Some(feed) => start(rt, feed, letter),
        None => None,
    }
}

// A feed comes back, as the last.
fn returns<R: Threads>(
    rt: &R,
    feeds: &mut Vec<Feed>,
    writer: PromisedHandle<Feed, OfOneRing>,
) -> Option<()>
    ensures { IfSome result (λ _. map ring_of_feed feeds.new.items
        ≡ map ring_of_feed feeds.old.items ++ ring_of_feed writer.promise.0.value ∷ []) }
{
    match feeds.push(writer.join(rt)) {
        Ok(()) => Some(()),
        Err(_) => None,
    }
}

// The last two feeds go to threads of their own, the last one first.
fn two_leave<R: Threads>(rt: &R, feeds: &mut Vec<Feed>, letters: (u8, u8)) -> Option<Pair>
    ensures { IfSome result (λ h. map ring_of_feed feeds.old.items
        ≡ (map ring_of_feed feeds.new.items ++ ring_of_feed h.1.promise.0.value ∷ [])
        ++ ring_of_feed h.0.promise.0.value ∷ []) }
{
    let last = leaves(rt, feeds, letters.0)?;
    let before = leaves(rt, feeds, letters.1)?;
    Some((last, before))
}

// They come back, in the order in which they were.
fn two_return<R: Threads>(rt: &R, feeds: &mut Vec<Feed>, pair: Pair) -> Option<()>
    ensures { IfSome result (λ _. map ring_of_feed feeds.new.items
        ≡ (map ring_of_feed feeds.old.items ++ ring_of_feed pair.1.promise.0.value ∷ [])
        ++ ring_of_feed pair.0.promise.0.value ∷ []) }
{
    let (last, before) = pair;
    returns(rt, feeds, before)?;
    returns(rt, feeds, last)
}

// Whether a turn was not refused.
fn is_turned(store: &mut Store) -> bool
    requires { IsSound store.old holding }
    ensures sound { IsSound store.new holding }
    ensures follows { Follows (kept_by store.old holding) (kept_by store.new holding) }
{
    match store.turn(100) {
        Ok(_) => true,
        Err(_) => false,
    }
}

// Turns while records come.
fn take_meanwhile(store: &mut Store)
    requires { IsSound store.old holding }
    ensures sound { IsSound store.new holding }
    ensures rings { (kept_by store.new holding).rings ≡ (kept_by store.old holding).rings }
{
    'turns: for _ in 0..TRIES {
        if store.history().len() >= TAKEN_MEANWHILE {
            return;
        }
        if !is_turned(store) {
            return;
        }
        thread::yield_now();
    }
}

fn letter_of(writer: u16) -> u8 {
    match writer {
        0 => b'a',
        1 => b'b',
        2 => b'c',
        _ => b'd',
    }
}

// Whether each writer's entries are its script.
fn are_scripts(entries: &[PackedEntry]) -> bool {
    let mut next: [u32; 4] = [0; 4];
    for packed in entries {
        let entry = packed.entry();
        let Some(number) = next.get_mut(usize::from(entry.writer)) else {
            return false;
        };
        if entry.item != numbered(letter_of(entry.writer), *number) {
            return false;
        }
        *number = number.saturating_add(1);
    }
    next == [RECORDS; 4]
}

/// Whether all that four writers put meanwhile is settled, each writer's records in order.
pub(super) fn are_settled<R: Threads + Wait>(rt: &R, served: &mut Served) -> bool
    requires sound { IsSound served.old.store holding }
    requires feeds { map ring_of_feed served.old.feeds.items
        ≡ (kept_by served.old.store holding).rings }
    ensures { IsSound served.new.store holding }
{
    let Some(later) = two_leave(rt, &mut served.feeds, (b'd', b'c')) else {
        return false;
    };
    let Some(earlier) = two_leave(rt, &mut served.feeds, (b'b', b'a')) else {
        return false;
    };
    take_meanwhile(&mut served.store);
    let Some(()) = two_return(rt, &mut served.feeds, earlier) else {
        return false;
    };
    let Some(()) = two_return(rt, &mut served.feeds, later) else {
        return false;
    };
    served.store.settle(rt, &mut served.feeds) == Ok(4000) && are_scripts(served.store.history())
}

#[test]
fn four_writers_in_threads_are_settled(rt: HostRuntime) {
    let went = over(&rt, 40, &config_of(4, 256, 1), &Case::Writers);
    assert!(rt; went == Some(true));
}
