//! What a store shows between its calls, as numbers.

ghost use Rattle.std.specs.Prelude.{◌≡◌, map};
ghost use Rattle.bw_ring.specs.Ends.{ring_of_feed};
ghost use Rattle.bw_store.specs.Views.{IsSound};

use bw_codec::Key;
use bw_device::Desk;
use bw_ring::Feed;
use bw_store::{Reader, Store};

/// How many entries, cuts and durable frames there are, which frame is next, how many segments are
/// live, with how many bytes the newest, and how many spares stand; how many places the first
/// writer's ring has, and how much the first reader sees of `a` to `l`.
#[derive(Clone, Copy, PartialEq, Drop)]
pub(super) struct Picture {
    pub(super) entries: usize,
    pub(super) cuts: usize,
    pub(super) durable: u64,
    pub(super) next: Option<u64>,
    pub(super) live: u32,
    pub(super) newest: Option<(u64, u32, u64)>,
    pub(super) spares: u32,
    pub(super) room: usize,
    pub(super) seen: u64,
}

/// Whether a reader sees this value of a key; no bytes if it sees none.
pub(super) fn is_seen(reader: &mut Reader, key: &[u8], value: &[u8]) -> bool {
    let Ok(key) = Key::new(key) else {
        return false;
    };
    match reader.get(&key) {
        Ok(Some(found)) => found.as_slice() == value,
        Ok(None) => value.is_empty(),
        Err(_) => false,
    }
}

// The first byte of the value that a reader sees of a key.
fn digit(reader: &mut Reader, key: u8) -> u64 {
    let Ok(key) = Key::new(&[key]) else {
        return 0;
    };
    match reader.get(&key) {
        Ok(Some(found)) => match found.as_slice().first() {
            Some(byte) => *byte as u64,
            None => 1,
        },
        _ => 0,
    }
}

fn seen(reader: &mut Reader) -> u64 {
    let mut seen: u64 = 0;
    for key in b'a'..=b'l' {
        seen = seen.wrapping_mul(257).wrapping_add(digit(reader, key));
    }
    seen
}

// How many places a ring has.
fn room(feeds: &mut Vec<Feed>) -> usize
    ensures { map ring_of_feed feeds.new.items ≡ map ring_of_feed feeds.old.items }
{
    if feeds.as_slice().len() == 0 {
        return 0;
    }
    room_of(&mut feeds[0])
}

fn room_of(feed: &mut Feed) -> usize
    ensures { ring_of_feed feed.new ≡ ring_of_feed feed.old }
{
    feed.room()
}

pub(super) fn shown(store: &Store, reader: &mut Reader, feeds: &mut Vec<Feed>) -> Picture
    requires { IsSound store.now holding }
    ensures { map ring_of_feed feeds.new.items ≡ map ring_of_feed feeds.old.items }
{
    let live = store.live();
    Picture {
        entries: store.history().len(),
        cuts: store.cuts().len(),
        durable: store.durable(),
        next: store.next_frame(),
        live,
        newest: store.live_segment(live.saturating_sub(1)),
        spares: store.spares(),
        room: room(feeds),
        seen: seen(reader),
    }
}

/// Whether nothing is otherwise.
pub(super) fn is_unchanged(before: &Picture, now: &Picture) -> bool {
    *before == *now
}

/// Whether one frame more is durable, and readers see what they saw: only the publication was
/// refused. What waited may have been taken.
pub(super) fn is_flushed(before: &Picture, now: &Picture) -> bool {
    let frames = (now.durable == before.durable.saturating_add(1))
        & (now.cuts == before.cuts.saturating_add(1));
    frames & (now.entries >= before.entries) & (now.seen == before.seen)
}

/// Whether records were taken, each of which left its place, and no frame was appended.
pub(super) fn is_taken(before: &Picture, now: &Picture) -> bool {
    let frames = (now.durable == before.durable) & (now.cuts == before.cuts);
    let taken = now.entries.saturating_sub(before.entries);
    frames
        & (now.entries >= before.entries)
        & (now.room == before.room.saturating_add(taken))
        & (now.seen == before.seen)
}

/// Whether a cleaning got so far: what waited is flushed, some of its own frames stand, or the
/// oldest segment is given up; readers see what they saw.
pub(super) fn is_cleaned(before: &Picture, now: &Picture) -> bool {
    let frames = (now.durable > before.durable) & (now.cuts as u64 == now.durable);
    let boxes = (now.live <= before.live.saturating_add(1))
        & (now.live.saturating_add(1) >= before.live);
    frames & boxes & (now.entries == before.entries) & (now.seen == before.seen)
}

/// Whether these leases are out, and no other of sixteen.
pub(super) fn is_out(desk: &mut Desk, leases: &[u32]) -> bool {
    desk.collect();
    for number in 0..16 {
        if desk.is_out(number) != leases.contains(&number) {
            return false;
        }
    }
    true
}
