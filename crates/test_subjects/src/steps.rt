//! One call, with what it has to answer.

ghost use Rattle.std.specs.Prelude.{◌≡◌, ◌<◌, length, map};
ghost use Rattle.bw_ring.specs.Ends.{ring_of_feed};
ghost use Rattle.test_subjects.specs.Views.{rings_by, IsSound};

use crate::asking::{
    are_bytes, has, has_shared, is_history, is_last, is_last_below, is_page, is_stretch, is_unread,
};
use crate::putting::{Op, are_each_put, are_put, are_same, is_grouped, is_put, record};
use crate::reading::reads;
use crate::subject::Subject;
use bw_ring::Feed;
use bw_store::{Cleaned, Counters, StoreFault, TurnFault, Upgraded};
use std::alloc::Global;
use std::sync::Wait;

/// A call, with what it has to answer.
#[derive(Drop)]
pub enum Step {
    /// A record of the first writer, taken and appended: its key, its value, and the frame.
    Frame(&'static [u8], &'static [u8], u64),
    /// These records of the first writer, each taken and appended: the first of the frames.
    Frames(u64, &'static [Op]),
    /// These records of the first writer, each taken and appended, with each frame in a segment of
    /// its own: the first of the frames.
    Segments(u64, &'static [Op]),
    /// A record of the first writer, taken: its key and its value.
    Taken(&'static [u8], &'static [u8]),
    /// A put of a writer.
    Put(usize, &'static [u8], &'static [u8]),
    Del(usize, &'static [u8]),
    /// A put that finds no place.
    Full(usize, &'static [u8], &'static [u8]),
    /// These records of a writer, each put by itself.
    Each(usize, &'static [Op]),
    /// So many puts of a writer, each of its number.
    Puts(usize, u32),
    /// So many puts of a key by a writer, each with a value of so many bytes.
    Same(usize, &'static [u8], u32, usize),
    /// A group of a writer.
    Group(usize, &'static [Op]),
    /// A group that finds no place.
    FullGroup(usize, &'static [Op]),
    /// A turn of so many groups takes so many records.
    Turn(u32, u64),
    /// It takes so many, and is then refused.
    Stops(u32, u64, StoreFault),
    /// A flush appends this frame, or nothing.
    Flush(Option<u64>),
    Refused(StoreFault),
    /// All is taken and flushed: the length of the history.
    Settle(u64),
    Unsettled(StoreFault),
    /// The segment given up, its lease, how many pages, in how many frames.
    Clean(u64, u32, usize, u64),
    Uncleaned(StoreFault),
    /// How many segments were given up, of how many pages, in how many frames.
    Upgrade(u32, usize, u64),
    NotUpgraded(StoreFault),
    /// These pages are written again, in so many frames.
    Rewrite(&'static [u32], Result<u64, StoreFault>),
    /// A page; no text if there is none.
    Page(u32, &'static str),
    /// So many pages, from page 1 on.
    Pages(&'static [&'static str]),
    /// A page is not read.
    Unread(u32, StoreFault),
    /// A page leaves memory, or stays, or there is none.
    Evict(u32, Result<bool, StoreFault>),
    /// The value of a key; no text if it has none.
    Get(&'static [u8], &'static [u8]),
    /// The pair of a key, which shares its bytes with its page: its value; no text if there is
    /// none.
    Shared(&'static [u8], &'static [u8]),
    /// The last pair at or below a key: its key and its value; no key if there is none.
    Last(&'static [u8], &'static [u8], &'static [u8]),
    /// The last pair below a key: its key and its value; no key if there is none.
    Below(&'static [u8], &'static [u8], &'static [u8]),
    /// The pairs at or above a key, no more than so many: each after a space.
    Stretch(&'static [u8], usize, &'static str),
    /// All pages together have the first so many puts of two writers, and so has each key.
    Reads(u32),
    /// The number, lease and length of a live segment, from 0.
    Live(u32, u64, u32, u64),
    /// The number, lease and length of so many live segments, from the first on.
    Lives(&'static [(u64, u32, u64)]),
    /// The bytes of a live segment, as hex.
    Bytes(u64, &'static str),
    History(&'static str),
    Cuts(&'static [u64], u64),
    /// How many entries are forgotten by this call, and how many are then.
    Forget(u64, u64),
    /// How many records of a writer are durable.
    Receipt(u16, u64),
    /// How many pairs there are.
    Count(u64),
    /// What was counted, and how many publications there were: a core has none.
    Counts(Counters, u64),
    /// How many bytes of a live segment are still needed, from 0.
    Needed(u32, Option<u64>),
    /// From how many frames a page would be read.
    Walk(u32, Option<u64>),
    /// Whether it pays to clean.
    Pays(bool),
    /// How many segments are live, and how many spares stand.
    Stands(u32, u32),
    Roll,
    /// A segment more.
    Add,
}

use Step::{
    Below, Bytes, Clean, Count, Counts, Cuts, Del, Each, Evict, Flush, Forget, Full, FullGroup,
    Get, Group, History, Last, Live, Lives, Needed, NotUpgraded, Page, Pages, Pays, Put, Puts,
    Reads, Receipt, Refused, Rewrite, Same, Shared, Stands, Stops, Stretch, Turn, Uncleaned,
    Unread, Upgrade, Walk,
};

fn are_cuts(cuts: &[u64], told: &[u64]) -> bool {
    cuts == told
}

/// Whether a turn of so many groups takes so many records, or is refused, as expected.
pub fn takes(store: &mut Subject, limit: u32, told: Result<u64, TurnFault>) -> bool
    requires { IsSound store.old holding }
    ensures sound { IsSound store.new holding }
    ensures rings { rings_by store.new holding ≡ rings_by store.old holding }
{
    match store.turn(limit) {
        Ok(taken) => told == Ok(taken),
        Err(fault) => told == Err(fault),
    }
}

/// Whether a record finds a place, or none, as expected.
pub fn puts_one(
    feeds: &mut Vec<Feed>,
    writer: usize,
    key: &[u8],
    value: Option<&[u8]>,
    told: bool,
) -> bool
    requires { writer < length feeds.old.items }
    ensures { map ring_of_feed feeds.new.items ≡ map ring_of_feed feeds.old.items }
{
    match record(key, value) {
        Ok(item) => is_put(feeds, writer, item) == told,
        Err(_) => false,
    }
}

/// Whether a step of a writer goes as expected.
pub fn puts(feeds: &mut Vec<Feed>, step: &Step) -> bool
    ensures { map ring_of_feed feeds.new.items ≡ map ring_of_feed feeds.old.items }
{
    let count = feeds.as_slice().len();
    match step {
        Put(writer, key, value) if *writer < count => {
            puts_one(feeds, *writer, *key, Some(*value), true)
        }
        Full(writer, key, value) if *writer < count => {
            puts_one(feeds, *writer, *key, Some(*value), false)
        }
        Del(writer, key) if *writer < count => puts_one(feeds, *writer, *key, None, true),
        Each(writer, ops) if *writer < count => are_each_put(feeds, *writer, *ops),
        Puts(writer, many) if *writer < count => are_put(feeds, *writer, *many),
        Same(writer, key, many, size) if *writer < count => {
            are_same(feeds, *writer, *key, *many, *size)
        }
        Group(writer, ops) if *writer < count => is_grouped(feeds, *writer, *ops, true),
        FullGroup(writer, ops) if *writer < count => is_grouped(feeds, *writer, *ops, false),
        _ => false,
    }
}

// Whether a store had so many publications; of a core there is nothing to count.
fn are_shown(store: &Subject, told: u64) -> bool {
    match store.publications() {
        Some(shown) => shown == told,
        None => true,
    }
}

// Whether the live segments, from the first on, have these numbers, leases and lengths.
fn lives(store: &Subject, told: &[(u64, u32, u64)]) -> bool
    requires { IsSound store.now holding }
{
    let mut at: u32 = 0;
    for live in told {
        if store.live_segment(at) != Some(*live) {
            return false;
        }
        at = at.saturating_add(1);
    }
    true
}

// Whether the pages from page 1 on are so.
fn are_pages(store: &mut Subject, texts: &[&'static str]) -> bool
    requires { IsSound store.old holding }
    ensures sound { IsSound store.new holding }
    ensures rings { rings_by store.new holding ≡ rings_by store.old holding }
{
    let mut page: u32 = 0;
    'pages: for text in texts {
        page = page.saturating_add(1);
        if !is_page(store, page, *text) {
            return false;
        }
    }
    true
}

/// Whether a step that only asks is answered as expected.
pub fn answers(alloc: Global, store: &mut Subject, step: &Step) -> bool
    requires { IsSound store.old holding }
    ensures sound { IsSound store.new holding }
    ensures rings { rings_by store.new holding ≡ rings_by store.old holding }
{
    match step {
        Page(page, text) => is_page(store, *page, *text),
        Pages(texts) => are_pages(store, *texts),
        Unread(page, fault) => is_unread(store, *page, *fault),
        Evict(page, told) => store.evict(*page) == *told,
        Get(key, value) => has(store, *key, *value),
        Shared(key, value) => has_shared(store, *key, *value),
        Last(key, at, value) => is_last(store, *key, *at, *value),
        Below(key, at, value) => is_last_below(store, *key, *at, *value),
        Stretch(key, most, text) => is_stretch(alloc, store, *key, *most, *text),
        Reads(many) => reads(store, *many),
        Live(at, number, lease, length) => {
            store.live_segment(*at) == Some((*number, *lease, *length))
        }
        Lives(told) => lives(store, *told),
        Bytes(segment, hex) => are_bytes(alloc, store, *segment, *hex),
        History(told) => is_history(store.history(), *told),
        Cuts(told, durable) => are_cuts(store.cuts(), *told) & (store.durable() == *durable),
        Stands(live, spares) => (store.live() == *live) & (store.spares() == *spares),
        Forget(count, all) => (store.forget() == *count) & (store.forgotten() == *all),
        Receipt(writer, told) => store.durable_of(*writer) == *told,
        Count(told) => store.count() == Ok(*told),
        Counts(told, shown) => (store.counters() == *told) & are_shown(store, *shown),
        Needed(at, told) => store.needed(*at) == *told,
        Walk(page, told) => store.walk_of(*page) == *told,
        Pays(told) => store.pays() == *told,
        _ => false,
    }
}

/// Whether a step that changes the store alone goes as expected.
pub fn changes<R: Wait>(rt: &R, store: &mut Subject, step: &Step) -> bool
    requires { IsSound store.old holding }
    ensures sound { IsSound store.new holding }
    ensures rings { rings_by store.new holding ≡ rings_by store.old holding }
{
    match *step {
        Turn(limit, taken) => takes(store, limit, Ok(taken)),
        Stops(limit, taken, cause) => takes(store, limit, Err(TurnFault { taken, cause })),
        Flush(frame) => store.flush(rt) == Ok(frame),
        Refused(fault) => store.flush(rt) == Err(fault),
        Clean(segment, lease, pages, frames) => {
            store.clean(rt)
                == Ok(Cleaned {
                    segment,
                    lease,
                    pages,
                    frames,
                })
        }
        Uncleaned(fault) => store.clean(rt) == Err(fault),
        Upgrade(segments, pages, frames) => {
            store.upgrade(rt)
                == Ok(Upgraded {
                    segments,
                    pages,
                    frames,
                })
        }
        NotUpgraded(fault) => store.upgrade(rt) == Err(fault),
        Rewrite(pages, told) => store.rewrite(rt, pages) == told,
        _ => {
            store.roll();
            true
        }
    }
}

/// Lets no further frame into the current segment, if asked.
pub fn roll_if(store: &mut Subject, is_told: bool)
    requires { IsSound store.old holding }
    ensures sound { IsSound store.new holding }
    ensures rings { rings_by store.new holding ≡ rings_by store.old holding }
{
    if is_told {
        store.roll();
    }
}
