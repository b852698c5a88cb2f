//! One call of a store in a window, and again if it was refused memory.

ghost use Rattle.std.specs.Prelude.{◌≡◌, ◌<◌, length, map};
ghost use Rattle.bw_ring.specs.Ends.{ring_of_feed};
ghost use Rattle.bw_store.specs.Views.{kept_by, IsSound};

use super::both;
use super::picture::{
    Picture, is_cleaned, is_flushed, is_out, is_seen, is_taken, is_unchanged, shown,
};
use super::telling::is_history;
use bw_codec::{Key, Pair as Found, Value};
use bw_device::Desk;
use bw_ring::{Feed, Group as Records};
use bw_store::{Cleaned, Reader, Store, StoreFault};
use std::alloc::Global;
use std::sync::Wait;
use test_kit::marks::{begin, begin_without, end};
use test_kit::refusals::Try;
use test_kit::vectors::{put, shows, spells};

/// A key and its value.
pub(super) type Pair = (&'static [u8], &'static [u8]);

#[derive(Drop)]
pub(super) enum Step {
    /// A put, taken and flushed: its key, its value, and the frame.
    Frame(&'static [u8], &'static [u8], u64),
    Put(&'static [u8], &'static [u8]),
    /// Puts of these keys and values, as one.
    Group(&'static [Pair]),
    /// A turn takes so many.
    Turn(u64),
    Flush(Option<u64>),
    FlushFails(StoreFault),
    /// So many entries stand in the history then.
    Settle(u64),
    Roll,
    Evict(u32, bool),
    /// A page, as its low key and pairs.
    Page(u32, &'static [u8]),
    PageFails(u32, StoreFault),
    Get(&'static [u8], &'static [u8]),
    /// What the reader that was made first sees of a key; no bytes if it sees none.
    Sees(&'static [u8], &'static [u8]),
    /// A new reader sees it.
    NewSees(&'static [u8], &'static [u8]),
    /// A new reader sees it once it learnt the news.
    News(&'static [u8], &'static [u8]),
    /// The segment given up, its lease, how many pages, in how many frames.
    Clean(u64, u32, usize, u64),
    CleanFails(StoreFault),
    /// The bytes of a live segment.
    Bytes(u64, &'static str),
    /// The number, lease and length of a live segment, from 0.
    Live(u32, u64, u32, u64),
    Cuts(&'static [u64], u64),
    /// How many segments are live, and how many spares stand.
    Stands(u32, u32),
    /// The number of the next frame.
    Next(u64),
    /// The leases that are out.
    Out(&'static [u32]),
    /// How many entries are forgotten by this call, how many are then, and how many records of the
    /// first writer are durable.
    Forget(u64, u64, u64),
    /// How many pairs there are.
    Count(u64),
    /// How many records and bytes were counted, how many bytes of the first live segment are still
    /// needed, and whether it pays to clean.
    Counted(u64, u64, u64, bool),
    /// All entries, each as its key, an equals sign and its value, with spaces between.
    History(&'static str),
}

use Step::{
    Bytes, Clean, CleanFails, Count, Counted, Cuts, Evict, Flush, FlushFails, Forget, Frame, Get,
    Group, History, Live, NewSees, News, Next, Out, Page, PageFails, Put, Roll, Sees, Settle,
    Stands, Turn,
};

/// What stands beside a store: the first reader, and the desk of its leases.
#[derive(Drop)]
pub(super) struct Beside {
    pub(super) reader: Reader,
    pub(super) desk: Desk,
}

fn is_put(feeds: &mut Vec<Feed>, key: &[u8], value: &[u8]) -> bool
    ensures { map ring_of_feed feeds.new.items ≡ map ring_of_feed feeds.old.items }
{
    let Some(record) = put(key, value) else {
        return false;
    };
    if feeds.as_slice().len() == 0 {
        return false;
    }
    put_one(&mut feeds[0], key, value)
}

fn put_one(feed: &mut Feed, key: &[u8], value: &[u8]) -> bool
    ensures { ring_of_feed feed.new ≡ ring_of_feed feed.old }
{
    match put(key, value) {
        Some(record) => feed.put(record).is_ok(),
        None => false,
    }
}

// The group of these puts; none if there are none, or too many.
fn group_of(pairs: &[Pair]) -> Option<Records> {
    let ((key, value), rest) = pairs.split_first()?;
    let mut group = Records::one(put(*key, *value)?);
    for (key, value) in rest {
        group.push(put(*key, *value)?).ok()?;
    }
    Some(group)
}

fn put_group(feed: &mut Feed, pairs: &[Pair]) -> bool
    ensures { ring_of_feed feed.new ≡ ring_of_feed feed.old }
{
    match group_of(pairs) {
        Some(group) => feed.put_group(group).is_ok(),
        None => false,
    }
}

fn is_grouped(feeds: &mut Vec<Feed>, pairs: &[Pair]) -> bool
    ensures { map ring_of_feed feeds.new.items ≡ map ring_of_feed feeds.old.items }
{
    if feeds.as_slice().len() == 0 {
        return false;
    }
    put_group(&mut feeds[0], pairs)
}

fn turns(store: &mut Store, told: u64) -> Result<bool, StoreFault>
    requires { IsSound store.old holding }
    ensures sound { IsSound store.new holding }
    ensures rings { (kept_by store.new holding).rings ≡ (kept_by store.old holding).rings }
{
    match store.turn(9) {
        Ok(taken) => Ok(taken == told),
        Err(fault) => Err(fault.cause),
    }
}

fn reads(store: &mut Store, page: u32, text: &[u8]) -> Result<bool, StoreFault>
    requires { IsSound store.old holding }
    ensures sound { IsSound store.new holding }
    ensures rings { (kept_by store.new holding).rings ≡ (kept_by store.old holding).rings }
{
    let leaf = store.page(page)?;
    Ok(shows(&leaf, text))
}

/// A refusal that is expected is what was to come; want of memory is handed on.
fn fails(fault: Option<StoreFault>, told: StoreFault) -> Result<bool, StoreFault> {
    match fault {
        Some(StoreFault::NoMemory) => Err(StoreFault::NoMemory),
        Some(fault) => Ok(fault == told),
        None => Ok(false),
    }
}

/// What a cleaning says.
fn cleaned(segment: u64, lease: u32, pages: usize, frames: u64) -> Cleaned {
    Cleaned {
        segment,
        lease,
        pages,
        frames,
    }
}

// Whether a walk answered this pair.
fn is_pair(told: Option<&(Key, Value)>, key: &Key, value: &[u8]) -> bool {
    match told {
        Some((at, there)) => at.as_slice() == key.as_slice() && there.as_slice() == value,
        None => false,
    }
}

// Whether a pair that was found is this one.
fn is_this(found: Option<&Found>, key: &Key, value: &[u8]) -> bool {
    match found {
        Some(pair) => pair.key() == key.as_slice() && pair.value() == value,
        None => false,
    }
}

/// Whether the pair of a key, and the first pair from it on, which share their bytes with their
/// page, are this one.
fn is_shared(alloc: Global, store: &mut Store, key: &Key, value: &[u8]) -> Result<bool, StoreFault>
    requires { IsSound store.old holding }
    ensures sound { IsSound store.new holding }
    ensures rings { (kept_by store.new holding).rings ≡ (kept_by store.old holding).rings }
{
    let its = store.get_shared(key)?;
    let mut found = Vec::new(alloc);
    store.scan_shared(key, 1, &mut found)?;
    Ok(is_this(its.as_ref(), key, value) && is_this(found.as_slice().first(), key, value))
}

/// Whether a key has a value, by itself, as the first from it on and as the last up to it.
fn has(alloc: Global, store: &mut Store, key: &[u8], value: &[u8]) -> Result<bool, StoreFault>
    requires { IsSound store.old holding }
    ensures sound { IsSound store.new holding }
    ensures rings { (kept_by store.new holding).rings ≡ (kept_by store.old holding).rings }
{
    let Ok(key) = Key::new(key) else {
        return Ok(false);
    };
    let Some(found) = store.get(&key)? else {
        return Ok(false);
    };
    let mut first = Vec::new(alloc);
    store.scan(&key, 1, &mut first)?;
    let last = store.prev_at(&key)?;
    let is_first = is_pair(first.as_slice().first(), &key, value);
    let is_last = is_pair(last.as_ref(), &key, value);
    let is_shared = is_shared(alloc, store, &key, value)?;
    Ok(found.as_slice() == value && is_first && is_last && is_shared)
}

/// A reader that is made sees this.
fn new_sees(store: &mut Store, key: &[u8], value: &[u8]) -> Result<bool, StoreFault>
    requires { IsSound store.old holding }
    ensures sound { IsSound store.new holding }
    ensures rings { (kept_by store.new holding).rings ≡ (kept_by store.old holding).rings }
{
    match store.reader() {
        Ok(mut reader) => Ok(is_seen(&mut reader, key, value)),
        Err(_) => Err(StoreFault::NoMemory),
    }
}

/// A new reader learns the news, without memory, and sees this.
fn learns(alloc: Global, store: &mut Store, key: &[u8], value: &[u8]) -> Option<Try>
    requires { IsSound store.old holding }
    ensures sound { IsSound store.new holding }
    ensures rings { (kept_by store.new holding).rings ≡ (kept_by store.old holding).rings }
{
    let Ok(mut reader) = store.reader() else {
        return None;
    };
    begin_without(alloc);
    reader.learn(store.news());
    let is_so = is_seen(&mut reader, key, value);
    if !end(alloc) & is_so {
        Some(Try::Went)
    } else {
        None
    }
}

/// The bytes of a segment after what stood there; only that stays if the call is refused.
fn dumps(alloc: Global, store: &mut Store, segment: u64, told: &str) -> Result<bool, StoreFault>
    requires { IsSound store.old holding }
    ensures sound { IsSound store.new holding }
    ensures rings { (kept_by store.new holding).rings ≡ (kept_by store.old holding).rings }
{
    let mut bytes = Vec::new(alloc);
    match store.dump(segment, &mut bytes) {
        Ok(found) => Ok(found && spells(&bytes, told.as_bytes())),
        Err(fault) => {
            if bytes.len() == 0 {
                Err(fault)
            } else {
                Ok(false)
            }
        }
    }
}

// A call that takes memory: whether it went as expected, or why it was refused.
fn tries<R: Wait>(
    rt: &R,
    alloc: Global,
    store: &mut Store,
    feeds: &mut Vec<Feed>,
    step: &Step,
) -> Result<bool, StoreFault>
    requires sound { IsSound store.old holding }
    requires feeds { map ring_of_feed feeds.old.items ≡ (kept_by store.old holding).rings }
    ensures sound { IsSound store.new holding }
    ensures feeds { map ring_of_feed feeds.new.items ≡ (kept_by store.new holding).rings }
{
    match step {
        Turn(told) => turns(store, *told),
        Flush(told) => Ok(store.flush(rt)? == *told),
        FlushFails(told) => fails(store.flush(rt).err(), *told),
        Settle(entries) => Ok(store.settle(rt, feeds)? == *entries),
        Page(page, text) => reads(store, *page, *text),
        PageFails(page, told) => fails(store.page(*page).err(), *told),
        Get(key, value) => has(alloc, store, *key, *value),
        Count(told) => Ok(store.count()? == *told),
        NewSees(key, value) => new_sees(store, *key, *value),
        Clean(segment, lease, pages, frames) => {
            Ok(store.clean(rt)? == cleaned(*segment, *lease, *pages, *frames))
        }
        CleanFails(told) => fails(store.clean(rt).err(), *told),
        Bytes(segment, told) => dumps(alloc, store, *segment, *told),
        _ => Ok(false),
    }
}

fn are_cuts(cuts: &[u64], told: &[u64]) -> bool {
    cuts == told
}

// A call that takes none.
fn goes_without(store: &mut Store, feeds: &mut Vec<Feed>, beside: &mut Beside, step: &Step) -> bool
    requires sound { IsSound store.old holding }
    requires feeds { map ring_of_feed feeds.old.items ≡ (kept_by store.old holding).rings }
    ensures sound { IsSound store.new holding }
    ensures feeds { map ring_of_feed feeds.new.items ≡ (kept_by store.new holding).rings }
{
    match step {
        Put(key, value) => is_put(feeds, *key, *value),
        Group(pairs) => is_grouped(feeds, *pairs),
        Roll => {
            store.roll();
            true
        }
        Evict(page, told) => store.evict(*page) == Ok(*told),
        Sees(key, value) => is_seen(&mut beside.reader, *key, *value),
        Live(at, number, lease, length) => {
            store.live_segment(*at) == Some((*number, *lease, *length))
        }
        Cuts(told, durable) => are_cuts(store.cuts(), *told) & (store.durable() == *durable),
        Stands(live, spares) => (store.live() == *live) & (store.spares() == *spares),
        Next(frame) => store.next_frame() == Some(*frame),
        Out(leases) => is_out(&mut beside.desk, *leases),
        History(text) => is_history(store.history(), text.as_bytes()),
        Counted(records, bytes, needed, pays) => {
            let counters = store.counters();
            (counters.records == *records)
                & (counters.bytes == *bytes)
                & (store.needed(0) == Some(*needed))
                & (store.pays() == *pays)
        }
        Forget(count, all, durable) => {
            (store.forget() == *count)
                & (store.forgotten() == *all)
                & (store.durable_of(0) == *durable)
        }
        _ => false,
    }
}

fn takes_none(step: &Step) -> bool {
    match step {
        Put(..) | Group(_) | Roll | Evict(..) | Sees(..) | Live(..) => true,
        Cuts(..) | Stands(..) | Next(_) | Out(..) | History(..) | Forget(..) | Counted(..) => true,
        _ => false,
    }
}

// What a refused call left, beside what stood there before it.
fn is_left(step: &Step, before: &Picture, now: &Picture) -> bool {
    match step {
        Flush(_) => is_unchanged(before, now) || is_flushed(before, now),
        Settle(_) => is_taken(before, now) || is_flushed(before, now),
        Clean(..) => is_unchanged(before, now) || is_cleaned(before, now),
        _ => is_unchanged(before, now),
    }
}

// A refused call once more, with memory: it ends as expected, or publishes what was left to be.
fn ends<R: Wait>(
    rt: &R,
    alloc: Global,
    store: &mut Store,
    feeds: &mut Vec<Feed>,
    step: &Step,
    before: &Picture,
) -> bool
    requires sound { IsSound store.old holding }
    requires feeds { map ring_of_feed feeds.old.items ≡ (kept_by store.old holding).rings }
    ensures sound { IsSound store.new holding }
    ensures feeds { map ring_of_feed feeds.new.items ≡ (kept_by store.new holding).rings }
{
    let is_done = match step {
        Flush(_) => store.durable() > before.durable,
        Clean(..) => store.live() < before.live,
        _ => false,
    };
    if is_done {
        return store.flush(rt) == Ok(None);
    }
    match step {
        Clean(segment, lease, _, _) => match store.clean(rt) {
            Ok(cleaned) => (cleaned.segment == *segment) & (cleaned.lease == *lease),
            Err(_) => false,
        },
        _ => tries(rt, alloc, store, feeds, step) == Ok(true),
    }
}

// How one call went; none if that is otherwise than expected.
fn one_goes<R: Wait>(
    rt: &R,
    alloc: Global,
    store: &mut Store,
    feeds: &mut Vec<Feed>,
    beside: &mut Beside,
    step: &Step,
) -> Option<Try>
    requires sound { IsSound store.old holding }
    requires feeds { map ring_of_feed feeds.old.items ≡ (kept_by store.old holding).rings }
    ensures sound { IsSound store.new holding }
    ensures feeds { map ring_of_feed feeds.new.items ≡ (kept_by store.new holding).rings }
{
    if takes_none(step) {
        begin_without(alloc);
        let went = goes_without(store, feeds, beside, step);
        return if !end(alloc) & went {
            Some(Try::Went)
        } else {
            None
        };
    }
    if let News(key, value) = step {
        return learns(alloc, store, *key, *value);
    }
    let before = shown(store, &mut beside.reader, feeds);
    begin(alloc);
    let answer = tries(rt, alloc, store, feeds, step);
    let refused = end(alloc);
    match answer {
        Ok(true) => Some(if refused { Try::Spared } else { Try::Went }),
        Err(StoreFault::NoMemory) if refused => {
            let now = shown(store, &mut beside.reader, feeds);
            let is_so = is_left(step, &before, &now);
            let went = ends(rt, alloc, store, feeds, step, &before);
            if is_so & went {
                Some(Try::Refused)
            } else {
                None
            }
        }
        _ => None,
    }
}

/// How the step went; none if that is otherwise than expected.
pub(super) fn goes<R: Wait>(
    rt: &R,
    alloc: Global,
    store: &mut Store,
    feeds: &mut Vec<Feed>,
    beside: &mut Beside,
    step: &Step,
) -> Option<Try>
    requires sound { IsSound store.old holding }
    requires feeds { map ring_of_feed feeds.old.items ≡ (kept_by store.old holding).rings }
    ensures sound { IsSound store.new holding }
    ensures feeds { map ring_of_feed feeds.new.items ≡ (kept_by store.new holding).rings }
{
    let Frame(key, value, frame) = step else {
        return one_goes(rt, alloc, store, feeds, beside, step);
    };
    let put = one_goes(rt, alloc, store, feeds, beside, &Put(*key, *value));
    let taken = one_goes(rt, alloc, store, feeds, beside, &Turn(1));
    let flushed = one_goes(rt, alloc, store, feeds, beside, &Flush(Some(*frame)));
    both(both(put, taken), flushed)
}
