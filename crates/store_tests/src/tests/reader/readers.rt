//! Readers beside a store: what is published is what was flushed.

ghost use Rattle.bw_store.specs.Views.{IsSound};

use super::cases::{Case, over};
use super::serving::{Served, ended, store_over, supplied};
use bw_codec::Key;
use bw_ring::Feed;
use bw_store::{NoReader, ReadFault, Reader, Store};
use std::sync::Wait;
use std::thread;
use std::thread::Threads;
use test_kit::vectors::gone_back;
use test_subjects::putting::{is_put, record};
use test_subjects::subject::config_of;

/// How many times a reader in a thread reads beside the flushes.
const READS: u32 = 10_000;

/// How many values of one key are put, taken and flushed meanwhile.
const VALUES: u8 = 200;

/// Whether a reader answers this value of `k`, by a copy and by a pair that shares its bytes; no
/// bytes if it has none.
pub(super) fn reads(reader: &mut Reader, value: &[u8]) -> bool {
    let Ok(key) = Key::new(b"k") else {
        return false;
    };
    let is_copied = match reader.get(&key) {
        Ok(Some(found)) => found.as_slice() == value,
        Ok(None) => value.is_empty(),
        Err(NoReader) => false,
    };
    let is_shared = match reader.get_shared(&key) {
        Ok(Some(pair)) => pair.value() == value,
        Ok(None) => value.is_empty(),
        Err(_) => false,
    };
    is_copied && is_shared
}

/// Whether a put of `k` is accepted and taken.
pub(super) fn is_taken(store: &mut Store, feeds: &mut Vec<Feed>, value: &[u8]) -> bool
    requires { IsSound store.old holding }
    ensures { IsSound store.new holding }
{
    let Ok(item) = record(b"k", Some(value)) else {
        return false;
    };
    if feeds.as_slice().len() == 0 {
        return false;
    }
    let put = is_put(feeds, 0, item);
    match store.turn(8) {
        Ok(taken) => put & (taken == 1),
        Err(_) => false,
    }
}

// Whether a flush answers so.
fn flushes<R: Wait>(rt: &R, store: &mut Store, told: Option<u64>) -> bool
    requires { IsSound store.old holding }
    ensures { IsSound store.new holding }
{
    store.flush(rt) == Ok(told)
}

// A value is taken: a reader sees the old one still, and this one once it is flushed.
fn is_seen<R: Wait>(
    rt: &R,
    served: &mut Served,
    reader: &mut Reader,
    step: (&[u8], &[u8], u64),
) -> bool
    requires { IsSound served.old.store holding }
    ensures { IsSound served.new.store holding }
{
    let (old, new, frame) = step;
    let before = is_taken(&mut served.store, &mut served.feeds, new) & reads(reader, old);
    let after = flushes(rt, &mut served.store, Some(frame)) & reads(reader, new);
    before & after & flushes(rt, &mut served.store, None)
}

// A reader that learnt the last news reads what they say.
fn reads_news<R: Wait>(rt: &R, store: &mut Store) -> bool
    requires { IsSound store.old holding }
    ensures { IsSound store.new holding }
{
    let Ok(mut reader) = store.reader() else {
        return false;
    };
    let flushed = store.flush(rt).is_ok();
    reader.learn(store.news());
    reads(&mut reader, b"2") & flushed
}

// One reader more is made, and then none.
fn has_one_place(store: &mut Store) -> bool
    requires { IsSound store.old holding }
    ensures { IsSound store.new holding }
{
    store.reader().is_ok() && matches!(store.reader(), Err(ReadFault::NoReader))
}

// A reader sees what was flushed, and not what was only taken, and what the last news say; one more
// has a place beside it.
fn serves<R: Wait>(rt: &R, served: &mut Served) -> Option<Reader>
    requires { IsSound served.old.store holding }
    ensures { IsSound served.new.store holding }
{
    let Ok(mut reader) = served.store.reader() else {
        return None;
    };
    let first = is_seen(rt, served, &mut reader, (b"", b"1", 1));
    let second = is_seen(rt, served, &mut reader, (b"1", b"2", 2));
    let news = reads_news(rt, &mut served.store);
    let places = has_one_place(&mut served.store);
    if first & second & news & places {
        Some(reader)
    } else {
        None
    }
}

// Whether a reader was served and, now that its store is shut, hears so.
fn is_refused(reader: Option<Reader>) -> bool {
    let Ok(key) = Key::new(b"k") else {
        return false;
    };
    match reader {
        Some(mut reader) => matches!(reader.get(&key), Err(NoReader)),
        None => false,
    }
}

// Whether the readers of a store see what they should, in a life of it.
fn is_served<R: AllocGlobal + Wait>(rt: &R) -> bool {
    let Some(supply) = supplied(rt.alloc(), 8) else {
        return false;
    };
    let Some(mut served) = store_over(rt, supply, &config_of(1, 8, 3)) else {
        return false;
    };
    let reader = serves(rt, &mut served);
    ended(rt, served);
    is_refused(reader)
}

#[test]
fn a_reader_sees_what_was_flushed(rt: HostRuntime) {
    assert!(rt; is_served(&rt));
}

// How many reads were refused or went back.
fn read_all(mut reader: Reader) -> u32 {
    let Ok(key) = Key::new(b"k") else {
        return READS;
    };
    gone_back(READS, || reader.get(&key))
}

// Whether all the values were taken and flushed.
fn flush_all<R: Wait>(rt: &R, served: &mut Served) -> bool
    requires { IsSound served.old.store holding }
    ensures { IsSound served.new.store holding }
{
    let mut went = true;
    for value in 0..VALUES {
        let taken = is_taken(&mut served.store, &mut served.feeds, &[value]);
        let flushed = flushes(rt, &mut served.store, Some(u64::from(value) + 1));
        went &= taken & flushed;
    }
    went
}

/// Whether all the values were taken and flushed, and no read beside it was wrong.
pub(super) fn race<R: Threads + Wait>(rt: &R, served: &mut Served) -> bool
    requires { IsSound served.old.store holding }
    ensures { IsSound served.new.store holding }
{
    let Ok(reader) = served.store.reader() else {
        return false;
    };
    let Ok(child) = thread::spawn(rt, move || read_all(reader)) else {
        return false;
    };
    let flushed = flush_all(rt, served);
    child.join(rt) == 0 && flushed
}

#[test]
fn no_value_goes_back_beside_the_flusher(rt: HostRuntime) {
    let went = over(&rt, 8, &config_of(1, 8, 3), &Case::Race);
    assert!(rt; went == Some(true));
}
