//! All pages of the writers' puts, read back.

ghost use Rattle.std.specs.Prelude.{◌≡◌};
ghost use Rattle.bw_store.specs.Views.{kept_by, IsSound};

use super::scripts::numbered;
use bw_codec::{Leaf, Record};
use bw_store::{Reader, Store, StoreFault};

// How many pairs a page has.
fn pairs_of(store: &mut Store, page: u32) -> Result<u64, StoreFault>
    requires { IsSound store.old holding }
    ensures sound { IsSound store.new holding }
    ensures rings { (kept_by store.new holding).rings ≡ (kept_by store.old holding).rings }
{
    Ok(store.page(page)?.pairs.as_slice().len() as u64)
}

// Whether all pages have so many pairs.
fn have_pairs(store: &mut Store, told: u64) -> bool
    requires { IsSound store.old holding }
    ensures sound { IsSound store.new holding }
    ensures rings { (kept_by store.new holding).rings ≡ (kept_by store.old holding).rings }
{
    let mut count: u64 = 0;
    'pages: for page in 1..100_000 {
        match pairs_of(store, page) {
            Ok(more) => count = count.saturating_add(more),
            Err(fault) => return fault == StoreFault::NoPage && count == told,
        }
    }
    false
}

// Whether the key of a put has its value.
fn is_read(store: &mut Store, writer: usize, number: u32, keys: u32) -> bool
    requires { IsSound store.old holding }
    ensures sound { IsSound store.new holding }
    ensures rings { (kept_by store.new holding).rings ≡ (kept_by store.old holding).rings }
{
    match numbered(writer, number, keys) {
        Record::Put(key, value) => store.get(&key) == Ok(Some(value)),
        _ => false,
    }
}

/// Whether all pages together have the last value of each key of the first so many records of so
/// many writers, and no more.
pub(super) fn reads(store: &mut Store, writers: usize, records: u32, keys: u32) -> bool
    requires { IsSound store.old holding }
    ensures sound { IsSound store.new holding }
    ensures rings { (kept_by store.new holding).rings ≡ (kept_by store.old holding).rings }
{
    let each = records.min(keys);
    let all = writers.saturating_mul(each as usize);
    'puts: for put in 0..all {
        let (writer, number) = (put / each.max(1) as usize, put % each.max(1) as usize);
        if !is_read(store, writer, records - each + number as u32, keys) {
            return false;
        }
    }
    have_pairs(store, all as u64)
}

/// Whether the first page has the first two records of writer 0, and no more.
pub(super) fn is_split(store: &mut Store) -> bool
    requires { IsSound store.old holding }
    ensures sound { IsSound store.new holding }
    ensures rings { (kept_by store.new holding).rings ≡ (kept_by store.old holding).rings }
{
    match store.page(1) {
        Ok(leaf) => are_two(&leaf),
        Err(_) => false,
    }
}

// Whether these are the first two records of writer 0.
fn are_two(leaf: &Leaf) -> bool {
    let mut next: u32 = 0;
    for pair in leaf.pairs.as_slice() {
        if Record::Put(pair.to_key(), pair.to_value()) != numbered(0, next, 10_000) {
            return false;
        }
        next = next.saturating_add(1);
    }
    next == 2
}

// Whether a reader has a writer's record of this number.
fn is_seen(reader: &mut Reader, writer: usize, number: u32, keys: u32) -> bool {
    let Record::Put(key, value) = numbered(writer, number, keys) else {
        return false;
    };
    match reader.get(&key) {
        Ok(found) => found == Some(value),
        Err(_) => false,
    }
}

// Whether a reader has each writer's record of this number.
fn are_seen(reader: &mut Reader, writers: usize, number: u32, keys: u32) -> bool {
    for writer in 0..writers {
        if !is_seen(reader, writer, number, keys) {
            return false;
        }
    }
    true
}

/// Whether a new reader that learnt the last news sees the last record of each writer.
pub(super) fn learns(store: &mut Store, writers: usize, records: u32, keys: u32) -> bool
    requires { IsSound store.old holding }
    ensures sound { IsSound store.new holding }
    ensures rings { (kept_by store.new holding).rings ≡ (kept_by store.old holding).rings }
{
    let Ok(mut reader) = store.reader() else {
        return false;
    };
    reader.learn(store.news());
    are_seen(&mut reader, writers, records.saturating_sub(1), keys)
}
