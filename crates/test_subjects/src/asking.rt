//! What is asked of a store, as text.

ghost use Rattle.std.specs.Prelude.{◌≡◌};
ghost use Rattle.test_subjects.specs.Views.{rings_by, IsSound};

use crate::subject::Subject;
use bw_codec::{Key, Leaf, Pair, Record, Value};
use bw_store::{PackedEntry, StoreFault};
use std::alloc::Global;
use test_kit::vectors::{behind, behind_leaf, is_at_end, spells};

/// Whether these are the bytes of a live segment.
pub fn are_bytes(alloc: Global, store: &mut Subject, segment: u64, hex: &str) -> bool
    requires { IsSound store.old holding }
    ensures sound { IsSound store.new holding }
    ensures rings { rings_by store.new holding ≡ rings_by store.old holding }
{
    let mut bytes = Vec::new(alloc);
    store.dump(segment, &mut bytes) == Ok(true) && spells(&bytes, hex.as_bytes())
}

fn behind_entry<'a>(text: Option<&'a [u8]>, entry: &PackedEntry) -> Option<&'a [u8]> {
    let mut rest = behind(text, &[b'0' + (entry.writer() % 10) as u8]);
    match &entry.entry().item {
        Record::Put(key, value) => {
            rest = behind(behind(rest, b" put "), key.as_slice());
            rest = behind(behind(rest, b" "), value.as_slice());
        }
        Record::Del(key) => rest = behind(behind(rest, b" del "), key.as_slice()),
    }
    behind(rest, b";")
}

/// Whether the history is so: each entry as its writer, `put` or `del`, key and value.
pub fn is_history(entries: &[PackedEntry], text: &str) -> bool {
    let mut rest = Some(text.as_bytes());
    for entry in entries {
        rest = behind_entry(rest, entry);
    }
    is_at_end(rest)
}

fn is_leaf(leaf: &Leaf, text: &str) -> bool {
    let number = [b'0' + (leaf.page % 10) as u8, b' '];
    is_at_end(behind_leaf(behind(Some(text.as_bytes()), &number), leaf))
}

/// Whether a page is so: its number, low key and pairs; with no text, whether there is none.
pub fn is_page(store: &mut Subject, page: u32, text: &str) -> bool
    requires { IsSound store.old holding }
    ensures sound { IsSound store.new holding }
    ensures rings { rings_by store.new holding ≡ rings_by store.old holding }
{
    match store.page(page) {
        Ok(leaf) => is_leaf(&leaf, text),
        Err(StoreFault::NoPage) => text.len() == 0,
        Err(_) => false,
    }
}

/// Whether a page is refused so.
pub fn is_unread(store: &mut Subject, page: u32, fault: StoreFault) -> bool
    requires { IsSound store.old holding }
    ensures sound { IsSound store.new holding }
    ensures rings { rings_by store.new holding ≡ rings_by store.old holding }
{
    match store.page(page) {
        Ok(_) => false,
        Err(cause) => cause == fault,
    }
}

/// Whether a key has this value; with no text, whether it has none.
pub fn has(store: &mut Subject, key: &[u8], text: &[u8]) -> bool
    requires { IsSound store.old holding }
    ensures sound { IsSound store.new holding }
    ensures rings { rings_by store.new holding ≡ rings_by store.old holding }
{
    let Ok(key) = Key::new(key) else {
        return false;
    };
    match store.get(&key) {
        Ok(Some(value)) => value.as_slice() == text,
        Ok(None) => text.len() == 0,
        Err(_) => false,
    }
}

/// Whether a key has this value, by the pair that shares its bytes; with no text, whether it has
/// none.
pub fn has_shared(store: &mut Subject, key: &[u8], text: &[u8]) -> bool
    requires { IsSound store.old holding }
    ensures sound { IsSound store.new holding }
    ensures rings { rings_by store.new holding ≡ rings_by store.old holding }
{
    let Ok(key) = Key::new(key) else {
        return false;
    };
    match store.get_shared(&key) {
        Ok(Some(pair)) => pair.key() == key.as_slice() && pair.value() == text,
        Ok(None) => text.len() == 0,
        Err(_) => false,
    }
}

// Whether a walk back answers this pair; with no key, whether it answers none.
fn is_pair(found: Result<Option<(Key, Value)>, StoreFault>, at: &[u8], text: &[u8]) -> bool {
    match found {
        Ok(Some((key, value))) => key.as_slice() == at && value.as_slice() == text,
        Ok(None) => at.len() == 0,
        Err(_) => false,
    }
}

/// Whether this is the last pair at or below a key; with no key, whether there is none.
pub fn is_last(store: &mut Subject, key: &[u8], at: &[u8], text: &[u8]) -> bool
    requires { IsSound store.old holding }
    ensures sound { IsSound store.new holding }
    ensures rings { rings_by store.new holding ≡ rings_by store.old holding }
{
    match Key::new(key) {
        Ok(key) => is_pair(store.prev_at(&key), at, text),
        Err(_) => false,
    }
}

/// Whether this is the last pair below a key; with no key, whether there is none.
pub fn is_last_below(store: &mut Subject, key: &[u8], at: &[u8], text: &[u8]) -> bool
    requires { IsSound store.old holding }
    ensures sound { IsSound store.new holding }
    ensures rings { rings_by store.new holding ≡ rings_by store.old holding }
{
    match Key::new(key) {
        Ok(key) => is_pair(store.prev_below(&key), at, text),
        Err(_) => false,
    }
}

fn are_pairs(pairs: &[Pair], text: &str) -> bool {
    let mut rest = Some(text.as_bytes());
    for pair in pairs {
        rest = behind(behind(rest, b" "), pair.key());
        rest = behind(behind(rest, b"="), pair.value());
    }
    is_at_end(rest)
}

/// Whether the pairs at or above a key, no more than so many, are these: each after a space.
pub fn is_stretch(alloc: Global, store: &mut Subject, key: &[u8], most: usize, text: &str) -> bool
    requires { IsSound store.old holding }
    ensures sound { IsSound store.new holding }
    ensures rings { rings_by store.new holding ≡ rings_by store.old holding }
{
    let Ok(key) = Key::new(key) else {
        return false;
    };
    match store.pairs_from(alloc, &key, most) {
        Ok(found) => are_pairs(&found, text),
        Err(_) => false,
    }
}
