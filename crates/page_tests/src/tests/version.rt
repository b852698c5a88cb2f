//! `bw_versions`: versions of the pages, as publishers publish them, and as readers see them beside
//! a writer in another thread.

ghost use Rattle.std.specs.Prelude.{◌≡◌, ◌≤◌, [], IfOk, IfSome};
ghost use mathlib.Core.List.{IsPrefix};
ghost use Rattle.bw_versions.specs.Batches.{entries_of};

mod boards;
mod ending;
mod learning;
mod places;
mod publishers;
mod threads;
mod walking;

use bw_codec::{Key, Record, Value};
use bw_history::PackedEntry;
use bw_page::Leaves;
use bw_versions::{Reader, Versions};
use std::alloc::{AllocError, Global};
use std::sync::Wait;
use std::thread::Threads;
use test_kit::vectors::{are_shown, is_shown, put};

/// Page 1 without any pair.
fn start(alloc: Global) -> Result<Leaves, AllocError>
    ensures { IfOk result (λ l. l.evicted ≡ []) }
{
    Leaves::one_empty(alloc, 4)
}

/// One writer's puts.
fn entries(alloc: Global, pairs: &[(&str, &str)]) -> Option<Vec<PackedEntry>> {
    let mut entries = Vec::new(alloc);
    for (key, value) in pairs {
        let item = put(key.as_bytes(), value.as_bytes())?;
        let entry = PackedEntry::of(alloc, 0, false, &item).ok()?;
        entries.push(entry).ok()?;
    }
    Some(entries)
}

/// Versions of one empty page, and a history of which they publish a beginning.
struct Stand {
    versions: Versions,
    history: Vec<PackedEntry>,
}

/// Nothing is published, and so many readers may be made.
fn opened<R: AllocGlobal + Wait>(rt: &R, places: usize) -> Option<Stand>
    requires { (1 ≤ places) × (places ≤ 64) }
    ensures { IfSome result (λ stand. stand.versions.entered ≡ []) }
{
    let alloc = rt.alloc();
    let start = start(alloc).ok()?;
    Some(Stand {
        versions: Versions::open(rt, alloc, places, start).ok()?,
        history: Vec::new(alloc),
    })
}

/// Enters a writer's record in the history.
fn enter(stand: &mut Stand, writer: u16, record: Option<Record>) -> bool
    requires begins { IsPrefix (entries_of stand.old.versions.entered) stand.old.history.items }
    ensures begins { IsPrefix (entries_of stand.new.versions.entered) stand.new.history.items }
    ensures same { stand.new.versions ≡ stand.old.versions }
{
    let Some(item) = record else {
        return false;
    };
    match PackedEntry::of(*stand.history.allocator(), writer, false, &item) {
        Ok(entry) => stand.history.push(entry).is_ok(),
        Err(_) => false,
    }
}

/// Publishes the history. This says of it only what a test asks for: each body that calls the
/// publication itself would prove all of its contract.
fn publish<R: Wait>(rt: &R, stand: &mut Stand) -> bool
    requires begins { IsPrefix (entries_of stand.old.versions.entered) stand.old.history.items }
    ensures begins { IsPrefix (entries_of stand.new.versions.entered) stand.new.history.items }
    ensures book { stand.new.versions.book ≡ stand.old.versions.book }
{
    let end = stand.history.len();
    let known = stand.versions.entered();
    let fresh = &stand.history[known..];
    stand.versions.publish_up_to(rt, end, fresh).is_ok()
}

/// Ends the versions.
fn shut<R: Wait>(rt: &R, stand: Stand) {
    let Stand {
        versions,
        history: _history,
    } = stand;
    versions.shut(rt);
}

/// What is done with versions of one empty page, which are shut afterwards.
#[derive(Drop)]
enum Case {
    /// One reader beside publications.
    Steps(&'static [walking::Step]),
    /// A reader in a thread of its own, beside publications.
    Race,
    /// A reader in a thread of its own that learnt the last news.
    Learns,
    /// Four readers, of which only three may be made.
    Places,
}

fn does<R: Threads + Wait>(rt: &R, stand: &mut Stand, case: &Case) -> Option<usize>
    requires { stand.old.versions.entered ≡ [] }
{
    match case {
        Case::Steps(steps) => walking::walked(rt, stand, steps),
        Case::Race => lone(threads::race(rt, stand) == Some(true)),
        Case::Learns => lone(learning::learns(rt, stand)),
        Case::Places => lone(places::made(stand) == Some(3)),
    }
}

/// The only step, where it did not go as expected.
fn lone(went: bool) -> Option<usize> {
    if went { None } else { Some(0) }
}

/// The first step that did not go as expected; the first if the versions were not made.
fn over<R: AllocGlobal + Threads + Wait>(rt: &R, places: usize, case: &Case) -> Option<usize>
    requires { (1 ≤ places) × (places ≤ 64) }
{
    let Some(mut stand) = opened(rt, places) else {
        return Some(0);
    };
    let wrong = does(rt, &mut stand, case);
    shut(rt, stand);
    wrong
}

/// Whether a value is so; no text if there is none.
fn is_value(value: Option<Value>, text: &str) -> bool {
    match value {
        Some(value) => value.as_slice() == text.as_bytes(),
        None => text.len() == 0,
    }
}

/// Whether a reader reads this value of a key; no text if there is none.
fn value_is(reader: &mut Reader, key: &str, text: &str) -> bool
    ensures { reader.new.book ≡ reader.old.book }
{
    let Ok(key) = Key::new(key.as_bytes()) else {
        return false;
    };
    match reader.get(&key) {
        Ok(value) => is_value(value, text),
        Err(_) => false,
    }
}

/// Whether a reader finds these pairs from a key on, if no more than so many are wanted.
fn stretch_is(reader: &mut Reader, key: &str, most: usize, text: &str) -> bool
    ensures { reader.new.book ≡ reader.old.book }
{
    let Ok(key) = Key::new(key.as_bytes()) else {
        return false;
    };
    match reader.scan(&key, most) {
        Ok(pairs) => are_shown(&pairs, text),
        Err(_) => false,
    }
}

/// Whether a reader reads this page; no text if there is none.
fn page_is(reader: &mut Reader, page: u32, text: &str) -> bool
    ensures { reader.new.book ≡ reader.old.book }
{
    match reader.page(page) {
        Ok(leaf) => is_shown(leaf.as_ref(), text),
        Err(_) => false,
    }
}
