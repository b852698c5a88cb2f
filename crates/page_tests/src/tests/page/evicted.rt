//! A page that leaves memory and comes back.

ghost use Rattle.std.specs.Prelude.{◌≡◌, [], IfOk};

use super::leads;
use bw_codec::Key;
use bw_page::{Applied, Leaves};
use std::alloc::{AllocError, Global};
use test_kit::tables::WrongStep;
use test_kit::vectors::{is_shown, leaf_of, packed, put};

/// Page 1 with `a`, and page 2 from `c` on with `d`.
pub(super) fn two_pages(alloc: Global) -> Result<Leaves, AllocError>
    ensures { IfOk result (λ l. l.evicted ≡ []) }
{
    let mut leaves = Vec::new(alloc);
    leaves.push(leaf_of(alloc, 1, b"", b"a", b"1")?)?;
    leaves.push(leaf_of(alloc, 2, b"c", b"d", b"4")?)?;
    Leaves::of(leaves, 4)
}

/// What is asked of leaves, of which some may be evicted, with the answer.
enum Ask {
    Count(u32),
    Here(u32, bool),
    /// A page as `is_shown` has it; no text if it is not in memory.
    Page(u32, &'static str),
    /// The page of a key.
    Find(&'static str, u32),
    /// The value of a key; no text if its page is evicted.
    Get(&'static str, &'static str),
}

fn has(leaves: &Leaves, key: &str, text: &str) -> bool {
    let Ok(key) = Key::new(key.as_bytes()) else {
        return false;
    };
    if !leaves.is_here(leaves.find(&key)) {
        return text.len() == 0;
    }
    match leaves.get(&key) {
        Some(found) => found.as_slice() == text.as_bytes(),
        None => false,
    }
}

fn is_so(leaves: &Leaves, ask: &Ask) -> bool {
    match ask {
        Ask::Count(count) => leaves.count() == *count,
        Ask::Here(page, told) => leaves.is_here(*page) == *told,
        Ask::Page(page, text) => is_shown(leaves.page(*page), text),
        Ask::Find(key, page) => leads(leaves, key, *page),
        Ask::Get(key, text) => has(leaves, key, text),
    }
}

/// The first question that was not answered as expected, after the number of its table.
fn wrong_answer(leaves: &Leaves, table: usize, asks: &[Ask]) -> Option<(usize, usize)> {
    for (i, ask) in asks.iter().enumerate() {
        if !is_so(leaves, ask) {
            return Some((table, i));
        }
    }
    None
}

const BEFORE: &[Ask] = &[
    Ask::Count(2),
    Ask::Here(1, true),
    Ask::Here(2, true),
    Ask::Page(2, "c: d=4"),
];

const AWAY: &[Ask] = &[
    Ask::Count(2),
    Ask::Here(0, false),
    Ask::Here(1, true),
    Ask::Here(2, false),
    Ask::Here(3, false),
    Ask::Page(1, ": a=1"),
    Ask::Page(2, ""),
    Ask::Find("b", 1),
    Ask::Find("d", 2),
    Ask::Get("a", "1"),
    Ask::Get("d", ""),
];

const BACK: &[Ask] = &[
    Ask::Here(1, true),
    Ask::Here(2, true),
    Ask::Page(1, ": a=1"),
    Ask::Page(2, "c: d=4"),
    Ask::Get("d", "4"),
];

/// What a failure says if the pages were others, so that nothing was asked.
const OTHER_PAGES: (usize, usize) = (9, 0);

/// What a failure says if the change was another.
const OTHER_CHANGE: (usize, usize) = (9, 1);

/// Page 2 leaves memory and comes back: the first question that was not answered as expected.
fn goes_and_returns(leaves: &mut Leaves) -> Option<(usize, usize)>
    requires { leaves.old.evicted ≡ [] }
{
    let kept = match leaves.page(2) {
        Some(leaf) if leaves.count() == 2 => leaf.copy(),
        _ => return Some(OTHER_PAGES),
    };
    let Ok(kept) = kept else {
        return Some(OTHER_PAGES);
    };
    let before = wrong_answer(leaves, 0, BEFORE);
    leaves.evict_page(2);
    let evicted = wrong_answer(leaves, 1, AWAY);
    leaves.bring_back(2, kept);
    before.or(evicted).or(wrong_answer(leaves, 2, BACK))
}

const CHANGED: &[Ask] = &[
    Ask::Count(2),
    Ask::Here(2, false),
    Ask::Page(1, ": a=1 b=2"),
    Ask::Page(2, ""),
];

/// Whether a record of this key does so; none if the page at which it is directed is not in memory.
fn applies(
    alloc: Global,
    leaves: &mut Leaves,
    key: &[u8],
    value: &[u8],
    told: Option<Applied>,
) -> bool {
    let Some(record) = put(key, value) else {
        return false;
    };
    let Some(change) = packed(alloc, &record) else {
        return false;
    };
    if !leaves.is_here(leaves.find(record.key())) {
        return told.is_none();
    }
    told.is_some() && leaves.apply(&change).ok() == told
}

/// Whether a record of the page that is evicted is left out, and one of the other page applied.
fn changes_one(alloc: Global, leaves: &mut Leaves) -> bool {
    let told = Applied {
        page: 1,
        made: None,
    };
    applies(alloc, leaves, b"d", b"5", None) && applies(alloc, leaves, b"b", b"2", Some(told))
}

/// Page 1 is changed while page 2 is evicted: the first question that was not answered as expected
/// then.
fn changed_beside(alloc: Global, leaves: &mut Leaves) -> Option<(usize, usize)> {
    if leaves.count() != 2 {
        return Some(OTHER_PAGES);
    }
    leaves.evict_page(2);
    if !changes_one(alloc, leaves) {
        return Some(OTHER_CHANGE);
    }
    wrong_answer(leaves, 0, CHANGED)
}

/// Two pages that are there go one way or the other: the first question that was not answered as
/// expected.
fn first_wrong(alloc: Global, comes_back: bool) -> Option<(usize, usize)> {
    match two_pages(alloc) {
        Ok(mut leaves) if comes_back => goes_and_returns(&mut leaves),
        Ok(mut leaves) => changed_beside(alloc, &mut leaves),
        Err(_) => Some(OTHER_PAGES),
    }
}

/// The first question that was not answered as expected fails a test.
fn all_answered(alloc: Global, comes_back: bool) -> Result<(), WrongStep> {
    match first_wrong(alloc, comes_back) {
        Some((table, ask)) => Err(WrongStep(table, ask)),
        None => Ok(()),
    }
}

#[test]
fn a_page_leaves_memory_and_comes_back(rt: HostRuntime) -> Result<(), WrongStep> {
    all_answered(rt.alloc(), true)
}

#[test]
fn a_page_is_changed_while_another_is_evicted(rt: HostRuntime) -> Result<(), WrongStep> {
    all_answered(rt.alloc(), false)
}
