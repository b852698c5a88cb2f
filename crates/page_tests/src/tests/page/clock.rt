//! In which order pages leave memory, and how many bytes those have that are there.
//!
//! A page that somebody asked for since the hand passed it last is passed once more; every change
//! of a page asks for it.

ghost use Rattle.std.specs.Prelude.{◌≡◌};

use bw_codec::Packed;
use bw_page::Leaves;
use std::alloc::Global;
use test_kit::tables::{Table, WrongStep, tables_go};
use test_kit::vectors::{del, packed, packed_put};

/// One call on leaves, with what it has to answer.
enum Step {
    /// Puts a value on a page that is in memory.
    Put(&'static str, &'static str),
    /// Deletes a key of a page that is in memory.
    Del(&'static str),
    /// Somebody asks for a page.
    Ask(u32),
    /// The hand gives this page, which stays; no page if it is 0.
    Next(u32),
    /// The hand gives this page, which leaves memory.
    Leaves(u32),
    /// A page leaves memory, the hand gives these pages, which stay, and the page comes back.
    Returns(u32, &'static [u32]),
    /// So many bytes are counted.
    Bytes(u64),
}

use Step::{Ask, Bytes, Del, Next, Put, Returns};

/// Whether as many bytes are counted as the pages have that are in memory.
pub(super) fn is_counted(leaves: &Leaves) -> bool {
    let mut sum: u64 = 0;
    for before in 0..leaves.count() {
        let page = before + 1;
        if leaves.is_here(page) {
            sum = sum.saturating_add(leaves.base_length(page));
        }
    }
    leaves.bytes_here() == sum
}

/// Whether a record is applied to a page that is in memory.
fn applied(leaves: &mut Leaves, change: Option<Packed>) -> bool {
    let Some(change) = change else {
        return false;
    };
    let record = change.record();
    leaves.is_here(leaves.find(record.key())) && leaves.apply(&change).is_ok()
}

/// A delete of this key, packed.
fn deleting(alloc: Global, key: &[u8]) -> Option<Packed> {
    match del(key) {
        Some(record) => packed(alloc, &record),
        None => None,
    }
}

/// Whether the hand gives this page; no page if it is 0.
pub(super) fn gives(leaves: &mut Leaves, page: u32) -> bool
    ensures { leaves.new ≡ leaves.old }
{
    match leaves.next_to_leave() {
        Some(given) => given == page,
        None => page == 0,
    }
}

/// Whether the hand gives this page, which then leaves memory.
fn gives_up(leaves: &mut Leaves, page: u32) -> bool {
    match leaves.next_to_leave() {
        Some(given) => {
            leaves.evict_page(given);
            given == page
        }
        None => false,
    }
}

/// Whether the hand gives these pages, one after the other.
fn gives_all(leaves: &mut Leaves, pages: &[u32]) -> bool
    ensures { leaves.new ≡ leaves.old }
{
    for page in pages {
        if !gives(leaves, *page) {
            return false;
        }
    }
    true
}

/// Whether the hand gives these pages while a page is away, which then comes back.
fn returns(leaves: &mut Leaves, page: u32, given: &[u32]) -> bool {
    if page == 0 || page > leaves.count() {
        return false;
    }
    let kept = match leaves.page(page) {
        Some(leaf) => leaf.copy(),
        None => return false,
    };
    let Ok(kept) = kept else {
        return false;
    };
    leaves.evict_page(page);
    let all = gives_all(leaves, given) && is_counted(leaves);
    leaves.bring_back(page, kept);
    all
}

/// Whether the step went as expected.
fn goes(alloc: Global, leaves: &mut Leaves, step: &Step) -> bool {
    match step {
        Step::Put(key, value) => {
            applied(leaves, packed_put(alloc, key.as_bytes(), value.as_bytes()))
        }
        Step::Del(key) => applied(leaves, deleting(alloc, key.as_bytes())),
        Step::Ask(page) => {
            leaves.ask(*page);
            true
        }
        Step::Next(page) => gives(leaves, *page),
        Step::Leaves(page) => gives_up(leaves, *page),
        Step::Returns(page, given) => returns(leaves, *page, given),
        Step::Bytes(count) => leaves.bytes_here() == *count,
    }
}

/// The first step that did not go as expected, or after which another number of bytes is counted
/// than the pages have.
fn walked(alloc: Global, leaves: &mut Leaves, steps: &[Step]) -> Option<usize> {
    for (i, step) in steps.iter().enumerate() {
        if !goes(alloc, leaves, step) || !is_counted(leaves) {
            return Some(i);
        }
    }
    None
}

// Page 1 with `a` and `aa`, 2 with `c` and `d`, 3 with `e`, `f` and `g`, 4 with `ab`, `ac` and `b`:
// 19, 19, 24 and 27 bytes. The hand then passes each of them, since all were just made.
const FOUR_PAGES: &[Step] = &[
    Bytes(8),
    Put("a", "1"),
    Bytes(13),
    Put("b", "1"),
    Put("c", "1"),
    Put("d", "1"),
    Bytes(28),
    Put("e", "1"),
    Bytes(42),
    Put("f", "1"),
    Put("g", "1"),
    Put("aa", "1"),
    Put("ab", "1"),
    Put("ac", "1"),
    Bytes(89),
    Next(1),
];

const ASKED: &[Step] = &[
    Next(2),
    Ask(3),
    Next(4),
    Next(1),
    Put("c", "22"),
    Bytes(90),
    Next(3),
    Del("b"),
    Bytes(85),
    Next(1),
    Next(2),
    Next(3),
    Next(4),
    // No pair goes, but the page is asked for.
    Del("bb"),
    Bytes(85),
    Next(1),
    Next(2),
    Next(3),
    Next(1),
    Next(2),
    Ask(1),
    Ask(2),
    Ask(3),
    Ask(4),
    Next(3),
    Next(4),
    Next(1),
];

// Page 1 is split in two, of which the upper part is page 5.
const SPLIT: &[Step] = &[
    Put("a0", "1"),
    Put("a1", "1"),
    Bytes(101),
    Next(2),
    Next(3),
    Next(4),
    Put("a2", "1"),
    Bytes(117),
    Next(2),
    Next(3),
    Next(4),
    Next(5),
    Next(1),
];

// The hand meets the last page where it took out another, and again at the end of its round.
const LEAVES: &[Step] = &[
    Next(2),
    Step::Leaves(3),
    Bytes(65),
    Next(4),
    Next(1),
    Ask(2),
    Next(4),
    Next(1),
    Next(2),
    Ask(0),
    Ask(3),
    Ask(5),
    Next(4),
    Step::Leaves(1),
    Bytes(46),
    Next(2),
    Next(4),
    Next(4),
    Next(2),
    Put("ab", ""),
    Bytes(45),
    Step::Leaves(2),
    Bytes(26),
    Next(4),
    Step::Leaves(4),
    Bytes(0),
    Next(0),
    Next(0),
];

// A page comes back after the hand met its place, and before.
const RETURNS: &[Step] = &[
    Returns(4, &[2, 3, 1]),
    Next(2),
    Next(3),
    Next(1),
    Next(2),
    Next(3),
    Next(4),
    Next(1),
    Returns(4, &[2]),
    Next(3),
    Next(1),
    Next(2),
    Next(3),
    Next(4),
    Next(1),
    Next(2),
    Returns(1, &[3]),
    Returns(1, &[]),
    Next(4),
    Next(2),
    Next(3),
    Next(4),
    Next(1),
    Bytes(89),
];

const ALONE: &[Step] = &[
    Next(1),
    Next(1),
    Returns(1, &[0, 0]),
    Next(1),
    Put("a", "1"),
    Next(1),
    Step::Leaves(1),
    Next(0),
    Bytes(0),
];

/// Two tables, of which the second goes on where the first ended. They begin with a new page.
struct Walk(&'static [Step], &'static [Step]);

impl Table for Walk {
    fn wrong_step(&self, alloc: Global) -> Option<usize> {
        let Ok(mut leaves) = Leaves::one_empty(alloc, 4) else {
            return Some(0);
        };
        match walked(alloc, &mut leaves, self.0) {
            Some(step) => Some(step),
            None => match walked(alloc, &mut leaves, self.1) {
                Some(step) => Some(self.0.len().saturating_add(step)),
                None => None,
            },
        }
    }
}

const TABLES: &[Walk] = &[
    Walk(FOUR_PAGES, ASKED),
    Walk(FOUR_PAGES, SPLIT),
    Walk(FOUR_PAGES, LEAVES),
    Walk(FOUR_PAGES, RETURNS),
    Walk(ALONE, &[]),
];

#[test]
fn pages_leave_in_the_order_of_the_clock(rt: HostRuntime) -> Result<(), WrongStep> {
    tables_go(rt.alloc(), TABLES)
}
