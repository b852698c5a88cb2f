//! Calls on all leaves, of which each is in memory.

ghost use Rattle.std.specs.Prelude.{◌≡◌, []};

use super::clock::{gives, is_counted};
use super::evicted::two_pages;
use super::leads;
use bw_codec::{Key, Packed, Record};
use bw_history::PackedEntry;
use bw_page::{Applied, Leaves};
use std::alloc::Global;
use test_kit::tables::{Table, WrongStep, tables_go};
use test_kit::vectors::{all_packed, del, is_shown, packed, packed_put, records};

/// One call on leaves, with what it has to answer.
pub(super) enum Step {
    /// Puts a value: the page at which it is directed, and the one that it makes, or 0.
    Put(&'static str, &'static str, u32, u32),
    /// Puts a value and looks at this page first: the page at which it is directed, and the one
    /// that it makes, or 0.
    Hinted(u32, &'static str, &'static str, u32, u32),
    /// Deletes a key: the page at which it is directed.
    Del(&'static str, u32),
    /// Puts so many keys of two digits.
    Fill(u16),
    /// As many pages.
    Count(u32),
    /// A page as `is_shown` has it; no text if there is none.
    Page(u32, &'static str),
    /// How many pairs a page has.
    Pairs(u32, usize),
    /// The page of a key.
    Find(&'static str, u32),
    /// The value of a key; no text if there is none.
    Get(&'static str, &'static str),
    /// What the records of `TEN` would do: the pages at which they are directed.
    Foretold(&'static [u32]),
    /// All keys of `TEN`, by one batch.
    Batch,
    /// All keys of `TEN`, by one batch, for which these pages are looked at first; none if it is 0.
    GuessedBatch(&'static [u32]),
    /// Goes on with a copy.
    Copy,
    /// The hand gives this page to leave memory, which stays.
    Given(u32),
}

use Step::{
    Batch, Copy, Count, Del, Fill, Find, Foretold, Get, Given, GuessedBatch, Hinted, Page, Put,
};

fn applied(leaves: &mut Leaves, change: Option<Packed>, page: u32, made: u32) -> bool
    requires { leaves.old.evicted ≡ [] }
    ensures { leaves.new.evicted ≡ [] }
{
    let Some(change) = change else {
        return false;
    };
    let made = if made == 0 { None } else { Some(made) };
    leaves.apply(&change) == Ok(Applied { page, made })
}

fn hinted(leaves: &mut Leaves, hint: u32, change: Option<Packed>, page: u32, made: u32) -> bool
    requires { leaves.old.evicted ≡ [] }
    ensures { leaves.new.evicted ≡ [] }
{
    let Some(change) = change else {
        return false;
    };
    let made = if made == 0 { None } else { Some(made) };
    leaves.apply_hinted(hint, &change) == Ok(Applied { page, made })
}

/// A copy of a put of this value, packed.
fn putting(alloc: Global, key: &[u8], value: &[u8]) -> Option<Packed> {
    match packed_put(alloc, key, value) {
        Some(change) => change.copy().ok(),
        None => None,
    }
}

/// A delete of this key, packed.
fn deleting(alloc: Global, key: &[u8]) -> Option<Packed> {
    match del(key) {
        Some(record) => packed(alloc, &record),
        None => None,
    }
}

fn filled(alloc: Global, leaves: &mut Leaves, count: u16) -> bool
    requires { leaves.old.evicted ≡ [] }
    ensures { leaves.new.evicted ≡ [] }
{
    for i in 0..count {
        let digits = [b'0' + (i / 10 % 10) as u8, b'0' + (i % 10) as u8];
        let Some(change) = putting(alloc, &digits, b"") else {
            return false;
        };
        if leaves.apply(&change).is_err() {
            return false;
        }
    }
    true
}

/// The records of `TEN`, packed.
fn ten(alloc: Global) -> Option<Vec<Packed>> {
    all_packed(alloc, TEN)
}

/// Records as entries, each with the page beside it as a guess.
fn guessed(alloc: Global, records: &[Record], pages: &[u32]) -> Option<Vec<PackedEntry>> {
    let mut all = Vec::new(alloc);
    for (record, guess) in records.iter().zip(pages) {
        let Ok(entry) = PackedEntry::of(alloc, 0, false, record) else {
            return None;
        };
        if all.push(entry.on(*guess)).is_err() {
            return None;
        }
    }
    Some(all)
}

/// The records of `TEN` as entries, each with the page beside it as a guess.
fn ten_guessed(alloc: Global, pages: &[u32]) -> Option<Vec<PackedEntry>> {
    match records(alloc, TEN) {
        Some(records) => guessed(alloc, records.as_slice(), pages),
        None => None,
    }
}

fn batch(alloc: Global, leaves: &mut Leaves) -> bool
    requires { leaves.old.evicted ≡ [] }
    ensures { leaves.new.evicted ≡ [] }
{
    match ten(alloc) {
        Some(records) => leaves.apply_all(records.as_slice()).is_ok(),
        None => false,
    }
}

fn foretold(alloc: Global, leaves: &mut Leaves, pages: &[u32]) -> bool
    requires { leaves.old.evicted ≡ [] }
    ensures { leaves.new.evicted ≡ [] }
{
    let Some(records) = ten(alloc) else {
        return false;
    };
    match leaves.steps(records.as_slice()) {
        Ok(steps) => are_at(steps.as_slice(), pages),
        Err(_) => false,
    }
}

fn are_at(steps: &[bw_page::Step], pages: &[u32]) -> bool {
    if steps.len() != pages.len() {
        return false;
    }
    for (step, page) in steps.iter().zip(pages) {
        if step.page != *page {
            return false;
        }
    }
    true
}

fn guessed_batch(alloc: Global, leaves: &mut Leaves, pages: &[u32]) -> bool
    requires { leaves.old.evicted ≡ [] }
    ensures { leaves.new.evicted ≡ [] }
{
    match ten_guessed(alloc, pages) {
        Some(entries) => leaves.apply_all_of(entries.as_slice()).is_ok(),
        None => false,
    }
}

fn has(leaves: &Leaves, key: &str, text: &str) -> bool
    requires { leaves.now.evicted ≡ [] }
{
    let Ok(key) = Key::new(key.as_bytes()) else {
        return false;
    };
    match leaves.get(&key) {
        Some(found) => found.as_slice() == text.as_bytes(),
        None => text.len() == 0,
    }
}

fn pairs(leaves: &Leaves, page: u32) -> usize {
    match leaves.page(page) {
        Some(leaf) => leaf.pairs.as_slice().len(),
        None => 99,
    }
}

fn copied(leaves: &mut Leaves) -> bool
    requires { leaves.old.evicted ≡ [] }
    ensures { leaves.new.evicted ≡ [] }
{
    let Ok(copy) = leaves.copy() else {
        return false;
    };
    *leaves = copy;
    true
}

/// Whether the step went as expected.
fn goes(alloc: Global, leaves: &mut Leaves, step: &Step) -> bool
    requires { leaves.old.evicted ≡ [] }
    ensures { leaves.new.evicted ≡ [] }
{
    match step {
        Step::Put(key, value, page, made) => {
            let change = putting(alloc, key.as_bytes(), value.as_bytes());
            applied(leaves, change, *page, *made)
        }
        Step::Hinted(hint, key, value, page, made) => {
            let change = putting(alloc, key.as_bytes(), value.as_bytes());
            hinted(leaves, *hint, change, *page, *made)
        }
        Step::Del(key, page) => applied(leaves, deleting(alloc, key.as_bytes()), *page, 0),
        Step::Fill(count) => filled(alloc, leaves, *count),
        Step::Count(count) => leaves.count() == *count,
        Step::Page(page, text) => is_shown(leaves.page(*page), text),
        Step::Pairs(page, count) => pairs(leaves, *page) == *count,
        Step::Find(key, page) => leads(leaves, key, *page),
        Step::Get(key, text) => has(leaves, key, text),
        Step::Foretold(pages) => foretold(alloc, leaves, pages),
        Step::Batch => batch(alloc, leaves),
        Step::GuessedBatch(pages) => guessed_batch(alloc, leaves, pages),
        Step::Copy => copied(leaves),
        Step::Given(page) => gives(leaves, *page),
    }
}

/// The first step that did not go as expected, or after which another number of bytes is counted
/// than the pages have.
fn walked(alloc: Global, from: Leaves, steps: &[Step]) -> Option<usize>
    requires { from.evicted ≡ [] }
{
    let mut leaves = from;
    for (i, step) in steps.iter().enumerate() {
        if !goes(alloc, &mut leaves, step) || !is_counted(&leaves) {
            return Some(i);
        }
    }
    None
}

const TEN: &[(&str, Option<&str>)] = &[
    ("a", Some("1")),
    ("b", Some("1")),
    ("c", Some("1")),
    ("d", Some("1")),
    ("e", Some("1")),
    ("f", Some("1")),
    ("g", Some("1")),
    ("aa", Some("1")),
    ("ab", Some("1")),
    ("ac", Some("1")),
];

const FOUR: &[Step] = &[
    Put("cc", "0", 1, 0),
    Foretold(&[1, 1, 1, 1, 2, 2, 3, 1, 1, 1]),
    Count(1),
    Page(1, ": cc=0"),
    Del("cc", 1),
    Foretold(&[1, 1, 1, 1, 1, 2, 2, 1, 1, 1]),
    Count(1),
    Page(1, ":"),
    Batch,
    Count(4),
    Page(1, ": a=1 aa=1"),
    Page(2, "c: c=1 d=1"),
    Page(3, "e: e=1 f=1 g=1"),
    Page(4, "ab: ab=1 ac=1 b=1"),
    Copy,
    Page(1, ": a=1 aa=1"),
    Page(2, "c: c=1 d=1"),
    Page(3, "e: e=1 f=1 g=1"),
    Page(4, "ab: ab=1 ac=1 b=1"),
    Page(5, ""),
    Page(0, ""),
    Find("abz", 4),
    Find("dz", 2),
    Find("e", 3),
    Find("ab", 4),
    Find("aaz", 1),
    Find("0", 1),
    Find("zz", 3),
    Put("a", "2", 1, 0),
    Del("ab", 4),
    Get("a", "2"),
    Get("aa", "1"),
    Get("ab", ""),
    Get("abc", ""),
    Get("b", "1"),
];

const SINGLE: &[Step] = &[
    Put("a", "1", 1, 0),
    Put("b", "1", 1, 0),
    Put("c", "1", 1, 0),
    Put("d", "1", 1, 0),
    Put("e", "1", 1, 2),
    Put("f", "1", 2, 0),
    Put("g", "1", 2, 3),
    Put("aa", "1", 1, 0),
    Put("ab", "1", 1, 0),
    Put("ac", "1", 1, 4),
    Count(4),
    Page(1, ": a=1 aa=1"),
    Page(2, "c: c=1 d=1"),
    Page(3, "e: e=1 f=1 g=1"),
    Page(4, "ab: ab=1 ac=1 b=1"),
];

// Pages that are right, those of other keys, of no page, and none.
const HINTED: &[Step] = &[
    GuessedBatch(&[0, 1, 1, 1, 1, 1, 9, 2, 0, 0]),
    Count(4),
    Page(1, ": a=1 aa=1"),
    Page(2, "c: c=1 d=1"),
    Page(3, "e: e=1 f=1 g=1"),
    Page(4, "ab: ab=1 ac=1 b=1"),
    Hinted(4, "ab", "2", 4, 0),
    Hinted(3, "fz", "2", 3, 0),
    Hinted(2, "dz", "2", 2, 0),
    Hinted(1, "c", "2", 2, 0),
    Hinted(3, "zz", "2", 3, 5),
    Hinted(3, "g", "2", 5, 0),
    Hinted(0, "a", "2", 1, 0),
    Hinted(6, "e", "2", 3, 0),
    Hinted(3, "a0", "2", 1, 0),
    Page(1, ": a=2 a0=2 aa=1"),
    Page(2, "c: c=2 d=1 dz=2"),
    Page(3, "e: e=2 f=1"),
    Page(4, "ab: ab=2 ac=1 b=1"),
    Page(5, "fz: fz=2 g=2 zz=2"),
];

const FIVE: &[Step] = &[
    Put("a", "1", 1, 0),
    Put("b", "1", 1, 0),
    Put("c", "1", 1, 0),
    Put("d", "1", 1, 0),
    Put("e", "1", 1, 0),
    Put("f", "1", 1, 2),
    Count(2),
    Page(1, ": a=1 b=1 c=1"),
    Page(2, "d: d=1 e=1 f=1"),
    Del("d", 2),
    Del("e", 2),
    Del("f", 2),
    Del("f", 2),
    Page(2, "d:"),
    Put("cz", "1", 1, 0),
    Put("d", "2", 2, 0),
    Put("zz", "3", 2, 0),
    Page(1, ": a=1 b=1 c=1 cz=1"),
    Page(2, "d: d=2 zz=3"),
];

/// A page is filled, and split if it has one pair too many.
const FILLED_FOUR: &[Step] = &[
    Fill(4),
    Count(1),
    Put("z", "", 1, 2),
    Count(2),
    Step::Pairs(1, 2),
    Step::Pairs(2, 3),
];

const FILLED_FIVE: &[Step] = &[
    Fill(5),
    Count(1),
    Put("z", "", 1, 2),
    Count(2),
    Step::Pairs(1, 3),
    Step::Pairs(2, 3),
];

const FILLED_MOST: &[Step] = &[
    Fill(32),
    Count(1),
    Put("z", "", 1, 2),
    Count(2),
    Step::Pairs(1, 16),
    Step::Pairs(2, 17),
];

// Pages that are made and taken back are in the ring no more.
const GIVEN: &[Step] = &[
    Foretold(&[1, 1, 1, 1, 1, 2, 2, 1, 1, 1]),
    Given(1),
    Given(1),
    Foretold(&[1, 1, 1, 1, 1, 2, 2, 1, 1, 1]),
    Batch,
    Given(2),
    Given(3),
    Given(4),
    Given(1),
    Given(2),
    Copy,
    Given(1),
    Given(2),
    Given(3),
    Given(4),
    Given(1),
];

const TAKEN: &[Step] = &[
    Find("b", 1),
    Find("bz", 1),
    Find("c", 2),
    Find("e", 2),
    Put("c", "3", 2, 0),
    Count(2),
    Page(1, ": a=1"),
    Page(2, "c: c=3 d=4"),
    Page(3, ""),
];

/// What steps walk over.
enum Walk {
    /// New leaves of at most so many pairs.
    OfLimit(u16, &'static [Step]),
    /// Two pages that are taken as they come.
    Taken(&'static [Step]),
}

/// The first step that does not go as expected over new leaves, or the first if they were not made.
fn wrong_of(alloc: Global, m: u16, steps: &[Step]) -> Option<usize> {
    if m < 4 || m > 32 {
        return Some(0);
    }
    match Leaves::one_empty(alloc, m) {
        Ok(leaves) if leaves.limit() == m => walked(alloc, leaves, steps),
        _ => Some(0),
    }
}

/// The first step that does not go as expected over two pages that are taken.
fn wrong_taken(alloc: Global, steps: &[Step]) -> Option<usize> {
    match two_pages(alloc) {
        Ok(leaves) => walked(alloc, leaves, steps),
        Err(_) => Some(0),
    }
}

impl Table for Walk {
    fn wrong_step(&self, alloc: Global) -> Option<usize> {
        match self {
            Walk::OfLimit(m, steps) => wrong_of(alloc, *m, *steps),
            Walk::Taken(steps) => wrong_taken(alloc, *steps),
        }
    }
}

const TABLES: &[Walk] = &[
    Walk::OfLimit(4, FOUR),
    Walk::OfLimit(4, SINGLE),
    Walk::OfLimit(4, HINTED),
    Walk::OfLimit(5, FIVE),
    Walk::OfLimit(4, FILLED_FOUR),
    Walk::OfLimit(5, FILLED_FIVE),
    Walk::OfLimit(32, FILLED_MOST),
    Walk::OfLimit(4, GIVEN),
    Walk::Taken(TAKEN),
];

#[test]
fn leaves_go_as_told(rt: HostRuntime) -> Result<(), WrongStep> {
    tables_go(rt.alloc(), TABLES)
}
