//! Calls on one leaf.

ghost use Rattle.std.specs.Prelude.{IsTrue};
ghost use Rattle.bw_record.specs.Keys.{ascends};

use bw_codec::{Key, Leaf, Packed, Record};
use bw_page::{
    Halves, change, change_all, count_after, empty_page, keep_below, split_in_two, value_in,
};
use std::alloc::Global;
use test_kit::tables::{Row, Table, WrongRow, WrongStep, rows_go, tables_go};
use test_kit::vectors::{all_packed, del, is_shown, leaf_of, put};

/// One call on a leaf, with what it has to answer.
enum Step {
    /// Puts a value, after which there are so many pairs.
    Put(&'static str, &'static str, usize),
    /// Deletes a key, after which there are so many pairs.
    Del(&'static str, usize),
    Shown(&'static str),
}

fn changed(leaf: &mut Leaf, record: Option<Record>, count: usize) -> bool {
    let Some(record) = record else {
        return false;
    };
    let foretold = count_after(leaf, &record);
    change(leaf, &record).is_ok() && foretold == count && leaf.pairs.as_slice().len() == count
}

/// Whether the step went as expected.
fn goes(leaf: &mut Leaf, step: &Step) -> bool {
    match step {
        Step::Put(key, value, count) => {
            changed(leaf, put(key.as_bytes(), value.as_bytes()), *count)
        }
        Step::Del(key, count) => changed(leaf, del(key.as_bytes()), *count),
        Step::Shown(text) => is_shown(Some(leaf), text),
    }
}

/// Steps over an empty page.
struct Steps(&'static [Step]);

impl Table for Steps {
    fn wrong_step(&self, alloc: Global) -> Option<usize> {
        let mut leaf = empty_page(alloc);
        for (i, step) in self.0.iter().enumerate() {
            if !goes(&mut leaf, step) {
                return Some(i);
            }
        }
        None
    }
}

const ONE_LEAF: &[Step] = &[
    Step::Shown(":"),
    Step::Del("b", 0),
    Step::Put("b", "1", 1),
    Step::Put("b", "2", 1),
    Step::Put("bb", "3", 2),
    Step::Put("a", "4", 3),
    Step::Shown(": a=4 b=2 bb=3"),
    Step::Del("c", 3),
    Step::Del("b", 2),
    Step::Del("b", 2),
    Step::Put("b", "", 3),
    Step::Shown(": a=4 b= bb=3"),
];

#[test]
fn a_leaf_is_changed_record_by_record(rt: HostRuntime) -> Result<(), WrongStep> {
    tables_go(rt.alloc(), &[Steps(ONE_LEAF)])
}

/// A leaf, and what is made of it or said of it.
enum Made {
    /// The most pairs, the keys, and the two parts of the leaf, which is split if it has more.
    Split(u16, &'static str, &'static str, &'static str),
    /// The keys, the first key that goes, and what is kept.
    Kept(&'static str, &'static str, &'static str),
    /// A key, and its value in a leaf of only `d`; no text if it has none.
    Value(&'static str, &'static str),
    /// What an empty page is after `CHANGES`.
    Changed(&'static str),
}

use Made::{Changed, Kept, Split, Value};

/// A leaf of these keys of one letter each in their order, without values.
fn lettered(alloc: Global, keys: &str) -> Option<Leaf> {
    let mut leaf = empty_page(alloc);
    for (i, key) in keys.as_bytes().iter().enumerate() {
        if !changed(&mut leaf, put(&[*key], b""), i + 1) {
            return None;
        }
    }
    Some(leaf)
}

fn are_parts(halves: &Halves, lower: &str, upper: &str) -> bool {
    [halves.lower.page, halves.upper.page] == [1, 7]
        && is_shown(Some(&halves.lower), lower)
        && is_shown(Some(&halves.upper), upper)
}

/// Whether the leaf, split if it has more than so many pairs, gives these parts.
fn is_split(alloc: Global, m: u16, leaf: Option<Leaf>, lower: &str, upper: &str) -> bool {
    let Some(leaf) = leaf else {
        return false;
    };
    if m == 0 || leaf.pairs.as_slice().len() <= usize::from(m) {
        return false;
    }
    match split_in_two(alloc, m, leaf, 7) {
        Ok(halves) => are_parts(&halves, lower, upper),
        Err(_) => false,
    }
}

/// Whether this is kept of a leaf in front of a key.
fn is_kept(leaf: Option<Leaf>, end: &str, text: &str) -> bool {
    match leaf {
        Some(leaf) => is_shown(Some(&keep_below(leaf, end.as_bytes())), text),
        None => false,
    }
}

/// Whether a key has this value in a leaf; no text if it has none.
fn tells(leaf: &Leaf, key: &str, text: &str) -> bool
    requires { IsTrue (ascends leaf.now.pairs) }
{
    let Ok(key) = Key::new(key.as_bytes()) else {
        return false;
    };
    match value_in(leaf, &key) {
        Some(found) => found.as_slice() == text.as_bytes(),
        None => text.len() == 0,
    }
}

/// Whether a key has this value in a leaf that has only `d`; no text if it has none.
fn has_value(alloc: Global, key: &str, text: &str) -> bool {
    match leaf_of(alloc, 1, b"", b"d", b"4") {
        Ok(leaf) => tells(&leaf, key, text),
        Err(_) => false,
    }
}

const CHANGES: &[(&str, Option<&str>)] = &[
    ("a", Some("1")),
    ("b", Some("2")),
    ("a", Some("3")),
    ("b", None),
];

/// Whether an empty page is shown so after these changes.
fn becomes(alloc: Global, records: Option<Vec<Packed>>, text: &str) -> bool {
    let Some(records) = records else {
        return false;
    };
    match change_all(empty_page(alloc), records.as_slice()) {
        Ok(after) => is_shown(Some(&after), text),
        Err(_) => false,
    }
}

impl Row for Made {
    fn goes(&self, alloc: Global) -> Option<bool> {
        let is_so = match self {
            Split(m, keys, lower, upper) => {
                is_split(alloc, *m, lettered(alloc, keys), lower, upper)
            }
            Kept(keys, end, text) => is_kept(lettered(alloc, keys), end, text),
            Value(key, text) => has_value(alloc, key, text),
            Changed(text) => becomes(alloc, all_packed(alloc, CHANGES), text),
        };
        Some(is_so)
    }
}

const MADE: &[Made] = &[
    Split(4, "abcde", ": a= b=", "c: c= d= e="),
    Split(4, "abcdef", ": a= b=", "c: c= d= e= f="),
    Split(5, "abcdef", ": a= b= c=", "d: d= e= f="),
    Split(1, "ab", ": a=", "b: b="),
    Split(2, "xyz", ": x=", "y: y= z="),
    Kept("abc", "b", ": a="),
    Kept("abc", "bb", ": a= b="),
    Kept("abc", "a", ":"),
    Kept("abc", "z", ": a= b= c="),
    Kept("", "a", ":"),
    Value("d", "4"),
    Value("c", ""),
    Value("da", ""),
    Value("e", ""),
    Changed(": a=3"),
];

#[test]
fn leaves_are_made_as_told(rt: HostRuntime) -> Result<(), WrongRow> {
    rows_go(rt.alloc(), MADE)
}
