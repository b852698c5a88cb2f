// Each call once, if memory is there.

use super::told::{Told, is_told};
use bw_buffer::PutError;
use bw_codec::{
    Block, Blocks, CodecFault, Head, Header, Key, Leaf, LengthError, Low, Ops, Pair, Pairs, Place,
    Value, is_before,
};
use std::alloc::Global;
use std::mem;
use test_kit::tables::{Row, Table, WrongRow, WrongStep, rows_go, tables_go};
use test_kit::vectors::{all_packed, are_shown, is_text, put, shows};

/// One call, with what it has to answer.
enum Call {
    /// Whether a key may have so many bytes, and a value.
    Length(usize, bool, bool),
    /// Heads and keys by the calls that answer yes or no.
    Questions,
    /// One record, and the blocks that hold it, are handed in and out.
    OneRecord,
    /// A list of records, and the blocks that hold it, are handed in and out.
    Records,
    /// A refusal's text.
    OfLength(LengthError, &'static str),
    OfCodec(CodecFault, &'static str),
    OfBuffer(PutError, &'static str),
}

use Call::{Length, OfBuffer, OfCodec, OfLength, OneRecord, Questions, Records};

const LETTERS: &[u8] = &[0x61; 513];

/// Whether a key may have these bytes, and a value.
fn may_have(bytes: Option<&[u8]>, key: bool, value: bool) -> bool {
    match bytes {
        Some(bytes) => Key::new(bytes).is_ok() == key && Value::new(bytes).is_ok() == value,
        None => false,
    }
}

/// Whether a key and a value are equal to their copies.
fn are_copied() -> bool {
    match (Key::new(b"k"), Value::new(b"v")) {
        (Ok(key), Ok(value)) => key.copy() == key && value.copy() == value,
        _ => false,
    }
}

/// Whether heads and keys are known by the calls that answer yes or no.
fn questions_are_answered() -> bool {
    let head = Head {
        number: 1,
        body: 32,
        blocks: 2,
    };
    let header = Header {
        version: 2,
        number: 1,
        m: 4,
        f: 65_536,
    };
    let keys = [is_before(b"a", b"aa"), is_before(b"b", b"b")];
    let heads = [head.is_lawful(52), head.is_lawful(51), header.is_lawful()];
    keys == [true, false] && heads == [true, false, true] && are_copied()
}

const BACK: Place = Place { frame: 1, index: 0 };

/// Whether blocks, handed in and out, are one Delta that says that k has the value v.
fn put_k(blocks: Vec<Block>) -> bool {
    let blocks = Blocks::of(Blocks::of(blocks).into_vec());
    match blocks.as_slice() {
        [block] => is_told(block, &Told::Put(1, 0, " k=v")),
        _ => false,
    }
}

/// Whether a Delta of these records, handed in and out, says that k has the value v.
fn puts_k(alloc: Global, ops: Ops) -> bool {
    let delta = Block::Delta {
        page: 1,
        back: BACK,
        ops,
    };
    match Vec::from_array(alloc, [delta]) {
        Ok(blocks) => put_k(blocks),
        Err(_) => false,
    }
}

/// Whether one record goes through.
fn one_goes_through(alloc: Global) -> bool {
    let Some(put) = put(b"k", b"v") else {
        return false;
    };
    match Ops::one(alloc, &put) {
        Ok(ops) => {
            put.copy() == put && put.key().as_slice() == b"k".as_slice() && puts_k(alloc, ops)
        }
        Err(_) => false,
    }
}

/// Whether a list of records goes through.
fn list_goes_through(alloc: Global) -> bool {
    match all_packed(alloc, &[("k", Some("v"))]) {
        Some(all) => puts_k(alloc, Ops::of(all)),
        None => false,
    }
}

impl Row for Call {
    fn goes(&self, alloc: Global) -> Option<bool> {
        let is_so = match self {
            Length(count, key, value) => may_have(LETTERS.get(..*count), *key, *value),
            Questions => questions_are_answered(),
            OneRecord => one_goes_through(alloc),
            Records => list_goes_through(alloc),
            OfLength(fault, text) => is_text(alloc, fault, text),
            OfCodec(fault, text) => is_text(alloc, fault, text),
            OfBuffer(fault, text) => is_text(alloc, fault, text),
        };
        Some(is_so)
    }
}

const CALLS: &[Call] = &[
    // A key has 1 to 128 bytes, and a value 0 to 512.
    Length(0, false, true),
    Length(1, true, true),
    Length(128, true, true),
    Length(129, false, true),
    Length(512, false, true),
    Length(513, false, false),
    Questions,
    OneRecord,
    Records,
    OfLength(
        LengthError { given: 129 },
        "a length of 129 bytes is out of range",
    ),
    OfCodec(CodecFault::NoMemory, "out of memory"),
    OfCodec(CodecFault::BadBytes, "unlawful bytes"),
    OfBuffer(PutError::Sealed, "the buffer is sealed"),
    OfBuffer(PutError::NoRoom, "the blocks do not fit the frame"),
];

#[test]
fn calls_answer_as_told(rt: HostRuntime) -> Result<(), WrongRow> {
    rows_go(rt.alloc(), CALLS)
}

// ---- pairs

/// One call on pairs, with what it has to answer.
enum Step {
    /// A key and its value are inserted at this place.
    Insert(usize, &'static [u8], &'static [u8]),
    /// The value at the key in this place, which is the first of these, becomes the second, and the
    /// first again, and the second.
    Set(usize, &'static [u8], &'static [u8], &'static [u8]),
    Remove(usize),
    /// What stands from this place on is split off.
    SplitOff(usize, &'static str),
    Truncate(usize),
    /// They are handed out as a vector, and in again.
    HandOver,
    /// A copy goes on in their place.
    Copy,
    CopyOf,
    /// In a leaf of page 7 from `a` on, which is copied, they are shown so.
    InLeaf(&'static [u8]),
    Are(&'static str),
    /// How many a search for each of these keys may step over.
    Skips(&'static [(&'static [u8], usize)]),
}

use Step::{Are, Copy, CopyOf, HandOver, InLeaf, Insert, Remove, Set, Skips, SplitOff, Truncate};

fn pair_of(alloc: Global, key: &[u8], value: &[u8]) -> Option<Pair> {
    match (Key::new(key), Value::new(value)) {
        (Ok(key), Ok(value)) => Pair::of(alloc, &key, &value).ok(),
        _ => None,
    }
}

fn is_inserted(alloc: Global, pairs: &mut Pairs, at: usize, key: &[u8], value: &[u8]) -> bool {
    if pairs.as_slice().len() < at {
        return false;
    }
    match pair_of(alloc, key, value) {
        Some(pair) => pairs.insert(at, pair).is_ok(),
        None => false,
    }
}

/// Whether a pair has this key and this value, also in fixed room and as a copy.
fn is_pair(pair: &Pair, key: &[u8], value: &[u8]) -> bool {
    if pair.to_key().as_slice() != key || pair.to_value().as_slice() != value {
        return false;
    }
    match pair.copy() {
        Ok(copy) => copy.key() == key && copy.value() == value,
        Err(_) => false,
    }
}

/// Whether a pair is set in another one's place, goes back there, and is set again.
fn is_set(
    pairs: &mut Pairs,
    at: usize,
    newer: Option<Pair>,
    key: &[u8],
    values: [&[u8]; 2],
) -> bool {
    let Some(newer) = newer else {
        return false;
    };
    if pairs.as_slice().len() <= at {
        return false;
    }
    let was = pairs.set(at, newer);
    let first = is_pair(&was, key, values[0]);
    let newer = pairs.set(at, was);
    let second = is_pair(&newer, key, values[1]);
    let _ = pairs.set(at, newer);
    first && second
}

fn is_removed(pairs: &mut Pairs, at: usize) -> bool {
    if pairs.as_slice().len() <= at {
        return false;
    }
    pairs.remove(at);
    true
}

fn is_split_off(pairs: &mut Pairs, at: usize, text: &str) -> bool {
    if pairs.as_slice().len() < at {
        return false;
    }
    match pairs.split_off(at) {
        Ok(rest) => are_shown(rest.as_slice(), text),
        Err(_) => false,
    }
}

fn hand_over(alloc: Global, pairs: &mut Pairs) {
    let all = mem::replace(pairs, Pairs::of(Vec::new(alloc)));
    *pairs = Pairs::of(all.into_vec());
}

/// Whether a copy, by either call, stands in their place.
fn is_copied(alloc: Global, pairs: &mut Pairs, of: bool) -> bool {
    let copy = if of {
        Pairs::copy_of(alloc, pairs.as_slice())
    } else {
        pairs.copy()
    };
    match copy {
        Ok(copy) => {
            *pairs = copy;
            true
        }
        Err(_) => false,
    }
}

/// Whether a copy of a leaf is shown so, and its low key copied.
fn is_leaf_copied(leaf: &Leaf, text: &[u8]) -> bool {
    match (leaf.low.copy(), leaf.copy()) {
        (Ok(low), Ok(copy)) => {
            low.into_vec().as_slice() == b"a".as_slice() && copy.page == 7 && shows(&copy, text)
        }
        _ => false,
    }
}

/// Whether a copy of a leaf of these pairs is shown so, and its low key copied.
fn is_in_leaf(alloc: Global, pairs: &Pairs, text: &[u8]) -> bool {
    match (Vec::from_slice(alloc, b"a"), pairs.copy()) {
        (Ok(low), Ok(pairs)) => {
            let leaf = Leaf {
                page: 7,
                low: Low::of(low),
                pairs,
            };
            is_leaf_copied(&leaf, text)
        }
        _ => false,
    }
}

/// Whether so many are stepped over at each key.
fn are_skipped(pairs: &Pairs, steps: &[(&[u8], usize)]) -> bool {
    for (key, count) in steps {
        if pairs.skipped(*key) != *count {
            return false;
        }
    }
    true
}

/// Whether the step went as expected.
fn goes(alloc: Global, pairs: &mut Pairs, step: &Step) -> bool {
    match step {
        Insert(at, key, value) => is_inserted(alloc, pairs, *at, *key, *value),
        Set(at, key, old, new) => {
            is_set(pairs, *at, pair_of(alloc, *key, *new), *key, [*old, *new])
        }
        Remove(at) => is_removed(pairs, *at),
        SplitOff(at, text) => is_split_off(pairs, *at, text),
        Truncate(count) => {
            pairs.truncate(*count);
            true
        }
        HandOver => {
            hand_over(alloc, pairs);
            true
        }
        Copy => is_copied(alloc, pairs, false),
        CopyOf => is_copied(alloc, pairs, true),
        InLeaf(text) => is_in_leaf(alloc, pairs, *text),
        Are(text) => are_shown(pairs.as_slice(), text),
        Skips(steps) => are_skipped(pairs, *steps),
    }
}

/// Steps over no pairs.
struct Steps(&'static [Step]);

impl Table for Steps {
    fn wrong_step(&self, alloc: Global) -> Option<usize> {
        let mut pairs = Pairs::of(Vec::new(alloc));
        for (i, step) in self.0.iter().enumerate() {
            if !goes(alloc, &mut pairs, step) {
                return Some(i);
            }
        }
        None
    }
}

const CHANGED: &[Step] = &[
    Insert(0, b"c", b"3"),
    Insert(0, b"a", b"0"),
    Insert(1, b"b", b"2"),
    Insert(3, b"d", b"4"),
    Are(" a=0 b=2 c=3 d=4"),
    Set(0, b"a", b"0", b"1"),
    Remove(1),
    SplitOff(2, " d=4"),
    Truncate(2),
    Are(" a=1 c=3"),
    Skips(&[(b"c", 1), (b"d", 2)]),
    Copy,
    HandOver,
    InLeaf(b"a: a=1 c=3"),
    CopyOf,
    Are(" a=1 c=3"),
];

/// Where a search may step over keys by their first eight bytes, zeros if a key has fewer.
const NEAR: &[(&[u8], usize)] = &[
    (b"Z", 0),
    (b"a", 0),
    (b"a\0", 0),
    (b"a\0\0\0\0\0\0\0\x01", 0),
    (b"ab", 1),
    (b"abcdefgh2", 2),
    (b"abcdefgi", 4),
    (b"c", 5),
];

/// Keys that share their first bytes: those of the third and fourth are the first eight.
const SHARED: &[Step] = &[
    Insert(0, b"a", b""),
    Insert(1, b"ab", b""),
    Insert(2, b"abcdefgh1", b""),
    Insert(3, b"abcdefgh2", b""),
    Insert(4, b"b", b""),
    HandOver,
    Skips(NEAR),
    Copy,
    Skips(NEAR),
];

/// Keys that all begin with the same fourteen bytes, until one comes in that does not.
const FAR: &[Step] = &[
    Insert(0, b"user/00000001/a", b""),
    Insert(1, b"user/00000001/ab", b""),
    Insert(2, b"user/00000001/b", b""),
    HandOver,
    // By the bytes after those.
    Skips(&[
        (b"t", 0),
        (b"user", 0),
        (b"user/00000001/", 0),
        (b"user/00000001/a", 0),
        (b"user/00000001/ab", 1),
        (b"user/00000001/b", 2),
        (b"user/00000001/c", 3),
        (b"user/00000002", 3),
        (b"v", 3),
    ]),
    Insert(3, b"zebra", b""),
    Skips(&[
        (b"t", 0),
        (b"user/00000001/c", 0),
        (b"user1", 3),
        (b"v", 3),
        (b"zebra", 3),
        (b"zebu", 4),
    ]),
];

const TABLES: &[Steps] = &[Steps(CHANGED), Steps(SHARED), Steps(FAR)];

#[test]
fn pairs_go_as_told(rt: HostRuntime) -> Result<(), WrongStep> {
    tables_go(rt.alloc(), TABLES)
}
