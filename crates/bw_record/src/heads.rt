//! The heads of keys: eight of their bytes as numbers, so that a search among pairs reads few bytes
//! of most of them.
//!
//! Keys of one page often share their first bytes, and these set nothing apart. So a row of heads
//! begins after them: were all its heads the same, each step of a search would read a whole key,
//! which stands elsewhere in memory.

ghost use Rattle.std.specs.Prelude.{◌≡◌, ◌≢◌, ℕ, List, ◌≤◌, ◌<◌, ◌++◌, MatchOption, IsTrue, get_or, length, take, drop, insert, remove, slice_set};
ghost use Rattle.std.specs.List.{AllByRecursion};
ghost use Rattle.bw_record.specs.Keys.{IsBytes, order};
ghost use Rattle.bw_record.specs.Heads.{PairList, head, AreBelow, BeginAbove, BeginsWith, IsRow};

use crate::key::is_before;
use crate::pair::Pair;
use arrayvec::ArrayVec;
use std::alloc::Global;
use std::cmp::Ordering;

/// The head of a key.
pub fn head_of(key: &[u8]) -> u64
    ensures value { result ≡ head key.now }
    ensures bytes { IsBytes key.now }
{
    match key {
        [a, b, c, d, e, f, g, h, ..] => u64::from_be_bytes([*a, *b, *c, *d, *e, *f, *g, *h]),
        [a, b, c, d, e, f, g] => u64::from_be_bytes([*a, *b, *c, *d, *e, *f, *g, 0]),
        [a, b, c, d, e, f] => u64::from_be_bytes([*a, *b, *c, *d, *e, *f, 0, 0]),
        [a, b, c, d, e] => u64::from_be_bytes([*a, *b, *c, *d, *e, 0, 0, 0]),
        [a, b, c, d] => u64::from_be_bytes([*a, *b, *c, *d, 0, 0, 0, 0]),
        [a, b, c] => u64::from_be_bytes([*a, *b, *c, 0, 0, 0, 0, 0]),
        [a, b] => u64::from_be_bytes([*a, *b, 0, 0, 0, 0, 0, 0]),
        [a] => u64::from_be_bytes([*a, 0, 0, 0, 0, 0, 0, 0]),
        [] => 0,
    }
}

/// How one key stands to another. It looks at eight bytes of each at a time.
pub fn compare(a: &[u8], b: &[u8]) -> Ordering
    ensures { result ≡ order a.now b.now }
{
    let mut ours = a;
    let mut theirs = b;
    'heads: while ours.len() >= 8 && theirs.len() >= 8 {
        let head = head_of(ours);
        let other = head_of(theirs);
        if head != other {
            return head.cmp(&other);
        }
        ours = behind_head(ours);
        theirs = behind_head(theirs);
    }
    compare_short(ours, theirs)
}

// How two keys stand to one another, of which one has fewer than eight bytes. If their heads are
// the same, one is the other and zeros, if any.
fn compare_short(a: &[u8], b: &[u8]) -> Ordering
    requires { 8 ≤ length a.now → length b.now < 8 }
    ensures { result ≡ order a.now b.now }
{
    let head = head_of(a);
    let other = head_of(b);
    if head != other {
        return head.cmp(&other);
    }
    a.len().cmp(&b.len())
}

// What stands in a key after its first eight bytes.
fn behind_head(key: &[u8]) -> &[u8]
    requires { 8 ≤ length key.now }
    ensures { result.now ≡ drop 8 key.now }
{
    &key[8..]
}

/// What a search for a key steps over, as far as heads show.
#[derive(Drop)]
pub struct Skip {
    /// So many pairs from the first on have a key below the sought one. There may be more.
    pub count: usize,
    /// Whether there is a pair after these, and its key is above: then the sought one is not there.
    pub is_above: bool,
}

/// How many shared bytes a row steps over at most.
const MOST: usize = 32;

/// The heads of the keys of pairs in their order, each taken after the bytes with which all these
/// keys begin. There are none if memory for them is refused, or if a key does not share the bytes:
/// then a search is slower, and nothing else changes.
#[derive(Drop)]
pub(crate) struct Row {
    shared: ArrayVec<u8, MOST>,
    heads: Vec<u64>,
}

impl Row {
    /// The row of pairs, with room for one more. What the first and the last key share, all between
    /// them do if keys ascend.
    pub(crate) fn of(alloc: Global, pairs: &[Pair]) -> Row
        ensures { IsRow result.shared.items result.heads.items pairs.now }
    {
        let shared = match (pairs.first(), pairs.last()) {
            (Some(first), Some(last)) => beginning(first.key(), last.key()),
            _ => ArrayVec::new(),
        };
        let mut heads = Vec::new(alloc);
        fill(&mut heads, shared.as_slice(), pairs);
        Row { shared, heads }
    }

    /// The heads.
    pub(crate) fn heads(&self) -> &[u64]
        ensures { result.now ≡ self.now.heads.items }
    {
        self.heads.as_slice()
    }

    /// The row of these pairs takes the head of a key that goes to an index.
    pub(crate) fn insert(&mut self, pairs: &[Pair], at: usize, key: &[u8])
        requires { at ≤ length pairs.now }
        ensures { (v : List ℕ) → IsRow self.old.shared.items self.old.heads.items pairs.now
            → IsRow self.new.shared.items self.new.heads.items (insert pairs.now at (key.now, v)) }
    {
        self.shorten(pairs, key);
        insert_head(
            &mut self.heads,
            self.shared.as_slice(),
            pairs.len(),
            at,
            key,
        );
    }

    // Steps over no byte any more that this key does not share. It is linear in the pairs if that
    // changes something, at most once for each byte.
    fn shorten(&mut self, pairs: &[Pair], key: &[u8])
        ensures { IsRow self.old.shared.items self.old.heads.items pairs.now
            → IsRow self.new.shared.items self.new.heads.items pairs.now }
    {
        if pairs.is_empty() {
            self.share(beginning(key, key), pairs);
        } else if !key.starts_with(self.shared.as_slice()) {
            let shared = beginning(self.shared.as_slice(), key);
            self.share(shared, pairs);
        }
    }

    // The row of these pairs, taken after these bytes.
    fn share(&mut self, shared: ArrayVec<u8, MOST>, pairs: &[Pair])
        ensures { IsRow self.new.shared.items self.new.heads.items pairs.now }
    {
        self.shared = shared;
        fill(&mut self.heads, self.shared.as_slice(), pairs);
    }

    /// The key at an index is another one.
    pub(crate) fn set(&mut self, at: usize, key: &[u8])
        ensures { (pairs : PairList) (v : List ℕ) → at < length pairs
            → IsRow self.old.shared.items self.old.heads.items pairs
            → IsRow self.new.shared.items self.new.heads.items (slice_set pairs at (key.now, v)) }
    {
        set_head(&mut self.heads, self.shared.as_slice(), at, key);
    }

    /// The key at an index is gone.
    pub(crate) fn remove(&mut self, at: usize)
        ensures { (pairs : PairList) → at < length pairs
            → IsRow self.old.shared.items self.old.heads.items pairs
            → IsRow self.new.shared.items self.new.heads.items (remove pairs at) }
    {
        remove_head(&mut self.heads, at);
    }

    /// The keys from an index on are gone.
    pub(crate) fn truncate(&mut self, count: usize)
        ensures { (pairs : PairList) → IsRow self.old.shared.items self.old.heads.items pairs
            → IsRow self.new.shared.items self.new.heads.items (take count pairs) }
    {
        self.heads.truncate(count);
    }

    /// What a search for this key steps over. A key that does not share what these keys do is above
    /// all of them or below all.
    pub(crate) fn skip_for(&self, key: &[u8]) -> Skip
        ensures below { (pairs : PairList) → IsRow self.now.shared.items self.now.heads.items pairs
            → (result.count ≤ length pairs) × AreBelow key.now (take result.count pairs) }
        ensures above { (pairs : PairList) → IsRow self.now.shared.items self.now.heads.items pairs
            → IsTrue result.is_above → BeginAbove key.now (drop result.count pairs) }
    {
        let shared = self.shared.as_slice();
        let heads = self.heads.as_slice();
        match behind(key, shared) {
            Some(rest) => skip_among(heads, head_of(rest)),
            None if is_before(shared, key) => Skip {
                count: heads.len(),
                is_above: false,
            },
            None => Skip {
                count: 0,
                is_above: !heads.is_empty(),
            },
        }
    }
}

/// What stands in a key after these bytes, or none if it does not begin with them.
pub fn behind<'a>(key: &'a [u8], shared: &[u8]) -> Option<&'a [u8]>
    ensures { MatchOption result ((rest : List ℕ) → key.now ≢ shared.now ++ rest)
        (λ rest. key.now ≡ shared.now ++ rest.now) }
{
    key.strip_prefix(shared)
}

/// The bytes with which both keys begin, as far as there is room.
pub fn beginning(a: &[u8], b: &[u8]) -> ArrayVec<u8, MOST>
    ensures { BeginsWith result.items b.now }
{
    let mut shared = ArrayVec::new();
    let _ = shared.try_extend_from_slice(&b[..count_same(a, b)]);
    shared
}

// How many bytes two keys begin with that are the same: no more than there is room for.
fn count_same(a: &[u8], b: &[u8]) -> usize
    ensures { result ≤ length b.now }
{
    for (i, byte) in b.iter().enumerate() {
        if i == MOST || a.get(i) != Some(byte) {
            return i;
        }
    }
    b.len()
}

// The row of pairs, taken after bytes that they share, with room for one more; none if one does not
// share them, or if memory is refused.
fn fill(row: &mut Vec<u64>, shared: &[u8], pairs: &[Pair])
    ensures { IsRow shared.now row.new.items pairs.now }
{
    row.clear();
    if row.reserve_exact(pairs.len() + 1).is_err() {
        return;
    }
    for pair in pairs {
        let Some(rest) = behind(pair.key(), shared) else {
            row.clear();
            return;
        };
        if row.push(head_of(rest)).is_err() {
            row.clear();
            return;
        }
    }
}

// The row of so many pairs takes the head of a key that goes to an index. There is none any more if
// there was none, if the key does not share the bytes, or if memory is refused.
fn insert_head(row: &mut Vec<u64>, shared: &[u8], count: usize, at: usize, key: &[u8])
    requires { at ≤ count }
    ensures { (pairs : PairList) (v : List ℕ) → length pairs ≡ count
        → IsRow shared.now row.old.items pairs
        → IsRow shared.now row.new.items (insert pairs at (key.now, v)) }
{
    if row.as_slice().len() != count {
        row.clear();
        return;
    }
    let Some(rest) = behind(key, shared) else {
        row.clear();
        return;
    };
    match row.insert(at, head_of(rest)) {
        Ok(()) => {}
        Err(_) => row.clear(),
    }
}

// The key at an index is another one. There is no row any more if it does not share the bytes.
fn set_head(row: &mut Vec<u64>, shared: &[u8], at: usize, key: &[u8])
    ensures { (pairs : PairList) (v : List ℕ) → at < length pairs
        → IsRow shared.now row.old.items pairs
        → IsRow shared.now row.new.items (slice_set pairs at (key.now, v)) }
{
    let Some(rest) = behind(key, shared) else {
        row.clear();
        return;
    };
    if at < row.as_slice().len() {
        row[at] = head_of(rest);
    }
}

// The key at an index is gone.
fn remove_head(row: &mut Vec<u64>, at: usize)
    ensures { (shared : List ℕ) (pairs : PairList) → at < length pairs
        → IsRow shared row.old.items pairs → IsRow shared row.new.items (remove pairs at) }
{
    if at < row.as_slice().len() {
        let _ = row.remove(at);
    }
}

// What a search for this head steps over among others.
fn skip_among(row: &[u64], head: u64) -> Skip
    ensures within { result.count ≤ length row.now }
    ensures below { AllByRecursion (λ h. h < head) (take result.count row.now) }
    ensures above { IsTrue result.is_above
        → (result.count < length row.now) × (head < get_or row.now result.count 0) }
{
    for (i, other) in row.iter().enumerate() {
        if *other >= head {
            return Skip {
                count: i,
                is_above: *other > head,
            };
        }
    }
    Skip {
        count: row.len(),
        is_above: false,
    }
}
