//! One leaf and one record.

ghost use Rattle.std.specs.Prelude.{◌≡◌, ◌+◌, ◌≤◌, ◌++◌, length, vec_len, is_none, IfOk, OnOk, OnErr, IsTrue};
ghost use Rattle.std.specs.Vec.{vec_capacity};
ghost use Rattle.std.specs.FinMap.Entries.{find};
ghost use Rattle.bw_record.specs.Keys.{ascends};
ghost use Rattle.bw_leaf.specs.Above.{pair_above, pairs_above, with_some};
ghost use Rattle.bw_leaf.specs.Changed.{Pairs as PairList, order, empty_leaf, changed, changed_pairs};
ghost use Rattle.bw_record.specs.Record.{key_of};
ghost use Rattle.bw_leaf.specs.Seek.{seek_of, end_of, IsWithin, AddsNone, back_of};

use bw_codec::{Key, Leaf, Low, Packed, Pair, Pairs, Record, Value, compare};
use std::alloc::{AllocError, Global};
use std::cmp::Ordering;

/// The index of a key, or where it would stand. Eight bytes of keys, after those that all of them
/// share, are compared as numbers, and whole keys as bytes from the first pair on that these do not
/// set apart. A search for a key that is not there mostly looks at no pair, whose bytes stand
/// elsewhere in memory.
pub fn find_key(pairs: &Pairs, key: &[u8]) -> Result<usize, usize>
    ensures found { result ≡ seek_of key.now pairs.now }
    ensures within { IsWithin (length pairs.now) result }
{
    let skip = pairs.skip_for(key);
    if skip.is_above {
        return Err(skip.count);
    }
    match find_whole(&pairs.as_slice()[skip.count..], key) {
        Ok(at) => Ok(skip.count + at),
        Err(at) => Err(skip.count + at),
    }
}

// The index of a key among pairs whose whole keys are compared, or where it would stand.
fn find_whole(pairs: &[Pair], key: &[u8]) -> Result<usize, usize>
    ensures found { result ≡ seek_of key.now pairs.now }
    ensures within { IsWithin (length pairs.now) result }
{
    for (i, pair) in pairs.iter().enumerate() {
        match compare(key, pair.key()) {
            Ordering::Less => return Err(i),
            Ordering::Equal => return Ok(i),
            Ordering::Greater => {}
        }
    }
    Err(pairs.len())
}

/// How many pairs a leaf has after a record, found without changing it.
pub fn count_after(leaf: &Leaf, change: &Record) -> usize
    ensures { result ≡ length (changed change.now leaf.now).pairs }
{
    let pairs = leaf.pairs.as_slice();
    count_found(
        pairs,
        find_key(&leaf.pairs, change.key().as_slice()),
        change,
    )
}

/// How many pairs there are after a record, if the search for its key ended so.
pub fn count_found(pairs: &[Pair], found: Result<usize, usize>, change: &Record) -> usize
    requires found { found ≡ seek_of (key_of change.now) pairs.now }
    requires within { IsWithin (length pairs.now) found }
    ensures { result ≡ length (changed_pairs change.now pairs.now) }
{
    match change {
        Record::Put(_, _) => match found {
            Ok(_) => pairs.len(),
            Err(_) => pairs.len() + 1,
        },
        Record::Del(_) => match found {
            Ok(_) => pairs.len() - 1,
            Err(_) => pairs.len(),
        },
    }
}

/// How many pairs there are after a packed record, if the search for its key ended so.
pub fn count_packed(pairs: &[Pair], found: Result<usize, usize>, change: &Packed) -> usize
    requires found { found ≡ seek_of (key_of change.now) pairs.now }
    requires within { IsWithin (length pairs.now) found }
    ensures { result ≡ length (changed_pairs change.now pairs.now) }
{
    match change.pair() {
        Ok(_) => match found {
            Ok(_) => pairs.len(),
            Err(_) => pairs.len() + 1,
        },
        Err(_) => match found {
            Ok(_) => pairs.len() - 1,
            Err(_) => pairs.len(),
        },
    }
}

/// Changes a leaf by a record: a put sets the key's value, a delete removes the key if it is there.
/// There is no limit on how many pairs the leaf then has. A refusal changes nothing.
///
/// It costs a walk over the leaf's pairs.
pub fn change(leaf: &mut Leaf, change: &Record) -> Result<(), AllocError>
    ensures ok { OnOk result (leaf.new ≡ changed change.now leaf.old) }
    ensures unchanged { OnErr result (leaf.new ≡ leaf.old) }
{
    let packed = Packed::of(leaf.pairs.allocator(), change)?;
    change_packed(leaf, &packed)
}

/// Changes a leaf by a packed record, whose bytes the leaf then shares. As `change` otherwise.
pub fn change_packed(leaf: &mut Leaf, change: &Packed) -> Result<(), AllocError>
    ensures ok { OnOk result (leaf.new ≡ changed change.now leaf.old) }
    ensures unchanged { OnErr result (leaf.new ≡ leaf.old) }
{
    let found = find_key(&leaf.pairs, change.key());
    let _ = change_found(leaf, found, change)?;
    Ok(())
}

/// Changes a leaf by a packed record, if the search for its key ended so. It gives the record that
/// takes this one back; there is none for a record that removes a pair, since to put that one back
/// may take memory.
pub fn change_found(
    leaf: &mut Leaf,
    found: Result<usize, usize>,
    change: &Packed,
) -> Result<Option<Packed>, AllocError>
    requires found { found ≡ seek_of (key_of change.now) leaf.old.pairs }
    requires within { IsWithin (length leaf.old.pairs) found }
    ensures ok { OnOk result (leaf.new ≡ changed change.now leaf.old) }
    ensures back { IsTrue (ascends leaf.old.pairs) → IfOk result (λ back.
        back ≡ back_of change.now (find order (key_of change.now) leaf.old.pairs)) }
    ensures unchanged { OnErr result (leaf.new ≡ leaf.old) }
{
    match change.pair() {
        Ok(pair) => {
            let own = pair.copy()?;
            match found {
                Ok(at) => {
                    let was = leaf.pairs.set(at, own);
                    Ok(Some(Packed::put(was)))
                }
                Err(at) => {
                    let back = pair.copy()?;
                    leaf.pairs.insert(at, own)?;
                    Ok(Some(Packed::del(back)))
                }
            }
        }
        Err(pair) => match found {
            Ok(at) => {
                leaf.pairs.remove(at);
                Ok(None)
            }
            Err(_) => Ok(Some(Packed::del(pair.copy()?))),
        },
    }
}

/// Changes a leaf by a record that adds no pair and has its memory, if the search for its key ended
/// so. No memory is taken.
pub fn take_back(leaf: &mut Leaf, found: Result<usize, usize>, back: Packed)
    requires found { found ≡ seek_of (key_of back) leaf.old.pairs }
    requires within { IsWithin (length leaf.old.pairs) found }
    requires none { AddsNone back found }
    ensures { leaf.new ≡ changed back leaf.old }
{
    match (found, back.into_pair()) {
        (Ok(at), Ok(pair)) => {
            let _ = leaf.pairs.set(at, pair);
        }
        (Err(_), Ok(_)) => unreachable!(),
        (Ok(at), Err(_)) => leaf.pairs.remove(at),
        (Err(_), Err(_)) => {}
    }
}

/// Whether a record removes a pair, if the search for its key ended so.
pub fn removes(found: Result<usize, usize>, change: &Packed) -> bool
    ensures { (pairs : PairList) → IsTrue (ascends pairs) → found ≡ seek_of (key_of change.now) pairs
        → result ≡ is_none (back_of change.now (find order (key_of change.now) pairs)) }
{
    match change.pair() {
        Ok(_) => false,
        Err(_) => found.is_ok(),
    }
}

/// The value of a key on a page, if it has one there. No memory is taken.
pub fn value_in(leaf: &Leaf, key: &Key) -> Option<Value>
    requires { IsTrue (ascends leaf.now.pairs) }
    ensures { result ≡ find order key.now leaf.now.pairs }
{
    let pairs = leaf.pairs.as_slice();
    match find_key(&leaf.pairs, key.as_slice()) {
        Ok(at) => Some(pairs[at].to_value()),
        Err(_) => None,
    }
}

// Where a search ended, be the key there or not.
fn end_of(found: Result<usize, usize>) -> usize
    ensures { result ≡ end_of found }
{
    match found {
        Ok(at) => at,
        Err(at) => at,
    }
}

/// Adds the pairs of a page at or above a key, in order, until there are so many. A refused growth
/// is the only error, and adds none.
pub fn add_pairs(
    leaf: &Leaf,
    key: &Key,
    most: usize,
    found: &mut Vec<(Key, Value)>,
) -> Result<(), AllocError>
    ensures ok { OnOk result (found.new.items
        ≡ with_some most found.old.items (pairs_above key.now leaf.now.pairs)) }
    ensures unchanged { OnErr result (found.new.items ≡ found.old.items) }
{
    let pairs = leaf.pairs.as_slice();
    let from = end_of(find_key(&leaf.pairs, key.as_slice()));
    let count = (pairs.len() - from).min(most.saturating_sub(found.len()));
    found.reserve(count)?;
    push_pairs(found, &pairs[from..from + count]);
    Ok(())
}

/// Adds copies of pairs, for which there is room.
pub(crate) fn push_pairs(found: &mut Vec<(Key, Value)>, pairs: &[Pair])
    requires { vec_len found.old + length pairs.now ≤ vec_capacity found.old }
    ensures { found.new.items ≡ found.old.items ++ pairs.now }
{
    for pair in pairs {
        found.push_reserved((pair.to_key(), pair.to_value()));
    }
}

/// The first pair of a page at or above a key, if there is one. No memory is taken.
pub fn pair_from(leaf: &Leaf, key: &Key) -> Option<(Key, Value)>
    ensures { result ≡ pair_above key.now leaf.now.pairs }
{
    let pairs = leaf.pairs.as_slice();
    let at = end_of(find_key(&leaf.pairs, key.as_slice()));
    if at < pairs.len() {
        return Some((pairs[at].to_key(), pairs[at].to_value()));
    }
    None
}

/// Page 1 without any pair. No memory is taken.
pub fn empty_page(alloc: Global) -> Leaf
    ensures { result ≡ empty_leaf }
{
    Leaf {
        page: 1,
        low: Low::of(Vec::new(alloc)),
        pairs: Pairs::of(Vec::new(alloc)),
    }
}
