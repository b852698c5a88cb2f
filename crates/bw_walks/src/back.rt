//! A look at one page of a walk back, and the page that the walk goes to from there.
//!
//! No index is searched downwards for the page before: a key of at most 128 bytes has a greatest
//! one below it, and that one's page is the page before.

ghost use Rattle.std.specs.Prelude.{◌≡◌, ◌≤◌, [], ◌∷◌, None, length, IfSome, IsTrue};
ghost use Rattle.bw_record.specs.Keys.{ascends};
ghost use Rattle.bw_leaf.specs.Seek.{IsWithin};
ghost use Rattle.bw_walks.specs.Back.{IsLastOn, IsNextBelow, IsPageBefore, TellsOn, count_of};

use bw_codec::limits::MAX_KEY;
use bw_codec::{Key, Leaf, Pair, Value};
use bw_leaf::find_key;
use bw_page::Leaves;

/// Whether a walk back may answer the key that it begins at: it may if nothing was answered yet,
/// and not if it goes on after the pair of that key.
#[derive(Clone, Copy)]
pub enum Reach {
    /// The keys at or below it are in reach.
    With,
    /// Only those below it.
    Without,
}

/// What a walk back finds on a page.
#[derive(Drop)]
pub enum Look {
    /// The pair with the greatest key in reach.
    Found((Key, Value)),
    /// None: the walk goes on with the page before the one with this low.
    Before(Key),
    /// None, and no page stands before this one.
    End,
}

/// The greatest key below this one; `None` if there is none.
fn last_below(key: &Key) -> Option<Key>
    ensures some { IfSome result (λ last. IsNextBelow key.now last) }
    ensures none { result ≡ None → key.now ≡ 0 ∷ [] }
{
    let bytes = key.as_slice();
    let at = bytes.len() - 1;
    if bytes[at] == 0 {
        return Key::new(&bytes[..at]).ok();
    }
    let mut last = [u8::MAX; MAX_KEY];
    last[..at].copy_from_slice(&bytes[..at]);
    last[at] = bytes[at] - 1;
    Key::new(&last).ok()
}

/// The page with the greatest low below this one, evicted or not. There is always one: the first
/// page's low is below each key. It takes no memory, and costs two searches among the lows.
pub fn page_before(leaves: &Leaves, low: &Key) -> u32
    ensures within { (1 ≤ result) × (result ≤ length leaves.now.leaves) }
    ensures before { IsPageBefore leaves.now.leaves low.now result }
{
    let _ = leaves.count(); // For the proof.
    let Some(last) = last_below(low) else {
        return 1;
    };
    match leaves.low_above(&last) {
        // That it is a key shows the proof that no low stands between the two.
        Some(next) => {
            let _ = next.head(); // For the proof.
            let _ = next.as_slice(); // For the proof.
            leaves.find(&last)
        }
        None => leaves.find(&last),
    }
}

/// How many of a page's pairs are in reach, if the search for the key ended so.
fn count_within(pairs: &[Pair], found: Result<usize, usize>, reach: Reach) -> usize
    requires { IsWithin (length pairs.now) found }
    ensures count { result ≡ count_of found reach }
    ensures within { result ≤ length pairs.now }
{
    match found {
        Ok(at) => match reach {
            Reach::With => at + 1,
            Reach::Without => at,
        },
        Err(at) => at,
    }
}

/// The pair of a page with the greatest key in reach, if there is one.
fn last_pair(leaf: &Leaf, key: &Key, reach: Reach) -> Option<(Key, Value)>
    requires { IsTrue (ascends leaf.now.pairs) }
    ensures { IsLastOn reach key.now leaf.now.pairs result }
{
    let pairs = leaf.pairs.as_slice();
    let count = count_within(pairs, find_key(&leaf.pairs, key.as_slice()), reach);
    if count == 0 {
        return None;
    }
    let pair = &pairs[count - 1];
    Some((pair.to_key(), pair.to_value()))
}

/// What a walk back from a key finds on this page, which is that of the key, or one before it. It
/// takes no memory: a pair that is found is a copy. It costs a search among the page's pairs.
///
/// If it finds none and the page is not the first, the walk goes on with `page_before` of the low
/// that is given. It comes to an end: each page's low is below the last one's.
pub fn found_on(leaf: &Leaf, key: &Key, reach: Reach) -> Look
    requires ascends { IsTrue (ascends leaf.now.pairs) }
    requires low { length leaf.now.low ≤ 128 }
    ensures { TellsOn reach key.now leaf.now result }
{
    match last_pair(leaf, key, reach) {
        Some(pair) => Look::Found(pair),
        None => match Key::new(leaf.low.as_slice()) {
            Ok(low) => Look::Before(low),
            Err(_) => Look::End,
        },
    }
}
