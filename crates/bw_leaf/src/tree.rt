//! Pairs in a tree: as many as there may be, a record costs a search.

ghost use Rattle.std.specs.Prelude.{◌≡◌, ◌<◌, ◌++◌, ◌∷◌, [], false, length, IfOk, OnOk, IsTrue};
ghost use Rattle.std.specs.List.{filter};
ghost use Rattle.bw_record.specs.Keys.{ascends, is_below};
ghost use Rattle.bw_leaf.specs.Changed.{Bytes, Pairs, changed_pairs};

use bw_codec::{Key, Packed, Pair, Value, is_before};
use std::alloc::AllocError;
use std::collections::BTreeMap;

/// These pairs in a tree. They are taken from the last one down, so each key is the least so far.
pub(crate) fn tree_of(pairs: Vec<Pair>) -> Result<BTreeMap<Key, Value>, AllocError>
    requires { IsTrue (ascends pairs.items) }
    ensures { IfOk result (λ tree. tree.entries ≡ pairs.items) }
{
    let mut pairs = pairs;
    let mut tree = BTreeMap::new(*pairs.allocator());
    'down: while let Some(pair) = pairs.pop() {
        let _ = tree.insert(pair.to_key(), pair.to_value())?;
    }
    Ok(tree)
}

/// The pairs of a tree in a row, in the place of what the row held.
pub(crate) fn row_of(row: Vec<Pair>, tree: BTreeMap<Key, Value>) -> Result<Vec<Pair>, AllocError>
    ensures { IfOk result (λ pairs. pairs.items ≡ tree.entries) }
{
    let alloc = *row.allocator();
    let mut row = row;
    let mut tree = tree;
    row.clear();
    'next: while let Some((key, value)) = tree.pop_first() {
        row.push(Pair::of(alloc, &key, &value)?)?;
    }
    Ok(row)
}

/// Changes the pairs by a record. A refusal changes nothing.
pub(crate) fn change_tree(
    tree: &mut BTreeMap<Key, Value>,
    change: &Packed,
) -> Result<(), AllocError>
    ensures { OnOk result (tree.new.entries ≡ changed_pairs change.now tree.old.entries) }
{
    // Shows the proof that the keys ascend; so below.
    let _ = tree.len();
    match change.pair() {
        Ok(pair) => {
            let _ = tree.insert(pair.to_key(), pair.to_value())?;
        }
        Err(pair) => {
            let _ = tree.remove(&pair.to_key());
        }
    }
    Ok(())
}

// Whether there is a last pair, and its key is not below a separator.
fn ends_behind(tree: &BTreeMap<Key, Value>, separator: &[u8]) -> bool
    ensures some { IsTrue result → 0 < length tree.now.entries }
    ensures behind { (front : Pairs) (key value : Bytes) → IsTrue result
        → tree.now.entries ≡ front ++ (key, value) ∷ [] → is_below key separator.now ≡ false }
    ensures before { result ≡ false
        → filter (λ p. is_below p.0 separator.now) tree.now.entries ≡ tree.now.entries }
{
    match tree.last_key_value() {
        Some((key, _)) => !is_before(key.as_slice(), separator),
        None => false,
    }
}

/// Takes off the pairs from a separator on, from the last one down. No memory is taken.
pub(crate) fn split_tree(tree: &mut BTreeMap<Key, Value>, separator: &[u8])
    ensures { tree.new.entries ≡ filter (λ p. is_below p.0 separator.now) tree.old.entries }
{
    'down: while ends_behind(tree, separator) {
        let _ = tree.pop_last();
    }
}
