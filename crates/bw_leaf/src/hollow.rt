//! Pairs of which only the keys and the lengths of the values are known, in the order of their
//! keys.
//!
//! Whether a page is lawful, and how long its Base is, hangs on these; its values need not be read
//! for it. A pair takes eight bytes and its key.

ghost use Rattle.std.specs.Prelude.{◌≡◌, ◌+◌, ◌*◌, ◌^◌, ◌<◌, ◌≤◌, ◌++◌, ◌∷◌, [], take, drop, length, map, insert, remove, slice_set, slice_index_or, IfOk, OnOk, OnErr};
ghost use Rattle.std.specs.List.{filter, flat_map, AllByRecursion};
ghost use Rattle.std.specs.FinMap.Entries.{put};
ghost use Rattle.bw_record.specs.Keys.{is_below};
ghost use Rattle.bw_codec.specs.Grammar.{pair_bytes};
ghost use Rattle.bw_leaf.specs.Changed.{Bytes, order, without};
ghost use Rattle.bw_leaf.specs.Seek.{seek_of, IsWithin};
ghost use Rattle.bw_leaf.specs.Hollow.{blank, key_in, pair_in, IsIn, is_kept};

use bw_codec::{compare, is_before};
use std::alloc::{AllocError, Global};
use std::cmp::Ordering;
use std::marker::Model;

/// Once the bytes of all keys are more than these, those go that no item names.
const SLACK: usize = 8_192;

/// One pair: where its key stands, and how long key and value are.
#[derive(Clone, Copy)]
pub(crate) struct Item {
    at: u32,
    len: u16,
    size: u16,
}

/// Pairs, of which only the keys and the lengths of the values are known.
#[derive(Drop)]
pub struct Hollow {
    /// The bytes of all keys.
    keys: Vec<u8>,
    items: Vec<Item>,
}

impl Model for Hollow {
    ghost use Rattle.bw_leaf.specs.Changed.{Pairs};

    ghost Value = { Pairs };

    ghost use Rattle.bw_leaf.specs.Hollow.{hollow_view, AreIn};

    ghost view = { hollow_view };

    ghost invariant = { AreIn };
}

// The key of an item.
fn key_of(keys: &[u8], item: Item) -> &[u8]
    requires { IsIn keys.now item }
    ensures { result.now ≡ key_in keys.now item }
{
    let at = item.at as usize;
    &keys[at..at + item.len as usize]
}

// Puts a key after those that there are.
fn add_key(keys: &mut Vec<u8>, key: &[u8], size: usize) -> Result<Item, AllocError>
    ensures keys { OnOk result (keys.new.items ≡ keys.old.items ++ key.now) }
    ensures unchanged { OnErr result (keys.new.items ≡ keys.old.items) }
    ensures at { IfOk result (λ item. item.at ≡ length keys.old.items) }
    ensures len { IfOk result (λ item. item.len ≡ length key.now) }
    ensures size { IfOk result (λ item. item.size ≡ size) }
{
    let at = keys.len();
    let len = key.len();
    // Neither is ever so large: no key has more than 124 bytes, and no row more than `SLACK` and
    // one.
    if at > u32::MAX as usize || len > u16::MAX as usize || size > u16::MAX as usize {
        return Err(AllocError);
    }
    keys.extend_from_slice(key)?;
    Ok(Item {
        at: at as u32,
        len: len as u16,
        size: size as u16,
    })
}

// Where the search for a key among items ends.
fn find_in(keys: &[u8], items: &[Item], key: &[u8]) -> Result<usize, usize>
    requires { AllByRecursion (IsIn keys.now) items.now }
    ensures found { result ≡ seek_of key.now (map (pair_in keys.now) items.now) }
    ensures within { IsWithin (length items.now) result }
{
    for (i, item) in items.iter().enumerate() {
        match compare(key, key_of(keys, *item)) {
            Ordering::Less => return Err(i),
            Ordering::Equal => return Ok(i),
            Ordering::Greater => {}
        }
    }
    Err(items.len())
}

// How many bytes the pair of an item is spelled in.
fn item_length(item: Item) -> usize
    ensures value { result ≡ 3 + item.len + item.size }
    ensures small { result ≤ 131_073 }
{
    3 + item.len as usize + item.size as usize
}

// How many bytes the pairs of items are spelled in.
fn items_length(_keys: &[u8], items: &[Item]) -> usize
    requires there { AllByRecursion (IsIn _keys.now) items.now }
    requires few { length items.now < 2 ^ 32 }
    ensures value { result ≡ length (flat_map pair_bytes (map (pair_in _keys.now) items.now)) }
    ensures small { result ≤ 131_073 * length items.now }
{
    let mut total = 0;
    for item in items {
        total += item_length(*item);
    }
    total
}

impl Hollow {
    /// No pairs.
    pub fn new(alloc: Global) -> Hollow
        ensures { result ≡ [] }
    {
        Hollow {
            keys: Vec::new(alloc),
            items: Vec::new(alloc),
        }
    }

    /// How many pairs there are.
    pub fn len(&self) -> usize
        ensures { result ≡ length self.now }
    {
        self.items.len()
    }

    /// The key of a pair.
    pub fn key(&self, at: usize) -> &[u8]
        requires { at < length self.now }
        ensures { (d : Bytes × Bytes) → result.now ≡ (slice_index_or self.now at d).0 }
    {
        key_of(&self.keys, self.items[at])
    }

    /// How many bytes the value of a pair has.
    pub fn size(&self, at: usize) -> usize
        requires { at < length self.now }
        ensures { (d : Bytes × Bytes) → result ≡ length (slice_index_or self.now at d).1 }
    {
        let _ = self.items.len(); // For the proof.
        self.items[at].size as usize
    }

    /// How many bytes the pairs are spelled in.
    pub fn spelled_length(&self) -> usize
        requires { length self.now < 2 ^ 32 }
        ensures value { result ≡ length (flat_map pair_bytes self.now) }
        ensures small { result ≤ 131_073 * length self.now }
    {
        items_length(&self.keys, &self.items)
    }

    /// Where the search for a key ends.
    fn find(&self, key: &[u8]) -> Result<usize, usize>
        ensures found { result ≡ seek_of key.now self.now }
        ensures within { IsWithin (length self.now) result }
    {
        find_in(&self.keys, &self.items, key)
    }

    /// Adds a pair as the last one. A refusal changes nothing.
    pub fn push(&mut self, key: &[u8], size: usize) -> Result<(), AllocError>
        ensures ok { OnOk result (self.new ≡ self.old ++ (key.now, blank size) ∷ []) }
        ensures unchanged { OnErr result (self.new ≡ self.old) }
    {
        let item = add_key(&mut self.keys, key, size)?;
        self.items.push(item)?;
        Ok(())
    }

    /// Puts a pair before the one at an index, or last. A refusal changes nothing.
    fn insert(&mut self, at: usize, key: &[u8], size: usize) -> Result<(), AllocError>
        requires { at ≤ length self.old }
        ensures ok { OnOk result (self.new ≡ insert self.old at (key.now, blank size)) }
        ensures unchanged { OnErr result (self.new ≡ self.old) }
    {
        let _ = self.items.len(); // For the proof.
        let item = add_key(&mut self.keys, key, size)?;
        self.items.insert(at, item)?;
        Ok(())
    }

    /// Sets the length of the value of the pair at an index, which has this key. A value is never
    /// too long; a refusal changes nothing.
    fn set(&mut self, at: usize, size: usize) -> Result<(), AllocError>
        requires { at < length self.old }
        ensures ok { (key : Bytes) → ((d : Bytes × Bytes) → (slice_index_or self.old at d).0 ≡ key)
            → OnOk result (self.new ≡ slice_set self.old at (key, blank size)) }
        ensures unchanged { OnErr result (self.new ≡ self.old) }
    {
        let _ = self.items.len(); // For the proof.
        if size > u16::MAX as usize {
            return Err(AllocError);
        }
        let Item { at: from, len, .. } = self.items[at];
        self.items[at] = Item {
            at: from,
            len,
            size: size as u16,
        };
        Ok(())
    }

    /// Removes the pair at an index.
    fn remove(&mut self, at: usize)
        requires { at < length self.old }
        ensures { self.new ≡ remove self.old at }
    {
        let _ = self.items.len(); // For the proof.
        let _ = self.items.remove(at);
    }

    /// The pairs after a put of a value of so many bytes. A refusal changes nothing.
    pub fn put(&mut self, key: &[u8], size: usize) -> Result<(), AllocError>
        ensures ok { OnOk result (self.new ≡ put order key.now (blank size) self.old) }
        ensures unchanged { OnErr result (self.new ≡ self.old) }
    {
        match self.find(key) {
            Ok(at) => self.set(at, size),
            Err(at) => {
                self.pack()?;
                self.insert(at, key, size)
            }
        }
    }

    /// The pairs after a delete.
    pub fn delete(&mut self, key: &[u8])
        ensures { self.new ≡ without key.now self.old }
    {
        match self.find(key) {
            Ok(at) => self.remove(at),
            Err(_) => {}
        }
    }

    /// The pairs below a key.
    pub fn keep_below(&mut self, separator: &[u8])
        ensures { self.new ≡ filter (λ p. is_below p.0 separator.now) self.old }
    {
        keep_items(&mut self.items, &self.keys, separator);
    }

    /// Lets the bytes of keys go that no item names, if there may be many. It changes nothing.
    fn pack(&mut self) -> Result<(), AllocError>
        ensures { self.new ≡ self.old }
    {
        if self.keys.len() <= SLACK {
            return Ok(());
        }
        let packed = copy_of(&self.keys, &self.items)?;
        *self = packed;
        Ok(())
    }
}

// Drops the items whose keys are not below a separator.
fn keep_items(items: &mut Vec<Item>, keys: &[u8], separator: &[u8])
    requires { AllByRecursion (IsIn keys.now) items.old.items }
    ensures in_keys { AllByRecursion (IsIn keys.now) items.new.items }
    ensures kept { map (pair_in keys.now) items.new.items
        ≡ filter (λ p. is_below p.0 separator.now) (map (pair_in keys.now) items.old.items) }
{
    items.retain(|item| is_kept(keys, *item, separator));
}

// Whether the key of an item is below a separator.
fn is_kept(keys: &[u8], item: Item, separator: &[u8]) -> bool
    ensures { result ≡ is_kept keys.now separator.now item }
{
    let at = item.at as usize;
    let end = at + item.len as usize;
    end <= keys.len() && is_before(&keys[at..end], separator)
}

// The pairs of items, in no more room than their keys take.
fn copy_of(keys: &Vec<u8>, items: &[Item]) -> Result<Hollow, AllocError>
    requires { AllByRecursion (IsIn keys.now.items) items.now }
    ensures { IfOk result (λ h. h ≡ map (pair_in keys.now.items) items.now) }
{
    let mut copy = Hollow::new(*keys.allocator());
    for item in items {
        copy.push(key_of(keys, *item), item.size as usize)?;
    }
    Ok(copy)
}
