//! A leaf: a page's low key and its pairs in the order of their keys.

ghost use Rattle.std.specs.Prelude.{◌≡◌, ℕ, List, ◌<◌, ◌≤◌, ◌-◌, [], length, reverse, vec_len, insert, remove, take, drop, slice_set, slice_index_or, OnOk, OnErr, IfOk, IsTrue};
ghost use Rattle.std.specs.Vec.{vec_capacity};
ghost use Rattle.bw_record.specs.Heads.{AreBelow, BeginAbove, IsRow};

use crate::heads::{Row, Skip};
use crate::pair::Pair;
use std::alloc::{AllocError, Global};
use std::marker::Model;
use std::mem;

/// The low key of a page: 0 to 128 bytes, empty for page 1 only. No key of the page is below it.
#[derive(Drop)]
pub struct Low {
    bytes: Vec<u8>,
}

impl Model for Low {
    ghost use Rattle.std.specs.Prelude.{List, ℕ};

    ghost Value = { List ℕ };

    ghost view = { λ l. l.bytes.items };
}

impl Low {
    /// A low key as it stands in a `Vec`.
    pub fn of(bytes: Vec<u8>) -> Low
        ensures { result ≡ bytes.items }
    {
        Low { bytes }
    }

    /// The `Vec` again. No memory is taken.
    pub fn into_vec(self) -> Vec<u8>
        ensures { result.items ≡ self }
    {
        let Low { bytes } = self;
        bytes
    }

    /// The low key's bytes.
    pub fn as_slice(&self) -> &[u8]
        ensures { result.now ≡ self.now }
    {
        self.bytes.as_slice()
    }

    /// A copy of this low key. It takes memory, whose refusal is the only error.
    pub fn copy(&self) -> Result<Low, AllocError>
        ensures { IfOk result (λ low. low ≡ self.now) }
    {
        let bytes = Vec::from_slice(*self.bytes.allocator(), self.bytes.as_slice())?;
        Ok(Low { bytes })
    }
}

/// Keys with their values, in the order of the keys if a lawful leaf holds them. Their bytes may be
/// shared with other leaves.
///
/// Beside them stands a row with eight bytes of each key as a number, the first after those that
/// all keys share. A search reads it in place of most keys. It takes memory of its own, and if that
/// is refused, there is none: then a search is slower, and nothing else changes.
#[derive(Drop)]
pub struct Pairs {
    items: Vec<Pair>,
    row: Row,
}

impl Model for Pairs {
    ghost use Rattle.std.specs.Prelude.{List, ℕ};
    ghost use Rattle.bw_record.specs.Heads.{IsRow};

    ghost Value = { List (List ℕ × List ℕ) };

    ghost view = { λ p. p.items.items };

    ghost invariant = { λ p. IsRow p.row.shared.items p.row.heads.items p.items.items };
}

impl Pairs {
    /// Pairs as they stand in a `Vec`. It is never refused; their row takes memory, and is linear
    /// in them.
    pub fn of(items: Vec<Pair>) -> Pairs
        ensures { result ≡ items.items }
    {
        let row = Row::of(*items.allocator(), items.as_slice());
        Pairs { items, row }
    }

    /// The `Vec` again. No memory is taken.
    pub fn into_vec(self) -> Vec<Pair>
        ensures { result.items ≡ self }
    {
        let Pairs { items, row: _ } = self;
        items
    }

    /// The pairs.
    pub fn as_slice(&self) -> &[Pair]
        ensures { result.now ≡ self.now }
    {
        self.items.as_slice()
    }

    /// Puts a pair before the one at an index, or last. A refusal changes nothing.
    pub fn insert(&mut self, at: usize, pair: Pair) -> Result<(), AllocError>
        requires { at ≤ length self.old }
        ensures ok { OnOk result (self.new ≡ insert self.old at pair) }
        ensures err { OnErr result (self.new ≡ self.old) }
    {
        self.items.reserve(1)?;
        self.row.insert(self.items.as_slice(), at, pair.key());
        self.items.insert(at, pair)?;
        Ok(())
    }

    /// The allocator of the list.
    pub fn allocator(&self) -> Global {
        *self.items.allocator()
    }

    /// Puts a pair in the place of the one at an index, which it gives back. No memory is taken.
    /// That the keys still ascend is the caller's care.
    pub fn set(&mut self, at: usize, pair: Pair) -> Pair
        requires { at < length self.old }
        ensures set { self.new ≡ slice_set self.old at pair }
        ensures was { result ≡ slice_index_or self.old at result }
    {
        // Shows the proof that the list is as long as the `Vec`; so below.
        let _ = self.items.as_slice().len();
        self.row.set(at, pair.key());
        mem::replace(&mut self.items[at], pair)
    }

    /// Removes the pair at an index; those after it move up.
    pub fn remove(&mut self, at: usize)
        requires { at < length self.old }
        ensures { self.new ≡ remove self.old at }
    {
        let _ = self.items.as_slice().len(); // For the proof.
        self.row.remove(at);
        let _ = self.items.remove(at);
    }

    /// Keeps only the first `count` pairs, or all if there are no more.
    pub fn truncate(&mut self, count: usize)
        ensures { self.new ≡ take count self.old }
    {
        self.row.truncate(count);
        self.items.truncate(count);
    }

    /// Takes off the pairs from an index on, and gives them. The others keep their room. A refusal
    /// changes nothing.
    pub fn split_off(&mut self, at: usize) -> Result<Pairs, AllocError>
        requires { at ≤ length self.old }
        ensures kept { OnOk result (self.new ≡ take at self.old) }
        ensures rest { IfOk result (λ rest. rest ≡ drop at self.old) }
        ensures err { OnErr result (self.new ≡ self.old) }
    {
        let _ = self.items.as_slice().len(); // For the proof.
        let rest = self.items.split_off(at)?;
        self.row.truncate(at);
        Ok(Pairs::of(rest))
    }

    /// Moves the pairs from an index on into an empty `Vec` that has room for them: none of them is
    /// copied. It is never refused; a row of heads takes memory, and is linear in them.
    pub fn move_off(&mut self, at: usize, room: Vec<Pair>) -> Pairs
        requires within { at ≤ length self.old }
        requires empty { (room.items ≡ []) × (vec_len room ≡ 0) }
        requires room { length self.old - at ≤ vec_capacity room }
        ensures kept { self.new ≡ take at self.old }
        ensures rest { result ≡ drop at self.old }
    {
        let _ = self.items.as_slice().len(); // For the proof.
        let mut rest = room;
        move_last(&mut self.items, at, &mut rest);
        rest.reverse();
        self.row.truncate(at);
        Pairs::of(rest)
    }

    /// How many pairs from the first on have a key below this one, as far as the heads show: a
    /// search for the key can begin after them. There may be more.
    pub fn skipped(&self, key: &[u8]) -> usize
        ensures within { result ≤ length self.now }
        ensures below { AreBelow key.now (take result self.now) }
    {
        self.row.skip_for(key).count
    }

    /// How many pairs from the first on have a key below this one, as far as the heads show, and
    /// whether they show that the key is not there. No pair is looked at.
    pub fn skip_for(&self, key: &[u8]) -> Skip
        ensures within { result.count ≤ length self.now }
        ensures below { AreBelow key.now (take result.count self.now) }
        ensures above { IsTrue result.is_above → BeginAbove key.now (drop result.count self.now) }
    {
        self.row.skip_for(key)
    }

    /// Eight bytes of each key as a number, the first after those that all keys share; or none at
    /// all.
    pub fn heads(&self) -> &[u64]
        ensures { (shared : List ℕ) × IsRow shared result.now self.now }
    {
        self.row.heads()
    }

    /// A copy of these pairs, with room for one more: what is copied is about to change. It takes
    /// memory, whose refusal is the only error; linear in the pairs.
    pub fn copy_of(alloc: Global, pairs: &[Pair]) -> Result<Pairs, AllocError>
        ensures { IfOk result (λ copy. copy ≡ pairs.now) }
    {
        let mut items = Vec::with_capacity(alloc, pairs.len() + 1)?;
        for pair in pairs {
            items.push(pair.copy()?)?;
        }
        Ok(Pairs::of(items))
    }

    /// A copy of the pairs, as by `copy_of`.
    pub fn copy(&self) -> Result<Pairs, AllocError>
        ensures { IfOk result (λ copy. copy ≡ self.now) }
    {
        Pairs::copy_of(*self.items.allocator(), self.items.as_slice())
    }
}

// Moves the pairs from an index on, the last of them first. There is room for them.
fn move_last(from: &mut Vec<Pair>, at: usize, to: &mut Vec<Pair>)
    requires within { at ≤ vec_len from.old }
    requires empty { (to.old.items ≡ []) × (vec_len to.old ≡ 0) }
    requires room { vec_len from.old - at ≤ vec_capacity to.old }
    ensures from { from.new.items ≡ take at from.old.items }
    ensures to { reverse to.new.items ≡ drop at from.old.items }
{
    while from.len() > at {
        match from.pop() {
            Some(pair) => to.push_reserved(pair),
            None => unreachable!(),
        }
    }
}

/// A page: its number from 1, its low key, and its pairs.
#[derive(Drop)]
pub struct Leaf {
    /// From 1.
    pub page: u32,
    pub low: Low,
    pub pairs: Pairs,
}

impl Leaf {
    /// Its low key and its pairs. No memory is taken.
    pub fn into_parts(self) -> (Low, Pairs)
        ensures { result ≡ (self.low, self.pairs) }
    {
        let Leaf {
            page: _,
            low,
            pairs,
        } = self;
        (low, pairs)
    }

    /// A copy of this page. It takes memory, whose refusal is the only error.
    pub fn copy(&self) -> Result<Leaf, AllocError>
        ensures { IfOk result (λ leaf. leaf ≡ self.now) }
    {
        let low = self.low.copy()?;
        let pairs = self.pairs.copy()?;
        Ok(Leaf {
            page: self.page,
            low,
            pairs,
        })
    }
}
