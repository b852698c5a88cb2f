//! What takes a record back, which is never refused.

ghost use Rattle.std.specs.Prelude.{◌≡◌, ◌≤◌, ◌<◌, ◌+◌, ◌-◌, ◌++◌, [], true, false, length, slice_set, slice_index_or, Ok, IfOk, IsTrue, vec_len};
ghost use Rattle.std.specs.Vec.{vec_capacity};
ghost use Rattle.bw_record.specs.Record.{key_of};
ghost use Rattle.bw_record.specs.declared.leaf.Leaf.{Leaf as LeafValue};
ghost use Rattle.bw_record.specs.declared.record.Record.TheVariants.{Del};
ghost use Rattle.bw_leaf.specs.Changed.{Bytes, changed};
ghost use Rattle.bw_leaf.specs.Seek.{seek_of};
ghost use Rattle.bw_page.specs.Displaced.{joined, with_pair_at, HasSeat, IsLess, AreParts};

use crate::seats::Seats;
use bw_codec::{Leaf, Packed, Pair, Pairs};
use bw_leaf::{empty_page, find_key, take_back};
use std::alloc::AllocError;
use std::marker::Model;
use std::snapshot::Snapshot;

/// What takes a record back.
#[derive(Drop)]
pub(crate) enum Undo {
    /// This record does, which adds no pair.
    Back(Packed),
    /// The page lost a pair, or was split: it is put back as it was.
    Page(Displaced),
}

/// A leaf that a record changed, as it was before: what takes it back, beside the pairs that still
/// stand in pages.
#[derive(Drop)]
pub(crate) struct Displaced {
    kept: Kept,
    was: Snapshot<Leaf>,
    page: u32,
    /// Room for its pairs and one more.
    room: Vec<Pair>,
    /// How many pages there were before.
    pages: u32,
}

/// What the record did to a displaced leaf.
#[derive(Drop)]
enum Kept {
    /// It removed the pair at this place.
    Lost(usize, Pair),
    /// It added a pair, and the leaf was split: the record.
    Parted(Packed),
}

impl Model for Displaced {
    ghost use Rattle.bw_page.specs.Displaced.{Displaced as DisplacedLeaf};

    ghost Value = { DisplacedLeaf };

    ghost use Rattle.bw_page.specs.Keeping.{displaced_view, IsKept};

    ghost view = { displaced_view };

    ghost invariant = { IsKept };
}

impl Displaced {
    /// A leaf of which the pair at a place is about to be removed. It takes memory, whose refusal
    /// is an error, as is a full count of those that share the pair.
    pub(crate) fn lost(leaf: &Leaf, at: usize, pages: u32) -> Result<Displaced, AllocError>
        requires within { at < length leaf.now.pairs }
        requires sought { (p : Bytes × Bytes)
            → Ok at ≡ seek_of (slice_index_or leaf.now.pairs at p).0 leaf.now.pairs }
        ensures { (p : Bytes × Bytes) → IfOk result (λ d. d ≡ record {
          leaf = leaf.now;
          pages = pages;
          key = (slice_index_or leaf.now.pairs at p).0;
          is_split = false;
        }) }
    {
        let pair = leaf.pairs.as_slice()[at].copy()?;
        Ok(Displaced {
            kept: Kept::Lost(at, pair),
            was: Snapshot::of(leaf),
            page: leaf.page,
            room: room_for(&leaf.pairs)?,
            pages,
        })
    }

    /// A leaf that is about to be split. It takes memory, whose refusal is the only error.
    pub(crate) fn split(leaf: &Leaf, pages: u32, by: &Packed) -> Result<Displaced, AllocError>
        ensures { IfOk result (λ d. d
            ≡ record { leaf = leaf.now; pages = pages; key = key_of by.now; is_split = true }) }
    {
        let by = by.copy()?;
        Ok(Displaced {
            kept: Kept::Parted(by),
            was: Snapshot::of(leaf),
            page: leaf.page,
            room: room_for(&leaf.pairs)?,
            pages,
        })
    }

    /// The key of the record.
    pub(crate) fn key(&self) -> &[u8]
        ensures { result.now ≡ self.now.key }
    {
        match &self.kept {
            Kept::Lost(_, pair) => pair.key(),
            Kept::Parted(by) => by.key(),
        }
    }

    /// How many pages there were before.
    pub(crate) fn pages(&self) -> u32
        ensures { result ≡ self.now.pages }
    {
        self.pages
    }

    /// The leaf again. What stands in its seat is taken: the leaf without the pair that it lost, or
    /// the lower one of its parts. It is never refused; a row of heads takes memory.
    pub(crate) fn into_leaf(self, leaves: &mut Seats, upper: Option<Leaf>) -> Leaf
        requires seat { HasSeat self leaves.old }
        requires less { self.is_split ≡ false → IsLess self leaves.old }
        requires parts { IsTrue self.is_split → AreParts self leaves.old upper }
        ensures leaf { result ≡ self.leaf }
        ensures others { (x : LeafValue) → slice_set leaves.new.items (self.leaf.page - 1) x
            ≡ slice_set leaves.old.items (self.leaf.page - 1) x }
        ensures evicted { leaves.new.evicted ≡ leaves.old.evicted }
    {
        let Displaced {
            kept,
            was: _,
            page,
            room,
            pages: _,
        } = self;
        let none = empty_page(leaves.allocator());
        let rest = leaves.exchange(page as usize - 1, none);
        match kept {
            Kept::Lost(at, pair) => put_at(rest, at, pair, room),
            Kept::Parted(by) => {
                let Some(upper) = upper else {
                    unreachable!();
                };
                without(join(rest, upper, room), by)
            }
        }
    }
}

// Room for pairs and one more.
fn room_for(pairs: &Pairs) -> Result<Vec<Pair>, AllocError>
    ensures empty { IfOk result (λ room. (room.items ≡ []) × (vec_len room ≡ 0)) }
    ensures room { IfOk result (λ room. length pairs.now + 1 ≤ vec_capacity room) }
{
    Vec::with_capacity(pairs.allocator(), pairs.as_slice().len() + 1)
}

// A leaf with one more pair, at this place, in room that there is for all of them.
fn put_at(leaf: Leaf, at: usize, pair: Pair, room: Vec<Pair>) -> Leaf
    requires within { at ≤ length leaf.pairs }
    requires empty { (room.items ≡ []) × (vec_len room ≡ 0) }
    requires room { length leaf.pairs + 1 ≤ vec_capacity room }
    ensures { result ≡ with_pair_at leaf at pair }
{
    let page = leaf.page;
    let (low, pairs) = leaf.into_parts();
    let mut all = room;
    move_all(&mut all, pairs);
    match all.insert(at, pair) {
        Ok(()) => {}
        Err(_) => unreachable!(),
    }
    Leaf {
        page,
        low,
        pairs: Pairs::of(all),
    }
}

// Two parts as one leaf, in room that there is for the pairs of both.
fn join(lower: Leaf, upper: Leaf, room: Vec<Pair>) -> Leaf
    requires empty { (room.items ≡ []) × (vec_len room ≡ 0) }
    requires room { length lower.pairs + length upper.pairs ≤ vec_capacity room }
    ensures { result ≡ joined lower upper }
{
    let page = lower.page;
    let (low, lower) = lower.into_parts();
    let (_, upper) = upper.into_parts();
    let mut all = room;
    move_all(&mut all, lower);
    move_all(&mut all, upper);
    Leaf {
        page,
        low,
        pairs: Pairs::of(all),
    }
}

// Moves pairs after others, if there is room for them.
fn move_all(to: &mut Vec<Pair>, from: Pairs)
    requires { vec_len to.old + length from ≤ vec_capacity to.old }
    ensures items { to.new.items ≡ to.old.items ++ from }
    ensures len { vec_len to.new ≡ vec_len to.old + length from }
    ensures capacity { vec_capacity to.old ≤ vec_capacity to.new }
{
    let mut from = from.into_vec();
    let _ = from.as_slice().len(); // For the proof.
    match to.append(&mut from) {
        Ok(()) => {}
        Err(_) => unreachable!(),
    }
}

// A leaf without the key of a record. No memory is taken.
fn without(leaf: Leaf, by: Packed) -> Leaf
    ensures { result ≡ changed (Del (key_of by)) leaf }
{
    let mut leaf = leaf;
    let back = match by.into_pair() {
        Ok(pair) => Packed::del(pair),
        Err(pair) => Packed::del(pair),
    };
    let found = find_key(&leaf.pairs, back.key());
    take_back(&mut leaf, found, back);
    leaf
}
