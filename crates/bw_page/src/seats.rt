//! Leaves of which each is in memory or evicted.
//!
//! What a leaf that is evicted holds only the proof knows. A leaf may be evicted from the start: of
//! a page that was found in the log only the keys and the lengths of the values were read.

ghost use Rattle.std.specs.Prelude.{ℕ, ◌≡◌, ◌==◌, ◌<◌, ◌≤◌, ◌+◌, ◌-◌, ◌++◌, ◌^◌, [], ◌∷◌, true, false, None, Some, length, take, slice_get, slice_set, slice_index_or, if◌then◌else◌, IfSome, IsOk, IfOk, OnOk, OnErr, IsTrue};
ghost use Rattle.std.specs.List.{AllByRecursion};
ghost use Rattle.bw_codec.specs.Grammar.{block_bytes, IsBase};
ghost use Rattle.bw_record.specs.declared.block.Block.TheVariants.{Base};
ghost use Rattle.std.specs.Option.{option_copied};
ghost use Rattle.bw_record.specs.declared.leaf.Leaf.{Leaf as LeafValue};
ghost use Rattle.std.specs.FinMap.Entries.{find};
ghost use Rattle.bw_record.specs.Keys.{ascends};
ghost use Rattle.std.specs.Ordering.{eq_by_cmp};
ghost use Rattle.bw_leaf.specs.Changed.{Bytes, order, changed};
ghost use Rattle.bw_leaf.specs.SplitRule.{lower_of, upper_of};
ghost use Rattle.bw_lows.specs.LowHeads.{page_of_low};
ghost use Rattle.bw_page.specs.Splitting.{changed_at};
ghost use Rattle.bw_page.specs.Seats.{is_among, numbers_from};
ghost use Rattle.bw_leaf.specs.Seek.{seek_of, back_of, IsWithin, AddsNone, AddsOne};
ghost use Rattle.bw_record.specs.Record.{key_of};

mod asked;

use crate::clock::{Clock, base_bytes, found_bytes, pairs_bytes, put_bytes};
use crate::splits::split_leaf;
use bw_codec::{Leaf, Packed, base_length};
use bw_leaf::{HollowPage, change_found, take_back};
use bw_lows::LowIndex;
use bw_told::Told;
use std::alloc::{AllocError, Global};
use std::marker::Model;
use std::mem;

/// One leaf, in memory or evicted.
#[derive(Drop)]
pub(crate) struct Seat {
    leaf: Option<Leaf>,
    was: Told<Leaf>,
    /// How many bytes its Base has; of one in memory, as it was counted last.
    len: u32,
    /// Whether somebody asked for it since the hand of the clock passed it last.
    asked: bool,
    /// Whether the ring of the clock has an entry for it.
    in_ring: bool,
}

impl Model for Seat {
    ghost use Rattle.bw_page.specs.Seats.{Seated};

    ghost Value = { Seated };

    ghost use Rattle.bw_page.specs.Seating.{seat_view, IsSeat};

    ghost view = { seat_view };

    ghost invariant = { IsSeat };
}

impl Seat {
    /// A leaf in memory.
    fn of(leaf: Leaf) -> Seat
        ensures { result ≡ record { leaf = leaf; is_evicted = false } }
    {
        let was = Told::of(&leaf);
        let len = base_bytes(&leaf);
        Seat {
            leaf: Some(leaf),
            was,
            len,
            asked: false,
            in_ring: false,
        }
    }

    /// A leaf that was found, and never was in memory.
    fn away(page: HollowPage) -> Seat
        requires { IsBase 32 page }
        ensures { result ≡ record { leaf = page; is_evicted = true } }
    {
        let len = page.base_length() as u32;
        Seat {
            leaf: None,
            was: page.into_told(),
            len,
            asked: false,
            in_ring: false,
        }
    }

    /// The leaf, if it is in memory.
    fn leaf(&self) -> Option<&Leaf>
        ensures { option_copied result
            ≡ (if self.now.is_evicted then None else Some self.now.leaf) }
    {
        self.leaf.as_ref()
    }

    /// How many bytes its Base has.
    fn base_length(&self) -> u64
        requires { IsBase 32 self.now.leaf }
        ensures value { result ≡ length (block_bytes (Base self.now.leaf)) }
        ensures small { result < 2 ^ 32 }
    {
        match &self.leaf {
            Some(leaf) => base_length(leaf) as u64,
            None => u64::from(self.len),
        }
    }

    /// Puts a leaf in its place, which is then in memory, and gives the one that was in memory.
    fn put(&mut self, clock: &mut Clock, at: usize, leaf: Leaf) -> Option<Leaf>
        ensures now { self.new ≡ record { leaf = leaf; is_evicted = false } }
        ensures was { result ≡ (if self.old.is_evicted then None else Some self.old.leaf) }
    {
        let was = self.counted();
        let len = base_bytes(&leaf);
        self.was = Told::of(&leaf);
        let old = mem::replace(&mut self.leaf, Some(leaf));
        self.settle(clock, at, was, len);
        old
    }

    /// Drops the leaf.
    fn evict_page(&mut self, clock: &mut Clock)
        requires { IsBase 32 self.old.leaf }
        ensures { self.new ≡ record self.old { is_evicted = true } }
    {
        clock.recount(self.counted(), 0);
        self.len = self.base_length() as u32;
        self.leaf = None;
    }

    /// Changes the leaf, in which the search for the record's key ended so, and gives what
    /// `change_found` gives. A refusal changes nothing.
    fn change(
        &mut self,
        clock: &mut Clock,
        at: usize,
        found: Result<usize, usize>,
        item: &Packed,
    ) -> Result<Option<Packed>, AllocError>
        requires here { self.old.is_evicted ≡ false }
        requires found { found ≡ seek_of (key_of item.now) self.old.leaf.pairs }
        requires within { IsWithin (length self.old.leaf.pairs) found }
        ensures ok { OnOk result (self.new
            ≡ record self.old { leaf = changed item.now self.old.leaf }) }
        ensures here { self.new.is_evicted ≡ false }
        ensures back { IsTrue (ascends self.old.leaf.pairs) → IfOk result (λ back.
            back ≡ back_of item.now (find order (key_of item.now) self.old.leaf.pairs)) }
        ensures unchanged { OnErr result (self.new ≡ self.old) }
    {
        match &mut self.leaf {
            Some(leaf) => {
                let less = found_bytes(leaf, found);
                let back = change_found(leaf, found, item)?;
                self.was = Told::of(leaf);
                self.resize(clock, at, less, put_bytes(item));
                Ok(back)
            }
            None => unreachable!(),
        }
    }

    /// Changes the leaf by a record that adds one pair too many, if the search for its key ended
    /// so, and gives the part that becomes a new page, whose low key goes into the index. A refusal
    /// changes nothing.
    fn split(
        &mut self,
        clock: &mut Clock,
        index: &mut LowIndex,
        m: u16,
        at: usize,
        found: Result<usize, usize>,
        item: &Packed,
        page: u32,
    ) -> Result<Leaf, AllocError>
        requires some { 1 ≤ m }
        requires here { self.old.is_evicted ≡ false }
        requires found { found ≡ seek_of (key_of item.now) self.old.leaf.pairs }
        requires within { IsWithin (length self.old.leaf.pairs) found }
        requires adds { AddsOne item.now found }
        requires over { m < length (changed item.now self.old.leaf).pairs }
        ensures lower { OnOk result (self.new
            ≡ record self.old { leaf = lower_of m (changed item.now self.old.leaf) }) }
        ensures here { self.new.is_evicted ≡ false }
        ensures upper { IfOk result (λ upper.
            upper ≡ upper_of m page (changed item.now self.old.leaf)) }
        ensures index { (q : Bytes) → OnOk result (page_of_low index.new q
            ≡ (if eq_by_cmp order q (upper_of m page (changed item.now self.old.leaf)).low
            then Some page else page_of_low index.old q)) }
        ensures unchanged { OnErr result (self.new ≡ self.old) }
        ensures index_stays { OnErr result (index.new ≡ index.old) }
    {
        match &mut self.leaf {
            Some(leaf) => {
                let upper = split_leaf(index, m, leaf, found, item, page)?;
                self.was = Told::of(leaf);
                self.resize(clock, at, pairs_bytes(&upper), put_bytes(item));
                Ok(upper)
            }
            None => unreachable!(),
        }
    }

    /// Changes the leaf by a record that adds no pair and has its memory, if the search for its key
    /// ended so.
    fn take_back(&mut self, clock: &mut Clock, at: usize, found: Result<usize, usize>, back: Packed)
        requires here { self.old.is_evicted ≡ false }
        requires found { found ≡ seek_of (key_of back) self.old.leaf.pairs }
        requires within { IsWithin (length self.old.leaf.pairs) found }
        requires none { AddsNone back found }
        ensures changed { self.new ≡ record self.old { leaf = changed back self.old.leaf } }
        ensures here { self.new.is_evicted ≡ false }
    {
        match &mut self.leaf {
            Some(leaf) => {
                let less = found_bytes(leaf, found);
                let more = put_bytes(&back);
                take_back(leaf, found, back);
                self.was = Told::of(leaf);
                self.resize(clock, at, less, more);
            }
            None => unreachable!(),
        }
    }

    /// The leaf, which is in memory.
    fn into_leaf(self) -> Leaf
        requires { self.is_evicted ≡ false }
        ensures { result ≡ self.leaf }
    {
        let Seat {
            leaf,
            was: _,
            len: _,
            asked: _,
            in_ring: _,
        } = self;
        match leaf {
            Some(leaf) => leaf,
            None => unreachable!(),
        }
    }
}

/// Leaves, each in memory or evicted.
#[derive(Drop)]
pub(crate) struct Seats {
    seats: Vec<Seat>,
    clock: Clock,
}

impl Model for Seats {
    ghost use Rattle.bw_page.specs.Seats.{Seating};

    ghost Value = { Seating };

    ghost use Rattle.bw_page.specs.Seating.{seats_view};

    ghost view = { seats_view };
}

impl Seats {
    /// No leaf.
    pub(crate) fn new(alloc: Global) -> Seats
        ensures items { result.items ≡ [] }
        ensures evicted { result.evicted ≡ [] }
    {
        Seats {
            seats: Vec::new(alloc),
            clock: Clock::new(alloc),
        }
    }

    /// These leaves, all in memory.
    pub(crate) fn of(leaves: Vec<Leaf>) -> Result<Seats, AllocError>
        ensures items { IfOk result (λ s. s.items ≡ leaves.items) }
        ensures evicted { IfOk result (λ s. s.evicted ≡ []) }
    {
        let mut seats = Seats::new(*leaves.allocator());
        seats.reserve(leaves.len())?;
        for leaf in leaves {
            seats.push(leaf)?;
        }
        Ok(seats)
    }

    /// These leaves, all evicted.
    pub(crate) fn away(pages: Vec<HollowPage>) -> Result<Seats, AllocError>
        requires { AllByRecursion (IsBase 32) pages.items }
        ensures items { IfOk result (λ s. s.items ≡ pages.items) }
        ensures evicted { IfOk result (λ s. s.evicted ≡ numbers_from 1 (length pages.items)) }
    {
        let mut seats = Seats::new(*pages.allocator());
        seats.reserve(pages.len())?;
        for page in pages {
            seats.push_away(page)?;
        }
        Ok(seats)
    }

    // A further leaf, evicted. A refusal changes nothing.
    fn push_away(&mut self, page: HollowPage) -> Result<(), AllocError>
        requires { IsBase 32 page }
        ensures items { OnOk result (self.new.items ≡ self.old.items ++ page ∷ []) }
        ensures evicted { OnOk result
            (self.new.evicted ≡ self.old.evicted ++ (length self.old.items + 1) ∷ []) }
        ensures unchanged { OnErr result (self.new.items ≡ self.old.items) }
    {
        self.seats.push(Seat::away(page))?;
        Ok(())
    }

    pub(crate) fn allocator(&self) -> Global {
        *self.seats.allocator()
    }

    /// How many there are.
    pub(crate) fn len(&self) -> usize
        ensures value { result ≡ length self.now.items }
        ensures beyond { (p : ℕ) → length self.now.items < p → is_among p self.now.evicted ≡ false }
    {
        self.seats.as_slice().len()
    }

    /// The leaf at an index, if there is one in memory.
    pub(crate) fn look(&self, at: usize) -> Option<&Leaf>
        ensures { option_copied result
            ≡ (if is_among (at + 1) self.now.evicted then None else slice_get self.now.items at) }
    {
        let seats = self.seats.as_slice();
        if at < seats.len() {
            return seats[at].leaf();
        }
        None
    }

    /// The leaf at an index, which is in memory.
    pub(crate) fn get(&self, at: usize) -> &Leaf
        requires within { at < length self.now.items }
        requires here { is_among (at + 1) self.now.evicted ≡ false }
        ensures { result.now ≡ slice_index_or self.now.items at result.now }
    {
        match self.look(at) {
            Some(leaf) => leaf,
            None => unreachable!(),
        }
    }

    /// Room for more. It changes nothing else.
    pub(crate) fn reserve(&mut self, more: usize) -> Result<(), AllocError>
        ensures items { self.new.items ≡ self.old.items }
        ensures evicted { self.new.evicted ≡ self.old.evicted }
        ensures room { OnOk result (more ≤ self.new.room) }
    {
        self.seats.reserve(more)
    }

    /// A further leaf, in memory. A refusal changes nothing.
    pub(crate) fn push(&mut self, leaf: Leaf) -> Result<(), AllocError>
        ensures items { OnOk result (self.new.items ≡ self.old.items ++ leaf ∷ []) }
        ensures evicted { self.new.evicted ≡ self.old.evicted }
        ensures room { OnOk result (self.old.room ≤ self.new.room + 1) }
        ensures succeeds { 1 ≤ self.old.room → IsOk result }
        ensures unchanged { OnErr result (self.new.items ≡ self.old.items) }
    {
        self.seats.reserve(1)?;
        let mut seat = Seat::of(leaf);
        let len = seat.len;
        seat.settle(&mut self.clock, self.seats.len(), 0, len);
        self.seats.push_reserved(seat);
        Ok(())
    }

    /// Takes the last leaf, which is in memory.
    pub(crate) fn pop(&mut self) -> Leaf
        requires some { 1 ≤ length self.old.items }
        requires here { is_among (length self.old.items) self.old.evicted ≡ false }
        ensures items { self.new.items ≡ take (length self.old.items - 1) self.old.items }
        ensures value { (d : LeafValue)
            → result ≡ slice_index_or self.old.items (length self.old.items - 1) d }
        ensures evicted { self.new.evicted ≡ self.old.evicted }
    {
        match self.seats.pop() {
            Some(seat) => {
                seat.leave(&mut self.clock, self.seats.len());
                seat.into_leaf()
            }
            None => unreachable!(),
        }
    }

    /// Sets the leaf at an index: it is then in memory.
    pub(crate) fn set(&mut self, at: usize, leaf: Leaf)
        requires { at < length self.old.items }
        ensures items { self.new.items ≡ slice_set self.old.items at leaf }
        ensures evicted { (p : ℕ) → is_among p self.new.evicted
            ≡ (if p == at + 1 then false else is_among p self.old.evicted) }
        ensures kept { is_among (at + 1) self.old.evicted ≡ false → self.new.evicted ≡ self.old.evicted }
        ensures room { self.new.room ≡ self.old.room }
    {
        let _ = self.seats.as_slice().len(); // For the proof.
        let _ = self.seats[at].put(&mut self.clock, at, leaf);
    }

    /// Sets the leaf at an index, which is in memory, and gives it as it was.
    pub(crate) fn exchange(&mut self, at: usize, leaf: Leaf) -> Leaf
        requires within { at < length self.old.items }
        requires here { is_among (at + 1) self.old.evicted ≡ false }
        ensures items { self.new.items ≡ slice_set self.old.items at leaf }
        ensures was { (d : LeafValue) → result ≡ slice_index_or self.old.items at d }
        ensures evicted { self.new.evicted ≡ self.old.evicted }
        ensures room { self.new.room ≡ self.old.room }
    {
        let _ = self.seats.as_slice().len(); // For the proof.
        match self.seats[at].put(&mut self.clock, at, leaf) {
            Some(leaf) => leaf,
            None => unreachable!(),
        }
    }

    /// Changes a leaf, which is in memory, and in which the search for the record's key ended so.
    /// It gives what `change_found` gives. A refusal changes nothing.
    pub(crate) fn change(
        &mut self,
        at: usize,
        found: Result<usize, usize>,
        item: &Packed,
    ) -> Result<Option<Packed>, AllocError>
        requires within { at < length self.old.items }
        requires here { is_among (at + 1) self.old.evicted ≡ false }
        requires found { (d : LeafValue)
            → found ≡ seek_of (key_of item.now) (slice_index_or self.old.items at d).pairs }
        requires found_within { (d : LeafValue)
            → IsWithin (length (slice_index_or self.old.items at d).pairs) found }
        ensures ok { (d : LeafValue) → OnOk result (self.new.items
            ≡ slice_set self.old.items at (changed_at item.now self.old.items at d)) }
        ensures evicted { self.new.evicted ≡ self.old.evicted }
        ensures back { (d : LeafValue) → IsTrue (ascends (slice_index_or self.old.items at d).pairs)
            → IfOk result (λ back. back ≡ back_of item.now
            (find order (key_of item.now) (slice_index_or self.old.items at d).pairs)) }
        ensures unchanged { OnErr result (self.new.items ≡ self.old.items) }
    {
        let _ = self.seats.as_slice().len(); // For the proof.
        self.seats[at].change(&mut self.clock, at, found, item)
    }

    /// Changes a leaf, which is in memory, by a record that adds one pair too many, if the search
    /// for its key ended so, and gives the part that becomes a new page, whose low key goes into
    /// the index. A refusal changes nothing.
    pub(crate) fn split(
        &mut self,
        index: &mut LowIndex,
        m: u16,
        at: usize,
        found: Result<usize, usize>,
        item: &Packed,
        page: u32,
    ) -> Result<Leaf, AllocError>
        requires some { 1 ≤ m }
        requires within { at < length self.old.items }
        requires here { is_among (at + 1) self.old.evicted ≡ false }
        requires found { (d : LeafValue)
            → found ≡ seek_of (key_of item.now) (slice_index_or self.old.items at d).pairs }
        requires found_within { (d : LeafValue)
            → IsWithin (length (slice_index_or self.old.items at d).pairs) found }
        requires adds { AddsOne item.now found }
        requires over { (d : LeafValue) → m < length (changed_at item.now self.old.items at d).pairs }
        ensures lower { (d : LeafValue) → OnOk result (self.new.items
            ≡ slice_set self.old.items at (lower_of m (changed_at item.now self.old.items at d))) }
        ensures upper { (d : LeafValue) → IfOk result (λ upper.
            upper ≡ upper_of m page (changed_at item.now self.old.items at d)) }
        ensures index { (d : LeafValue) (q : Bytes) → OnOk result (page_of_low index.new q
            ≡ (if eq_by_cmp order q (upper_of m page (changed_at item.now self.old.items at d)).low
            then Some page else page_of_low index.old q)) }
        ensures evicted { self.new.evicted ≡ self.old.evicted }
        ensures room { self.new.room ≡ self.old.room }
        ensures unchanged { OnErr result (self.new.items ≡ self.old.items) }
        ensures index_stays { OnErr result (index.new ≡ index.old) }
    {
        let _ = self.seats.as_slice().len(); // For the proof.
        self.seats[at].split(&mut self.clock, index, m, at, found, item, page)
    }

    /// Changes a leaf, which is in memory, by a record that adds no pair and has its memory, if the
    /// search for its key ended so.
    pub(crate) fn take_back(&mut self, at: usize, found: Result<usize, usize>, back: Packed)
        requires within { at < length self.old.items }
        requires here { is_among (at + 1) self.old.evicted ≡ false }
        requires found { (d : LeafValue)
            → found ≡ seek_of (key_of back) (slice_index_or self.old.items at d).pairs }
        requires found_within { (d : LeafValue)
            → IsWithin (length (slice_index_or self.old.items at d).pairs) found }
        requires none { AddsNone back found }
        ensures items { (d : LeafValue) → self.new.items
            ≡ slice_set self.old.items at (changed_at back self.old.items at d) }
        ensures evicted { self.new.evicted ≡ self.old.evicted }
    {
        let _ = self.seats.as_slice().len(); // For the proof.
        self.seats[at].take_back(&mut self.clock, at, found, back);
    }

    /// How many bytes the Base of the leaf at an index has.
    pub(crate) fn base_length(&self, at: usize) -> u64
        requires within { at < length self.now.items }
        requires lawful { AllByRecursion (IsBase 32) self.now.items }
        ensures value { IfSome (slice_get self.now.items at)
            (λ leaf. result ≡ length (block_bytes (Base leaf))) }
        ensures small { result < 2 ^ 32 }
    {
        let _ = self.seats.as_slice().len(); // For the proof.
        self.seats[at].base_length()
    }

    /// Drops the leaf at an index from memory.
    pub(crate) fn evict_page(&mut self, at: usize)
        requires within { at < length self.old.items }
        requires lawful { AllByRecursion (IsBase 32) self.old.items }
        ensures items { self.new.items ≡ self.old.items }
        ensures evicted { (p : ℕ) → is_among p self.new.evicted
            ≡ (if p == at + 1 then true else is_among p self.old.evicted) }
    {
        let _ = self.seats.as_slice().len(); // For the proof.
        self.seats[at].evict_page(&mut self.clock);
    }
}
