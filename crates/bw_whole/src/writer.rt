//! Pairs become pages.

ghost use Rattle.std.specs.Prelude.{◌≡◌, ◌↔◌, ◌<◌, ◌≤◌, [], true, false, length, IsTrue, IsOk, OnOk, OnErr, IfOk, IfErr};
ghost use Rattle.std.specs.Vec.{vec_capacity};
ghost use Rattle.bw_record.specs.declared.block.Block.TheVariants.{Base};
ghost use Rattle.bw_codec.specs.Grammar.{IsBase};
ghost use Rattle.bw_whole.specs.Framing.{is_base, with_frame, with_page, IsLastFrame};
ghost use Rattle.bw_whole.specs.Paging.{Pair as PairValue, AreLimits, without_pairs, is_next, has_room, page_with, turned, roomy, with_pair, segments_of, finished, IsSpent};
ghost use Rattle.bw_whole.specs.Listing.{bytes_of};
ghost use Rattle.bw_whole.specs.declared.fault.WholeFault.{WholeFault as FaultValue};

use crate::fault::{NotPut, WholeFault};
use crate::frames::Frames;
use bw_codec::limits::{HEADER_LEN, MAX_FRAME, MAX_PAIRS, MIN_FRAME, MIN_PAIRS};
use bw_codec::{Block, Leaf, Low, Pair, Pairs, is_before};
use std::alloc::Global;
use std::marker::Model;
use std::mem;

/// The most bytes of a segment.
const MAX_ROOM: u64 = 1_073_741_824;

/// A log that is written whole.
#[derive(Drop)]
pub struct Writer {
    /// The most pairs of a page.
    m: u16,
    /// The full pages.
    frames: Frames,
    /// The number of the page that takes pairs, and its low.
    page: u32,
    low: Low,
    /// Its pairs, with room for all that it may get.
    pairs: Vec<Pair>,
}

impl Model for Writer {
    ghost use Rattle.bw_whole.specs.Paging.{Making};

    ghost Value = { Making };

    ghost use Rattle.bw_whole.specs.Held.{making_of, IsHeld};

    ghost view = { making_of };

    ghost invariant = { IsHeld };
}

// Whether a log may have these limits.
fn are_limits(m: u16, f: u32, room: u64) -> bool
    ensures { IsTrue result ↔ AreLimits m f room }
{
    MIN_PAIRS <= m
        && m <= MAX_PAIRS
        && MIN_FRAME <= f
        && f <= MAX_FRAME
        && HEADER_LEN as u64 + u64::from(f) <= room
        && room <= MAX_ROOM
}

impl Writer {
    /// A log without pairs: pages of at most `m` pairs, 4 to 32, frames of at most `f` bytes,
    /// 65,536 to 262,144, and segments of at most `room` bytes, from a header and a frame to 1 GiB.
    /// Else
    /// `BadConfig`.
    pub fn new(alloc: Global, m: u16, f: u32, room: u64) -> Result<Writer, WholeFault>
        ensures ok { IfOk result (λ writer. writer ≡ without_pairs m f room) }
        ensures lawful { IsOk result → AreLimits m f room }
        ensures err { IfErr result (λ cause. cause ≡ FaultValue.BadConfig → AreLimits m f room → ⊥) }
    {
        if !are_limits(m, f, room) {
            return Err(WholeFault::BadConfig);
        }
        let frames = Frames::new(alloc, m, f, room)?;
        let pairs = Vec::with_capacity(alloc, usize::from(m))?;
        Ok(Writer {
            m,
            frames,
            page: 1,
            low: Low::of(Vec::new(alloc)),
            pairs,
        })
    }

    // Whether the key is above that of the last pair.
    fn is_next(&self, pair: &Pair) -> bool
        ensures { result ≡ is_next self.now pair.now }
    {
        match self.pairs.as_slice().last() {
            Some(last) => is_before(last.key(), pair.key()),
            None => true,
        }
    }

    fn has_room(&self) -> bool
        ensures { result ≡ has_room self.now }
    {
        self.pairs.as_slice().len() < usize::from(self.m)
    }

    /// Puts a pair after all others. `NotAbove` if its key is not above that of the one before it;
    /// a refusal gives the pair back, and changes nothing.
    pub fn put(&mut self, pair: Pair) -> Result<(), NotPut>
        ensures ok { OnOk result (self.new ≡ with_pair self.old pair) }
        ensures next { IsOk result → is_next self.old pair ≡ true }
        ensures back { IfErr result (λ refused. refused.pair ≡ pair) }
        ensures not_above { IfErr result (λ refused. refused.cause ≡ FaultValue.NotAbove
            ↔ (is_next self.old pair ≡ false)) }
        ensures spent { IfErr result (λ refused. refused.cause ≡ FaultValue.Spent
            → IsSpent self.old) }
        ensures err { OnErr result (self.new ≡ self.old) }
    {
        if !self.is_next(&pair) {
            return Err(NotPut {
                pair,
                cause: WholeFault::NotAbove,
            });
        }
        match self.fit(pair.key()) {
            Ok(()) => {
                self.push(pair);
                Ok(())
            }
            Err(cause) => Err(NotPut { pair, cause }),
        }
    }

    // Turns the page, if it has no room for one more pair: the next one begins at this key.
    fn fit(&mut self, key: &[u8]) -> Result<(), WholeFault>
        requires { (1 ≤ length key.now) × (length key.now ≤ 128) }
        ensures ok { OnOk result (self.new ≡ roomy key.now self.old) }
        ensures room { OnOk result (has_room self.new ≡ true) }
        ensures next { OnOk result ((pair : PairValue) → is_next self.old pair ≡ true
            → is_next self.new pair ≡ true) }
        ensures cause { IfErr result (λ cause. cause ≡ FaultValue.NotAbove → ⊥) }
        ensures spent { IfErr result (λ cause. cause ≡ FaultValue.Spent → IsSpent self.old) }
        ensures err { OnErr result (self.new ≡ self.old) }
    {
        let _ = &self.m; // Tells the proof what holds of the fields.
        if self.has_room() {
            return Ok(());
        }
        self.turn(key)
    }

    // Puts the full page, and begins the next one at this key.
    fn turn(&mut self, key: &[u8]) -> Result<(), WholeFault>
        requires full { has_room self.old ≡ false }
        requires key { (1 ≤ length key.now) × (length key.now ≤ 128) }
        ensures ok { OnOk result (self.new ≡ turned key.now self.old) }
        ensures cause { IfErr result (λ cause. cause ≡ FaultValue.NotAbove → ⊥) }
        ensures spent { IfErr result (λ cause. cause ≡ FaultValue.Spent → IsSpent self.old) }
        ensures err { OnErr result (self.new ≡ self.old) }
    {
        let Some(page) = self.page.checked_add(1) else {
            return Err(WholeFault::Spent);
        };
        let alloc = *self.pairs.allocator();
        let low = Low::of(Vec::from_slice(alloc, key)?);
        let pairs = Vec::with_capacity(alloc, usize::from(self.m))?;
        let full = self.take(low, pairs);
        match put_full(&mut self.frames, full) {
            Ok(()) => {
                self.page = page;
                Ok(())
            }
            Err(refused) => {
                self.give_back(refused.leaf);
                Err(refused.cause)
            }
        }
    }

    // The page that takes pairs, in whose place there is an empty one of this low, which has its
    // number.
    fn take(&mut self, low: Low, pairs: Vec<Pair>) -> Leaf
        requires low { length low ≤ 128 }
        requires empty { pairs.items ≡ [] }
        requires room { self.old.framed.m ≤ vec_capacity pairs }
        ensures page { result ≡ self.old.page }
        ensures lawful { IsBase self.old.framed.m self.old.page }
        ensures left { self.new ≡ record self.old {
          page = record self.old.page { low = low; pairs = [] };
        } }
    {
        Leaf {
            page: self.page,
            low: mem::replace(&mut self.low, low),
            pairs: Pairs::of(mem::replace(&mut self.pairs, pairs)),
        }
    }

    // The full page takes its place again.
    fn give_back(&mut self, full: Leaf)
        requires lawful { IsBase self.old.framed.m full }
        requires full { length full.pairs ≡ self.old.framed.m }
        ensures { self.new ≡ record self.old { page = full } }
    {
        self.page = full.page;
        let (low, pairs) = full.into_parts();
        self.low = low;
        self.pairs = pairs.into_vec();
    }

    // Puts a pair into the page, which has room for it.
    fn push(&mut self, pair: Pair)
        requires room { has_room self.old ≡ true }
        requires next { is_next self.old pair ≡ true }
        ensures { self.new ≡ record self.old { page = page_with self.old.page pair } }
    {
        // The calls show the proof how long both are at most.
        let _ = (pair.key().len(), pair.value().len());
        self.pairs.push_reserved(pair);
    }

    /// Ends the log: its segments, the oldest first, each as its bytes. The last page stands in
    /// them, be it full or not, and an empty page 1 if no pair was put.
    pub fn end(self) -> Result<Vec<Vec<u8>>, WholeFault>
        ensures { IfOk result (λ segments. bytes_of segments.items ≡ finished self) }
    {
        let Writer {
            frames,
            page,
            low,
            pairs,
            ..
        } = self;
        let last = Leaf {
            page,
            low,
            pairs: Pairs::of(pairs),
        };
        ended(frames, last)
    }
}

// The segments, with this page and the frame that has it.
fn ended(frames: Frames, last: Leaf) -> Result<Vec<Vec<u8>>, WholeFault>
    requires { IsBase 32 last }
    ensures { IfOk result (λ segments. bytes_of segments.items
        ≡ segments_of (with_frame (with_page frames (Base last)))) }
{
    let page = Block::Base(last);
    let mut frames = frames;
    frames.put(&page)?;
    frames.end_frame()?;
    let segments = frames.into_segments()?;
    Ok(segments)
}

/// A full page that was not put, and why.
#[derive(Drop)]
struct Refused {
    leaf: Leaf,
    cause: WholeFault,
}

// The page that a Base sets.
fn leaf_of(page: Block) -> Leaf
    requires { is_base page ≡ true }
    ensures { Base result ≡ page }
{
    match page {
        Block::Base(leaf) => leaf,
        Block::Delta { .. } => unreachable!(),
        Block::Split { .. } => unreachable!(),
    }
}

// Puts a page into a frame; a refusal gives it back, and changes nothing.
fn put_full(frames: &mut Frames, leaf: Leaf) -> Result<(), Refused>
    requires { IsBase 32 leaf }
    ensures ok { OnOk result (frames.new ≡ with_page frames.old (Base leaf)) }
    ensures back { IfErr result (λ refused. refused.leaf ≡ leaf) }
    ensures cause { IfErr result (λ refused. refused.cause ≡ FaultValue.NotAbove → ⊥) }
    ensures spent { IfErr result (λ refused. refused.cause ≡ FaultValue.Spent
        → IsLastFrame frames.old) }
    ensures err { OnErr result (frames.new ≡ frames.old) }
{
    let page = Block::Base(leaf);
    match frames.put(&page) {
        Ok(()) => Ok(()),
        Err(cause) => Err(Refused {
            leaf: leaf_of(page),
            cause,
        }),
    }
}
