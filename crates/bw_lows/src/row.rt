//! The heads of lows, taken after the bytes that they share.
//!
//! Long lows that stand next to each other often begin with the same bytes. Their own heads set
//! nothing apart then, and each step of a search would read a whole low, which stands elsewhere in
//! memory. A row of heads taken after these bytes sets most of them apart, eight to a cache line.
//! Short lows have one too: their own heads stand too far apart for a search that counts.

ghost use Rattle.std.specs.Prelude.{◌≡◌, ℕ, ◌+◌, List, [], ◌∷◌, ◌++◌, ◌≤◌, ◌<◌, length, insert, remove, slice_set, vec_len, vec_capacity, IsSome, IfSome, OnOk};
ghost use Rattle.std.specs.Bool.{OnTrue};
ghost use Rattle.bw_record.specs.Keys.{is_below};
ghost use Rattle.bw_lows.specs.Rows.{Low, keys, low_at, Ascends, IsBetween};
ghost use Rattle.bw_lows.specs.LowRow.{IsHeadBehind, IsRow, DoAscend, IsHeadBetween, IsHeadBoundary, IsHeadRun};
ghost use Rattle.bw_lows.specs.Flat.{firsts};

use crate::block::Block;
use crate::entry::Entry;
use arrayvec::ArrayVec;
use bw_record::{Key, beginning, behind, head_of, is_before};
use std::alloc::{AllocError, Global};

/// How many shared bytes a row steps over at most.
const MOST: usize = 32;

/// For how many more lows a block and its row take room at a time: few, since each has such room.
const STEP: usize = 16;

/// The heads of lows in their order, each taken after the bytes with which all these lows begin.
/// There are none if memory for them is refused: then a search is slower, and nothing else changes.
#[derive(Drop)]
pub(crate) struct Row {
    shared: ArrayVec<u8, MOST>,
    heads: Vec<u64>,
}

impl Row {
    /// No row. No memory is taken.
    pub(crate) fn none(alloc: Global) -> Row
        ensures { (lows : List Low) → IsRow result.shared.items result.heads.items lows }
    {
        Row {
            shared: ArrayVec::new(),
            heads: Vec::new(alloc),
        }
    }

    /// The row of lows. What the first and the last share, all between them do if lows ascend.
    pub(crate) fn of(alloc: Global, entries: &[Entry]) -> Row
        ensures { (lows : List Low) → keys lows ≡ entries.now
            → IsRow result.shared.items result.heads.items lows }
    {
        let shared = match (entries.first(), entries.last()) {
            (Some(first), Some(last)) => {
                beginning(first.low().as_slice(), last.low().as_slice())
            }
            _ => ArrayVec::new(),
        };
        let mut heads = Vec::new(alloc);
        fill(&mut heads, shared.as_slice(), entries);
        Row { shared, heads }
    }

    /// The row of the first lows of blocks.
    pub(crate) fn of_firsts(alloc: Global, blocks: &[Block]) -> Row
        ensures { IsRow result.shared.items result.heads.items (firsts blocks.now) }
    {
        let shared = match (blocks.first(), blocks.last()) {
            (Some(first), Some(last)) if first.len() > 0 && last.len() > 0 => {
                beginning(first.low(0).as_slice(), last.low(0).as_slice())
            }
            _ => ArrayVec::new(),
        };
        let mut heads = Vec::new(alloc);
        fill_firsts(&mut heads, shared.as_slice(), blocks);
        Row { shared, heads }
    }

    /// What memory is taken from.
    pub(crate) fn allocator(&self) -> Global {
        *self.heads.allocator()
    }

    /// Whether there is no row.
    pub(crate) fn is_missing(&self) -> bool {
        self.heads.is_empty()
    }

    /// The head of a low, taken after the shared bytes, if it begins with them.
    pub(crate) fn head(&self, low: &Entry) -> Option<u64>
        ensures { IfSome result (λ h. IsHeadBehind self.now.shared.items low.now h) }
    {
        low.head_behind(self.shared.as_slice())
    }

    /// The head of the first low of a block, taken after the shared bytes, if it begins with them.
    pub(crate) fn head_of_first(&self, block: &Block) -> Option<u64>
        ensures { IfSome result (λ h. IsHeadBehind self.now.shared.items (low_at block.now 0) h) }
    {
        block.head_behind(self.shared.as_slice())
    }

    /// The row of so many lows takes the head of one that goes to an index. There is no row any
    /// more if the low does not begin with the shared bytes, or if memory is refused.
    pub(crate) fn insert(&mut self, count: usize, at: usize, head: Option<u64>)
        requires { at ≤ count }
        ensures { (lows : List Low) (low : Low) → length lows ≡ count
            → IfSome head (λ h. IsHeadBehind self.old.shared.items low.0 h)
            → IsRow self.old.shared.items self.old.heads.items lows
            → IsRow self.new.shared.items self.new.heads.items (insert lows at low) }
    {
        let _ = self.heads.as_slice().len(); // For the proof.
        let Some(head) = head else {
            self.heads.clear();
            return;
        };
        if self.heads.len() != count || make_room(&mut self.heads).is_err() {
            self.heads.clear();
            return;
        }
        match self.heads.insert(at, head) {
            Ok(()) => {}
            Err(_) => self.heads.clear(),
        }
    }

    /// The low at an index is another one, with this head. There is no row any more if it does not
    /// begin with the shared bytes.
    pub(crate) fn set(&mut self, at: usize, head: Option<u64>)
        ensures { (lows : List Low) (low : Low) → at < length lows
            → IfSome head (λ h. IsHeadBehind self.old.shared.items low.0 h)
            → IsRow self.old.shared.items self.old.heads.items lows
            → IsRow self.new.shared.items self.new.heads.items (slice_set lows at low) }
    {
        match head {
            Some(head) if at < self.heads.as_slice().len() => self.heads[at] = head,
            _ => self.heads.clear(),
        }
    }

    /// The low at an index is gone.
    pub(crate) fn remove(&mut self, at: usize)
        ensures { (lows : List Low) → at < length lows
            → IsRow self.old.shared.items self.old.heads.items lows
            → IsRow self.new.shared.items self.new.heads.items (remove lows at) }
    {
        if at < self.heads.as_slice().len() {
            let _ = self.heads.remove(at);
        }
    }

    /// Where a key parts so many lows, as far as the heads show: those before the first place are
    /// not above it, and those from the second on are. A key that does not begin with what these
    /// lows do is above all of them or below all.
    pub(crate) fn bounds(&self, count: usize, key: &Key) -> (usize, usize)
        ensures { (lows : List Low) → length lows ≡ count → Ascends lows
            → IsRow self.now.shared.items self.now.heads.items lows
            → IsBetween (λ i. is_below key.now (low_at lows i)) count result.0 result.1 }
    {
        let heads = self.heads.as_slice();
        if heads.len() != count {
            return (0, count);
        }
        let shared = self.shared.as_slice();
        let bytes = key.as_slice();
        match behind(bytes, shared) {
            Some(rest) => equal(heads, head_of(rest)),
            None if is_before(shared, bytes) => (count, count),
            None => (0, 0),
        }
    }
}

// The row of lows, taken after bytes that they share; none if one does not share them, or if memory
// is refused.
fn fill(row: &mut Vec<u64>, shared: &[u8], entries: &[Entry])
    requires { row.old.items ≡ [] }
    ensures { (lows : List Low) → keys lows ≡ entries.now → IsRow shared.now row.new.items lows }
{
    let _ = row.reserve_exact(entries.len() + STEP);
    for entry in entries {
        if !push(row, entry.head_behind(shared)) {
            row.clear();
            return;
        }
    }
}

// The row of the first lows of blocks, taken after bytes that they share; none if one does not
// share them, or if memory is refused.
fn fill_firsts(row: &mut Vec<u64>, shared: &[u8], blocks: &[Block])
    requires { row.old.items ≡ [] }
    ensures { IsRow shared.now row.new.items (firsts blocks.now) }
{
    let _ = row.reserve_exact(blocks.len() + STEP);
    for block in blocks {
        if !push(row, block.head_behind(shared)) {
            row.clear();
            return;
        }
    }
}

// Takes a head after the others, if there is one and memory for it, and says whether it did.
fn push(row: &mut Vec<u64>, head: Option<u64>) -> bool
    ensures some { OnTrue result (IsSome head) }
    ensures pushed { OnTrue result (IfSome head (λ h. row.new.items ≡ row.old.items ++ h ∷ [])) }
{
    match head {
        Some(head) => row.push(head).is_ok(),
        None => false,
    }
}

/// Makes room for one more item, and a few others.
pub(crate) fn make_room<T>(items: &mut Vec<T>) -> Result<(), AllocError>
    ensures items { items.new.items ≡ items.old.items }
    ensures len { vec_len items.new ≡ vec_len items.old }
    ensures room { OnOk result (vec_len items.new < vec_capacity items.new) }
{
    if items.len() == items.capacity() {
        items.reserve_exact(STEP)?;
    }
    Ok(())
}

// The run of heads that equal this one, if heads ascend: where it begins, and where it ends.
fn equal(row: &[u64], head: u64) -> (usize, usize)
    ensures { DoAscend row.now → IsHeadRun row.now head result.0 result.1 }
{
    let from = count_below(row, 0, head);
    if from == row.len() || row[from] != head {
        return (from, from);
    }
    match head.checked_add(1) {
        Some(next) => (from, count_below(row, from, next)),
        None => (from, row.len()),
    }
}

// How many heads are below this one, if heads ascend and so many are known to be.
//
// A search by halves tests one head at each step, and the processor guesses wrong at every second
// test. Here each round looks at few heads, and only counts those that are below: at each 512th, at
// each 64th between two of these, at each eighth, and at each. There is nothing to guess at.
fn count_below(row: &[u64], least: usize, head: u64) -> usize
    requires { least ≤ length row.now }
    ensures within { result ≤ length row.now }
    ensures boundary { DoAscend row.now → IsHeadBoundary row.now head least result }
{
    let (from, to) = narrow(row, least, row.len(), 512, head);
    let (from, to) = narrow(row, from, to, 64, head);
    let (from, to) = narrow(row, from, to, 8, head);
    let (from, _) = narrow(row, from, to, 1, head);
    from
}

// Two places closer together, between which the heads below this one end if they end between the
// given ones. It goes over parts of such a width, and looks at the last head of each.
fn narrow(row: &[u64], from: usize, to: usize, width: usize, head: u64) -> (usize, usize)
    requires order { from ≤ to }
    requires within { to ≤ length row.now }
    requires some { 0 < width }
    requires few { width ≤ 512 }
    ensures order { result.0 ≤ result.1 }
    ensures within { result.1 ≤ to }
    ensures width { result.1 < result.0 + width }
    ensures found { (least : ℕ) → DoAscend row.now → IsHeadBetween row.now head least from to
        → IsHeadBetween row.now head least result.0 result.1 }
{
    let mut below = from;
    let mut at = from + width - 1;
    while at < to {
        if row[at] < head {
            below += width;
        }
        at += width;
    }
    (below, to.min(below + width - 1))
}
