//! A page of which only the keys and the lengths of the values are known.
//!
//! Recovery judges pages, and makes none: whether a page is lawful, and how long its Base is, hangs
//! on its keys and on the lengths of its values. What the values are is known to the proof, which
//! follows the page from block to block.

ghost use Rattle.std.specs.Prelude.{◌≡◌, ◌<◌, ◌^◌, ◌++◌, ◌∷◌, [], length, slice_index_or, IfOk, IfSome, OnOk};
ghost use Rattle.std.specs.FinMap.Entries.{put};
ghost use Rattle.std.specs.List.{filter};
ghost use Rattle.bw_record.specs.Keys.{is_below};
ghost use Rattle.bw_record.specs.declared.record.Record.TheVariants.{Put, Del};
ghost use Rattle.bw_record.specs.declared.block.Block.TheVariants.{Base};
ghost use Rattle.bw_codec.specs.Grammar.{block_bytes, IsBase};
ghost use Rattle.bw_leaf.specs.Changed.{Bytes, order, without, changed};
ghost use Rattle.bw_leaf.specs.Forwards.{kept_below};
ghost use Rattle.bw_leaf.specs.Hollow.{hollow, hollow_pair, blank};
ghost use Rattle.bw_leaf.specs.HollowPages.{row_pairs};

use crate::draft::Draft;
use crate::hollow::Hollow;
use bw_codec::{Leaf, Low, Packed, Pair, Pairs};
use bw_told::Told;
use std::alloc::{AllocError, Global};
use std::marker::Model;

/// So many pairs stand in a row at most, before one more record; then they stand in a tree. A page
/// that a store wrote never has so many.
const FEW: usize = 256;

/// No key and no value of a record is longer.
const MAX_KEY: usize = 128;

const MAX_VALUE: usize = 512;

/// The pairs of a page while it is read.
#[derive(Drop)]
pub(crate) enum Row {
    Few(Hollow),
    /// Values have the right length in a tree, and any bytes.
    Many(Draft),
}

/// A page while its blocks are read forwards, however many pairs it has.
#[derive(Drop)]
pub struct HollowDraft {
    page: u32,
    low: Low,
    row: Row,
    was: Told<Leaf>,
}

impl Model for HollowDraft {
    ghost use Rattle.bw_record.specs.declared.leaf.Leaf.{Leaf as LeafValue};

    ghost Value = { LeafValue };

    ghost use Rattle.bw_leaf.specs.HollowPages.{draft_view, IsHollowDraft};

    ghost view = { draft_view };

    ghost invariant = { IsHollowDraft };
}

/// A page whose blocks were read.
#[derive(Drop)]
pub struct HollowPage {
    page: u32,
    low: Low,
    pairs: Hollow,
    was: Told<Leaf>,
}

impl Model for HollowPage {
    ghost use Rattle.bw_record.specs.declared.leaf.Leaf.{Leaf as LeafValue};

    ghost Value = { LeafValue };

    ghost use Rattle.bw_leaf.specs.HollowPages.{page_view, IsHollowPage};

    ghost view = { page_view };

    ghost invariant = { IsHollowPage };
}

// The pairs as those of a page with any values of their lengths.
fn draft_of(alloc: Global, pairs: &Hollow) -> Result<Draft, AllocError>
    ensures { IfOk result (λ draft. hollow draft.pairs ≡ hollow pairs.now) }
{
    let mut row = Vec::with_capacity(alloc, pairs.len())?;
    for at in 0..pairs.len() {
        row.push(blank_pair(alloc, pairs, at)?)?;
    }
    Ok(Draft::of(Leaf {
        page: 1,
        low: Low::of(Vec::new(alloc)),
        pairs: Pairs::of(row),
    }))
}

fn blank_pair(alloc: Global, pairs: &Hollow, at: usize) -> Result<Pair, AllocError>
    requires { at < length pairs.now }
    ensures { IfOk result (λ pair. hollow_pair pair ≡ hollow_pair (slice_index_or pairs.now at pair)) }
{
    let value = vec![in alloc; 0u8; pairs.size(at)]?;
    pair_of(alloc, pairs.key(at), &value)
}

// A pair of these bytes. Bytes that are too long for one are refused as if memory was: no record
// has any.
fn pair_of(alloc: Global, key: &[u8], value: &[u8]) -> Result<Pair, AllocError>
    ensures { IfOk result (λ pair. pair ≡ (key.now, value.now)) }
{
    if key.is_empty() || MAX_KEY < key.len() || MAX_VALUE < value.len() {
        return Err(AllocError);
    }
    Pair::of_bytes(alloc, key, value)
}

// The keys of pairs, and the lengths of their values.
fn hollow_of(alloc: Global, pairs: &[Pair]) -> Result<Hollow, AllocError>
    ensures { IfOk result (λ h. h ≡ hollow pairs.now) }
{
    let mut row = Hollow::new(alloc);
    for pair in pairs {
        row.push(pair.key(), pair.value().len())?;
    }
    Ok(row)
}

impl Row {
    // The pairs in a tree, if one more would be too many for a row.
    fn spread(&mut self, alloc: Global) -> Result<(), AllocError>
        ensures { hollow (row_pairs self.new) ≡ hollow (row_pairs self.old) }
    {
        if let Row::Few(few) = self {
            if few.len() >= FEW {
                let many = draft_of(alloc, few)?;
                *self = Row::Many(many);
            }
        }
        Ok(())
    }

    // The pairs after a put. Of pairs at which memory was refused nothing is said.
    fn put(&mut self, alloc: Global, key: &[u8], value: &[u8]) -> Result<(), AllocError>
        ensures { OnOk result (hollow (row_pairs self.new)
            ≡ put order key.now (blank (length value.now)) (hollow (row_pairs self.old))) }
    {
        self.spread(alloc)?;
        match self {
            Row::Few(few) => few.put(key, value.len()),
            Row::Many(many) => { many.apply(&Packed::put(pair_of(alloc, key, value)?)) }
        }
    }

    // The pairs after a delete.
    fn delete(&mut self, alloc: Global, key: &[u8]) -> Result<(), AllocError>
        ensures { OnOk result (hollow (row_pairs self.new)
            ≡ without key.now (hollow (row_pairs self.old))) }
    {
        match self {
            Row::Few(few) => {
                few.delete(key);
                Ok(())
            }
            Row::Many(many) => { many.apply(&Packed::del(pair_of(alloc, key, &[])?)) }
        }
    }

    // The pairs below a key.
    fn keep_below(self, separator: &[u8]) -> Row
        ensures { hollow (row_pairs result)
            ≡ filter (λ p. is_below p.0 separator.now) (hollow (row_pairs self)) }
    {
        match self {
            Row::Few(few) => {
                let mut few = few;
                few.keep_below(separator);
                Row::Few(few)
            }
            Row::Many(many) => Row::Many(many.keep_below(separator)),
        }
    }

    // The pairs in a row, however many they are.
    fn into_few(self, alloc: Global) -> Result<Hollow, AllocError>
        ensures { IfOk result (λ h. hollow h ≡ hollow (row_pairs self)) }
    {
        match self {
            Row::Few(few) => Ok(few),
            Row::Many(many) => hollow_of(alloc, many.into_leaf()?.pairs.as_slice()),
        }
    }
}

// A page, and a pair for it.
#[derive(Clone, Copy)]
struct Change<'a> {
    was: &'a Told<Leaf>,
    key: &'a [u8],
    value: &'a [u8],
}

impl HollowPage {
    /// A page without pairs.
    pub fn empty(alloc: Global, page: u32, low: Low) -> HollowPage
        ensures { result ≡ record { page = page; low = low; pairs = [] } }
    {
        let was = Told::about(&(page, &low));
        HollowPage {
            page,
            low,
            pairs: Hollow::new(alloc),
            was,
        }
    }

    /// Adds a pair as the last one. A refusal changes nothing.
    pub fn push(&mut self, key: &[u8], value: &[u8]) -> Result<(), AllocError>
        ensures ok { OnOk result (self.new
            ≡ record self.old { pairs = self.old.pairs ++ (key.now, value.now) ∷ [] }) }
    {
        self.pairs.push(key, value.len())?;
        self.was = Told::about(&Change {
            was: &self.was,
            key,
            value,
        });
        Ok(())
    }

    /// The page's number.
    pub fn page(&self) -> u32
        ensures { result ≡ self.now.page }
    {
        self.page
    }

    /// The page's low key.
    pub fn low(&self) -> &[u8]
        ensures { result.now ≡ self.now.low }
    {
        self.low.as_slice()
    }

    /// How many pairs it has.
    pub fn count(&self) -> usize
        ensures { result ≡ length self.now.pairs }
    {
        self.pairs.len()
    }

    /// The key of a pair.
    pub fn key(&self, at: usize) -> &[u8]
        requires { at < length self.now.pairs }
        ensures { (d : Bytes × Bytes) → result.now ≡ (slice_index_or self.now.pairs at d).0 }
    {
        self.pairs.key(at)
    }

    /// How many bytes its Base has.
    pub fn base_length(&self) -> usize
        requires { IsBase 32 self.now }
        ensures value { result ≡ length (block_bytes (Base self.now)) }
        ensures small { result < 2 ^ 24 }
    {
        8 + self.low.as_slice().len() + self.pairs.spelled_length()
    }

    /// What the page is, for the proof.
    pub fn into_told(self) -> Told<Leaf>
        ensures { result.value ≡ self }
    {
        let HollowPage { was, .. } = self;
        was
    }
}

impl HollowDraft {
    /// A page that is read on.
    pub fn of(page: HollowPage) -> HollowDraft
        ensures { result ≡ page }
    {
        let HollowPage {
            page,
            low,
            pairs,
            was,
        } = page;
        HollowDraft {
            page,
            low,
            row: Row::Few(pairs),
            was,
        }
    }

    /// The page after a put. A refused growth is the only error; nothing is said of the page after
    /// it.
    pub fn put(&mut self, alloc: Global, key: &[u8], value: &[u8]) -> Result<(), AllocError>
        ensures { OnOk result (self.new ≡ changed (Put key.now value.now) self.old) }
    {
        match self.row.put(alloc, key, value) {
            Ok(()) => {
                self.was = Told::about(&Change {
                    was: &self.was,
                    key,
                    value,
                });
                Ok(())
            }
            Err(refused) => {
                self.row = Row::Few(Hollow::new(alloc));
                self.was = Told::about(&(self.page, &self.low));
                Err(refused)
            }
        }
    }

    /// The page after a delete. A refused growth is the only error; nothing is said of the page
    /// after it.
    pub fn delete(&mut self, alloc: Global, key: &[u8]) -> Result<(), AllocError>
        ensures { OnOk result (self.new ≡ changed (Del key.now) self.old) }
    {
        match self.row.delete(alloc, key) {
            Ok(()) => {
                self.was = Told::about(&(&self.was, key));
                Ok(())
            }
            Err(refused) => {
                self.row = Row::Few(Hollow::new(alloc));
                self.was = Told::about(&(self.page, &self.low));
                Err(refused)
            }
        }
    }

    /// The page without its pairs from a key on.
    pub fn keep_below(self, separator: &[u8]) -> HollowDraft
        ensures { result ≡ kept_below separator.now self }
    {
        let HollowDraft {
            page,
            low,
            row,
            was,
        } = self;
        let kept = Told::about(&(&was, separator));
        HollowDraft {
            page,
            low,
            row: row.keep_below(separator),
            was: kept,
        }
    }

    /// The page as it stands. It takes memory only if the page had very many pairs, whose refusal
    /// is the only error.
    pub fn into_page(self, alloc: Global) -> Result<HollowPage, AllocError>
        ensures { IfOk result (λ page. page ≡ self) }
    {
        let HollowDraft {
            page,
            low,
            row,
            was,
        } = self;
        let pairs = row.into_few(alloc)?;
        Ok(HollowPage {
            page,
            low,
            pairs,
            was,
        })
    }
}
