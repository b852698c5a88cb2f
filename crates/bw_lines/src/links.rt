//! All pages, read forwards over the blocks of all frames, and the links checked on the way.
//!
//! A map has a line for each page that was touched, so it grows by the blocks that are there,
//! whatever page numbers stand in them.

ghost use Rattle.std.specs.Prelude.{◌≡◌, ◌∷◌, ◌++◌, [], Some, None, Ok, true, false, ◌<◌, ◌^◌, length, is_some, OnOk, IfOk, IfErr, if◌then◌else◌, nat_eq, List, ℕ};
ghost use Rattle.std.specs.Option.{option_map};
ghost use Rattle.std.specs.BTreeMap as tree;
ghost use Rattle.std.specs.Ordering.{nat_cmp};
ghost use Rattle.bw_leaf.specs.Changed.{all_changed};
ghost use Rattle.bw_leaf.specs.Forwards.{kept_below};
ghost use Rattle.bw_record.specs.declared.block.Block.TheVariants.{Base as BlockBase, Split as BlockSplit};
ghost use Rattle.bw_log.specs.Places.{is_place, is_back, fault_at, fault_of, placed, bad_link};
ghost use Rattle.bw_lines.specs.Reading.{place_in, at_in, leaf_in, changed_by, AreLines, IsRead, LinkFaultIs, IsUnlinked};
ghost use Rattle.bw_record.specs.declared.block.Place.{Place as PlaceValue};
ghost use Rattle.bw_record.specs.declared.block.Block.{Block as BlockValue};

use bw_codec::{Block, Leaf, Packed, Place};
use bw_log::PageAt;
use bw_page::Draft;
use std::alloc::{AllocError, Global};
use std::collections::BTreeMap;
use std::marker::Model;

/// A page that was touched: where its last blocks stand, and what it is if it was set.
#[derive(Drop)]
pub struct Line {
    pub at: PageAt,
    pub leaf: Option<Leaf>,
}

/// A line while blocks are read: the page may hold far more pairs than in the end.
#[derive(Drop)]
pub struct DraftLine {
    at: PageAt,
    draft: Option<Draft>,
}

impl Model for DraftLine {
    ghost use Rattle.bw_lines.specs.declared.links.Line.{Line as LineValue};

    ghost Value = { LineValue };

    ghost view = { λ l. record { at = l.at; leaf = l.draft } };
}

impl DraftLine {
    // Whether a block of the page may link back so.
    fn is_last(&self, back: Place) -> bool
        ensures { result ≡ is_place self.now.at.place back }
    {
        self.at.place.frame == back.frame && self.at.place.index == back.index
    }

    // The line after the records of a Delta at a place.
    fn change(&mut self, place: Place, records: &[Packed]) -> Result<(), AllocError>
        ensures { OnOk result (self.new ≡ changed_by place records.now (Some self.old)) }
    {
        change_some(&mut self.draft, records)?;
        self.at = self.at.changed(place);
        Ok(())
    }
}

// The records of a Delta, if the page was set: it stays where it is.
fn change_some(draft: &mut Option<Draft>, records: &[Packed]) -> Result<(), AllocError>
    ensures { OnOk result (draft.new ≡ option_map (all_changed records.now) draft.old) }
{
    match draft {
        Some(draft) => draft.apply_all(records),
        None => Ok(()),
    }
}

fn keep_some(draft: Option<Draft>, separator: &[u8]) -> Option<Draft>
    ensures { result ≡ option_map (kept_below separator.now) draft }
{
    match draft {
        Some(draft) => Some(draft.keep_below(separator)),
        None => None,
    }
}

// What the map had of a page, taken out of it.
pub fn take_line(lines: &mut BTreeMap<u32, DraftLine>, page: u32) -> (PageAt, Option<Draft>)
    ensures at { result.0 ≡ at_in (tree.get nat_cmp lines.old page) }
    ensures leaf { result.1 ≡ leaf_in (tree.get nat_cmp lines.old page) }
    ensures others { (p : ℕ) → tree.get nat_cmp lines.new p
        ≡ (if nat_eq page p then None else tree.get nat_cmp lines.old p) }
{
    match lines.remove(&page) {
        Some(line) => {
            let DraftLine { at, draft } = line;
            (at, draft)
        }
        None => (PageAt::NONE, None),
    }
}

// Puts a line into the map.
fn put_line(
    lines: &mut BTreeMap<u32, DraftLine>,
    page: u32,
    line: DraftLine,
) -> Result<(), AllocError>
    ensures { (p : ℕ) → OnOk result (tree.get nat_cmp lines.new p
        ≡ (if nat_eq page p then Some line else tree.get nat_cmp lines.old p)) }
{
    let _ = lines.insert(page, line)?;
    Ok(())
}

// Changes the line of a page by the records of a Delta, if the map has one; whether it does. The
// line is looked for once, for its link and for its change.
fn change_there(
    lines: &mut BTreeMap<u32, DraftLine>,
    first: u64,
    page: u32,
    back: Place,
    place: Place,
    records: &[Packed],
) -> Result<bool, ReadFault>
    ensures known { IfOk result (λ known. known ≡ is_some (tree.get nat_cmp lines.old page)) }
    ensures linked { IfOk result (λ _. is_back first (place_in (tree.get nat_cmp lines.old page)) back
        ≡ true) }
    ensures value { result ≡ Ok true → (p : ℕ) → tree.get nat_cmp lines.new p
        ≡ (if nat_eq page p
        then Some (changed_by place records.now (tree.get nat_cmp lines.old page))
        else tree.get nat_cmp lines.old p) }
    ensures none { result ≡ Ok false → lines.new ≡ lines.old }
    ensures fault { IfErr result
        (IsUnlinked first page (place_in (tree.get nat_cmp lines.old page)) back) }
{
    match lines.get_mut(&page) {
        Some(line) => {
            if !line.is_last(back) {
                return Err(ReadFault::BadLink(page));
            }
            line.change(place, records)?;
            Ok(true)
        }
        None => {
            if 0 < back.frame && back.frame < first {
                Ok(false)
            } else {
                Err(ReadFault::BadLink(page))
            }
        }
    }
}

// A Delta: the line of its page stays where it is in the map.
fn read_delta(
    lines: &mut BTreeMap<u32, DraftLine>,
    first: u64,
    page: u32,
    back: Place,
    place: Place,
    records: &[Packed],
) -> Result<(), ReadFault>
    ensures linked { OnOk result (is_back first (place_in (tree.get nat_cmp lines.old page)) back
        ≡ true) }
    ensures lines { (p : ℕ) → OnOk result (tree.get nat_cmp lines.new p
        ≡ (if nat_eq page p
        then Some (changed_by place records.now (tree.get nat_cmp lines.old page))
        else tree.get nat_cmp lines.old p)) }
    ensures fault { IfErr result
        (IsUnlinked first page (place_in (tree.get nat_cmp lines.old page)) back) }
{
    if change_there(lines, first, page, back, place, records)? {
        return Ok(());
    }
    let at = PageAt::NONE.changed(place);
    put_line(lines, page, DraftLine { at, draft: None })?;
    Ok(())
}

// A Base: a page that was set.
fn read_base(
    lines: &mut BTreeMap<u32, DraftLine>,
    place: Place,
    leaf: &Leaf,
) -> Result<(), AllocError>
    ensures { OnOk result (AreLines lines.old ((place, BlockBase leaf.now) ∷ []) lines.new) }
{
    let line = DraftLine {
        at: PageAt::set(place),
        draft: Some(Draft::of(leaf.copy()?)),
    };
    put_line(lines, leaf.page, line)
}

// A Split: its page loses its upper pairs, which a new page has.
fn read_split(
    lines: &mut BTreeMap<u32, DraftLine>,
    place: Place,
    page: u32,
    upper: &Leaf,
) -> Result<(), AllocError>
    ensures { (back : PlaceValue) → OnOk result
        (AreLines lines.old ((place, BlockSplit page back upper.now) ∷ []) lines.new) }
{
    let (at, draft) = take_line(lines, page);
    let draft = keep_some(draft, upper.low.as_slice());
    let at = at.changed(place);
    put_line(lines, page, DraftLine { at, draft })?;
    let line = DraftLine {
        at: PageAt::set(place),
        draft: Some(Draft::of(upper.copy()?)),
    };
    put_line(lines, upper.page, line)
}

/// Whether a block of this page may link back so.
pub fn links_back(lines: &BTreeMap<u32, DraftLine>, first: u64, page: u32, back: Place) -> bool
    ensures { result ≡ is_back first (place_in (tree.get nat_cmp lines.now page)) back }
{
    match lines.get(&page) {
        Some(line) => line.is_last(back),
        None => 0 < back.frame && back.frame < first,
    }
}

/// Why blocks cannot be read.
#[derive(Clone, Copy)]
pub enum ReadFault {
    NoMemory,
    /// A block of this page does not link back to the one before it.
    BadLink(u32),
}

impl From<AllocError> for ReadFault {
    ghost use Rattle.bw_lines.specs.declared.links.ReadFault.TheVariants.{NoMemory};

    ghost from_gives = { λ _ fault. fault ≡ NoMemory };

    fn from(_error: AllocError) -> ReadFault {
        ReadFault::NoMemory
    }
}

// The page, if a block of it may not link back so.
fn wrong_back(lines: &BTreeMap<u32, DraftLine>, first: u64, page: u32, back: Place) -> Option<u32>
    ensures { (done : List (PlaceValue × BlockValue)) → IsRead first done lines.now
        → result ≡ fault_at first done page back }
{
    if links_back(lines, first, page, back) {
        None
    } else {
        Some(page)
    }
}

/// One more block, whose link is looked at first.
pub fn read_linked(
    lines: &mut BTreeMap<u32, DraftLine>,
    first: u64,
    place: Place,
    block: &Block,
) -> Result<(), ReadFault>
    ensures ok { (done : List (PlaceValue × BlockValue)) → IsRead first done lines.old
        → OnOk result (IsRead first (done ++ (place, block.now) ∷ []) lines.new) }
    ensures fault { (done : List (PlaceValue × BlockValue)) → IsRead first done lines.old
        → IfErr result (LinkFaultIs (fault_of first done block.now)) }
{
    match block {
        Block::Delta { page, back, ops } => {
            read_delta(lines, first, *page, *back, place, ops.as_slice())
        }
        Block::Base(leaf) => {
            read_base(lines, place, leaf)?;
            Ok(())
        }
        Block::Split { page, back, upper } => match wrong_back(lines, first, *page, *back) {
            Some(page) => Err(ReadFault::BadLink(page)),
            None => {
                read_split(lines, place, *page, upper)?;
                Ok(())
            }
        },
    }
}

/// The blocks of one more frame.
pub fn read_blocks_linked(
    lines: &mut BTreeMap<u32, DraftLine>,
    first: u64,
    number: u64,
    blocks: Vec<Block>,
) -> Result<(), ReadFault>
    requires { length blocks.items < 2 ^ 32 }
    ensures ok { (done : List (PlaceValue × BlockValue)) → IsRead first done lines.old
        → OnOk result (IsRead first (done ++ placed number 0 blocks.items) lines.new) }
    ensures fault { (done rest : List (PlaceValue × BlockValue)) → IsRead first done lines.old
        → IfErr result (LinkFaultIs
        (bad_link first [] (done ++ (placed number 0 blocks.items ++ rest)))) }
{
    let items = blocks.as_slice();
    let mut index: u32 = 0;
    for block in items {
        let place = Place {
            frame: number,
            index,
        };
        read_linked(lines, first, place, block)?;
        index += 1;
    }
    Ok(())
}
