//! All pages, read forwards over the blocks of all frames where their bytes lie, and the links
//! checked on the way.
//!
//! A map has a line for each page that was touched, so it grows by the blocks that are there,
//! whatever page numbers stand in them. Of a page it keeps the keys and how long the values are.

ghost use Rattle.std.specs.Prelude.{◌≡◌, ◌∷◌, ◌++◌, [], Some, None, Ok, true, false, ◌<◌, ◌^◌, length, is_some, OnOk, IfOk, IfErr, if◌then◌else◌, nat_eq, List, ℕ};
ghost use Rattle.std.specs.Option.{option_map};
ghost use Rattle.std.specs.BTreeMap as tree;
ghost use Rattle.std.specs.Ordering.{nat_cmp};
ghost use Rattle.bw_leaf.specs.Changed.{all_changed};
ghost use Rattle.bw_leaf.specs.Forwards.{kept_below};
ghost use Rattle.bw_record.specs.declared.block.Block.TheVariants.{Delta as BlockDelta, Base as BlockBase, Split as BlockSplit};
ghost use Rattle.bw_record.specs.declared.leaf.Leaf.{Leaf as LeafValue};
ghost use Rattle.bw_record.specs.declared.record.Record.{Record};
ghost use Rattle.bw_codec.specs.Grammar.{IsFirst};
ghost use Rattle.bw_found.specs.Lent.{AreOps, IsDeltaAfter, IsBaseAfter, IsSplitAfter, IsBody};
ghost use Rattle.bw_log.specs.Places.{is_place, is_back, fault_at, fault_of, placed, bad_link};
ghost use Rattle.bw_lines.specs.Reading.{place_in, at_in, leaf_in, changed_by, AreLines, IsRead, LinkFaultIs, IsUnlinked};
ghost use Rattle.bw_record.specs.declared.block.Place.{Place as PlaceValue};
ghost use Rattle.bw_record.specs.declared.block.Block.{Block as BlockValue};

use crate::lent::{change_by, page_of};
use bw_codec::{Low, Outline, Place, lent_base, lent_delta, lent_split};
use bw_leaf::{HollowDraft, HollowPage};
use bw_lines::ReadFault;
use bw_log::PageAt;
use std::alloc::{AllocError, Global};
use std::collections::BTreeMap;
use std::marker::Model;

/// A page that was touched, once all blocks were read: where its last blocks stand, and what it is
/// if it was set.
#[derive(Drop)]
pub struct Found {
    pub at: PageAt,
    pub page: Option<HollowPage>,
}

impl Model for Found {
    ghost use Rattle.bw_lines.specs.declared.links.Line.{Line as LineValue};

    ghost Value = { LineValue };

    ghost view = { λ l. record { at = l.at; leaf = l.page } };
}

/// A page that was touched, while blocks are read: it may hold far more pairs than in the end.
#[derive(Drop)]
pub struct Touched {
    at: PageAt,
    draft: Option<HollowDraft>,
}

impl Model for Touched {
    ghost use Rattle.bw_lines.specs.declared.links.Line.{Line as LineValue};

    ghost Value = { LineValue };

    ghost view = { λ l. record { at = l.at; leaf = l.draft } };
}

impl Touched {
    /// The page as it is when all blocks were read. It takes memory only if it has very many pairs.
    pub fn into_found(self, alloc: Global) -> Result<Found, AllocError>
        ensures { IfOk result (λ line. line ≡ self) }
    {
        let Touched { at, draft } = self;
        let page = match draft {
            Some(draft) => Some(draft.into_page(alloc)?),
            None => None,
        };
        Ok(Found { at, page })
    }

    // Whether a block of the page may link back so.
    fn is_last(&self, back: Place) -> bool
        ensures { result ≡ is_place self.now.at.place back }
    {
        self.at.place.frame == back.frame && self.at.place.index == back.index
    }

    // The line after the records of a Delta at a place, of which there are so many.
    fn change(
        &mut self,
        alloc: Global,
        place: Place,
        version: u16,
        count: u16,
        bytes: &[u8],
    ) -> Result<(), AllocError>
        ensures { (ops : List Record) → AreOps version count bytes.now ops
            → OnOk result (self.new ≡ changed_by place ops (Some self.old)) }
    {
        change_some(alloc, &mut self.draft, version, count, bytes)?;
        self.at = self.at.changed(place);
        Ok(())
    }
}

// The records of a Delta, if the page was set: it stays where it is.
fn change_some(
    alloc: Global,
    draft: &mut Option<HollowDraft>,
    version: u16,
    count: u16,
    bytes: &[u8],
) -> Result<(), AllocError>
    ensures { (ops : List Record) → AreOps version count bytes.now ops
        → OnOk result (draft.new ≡ option_map (all_changed ops) draft.old) }
{
    match draft {
        Some(draft) => change_by(alloc, draft, version, count, bytes),
        None => Ok(()),
    }
}

fn keep_some(draft: Option<HollowDraft>, separator: &[u8]) -> Option<HollowDraft>
    ensures { result ≡ option_map (kept_below separator.now) draft }
{
    match draft {
        Some(draft) => Some(draft.keep_below(separator)),
        None => None,
    }
}

// A Delta of a page at a place, with so many records at the front of the bytes.
#[derive(Clone, Copy)]
struct Delta<'a> {
    page: u32,
    back: Place,
    place: Place,
    version: u16,
    count: u16,
    bytes: &'a [u8],
}

// What the map had of a page, taken out of it.
pub fn take_line(lines: &mut BTreeMap<u32, Touched>, page: u32) -> (PageAt, Option<HollowDraft>)
    ensures at { result.0 ≡ at_in (tree.get nat_cmp lines.old page) }
    ensures leaf { result.1 ≡ leaf_in (tree.get nat_cmp lines.old page) }
    ensures others { (p : ℕ) → tree.get nat_cmp lines.new p
        ≡ (if nat_eq page p then None else tree.get nat_cmp lines.old p) }
{
    match lines.remove(&page) {
        Some(line) => {
            let Touched { at, draft } = line;
            (at, draft)
        }
        None => (PageAt::NONE, None),
    }
}

// Puts a line into the map.
fn put_line(lines: &mut BTreeMap<u32, Touched>, page: u32, line: Touched) -> Result<(), AllocError>
    ensures { (p : ℕ) → OnOk result (tree.get nat_cmp lines.new p
        ≡ (if nat_eq page p then Some line else tree.get nat_cmp lines.old p)) }
{
    let _ = lines.insert(page, line)?;
    Ok(())
}

// Changes the line of a page by the records of a Delta, if the map has one; whether it does. The
// line is looked for once, for its link and for its change.
fn change_there(
    alloc: Global,
    lines: &mut BTreeMap<u32, Touched>,
    first: u64,
    delta: Delta,
) -> Result<bool, ReadFault>
    ensures known { IfOk result (λ known.
        known ≡ is_some (tree.get nat_cmp lines.old delta.entry.page)) }
    ensures linked { IfOk result (λ _.
        is_back first (place_in (tree.get nat_cmp lines.old delta.entry.page)) delta.entry.back
        ≡ true) }
    ensures value { (ops : List Record)
        → AreOps delta.entry.version delta.entry.count delta.entry.bytes.now ops
        → result ≡ Ok true → (p : ℕ) → tree.get nat_cmp lines.new p
        ≡ (if nat_eq delta.entry.page p
        then Some (changed_by delta.entry.place ops (tree.get nat_cmp lines.old delta.entry.page))
        else tree.get nat_cmp lines.old p) }
    ensures none { result ≡ Ok false → lines.new ≡ lines.old }
    ensures fault { IfErr result (IsUnlinked first delta.entry.page
        (place_in (tree.get nat_cmp lines.old delta.entry.page)) delta.entry.back) }
{
    match lines.get_mut(&delta.page) {
        Some(line) => {
            if !line.is_last(delta.back) {
                return Err(ReadFault::BadLink(delta.page));
            }
            line.change(alloc, delta.place, delta.version, delta.count, delta.bytes)?;
            Ok(true)
        }
        None => {
            if 0 < delta.back.frame && delta.back.frame < first {
                Ok(false)
            } else {
                Err(ReadFault::BadLink(delta.page))
            }
        }
    }
}

// A Delta whose records stay where they lie: the line of its page stays where it is in the map.
fn read_delta(
    alloc: Global,
    lines: &mut BTreeMap<u32, Touched>,
    first: u64,
    delta: Delta,
) -> Result<(), ReadFault>
    ensures linked { OnOk result
        (is_back first (place_in (tree.get nat_cmp lines.old delta.entry.page)) delta.entry.back
        ≡ true) }
    ensures lines { (ops : List Record)
        → AreOps delta.entry.version delta.entry.count delta.entry.bytes.now ops
        → (p : ℕ) → OnOk result (tree.get nat_cmp lines.new p
        ≡ (if nat_eq delta.entry.page p
        then Some (changed_by delta.entry.place ops (tree.get nat_cmp lines.old delta.entry.page))
        else tree.get nat_cmp lines.old p)) }
    ensures fault { IfErr result (IsUnlinked first delta.entry.page
        (place_in (tree.get nat_cmp lines.old delta.entry.page)) delta.entry.back) }
{
    if change_there(alloc, lines, first, delta)? {
        return Ok(());
    }
    let at = PageAt::NONE.changed(delta.place);
    put_line(lines, delta.page, Touched { at, draft: None })?;
    Ok(())
}

// A Base: a page that was set.
fn read_base(
    lines: &mut BTreeMap<u32, Touched>,
    place: Place,
    leaf: HollowPage,
) -> Result<(), AllocError>
    ensures { OnOk result (AreLines lines.old ((place, BlockBase leaf) ∷ []) lines.new) }
{
    let page = leaf.page();
    let line = Touched {
        at: PageAt::set(place),
        draft: Some(HollowDraft::of(leaf)),
    };
    put_line(lines, page, line)
}

// A Split: its page loses its upper pairs, which a new page has.
fn read_split(
    lines: &mut BTreeMap<u32, Touched>,
    place: Place,
    page: u32,
    upper: HollowPage,
) -> Result<(), AllocError>
    ensures { (back : PlaceValue) → OnOk result
        (AreLines lines.old ((place, BlockSplit page back upper) ∷ []) lines.new) }
{
    let (at, draft) = take_line(lines, page);
    let draft = keep_some(draft, upper.low());
    let at = at.changed(place);
    put_line(lines, page, Touched { at, draft })?;
    let made = upper.page();
    let line = Touched {
        at: PageAt::set(place),
        draft: Some(HollowDraft::of(upper)),
    };
    put_line(lines, made, line)
}

/// Whether a block of this page may link back so.
pub fn links_back(lines: &BTreeMap<u32, Touched>, first: u64, page: u32, back: Place) -> bool
    ensures { result ≡ is_back first (place_in (tree.get nat_cmp lines.now page)) back }
{
    match lines.get(&page) {
        Some(line) => line.is_last(back),
        None => 0 < back.frame && back.frame < first,
    }
}

// The page, if a block of it may not link back so.
fn wrong_back(lines: &BTreeMap<u32, Touched>, first: u64, page: u32, back: Place) -> Option<u32>
    ensures { (done : List (PlaceValue × BlockValue)) → IsRead first done lines.now
        → result ≡ fault_at first done page back }
{
    if links_back(lines, first, page, back) {
        None
    } else {
        Some(page)
    }
}

// A Delta, after its tag.
fn read_delta_at(
    alloc: Global,
    lines: &mut BTreeMap<u32, Touched>,
    first: u64,
    place: Place,
    version: u16,
    bytes: &[u8],
) -> Result<(), ReadFault>
    ensures ok { (page : ℕ) (back : PlaceValue) (ops : List Record)
        (done : List (PlaceValue × BlockValue)) → IsDeltaAfter version page back ops bytes.now
        → IsRead first done lines.old
        → OnOk result (IsRead first (done ++ (place, BlockDelta page back ops) ∷ []) lines.new) }
    ensures fault { (page : ℕ) (back : PlaceValue) (ops : List Record)
        (done : List (PlaceValue × BlockValue)) → IsDeltaAfter version page back ops bytes.now
        → IsRead first done lines.old
        → IfErr result (LinkFaultIs (fault_of first done (BlockDelta page back ops))) }
{
    match lent_delta(bytes) {
        Ok((page, back, count, bytes)) => {
            let delta = Delta {
                page,
                back,
                place,
                version,
                count,
                bytes,
            };
            read_delta(alloc, lines, first, delta)
        }
        Err(_) => Err(ReadFault::NoMemory),
    }
}

// A Base, after its tag.
fn read_base_at(
    alloc: Global,
    lines: &mut BTreeMap<u32, Touched>,
    place: Place,
    version: u16,
    bytes: &[u8],
) -> Result<(), AllocError>
    ensures { (m : ℕ) (leaf : LeafValue) → IsBaseAfter version m leaf bytes.now
        → OnOk result (AreLines lines.old ((place, BlockBase leaf) ∷ []) lines.new) }
{
    match lent_base(version, bytes) {
        Ok((page, low, count, bytes)) => {
            let low = Low::of(Vec::from_slice(alloc, low)?);
            let leaf = page_of(alloc, version, page, low, count, bytes)?;
            read_base(lines, place, leaf)
        }
        Err(_) => Err(AllocError),
    }
}

// A Split, after its tag.
fn read_split_at(
    alloc: Global,
    lines: &mut BTreeMap<u32, Touched>,
    first: u64,
    place: Place,
    version: u16,
    bytes: &[u8],
) -> Result<(), ReadFault>
    ensures ok { (m page : ℕ) (back : PlaceValue) (upper : LeafValue)
        (done : List (PlaceValue × BlockValue)) → IsSplitAfter version m page back upper bytes.now
        → IsRead first done lines.old
        → OnOk result (IsRead first (done ++ (place, BlockSplit page back upper) ∷ []) lines.new) }
    ensures fault { (m page : ℕ) (back : PlaceValue) (upper : LeafValue)
        (done : List (PlaceValue × BlockValue)) → IsSplitAfter version m page back upper bytes.now
        → IsRead first done lines.old
        → IfErr result (LinkFaultIs (fault_of first done (BlockSplit page back upper))) }
{
    match lent_split(version, bytes) {
        Ok((page, back, low, made, count, bytes)) => {
            match wrong_back(lines, first, page, back) {
                Some(page) => Err(ReadFault::BadLink(page)),
                None => {
                    let low = Low::of(Vec::from_slice(alloc, low)?);
                    let upper = page_of(alloc, version, made, low, count, bytes)?;
                    read_split(lines, place, page, upper)?;
                    Ok(())
                }
            }
        }
        Err(_) => Err(ReadFault::NoMemory),
    }
}

/// One more block, which stands at the front of the bytes, and whose link is looked at first. The
/// bytes are known to be lawful in this format.
pub fn read_linked(
    alloc: Global,
    lines: &mut BTreeMap<u32, Touched>,
    first: u64,
    place: Place,
    version: u16,
    bytes: &[u8],
) -> Result<(), ReadFault>
    ensures ok { (m : ℕ) (block : BlockValue) (done : List (PlaceValue × BlockValue))
        → m < 2 ^ 16 → IsFirst version m bytes.now block → IsRead first done lines.old
        → OnOk result (IsRead first (done ++ (place, block) ∷ []) lines.new) }
    ensures fault { (m : ℕ) (block : BlockValue) (done : List (PlaceValue × BlockValue))
        → m < 2 ^ 16 → IsFirst version m bytes.now block → IsRead first done lines.old
        → IfErr result (LinkFaultIs (fault_of first done block)) }
{
    match bytes {
        [] => Err(ReadFault::NoMemory),
        [tag, rest @ ..] => {
            if *tag == 1 {
                read_delta_at(alloc, lines, first, place, version, rest)
            } else if *tag == 2 {
                read_base_at(alloc, lines, place, version, rest)?;
                Ok(())
            } else if *tag == 3 {
                read_split_at(alloc, lines, first, place, version, rest)
            } else {
                Err(ReadFault::NoMemory)
            }
        }
    }
}

/// The blocks of one more frame, whose body these bytes are. They are known to be lawful in this
/// format.
pub fn read_blocks_linked(
    alloc: Global,
    lines: &mut BTreeMap<u32, Touched>,
    first: u64,
    number: u64,
    version: u16,
    body: &[u8],
) -> Result<(), ReadFault>
    requires { length body.now < 2 ^ 32 }
    ensures ok { (m : ℕ) (blocks : List BlockValue) (done : List (PlaceValue × BlockValue))
        → IsBody version m blocks body.now → IsRead first done lines.old
        → OnOk result (IsRead first (done ++ placed number 0 blocks) lines.new) }
    ensures fault { (m : ℕ) (blocks : List BlockValue) (done rest : List (PlaceValue × BlockValue))
        → IsBody version m blocks body.now → IsRead first done lines.old
        → IfErr result (LinkFaultIs (bad_link first [] (done ++ (placed number 0 blocks ++ rest)))) }
{
    let mut rest = body;
    let mut index: u32 = 0;
    'next: while !rest.is_empty() {
        let Some(outline) = Outline::read(version, rest) else {
            return Err(ReadFault::NoMemory);
        };
        if rest.len() < outline.len || outline.len == 0 {
            return Err(ReadFault::NoMemory);
        }
        let place = Place {
            frame: number,
            index,
        };
        read_linked(alloc, lines, first, place, version, rest)?;
        rest = &rest[outline.len..];
        index += 1;
    }
    Ok(())
}
