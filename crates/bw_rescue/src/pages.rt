//! Pages, read forwards over the frames that are whole.
//!
//! Each block that changes a page says where the block before it stands. If that is the last one
//! that was read, nothing of the page is missing between the two. If it is another one, a block is
//! missing, and the page stays as it was before: up to a block that sets it anew.

ghost use Rattle.std.specs.Prelude.{◌≡◌, ◌++◌, ◌∷◌, [], None, Some, false, ◌≤◌};
ghost use Rattle.std.specs.Prelude.{if◌then◌else◌, nat_eq, map, List, ℕ, IfOk, OnOk};
ghost use Rattle.std.specs.BTreeMap as tree;
ghost use Rattle.std.specs.Ordering.{nat_cmp};
ghost use Rattle.bw_record.specs.declared.block.Block.{Block as BlockValue};
ghost use Rattle.bw_leaf.specs.Forwards.{content};
ghost use Rattle.bw_rescue.specs.Pages.{gap_before, told_gap, TellsUnless, AreAll};
ghost use Rattle.bw_rescue.specs.Pages.{change_of, IsChanged, AreRead};

use crate::lost::Loss;
use bw_codec::{Block, Frame, Leaf, Ops, Place};
use bw_page::Draft;
use std::alloc::{AllocError, Global};
use std::collections::BTreeMap;

/// A page as far as it was read.
#[derive(Drop)]
struct Line {
    draft: Draft,
    /// The last block that was read of it.
    last: Place,
    /// From which frame on nothing was read, if a block is missing.
    lost: Option<u64>,
}

/// Frames that are missing between two that were read.
#[derive(Debug, Clone, Copy)]
struct Gap {
    first: u64,
    last: u64,
}

/// All pages, as far as they were read.
#[derive(Drop)]
pub struct Pages {
    lines: BTreeMap<u32, Line>,
    gaps: Vec<Gap>,
    /// The number of the last frame that was read; 0 before.
    last: u64,
    /// The greatest page that a block touched.
    greatest: u32,
}

/// What becomes of a page.
#[derive(Clone, Copy)]
enum Change<'a> {
    /// It is changed by these records.
    Records(&'a Ops),
    /// It loses all keys from this one on.
    Split(&'a [u8]),
}

// A page after a change.
fn changed(draft: Draft, change: &Change<'_>) -> Result<Draft, AllocError>
    ensures { IfOk result (λ d. d ≡ change_of change.now draft) }
{
    match change {
        Change::Records(ops) => draft.change_all(ops.as_slice()),
        Change::Split(separator) => Ok(draft.keep_below(*separator)),
    }
}

// The line of a page, taken out of the map.
fn take_line(lines: &mut BTreeMap<u32, Line>, page: u32) -> Option<Line>
    ensures line { result ≡ tree.get nat_cmp lines.old page }
    ensures others { (p : ℕ) → tree.get nat_cmp lines.new p
        ≡ (if nat_eq page p then None else tree.get nat_cmp lines.old p) }
{
    lines.remove(&page)
}

// Puts the line of a page.
fn put_line(lines: &mut BTreeMap<u32, Line>, page: u32, line: Line) -> Result<(), AllocError>
    ensures { (p : ℕ) → OnOk result (tree.get nat_cmp lines.new p
        ≡ (if nat_eq page p then Some line else tree.get nat_cmp lines.old p)) }
{
    let _ = lines.insert(page, line)?;
    Ok(())
}

impl Pages {
    /// Nothing was read yet.
    pub fn new(alloc: Global) -> Pages
        ensures read { AreRead [] result.lines }
        ensures gaps { (result.last ≡ 0) × (result.gaps.items ≡ []) }
    {
        Pages {
            lines: BTreeMap::new(alloc),
            gaps: Vec::new(alloc),
            last: 0,
            greatest: 0,
        }
    }

    /// The first frame after this one that is missing; its successor if none is known.
    fn missing_after(&self, frame: u64) -> u64 {
        let next = frame.saturating_add(1);
        for gap in self.gaps.as_slice() {
            if gap.last >= next {
                return gap.first.max(next);
            }
        }
        next
    }

    // A block sets a page.
    fn set(&mut self, place: Place, leaf: Leaf) -> Result<(), AllocError>
        ensures lines { (p : ℕ) → OnOk result (tree.get nat_cmp self.new.lines p
            ≡ (if nat_eq leaf.page p then Some (record { draft = leaf; last = place; lost = None })
            else tree.get nat_cmp self.old.lines p)) }
        ensures same { (self.new.gaps ≡ self.old.gaps) × (self.new.last ≡ self.old.last) }
    {
        let page = leaf.page;
        self.greatest = self.greatest.max(page);
        let line = Line {
            draft: Draft::of(leaf),
            last: place,
            lost: None,
        };
        put_line(&mut self.lines, page, line)
    }

    // From which frame on a page is lost, if a block that stands after another one does not follow
    // the last one that was read of it.
    fn lost_from(&self, last: Place, lost: Option<u64>, back: Place) -> Option<u64>
        ensures { result ≡ None → lost ≡ None }
    {
        if lost.is_some() {
            return lost;
        }
        if last.frame != back.frame {
            return Some(self.missing_after(last.frame));
        }
        if last.index != back.index {
            // What is missing between the two stood in that frame.
            return Some(last.frame);
        }
        None
    }

    // The line of a page after a block that changes it, and that stands after another one.
    fn after(
        &self,
        line: Line,
        place: Place,
        back: Place,
        change: &Change<'_>,
    ) -> Result<Line, AllocError>
        ensures { IfOk result (λ new. IsChanged change.now (Some line) (Some new)) }
    {
        let Line { draft, last, lost } = line;
        match self.lost_from(last, lost, back) {
            Some(frame) => Ok(Line {
                draft,
                last,
                lost: Some(frame),
            }),
            None => Ok(Line {
                draft: changed(draft, change)?,
                last: place,
                lost: None,
            }),
        }
    }

    // A block changes a page, after another block. Nothing is known of one that was not set.
    fn change(
        &mut self,
        place: Place,
        page: u32,
        back: Place,
        change: &Change<'_>,
    ) -> Result<(), AllocError>
        ensures page { OnOk result (IsChanged change.now (tree.get nat_cmp self.old.lines page)
            (tree.get nat_cmp self.new.lines page)) }
        ensures others { (p : ℕ) → nat_eq page p ≡ false → OnOk result
            (tree.get nat_cmp self.new.lines p ≡ tree.get nat_cmp self.old.lines p) }
        ensures same { (self.new.gaps ≡ self.old.gaps) × (self.new.last ≡ self.old.last) }
    {
        self.greatest = self.greatest.max(page);
        match take_line(&mut self.lines, page) {
            Some(line) => {
                let line = self.after(line, place, back, change)?;
                put_line(&mut self.lines, page, line)
            }
            None => Ok(()),
        }
    }

    // A block is read.
    fn read_block(&mut self, place: Place, block: Block) -> Result<(), AllocError>
        ensures read { (done : List BlockValue) → AreRead done self.old.lines
            → OnOk result (AreRead (done ++ block ∷ []) self.new.lines) }
        ensures same { (self.new.gaps ≡ self.old.gaps) × (self.new.last ≡ self.old.last) }
    {
        match block {
            Block::Base(leaf) => self.set(place, leaf),
            Block::Delta { page, back, ops } => {
                self.change(place, page, back, &Change::Records(&ops))
            }
            Block::Split { page, back, upper } => {
                self.change(place, page, back, &Change::Split(upper.low.as_slice()))?;
                self.set(place, upper)
            }
        }
    }

    // Notes the frames that are missing before this one.
    fn note_gap(&mut self, number: u64) -> Result<(), AllocError>
        ensures lines { OnOk result (self.new.lines ≡ self.old.lines) }
        ensures last { OnOk result (self.new.last ≡ number) }
        ensures gap { OnOk result (self.new.gaps.items
            ≡ self.old.gaps.items ++ gap_before self.old.last number) }
    {
        let next = self.last.saturating_add(1);
        if self.last > 0 && number > next {
            self.gaps.push(Gap {
                first: next,
                last: number.saturating_sub(1),
            })?;
        }
        self.last = number;
        Ok(())
    }

    /// Reads the next whole frame, whose number is above those of all that were read. A page of
    /// which no block was missing is what the blocks make it, read forwards. The frames between the
    /// last one and this one are noted as a gap. A refused growth is the only error.
    pub fn read(&mut self, frame: Frame) -> Result<(), AllocError>
        ensures pages { (done : List BlockValue) → AreRead done self.old.lines
            → OnOk result (AreRead (done ++ frame.blocks) self.new.lines) }
        ensures last { OnOk result (self.new.last ≡ frame.number) }
        ensures gap { OnOk result (self.new.gaps.items
            ≡ self.old.gaps.items ++ gap_before self.old.last frame.number) }
    {
        let Frame { number, blocks } = frame;
        self.note_gap(number)?;
        let mut index = 0u32;
        for block in blocks.into_vec() {
            let place = Place {
                frame: number,
                index,
            };
            self.read_block(place, block)?;
            index = index.saturating_add(1);
        }
        Ok(())
    }

    /// Adds which frames are missing.
    pub fn add_gaps(&self, losses: &mut Vec<Loss>) -> Result<(), AllocError>
        ensures { OnOk result
            (losses.new.items ≡ losses.old.items ++ map told_gap self.now.gaps.items) }
    {
        for gap in self.gaps.as_slice() {
            losses.push(Loss::Frames {
                first: gap.first,
                last: gap.last,
            })?;
        }
        Ok(())
    }

    /// Ends the reading: the pages, by their numbers; and adds what is missing of each. If nothing
    /// is, they are the pages of all blocks that were read. A refused growth is the only error.
    pub fn end(self, losses: &mut Vec<Loss>) -> Result<Vec<Leaf>, AllocError>
        ensures { (done : List BlockValue) → AreRead done self.lines → content 0 done ≡ None
            → IfOk result (λ leaves. losses.new.items ≡ losses.old.items
            → AreAll done self.lines leaves.items) }
    {
        let Pages {
            lines,
            gaps,
            last: _,
            greatest,
        } = self;
        let mut leaves = Vec::new(*gaps.allocator());
        let mut next = 1u32;
        for (page, line) in lines {
            bring_back(&mut leaves, losses, next, page, line)?;
            next = page.saturating_add(1);
        }
        add_missing(losses, next, greatest.saturating_add(1))?;
        Ok(leaves)
    }
}

// Adds a page, and what is missing before it and of it.
fn bring_back(
    leaves: &mut Vec<Leaf>,
    losses: &mut Vec<Loss>,
    next: u32,
    page: u32,
    line: Line,
) -> Result<(), AllocError>
    ensures leaves { OnOk result (leaves.new.items ≡ leaves.old.items ++ line.draft ∷ []) }
    ensures losses { OnOk result
        (TellsUnless ((page ≤ next) × (line.lost ≡ None)) losses.old.items losses.new.items) }
{
    add_missing(losses, next, page)?;
    let Line {
        draft,
        last: _,
        lost,
    } = line;
    add_lost(losses, page, lost)?;
    leaves.push(draft.into_leaf()?)?;
    Ok(())
}

// Adds from which frame on a page is lost, if it is.
fn add_lost(losses: &mut Vec<Loss>, page: u32, lost: Option<u64>) -> Result<(), AllocError>
    ensures { OnOk result (TellsUnless (lost ≡ None) losses.old.items losses.new.items) }
{
    match lost {
        Some(frame) => {
            losses.push(Loss::Page { page, frame })?;
            Ok(())
        }
        None => Ok(()),
    }
}

// Adds the pages from one on and below another, of which nothing is there.
fn add_missing(losses: &mut Vec<Loss>, first: u32, below: u32) -> Result<(), AllocError>
    ensures { OnOk result (TellsUnless (below ≤ first) losses.old.items losses.new.items) }
{
    if first < below {
        losses.push(Loss::Pages {
            first,
            last: below.saturating_sub(1),
        })?;
    }
    Ok(())
}
