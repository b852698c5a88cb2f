//! The whole frames of some segments, read in the order of their numbers.

ghost use Rattle.std.specs.Prelude.{◌≡◌, ◌∷◌, [], ℕ, Some, slice_get, IfOk, OnOk};
ghost use Rattle.std.specs.BTreeMap as tree;
ghost use Rattle.std.specs.Ordering.{nat_cmp};
ghost use Rattle.bw_record.specs.declared.block.Frame.{Frame as FrameValue};
ghost use Rattle.bw_rescue.specs.declared.held.Held.{Held as HeldValue};
ghost use Rattle.bw_rescue.specs.Taken.{StandsAt};
ghost use Rattle.bw_rescue.specs.Gathered.{first_of, or_at, place_of};
ghost use Rattle.bw_rescue.specs.Gathered.{IsReadNext, ArePagesOf, AreSearched};

use crate::held::{Held, Spot, frame_at};
use crate::pages::Pages;
use std::alloc::{AllocError, Global};
use std::collections::BTreeMap;

/// Where a whole frame stands: the position of its segment, and its offset.
#[derive(Debug, Clone, Copy)]
struct At {
    segment: usize,
    at: usize,
}

// Notes where a frame stands, unless another one of its number is noted.
fn add_spot(frames: &mut BTreeMap<u64, At>, segment: usize, spot: Spot) -> Result<(), AllocError>
    ensures { (number : ℕ) → OnOk result (tree.get nat_cmp frames.new number
        ≡ or_at (tree.get nat_cmp frames.old number) segment (first_of number (spot ∷ []))) }
{
    if !frames.contains_key(&spot.number) {
        let at = At {
            segment,
            at: spot.at,
        };
        let _ = frames.insert(spot.number, at)?;
    }
    Ok(())
}

// Adds the whole frames of a segment.
fn add_spots(frames: &mut BTreeMap<u64, At>, segment: usize, held: &Held) -> Result<(), AllocError>
    ensures { (number : ℕ) → OnOk result (tree.get nat_cmp frames.new number
        ≡ or_at (tree.get nat_cmp frames.old number) segment
        (first_of number held.now.spots.items)) }
{
    for spot in held.spots.as_slice() {
        add_spot(frames, segment, *spot)?;
    }
    Ok(())
}

// All whole frames, by their numbers. If two have one number, the first one counts.
fn frames_of(alloc: Global, held: &[Held]) -> Result<BTreeMap<u64, At>, AllocError>
    ensures { (number : ℕ) → IfOk result (λ frames.
        tree.get nat_cmp frames number ≡ place_of number 0 held.now) }
{
    let mut frames = BTreeMap::new(alloc);
    for segment in 0..held.len() {
        add_spots(&mut frames, segment, &held[segment])?;
    }
    Ok(frames)
}

// Reads a frame into the pages.
fn read_at(alloc: Global, pages: &mut Pages, held: &[Held], at: At) -> Result<(), AllocError>
    ensures { (h : HeldValue) (f : FrameValue) (len : ℕ)
        → slice_get held.now at.segment ≡ Some h → StandsAt h.header h.bytes.items at.at f len
        → OnOk result (IsReadNext f pages.old pages.new) }
{
    if at.segment >= held.len() {
        return Ok(());
    }
    let its = &held[at.segment];
    match frame_at(alloc, its.bytes.as_slice(), its.header, at.at)? {
        Some((frame, _)) => pages.read(frame),
        None => Ok(()),
    }
}

/// Reads all frames that were taken of some segments, by ascending numbers. If two have one number,
/// the first one counts, in the order of the segments. A number stands in a gap exactly if no frame
/// of it was taken, but one of a smaller number and one of a greater. A refused growth is the only
/// error.
pub fn pages_of(alloc: Global, held: &[Held]) -> Result<Pages, AllocError>
    ensures { AreSearched held.now → IfOk result (λ pages. ArePagesOf held.now pages) }
{
    let frames = frames_of(alloc, held)?;
    let mut pages = Pages::new(alloc);
    for (_number, at) in frames {
        read_at(alloc, &mut pages, held, at)?;
    }
    Ok(pages)
}
