//! Pages found ahead: one pass over the oldest segment finds most of what a cleaning writes again.
//!
//! Many old pages stand in each frame of the oldest segment. Read one by one, by the links back, a
//! frame would be read once for each of them. So the segment is read once, forwards, and it is
//! noted where the last block of a page is its Base. Such a Base is written again as the bytes that
//! it is, with no decoding. If there are pages whose last block stands there and is no Base, the
//! segment is decoded once, and each of them is spelled as a Base after its bytes. A page that a
//! later frame touches is read by its links.

ghost use Rattle.std.specs.Prelude.{◌≡◌, ◌≢◌, ◌<◌, ◌≤◌, ◌↔◌, ◌++◌, [], Some, None, Err, true, false, length, slice_get, slice_index, replicate, IfOk, OnErr, IfSome, IsTrue};
ghost use Rattle.std.specs.List.{AllByRecursion};
ghost use Rattle.std.specs.BTreeMap as tree;
ghost use Rattle.std.specs.Ordering.{nat_cmp};
ghost use Rattle.bw_codec.specs.Grammar.{block_bytes, IsBlock};
ghost use Rattle.bw_record.specs.declared.block.Block.TheVariants.{Base};
ghost use Rattle.bw_record.specs.declared.leaf.Leaf.{Leaf as LeafValue};
ghost use Rattle.bw_leaf.specs.Forwards.{blocks_of};
ghost use Rattle.bw_log.specs.Contents.{counted};
ghost use Rattle.bw_log.specs.Places as places;
ghost use Rattle.bw_log.specs.Reads.{IsPage, ReadStops};
ghost use Rattle.bw_care.specs.Ahead.{AreSpots, IsLineOf, IsNoted, IsOldest, IsWithin, IsPiece};
ghost use Rattle.bw_care.specs.Ahead.{oldest_frames, Says, IsPart, IsSpelled};
ghost use Rattle.bw_log.specs.Segments.{segment_frames};
ghost use Rattle.bw_care.specs.Forward.{IsFramed};
ghost use Rattle.bw_care.specs.Cleaning.{is_old, oldest_last};
ghost use Rattle.bw_lines.specs.Reading.{leaf_in};
ghost use Rattle.bw_care.specs.Views.{seen, IsSound};

use crate::forward::read_segment;
use crate::moves::{is_old, last_old};
use bw_codec::limits::{HEAD_LEN, LATEST};
use bw_codec::{Block, Leaf, Outline, Place, encode_block};
use bw_device::Segment;
use bw_lines::{DraftLine, take_line};
use bw_log::{FrameAt, Log, LogFault};
use std::alloc::{AllocError, Global};
use std::collections::BTreeMap;

/// The most bytes of a segment that is read ahead: the pages of a longer one are read one by one.
const MOST_AHEAD: u64 = 16_777_216;

/// The first byte of a Base.
const BASE: u8 = 2;

/// A stretch of the bytes that were read ahead, or of those spelled after them; of no bytes if
/// there is none.
#[derive(Clone, Copy)]
pub(crate) struct Spot {
    pub(crate) at: usize,
    pub(crate) len: usize,
}

/// What was read ahead for a list of pages.
#[derive(Drop)]
pub(crate) struct Ahead {
    /// The bytes of the oldest segment, and after them the Bases that were spelled; or none.
    pub(crate) bytes: Vec<u8>,
    /// For each page the spot where its Base stands in them; no spots if nothing was read.
    pub(crate) spots: Vec<Spot>,
}

impl Ahead {
    /// The bytes of the Base of the page at an index; none if it has to be read by its links.
    pub(crate) fn base(&self, i: usize) -> Option<&[u8]>
        requires { IfSome (slice_get self.now.spots.items i) (IsWithin self.now.bytes.items) }
        ensures { IfSome result (λ piece.
            IsPiece self.now.bytes.items self.now.spots.items i piece.now) }
    {
        let spot = *self.spots.as_slice().get(i)?;
        if spot.len == 0 {
            return None;
        }
        Some(&self.bytes.as_slice()[spot.at..spot.at + spot.len])
    }
}

// The bytes of the oldest segment; none if it is too long, or memory for them is refused.
fn oldest_bytes(alloc: Global, log: &mut Log) -> Result<Option<Vec<u8>>, LogFault>
    requires sound { IsSound log.old holding }
    requires some { 0 < length (seen log.old holding).live }
    ensures bytes { IfOk result (λ bytes.
        IfSome bytes (λ b. IsOldest (seen log.old holding) b.items)) }
    ensures sound { IsSound log.new holding }
    ensures stops { ReadStops (λ at. at ≡ 0) (seen log.old holding) result (seen log.new holding) }
    ensures paged { result ≢ Err LogFault.NoPage }
{
    let Some((segment, _, len)) = log.live_segment(0) else {
        unreachable!();
    };
    if len > MOST_AHEAD {
        return Ok(None);
    }
    let mut bytes = Vec::new(alloc);
    match log.dump(segment, &mut bytes) {
        Ok(_) => Ok(Some(bytes)),
        Err(LogFault::NoMemory) => Ok(None),
        Err(fault) => Err(fault),
    }
}

// Whether the last block that touches a page stands at a place.
fn is_last(log: &Log, page: u32, place: Place) -> bool
    requires { IsSound log.now holding }
    ensures { 1 ≤ page → (IsTrue result
        ↔ (places.place_of page (counted (seen log.now holding)) ≡ Some place)) }
{
    match log.place_of(page) {
        Some(last) => last.frame == place.frame && last.index == place.index,
        None => false,
    }
}

// Whether a block is a Base and the last that touches its page.
fn is_last_base(log: &Log, block: &[u8], page: u32, place: Place) -> bool
    requires sound { IsSound log.now holding }
    requires some { 0 < length block.now }
    ensures { 1 ≤ page → (IsTrue result ↔ ((slice_index block.now 0 ≡ 2)
        × (places.place_of page (counted (seen log.now holding)) ≡ Some place))) }
{
    block[0] == BASE && is_last(log, page, place)
}

// Notes the spot of a page, if it is one of these.
fn note(pages: &[u32], spots: &mut [Spot], page: u32, spot: Spot)
    requires { length spots.old ≡ length pages.now }
    ensures { IsNoted pages.now page spot spots.old spots.new }
{
    if let Ok(at) = pages.binary_search(&page) {
        spots[at] = spot;
    }
}

// Notes the Bases of one frame that are the last blocks of their pages.
fn note_frame(log: &Log, line: &FrameAt, bytes: &[u8], pages: &[u32], spots: &mut [Spot])
    requires sound { IsSound log.now holding }
    requires line { IsLineOf (seen log.now holding) bytes.now line.now }
    requires many { length spots.old ≡ length pages.now }
    requires spots { AreSpots (seen log.now holding) bytes.now spots.old pages.now }
    ensures { AreSpots (seen log.now holding) bytes.now spots.new pages.now }
{
    let end = line.at as usize + line.len as usize;
    let mut at = line.at as usize + HEAD_LEN;
    let mut index: u32 = 0;
    while at < end {
        let Some(outline) = Outline::read(LATEST, &bytes[at..]) else {
            return;
        };
        let place = Place {
            frame: line.number,
            index,
        };
        if is_last_base(log, &bytes[at..], outline.page, place) {
            let len = outline.len;
            note(pages, spots, outline.page, Spot { at, len });
        }
        at += outline.len;
        index += 1;
    }
}

// No spot for each of so many pages.
fn no_spots(alloc: Global, count: usize) -> Result<Vec<Spot>, AllocError>
    ensures { IfOk result (λ spots. spots.items ≡ replicate count (record { at = 0; len = 0 })) }
{
    vec![in alloc; Spot { at: 0, len: 0 }; count]
}

// Where the pages' Bases stand in the bytes of the oldest segment.
fn find_spots(
    alloc: Global,
    log: &Log,
    bytes: &[u8],
    pages: &[u32],
) -> Result<Vec<Spot>, AllocError>
    requires sound { IsSound log.now holding }
    requires some { 0 < length (seen log.now holding).live }
    requires oldest { IsOldest (seen log.now holding) bytes.now }
    ensures many { IfOk result (λ spots. length spots.items ≡ length pages.now) }
    ensures spots { IfOk result (λ spots.
        AreSpots (seen log.now holding) bytes.now spots.items pages.now) }
{
    let Some((segment, _, _)) = log.live_segment(0) else {
        unreachable!();
    };
    let Some(version) = log.live_version(0) else {
        unreachable!();
    };
    let mut spots = no_spots(alloc, pages.len())?;
    // The bytes of a Base in format 1 are not those of one that is written.
    if version != LATEST {
        return Ok(spots);
    }
    // The frames of the oldest segment come first.
    for i in 0..usize::MAX {
        let Some(line) = log.line(i) else {
            break;
        };
        if line.segment != segment {
            break;
        }
        note_frame(log, line, bytes, pages, &mut spots);
    }
    Ok(spots)
}

// Each page as the frames of a segment leave it; none if memory for them is refused.
fn pages_in(alloc: Global, bytes: &[u8]) -> BTreeMap<u32, DraftLine>
    requires { IsFramed bytes.now }
    ensures { Says (blocks_of (segment_frames bytes.now)) result }
{
    let mut lines = BTreeMap::new(alloc);
    // The links back may lead to segments that were given up: so before any frame at all.
    match read_segment(alloc, &mut lines, u64::MAX, bytes) {
        Ok(()) => lines,
        Err(_) => BTreeMap::new(alloc),
    }
}

// Whether a page has no spot, and the last block that touches it stands in the frames up to this.
fn is_wanted(log: &Log, last: u64, spot: Spot, page: u32) -> bool
    requires { IsSound log.now holding }
    ensures { 1 ≤ page → IsTrue result
        → is_old last (places.place_of page (counted (seen log.now holding))) ≡ true }
{
    spot.len == 0 && is_old(last, log.place_of(page))
}

fn is_some_wanted(log: &Log, last: u64, spots: &[Spot], pages: &[u32]) -> bool
    requires sound { IsSound log.now holding }
    requires many { length spots.now ≡ length pages.now }
{
    for at in 0..pages.len() {
        if is_wanted(log, last, spots[at], pages[at]) {
            return true;
        }
    }
    false
}

// Spells a page as a Base after the bytes, unless memory is refused.
fn encode_base(leaf: Leaf, bytes: &mut Vec<u8>) -> bool
    requires { IsBlock 32 (Base leaf) }
    ensures added { IsTrue result → bytes.new.items ≡ bytes.old.items ++ block_bytes (Base leaf) }
    ensures unchanged { result ≡ false → bytes.new.items ≡ bytes.old.items }
{
    encode_block(&Block::Base(leaf), bytes).is_ok()
}

// Takes a page out of the map and spells it as a Base after the bytes; none if the map does not
// have it or memory is refused.
fn spell(lines: &mut BTreeMap<u32, DraftLine>, page: u32, bytes: &mut Vec<u8>) -> Option<Spot>
    requires { (leaf : LeafValue) → leaf_in (tree.get nat_cmp lines.old page) ≡ Some leaf
        → IsBlock 32 (Base leaf) }
    ensures part { IsPart lines.old lines.new }
    ensures none { result ≡ None → bytes.new.items ≡ bytes.old.items }
    ensures some { IfSome result (λ spot. IsSpelled (leaf_in (tree.get nat_cmp lines.old page))
        bytes.old.items bytes.new.items spot) }
{
    let (_, draft) = take_line(lines, page);
    let Ok(leaf) = draft?.into_leaf() else {
        return None;
    };
    let at = bytes.len();
    if !encode_base(leaf, bytes) {
        return None;
    }
    let len = bytes.len() - at;
    Some(Spot { at, len })
}

// Spells the wanted pages after the bytes, until memory is refused.
fn spell_wanted(
    log: &Log,
    last: u64,
    lines: &mut BTreeMap<u32, DraftLine>,
    bytes: &mut Vec<u8>,
    spots: &mut [Spot],
    pages: &[u32],
)
    requires sound { IsSound log.now holding }
    requires works { (seen log.now holding).is_failed ≡ false }
    requires last { last ≡ oldest_last (seen log.now holding) (seen log.now holding).live }
    requires pages { AllByRecursion (IsPage (seen log.now holding)) pages.now }
    requires says { Says (blocks_of (oldest_frames (seen log.now holding).live)) lines.old }
    requires many { length spots.old ≡ length pages.now }
    requires spots { AreSpots (seen log.now holding) bytes.old.items spots.old pages.now }
    ensures { AreSpots (seen log.now holding) bytes.new.items spots.new pages.now }
{
    for at in 0..pages.len() {
        if is_wanted(log, last, spots[at], pages[at]) {
            match spell(lines, pages[at], bytes) {
                Some(spot) => spots[at] = spot,
                None => return,
            }
        }
    }
}

// Spells after the bytes of the oldest segment each page whose last block stands there and is no
// Base. If there is one, the segment is decoded once.
fn spell_rest(alloc: Global, log: &Log, bytes: &mut Vec<u8>, spots: &mut [Spot], pages: &[u32])
    requires sound { IsSound log.now holding }
    requires works { (seen log.now holding).is_failed ≡ false }
    requires some { 0 < length (seen log.now holding).live }
    requires pages { AllByRecursion (IsPage (seen log.now holding)) pages.now }
    requires oldest { IsOldest (seen log.now holding) bytes.old.items }
    requires many { length spots.old ≡ length pages.now }
    requires spots { AreSpots (seen log.now holding) bytes.old.items spots.old pages.now }
    ensures { AreSpots (seen log.now holding) bytes.new.items spots.new pages.now }
{
    let last = last_old(log);
    if is_some_wanted(log, last, spots, pages) {
        let mut lines = pages_in(alloc, bytes);
        spell_wanted(log, last, &mut lines, bytes, spots, pages);
    }
}

/// No bytes and no spots.
pub(crate) fn nothing(alloc: Global) -> Ahead
    ensures { result.spots.items ≡ [] }
{
    Ahead {
        bytes: Vec::new(alloc),
        spots: Vec::new(alloc),
    }
}

/// Where the pages' Bases stand: in the oldest segment, which is read once, or spelled after its
/// bytes. A page has no spot if a later frame touches it, and none has one if the segment is longer
/// than 16 MiB or memory is refused.
pub(crate) fn read_ahead(alloc: Global, log: &mut Log, pages: &[u32]) -> Result<Ahead, LogFault>
    requires sound { IsSound log.old holding }
    requires works { (seen log.old holding).is_failed ≡ false }
    requires some { 0 < length (seen log.old holding).live }
    requires pages { AllByRecursion (IsPage (seen log.old holding)) pages.now }
    ensures ahead { IfOk result (λ ahead.
        AreSpots (seen log.old holding) ahead.bytes.items ahead.spots.items pages.now) }
    ensures sound { IsSound log.new holding }
    ensures stops { ReadStops (λ at. at ≡ 0) (seen log.old holding) result (seen log.new holding) }
    ensures paged { result ≢ Err LogFault.NoPage }
    ensures needed { OnErr result (0 < length pages.now) }
{
    if pages.is_empty() {
        return Ok(nothing(alloc));
    }
    let Some(mut bytes) = oldest_bytes(alloc, log)? else {
        return Ok(nothing(alloc));
    };
    let Ok(mut spots) = find_spots(alloc, log, &bytes, pages) else {
        return Ok(nothing(alloc));
    };
    spell_rest(alloc, log, &mut bytes, &mut spots, pages);
    Ok(Ahead { bytes, spots })
}
