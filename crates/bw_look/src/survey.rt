//! Where each frame and block of a log stands, and which blocks are still needed.

use crate::frames::{Frames, Step};
use crate::image::Image;
use bw_codec::limits::{HEAD_LEN, HEADER_LEN};
use bw_codec::{Block, Frame, Header, HeaderRead, Outline, read_header};
use std::alloc::{AllocError, Global};
use std::collections::BTreeMap;

/// A segment that has a header.
#[derive(Debug, Clone, Copy)]
pub struct SegmentRow {
    /// Its number.
    pub number: u64,
    /// The lease whose file has it, if one has.
    pub lease: Option<u32>,
    /// How many bytes it has.
    pub len: usize,
    /// The most pairs that a page holds.
    pub m: u16,
}

/// A frame.
#[derive(Debug, Clone, Copy)]
pub struct FrameRow {
    /// Its segment's index in the survey.
    pub segment: usize,
    pub number: u64,
    /// Where it begins in its segment.
    pub at: usize,
    pub len: usize,
}

/// What a block does.
#[derive(Debug, Clone, Copy, PartialEq, Eq)]
pub enum Kind {
    /// It sets a page.
    Base,
    /// It changes a page.
    Delta,
    /// It splits a page in two.
    Split,
}

/// A block.
#[derive(Debug, Clone, Copy)]
pub struct BlockRow {
    /// Its segment's index in the survey.
    pub segment: usize,
    /// The number of its frame.
    pub frame: u64,
    /// Where it begins in its segment.
    pub at: usize,
    pub len: usize,
    pub kind: Kind,
    /// The page that it sets, changes or splits.
    pub page: u32,
    /// The page that it makes, if it is a Split.
    pub made: Option<u32>,
}

/// The segments of a log by their numbers, with their frames and blocks.
#[derive(Drop)]
pub struct Survey {
    segments: Vec<SegmentRow>,
    frames: Vec<FrameRow>,
    blocks: Vec<BlockRow>,
    /// Of each page the index of the last block that sets it.
    set: BTreeMap<u32, usize>,
}

/// The header of a segment that has one.
fn header_of(image: &Image) -> Option<Header> {
    match read_header(image.bytes.as_slice()) {
        HeaderRead::Whole(header) => Some(header),
        _ => None,
    }
}

/// The segments by their numbers: each with its position in the list.
fn ordered(alloc: Global, images: &[Image]) -> Result<BTreeMap<u64, usize>, AllocError> {
    let mut found = BTreeMap::new(alloc);
    for (position, image) in images.iter().enumerate() {
        if let Some(header) = header_of(image) {
            let _ = found.insert(header.number, position)?;
        }
    }
    Ok(found)
}

fn kind_of(block: &Block) -> Kind {
    match block {
        Block::Base(_) => Kind::Base,
        Block::Delta { .. } => Kind::Delta,
        Block::Split { .. } => Kind::Split,
    }
}

/// A page that a block sets, whatever it was before.
fn page_set(row: &BlockRow) -> Option<u32> {
    match row.kind {
        Kind::Base => Some(row.page),
        Kind::Delta => None,
        Kind::Split => row.made,
    }
}

impl Survey {
    /// What these segments hold, up to what cannot be read of each. If two have one number, the
    /// later one of the list counts.
    pub fn of(alloc: Global, images: &[Image]) -> Result<Survey, AllocError> {
        let mut survey = Survey {
            segments: Vec::new(alloc),
            frames: Vec::new(alloc),
            blocks: Vec::new(alloc),
            set: BTreeMap::new(alloc),
        };
        for (_, position) in &ordered(alloc, images)? {
            if *position < images.len() {
                survey.add(alloc, &images[*position])?;
            }
        }
        Ok(survey)
    }

    fn add(&mut self, alloc: Global, image: &Image) -> Result<(), AllocError> {
        let Some(header) = header_of(image) else {
            return Ok(());
        };
        let bytes = image.bytes.as_slice();
        let segment = self.segments.len();
        self.segments.push(SegmentRow {
            number: header.number,
            lease: image.lease,
            len: bytes.len(),
            m: header.m,
        })?;
        let mut frames = Frames::behind(bytes, header, HEADER_LEN);
        for _ in 0..bytes.len() {
            let at = frames.at();
            match frames.step(alloc)? {
                Step::Frame(frame, len) => {
                    self.frames.push(FrameRow {
                        segment,
                        number: frame.number,
                        at,
                        len,
                    })?;
                    self.add_blocks(header.version, bytes, segment, at, &frame)?;
                }
                _ => break,
            }
        }
        Ok(())
    }

    fn add_blocks(
        &mut self,
        version: u16,
        bytes: &[u8],
        segment: usize,
        at: usize,
        frame: &Frame,
    ) -> Result<(), AllocError> {
        let mut from = at.saturating_add(HEAD_LEN);
        for block in frame.blocks.as_slice() {
            if from > bytes.len() {
                break;
            }
            let Some(outline) = Outline::read(version, &bytes[from..]) else {
                break;
            };
            let row = BlockRow {
                segment,
                frame: frame.number,
                at: from,
                len: outline.len,
                kind: kind_of(block),
                page: outline.page,
                made: outline.made,
            };
            self.add_block(row)?;
            from = from.saturating_add(outline.len);
        }
        Ok(())
    }

    fn add_block(&mut self, row: BlockRow) -> Result<(), AllocError> {
        if let Some(page) = page_set(&row) {
            let _ = self.set.insert(page, self.blocks.len())?;
        }
        self.blocks.push(row)?;
        Ok(())
    }

    /// The segments by their numbers.
    pub fn segments(&self) -> &[SegmentRow] {
        self.segments.as_slice()
    }

    /// The frames in the order of the log.
    pub fn frames(&self) -> &[FrameRow] {
        self.frames.as_slice()
    }

    /// The blocks in the order of the log.
    pub fn blocks(&self) -> &[BlockRow] {
        self.blocks.as_slice()
    }

    /// Of each page the index of the last block that sets it.
    pub fn set(&self) -> &BTreeMap<u32, usize> {
        &self.set
    }

    /// Whether no block after this index sets the page.
    fn is_last_said(&self, index: usize, page: u32) -> bool {
        match self.set.get(&page) {
            Some(set) => *set <= index,
            None => true,
        }
    }

    /// Whether the block of this index, which is this one, is still needed: of a page that it
    /// touches no later block says all.
    pub fn is_needed(&self, index: usize, row: &BlockRow) -> bool {
        self.is_last_said(index, row.page)
            || match row.made {
                Some(made) => self.is_last_said(index, made),
                None => false,
            }
    }
}
