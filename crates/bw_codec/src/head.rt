//! What frames and segments begin with, and what reading finds at the front of bytes.

ghost use Rattle.std.specs.Prelude.{◌≡◌};
ghost use Rattle.bw_codec.specs.Grammar.{is_head, is_header};

use crate::limits::{HEAD_LEN, MAX_PAIRS, MIN_BLOCK, MIN_PAIRS};
use bw_record::Frame;
use bw_record::version::{greatest_limit, least_limit};

/// The numbers in a frame's first 20 bytes.
#[derive(Debug, Clone, Copy, PartialEq, Eq)]
pub struct Head {
    /// The frame's number.
    pub number: u64,
    /// The length of its blocks, in bytes.
    pub body: u32,
    /// How many blocks it has.
    pub blocks: u32,
}

impl Head {
    /// Whether a frame of at most `limit` bytes may begin so.
    pub fn is_lawful(&self, limit: u32) -> bool
        ensures { result ≡ is_head limit self.now }
    {
        0 < self.number
            && MIN_BLOCK <= self.body
            && u64::from(self.body) + HEAD_LEN as u64 <= u64::from(limit)
            && 0 < self.blocks
    }
}

/// What a segment begins with.
#[derive(Debug, Clone, Copy, PartialEq, Eq)]
pub struct Header {
    /// The format of the segment and its frames, 1 or 2.
    pub version: u16,
    /// The segment's number, from 1, in the order in which segments were begun.
    pub number: u64,
    /// The most pairs that a page holds, 4 to 32.
    pub m: u16,
    /// The most bytes that a frame has: 65,536 to 262,144, and in format 1 16,384 to 65,536.
    pub f: u32,
}

impl Header {
    /// Whether a segment may begin so.
    pub fn is_lawful(&self) -> bool
        ensures { result ≡ is_header self.now }
    {
        (self.version == 1 || self.version == 2)
            && 0 < self.number
            && MIN_PAIRS <= self.m
            && self.m <= MAX_PAIRS
            && least_limit(self.version) <= self.f
            && self.f <= greatest_limit(self.version)
    }
}

/// What stands at the front of a segment's bytes.
#[derive(Debug, Clone, Copy, PartialEq, Eq)]
pub enum HeaderRead {
    /// A header, in the first 24 bytes.
    Whole(Header),
    /// 1 to 23 bytes at which a header was torn off.
    Part,
    /// Neither; also no bytes at all.
    Bad,
}

/// What stands at the front of the bytes after a header or a frame.
#[derive(Drop)]
pub enum FrameRead {
    /// A frame, in so many bytes.
    Whole(Frame, usize),
    /// Bytes at which a frame was torn off; also no bytes at all.
    Tail,
}
