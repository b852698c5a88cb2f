//! What a store is opened with.

ghost use Rattle.std.specs.Prelude.{◌↔◌, IsTrue};
ghost use Rattle.bw_terms.specs.Ranges.{AreWriters, IsConfig};
ghost use Rattle.bw_log.specs.Limits.{AreLimits};

use bw_codec::limits::{MAX_FRAME, MAX_PAIRS, MIN_FRAME, MIN_PAIRS};

/// How many writers a store has, and its limits.
#[derive(Debug, Clone, Copy, PartialEq, Eq)]
pub struct Config {
    /// 1 to 64: each has a ring of its own.
    pub writers: usize,
    /// The places of each ring, 1 to 4,096.
    pub places: usize,
    /// The most pairs of a page, 4 to 32.
    pub m: u16,
    /// The most bytes of a frame, 65,536 to 262,144.
    pub f: u32,
}

impl Config {
    /// Whether all numbers are in their ranges: a store may be opened with them.
    pub fn is_lawful(&self) -> bool
        ensures { IsTrue result ↔ IsConfig self.now }
    {
        self.are_writers() && self.are_limits()
    }

    /// Whether the writers and their places are in range.
    pub fn are_writers(&self) -> bool
        ensures { IsTrue result ↔ AreWriters self.now }
    {
        1 <= self.writers && self.writers <= 64 && 1 <= self.places && self.places <= 4096
    }

    fn are_limits(&self) -> bool
        ensures { IsTrue result ↔ AreLimits self.now.m self.now.f }
    {
        MIN_PAIRS <= self.m && self.m <= MAX_PAIRS && MIN_FRAME <= self.f && self.f <= MAX_FRAME
    }
}
