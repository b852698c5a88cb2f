//! What a store is opened with.

ghost use Rattle.std.specs.Prelude.{◌≡◌};
ghost use Rattle.bw_home.specs.Beginning.{config_of};

use bw_codec::limits::{MAX_PAIRS, MIN_FRAME};
use bw_core::Config;
use bw_device::MAX_CAPACITY;

/// A longer segment was made with room for so many bytes, or a multiple.
const STEP: u64 = 1_048_576;

/// How a store is opened. The limits of pages and frames are for a new one: another goes on with
/// its own.
#[derive(Debug, Clone, Copy, PartialEq, Eq)]
pub struct Options {
    /// How many writers there are, 1 to 64: each has a queue of its own.
    pub writers: usize,
    /// How many groups wait in a queue at most, 1 to 4,096.
    pub queue_groups: usize,
    /// The most pairs of a page, 4 to 32.
    pub pairs_a_page: u16,
    /// The most bytes of a frame, 65,536 to 262,144.
    pub frame_bytes: u32,
    /// How many segments there are at least, up to 4,096. A folder with more files has more.
    pub segments: u32,
    /// How many bytes a new segment has room for, up to 1 GiB. All of it is reserved in memory. In
    /// a folder with a longer segment it is as many bytes as that one has, in whole MiB.
    pub capacity: u64,
    /// Down to how many bytes `keep_pages` lets pages leave memory, counted as they would be
    /// written. In memory a page takes some 60 to 80 bytes more for each pair.
    pub page_bytes: u64,
}

impl Default for Options {
    /// One writer, the largest pages, frames of 64 KiB, four segments of 16 MiB, and no page has to
    /// leave memory.
    fn default() -> Options {
        Options {
            writers: 1,
            queue_groups: 64,
            pairs_a_page: MAX_PAIRS,
            frame_bytes: MIN_FRAME,
            segments: 4,
            capacity: 16_777_216,
            page_bytes: u64::MAX,
        }
    }
}

impl Options {
    /// How many bytes a new segment has room for beside one of this length. Its last frame may end
    /// before its room does: so it counts in whole steps, and is the same in each run.
    pub(crate) fn capacity_beside(&self, longest: u64) -> u64 {
        if longest <= self.capacity {
            return self.capacity;
        }
        let steps = longest.div_ceil(STEP);
        steps.saturating_mul(STEP).min(MAX_CAPACITY)
    }

    /// What a new store is opened with.
    pub(crate) fn config(&self) -> Config
        ensures { result ≡ config_of self.now }
    {
        Config {
            writers: self.writers,
            places: self.queue_groups,
            m: self.pairs_a_page,
            f: self.frame_bytes,
        }
    }
}
