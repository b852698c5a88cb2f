//! What a store counts beside what it keeps.
//!
//! Counting takes no memory, and nothing is refused for it. A number that is at its greatest stays
//! there: one that began again at 0 would look like a store that has just begun.

ghost use Rattle.std.specs.Prelude.{◌≡◌};
ghost use Rattle.bw_care.specs.Tallies.{counted_by, counted_from, counted_out, counted_up};

/// How much a store did since it was opened. A number that is at its greatest stays there.
#[derive(Debug, Clone, Copy, PartialEq, Eq)]
pub struct Counters {
    /// Records taken from the writers' rings, the forgotten ones among them.
    pub records: u64,
    /// Frames appended, the cleaner's among them.
    pub frames: u64,
    /// By how many bytes the live segments grew, those of the segments that were given up since
    /// among them.
    pub bytes: u64,
    /// Frames that the cleaner appended.
    pub cleaner_frames: u64,
    /// By how many bytes the live segments grew while the cleaner was at work.
    pub cleaner_bytes: u64,
    /// Pages made by splitting another in two.
    pub splits: u64,
    /// Pages that left memory, by `evict` or by themselves.
    pub evictions: u64,
    /// Pages read from the log because they were evicted.
    pub reads: u64,
    /// Segments given up by `clean` and `upgrade`.
    pub cleanings: u64,
}

/// What is counted where it happens, and where the store began.
#[derive(Debug, Clone, Copy, PartialEq, Eq)]
pub struct Tally {
    /// How many pages there were at the start, and how many bytes the live segments had.
    pub pages: u32,
    pub bytes: u64,
    /// The bytes of the segments that were given up.
    pub given_up: u64,
    pub cleanings: u64,
    pub cleaner_frames: u64,
    pub cleaner_bytes: u64,
    pub evictions: u64,
}

/// What is counted of reads, and of pages that left by themselves. No clause says by how much a
/// call raises it.
#[derive(Debug, Clone, Copy, PartialEq, Eq)]
pub struct Looks {
    pub reads: u64,
    /// Pages that left memory by themselves.
    pub left: u64,
}

impl Looks {
    /// Nothing yet.
    pub fn new() -> Looks {
        Looks { reads: 0, left: 0 }
    }

    /// A page was read from the log.
    pub fn read_one(&mut self) {
        self.reads = self.reads.saturating_add(1);
    }

    /// A page left memory by itself.
    pub fn left_one(&mut self) {
        self.left = self.left.saturating_add(1);
    }
}

impl Tally {
    /// Nothing is counted yet, over so many pages and bytes.
    pub fn from(pages: u32, bytes: u64) -> Tally
        ensures { result ≡ counted_from pages bytes }
    {
        Tally {
            pages,
            bytes,
            given_up: 0,
            cleanings: 0,
            cleaner_frames: 0,
            cleaner_bytes: 0,
            evictions: 0,
        }
    }

    /// With one page more that left memory.
    pub fn with_eviction(self) -> Tally
        ensures { result ≡ counted_out self }
    {
        Tally {
            evictions: self.evictions.saturating_add(1),
            ..self
        }
    }

    /// With so many frames more of the cleaner's, and as many bytes as the live segments have more
    /// than before: if it is done, so many segments were given up, whose bytes are among these.
    pub fn with_moved(
        self,
        is_done: bool,
        frames: u64,
        before: u64,
        after: u64,
        gone: u64,
        count: u64,
    ) -> Tally
        ensures { result ≡ counted_by self is_done frames before after gone count }
    {
        if is_done {
            let bytes = after.saturating_add(gone).saturating_sub(before);
            self.with_cleaning(frames, bytes, gone, count)
        } else {
            let bytes = after.saturating_add(0).saturating_sub(before);
            self.with_cleaning(frames, bytes, 0, 0)
        }
    }

    // With so many frames and bytes more of the cleaner's, and so many segments that were given up.
    fn with_cleaning(self, frames: u64, bytes: u64, given_up: u64, cleanings: u64) -> Tally
        ensures { result ≡ counted_up self frames bytes given_up cleanings }
    {
        Tally {
            given_up: self.given_up.saturating_add(given_up),
            cleanings: self.cleanings.saturating_add(cleanings),
            cleaner_frames: self.cleaner_frames.saturating_add(frames),
            cleaner_bytes: self.cleaner_bytes.saturating_add(bytes),
            ..self
        }
    }
}
