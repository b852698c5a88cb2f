//! What a store answers of itself: the core's calls. None of them takes memory.

ghost use Rattle.std.specs.Prelude.{◌≡◌, ◌+◌, ◌↔◌, true, Some, None, drop, length, map, slice_get, IsTrue, MatchOption};
ghost use Rattle.bw_care.specs.Upgrading.{old_segments};
ghost use Rattle.bw_log.specs.Contents.{counted};
ghost use Rattle.bw_log.specs.Places.{walk_of};
ghost use Rattle.bw_log.specs.Segments.{following};
ghost use Rattle.bw_page.specs.Leaves.{leaf_at};
ghost use Rattle.bw_ring.specs.Ends.{taken};
ghost use Rattle.bw_core.specs.Counting.{counters_of};
ghost use Rattle.bw_history.specs.History.{are_whole, is_grouped, of_writer, streams, upto};
ghost use Rattle.bw_core.specs.Needed.{needed_in, Pays};
ghost use Rattle.bw_store.specs.Kept.{core_of};
ghost use Rattle.bw_store.specs.Reading.{leaves_now};

use crate::store::Store;
use bw_core::{Counters, PackedEntry};

impl Store {
    ghost use Rattle.bw_store.specs.Views.{forgotten_of, kept_by, lanes_of, looks_of, noted_of, IsSound};

    /// What was taken and is kept in memory, in the order in which it was taken: all of it, but for
    /// what was forgotten. Each entry is packed: `PackedEntry::entry` brings it to fixed room. Each
    /// writer's records in the whole history are those that its lane gave, in order.
    pub fn history(&self) -> &[PackedEntry]
        ensures value { result.now
            ≡ drop (forgotten_of self.now) (kept_by self.now holding).entries }
        ensures takes { streams 0 (length (lanes_of self.now)) (kept_by self.now holding).entries
            ≡ map taken (lanes_of self.now) }

        // No group is there in part: an entry with `more` is followed by one of the same writer.
        ensures grouped { is_grouped result.now ≡ true }
        ensures all_grouped { is_grouped (kept_by self.now holding).entries ≡ true }
    {
        self.core.history()
    }

    /// How many entries of the history were forgotten: they come before those that are kept.
    pub fn forgotten(&self) -> u64
        ensures { result ≡ forgotten_of self.now }
    {
        self.core.forgotten()
    }

    /// The history's length at the seal of each frame of this store, the cleaner's too. None of
    /// them stands inside a group.
    pub fn cuts(&self) -> &[u64]
        ensures value { result.now ≡ (kept_by self.now holding).cuts }
        ensures whole { are_whole result.now (kept_by self.now holding).entries ≡ true }
    {
        self.core.cuts()
    }

    /// How many of these frames were appended.
    pub fn durable(&self) -> u64
        ensures { result ≡ (kept_by self.now holding).durable }
    {
        self.core.durable()
    }

    /// How many records of a writer stand in appended frames: so many of the first that its feed
    /// accepted will be found by every recovery from here on, whatever stops. 0 for a number that
    /// no writer has.
    ///
    /// It takes no memory, and costs a step for each record that was taken since the last append.
    pub fn durable_of(&self, writer: u16) -> u64
        requires { IsSound self.now holding }
        ensures { result ≡ length (of_writer writer (upto (kept_by self.now holding).cuts
            (kept_by self.now holding).entries (kept_by self.now holding).durable)) }
    {
        self.core.durable_of(writer)
    }

    /// The number of the next frame; `None` after the greatest.
    pub fn next_frame(&self) -> Option<u64>
        requires { IsSound self.now holding }
        ensures { result ≡ following ((kept_by self.now holding).before +
            (kept_by self.now holding).durable) }
    {
        self.core.next_frame()
    }

    /// How many pages there are, in memory or evicted. They are numbered from 1.
    pub fn pages(&self) -> u32
        ensures { result ≡ length (kept_by self.now holding).filed.leaves }
    {
        self.core.pages()
    }

    /// From how many frames a page would be read, if it were evicted: those that were appended and
    /// have a block of it, from the last that says all of it on. It is 0 if no frame has the page
    /// yet, and `None` if there is no such page, evicted or not. `rewrite` makes it 1.
    ///
    /// No memory is taken, and it costs the same for each page. Whoever evicts pages asks this
    /// first, and writes a page again whose walk is long, so that bringing it back stays cheap.
    pub fn walk_of(&self, page: u32) -> Option<u64>
        requires { IsSound self.now holding }
        ensures { MatchOption (leaf_at page (leaves_now (kept_by self.now holding)))
            (result ≡ None)
            (λ _. result ≡ Some (walk_of page (counted (kept_by self.now holding).log))) }
    {
        self.core.walk_of(page)
    }

    /// How many segments are live.
    pub fn live(&self) -> u32
        requires { IsSound self.now holding }
        ensures { result ≡ length (kept_by self.now holding).log.live }
    {
        self.core.live()
    }

    /// How many spares stand.
    pub fn spares(&self) -> u32
        requires { IsSound self.now holding }
        ensures { result ≡ length (kept_by self.now holding).log.spares }
    {
        self.core.spares()
    }

    /// The number, the lease and the length in bytes of the i-th live segment, from 0.
    pub fn live_segment(&self, i: u32) -> Option<(u64, u32, u64)>
        requires { IsSound self.now holding }
        ensures { MatchOption (slice_get (kept_by self.now holding).log.live i) (result ≡ None)
            (λ h. result ≡ Some (
              (kept_by self.now holding).log.number + i,
              h.lease,
              length
                  h.bytes,
            )) }
    {
        self.core.live_segment(i)
    }

    /// How many bytes of the i-th live segment, from 0, are still needed: those that the pages have
    /// whose last setting block stands there, each as a Base as it stands. So many bytes of blocks
    /// `clean` writes again if it is the oldest, nothing waits in the frame in the making, and no
    /// append fails. `None` if there is no such segment. `bwlog stats` shows this as `rewritten`.
    ///
    /// No memory is taken and nothing is read. It costs a look at the line of each frame and of
    /// each page, and at the pairs of each page that is counted and in memory.
    pub fn needed(&self, i: u32) -> Option<u64>
        requires { IsSound self.now holding }
        ensures { MatchOption (slice_get (kept_by self.now holding).log.live i)
            (result ≡ None)
            (λ _. result ≡ Some (needed_in (core_of (kept_by self.now holding)) i)) }
    {
        self.core.needed(i)
    }

    /// Whether it pays to clean: two segments are live or more, and the oldest has twice as many
    /// bytes as are still needed of it, and 88 more. Then `clean` gives back more than it writes,
    /// so that there is more room after it than before: beside what is needed it writes 20 bytes
    /// for each frame, and 24 for each segment that it begins.
    ///
    /// It costs what `needed` does.
    pub fn pays(&self) -> bool
        requires { IsSound self.now holding }
        ensures { IsTrue result ↔ Pays (core_of (kept_by self.now holding)) }
    {
        self.core.pays()
    }

    /// How much the store did since it was opened or opened again. No memory is taken; it costs a
    /// look at each live segment's length.
    ///
    /// `reads` is counted where it happens, and no clause says by how much a call raises it.
    pub fn counters(&self) -> Counters
        requires { IsSound self.now holding }
        ensures { result
            ≡ counters_of (core_of (kept_by self.now holding)) (noted_of self.now).tally
            (looks_of self.now) }
    {
        self.core.counters()
    }

    /// How many live segments have format 1: an upgrade would give them up. No memory is taken.
    pub fn old_segments(&self) -> u32
        requires { IsSound self.now holding }
        ensures { result ≡ old_segments (kept_by self.now holding).log }
    {
        self.core.old_segments()
    }
}
