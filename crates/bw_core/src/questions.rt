//! What a store answers of itself. None of these calls takes memory.
//!
//! So they may be asked when memory has run out: that is when somebody wants to know what is
//! durable, and how many spares stand.

ghost use Rattle.std.specs.Prelude.{◌≡◌, ◌≤◌, ◌+◌, ◌-◌, true, Some, None, drop, take, length, map, slice_get, MatchOption};
ghost use Rattle.bw_ring.specs.Ends.{taken};
ghost use Rattle.bw_log.specs.Segments.{following};
ghost use Rattle.bw_history.specs.History.{are_whole, is_grouped, streams};

use crate::store::Core;
use bw_history::PackedEntry;

impl Core {
    ghost use Rattle.bw_core.specs.Views.{forgotten_of, kept_by, lanes_of, IsSound};

    /// What was taken and is kept in memory, in the order in which it was taken: all of it, but for
    /// what was forgotten. Each entry is packed: `PackedEntry::entry` brings it to fixed room. Each
    /// writer's records in the whole history are those that its lane gave, in order.
    pub fn history(&self) -> &[PackedEntry]
        ensures value { result.now
            ≡ drop (forgotten_of self.now) (kept_by self.now holding).entries }
        ensures takes { streams 0 (length (lanes_of self.now)) (kept_by self.now holding).entries
            ≡ map taken (lanes_of self.now) }

        // No group is there in part: an entry with `more` is followed by one of the same writer.
        ensures grouped { is_grouped result.now ≡ true }
        ensures all_grouped { is_grouped (kept_by self.now holding).entries ≡ true }
    {
        self.intake.kept()
    }

    /// How many entries of the history were forgotten: they come before those that are kept.
    pub fn forgotten(&self) -> u64
        ensures { result ≡ forgotten_of self.now }
    {
        self.intake.gone() as u64
    }

    /// The entries from one index of the whole history up to another: those that a second party
    /// does not have yet. None of them may be forgotten.
    pub fn entries(&self, from: usize, to: usize) -> &[PackedEntry]
        requires kept { forgotten_of self.now ≤ from }
        requires order { from ≤ to }
        requires within { to ≤ length (kept_by self.now holding).entries }
        ensures { result.now ≡ take (to - from) (drop from (kept_by self.now holding).entries) }
    {
        self.intake.between(from, to)
    }

    /// The history's length at the seal of each frame of this store, the cleaner's too. None of
    /// them stands inside a group.
    pub fn cuts(&self) -> &[u64]
        ensures value { result.now ≡ (kept_by self.now holding).cuts }
        ensures whole { are_whole result.now (kept_by self.now holding).entries ≡ true }
    {
        self.seals.cuts.as_slice()
    }

    /// How many of these frames were appended.
    pub fn durable(&self) -> u64
        ensures { result ≡ (kept_by self.now holding).durable }
    {
        self.seals.durable
    }

    /// The number of the next frame; `None` after the greatest.
    pub fn next_frame(&self) -> Option<u64>
        requires { IsSound self.now holding }
        ensures { result ≡ following ((kept_by self.now holding).before +
            (kept_by self.now holding).durable) }
    {
        self.log.next_frame()
    }

    /// How many pages there are, in memory or evicted. They are numbered from 1.
    pub fn pages(&self) -> u32
        ensures { result ≡ length (kept_by self.now holding).filed.leaves }
    {
        self.pages.leaves.count()
    }

    /// How many segments are live.
    pub fn live(&self) -> u32
        requires { IsSound self.now holding }
        ensures { result ≡ length (kept_by self.now holding).log.live }
    {
        self.log.live()
    }

    /// How many spares stand.
    pub fn spares(&self) -> u32
        requires { IsSound self.now holding }
        ensures { result ≡ length (kept_by self.now holding).log.spares }
    {
        self.log.spares()
    }

    /// The number, the lease and the length in bytes of the i-th live segment, from 0.
    pub fn live_segment(&self, i: u32) -> Option<(u64, u32, u64)>
        requires { IsSound self.now holding }
        ensures { MatchOption (slice_get (kept_by self.now holding).log.live i) (result ≡ None)
            (λ h. result ≡ Some (
              (kept_by self.now holding).log.number + i,
              h.lease,
              length
                  h.bytes,
            )) }
    {
        self.log.live_segment(i)
    }
}
