//! How much of a live segment is still needed, and when it pays to clean the oldest.
//!
//! A cleaning writes what is still needed of a segment after all others, and gives its room back.
//! If most of it is needed that makes the log longer, and a store that cleans whenever it is full
//! would write the same pages round and round. It pays at twice what is needed and 88 bytes more:
//! heads of frames and headers are less than that, so room is won. No clause says so.

ghost use Rattle.std.specs.Prelude.{◌≡◌, ◌≤◌, ◌<◌, ◌^◌, ◌↔◌, None, Some, length, slice_get, IfSome, IsTrue, MatchOption};
ghost use Rattle.bw_log.specs.Contents.{counted};
ghost use Rattle.bw_page.specs.Leaves.{leaf_at};
ghost use Rattle.bw_core.specs.Needed.{is_between, needed_by, needed_in, needed_of, Pays};

use crate::store::Core;
use bw_care::{is_won, length_of};
use bw_codec::Place;

// Whether a place, if there is one, stands in the frames after one and up to another.
fn is_between(after: u64, last: u64, place: Option<Place>) -> bool
    ensures { result ≡ is_between after last place }
{
    match place {
        Some(place) => after < place.frame && place.frame <= last,
        None => false,
    }
}

impl Core {
    ghost use Rattle.bw_core.specs.Views.{kept_by, IsSound};

    /// How many bytes of the i-th live segment, from 0, are still needed: those that the pages have
    /// whose last setting block stands there, each as a Base as it stands. So many bytes of blocks
    /// `clean` writes again if it is the oldest, nothing waits in the frame in the making, and no
    /// append fails. `None` if there is no such segment. `bwlog stats` shows this as `rewritten`.
    ///
    /// No memory is taken and nothing is read. It costs a look at the line of each frame and of
    /// each page, and at the pairs of each page that is counted and in memory.
    pub fn needed(&self, i: u32) -> Option<u64>
        requires { IsSound self.now holding }
        ensures { MatchOption (slice_get (kept_by self.now holding).log.live i)
            (result ≡ None)
            (λ _. result ≡ Some (needed_in (kept_by self.now holding) i)) }
    {
        let (segment, _, _) = self.log.live_segment(i)?;
        let after = self.log.last_upto(segment.saturating_sub(1));
        let last = self.log.last_upto(segment);
        Some(self.needed_between(after, last))
    }

    /// Whether it pays to clean: two segments are live or more, and the oldest has twice as many
    /// bytes as are still needed of it, and 88 more. Then `clean` gives back more than it writes,
    /// so that there is more room after it than before: beside what is needed it writes 20 bytes
    /// for each frame, and 24 for each segment that it begins.
    ///
    /// It costs what `needed` does.
    pub fn pays(&self) -> bool
        requires { IsSound self.now holding }
        ensures { IsTrue result ↔ Pays (kept_by self.now holding) }
    {
        if self.log.live() < 2 {
            return false;
        }
        let length = length_of(&self.log, 0);
        match self.needed(0) {
            Some(needed) => is_won(length, needed),
            None => false,
        }
    }

    // How many bytes the pages have that were last set in the frames after one and up to another,
    // each as a Base as it stands.
    fn needed_between(&self, after: u64, last: u64) -> u64
        requires { IsSound self.now holding }
        ensures { result ≡ needed_of after last (counted (kept_by self.now holding).log)
            (kept_by self.now holding).filed.leaves }
    {
        let mut needed = 0;
        'pages: for before in 0..self.pages.leaves.count() {
            needed += self.needed_on(before + 1, after, last);
        }
        needed
    }

    // How many bytes a page has as a Base, if it was last set in the frames after one and up to
    // another; 0 if not.
    fn needed_on(&self, page: u32, after: u64, last: u64) -> u64
        requires sound { IsSound self.now holding }
        requires inside { (1 ≤ page) × (page ≤ length self.now.pages.leaves.leaves) }
        ensures value { IfSome (leaf_at page self.now.pages.leaves.leaves) (λ leaf. result
            ≡ needed_by after last (counted (kept_by self.now holding).log) leaf) }
        ensures small { result < 2 ^ 32 }
    {
        if is_between(after, last, self.log.base_of(page)) {
            self.pages.leaves.base_length(page)
        } else {
            0
        }
    }
}
