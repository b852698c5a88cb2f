//! The oldest segments: what the cleaner asks of them, and gives up.
//!
//! Giving up a segment is the one call that takes counted frames away. Whoever calls has written
//! each page again whose last setting block stands there: were one left, its next read would follow
//! a link into a segment that is gone. The lines of frames stand in the order of their numbers, so
//! the lines of one segment are neighbours, and its last one is found by a search.

ghost use Rattle.std.specs.Prelude.{◌≡◌, ◌+◌, ◌-◌, ◌<◌, ◌≤◌, Some, None, false, length, drop, slice_get, MatchOption};
ghost use Rattle.bw_log.specs.Contents.{counted, KeepsLeaves};
ghost use Rattle.bw_log.specs.Oldest.{NoBaseBefore, oldest_count, last_number};
ghost use Rattle.bw_log.specs.Spans.{last_upto};

use crate::log::Log;

impl Log {
    ghost use Rattle.bw_log.specs.Views.{seen_by, IsSound};

    /// The oldest segment's number, and that of its last counted frame, or 0 if it has none; `None`
    /// if no segment is live. It costs a binary search among the lines of the counted frames.
    pub fn oldest(&self) -> Option<(u64, u64)>
        requires { IsSound holding self.now }
        ensures { MatchOption (slice_get (seen_by holding self.now).live 0)
            (result ≡ None)
            (λ h. result
            ≡ Some ((seen_by holding self.now).number, last_number (seen_by holding self.now) h)) }
    {
        match self.live_last(0) {
            Some(last) => Some((self.number, last)),
            None => None,
        }
    }

    /// The number of the last counted frame in the i-th live segment, from 0, or 0 if it has none;
    /// `None` if there is no such segment. It costs a binary search among the lines of the counted
    /// frames.
    pub fn live_last(&self, i: u32) -> Option<u64>
        requires { IsSound holding self.now }
        ensures { MatchOption (slice_get (seen_by holding self.now).live i)
            (result ≡ None)
            (λ h. result ≡ Some (last_number (seen_by holding self.now) h)) }
    {
        let number = self.number_at(i)?;
        Some(self.last_in(number))
    }

    // The number of the last counted frame in the live segment of this number, or 0.
    fn last_in(&self, segment: u64) -> u64
        requires sound { IsSound holding self.now }
        requires from { self.now.number ≤ segment }
        requires inside { segment - self.now.number < length self.now.live.items }
        ensures { MatchOption
            (slice_get (seen_by holding self.now).live (segment - self.now.number))
            (result ≡ 0)
            (λ h. result ≡ last_number (seen_by holding self.now) h) }
    {
        let lines = self.frames.as_slice();
        let count = lines.partition_point(|line| line.segment <= segment);
        if count == 0 {
            return 0;
        }
        let line = &lines[count - 1];
        if line.segment == segment {
            line.number
        } else {
            0
        }
    }

    /// Gives up the oldest of two or more live segments, in which no page's last setting block
    /// stands, and drops its box. The log has not failed. What the counted frames stand for is what
    /// it was. No memory is taken; it costs a pass over the lines of all counted frames.
    pub fn give_up_oldest(&mut self)
        requires sound { IsSound holding self.old }
        requires two { 2 ≤ length (seen_by holding self.old).live }
        requires works { (seen_by holding self.old).is_failed ≡ false }
        requires bases { NoBaseBefore (seen_by holding self.old) }
        ensures sound { IsSound holding self.new }
        ensures given_up { seen_by holding self.new
            ≡ record (seen_by holding self.old) {
              live = drop 1 (seen_by holding self.old).live;
              number = (seen_by holding self.old).number + 1;
              frames = (seen_by holding self.new).frames;
            } }
        ensures counted { counted (seen_by holding self.new)
            ≡ drop (oldest_count (seen_by holding self.old).live)
            (counted (seen_by holding self.old)) }
        ensures stands { KeepsLeaves (seen_by holding self.old) (seen_by holding self.new) }
    {
        let number = self.number;
        drop(self.live.remove(0));
        self.frames.retain(|line| line.segment != number);
        self.number = number + 1;
    }
}

impl Log {
    ghost use Rattle.bw_log.specs.Views.{seen_by};

    /// The number of the last counted frame in the segments up to the one with this number, or 0 if
    /// they have none. It costs a look at the line of each counted frame.
    pub fn last_upto(&self, segment: u64) -> u64
        ensures { result ≡ last_upto segment (seen_by holding self.now).frames }
    {
        let mut last = 0;
        'lines: for line in self.frames.as_slice() {
            if line.segment <= segment {
                last = line.number;
            }
        }
        last
    }
}
