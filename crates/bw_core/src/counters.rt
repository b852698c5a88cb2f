//! What a store says of what it counted.

ghost use Rattle.std.specs.Prelude.{◌≡◌};
ghost use Rattle.bw_core.specs.Counting.{counters_of};

use crate::store::Core;
use bw_care::{Counters, live_bytes};

impl Core {
    ghost use Rattle.bw_core.specs.Views.{kept_by, looks_of, noted_of, IsSound};

    /// How much the store did since it was opened or opened again. No memory is taken; it costs a
    /// look at each live segment's length.
    ///
    /// `reads` is counted where it happens, and no clause says by how much a call raises it; nor
    /// does one say how many of the evictions are those of `keep_pages`.
    pub fn counters(&self) -> Counters
        requires { IsSound self.now holding }
        ensures { result ≡ counters_of (kept_by self.now holding)
            (noted_of self.now).tally (looks_of self.now) }
    {
        let tally = &self.counts.tally;
        let live = live_bytes(&self.log);
        Counters {
            records: self.intake.len(),
            frames: self.seals.durable,
            bytes: tally
                .given_up
                .saturating_add(live)
                .saturating_sub(tally.bytes),
            cleaner_frames: tally.cleaner_frames,
            cleaner_bytes: tally.cleaner_bytes,
            splits: u64::from(self.pages.leaves.count().saturating_sub(tally.pages)),
            evictions: tally.evictions.saturating_add(self.counts.looks.left),
            reads: self.counts.looks.reads,
            cleanings: tally.cleanings,
        }
    }
}
