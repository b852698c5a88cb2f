//! The frame in the making is appended, the next one begun, and what is durable published.

ghost use Rattle.std.specs.Prelude.{◌≡◌, OnOk};
ghost use Rattle.bw_core.specs.Faults.{FlushAnswers};
ghost use Rattle.bw_store.specs.Machine.{RunsAs};
ghost use Rattle.bw_store.specs.Showing.{FlushShows, IsSettled, flush_refusal};

use crate::store::Store;
use bw_core::StoreFault;
use std::sync::Wait;

impl Store {
    ghost use Rattle.bw_store.specs.Going.{GoesOn};
    ghost use Rattle.bw_store.specs.Views.{kept_by, lanes_of, IsSound};

    /// Seals the frame in the making and appends it; answers its number, or `None` if nothing
    /// waited.
    ///
    /// Refused `Failed` if an append failed before. Then it is refused `Spent` if there is no
    /// number for a frame, even if nothing waits. Then, if something waits, it is refused
    /// `NoSegment`, `Spent` and `NoMemory` as the log's append is. After each of these nothing was
    /// changed. `Device`: the frame stays sealed and kept, and every later flush is refused
    /// `Failed`.
    ///
    /// Then what is durable is published, all at once; if nothing is new, nothing is done. It may
    /// wait for readers. If that finds no memory, the call is refused `NoMemory`, though the frame
    /// is durable: readers see what they saw, and the next `flush`, `clean` or `settle` publishes.
    /// Time is linear in the frame, and in what its records cost to apply twice; the first
    /// publication also brings all pages of the start.
    pub fn flush<R: Wait>(&mut self, rt: &R) -> Result<Option<u64>, StoreFault>
        requires sound { IsSound self.old holding }
        ensures goes { GoesOn self.old self.new holding }
        ensures lanes { lanes_of self.new ≡ lanes_of self.old }

        ensures answers { FlushAnswers (flush_refusal (kept_by self.old holding)) result }
        ensures leaves { FlushShows (kept_by self.old holding) result (kept_by self.new holding) }
        ensures settled { OnOk result (IsSettled (kept_by self.new holding)) }

        // As the machine: all that was taken is kept and then shown, and what a stop leaves is
        // found.
        ensures runs { RunsAs (kept_by self.old holding) result (kept_by self.new holding) }
    {
        let number = self.core.flush()?;
        self.publish(rt)?;
        Ok(number)
    }
}
