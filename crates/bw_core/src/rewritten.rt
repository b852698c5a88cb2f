//! What the store notes of frames that were not made of records: the pages that a cleaning or an
//! upgrade wrote again.

ghost use Rattle.std.specs.Prelude.{◌≡◌, ◌≤◌, ◌+◌, vec_len, OnOk};
ghost use Rattle.std.specs.Vec.{vec_capacity};

use crate::store::Core;
use bw_care::renew;
use bw_history::{frames_between, push_many};
use bw_making::begin_at;
use std::alloc::AllocError;

impl Core {
    ghost use Rattle.bw_core.specs.Moving.{HasNoted, MayNote};
    ghost use Rattle.bw_core.specs.Views.{kept_by, noted_of};

    // Room for a cut for each of so many frames.
    pub(crate) fn reserve_cuts(&mut self, frames: usize) -> Result<(), AllocError>
        ensures same { kept_by self.new holding ≡ kept_by self.old holding }
        ensures room { OnOk result
            (vec_len self.new.seals.cuts + frames ≤ vec_capacity self.new.seals.cuts) }
        ensures stays { noted_of self.new ≡ noted_of self.old }
    {
        self.seals.cuts.reserve(frames)
    }

    // Each frame since the one that was to be next has a cut at the end of the history, and is
    // durable. The last blocks of pages are asked of the log again, and the empty buffer gets the
    // next number. Answers how many frames they are.
    pub(crate) fn note_moved(&mut self, first: Option<u64>) -> u64
        requires { MayNote (kept_by self.old holding) first (vec_len self.old.seals.cuts)
            (vec_capacity self.old.seals.cuts) }
        ensures noted { HasNoted (kept_by self.old holding) first result
            (kept_by self.new holding) }
        ensures stays { noted_of self.new ≡ noted_of self.old }
    {
        let end = self.intake.len();
        let next = self.log.next_frame();
        let frames = frames_between(first, next);
        push_many(&mut self.seals.cuts, end, frames);
        self.seals.durable += frames;
        renew(&mut self.pages.newest, &self.log);
        begin_at(&mut self.pages.making, next, self.log.is_failed());
        frames
    }
}
