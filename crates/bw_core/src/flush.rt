//! The frame in the making is appended, and the next one begun.
//!
//! Checks and growths come first (`prepare`): after them nothing but the device can refuse. Then
//! the frame is sealed and its cut pushed, and only then its bytes go out. The order matters if the
//! device fails: what it wrote nobody knows, so the frame stays sealed, its cut stands beyond the
//! durable ones, and the log is failed for good. A second try would append after a piece of unknown
//! length. Recovery finds that frame or does not, and both are beginnings of the history.
//!
//! `durable` is counted after the append and nowhere else: it is what receipts, readers and
//! `forget` go by.

ghost use Rattle.std.specs.Prelude.{◌≡◌, ◌≤◌, ◌<◌, Some, true, false, length, vec_len, OnOk, IfErr, MatchResult};
ghost use Rattle.std.specs.Vec.{vec_capacity};
ghost use Rattle.bw_codec.specs.Grammar.{frame_bytes};
ghost use Rattle.bw_buffer.specs.Filling.{frame_of};
ghost use Rattle.bw_log.specs.Views.{IsReady};
ghost use Rattle.bw_log.specs.Appends.{refusal, AfterAppend, IsOkOrDevice, MayFollow};
ghost use Rattle.bw_care.specs.Views.{seen, IsSound as IsSoundLog};
ghost use Rattle.bw_core.specs.Faults.{FlushLeaves, AppendLeaves, IsRefused, FlushAnswers, flush_refusal, refusal_by};
ghost use Rattle.bw_core.specs.Kept.{EachCutStands};
ghost use Rattle.bw_core.specs.Machine.{machine_of, MayBeStopped};
ghost use Rattle.bw_core.specs.Settled.{IsSettled};
ghost use Rattle.bw_core.specs.Sparing.{takes_last};
ghost use Rattle.bw_history.specs.Machine.{Stops, keeps};

use crate::store::Core;
use bw_buffer::Buffer;
use bw_log::{Log, LogFault};
use bw_making::begin_next;
use bw_terms::StoreFault;

/// Which spares a flush may take, if it has to begin a segment.
#[derive(Clone, Copy)]
pub(crate) enum Spares {
    /// Each but the last, which is kept for a cleaning.
    ButLast,
    /// The last too: what comes after this flush may give a segment back.
    All,
}

impl Spares {
    fn takes_last(self) -> bool
        ensures { result ≡ takes_last self }
    {
        match self {
            Spares::ButLast => false,
            Spares::All => true,
        }
    }
}

impl Core {
    ghost use Rattle.bw_core.specs.Going.{GoesOn, KeepsIntake};
    ghost use Rattle.bw_core.specs.Views.{kept_by, noted_of, IsSound};

    /// Seals the frame in the making and appends it; answers its number, or `None` if nothing
    /// waited.
    ///
    /// Refused `Failed` if an append failed before. Then it is refused `Spent` if there is no
    /// number for a frame, even if nothing waits. Then, if something waits, it is refused
    /// `NoSegment`, `Spent` and `NoMemory` as the log's append is. After each of these nothing was
    /// changed. `Device`: the frame stays sealed and kept, and every later flush is refused
    /// `Failed`. Time is linear in the frame.
    pub fn flush(&mut self) -> Result<Option<u64>, StoreFault>
        requires sound { IsSound self.old holding }
        ensures goes { GoesOn self.old self.new holding }
        ensures intake { self.new.intake ≡ self.old.intake }

        ensures answers { FlushAnswers (flush_refusal (kept_by self.old holding)) result }
        ensures leaves { FlushLeaves (kept_by self.old holding) result (kept_by self.new holding) }
        ensures settled { OnOk result (IsSettled (kept_by self.new holding)) }
        ensures each_cut { EachCutStands (kept_by self.new holding) }

        // As the machine: all that was taken is kept, and what a stop leaves is found.
        ensures steps { MatchResult result
            (λ _. machine_of (kept_by self.new holding)
            ≡ keeps (machine_of (kept_by self.old holding)))
            (λ _. Stops (machine_of (kept_by self.old holding))
            (machine_of (kept_by self.new holding))) }
        ensures may_leave { MayBeStopped (kept_by self.new holding) }
    {
        self.flush_making(Spares::ButLast)
    }

    // Does what `flush` does, with these spares. Its clauses do not say what follows from that.
    pub(crate) fn flush_making(&mut self, spares: Spares) -> Result<Option<u64>, StoreFault>
        requires sound { IsSound self.old holding }
        ensures keeps { KeepsIntake self.old self.new holding }
        ensures pages { self.new.pages.leaves ≡ self.old.pages.leaves }
        ensures answers { FlushAnswers
            (refusal_by (takes_last spares) (kept_by self.old holding)) result }
        ensures leaves { FlushLeaves (kept_by self.old holding) result (kept_by self.new holding) }
    {
        if self.log.is_failed() {
            return Err(StoreFault::Failed);
        }
        let Some(next) = self.log.next_frame() else {
            return Err(StoreFault::Spent);
        };
        if self.pages.making.count() == 0 {
            return Ok(None);
        }
        self.prepare(spares)?;
        self.append_making(spares)?;
        Ok(Some(next))
    }

    // All growths and checks of the append.
    fn prepare(&mut self, spares: Spares) -> Result<(), StoreFault>
        requires sound { IsSound self.old holding }
        requires some { 1 ≤ length self.old.pages.making.blocks }
        ensures intake { self.new.intake ≡ self.old.intake }
        ensures pages { self.new.pages.leaves ≡ self.old.pages.leaves }
        ensures same { kept_by self.new holding ≡ kept_by self.old holding }
        ensures ready { OnOk result (IsReady (λ b. holding (b.vtable, b.value)) self.new.log
            (length (frame_bytes (frame_of self.new.pages.making))) (takes_last spares)) }
        ensures room { OnOk result
            (vec_len self.new.seals.cuts < vec_capacity self.new.seals.cuts) }
        ensures fits { length (frame_bytes (frame_of self.new.pages.making))
            ≤ self.new.pages.making.limit }
        ensures refused { IfErr result (IsRefused
            (refusal (kept_by self.old holding).log
            (length (frame_bytes (frame_of self.old.pages.making))) (takes_last spares))) }
        ensures noted { noted_of self.new ≡ noted_of self.old }
    {
        let len = self.pages.making.len();
        self.log.ready(len, spares.takes_last())?;
        self.seals.cuts.reserve(1)?;
        Ok(())
    }

    // What is left once nothing but the device can refuse.
    fn append_making(&mut self, spares: Spares) -> Result<(), StoreFault>
        requires sound { IsSound self.old holding }
        requires next { (kept_by self.old holding).log.next ≡ Some self.old.pages.making.frame }
        requires works { (kept_by self.old holding).log.is_failed ≡ false }
        requires some { 1 ≤ length self.old.pages.making.blocks }
        requires fits { length (frame_bytes (frame_of self.old.pages.making))
            ≤ self.old.pages.making.limit }
        requires ready { IsReady (λ b. holding (b.vtable, b.value)) self.old.log
            (length (frame_bytes (frame_of self.old.pages.making))) (takes_last spares) }
        requires room { vec_len self.old.seals.cuts < vec_capacity self.old.seals.cuts }
        requires countable { self.old.seals.durable < u64.MAX }
        ensures keeps { KeepsIntake self.old self.new holding }
        ensures pages { self.new.pages.leaves ≡ self.old.pages.leaves }
        ensures leaves { AppendLeaves (kept_by self.old holding) result (kept_by self.new holding) }
    {
        let end = self.intake.len();
        self.pages.making.seal();
        self.seals.cuts.push_reserved(end);
        match append_to(&mut self.log, &self.pages.making, spares) {
            Ok(()) => {
                self.seals.durable += 1;
                begin_next(&mut self.pages.making);
                Ok(())
            }
            Err(fault) => Err(StoreFault::from(fault)),
        }
    }
}

// Appends a sealed buffer's frame, as `Log::append_care` if the last spare may be taken, or else as
// `Log::append`.
fn append_to(log: &mut Log, buffer: &Buffer, spares: Spares) -> Result<(), LogFault>
    requires sound { IsSoundLog log.old holding }
    requires sealed { buffer.now.is_sealed ≡ true }
    requires limit { buffer.now.limit ≡ (seen log.old holding).f }
    requires follows { MayFollow (seen log.old holding) (frame_of buffer.now) }
    ensures leaves { AfterAppend (seen log.old holding) (frame_of buffer.now) (takes_last spares)
        result (seen log.new holding) }
    ensures prepared { IsReady (λ b. holding (b.vtable, b.value)) log.old
        (length (frame_bytes (frame_of buffer.now))) (takes_last spares) → IsOkOrDevice result }
{
    match spares {
        Spares::ButLast => log.append(buffer),
        Spares::All => log.append_care(buffer),
    }
}
