// A segment of which all calls fail from some call on, on purpose.
ghost use Rattle.std.specs.Prelude.{◌≡◌, ◌+◌, ◌-◌, ◌<◌, ◌≤◌, ◌↔◌, length, take, drop, OnOk, OnErr, IfSome, IsNone, IsErr, MatchResult};

use crate::memory::MemSegment;
use crate::segments::{Fault, Segment};

/// A segment in memory that fails for good from some append or read on, and whose count of failures
/// begins at any number, for tests of what stands on segments.
#[derive(Drop)]
pub struct DeadSegment {
    inner: MemSegment,
    /// How many appends and reads pass before all fail.
    passes: u64,
    /// How many bytes of its piece an append keeps that fails.
    keep: u64,
    /// How many calls have failed, with those that it began with.
    failures: u64,
}

impl DeadSegment {
    ghost use Rattle.bw_device.specs.Memory.{memory_holding};
    ghost use Rattle.bw_device.specs.Dead.{dead_holding, passes_left, kept_bytes};

    /// The first `calls` appends and reads pass, and all later ones fail; the count of failures
    /// begins at `failures`.
    ///
    /// An append that fails keeps the first `keep` bytes of its piece, or all if the piece has no
    /// more.
    pub fn new(inner: MemSegment, calls: u64, keep: u64, failures: u64) -> DeadSegment
        ensures holding { dead_holding result
            ≡ record (memory_holding inner) { failed = failures } }
        ensures passes_left { passes_left result ≡ calls }
        ensures kept_bytes { kept_bytes result ≡ keep }
    {
        DeadSegment {
            inner,
            passes: calls,
            keep,
            failures,
        }
    }
}

impl Segment for DeadSegment {
    ghost use Rattle.bw_device.specs.Holding.{appended, failed_once, torn_at};
    ghost use Rattle.bw_device.specs.Dead.{dead_holding, passes_left, kept_bytes};

    ghost holding = { dead_holding };

    /// Adds the piece, without memory. It fails exactly if no passes are left.
    fn append(&mut self, piece: &[u8]) -> Result<(), Fault>
        requires fits { length (dead_holding self.old).bytes + length piece.now ≤
            (dead_holding self.old).room }
        requires countable { (dead_holding self.old).failed < u64.MAX }
        ensures added { OnOk result
            (dead_holding self.new ≡ appended (dead_holding self.old) piece.now) }
        ensures torn { OnErr result (dead_holding self.new ≡
            torn_at (kept_bytes self.old) (dead_holding self.old) piece.now) }

        ensures fails { IsErr result ↔ (passes_left self.old ≡ 0) }
        ensures passes_left { passes_left self.new ≡ passes_left self.old - 1 }
        ensures kept_bytes { kept_bytes self.new ≡ kept_bytes self.old }
    {
        if self.passes > 0 {
            self.passes -= 1;
            self.inner.add(piece);
            return Ok(());
        }
        self.failures += 1;
        self.inner.add_first(self.keep, piece);
        Err(Fault)
    }

    /// Fills the slice with the held bytes from `at` on, without memory. It fails exactly if no
    /// passes are left, and then leaves the slice as it was.
    fn read(&mut self, at: u64, out: &mut [u8]) -> Result<(), Fault>
        requires within { at + length out.old ≤ length (dead_holding self.old).bytes }
        requires countable { (dead_holding self.old).failed < u64.MAX }
        ensures bytes { OnOk result
            (out.new ≡ take (length out.old) (drop at (dead_holding self.old).bytes)) }
        ensures holding { MatchResult result
            (λ _. dead_holding self.new ≡ dead_holding self.old)
            (λ _. dead_holding self.new ≡ failed_once (dead_holding self.old)) }

        ensures fails { IsErr result ↔ (passes_left self.old ≡ 0) }
        ensures slice { OnErr result (out.new ≡ out.old) }
        ensures passes_left { passes_left self.new ≡ passes_left self.old - 1 }
        ensures kept_bytes { kept_bytes self.new ≡ kept_bytes self.old }
    {
        if self.passes > 0 {
            self.passes -= 1;
            self.inner.copy_to(at, out);
            return Ok(());
        }
        self.failures += 1;
        Err(Fault)
    }

    fn len(&self) -> u64 {
        self.inner.len()
    }

    fn capacity(&self) -> u64 {
        self.inner.capacity()
    }

    fn lease(&self) -> u32 {
        self.inner.lease()
    }

    fn failures(&self) -> u64 {
        self.failures
    }

    /// It lends nothing, so that each read is counted.
    fn lend(&self) -> Option<&[u8]>
        ensures bytes { IfSome result (λ bytes. bytes.now ≡ (dead_holding self.now).bytes) }
        ensures none { IsNone result }
    {
        None
    }
}
