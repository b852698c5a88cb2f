// A segment of which one call fails, on purpose.
ghost use Rattle.std.specs.Prelude.{◌≡◌, ◌≢◌, ◌+◌, ◌≤◌, ◌↔◌, length, take, drop, Some, OnOk, OnErr, IfSome, IsNone, IsErr, IsTrue, MatchResult};

use crate::memory::MemSegment;
use crate::segments::{Fault, Segment};

/// A segment in memory of which one append or read fails, for tests of what stands on segments.
#[derive(Drop)]
pub struct FuseSegment {
    inner: MemSegment,
    /// How many appends and reads pass before the one that fails; `None` once that one has failed.
    passes: Option<u64>,
    /// How many bytes of its piece an append keeps that fails.
    keep: u64,
}

impl FuseSegment {
    ghost use Rattle.bw_device.specs.Memory.{memory_holding};
    ghost use Rattle.bw_device.specs.Fuse.{fuse_holding, passes_left, kept_bytes, after_call};

    /// The first `calls` appends and reads pass, the next one fails, and all later ones pass.
    ///
    /// If it is an append that fails, it keeps the first `keep` bytes of its piece, or all if the
    /// piece has no more.
    pub fn new(inner: MemSegment, calls: u64, keep: u64) -> FuseSegment
        ensures holding { fuse_holding result ≡ memory_holding inner }
        ensures passes_left { passes_left result ≡ Some calls }
        ensures kept_bytes { kept_bytes result ≡ keep }
    {
        FuseSegment {
            inner,
            passes: Some(calls),
            keep,
        }
    }

    // Whether this call passes. The one that does not is counted here, in that none are left.
    fn burn(&mut self) -> bool
        ensures answer { IsTrue result ↔ (passes_left self.old ≢ Some 0) }
        ensures after { self.new ≡ record self.old { passes = after_call (passes_left self.old) } }
    {
        match self.passes {
            None => true,
            Some(0) => {
                self.passes = None;
                false
            }
            Some(calls) => {
                self.passes = Some(calls - 1);
                true
            }
        }
    }
}

impl Segment for FuseSegment {
    ghost use Rattle.bw_device.specs.Holding.{appended, failed_once, torn_at};
    ghost use Rattle.bw_device.specs.Fuse.{fuse_holding, passes_left, kept_bytes, after_call};

    ghost holding = { fuse_holding };

    /// Adds the piece, without memory. It fails exactly if no passes are left.
    fn append(&mut self, piece: &[u8]) -> Result<(), Fault>
        requires fits { length (fuse_holding self.old).bytes + length piece.now ≤
            (fuse_holding self.old).room }
        ensures added { OnOk result
            (fuse_holding self.new ≡ appended (fuse_holding self.old) piece.now) }
        ensures torn { OnErr result (fuse_holding self.new ≡
            torn_at (kept_bytes self.old) (fuse_holding self.old) piece.now) }

        ensures fails { IsErr result ↔ (passes_left self.old ≡ Some 0) }
        ensures passes_left { passes_left self.new ≡ after_call (passes_left self.old) }
        ensures kept_bytes { kept_bytes self.new ≡ kept_bytes self.old }
    {
        if self.burn() {
            self.inner.add(piece);
            return Ok(());
        }
        self.inner.add_first(self.keep, piece);
        Err(Fault)
    }

    /// Fills the slice with the held bytes from `at` on, without memory. It fails exactly if no
    /// passes are left, and then leaves the slice as it was.
    fn read(&mut self, at: u64, out: &mut [u8]) -> Result<(), Fault>
        requires within { at + length out.old ≤ length (fuse_holding self.old).bytes }
        ensures bytes { OnOk result
            (out.new ≡ take (length out.old) (drop at (fuse_holding self.old).bytes)) }
        ensures holding { MatchResult result
            (λ _. fuse_holding self.new ≡ fuse_holding self.old)
            (λ _. fuse_holding self.new ≡ failed_once (fuse_holding self.old)) }

        ensures fails { IsErr result ↔ (passes_left self.old ≡ Some 0) }
        ensures slice { OnErr result (out.new ≡ out.old) }
        ensures passes_left { passes_left self.new ≡ after_call (passes_left self.old) }
        ensures kept_bytes { kept_bytes self.new ≡ kept_bytes self.old }
    {
        if self.burn() {
            self.inner.copy_to(at, out);
            Ok(())
        } else {
            Err(Fault)
        }
    }

    fn len(&self) -> u64 {
        self.inner.len()
    }

    fn capacity(&self) -> u64 {
        self.inner.capacity()
    }

    fn lease(&self) -> u32 {
        self.inner.lease()
    }

    fn failures(&self) -> u64 {
        match self.passes {
            Some(_) => 0,
            None => 1,
        }
    }

    /// It lends nothing, so that each read is counted.
    fn lend(&self) -> Option<&[u8]>
        ensures bytes { IfSome result (λ bytes. bytes.now ≡ (fuse_holding self.now).bytes) }
        ensures none { IsNone result }
    {
        None
    }
}
