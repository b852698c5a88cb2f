// What a log knows of a segment, and how a call on one fails.
ghost use Rattle.std.specs.Prelude.{◌≡◌, ◌+◌, ◌<◌, ◌≤◌, length, take, drop, OnOk, IfSome, MatchResult};
ghost use Rattle.bw_device.specs.Holding.{Holding, appended, IsTorn, failed_once};

use thiserror::Error;

/// The segment failed in this call, and counts it.
#[derive(Clone, Copy, Debug, PartialEq, Eq, Error)]
#[error("the segment failed")]
pub struct Fault;

/// A place that bytes are appended to and read from.
///
/// Contracts see its `holding`: the held bytes, the room for them, the number of its lease, and how
/// many appends and reads have failed. No append or read may be made once that count is at its
/// greatest value.
pub trait Segment: Send + Drop {
    ghost holding: { Self → Holding };

    /// Adds the piece, for which there has to be room. If it fails, some beginning of the piece was
    /// added, maybe all of it.
    fn append(&mut self, piece: &[u8]) -> Result<(), Fault>
        requires fits { length (holding self.old).bytes + length piece.now ≤
            (holding self.old).room }
        requires countable { (holding self.old).failed < u64.MAX }
        ensures { MatchResult result
            (λ _. holding self.new ≡ appended (holding self.old) piece.now)
            (λ _. IsTorn (holding self.old) piece.now (holding self.new)) };

    /// Fills the slice with the held bytes from offset `at` on. If it fails, what it left in the
    /// slice is open.
    fn read(&mut self, at: u64, out: &mut [u8]) -> Result<(), Fault>
        requires within { at + length out.old ≤ length (holding self.old).bytes }
        requires countable { (holding self.old).failed < u64.MAX }
        ensures bytes { OnOk result
            (out.new ≡ take (length out.old) (drop at (holding self.old).bytes)) }
        ensures holding { MatchResult result
            (λ _. holding self.new ≡ holding self.old)
            (λ _. holding self.new ≡ failed_once (holding self.old)) };

    /// How many bytes are held.
    fn len(&self) -> u64
        ensures value { result ≡ length (holding self.now).bytes }
        ensures within { result ≤ (holding self.now).room };

    /// How many bytes there is room for, those that are held among them.
    fn capacity(&self) -> u64
        ensures { result ≡ (holding self.now).room };

    /// The number of the lease.
    fn lease(&self) -> u32
        ensures { result ≡ (holding self.now).lease };

    /// How many appends and reads have failed.
    fn failures(&self) -> u64
        ensures { result ≡ (holding self.now).failed };

    /// All held bytes where they lie, if the segment lends them. One that counts its reads, or has
    /// to ask a device for them, lends none.
    fn lend(&self) -> Option<&[u8]>
        ensures { IfSome result (λ bytes. bytes.now ≡ (holding self.now).bytes) }
    {
        None
    }
}
