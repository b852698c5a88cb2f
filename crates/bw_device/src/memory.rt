// A segment in memory.
ghost use Rattle.std.specs.Prelude.{◌≡◌, ◌+◌, ◌<◌, ◌≤◌, ◌↔◌, ◌⊎◌, length, take, drop, [], vec_len, IsOk, IfOk, IfErr, IfSome, IsSome, IsErrAnd, IsErrOf};
ghost use Rattle.std.specs.Vec.{vec_capacity};
ghost use Rattle.bw_device.specs.declared.memory.TheConstants.{MAX_CAPACITY};

use crate::leases::Lease;
use crate::refusals::{NotMade, Refused};
use crate::segments::{Fault, Segment};
use std::alloc::Global;

/// The greatest capacity of a segment, in bytes: one gibibyte.
pub const MAX_CAPACITY: u64 = 1_073_741_824;

/// A segment in memory, which never fails. When it is dropped, its lease comes back.
#[derive(Drop)]
pub struct MemSegment {
    lease: Lease,
    /// In bytes.
    capacity: u64,
    /// The held bytes, in memory that was reserved for all of the capacity when the segment was
    /// made: so no append asks for any. The system gives it as it is written for the first time.
    bytes: Vec<u8>,
    ghost in_range: { (1 ≤ capacity) × (capacity ≤ MAX_CAPACITY) },
    ghost within_capacity: { vec_len bytes ≤ capacity },
    ghost reserved: { capacity ≤ vec_capacity bytes },
}

impl MemSegment {
    ghost use Rattle.bw_device.specs.Leases.{number_of};
    ghost use Rattle.bw_device.specs.Holding.{appended};
    ghost use Rattle.bw_device.specs.Memory.{memory_holding, fresh_holding};

    /// A segment of this capacity, in bytes, that holds nothing yet.
    ///
    /// All its memory is reserved here, and none of it is written. `BadConfig` is looked at before
    /// `NoMemory`.
    pub fn new(alloc: Global, lease: Lease, capacity: u64) -> Result<MemSegment, Refused>
        ensures made { IfOk result
            (λ s. memory_holding s ≡ fresh_holding (number_of lease) capacity []) }

        ensures bad_config { IsErrAnd result (λ e. e.cause ≡ NotMade.BadConfig) ↔
            ((capacity ≡ 0) ⊎ (MAX_CAPACITY < capacity)) }
        ensures lease { IfErr result (λ e. e.lease ≡ lease) }
    {
        MemSegment::with_bytes(alloc, lease, capacity, &[])
    }

    /// A segment of this capacity, in bytes, that holds a copy of the bytes.
    ///
    /// All its memory is reserved here, and no more of it is written than they take. `BadConfig` is
    /// looked at before `NoMemory`.
    pub fn with_bytes(
        alloc: Global,
        lease: Lease,
        capacity: u64,
        bytes: &[u8],
    ) -> Result<MemSegment, Refused>
        ensures made { IfOk result
            (λ s. memory_holding s ≡ fresh_holding (number_of lease) capacity bytes.now) }

        ensures bad_config { IsErrAnd result (λ e. e.cause ≡ NotMade.BadConfig) ↔
            ((capacity ≡ 0) ⊎ (MAX_CAPACITY < capacity) ⊎ (capacity < length bytes.now)) }
        ensures lease { IfErr result (λ e. e.lease ≡ lease) }
    {
        match filled(alloc, capacity, bytes) {
            Ok(filled) => Ok(MemSegment {
                lease,
                capacity,
                bytes: filled,
            }),
            Err(cause) => Err(Refused { lease, cause }),
        }
    }

    /// A segment of this capacity, in bytes, that holds these where they lie: nothing is copied,
    /// and no memory is taken. They have room for the capacity.
    pub fn of_vec(lease: Lease, capacity: u64, bytes: Vec<u8>) -> MemSegment
        requires in_range { (1 ≤ capacity) × (capacity ≤ MAX_CAPACITY) }
        requires within { length bytes.items ≤ capacity }
        requires reserved { capacity ≤ vec_capacity bytes }
        ensures { memory_holding result ≡
            fresh_holding (number_of lease) capacity bytes.items }
    {
        MemSegment {
            lease,
            capacity,
            bytes,
        }
    }

    // Adds the piece, for which there is room.
    pub(crate) fn add(&mut self, piece: &[u8])
        requires { length (memory_holding self.old).bytes + length piece.now ≤
            (memory_holding self.old).room }
        ensures { memory_holding self.new ≡ appended (memory_holding self.old) piece.now }
    {
        match self.bytes.extend_from_slice(piece) {
            Ok(()) => {}
            // The room was reserved.
            Err(_) => unreachable!(),
        }
    }

    // Adds the first `keep` bytes of the piece, or all if it has no more: what a failing append
    // leaves of it.
    pub(crate) fn add_first(&mut self, keep: u64, piece: &[u8])
        requires { length (memory_holding self.old).bytes + length piece.now ≤
            (memory_holding self.old).room }
        ensures { memory_holding self.new ≡
            appended (memory_holding self.old) (take keep piece.now) }
    {
        if keep >= piece.len() as u64 {
            return self.add(piece);
        }
        self.add(&piece[..keep as usize]);
    }

    // Fills the slice with the held bytes from `at` on.
    pub(crate) fn copy_to(&self, at: u64, out: &mut [u8])
        requires { at + length out.old ≤ length (memory_holding self.now).bytes }
        ensures { out.new ≡ take (length out.old) (drop at (memory_holding self.now).bytes) }
    {
        let from = at as usize;
        out.copy_from_slice(&self.bytes[from..from + out.len()]);
    }
}

// These bytes, with room for as many as the capacity says.
fn filled(alloc: Global, capacity: u64, bytes: &[u8]) -> Result<Vec<u8>, NotMade>
    ensures held { IfOk result (λ v. v.items ≡ bytes.now) }
    ensures reserved { IfOk result (λ v. capacity ≤ vec_capacity v) }
    ensures fits { IsOk result → (1 ≤ capacity) × (capacity ≤ MAX_CAPACITY)
        × (length bytes.now ≤ capacity) }

    ensures bad_config { IsErrOf result NotMade.BadConfig ↔
        ((capacity ≡ 0) ⊎ (MAX_CAPACITY < capacity) ⊎ (capacity < length bytes.now)) }
{
    if capacity == 0 || capacity > MAX_CAPACITY || bytes.len() as u64 > capacity {
        return Err(NotMade::BadConfig);
    }
    let Ok(mut all) = Vec::with_capacity(alloc, capacity as usize) else {
        return Err(NotMade::NoMemory);
    };
    match all.extend_from_slice(bytes) {
        Ok(()) => Ok(all),
        // The room is there.
        Err(_) => unreachable!(),
    }
}

impl Segment for MemSegment {
    ghost use Rattle.bw_device.specs.Holding.{appended};
    ghost use Rattle.bw_device.specs.Memory.{memory_holding};

    ghost holding = { memory_holding };

    /// Adds the piece, without memory. It never fails.
    fn append(&mut self, piece: &[u8]) -> Result<(), Fault>
        requires fits { length (memory_holding self.old).bytes + length piece.now ≤
            (memory_holding self.old).room }
        ensures added { memory_holding self.new ≡ appended (memory_holding self.old) piece.now }
        ensures succeeds { IsOk result }
    {
        self.add(piece);
        Ok(())
    }

    /// Fills the slice with the held bytes from `at` on, without memory. It never fails.
    fn read(&mut self, at: u64, out: &mut [u8]) -> Result<(), Fault>
        requires within { at + length out.old ≤ length (memory_holding self.old).bytes }
        ensures bytes { out.new ≡ take (length out.old) (drop at (memory_holding self.old).bytes) }
        ensures succeeds { IsOk result }
        ensures unchanged { memory_holding self.new ≡ memory_holding self.old }
    {
        self.copy_to(at, out);
        Ok(())
    }

    fn len(&self) -> u64 {
        self.bytes.len() as u64
    }

    fn capacity(&self) -> u64 {
        self.capacity
    }

    fn lease(&self) -> u32 {
        self.lease.number()
    }

    fn failures(&self) -> u64 {
        0
    }

    /// All held bytes, always.
    fn lend(&self) -> Option<&[u8]>
        ensures bytes { IfSome result (λ bytes. bytes.now ≡ (memory_holding self.now).bytes) }
        ensures always { IsSome result }
    {
        Some(self.bytes.as_slice())
    }
}
