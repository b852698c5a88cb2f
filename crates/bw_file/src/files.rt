// What is asked of an open file, and the bytes of one.
ghost use Rattle.std.specs.Prelude.{◌≡◌, ◌≢◌, ◌≤◌, ◌↔◌, ◌++◌, length, IsOk, IfOk, IfErr};
ghost use Rattle.std.specs.Vec.{vec_capacity};
ghost use Rattle.bw_device.specs.Leases.{number_of};
ghost use Rattle.bw_device.specs.Memory.{memory_holding};
ghost use Rattle.bw_device.specs.declared.memory.TheConstants.{MAX_CAPACITY};
ghost use Rattle.bw_file.specs.Asked.{read_calls};
ghost use Rattle.bw_file.specs.FileHolding.{IsOpened};
ghost use Rattle.bw_file.specs.declared.refusals.FolderFault.TheVariants.{BadConfig};

use crate::asked::{Asked, len_of, read_bytes};
use crate::refusals::{FolderFault, NotOpened};
use bw_device::{Lease, MAX_CAPACITY, MemSegment};
use std::alloc::{AllocError, Global};
use std::fs::{File, OpenFile, TryLockError};
use std::os::unix::fs::FileExt;

/// An open file as a folder and its segments use it: `File`, or a type of a test in its place.
pub trait SegmentFile: FileExt + OpenFile + Drop {
    /// Takes the lock of the file, if nobody has it. It goes with the open file.
    fn lock_alone(&self) -> Result<(), TryLockError>;

    /// Takes the lock of the file beside others who read, if nobody has it exclusively.
    fn lock_to_read(&self) -> Result<(), TryLockError>;
}

impl SegmentFile for File {
    fn lock_alone(&self) -> Result<(), TryLockError> {
        self.try_lock()
    }

    fn lock_to_read(&self) -> Result<(), TryLockError> {
        self.try_lock_shared()
    }
}

/// What a list is made longer by, before a file is read into it.
const BLANK: [u8; 4_096] = [0; 4_096];

// A list of so many bytes, of any kind, with room for so many at least.
fn blank(alloc: Global, len: usize, room: usize) -> Result<Vec<u8>, AllocError>
    requires { len ≤ room }
    ensures len { IfOk result (λ bytes. length bytes.items ≡ len) }
    ensures room { IfOk result (λ bytes. room ≤ vec_capacity bytes) }
{
    let mut bytes = Vec::with_capacity(alloc, room)?;
    'pieces: while bytes.len() < len {
        let more = (len - bytes.len()).min(BLANK.len());
        bytes.extend_from_slice(&BLANK[..more])?;
    }
    Ok(bytes)
}

/// The bytes of an open file, in a list that has room for so many at least. Its length is looked at
/// before any is read.
pub(crate) fn bytes_of<F: SegmentFile>(
    alloc: Global,
    file: &F,
    capacity: u64,
    asked: &mut Asked,
) -> Result<Vec<u8>, FolderFault>
    ensures found { IfOk result (λ bytes.
        asked.new.value ≡ asked.old.value ++ read_calls bytes.items) }
    ensures within { IfOk result (λ bytes. length bytes.items ≤ MAX_CAPACITY) }
    ensures room { IfOk result (λ bytes. capacity ≤ vec_capacity bytes) }
    ensures cause { IfErr result (λ cause. cause ≢ BadConfig) }
{
    let len = len_of(file, asked)?;
    if len > MAX_CAPACITY {
        return Err(FolderFault::TooLong);
    }
    let mut bytes = blank(alloc, len as usize, capacity.max(len) as usize)?;
    read_bytes(file, &mut bytes, asked)?;
    Ok(bytes)
}

/// The lease again, if a segment may have this capacity.
pub(crate) fn with_capacity(lease: Lease, capacity: u64) -> Result<Lease, NotOpened>
    ensures fits { IsOk result ↔ ((1 ≤ capacity) × (capacity ≤ MAX_CAPACITY)) }
    ensures kept { IfOk result (λ l. l ≡ lease) }
    ensures lease { IfErr result (λ e. e.lease ≡ lease) }
    ensures cause { IfErr result (λ e. e.cause ≡ BadConfig) }
{
    if capacity > 0 && capacity <= MAX_CAPACITY {
        return Ok(lease);
    }
    Err(NotOpened {
        lease,
        cause: FolderFault::BadConfig,
    })
}

/// The copy in memory, which these bytes become where they lie: they have room for the capacity.
///
/// Its capacity is the greater of this one and their number.
pub(crate) fn copy_of(lease: Lease, capacity: u64, bytes: Vec<u8>) -> MemSegment
    requires capacity { (1 ≤ capacity) × (capacity ≤ MAX_CAPACITY) }
    requires within { length bytes.items ≤ MAX_CAPACITY }
    requires room { capacity ≤ vec_capacity bytes }
    ensures opened { IsOpened (number_of lease) capacity (memory_holding result) }
    ensures bytes { (memory_holding result).bytes ≡ bytes.items }
{
    let capacity = capacity.max(bytes.len() as u64);
    MemSegment::of_vec(lease, capacity, bytes)
}
