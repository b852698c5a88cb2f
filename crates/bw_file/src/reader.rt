// A folder that is only looked at.
ghost use Rattle.std.specs.Prelude.{◌≡◌, ◌≢◌, ◌≤◌, ◌<◌, ◌⊎◌, ◌↔◌, length, All, IfOk, IfErr, IsErrAnd};
ghost use Rattle.std.specs.List.Sorted.{IsStrictlyIncreasing};
ghost use Rattle.std.specs.Vec.{vec_capacity};
ghost use Rattle.bw_device.specs.Leases.{number_of};
ghost use Rattle.bw_device.specs.Memory.{memory_holding};
ghost use Rattle.bw_device.specs.declared.leases.TheConstants.{MAX_LEASES};
ghost use Rattle.bw_device.specs.declared.memory.TheConstants.{MAX_CAPACITY};
ghost use Rattle.bw_digest.specs.Rows.{reach};
ghost use Rattle.bw_file.specs.FileHolding.{IsOpened};
ghost use Rattle.bw_file.specs.declared.refusals.FolderFault.TheVariants.{BadConfig};

use crate::asked::nothing;
use crate::files::{SegmentFile, bytes_of, copy_of, with_capacity};
use crate::names::{leases_in, lock_path, segment_path, sums_path};
use crate::refusals::{FolderFault, NotOpened};
use crate::sums::{checked, sums_of};
use bw_device::{Lease, MemSegment};
use bw_digest::Row;
use std::fs::{self, File};
use std::io::ErrorKind;
use std::rt::Files;

/// A folder that is open for reading: no file of it is made or written, and no `Folder` is open on
/// it at the same time.
#[derive(Drop)]
pub struct FolderReader<F = File> {
    path: String,
    /// Held beside other readers. A folder that was never opened to be written has no such file.
    lock: Option<F>,
}

/// How much of a file its sums speak of, all of which fits them. After these bytes stands what was
/// appended last before a crash, or all of a file of an older folder.
#[derive(Clone, Copy, Debug, PartialEq, Eq)]
pub struct Sound {
    /// How many bytes the file has.
    pub len: u64,
    /// How many of its first ones have a digest.
    pub summed: u64,
    /// How many pieces these are.
    pub pieces: u64,
}

// The lock of a folder beside other readers, where it has the file for it.
fn reading_lock<R: AllocGlobal + Files<File = F>, F: SegmentFile>(
    rt: &R,
    path: &str,
) -> Result<Option<F>, FolderFault> {
    let name = lock_path(rt, path)?;
    match fs::open(rt, name.as_str()) {
        Ok(lock) => {
            lock.lock_to_read()?;
            Ok(Some(lock))
        }
        Err(error) if error.kind() == ErrorKind::NotFound => Ok(None),
        Err(error) => Err(FolderFault::from(error)),
    }
}

impl<F: SegmentFile> FolderReader<F> {
    /// The folder of this path, which has to be there.
    ///
    /// `InUse` if a `Folder` or a segment of it stands, in this process or another. Other readers
    /// are no hindrance. `NotPlain` if `lock` is no plain file.
    pub fn open<R: AllocGlobal + Files<File = F>>(
        rt: &R,
        path: &str,
    ) -> Result<FolderReader<F>, FolderFault> {
        fs::metadata(rt, path)?;
        let lock = reading_lock(rt, path)?;
        let path = String::from_str(rt.alloc(), path)?;
        Ok(FolderReader { path, lock })
    }

    /// The numbers of the leases that have a file in the folder, be it empty, or only sums,
    /// ascending.
    pub fn leases<R: AllocGlobal + Files<File = F> + Clone + Drop>(
        &self,
        rt: &R,
    ) -> Result<Vec<u32>, FolderFault>
        ensures below { IfOk result (λ leases. All (λ lease. lease < MAX_LEASES) leases.items) }
        ensures ascending { IfOk result (λ leases. IsStrictlyIncreasing leases.items) }
    {
        leases_in(rt, self.path.as_str())
    }

    /// The bytes of the file of this lease, be they damaged or not; none if only its sums are
    /// there, or nothing. `TooLong` if the file is longer than any segment may be, `NotPlain` if it
    /// is none.
    pub fn bytes<R: AllocGlobal + Files<File = F>>(
        &self,
        rt: &R,
        lease: u32,
    ) -> Result<Vec<u8>, FolderFault>
        ensures within { IfOk result (λ bytes. length bytes.items ≤ MAX_CAPACITY) }
        ensures cause { IfErr result (λ cause. cause ≢ BadConfig) }
    {
        self.bytes_with(rt, lease, 0)
    }

    // What `bytes` gives, in a list that has room for so many at least.
    fn bytes_with<R: AllocGlobal + Files<File = F>>(
        &self,
        rt: &R,
        lease: u32,
        capacity: u64,
    ) -> Result<Vec<u8>, FolderFault>
        ensures within { IfOk result (λ bytes. length bytes.items ≤ MAX_CAPACITY) }
        ensures room { IfOk result (λ bytes. capacity ≤ vec_capacity bytes) }
        ensures cause { IfErr result (λ cause. cause ≢ BadConfig) }
    {
        let name = segment_path(rt, self.path.as_str(), lease)?;
        match fs::open(rt, name.as_str()) {
            Ok(file) => bytes_of(rt.alloc(), &file, capacity, &mut nothing()),
            Err(error) if error.kind() == ErrorKind::NotFound => {
                Ok(Vec::with_capacity(rt.alloc(), capacity as usize)?)
            }
            Err(error) => Err(FolderFault::from(error)),
        }
    }

    /// The bytes of the sums beside the file of this lease, be they lawful or not; none if there
    /// are no sums. `NotPlain` if what has their name is no plain file.
    pub fn sums<R: AllocGlobal + Files<File = F>>(
        &self,
        rt: &R,
        lease: u32,
    ) -> Result<Vec<u8>, FolderFault>
        ensures cause { IfErr result (λ cause. cause ≢ BadConfig) }
    {
        let name = sums_path(rt, self.path.as_str(), lease)?;
        match fs::open(rt, name.as_str()) {
            Ok(sums) => sums_of(rt.alloc(), &sums),
            Err(error) if error.kind() == ErrorKind::NotFound => Ok(Vec::new(rt.alloc())),
            Err(error) => Err(FolderFault::from(error)),
        }
    }

    // The bytes of the file of this lease, in a list that has room for so many at least, and the
    // row of its sums, which they fit.
    fn fitting<R: AllocGlobal + Files<File = F>>(
        &self,
        rt: &R,
        lease: u32,
        capacity: u64,
    ) -> Result<(Vec<u8>, Row), FolderFault>
        ensures within { IfOk result (λ found. length found.0.items ≤ MAX_CAPACITY) }
        ensures room { IfOk result (λ found. capacity ≤ vec_capacity found.0) }
        ensures noted { IfOk result (λ found. (reach found.1).end ≤ length found.0.items) }
        ensures cause { IfErr result (λ cause. cause ≢ BadConfig) }
    {
        let bytes = self.bytes_with(rt, lease, capacity)?;
        let sums = self.sums(rt, lease)?;
        let row = checked(lease, &bytes, &sums)?;
        Ok((bytes, row))
    }

    /// The bytes of the file of this lease, if they fit the sums beside it. `Damaged` if they do
    /// not, `Missing` if the sums say that there were more, `TooLong` if the file is longer than
    /// any segment may be, `NotPlain` if one of the two files is none.
    pub fn sound_bytes<R: AllocGlobal + Files<File = F>>(
        &self,
        rt: &R,
        lease: u32,
    ) -> Result<Vec<u8>, FolderFault>
        ensures within { IfOk result (λ bytes. length bytes.items ≤ MAX_CAPACITY) }
        ensures cause { IfErr result (λ cause. cause ≢ BadConfig) }
    {
        let (bytes, _) = self.fitting(rt, lease, 0)?;
        Ok(bytes)
    }

    /// Reads the file of this lease, and says how much of it has a digest, if all of that fits. It
    /// is refused as `sound_bytes` is.
    pub fn verify<R: AllocGlobal + Files<File = F>>(
        &self,
        rt: &R,
        lease: u32,
    ) -> Result<Sound, FolderFault>
        ensures within { IfOk result
            (λ sound. (sound.pieces ≤ sound.summed) × (sound.summed ≤ sound.len)
            × (sound.len ≤ MAX_CAPACITY)) }
        ensures cause { IfErr result (λ cause. cause ≢ BadConfig) }
    {
        let (bytes, row) = self.fitting(rt, lease, 0)?;
        Ok(Sound {
            len: bytes.len() as u64,
            summed: row.end(),
            pieces: row.count(),
        })
    }

    /// A segment in memory with the bytes of the file of this lease, which fit the sums beside it.
    ///
    /// Its capacity is the greater of this one, in bytes, and the file's length. What is appended
    /// to it stands only in memory. `Damaged` if the bytes do not fit, `Missing` if the sums say
    /// that there were more, `TooLong` if the file is longer than any segment may be, `NotPlain` if
    /// one of the two files is none.
    pub fn copy<R: AllocGlobal + Files<File = F>>(
        &self,
        rt: &R,
        lease: Lease,
        capacity: u64,
    ) -> Result<MemSegment, NotOpened>
        ensures opened { IfOk result
            (λ s. IsOpened (number_of lease) capacity (memory_holding s)) }

        ensures bad_config { IsErrAnd result (λ e. e.cause ≡ BadConfig) ↔
            ((capacity ≡ 0) ⊎ (MAX_CAPACITY < capacity)) }
        ensures lease { IfErr result (λ e. e.lease ≡ lease) }
    {
        let lease = with_capacity(lease, capacity)?;
        match self.fitting(rt, lease.number(), capacity) {
            Ok((bytes, _)) => Ok(copy_of(lease, capacity, bytes)),
            Err(cause) => Err(NotOpened { lease, cause }),
        }
    }
}
