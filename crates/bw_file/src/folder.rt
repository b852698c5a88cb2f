// A folder with a file for each segment.
ghost use Rattle.std.specs.Prelude.{◌≡◌, ◌≢◌, ◌≤◌, ◌<◌, ◌⊎◌, ◌↔◌, [], ◌∷◌, ◌++◌, true, length, All, IfOk, IfErr, OnOk, IsErrAnd};
ghost use Rattle.std.specs.List.Sorted.{IsStrictlyIncreasing};
ghost use Rattle.bw_device.specs.Leases.{number_of};
ghost use Rattle.bw_device.specs.Memory.{fresh_holding};
ghost use Rattle.bw_device.specs.declared.leases.TheConstants.{MAX_LEASES};
ghost use Rattle.bw_device.specs.declared.memory.TheConstants.{MAX_CAPACITY};
ghost use Rattle.bw_digest.specs.Rows.{reach};
ghost use Rattle.bw_file.specs.Asked.{Names, each_of, spare_calls};
ghost use Rattle.bw_file.specs.Written.{IsMade, IsWrittenAnew, IsBegun};
ghost use Rattle.bw_file.specs.FileHolding.{file_holding, asked_of, held_back_asked, held_back_left, asked_in, folder_asked, waiting_of, IsOpened};
ghost use Rattle.bw_file.specs.declared.refusals.FolderFault.TheVariants.{BadConfig};

use crate::asked::{
    Asked, Done, FolderAsked, Pair, add, make, nothing, nothing_yet, sync_names, sync_own_name,
};
use crate::files::{SegmentFile, with_capacity};
use crate::names::{leases_in, lock_path, segment_path, sums_path};
use crate::refusals::{FolderFault, NotOpened};
use crate::segment::{FileSegment, Place, Shared};
use crate::sums::sums_for;
use crate::unsettled::Unsettled;
use crate::writing::{cut_to_nothing, hold_back, write_anew, write_first};
use bw_device::{Lease, MAX_CAPACITY, MemSegment};
use bw_digest::Row;
use std::alloc::Global;
use std::fs::{self, File, OpenOptions};
use std::io::{self, ErrorKind};
use std::rt::Files;
use std::sync::{Arc, OnceLock};

/// A folder with a file for each segment, named by its lease, which nobody else has open.
///
/// It is open as long as it or one of its segments stands. A drop changes no file.
#[derive(Drop)]
pub struct Folder<F = File> {
    pub(crate) path: String,
    /// By which new names come to stand.
    pub(crate) itself: F,
    /// Shared with every segment of the folder.
    pub(crate) shared: Arc<Shared<F>>,
    /// What is owed to the segments that are not settled.
    pub(crate) waiting: Vec<Unsettled<F>>,
    /// What it asked of its files.
    pub(crate) asked: FolderAsked,
}

/// Makes the folder of this path, if it is missing; whether it was.
pub(crate) fn is_made<R: AllocGlobal + Files>(rt: &R, path: &str) -> io::Result<bool> {
    match fs::create_dir(rt, path) {
        Ok(()) => Ok(true),
        Err(error) if error.kind() == ErrorKind::AlreadyExists => Ok(false),
        Err(error) => Err(error),
    }
}

// Makes the folder if it is missing, and then waits until its name stands in its parent. The parent
// of a folder that is there may be one that nobody may read.
fn make_folder<R: AllocGlobal + Files<File = F>, F: SegmentFile>(
    rt: &R,
    path: &str,
) -> Result<FolderAsked, FolderFault>
    ensures made { IfOk result (λ asked. IsMade asked.value) }
{
    let mut asked = nothing_yet();
    if !make(rt, path, &mut asked)? {
        return Ok(asked);
    }
    let parent = format!(in rt.alloc(); "{path}/..")?;
    sync_own_name(&fs::open(rt, parent.as_str())?, &mut asked)?;
    Ok(asked)
}

// Where a segment finds these files, which are settled.
fn placed<F: SegmentFile>(alloc: Global, files: Pair<F>) -> Result<Place<F>, FolderFault>
    ensures cause { IfErr result (λ cause. cause ≢ BadConfig) }
{
    let Ok(place) = Arc::new(alloc, OnceLock::from(files)) else {
        return Err(FolderFault::NoMemory);
    };
    Ok(place)
}

// The file of this name, made if it is missing, to be read and written.
fn opened<R: AllocGlobal + Files<File = F>, F: SegmentFile>(rt: &R, name: &str) -> io::Result<F> {
    OpenOptions::new()
        .read(true)
        .write(true)
        .create(true)
        .open(rt, name)
}

impl<F: SegmentFile> Folder<F> {
    /// The folder of this path, which is made if it is missing; the folder that it lies in has to
    /// be there.
    ///
    /// `InUse` if another process has it open, or a `Folder`, a segment or a `FolderReader` of this
    /// one; `NotPlain` if `lock` is no plain file.
    pub fn open<R: AllocGlobal + Files<File = F>>(
        rt: &R,
        path: &str,
    ) -> Result<Folder<F>, FolderFault>
        ensures made { IfOk result (λ folder. IsMade (folder_asked folder)) }
        ensures none { IfOk result (λ folder. waiting_of folder ≡ []) }
    {
        let asked = make_folder(rt, path)?;
        // If the path is no folder, as a pipe, this finds it, and that is not opened either.
        let name = lock_path(rt, path)?;
        let itself = fs::open(rt, path)?;
        let lock = OpenOptions::new()
            .write(true)
            .create(true)
            .open(rt, name.as_str())?;
        Folder::locked(rt.alloc(), path, itself, lock, asked)
    }

    // The folder of this path, once nobody else has this file `lock` of it, and what was asked
    // before.
    pub(crate) fn locked(
        alloc: Global,
        path: &str,
        itself: F,
        lock: F,
        asked: FolderAsked,
    ) -> Result<Folder<F>, FolderFault>
        ensures asked { IfOk result (λ folder. folder_asked folder ≡ asked.value) }
        ensures none { IfOk result (λ folder. waiting_of folder ≡ []) }
    {
        lock.lock_alone()?;
        let path = String::from_str(alloc, path)?;
        let Ok(shared) = Arc::new(alloc, Shared::new(lock)) else {
            return Err(FolderFault::NoMemory);
        };
        Ok(Folder {
            path,
            itself,
            shared,
            waiting: Vec::new(alloc),
            asked,
        })
    }

    /// The numbers of the leases that have a file in the folder, be it empty, or only sums,
    /// ascending.
    pub fn leases<R: AllocGlobal + Files<File = F> + Clone + Drop>(
        &self,
        rt: &R,
    ) -> Result<Vec<u32>, FolderFault>
        ensures below { IfOk result (λ leases. All (λ lease. lease < MAX_LEASES) leases.items) }
        ensures ascending { IfOk result (λ leases. IsStrictlyIncreasing leases.items) }
    {
        leases_in(rt, self.path.as_str())
    }

    // The files of this lease, made if they are missing, on which no segment stands. The lock of
    // the first is that of both.
    fn taken<R: AllocGlobal + Files<File = F>>(
        &self,
        rt: &R,
        lease: u32,
        all: &mut FolderAsked,
    ) -> Result<Pair<F>, FolderFault>
        ensures asked { OnOk result (all.new.value ≡ all.old.value ++ Names true ∷ []) }
        ensures cause { IfErr result (λ cause. cause ≢ BadConfig) }
    {
        let name = segment_path(rt, self.path.as_str(), lease)?;
        let beside = sums_path(rt, self.path.as_str(), lease)?;
        let file = opened(rt, name.as_str())?;
        file.lock_alone()?;
        let sums = opened(rt, beside.as_str())?;
        sync_names(&self.itself, all)?;
        Ok(Pair::new(file, sums))
    }

    // The files of this lease, which are empty and stand so, with what the folder shares.
    fn emptied<R: AllocGlobal + Files<File = F>>(
        &self,
        rt: &R,
        lease: u32,
    ) -> Result<(Place<F>, Arc<Shared<F>>, Asked), FolderFault>
        ensures asked { IfOk result (λ emptied. emptied.2.value ≡ spare_calls) }
        ensures cause { IfErr result (λ cause. cause ≢ BadConfig) }
    {
        let files = self.taken(rt, lease, &mut nothing_yet())?;
        let mut asked = nothing();
        cut_to_nothing(&files, &mut asked)?;
        Ok((placed(rt.alloc(), files)?, self.shared.clone()?, asked))
    }

    /// A new segment of this lease and capacity, in bytes, over an empty file: what the file held
    /// is gone, maybe also if this is refused for another reason than `BadConfig`, `InUse` and
    /// `NotPlain`.
    ///
    /// `InUse` if a segment stands on the file, `NotPlain` if it is no plain file.
    pub fn spare<R: AllocGlobal + Files<File = F>>(
        &self,
        rt: &R,
        lease: Lease,
        capacity: u64,
    ) -> Result<FileSegment<F>, NotOpened>
        ensures made { IfOk result
            (λ s. file_holding s ≡ fresh_holding (number_of lease) capacity []) }
        ensures asked { IfOk result (λ s. asked_of s ≡ spare_calls) }

        ensures bad_config { IsErrAnd result (λ e. e.cause ≡ BadConfig) ↔
            ((capacity ≡ 0) ⊎ (MAX_CAPACITY < capacity)) }
        ensures lease { IfErr result (λ e. e.lease ≡ lease) }
    {
        let lease = with_capacity(lease, capacity)?;
        let (files, shared, asked) = match self.emptied(rt, lease.number()) {
            Ok(emptied) => emptied,
            Err(cause) => return Err(NotOpened { lease, cause }),
        };
        match MemSegment::new(rt.alloc(), lease, capacity) {
            Ok(copy) => Ok(FileSegment::over(copy, files, Row::new(), shared, asked)),
            Err(refused) => Err(NotOpened {
                lease: refused.lease,
                cause: FolderFault::NoMemory,
            }),
        }
    }

    /// Writes these bytes into the file of this lease, which is made if it is missing, in place of
    /// what it held, and waits until they stand. Then it writes the sums of the pieces that end at
    /// these offsets, which ascend; the last piece ends with the bytes.
    ///
    /// `TooLong` if they are more than any segment may have, `InUse` if a segment stands on the
    /// file, `NotPlain` if it is no plain file: the file stays as it is then. What it holds after
    /// another refusal is not known.
    pub fn write<R: AllocGlobal + Files<File = F>>(
        &self,
        rt: &R,
        lease: u32,
        bytes: &[u8],
        ends: &[u64],
    ) -> Result<Done, FolderFault>
        ensures asked { IfOk result (λ done. IsWrittenAnew lease bytes.now (asked_in done)) }
    {
        if bytes.len() as u64 > MAX_CAPACITY {
            return Err(FolderFault::TooLong);
        }
        let rows = sums_for(rt.alloc(), bytes, ends)?;
        let mut all = nothing_yet();
        let files = self.taken(rt, lease, &mut all)?;
        let mut asked = nothing();
        write_anew(&files, bytes, &rows, &mut asked)?;
        add(&mut all, lease, &asked);
        Ok(Done { asked: all })
    }

    /// Writes these bytes as `write` does, but for the first one, in whose place a 0 stands: no
    /// segment begins so. It is written at the end of what is handed out.
    ///
    /// So of several files a part is never taken for the whole: this one is written first, and its
    /// end comes when all others stand.
    pub fn write_held_back<R: AllocGlobal + Files<File = F>>(
        &self,
        rt: &R,
        lease: u32,
        bytes: &[u8],
        ends: &[u64],
    ) -> Result<HeldBack<F>, FolderFault>
        ensures asked { IfOk result
            (λ h. IsBegun lease bytes.now (held_back_asked h) (held_back_left h)) }
    {
        if bytes.len() as u64 > MAX_CAPACITY {
            return Err(FolderFault::TooLong);
        }
        let rows = sums_for(rt.alloc(), bytes, ends)?;
        let mut all = nothing_yet();
        let files = self.taken(rt, lease, &mut all)?;
        let mut asked = nothing();
        let last = match hold_back(&files, bytes, &mut asked)? {
            Some(first) => Some((first, rows)),
            None => None,
        };
        add(&mut all, lease, &asked);
        Ok(HeldBack {
            lease,
            files,
            last,
            asked: all,
        })
    }

    /// Empties the file of a lease whose segment was given up and dropped, and waits until that
    /// stands. `InUse` if a segment stands on it, `NotPlain` if it is no plain file.
    ///
    /// It is done at once, before the next segment is given up: a stop must never show a later
    /// segment gone and an earlier one still there. If it fails, no other file may be emptied
    /// before this one is.
    pub fn empty<R: AllocGlobal + Files<File = F>>(
        &self,
        rt: &R,
        lease: u32,
    ) -> Result<Done, FolderFault>
        ensures asked { IfOk result (λ done. asked_in done ≡ each_of lease spare_calls) }
    {
        let name = segment_path(rt, self.path.as_str(), lease)?;
        let beside = sums_path(rt, self.path.as_str(), lease)?;
        let file = OpenOptions::new().write(true).open(rt, name.as_str())?;
        file.lock_alone()?;
        let files = Pair::new(file, opened(rt, beside.as_str())?);
        let mut asked = nothing();
        cut_to_nothing(&files, &mut asked)?;
        let mut all = nothing_yet();
        add(&mut all, lease, &asked);
        Ok(Done { asked: all })
    }
}

/// A file that was written but for its first byte, and for the sums beside it.
#[derive(Drop)]
pub struct HeldBack<F = File> {
    lease: u32,
    files: Pair<F>,
    /// The first byte, and the sums of all pieces. None if the file has no bytes.
    last: Option<(u8, Vec<u8>)>,
    /// What was asked of its files.
    asked: FolderAsked,
}

impl<F: SegmentFile> HeldBack<F> {
    /// Writes the first byte, and waits until it stands; then the sums. After a refusal only that
    /// byte of the file is not known.
    pub fn end(self) -> Result<Done, FolderFault>
        ensures asked { IfOk result
            (λ done. asked_in done ≡ held_back_asked self ++ held_back_left self) }
    {
        let HeldBack {
            lease,
            files,
            last,
            asked: mut all,
        } = self;
        if let Some((first, rows)) = last {
            let mut asked = nothing();
            write_first(&files, first, &rows, &mut asked)?;
            add(&mut all, lease, &asked);
        }
        Ok(Done { asked: all })
    }
}
