// Segments over the files that are there. Each file is opened, locked, read and checked once;
// nothing is made, and nothing is written before whoever opens them says that what was read is a
// store, and settles it. Up to then no segment of the folder is appended to.
ghost use Rattle.std.specs.Prelude.{◌≡◌, ◌≢◌, ◌≤◌, ◌<◌, ◌⊎◌, ◌↔◌, ◌-◌, ◌*◌, ◌∷◌, ◌++◌, [], ℕ, true, is_some, length, drop, map, max, IfOk, IfErr, OnOk, OnErr, IsErrAnd, MatchOption};
ghost use Rattle.std.specs.Vec.{vec_capacity};
ghost use Rattle.bw_device.specs.Leases.{number_of};
ghost use Rattle.bw_device.specs.declared.memory.TheConstants.{MAX_CAPACITY};
ghost use Rattle.bw_digest.specs.Rows.{reach};
ghost use Rattle.bw_digest.specs.Sums.{sum_of};
ghost use Rattle.bw_digest.specs.declared.sum.TheConstants.{SUM_LEN};
ghost use Rattle.bw_file.specs.declared.unsettled.TheConstants.{LAST};
ghost use Rattle.bw_file.specs.declared.refusals.FolderFault.TheVariants.{BadConfig};
ghost use Rattle.bw_file.specs.Asked.{Bytes, Find, Names, done, IsFound, IsCutOff};
ghost use Rattle.bw_file.specs.Settled.{calls_of, all_calls, settle_calls, owed_after, IsOwed};
ghost use Rattle.bw_file.specs.Written.{IsSettledAgain};
ghost use Rattle.bw_file.specs.FileHolding.{file_holding, asked_of, folder_asked, waiting_of, owed_of, owes, asked_in, IsOpened};

use crate::asked::{Asked, Done, FolderAsked, Pair, add, find, nothing, nothing_yet, sync_names};
use crate::files::{SegmentFile, bytes_of, copy_of, with_capacity};
use crate::folder::Folder;
use crate::names::{lock_path, segment_path, sums_path};
use crate::paying::{pay, pay_again};
use crate::refusals::{FolderFault, NotOpened};
use crate::segment::{FileSegment, Place, Shared};
use crate::sums::{checked, filled_up, sums_of};
use bw_device::Lease;
use bw_digest::{Row, SUM_LEN, Sum};
use std::alloc::Global;
use std::fs::{self, OpenOptions};
use std::io::{self, ErrorKind};
use std::mem;
use std::rt::Files;
use std::sync::{Arc, OnceLock};

// So many bytes at the end of a file are written once more, if they have no sum: no append is
// longer, a header or the longest frame.
pub(crate) const LAST: usize = 262_168;

/// What is owed to a segment that was opened, and its files. The folder keeps both until they are
/// settled, for the segment is in a log by then.
#[derive(Drop)]
pub(crate) struct Unsettled<F> {
    lease: u32,
    /// The segment's file, if it is there.
    file: Option<F>,
    /// That of its sums, if it is there.
    sums: Option<F>,
    owed: Owed,
    /// Where the segment will find its files.
    place: Place<F>,
}

/// What is written into the files of a segment once recovery has taken it.
#[derive(Drop)]
pub(crate) struct Owed {
    /// Where the end begins that is written again, in bytes.
    pub(crate) from: u64,
    /// That end: bytes that no sum speaks of, so maybe nobody has waited for them.
    pub(crate) end: Vec<u8>,
    /// How many bytes of sums there are.
    pub(crate) held: u64,
    /// How many of them count.
    pub(crate) counted: u64,
    /// The sum of the bytes that had none.
    pub(crate) sum: Option<Sum>,
}

/// What was read of a segment's files, and what it shares with its folder.
#[derive(Drop)]
struct Read<F> {
    bytes: Vec<u8>,
    /// The sums of all of them, once what is owed is paid.
    row: Row,
    place: Place<F>,
    shared: Arc<Shared<F>>,
    /// What was asked of the files.
    asked: Asked,
}

// Where a segment will find its files.
fn no_files<F: SegmentFile>(alloc: Global) -> Result<Place<F>, FolderFault>
    ensures cause { IfErr result (λ cause. cause ≢ BadConfig) }
{
    let Ok(place) = Arc::new(alloc, OnceLock::new()) else {
        return Err(FolderFault::NoMemory);
    };
    Ok(place)
}

// The file of this name, to be read and written, if it is there.
pub(crate) fn found<R: AllocGlobal + Files<File = F>, F: SegmentFile>(
    rt: &R,
    name: &str,
) -> io::Result<Option<F>> {
    match OpenOptions::new().read(true).write(true).open(rt, name) {
        Ok(file) => Ok(Some(file)),
        Err(error) if error.kind() == ErrorKind::NotFound => Ok(None),
        Err(error) => Err(error),
    }
}

// The segment's file of this name, if it is there, under its lock.
fn found_alone<R: AllocGlobal + Files<File = F>, F: SegmentFile>(
    rt: &R,
    name: &str,
    asked: &mut Asked,
) -> Result<Option<F>, FolderFault>
    ensures found { IfOk result (λ file. asked.new.value
        ≡ asked.old.value ++ done Bytes (Find (is_some file)) ∷ []) }
    ensures cause { IfErr result (λ cause. cause ≢ BadConfig) }
{
    match find(rt, name, asked)? {
        Some(file) => {
            file.lock_alone()?;
            Ok(Some(file))
        }
        None => Ok(None),
    }
}

// The file of this name, which is made: nothing has come there since it was looked for.
fn made<R: AllocGlobal + Files<File = F>, F: SegmentFile>(rt: &R, name: &str) -> io::Result<F> {
    OpenOptions::new()
        .read(true)
        .write(true)
        .create_new(true)
        .open(rt, name)
}

// The segment's file of this name, which is made, under its lock.
fn made_alone<R: AllocGlobal + Files<File = F>, F: SegmentFile>(
    rt: &R,
    name: &str,
) -> Result<F, FolderFault> {
    let file = made(rt, name)?;
    file.lock_alone()?;
    Ok(file)
}

// The bytes of a segment's file, in a list that has room for so many at least; none if it is
// missing.
fn bytes_in<F: SegmentFile>(
    alloc: Global,
    file: &Option<F>,
    capacity: u64,
    asked: &mut Asked,
) -> Result<Vec<u8>, FolderFault>
    requires { asked.old.value ≡ done Bytes (Find (is_some file.now)) ∷ [] }
    ensures found { IfOk result (λ bytes. IsFound bytes.items asked.new.value) }
    ensures within { IfOk result (λ bytes. length bytes.items ≤ MAX_CAPACITY) }
    ensures room { IfOk result (λ bytes. capacity ≤ vec_capacity bytes) }
    ensures cause { IfErr result (λ cause. cause ≢ BadConfig) }
{
    match file {
        Some(file) => bytes_of(alloc, file, capacity, asked),
        None => Ok(Vec::with_capacity(alloc, capacity as usize)?),
    }
}

// The bytes of a file of sums; none if it is missing.
fn rows_in<F: SegmentFile>(alloc: Global, sums: &Option<F>) -> Result<Vec<u8>, FolderFault>
    ensures cause { IfErr result (λ cause. cause ≢ BadConfig) }
{
    match sums {
        Some(sums) => sums_of(alloc, sums),
        None => Ok(Vec::new(alloc)),
    }
}

// What is owed to a segment of these bytes, which fit so many bytes of sums, of which those of the
// row count; and the row once it is paid.
//
// A sum is written after its bytes were waited for. So only those without one may be only in the
// system's memory, and of these only what was appended last: a folder without sums is an older one.
fn owed_to(alloc: Global, bytes: &[u8], held: u64, row: Row) -> Result<(Owed, Row), FolderFault>
    requires end { (reach row).end ≤ length bytes.now }
    requires within { length bytes.now ≤ MAX_CAPACITY }
    ensures noted { IfOk result (λ owed. (reach owed.1).end ≡ length bytes.now) }
    ensures from { IfOk result (λ owed.
        owed.0.from ≡ max (length bytes.now - LAST) (reach row).end) }
    ensures end { IfOk result (λ owed. owed.0.end.items ≡ drop owed.0.from bytes.now) }
    ensures sum { IfOk result (λ owed. MatchOption owed.0.sum
        ((reach row).end ≡ length bytes.now)
        (λ sum. sum ≡ sum_of (reach row) (drop (reach row).end bytes.now))) }
    ensures stands { IfOk result (λ owed. owed.0.held ≡ held) }
    ensures counted { IfOk result (λ owed. owed.0.counted ≡ (reach row).count * SUM_LEN) }
    ensures owed { IfOk result (λ owed. (lease : ℕ) →
        owed_of lease owed.0 ≡ owed_after lease bytes.now held (reach row)) }
    ensures cause { IfErr result (λ cause. cause ≢ BadConfig) }
{
    let from = bytes.len().saturating_sub(LAST).max(row.end() as usize);
    let mut end = Vec::new(alloc);
    end.extend_from_slice(&bytes[from..])?;
    let (full, sum) = filled_up(row, bytes);
    let owed = Owed {
        from: from as u64,
        end,
        held,
        counted: row.count() * SUM_LEN as u64,
        sum,
    };
    Ok((owed, full))
}

// Makes the files of a segment that are missing in the folder of this path.
fn completed<R: AllocGlobal + Files<File = F>, F: SegmentFile>(
    rt: &R,
    path: &str,
    lease: u32,
    file: Option<F>,
    sums: Option<F>,
) -> Result<Pair<F>, FolderFault> {
    let file = match file {
        Some(file) => file,
        None => made_alone(rt, segment_path(rt, path, lease)?.as_str())?,
    };
    let sums = match sums {
        Some(sums) => sums,
        None => made(rt, sums_path(rt, path, lease)?.as_str())?,
    };
    Ok(Pair::new(file, sums))
}

// Makes what is missing of a segment, pays what is owed to it, and shows it its files.
fn settle<R: AllocGlobal + Files<File = F>, F: SegmentFile>(
    rt: &R,
    path: &str,
    one: Unsettled<F>,
    all: &mut FolderAsked,
) -> Result<(), FolderFault>
    ensures asked { OnOk result (all.new.value ≡ all.old.value ++ calls_of (owes one)) }
    ensures cut { OnErr result (IsCutOff (calls_of (owes one)) all.old.value all.new.value) }
{
    let Unsettled {
        lease,
        file,
        sums,
        owed,
        place,
    } = one;
    let files = completed(rt, path, lease, file, sums)?;
    let mut asked = nothing();
    let paid = pay(&files, &owed, &mut asked);
    add(all, lease, &asked);
    paid?;
    match place.try_set(files) {
        Ok(_) => Ok(()),
        // Nobody else sets it.
        Err(_) => Err(FolderFault::InUse),
    }
}

// Settles each of these segments, in this order, up to the first that is refused.
fn settle_all<R: AllocGlobal + Files<File = F>, F: SegmentFile>(
    rt: &R,
    path: &str,
    waiting: Vec<Unsettled<F>>,
    all: &mut FolderAsked,
) -> Result<(), FolderFault>
    ensures asked { OnOk result
        (all.new.value ≡ all.old.value ++ all_calls (map owes waiting.items)) }
    ensures cut { OnErr result
        (IsCutOff (all_calls (map owes waiting.items)) all.old.value all.new.value) }
{
    for one in waiting {
        settle(rt, path, one, all)?;
    }
    Ok(())
}

impl<F: SegmentFile> Folder<F> {
    /// The folder of this path, which was open before: its file `lock` is there. Nothing is made.
    ///
    /// Refused as `open` is, and `System` if the folder or `lock` is missing.
    pub fn open_again<R: AllocGlobal + Files<File = F>>(
        rt: &R,
        path: &str,
    ) -> Result<Folder<F>, FolderFault>
        ensures asked { IfOk result (λ folder. folder_asked folder ≡ []) }
        ensures none { IfOk result (λ folder. waiting_of folder ≡ []) }
    {
        let name = lock_path(rt, path)?;
        let itself = fs::open(rt, path)?;
        let lock = OpenOptions::new().write(true).open(rt, name.as_str())?;
        Folder::locked(rt.alloc(), path, itself, lock, nothing_yet())
    }

    // The bytes of the files of this lease, which fit their sums, in a list that has room for so
    // many at least, and what a segment over them takes beside; the folder keeps the files, and
    // what is owed to them. Nothing is written.
    fn read<R: AllocGlobal + Files<File = F>>(
        &mut self,
        rt: &R,
        lease: u32,
        capacity: u64,
    ) -> Result<Read<F>, FolderFault>
        ensures within { IfOk result (λ read. length read.bytes.items ≤ MAX_CAPACITY) }
        ensures room { IfOk result (λ read. capacity ≤ vec_capacity read.bytes) }
        ensures noted { IfOk result (λ read. (reach read.row).end ≡ length read.bytes.items) }
        ensures found { IfOk result (λ read. IsFound read.bytes.items read.asked.value) }
        ensures waits { IfOk result (λ read.
            IsOwed lease read.bytes.items (waiting_of self.old) (waiting_of self.new)) }
        ensures still { OnErr result (waiting_of self.new ≡ waiting_of self.old) }
        ensures asked { folder_asked self.new ≡ folder_asked self.old }
        ensures cause { IfErr result (λ cause. cause ≢ BadConfig) }
    {
        let name = segment_path(rt, self.path.as_str(), lease)?;
        let beside = sums_path(rt, self.path.as_str(), lease)?;
        let mut asked = nothing();
        let file = found_alone(rt, name.as_str(), &mut asked)?;
        let sums = found(rt, beside.as_str())?;
        let bytes = bytes_in(rt.alloc(), &file, capacity, &mut asked)?;
        let told = rows_in(rt.alloc(), &sums)?;
        let row = checked(lease, &bytes, &told)?;
        let (owed, row) = owed_to(rt.alloc(), &bytes, told.len() as u64, row)?;
        let shared = self.shared.clone()?;
        let place = no_files(rt.alloc())?;
        let one = Unsettled {
            lease,
            file,
            sums,
            owed,
            place: place.clone()?,
        };
        let Ok(()) = self.waiting.push(one) else {
            return Err(FolderFault::NoMemory);
        };
        Ok(Read {
            bytes,
            row,
            place,
            shared,
            asked,
        })
    }

    /// The segment of this lease, with the bytes of its file; with none if that is missing. Nothing
    /// is made and nothing is written: `settle` does that, and up to then each append in the folder
    /// fails.
    ///
    /// Its capacity is the greater of this one, in bytes, and the file's length. The file is read
    /// into the memory of the segment. `InUse` if a segment stands on the file, `TooLong` if it is
    /// longer than any segment may be, `NotPlain` if it is no plain file, `Damaged` if its bytes do
    /// not fit the sums beside it, `Missing` if the sums say that there were more.
    pub fn segment<R: AllocGlobal + Files<File = F>>(
        &mut self,
        rt: &R,
        lease: Lease,
        capacity: u64,
    ) -> Result<FileSegment<F>, NotOpened>
        ensures opened { IfOk result (λ s. IsOpened (number_of lease) capacity (file_holding s)) }
        ensures found { IfOk result (λ s. IsFound (file_holding s).bytes (asked_of s)) }

        // What a settlement will ask.
        ensures waits { IfOk result (λ s. IsOwed (number_of lease) (file_holding s).bytes
            (waiting_of self.old) (waiting_of self.new)) }
        ensures still { OnErr result (waiting_of self.new ≡ waiting_of self.old) }
        ensures asked { folder_asked self.new ≡ folder_asked self.old }

        ensures bad_config { IsErrAnd result (λ e. e.cause ≡ BadConfig) ↔
            ((capacity ≡ 0) ⊎ (MAX_CAPACITY < capacity)) }
        ensures lease { IfErr result (λ e. e.lease ≡ lease) }
    {
        let lease = with_capacity(lease, capacity)?;
        let Read {
            bytes,
            row,
            place,
            shared,
            asked,
        } = match self.read(rt, lease.number(), capacity) {
            Ok(read) => read,
            Err(cause) => return Err(NotOpened { lease, cause }),
        };
        let copy = copy_of(lease, capacity, bytes);
        shared.wait();
        Ok(FileSegment::over(copy, place, row, shared, asked))
    }

    // Settles what waits, and waits until the names stand.
    fn settle_waiting<R: AllocGlobal + Files<File = F>>(
        &mut self,
        rt: &R,
    ) -> Result<(), FolderFault>
        ensures asked { OnOk result (folder_asked self.new
            ≡ folder_asked self.old ++ settle_calls (waiting_of self.old)) }
        ensures cut { OnErr result (IsCutOff (settle_calls (waiting_of self.old))
            (folder_asked self.old) (folder_asked self.new)) }
        ensures none { waiting_of self.new ≡ [] }
    {
        let waiting = mem::replace(&mut self.waiting, Vec::new(rt.alloc()));
        settle_all(rt, self.path.as_str(), waiting, &mut self.asked)?;
        sync_names(&self.itself, &mut self.asked)?;
        Ok(())
    }

    /// Settles all segments that were opened, once recovery has taken them. It makes the files that
    /// are missing. It writes each end that has no sum once more, waits until it stands, and then
    /// gives it one. Sums that do not count are taken off. Then it waits until the names stand, and
    /// from there on each segment may be appended to.
    ///
    /// Refused, no segment of the folder is ever appended to: it is to be dropped, and opened
    /// again.
    pub fn settle<R: AllocGlobal + Files<File = F>>(&mut self, rt: &R) -> Result<(), FolderFault>
        ensures asked { OnOk result (folder_asked self.new
            ≡ folder_asked self.old ++ settle_calls (waiting_of self.old)) }
        ensures cut { OnErr result (IsCutOff (settle_calls (waiting_of self.old))
            (folder_asked self.old) (folder_asked self.new)) }
        ensures none { waiting_of self.new ≡ [] }
    {
        match self.settle_waiting(rt) {
            Ok(()) => {
                self.shared.go_on();
                Ok(())
            }
            Err(cause) => {
                self.shared.close();
                Err(cause)
            }
        }
    }

    /// Lets go of the files of all segments that are not settled. Nothing is written, and none of
    /// them is ever appended to.
    pub fn forget(&mut self)
        ensures none { waiting_of self.new ≡ [] }
        ensures asked { folder_asked self.new ≡ folder_asked self.old }
    {
        self.waiting.clear();
    }

    /// Writes the end of the file of this lease once more, and waits until it and the sums stand on
    /// the disk. Both files are there.
    pub fn settle_again<R: AllocGlobal + Files<File = F>>(
        &self,
        rt: &R,
        lease: u32,
    ) -> Result<Done, FolderFault>
        ensures asked { IfOk result (λ done. IsSettledAgain lease (asked_in done)) }
    {
        let name = segment_path(rt, self.path.as_str(), lease)?;
        let beside = sums_path(rt, self.path.as_str(), lease)?;
        let file = OpenOptions::new()
            .read(true)
            .write(true)
            .open(rt, name.as_str())?;
        let sums = OpenOptions::new()
            .read(true)
            .write(true)
            .open(rt, beside.as_str())?;
        let mut asked = nothing();
        pay_again(rt.alloc(), &Pair::new(file, sums), &mut asked)?;
        let mut all = nothing_yet();
        add(&mut all, lease, &asked);
        Ok(Done { asked: all })
    }

    /// Waits until the names of the folder's files stand on the disk.
    pub fn settle_names(&self) -> Result<Done, FolderFault>
        ensures asked { IfOk result (λ done. asked_in done ≡ Names true ∷ []) }
    {
        let mut asked = nothing_yet();
        sync_names(&self.itself, &mut asked)?;
        Ok(Done { asked })
    }

    /// How many bytes the longest file of these leases has.
    pub fn longest<R: AllocGlobal + Files<File = F>>(
        &self,
        rt: &R,
        leases: &[u32],
    ) -> Result<u64, FolderFault> {
        let mut longest = 0u64;
        for lease in leases {
            let name = segment_path(rt, self.path.as_str(), *lease)?;
            if let Some(file) = found(rt, name.as_str())? {
                longest = longest.max(file.metadata()?.len());
            }
        }
        Ok(longest)
    }
}
