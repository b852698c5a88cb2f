// A segment in a file, and what it shares with its folder.
ghost use Rattle.std.specs.Prelude.{◌≡◌, ◌+◌, ◌++◌, ◌<◌, ◌≤◌, List, ℕ, length, take, drop, OnOk, OnErr, IfOk, IfSome, IsOk, IsSome};
ghost use Rattle.bw_device.specs.Memory.{memory_holding};
ghost use Rattle.bw_device.specs.declared.memory.TheConstants.{MAX_CAPACITY};
ghost use Rattle.bw_digest.specs.Rows.{reach};
ghost use Rattle.bw_file.specs.Asked.{append_calls, after_all, empty, IsBrokenOff, IsKept};

use crate::asked::{Asked, Pair, sync_bytes, write_bytes};
use crate::files::SegmentFile;
use crate::sums::note;
use bw_device::{Fault, MemSegment, Segment};
use bw_digest::Row;
use std::fs::File;
use std::io::{self, ErrorKind};
use std::sync::atomic::{AtomicBool, Ordering};
use std::sync::{Arc, OnceLock};

/// What a folder and its segments share.
#[derive(Drop)]
pub(crate) struct Shared<F> {
    /// Held as long as the folder or a segment of it stands, so that nobody else opens it.
    lock: F,
    /// Whether an append failed, of any segment, or a settlement.
    has_failed: AtomicBool,
    /// Whether a segment was opened, and what was read is not settled yet.
    is_unsettled: AtomicBool,
}

impl<F> Shared<F> {
    /// Of a folder whose lock was taken.
    pub(crate) fn new(lock: F) -> Shared<F> {
        Shared {
            lock,
            has_failed: AtomicBool::new(false),
            is_unsettled: AtomicBool::new(false),
        }
    }

    /// No segment is ever appended to.
    pub(crate) fn close(&self) {
        self.has_failed.store(true, Ordering::SeqCst);
    }

    /// No segment is appended to until all that was read is settled.
    pub(crate) fn wait(&self) {
        self.is_unsettled.store(true, Ordering::SeqCst);
    }

    /// What was read is settled.
    pub(crate) fn go_on(&self) {
        self.is_unsettled.store(false, Ordering::SeqCst);
    }

    // Whether a segment may be appended to.
    fn is_open(&self) -> bool {
        !self.has_failed.load(Ordering::SeqCst) && !self.is_unsettled.load(Ordering::SeqCst)
    }
}

/// Where a segment finds its files: there are none before they are settled.
pub(crate) type Place<F> = Arc<OnceLock<Pair<F>>>;

/// A segment in a file, and a copy of its bytes in memory, by which reads are answered.
///
/// An append is done when the system says that the file has it. After one that failed the file may
/// hold some beginning of the piece that the copy has not. So every later append to a segment of
/// that folder fails too, until the folder is opened again and the files are read. No segment may
/// go on from the copies while a file went on from the piece. A drop closes the file and leaves its
/// bytes.
#[derive(Drop)]
pub struct FileSegment<F = File> {
    copy: MemSegment,
    files: Place<F>,
    /// The sums that stand, once the folder is settled: they speak of each byte that is held.
    row: Row,
    /// Shared with the folder and its other segments.
    shared: Arc<Shared<F>>,
    /// How many appends have failed.
    failed: u64,
    /// What was asked of its files.
    asked: Asked,
    ghost noted: { (reach row).end ≡ length (memory_holding copy).bytes },
    /// If the disk does its duty, the file begins with the held bytes.
    ghost given: { take (length (memory_holding copy).bytes) (after_all empty asked.value).given
        ≡ (memory_holding copy).bytes },
    /// It does so after a stop too.
    ghost stands: { take (length (memory_holding copy).bytes) (after_all empty asked.value).stands
        ≡ (memory_holding copy).bytes },
}

impl<F: SegmentFile> FileSegment<F> {
    ghost use Rattle.bw_file.specs.FileHolding.{file_holding, asked_of};

    /// Over a file that holds what the copy has, by what was asked of it, and of which this row of
    /// sums speaks.
    pub(crate) fn over(
        copy: MemSegment,
        files: Place<F>,
        row: Row,
        shared: Arc<Shared<F>>,
        asked: Asked,
    ) -> FileSegment<F>
        requires noted { (reach row).end ≡ length (memory_holding copy).bytes }
        requires given { (after_all empty asked.value).given ≡ (memory_holding copy).bytes }
        requires stands { (after_all empty asked.value).stands ≡ (memory_holding copy).bytes }
        ensures holding { file_holding result ≡ memory_holding copy }
        ensures asked { asked_of result ≡ asked.value }
    {
        FileSegment {
            copy,
            files,
            row,
            shared,
            failed: 0,
            asked,
        }
    }
}

// The files that may be appended to: there are none as long as no segment may be.
fn open_files<'a, F: SegmentFile>(shared: &Shared<F>, files: &'a Place<F>) -> Option<&'a Pair<F>> {
    if shared.is_open() { files.get() } else { None }
}

// Writes the piece from this offset on, waits until the system says it is there, and then writes
// its sum after those of the row, for which nobody waits.
fn write_through<F: SegmentFile>(
    files: Option<&Pair<F>>,
    at: u64,
    row: Row,
    piece: &[u8],
    asked: &mut Asked,
) -> io::Result<Row>
    requires { (reach row).end + length piece.now ≤ MAX_CAPACITY }
    ensures end { IfOk result (λ new. (reach new).end ≡ (reach row).end + length piece.now) }
    ensures asked { OnOk result (asked.new.value ≡ asked.old.value
        ++ append_calls at (reach row) piece.now) }
    ensures broken { OnErr result
        (IsBrokenOff (append_calls at (reach row) piece.now) asked.old.value asked.new.value) }
{
    let Some(files) = files else {
        return Err(io::Error::from(ErrorKind::Other));
    };
    write_bytes(files, at, piece, asked)?;
    sync_bytes(files, asked)?;
    note(files, row, piece, asked)
}

impl<F: SegmentFile + Send + Sync> Segment for FileSegment<F> {
    ghost use Rattle.bw_device.specs.Holding.{appended, failed_once};
    ghost use Rattle.bw_file.specs.FileHolding.{file_holding, asked_of, sums_of};

    ghost holding = { file_holding };

    /// Adds the piece, and waits until the system says that the file has it; its sum is written
    /// after it. If one of these fails, the held bytes stay, and every later append in this folder
    /// fails. It fails without a call of the system if a segment of the folder was opened and is
    /// not settled.
    ///
    /// A piece is at most 262,168 bytes if the files are to be opened again after a sync that
    /// failed: so many the next opening writes once more.
    fn append(&mut self, piece: &[u8]) -> Result<(), Fault>
        requires fits { length (file_holding self.old).bytes + length piece.now ≤
            (file_holding self.old).room }
        requires countable { (file_holding self.old).failed < u64.MAX }
        ensures added { OnOk result
            (file_holding self.new ≡ appended (file_holding self.old) piece.now) }
        ensures failed { OnErr result
            (file_holding self.new ≡ failed_once (file_holding self.old)) }

        // What was asked of the files: all of it before the answer.
        ensures asked { OnOk result (asked_of self.new ≡ asked_of self.old
            ++ append_calls (length (file_holding self.old).bytes) (sums_of self.old) piece.now) }
        ensures broken { OnErr result (IsBrokenOff
            (append_calls (length (file_holding self.old).bytes) (sums_of self.old) piece.now)
            (asked_of self.old) (asked_of self.new)) }
        ensures kept { (file : List ℕ) → IsKept (asked_of self.new) file →
            take (length (file_holding self.new).bytes) file ≡ (file_holding self.new).bytes }
    {
        // The copy is changed last, so that an append that fails leaves it as it was.
        let files = open_files(&self.shared, &self.files);
        let at = self.copy.len();
        let Ok(row) = write_through(files, at, self.row, piece, &mut self.asked) else {
            self.shared.close();
            self.failed += 1;
            return Err(Fault);
        };
        match self.copy.append(piece) {
            Ok(()) => {}
            Err(Fault) => unreachable!(),
        }
        self.row = row;
        Ok(())
    }

    /// Fills the slice with the held bytes from `at` on, by the copy. It never fails.
    fn read(&mut self, at: u64, out: &mut [u8]) -> Result<(), Fault>
        requires within { at + length out.old ≤ length (file_holding self.old).bytes }
        ensures bytes { out.new ≡ take (length out.old) (drop at (file_holding self.old).bytes) }
        ensures succeeds { IsOk result }
        ensures unchanged { file_holding self.new ≡ file_holding self.old }
    {
        match self.copy.read(at, out) {
            Ok(()) => Ok(()),
            Err(Fault) => unreachable!(),
        }
    }

    fn len(&self) -> u64 {
        self.copy.len()
    }

    fn capacity(&self) -> u64 {
        self.copy.capacity()
    }

    fn lease(&self) -> u32 {
        self.copy.lease()
    }

    fn failures(&self) -> u64 {
        self.failed
    }

    /// All held bytes, of the copy.
    fn lend(&self) -> Option<&[u8]>
        ensures bytes { IfSome result (λ bytes. bytes.now ≡ (file_holding self.now).bytes) }
        ensures always { IsSome result }
    {
        self.copy.lend()
    }
}
