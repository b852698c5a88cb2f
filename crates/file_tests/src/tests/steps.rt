//! Steps on one folder with up to two of its segments, and how each goes.

use super::listed::are_listed;
use super::recovered::{Said, goes_opened};
use super::watching::{WatchedFile, numbers_of};
use super::{Watched, clear};
use bw_device::{Desk, Lease, MAX_CAPACITY, Segment};
use bw_file::{FileSegment, Folder, FolderFault, FolderReader, NotOpened, Sound};
use std::alloc::Global;
use std::fs::{self, OpenOptions};
use std::os::unix::fs::symlink;

/// One step. Segments have a place, 0 or 1, which is also their lease.
#[derive(Drop)]
pub(super) enum Act {
    /// The folder is opened, and then what stood of an earlier opening is dropped.
    Open,
    /// The folder is opened for reading, and then what stood of an earlier such opening is dropped.
    Look,
    /// The folder is dropped, and its segments stay.
    Leave,
    LookEvicted,
    /// A segment of this capacity is opened, and settled.
    Segment(u32, u64),
    /// A segment of this capacity is opened, and settled. The calls are not compared.
    Opens(u32, u64),
    /// A new segment of this capacity.
    Spare(u32, u64),
    /// The folder is opened again, and then what stood of an earlier opening is dropped.
    OpenAgain,
    /// A segment of this capacity is opened.
    Reads(u32, u64),
    /// The segments that were opened are settled.
    Settle,
    /// They are let go.
    Forget,
    /// A segment is dropped.
    Stop(u32),
    Append(u32, &'static str),
    /// What a segment holds is this, and so many of its calls have failed.
    Holds(u32, &'static str, u64),
    /// A copy of at least this capacity, only for reading, holds this.
    Copy(u32, u64, &'static str),
    /// A file has so many bytes, of which so many first ones are so many pieces with a sum.
    Verify(u32, u64, u64, u64),
    Empty(u32),
    /// A file is written anew, whole.
    Whole(u32, &'static str, &'static [u64]),
    /// A file is written anew, whole, with its first byte at the end.
    HeldBack(u32, &'static str, &'static [u64]),
    /// After so many calls one fails, a write with so many bytes kept.
    Fail(u64, u64),
    /// Writes go to a device that is full, or no longer.
    Full(bool),
    /// The folder is made from outside.
    Make,
    /// A file of the folder is written from outside.
    Write(&'static str, &'static str),
    /// A file of the folder is written from outside, with so many first bytes of these, which are
    /// in hex.
    Bytes(&'static str, &'static str, usize),
    /// A file of the folder has these bytes, and no more.
    File(&'static str, &'static str),
    /// A file of the folder has so many first bytes of these, which are in hex, and no more.
    Has(&'static str, &'static str, usize),
    /// The file of the first lease has so many first bytes of these, which are in hex, and no more.
    First(&'static str, usize),
    /// No file of this name stands.
    NoFile(&'static str),
    /// A link of this name is made, to what has the other name in the folder.
    Link(&'static str, &'static str),
    /// The file of the first lease becomes longer than a segment may be.
    Lengthen,
    /// There are files for these leases.
    Listed(&'static [u32]),
    /// Recovery says so of the files of the first so many leases. The calls are not compared.
    Tells(usize, Said),
    /// The older of two segments is given up, and with true its file is emptied then.
    Cleans(bool),
}

/// How a step went: done, or the fault; `No` if something else is held than expected.
#[derive(Clone, Copy, PartialEq, Eq)]
pub(super) enum Told {
    Done,
    No,
    NoMemory,
    BadConfig,
    TooLong,
    NotPlain,
    /// At this offset of the file of this lease.
    Damaged(u32, u64),
    /// From this offset of the file of this lease to that one.
    Missing(u32, u64, u64),
    InUse,
    System,
}

/// A step, how it goes, and the letters of the calls that it makes.
#[derive(Drop)]
pub(super) struct Row(pub(super) Act, pub(super) Told, pub(super) &'static str);

/// A folder, and what stands of it.
pub(super) struct Stand {
    pub(super) rt: Watched,
    folder: Option<Folder<WatchedFile>>,
    reader: Option<FolderReader<WatchedFile>>,
    first: Option<FileSegment<WatchedFile>>,
    second: Option<FileSegment<WatchedFile>>,
}

impl Drop for Stand {
    fn drop(self) {
        let Stand {
            rt: _,
            folder: _,
            reader: _,
            first: _,
            second: _,
        } = self;
    }
}

/// Nothing stands yet.
pub(super) fn at(rt: HostRuntime, path: &'static str) -> Option<Stand> {
    Some(Stand {
        rt: Watched::new(rt, path)?,
        folder: None,
        reader: None,
        first: None,
        second: None,
    })
}

fn fault(cause: FolderFault) -> Told {
    match cause {
        FolderFault::NoMemory => Told::NoMemory,
        FolderFault::BadConfig => Told::BadConfig,
        FolderFault::TooLong => Told::TooLong,
        FolderFault::NotPlain => Told::NotPlain,
        FolderFault::Damaged { lease, at } => Told::Damaged(lease, at),
        FolderFault::Missing { lease, from, to } => Told::Missing(lease, from, to),
        FolderFault::InUse => Told::InUse,
        FolderFault::System(_) => Told::System,
    }
}

fn done_if(is: bool) -> Told {
    if is { Told::Done } else { Told::No }
}

// The lease 0 or 1 of a desk of its own.
pub(super) fn lease_of(alloc: Global, number: u32) -> Option<Lease> {
    let mut desk = Desk::new(alloc, 2).ok()?;
    if number != 0 {
        let _ = desk.take();
    }
    desk.take().ok()
}

// Puts what was opened at its place.
fn kept<T: Drop>(place: &mut Option<T>, opened: Result<T, FolderFault>) -> Told {
    match opened {
        Ok(value) => {
            *place = Some(value);
            Told::Done
        }
        Err(cause) => fault(cause),
    }
}

fn open(stand: &mut Stand) -> Told {
    let opened = Folder::open(&stand.rt, stand.rt.path);
    kept(&mut stand.folder, opened)
}

fn look(stand: &mut Stand) -> Told {
    let opened = FolderReader::open(&stand.rt, stand.rt.path);
    kept(&mut stand.reader, opened)
}

// Puts a segment that was opened at its place.
fn placed(
    stand: &mut Stand,
    place: u32,
    opened: Result<FileSegment<WatchedFile>, NotOpened>,
) -> Told {
    match opened {
        Ok(one) => {
            if place == 0 {
                stand.first = Some(one);
            } else {
                stand.second = Some(one);
            }
            Told::Done
        }
        Err(refused) => fault(refused.cause),
    }
}

// The segment of this place in an open folder, or a new one; none if no folder is open.
fn segment_in(
    folder: &mut Option<Folder<WatchedFile>>,
    rt: &Watched,
    place: u32,
    capacity: u64,
    is_spare: bool,
) -> Option<Result<FileSegment<WatchedFile>, NotOpened>> {
    let lease = lease_of(rt.alloc(), place)?;
    match folder {
        Some(folder) if is_spare => Some(folder.spare(rt, lease, capacity)),
        Some(folder) => Some(folder.segment(rt, lease, capacity)),
        None => None,
    }
}

fn segment(stand: &mut Stand, place: u32, capacity: u64, is_spare: bool) -> Told {
    match segment_in(&mut stand.folder, &stand.rt, place, capacity, is_spare) {
        Some(opened) => placed(stand, place, opened),
        None => Told::No,
    }
}

fn settle_in(folder: &mut Option<Folder<WatchedFile>>, rt: &Watched) -> Told {
    let Some(folder) = folder else {
        return Told::No;
    };
    match folder.settle(rt) {
        Ok(()) => Told::Done,
        Err(cause) => fault(cause),
    }
}

fn settled(stand: &mut Stand, place: u32, capacity: u64) -> Told {
    match segment(stand, place, capacity, false) {
        Told::Done => settle_in(&mut stand.folder, &stand.rt),
        told => told,
    }
}

fn open_again(stand: &mut Stand) -> Told {
    let opened = Folder::open_again(&stand.rt, stand.rt.path);
    kept(&mut stand.folder, opened)
}

fn forget_in(folder: &mut Option<Folder<WatchedFile>>) -> Told {
    match folder {
        Some(folder) => {
            folder.forget();
            Told::Done
        }
        None => Told::No,
    }
}

fn empty(stand: &Stand, lease: u32) -> Told {
    let Some(folder) = &stand.folder else {
        return Told::No;
    };
    match folder.empty(&stand.rt, lease) {
        Ok(_) => Told::Done,
        Err(cause) => fault(cause),
    }
}

// Whether it holds this, as far as 64 bytes.
fn holds(one: &mut dyn Segment, held: &[u8]) -> bool {
    let mut out = [0; 64];
    let n = held.len().min(64);
    if one.len() != n as u64 || one.failures() == u64::MAX {
        return false;
    }
    let front = &mut out[..n];
    one.read(0, front).is_ok() && *front == *held
}

fn at_place(stand: &mut Stand, place: u32) -> Option<&mut FileSegment<WatchedFile>> {
    if place == 0 {
        stand.first.as_mut()
    } else {
        stand.second.as_mut()
    }
}

// Adds the piece if there is room for it.
fn append(stand: &mut Stand, place: u32, piece: &str) -> Told {
    let Some(one) = at_place(stand, place) else {
        return Told::No;
    };
    let room = one.capacity() - one.len();
    if room < piece.len() as u64 || one.failures() == u64::MAX {
        return Told::No;
    }
    match one.append(piece.as_bytes()) {
        Ok(()) => Told::Done,
        Err(_) => Told::System,
    }
}

fn holds_at(stand: &mut Stand, place: u32, held: &str, failures: u64) -> Told {
    match at_place(stand, place) {
        Some(one) => done_if(
            one.lease() == place && one.failures() == failures && holds(one, held.as_bytes()),
        ),
        None => Told::No,
    }
}

fn copy(stand: &Stand, number: u32, capacity: u64, held: &str) -> Told {
    let (Some(reader), Some(lease)) = (&stand.reader, lease_of(stand.rt.alloc(), number)) else {
        return Told::No;
    };
    match reader.copy(&stand.rt, lease, capacity) {
        Ok(mut one) => done_if(one.lease() == number && holds(&mut one, held.as_bytes())),
        Err(refused) => fault(refused.cause),
    }
}

fn whole(stand: &Stand, lease: u32, text: &str, ends: &[u64]) -> Told {
    let Some(folder) = &stand.folder else {
        return Told::No;
    };
    match folder.write(&stand.rt, lease, text.as_bytes(), ends) {
        Ok(_) => Told::Done,
        Err(cause) => fault(cause),
    }
}

fn held_back(stand: &Stand, lease: u32, text: &str, ends: &[u64]) -> Told {
    let Some(folder) = &stand.folder else {
        return Told::No;
    };
    let begun = match folder.write_held_back(&stand.rt, lease, text.as_bytes(), ends) {
        Ok(begun) => begun,
        Err(cause) => return fault(cause),
    };
    match begun.end() {
        Ok(_) => Told::Done,
        Err(cause) => fault(cause),
    }
}

fn verify(stand: &Stand, lease: u32, sound: Sound) -> Told {
    let Some(reader) = &stand.reader else {
        return Told::No;
    };
    match reader.verify(&stand.rt, lease) {
        Ok(found) => done_if(found == sound),
        Err(cause) => fault(cause),
    }
}

// Whether these bytes are written to a file, or it holds them and no more.
fn goes_with(rt: &HostRuntime, path: &str, bytes: &[u8], writes: bool) -> bool {
    if writes {
        return fs::write(rt, path, bytes).is_ok();
    }
    match fs::read(rt, path) {
        Ok(held) => held.as_slice() == bytes,
        Err(_) => false,
    }
}

// Whether so many first bytes of these are written to a file, or it holds them and no more.
fn goes_in_hex(rt: &HostRuntime, path: &str, hex: &'static str, n: usize, writes: bool) -> bool {
    match hex::decode(rt.alloc(), hex) {
        Ok(bytes) => goes_with(rt, path, &bytes[..n.min(bytes.len())], writes),
        Err(_) => false,
    }
}

fn lengthen(rt: &HostRuntime, path: &str) -> bool {
    match OpenOptions::new().write(true).open(rt, path) {
        Ok(file) => file.set_len(MAX_CAPACITY + 1).is_ok(),
        Err(_) => false,
    }
}

// The name of the file that a step of one who stands outside is about.
fn name_of(act: &Act) -> &'static str {
    match act {
        Act::Write(name, _) => *name,
        Act::Bytes(name, _, _) => *name,
        Act::File(name, _) => *name,
        Act::Has(name, _, _) => *name,
        Act::NoFile(name) => *name,
        Act::Link(name, _) => *name,
        _ => "segment-0000.bw",
    }
}

// Whether a step on a file of this path goes well.
fn goes_on(rt: &HostRuntime, path: &str, act: &Act) -> bool {
    match act {
        Act::Write(_, text) => goes_with(rt, path, text.as_bytes(), true),
        Act::Bytes(_, hex, n) => goes_in_hex(rt, path, *hex, *n, true),
        Act::File(_, text) => goes_with(rt, path, text.as_bytes(), false),
        Act::Has(_, hex, n) => goes_in_hex(rt, path, *hex, *n, false),
        Act::First(hex, n) => goes_in_hex(rt, path, *hex, *n, false),
        Act::NoFile(_) => matches!(fs::exists(rt, path), Ok(false)),
        Act::Link(_, to) => symlink(rt, *to, path).is_ok(),
        Act::Lengthen => lengthen(rt, path),
        _ => false,
    }
}

/// Whether a step goes well of one who stands outside, or who opens the folder anew.
pub(super) fn goes_outside(rt: &Watched, act: &Act) -> bool {
    match act {
        Act::Make => fs::create_dir(&rt.rt, rt.path).is_ok(),
        Act::Fail(passes, keep) => {
            rt.watch.fail_after(*passes, *keep);
            true
        }
        Act::Full(is_full) => {
            rt.watch.fill(*is_full);
            true
        }
        Act::Listed(leases) => are_listed(&rt.rt, rt.path, *leases),
        Act::Tells(_, _) | Act::Cleans(_) => {
            let went = goes_opened(rt, act);
            rt.watch.take_letters();
            went
        }
        _ => match format!(in rt.alloc(); "{}/{}", rt.path, name_of(act)) {
            Ok(path) => goes_on(&rt.rt, path.as_str(), act),
            Err(_) => false,
        },
    }
}

/// How the step goes.
pub(super) fn goes(stand: &mut Stand, act: &Act) -> Told {
    match act {
        Act::Open => open(stand),
        Act::Look => look(stand),
        Act::Leave => {
            stand.folder = None;
            Told::Done
        }
        Act::LookEvicted => {
            stand.reader = None;
            Told::Done
        }
        Act::Segment(place, capacity) => settled(stand, *place, *capacity),
        Act::Opens(place, capacity) => {
            let went = settled(stand, *place, *capacity);
            stand.rt.watch.take_letters();
            went
        }
        Act::Spare(place, capacity) => segment(stand, *place, *capacity, true),
        Act::OpenAgain => open_again(stand),
        Act::Reads(place, capacity) => segment(stand, *place, *capacity, false),
        Act::Settle => settle_in(&mut stand.folder, &stand.rt),
        Act::Forget => forget_in(&mut stand.folder),
        Act::Stop(place) => {
            if *place == 0 {
                stand.first = None;
            } else {
                stand.second = None;
            }
            Told::Done
        }
        Act::Append(place, piece) => append(stand, *place, piece),
        Act::Holds(place, held, failures) => holds_at(stand, *place, held, *failures),
        Act::Copy(lease, capacity, held) => copy(stand, *lease, *capacity, held),
        Act::Verify(lease, len, summed, pieces) => {
            let sound = Sound {
                len: *len,
                summed: *summed,
                pieces: *pieces,
            };
            verify(stand, *lease, sound)
        }
        Act::Empty(lease) => empty(stand, *lease),
        Act::Whole(lease, text, ends) => whole(stand, *lease, text, *ends),
        Act::HeldBack(lease, text, ends) => held_back(stand, *lease, text, *ends),
        _ => done_if(goes_outside(&stand.rt, act)),
    }
}

/// Whether a row goes as expected.
pub(super) fn is_told(stand: &mut Stand, row: &Row) -> bool {
    let Row(act, told, letters) = row;
    let went = goes(stand, act);
    let made = stand.rt.watch.take_letters();
    went == *told && made == numbers_of(letters)
}

/// The first row that did not go as expected.
pub(super) fn wrong_row(stand: &mut Stand, rows: &[Row]) -> Option<usize> {
    for (i, row) in rows.iter().enumerate() {
        if !is_told(stand, row) {
            return Some(i);
        }
    }
    None
}

/// A folder, and what goes in it.
pub(super) type Table = (&'static str, &'static [Row]);

// The first row that did not go as expected in a folder of its own, and the first one if there was
// no folder.
fn wrong_in(rt: HostRuntime, path: &'static str, rows: &[Row]) -> Option<usize> {
    match at(rt, path) {
        Some(mut stand) => wrong_row(&mut stand, rows),
        None => Some(0),
    }
}

/// The first table that did not go as expected in a folder of its own, and its row.
pub(super) fn wrong_table(rt: HostRuntime, tables: &[Table]) -> Option<(&'static str, usize)> {
    for (path, rows) in tables {
        let wrong = wrong_in(rt, *path, *rows);
        clear(rt, *path);
        if let Some(row) = wrong {
            return Some((*path, row));
        }
    }
    None
}
