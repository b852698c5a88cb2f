//! Folders and segments in files: a call that was refused memory is made again, over the same
//! files.

use bw_device::{Desk, Lease, Segment};
use bw_file::{FileSegment, Folder, FolderFault, FolderReader, NotOpened};
use std::fs;
use test_kit::marks::{begin, begin_without, end, refuse};
use test_kit::refusals::{MOST, Try, then, tried};

const PATH: &str = "refused";

const BYTES: &[u8] = b"0123456789";

/// One call that may be refused.
#[derive(Clone, Copy, PartialEq, Drop)]
enum Call {
    /// The folder is opened, if it is missing.
    Make,
    /// And if it is there.
    Open,
    Leases,
    /// A segment of ten bytes.
    Segment,
    /// One over an emptied file.
    Spare,
    Empty,
    /// The folder is opened by one who only reads.
    OpenReader,
    ReaderLeases,
    Copy,
}

/// The folder and its files are gone, if they were there.
fn clear(rt: HostRuntime) {
    let _ = fs::remove_dir_all(&rt, PATH);
}

fn is_memory(cause: FolderFault) -> bool {
    matches!(cause, FolderFault::NoMemory)
}

/// How a call went that makes nothing that stays.
fn answered(rt: HostRuntime, answer: Result<bool, FolderFault>) -> Option<Try> {
    let refused = end(rt.alloc());
    match answer {
        Ok(is_so) => tried(true, refused, is_so),
        Err(cause) => tried(false, refused, is_memory(cause)),
    }
}

/// One try of a folder that is opened: it is free again then.
fn opens(rt: HostRuntime) -> Option<Try> {
    begin(rt.alloc());
    let answer: Result<Folder, FolderFault> = Folder::open(&rt, PATH);
    answered(rt, answer.map(|_| true))
}

fn opens_reader(rt: HostRuntime) -> Option<Try> {
    begin(rt.alloc());
    let answer: Result<FolderReader, FolderFault> = FolderReader::open(&rt, PATH);
    answered(rt, answer.map(|_| true))
}

/// Whether only lease 2 has a file.
fn is_one(leases: &Vec<u32>) -> bool {
    match leases.as_slice() {
        [lease] => *lease == 2,
        _ => false,
    }
}

fn lists(rt: HostRuntime) -> Option<Try> {
    let folder: Folder = Folder::open(&rt, PATH).ok()?;
    begin(rt.alloc());
    let answer = folder.leases(&rt);
    answered(rt, answer.map(|leases| is_one(&leases)))
}

fn reader_lists(rt: HostRuntime) -> Option<Try> {
    let reader: FolderReader = FolderReader::open(&rt, PATH).ok()?;
    begin(rt.alloc());
    let answer = reader.leases(&rt);
    answered(rt, answer.map(|leases| is_one(&leases)))
}

/// How long the file of lease 2 is.
fn length(rt: HostRuntime) -> Option<u64> {
    Some(fs::metadata(&rt, "refused/segment-0002.bw").ok()?.len())
}

/// One try of a file that is emptied: it is as it was if that was refused.
fn empties(rt: HostRuntime) -> Option<Try> {
    let folder: Folder = Folder::open(&rt, PATH).ok()?;
    begin(rt.alloc());
    let answer = folder.empty(&rt, 2);
    let went = answer.is_ok();
    let first = answered(rt, answer.map(|_| true));
    let told = if went { 0 } else { 10 };
    if length(rt) == Some(told) {
        first
    } else {
        None
    }
}

/// Takes ten bytes more without memory, if it holds so many.
fn appends(rt: HostRuntime, segment: &mut FileSegment, held: u64) -> bool {
    let is_so = (segment.len() == held) & (segment.capacity() == 100) & (segment.failures() == 0);
    if !is_so || held > 90 || segment.lease() != 2 {
        return false;
    }
    begin_without(rt.alloc());
    let went = segment.append(BYTES).is_ok();
    !end(rt.alloc()) & went
}

/// A segment that was opened holds this; its lease comes back if it was refused.
fn held(
    rt: HostRuntime,
    answer: Result<FileSegment, NotOpened>,
    bytes: u64,
) -> (Option<Try>, Option<Lease>) {
    let refused = end(rt.alloc());
    match answer {
        Ok(mut segment) => {
            let is_so = appends(rt, &mut segment, bytes);
            (tried(true, refused, is_so), None)
        }
        Err(told) => {
            let is_so = is_memory(told.cause) && told.lease.number() == 2;
            (tried(false, refused, is_so), Some(told.lease))
        }
    }
}

/// The segment of this lease, settled.
fn settled(rt: HostRuntime, folder: &mut Folder, lease: Lease) -> Result<FileSegment, NotOpened> {
    let segment = folder.segment(&rt, lease, 100)?;
    let _ = folder.settle(&rt);
    Ok(segment)
}

/// One try of a segment, or of one over an emptied file.
fn makes(
    rt: HostRuntime,
    folder: &mut Folder,
    lease: Lease,
    is_spare: bool,
) -> (Option<Try>, Option<Lease>) {
    begin(rt.alloc());
    if is_spare {
        let answer = folder.spare(&rt, lease, 100);
        return held(rt, answer, 0);
    }
    let answer = settled(rt, folder, lease);
    held(rt, answer, 10)
}

fn copies(rt: HostRuntime, reader: &FolderReader, lease: Lease) -> (Option<Try>, Option<Lease>) {
    begin(rt.alloc());
    let answer = reader.copy(&rt, lease, 100);
    let refused = end(rt.alloc());
    match answer {
        Ok(copy) => {
            let is_so = copy.len() == 10 && copy.lease() == 2;
            (tried(true, refused, is_so), None)
        }
        Err(told) => {
            let is_so = is_memory(told.cause) && told.lease.number() == 2;
            (tried(false, refused, is_so), Some(told.lease))
        }
    }
}

/// The third lease of a desk.
fn lease(desk: &mut Desk) -> Option<Lease> {
    let _first = desk.take().ok()?;
    let _second = desk.take().ok()?;
    desk.take().ok()
}

fn is_made(rt: HostRuntime, lease: Lease, is_spare: bool) -> Option<Try> {
    let mut folder: Folder = Folder::open(&rt, PATH).ok()?;
    match makes(rt, &mut folder, lease, is_spare) {
        (Some(Try::Refused), Some(lease)) => {
            then(Try::Refused, makes(rt, &mut folder, lease, is_spare).0)
        }
        (first, _) => first,
    }
}

fn is_copied(rt: HostRuntime, lease: Lease) -> Option<Try> {
    let reader: FolderReader = FolderReader::open(&rt, PATH).ok()?;
    match copies(rt, &reader, lease) {
        (Some(Try::Refused), Some(lease)) => then(Try::Refused, copies(rt, &reader, lease).0),
        (first, _) => first,
    }
}

/// The folder, in which lease 2 has a file of ten bytes.
fn fills(rt: HostRuntime, lease: Lease) -> Option<()> {
    let mut folder: Folder = Folder::open(&rt, PATH).ok()?;
    let mut segment = settled(rt, &mut folder, lease).ok()?;
    if appends(rt, &mut segment, 0) {
        Some(())
    } else {
        None
    }
}

/// A call that is made again as it was.
fn tries(rt: HostRuntime, call: Call) -> Option<Try> {
    match call {
        Call::Make | Call::Open => opens(rt),
        Call::Leases => lists(rt),
        Call::Empty => empties(rt),
        Call::OpenReader => opens_reader(rt),
        _ => reader_lists(rt),
    }
}

/// A call over the folder with its file.
fn goes(rt: HostRuntime, call: Call) -> Option<Try> {
    clear(rt);
    let mut desk = Desk::new(rt.alloc(), 3).ok()?;
    if call != Call::Make {
        fills(rt, lease(&mut desk)?)?;
        desk.collect();
    }
    match call {
        Call::Segment => is_made(rt, lease(&mut desk)?, false),
        Call::Spare => is_made(rt, lease(&mut desk)?, true),
        Call::Copy => is_copied(rt, lease(&mut desk)?),
        _ => {
            let first = tries(rt, call)?;
            if first == Try::Refused {
                return then(first, tries(rt, call));
            }
            Some(first)
        }
    }
}

/// The allocation whose refusal is not answered as expected.
fn wrong_number(rt: HostRuntime, call: Call) -> Option<u32> {
    for number in 1..MOST {
        refuse(rt.alloc(), number);
        match goes(rt, call) {
            Some(Try::Refused) => {}
            Some(Try::Went) => return None,
            _ => return Some(number),
        }
    }
    Some(MOST)
}

const CALLS: &[Call] = &[
    Call::Make,
    Call::Open,
    Call::Leases,
    Call::Segment,
    Call::Spare,
    Call::Empty,
    Call::OpenReader,
    Call::ReaderLeases,
    Call::Copy,
];

fn wrong_call(rt: HostRuntime) -> Option<(usize, u32)> {
    for (i, call) in CALLS.iter().enumerate() {
        if let Some(number) = wrong_number(rt, *call) {
            return Some((i, number));
        }
    }
    None
}

#[test]
fn folders_and_segments_in_files(rt: HostRuntime) {
    let wrong = wrong_call(rt);
    clear(rt);
    assert_eq!(rt; wrong, None);
}
