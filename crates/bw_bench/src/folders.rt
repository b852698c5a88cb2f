//! Segments in files: appends with their sync, and a store in a folder, opened again.

use crate::bench::Bench;
use crate::boxes::{READERS, writers_of};
use crate::reopened::tell_opened;
use crate::segments::{CAPACITY, count_of};
use crate::stop::Stop;
use crate::subject::{Course, Subject};
use bw_codec::limits::MAX_PAIRS;
use bw_device::{Desk, MAX_LEASES, Segment};
use bw_file::{FileSegment, Folder};
use bw_home::{Options, SharedHome, SharedLegs, System, with_readers};
use std::thread::Threads;

/// What is appended: as it is printed, and its bytes.
const SIZES: &[(&str, usize)] = &[
    ("append of 4 KiB", 4_096),
    ("append of 16 KiB", 16_384),
    ("append of 64 KiB", 65_536),
];

/// How often a size is appended; a segment has room for so many of the greatest.
const APPENDS: u64 = 256;

/// The folder of this name in another.
fn open_folder(bench: &Bench, dir: &str, name: &'static str) -> Option<Folder> {
    let path = format!(in bench.alloc; "{dir}/{name}").ok()?;
    match Folder::open(&bench.system, path.as_str()) {
        Ok(folder) => Some(folder),
        Err(fault) => bench.not_opened(fault),
    }
}

fn must_be_empty(bench: &Bench, folder: &Folder) -> Option<()> {
    match folder.leases(&bench.system) {
        Ok(leases) if leases.is_empty() => Some(()),
        Ok(_) => bench.stop(Stop::Refused, "a folder that holds segments"),
        Err(fault) => bench.not_opened(fault),
    }
}

/// The folder of this name in another, which has to be without segments, so that a run empties
/// nobody's files.
fn new_folder(bench: &Bench, dir: &str, name: &'static str) -> Option<Folder> {
    let folder = open_folder(bench, dir, name)?;
    must_be_empty(bench, &folder)?;
    Some(folder)
}

/// There are no segments in the folder of this name.
pub fn must_be_new(bench: &Bench, dir: &str, name: &'static str) -> Option<()> {
    let _folder = new_folder(bench, dir, name)?;
    Some(())
}

/// A new file of the next lease. The desk has one.
fn file(bench: &Bench, folder: &Folder, desk: &mut Desk) -> Option<FileSegment> {
    let lease = desk.take().ok()?;
    match folder.spare(&bench.system, lease, CAPACITY) {
        Ok(segment) => Some(segment),
        Err(refused) => bench.not_opened(refused.cause),
    }
}

/// Appends a piece, if the segment has room for it.
fn append(segment: &mut FileSegment, piece: &[u8]) -> bool {
    let (held, capacity) = (segment.len(), segment.capacity());
    if held > capacity || piece.len() as u64 > capacity - held || segment.failures() > 0 {
        return false;
    }
    segment.append(piece).is_ok()
}

/// Appends a piece over and over.
fn append_all(bench: &Bench, segment: &mut FileSegment, piece: &[u8]) -> Option<()> {
    for _ in 0..APPENDS {
        if !append(segment, piece) {
            return bench.stop(Stop::Refused, "an append");
        }
    }
    Some(())
}

/// Appends a piece over and over to a new file, and waits each time until it stands.
fn append_to_file(
    bench: &Bench,
    folder: &Folder,
    desk: &mut Desk,
    name: &'static str,
    piece: &[u8],
) -> Option<()> {
    let mut segment = file(bench, folder, desk)?;
    let start = bench.now();
    append_all(bench, &mut segment, piece)?;
    bench.tell(name, APPENDS, bench.since(start));
    Some(())
}

/// Appends of each size, to a file of its own each.
fn append_sizes(bench: &Bench, folder: &Folder, desk: &mut Desk) -> Option<()> {
    let bytes = [7u8; 65_536];
    for &(name, size) in SIZES {
        append_to_file(bench, folder, desk, name, bytes.get(..size)?)?;
    }
    Some(())
}

/// Appends of each size in a new folder, to a file of its own each.
pub fn appends(bench: &Bench, dir: &str) -> Option<()> {
    let mut desk = Desk::new(bench.alloc, 3).ok()?;
    let folder = new_folder(bench, dir, "appends")?;
    append_sizes(bench, &folder, &mut desk)
}

/// A course over the store in a folder.
#[derive(Drop)]
struct Over<'b> {
    bench: &'b Bench,
    course: Course,
}

impl<R: Threads + System> SharedLegs<R> for Over<'_> {
    type Answer = Option<()>;

    fn leg(&mut self, rt: &R, home: &mut SharedHome) -> Option<Option<()>> {
        let Over { bench, course } = *self;
        let subject = Subject { rt, bench, course };
        Some(subject.go(&mut home.store, &mut home.feeds))
    }
}

/// The store that is there, opened again: what that took from the start on, and all keys.
#[derive(Drop)]
struct Again<'b> {
    bench: &'b Bench,
    start: u64,
}

impl<R: System> SharedLegs<R> for Again<'_> {
    type Answer = Option<()>;

    fn leg(&mut self, _rt: &R, home: &mut SharedHome) -> Option<Option<()>> {
        let opened = self.bench.since(self.start);
        Some(tell_opened(self.bench, &mut home.store, opened))
    }
}

/// Does something with the store in the folder of this name in another.
fn in_folder<R: System, L: SharedLegs<R, Answer = Option<()>>>(
    rt: &R,
    bench: &Bench,
    dir: &str,
    name: &'static str,
    writers: usize,
    what: L,
) -> Option<()> {
    let path = format!(in bench.alloc; "{dir}/{name}").ok()?;
    let options = Options {
        writers,
        queue_groups: usize::from(bench.options.batch),
        pairs_a_page: MAX_PAIRS,
        frame_bytes: bench.options.frame,
        segments: count_of(bench.options),
        capacity: CAPACITY,
        page_bytes: u64::MAX,
    };
    let mut what = what;
    match with_readers(
        rt,
        Some(path.as_str()),
        MAX_LEASES,
        READERS,
        &options,
        &mut what,
    ) {
        Ok(went) => went,
        Err(fault) => bench.not_begun(fault),
    }
}

/// Runs the course over files in a new folder of the subject's name, and then goes on from what
/// they hold, once nobody has them open any more. They stay.
pub fn over_files<R: Threads + System>(
    rt: &R,
    bench: &Bench,
    course: Course,
    dir: &str,
    name: &'static str,
) -> Option<()> {
    must_be_new(bench, dir, name)?;
    let writers = writers_of(bench.options, course);
    in_folder(rt, bench, dir, name, writers, Over { bench, course })?;
    let start = bench.now();
    in_folder(rt, bench, dir, name, 1, Again { bench, start })
}
