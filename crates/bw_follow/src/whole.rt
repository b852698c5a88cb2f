//! A whole copy of the followed folder, which takes the follower's place if it has one.
//!
//! It is made as `TO.partial` (`bw_beside::begin`). If `TO` is there, it becomes `TO.old`, with a
//! file `superseded` in it, and then `TO.partial` becomes `TO`. A stop between the two leaves no
//! `TO`: the next follower gives `TO.old` its name again (`mend`), and goes on. A `TO.old` stays
//! until the next whole copy, or until somebody removes it.

use crate::fault::FollowFault;
use crate::held::sums_behind;
use crate::judged::judge;
use bw_beside::{
    Host, Making, Miss, Opened, begin, ends_of, header_in, is_left, is_there, open, partial_of,
    remove_left, rename, sums_in,
};
use bw_codec::{HeaderRead, read_header};
use bw_device::MAX_LEASES;
use bw_digest::Row;
use bw_file::{Folder, FolderFault, FolderReader};
use bw_look::{Image, Watch, Work, folder_bytes};
use std::alloc::{AllocError, Global};
use std::fs::{self, File, OpenFile, OpenOptions};

/// The file that says of a folder that a whole copy took its place.
const MARK: &str = "superseded";

/// A live segment that is copied, up to the end of its last whole frame.
#[derive(Drop)]
struct Part {
    lease: u32,
    bytes: Vec<u8>,
    ends: Vec<u64>,
}

fn old_of<R: Host>(rt: &R, to: &str) -> Result<String, AllocError> {
    format!(in rt.alloc(); "{to}.old")
}

fn mark_in<R: Host>(rt: &R, folder: &str) -> Result<String, AllocError> {
    format!(in rt.alloc(); "{folder}/{MARK}")
}

/// What is copied of the segment with these bytes, if it is live.
fn part_of(alloc: Global, lease: u32, bytes: Vec<u8>) -> Result<Option<Part>, AllocError> {
    let HeaderRead::Whole(_) = read_header(bytes.as_slice()) else {
        return Ok(None);
    };
    let ends = ends_of(alloc, bytes.as_slice())?;
    let mut bytes = bytes;
    bytes.truncate(ends.last().map_or(0, |end| *end as usize));
    Ok(Some(Part { lease, bytes, ends }))
}

/// The files of a folder in which nobody writes.
fn files_alone<R: Host, W: Watch>(
    rt: &R,
    path: &str,
    reader: &FolderReader,
    watch: &mut W,
) -> Result<Vec<Part>, FollowFault> {
    let all = folder_bytes(rt, path, MAX_LEASES, watch);
    let mut parts = Vec::new(rt.alloc());
    let mut done = 0u64;
    for lease in &reader.leases(rt).map_err(FollowFault::of_source)? {
        let bytes = reader
            .sound_bytes(rt, *lease)
            .map_err(FollowFault::of_source)?;
        done = done.saturating_add(bytes.len() as u64);
        watch.see(Work::Reading, done, all);
        if let Some(part) = part_of(rt.alloc(), *lease, bytes)? {
            parts.push(part)?;
        }
    }
    Ok(parts)
}

/// The number of the segment with these bytes; 0 if they are none.
fn number_of(bytes: &[u8]) -> u64 {
    match read_header(bytes) {
        HeaderRead::Whole(header) => header.number,
        _ => 0,
    }
}

/// The greatest number of these segments.
fn newest_of(parts: &[Part]) -> u64 {
    let mut newest = 0u64;
    for part in parts {
        newest = newest.max(number_of(part.bytes.as_slice()));
    }
    newest
}

/// How much of a segment that is written has a sum, in bytes, and so is durable; all of it if the
/// segment is gone meanwhile.
fn durable_of<R: Host>(rt: &R, from: &str, part: &Part) -> Result<u64, Miss> {
    let sums = sums_in(rt, from, part.lease)?;
    let len = part.bytes.len() as u64;
    match header_in(rt, from, part.lease)? {
        Some(header) if header.number == number_of(part.bytes.as_slice()) => {}
        _ => return Ok(len),
    }
    let mut durable = 0u64;
    for sum in &sums_behind(rt.alloc(), Row::new(), sums.as_slice())? {
        if sum.end <= len {
            durable = durable.max(sum.end);
        }
    }
    Ok(durable)
}

/// A segment up to this end, which is the end of a piece.
fn part_upto(part: Part, end: u64) -> Result<Part, AllocError> {
    let Part { lease, bytes, ends } = part;
    let mut kept = Vec::new(*ends.allocator());
    for it in &ends {
        if *it <= end {
            kept.push(*it)?;
        }
    }
    let mut bytes = bytes;
    bytes.truncate(kept.last().map_or(0, |end| *end as usize));
    Ok(Part {
        lease,
        bytes,
        ends: kept,
    })
}

/// Segments without the frame that was being appended to the newest one while they were read: it
/// may never be durable.
fn durable_parts<R: Host>(rt: &R, from: &str, parts: Vec<Part>) -> Result<Vec<Part>, FollowFault> {
    let newest = newest_of(parts.as_slice());
    let mut kept = Vec::new(rt.alloc());
    for part in parts {
        if number_of(part.bytes.as_slice()) != newest {
            kept.push(part)?;
            continue;
        }
        let end = match durable_of(rt, from, &part) {
            Ok(end) => end,
            Err(Miss::NoMemory) => return Err(FollowFault::NoMemory),
            Err(Miss::Moved) => return Err(FollowFault::Source(FolderFault::InUse)),
        };
        kept.push(part_upto(part, end)?)?;
    }
    Ok(kept)
}

/// The live segments of the followed folder, as they stand at one of its frames.
fn parts_of<R: Host, W: Watch>(
    rt: &R,
    from: &str,
    watch: &mut W,
) -> Result<Vec<Part>, FollowFault> {
    let stood = match open(rt, from, watch).map_err(FollowFault::of_source)? {
        Opened::Alone(reader) => return files_alone(rt, from, &reader, watch),
        Opened::Beside(stood) => stood,
    };
    let mut parts = Vec::new(rt.alloc());
    for image in stood.images {
        if let Some(lease) = image.lease {
            if let Some(part) = part_of(rt.alloc(), lease, image.bytes)? {
                parts.push(part)?;
            }
        }
    }
    durable_parts(rt, from, parts)
}

/// The number of the last frame of these segments, if they are those of a store.
fn frame_of(alloc: Global, parts: &[Part]) -> Result<u64, FollowFault> {
    let mut images = Vec::new(alloc);
    for part in parts {
        let mut bytes = Vec::new(alloc);
        bytes.extend_from_slice(part.bytes.as_slice())?;
        images.push(Image {
            lease: Some(part.lease),
            bytes,
        })?;
    }
    judge(alloc, images.as_slice()).map_err(FollowFault::of_recovery)
}

fn length(parts: &[Part]) -> u64 {
    let mut bytes = 0u64;
    for part in parts {
        bytes = bytes.saturating_add(part.bytes.len() as u64);
    }
    bytes
}

/// Writes the segments into the folder that is being made.
fn write<R: Host, W: Watch>(
    rt: &R,
    path: &str,
    parts: &[Part],
    watch: &mut W,
) -> Result<(), FolderFault> {
    let folder = Folder::open(rt, path)?;
    let mut done = 0u64;
    for part in parts {
        folder.write(rt, part.lease, part.bytes.as_slice(), part.ends.as_slice())?;
        done = done.saturating_add(part.bytes.len() as u64);
        watch.see(Work::Writing, done, length(parts));
    }
    Ok(())
}

/// Reads what was written again, and refuses what is not as it was given.
fn compare<R: Host>(rt: &R, path: &str, parts: &[Part]) -> Result<(), FolderFault> {
    let reader = FolderReader::open(rt, path)?;
    for part in parts {
        let bytes = reader.sound_bytes(rt, part.lease)?;
        if bytes.as_slice() != part.bytes.as_slice() {
            return Err(FolderFault::Damaged {
                lease: part.lease,
                at: 0,
            });
        }
    }
    Ok(())
}

/// Makes a whole copy, but for its name; the number of its last frame, and how many bytes it has.
fn make<R: Host, W: Watch>(
    rt: &R,
    from: &str,
    partial: &str,
    watch: &mut W,
) -> Result<(Making, u64, u64), FollowFault> {
    let parts = parts_of(rt, from, watch)?;
    watch.see(Work::Recovering, 0, length(parts.as_slice()));
    let frame = frame_of(rt.alloc(), parts.as_slice())?;
    let making = begin(rt, partial).map_err(FollowFault::of_partial)?;
    write(rt, making.path(), parts.as_slice(), watch).map_err(FollowFault::of_partial)?;
    compare(rt, making.path(), parts.as_slice()).map_err(FollowFault::of_partial)?;
    making.finish(rt).map_err(FollowFault::of_partial)?;
    Ok((making, frame, length(parts.as_slice())))
}

/// Marks a folder as one whose place a whole copy takes, and waits until that stands.
fn mark<R: Host>(rt: &R, to: &str) -> Result<(), FolderFault> {
    let file: File = OpenOptions::new()
        .write(true)
        .create(true)
        .open(rt, mark_in(rt, to)?.as_str())?;
    file.sync_all()?;
    fs::open(rt, to)?.sync_all()?;
    Ok(())
}

/// Takes the mark of a folder away, if it has one.
fn unmark<R: Host>(rt: &R, to: &str) -> Result<(), FolderFault> {
    let mark = mark_in(rt, to)?;
    if is_there(rt, mark.as_str())? {
        fs::remove_file(rt, mark.as_str())?;
    }
    Ok(())
}

/// Copies the followed folder whole, as TO, which is not there; the number of its last frame, and
/// how many bytes it has.
pub(crate) fn copy<R: Host, W: Watch>(
    rt: &R,
    from: &str,
    to: &str,
    watch: &mut W,
) -> Result<(u64, u64), FollowFault> {
    let partial = partial_of(rt, to)?;
    let _ = is_left(rt, partial.as_str()).map_err(FollowFault::of_partial)?;
    let (making, frame, bytes) = make(rt, from, partial.as_str(), watch)?;
    making.name(rt, to).map_err(FollowFault::of_target)?;
    Ok((frame, bytes))
}

/// Whether a folder is there, and nothing stands in it.
fn is_bare<R: Host>(rt: &R, path: &str) -> Result<bool, FolderFault> {
    if !is_there(rt, path)? || !fs::symlink_metadata(rt, path)?.is_dir() {
        return Ok(false);
    }
    for entry in fs::read_dir(rt, path)? {
        let _ = entry?;
        return Ok(false);
    }
    Ok(true)
}

/// Removes the TO.old of an earlier copy. Its mark goes last but for the folder itself, so a stop
/// may leave that with nothing in it.
fn remove_old<R: Host>(rt: &R, path: &str) -> Result<(), FolderFault> {
    if is_bare(rt, path)? {
        fs::remove_dir(rt, path)?;
        return Ok(());
    }
    remove_left(rt, path, MARK)
}

/// Puts a whole copy in the place of TO, whose newest segment and last frame these are, and which
/// becomes TO.old. Its lock is held meanwhile. Refused if the copy would be of an earlier frame: it
/// is of another store.
pub(crate) fn replace<R: Host, W: Watch>(
    rt: &R,
    from: &str,
    to: &str,
    newest: u64,
    last: u64,
    watch: &mut W,
) -> Result<(u64, u64), FollowFault> {
    let old = old_of(rt, to)?;
    remove_old(rt, old.as_str()).map_err(FollowFault::of_old)?;
    let partial = partial_of(rt, to)?;
    let (making, frame, bytes) = make(rt, from, partial.as_str(), watch)?;
    if frame < last {
        return Err(FollowFault::Strayed { segment: newest });
    }
    mark(rt, to).map_err(FollowFault::of_target)?;
    rename(rt, to, old.as_str()).map_err(FollowFault::of_old)?;
    making.name(rt, to).map_err(FollowFault::of_target)?;
    Ok((frame, bytes))
}

/// Whether there is a folder TO to go on with. What a stop left between the two renames is mended:
/// TO is the one that was there before.
pub(crate) fn mend<R: Host>(rt: &R, to: &str) -> Result<bool, FollowFault> {
    if is_there(rt, to).map_err(FollowFault::of_target)? {
        unmark(rt, to).map_err(FollowFault::of_target)?;
        return Ok(true);
    }
    let old = old_of(rt, to)?;
    let mark = mark_in(rt, old.as_str())?;
    if !is_there(rt, mark.as_str()).map_err(FollowFault::of_old)? {
        return Ok(false);
    }
    rename(rt, old.as_str(), to).map_err(FollowFault::of_old)?;
    unmark(rt, to).map_err(FollowFault::of_target)?;
    Ok(true)
}
