//! Segments that are looked at, as bytes: the files of a folder, or lines in hex. None is changed.

use bw_beside::{Opened, open};
use bw_codec::limits::{HEADER_LEN, MAX_FRAME};
use bw_device::{Desk, MAX_LEASES, MemSegment};
use bw_file::FolderReader;
use bw_look::{Image, Watch, Work, folder_bytes};
use bw_pairs::{Lines, READS};
use bw_words::{Fault, LEASES, Miss, Refusal, System, are_printable, no_input};
use hex::FromHexError;
use std::alloc::Global;
use std::io::Read;

/// The most bytes of a line, which is a segment in hex.
const LONGEST: u32 = 2_097_152;

/// The least capacity of a copy, in bytes: a header and the longest frame.
pub const LEAST: u64 = HEADER_LEN as u64 + MAX_FRAME as u64;

/// The segments of a folder that is open, by their leases. One whose bytes do not fit the sums
/// beside it is refused.
fn images_under<R: System, W: Watch>(
    rt: &R,
    path: &str,
    reader: &FolderReader,
    watch: &mut W,
) -> Result<Vec<Image>, Miss> {
    let all = folder_bytes(rt, path, MAX_LEASES, watch);
    let leases = reader.leases(rt)?;
    let mut images = Vec::new(rt.alloc());
    let mut done = 0u64;
    for lease in &leases {
        let bytes = reader.sound_bytes(rt, *lease)?;
        done = done.saturating_add(bytes.len() as u64);
        images.push(Image {
            lease: Some(*lease),
            bytes,
        })?;
        watch.see(Work::Reading, done, all);
    }
    Ok(images)
}

/// The segments of a folder in which nobody writes, by their leases.
fn images_in<R: System, W: Watch>(rt: &R, path: &str, watch: &mut W) -> Result<Vec<Image>, Miss> {
    let reader = FolderReader::open(rt, path)?;
    images_under(rt, path, &reader, watch)
}

/// The segments of a folder, by their leases; if somebody writes it, as they stood at one of its
/// frames.
pub fn images_stood<R: System, W: Watch>(
    rt: &R,
    path: &str,
    watch: &mut W,
) -> Result<Vec<Image>, Miss> {
    match open(rt, path, watch)? {
        Opened::Alone(reader) => images_under(rt, path, &reader, watch),
        Opened::Beside(stood) => Ok(stood.images),
    }
}

/// The bytes that a line stands for. The first fault in the order of the list is the answer.
fn bytes_of(alloc: Global, line: &[u8]) -> Result<Vec<u8>, Miss> {
    if line.len() > LONGEST as usize {
        return Err(Miss::Fault(Fault::LineTooLong));
    }
    if !are_printable(line) {
        return Err(Miss::Fault(Fault::BadByte));
    }
    match hex::decode(alloc, line) {
        Ok(bytes) => Ok(bytes),
        Err(FromHexError::OutOfMemory) => Err(Miss::Refused(Refusal::NO_MEMORY)),
        Err(_) => Err(Miss::Fault(Fault::BadWord)),
    }
}

/// The segment of the next line; `None` if there is no further one.
fn next_image<I: Read>(alloc: Global, lines: &mut Lines<&mut I>) -> Result<Option<Image>, Miss> {
    if !lines.read_line().map_err(no_input)? {
        return Ok(None);
    }
    Ok(Some(Image {
        lease: None,
        bytes: bytes_of(alloc, lines.line())?,
    }))
}

/// A segment of each line, up to one for which there is no lease.
fn images_of<I: Read>(alloc: Global, lines: &mut Lines<&mut I>) -> Result<Vec<Image>, Miss> {
    let mut images = Vec::new(alloc);
    for _ in 0..u64::MAX {
        match next_image(alloc, lines)? {
            Some(_) if images.len() >= LEASES as usize => {
                return Err(Miss::Refused(Refusal::NoLease));
            }
            Some(image) => images.push(image)?,
            None => break,
        }
    }
    Ok(images)
}

/// The segments that are looked at, or the line that is none, and why.
pub fn images<R: System, I: Read, W: Watch>(
    rt: &R,
    dir: Option<&str>,
    input: &mut I,
    watch: &mut W,
) -> Result<Vec<Image>, (u64, Miss)> {
    if let Some(path) = dir {
        return images_in(rt, path, watch).map_err(|miss| (0, miss));
    }
    let mut lines = match Lines::new(rt.alloc(), input, READS, LONGEST) {
        Ok(lines) => lines,
        Err(error) => return Err((0, Miss::from(no_input(error)))),
    };
    images_of(rt.alloc(), &mut lines).map_err(|miss| (lines.number(), miss))
}

/// How many bytes segments have.
pub fn bytes_in(images: &[Image]) -> u64 {
    let mut bytes = 0u64;
    for image in images {
        bytes = bytes.saturating_add(image.bytes.len() as u64);
    }
    bytes
}

/// A copy of a segment in memory, with the least lease that is free.
pub fn copy_of(alloc: Global, desk: &mut Desk, bytes: &[u8]) -> Result<MemSegment, Miss> {
    let lease = desk.take()?;
    let capacity = LEAST.max(bytes.len() as u64);
    match MemSegment::with_bytes(alloc, lease, capacity, bytes) {
        Ok(copy) => Ok(copy),
        Err(refused) => Err(Miss::from(refused.cause)),
    }
}

/// Copies in place of the segments.
pub fn copies_of(
    alloc: Global,
    desk: &mut Desk,
    images: Vec<Image>,
) -> Result<Vec<MemSegment>, Miss> {
    let mut copies = Vec::new(alloc);
    for image in images {
        copies.push(copy_of(alloc, desk, image.bytes.as_slice())?)?;
    }
    Ok(copies)
}
