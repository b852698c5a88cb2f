//! The files of a folder, as they are at a moment. None is locked, made or written.

use crate::host::Host;
use crate::miss::Miss;
use bw_codec::limits::HEADER_LEN;
use bw_codec::{Header, HeaderRead, read_header};
use bw_device::{MAX_CAPACITY, MAX_LEASES};
use std::alloc::Global;
use std::fs::{self, File, OpenFile};
use std::io::ErrorKind;
use std::os::unix::fs::FileExt;

/// The lease whose segment has a file of this name.
fn lease_of(name: &str) -> Option<u32> {
    let number = name.strip_prefix("segment-")?.strip_suffix(".bw")?;
    if number.len() != 4 || number.starts_with('+') {
        return None;
    }
    let number = number.parse::<u32>().ok()?;
    if number < MAX_LEASES {
        Some(number)
    } else {
        None
    }
}

/// The leases whose segments have a file in the folder, in no order.
pub(crate) fn leases_in<R: Host>(rt: &R, folder: &str) -> Result<Vec<u32>, Miss> {
    let mut leases = Vec::new(rt.alloc());
    for entry in fs::read_dir(rt, folder)? {
        match entry {
            Ok(entry) => {
                if let Some(lease) = lease_of(entry.file_name()) {
                    leases.push(lease)?;
                }
            }
            // A name that is no text is not ours.
            Err(error) if error.kind() == ErrorKind::InvalidFilename => {}
            Err(error) => return Err(Miss::from(error)),
        }
    }
    Ok(leases)
}

/// Whether something in the folder has this name.
pub(crate) fn is_there<R: Host>(rt: &R, folder: &str, name: &str) -> Result<bool, Miss> {
    let path = format!(in rt.alloc(); "{folder}/{name}")?;
    match fs::symlink_metadata(rt, path.as_str()) {
        Ok(_) => Ok(true),
        Err(error) if error.kind() == ErrorKind::NotFound => Ok(false),
        Err(error) => Err(Miss::from(error)),
    }
}

/// The file of this name, if it is a plain one.
fn plain<R: Host>(rt: &R, name: &str) -> Result<File, Miss> {
    if !fs::symlink_metadata(rt, name)?.is_file() {
        return Err(Miss::Moved);
    }
    Ok(fs::open(rt, name)?)
}

/// So many bytes of a file, as it is now, or all of them if it has fewer. One that is longer than
/// any segment is refused.
fn front_of(alloc: Global, file: &File, most: u64) -> Result<Vec<u8>, Miss> {
    let len = file.metadata()?.len();
    if len > MAX_CAPACITY {
        return Err(Miss::Moved);
    }
    let mut bytes = vec![in alloc; 0u8; len.min(most) as usize]?;
    file.read_exact_at(&mut bytes, 0)?;
    Ok(bytes)
}

/// The first bytes of the file of a lease, so many at most.
fn front_in<R: Host>(rt: &R, folder: &str, lease: u32, most: u64) -> Result<Vec<u8>, Miss> {
    let name = format!(in rt.alloc(); "{folder}/segment-{lease:04}.bw")?;
    front_of(rt.alloc(), &plain(rt, name.as_str())?, most)
}

/// The number of the segment that has these bytes, if they begin with a whole header.
pub(crate) fn number_of(bytes: &[u8]) -> Option<u64> {
    match read_header(bytes) {
        HeaderRead::Whole(header) => Some(header.number),
        _ => None,
    }
}

/// The header of the segment in the file of a lease, if it is whole.
pub fn header_in<R: Host>(rt: &R, folder: &str, lease: u32) -> Result<Option<Header>, Miss> {
    let front = front_in(rt, folder, lease, HEADER_LEN as u64)?;
    match read_header(front.as_slice()) {
        HeaderRead::Whole(header) => Ok(Some(header)),
        _ => Ok(None),
    }
}

/// All bytes of the file of a lease.
pub fn bytes_in<R: Host>(rt: &R, folder: &str, lease: u32) -> Result<Vec<u8>, Miss> {
    front_in(rt, folder, lease, MAX_CAPACITY)
}

/// The bytes of the sums beside it; none if there are no sums.
pub fn sums_in<R: Host>(rt: &R, folder: &str, lease: u32) -> Result<Vec<u8>, Miss> {
    let name = format!(in rt.alloc(); "segment-{lease:04}.sum")?;
    if !is_there(rt, folder, name.as_str())? {
        return Ok(Vec::new(rt.alloc()));
    }
    let path = format!(in rt.alloc(); "{folder}/{name}")?;
    front_of(rt.alloc(), &plain(rt, path.as_str())?, MAX_CAPACITY)
}

/// The bytes of the file of a lease from one offset on up to another. Refused if it has fewer.
pub fn stretch_in<R: Host>(
    rt: &R,
    folder: &str,
    lease: u32,
    from: u64,
    to: u64,
) -> Result<Vec<u8>, Miss> {
    let name = format!(in rt.alloc(); "{folder}/segment-{lease:04}.bw")?;
    let len = to.saturating_sub(from);
    if len > MAX_CAPACITY {
        return Err(Miss::Moved);
    }
    let mut bytes = vec![in rt.alloc(); 0u8; len as usize]?;
    plain(rt, name.as_str())?.read_exact_at(&mut bytes, from)?;
    Ok(bytes)
}

/// The bytes of the sums beside the file of a lease from an offset on; none if they end before, or
/// there are no sums.
pub fn sums_from<R: Host>(rt: &R, folder: &str, lease: u32, from: u64) -> Result<Vec<u8>, Miss> {
    let name = format!(in rt.alloc(); "segment-{lease:04}.sum")?;
    if !is_there(rt, folder, name.as_str())? {
        return Ok(Vec::new(rt.alloc()));
    }
    let path = format!(in rt.alloc(); "{folder}/{name}")?;
    let file = plain(rt, path.as_str())?;
    let len = file.metadata()?.len().saturating_sub(from);
    if len > MAX_CAPACITY {
        return Err(Miss::Moved);
    }
    let mut bytes = vec![in rt.alloc(); 0u8; len as usize]?;
    file.read_exact_at(&mut bytes, from)?;
    Ok(bytes)
}

/// How many bytes the sums beside the file of a lease have; 0 if there are none.
pub fn sums_length<R: Host>(rt: &R, folder: &str, lease: u32) -> Result<u64, Miss> {
    let name = format!(in rt.alloc(); "{folder}/segment-{lease:04}.sum")?;
    match fs::symlink_metadata(rt, name.as_str()) {
        Ok(found) => Ok(found.len()),
        Err(error) if error.kind() == ErrorKind::NotFound => Ok(0),
        Err(error) => Err(Miss::from(error)),
    }
}
