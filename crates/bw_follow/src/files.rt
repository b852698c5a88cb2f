//! The files of the folder that follows, whose lock is held.

use crate::fault::FollowFault;
use bw_beside::Host;
use bw_device::MAX_CAPACITY;
use bw_digest::{Damage, Row, SUM_LEN, Sum, check};
use bw_file::{Folder, FolderFault};
use bw_look::Image;
use std::alloc::Global;
use std::fs::{self, File, OpenFile};
use std::io::ErrorKind;
use std::os::unix::fs::FileExt;

/// How far the sums of a file speak of its bytes.
#[derive(Clone, Copy)]
pub(crate) struct Told {
    pub(crate) row: Row,
    /// The last sum of the row.
    pub(crate) last: Option<Sum>,
}

/// The files of a folder: the bytes of each, and how far its sums speak of them.
#[derive(Drop)]
pub(crate) struct Files {
    pub(crate) images: Vec<Image>,
    pub(crate) told: Vec<Told>,
}

/// The path of the file of a lease.
pub(crate) fn segment_path<R: Host>(
    rt: &R,
    folder: &str,
    lease: u32,
) -> Result<String, FolderFault> {
    Ok(format!(in rt.alloc(); "{folder}/segment-{lease:04}.bw")?)
}

/// The path of the file with its sums.
pub(crate) fn sums_path<R: Host>(rt: &R, folder: &str, lease: u32) -> Result<String, FolderFault> {
    Ok(format!(in rt.alloc(); "{folder}/segment-{lease:04}.sum")?)
}

/// The bytes of an open file, which is no longer than a segment.
fn bytes_of(alloc: Global, file: &File) -> Result<Vec<u8>, FolderFault> {
    let len = file.metadata()?.len();
    if len > MAX_CAPACITY {
        return Err(FolderFault::TooLong);
    }
    let mut bytes = vec![in alloc; 0u8; len as usize]?;
    file.read_exact_at(&mut bytes, 0)?;
    Ok(bytes)
}

/// The bytes of the file of this path, which is plain; none if it is missing.
pub(crate) fn read<R: Host>(rt: &R, path: &str) -> Result<Vec<u8>, FolderFault> {
    match fs::symlink_metadata(rt, path) {
        Ok(found) if found.is_file() => bytes_of(rt.alloc(), &fs::open(rt, path)?),
        Ok(_) => Err(FolderFault::NotPlain),
        Err(error) if error.kind() == ErrorKind::NotFound => Ok(Vec::new(rt.alloc())),
        Err(error) => Err(FolderFault::from(error)),
    }
}

/// How many bytes the file of this path has; 0 if it is missing.
pub(crate) fn length_of<R: Host>(rt: &R, path: &str) -> Result<u64, FolderFault> {
    match fs::symlink_metadata(rt, path) {
        Ok(found) => Ok(found.len()),
        Err(error) if error.kind() == ErrorKind::NotFound => Ok(0),
        Err(error) => Err(FolderFault::from(error)),
    }
}

/// The last sum of a row that begins these.
fn last_of(row: Row, sums: &[u8]) -> Option<Sum> {
    let count = row.count();
    if count == 0 || count > (sums.len() / SUM_LEN) as u64 {
        return None;
    }
    let at = (count as usize).saturating_sub(1).saturating_mul(SUM_LEN);
    if at <= sums.len() && sums.len() - at >= SUM_LEN {
        Some(Sum::read(&sums[at..]))
    } else {
        None
    }
}

/// What the files of a lease hold, if the bytes fit the sums.
fn read_lease<R: Host>(rt: &R, folder: &str, lease: u32) -> Result<(Image, Told), FolderFault> {
    let bytes = read(rt, segment_path(rt, folder, lease)?.as_str())?;
    let sums = read(rt, sums_path(rt, folder, lease)?.as_str())?;
    let row = match check(bytes.as_slice(), sums.as_slice()) {
        Ok(row) => row,
        Err(Damage::Changed { at }) => return Err(FolderFault::Damaged { lease, at }),
        Err(Damage::Missing { from, to }) => return Err(FolderFault::Missing { lease, from, to }),
    };
    let last = last_of(row, sums.as_slice());
    let image = Image {
        lease: Some(lease),
        bytes,
    };
    Ok((image, Told { row, last }))
}

/// What all files of a folder hold.
pub(crate) fn read_all<R: Host>(rt: &R, path: &str, folder: &Folder) -> Result<Files, FollowFault> {
    let mut files = Files {
        images: Vec::new(rt.alloc()),
        told: Vec::new(rt.alloc()),
    };
    for lease in &folder.leases(rt).map_err(FollowFault::of_target)? {
        let (image, told) = read_lease(rt, path, *lease).map_err(FollowFault::of_target)?;
        files.images.push(image)?;
        files.told.push(told)?;
    }
    Ok(files)
}
