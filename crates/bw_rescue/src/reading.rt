//! The segments of a folder that is read, as bytes.

use crate::fault::RescueFault;
use crate::judged::{bytes_of, judge};
use bw_beside::{Ask, Asked, Opened, ask, ask_owned, open};
use bw_file::{FolderFault, FolderReader};
use bw_home::System;
use bw_look::{Image, Watch, Work, folder_bytes};

/// The lease again, if it is below the number of leases.
pub(crate) fn allowed(lease: u32, leases: u32) -> Result<u32, RescueFault> {
    if lease < leases {
        Ok(lease)
    } else {
        Err(RescueFault::NoLease)
    }
}

/// The segments of a folder that is open, by their leases, of which there are so many. Refused if
/// the bytes of one do not fit their digests.
fn images_of<R: System, W: Watch>(
    rt: &R,
    path: &str,
    reader: &FolderReader,
    leases: u32,
    watch: &mut W,
) -> Result<Vec<Image>, RescueFault> {
    let all = folder_bytes(rt, path, leases, watch);
    let mut images = Vec::new(rt.alloc());
    let mut done = 0u64;
    for lease in &reader.leases(rt)? {
        let lease = allowed(*lease, leases)?;
        let bytes = reader.sound_bytes(rt, lease)?;
        done = done.saturating_add(bytes.len() as u64);
        images.push(Image {
            lease: Some(lease),
            bytes,
        })?;
        watch.see(Work::Reading, done, all);
    }
    Ok(images)
}

/// The segments of a folder in which nobody writes, by their leases.
pub(crate) fn sound_images<R: System, W: Watch>(
    rt: &R,
    path: &str,
    leases: u32,
    watch: &mut W,
) -> Result<Vec<Image>, RescueFault> {
    let reader = FolderReader::open(rt, path)?;
    images_of(rt, path, &reader, leases, watch)
}

/// Asks the pages of a folder; if somebody writes it, as they stood at one of its frames.
pub(crate) fn ask_in<R: System, W: Watch, A: Ask<W>>(
    rt: &R,
    path: &str,
    leases: u32,
    asked: &mut A,
    watch: &mut W,
) -> Result<A::Answer, RescueFault> {
    match ask(rt, path, asked, watch)? {
        Asked::Alone(reader) => {
            let images = images_of(rt, path, &reader, leases, watch)?;
            watch.see(Work::Recovering, 0, bytes_of(images.as_slice()));
            Ok(ask_owned(rt.alloc(), images, asked, watch)?)
        }
        Asked::Beside(answer) => Ok(answer),
    }
}

/// The segments of a folder, by their leases, which recovery accepts; as they stood at one of its
/// frames, if somebody writes it.
pub(crate) fn source_of<R: System, W: Watch>(
    rt: &R,
    path: &str,
    leases: u32,
    watch: &mut W,
) -> Result<Vec<Image>, RescueFault> {
    match open(rt, path, watch)? {
        Opened::Alone(reader) => {
            let images = images_of(rt, path, &reader, leases, watch)?;
            let _ = judge(rt.alloc(), images.as_slice(), watch)?;
            Ok(images)
        }
        Opened::Beside(stood) => Ok(stood.images),
    }
}

/// A segment as it was read, be it damaged or not.
#[derive(Drop)]
pub(crate) struct Seen {
    pub(crate) image: Image,
    /// Where what was changed or lost begins, in bytes, and what is said of it.
    pub(crate) hurt: Option<(u64, FolderFault)>,
}

/// The segment of this lease as it is.
fn look_at<R: System>(rt: &R, reader: &FolderReader, lease: u32) -> Result<Seen, FolderFault> {
    let (bytes, hurt) = match reader.sound_bytes(rt, lease) {
        Ok(bytes) => (bytes, None),
        Err(FolderFault::Damaged { lease, at }) => {
            let hurt = Some((at, FolderFault::Damaged { lease, at }));
            (reader.bytes(rt, lease)?, hurt)
        }
        Err(FolderFault::Missing { lease, from, to }) => {
            let hurt = Some((from, FolderFault::Missing { lease, from, to }));
            (reader.bytes(rt, lease)?, hurt)
        }
        Err(fault) => return Err(fault),
    };
    let image = Image {
        lease: Some(lease),
        bytes,
    };
    Ok(Seen { image, hurt })
}

/// The segments of a folder, by their leases, be they damaged or not.
pub(crate) fn seen_images<R: System, W: Watch>(
    rt: &R,
    path: &str,
    leases: u32,
    watch: &mut W,
) -> Result<Vec<Seen>, RescueFault> {
    let reader = FolderReader::open(rt, path)?;
    let all = folder_bytes(rt, path, leases, watch);
    let mut images = Vec::new(rt.alloc());
    let mut done = 0u64;
    for lease in &reader.leases(rt)? {
        let seen = look_at(rt, &reader, allowed(*lease, leases)?)?;
        done = done.saturating_add(seen.image.bytes.len() as u64);
        images.push(seen)?;
        watch.see(Work::Reading, done, all);
    }
    Ok(images)
}
