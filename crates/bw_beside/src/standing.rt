//! The segments of a folder that somebody writes, as they stood at one of its frames.

use crate::asking::{Ask, ask_owned};
use crate::files::{bytes_in, is_there, leases_in, number_of, sums_in};
use crate::found::{Found, found_in};
use crate::host::Host;
use crate::miss::Miss;
use crate::partial::MARK;
use crate::row::Row;
use bw_device::MAX_LEASES;
use bw_digest::check;
use bw_look::{Image, Watch, Work, folder_bytes};
use std::alloc::Global;
use std::collections::BTreeMap;

/// The segments of a folder at one of its frames, and what recovery finds in them.
#[derive(Drop)]
pub struct Stood {
    /// One for each file, by their leases. Their bytes fit the digests.
    pub images: Vec<Image>,
    /// How many of the bytes have no digest: those of an older folder, and what was appended while
    /// they were read.
    pub unsummed: u64,
    /// The numbers of the first and the last frame that is there.
    pub first: u64,
    pub last: u64,
}

/// A file that was read, and the sums beside it.
#[derive(Drop)]
struct Taken {
    sums: Vec<u8>,
    bytes: Vec<u8>,
}

/// Reads the file of a lease, if it has the segment that was seen there. Its sums are read before:
/// they follow the bytes, so none of them is ahead of what is read then.
fn take<R: Host>(rt: &R, folder: &str, row: &Row, lease: u32) -> Result<Taken, Miss> {
    let sums = sums_in(rt, folder, lease)?;
    let bytes = bytes_in(rt, folder, lease)?;
    if !row.allows(lease, number_of(bytes.as_slice())) {
        return Err(Miss::Moved);
    }
    Ok(Taken { sums, bytes })
}

/// Reads the files of these leases, in this order.
fn take_all<R: Host, W: Watch>(
    rt: &R,
    folder: &str,
    row: &Row,
    order: &[u32],
    watch: &mut W,
) -> Result<BTreeMap<u32, Taken>, Miss> {
    let all = folder_bytes(rt, folder, MAX_LEASES, watch);
    let mut taken = BTreeMap::new(rt.alloc());
    let mut done = 0u64;
    for lease in order {
        let file = take(rt, folder, row, *lease)?;
        done = done.saturating_add(file.bytes.len() as u64);
        let _ = taken.insert(*lease, file)?;
        watch.see(Work::Reading, done, all);
    }
    Ok(taken)
}

/// How many bytes of a file have no digest, if all others fit theirs.
fn unsummed_in(taken: &Taken) -> Result<u64, Miss> {
    match check(taken.bytes.as_slice(), taken.sums.as_slice()) {
        Ok(row) => Ok((taken.bytes.len() as u64).saturating_sub(row.end())),
        Err(_) => Err(Miss::Moved),
    }
}

/// The segments in these files, by their leases, and how many bytes have no digest.
fn images_of(alloc: Global, files: BTreeMap<u32, Taken>) -> Result<(Vec<Image>, u64), Miss> {
    let mut images = Vec::new(alloc);
    let mut unsummed = 0u64;
    for (lease, taken) in files {
        unsummed = unsummed.saturating_add(unsummed_in(&taken)?);
        images.push(Image {
            lease: Some(lease),
            bytes: taken.bytes,
        })?;
    }
    Ok((images, unsummed))
}

/// Whether a folder is not made whole yet.
pub fn is_unfinished<R: Host>(rt: &R, folder: &str) -> Result<bool, Miss> {
    is_there(rt, folder, MARK)
}

/// The segments of a folder, by their leases, and how many of their bytes have no digest. They are
/// those of one frame if recovery accepts them. A folder that is not made whole yet has none.
fn read<R: Host, W: Watch>(rt: &R, folder: &str, watch: &mut W) -> Result<(Vec<Image>, u64), Miss> {
    if is_unfinished(rt, folder)? {
        return Err(Miss::Moved);
    }
    let row = Row::of(rt, folder)?;
    // Listed again: what was begun since may stand in a new file.
    let leases = leases_in(rt, folder)?;
    let order = row.order(rt.alloc(), leases.as_slice())?;
    let taken = take_all(rt, folder, &row, order.as_slice(), watch)?;
    images_of(rt.alloc(), taken)
}

/// The segments of a folder as they stood at one of its frames, if that is what a reading comes to.
pub(crate) fn standing<R: Host, W: Watch>(
    rt: &R,
    folder: &str,
    watch: &mut W,
) -> Result<Stood, Miss> {
    let (images, unsummed) = read(rt, folder, watch)?;
    let Found { first, last } = found_in(rt.alloc(), images.as_slice())?;
    Ok(Stood {
        images,
        unsummed,
        first,
        last,
    })
}

/// Asks the pages of a folder as they stood at one of its frames, if that is what a reading comes
/// to.
pub(crate) fn ask_standing<R: Host, W: Watch, A: Ask<W>>(
    rt: &R,
    folder: &str,
    ask: &mut A,
    watch: &mut W,
) -> Result<A::Answer, Miss> {
    let (images, _) = read(rt, folder, watch)?;
    Ok(ask_owned(rt.alloc(), images, ask, watch)?)
}
