//! A folder is verified: its digests first, and then by recovery.

use crate::fault::RescueFault;
use crate::judged::{bytes_of, judge_owned};
use crate::reading::allowed;
use bw_beside::{Opened, Stood, open};
use bw_codec::limits::HEADER_LEN;
use bw_codec::{HeaderRead, read_header};
use bw_file::{FolderFault, FolderReader};
use bw_home::System;
use bw_look::{Frames, Image, Step, Watch, Work, folder_bytes};
use std::alloc::{AllocError, Global};
use std::fmt::{self, Display, Formatter};

/// The first fault of a segment.
#[derive(Debug, Clone, Copy, PartialEq, Eq)]
pub enum Hurt {
    /// The piece that begins here, in bytes, has not its digest.
    Damaged { lease: u32, at: u64 },
    /// The file ends at the first of these bytes, and its digests say that it went on to the other.
    Missing { lease: u32, from: u64, to: u64 },
    /// Here are bytes that are neither a header, nor a frame, nor a tail.
    BadBytes { lease: u32, at: u64 },
}

impl Display for Hurt {
    fn fmt<W: fmt::Write>(&self, f: &mut Formatter<W>) -> fmt::Result {
        match self {
            Hurt::Damaged { lease, at } => write!(f, "damaged: segment-{lease:04}.bw at {at}"),
            Hurt::Missing { lease, from, to } => {
                write!(f, "missing: segment-{lease:04}.bw from {from} to {to}")
            }
            Hurt::BadBytes { lease, at } => write!(f, "bad bytes: segment-{lease:04}.bw at {at}"),
        }
    }
}

/// What a folder without a fault has.
#[derive(Debug, Clone, Copy, PartialEq, Eq)]
pub struct Verified {
    /// How many segments are live.
    pub segments: u64,
    /// How many frames they have.
    pub frames: u64,
    /// How many bytes all files have.
    pub bytes: u64,
    /// How many of these have no digest.
    pub unsummed: u64,
}

/// What comes of a folder that was read.
#[derive(Drop)]
pub enum Verdict {
    Whole(Verified),
    /// The faults, one of a segment, by their leases. There is one at least.
    Hurt(Vec<Hurt>),
}

/// What is known so far.
#[derive(Drop)]
struct Walk {
    images: Vec<Image>,
    hurts: Vec<Hurt>,
    bytes: u64,
    unsummed: u64,
}

/// Where the first bytes of a segment stand that are neither a header, nor a frame, nor a tail.
fn first_bad(alloc: Global, bytes: &[u8]) -> Result<Option<u64>, AllocError> {
    if bytes.is_empty() {
        return Ok(None);
    }
    let header = match read_header(bytes) {
        HeaderRead::Whole(header) => header,
        HeaderRead::Part => return Ok(None),
        HeaderRead::Bad => return Ok(Some(0)),
    };
    let mut frames = Frames::behind(bytes, header, HEADER_LEN);
    // A frame has bytes, so there are fewer frames than bytes.
    for _ in 0..bytes.len() {
        let at = frames.at();
        match frames.step(alloc)? {
            Step::Frame(..) => {}
            Step::Tail(_) => return Ok(None),
            Step::Bad => return Ok(Some(at as u64)),
        }
    }
    Ok(None)
}

impl Walk {
    /// Looks at the file of a lease.
    fn look<R: System>(
        &mut self,
        rt: &R,
        reader: &FolderReader,
        lease: u32,
    ) -> Result<(), RescueFault> {
        let sound = match reader.verify(rt, lease) {
            Ok(sound) => sound,
            Err(FolderFault::Damaged { lease, at }) => {
                self.hurts.push(Hurt::Damaged { lease, at })?;
                return Ok(());
            }
            Err(FolderFault::Missing { lease, from, to }) => {
                self.hurts.push(Hurt::Missing { lease, from, to })?;
                return Ok(());
            }
            Err(fault) => return Err(RescueFault::from(fault)),
        };
        let bytes = reader.bytes(rt, lease)?;
        if let Some(at) = first_bad(rt.alloc(), bytes.as_slice())? {
            self.hurts.push(Hurt::BadBytes { lease, at })?;
        }
        self.bytes = self.bytes.saturating_add(sound.len);
        self.unsummed = self
            .unsummed
            .saturating_add(sound.len.saturating_sub(sound.summed));
        self.images.push(Image {
            lease: Some(lease),
            bytes,
        })?;
        Ok(())
    }
}

/// Reads all files of a folder that is open, of which there are so many at most.
fn walked<R: System, W: Watch>(
    rt: &R,
    path: &str,
    reader: &FolderReader,
    leases: u32,
    watch: &mut W,
) -> Result<Walk, RescueFault> {
    let all = folder_bytes(rt, path, leases, watch);
    let mut walk = Walk {
        images: Vec::new(rt.alloc()),
        hurts: Vec::new(rt.alloc()),
        bytes: 0,
        unsummed: 0,
    };
    for lease in &reader.leases(rt)? {
        walk.look(rt, reader, allowed(*lease, leases)?)?;
        watch.see(Work::Reading, walk.bytes, all);
    }
    Ok(walk)
}

/// What a folder has that somebody writes, at one of its frames.
fn verified_beside(stood: &Stood) -> Verified {
    let live = stood.images.as_slice().iter().filter(|image| {
        matches!(read_header(image.bytes.as_slice()), HeaderRead::Whole(_))
    });
    Verified {
        segments: live.count() as u64,
        frames: stood.last.saturating_sub(stood.first).saturating_add(1),
        bytes: bytes_of(stood.images.as_slice()),
        unsummed: stood.unsummed,
    }
}

/// Verifies a folder, which is not changed: each file by its digests, and then frame by frame; and
/// if none has a fault, all of them by recovery. There are so many leases.
///
/// If somebody writes it, that is said of one of its frames, as `bw_beside::open` has it; a fault
/// is not said then, but that it is in use.
///
/// `Source` if the folder, or a file of it, cannot be read; `Recovery` if each file is whole and
/// all of them are no store, as when one is missing.
pub fn verify<R: System, W: Watch>(
    rt: &R,
    path: &str,
    leases: u32,
    watch: &mut W,
) -> Result<Verdict, RescueFault> {
    let reader = match open(rt, path, watch)? {
        Opened::Alone(reader) => reader,
        Opened::Beside(stood) => return Ok(Verdict::Whole(verified_beside(&stood))),
    };
    let walk = walked(rt, path, &reader, leases, watch)?;
    if !walk.hurts.is_empty() {
        return Ok(Verdict::Hurt(walk.hurts));
    }
    let Walk {
        images,
        hurts: _,
        bytes,
        unsummed,
    } = walk;
    let found = judge_owned(rt.alloc(), images, watch)?.found;
    Ok(Verdict::Whole(Verified {
        segments: u64::from(found.live),
        frames: found.last.saturating_sub(found.first).saturating_add(1),
        bytes,
        unsummed,
    }))
}
