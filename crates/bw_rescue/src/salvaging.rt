//! What a damaged folder still has goes into a new store.

use crate::compared::{Tally, Wanted};
use crate::copying::Copied;
use crate::fault::RescueFault;
use crate::gathered::pages_of;
use crate::held::Held;
use crate::lost::Loss;
use crate::order::pairs_of;
use crate::target::Target;
use crate::whole::whole;
use bw_care::RecoverCause;
use bw_codec::Leaf;
use bw_digest::told_end;
use bw_file::{FolderFault, FolderReader};
use bw_home::{Options, System};
use bw_look::{Watch, Work, folder_bytes, frame_in_folder};
use std::alloc::{AllocError, Global};

/// What was salvaged, and what was not.
#[derive(Drop)]
pub struct Salvaged {
    /// What the new folder holds.
    pub copied: Copied,
    /// Files, then frames, then pages.
    pub losses: Vec<Loss>,
}

/// The segments of a folder, as far as they can be read.
#[derive(Drop)]
struct Wreck {
    held: Vec<Held>,
    losses: Vec<Loss>,
}

impl Wreck {
    /// Adds the segment of a lease, with these bytes and sums.
    fn add(
        &mut self,
        alloc: Global,
        lease: u32,
        bytes: Vec<u8>,
        sums: &[u8],
    ) -> Result<(), AllocError> {
        let from = bytes.len() as u64;
        let to = told_end(sums);
        if to > from {
            self.losses.push(Loss::Missing { lease, from, to })?;
        }
        let held = Held::of(alloc, lease, bytes, sums)?;
        for piece in held.unchecked.as_slice() {
            self.losses.push(Loss::Unchecked {
                lease: held.lease,
                from: piece.from,
                to: piece.to,
            })?;
        }
        self.held.push(held)?;
        Ok(())
    }

    /// Reads the file of a lease, if it can be.
    fn look<R: System>(
        &mut self,
        rt: &R,
        reader: &FolderReader,
        lease: u32,
    ) -> Result<(), AllocError> {
        match reader.bytes(rt, lease) {
            Ok(bytes) => {
                let sums = self.sums_of(rt, reader, lease)?;
                self.add(rt.alloc(), lease, bytes, sums.as_slice())
            }
            Err(FolderFault::NoMemory) => Err(AllocError),
            Err(fault) => {
                self.losses.push(Loss::File { lease, fault })?;
                Ok(())
            }
        }
    }

    /// The digests beside the file of a lease; none if there are none, or they are not read, which
    /// is reported.
    fn sums_of<R: System>(
        &mut self,
        rt: &R,
        reader: &FolderReader,
        lease: u32,
    ) -> Result<Vec<u8>, AllocError> {
        match reader.sums(rt, lease) {
            Ok(sums) => Ok(sums),
            Err(FolderFault::NoMemory) => Err(AllocError),
            Err(fault) => {
                self.losses.push(Loss::Sums { lease, fault })?;
                Ok(Vec::new(rt.alloc()))
            }
        }
    }

    /// Reads all files of a folder.
    fn of<R: System, W: Watch>(
        rt: &R,
        path: &str,
        leases: u32,
        watch: &mut W,
    ) -> Result<Wreck, RescueFault> {
        let reader = FolderReader::open(rt, path)?;
        let all = folder_bytes(rt, path, leases, watch);
        let mut wreck = Wreck {
            held: Vec::new(rt.alloc()),
            losses: Vec::new(rt.alloc()),
        };
        for lease in &reader.leases(rt)? {
            wreck.look(rt, &reader, *lease)?;
            watch.see(Work::Reading, wreck.bytes(), all);
        }
        Ok(wreck)
    }

    /// How many bytes were read.
    fn bytes(&self) -> u64 {
        let mut bytes = 0u64;
        for held in self.held.as_slice() {
            bytes = bytes.saturating_add(held.bytes.len() as u64);
        }
        bytes
    }

    /// The most pairs of a page, as the headers say that can be read; else the program's own.
    fn m(&self) -> u16 {
        let mut most = 0;
        for held in self.held.as_slice() {
            most = most.max(held.m().unwrap_or(0));
        }
        if most == 0 {
            Options::default().pairs_a_page
        } else {
            most
        }
    }
}

/// What was read of a folder.
#[derive(Drop)]
struct Saved {
    leaves: Vec<Leaf>,
    losses: Vec<Loss>,
    m: u16,
}

/// The pages of a folder, as far as its frames are whole. Refused if there is none.
fn read_saved<R: System, W: Watch>(
    rt: &R,
    path: &str,
    leases: u32,
    watch: &mut W,
) -> Result<Saved, RescueFault> {
    let wreck = Wreck::of(rt, path, leases, watch)?;
    watch.see(Work::Recovering, 0, wreck.bytes());
    let m = wreck.m();
    let pages = pages_of(rt.alloc(), wreck.held.as_slice())?;
    let mut losses = wreck.losses;
    pages.add_gaps(&mut losses)?;
    let leaves = pages.end(&mut losses)?;
    if leaves.is_empty() {
        return Err(RescueFault::Recovery(RecoverCause::Empty));
    }
    Ok(Saved { leaves, losses, m })
}

/// Writes all that a folder still has into a new store, in a new folder; the other one is not
/// changed. There are so many leases in the new one.
///
/// Each page comes as of the last whole frame up to which none of its blocks is missing. So pages
/// may be of different moments, and a group may be there in a part: if all of a moment is wanted,
/// `restore` gives it, up to the first fault. Of each key the page with the greatest low that is
/// not above it counts.
///
/// Refused, and nothing is made: `Target` if the new folder is there already; `Source` if the other
/// one cannot be listed, or is locked for writing; `Recovery`, `Empty`, if no page is left.
pub fn salvage<R: System, W: Watch>(
    rt: &R,
    from: &str,
    to: &str,
    leases: u32,
    watch: &mut W,
) -> Result<Salvaged, RescueFault> {
    let target = Target::of(rt, to)?;
    let Saved { leaves, losses, m } = read_saved(rt, from, leases, watch)?;
    let pairs = pairs_of(rt.alloc(), leaves.as_slice())?;
    let other = Options::default();
    let options = Options {
        pairs_a_page: m,
        frame_bytes: frame_in_folder(other.capacity),
        ..other
    };
    let images = whole(rt.alloc(), leases, &options, pairs.as_slice(), watch)?;
    let mut tally = Tally::new(rt.alloc());
    tally.add_all(pairs.as_slice())?;
    let wanted = Wanted {
        images: images.as_slice(),
        tally: Some(&tally),
    };
    let making = target.begin(rt)?;
    making.write(rt, images.as_slice(), watch)?;
    let copied = making.end(rt, leases, wanted, None, watch)?;
    Ok(Salvaged { copied, losses })
}
