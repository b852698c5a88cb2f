//! Where the segments of a store stand: in memory, or in the files of a folder.

ghost use Rattle.std.specs.Prelude.{◌≡◌, false, true, IfErr, OnOk, OnErr};
ghost use Rattle.bw_site.specs.Faults.{IsOfSite};

use crate::fault::HomeFault;
use crate::system::System;
use bw_device::{Desk, Lease, MAX_LEASES, MemSegment, Segment};
use bw_file::{FileSegment, Folder, FolderFault, NotOpened};
use std::alloc::{AllocError, Global};

/// Where segments stand.
#[derive(Drop)]
enum Place {
    /// In memory, as long as they are not dropped.
    Memory,
    /// In files, as long as these keep what they were given.
    Folder(Folder),
}

/// A segment that was made.
#[derive(Drop)]
pub enum Made {
    Memory(Box<MemSegment>),
    File(Box<FileSegment>),
}

impl Made {
    /// Whether it has no bytes.
    pub fn is_empty(&self) -> bool {
        match self {
            Made::Memory(segment) => segment.len() == 0,
            Made::File(segment) => segment.len() == 0,
        }
    }
}

/// A desk of so many leases.
pub fn desk_of(alloc: Global, leases: u32) -> Result<Desk, HomeFault> {
    Ok(Desk::new(alloc, leases)?)
}

/// How many segments a store begins with: so many at least, and one for each lease up to the last
/// of these, which have a file.
pub fn count_over(leases: &[u32], least: u32) -> u32 {
    match leases.last() {
        Some(last) => least.max(last.saturating_add(1)),
        None => least,
    }
}

/// A lease of the desk, the least that is free.
pub fn taken(desk: &mut Desk) -> Result<Lease, HomeFault>
    ensures { IfErr result IsOfSite }
{
    Ok(desk.take()?)
}

fn in_memory(alloc: Global, lease: Lease, capacity: u64) -> Result<Made, HomeFault>
    ensures { IfErr result IsOfSite }
{
    match MemSegment::new(alloc, lease, capacity) {
        Ok(segment) => Ok(Made::Memory(Box::new(alloc, segment)?)),
        Err(refused) => Err(HomeFault::from(refused.cause)),
    }
}

fn in_file(alloc: Global, opened: Result<FileSegment, NotOpened>) -> Result<Made, HomeFault>
    ensures { IfErr result IsOfSite }
{
    match opened {
        Ok(segment) => Ok(Made::File(Box::new(alloc, segment)?)),
        Err(refused) => Err(HomeFault::from(refused.cause)),
    }
}

/// Where the segments of a store stand, and the desk from which they have their leases.
#[derive(Drop)]
pub struct Site {
    place: Place,
    desk: Desk,
    /// Whether what was read of its files is settled.
    is_settled: bool,
}

impl Site {
    /// The folder of this path, made if it is missing, and locked; memory if there is none. It has
    /// a desk of so many leases.
    pub fn open<R: System>(rt: &R, dir: Option<&str>, leases: u32) -> Result<Site, HomeFault> {
        let desk = desk_of(rt.alloc(), leases)?;
        match dir {
            Some(path) => Ok(Site::over(Folder::open(rt, path)?, desk)),
            None => Ok(Site::of(desk)),
        }
    }

    /// The folder of this path, which was open before: nothing is made or written before `settle`.
    pub fn open_again<R: System>(rt: &R, path: &str, leases: u32) -> Result<Site, HomeFault> {
        let desk = desk_of(rt.alloc(), leases)?;
        Ok(Site::over(Folder::open_again(rt, path)?, desk))
    }

    // A folder, whose files are still to be settled, with leases of this desk.
    fn over(folder: Folder, desk: Desk) -> Site
        ensures { result.is_settled ≡ false }
    {
        Site {
            place: Place::Folder(folder),
            desk,
            is_settled: false,
        }
    }

    /// How many segments a store begins with, as `count` says, and how many bytes the longest file
    /// has.
    pub fn present<R: System>(&self, rt: &R, least: u32) -> Result<(u32, u64), HomeFault> {
        match &self.place {
            Place::Memory => Ok((least, 0)),
            Place::Folder(folder) => {
                let leases = folder.leases(rt)?;
                Ok((count_over(&leases, least), folder.longest(rt, &leases)?))
            }
        }
    }

    /// Memory, with leases of this desk.
    pub fn of(desk: Desk) -> Site {
        Site {
            place: Place::Memory,
            desk,
            is_settled: true,
        }
    }

    /// How many segments a store begins with: so many at least, and one for each lease up to the
    /// last that has a file.
    pub fn count<R: System>(&self, rt: &R, least: u32) -> Result<u32, HomeFault> {
        match &self.place {
            Place::Memory => Ok(least),
            Place::Folder(folder) => Ok(count_over(&folder.leases(rt)?, least)),
        }
    }

    /// The segment of the least lease that is free, with what its file has. In a folder nothing is
    /// made or written for it before `settle`.
    pub fn segment<R: System>(&mut self, rt: &R, capacity: u64) -> Result<Made, HomeFault>
        ensures refused { IfErr result IsOfSite }
        ensures unsettled { self.new.is_settled ≡ self.old.is_settled }
    {
        let lease = taken(&mut self.desk)?;
        match &mut self.place {
            Place::Memory => in_memory(rt.alloc(), lease, capacity),
            Place::Folder(folder) => in_file(rt.alloc(), folder.segment(rt, lease, capacity)),
        }
    }

    /// Settles the files of all segments: what recovery found has to stand before anything follows
    /// it.
    pub fn settle<R: System>(&mut self, rt: &R) -> Result<(), HomeFault>
        ensures refused { IfErr result IsOfSite }
        ensures settled { OnOk result (self.new.is_settled ≡ true) }
        ensures unsettled { OnErr result (self.new.is_settled ≡ self.old.is_settled) }
    {
        if let Place::Folder(folder) = &mut self.place {
            folder.settle(rt)?;
        }
        self.is_settled = true;
        Ok(())
    }

    /// Lets go of the files of segments that are not settled: nothing is ever appended to them.
    pub fn forget(&mut self)
        ensures unsettled { self.new.is_settled ≡ self.old.is_settled }
    {
        if let Place::Folder(folder) = &mut self.place {
            folder.forget();
        }
    }

    /// A new segment of the least lease that is free, once those that came back are, over a file of
    /// no bytes.
    pub fn spare<R: System>(&mut self, rt: &R, capacity: u64) -> Result<Made, HomeFault>
        ensures { IfErr result IsOfSite }
    {
        let _ = self.desk.collect();
        let lease = taken(&mut self.desk)?;
        match &self.place {
            Place::Memory => in_memory(rt.alloc(), lease, capacity),
            Place::Folder(folder) => in_file(rt.alloc(), folder.spare(rt, lease, capacity)),
        }
    }

    /// The leases that are out, ascending, once those that came back are free.
    pub fn out(&mut self, alloc: Global) -> Result<Vec<u32>, AllocError> {
        let _ = self.desk.collect();
        let mut out = Vec::new(alloc);
        for lease in 0..MAX_LEASES {
            if self.desk.is_out(lease) {
                out.push(lease)?;
            }
        }
        Ok(out)
    }

    /// The file of a lease whose segment was given up has no bytes any more.
    pub fn empty<R: System>(&self, rt: &R, lease: u32) -> Result<(), FolderFault> {
        match &self.place {
            Place::Memory => Ok(()),
            Place::Folder(folder) => {
                let _ = folder.empty(rt, lease)?;
                Ok(())
            }
        }
    }

    /// The file of each of these leases that came back has no bytes any more. They are emptied in
    /// this order.
    pub fn empty_free<R: System>(&mut self, rt: &R, leases: &[u32]) -> Result<(), FolderFault> {
        let _ = self.desk.collect();
        for lease in leases {
            if !self.desk.is_out(*lease) {
                self.empty(rt, *lease)?;
            }
        }
        Ok(())
    }
}
