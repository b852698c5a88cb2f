//! The folder that follows: its lock, its segments, and what a round does to them.
//!
//! At each moment it has segments of consecutive numbers, and frames of consecutive numbers in
//! them: a segment is begun only after the one before it has all that the followed one has, and on
//! the disk; and the oldest is emptied only after recovery took the others without it.

use crate::fault::FollowFault;
use crate::files::{Files, Told, length_of, read, read_all, segment_path};
use crate::growth::Growth;
use crate::halt::Halt;
use crate::held::{Held, front_of, next_behind, rest_of};
use crate::judged::{judge, length};
use crate::pen::Pen;
use bw_beside::{Host, ends_of};
use bw_care::RecoverCause;
use bw_codec::limits::HEADER_LEN;
use bw_codec::{Header, HeaderRead, read_header};
use bw_device::MAX_LEASES;
use bw_digest::Row;
use bw_file::{Folder, FolderFault};
use bw_look::{Image, Watch, Work};
use std::alloc::{AllocError, Global};
use std::collections::BTreeMap;
use std::io::ErrorKind;

/// The folder that follows, which nobody else writes.
#[derive(Drop)]
pub(crate) struct Target {
    path: String,
    folder: Folder,
    /// Its segments, the oldest first. There is one at least.
    held: Vec<Held>,
    /// The number of the next frame.
    next: u64,
    /// What is owed before anything is written; nothing afterwards.
    debts: Vec<Debt>,
}

/// The folder of this path, which was open before, under its lock. Nothing is made.
fn locked<R: Host>(rt: &R, path: &str) -> Result<Folder, FollowFault> {
    match Folder::open_again(rt, path) {
        Ok(folder) => Ok(folder),
        // What was never opened is not what a follower made.
        Err(FolderFault::System(error)) if error.kind() == ErrorKind::NotFound => {
            Err(FollowFault::NoStore(RecoverCause::Empty))
        }
        Err(fault) => Err(FollowFault::of_target(fault)),
    }
}

/// The header of a segment, if it is whole.
fn header_of(image: &Image) -> Option<Header> {
    match read_header(image.bytes.as_slice()) {
        HeaderRead::Whole(header) => Some(header),
        _ => None,
    }
}

/// The greatest number of these segments.
fn newest_of(images: &[Image]) -> u64 {
    let mut newest = 0u64;
    for image in images {
        if let Some(header) = header_of(image) {
            newest = newest.max(header.number);
        }
    }
    newest
}

/// Where the pieces end that have no sum yet: the whole frames, and in an older segment what stands
/// after them. Of the newest one that is the beginning of a frame that a stop left, and no piece.
fn ends_behind(
    alloc: Global,
    bytes: &[u8],
    row: Row,
    is_newest: bool,
) -> Result<Vec<u64>, AllocError> {
    let mut ends = Vec::new(alloc);
    for end in &ends_of(alloc, bytes)? {
        if *end > row.end() {
            ends.push(*end)?;
        }
    }
    let last = ends.last().copied().unwrap_or(row.end());
    if !is_newest && bytes.len() as u64 > last {
        ends.push(bytes.len() as u64)?;
    }
    Ok(ends)
}

/// What a segment here is owed before anything is written: its end is written again, as each
/// opening does it, and its pieces get the sums that they lack.
#[derive(Drop)]
struct Debt {
    lease: u32,
    /// Where these sums come to stand in the file of sums, in bytes.
    at: u64,
    sums: Vec<u8>,
}

/// The segment in a file, as it is once its pieces have their sums; and what that takes.
fn held_in(
    alloc: Global,
    image: &Image,
    told: Told,
    is_newest: bool,
) -> Result<Option<(Held, Debt)>, AllocError> {
    let (Some(header), Some(lease)) = (header_of(image), image.lease) else {
        return Ok(None);
    };
    let bytes = image.bytes.as_slice();
    let mut held = Held {
        lease,
        header,
        row: told.row,
        last: told.last,
        other: None,
    };
    let at = held.next_at();
    let ends = ends_behind(alloc, bytes, told.row, is_newest)?;
    let rest = rest_of(bytes, held.end() as usize);
    let sums = held.count(alloc, rest, ends.as_slice())?;
    Ok(Some((held, Debt { lease, at, sums })))
}

/// The segments of a folder, by their numbers, and what they are owed.
fn held_of(alloc: Global, files: &Files) -> Result<(Vec<Held>, Vec<Debt>), AllocError> {
    let newest = newest_of(files.images.as_slice());
    let mut numbers = BTreeMap::new(alloc);
    let mut debts = Vec::new(alloc);
    for (image, told) in files.images.as_slice().iter().zip(files.told.as_slice()) {
        let is_newest = header_of(image).is_some_and(|header| header.number == newest);
        if let Some((held, debt)) = held_in(alloc, image, *told, is_newest)? {
            let _ = numbers.insert(held.header.number, held)?;
            debts.push(debt)?;
        }
    }
    let mut list = Vec::new(alloc);
    for (_, held) in numbers {
        list.push(held)?;
    }
    Ok((list, debts))
}

/// Brings a segment to the disk, and gives it the sums that it is owed.
fn settle<R: Host>(rt: &R, path: &str, folder: &Folder, debt: &Debt) -> Result<(), FolderFault> {
    let pen = Pen::open(rt, path, debt.lease)?;
    folder.settle_again(rt, debt.lease)?;
    pen.set_sums(debt.at, debt.sums.as_slice())
}

/// Whether a segment with this header may follow one with that.
fn may_follow(before: &Header, header: &Header) -> bool {
    header.number == before.number.saturating_add(1)
        && header.m == before.m
        && (header.version > before.version
            || (header.version == before.version && header.f == before.f))
}

/// The header that begins these bytes, if it is this one.
fn begins(bytes: &[u8], header: &Header) -> bool {
    match read_header(bytes) {
        HeaderRead::Whole(found) => found == *header,
        _ => false,
    }
}

impl Target {
    /// Opens the folder of this path, which is there, and asks recovery of what is in it. Nothing
    /// is written yet. After its pieces the newest segment may have the beginning of a frame, which
    /// the next round writes again, whole.
    pub(crate) fn open<R: Host, W: Watch>(
        rt: &R,
        path: &str,
        watch: &mut W,
    ) -> Result<Target, FollowFault> {
        let folder = locked(rt, path)?;
        let files = read_all(rt, path, &folder)?;
        let images = files.images.as_slice();
        watch.see(Work::Recovering, 0, length(images));
        let last = judge(rt.alloc(), images).map_err(FollowFault::of_store)?;
        let (held, debts) = held_of(rt.alloc(), &files)?;
        Ok(Target {
            path: String::from_str(rt.alloc(), path)?,
            folder,
            held,
            next: last.saturating_add(1),
            debts,
        })
    }

    pub(crate) fn path(&self) -> &str {
        self.path.as_str()
    }

    /// The number of its last frame.
    pub(crate) fn frame(&self) -> u64 {
        self.next.saturating_sub(1)
    }

    pub(crate) fn newest(&self) -> u64 {
        self.held.last().map_or(0, |held| held.header.number)
    }

    /// The segment of this number.
    pub(crate) fn held(&self, number: u64) -> Option<Held> {
        self.held
            .as_slice()
            .iter()
            .find(|held| held.header.number == number)
            .copied()
    }

    /// Notes of a segment that its bytes were found to be the other one's, whose last sum is this
    /// one.
    pub(crate) fn note(&mut self, held: Held) {
        for it in self.held.as_mut_slice() {
            if it.header.number == held.header.number {
                *it = held;
            }
        }
    }

    /// A lease for a new segment: that of a file in which a stop left the beginning of one, or else
    /// the least of which no segment is there.
    fn free_lease<R: Host>(&self, rt: &R) -> Result<Option<u32>, FolderFault> {
        let mut least = None;
        for lease in 0..MAX_LEASES {
            if self.held.as_slice().iter().any(|held| held.lease == lease) {
                continue;
            }
            let path = segment_path(rt, self.path.as_str(), lease)?;
            if length_of(rt, path.as_str())? > 0 {
                return Ok(Some(lease));
            }
            least = least.or(Some(lease));
            if lease as usize >= self.held.len() {
                break;
            }
        }
        Ok(least)
    }

    /// A segment that follows the newest one, which has no bytes yet.
    pub(crate) fn begin<R: Host>(&self, rt: &R, header: Header) -> Result<Held, Halt> {
        let Some(before) = self.held.last() else {
            return Err(Halt::Moved);
        };
        if !may_follow(&before.header, &header) {
            return Err(Halt::Moved);
        }
        match self.free_lease(rt) {
            Ok(Some(lease)) => Ok(Held::begun(lease, header)),
            Ok(None) => Err(Halt::Fault(FollowFault::NoLease)),
            Err(fault) => Err(Halt::Fault(FollowFault::of_target(fault))),
        }
    }

    /// The number of the next frame after what a segment has more, if that goes on from what is
    /// here.
    fn next_after(&self, held: &Held, growth: &Growth) -> Option<u64> {
        let bytes = growth.bytes.as_slice();
        if held.end() > 0 {
            return next_behind(&held.header, bytes, self.next);
        }
        if !begins(bytes, &held.header) {
            return None;
        }
        next_behind(&held.header, rest_of(bytes, HEADER_LEN), self.next)
    }

    /// Pays what is owed, before the first write.
    fn settle<R: Host>(&mut self, rt: &R) -> Result<(), FollowFault> {
        for debt in self.debts.as_slice() {
            let paid = settle(rt, self.path.as_str(), &self.folder, debt);
            paid.map_err(FollowFault::of_target)?;
        }
        if !self.debts.is_empty() {
            self.folder.settle_names().map_err(FollowFault::of_target)?;
        }
        self.debts.clear();
        Ok(())
    }

    /// Makes the file of a segment ready for what it has more: what stands after its sums has to be
    /// the beginning of that, and is taken away if it is not.
    fn ready<R: Host>(
        &self,
        rt: &R,
        pen: &Pen,
        held: &Held,
        more: &[u8],
    ) -> Result<bool, FolderFault> {
        let rest = pen.rest(rt.alloc(), held.end())?;
        if rest.len() > more.len() && front_of(rest.as_slice(), more.len()) == more {
            return Ok(false);
        }
        if front_of(more, rest.len()) != rest.as_slice() {
            pen.set_sums(held.next_at(), &[])?;
            pen.cut(held.end())?;
        }
        Ok(true)
    }

    /// Writes what a segment has more, and gives how far it has come; none if more stands here than
    /// there.
    fn written<R: Host>(
        &self,
        rt: &R,
        held: Held,
        growth: &Growth,
    ) -> Result<Option<Held>, FolderFault> {
        let pen = Pen::open(rt, self.path.as_str(), held.lease)?;
        self.folder.settle_names()?;
        if !self.ready(rt, &pen, &held, growth.bytes.as_slice())? {
            return Ok(None);
        }
        let (bytes, ends) = (growth.bytes.as_slice(), growth.ends.as_slice());
        Ok(Some(pen.write(rt.alloc(), held, bytes, ends)?))
    }

    /// Appends what a segment has more, the newest one or one that follows it. What is to be
    /// written has to be whole frames whose numbers go on, or nothing is written; how many bytes it
    /// was.
    pub(crate) fn append<R: Host>(
        &mut self,
        rt: &R,
        held: Held,
        growth: &Growth,
    ) -> Result<u64, Halt> {
        if growth.bytes.is_empty() {
            return Ok(0);
        }
        let Some(next) = self.next_after(&held, growth) else {
            return Err(Halt::Moved);
        };
        self.settle(rt)?;
        let number = held.header.number;
        let Some(now) = self
            .written(rt, held, growth)
            .map_err(FollowFault::of_target)?
        else {
            return Err(Halt::Fault(FollowFault::Strayed { segment: number }));
        };
        if held.end() == 0 {
            self.held.push(now)?;
        } else {
            self.note(now);
        }
        self.next = next;
        Ok(growth.bytes.len() as u64)
    }

    /// The segments from this number on.
    fn from(&self, alloc: Global, number: u64) -> Result<Vec<Held>, AllocError> {
        let mut rest = Vec::new(alloc);
        for held in self.held.as_slice() {
            if held.header.number >= number {
                rest.push(*held)?;
            }
        }
        Ok(rest)
    }

    /// These segments, as they stand in their files.
    fn read<R: Host>(&self, rt: &R, held: &[Held]) -> Result<Vec<Image>, FollowFault> {
        let mut images = Vec::new(rt.alloc());
        for it in held {
            let path = segment_path(rt, self.path.as_str(), it.lease).map_err(
                FollowFault::of_target,
            )?;
            let bytes = read(rt, path.as_str()).map_err(FollowFault::of_target)?;
            images.push(Image {
                lease: Some(it.lease),
                bytes,
            })?;
        }
        Ok(images)
    }

    /// Empties the files of the segments below this number, the oldest first, once recovery took
    /// all others without them; how many they are.
    pub(crate) fn give_up<R: Host, W: Watch>(
        &mut self,
        rt: &R,
        number: u64,
        watch: &mut W,
    ) -> Result<u64, FollowFault> {
        let rest = self.from(rt.alloc(), number)?;
        let gone = self.held.len().saturating_sub(rest.len());
        if gone == 0 || rest.is_empty() {
            return Ok(0);
        }
        let images = self.read(rt, rest.as_slice())?;
        watch.see(Work::Recovering, 0, length(images.as_slice()));
        let _ = judge(rt.alloc(), images.as_slice()).map_err(FollowFault::of_store)?;
        self.settle(rt)?;
        for held in self.held.as_slice() {
            if held.header.number < number {
                self.folder
                    .empty(rt, held.lease)
                    .map_err(FollowFault::of_target)?;
            }
        }
        self.held = rest;
        Ok(gone as u64)
    }
}
