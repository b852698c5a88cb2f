//! A store as of an earlier frame, in another folder.

use crate::copying::Copied;
use crate::cutting::cut_at;
use crate::fault::RescueFault;
use crate::judged::{Judged, judge};
use crate::reading::{Seen, seen_images};
use bw_beside::{already_there, ends_of};
use bw_care::RecoverCause;
use bw_file::{Folder, FolderFault};
use bw_home::{Found, System};
use bw_look::{BlockRow, Image, Kind, Survey, Watch, carry, pages_at};
use std::alloc::{AllocError, Global};
use std::collections::BTreeMap;

/// A log that was read.
#[derive(Drop)]
struct Log {
    images: Vec<Image>,
    /// Where the first piece of each begins, in bytes, that has not its digest.
    hurts: Vec<Option<(u64, FolderFault)>>,
}

impl Log {
    fn of(seen: Vec<Seen>) -> Result<Log, AllocError> {
        let alloc = *seen.allocator();
        let mut log = Log {
            images: Vec::new(alloc),
            hurts: Vec::new(alloc),
        };
        for Seen { image, hurt } in seen {
            log.images.push(image)?;
            log.hurts.push(hurt)?;
        }
        Ok(log)
    }

    /// What is said of the first segment that is damaged, if one is.
    fn first_hurt(&self) -> Option<FolderFault> {
        for hurt in self.hurts.as_slice() {
            if let Some((_, fault)) = hurt {
                return Some(*fault);
            }
        }
        None
    }

    /// What stands against the whole of it: damage, or what recovery refuses.
    fn judged<W: Watch>(&self, alloc: Global, watch: &mut W) -> Result<Judged, RescueFault> {
        match self.first_hurt() {
            Some(fault) => Err(RescueFault::from(fault)),
            None => judge(alloc, self.images.as_slice(), watch),
        }
    }
}

/// The greatest page that a block of a survey touches or makes.
fn greatest_page(survey: &Survey) -> u64 {
    let mut greatest = 0;
    for row in survey.blocks() {
        greatest = greatest.max(u64::from(row.page));
        greatest = greatest.max(u64::from(row.made.unwrap_or(0)));
    }
    greatest
}

/// Refuses a store that lacks a page: if the log had so many pages, a segment with its blocks was
/// given up since.
fn with_pages(then: Judged, pages: u64) -> Result<Judged, RescueFault> {
    if u64::from(then.pages) < pages {
        let page = then.pages.saturating_add(1);
        return Err(RescueFault::Recovery(RecoverCause::Unlawful { page }));
    }
    Ok(then)
}

/// Refuses segments of which a piece is kept, in a part at least, that has not its digest.
fn with_digests(cut: &[Image], hurts: &[Option<(u64, FolderFault)>]) -> Result<(), RescueFault> {
    for (image, hurt) in cut.iter().zip(hurts) {
        if let Some((at, fault)) = hurt {
            if *at < image.bytes.len() as u64 {
                return Err(RescueFault::from(*fault));
            }
        }
    }
    Ok(())
}

/// A log as of a frame: its segments, and what recovery says of them.
#[derive(Drop)]
struct Restored {
    cut: Vec<Image>,
    then: Judged,
}

/// The page that a block sets, and from which frame on a log has to be kept for that: a Split makes
/// its page, which was not there before.
fn set_by(row: &BlockRow) -> Option<(u32, u64)> {
    match row.kind {
        Kind::Base => Some((row.page, row.frame)),
        Kind::Delta => None,
        Kind::Split => row.made.map(|made| (made, 0)),
    }
}

/// The oldest frame as of which a sound log can be restored, of which this frame is the first that
/// it has: each page that was there is set in a frame up to that one.
fn oldest_of(alloc: Global, survey: &Survey, first: u64) -> Result<u64, AllocError> {
    let mut seen = BTreeMap::new(alloc);
    let mut oldest = first;
    for row in survey.blocks() {
        if let Some((page, frame)) = set_by(row) {
            if seen.insert(page, ())?.is_none() {
                oldest = oldest.max(frame);
            }
        }
    }
    Ok(oldest)
}

/// Refuses a frame that a sound log has not, or as of which it has not all pages any more.
fn with_frame(
    alloc: Global,
    survey: &Survey,
    found: &Found,
    frame: u64,
) -> Result<(), RescueFault> {
    let Found { first, last, .. } = *found;
    if frame == 0 || frame > last {
        return Err(RescueFault::NoFrame { first, last });
    }
    let oldest = oldest_of(alloc, survey, first)?;
    if frame < oldest {
        return Err(RescueFault::GivenUp { frame, oldest });
    }
    Ok(())
}

/// The log of a sound folder as of a frame. `now` is what recovery says of all of it.
fn of_sound<W: Watch>(
    alloc: Global,
    images: Vec<Image>,
    now: &Judged,
    frame: u64,
    watch: &mut W,
) -> Result<Restored, RescueFault> {
    let survey = Survey::of(alloc, images.as_slice())?;
    with_frame(alloc, &survey, &now.found, frame)?;
    let pages = pages_at(&survey, frame, u64::from(now.pages));
    let cut = cut_at(alloc, images, frame)?;
    let then = with_pages(judge(alloc, cut.as_slice(), watch)?, pages)?;
    Ok(Restored { cut, then })
}

/// The log as of a frame if there is this fault. It is reported unless it stands after that frame:
/// so the segments are cut first, and recovery has to find the frame in what is left. How many
/// pages there were is asked of the frames that can be read.
fn in_front_of<W: Watch>(
    alloc: Global,
    log: Log,
    fault: RescueFault,
    frame: u64,
    watch: &mut W,
) -> Result<Restored, RescueFault> {
    let Log { images, hurts } = log;
    let survey = Survey::of(alloc, images.as_slice())?;
    let pages = pages_at(&survey, frame, greatest_page(&survey));
    let cut = cut_at(alloc, images, frame)?;
    with_digests(cut.as_slice(), hurts.as_slice())?;
    match judge(alloc, cut.as_slice(), watch) {
        Ok(then) if then.found.last == frame => {
            let then = with_pages(then, pages)?;
            Ok(Restored { cut, then })
        }
        Err(RescueFault::NoMemory) => Err(RescueFault::NoMemory),
        // All frames are there, and a page was set in a segment that was given up since.
        Err(RescueFault::Recovery(RecoverCause::Unlawful { page })) => Err(RescueFault::Recovery(
            RecoverCause::Unlawful { page },
        )),
        _ => Err(fault),
    }
}

/// The log as of a frame.
fn as_of<W: Watch>(
    alloc: Global,
    log: Log,
    frame: u64,
    watch: &mut W,
) -> Result<Restored, RescueFault> {
    match log.judged(alloc, watch) {
        Ok(now) => of_sound(alloc, log.images, &now, frame, watch),
        Err(RescueFault::NoMemory) => Err(RescueFault::NoMemory),
        Err(fault) => in_front_of(alloc, log, fault, frame, watch),
    }
}

/// Writes the segments that have bytes, but for the first one, into a folder.
fn write_rest<R: System>(rt: &R, folder: &Folder, images: &[Image]) -> Result<(), FolderFault> {
    let held = images.iter().filter(|image| !image.bytes.is_empty());
    for image in held.skip(1) {
        if let Some(lease) = image.lease {
            let bytes = image.bytes.as_slice();
            let ends = ends_of(rt.alloc(), bytes)?;
            folder.write(rt, lease, bytes, ends.as_slice())?;
        }
    }
    Ok(())
}

/// Writes the segments that have bytes into a folder that has none yet. Some of them may be a store
/// as of an earlier frame, so the first one is no segment until all others stand: a stop in between
/// leaves a folder that is refused.
fn write_all<R: System>(rt: &R, path: &str, images: &[Image]) -> Result<(), FolderFault> {
    let folder = Folder::open(rt, path)?;
    if !folder.leases(rt)?.is_empty() {
        return Err(already_there());
    }
    let first = images.iter().find(|image| !image.bytes.is_empty());
    if let Some(
        Image {
            lease: Some(lease),
            bytes,
        },
    ) = first
    {
        let ends = ends_of(rt.alloc(), bytes.as_slice())?;
        let begun = folder.write_held_back(rt, *lease, bytes.as_slice(), ends.as_slice())?;
        write_rest(rt, &folder, images)?;
        begun.end()?;
    }
    Ok(())
}

/// Makes a folder that holds a store as it was when this frame was its last; the folder may not
/// have segments yet. It gets the times that are noted of its frames. There are so many leases. A
/// fault of the log that stands after the frame is no hindrance.
///
/// `NoFrame` if the log has no such frame, or not yet; `GivenUp` if a segment with blocks of that
/// frame's pages was given up since, and nothing else is at fault; `Recovery`, with the page that
/// is missing, if that is so of a log with a fault; `Source` and `Recovery` for what stands against
/// the log up to the frame.
pub fn restore<R: System, W: Watch>(
    rt: &R,
    from: &str,
    to: &str,
    frame: u64,
    leases: u32,
    watch: &mut W,
) -> Result<Copied, RescueFault> {
    let log = Log::of(seen_images(rt, from, leases, watch)?)?;
    let Restored { cut, then } = as_of(rt.alloc(), log, frame, watch)?;
    write_all(rt, to, cut.as_slice()).map_err(RescueFault::of_target)?;
    // A folder without times is whole.
    let _ = carry(rt, from, to, then.found.last);
    Ok(Copied::of(&then))
}
