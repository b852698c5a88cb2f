//! A new folder. It is made under another name beside, and gets its own at the end: whatever stops
//! this in between, a part of it is never taken for a store.

ghost use Rattle.std.specs.Prelude.{IfOk};
ghost use Rattle.bw_rescue.specs.Alike.{AreHeld};

use crate::alike::are_same;
use crate::compared::{Tally, Wanted};
use crate::copying::Copied;
use crate::fault::RescueFault;
use crate::judged::{Judged, bytes_of, judge_owned};
use crate::reading::sound_images;
use crate::walking::TallyOf;
use bw_beside::{ask_owned, begin, ends_of, is_left, partial_of, refuse_there};
use bw_file::{Folder, FolderFault};
use bw_home::System;
use bw_look::{Image, Watch, Work, carry};
use std::alloc::Global;
use std::io::{self, ErrorKind};

/// A new folder, and the one in which it is to be made.
#[derive(Drop)]
pub(crate) struct Target {
    to: String,
    partial: String,
}

/// A new folder that is being made.
#[derive(Drop)]
pub(crate) struct Making {
    /// Its name.
    to: String,
    making: bw_beside::Making,
}

/// Writes the segments, with a digest for each of their pieces.
fn write_images<R: System, W: Watch>(
    rt: &R,
    path: &str,
    images: &[Image],
    watch: &mut W,
) -> Result<(), FolderFault> {
    let folder = Folder::open(rt, path)?;
    let all = bytes_of(images);
    let mut done = 0u64;
    for image in images {
        if let Some(lease) = image.lease {
            let bytes = image.bytes.as_slice();
            let ends = ends_of(rt.alloc(), bytes)?;
            folder.write(rt, lease, bytes, ends.as_slice())?;
        }
        done = done.saturating_add(image.bytes.len() as u64);
        watch.see(Work::Writing, done, all);
    }
    Ok(())
}

/// What recovery says of segments that were written and read again. Their pairs have this tally, if
/// there is one.
fn judge_again<W: Watch>(
    alloc: Global,
    images: Vec<Image>,
    tally: Option<&Tally>,
    watch: &mut W,
) -> Result<Judged, RescueFault> {
    let Some(wanted) = tally else {
        return judge_owned(alloc, images, watch);
    };
    let (judged, found) = ask_owned(alloc, images, &mut TallyOf { alloc }, watch)??;
    if !wanted.is_same(&found) {
        return Err(RescueFault::Unlike);
    }
    Ok(judged)
}

// Compares what was read again with what it has to be, and says what recovery finds in it: an
// answer says that both have the same files.
fn compared<W: Watch>(
    alloc: Global,
    images: Vec<Image>,
    wanted: Wanted<'_>,
    watch: &mut W,
) -> Result<Judged, RescueFault>
    ensures { IfOk result (λ judged. AreHeld wanted.entry.images.now images.items
        × AreHeld images.items wanted.entry.images.now) }
{
    if !are_same(wanted.images, images.as_slice()) {
        return Err(RescueFault::Unlike);
    }
    judge_again(alloc, images, wanted.tally, watch)
}

impl Target {
    /// A folder of this path, which nothing may have yet. The one in which it is made has
    /// `.partial` after its name, and may not be there either, but for what an earlier run left.
    pub(crate) fn of<R: System>(rt: &R, to: &str) -> Result<Target, RescueFault> {
        refuse_there(rt, to).map_err(RescueFault::of_target)?;
        let name = to.trim_end_matches('/');
        if name.is_empty() {
            let missing = FolderFault::System(io::Error::from(ErrorKind::NotFound));
            return Err(RescueFault::Target(missing));
        }
        let partial = partial_of(rt, name)?;
        let _ = is_left(rt, partial.as_str()).map_err(RescueFault::of_partial)?;
        let to = String::from_str(rt.alloc(), name)?;
        Ok(Target { to, partial })
    }

    /// Makes the folder in which it is made.
    pub(crate) fn begin<R: System>(self, rt: &R) -> Result<Making, RescueFault> {
        let making = begin(rt, self.partial.as_str()).map_err(RescueFault::of_partial)?;
        Ok(Making {
            to: self.to,
            making,
        })
    }
}

impl Making {
    /// The folder in which it is made.
    pub(crate) fn partial(&self) -> &str {
        self.making.path()
    }

    /// Writes these segments.
    pub(crate) fn write<R: System, W: Watch>(
        &self,
        rt: &R,
        images: &[Image],
        watch: &mut W,
    ) -> Result<(), RescueFault> {
        write_images(rt, self.partial(), images, watch).map_err(RescueFault::of_partial)
    }

    /// Reads what was written again, compares it with what it has to be, waits until it stands, and
    /// gives it its name; answers what it holds. If it has the frames of another folder, the times
    /// that this one has noted of them go with it, as far as they can be written: a folder without
    /// them is whole.
    pub(crate) fn end<R: System, W: Watch>(
        self,
        rt: &R,
        leases: u32,
        wanted: Wanted<'_>,
        noted: Option<&str>,
        watch: &mut W,
    ) -> Result<Copied, RescueFault> {
        let images = match sound_images(rt, self.partial(), leases, watch) {
            Ok(images) => images,
            Err(RescueFault::Source(fault)) => return Err(RescueFault::Partial(fault)),
            Err(fault) => return Err(fault),
        };
        let copied = Copied::of(&compared(rt.alloc(), images, wanted, watch)?);
        if let Some(from) = noted {
            let _ = carry(rt, from, self.partial(), copied.frame);
        }
        let Making { to, making } = self;
        making.finish(rt).map_err(RescueFault::of_partial)?;
        making
            .name(rt, to.as_str())
            .map_err(RescueFault::of_target)?;
        Ok(copied)
    }
}
