//! A store is copied as it is.

use crate::compared::Wanted;
use crate::fault::RescueFault;
use crate::judged::Judged;
use crate::reading::source_of;
use crate::target::Target;
use bw_codec::{HeaderRead, read_header};
use bw_home::System;
use bw_look::{Image, Watch};
use std::alloc::AllocError;

/// What a new folder holds.
#[derive(Debug, Clone, Copy, PartialEq, Eq)]
pub struct Copied {
    /// The number of its last frame.
    pub frame: u64,
    /// How many pages there are.
    pub pages: u64,
    /// How many pairs they have.
    pub pairs: u64,
}

impl Copied {
    pub(crate) fn of(judged: &Judged) -> Copied {
        Copied {
            frame: judged.found.last,
            pages: u64::from(judged.pages),
            pairs: judged.pairs,
        }
    }
}

/// The live segments: those with a whole header.
fn live_of(images: Vec<Image>) -> Result<Vec<Image>, AllocError> {
    let mut live = Vec::new(*images.allocator());
    for image in images {
        if let HeaderRead::Whole(_) = read_header(image.bytes.as_slice()) {
            live.push(image)?;
        }
    }
    Ok(live)
}

/// Copies the live segments of a folder, byte by byte, into a new one, with a digest for each of
/// their pieces, and the times that are noted of its frames. It opens as the store of that moment:
/// before it gets its name, its bytes are read again and compared, and recovery has to accept them.
/// There are so many leases.
///
/// The folder may be one that somebody writes: that moment is one of its frames then, as
/// `bw_beside::open` has it.
///
/// Refused, and nothing is made: `Target` if the new folder is there already; `Source`, if the
/// other one is damaged, or somebody writes it and it was not read; `Recovery`, if it is no store.
/// After `Partial`, `Unlike` and `Target` a part may stand under the name with `.partial` at its
/// end, which is no copy, and which the next one takes over.
pub fn copy<R: System, W: Watch>(
    rt: &R,
    from: &str,
    to: &str,
    leases: u32,
    watch: &mut W,
) -> Result<Copied, RescueFault> {
    let target = Target::of(rt, to)?;
    let live = live_of(source_of(rt, from, leases, watch)?)?;
    let wanted = Wanted {
        images: live.as_slice(),
        tally: None,
    };
    let making = target.begin(rt)?;
    making.write(rt, live.as_slice(), watch)?;
    making.end(rt, leases, wanted, Some(from), watch)
}
