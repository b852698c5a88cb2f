//! Segments as they were when a frame was the last one.

ghost use Rattle.std.specs.Prelude.{IfOk};
ghost use Rattle.bw_rescue.specs.Cut.{IsCut, AreCut};

use bw_look::{Image, kept_bytes};
use std::alloc::{AllocError, Global};

// A segment as it was when this frame was the last.
fn cut_one(alloc: Global, image: Image, frame: u64) -> Result<Image, AllocError>
    ensures { IfOk result (IsCut frame image) }
{
    let kept = kept_bytes(alloc, &image, frame)?;
    let Image { lease, mut bytes } = image;
    bytes.truncate(kept);
    Ok(Image { lease, bytes })
}

/// The segments as they were when this frame was the last: of each, as long as it is lawful, its
/// header and its frames up to that one; nothing of one that was begun since. A refused growth is
/// the only error.
pub fn cut_at(alloc: Global, images: Vec<Image>, frame: u64) -> Result<Vec<Image>, AllocError>
    ensures { IfOk result (λ cut. AreCut frame images.items cut.items) }
{
    let mut cut = Vec::new(alloc);
    for image in images {
        cut.push(cut_one(alloc, image, frame)?)?;
    }
    Ok(cut)
}
