//! What recovery says of segments.

use bw_beside::found_in;
use bw_care::RecoverCause;
use bw_look::Image;
use std::alloc::Global;

/// How many bytes segments have.
pub(crate) fn length(images: &[Image]) -> u64 {
    let mut bytes = 0u64;
    for image in images {
        bytes = bytes.saturating_add(image.bytes.len() as u64);
    }
    bytes
}

/// The number of the last frame of copies of these segments, if they are those of a store.
pub(crate) fn judge(alloc: Global, images: &[Image]) -> Result<u64, RecoverCause> {
    Ok(found_in(alloc, images)?.last)
}
