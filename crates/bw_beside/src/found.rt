//! What recovery finds in segments: the frames that they have.

ghost use Rattle.bw_care.specs.Found.{IsRecovered};

use crate::asking::{Ask, ask_images};
use bw_care::{RecoverCause, Recovered};
use bw_look::Image;
use std::alloc::Global;

/// The frames of segments that recovery accepts.
#[derive(Debug, Clone, Copy, PartialEq, Eq)]
pub struct Found {
    /// The numbers of the first and the last frame.
    pub first: u64,
    pub last: u64,
}

/// The frames are asked for.
#[derive(Drop)]
struct Frames;

impl<W> Ask<W> for Frames {
    type Answer = Found;

    fn ask(&mut self, pages: Recovered, _watch: &mut W) -> Found {
        Found {
            first: pages.first,
            last: pages.last,
        }
    }
}

/// What recovery finds in copies of these segments, if it accepts them.
pub fn found_in(alloc: Global, images: &[Image]) -> Result<Found, RecoverCause> {
    ask_images(alloc, images, &mut Frames, &mut ())
}
