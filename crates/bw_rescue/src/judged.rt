//! What recovery says of segments.

ghost use Rattle.bw_care.specs.Found.{IsRecovered};

use crate::fault::RescueFault;
use bw_beside::{Ask, ask_images, ask_owned};
use bw_care::Recovered;
use bw_home::Found;
use bw_look::{Image, Watch, Work};
use std::alloc::Global;

/// What recovery says of segments.
#[derive(Debug, Clone, Copy, PartialEq, Eq)]
pub(crate) struct Judged {
    pub(crate) found: Found,
    /// How many pages there are.
    pub(crate) pages: u32,
    /// How many pairs they have.
    pub(crate) pairs: u64,
}

impl Judged {
    /// The numbers of what was recovered.
    pub(crate) fn of(pages: &Recovered) -> Judged
        requires { IsRecovered (λ b. holding (b.vtable, b.value)) pages.now }
    {
        Judged {
            found: Found::of(pages),
            pages: pages.leaves.count(),
            pairs: pages.pairs,
        }
    }
}

/// The numbers are asked for: no page is made.
#[derive(Drop)]
struct Numbers;

impl<W> Ask<W> for Numbers {
    type Answer = Judged;

    fn ask(&mut self, pages: Recovered, _watch: &mut W) -> Judged {
        Judged::of(&pages)
    }
}

/// How many bytes segments have.
pub(crate) fn bytes_of(images: &[Image]) -> u64 {
    let mut bytes = 0u64;
    for image in images {
        bytes = bytes.saturating_add(image.bytes.len() as u64);
    }
    bytes
}

/// What recovery says of copies of these segments.
pub(crate) fn judge<W: Watch>(
    alloc: Global,
    images: &[Image],
    watch: &mut W,
) -> Result<Judged, RescueFault> {
    watch.see(Work::Recovering, 0, bytes_of(images));
    Ok(ask_images(alloc, images, &mut Numbers, watch)?)
}

/// What recovery says of these segments. No byte of them is copied.
pub(crate) fn judge_owned<W: Watch>(
    alloc: Global,
    images: Vec<Image>,
    watch: &mut W,
) -> Result<Judged, RescueFault> {
    watch.see(Work::Recovering, 0, bytes_of(images.as_slice()));
    Ok(ask_owned(alloc, images, &mut Numbers, watch)?)
}
