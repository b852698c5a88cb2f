//! Why boxes cannot be recovered.

ghost use Rattle.std.specs.Prelude.{◌≡◌};
ghost use Rattle.bw_lines.specs.declared.cause.RecoverCause.TheVariants.{NoMemory};

use std::alloc::{AllocError, AllocFailed};
use std::fmt::{self, Display, Formatter};
use thiserror::Error;

/// Why boxes cannot be recovered.
#[derive(Debug, Clone, Copy, PartialEq, Eq, Error)]
pub enum RecoverCause {
    /// A growth was refused.
    NoMemory,
    /// There are too many boxes, or a box is too large, or a spare too small.
    BadConfig,
    /// The segment with this lease failed in this call, and counts it.
    Device { lease: u32 },
    /// One more failure of a box that has to be read could not be counted.
    Spent,
    /// There is no whole frame.
    Empty,
    /// Bytes of this box that are neither a header, nor a frame, nor a tail.
    BadBytes { segment: u32, at: u64 },
    /// The numbers of segments, or of frames, have a gap.
    Gap,
    /// Headers differ in their page limit, or those of one version in their frame limit, or a
    /// segment of version 1 is numbered above one of version 2.
    Mixed,
    /// A block of this page does not link back to the one before it.
    BadLink { page: u32 },
    /// This page is not lawful.
    Unlawful { page: u32 },
}

// By hand, since a derived one writes in each variant, which is dear to prove.
impl Display for RecoverCause {
    fn fmt<W: fmt::Write>(&self, f: &mut Formatter<W>) -> fmt::Result {
        let text = match self {
            RecoverCause::NoMemory => "out of memory",
            RecoverCause::BadConfig => "boxes that no log takes",
            RecoverCause::Device { lease } => return write!(
                f,
                "the segment of lease {lease} failed"
            ),
            RecoverCause::Spent => "a counter is at its greatest value",
            RecoverCause::Empty => "no whole frame",
            RecoverCause::BadBytes { segment, at } => return write!(
                f,
                "segment {segment} cannot be read at {at}"
            ),
            RecoverCause::Gap => "a gap in the numbers",
            RecoverCause::Mixed => "headers differ",
            RecoverCause::BadLink { page } => return write!(f, "a wrong link of page {page}"),
            RecoverCause::Unlawful { page } => return write!(f, "page {page} is not lawful"),
        };
        f.write_str(text)
    }
}

impl From<AllocError> for RecoverCause {
    ghost from_gives = { λ _ fault. fault ≡ NoMemory };

    fn from(_error: AllocError) -> RecoverCause {
        RecoverCause::NoMemory
    }
}

impl<T: Drop> From<AllocFailed<T>> for RecoverCause {
    ghost from_gives = { λ _ fault. fault ≡ NoMemory };

    fn from(_error: AllocFailed<T>) -> RecoverCause {
        RecoverCause::NoMemory
    }
}
