//! What a salvage did not bring back.

use bw_file::FolderFault;
use std::fmt::{self, Display, Formatter};

/// What was not brought back, or was so unchecked.
#[derive(Debug, Clone, Copy)]
pub enum Loss {
    /// The file of a lease was not read.
    File { lease: u32, fault: FolderFault },
    /// The digests beside the file of a lease were not read: its pieces were taken without them.
    Sums { lease: u32, fault: FolderFault },
    /// A piece of a file, from one byte to another, has not its digest, and is no frame but has
    /// some: these were taken as they are.
    Unchecked { lease: u32, from: u64, to: u64 },
    /// The file of a lease ends at a byte, and its digests say that it went on to another.
    Missing { lease: u32, from: u64, to: u64 },
    /// Between whole frames these are not.
    Frames { first: u64, last: u64 },
    /// A page was brought back as it was before this frame, and not what became of it since.
    Page { page: u32, frame: u64 },
    /// Nothing of these pages was brought back.
    Pages { first: u32, last: u32 },
}

impl Display for Loss {
    fn fmt<W: fmt::Write>(&self, f: &mut Formatter<W>) -> fmt::Result {
        match self {
            Loss::File { lease, fault } => write!(f, "segment-{lease:04}.bw not read: {fault}"),
            Loss::Sums { lease, fault } => write!(f, "segment-{lease:04}.sum not read: {fault}"),
            Loss::Unchecked { lease, from, to } => write!(
                f,
                "segment-{lease:04}.bw unchecked from {from} to {to}"
            ),
            Loss::Missing { lease, from, to } => {
                write!(f, "segment-{lease:04}.bw missing from {from} to {to}")
            }
            Loss::Frames { first, last } if first == last => write!(f, "frame {first} lost"),
            Loss::Frames { first, last } => write!(f, "frames {first} to {last} lost"),
            Loss::Page { page, frame } => write!(f, "page {page} lost from frame {frame}"),
            Loss::Pages { first, last } if first == last => write!(f, "page {first} lost"),
            Loss::Pages { first, last } => write!(f, "pages {first} to {last} lost"),
        }
    }
}
