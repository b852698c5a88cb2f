//! Segments in files: what a log appended is there again when its folder is opened again, as long
//! as the files keep what they were given.
//!
//! A `FileSegment` is a copy in memory that is written through: an append answers Ok once the
//! system says that the file has the piece, and reads are answered by the copy. A `Folder` has a
//! file for each lease, and nobody else has it open. Beside each file stand the sums of its pieces,
//! by which damage is found when the file is read again. What a disk keeps is outside every
//! contract: a clause speaks of the copy, and of a record of what was asked of the file and what
//! was answered. `docs/FORMAT.md` says what the files have to keep, and what then holds.
#![tactic(auto)]

mod asked;
mod files;
mod folder;
pub mod laws;
mod names;
mod paying;
mod reader;
mod refusals;
mod segment;
mod sums;
mod unsettled;
mod writing;

pub use asked::Done;
pub use files::SegmentFile;
pub use folder::{Folder, HeldBack};
pub use reader::{FolderReader, Sound};
pub use refusals::{FolderFault, NotOpened};
pub use segment::FileSegment;
