//! The frame in the making, and what it does to pages: how it begins, the blocks of a record or of
//! a group, where the last block of each page stands, and what it has of a page.
//!
//! Nothing here knows the log, the rings or the history: what is planned is given by leaves, places
//! and a buffer. `specs/Begun.antt` has the frame that begins, `specs/Adding.antt` what a record
//! adds, `specs/Drafting.antt` what a group does record by record, and `specs/Overlay.antt` what
//! the frame adds to a page that is read from the log.
#![tactic(auto)]

mod begin;
mod blocks;
mod draft;
mod filing;
mod overlay;
mod plan;
mod sharing;

pub use begin::{begin_at, begin_next, first_frame, next_buffer};
pub use blocks::{Blocks, blocks_of, place_for};
pub use draft::{Draft, Row};
pub use filing::{file, file_all, file_delta};
pub use overlay::{makes, overlay_of};
pub use plan::{Plan, planned_for};
pub use sharing::{apply_entries, apply_entry, apply_found, copy_of, guessed, steps_in};
