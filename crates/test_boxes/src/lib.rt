//! Segments in memory for tests, of worked bytes and with a fuse, and what is read and recovered
//! from boxes.
#![tactic(auto)]

mod logs;
mod pieces;
mod supplies;

pub use logs::{are_bytes, are_shown, is_added, is_page, is_shown};
pub use pieces::{Kept, Piece, bytes_of, is_spelled};
pub use supplies::{Fuse, LEAST, NEVER, found_in, fused, segments_of};
