//! Segments in order, the place of each page, frames appended whole, and pages read back.
//!
//! A log owns boxes with segments: the live ones in the order of their numbers, and spares. The
//! newest live segment is the current one. A frame is appended to it whole; if it has no room, the
//! first spare becomes the current segment by a header in an append of its own. A table has the
//! last block that touches each page and the last one that sets it, and links lead from block to
//! block back to the one that set the page. So no append and no question walks over frames. A read
//! of a page does, and giving up a segment passes over the lines of the table. No type can know
//! what a box holds, so what a log keeps (`IsSound`) is asked and given back by each call that
//! changes it.
//!
//! A torn frame is harmless. An append that fails, and a crash in the middle of one, leave some
//! beginning of a frame after the last whole one. Frames are read one after the other, and no
//! beginning of a lawful frame is a whole frame or begins another (`bw_codec::laws`). So it is read
//! as a tail, and nothing else changes.
//!
//! Nobody appends after a torn frame: nothing would be found again there. A log whose append failed
//! has failed for good, and a log that was adopted from a segment with a tail has closed that
//! segment: its next frame begins a new one.
#![tactic(auto)]

mod adopt;
mod append;
mod blocks;
mod current;
mod fault;
mod heard;
mod laws;
mod lent;
mod log;
mod oldest;
mod pages;
mod place_changes;
mod places;
mod starts;
mod values;

pub use fault::LogFault;
pub use laws::locality;
pub use log::Log;
pub use places::{FrameAt, PageAt, Tables};
pub use starts::Starts;
