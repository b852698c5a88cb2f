//! What a log needs to live long. The cleaner gives up its oldest segment, and no page changes.
//! Recovery goes by one scan from any bytes to the leaves, or to the first fault.
//!
//! The oldest segment is the one that goes, and before it goes each page whose last setting block
//! stands there is written again, whole. A page is read from its last setting block on, so nothing
//! that is read stands in that segment any more. Of a younger one that would not do: a page that
//! was set before it may have been changed in it. And segments have consecutive numbers, by which
//! recovery sees that none of them is missing. So the file of the segment that was given up is
//! emptied before the next one is: a gap would be a fault.
//!
//! A crash between the two is no danger: the segment is then there once more, with frames that
//! later frames say again, and it is given up again.
//!
//! Recovery trusts no byte. It reads boxes, headers, frames, their order, their links and then all
//! blocks, each step for all segments before the next one, and the first fault is the answer:
//! `specs/Recovery.antt` is that order, and `docs/FORMAT.md` has it in words. What it reserves
//! hangs on the bytes that there are, and on no number that it read.
#![tactic(auto)]

mod begun;
mod boxes;
mod cleaner;
mod copies;
mod fault;
mod finding;
mod forward;
pub mod laws;
mod lengths;
mod lent;
mod moves;
mod newest;
mod order;
mod recovered;
mod recovery;
mod rewriter;
mod scan;
mod steps;
mod tally;
mod upgrader;
mod warm;

pub use begun::{Begun, begun_in};
pub use bw_lines::RecoverCause;
pub use cleaner::{Cleaned, clean};
pub use fault::CleanFault;
pub use lengths::{bytes_upto, is_won, length_of, live_bytes};
pub use newest::{blank_places, renew};
pub use recovered::Recovered;
pub use recovery::{RecoverFault, recover};
pub use rewriter::rewrite;
pub use tally::{Counters, Looks, Tally};
pub use upgrader::{Upgraded, old_segments, upgrade};
pub use warm::WarmFault;
