//! The page store: turns take records from the writers' rings, flushes append what they did, and
//! `settle` does both for all that was accepted: the goal of the whole store stands on it.
//!
//! Writers live in threads of their own, each with a feed; one thread owns the store. What it took
//! stands in the history at once, in the pages, and in a frame in the making; a flush appends that
//! frame and cuts the history there. `clean` gives up the oldest segment, `upgrade` all segments of
//! format 1, and `reopen` goes on from what was recovered. `specs/Kept.antt` has what holds between
//! calls, and `specs/Following.antt` what no call takes back. `evict` drops a page from memory: it
//! is then read from the log, and `overlay_of` of `bw_making` has what no frame has of it yet.
//! `forget` drops from memory what is durable of the history; the clauses go on speaking of all of
//! it. No call waits, and nothing here is read from another thread.
#![tactic(auto)]

mod clean;
mod count;
mod counters;
mod enter;
mod evict;
mod flush;
mod forget;
mod get_shared;
mod groups;
mod laws;
mod memory;
mod needed;
mod open;
mod origin;
mod prev;
mod questions;
mod reads;
mod receipts;
mod reopen;
mod rewrite;
mod rewritten;
mod scan;
mod scan_shared;
mod segments;
mod settle;
mod store;
mod take;
mod take_all;
mod turn;
mod upgrade;

pub use bw_care::{Cleaned, Counters, Upgraded};
pub use bw_history::{Entry, PackedEntry};
pub use bw_terms::{Config, OpenFault, StoreFault, TurnFault};
pub use laws::{beginnings_go_on, each_line_of_the_goal, openings_go_on};
pub use open::are_taken;
pub use origin::Edge;
pub use reopen::ReopenFault;
pub use store::Core;
