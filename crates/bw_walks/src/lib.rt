//! Steps of a walk over pages: what it finds on a page, and which page comes next.
//!
//! A walk forwards finds its next page by `Leaves::low_above`, and copies pairs by `add_pairs`.
//! Here are the steps of a walk back (`back`), and of one whose pairs share their bytes with their
//! page (`shared`), with the whole of it if no page is evicted. Nothing here knows the log or the
//! history, and no page is read: whoever walks hands in each page, from memory or as it was read
//! back. `specs/Back.antt` says what a walk back has come to.
#![tactic(auto)]

mod back;
mod shared;

pub use back::{Look, Reach, found_on, page_before};
pub use shared::{share_of, share_pair, share_pairs, share_stretch};
