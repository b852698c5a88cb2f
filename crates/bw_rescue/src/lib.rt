//! Damage is found, what is whole is saved, and a store is copied.
//!
//! Each call but `backup`, which copies an open store, reads a folder that it does not change, and
//! whose lock it takes beside other readers. `verify` says the first fault of each of its segments.
//! `copy` and `compact` write the store of that moment into a new folder, `restore` that of an
//! earlier frame, and `salvage` all that a damaged one still has. `compact` and `salvage` write
//! whole pages (`bw_whole`). A new folder is made under another name, and gets its own once it was
//! read again and stands on the disk (`Target`): a part of a copy is never taken for a store.
//!
//! For `salvage` a file is taken apart by the sums beside it (`Pieces`), each piece by itself, and
//! then searched for whole frames (`Held`). Those of all segments are read in the order of their
//! numbers (`pages_of`), and their blocks forwards, page by page (`Pages`):
//! a page comes as of the last frame up to which none of its blocks is missing, and what did not
//! come back is reported (`Loss`). `order` puts the pairs of such pages in the order of their keys.
#![tactic(auto)]

mod alike;
mod backing;
mod compacting;
mod compared;
mod copying;
mod cutting;
mod fault;
mod gathered;
mod held;
mod judged;
mod locating;
mod lost;
mod order;
mod pages;
mod pieces;
mod reading;
mod restoring;
mod salvaging;
mod target;
mod verifying;
mod walking;
mod whole;

pub use alike::are_same;
pub use backing::{backup, live_images};
pub use compacting::compact;
pub use compared::Tally;
pub use copying::{Copied, copy};
pub use cutting::cut_at;
pub use fault::RescueFault;
pub use gathered::pages_of;
pub use held::{Held, Spot, frame_at};
pub use locating::{Located, locate};
pub use lost::Loss;
pub use pages::Pages;
pub use pieces::Piece;
pub use restoring::restore;
pub use salvaging::{Salvaged, salvage};
pub use verifying::{Hurt, Verdict, Verified, verify};
