//! Pages in the blocks of a log: a line for each page that was touched, links checked on the way.
//!
//! All blocks of frames are read forwards (`links`). What comes out are the pages of a store if
//! they are numbered without a gap, each low is at its place, and each key is where a record of it
//! is directed: `specs/Lawful.antt` says which pages are lawful, and which one is at fault if they
//! are not. Nothing here grows by a number that was read, only by the blocks that there are.
#![tactic(auto)]

mod cause;
mod links;
mod pages;

pub use cause::RecoverCause;
pub use links::{DraftLine, Line, ReadFault, read_blocks_linked, take_line};
pub use pages::Pages;
