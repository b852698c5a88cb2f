//! Pages in the blocks of a log, of which only the keys and the lengths of the values are kept.
//!
//! Recovery owes no value: which pages are lawful, and how long their Bases are, hangs on keys and
//! on lengths. So blocks are read where their bytes lie (`links`), record by record, and nothing is
//! made of a value. What comes out are pages that are all evicted, or the page at fault (`pages`);
//! what is said of them is what `bw_lines` says.
#![tactic(auto)]

mod lent;
mod links;
mod pages;

pub use links::{Found, Touched, read_blocks_linked};
pub use pages::pages_of;
