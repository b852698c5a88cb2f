//! One page: what a record does to it, its chain in memory, and what blocks of the log say of it.
//!
//! A page has a number, a low key and its pairs in the order of their keys. A record sets or
//! removes one pair (`specs/Changed.antt`). A chain holds a page as its newest records over a whole
//! page, or over the log (`specs/Links.antt`). Blocks say of a page what it is: read forwards they
//! give the page (`specs/Forwards.antt`), and read from the newest back they give the value of one
//! key (`specs/Words.antt`).
//!
//! A search compares eight bytes of keys as numbers, after those that a page's keys share, and
//! whole keys only if these do not set them apart. `find_key` gives the place; what changes a page
//! there takes the place too, so that a record is searched for once.
#![tactic(auto)]

mod chain;
mod changes;
mod draft;
mod hollow;
mod hollow_page;
mod replay;
mod room;
mod split;
mod tree;
mod words;

pub use chain::{Chain, End, Link};
pub use changes::{
    add_pairs, change, change_found, change_packed, count_after, count_found, count_packed,
    empty_page, find_key, pair_from, removes, take_back, value_in,
};
pub use draft::Draft;
pub use hollow_page::{HollowDraft, HollowPage};
pub use replay::{change_all, keep_below, read_block, read_blocks};
pub use room::fitted_copy;
pub use split::{Halves, half_of, new_pair, split_in_two};
pub use words::{Word, word_in_blocks, word_in_records};
