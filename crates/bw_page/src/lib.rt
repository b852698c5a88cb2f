//! All pages with their split rule, and the index of their low keys.
//!
//! A page has a number, a low key and its pairs in the order of their keys. A record changes the
//! page with the greatest low key not above its own; a page that then has too many pairs is split
//! in two, and the upper part becomes a new page after all others. `specs/Leaves.antt` has the
//! rule, and the law that all pairs of all pages are one plain map. What is said of one page by
//! itself, its chain among it, stands in `bw_leaf`; its names are handed on here.
//! `specs/Standing.antt` has what blocks of the log say of all pages.
//!
//! A search finds the right page, since lows ascend and the first is the empty key: the pages'
//! ranges part all keys, each pair stands on the page that its key is directed at, and a split
//! gives the upper part its own first key as low. So a guess at a page costs nothing but a look: a
//! key among the page's pairs is at home there.
//!
//! A batch is applied whole or not at all. What takes each record back is kept until the last is
//! applied, and taking back is never refused.
//!
//! A page may be evicted from memory. What it holds is then known only to the proof, by a snapshot,
//! which has no bytes; whoever brings it back has to have read exactly that. Which page may leave
//! next is said by a clock (`clock.rt`), of which no clause speaks.
#![tactic(auto)]

mod clock;
mod fault;
mod gap;
mod index;
mod journal;
mod laws;
mod leaves;
mod seats;
mod splits;
mod start;

pub use bw_leaf::{
    Chain, Draft, End, Halves, Link, Word, add_pairs, change, change_all, count_after, empty_page,
    keep_below, pair_from, read_block, read_blocks, split_in_two, value_in, word_in_blocks,
    word_in_records,
};
pub use fault::ApplyError;
pub use laws::{
    applies_page_by_page, chains_read_over_newer, here_together, homes_are_ranges, homes_stay,
    lows_tell, reads_over_newer, stands_as_one, twice_is_once,
};
pub use leaves::{Applied, HasRecord, Leaves, Step};
pub use start::Start;
