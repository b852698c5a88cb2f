//! One page, read forwards over blocks.

use bw_codec::{Block, Leaf, Ops, Packed, Place};
use bw_page::{empty_page, read_blocks};
use std::alloc::Global;
use test_kit::tables::{Row, WrongRow, rows_go};
use test_kit::vectors::{all_packed, del, is_shown, leaf_of, packed, packed_put};

const BACK: Place = Place { frame: 1, index: 0 };

/// Page 1 empty, changed by these records, and split, which makes page 2 from this key on.
fn blocks(alloc: Global, records: Vec<Packed>, from: &[u8], value: &[u8]) -> Option<Vec<Block>> {
    match leaf_of(alloc, 2, from, from, value) {
        Ok(upper) => {
            let delta = Block::Delta {
                page: 1,
                back: BACK,
                ops: Ops::of(records),
            };
            let split = Block::Split {
                page: 1,
                back: BACK,
                upper,
            };
            Vec::from_array(alloc, [Block::Base(empty_page(alloc)), delta, split]).ok()
        }
        Err(_) => None,
    }
}

/// A page that blocks make.
enum Read {
    /// The records put `a` and `b`, and the page is split at `b`: a page, and what it shows; no
    /// text if they never set it.
    Page(u32, &'static str),
    /// The records are so many puts, and a delete of the least: where the page is split, and how
    /// many keys it keeps.
    Grown(u8, u8, usize),
}

use Read::{Grown, Page};

/// Whether a record comes in after the others.
fn is_added(records: &mut Vec<Packed>, record: Option<Packed>) -> bool {
    match record {
        Some(record) => records.push(record).is_ok(),
        None => false,
    }
}

/// A delete of the least key of one byte.
fn least(alloc: Global) -> Option<Packed> {
    match del(&[1]) {
        Some(record) => packed(alloc, &record),
        None => None,
    }
}

/// Puts of so many keys of one byte, from the greatest down, and then a delete of the least.
fn many(alloc: Global, count: u8) -> Option<Vec<Packed>> {
    let mut records = Vec::new(alloc);
    for at in 0..count {
        if !is_added(&mut records, packed_put(alloc, &[count - at], b"")) {
            return None;
        }
    }
    if is_added(&mut records, least(alloc)) {
        Some(records)
    } else {
        None
    }
}

const TWO: &[(&str, Option<&str>)] = &[("a", Some("1")), ("b", Some("2"))];

fn over_two(alloc: Global) -> Option<Vec<Block>> {
    match all_packed(alloc, TWO) {
        Some(records) => blocks(alloc, records, b"b", b"2"),
        None => None,
    }
}

fn over_many(alloc: Global, count: u8, at: u8) -> Option<Vec<Block>> {
    match many(alloc, count) {
        Some(records) => blocks(alloc, records, &[at], b""),
        None => None,
    }
}

/// A page that is read over blocks.
fn page_over(page: u32, blocks: Option<Vec<Block>>) -> Option<Option<Leaf>> {
    match blocks {
        Some(blocks) => read_blocks(page, None, blocks).ok(),
        None => None,
    }
}

fn shows_page(page: u32, blocks: Option<Vec<Block>>, text: &str) -> bool {
    match page_over(page, blocks) {
        Some(leaf) => is_shown(leaf.as_ref(), text),
        None => false,
    }
}

fn keeps(blocks: Option<Vec<Block>>, left: usize) -> bool {
    match page_over(1, blocks) {
        Some(Some(leaf)) => leaf.pairs.as_slice().len() == left,
        _ => false,
    }
}

impl Row for Read {
    fn goes(&self, alloc: Global) -> Option<bool> {
        match self {
            Page(page, text) => Some(shows_page(*page, over_two(alloc), text)),
            Grown(count, at, left) => Some(keeps(over_many(alloc, *count, *at), *left)),
        }
    }
}

const PAGES: &[Read] = &[
    Page(1, ": a=1"),
    Page(2, "b: b=2"),
    Page(3, ""),
    // Twice the pairs of any page at rest, one more, and many more.
    Grown(64, 4, 2),
    Grown(65, 4, 2),
    Grown(250, 4, 2),
    Grown(250, 100, 98),
    Grown(250, 251, 249),
];

#[test]
fn blocks_are_read_page_by_page(rt: HostRuntime) -> Result<(), WrongRow> {
    rows_go(rt.alloc(), PAGES)
}
