//! A board by itself.

use super::{entries, is_value, start};
use bw_codec::Key;
use bw_versions::{Board, batches_are_joined};
use std::alloc::Global;
use test_kit::vectors::is_shown;

/// The entries of five keys in two parts, of which the second is published twice.
const PARTS: &[&[(&str, &str)]] = &[
    &[("a", "1"), ("b", "2")],
    &[("c", "3"), ("d", "4"), ("e", "5")],
    &[("c", "3"), ("d", "4"), ("e", "5")],
];

fn board(alloc: Global) -> Option<Board> {
    let start = start(alloc).ok()?;
    Board::new(alloc, &start).ok()
}

fn publish_all(alloc: Global, board: &mut Board) -> bool {
    for part in PARTS {
        let Some(entries) = entries(alloc, part) else {
            return false;
        };
        if board.publish(entries.as_slice()).is_err() {
            return false;
        }
    }
    true
}

const PAGES: &[(u32, &str)] = &[(1, ": a=1 b=2"), (2, "c: c=3 d=4 e=5"), (3, "")];

fn has_pages(board: &Board) -> bool {
    for (page, text) in PAGES {
        if !is_shown(board.leaves().page(*page), text) {
            return false;
        }
    }
    true
}

fn has(board: &Board, key: &str, value: &str) -> bool {
    match Key::new(key.as_bytes()) {
        Ok(key) => is_value(board.get(&key), value),
        Err(_) => false,
    }
}

fn is_cut(alloc: Global) -> Option<bool> {
    let mut board = board(alloc)?;
    let published = publish_all(alloc, &mut board);
    Some(published && has_pages(&board) && has(&board, "e", "5") && has(&board, "x", ""))
}

#[test]
fn a_board_is_cut_as_leaves_are(rt: HostRuntime) {
    batches_are_joined();
    assert!(rt; is_cut(rt.alloc()) == Some(true));
}
