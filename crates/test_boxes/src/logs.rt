//! What logs have, and pages shown as text.

ghost use Rattle.bw_log.specs.Views.{IsSound as IsSoundBeside};
ghost use Rattle.test_boxes.specs.Views.{IsSound};

use crate::pieces::is_spelled;
use bw_codec::Leaf;
use bw_device::Segment;
use bw_log::Log;
use bw_page::Leaves;
use std::alloc::Global;
use test_kit::vectors::{behind, behind_leaf, is_at_end};

// What is left of a text after one page: its number, its low key, and each pair after a space.
fn behind_page<'a>(text: Option<&'a [u8]>, leaf: &Leaf) -> Option<&'a [u8]> {
    let number = [b'0' + (leaf.page % 10) as u8, b' '];
    behind(behind_leaf(behind(text, &number), leaf), b";")
}

/// Whether one page is shown so.
pub fn is_shown(leaf: &Leaf, text: &str) -> bool {
    is_at_end(behind_page(Some(text.as_bytes()), leaf))
}

/// Whether all pages are shown so.
pub fn are_shown(leaves: &Leaves, text: &str) -> bool {
    let mut rest = Some(text.as_bytes());
    for index in 0..leaves.count() {
        if let Some(leaf) = leaves.page(index + 1) {
            rest = behind_page(rest, leaf);
        }
    }
    is_at_end(rest)
}

/// Whether a page of a log is read, and shown so.
pub fn is_page(log: &mut Log, page: u32, text: &str) -> bool
    requires { IsSound log.old holding }
    ensures { IsSound log.new holding }
{
    match log.read_page(page) {
        Ok(leaf) => is_shown(&leaf, text),
        Err(_) => false,
    }
}

/// Whether a segment is live and has the bytes of this text in hex.
pub fn are_bytes(alloc: Global, log: &mut Log, segment: u64, hex: &'static str) -> bool
    requires { IsSound log.old holding }
    ensures { IsSound log.new holding }
{
    let mut bytes = Vec::new(alloc);
    match log.dump(segment, &mut bytes) {
        Ok(live) => live && is_spelled(alloc, &bytes, hex),
        Err(_) => false,
    }
}

/// Whether a log takes the last of these boxes.
pub fn is_added(log: &mut Log, boxes: &mut Vec<Box<dyn Segment>>) -> bool
    requires { IsSoundBeside holding log.old }
    ensures { IsSoundBeside holding log.new }
{
    match boxes.pop() {
        Some(one) => log.add_segment(one).is_ok(),
        None => false,
    }
}
