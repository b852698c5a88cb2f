//! Calls of `bw_record`, `bw_codec`, `bw_leaf`, `bw_page`, `bw_buffer` and `bw_versions`.

mod codec;
mod pages;
mod versions;

use bw_codec::Leaf;
use test_kit::refusals::{Try, tried};
use test_kit::vectors::shows;

/// How a change of a leaf went, which shows the one text after it, and the other if it was refused.
fn changed(leaf: &Leaf, went: bool, refused: bool, new: &[u8], old: &[u8]) -> Option<Try> {
    tried(went, refused, shows(leaf, if went { new } else { old }))
}
