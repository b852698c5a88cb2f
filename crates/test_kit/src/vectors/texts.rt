//! Bytes shown as hex, and pages as text.

use bw_codec::{Leaf, Pair};
use std::alloc::Global;
use std::fmt::Display;

fn digit(n: u8) -> u8 {
    match n {
        0..=9 => n + b'0',
        10..=15 => n + (b'a' - 10),
        _ => 0,
    }
}

/// Whether these are the bytes that the hex digits spell.
pub fn spells(bytes: &[u8], hex: &[u8]) -> bool {
    if hex.len() / 2 != bytes.len() {
        return false;
    }
    for (at, byte) in bytes.iter().enumerate() {
        let (high, low) = (hex.get(2 * at), hex.get(2 * at + 1));
        if high.copied() != Some(digit(*byte / 16)) || low.copied() != Some(digit(*byte % 16)) {
            return false;
        }
    }
    true
}

/// Whether these are the bytes that are told.
pub fn is(bytes: &[u8], told: &[u8]) -> bool {
    bytes == told
}

/// What is left of a text after a part of it; none if it does not begin so.
pub fn behind<'a>(text: Option<&'a [u8]>, part: &[u8]) -> Option<&'a [u8]> {
    text?.strip_prefix(part)
}

/// What is left of a text after pairs, each after a space; none if it does not begin so.
pub fn behind_pairs<'a>(text: Option<&'a [u8]>, pairs: &[Pair]) -> Option<&'a [u8]> {
    let mut rest = text;
    for pair in pairs {
        rest = behind(behind(rest, b" "), pair.key());
        rest = behind(behind(rest, b"="), pair.value());
    }
    rest
}

/// What is left of a text after a page: its low key, a colon, and its pairs; none if it does not
/// begin so.
pub fn behind_leaf<'a>(text: Option<&'a [u8]>, leaf: &Leaf) -> Option<&'a [u8]> {
    let rest = behind(behind(text, leaf.low.as_slice()), b":");
    behind_pairs(rest, leaf.pairs.as_slice())
}

/// Whether nothing is left of a text, which began as it was to.
pub fn is_at_end(text: Option<&[u8]>) -> bool {
    match text {
        Some(rest) => rest.is_empty(),
        None => false,
    }
}

/// Whether a text is this page, without its number.
pub fn shows(leaf: &Leaf, text: &[u8]) -> bool {
    is_at_end(behind_leaf(Some(text), leaf))
}

/// Whether pairs are shown so, each after a space.
pub fn are_shown(pairs: &[Pair], text: &str) -> bool {
    is_at_end(behind_pairs(Some(text.as_bytes()), pairs))
}

/// Whether a page is shown so; no text if there is none, or it is not in memory.
pub fn is_shown(leaf: Option<&Leaf>, text: &str) -> bool {
    match leaf {
        Some(leaf) => shows(leaf, text.as_bytes()),
        None => text.len() == 0,
    }
}

/// Whether this is told by this text.
pub fn is_text<D: Display>(alloc: Global, what: &D, text: &str) -> bool {
    match format!(in alloc; "{what}") {
        Ok(shown) => shown.as_str() == text,
        Err(_) => false,
    }
}
