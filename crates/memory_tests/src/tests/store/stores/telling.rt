//! Histories as texts.

use bw_codec::Record;
use bw_store::PackedEntry;
use test_kit::vectors::{behind, is_at_end};

fn behind_entry<'a>(text: Option<&'a [u8]>, entry: &PackedEntry) -> Option<&'a [u8]> {
    match &entry.entry().item {
        Record::Put(key, value) => {
            let rest = behind(behind(text, key.as_slice()), b"=");
            behind(behind(rest, value.as_slice()), b" ")
        }
        Record::Del(_) => None,
    }
}

/// Whether the history is so: each entry as its key, an equals sign, its value and a space.
pub(super) fn is_history(entries: &[PackedEntry], text: &[u8]) -> bool {
    let mut rest = Some(text);
    for entry in entries {
        rest = behind_entry(rest, entry);
    }
    is_at_end(rest)
}
