//! What was taken, and from whom.

use bw_codec::Record;

/// A record and its writer, and whether the next entry is of the same group. An entry with `more`
/// is followed by one of the same writer.
#[derive(Debug, PartialEq, Eq, Drop)]
pub struct Entry {
    pub writer: u16,
    pub more: bool,
    pub item: Record,
}
