//! The blocks of a frame in the making, before their bytes stand in order.
//!
//! Bytes go into an arena in the order in which they come, and each piece of them names its block.
//! So a record that joins a Delta moves nothing, and no piece ever changes.

use crate::mark::Mark;
use bw_codec::Place;

/// A block but for the bytes of its pieces.
#[derive(Debug, Clone, Copy)]
pub(crate) struct Row {
    /// What the block does.
    pub(crate) mark: Mark,
    /// Of a Delta: where the block before it stands.
    pub(crate) back: Place,
    /// Of a Delta: how many records it has.
    pub(crate) ops: u32,
    /// The length of its pieces, in bytes.
    pub(crate) len: u32,
}

/// The length of a Delta before its records, in bytes.
pub(crate) const DELTA_HEAD: u32 = 19;

/// The fewest bytes of a piece: a record that joins.
pub(crate) const MIN_PIECE: u32 = 3;

/// So many bytes of the arena, next to the piece before, belong to a block.
#[derive(Debug, Clone, Copy)]
pub(crate) struct Piece {
    /// The index of the block.
    pub(crate) block: u32,
    /// How many bytes.
    pub(crate) len: u32,
}
