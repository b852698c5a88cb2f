//! How the store is tended while writers put.

/// What the caller's thread does while writers put.
#[derive(Debug, Clone, Copy, PartialEq, Eq)]
pub struct Plan {
    /// The most groups that a turn takes, at least 1.
    pub limit: u32,
    /// A flush follows each so many turns, at least 1.
    pub flush_every: u32,
    /// After a flush the oldest segment is given up if so many are live or more; 0 for never.
    pub clean_at: u32,
    /// Whether the history leaves memory after each flush, as far as readers have it.
    pub forgets: bool,
}
