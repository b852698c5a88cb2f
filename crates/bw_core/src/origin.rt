//! Where a store begins.

ghost use Rattle.std.specs.Prelude.{◌≡◌};
ghost use Rattle.bw_care.specs.Views.{seen, IsSound};
ghost use Rattle.bw_core.specs.Reopened.{edge_of as newest_edge};

use bw_log::Log;
use bw_page::Leaves;
use std::snapshot::Snapshot;

/// The newest segment at `reopen`, and its length in bytes then; nothing but zeros after `open`.
///
/// Bytes before it are no part of an append of this store, so no stop takes them.
#[derive(Debug, Clone, Copy, PartialEq, Eq)]
pub struct Edge {
    pub segment: u64,
    pub length: u64,
}

/// Where a store begins.
#[derive(Drop)]
pub(crate) struct Origin {
    /// The leaves at `open` or `reopen`, which only the proof knows.
    pub(crate) start: Snapshot<Leaves>,
    /// The number of the frame before the first of this store.
    pub(crate) before: u64,
    /// Where this store's bytes begin.
    pub(crate) edge: Edge,
}

// The newest segment, and its length.
pub(crate) fn edge_of(log: &Log) -> Edge
    requires { IsSound log.now holding }
    ensures { result ≡ newest_edge (seen log.now holding) }
{
    match log.live_segment(log.live().saturating_sub(1)) {
        Some((segment, _, length)) => Edge { segment, length },
        None => Edge {
            segment: 0,
            length: 0,
        },
    }
}
