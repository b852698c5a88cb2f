//! The store itself.

ghost use Rattle.std.specs.Prelude.{◌≤◌, length};
ghost use Rattle.bw_versions.specs.Batches.{entries_of};
ghost use Rattle.bw_core.specs.Views.{forgotten_of};

use crate::publish::Publications;
use bw_core::Core;
use bw_versions::Versions;

/// Pages that writers change, a log keeps and readers see. It is ended only by `shut`, which tells
/// its readers.
pub struct Store {
    pub(crate) core: Core,
    /// What readers see: the leaves at `open` or `reopen`, and the durable entries since.
    pub(crate) versions: Versions,
    pub(crate) publications: Publications,
    // What was forgotten is in the readers' book.
    ghost forgotten: { forgotten_of core ≤ length (entries_of versions.entered) },
}
