//! The store itself.
//!
//! Its fields stand in a struct for each matter, and its invariants with the fields. No cut stands
//! inside a group of records: a stop could else leave a part of one. A page that is evicted is one
//! that the frame in the making neither makes nor splits: it could not be read. What was forgotten
//! of the history is durable: a flush would have to publish what nobody has any more.

ghost use Rattle.std.specs.Prelude.{ℕ, ◌≡◌, ◌≤◌, true, false, length};
ghost use Rattle.bw_page.specs.Shown.{is_evicted_page};
ghost use Rattle.bw_history.specs.History.{are_whole, cut};
ghost use Rattle.bw_making.specs.Overlay.{is_made};

use crate::origin::Origin;
use bw_buffer::Buffer;
use bw_care::{Looks, Tally};
use bw_codec::Place;
use bw_history::Intake;
use bw_log::Log;
use bw_page::Leaves;

/// What was sealed, and what of it is durable.
#[derive(Drop)]
pub(crate) struct Seals {
    /// The history's length at each seal.
    pub(crate) cuts: Vec<u64>,
    /// How many of the sealed frames were appended.
    pub(crate) durable: u64,
    /// How many cuts were durable when a segment was last given up.
    pub(crate) floor: u64,
}

/// The pages, and the records that no frame of the log has yet.
#[derive(Drop)]
pub(crate) struct Pages {
    pub(crate) leaves: Leaves,
    /// The last block of each page, from page 1 on.
    pub(crate) newest: Vec<Place>,
    /// The frame in the making.
    pub(crate) making: Buffer,
    // A page that is evicted is in the log, but for records of the frame in the making.
    ghost logged: { (p : ℕ) → is_evicted_page p leaves ≡ true → is_made p making.blocks ≡ false },
}

/// What is counted.
#[derive(Drop)]
pub(crate) struct Counts {
    pub(crate) tally: Tally,
    pub(crate) looks: Looks,
}

/// Pages that writers change and a log keeps, for one thread: nobody else reads them.
#[derive(Drop)]
pub struct Core {
    /// The lanes, and what was taken from them.
    pub(crate) intake: Intake,
    pub(crate) origin: Origin,
    pub(crate) seals: Seals,
    pub(crate) pages: Pages,
    pub(crate) log: Log,
    pub(crate) counts: Counts,
    // No cut stands inside a group.
    ghost whole: { are_whole seals.cuts.items intake.history.items ≡ true },
    // What was forgotten is durable.
    ghost forgotten: { intake.history.gone ≤ cut seals.cuts.items seals.durable },
    ghost began: { counts.tally.pages ≡ length origin.start.value.leaves },
}
