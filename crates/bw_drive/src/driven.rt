//! What a run of writers answers.

use bw_ring::Feed;
use bw_store::StoreFault;
use std::fmt::{self, Debug, Formatter};
use thiserror::Error;

/// All writers have ended, and what was accepted is settled.
#[derive(Drop)]
pub struct Driven {
    /// Those that were handed in, in order.
    pub feeds: Vec<Feed>,
    /// How many records of each script were accepted: those of its first groups. A writer that used
    /// up its tries for one group put none after it.
    pub accepted: Vec<u64>,
    /// The length of the history.
    pub entries: u64,
}

/// Why a run of writers ended early, with the feeds.
#[derive(Drop, Error)]
#[error("{cause}")]
pub struct DriveFault {
    /// Those that were handed in, in order, each with some first groups of its script.
    pub feeds: Vec<Feed>,
    /// The first refusal; `NoMemory` also if a thread could not be made.
    pub cause: StoreFault,
}

impl Debug for DriveFault {
    fn fmt<W: fmt::Write>(&self, f: &mut Formatter<W>) -> fmt::Result {
        write!(f, "DriveFault({:?})", self.cause)
    }
}
