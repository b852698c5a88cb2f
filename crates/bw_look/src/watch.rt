//! Who hears, and of what.

use crate::amount::Unit;
use crate::event::Event;
use std::fmt::{self, Display, Formatter};

/// What is done. Its `Display` is the word that is shown.
#[derive(Debug, Clone, Copy, PartialEq, Eq)]
pub enum Work {
    /// The files of a folder are read.
    Reading,
    /// Recovery goes over what was read; nothing is said of it before its end.
    Recovering,
    /// A store is opened, likewise.
    Opening,
    /// A folder is upgraded, likewise.
    Upgrading,
    /// An input goes into a store.
    Importing,
    /// Pairs go into a new store.
    Loading,
    /// Segments are written.
    Writing,
    /// Pages are listed.
    Listing,
}

impl Work {
    /// Of what there is so much.
    pub fn unit(self) -> Unit {
        match self {
            Work::Loading => Unit::Pairs,
            Work::Listing => Unit::Pages,
            _ => Unit::Bytes,
        }
    }
}

impl Display for Work {
    fn fmt<W: fmt::Write>(&self, f: &mut Formatter<W>) -> fmt::Result {
        f.write_str(match self {
            Work::Reading => "reading",
            Work::Recovering => "recovering",
            Work::Opening => "opening",
            Work::Upgrading => "upgrading",
            Work::Importing => "importing",
            Work::Loading => "loading",
            Work::Writing => "writing",
            Work::Listing => "listing",
        })
    }
}

/// Who hears how far work is, and what happens to a store meanwhile.
pub trait Watch: Drop {
    /// Whether that is of use: otherwise it is spared what it costs to know how much there is.
    fn is_seen(&self) -> bool;

    /// So much of so much is done; 0 of all if that is not known.
    fn see(&mut self, work: Work, done: u64, all: u64);

    /// A store added a segment by itself, and has so many now.
    fn added(&mut self, segments: u32);

    /// A store uses so many segments, which is near the most that it may have.
    fn filling(&mut self, segments: u32, most: u32);

    /// Something happened to a store that is served.
    fn happened(&mut self, event: &Event<'_>);

    /// Whether the numbers of a store are to be written now, which are not due again before some
    /// time has passed.
    fn take_due(&mut self) -> bool;

    /// This frame of a log is durable now, and is the last one; 0 if there is none.
    fn durable(&mut self, frame: u64);

    /// The log is closed, and this frame is its last one.
    fn closing(&mut self, frame: u64);

    /// Something else is shown from here on, or nothing.
    fn rest(&mut self);
}

/// Nobody hears.
#[derive(Debug, Clone, Copy)]
pub struct Unseen;

impl Watch for Unseen {
    fn is_seen(&self) -> bool {
        false
    }

    fn see(&mut self, _work: Work, _done: u64, _all: u64) {}

    fn added(&mut self, _segments: u32) {}

    fn filling(&mut self, _segments: u32, _most: u32) {}

    fn happened(&mut self, _event: &Event<'_>) {}

    fn take_due(&mut self) -> bool {
        false
    }

    fn durable(&mut self, _frame: u64) {}

    fn closing(&mut self, _frame: u64) {}

    fn rest(&mut self) {}
}
