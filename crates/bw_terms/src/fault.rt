//! Why a call on a store was refused.

ghost use Rattle.std.specs.Prelude.{◌≡◌};
ghost use Rattle.bw_terms.specs.declared.fault.StoreFault.TheVariants.{NoMemory};
ghost use Rattle.bw_terms.specs.Told.{fault_of_clean, fault_of, fault_of_apply};

use bw_care::CleanFault;
use bw_device::Segment;
use bw_log::LogFault;
use bw_page::ApplyError;
use std::alloc::AllocError;
use std::fmt::{self, Debug, Display, Formatter};
use thiserror::Error;

/// Why a call on a store was refused.
#[derive(Debug, Clone, Copy, PartialEq, Eq, Error)]
pub enum StoreFault {
    /// E1: a growth was refused.
    NoMemory,
    /// E10: a number is out of its range, or a box is no spare.
    BadConfig,
    /// E5: a segment has to be begun, and too few spares stand.
    NoSegment,
    /// E6: the segment of this lease failed in this call.
    Device { lease: u32 },
    /// E7: an append of this store's log failed before.
    Failed,
    /// E8: a frame, a segment, a page or a failure has no further number.
    Spent,
    /// E9: the number is 0 or above the number of pages.
    NoPage,
    /// E11: fewer than two segments are live; of an upgrade, none is of format 1.
    NothingOld,
}

// By hand, since a derived one writes in each variant, which is dear to prove.
impl Display for StoreFault {
    fn fmt<W: fmt::Write>(&self, f: &mut Formatter<W>) -> fmt::Result {
        let text = match self {
            StoreFault::NoMemory => "out of memory",
            StoreFault::BadConfig => "limits or boxes that no store takes",
            StoreFault::NoSegment => "no segment",
            StoreFault::Device { lease } => return write!(f, "the segment of lease {lease} failed"),
            StoreFault::Failed => "an append failed before",
            StoreFault::Spent => "a counter is at its greatest value",
            StoreFault::NoPage => "no such page",
            StoreFault::NothingOld => "fewer than two live segments",
        };
        f.write_str(text)
    }
}

/// A turn was refused after it took so many records.
#[derive(Debug, Clone, Copy, PartialEq, Eq, Error)]
#[error("{cause}, after {taken} records were taken")]
pub struct TurnFault {
    pub taken: u64,
    pub cause: StoreFault,
}

/// Why no store was opened, with the boxes that were handed in.
#[derive(Drop, Error)]
#[error("{cause}")]
pub struct OpenFault {
    pub segments: Vec<Box<dyn Segment>>,
    pub cause: StoreFault,
}

// Boxes of other crates' kinds need not be shown.
impl Debug for OpenFault {
    fn fmt<W: fmt::Write>(&self, f: &mut Formatter<W>) -> fmt::Result {
        write!(f, "OpenFault({:?})", self.cause)
    }
}

impl From<TurnFault> for StoreFault {
    ghost from_gives = { λ e fault. fault ≡ e.cause };

    fn from(error: TurnFault) -> StoreFault {
        error.cause
    }
}

impl From<AllocError> for StoreFault {
    ghost from_gives = { λ _ fault. fault ≡ NoMemory };

    fn from(_error: AllocError) -> StoreFault {
        StoreFault::NoMemory
    }
}

impl From<ApplyError> for StoreFault {
    ghost from_gives = { λ e fault. fault ≡ fault_of_apply e };

    fn from(error: ApplyError) -> StoreFault {
        match error {
            ApplyError::NoMemory => StoreFault::NoMemory,
            ApplyError::Spent => StoreFault::Spent,
        }
    }
}

impl From<LogFault> for StoreFault {
    ghost from_gives = { λ e fault. fault ≡ fault_of e };

    fn from(error: LogFault) -> StoreFault {
        match error {
            LogFault::NoMemory => StoreFault::NoMemory,
            LogFault::BadConfig => StoreFault::BadConfig,
            LogFault::NoSegment => StoreFault::NoSegment,
            LogFault::Device { lease } => StoreFault::Device { lease },
            LogFault::Failed => StoreFault::Failed,
            LogFault::Spent => StoreFault::Spent,
            LogFault::NoPage => StoreFault::NoPage,
        }
    }
}

impl From<CleanFault> for StoreFault {
    ghost from_gives = { λ e fault. fault ≡ fault_of_clean e };

    fn from(error: CleanFault) -> StoreFault {
        match error {
            CleanFault::NothingOld => StoreFault::NothingOld,
            CleanFault::Log(fault) => StoreFault::from(fault),
        }
    }
}
