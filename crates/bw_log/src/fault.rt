//! Why a call on a log was refused.

ghost use Rattle.std.specs.Prelude.{◌≡◌};
ghost use Rattle.bw_log.specs.declared.fault.LogFault.TheVariants.{NoMemory};

use std::alloc::{AllocError, AllocFailed};
use std::fmt::{self, Display, Formatter};
use thiserror::Error;

/// Why a call on a log was refused. If nothing else is said, the log is as it was.
#[derive(Debug, Clone, Copy, PartialEq, Eq, Error)]
pub enum LogFault {
    /// E1: a growth was refused.
    NoMemory,
    /// E10: a limit is out of range, there are too many boxes, or a box is no empty spare with room
    /// for a header and a frame, and for 1 GiB at most.
    BadConfig,
    /// E5: a new segment is wanted, and too few spares stand.
    NoSegment,
    /// E6: the segment with this lease failed in this call, and counts it. After a failed append
    /// the log is `Failed`; a failed read changes nothing else.
    Device { lease: u32 },
    /// E7: an append failed before: after the counted frames a part of what it appended may stand,
    /// or all of it.
    Failed,
    /// E8: a needed number does not exist: a segment's, a frame's, or one more failure of a
    /// segment.
    Spent,
    /// E9: no page has this number.
    NoPage,
}

// By hand, since a derived one writes in each variant, which is dear to prove.
impl Display for LogFault {
    fn fmt<W: fmt::Write>(&self, f: &mut Formatter<W>) -> fmt::Result {
        let text = match self {
            LogFault::NoMemory => "out of memory",
            LogFault::BadConfig => "limits or boxes that no log takes",
            LogFault::NoSegment => "no segment",
            LogFault::Device { lease } => return write!(f, "the segment of lease {lease} failed"),
            LogFault::Failed => "an append failed before",
            LogFault::Spent => "a counter is at its greatest value",
            LogFault::NoPage => "no such page",
        };
        f.write_str(text)
    }
}

impl From<AllocError> for LogFault {
    ghost from_gives = { λ _ fault. fault ≡ NoMemory };

    fn from(_error: AllocError) -> LogFault {
        LogFault::NoMemory
    }
}

impl<T: Drop> From<AllocFailed<T>> for LogFault {
    ghost from_gives = { λ _ fault. fault ≡ NoMemory };

    fn from(_error: AllocFailed<T>) -> LogFault {
        LogFault::NoMemory
    }
}
