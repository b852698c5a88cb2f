//! Why a folder was not verified, copied, salvaged or restored.

use bw_care::RecoverCause;
use bw_file::FolderFault;
use bw_home::HomeFault;
use std::alloc::{AllocError, AllocFailed};
use std::fmt::{self, Display, Formatter};
use thiserror::Error;

/// Why a folder was not verified, copied, salvaged or restored.
#[derive(Debug, Clone, Copy, Error)]
pub enum RescueFault {
    /// A growth was refused.
    NoMemory,
    /// The folder that is read has a file of a lease above those that were allowed.
    NoLease,
    /// The folder that is read, or a file in it, was not opened or read, or is damaged.
    Source(FolderFault),
    /// The new folder is there already, or was not made.
    Target(FolderFault),
    /// The folder in which the new one is made was not made. Its name is that of the new one, with
    /// `.partial` at its end.
    Partial(FolderFault),
    /// What was read, or what was written, is no store.
    Recovery(RecoverCause),
    /// The new store was not opened, or a call on it was refused.
    Home(HomeFault),
    /// What the new folder holds is not what was read. It stands under the name with `.partial` at
    /// its end.
    Unlike,
    /// The log has the frames from the first to the last, and not the one that was asked for.
    NoFrame { first: u64, last: u64 },
    /// What the log was at the frame that was asked for went with a segment that a cleaning gave
    /// up: the second one is the oldest frame that can be restored.
    GivenUp { frame: u64, oldest: u64 },
}

// By hand, since a derived one writes in each variant, which is dear to prove.
impl Display for RescueFault {
    fn fmt<W: fmt::Write>(&self, f: &mut Formatter<W>) -> fmt::Result {
        match self {
            RescueFault::NoMemory => f.write_str("out of memory"),
            RescueFault::NoLease => f.write_str("no lease"),
            RescueFault::Source(fault) | RescueFault::Target(fault) | RescueFault::Partial(fault) =>
                write!(f, "{fault}"),
            RescueFault::Recovery(cause) => write!(f, "{cause}"),
            RescueFault::Home(fault) => write!(f, "{fault}"),
            RescueFault::Unlike => f.write_str("it does not hold what was read"),
            RescueFault::NoFrame { first, last } => write!(f, "the frames are {first} to {last}"),
            RescueFault::GivenUp { oldest, .. } => write!(f, "the oldest frame is {oldest}"),
        }
    }
}

impl RescueFault {
    /// A fault of the new folder.
    pub(crate) fn of_target(fault: FolderFault) -> RescueFault {
        match fault {
            FolderFault::NoMemory => RescueFault::NoMemory,
            other => RescueFault::Target(other),
        }
    }

    /// A fault of the folder in which it is made.
    pub(crate) fn of_partial(fault: FolderFault) -> RescueFault {
        match fault {
            FolderFault::NoMemory => RescueFault::NoMemory,
            other => RescueFault::Partial(other),
        }
    }
}

impl From<AllocError> for RescueFault {
    fn from(_error: AllocError) -> RescueFault {
        RescueFault::NoMemory
    }
}

impl<T: Drop> From<AllocFailed<T>> for RescueFault {
    fn from(_error: AllocFailed<T>) -> RescueFault {
        RescueFault::NoMemory
    }
}

impl From<FolderFault> for RescueFault {
    fn from(fault: FolderFault) -> RescueFault {
        match fault {
            FolderFault::NoMemory => RescueFault::NoMemory,
            other => RescueFault::Source(other),
        }
    }
}

impl From<RecoverCause> for RescueFault {
    fn from(cause: RecoverCause) -> RescueFault {
        match cause {
            RecoverCause::NoMemory => RescueFault::NoMemory,
            other => RescueFault::Recovery(other),
        }
    }
}

impl From<HomeFault> for RescueFault {
    fn from(fault: HomeFault) -> RescueFault {
        match fault {
            HomeFault::NoMemory => RescueFault::NoMemory,
            HomeFault::Folder(fault) => RescueFault::of_partial(fault),
            other => RescueFault::Home(other),
        }
    }
}
