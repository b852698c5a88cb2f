//! Why a folder does not follow another one.

use bw_care::RecoverCause;
use bw_file::FolderFault;
use std::alloc::{AllocError, AllocFailed};
use std::fmt::{self, Display, Formatter};
use thiserror::Error;

/// Why a folder does not follow another one. It is as it was, or as after some first part of a
/// round.
#[derive(Debug, Clone, Copy, Error)]
pub enum FollowFault {
    /// A growth was refused.
    NoMemory,
    /// The folder that is followed, or a file in it, was not opened or read, or is damaged;
    /// `InUse`, if somebody writes it and it could not be read beside.
    Source(FolderFault),
    /// The folder that follows, or a file in it, was not opened, read or written, or is damaged;
    /// `InUse`, if somebody else has it open.
    Target(FolderFault),
    /// The folder in which a whole copy is made was not made: its name has `.partial` at its end.
    Partial(FolderFault),
    /// The folder that was there before a whole copy could not be moved aside: that name has `.old`
    /// at its end.
    Old(FolderFault),
    /// What the followed folder holds is no store.
    Recovery(RecoverCause),
    /// What the folder that follows holds, or would hold without what was given up, is no store.
    NoStore(RecoverCause),
    /// The folder that follows holds this segment otherwise than the other one, or more of it.
    Strayed { segment: u64 },
    /// There is no lease for a further segment.
    NoLease,
}

// By hand, since a derived one writes in each variant, which is dear to prove.
impl Display for FollowFault {
    fn fmt<W: fmt::Write>(&self, f: &mut Formatter<W>) -> fmt::Result {
        match self {
            FollowFault::NoMemory => f.write_str("out of memory"),
            FollowFault::NoLease => f.write_str("no lease"),
            FollowFault::Source(fault)
            | FollowFault::Target(fault)
            | FollowFault::Partial(fault)
            | FollowFault::Old(fault) => write!(f, "{fault}"),
            FollowFault::Recovery(cause) | FollowFault::NoStore(cause) => write!(f, "{cause}"),
            FollowFault::Strayed { segment } => {
                write!(
                    f,
                    "segment {segment} is not that of the folder that is followed"
                )
            }
        }
    }
}

impl FollowFault {
    /// A fault of the folder that is followed.
    pub(crate) fn of_source(fault: FolderFault) -> FollowFault {
        match fault {
            FolderFault::NoMemory => FollowFault::NoMemory,
            other => FollowFault::Source(other),
        }
    }

    /// A fault of the folder that follows.
    pub(crate) fn of_target(fault: FolderFault) -> FollowFault {
        match fault {
            FolderFault::NoMemory => FollowFault::NoMemory,
            other => FollowFault::Target(other),
        }
    }

    /// A fault of the folder in which a whole copy is made.
    pub(crate) fn of_partial(fault: FolderFault) -> FollowFault {
        match fault {
            FolderFault::NoMemory => FollowFault::NoMemory,
            other => FollowFault::Partial(other),
        }
    }

    /// A fault of the folder that was there before.
    pub(crate) fn of_old(fault: FolderFault) -> FollowFault {
        match fault {
            FolderFault::NoMemory => FollowFault::NoMemory,
            other => FollowFault::Old(other),
        }
    }

    /// What recovery says of the folder that is followed.
    pub(crate) fn of_recovery(cause: RecoverCause) -> FollowFault {
        match cause {
            RecoverCause::NoMemory => FollowFault::NoMemory,
            other => FollowFault::Recovery(other),
        }
    }

    /// What recovery says of the folder that follows.
    pub(crate) fn of_store(cause: RecoverCause) -> FollowFault {
        match cause {
            RecoverCause::NoMemory => FollowFault::NoMemory,
            other => FollowFault::NoStore(other),
        }
    }
}

impl From<AllocError> for FollowFault {
    fn from(_error: AllocError) -> FollowFault {
        FollowFault::NoMemory
    }
}

impl<T: Drop> From<AllocFailed<T>> for FollowFault {
    fn from(_error: AllocFailed<T>) -> FollowFault {
        FollowFault::NoMemory
    }
}
