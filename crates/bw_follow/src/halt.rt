//! What ends a round before its end.

use crate::fault::FollowFault;
use bw_beside::Miss;
use std::alloc::{AllocError, AllocFailed};

/// What ends a round before its end.
#[derive(Debug, Clone, Copy)]
pub(crate) enum Halt {
    /// What was read of the followed folder is not of one moment, or could not be read. It may be
    /// the next time.
    Moved,
    Fault(FollowFault),
}

impl From<Miss> for Halt {
    fn from(miss: Miss) -> Halt {
        match miss {
            Miss::NoMemory => Halt::Fault(FollowFault::NoMemory),
            Miss::Moved => Halt::Moved,
        }
    }
}

impl From<FollowFault> for Halt {
    fn from(fault: FollowFault) -> Halt {
        Halt::Fault(fault)
    }
}

impl From<AllocError> for Halt {
    fn from(_error: AllocError) -> Halt {
        Halt::Fault(FollowFault::NoMemory)
    }
}

impl<T: Drop> From<AllocFailed<T>> for Halt {
    fn from(_error: AllocFailed<T>) -> Halt {
        Halt::Fault(FollowFault::NoMemory)
    }
}
