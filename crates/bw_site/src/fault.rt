//! Why a store was not opened, or a segment not made.

use bw_care::RecoverCause;
use bw_device::{NotMade, NotTaken};
use bw_file::FolderFault;
use bw_terms::{StoreFault, TurnFault};
use std::alloc::{AllocError, AllocFailed};
use std::fmt::{self, Display, Formatter};
use thiserror::Error;

/// Why a store was not opened, or has no new spare, by the step that was refused.
#[derive(Debug, Clone, Copy, Error)]
pub enum HomeFault {
    /// A growth was refused.
    NoMemory,
    /// The folder was not listed or opened, or a file in it not opened, made or emptied.
    Folder(FolderFault),
    /// A segment in memory, or the desk of the leases, has numbers outside their limits.
    Made(NotMade),
    /// There are fewer leases than segments.
    Lease(NotTaken),
    /// What the folder holds is no store. Nothing was written there.
    Recovery(RecoverCause),
    /// No store is opened with these options, or a call on it was refused.
    Store(StoreFault),
}

// By hand, since a derived one writes in each variant, which is dear to prove.
impl Display for HomeFault {
    fn fmt<W: fmt::Write>(&self, f: &mut Formatter<W>) -> fmt::Result {
        match self {
            HomeFault::NoMemory => f.write_str("out of memory"),
            HomeFault::Folder(fault) => write!(f, "{fault}"),
            HomeFault::Made(fault) => write!(f, "{fault}"),
            HomeFault::Lease(fault) => write!(f, "{fault}"),
            HomeFault::Recovery(cause) => write!(f, "{cause}"),
            HomeFault::Store(fault) => write!(f, "{fault}"),
        }
    }
}

impl From<AllocError> for HomeFault {
    ghost use Rattle.bw_site.specs.Faults.{IsOfSite};

    ghost from_gives = { λ _ fault. IsOfSite fault };

    fn from(_error: AllocError) -> HomeFault {
        HomeFault::NoMemory
    }
}

impl<T: Drop> From<AllocFailed<T>> for HomeFault {
    ghost use Rattle.bw_site.specs.Faults.{IsOfSite};

    ghost from_gives = { λ _ fault. IsOfSite fault };

    fn from(_error: AllocFailed<T>) -> HomeFault {
        HomeFault::NoMemory
    }
}

impl From<FolderFault> for HomeFault {
    ghost use Rattle.bw_site.specs.Faults.{IsOfSite};

    ghost from_gives = { λ _ fault. IsOfSite fault };

    fn from(fault: FolderFault) -> HomeFault {
        match fault {
            FolderFault::NoMemory => HomeFault::NoMemory,
            other => HomeFault::Folder(other),
        }
    }
}

impl From<NotMade> for HomeFault {
    ghost use Rattle.bw_site.specs.Faults.{IsOfSite};

    ghost from_gives = { λ _ fault. IsOfSite fault };

    fn from(fault: NotMade) -> HomeFault {
        match fault {
            NotMade::NoMemory => HomeFault::NoMemory,
            other => HomeFault::Made(other),
        }
    }
}

impl From<NotTaken> for HomeFault {
    ghost use Rattle.bw_site.specs.Faults.{IsOfSite};

    ghost from_gives = { λ _ fault. IsOfSite fault };

    fn from(fault: NotTaken) -> HomeFault {
        match fault {
            NotTaken::NoMemory => HomeFault::NoMemory,
            other => HomeFault::Lease(other),
        }
    }
}

impl From<RecoverCause> for HomeFault {
    fn from(cause: RecoverCause) -> HomeFault {
        match cause {
            RecoverCause::NoMemory => HomeFault::NoMemory,
            other => HomeFault::Recovery(other),
        }
    }
}

impl From<StoreFault> for HomeFault {
    ghost use Rattle.std.specs.Prelude.{◌≡◌};
    ghost use Rattle.bw_site.specs.Faults.{fault_of_store};

    ghost from_gives = { λ cause fault. fault ≡ fault_of_store cause };

    fn from(fault: StoreFault) -> HomeFault {
        match fault {
            StoreFault::NoMemory => HomeFault::NoMemory,
            other => HomeFault::Store(other),
        }
    }
}

impl From<TurnFault> for HomeFault {
    fn from(fault: TurnFault) -> HomeFault {
        HomeFault::from(fault.cause)
    }
}
