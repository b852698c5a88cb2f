//! Why a line, or a segment, has no answer.

use crate::refusal::Refusal;
use crate::script::Fault;
use crate::stop::Stop;
use bw_calls::TableFault;
use bw_care::RecoverCause;
use bw_core::{StoreFault, TurnFault};
use bw_device::{NotMade, NotTaken};
use bw_file::FolderFault;
use bw_follow::FollowFault;
use bw_home::HomeFault;
use bw_look::NotWritten;
use bw_rescue::RescueFault;
use std::alloc::{AllocError, AllocFailed};

/// Why a command has no answer.
#[derive(Clone, Copy)]
pub enum Miss {
    /// It was refused.
    Refused(Refusal),
    /// Its line is no command after all.
    Fault(Fault),
    /// Something else ends the run.
    Ended(Stop),
}

impl From<Refusal> for Miss {
    fn from(refusal: Refusal) -> Miss {
        Miss::Refused(refusal)
    }
}

impl From<Fault> for Miss {
    fn from(fault: Fault) -> Miss {
        Miss::Fault(fault)
    }
}

impl From<NotMade> for Miss {
    fn from(fault: NotMade) -> Miss {
        Miss::Refused(Refusal::from(fault))
    }
}

impl From<NotTaken> for Miss {
    fn from(fault: NotTaken) -> Miss {
        Miss::Refused(Refusal::from(fault))
    }
}

impl From<RecoverCause> for Miss {
    fn from(cause: RecoverCause) -> Miss {
        Miss::Refused(Refusal::from(cause))
    }
}

impl From<StoreFault> for Miss {
    fn from(fault: StoreFault) -> Miss {
        Miss::Refused(Refusal::from(fault))
    }
}

impl From<TurnFault> for Miss {
    fn from(fault: TurnFault) -> Miss {
        Miss::from(fault.cause)
    }
}

impl From<TableFault> for Miss {
    fn from(fault: TableFault) -> Miss {
        Miss::Refused(Refusal::from(fault))
    }
}

impl From<Stop> for Miss {
    fn from(stop: Stop) -> Miss {
        Miss::Ended(stop)
    }
}

impl From<NotWritten> for Miss {
    fn from(_error: NotWritten) -> Miss {
        Miss::Ended(Stop::Output)
    }
}

impl From<AllocError> for Miss {
    fn from(_error: AllocError) -> Miss {
        Miss::Refused(Refusal::NO_MEMORY)
    }
}

impl<T: Drop> From<AllocFailed<T>> for Miss {
    fn from(_error: AllocFailed<T>) -> Miss {
        Miss::Refused(Refusal::NO_MEMORY)
    }
}

impl From<FolderFault> for Miss {
    fn from(fault: FolderFault) -> Miss {
        match fault {
            FolderFault::NoMemory => Miss::Refused(Refusal::NO_MEMORY),
            FolderFault::BadConfig => Miss::Refused(Refusal::from(StoreFault::BadConfig)),
            other => Miss::Ended(Stop::Folder(other)),
        }
    }
}

impl From<HomeFault> for Miss {
    fn from(fault: HomeFault) -> Miss {
        match fault {
            HomeFault::NoMemory => Miss::Refused(Refusal::NO_MEMORY),
            HomeFault::Folder(fault) => Miss::from(fault),
            HomeFault::Made(fault) => Miss::from(fault),
            HomeFault::Lease(fault) => Miss::from(fault),
            HomeFault::Recovery(cause) => Miss::from(cause),
            HomeFault::Store(fault) => Miss::from(fault),
        }
    }
}

impl From<RescueFault> for Miss {
    fn from(fault: RescueFault) -> Miss {
        match fault {
            RescueFault::NoMemory => Miss::Refused(Refusal::NO_MEMORY),
            RescueFault::NoLease => Miss::Refused(Refusal::NoLease),
            RescueFault::Source(fault) => Miss::Ended(Stop::Source(fault)),
            RescueFault::Target(fault) => Miss::Ended(Stop::Folder(fault)),
            RescueFault::Partial(fault) => Miss::Ended(Stop::Partial(fault)),
            RescueFault::Unlike => Miss::Ended(Stop::Unlike),
            RescueFault::Recovery(cause) => Miss::from(cause),
            RescueFault::Home(fault) => Miss::from(fault),
            RescueFault::NoFrame { first, last } => Miss::Refused(Refusal::NoFrame { first, last }),
            RescueFault::GivenUp { frame, oldest } => Miss::Ended(Stop::GivenUp { frame, oldest }),
        }
    }
}

impl From<FollowFault> for Miss {
    fn from(fault: FollowFault) -> Miss {
        match fault {
            FollowFault::NoMemory => Miss::Refused(Refusal::NO_MEMORY),
            FollowFault::NoLease => Miss::Refused(Refusal::NoLease),
            FollowFault::Source(fault) => Miss::Ended(Stop::Source(fault)),
            FollowFault::Target(fault) => Miss::Ended(Stop::Folder(fault)),
            FollowFault::Partial(fault) => Miss::Ended(Stop::Partial(fault)),
            FollowFault::Old(fault) => Miss::Ended(Stop::Old(fault)),
            FollowFault::Recovery(cause) => Miss::from(cause),
            FollowFault::NoStore(cause) => Miss::Ended(Stop::NoFollower(cause)),
            FollowFault::Strayed { segment } => Miss::Ended(Stop::Strayed(segment)),
        }
    }
}
