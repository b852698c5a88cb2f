//! What is refused, by number and name.

use bw_calls::TableFault;
use bw_care::RecoverCause;
use bw_core::StoreFault;
use bw_device::{NotMade, NotTaken};
use bw_home::MapFault;
use std::error::Error;
use std::fmt::{self, Display, Formatter};

/// A refused call. Its `Display` is the line that the program prints.
#[derive(Debug, Clone, Copy)]
pub enum Refusal {
    /// A call on a store or on its log.
    Store(StoreFault),
    /// What the segments hold is no store; of bytes that cannot be read, the segment is its
    /// position in the list, from 0.
    Recovery(RecoverCause),
    /// A frame that was asked for is none of those that the log has.
    NoFrame { first: u64, last: u64 },
    /// All leases are out.
    NoLease,
    /// The change of a call on tables waits in the queue, for this reason. The tables have it.
    Waits(StoreFault),
    /// No table has the name.
    NoTable,
    /// A table has the name already.
    Exists,
    /// There are as many tables as there may be.
    TooMany,
    /// The pairs of the store are no tables.
    NotTables,
    /// A value is longer than any may be.
    TooLong,
    /// A batch stands that is not carried out yet.
    Unfinished,
}

impl Refusal {
    /// A growth was refused in that call.
    pub const NO_MEMORY: Refusal = Refusal::Store(StoreFault::NoMemory);

    /// Whether a growth was refused.
    pub fn is_no_memory(&self) -> bool {
        matches!(
            self,
            Refusal::Store(StoreFault::NoMemory)
                | Refusal::Recovery(RecoverCause::NoMemory)
                | Refusal::Waits(StoreFault::NoMemory)
        )
    }

    /// Why recovery refused what segments hold, if it did.
    pub fn cause(&self) -> Option<RecoverCause> {
        match self {
            Refusal::Recovery(cause) => Some(*cause),
            _ => None,
        }
    }

    /// Its number: 5 of `E5 NoSegment`.
    pub fn number(&self) -> u64 {
        let name = self.name().strip_prefix("E").unwrap_or("");
        match name.split_once(' ') {
            Some((digits, _)) => digits.parse().unwrap_or(0),
            None => 0,
        }
    }

    /// Its number and name.
    fn name(&self) -> &'static str {
        match self {
            Refusal::Store(fault) | Refusal::Waits(fault) => name_of(*fault),
            Refusal::Recovery(cause) => name_of_cause(*cause),
            Refusal::NoFrame { .. } => name_of_cause(RecoverCause::Empty),
            Refusal::NoLease => "E20 NoLease",
            Refusal::TooLong => "E19 Length",
            Refusal::NoTable => "E21 NoTable",
            Refusal::Exists => "E22 Exists",
            Refusal::TooMany => "E23 TooMany",
            Refusal::NotTables => "E24 NotTables",
            Refusal::Unfinished => "E25 Unfinished",
        }
    }
}

fn name_of(fault: StoreFault) -> &'static str {
    match fault {
        StoreFault::NoMemory => "E1 NoMemory",
        StoreFault::NoSegment => "E5 NoSegment",
        StoreFault::Device { .. } => "E6 Device",
        StoreFault::Failed => "E7 Failed",
        StoreFault::Spent => "E8 Spent",
        StoreFault::NoPage => "E9 NoPage",
        StoreFault::BadConfig => "E10 BadConfig",
        StoreFault::NothingOld => "E11 NothingOld",
    }
}

// What a recovery and a call on a store are both refused by has one number.
fn name_of_cause(cause: RecoverCause) -> &'static str {
    match cause {
        RecoverCause::NoMemory => name_of(StoreFault::NoMemory),
        RecoverCause::BadConfig => name_of(StoreFault::BadConfig),
        RecoverCause::Device { lease } => name_of(StoreFault::Device { lease }),
        RecoverCause::Spent => name_of(StoreFault::Spent),
        RecoverCause::Empty => "E12 Empty",
        RecoverCause::BadBytes { .. } => "E13 BadBytes",
        RecoverCause::Gap => "E14 Gap",
        RecoverCause::Mixed => "E15 Mixed",
        RecoverCause::BadLink { .. } => "E16 BadLink",
        RecoverCause::Unlawful { .. } => "E17 Unlawful",
    }
}

impl Display for Refusal {
    fn fmt<W: fmt::Write>(&self, f: &mut Formatter<W>) -> fmt::Result {
        write!(f, "refused {}", self.name())?;
        match self {
            Refusal::Store(StoreFault::Device { lease })
            | Refusal::Recovery(RecoverCause::Device { lease }) => write!(f, " lease {lease}"),
            Refusal::Recovery(RecoverCause::BadBytes { segment, at }) => {
                write!(f, " segment {segment} at {at}")
            }
            Refusal::Recovery(RecoverCause::BadLink { page } | RecoverCause::Unlawful { page }) => {
                write!(f, " page {page}")
            }
            Refusal::NoFrame { first, last } => write!(f, " frames {first} to {last}"),
            Refusal::Waits(StoreFault::Device { lease }) => write!(f, " lease {lease} waits"),
            Refusal::Waits(_) => f.write_str(" waits"),
            _ => Ok(()),
        }
    }
}

impl Error for Refusal {}

impl From<NotMade> for Refusal {
    fn from(error: NotMade) -> Refusal {
        match error {
            NotMade::NoMemory => Refusal::NO_MEMORY,
            NotMade::BadConfig => Refusal::Store(StoreFault::BadConfig),
        }
    }
}

impl From<NotTaken> for Refusal {
    fn from(error: NotTaken) -> Refusal {
        match error {
            NotTaken::NoMemory => Refusal::NO_MEMORY,
            NotTaken::NoLease => Refusal::NoLease,
        }
    }
}

impl From<RecoverCause> for Refusal {
    fn from(cause: RecoverCause) -> Refusal {
        Refusal::Recovery(cause)
    }
}

impl From<StoreFault> for Refusal {
    fn from(fault: StoreFault) -> Refusal {
        Refusal::Store(fault)
    }
}

/// Why the store below was refused, if a map over it was.
fn cause_of(fault: MapFault) -> StoreFault {
    match fault {
        MapFault::NotPut(Some(cause)) | MapFault::Waits(cause) | MapFault::NotKept(cause) => cause,
        // A store that is served has one writer, and room in its queue once that is taken.
        MapFault::Writers | MapFault::NotPut(None) => StoreFault::BadConfig,
    }
}

impl From<TableFault> for Refusal {
    fn from(fault: TableFault) -> Refusal {
        match fault {
            TableFault::NoTable => Refusal::NoTable,
            TableFault::Exists => Refusal::Exists,
            TableFault::TooMany => Refusal::TooMany,
            TableFault::TooLong => Refusal::TooLong,
            TableFault::NotTables => Refusal::NotTables,
            TableFault::Unfinished => Refusal::Unfinished,
            TableFault::NoMemory => Refusal::NO_MEMORY,
            TableFault::NotRead(cause) => Refusal::Store(cause),
            TableFault::NotMade(fault) | TableFault::NotKept(fault) => {
                Refusal::Store(cause_of(fault))
            }
            TableFault::Waits(cause) => Refusal::Waits(cause),
        }
    }
}
