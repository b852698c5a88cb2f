//! What ends a run before its end, and what is printed of it.

use crate::miss::Miss;
use crate::printed::print;
use crate::refusal::Refusal;
use crate::script::Fault;
use bw_care::RecoverCause;
use bw_core::StoreFault;
use bw_file::FolderFault;
use bw_look::{Moment, NotWritten, Note, Printer};
use std::alloc::{AllocError, AllocFailed};
use std::io::{self, ErrorKind, Write};

/// What ends a script before its end, or a run before its script.
#[derive(Clone, Copy)]
pub enum Stop {
    /// The command line is no parse. Its text was printed.
    Usage,
    /// The line of this number, from 1, is not what it has to be.
    Fault(u64, Fault),
    /// A growth was refused.
    NoMemory,
    /// The input could not be read.
    Input,
    /// An output could not be written.
    Output,
    /// The folder of the segments could not be opened, read or written.
    Folder(FolderFault),
    /// The folder that is read was not opened, or a file in it is damaged, and another one is
    /// written.
    Source(FolderFault),
    /// The folder in which the new one is made, whose name ends in `.partial`, was not made.
    Partial(FolderFault),
    /// The folder that a new one takes the place of, whose name ends in `.old` then, was not moved.
    Old(FolderFault),
    /// What stands in that one is not what was read.
    Unlike,
    /// The folder that follows holds this segment otherwise than the one that it follows.
    Strayed(u64),
    /// The folder that follows holds no store, for this cause.
    NoFollower(RecoverCause),
    /// The folder that is looked at has the file of no segment.
    NoStore,
    /// The store has tables, and is opened as one without.
    HasTables,
    /// The store has pairs that are no tables', and is opened as one of tables.
    NoTables,
    /// The folder that would be made lies in the one that is read.
    Within,
    /// What was given as a time is none.
    BadTime,
    /// No frame of the folder that is read was noted at this moment or before it. The first one
    /// that was is this, if there is one.
    NotNoted(Moment, Option<Note>),
    /// The folder that is read has not all that it was at this frame: a segment was given up since.
    /// The other one is the oldest frame that can be restored.
    GivenUp { frame: u64, oldest: u64 },
}

impl Stop {
    /// A fault of the folder that is read, if another one is written.
    pub fn of_source(fault: FolderFault) -> Stop {
        match fault {
            FolderFault::NoMemory => Stop::NoMemory,
            other => Stop::Source(other),
        }
    }
}

impl From<AllocError> for Stop {
    fn from(_error: AllocError) -> Stop {
        Stop::NoMemory
    }
}

impl<T: Drop> From<AllocFailed<T>> for Stop {
    fn from(_error: AllocFailed<T>) -> Stop {
        Stop::NoMemory
    }
}

impl From<FolderFault> for Stop {
    fn from(fault: FolderFault) -> Stop {
        match fault {
            FolderFault::NoMemory => Stop::NoMemory,
            other => Stop::Folder(other),
        }
    }
}

impl From<NotWritten> for Stop {
    fn from(_error: NotWritten) -> Stop {
        Stop::Output
    }
}

/// What a run has met that came to its end.
#[derive(Debug, Clone, Copy)]
pub struct Met {
    /// Something was refused, or a writer gave up.
    pub refusal: bool,
    /// The log had no room.
    pub full: bool,
    /// There was no lease for a file, or for a new segment.
    pub far: bool,
    /// Some bytes have no digest, of a folder that was verified.
    pub bare: bool,
    /// Recovery refused what the segments hold, for this cause.
    pub cause: Option<RecoverCause>,
}

impl Met {
    /// Nothing of that.
    pub const NOTHING: Met = Met {
        refusal: false,
        full: false,
        far: false,
        bare: false,
        cause: None,
    };

    /// What both have met.
    pub fn and(self, other: Met) -> Met {
        Met {
            refusal: self.refusal | other.refusal,
            full: self.full | other.full,
            far: self.far | other.far,
            bare: self.bare | other.bare,
            cause: self.cause.or(other.cause),
        }
    }
}

/// An error of a read, or of a growth for what was read.
pub fn no_input(error: io::Error) -> Stop {
    if error.kind() == ErrorKind::OutOfMemory {
        Stop::NoMemory
    } else {
        Stop::Input
    }
}

/// What is met by a refusal.
fn met_by(refusal: Refusal) -> Met {
    Met {
        refusal: true,
        full: matches!(refusal, Refusal::Store(StoreFault::NoSegment)),
        far: matches!(refusal, Refusal::NoLease),
        bare: false,
        cause: refusal.cause(),
    }
}

/// Prints a refusal, and says what was met. What was asked of the program may go on after it, but
/// not after a refused growth.
pub fn refuse<O: Write>(output: &mut O, refusal: Refusal) -> Result<Met, Stop> {
    if refusal.is_no_memory() {
        return Err(Stop::NoMemory);
    }
    print(output, "", refusal)?;
    Ok(met_by(refusal))
}

/// Prints a refusal of one of several puts, and how many of them went in before; as `refuse`.
pub fn refuse_after<O: Write>(output: &mut O, refusal: Refusal, count: u64) -> Result<Met, Stop> {
    if refusal.is_no_memory() {
        return Err(Stop::NoMemory);
    }
    let mut out = Printer::new(output);
    out.named("", refusal);
    out.line(" after ", count);
    out.end()?;
    Ok(met_by(refusal))
}

/// What comes of a line that has no answer.
pub fn missed<O: Write>(output: &mut O, number: u64, miss: Miss) -> Result<Met, Stop> {
    match miss {
        Miss::Refused(refusal) => refuse(output, refusal),
        Miss::Fault(fault) => Err(Stop::Fault(number, fault)),
        Miss::Ended(stop) => Err(stop),
    }
}
