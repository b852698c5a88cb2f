//! Why a task was not done.

use bw_care::RecoverCause;
use bw_core::{StoreFault, TurnFault};
use bw_home::HomeFault;
use bw_pairs::{LineFault, PairsFault};
use std::alloc::{AllocError, AllocFailed};
use std::io::{self, ErrorKind};

/// Why a task was not done with the tables of a folder, or with its plain pairs.
#[derive(Debug, Clone, Copy, PartialEq, Eq)]
pub enum TableRefusal {
    /// It has tables, and a plain pair would be put or deleted.
    HasTables,
    /// It has plain pairs, and a table was named.
    IsPlain,
    /// No table has this name.
    NoTable,
    /// A table has this name already.
    Exists,
    /// There are as many tables as there may be.
    TooMany,
    /// Its pairs are not those of tables, though it has their mark.
    Broken,
}

/// Why a task was not done, or ended early.
#[derive(Debug, Clone, Copy)]
pub enum KeysFault {
    /// The folder was not opened, or a call on its store was refused.
    Home(HomeFault),
    /// The folder has the file of no segment, and is not made a store by what reads or deletes.
    NoStore,
    /// A word of the command line, by its name there.
    Word(&'static str, LineFault),
    /// The line of this number, from 1, of the input. What stands before it is in the store.
    Line(u64, LineFault),
    /// The input could not be read.
    Input,
    /// The output could not be written.
    Output,
    /// Nobody reads the output any more.
    Closed,
    /// Tables were meant and are not there, or the other way round.
    Table(TableRefusal),
}

impl KeysFault {
    /// An error of a write.
    pub fn of_output(error: io::Error) -> KeysFault {
        if error.kind() == ErrorKind::BrokenPipe {
            KeysFault::Closed
        } else {
            KeysFault::Output
        }
    }
}

impl From<HomeFault> for KeysFault {
    fn from(fault: HomeFault) -> KeysFault {
        KeysFault::Home(fault)
    }
}

impl From<PairsFault> for KeysFault {
    fn from(fault: PairsFault) -> KeysFault {
        match fault {
            PairsFault::NoMemory => KeysFault::Home(HomeFault::NoMemory),
            PairsFault::Input => KeysFault::Input,
            PairsFault::Line(number, fault) => KeysFault::Line(number, fault),
        }
    }
}

impl From<RecoverCause> for KeysFault {
    fn from(cause: RecoverCause) -> KeysFault {
        KeysFault::Home(HomeFault::from(cause))
    }
}

impl From<StoreFault> for KeysFault {
    fn from(fault: StoreFault) -> KeysFault {
        KeysFault::Home(HomeFault::from(fault))
    }
}

impl From<TurnFault> for KeysFault {
    fn from(fault: TurnFault) -> KeysFault {
        KeysFault::Home(HomeFault::from(fault.cause))
    }
}

impl From<AllocError> for KeysFault {
    fn from(_error: AllocError) -> KeysFault {
        KeysFault::Home(HomeFault::NoMemory)
    }
}

impl<T: Drop> From<AllocFailed<T>> for KeysFault {
    fn from(_error: AllocFailed<T>) -> KeysFault {
        KeysFault::Home(HomeFault::NoMemory)
    }
}
