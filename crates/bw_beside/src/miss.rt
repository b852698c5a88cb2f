//! Why files were not read as of one moment.

use bw_care::RecoverCause;
use std::alloc::{AllocError, AllocFailed};
use std::io::{self, ErrorKind};

/// Why files were not read as of one moment.
#[derive(Debug, Clone, Copy, PartialEq, Eq)]
pub enum Miss {
    /// A growth was refused.
    NoMemory,
    /// They are not those of one moment, or could not be read. They may be the next time.
    Moved,
}

impl From<AllocError> for Miss {
    fn from(_error: AllocError) -> Miss {
        Miss::NoMemory
    }
}

impl<T: Drop> From<AllocFailed<T>> for Miss {
    fn from(_error: AllocFailed<T>) -> Miss {
        Miss::NoMemory
    }
}

impl From<io::Error> for Miss {
    fn from(error: io::Error) -> Miss {
        if error.kind() == ErrorKind::OutOfMemory {
            Miss::NoMemory
        } else {
            Miss::Moved
        }
    }
}

impl From<RecoverCause> for Miss {
    fn from(cause: RecoverCause) -> Miss {
        match cause {
            RecoverCause::NoMemory => Miss::NoMemory,
            _ => Miss::Moved,
        }
    }
}
