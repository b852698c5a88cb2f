// Why a folder or a segment in it was not opened. A lease comes back with the refusal.
ghost use Rattle.std.specs.Prelude.{◌≡◌, ◌≢◌};
ghost use Rattle.bw_file.specs.declared.refusals.FolderFault.TheVariants.{NoMemory, BadConfig};

use bw_device::Lease;
use std::alloc::AllocError;
use std::fs::TryLockError;
use std::io::{self, ErrorKind};
use thiserror::Error;

/// Why a folder or a segment in it was not opened, copied or emptied, or why its files were not
/// listed.
#[derive(Clone, Copy, Debug, Error)]
pub enum FolderFault {
    /// There was no memory for it.
    #[error("no memory")]
    NoMemory,
    /// A capacity is outside its limits, 1 and `MAX_CAPACITY`. It is looked at before any file.
    #[error("a number is outside its limits")]
    BadConfig,
    /// A file is longer than `MAX_CAPACITY`. None of it was read.
    #[error("a file is longer than a segment")]
    TooLong,
    /// What has the name of a file is no plain file: a folder, a pipe, a device, a link. It was not
    /// opened.
    #[error("what has the name of a file is no plain file")]
    NotPlain,
    /// A file's bytes are not those that were appended: from here on, in bytes, a piece has not its
    /// digest. Nothing was written. What stands before it fits.
    #[error("damaged: segment-{lease:04}.bw at {at}")]
    Damaged { lease: u32, at: u64 },
    /// A file ends at `from`, in bytes, and a sum beside it says that it went on, up to `to`. A sum
    /// is written once its piece stands, so these bytes were lost, or the folder was copied in
    /// part. Nothing was written. What is there fits.
    #[error("missing: segment-{lease:04}.bw from {from} to {to}")]
    Missing { lease: u32, from: u64, to: u64 },
    /// Another process has the folder or the file open, or a value of this one.
    #[error("in use")]
    InUse,
    /// The system refused a call.
    #[error("{0}")]
    System(io::Error),
}

impl FolderFault {
    ghost use Rattle.bw_file.specs.Damage.{tells_damage};

    /// Whether it says that bytes of a file were changed or lost.
    pub fn is_damage(&self) -> bool
        ensures { result ≡ tells_damage self.now }
    {
        matches!(
            self,
            FolderFault::Damaged { .. } | FolderFault::Missing { .. }
        )
    }
}

impl From<AllocError> for FolderFault {
    ghost from_gives = { λ _ fault. fault ≡ NoMemory };

    fn from(_: AllocError) -> FolderFault {
        FolderFault::NoMemory
    }
}

impl From<io::Error> for FolderFault {
    ghost from_gives = { λ _ fault. fault ≢ BadConfig };

    fn from(error: io::Error) -> FolderFault {
        if error.kind() == ErrorKind::OutOfMemory {
            FolderFault::NoMemory
        } else {
            FolderFault::System(error)
        }
    }
}

impl From<TryLockError> for FolderFault {
    ghost from_gives = { λ _ fault. fault ≢ BadConfig };

    fn from(error: TryLockError) -> FolderFault {
        match error {
            TryLockError::WouldBlock => FolderFault::InUse,
            TryLockError::Error(error) => FolderFault::from(error),
        }
    }
}

/// A segment was not opened, and here is the lease that was meant for it.
#[derive(Debug, Drop, Error)]
#[error("{cause}")]
pub struct NotOpened {
    pub lease: Lease,
    pub cause: FolderFault,
}
