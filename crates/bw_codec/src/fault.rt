//! What can go wrong when bytes are read.

ghost use Rattle.std.specs.Prelude.{◌≡◌};
ghost use Rattle.bw_codec.specs.declared.fault.CodecFault.TheVariants.{NoMemory};

use std::alloc::{AllocError, AllocFailed};
use thiserror::Error;

/// Why bytes gave no frame.
#[derive(Debug, Clone, Copy, PartialEq, Eq, Error)]
pub enum CodecFault {
    /// A growth was refused. Nothing is known of the bytes.
    #[error("out of memory")]
    NoMemory,
    /// The bytes neither begin with a lawful frame, nor are a tail.
    #[error("unlawful bytes")]
    BadBytes,
}

impl From<AllocError> for CodecFault {
    ghost from_gives = { λ _ fault. fault ≡ NoMemory };

    fn from(_error: AllocError) -> CodecFault {
        CodecFault::NoMemory
    }
}

impl<T: Drop> From<AllocFailed<T>> for CodecFault {
    ghost from_gives = { λ _ fault. fault ≡ NoMemory };

    fn from(_error: AllocFailed<T>) -> CodecFault {
        CodecFault::NoMemory
    }
}
