//! Why a log was not written.

ghost use Rattle.std.specs.Prelude.{◌≡◌};
ghost use Rattle.bw_whole.specs.declared.fault.WholeFault.TheVariants.{NoMemory};

use bw_codec::Pair;
use std::alloc::{AllocError, AllocFailed};
use thiserror::Error;

/// Why a log was not written, or takes no more.
#[derive(Debug, Clone, Copy, PartialEq, Eq, Error)]
pub enum WholeFault {
    /// A growth was refused.
    #[error("out of memory")]
    NoMemory,
    /// A limit is out of range, or a segment has no room for a header and a frame.
    #[error("limits that no log takes")]
    BadConfig,
    /// The key is not above the one before it.
    #[error("a key that is not above the one before it")]
    NotAbove,
    /// There is no number for one more page, or one more frame.
    #[error("a counter is at its greatest value")]
    Spent,
}

impl From<AllocError> for WholeFault {
    ghost from_gives = { λ _ fault. fault ≡ NoMemory };

    fn from(_error: AllocError) -> WholeFault {
        WholeFault::NoMemory
    }
}

impl<T: Drop> From<AllocFailed<T>> for WholeFault {
    ghost from_gives = { λ _ fault. fault ≡ NoMemory };

    fn from(_error: AllocFailed<T>) -> WholeFault {
        WholeFault::NoMemory
    }
}

/// A pair that was not put, and why.
#[derive(Drop)]
pub struct NotPut {
    pub pair: Pair,
    pub cause: WholeFault,
}
