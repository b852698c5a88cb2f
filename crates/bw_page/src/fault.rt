//! Why a record was not applied.

use std::alloc::AllocError;
use thiserror::Error;

/// Why records were not applied.
#[derive(Debug, Clone, Copy, PartialEq, Eq, Error)]
pub enum ApplyError {
    /// A growth was refused.
    #[error("out of memory")]
    NoMemory,
    /// A new page needs a number above the greatest `u32`.
    #[error("no page number is left")]
    Spent,
}

impl From<AllocError> for ApplyError {
    ghost use Rattle.std.specs.Prelude.{◌≡◌};
    ghost use Rattle.bw_page.specs.declared.fault.ApplyError.TheVariants.{NoMemory};

    ghost from_gives = { λ _ e. e ≡ NoMemory };

    fn from(_error: AllocError) -> ApplyError {
        ApplyError::NoMemory
    }
}
