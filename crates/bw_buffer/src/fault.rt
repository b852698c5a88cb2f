//! Why blocks were not added.

use thiserror::Error;

/// Why a buffer did not take blocks. It is as it was before the call.
#[derive(Debug, Clone, Copy, PartialEq, Eq, Error)]
pub enum PutError {
    /// The buffer is sealed: start the next frame's.
    #[error("the buffer is sealed")]
    Sealed,
    /// The frame with these blocks would be longer than the limit: seal it, and start the next.
    #[error("the blocks do not fit the frame")]
    NoRoom,
}
