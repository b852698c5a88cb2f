//! What ends a run before its end.

/// Why nothing more is done. What was in the way was written to standard error.
#[derive(Clone, Copy)]
pub enum Stop {
    /// A key read back otherwise than it was put.
    Wrong,
    /// The command line is no parse.
    Usage,
    /// A store, a folder, a segment or a check of this program refused to go on.
    Refused,
    NoMemory,
    /// A thread could not be made, or the clock or an output failed.
    System,
}

impl Stop {
    /// The exit status.
    pub fn status(self) -> u8 {
        match self {
            Stop::Wrong => 1,
            Stop::Usage => 2,
            Stop::Refused => 4,
            Stop::NoMemory => 5,
            Stop::System => 6,
        }
    }
}
