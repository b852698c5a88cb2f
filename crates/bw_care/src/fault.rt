//! Why a cleaning was refused.

use bw_log::LogFault;
use thiserror::Error;

/// Why a cleaning or an upgrade was refused. What stands then is said at `clean` and `upgrade`.
#[derive(Debug, Clone, Copy, PartialEq, Eq, Error)]
pub enum CleanFault {
    /// E11: of `clean`, fewer than two segments are live; of `upgrade`, none of them has version 1.
    /// It is asked first, and nothing has changed.
    #[error("nothing old")]
    NothingOld,
    /// A step on the log was refused: E1, E5, E6, E7 or E8. The log never answers `BadConfig` or
    /// `NoPage` to a cleaning.
    #[error("{0}")]
    Log(LogFault),
}
