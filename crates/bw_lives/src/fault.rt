//! Why a store has no second life.

use bw_care::RecoverFault;
use bw_core::{Core, ReopenFault};
use std::fmt::{self, Debug, Display, Formatter};
use thiserror::Error;

/// Why a store has no second life, with all that there is of the first.
#[derive(Drop, Error)]
pub enum ReliveFault {
    /// There was no memory to begin with: the store is as it was.
    NoMemory(Core),
    /// Its boxes were not recovered.
    Recovery(RecoverFault),
    /// What was recovered was not opened again.
    Reopening(ReopenFault),
}

impl ReliveFault {
    // What was refused, and why.
    fn write_to<W: fmt::Write>(&self, f: &mut Formatter<W>) -> fmt::Result {
        match self {
            ReliveFault::NoMemory(_) => f.write_str("out of memory"),
            ReliveFault::Recovery(fault) => write!(f, "{}", fault.cause),
            ReliveFault::Reopening(fault) => write!(f, "{}", fault.cause),
        }
    }
}

impl Display for ReliveFault {
    fn fmt<W: fmt::Write>(&self, f: &mut Formatter<W>) -> fmt::Result {
        self.write_to(f)
    }
}

impl Debug for ReliveFault {
    fn fmt<W: fmt::Write>(&self, f: &mut Formatter<W>) -> fmt::Result {
        self.write_to(f)
    }
}
