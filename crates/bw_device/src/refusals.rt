// Why something was not made or not given out. What was handed in comes back with the refusal.
use crate::leases::Lease;
use thiserror::Error;

/// Why a segment or a desk was not made.
#[derive(Clone, Copy, Debug, PartialEq, Eq, Error)]
pub enum NotMade {
    /// E1: there was no memory for it.
    #[error("no memory")]
    NoMemory,
    /// E10: a number is outside its limits: the capacity of a segment, or how many leases a desk
    /// has.
    #[error("a number is outside its limits")]
    BadConfig,
}

/// A segment was not made, and here is the lease that was meant for it.
#[derive(Debug, Drop, Error)]
#[error("{cause}")]
pub struct Refused {
    pub lease: Lease,
    pub cause: NotMade,
}

/// Why no lease was taken.
#[derive(Clone, Copy, Debug, PartialEq, Eq, Error)]
pub enum NotTaken {
    /// E1: there was no memory for the flag by which the lease comes back.
    #[error("no memory")]
    NoMemory,
    /// E20: all leases of the desk are out.
    #[error("all leases are out")]
    NoLease,
}
