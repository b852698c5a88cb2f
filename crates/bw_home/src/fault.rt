//! Why a record was not put, or a change of a map not made.

use bw_codec::Record;
use bw_core::StoreFault;
use bw_ring::Group;
use std::fmt::{self, Display, Formatter};
use thiserror::Error;

/// A record was not put, and here it is: the queue is full, and what waits there was not taken for
/// this reason. There is none if a turn took what waited, and the queue is full all the same, or
/// there is no writer.
#[derive(Debug, Drop, Error)]
#[error("the queue is full")]
pub struct NotPut {
    pub record: Record,
    pub cause: Option<StoreFault>,
}

/// A group was not put, and here it is: the queue is full, and what waits there was not taken for
/// this reason. There is none if a turn took what waited, and the queue is full all the same, or
/// there is no such writer.
#[derive(Debug, Drop, Error)]
#[error("the queue is full")]
pub struct GroupNotPut {
    pub group: Group,
    pub cause: Option<StoreFault>,
}

/// Why a home is no map, or a change of it was not made, or not kept.
#[derive(Debug, Clone, Copy, PartialEq, Eq, Error)]
pub enum MapFault {
    /// The home has not one writer.
    Writers,
    /// The queue is full, and what waits there was not taken for this reason; there is none if all
    /// that waited was taken, and the queue is full all the same. Nothing was put.
    NotPut(Option<StoreFault>),
    /// The change was put and not taken: it waits, and the next call takes it first.
    Waits(StoreFault),
    /// What was put is not kept.
    NotKept(StoreFault),
}

// By hand, since a derived one writes in each variant, which is dear to prove.
impl Display for MapFault {
    fn fmt<W: fmt::Write>(&self, f: &mut Formatter<W>) -> fmt::Result {
        match self {
            MapFault::Writers => f.write_str("a map has one writer"),
            MapFault::NotPut(None) => f.write_str("the queue is full"),
            MapFault::NotPut(Some(cause)) => write!(f, "the queue is full: {cause}"),
            MapFault::Waits(cause) => write!(f, "the change waits: {cause}"),
            MapFault::NotKept(cause) => write!(f, "not kept: {cause}"),
        }
    }
}
