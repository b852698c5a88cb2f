//! Why a call on tables was refused.

use bw_core::StoreFault;
use bw_home::MapFault;
use std::fmt::{self, Display, Formatter};
use thiserror::Error;

/// Why a call on tables was refused. The tables are then as they were, but for `Waits`.
#[derive(Debug, Clone, Copy, PartialEq, Eq, Error)]
pub enum TableFault {
    /// No table has this name.
    NoTable,
    /// A table has this name already.
    Exists,
    /// There are 65,536 tables, so there is no number for another.
    TooMany,
    /// The value has more than 16,777,216 bytes.
    TooLong,
    /// A growth was refused.
    NoMemory,
    /// The store has pairs that are no tables'.
    NotTables,
    /// A batch stands that is not carried out: `open` does that, and until then calls are refused
    /// so.
    Unfinished,
    /// The store was refused to read, or to take what waited before.
    NotRead(StoreFault),
    /// A group was refused before the step of the call. Of a long value the chunks that were
    /// written are collected by an opening.
    NotMade(MapFault),
    /// What was put was not made durable.
    NotKept(MapFault),
    /// The step of the call was put and not taken: it waits, and the next call takes it first. The
    /// tables have it.
    Waits(StoreFault),
}

// By hand, since a derived one writes in each variant, which is dear to prove.
impl Display for TableFault {
    fn fmt<W: fmt::Write>(&self, f: &mut Formatter<W>) -> fmt::Result {
        match self {
            TableFault::NoTable => f.write_str("no table has this name"),
            TableFault::Exists => f.write_str("a table has this name already"),
            TableFault::TooMany => f.write_str("there are 65536 tables"),
            TableFault::TooLong => f.write_str("a value has at most 16777216 bytes"),
            TableFault::NoMemory => f.write_str("out of memory"),
            TableFault::NotTables => f.write_str("the pairs are no tables"),
            TableFault::Unfinished => f.write_str("a batch is not carried out"),
            TableFault::NotRead(cause) => write!(f, "not read: {cause}"),
            TableFault::NotMade(cause) => write!(f, "not made: {cause}"),
            TableFault::NotKept(cause) => write!(f, "not kept: {cause}"),
            TableFault::Waits(cause) => write!(f, "the change waits: {cause}"),
        }
    }
}
