//! Why a line is no pair, and why there are no more of them.

ghost use Rattle.std.specs.Prelude.{◌≡◌, None};
ghost use Rattle.bw_pairs.specs.Faults.{fault_line};

use std::io::{self, ErrorKind};
use thiserror::Error;

/// Why a line, or a word, is not what it has to be.
#[derive(Debug, Clone, Copy, PartialEq, Eq, Error)]
pub enum LineFault {
    /// It has more bytes than the longest pair.
    #[error("line too long")]
    TooLong,
    /// No tab parts a key from a value.
    #[error("no tab behind a key")]
    NoTab,
    #[error("a key has 1 to 128 bytes")]
    BadKey,
    #[error("a value has 0 to 512 bytes")]
    BadValue,
    /// What stands after `0x`, or on a line of a dump, is no hex.
    #[error("bad hex")]
    BadHex,
    /// What stands after a backslash in a dump is neither another one nor two hex digits.
    #[error("bad escape")]
    BadEscape,
    /// The first line of a dump is another one.
    #[error("a dump begins with VERSION=3")]
    NoVersion,
    /// A line of a dump's header has no `=`, or the header has no end.
    #[error("bad header of a dump")]
    BadHeader,
    #[error("the format of a dump is bytevalue or print")]
    BadFormat,
    /// A queue, or a list by numbers.
    #[error("a dump has to be of type btree or hash, with keys")]
    BadType,
    /// Of two values of a key one would be lost.
    #[error("a dump with several values of a key is not read")]
    Duplicates,
    /// A line of a dump's data begins with a space.
    #[error("no space before the data of a dump")]
    NoSpace,
    #[error("a key without a value")]
    NoValue,
    /// The input ended before it.
    #[error("the dump has no DATA=END")]
    NoEnd,
    #[error("a second database in one dump")]
    Second,
    /// A line of JSON is no object of texts, or has other members.
    #[error("no JSON object with a key and a value")]
    BadJson,
    #[error("bad base64")]
    BadBase64,
    /// A line of CSV has one field, or more than two.
    #[error("a line of CSV has a key and a value")]
    BadCsv,
    /// A quote of a line of CSV has no end there, or something stands after it.
    #[error("bad quotes")]
    BadQuotes,
    #[error("a key of a table has 1 to 124 bytes")]
    BadRowKey,
    #[error("a value of a table has 0 to 16777216 bytes")]
    BadLong,
    #[error("a name of a table has 1 to 127 bytes")]
    BadName,
    /// The header of a dump of several databases has no line `database=`.
    #[error("a database without a name")]
    NoName,
    /// Only the databases of a dump have names.
    #[error("only --format dump and print have names")]
    NotDump,
}

/// Why no pair was read.
#[derive(Debug, Clone, Copy, PartialEq, Eq)]
pub enum PairsFault {
    /// A growth was refused.
    NoMemory,
    /// The input could not be read.
    Input,
    /// The line of this number, from 1, is not what it has to be.
    Line(u64, LineFault),
}

impl PairsFault {
    /// An error of a read, or of a growth for what was read.
    pub fn of_read(error: io::Error) -> PairsFault
        ensures { fault_line result ≡ None }
    {
        if error.kind() == ErrorKind::OutOfMemory {
            PairsFault::NoMemory
        } else {
            PairsFault::Input
        }
    }
}
