//! What is said of a store that is served, for scripts.

use std::fmt::{self, Display, Formatter};

/// What happened to a store, with numbers by their names. Its `Display` is the one form of all
/// events.
#[derive(Debug, Clone, Copy)]
pub struct Event<'a> {
    pub name: &'static str,
    pub numbers: &'a [(&'static str, u64)],
}

impl Event<'_> {
    /// The name of the numbers of a store, as they are written from time to time.
    pub const NUMBERS: &'static str = "counters";

    /// The name of a refusal, whose first number says which: a program that goes on all the same
    /// has many of them.
    pub const REFUSED: &'static str = "refused";
}

impl Display for Event<'_> {
    fn fmt<W: fmt::Write>(&self, f: &mut Formatter<W>) -> fmt::Result {
        f.write_str(self.name)?;
        for (name, number) in self.numbers {
            write!(f, " {name}={number}")?;
        }
        Ok(())
    }
}

/// Which events are written.
#[derive(Debug, Clone, Copy, PartialEq, Eq)]
pub struct Hearing {
    /// Whether each one is.
    pub all: bool,
    /// After so many seconds the numbers of the store are written; 0 for never.
    pub every: u32,
}

impl Hearing {
    /// None is written.
    pub const NOTHING: Hearing = Hearing {
        all: false,
        every: 0,
    };
}
