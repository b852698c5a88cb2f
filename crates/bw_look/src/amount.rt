//! How much there is of something, in a few digits.

use std::fmt::{self, Display, Formatter};

/// Of what there is so much.
#[derive(Debug, Clone, Copy, PartialEq, Eq)]
pub enum Unit {
    Bytes,
    Pairs,
    Pages,
}

/// So much of it. Bytes are given in the greatest unit of which there is one, with a digit after
/// the point if there are fewer than ten.
#[derive(Debug, Clone, Copy)]
pub struct Amount {
    pub count: u64,
    pub unit: Unit,
}

const KIB: u64 = 1_024;

const MIB: u64 = 1_048_576;

/// Bytes in a larger unit, of this name.
fn write_large<W: fmt::Write>(
    f: &mut Formatter<W>,
    bytes: u64,
    unit: u64,
    name: &str,
) -> fmt::Result {
    let unit = unit.max(1);
    let whole = bytes / unit;
    if whole >= 10 {
        write!(f, "{whole} {name}")
    } else {
        write!(
            f,
            "{whole}.{} {name}",
            (bytes % unit).saturating_mul(10) / unit
        )
    }
}

fn write_bytes<W: fmt::Write>(f: &mut Formatter<W>, bytes: u64) -> fmt::Result {
    if bytes >= MIB {
        write_large(f, bytes, MIB, "MiB")
    } else if bytes >= KIB {
        write_large(f, bytes, KIB, "KiB")
    } else {
        write!(f, "{bytes} bytes")
    }
}

impl Display for Amount {
    fn fmt<W: fmt::Write>(&self, f: &mut Formatter<W>) -> fmt::Result {
        match self.unit {
            Unit::Bytes => write_bytes(f, self.count),
            Unit::Pairs => write!(f, "{} pairs", self.count),
            Unit::Pages => write!(f, "{} pages", self.count),
        }
    }
}
