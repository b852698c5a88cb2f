//! The numbers of the format, each defined once. `docs/FORMAT.md` has them in its tables, and the
//! contracts of `Key::new`, `Value::new`, `Header::is_lawful` and `Head::is_lawful` tie them to the
//! grammar.

pub use bw_record::limits::{
    MAX_FRAME, MAX_KEY, MAX_VALUE, MIN_FRAME, OLD_MAX_FRAME, OLD_MAX_KEY, OLD_MAX_VALUE,
    OLD_MIN_FRAME,
};

/// The least page limit that a segment may have, in pairs.
pub const MIN_PAIRS: u16 = 4;

/// The greatest page limit that a segment may have, in pairs.
pub const MAX_PAIRS: u16 = 32;

/// The format that is written; 1 is read beside it.
pub const LATEST: u16 = 2;

/// The length of a segment's header, in bytes.
pub const HEADER_LEN: usize = 24;

/// The length of a frame's head, in bytes.
pub const HEAD_LEN: usize = 20;

/// The fewest bytes of a block: an empty Base with an empty low key.
pub const MIN_BLOCK: u32 = 8;

/// The fewest bytes of a record in a Delta: a delete of a key of one byte.
pub const MIN_OP: usize = 3;

/// The most records of a Delta: their number has two bytes.
pub const MAX_OPS: usize = 65_535;

/// The fewest bytes of a pair: a key of one byte with an empty value.
pub const MIN_PAIR: usize = 3;
