//! The limits of tables, each defined once.

/// The greatest length of a table's name, in bytes; the least is 1.
pub const MAX_NAME: usize = 127;

/// The greatest length of a key of a table, in bytes; the least is 1. One byte of the store's key
/// is left over, for keys that go on in another layer.
pub const MAX_ROW_KEY: usize = 124;

/// The greatest length of a value, in bytes.
pub const MAX_LEN: usize = 16_777_216;

/// The greatest length of a value that stands in its row.
pub const MAX_WHOLE: usize = 511;

/// How many bytes each chunk of a long value has, but for the last.
pub const CHUNK: usize = 512;
