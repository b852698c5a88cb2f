//! The limits of keys, values and frames in both formats, each defined once. The contracts of
//! `Key::new`, `Value::new` and of the functions in `version` tie them to the definitions.

/// The greatest length of a key, in bytes; the least is 1.
pub const MAX_KEY: usize = 128;

/// The greatest length of a value, in bytes; the least is 0.
pub const MAX_VALUE: usize = 512;

/// The least frame limit that a segment may have, in bytes of the whole frame.
pub const MIN_FRAME: u32 = 65_536;

/// The greatest frame limit that a segment may have, in bytes of the whole frame.
pub const MAX_FRAME: u32 = 262_144;

/// The greatest length of a key in format 1.
pub const OLD_MAX_KEY: usize = 64;

/// The greatest length of a value in format 1.
pub const OLD_MAX_VALUE: usize = 128;

/// The least frame limit of a segment in format 1.
pub const OLD_MIN_FRAME: u32 = 16_384;

/// The greatest frame limit of a segment in format 1.
pub const OLD_MAX_FRAME: u32 = 65_536;
