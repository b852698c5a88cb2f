//! What differs between the formats, by the number of one: 1, and every other number is format 2.
//! The one definition of the grammar is over these numbers.

ghost use Rattle.std.specs.Prelude.{◌≡◌};
ghost use Rattle.bw_record.specs.Version.{digit, key_limit, value_limit, least_limit, greatest_limit};

use crate::limits::{
    MAX_FRAME, MAX_KEY, MAX_VALUE, MIN_FRAME, OLD_MAX_FRAME, OLD_MAX_KEY, OLD_MAX_VALUE,
    OLD_MIN_FRAME,
};

/// The last byte of the words with which frames and segments of a format begin: its number as text.
pub fn digit(version: u16) -> u8
    ensures { result ≡ digit version }
{
    if version == 1 { b'1' } else { b'2' }
}

/// The most bytes of a key in a format; the least is 1.
pub fn key_limit(version: u16) -> usize
    ensures { result ≡ key_limit version }
{
    if version == 1 { OLD_MAX_KEY } else { MAX_KEY }
}

/// The most bytes of a value in a format; the least is 0.
pub fn value_limit(version: u16) -> usize
    ensures { result ≡ value_limit version }
{
    if version == 1 {
        OLD_MAX_VALUE
    } else {
        MAX_VALUE
    }
}

/// The least limit of frames that a segment of a format may have, in bytes of the whole frame.
pub fn least_limit(version: u16) -> u32
    ensures { result ≡ least_limit version }
{
    if version == 1 {
        OLD_MIN_FRAME
    } else {
        MIN_FRAME
    }
}

/// The greatest limit of frames that a segment of a format may have, in bytes of the whole frame.
pub fn greatest_limit(version: u16) -> u32
    ensures { result ≡ greatest_limit version }
{
    if version == 1 {
        OLD_MAX_FRAME
    } else {
        MAX_FRAME
    }
}
