//! Names, keys and values of tables as words of a line.

ghost use Rattle.std.specs.Prelude.{◌≡◌, ◌⊎◌, IfOk, IfErr, Some, None, option_and_then};
ghost use Rattle.std.specs.Result.{result_ok};
ghost use Rattle.bw_pairs.specs.declared.long.WordFault.TheVariants.{NoMemory, Line};
ghost use Rattle.hex.specs.Hex.{decode_of};
ghost use Rattle.bw_pairs.specs.Longs.{as_name, as_row_key, as_long, name_meant, row_key_meant, long_meant, long_digits};

use crate::fault::LineFault;
use crate::spelling::{bytes_of, decoded};
use bw_codec::limits::MAX_VALUE;
use bw_rows::limits::MAX_LEN;
use bw_rows::{Name, RowKey};
use hex::FromHexError;
use std::alloc::{AllocError, AllocFailed, Global};

/// Why a word is none.
#[derive(Debug, Clone, Copy, PartialEq, Eq)]
pub enum WordFault {
    /// A growth was refused.
    NoMemory,
    /// It is not what it has to be.
    Line(LineFault),
}

impl From<LineFault> for WordFault {
    ghost from_gives = { λ given fault. fault ≡ Line given };

    fn from(fault: LineFault) -> WordFault {
        WordFault::Line(fault)
    }
}

impl From<AllocError> for WordFault {
    ghost from_gives = { λ _ fault. fault ≡ NoMemory };

    fn from(_error: AllocError) -> WordFault {
        WordFault::NoMemory
    }
}

impl<T: Drop> From<AllocFailed<T>> for WordFault {
    ghost from_gives = { λ _ fault. fault ≡ NoMemory };

    fn from(_error: AllocFailed<T>) -> WordFault {
        WordFault::NoMemory
    }
}

/// The name of these bytes.
pub fn name_from(bytes: &[u8]) -> Result<Name, LineFault>
    ensures { result_ok result ≡ as_name bytes.now }
{
    Name::new(bytes).map_err(|_| LineFault::BadName)
}

/// The name of a table that a word stands for: its own bytes, or those of its hex digits after
/// `0x`.
pub fn name_of(word: &[u8]) -> Result<Name, LineFault>
    ensures { result_ok result ≡ name_meant word.now }
{
    let mut room = [0u8; MAX_VALUE];
    name_from(bytes_of(word, &mut room, LineFault::BadName)?)
}

/// The key of a table of these bytes.
pub fn row_key_from(bytes: &[u8]) -> Result<RowKey, LineFault>
    ensures { result_ok result ≡ as_row_key bytes.now }
{
    RowKey::new(bytes).map_err(|_| LineFault::BadRowKey)
}

/// The key of a table that a word stands for, likewise.
pub fn row_key_of(word: &[u8]) -> Result<RowKey, LineFault>
    ensures { result_ok result ≡ row_key_meant word.now }
{
    let mut room = [0u8; MAX_VALUE];
    row_key_from(bytes_of(word, &mut room, LineFault::BadRowKey)?)
}

/// The key of a table of these hex digits.
pub fn row_key_in(digits: &[u8]) -> Result<RowKey, LineFault>
    ensures { result_ok result ≡ option_and_then as_row_key (result_ok (decode_of digits.now)) }
{
    let mut room = [0u8; MAX_VALUE];
    row_key_from(decoded(digits, &mut room, LineFault::BadRowKey)?)
}

/// These bytes, if they are no more than a value of a table has.
pub fn limited(bytes: Vec<u8>) -> Result<Vec<u8>, WordFault>
    ensures ok { IfOk result (λ value. as_long bytes.items ≡ Some value.items) }
    ensures err { IfErr result (λ fault. as_long bytes.items ≡ None) }
{
    if bytes.len() > MAX_LEN {
        return Err(WordFault::Line(LineFault::BadLong));
    }
    Ok(bytes)
}

/// A copy of these bytes, which are a value of a table.
pub fn long_from(alloc: Global, bytes: &[u8]) -> Result<Vec<u8>, WordFault>
    ensures ok { IfOk result (λ value. as_long bytes.now ≡ Some value.items) }
    ensures err { IfErr result (λ fault. (fault ≡ WordFault.NoMemory) ⊎ (as_long bytes.now ≡ None)) }
{
    if bytes.len() > MAX_LEN {
        return Err(WordFault::Line(LineFault::BadLong));
    }
    let mut value = Vec::with_capacity(alloc, bytes.len())?;
    value.extend_from_slice(bytes)?;
    Ok(value)
}

/// The value of a table of these hex digits.
#[tactic(auto, using(crate::proofs::Longs::no_digits, crate::proofs::Longs::digits))]
pub fn long_in(alloc: Global, digits: &[u8]) -> Result<Vec<u8>, WordFault>
    ensures ok { IfOk result (λ value. long_digits digits.now ≡ Some value.items) }
    ensures err { IfErr result (λ fault. (fault ≡ WordFault.NoMemory) ⊎ (long_digits digits.now ≡ None)) }
{
    if digits.len() / 2 > MAX_LEN {
        return Err(WordFault::Line(LineFault::BadLong));
    }
    match hex::decode(alloc, digits) {
        Ok(bytes) => Ok(bytes),
        Err(FromHexError::OutOfMemory) => Err(WordFault::NoMemory),
        Err(_) => Err(WordFault::Line(LineFault::BadHex)),
    }
}

/// The value of a table that a word stands for: its own bytes, or those of its hex digits after
/// `0x`.
pub fn long_of(alloc: Global, word: &[u8]) -> Result<Vec<u8>, WordFault>
    ensures ok { IfOk result (λ value. long_meant word.now ≡ Some value.items) }
    ensures err { IfErr result (λ fault. (fault ≡ WordFault.NoMemory) ⊎ (long_meant word.now ≡ None)) }
{
    match word.strip_prefix(b"0x") {
        Some(digits) => long_in(alloc, digits),
        None => long_from(alloc, word),
    }
}
