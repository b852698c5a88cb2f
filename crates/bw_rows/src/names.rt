//! Names of tables, keys of rows, and numbers.

ghost use Rattle.std.specs.Prelude.{◌≡◌, ◌≤◌, ◌↔◌, length, IsOk, IfOk, IfErr};
ghost use Rattle.bw_rows.specs.Spelling.{eight, number_in};

use crate::limits::{MAX_NAME, MAX_ROW_KEY};
use arrayvec::ArrayVec;
use bw_record::LengthError;
use std::marker::Model;

/// The name of a table: 1 to 127 bytes.
#[derive(Debug, PartialEq, Eq, PartialOrd, Ord, Hash, Drop)]
pub struct Name {
    bytes: ArrayVec<u8, MAX_NAME>,
}

impl Model for Name {
    ghost use Rattle.std.specs.Prelude.{List, ℕ, length, ◌≤◌};

    ghost Value = { List ℕ };

    ghost view = { λ k. k.bytes.items };

    ghost invariant = { λ k. (1 ≤ length k.bytes.items) × (length k.bytes.items ≤ 127) };

    ghost inverse = { λ bytes. record { bytes = record { items = bytes } } };
}

impl Name {
    /// A name of these bytes, or their length if it is no name's.
    pub fn new(bytes: &[u8]) -> Result<Name, LengthError>
        ensures variant { IsOk result ↔ ((1 ≤ length bytes.now) × (length bytes.now ≤ 127)) }
        ensures ok { IfOk result (λ name. name ≡ bytes.now) }
        ensures err { IfErr result (λ error. error.given ≡ length bytes.now) }
    {
        if bytes.is_empty() {
            return Err(LengthError { given: 0 });
        }
        let mut held = ArrayVec::new();
        match held.try_extend_from_slice(bytes) {
            Ok(()) => Ok(Name { bytes: held }),
            Err(_) => Err(LengthError { given: bytes.len() }),
        }
    }

    /// The name's bytes.
    pub fn as_slice(&self) -> &[u8]
        ensures value { result.now ≡ self.now }
        ensures lawful { (1 ≤ length self.now) × (length self.now ≤ 127) }
    {
        self.bytes.as_slice()
    }
}

/// A key of a table: 1 to 124 bytes. Keys are ordered by their bytes, a beginning before its
/// continuation.
#[derive(Debug, PartialEq, Eq, PartialOrd, Ord, Hash, Drop)]
pub struct RowKey {
    bytes: ArrayVec<u8, MAX_ROW_KEY>,
}

impl Model for RowKey {
    ghost use Rattle.std.specs.Prelude.{List, ℕ, length, ◌≤◌};

    ghost Value = { List ℕ };

    ghost view = { λ k. k.bytes.items };

    ghost invariant = { λ k. (1 ≤ length k.bytes.items) × (length k.bytes.items ≤ 124) };

    ghost inverse = { λ bytes. record { bytes = record { items = bytes } } };
}

impl RowKey {
    /// A key of these bytes, or their length if it is no key's.
    pub fn new(bytes: &[u8]) -> Result<RowKey, LengthError>
        ensures variant { IsOk result ↔ ((1 ≤ length bytes.now) × (length bytes.now ≤ 124)) }
        ensures ok { IfOk result (λ key. key ≡ bytes.now) }
        ensures err { IfErr result (λ error. error.given ≡ length bytes.now) }
    {
        if bytes.is_empty() {
            return Err(LengthError { given: 0 });
        }
        let mut held = ArrayVec::new();
        match held.try_extend_from_slice(bytes) {
            Ok(()) => Ok(RowKey { bytes: held }),
            Err(_) => Err(LengthError { given: bytes.len() }),
        }
    }

    /// The key's bytes.
    pub fn as_slice(&self) -> &[u8]
        ensures value { result.now ≡ self.now }
        ensures lawful { (1 ≤ length self.now) × (length self.now ≤ 124) }
    {
        self.bytes.as_slice()
    }
}

/// The number of a table, as its two bytes.
#[derive(Debug, Clone, Copy, PartialEq, Eq)]
pub struct TableNumber {
    pub bytes: [u8; 2],
}

/// The number of a long value, as its eight bytes, the highest first.
#[derive(Debug, Clone, Copy, PartialEq, Eq)]
pub struct Number {
    pub bytes: [u8; 8],
}

impl Number {
    /// The number as eight bytes.
    #[tactic(auto, unfolding(crate::specs::Spelling::eight))]
    pub fn of(n: u64) -> Number
        ensures { result.bytes ≡ eight n }
    {
        Number {
            bytes: n.to_be_bytes(),
        }
    }

    /// The number that the bytes are.
    #[tactic(auto, unfolding(crate::specs::Spelling::number_in))]
    pub fn value(self) -> u64
        ensures { result ≡ number_in self.bytes }
    {
        u64::from_be_bytes(self.bytes)
    }
}
