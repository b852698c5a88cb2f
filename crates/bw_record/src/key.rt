//! Keys and values, in fixed room: copying one takes no memory.

ghost use Rattle.std.specs.Prelude.{◌≡◌, ◌≤◌, ◌↔◌, length, IsOk, IfOk, IfErr};
ghost use Rattle.bw_record.specs.Keys.{is_below, IsBytes};
ghost use Rattle.bw_record.specs.Heads.{head};

use crate::heads::{compare, head_of};
use crate::limits::{MAX_KEY, MAX_VALUE};
use arrayvec::ArrayVec;
use std::cmp::Ordering;
use std::marker::Model;
use thiserror::Error;

/// A key or value has a length outside its range.
#[derive(Debug, Clone, Copy, PartialEq, Eq, Error)]
#[error("a length of {given} bytes is out of range")]
pub struct LengthError {
    /// The length that was given, in bytes.
    pub given: usize,
}

/// A key of 1 to 128 bytes. Keys are ordered by their bytes, a beginning before its continuation.
#[derive(Debug, PartialEq, Eq, PartialOrd, Ord, Hash, Drop)]
pub struct Key {
    bytes: ArrayVec<u8, MAX_KEY>,
}

impl Model for Key {
    ghost use Rattle.std.specs.Prelude.{List, ℕ, length, ◌≤◌};

    ghost Value = { List ℕ };

    ghost view = { λ k. k.bytes.items };

    ghost invariant = { λ k. (1 ≤ length k.bytes.items) × (length k.bytes.items ≤ 128) };

    ghost inverse = { λ bytes. record { bytes = record { items = bytes } } };
}

impl Key {
    /// A key of these bytes, or their length if it is no key's.
    pub fn new(bytes: &[u8]) -> Result<Key, LengthError>
        ensures variant { IsOk result ↔ ((1 ≤ length bytes.now) × (length bytes.now ≤ 128)) }
        ensures ok { IfOk result (λ key. key ≡ bytes.now) }
        ensures err { IfErr result (λ error. error.given ≡ length bytes.now) }
    {
        if bytes.is_empty() {
            return Err(LengthError { given: 0 });
        }
        let mut held = ArrayVec::new();
        match held.try_extend_from_slice(bytes) {
            Ok(()) => Ok(Key { bytes: held }),
            Err(_) => Err(LengthError { given: bytes.len() }),
        }
    }

    /// The key's bytes.
    pub fn as_slice(&self) -> &[u8]
        ensures value { result.now ≡ self.now }
        ensures lawful { (1 ≤ length self.now) × (length self.now ≤ 128) }
    {
        self.bytes.as_slice()
    }

    /// A copy of this key. No memory is taken.
    pub fn copy(&self) -> Key
        ensures { result ≡ self.now }
    {
        let mut held = ArrayVec::new();
        let _ = held.try_extend_from_slice(self.bytes.as_slice());
        Key { bytes: held }
    }

    /// The key's first eight bytes as one number, the highest first; zeros stand for those that it
    /// lacks. A key whose head is below another's is below that key.
    pub fn head(&self) -> u64
        ensures value { result ≡ head self.now }
        ensures bytes { IsBytes self.now }
    {
        head_of(self.bytes.as_slice())
    }
}

/// A value of 0 to 512 bytes.
#[derive(Debug, PartialEq, Eq, PartialOrd, Ord, Hash, Drop)]
pub struct Value {
    bytes: ArrayVec<u8, MAX_VALUE>,
}

impl Model for Value {
    ghost use Rattle.std.specs.Prelude.{List, ℕ, length, ◌≤◌};

    ghost Value = { List ℕ };

    ghost view = { λ v. v.bytes.items };

    ghost invariant = { λ v. length v.bytes.items ≤ 512 };

    ghost inverse = { λ bytes. record { bytes = record { items = bytes } } };
}

impl Value {
    /// A value of these bytes, or their length if it is no value's.
    pub fn new(bytes: &[u8]) -> Result<Value, LengthError>
        ensures variant { IsOk result ↔ (length bytes.now ≤ 512) }
        ensures ok { IfOk result (λ value. value ≡ bytes.now) }
        ensures err { IfErr result (λ error. error.given ≡ length bytes.now) }
    {
        let mut held = ArrayVec::new();
        match held.try_extend_from_slice(bytes) {
            Ok(()) => Ok(Value { bytes: held }),
            Err(_) => Err(LengthError { given: bytes.len() }),
        }
    }

    /// The value's bytes.
    pub fn as_slice(&self) -> &[u8]
        ensures value { result.now ≡ self.now }
        ensures lawful { length self.now ≤ 512 }
    {
        self.bytes.as_slice()
    }

    /// A copy of this value. No memory is taken.
    pub fn copy(&self) -> Value
        ensures { result ≡ self.now }
    {
        let mut held = ArrayVec::new();
        let _ = held.try_extend_from_slice(self.bytes.as_slice());
        Value { bytes: held }
    }
}

/// Whether one key stands before another.
pub fn is_before(a: &[u8], b: &[u8]) -> bool
    ensures { result ≡ is_below a.now b.now }
{
    compare(a, b) == Ordering::Less
}
