//! A key with its value, in no more room than they take; whoever holds a pair shares its bytes.

ghost use Rattle.std.specs.Prelude.{◌≡◌, ◌≤◌, length, IfOk};
ghost use Rattle.bw_record.specs.Keys.{ascends};

use crate::key::{Key, Value, is_before};
use bw_run::Run;
use std::alloc::{AllocError, Global};
use std::marker::Model;

/// A key and its value, as pages hold them: their bytes are one run of memory, which pairs share.
#[derive(Drop)]
pub struct Pair {
    /// The key's length, the key's bytes, and the value's.
    run: Run,
}

impl Model for Pair {
    ghost use Rattle.std.specs.Prelude.{List, ℕ};
    ghost use Rattle.bw_record.specs.Paired.{paired, IsPaired};

    ghost Value = { List ℕ × List ℕ };

    ghost view = { λ p. paired p.run.bytes };

    ghost invariant = { λ p. IsPaired p.run.bytes };
}

impl Pair {
    /// This key with this value. It takes memory, whose refusal is the only error.
    pub fn of(alloc: Global, key: &Key, value: &Value) -> Result<Pair, AllocError>
        ensures { IfOk result (λ pair. pair ≡ (key.now, value.now)) }
    {
        Pair::of_bytes(alloc, key.as_slice(), value.as_slice())
    }

    /// The key and the value of these bytes, which have their lengths. It takes memory, whose
    /// refusal is the only error.
    pub fn of_bytes(alloc: Global, key: &[u8], value: &[u8]) -> Result<Pair, AllocError>
        requires some { 1 ≤ length key.now }
        requires key { length key.now ≤ 128 }
        requires value { length value.now ≤ 512 }
        ensures { IfOk result (λ pair. pair ≡ (key.now, value.now)) }
    {
        let run = Run::of_parts(alloc, key.len() as u8, key, value)?;
        Ok(Pair { run })
    }

    /// The key's bytes.
    pub fn key(&self) -> &[u8]
        ensures value { result.now ≡ self.now.0 }
        ensures lawful { (1 ≤ length self.now.0) × (length self.now.0 ≤ 128) }
    {
        match self.run.as_slice() {
            [length, rest @ ..] => &rest[..usize::from(*length)],
            [] => unreachable!(),
        }
    }

    /// The value's bytes.
    pub fn value(&self) -> &[u8]
        ensures value { result.now ≡ self.now.1 }
        ensures lawful { length self.now.1 ≤ 512 }
    {
        match self.run.as_slice() {
            [length, rest @ ..] => &rest[usize::from(*length)..],
            [] => unreachable!(),
        }
    }

    /// The key in fixed room. No memory is taken.
    pub fn to_key(&self) -> Key
        ensures { result ≡ self.now.0 }
    {
        match Key::new(self.key()) {
            Ok(key) => key,
            Err(_) => unreachable!(),
        }
    }

    /// The value in fixed room. No memory is taken.
    pub fn to_value(&self) -> Value
        ensures { result ≡ self.now.1 }
    {
        match Value::new(self.value()) {
            Ok(value) => value,
            Err(_) => unreachable!(),
        }
    }

    /// A copy of this pair, which shares its bytes. No memory is taken; it is refused only if the
    /// count of those that share is full.
    pub fn copy(&self) -> Result<Pair, AllocError>
        ensures { IfOk result (λ pair. pair ≡ self.now) }
    {
        let run = self.run.share()?;
        Ok(Pair { run })
    }
}

/// Whether each key is below the next. No memory is taken.
pub fn ascend(pairs: &[Pair]) -> bool
    ensures { result ≡ ascends pairs.now }
{
    let mut last: Option<&[u8]> = None;
    for pair in pairs {
        let key = pair.key();
        match last {
            None => {}
            Some(before) => {
                if !is_before(before, key) {
                    return false;
                }
            }
        }
        last = Some(key);
    }
    true
}
