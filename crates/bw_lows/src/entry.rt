//! A low key, in no more room than it takes.

ghost use Rattle.std.specs.Prelude.{◌≡◌, ◌≤◌, length, IfOk, IfSome};
ghost use Rattle.bw_record.specs.Keys.{is_below, IsBytes};
ghost use Rattle.bw_record.specs.Heads.{head};
ghost use Rattle.bw_lows.specs.LowHeads.{order};
ghost use Rattle.bw_lows.specs.LowRow.{IsHeadBehind};
ghost use Rattle.bw_lows.specs.Packing.{eight_bytes};

use bw_record::{Key, behind, compare, head_of};
use std::alloc::{AllocError, Global};
use std::cmp::Ordering;
use std::marker::Model;

/// A low key.
#[derive(Drop)]
pub(crate) struct Entry {
    /// The low's first eight bytes as a number; zeros stand for those that it lacks.
    first: u64,
    /// The low's bytes, if they are more than eight.
    whole: Vec<u8>,
    /// How many bytes the low has, if they are at most eight.
    count: u8,
    /// Whether they are at most eight.
    short: bool,
}

impl Model for Entry {
    ghost use Rattle.std.specs.Prelude.{List, ℕ};

    ghost Value = { List ℕ };

    ghost use Rattle.bw_lows.specs.Packing.{low_of, IsEntry};

    ghost view = { low_of };

    ghost invariant = { IsEntry };
}

impl Entry {
    /// A low of at most eight bytes takes no memory; of a longer one a refusal is the only error.
    pub(crate) fn of(alloc: Global, low: &Key) -> Result<Entry, AllocError>
        ensures { IfOk result (λ entry. entry ≡ low.now) }
    {
        let first = low.head();
        let bytes = low.as_slice();
        if bytes.len() <= 8 {
            return Ok(Entry {
                first,
                whole: Vec::new(alloc),
                count: bytes.len() as u8,
                short: true,
            });
        }
        let whole = Vec::from_slice(alloc, bytes)?;
        Ok(Entry {
            first,
            whole,
            count: 0,
            short: false,
        })
    }

    /// The low in fixed room. No memory is taken.
    pub(crate) fn low(&self) -> Key
        ensures { result ≡ self.now }
    {
        if self.short {
            let first = bytes_of(self.first);
            key_of(&first[..usize::from(self.count)])
        } else {
            key_of(self.whole.as_slice())
        }
    }

    /// The head of what stands in the low after these bytes, if it begins with them.
    pub(crate) fn head_behind(&self, shared: &[u8]) -> Option<u64>
        ensures { IfSome result (λ h. IsHeadBehind shared.now self.now h) }
    {
        if self.short {
            let first = bytes_of(self.first);
            head_behind(&first[..usize::from(self.count)], shared)
        } else {
            head_behind(self.whole.as_slice(), shared)
        }
    }

    /// How a key compares with the low, by all their bytes.
    pub(crate) fn compare(&self, key: &Key) -> Ordering
        ensures { result ≡ order key.now self.now }
    {
        if self.short {
            let first = bytes_of(self.first);
            compare(key.as_slice(), &first[..usize::from(self.count)])
        } else {
            compare(key.as_slice(), self.whole.as_slice())
        }
    }

    /// Whether the low is above a key with this head.
    pub(crate) fn is_above(&self, start: u64, key: &Key) -> bool
        requires start { start ≡ head key.now }
        requires bytes { IsBytes key.now }
        ensures { result ≡ is_below key.now self.now }
    {
        if start < self.first {
            return true;
        }
        if start > self.first {
            return false;
        }
        self.compare(key) == Ordering::Less
    }
}

// A number's eight bytes, the highest first.
fn bytes_of(x: u64) -> [u8; 8]
    ensures { result ≡ eight_bytes x }
{
    x.to_be_bytes()
}

// The head of what stands after these bytes in a low, if it begins with them.
fn head_behind(low: &[u8], shared: &[u8]) -> Option<u64>
    ensures { IfSome result (λ h. IsHeadBehind shared.now low.now h) }
{
    match behind(low, shared) {
        Some(rest) => Some(head_of(rest)),
        None => None,
    }
}

// The key of these bytes.
fn key_of(bytes: &[u8]) -> Key
    requires least { 1 ≤ length bytes.now }
    requires most { length bytes.now ≤ 128 }
    ensures { result ≡ bytes.now }
{
    match Key::new(bytes) {
        Ok(key) => key,
        Err(_) => unreachable!(),
    }
}
