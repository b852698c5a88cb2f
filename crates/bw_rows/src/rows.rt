//! Rows: a value itself, or the number and the length of a long one.

ghost use Rattle.std.specs.Prelude.{◌≡◌, ◌+◌, ◌≤◌, ◌<◌, ◌∷◌, ◌++◌, None, Some, length, MatchOption};
ghost use Rattle.bw_rows.specs.Spelling as spelling;
ghost use Rattle.bw_rows.specs.Spelling.{head_of, head_row, same, whole_row};

use crate::names::Number;
use bw_record::Value;
use bw_record::limits::MAX_VALUE;
use std::cmp::Ordering;

const WHOLE: u8 = 0;

const HEAD: u8 = 1;

const NONE: u8 = 2;

/// What a row names: the number of a long value, and its length in bytes.
#[derive(Debug, Clone, Copy, PartialEq, Eq)]
pub struct Head {
    pub number: Number,
    pub len: u64,
}

// The row of a kind, and of what stands after it in two parts.
fn spelled(kind: u8, front: &[u8], back: &[u8]) -> Value
    requires { length front.now + length back.now < 512 }
    ensures { result ≡ kind ∷ (front.now ++ back.now) }
{
    let middle = 1 + front.len();
    let end = middle + back.len();
    let mut bytes = [0; MAX_VALUE];
    bytes[0] = kind;
    bytes[1..middle].copy_from_slice(front);
    bytes[middle..end].copy_from_slice(back);
    match Value::new(&bytes[..end]) {
        Ok(row) => row,
        Err(_) => unreachable!(),
    }
}

/// The row of a value that stands in it.
pub fn whole(value: &[u8]) -> Value
    requires { length value.now ≤ 511 }
    ensures { result ≡ whole_row value.now }
{
    spelled(WHOLE, value, &[])
}

/// The row aside of a row that goes away.
pub fn no_row() -> Value
    ensures { result ≡ spelling.no_row }
{
    spelled(NONE, &[], &[])
}

/// Whether a row aside takes its row away.
pub fn is_no_row(aside: &[u8]) -> bool
    ensures { result ≡ same aside.now spelling.no_row }
{
    let none: &[u8] = &[NONE];
    aside.cmp(&none) == Ordering::Equal
}

impl Head {
    /// The row of a long value.
    #[tactic(auto, using(crate::proofs::HeadLaws::head_named))]
    pub fn row(self) -> Value
        ensures row { result ≡ head_row self.number.bytes self.len }
        ensures names { head_of result ≡ Some (self.number.bytes, self.len) }
    {
        spelled(HEAD, &self.number.bytes, &Number::of(self.len).bytes)
    }

    /// What a row names; `None` if it is the value itself.
    pub fn read(row: &[u8]) -> Option<Head>
        ensures { MatchOption result (head_of row.now ≡ None)
            (λ head. head_of row.now ≡ Some (head.number.bytes, head.len)) }
    {
        if row.len() != 17 || row[0] != HEAD {
            return None;
        }
        let mut number = [0; 8];
        number.copy_from_slice(&row[1..9]);
        let mut len = [0; 8];
        len.copy_from_slice(&row[9..]);
        Some(Head {
            number: Number { bytes: number },
            len: Number { bytes: len }.value(),
        })
    }
}
