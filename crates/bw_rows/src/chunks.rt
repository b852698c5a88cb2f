//! Long values, cut into chunks.

ghost use Rattle.std.specs.Prelude.{◌≡◌, ◌*◌, ◌≤◌, ◌^◌, ◌<◌, length, take};
ghost use Rattle.bw_rows.specs.Spelling.{chunk_of, chunks_in};

use crate::limits::CHUNK;
use bw_record::Value;

/// How many chunks a value of this length has. None of them is empty: 1,024 bytes are two.
pub fn chunk_count(len: u64) -> u64
    requires { len ≤ 2 ^ 32 }
    ensures { result ≡ chunks_in len }
{
    (len + (CHUNK as u64 - 1)) / CHUNK as u64
}

// The first chunk of what is left of a value.
fn first(rest: &[u8]) -> &[u8]
    ensures value { result.now ≡ take 512 rest.now }
    ensures few { length result.now ≤ 512 }
{
    if rest.len() < CHUNK {
        rest
    } else {
        &rest[..CHUNK]
    }
}

/// A chunk of a value; the first is 0.
pub fn chunk(value: &[u8], i: u32) -> Value
    requires { 512 * i ≤ length value.now }
    ensures { result ≡ chunk_of value.now i }
{
    match Value::new(first(&value[CHUNK * i as usize..])) {
        Ok(chunk) => chunk,
        Err(_) => unreachable!(),
    }
}
