//! How many bytes a call adds to the log at most, so that room is made for it before.

use bw_rows::chunk_count;

/// More than a record adds to the log with its own bytes, if none of those that follow it in the
/// order of keys comes at once: a page that it splits is written again by half.
const RECORD: u64 = 24_576;

/// More than a chunk adds. Those of a value come in the order of their keys, so a split comes after
/// half a page of them, and each is written twice at most.
const CHUNK: u64 = 1_664;

/// More than the delete of a chunk adds, with the bytes of its key.
const DELETE: u64 = 128;

/// More than a row adds that goes away with its table.
const ROW: u64 = 256;

/// More than is added for what it names, beside the chunks: a mark that comes and goes, and the
/// number that is free then.
const NAMED: u64 = 2_048;

/// How many chunks the longest value has.
const MOST_CHUNKS: u64 = 32_768;

/// What a step adds beside what goes away with it: its row, and the marks of two numbers.
pub const STEP: u64 = 4 * RECORD;

/// What goes away with the longest value.
pub const OLD: u64 = MOST_CHUNKS * DELETE;

/// A put of a value with so many bytes, over the longest one.
pub fn of_put(len: usize) -> u64 {
    let chunks = chunk_count((len as u64).min(1 << 32));
    let chunks = chunks.saturating_mul(CHUNK);
    STEP.saturating_add(chunks).saturating_add(OLD)
}

/// A row that goes away with its table, and a value of so many bytes that it names.
pub fn of_row(len: u64) -> u64 {
    if len == 0 {
        return ROW;
    }
    let chunks = chunk_count(len.min(1 << 32));
    (ROW + NAMED).saturating_add(chunks.saturating_mul(DELETE))
}
