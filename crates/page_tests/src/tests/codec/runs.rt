// Runs of bytes, which their owners share.

use bw_run::Run;
use std::alloc::Global;
use test_kit::tables::{Row, WrongRow, rows_go};
use test_kit::vectors::{behind, is_at_end};

/// Runs, and what is asked of them.
enum Runs {
    /// How many bytes two parts have, and whether there is a run of one byte and both.
    Made(usize, usize, bool),
    /// So many owners read the same bytes, while the run's maker and half of them are gone, and
    /// while other runs take the room that these would leave.
    Shared(usize),
}

use Runs::{Made, Shared};

/// Whether a run has this byte, and after it the bytes of both.
fn has(run: &Run, head: u8, first: &[u8], second: &[u8]) -> bool {
    let parts = behind(behind(Some(run.as_slice()), &[head]), first);
    is_at_end(behind(parts, second))
}

/// Whether there is a run of a byte and both, as expected.
fn is_made(alloc: Global, first: &[u8], second: &[u8], told: bool) -> bool {
    match Run::of_parts(alloc, 7, first, second) {
        Ok(run) => told && has(&run, 7, first, second),
        Err(_) => !told,
    }
}

fn made_goes(alloc: Global, first: usize, second: usize, told: bool) -> bool {
    let lower = [0x61; 65_535];
    let upper = [0x41; 65_535];
    match (lower.get(..first), upper.get(..second)) {
        (Some(first), Some(second)) => is_made(alloc, first, second, told),
        _ => false,
    }
}

/// So many owners of one run, whose maker is gone.
fn owners_of(alloc: Global, run: Run, count: usize) -> Option<Vec<Run>> {
    let Ok(mut owners) = Vec::with_capacity(alloc, count) else {
        return None;
    };
    for _ in 0..count {
        owners.push(run.share().ok()?).ok()?;
    }
    Some(owners)
}

fn owners(alloc: Global, head: u8, first: &[u8], second: &[u8], count: usize) -> Option<Vec<Run>> {
    match Run::of_parts(alloc, head, first, second) {
        Ok(run) => owners_of(alloc, run, count),
        Err(_) => None,
    }
}

/// Whether each of these runs has this byte, and after it the bytes of both.
fn all_have(runs: &[Run], head: u8, first: &[u8], second: &[u8]) -> bool {
    for run in runs {
        if !has(run, head, first, second) {
            return false;
        }
    }
    true
}

fn shared_goes(alloc: Global, count: usize) -> Option<bool> {
    let mut half = owners(alloc, 3, b"key", b"value", count)?;
    half.truncate(count - count / 2);
    let others = owners(alloc, 5, b"other", b"bytes", count)?;
    Some(all_have(&half, 3, b"key", b"value") && all_have(&others, 5, b"other", b"bytes"))
}

impl Row for Runs {
    fn goes(&self, alloc: Global) -> Option<bool> {
        match self {
            Made(first, second, told) => Some(made_goes(alloc, *first, *second, *told)),
            Shared(count) => shared_goes(alloc, *count),
        }
    }
}

const LENGTHS: &[Runs] = &[
    Made(0, 0, true),
    Made(1, 0, true),
    Made(0, 1, true),
    Made(128, 512, true),
    Made(65_534, 0, true),
    Made(0, 65_534, true),
    Made(32_767, 32_767, true),
    Made(65_535, 0, false),
    Made(0, 65_535, false),
    Made(32_768, 32_767, false),
    Made(65_535, 65_535, false),
];

#[test]
fn runs_have_1_to_65535_bytes(rt: HostRuntime) -> Result<(), WrongRow> {
    rows_go(rt.alloc(), LENGTHS)
}

const OWNERS: &[Runs] = &[
    Shared(1),
    Shared(2),
    Shared(3),
    Shared(1_000),
    Shared(100_000),
];

#[test]
fn owners_read_the_same_bytes_while_one_is_left(rt: HostRuntime) -> Result<(), WrongRow> {
    rows_go(rt.alloc(), OWNERS)
}
