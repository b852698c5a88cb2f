//! Times of calls on tables, beside those of the store that they stand on, in memory.
//!
//! Keys of 8 bytes come in a scattered order, with values of 100 bytes, and each is read back.

use crate::meter::{Host, Meter};
use crate::subject::{Bench, Subject};
use anyhow::{Context, Result};
use bw_home::{Options, System, with_store_in_memory};

/// How many keys there are, if nobody says so.
const COUNT: u64 = 1_000;

/// How many segments of 16 MiB there are.
const SEGMENTS: u32 = 32;

const SUBJECTS: [(&'static str, Subject); 7] = [
    ("the store itself", Subject::Plain),
    ("a table without long values", Subject::Table),
    ("a table with a long value", Subject::TableWithLong),
    ("batches of 100", Subject::Batches(100)),
    ("batches of 1000", Subject::Batches(1_000)),
    ("long values", Subject::Long),
    ("openings", Subject::Openings),
];

// Runs all subjects, one after the other.
fn round<R: Host + System>(rt: &R, count: u64, meter: Meter) -> Result<()> {
    let options = Options {
        segments: SEGMENTS,
        ..Options::default()
    };
    'subjects: for (name, subject) in &SUBJECTS {
        println!(rt; "{name}")?;
        let bench = Bench {
            subject: *subject,
            count,
            meter,
        };
        with_store_in_memory(rt, &options, bench)??;
    }
    Ok(())
}

/// Runs what the words `COUNT ROUNDS` ask for: so many keys, and all subjects in turn so often,
/// with the processor time of this thread. Without them there is one round, of which no times are
/// printed.
pub fn measure<R: Host + System>(rt: &R, words: &[String]) -> Result<()> {
    let [count, rounds, ..] = words else {
        return round(rt, COUNT, Meter { is_timed: false });
    };
    let count = count.parse().context("COUNT")?;
    let rounds: u32 = rounds.parse().context("ROUNDS")?;
    'rounds: for _ in 0..rounds {
        round(rt, count, Meter { is_timed: true })?;
    }
    Ok(())
}
