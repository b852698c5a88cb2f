//! Runs a script of calls on tables over a folder: for the crash cases of `make crash`, which stop
//! such a run, and look at what it leaves.
//!
//!     bw_tabled DIR SEGMENTS CAPACITY PAIRS < SCRIPT
//!
//! A new folder has so many segments, each with room for so many bytes, and so many pairs a page at
//! most. `request_of` says what a line may ask. Each is answered by `ok`, or by `refused` and why.
//!
//!     bw_tabled --times [COUNT ROUNDS]
//!
//! Runs such calls in memory, and prints their times (`times`).
#![tactic(auto)]

mod meter;
mod pairs;
mod request;
mod run;
mod subject;
mod times;

use anyhow::{Context, Result};
use bw_home::{Options, System, with_store_in_legs};
use run::Run;
use std::io::{BufRead, BufReader};
use times::measure;

// The lines of the standard input.
fn lines_of(rt: &(impl Input + AllocGlobal)) -> Result<Vec<String>> {
    let mut lines = Vec::new(rt.alloc());
    'lines: for line in BufReader::new(rt.alloc(), rt.reader())?.lines(rt.alloc()) {
        lines.push(line?)?;
    }
    Ok(lines)
}

// Runs the lines over the folder that the words name.
fn start<R: System + Print>(rt: &R, words: &[String], lines: &[String]) -> Result<()> {
    let [_, folder, segments, capacity, pairs, ..] = words else {
        anyhow::bail!("bw_tabled DIR SEGMENTS CAPACITY PAIRS, or --times [COUNT ROUNDS]");
    };
    let options = Options {
        segments: segments.parse().context("SEGMENTS")?,
        capacity: capacity.parse().context("CAPACITY")?,
        pairs_a_page: pairs.parse().context("PAIRS")?,
        ..Options::default()
    };
    let mut run = Run::new(rt.alloc(), lines);
    with_store_in_legs(rt, folder.as_str(), &options, &mut run)?
}

fn main(rt: HostRuntime) -> Result<()> {
    let mut words = Vec::new(rt.alloc());
    'words: for word in std::env::args(&rt)? {
        words.push(word)?;
    }
    if let [_, option, asked @ ..] = words.as_slice()
        && option.as_str() == "--times"
    {
        return measure(&rt, asked);
    }
    let lines = lines_of(&rt)?;
    start(&rt, words.as_slice(), lines.as_slice())
}
