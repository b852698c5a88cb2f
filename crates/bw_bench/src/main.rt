//! Times of the page store, and whether each key reads back as it was last put.
//!
//! `bw_bench` runs the subjects of `subject` one after the other, each over a store of its own, and
//! prints what each did and what it read back. With `--times` it also prints nanoseconds and bytes,
//! and with `--dir` its segments stand in files. Keys are 8 bytes, after those that all share, and
//! come in a scattered order; `shape` says which key and value each put has. A `Bench` is what each
//! subject is given: the system, the options and a clock. By it a subject prints counts and times,
//! and why it goes no further.
#![tactic(auto)]

mod alone;
mod asking;
mod bare;
mod batches;
mod bench;
mod beside;
mod boxes;
mod chances;
mod cleaning;
mod cold;
mod cost;
mod driven;
mod folders;
mod mixed;
mod options;
mod pages;
mod reads;
mod reopened;
mod report;
mod rounds;
mod segments;
mod shape;
mod steady;
mod stop;
mod subject;
mod walks;
mod watch;

use bench::Bench;
use bw_home::System;
use clap::Error;
use options::{is_memory, options_of};
use std::io;
use std::process::ExitCode;
use std::thread::Threads;
use stop::Stop;
use subject::run;

/// The words after the program's name.
fn words_of(system: HostRuntime) -> io::Result<Vec<String>> {
    let mut words = Vec::new(system.alloc());
    for word in std::env::args(&system)?.skip(1) {
        words.push(word)?;
    }
    Ok(words)
}

/// Says why words are no command line.
fn usage(system: HostRuntime, error: &Error) -> Stop {
    if is_memory(error) {
        return Stop::NoMemory;
    }
    match eprintln!(system; "{error}\nsee --help") {
        Ok(()) => Stop::Usage,
        Err(_) => Stop::System,
    }
}

/// Does what the words after the program's name ask for. The handle by which it may wait is given
/// by itself: only `main` knows that the system is one.
fn start<R: Threads + System>(rt: &R, system: HostRuntime, words: &[String]) -> Result<(), Stop> {
    let (options, scope) = match options_of(system.alloc(), words) {
        Ok(asked) => asked,
        Err(error) => return Err(usage(system, &error)),
    };
    match Bench::new(system, options) {
        Ok(bench) => run(rt, &bench, scope),
        Err(_) => Err(Stop::System),
    }
}

/// Exit status 0; 1 if a key read back otherwise than it was put; 2 if the words are no command
/// line; 4 if something was refused; 5 if memory was; 6 if a thread failed, or, at the end of the
/// subject, if the clock or a write had.
fn main(rt: HostRuntime) -> ExitCode {
    let Ok(words) = words_of(rt) else {
        return ExitCode::from(2);
    };
    match start(&rt, rt, words.as_slice()) {
        Ok(()) => ExitCode::from(0),
        Err(stop) => {
            if matches!(stop, Stop::NoMemory) {
                let _ = rt.eprintln("out of memory");
            }
            ExitCode::from(stop.status())
        }
    }
}
