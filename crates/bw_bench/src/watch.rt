//! Progress, and how much memory the process has.

use crate::bench::Bench;
use std::fs;

/// How often a loop over single calls looks at the clock: every so many.
const LOOKS: u64 = 4096;

/// Says on standard error how far a subject is, once for each second that it takes.
#[derive(Clone, Copy)]
pub struct Meter {
    name: &'static str,
    all: u64,
    start: u64,
    told: u64,
}

impl Meter {
    /// One of a subject that has so much to do, from now on.
    pub fn start(bench: &Bench, name: &'static str, all: u64) -> Meter {
        Meter {
            name,
            all,
            start: bench.now(),
            told: 0,
        }
    }

    /// The nanoseconds since the start.
    pub fn nanos(self, bench: &Bench) -> u64 {
        bench.since(self.start)
    }

    /// Says that so much is done, if another second has gone.
    pub fn tell(&mut self, bench: &Bench, done: u64) {
        let Meter { name, all, .. } = *self;
        let seconds = self.nanos(bench) / 1_000_000_000;
        if seconds > self.told {
            self.told = seconds;
            let written = eprintln!(bench.system; "{name}: {done} of {all}, {seconds} s");
            bench.keep(written);
        }
    }

    /// Says that so much is done, if another second has gone, at only some of the calls.
    pub fn tell_some(&mut self, bench: &Bench, done: u64) {
        if done % LOOKS == 0 {
            self.tell(bench, done);
        }
    }
}

/// The number in a line as `VmRSS:  1234 kB`.
fn number_in(line: &str) -> u64 {
    let mut number = 0u64;
    for byte in line.as_bytes() {
        if byte.is_ascii_digit() {
            number = number
                .saturating_mul(10)
                .saturating_add(u64::from(byte.saturating_sub(b'0')));
        }
    }
    number
}

/// How many bytes a process has in memory, by the lines of its status.
fn resident_in(status: &str) -> u64 {
    for line in status.lines() {
        if line.starts_with("VmRSS") {
            return number_in(line).saturating_mul(1024);
        }
    }
    0
}

/// How many bytes of the process are in memory, as Linux says; 0 if it does not.
pub fn resident(bench: &Bench) -> u64 {
    match fs::read_to_string(&bench.system, "/proc/self/status") {
        Ok(status) => resident_in(status.as_str()),
        Err(_) => 0,
    }
}
