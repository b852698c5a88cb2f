//! Work on a terminal: one line that is written over, once the whole has taken a second; and lines
//! of what happens to a store, wherever standard error goes.

use crate::amount::Amount;
use crate::event::{Event, Hearing};
use crate::moment::now;
use crate::noting::Noting;
use crate::watch::{Watch, Work};
use std::alloc::Global;
use std::fmt::{self, Display, Formatter};
use std::fs::{self, File};
use std::io::{IsTerminal, Write};
use std::rt::Files;
use std::time::Clock;

/// After so many milliseconds a line is shown.
const PATIENCE: u64 = 1_000;

/// So many milliseconds stand between two lines at least.
const PAUSE: u64 = 200;

/// Of one refusal no more than a line is shown in so many milliseconds.
const QUIET: u64 = 1_000;

/// Work of which nothing is said before its end takes a second if it goes over so many bytes: its
/// line is shown before.
const SLOW: u64 = 33_554_432;

/// How far work is.
#[derive(Debug, Clone, Copy)]
struct Far {
    work: Work,
    done: u64,
    /// 0 if that is not known.
    all: u64,
    /// For how many milliseconds it has gone on.
    took: u64,
}

impl Far {
    fn amount(&self, count: u64) -> Amount {
        Amount {
            count,
            unit: self.work.unit(),
        }
    }

    /// How much is done in a second.
    fn rate(&self) -> u64 {
        self.done.saturating_mul(1_000) / self.took.max(1)
    }

    /// How many seconds the rest takes, at this rate.
    fn left(&self) -> u64 {
        self.all.saturating_sub(self.done) / self.rate().max(1)
    }
}

impl Display for Far {
    fn fmt<W: fmt::Write>(&self, f: &mut Formatter<W>) -> fmt::Result {
        if self.done == 0 {
            return write!(f, "{}: {}", self.work, self.amount(self.all));
        }
        write!(f, "{}: {}", self.work, self.amount(self.done))?;
        if self.all > 0 {
            write!(f, " of {}", self.amount(self.all))?;
        }
        write!(f, ", {} a second", self.amount(self.rate()))?;
        if self.all > 0 {
            write!(f, ", {} s left", self.left())?;
        }
        Ok(())
    }
}

/// What is said of work on standard error.
#[derive(Drop)]
pub struct Progress<'a, R, E> {
    rt: &'a R,
    /// The folder that is named with a segment that was added, if there is one.
    dir: Option<&'a str>,
    errors: &'a mut E,
    /// Whether standard error is a terminal.
    is_seen: bool,
    /// Whether what is listed goes elsewhere.
    lists: bool,
    /// When it all began, in milliseconds.
    begun: u64,
    /// The work of the last call, and when it began.
    work: Option<Work>,
    since: u64,
    /// When the line was written that stands, if one does.
    told: Option<u64>,
    /// Which events are written.
    hearing: Hearing,
    /// When the numbers of a store are due, in milliseconds.
    due: u64,
    /// The refusal that was written last, and when, in milliseconds.
    refused: Option<(u64, u64)>,
    /// The times of frames.
    noting: Noting<'a>,
}

/// How many milliseconds a clock shows.
fn millis<R: Clock>(rt: &R) -> u64 {
    match rt.monotonic() {
        Ok(time) => time
            .as_secs()
            .saturating_mul(1_000)
            .saturating_add(u64::from(time.subsec_millis())),
        Err(_) => 0,
    }
}

/// How many milliseconds stand between two lines of numbers.
fn pause_of(hearing: Hearing) -> u64 {
    u64::from(hearing.every).saturating_mul(1_000)
}

impl<'a, R: AllocGlobal + Clock, E: Write + IsTerminal> Progress<'a, R, E> {
    /// Nothing was shown yet. If what is listed goes to a terminal, too, that is all that is shown
    /// of a listing.
    pub fn new(
        rt: &'a R,
        dir: Option<&'a str>,
        errors: &'a mut E,
        is_shown: bool,
    ) -> Progress<'a, R, E> {
        let is_seen = errors.is_terminal();
        Progress {
            rt,
            dir,
            errors,
            is_seen,
            lists: !is_shown,
            begun: if is_seen { millis(rt) } else { 0 },
            work: None,
            since: 0,
            told: None,
            hearing: Hearing::NOTHING,
            due: 0,
            refused: None,
            noting: Noting::new(dir),
        }
    }

    /// Writes these events, too, from now on.
    pub fn hearing(self, hearing: Hearing) -> Progress<'a, R, E> {
        let now = if hearing.every > 0 {
            millis(self.rt)
        } else {
            0
        };
        Progress {
            hearing,
            due: now.saturating_add(pause_of(hearing)),
            ..self
        }
    }

    /// Passes over a refusal that was written a moment ago; whether it is one. Any other event is
    /// none.
    fn pass_over(&mut self, event: &Event<'_>) -> bool {
        if event.name != Event::REFUSED {
            return false;
        }
        let which = event.numbers.first().map_or(0, |number| number.1);
        let now = millis(self.rt);
        let is_told = match self.refused {
            Some((last, when)) => last == which && now.saturating_sub(when) < QUIET,
            None => false,
        };
        if !is_told {
            self.refused = Some((which, now));
        }
        is_told
    }

    /// Whether an event is one of those that are written.
    fn hears(&self, event: &Event<'_>) -> bool {
        self.hearing.all || (event.name == Event::NUMBERS && self.hearing.every > 0)
    }

    /// Whether a line is due at this time, of work that is new or not.
    fn is_due(&self, far: &Far, now: u64, is_new: bool) -> bool {
        match self.told {
            Some(told) => is_new || now.saturating_sub(told) >= PAUSE,
            None => {
                now.saturating_sub(self.begun) >= PATIENCE || (far.done == 0 && far.all >= SLOW)
            }
        }
    }

    /// Writes a line over the one that stands. What cannot be written is no loss.
    fn write(&mut self, far: &Far) {
        if let Ok(line) = format!(in self.rt.alloc(); "\r{far}\u{1b}[K") {
            let _ = self.errors.write_all(line.as_bytes());
        }
    }
}

impl<R: AllocGlobal + Clock + Files<File = File>, E: Write + IsTerminal> Watch
    for Progress<'_, R, E> {
    fn is_seen(&self) -> bool {
        self.is_seen
    }

    fn see(&mut self, work: Work, done: u64, all: u64) {
        if !self.is_seen {
            return;
        }
        if work == Work::Listing && !self.lists {
            self.rest();
            return;
        }
        let now = millis(self.rt);
        let is_new = self.work != Some(work);
        if is_new {
            self.work = Some(work);
            self.since = now;
        }
        let far = Far {
            work,
            done,
            all,
            took: now.saturating_sub(self.since),
        };
        if self.is_due(&far, now, is_new) {
            self.write(&far);
            self.told = Some(now);
        }
    }

    fn added(&mut self, segments: u32) {
        self.rest();
        let _ = match self.dir {
            Some(dir) => writeln!(
                self.errors,
                "folder {dir}: a segment was added, {segments} in all",
            ),
            None => writeln!(self.errors, "a segment was added, {segments} in all"),
        };
    }

    fn filling(&mut self, segments: u32, most: u32) {
        self.rest();
        let _ = match self.dir {
            Some(dir) => writeln!(
                self.errors,
                "folder {dir}: the log uses {segments} segments of {most} at most",
            ),
            None => writeln!(
                self.errors,
                "the log uses {segments} segments of {most} at most"
            ),
        };
    }

    // The one place where events are written: a line each, in one piece.
    fn happened(&mut self, event: &Event<'_>) {
        if !self.hears(event) || self.pass_over(event) {
            return;
        }
        self.rest();
        let moment = now(self.rt);
        if let Ok(line) = format!(in self.rt.alloc(); "{moment} {event}\n") {
            let _ = self.errors.write_all(line.as_bytes());
        }
    }

    fn take_due(&mut self) -> bool {
        if self.hearing.every == 0 {
            return false;
        }
        let now = millis(self.rt);
        if now < self.due {
            return false;
        }
        self.due = now.saturating_add(pause_of(self.hearing));
        true
    }

    fn durable(&mut self, frame: u64) {
        self.noting.durable(self.rt, frame);
    }

    fn closing(&mut self, frame: u64) {
        self.noting.closing(self.rt, frame);
    }

    fn rest(&mut self) {
        if self.told.is_some() {
            let _ = self.errors.write_all(b"\r\x1b[K");
            self.told = None;
        }
    }
}

/// How many bytes the file of this lease has in a folder; 0 if it cannot be looked at.
fn file_bytes<R: AllocGlobal + Files>(rt: &R, path: &str, lease: u32) -> u64 {
    let Ok(name) = format!(in rt.alloc(); "{path}/segment-{lease:04}.bw") else {
        return 0;
    };
    match fs::metadata(rt, name.as_str()) {
        Ok(found) => found.len(),
        Err(_) => 0,
    }
}

/// How many bytes the files of so many leases have in a folder, if somebody hears of it.
pub fn folder_bytes<R: AllocGlobal + Files, W: Watch>(
    rt: &R,
    path: &str,
    leases: u32,
    watch: &W,
) -> u64 {
    let mut bytes = 0u64;
    if watch.is_seen() {
        for lease in 0..leases {
            bytes = bytes.saturating_add(file_bytes(rt, path, lease));
        }
    }
    bytes
}

/// How many bytes standard input has, if it is a file and somebody hears of it; else 0.
pub fn input_bytes<R: Files, W: Watch>(rt: &R, watch: &W) -> u64 {
    if !watch.is_seen() {
        return 0;
    }
    match fs::metadata(rt, "/dev/stdin") {
        Ok(found) if found.is_file() => found.len(),
        _ => 0,
    }
}
