//! What each subject is given: the system, what was asked for, and a clock; and where it says why
//! it goes no further.

ghost use Rattle.std.specs.Prelude.{IsNone};

use crate::options::Options;
use crate::stop::Stop;
use bw_file::FolderFault;
use bw_home::HomeFault;
use bw_store::StoreFault;
use std::alloc::Global;
use std::cell::Cell;
use std::fmt::Display;
use std::io;
use std::time::Instant;

/// The system and what was asked of the program. A subject that goes no further answers nothing,
/// and has said here why, but for want of memory, of which nobody speaks. A line that is not
/// written and a clock that is not read stop nothing at once: `end` reports them.
#[derive(Drop)]
pub struct Bench {
    pub system: HostRuntime,
    pub alloc: Global,
    pub options: Options,
    start: Instant,
    stop: Cell<Stop>,
    has_failed: Cell<bool>,
}

impl Bench {
    /// The clock begins here. A stop of which nobody speaks is for want of memory.
    pub fn new(system: HostRuntime, options: Options) -> io::Result<Bench> {
        Ok(Bench {
            system,
            alloc: system.alloc(),
            options,
            start: Instant::now(&system)?,
            stop: Cell::new(Stop::NoMemory),
            has_failed: Cell::new(false),
        })
    }

    /// Keeps in mind whether something was written.
    pub fn keep(&self, written: io::Result<()>) {
        if written.is_err() {
            self.has_failed.set(true);
        }
    }

    /// The nanoseconds since the run began; 0 if the clock fails.
    pub fn now(&self) -> u64 {
        match self.start.elapsed(&self.system) {
            Ok(time) => u64::try_from(time.as_nanos()).unwrap_or(u64::MAX),
            Err(_) => {
                self.has_failed.set(true);
                0
            }
        }
    }

    /// The nanoseconds since then.
    pub fn since(&self, start: u64) -> u64 {
        self.now().saturating_sub(start)
    }

    /// Says what is in the way, and that nothing more is done.
    pub fn stop<T>(&self, stop: Stop, what: impl Display + Copy + Drop) -> Option<T>
        ensures { IsNone result }
    {
        let written = eprintln!(self.system; "{what}");
        self.keep(written);
        self.stop.set(stop);
        None
    }

    /// Says what a store refuses, and that nothing more is done.
    pub fn refused<T>(&self, fault: StoreFault) -> Option<T>
        ensures { IsNone result }
    {
        match fault {
            StoreFault::NoMemory => None,
            other => self.stop(Stop::Refused, other),
        }
    }

    /// Says what a folder refuses, or a file in it, and that nothing more is done.
    pub fn not_opened<T>(&self, fault: FolderFault) -> Option<T>
        ensures { IsNone result }
    {
        match fault {
            FolderFault::NoMemory => None,
            other => self.stop(Stop::Refused, other),
        }
    }

    /// Says what a store in a folder refuses, and that nothing more is done.
    pub fn not_begun<T>(&self, fault: HomeFault) -> Option<T>
        ensures { IsNone result }
    {
        match fault {
            HomeFault::NoMemory => None,
            other => self.stop(Stop::Refused, other),
        }
    }

    /// What ends the run, if a subject answered this.
    pub fn end(&self, went: Option<()>) -> Result<(), Stop> {
        if self.has_failed.get() {
            return Err(Stop::System);
        }
        went.ok_or(self.stop.get())
    }
}
