//! The subjects, each over a store of its own.

use crate::bare::{bare, bare_and_cold};
use crate::bench::Bench;
use crate::boxes::over_memory;
use crate::cleaning::cleaning;
use crate::folders::{appends, over_files};
use crate::options::Scope;
use crate::pages::pages;
use crate::steady::steady;
use crate::stop::Stop;
use bw_home::System;
use std::thread::Threads;

/// What is done with a store.
#[derive(Clone, Copy)]
pub struct Course {
    /// At most how many of the writers are in threads of their own; 0: the one writer is in the
    /// store's own thread.
    pub threads: u16,
    /// Whether records are flushed once, after all of them, and full frames are appended before;
    /// else after each batch. Only what was flushed is shown to readers.
    pub is_late: bool,
    /// Whether a reader in another thread is beside the writers.
    pub is_read: bool,
}

/// A course over a store, by a handle `R`.
#[derive(Drop)]
pub struct Subject<'b, R> {
    pub rt: &'b R,
    pub bench: &'b Bench,
    pub course: Course,
}

const ALONE: Course = Course {
    threads: 0,
    is_late: false,
    is_read: false,
};

const BESIDE: Course = Course {
    is_read: true,
    ..ALONE
};

const LATE: Course = Course {
    is_late: true,
    ..ALONE
};

const ONE: Course = Course {
    threads: 1,
    ..ALONE
};

const ONE_BESIDE: Course = Course {
    is_read: true,
    ..ONE
};

const MANY: Course = Course {
    threads: u16::MAX,
    ..ALONE
};

const MANY_BESIDE: Course = Course {
    is_read: true,
    ..MANY
};

#[derive(Clone, Copy)]
enum Work {
    Pages,
    Cleaning,
    Bare,
    Cold,
    Appends,
    Steady,
    Over(Course),
}

const SUBJECTS: &[(&str, Work)] = &[
    ("pages", Work::Pages),
    ("cleaning", Work::Cleaning),
    ("appends", Work::Appends),
    ("core", Work::Bare),
    ("cold", Work::Cold),
    ("alone", Work::Over(ALONE)),
    ("beside", Work::Over(BESIDE)),
    ("late", Work::Over(LATE)),
    ("one", Work::Over(ONE)),
    ("one-beside", Work::Over(ONE_BESIDE)),
    ("many", Work::Over(MANY)),
    ("many-beside", Work::Over(MANY_BESIDE)),
    ("steady", Work::Steady),
];

/// Whether the subject is run: appends and a steady folder are none if segments stand in memory.
fn is_asked(scope: Scope<'_>, name: &'static str, work: Work) -> bool {
    let is_there = scope.dir.is_some() || !matches!(work, Work::Appends | Work::Steady);
    is_there && scope.only.unwrap_or(name) == name
}

fn run_one<R: Threads + System>(
    rt: &R,
    bench: &Bench,
    dir: Option<&str>,
    name: &'static str,
    work: Work,
) -> Option<()> {
    match (work, dir) {
        (Work::Pages, _) => pages(bench),
        (Work::Cleaning, _) => cleaning(bench),
        (Work::Bare, _) => bare(bench),
        (Work::Cold, _) => bare_and_cold(bench),
        (Work::Appends, dir) => appends(bench, dir.unwrap_or(".")),
        (Work::Steady, dir) => steady(rt, bench, dir.unwrap_or("."), name),
        (Work::Over(course), Some(dir)) => over_files(rt, bench, course, dir, name),
        (Work::Over(course), None) => over_memory(rt, bench, course),
    }
}

/// Runs all subjects, or the one that is asked for.
pub fn run<R: Threads + System>(rt: &R, bench: &Bench, scope: Scope<'_>) -> Result<(), Stop> {
    bench.tell_sizes();
    for &(name, work) in SUBJECTS {
        if is_asked(scope, name, work) {
            bench.tell_name(name);
            bench.end(run_one(rt, bench, scope.dir, name, work))?;
        }
    }
    Ok(())
}
