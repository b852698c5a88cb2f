//! A store over segments, in memory or not.

ghost use Rattle.bw_bench.specs.Lent.{AreReady};

use crate::bench::Bench;
use crate::options::Options;
use crate::reopened::reopened;
use crate::segments::{CAPACITY, count_of, memory};
use crate::subject::{Course, Subject};
use bw_device::{Desk, Segment};
use bw_ring::Feed;
use bw_store::{Config, Store};
use std::sync::Wait;
use std::thread::Threads;

/// How many readers a store has places for.
pub const READERS: usize = 4;

/// How many writers a course has.
pub fn writers_of(options: Options, course: Course) -> usize {
    usize::from(course.threads.max(1).min(options.writers))
}

fn config_of(options: Options, course: Course) -> Config {
    Config {
        writers: writers_of(options, course),
        places: usize::from(options.batch),
        readers: READERS,
        m: 32,
        f: options.frame,
    }
}

impl<R: Threads + Wait> Subject<'_, R> {
    /// Runs the course.
    pub fn go(&self, store: &mut Store, feeds: &mut Vec<Feed>) -> Option<()>
        requires { AreReady store.old feeds.old holding }
        ensures { AreReady store.new feeds.new holding }
    {
        if self.course.threads == 0 {
            self.alone(store, feeds)
        } else {
            self.driven(store, feeds)
        }
    }
}

/// Runs the course over a store of these boxes, and gives the live ones back.
fn over<R: Threads + Wait>(
    rt: &R,
    bench: &Bench,
    course: Course,
    boxes: Vec<Box<dyn Segment>>,
) -> Option<Vec<Box<dyn Segment>>> {
    let config = config_of(bench.options, course);
    let (mut store, mut feeds) = match Store::open(rt, bench.alloc, &config, boxes) {
        Ok(opened) => opened,
        Err(fault) => return bench.refused(fault.cause),
    };
    let subject = Subject { rt, bench, course };
    let went = subject.go(&mut store, &mut feeds);
    let (live, _spares) = store.shut(rt);
    went?;
    Some(live)
}

/// Runs the course over these boxes, and then goes on from the live ones.
fn over_and_again<R: Threads + Wait>(
    rt: &R,
    bench: &Bench,
    course: Course,
    boxes: Vec<Box<dyn Segment>>,
) -> Option<()> {
    let live = over(rt, bench, course, boxes)?;
    reopened(rt, bench, bench.now(), live)
}

/// Runs the course over boxes of so many leases, and then goes on from the live ones. A function
/// that takes or gives a box, or a store, makes none.
fn over_leases<R: Threads + Wait>(
    rt: &R,
    bench: &Bench,
    course: Course,
    desk: &mut Desk,
    many: u32,
) -> Option<()> {
    let mut boxes: Vec<Box<dyn Segment>> = Vec::new(bench.alloc);
    for _ in 0..many {
        boxes.push(memory(bench.alloc, desk, CAPACITY, &[])?).ok()?;
    }
    over_and_again(rt, bench, course, boxes)
}

/// Runs the course over segments in memory, and then goes on from the live ones.
pub fn over_memory<R: Threads + Wait>(rt: &R, bench: &Bench, course: Course) -> Option<()> {
    let many = count_of(bench.options);
    let mut desk = Desk::new(bench.alloc, many).ok()?;
    over_leases(rt, bench, course, &mut desk, many)
}
