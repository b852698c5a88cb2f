//! Writers in threads of their own.

ghost use Rattle.std.specs.Prelude.{◌≡◌, vec_len, IfSome};
ghost use Rattle.bw_bench.specs.Lent.{AreReady};

use crate::asking::read_back;
use crate::bench::Bench;
use crate::beside::{end_if, start_if};
use crate::report::Seen;
use crate::shape::{Part, Span};
use crate::subject::Subject;
use bw_codec::Record;
use bw_drive::{OpenGate, Plan, drive};
use bw_ring::{Feed, Group};
use bw_store::Store;
use std::alloc::{AllocError, Global};
use std::mem;
use std::sync::Wait;
use std::thread::Threads;

/// How often a writer tries to put a record, and how many turns a run has.
const TRIES: u64 = 1_000_000_000_000;

/// Each record as a group of one.
fn groups_of(alloc: Global, records: &[Record]) -> Result<Vec<Group>, AllocError> {
    let mut groups = Vec::with_capacity(alloc, records.len())?;
    for item in records {
        groups.push(Group::one(item.copy()))?;
    }
    Ok(groups)
}

/// The puts of each writer.
fn scripts_of(bench: &Bench, span: Span, writers: usize) -> Option<Vec<Vec<Group>>>
    ensures { IfSome result (λ scripts. vec_len scripts ≡ writers) }
{
    let mut scripts: Vec<Vec<Group>> = Vec::new(bench.alloc);
    'writers: for writer in 0..writers {
        let part = Part {
            writer: writer as u64,
            of: writers as u64,
        };
        let script = bench.options.shape().script(bench.alloc, span, part)?;
        let groups = groups_of(bench.alloc, script.as_slice()).ok()?;
        scripts.push(groups).ok()?;
    }
    Some(scripts)
}

impl<R: Threads + Wait> Subject<'_, R> {
    /// Runs the writers, and answers the nanoseconds.
    fn drive_span(&self, store: &mut Store, feeds: &mut Vec<Feed>, span: Span) -> Option<u64>
        requires { AreReady store.old feeds.old holding }
        ensures { AreReady store.new feeds.new holding }
    {
        let bench = self.bench;
        let plan = Plan {
            limit: u32::from(bench.options.batch).max(1),
            flush_every: 1,
            clean_at: 0,
            forgets: false,
        };
        let scripts = scripts_of(bench, span, feeds.len())?;
        let start = bench.now();
        let lent = mem::replace(feeds, Vec::new(bench.alloc));
        match drive(self.rt, store, lent, scripts, &OpenGate, plan, TRIES) {
            Ok(driven) => {
                *feeds = driven.feeds;
                Some(bench.since(start))
            }
            Err(fault) => {
                *feeds = fault.feeds;
                bench.refused(fault.cause)
            }
        }
    }

    /// Drives the puts of new keys and those of old ones, and answers the nanoseconds of each.
    fn drive_both(&self, store: &mut Store, feeds: &mut Vec<Feed>) -> Option<(u64, u64)>
        requires { AreReady store.old feeds.old holding }
        ensures { AreReady store.new feeds.new holding }
    {
        let (load, update) = self.bench.options.spans();
        let first = self.drive_span(store, feeds, load)?;
        let second = self.drive_span(store, feeds, update)?;
        Some((first, second))
    }

    /// Drives the puts of new keys and those of old ones, a reader beside or not: the nanoseconds
    /// of each, and what the reader saw.
    fn beside(&self, store: &mut Store, feeds: &mut Vec<Feed>) -> Option<(u64, u64, Option<Seen>)>
        requires { AreReady store.old feeds.old holding }
        ensures { AreReady store.new feeds.new holding }
    {
        let Subject { rt, bench, course } = *self;
        let looker = start_if(rt, bench, store, bench.options.puts(), course.is_read)?;
        let went = self.drive_both(store, feeds);
        let seen = end_if(rt, looker, went.is_some());
        let (first, second) = went?;
        Some((first, second, seen))
    }

    /// New keys, then old ones, and reads all keys back.
    pub fn driven(&self, store: &mut Store, feeds: &mut Vec<Feed>) -> Option<()>
        requires { AreReady store.old feeds.old holding }
        ensures { AreReady store.new feeds.new holding }
    {
        let bench = self.bench;
        let (first, second, seen) = self.beside(store, feeds)?;
        let (load, update) = bench.options.spans();
        bench.tell(load.name, load.count(), first);
        bench.tell(update.name, update.count(), second);
        bench.tell_seen(seen)?;
        read_back(bench, store, update.name, load.count(), update.to)
    }
}
