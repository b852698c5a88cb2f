//! Writers are started, each in a thread of its own, and waited for.

ghost use Rattle.std.specs.Prelude.{◌≡◌, ◌≤◌, [], length, map};
ghost use Rattle.std.specs.Vec.{vec_capacity};
ghost use Rattle.bw_ring.specs.Ends.{accepted, ring_of_feed};
ghost use Rattle.bw_drive.specs.Written.{IsWritten, after_scripts, AreWithin, texts, ring_of_job, given_before, script_of};
ghost use Rattle.bw_drive.specs.Pending.{job_of};

use crate::flags::Flags;
use crate::gate::Gate;
use crate::writers::{Ended, Job, Puts, Writer, Written, put_all};
use bw_ring::{Feed, Group};
use std::collections::VecDeque;
use std::snapshot::Snapshot;
use std::thread::{Scope, Threads};

fn here(job: Snapshot<Job>, written: Written) -> Writer
    requires { IsWritten job.value written }
    ensures { job_of result ≡ job.value }
{
    Writer::Here(Ended { job, written })
}

// Starts a writer; `false` if no thread could be made. Then all are asked to stop, and this one
// ends here, before its first put.
fn start_one<'s, E, G: Gate>(
    scope: &Scope<'s, E>,
    job: Job,
    writer: usize,
    gate: &'s G,
    flags: &'s Flags,
    max_tries: u64,
) -> (Writer, bool)
    ensures { job_of result.0 ≡ job }
{
    let was = Snapshot::of(&job);
    let promise = Puts(Snapshot::of(&job));
    match scope.spawn_with(
        promise,
        move || put_all(job, writer, gate, flags, max_tries),
    ) {
        Ok(handle) => (Writer::Away(handle), true),
        Err(refused) => {
            flags.stop();
            let written = (refused.value)();
            (here(was, written), false)
        }
    }
}

/// Starts a writer for each feed, by the script of its place; `false` if not each has a thread.
pub(crate) fn start_all<'s, E, G: Gate>(
    scope: &Scope<'s, E>,
    feeds: Vec<Feed>,
    scripts: Vec<Vec<Group>>,
    writers: Vec<Writer>,
    gate: &'s G,
    flags: &'s Flags,
    max_tries: u64,
) -> (Vec<Writer>, bool)
    requires count { length scripts.items ≡ length feeds.items }
    requires empty { writers.items ≡ [] }
    requires room { length feeds.items ≤ vec_capacity writers }
    ensures count { length result.0.items ≡ length feeds.items }
    ensures rings { map ring_of_job (map job_of result.0.items) ≡ map ring_of_feed feeds.items }
    ensures given { map given_before (map job_of result.0.items) ≡ map accepted feeds.items }
    ensures scripts { map script_of (map job_of result.0.items) ≡ texts scripts.items }
{
    let mut feeds = VecDeque::from_vec(feeds);
    let mut scripts = VecDeque::from_vec(scripts);
    let mut writers = writers;
    let mut all = true;
    'starts: while let Some(feed) = feeds.pop_front() {
        let Some(script) = scripts.pop_front() else {
            unreachable!();
        };
        let number = writers.len();
        let job = Job { feed, script };
        let (writer, is_away) = start_one(scope, job, number, gate, flags, max_tries);
        all = all && is_away;
        writers.push_reserved(writer);
    }
    (writers, all)
}

// Waits for a writer to end.
fn end_one<R: Threads>(rt: &R, writer: Writer) -> Written
    ensures { IsWritten (job_of writer) result }
{
    match writer {
        Writer::Away(handle) => handle.join(rt),
        Writer::Here(Ended { job: _, written }) => written,
    }
}

/// Waits for all writers to end: their feeds, and how many records each accepted.
pub(crate) fn end_all<R: Threads>(
    rt: &R,
    writers: Vec<Writer>,
    feeds: Vec<Feed>,
    counts: Vec<u64>,
) -> (Vec<Feed>, Vec<u64>)
    requires feeds { (feeds.items ≡ []) × (length writers.items ≤ vec_capacity feeds) }
    requires counts { (counts.items ≡ []) × (length writers.items ≤ vec_capacity counts) }
    ensures rings { map ring_of_feed result.0.items ≡ map ring_of_job (map job_of writers.items) }
    ensures accepted { map accepted result.0.items
        ≡ after_scripts (map given_before (map job_of writers.items))
        (map script_of (map job_of writers.items)) result.1.items }
    ensures within { AreWithin (map script_of (map job_of writers.items)) result.1.items }
{
    let mut writers = VecDeque::from_vec(writers);
    let mut feeds = feeds;
    let mut counts = counts;
    'ends: while let Some(writer) = writers.pop_front() {
        let Written { feed, accepted } = end_one(rt, writer);
        feeds.push_reserved(feed);
        counts.push_reserved(accepted);
    }
    (feeds, counts)
}
