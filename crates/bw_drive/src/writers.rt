//! A writer puts the groups of its script into its feed, in a thread of its own.

ghost use Rattle.std.specs.Prelude.{◌≡◌, ◌≤◌, ◌++◌, length, take, MatchBool};
ghost use Rattle.bw_ring.specs.Ends.{accepted, ring_of_feed};
ghost use Rattle.bw_ring.specs.Marks.{marked, joined};
ghost use Rattle.bw_drive.specs.Written.{IsWritten};

use crate::flags::Flags;
use crate::gate::Gate;
use bw_ring::{Feed, FullGroup, Group};
use std::snapshot::Snapshot;
use std::thread;
use std::thread::{Promise, PromisedHandle};

/// What a writer begins with.
#[derive(Drop)]
pub(crate) struct Job {
    pub(crate) feed: Feed,
    pub(crate) script: Vec<Group>,
}

/// What a writer leaves: its feed, and how many records of its script the feed accepted.
#[derive(Drop)]
pub(crate) struct Written {
    pub(crate) feed: Feed,
    pub(crate) accepted: u64,
}

/// The writer of this job leaves its feed with the first records of the script in it.
#[derive(Drop)]
pub(crate) struct Puts(pub(crate) Snapshot<Job>);

impl Promise<Written> for Puts {
    ghost kept_by = { λ p w. IsWritten p.0.value w };
}

/// A writer that ran in the caller's thread.
#[derive(Drop)]
pub(crate) struct Ended {
    pub(crate) job: Snapshot<Job>,
    pub(crate) written: Written,
    ghost kept: { IsWritten job.value written },
}

/// A writer in a thread of its own, or one that has ended.
#[derive(Drop)]
pub(crate) enum Writer {
    Away(PromisedHandle<Written, Puts>),
    Here(Ended),
}

// Whether the feed accepted the group within so many tries. No try is made once all are stopped.
fn is_put(feed: &mut Feed, group: Group, flags: &Flags, max_tries: u64) -> bool
    ensures ring { ring_of_feed feed.new ≡ ring_of_feed feed.old }
    ensures put { MatchBool result (accepted feed.new ≡ accepted feed.old ++ marked group)
        (accepted feed.new ≡ accepted feed.old) }
{
    let mut group = group;
    'tries: for _ in 0..max_tries {
        if flags.is_stopped() {
            return false;
        }
        match feed.put_group(group) {
            Ok(()) => return true,
            Err(FullGroup(back)) => {
                group = back;
                thread::yield_now();
            }
        }
    }
    false
}

// How many records were accepted before a group was not.
fn put_script<G: Gate>(
    feed: &mut Feed,
    script: &[Group],
    writer: usize,
    gate: &G,
    flags: &Flags,
    max_tries: u64,
) -> u64
    ensures ring { ring_of_feed feed.new ≡ ring_of_feed feed.old }
    ensures accepted { accepted feed.new ≡ accepted feed.old ++ take result (joined script.now) }
    ensures within { result ≤ length (joined script.now) }
{
    let mut done: u64 = 0;
    'groups: for (index, group) in script.iter().enumerate() {
        // No script has more records than a number counts.
        let Some(more) = done.checked_add(group.len() as u64) else {
            return done;
        };
        // A writer that is asked to stop does not wait at the gate.
        if flags.is_stopped() {
            return done;
        }
        gate.before(writer, index as u64);
        let passed = is_put(feed, group.copy(), flags, max_tries);
        gate.after(writer, index as u64);
        if !passed {
            return done;
        }
        done = more;
    }
    done
}

/// Puts the script's groups, and says at the end that one writer more has ended.
pub(crate) fn put_all<G: Gate>(
    job: Job,
    writer: usize,
    gate: &G,
    flags: &Flags,
    max_tries: u64,
) -> Written
    ensures { IsWritten job result }
{
    let Job { mut feed, script } = job;
    let accepted = put_script(&mut feed, script.as_slice(), writer, gate, flags, max_tries);
    flags.end();
    Written { feed, accepted }
}
