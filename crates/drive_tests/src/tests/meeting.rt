//! Writers run at once, and each group passes the gate.

use super::scripts::{Part, Sizes};
use super::steps::Step::{Drives, Reads, Splits};
use super::steps::{MANY, Pace, Run};
use super::walking::{PLAIN, Table, walked};
use bw_drive::{Gate, MeetGate};
use std::alloc::Global;
use std::sync::Wait;
use std::sync::atomic::{AtomicBool, AtomicU64, Ordering};
use std::thread::Threads;

const PACE: Pace = Pace(64, 4, 3, MANY);

/// Two writers of 300 records each.
const HUNDREDS: Table = Table {
    name: "hundreds",
    boxes: 32,
    steps: &[
        Drives(Run(Part(0, 300, 10_000), PACE, Ok((300, 300)))),
        Reads(300, 10_000),
        Splits,
    ],
    ..PLAIN
};

/// Two writers of 300 records each, in 120 groups.
const GROUPS: &Table = &Table {
    name: "groups",
    sizes: Sizes::Mixed,
    ..HUNDREDS
};

/// And of 1,000 records each.
const THOUSAND: &Table = &Table {
    name: "a thousand",
    steps: &[
        Drives(Run(Part(0, 1000, 10_000), PACE, Ok((1000, 1000)))),
        Reads(1000, 10_000),
        Splits,
    ],
    ..HUNDREDS
};

// Whether two writers find one another before their first record.
fn meet<R: AllocGlobal + Threads + Wait>(rt: &R) -> bool {
    match MeetGate::new(rt.alloc(), 2, 100_000_000) {
        Ok(gate) => walked(rt, THOUSAND, &gate).is_ok() && gate.met(),
        Err(_) => false,
    }
}

// The first of twenty meetings in which they do not.
fn wrong_meeting<R: AllocGlobal + Threads + Wait>(rt: &R) -> Option<(&'static str, usize)> {
    for meeting in 0..20 {
        if !meet(rt) {
            return Some((THOUSAND.name, meeting));
        }
    }
    None
}

#[test]
fn two_writers_run_at_once(rt: HostRuntime) {
    assert_eq!(rt; wrong_meeting(&rt), None);
}

/// Adds up what it is told: the writer, and the number of each group from 1 on.
#[derive(Drop)]
struct Sums {
    before: AtomicU64,
    after: AtomicU64,
}

fn weight(writer: usize, index: u64) -> u64 {
    index.saturating_add(1 + 1_000_000 * (writer % 64) as u64)
}

impl Gate for Sums {
    fn before(&self, writer: usize, index: u64) {
        self.before
            .fetch_add(weight(writer, index), Ordering::SeqCst);
    }

    fn after(&self, writer: usize, index: u64) {
        self.after
            .fetch_add(weight(writer, index), Ordering::SeqCst);
    }
}

/// A ring of one place, one try and one turn at most: whether the turn comes early or late, one of
/// three records is given up, the second or the third.
const GIVEN_UP: &Table = &Table {
    name: "given up",
    writers: 1,
    places: 1,
    boxes: 8,
    steps: &[Drives(Run(Part(0, 3, 10_000), Pace(1, 1, 0, 1), Ok((1, 2))))],
    ..PLAIN
};

// What a gate is told in the runs of a table, before groups and after them; none if a step does not
// go as expected.
fn gate_sums<R: AllocGlobal + Threads + Wait>(rt: &R, table: &Table) -> Option<(u64, u64)> {
    let gate = Sums {
        before: AtomicU64::new(0),
        after: AtomicU64::new(0),
    };
    if walked(rt, table, &gate).is_err() {
        return None;
    }
    Some((
        gate.before.load(Ordering::SeqCst),
        gate.after.load(Ordering::SeqCst),
    ))
}

// The table of which the sums are others. A record that is given up passes the gate on both sides.
fn wrong_sums<R: AllocGlobal + Threads + Wait>(rt: &R) -> Option<(&'static str, usize)> {
    // Twice 1 + 2 + .. + 300, and 300 times a million for writer 1.
    if gate_sums(rt, &HUNDREDS) != Some((300_090_300, 300_090_300)) {
        return Some((HUNDREDS.name, 0));
    }
    // Twice 1 + 2 + .. + 120, and 120 times a million.
    if gate_sums(rt, GROUPS) != Some((120_014_520, 120_014_520)) {
        return Some((GROUPS.name, 0));
    }
    match gate_sums(rt, GIVEN_UP) {
        Some((3, 3)) | Some((6, 6)) => None,
        _ => Some((GIVEN_UP.name, 0)),
    }
}

#[test]
fn each_record_passes_the_gate(rt: HostRuntime) {
    assert_eq!(rt; wrong_sums(&rt), None);
}

/// Keeps how many records of each of two writers were told as durable last, and whether that was
/// ever fewer than before.
#[derive(Drop)]
struct Receipts {
    first: AtomicU64,
    second: AtomicU64,
    fell: AtomicBool,
}

impl Receipts {
    fn note(&self, last: &AtomicU64, count: u64) {
        if last.swap(count, Ordering::SeqCst) > count {
            self.fell.store(true, Ordering::SeqCst);
        }
    }
}

impl Gate for Receipts {
    fn before(&self, _writer: usize, _index: u64) {}

    fn after(&self, _writer: usize, _index: u64) {}

    fn durable(&self, writer: usize, count: u64) {
        if writer == 0 {
            self.note(&self.first, count);
        } else {
            self.note(&self.second, count);
        }
    }
}

// The table after which a writer was told another number than that of all its records.
fn wrong_receipts<R: AllocGlobal + Threads + Wait>(rt: &R) -> Option<(&'static str, usize)> {
    let gate = Receipts {
        first: AtomicU64::new(0),
        second: AtomicU64::new(0),
        fell: AtomicBool::new(false),
    };
    let went = walked(rt, &HUNDREDS, &gate).is_ok() && !gate.fell.load(Ordering::SeqCst);
    let told = (
        gate.first.load(Ordering::SeqCst),
        gate.second.load(Ordering::SeqCst),
    );
    if went && told == (300, 300) {
        None
    } else {
        Some((HUNDREDS.name, 1))
    }
}

#[test]
fn each_writer_is_told_what_is_durable(rt: HostRuntime) {
    assert_eq!(rt; wrong_receipts(&rt), None);
}

/// A gate for so many writers and tries, who visits it, and whether it is met then.
#[derive(Drop)]
struct Visits(
    &'static str,
    usize,
    u64,
    &'static [(&'static [usize], bool)],
);

const VISITS: &[Visits] = &[
    // The first writer gave up before the second came.
    Visits("two", 2, 1000, &[(&[0, 0], false), (&[1, 0, 7], false)]),
    Visits("one", 1, 1, &[(&[1], false), (&[0], true)]),
    Visits("no try", 1, 0, &[(&[0], false)]),
];

// The first visit that left its gate otherwise than expected: the first one if there was no gate.
fn wrong_visit(alloc: Global) -> Option<(&'static str, usize)> {
    for visits in VISITS {
        let Ok(gate) = MeetGate::new(alloc, visits.1, visits.2) else {
            return Some((visits.0, 0));
        };
        for (i, (visitors, told)) in visits.3.iter().enumerate() {
            for writer in *visitors {
                gate.before(*writer, 0);
                gate.after(*writer, 0);
            }
            if gate.met() != *told {
                return Some((visits.0, i));
            }
        }
    }
    None
}

#[test]
fn a_gate_is_met_where_each_writer_found_all_others(rt: HostRuntime) {
    assert_eq!(rt; wrong_visit(rt.alloc()), None);
}
