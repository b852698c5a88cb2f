//! Writers in threads: a run that was refused is settled, and followed by another over the same
//! feeds.

ghost use Rattle.std.specs.Prelude.{◌≡◌, map, vec_len, length, IfOk, IfSome};
ghost use Rattle.bw_ring.specs.Ends.{ring_of_feed};
ghost use Rattle.bw_store.specs.Views.{kept_by, IsSound};

use super::boxes::{Supply, supplied};
use bw_codec::{Key, Record, Value};
use bw_drive::{MeetGate, OpenGate, Plan, drive};
use bw_ring::{Feed, Group};
use bw_store::{Config, PackedEntry, Store, StoreFault};
use std::alloc::{AllocError, Global};
use std::sync::Wait;
use std::thread::Threads;
use test_kit::marks::{begin, end};
use test_kit::refusals::{Row, Try, tried, wrong_row};

const PLAN: Plan = Plan {
    limit: 4,
    flush_every: 1,
    clean_at: 2,
    forgets: false,
};

const CONFIG: &Config = &Config {
    writers: 2,
    places: 2,
    readers: 1,
    m: 4,
    f: 65_536,
};

/// For each group.
const TRIES: u64 = 1_000_000_000;

/// How many records each group of a writer has. Each record has a key of its own.
const SIZES: &[u8] = &[1, 2, 3];

/// How many both put.
const BOTH: u64 = 12;

/// A writer's record of a number.
fn numbered(writer: u16, number: u8) -> Record {
    let letter = (writer % 2) as u8 + b'a';
    match (Key::new(&[letter, number]), Value::new(&[number])) {
        (Ok(key), Ok(value)) => Record::Put(key, value),
        _ => unreachable!(),
    }
}

/// Whether the record of a number stands in the group of the one before it.
fn joins(number: u8) -> bool {
    matches!(number, 2 | 4 | 5)
}

// The records of a writer from this number on, so many of them, as one group.
fn group(writer: u16, first: u8, size: u8) -> Group {
    let mut group = Group::one(numbered(writer, first));
    for more in 1..size {
        let _ = group.push(numbered(writer, first.saturating_add(more)));
    }
    group
}

fn script(alloc: Global, writer: u16) -> Result<Vec<Group>, AllocError> {
    let mut script = Vec::new(alloc);
    let mut next: u8 = 0;
    for size in SIZES {
        script.push(group(writer, next, *size))?;
        next = next.saturating_add(*size);
    }
    Ok(script)
}

/// A script for each of two writers.
fn scripts(alloc: Global) -> Result<Vec<Vec<Group>>, AllocError>
    ensures { IfOk result (λ s. vec_len s ≡ 2) }
{
    let mut scripts = Vec::new(alloc);
    scripts.push(script(alloc, 0)?)?;
    scripts.push(script(alloc, 1)?)?;
    Ok(scripts)
}

/// Whether each writer's entries are the first groups of its script, each whole and by itself.
fn are_begun(entries: &[PackedEntry]) -> bool {
    let mut next: [u8; 2] = [0; 2];
    let mut behind: Option<u16> = None;
    for packed in entries {
        let entry = packed.entry();
        let Some(number) = next.get_mut(usize::from(entry.writer)) else {
            return false;
        };
        if entry.item != numbered(entry.writer, *number) {
            return false;
        }
        *number = number.saturating_add(1);
        if behind.is_some_and(|writer| writer != entry.writer) || entry.more != joins(*number) {
            return false;
        }
        behind = if entry.more { Some(entry.writer) } else { None };
    }
    behind.is_none()
}

// A script for each of two feeds.
fn scripts_for(alloc: Global, feeds: &[Feed]) -> Option<Vec<Vec<Group>>>
    ensures { IfSome result (λ s. (vec_len s ≡ 2) × (length feeds.now ≡ 2)) }
{
    match scripts(alloc) {
        Ok(scripts) if feeds.len() == 2 => Some(scripts),
        _ => None,
    }
}

// A run over the feeds: all records of the scripts are entered after `old` ones.
fn runs_again<R: Threads + Wait>(
    rt: &R,
    alloc: Global,
    store: &mut Store,
    feeds: Vec<Feed>,
    old: u64,
) -> bool
    requires sound { IsSound store.old holding }
    requires feeds { map ring_of_feed feeds.items ≡ (kept_by store.old holding).rings }
    ensures { IsSound store.new holding }
{
    let Some(scripts) = scripts_for(alloc, feeds.as_slice()) else {
        return false;
    };
    match drive(rt, store, feeds, scripts, &OpenGate, PLAN, TRIES) {
        Ok(driven) => driven.entries == old.saturating_add(BOTH),
        Err(_) => false,
    }
}

// The feeds of a run that was refused are settled: the first records of each script stand in the
// history. Then the store is driven again.
fn settles<R: Threads + Wait>(rt: &R, alloc: Global, store: &mut Store, feeds: Vec<Feed>) -> bool
    requires sound { IsSound store.old holding }
    requires feeds { map ring_of_feed feeds.items ≡ (kept_by store.old holding).rings }
    ensures { IsSound store.new holding }
{
    let mut feeds = feeds;
    match store.settle(rt, &mut feeds) {
        Ok(old) if old <= BOTH && are_begun(store.history()) => {
            runs_again(rt, alloc, store, feeds, old)
        }
        _ => false,
    }
}

// If a run is refused, the feeds come back.
fn runs<R: Threads + Wait>(
    rt: &R,
    alloc: Global,
    store: &mut Store,
    feeds: Vec<Feed>,
) -> Option<Try>
    requires sound { IsSound store.old holding }
    requires feeds { map ring_of_feed feeds.items ≡ (kept_by store.old holding).rings }
    ensures { IsSound store.new holding }
{
    let scripts = scripts_for(alloc, feeds.as_slice())?;
    begin(alloc);
    let answer = drive(rt, store, feeds, scripts, &OpenGate, PLAN, TRIES);
    let refused = end(alloc);
    match answer {
        Ok(driven) => {
            let is_so = driven.entries == BOTH && are_begun(store.history());
            tried(true, refused, is_so)
        }
        Err(fault) => {
            if fault.cause != StoreFault::NoMemory || fault.feeds.len() != 2 {
                return None;
            }
            let is_so = settles(rt, alloc, store, fault.feeds);
            tried(false, refused, is_so)
        }
    }
}

/// A call that may be refused.
#[derive(Drop)]
enum Call {
    Drive,
    Gate,
}

fn is_driven<R: AllocGlobal + Threads + Wait>(rt: &R) -> Option<Try> {
    let alloc = rt.alloc();
    let Supply { boxes, desk: _desk } = supplied(alloc, 6, &[], None)?;
    let Ok((mut store, feeds)) = Store::open(rt, alloc, CONFIG, boxes) else {
        return None;
    };
    let went = runs(rt, alloc, &mut store, feeds);
    let _ = store.shut(rt);
    went
}

fn makes_gate(alloc: Global) -> Option<Try> {
    begin(alloc);
    let made = MeetGate::new(alloc, 2, 9);
    let refused = end(alloc);
    match made {
        Ok(gate) => tried(true, refused, !gate.met()),
        Err(_) => tried(false, refused, true),
    }
}

impl Row for Call {
    fn goes<R: AllocGlobal + Threads + Wait>(&self, rt: &R) -> Option<Try> {
        match self {
            Call::Drive => is_driven(rt),
            Call::Gate => makes_gate(rt.alloc()),
        }
    }

    // The consolidation of a chain, and the row of heads beside pairs.
    fn spares(&self) -> bool {
        match self {
            Call::Drive => true,
            Call::Gate => false,
        }
    }
}

#[test]
fn runs_of_writers(rt: HostRuntime) {
    assert_eq!(rt; wrong_row(&rt, &[Call::Drive, Call::Gate]), None);
}
