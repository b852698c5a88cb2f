//! What changes the keys of a folder: one is put, some are deleted, and the pairs of an input go
//! in.

use crate::deletes::{Named, Sweep};
use crate::fault::KeysFault;
use crate::filling::Filling;
use crate::leases::leases_of;
use crate::load::{Load, Wanted};
use crate::pages::check_store;
use crate::plan::{Plan, planned};
use crate::records::{Input, Records, Single};
use crate::span::Span;
use crate::tending::Tending;
use bw_codec::{Key, Record};
use bw_home::{Options, System, with_store_at};
use bw_look::{Watch, Work, folder_bytes, frame_in_folder, input_bytes};
use bw_pairs::{LineFault, Pairs, Skipped, Source};
use std::collections::VecDeque;
use std::io::Read;

/// What the pairs of an input do.
#[derive(Debug, Clone, Copy, PartialEq, Eq)]
pub enum Effect {
    /// They are put.
    Put,
    /// Those are put whose keys have no value yet.
    Add,
    /// Their keys are deleted.
    Delete,
}

impl Effect {
    /// What is said of so many pairs once it has come to pass.
    pub fn done(self) -> &'static str {
        match self {
            Effect::Put | Effect::Add => "imported ",
            Effect::Delete => "deleted ",
        }
    }
}

/// How the pairs of an input go in.
#[derive(Debug, Clone, Copy)]
pub struct Import {
    pub source: Source,
    /// Whether bad pairs are read over; else the first one ends it.
    pub skips: bool,
    /// How many bytes new segments have room for, if that is said.
    pub capacity: Option<u32>,
    /// How many bytes the pages in memory may take, if that is said.
    pub memory: Option<u64>,
    pub effect: Effect,
    /// Whether it is only said what would be done.
    pub is_dry: bool,
}

/// What an import came to.
#[derive(Debug, Clone, Copy, PartialEq, Eq)]
pub struct Loaded {
    pub effect: Effect,
    /// How many pairs went in, or how many keys were deleted.
    pub count: u64,
    /// How many pairs were passed over, since their keys have a value and none is changed, or have
    /// none and are to be deleted.
    pub passed: u64,
    /// How many were read over.
    pub skipped: u64,
    /// The line of the first of these, and what is wrong with it.
    pub first: Option<(u64, LineFault)>,
}

/// What came of a change.
#[derive(Debug, Clone, Copy)]
pub enum Changed {
    /// It is durable.
    Done,
    /// So many keys were deleted.
    Deleted(u64),
    /// An import is durable.
    Loaded(Loaded),
    /// What an import would do.
    Planned(Plan),
    /// It ended early, for this reason; so many records are durable.
    Halted(KeysFault, Effect, u64),
}

/// A store that one writer puts into, with a queue that is long enough for batches. Its new
/// segments have room for so many bytes, and its pages stay in memory up to so many, if that is
/// said.
pub fn options(capacity: Option<u32>, memory: Option<u64>) -> Options {
    let other = Options::default();
    let capacity = capacity.map_or(other.capacity, u64::from);
    Options {
        queue_groups: 1_024,
        frame_bytes: frame_in_folder(capacity),
        capacity,
        page_bytes: memory.unwrap_or(other.page_bytes),
        ..other
    }
}

/// What came of records that went into a store.
#[derive(Clone, Copy)]
struct Stored {
    /// How many these are, once they are durable; or why no more.
    end: Result<u64, KeysFault>,
    /// How many were passed over.
    passed: u64,
    /// How many are durable.
    durable: u64,
}

/// Puts those records that are wanted into the store in a folder, which is made by these options if
/// it is missing.
fn load<R: System, S: Records, W: Watch>(
    rt: &R,
    dir: &str,
    leases: u32,
    options: &Options,
    records: &mut S,
    wanted: Wanted,
    all: u64,
    watch: &mut W,
) -> Stored {
    let held = folder_bytes(rt, dir, leases, watch);
    watch.see(Work::Opening, 0, held);
    let leases = leases.min(leases_of(rt, dir));
    let frame = u64::from(options.frame_bytes);
    let tending = Tending::new(options.capacity, frame, leases);
    let mut load = Load::new(&mut *records, wanted, all, &mut *watch, tending);
    let end = match with_store_at(rt, Some(dir), leases, options, &mut load) {
        Ok(answer) => answer,
        Err(fault) => Err(KeysFault::from(fault)),
    };
    Stored {
        end,
        passed: load.passed(),
        durable: load.durable(),
    }
}

/// Puts one record.
pub fn put<R: System, W: Watch>(
    rt: &R,
    dir: &str,
    leases: u32,
    record: Record,
    watch: &mut W,
) -> Result<Changed, KeysFault> {
    let mut records = Single::new(record);
    let options = options(None, None);
    let _ = load(
        rt,
        dir,
        leases,
        &options,
        &mut records,
        Wanted::All,
        0,
        watch,
    )
    .end?;
    Ok(Changed::Done)
}

/// What came of deletes.
fn deleted(stored: Stored) -> Changed {
    match stored.end {
        Ok(count) => Changed::Deleted(count),
        Err(fault) => Changed::Halted(fault, Effect::Delete, stored.durable),
    }
}

/// Deletes these keys from the store in a folder, which has to be there.
pub fn del<R: System, W: Watch>(
    rt: &R,
    dir: &str,
    leases: u32,
    keys: VecDeque<Key>,
    watch: &mut W,
) -> Result<Changed, KeysFault> {
    check_store(rt, dir)?;
    let mut records = Named::new(keys);
    let options = options(None, None);
    let stored = load(
        rt,
        dir,
        leases,
        &options,
        &mut records,
        Wanted::Present,
        0,
        watch,
    );
    Ok(deleted(stored))
}

/// Deletes all keys of a stretch from the store in a folder, which has to be there.
pub fn del_all<R: System, W: Watch>(
    rt: &R,
    dir: &str,
    leases: u32,
    span: Span,
    watch: &mut W,
) -> Result<Changed, KeysFault> {
    check_store(rt, dir)?;
    let mut records = Sweep::new(rt.alloc(), span);
    let options = options(None, None);
    let stored = load(
        rt,
        dir,
        leases,
        &options,
        &mut records,
        Wanted::All,
        0,
        watch,
    );
    Ok(deleted(stored))
}

/// Which records of an import are put.
fn wanted_by(effect: Effect) -> Wanted {
    match effect {
        Effect::Put => Wanted::All,
        Effect::Add => Wanted::Absent,
        Effect::Delete => Wanted::Present,
    }
}

/// The pairs of an input, or the deletes of their keys.
fn pairs_of<R: System, I: Read + Drop>(
    rt: &R,
    input: I,
    wanted: Import,
) -> Result<Pairs<I>, KeysFault> {
    let pairs = Pairs::new(rt.alloc(), input, wanted.source, wanted.skips)?;
    if wanted.effect == Effect::Delete {
        return Ok(pairs.as_deletes());
    }
    Ok(pairs)
}

/// Does with the pairs of an input what is wanted. Those that come in the order of their keys fill
/// their pages. A store is made if it is missing, but for deletes.
fn load_pairs<R: System, I: Read, W: Watch>(
    rt: &R,
    dir: &str,
    leases: u32,
    input: &mut I,
    wanted: Import,
    watch: &mut W,
) -> Result<Changed, KeysFault> {
    let effect = wanted.effect;
    if effect == Effect::Delete {
        check_store(rt, dir)?;
    }
    let all = input_bytes(rt, watch);
    let options = options(wanted.capacity, wanted.memory);
    let pairs = pairs_of(rt, input, wanted)?;
    let mut records = Filling::new(rt.alloc(), Input::new(pairs), options.pairs_a_page);
    let which = wanted_by(effect);
    let stored = load(rt, dir, leases, &options, &mut records, which, all, watch);
    let count = match stored.end {
        Ok(count) => count,
        Err(fault) => return Ok(Changed::Halted(fault, effect, stored.durable)),
    };
    let Skipped {
        count: skipped,
        first,
    } = records.into_records().into_pairs().skipped();
    Ok(Changed::Loaded(Loaded {
        effect,
        count,
        passed: stored.passed,
        skipped,
        first,
    }))
}

/// Does with the pairs of an input what is wanted, or says what it would do.
pub fn import_pairs<R: System, I: Read, W: Watch>(
    rt: &R,
    dir: &str,
    leases: u32,
    input: &mut I,
    wanted: Import,
    watch: &mut W,
) -> Result<Changed, KeysFault> {
    if !wanted.is_dry {
        return load_pairs(rt, dir, leases, input, wanted, watch);
    }
    let mut pairs = pairs_of(rt, input, wanted)?;
    let plan = planned(rt, dir, leases, &mut pairs, wanted.effect, watch)?;
    Ok(Changed::Planned(plan))
}
