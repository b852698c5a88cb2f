//! What an import would do, by a look at the folder, which stays as it is.

ghost use Rattle.bw_care.specs.Found.{IsRecovered};

use crate::changes::Effect;
use crate::fault::{KeysFault, TableRefusal};
use crate::pages::ask_if_there;
use crate::tables::have_tables;
use bw_beside::Ask;
use bw_care::Recovered;
use bw_codec::{Record, Value};
use bw_home::System;
use bw_look::{Watch, Work, input_bytes};
use bw_pairs::{LineFault, Pairs, Skipped};
use std::io::Read;

/// How the pairs of an input stand to those of a folder. Each is compared with the folder as it is,
/// so a key that comes twice counts twice.
#[derive(Debug, Clone, Copy, PartialEq, Eq)]
pub struct Plan {
    pub effect: Effect,
    /// How many have a key without a value there.
    pub absent: u64,
    /// How many have a key with another value there; if keys are deleted, with any.
    pub other: u64,
    /// How many are there already.
    pub equal: u64,
    /// How many were read over.
    pub skipped: u64,
    /// The line of the first of these, and what is wrong with it.
    pub first: Option<(u64, LineFault)>,
}

impl Plan {
    /// Nothing yet.
    fn new(effect: Effect) -> Plan {
        Plan {
            effect,
            absent: 0,
            other: 0,
            equal: 0,
            skipped: 0,
            first: None,
        }
    }

    /// Counts a key whose value is to be another one, or none.
    fn note(&mut self, there: Option<&Value>, value: Option<&Value>) {
        match (there, value) {
            (None, _) => self.absent = self.absent.saturating_add(1),
            (Some(there), Some(value)) if there.as_slice() == value.as_slice() => {
                self.equal = self.equal.saturating_add(1);
            }
            _ => self.other = self.other.saturating_add(1),
        }
    }

    /// Counts a record of a key that has this value there.
    fn note_record(&mut self, there: Option<&Value>, record: &Record) {
        match record {
            Record::Put(_, value) => self.note(there, Some(value)),
            Record::Del(_) => self.note(there, None),
        }
    }

    /// Counts the pairs of an input beside a folder that has none.
    fn note_absent<I: Read + Drop, W: Watch>(
        &mut self,
        pairs: &mut Pairs<I>,
        all: u64,
        watch: &mut W,
    ) -> Result<(), KeysFault> {
        for _ in 0..u64::MAX {
            let Some(record) = pairs.next_record()? else {
                break;
            };
            self.note_record(None, &record);
            watch.see(Work::Importing, pairs.bytes(), all);
        }
        Ok(())
    }
}

/// Counts the pairs of an input beside these pages.
fn note_all<I: Read + Drop, W: Watch>(
    plan: &mut Plan,
    pages: &mut Recovered,
    pairs: &mut Pairs<I>,
    all: u64,
    watch: &mut W,
) -> Result<(), KeysFault>
    requires { IsRecovered (λ b. holding (b.vtable, b.value)) pages.old }
    ensures { IsRecovered (λ b. holding (b.vtable, b.value)) pages.new }
{
    'records: for _ in 0..u64::MAX {
        let Some(record) = pairs.next_record()? else {
            return Ok(());
        };
        let there = pages.get(record.key())?;
        plan.note_record(there.as_ref(), &record);
        watch.see(Work::Importing, pairs.bytes(), all);
    }
    Ok(())
}

/// How the pairs of an input stand to the pages of a folder is asked.
#[derive(Drop)]
struct Planning<'a, I> {
    plan: Plan,
    pairs: &'a mut Pairs<I>,
    all: u64,
}

impl<I: Read + Drop, W: Watch> Ask<W> for Planning<'_, I> {
    type Answer = Result<(), KeysFault>;

    fn ask(&mut self, pages: Recovered, watch: &mut W) -> Result<(), KeysFault> {
        let mut pages = pages;
        if have_tables(&mut pages)? {
            return Err(KeysFault::Table(TableRefusal::HasTables));
        }
        note_all(
            &mut self.plan,
            &mut pages,
            &mut *self.pairs,
            self.all,
            watch,
        )
    }
}

/// What an import of these pairs would do with a folder. One that is missing, or has no store, has
/// no key. One that has tables is refused.
pub fn planned<R: System, I: Read + Drop, W: Watch>(
    rt: &R,
    dir: &str,
    leases: u32,
    pairs: &mut Pairs<I>,
    effect: Effect,
    watch: &mut W,
) -> Result<Plan, KeysFault> {
    let all = input_bytes(rt, watch);
    let mut planning = Planning {
        plan: Plan::new(effect),
        pairs: &mut *pairs,
        all,
    };
    let answer = ask_if_there(rt, dir, leases, &mut planning, watch)?;
    let mut plan = planning.plan;
    match answer {
        Some(answer) => answer?,
        None => plan.note_absent(pairs, all, watch)?,
    }
    let Skipped { count, first } = pairs.skipped();
    plan.skipped = count;
    plan.first = first;
    Ok(plan)
}
