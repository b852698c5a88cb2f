//! What is done with the tables of a folder.

use crate::changes::{Create, DropTable, Put};
use crate::deletes::{Deletes, Meant};
use crate::import::Import;
use crate::listing::List;
use crate::reading::{Count, Get, Names};
use crate::run::{Calls, Run};
use crate::words::{keys_by, name_by, put_key_by, span_of, value_by};
use bw_home::{Options, System, with_store_at};
use bw_keys::{
    Changed, Effect, KeysFault, Loaded, Range, Style, TablesTask, Tending, Told, check_store,
    leases_of, options,
};
use bw_look::{Watch, Work, folder_bytes, input_bytes};
use bw_pairs::{LineFault, Rows, Skipped, Source, Spelling};
use bw_rows::Name;
use std::alloc::Global;
use std::io::{Read, Write};

/// A folder, and by how many leases it is opened.
#[derive(Drop)]
struct Place<'a, R> {
    rt: &'a R,
    dir: &'a str,
    leases: u32,
}

/// Makes calls on the tables of a folder, which is made if it is missing; whether all that they
/// wrote is durable, and why they ended early. The input has so many bytes.
fn run<R: System, C: Calls, W: Watch>(
    place: &Place<'_, R>,
    options: &Options,
    calls: &mut C,
    all: u64,
    watch: &mut W,
) -> (bool, Result<(), KeysFault>) {
    let (rt, dir) = (place.rt, place.dir);
    let held = folder_bytes(rt, dir, place.leases, watch);
    watch.see(Work::Opening, 0, held);
    let leases = place.leases.min(leases_of(rt, dir));
    let frame = u64::from(options.frame_bytes);
    let tending = Tending::new(options.capacity, frame, leases);
    let mut run = Run::new(calls, all, watch, tending);
    let end = match with_store_at(rt, Some(dir), leases, options, &mut run) {
        Ok(answer) => answer,
        Err(fault) => Err(KeysFault::from(fault)),
    };
    (run.is_kept(), end)
}

/// Makes calls on the tables of a folder that has to be there.
fn run_there<R: System, C: Calls, W: Watch>(
    place: &Place<'_, R>,
    calls: &mut C,
    watch: &mut W,
) -> (bool, Result<(), KeysFault>) {
    match check_store(place.rt, place.dir) {
        Ok(()) => run(place, &options(None, None), calls, 0, watch),
        Err(fault) => (false, Err(fault)),
    }
}

/// Puts a value.
fn put<R: System, I: Read, W: Watch>(
    place: &Place<'_, R>,
    name: Name,
    key: &str,
    value: &str,
    is_raw: bool,
    input: &mut I,
    watch: &mut W,
) -> Result<Told, KeysFault> {
    let key = put_key_by(key, is_raw)?;
    let value = value_by(place.rt.alloc(), value, is_raw, input)?;
    let mut calls = Put {
        name,
        key,
        value,
        is_over: false,
    };
    run_there(place, &mut calls, watch).1?;
    Ok(Told::Done)
}

/// Writes the values of keys.
fn get<R: System, O: Write, W: Watch>(
    place: &Place<'_, R>,
    name: Name,
    words: &[&str],
    spelling: Spelling,
    output: &mut O,
    watch: &mut W,
) -> Result<Told, KeysFault> {
    let keys = keys_by(place.rt.alloc(), words)?;
    let is_one = keys.len() == 1;
    let mut calls = Get {
        name,
        keys,
        spelling,
        output,
        is_over: false,
        missing: Vec::new(place.rt.alloc()),
    };
    run_there(place, &mut calls, watch).1?;
    let missing = calls.missing;
    if !is_one {
        return Ok(Told::NoValues(missing));
    }
    if missing.is_empty() {
        Ok(Told::Done)
    } else {
        Ok(Told::NoValue)
    }
}

/// Deletes keys. Of a single one it is not said whether it was there.
fn del<R: System, W: Watch>(
    place: &Place<'_, R>,
    name: Name,
    meant: Meant,
    is_one: bool,
    watch: &mut W,
) -> Result<Told, KeysFault> {
    let mut calls = Deletes {
        name,
        meant,
        key: None,
        count: 0,
    };
    let (is_kept, end) = run_there(place, &mut calls, watch);
    match end {
        Ok(()) if is_one => Ok(Told::Done),
        Ok(()) => Ok(Told::Changed(Changed::Deleted(calls.count))),
        Err(fault) => Ok(halted(fault, Effect::Delete, is_kept, calls.count)),
    }
}

/// Deletes the keys of these words.
fn del_words<R: System, W: Watch>(
    place: &Place<'_, R>,
    name: Name,
    words: &[&str],
    watch: &mut W,
) -> Result<Told, KeysFault> {
    let keys = keys_by(place.rt.alloc(), words)?;
    let is_one = keys.len() == 1;
    del(place, name, Meant::Named(keys), is_one, watch)
}

/// What is said of changes that ended early: how many are durable.
fn halted(fault: KeysFault, effect: Effect, is_kept: bool, count: u64) -> Told {
    let durable = if is_kept { count } else { 0 };
    Told::Changed(Changed::Halted(fault, effect, durable))
}

/// Writes pairs, in a style and so many at most.
fn list<R: System, O: Write, W: Watch>(
    place: &Place<'_, R>,
    name: Option<Name>,
    range: Option<&Range<'_>>,
    wanted: (Style, u64),
    output: &mut O,
    watch: &mut W,
) -> Result<Told, KeysFault> {
    let span = match range {
        Some(range) => Some(span_of(range)?),
        None => None,
    };
    let (style, left) = wanted;
    let mut calls = List {
        name,
        span,
        style,
        left,
        output,
        is_over: false,
    };
    run_there(place, &mut calls, watch).1?;
    Ok(Told::Done)
}

/// Writes how many keys of a stretch there are.
fn count<R: System, O: Write, W: Watch>(
    place: &Place<'_, R>,
    name: Name,
    range: &Range<'_>,
    output: &mut O,
    watch: &mut W,
) -> Result<Told, KeysFault> {
    let mut calls = Count {
        name,
        span: Some(span_of(range)?),
        count: 0,
    };
    run_there(place, &mut calls, watch).1?;
    let count = calls.count;
    writeln!(output, "{count}").map_err(KeysFault::of_output)?;
    Ok(Told::Done)
}

/// The pairs of an input, as they are wanted: for this table, or for those that it names.
fn rows_of<'a, I: Read>(
    alloc: Global,
    name: Option<Name>,
    input: &'a mut I,
    wanted: bw_keys::Import,
) -> Result<Import<&'a mut I>, KeysFault> {
    let deletes = wanted.effect == Effect::Delete;
    let rows = Rows::new(
        alloc,
        input,
        wanted.source,
        wanted.skips,
        deletes,
        name.is_none(),
    )?;
    Ok(Import {
        rows,
        name,
        is_there: false,
        row: None,
        effect: wanted.effect,
        count: 0,
        passed: 0,
    })
}

/// Does with the pairs of an input what is wanted. A store is made if it is missing, but for
/// deletes.
fn import<R: System, I: Read, W: Watch>(
    place: &Place<'_, R>,
    name: Option<Name>,
    input: &mut I,
    wanted: bw_keys::Import,
    watch: &mut W,
) -> Result<Told, KeysFault> {
    if wanted.effect == Effect::Delete {
        check_store(place.rt, place.dir)?;
    }
    let all = input_bytes(place.rt, watch);
    let mut calls = rows_of(place.rt.alloc(), name, input, wanted)?;
    let (is_kept, end) = run(
        place,
        &options(wanted.capacity, wanted.memory),
        &mut calls,
        all,
        watch,
    );
    if let Err(fault) = end {
        return Ok(halted(fault, wanted.effect, is_kept, calls.count));
    }
    let Skipped {
        count: skipped,
        first,
    } = calls.rows.skipped();
    Ok(Told::Changed(Changed::Loaded(Loaded {
        effect: wanted.effect,
        count: calls.count,
        passed: calls.passed,
        skipped,
        first,
    })))
}

/// Does a task over the keys of a table.
fn perform_in<R: System, I: Read, O: Write, W: Watch>(
    place: &Place<'_, R>,
    name: Name,
    task: &bw_keys::Task<'_>,
    input: &mut I,
    output: &mut O,
    watch: &mut W,
) -> Result<Told, KeysFault> {
    match task {
        bw_keys::Task::Put(key, value, is_raw) => {
            put(place, name, *key, *value, *is_raw, input, watch)
        }
        bw_keys::Task::Get(words, spelling) => {
            let words = words.as_slice();
            get(place, name, words, *spelling, output, watch)
        }
        bw_keys::Task::Del(words) => del_words(place, name, words.as_slice(), watch),
        bw_keys::Task::DelAll(range) => {
            let meant = Meant::Stretch(span_of(range)?);
            del(place, name, meant, false, watch)
        }
        bw_keys::Task::List(listed) => {
            let wanted = (listed.style, listed.limit);
            list(
                place,
                Some(name),
                Some(&listed.range),
                wanted,
                output,
                watch,
            )
        }
        bw_keys::Task::Count(range) => count(place, name, range, output, watch),
        bw_keys::Task::Import(wanted) => import(place, Some(name), input, *wanted, watch),
        bw_keys::Task::Export(range, style) => {
            let wanted = (*style, u64::MAX);
            list(place, Some(name), Some(range), wanted, output, watch)
        }
    }
}

/// Writes the names of all tables.
fn names<R: System, O: Write, W: Watch>(
    place: &Place<'_, R>,
    output: &mut O,
    watch: &mut W,
) -> Result<Told, KeysFault> {
    let mut calls = Names {
        output,
        is_over: false,
    };
    run_there(place, &mut calls, watch).1?;
    Ok(Told::Done)
}

/// Makes a table.
fn create<R: System, W: Watch>(
    place: &Place<'_, R>,
    name: Name,
    watch: &mut W,
) -> Result<Told, KeysFault> {
    let mut calls = Create {
        name,
        is_over: false,
    };
    run(place, &options(None, None), &mut calls, 0, watch).1?;
    Ok(Told::Done)
}

/// Drops a table.
fn drop_named<R: System, W: Watch>(
    place: &Place<'_, R>,
    name: Name,
    watch: &mut W,
) -> Result<Told, KeysFault> {
    let mut calls = DropTable {
        name,
        is_over: false,
        needed: None,
    };
    run_there(place, &mut calls, watch).1?;
    Ok(Told::Done)
}

/// Refuses names if the pairs are those of no dump.
fn check_dump(is_dump: bool) -> Result<(), KeysFault> {
    if is_dump {
        Ok(())
    } else {
        Err(KeysFault::Word("--named", LineFault::NotDump))
    }
}

/// Does a task over the tables of a folder, by so many leases at most. What it reads and prints
/// comes from this input and goes to this output, and a watch hears how far it is.
pub fn perform<R: System, I: Read, O: Write, W: Watch>(
    rt: &R,
    dir: &str,
    leases: u32,
    task: &TablesTask<'_>,
    input: &mut I,
    output: &mut O,
    watch: &mut W,
) -> Result<Told, KeysFault> {
    let place = Place { rt, dir, leases };
    let place = &place;
    match task {
        TablesTask::Names => names(place, output, watch),
        TablesTask::Create(word) => create(place, name_by(*word)?, watch),
        TablesTask::Drop(word) => drop_named(place, name_by(*word)?, watch),
        TablesTask::Table(word, task) => {
            let name = name_by(*word)?;
            perform_in(place, name, task, input, output, watch)
        }
        TablesTask::Import(wanted) => {
            check_dump(wanted.source == Source::Dump)?;
            import(place, None, input, *wanted, watch)
        }
        TablesTask::Export(style) => {
            check_dump(matches!(style, Style::Dump(..)))?;
            list(place, None, None, (*style, u64::MAX), output, watch)
        }
    }
}
