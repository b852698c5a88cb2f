//! `bwlog put`, `get`, `del`, `list`, `count`, `import`, `export` and `tables`: what `bw_keys` does
//! with the keys of a folder, and `bw_named` with its tables. Here is what is said of it, all but
//! the pairs on standard error, and the exit status.

use bw_core::StoreFault;
use bw_device::MAX_LEASES;
use bw_file::FolderFault;
use bw_home::HomeFault;
use bw_keys::{
    Changed, Effect, KeysFault, Loaded, Plan, TableRefusal, TablesTask, Task, Told, perform,
};
use bw_look::{Printer, Progress, Watch};
use bw_pairs::LineFault;
use bw_segments::{tell_far, tell_located};
use bw_words::{Host, Miss, Refusal, Stop};
use std::io::{IsTerminal, Read, Write};

/// Says how many pairs went in, and how many were passed over.
fn write_loaded<O: Write>(out: &mut Printer<'_, O>, loaded: Loaded) {
    out.named(loaded.effect.done(), loaded.count);
    match loaded.effect {
        Effect::Put => out.text(b"\n"),
        Effect::Add => out.line(" kept ", loaded.passed),
        Effect::Delete => out.line(" missing ", loaded.passed),
    }
}

/// Says what an import would do.
fn write_plan<O: Write>(out: &mut Printer<'_, O>, plan: Plan) {
    if plan.effect == Effect::Delete {
        out.named("would delete ", plan.other);
        out.line(" missing ", plan.absent);
        return;
    }
    out.named("would import new ", plan.absent);
    out.named(" changed ", plan.other);
    out.line(" equal ", plan.equal);
}

/// Says what a change came to.
fn write_changed<O: Write>(output: &mut O, changed: Changed) -> Result<(), KeysFault> {
    let mut out = Printer::new(output);
    match changed {
        Changed::Deleted(count) => out.line("deleted ", count),
        Changed::Loaded(loaded) => write_loaded(&mut out, loaded),
        Changed::Planned(plan) => write_plan(&mut out, plan),
        Changed::Done | Changed::Halted(..) => {}
    }
    match out.end() {
        Ok(()) => Ok(()),
        Err(_) => Err(KeysFault::Output),
    }
}

/// Writes out what a task printed.
fn written<O: Write>(end: Result<Told, KeysFault>, output: &mut O) -> Result<Told, KeysFault> {
    let told = end?;
    if let Told::Changed(changed) = &told {
        write_changed(output, *changed)?;
    }
    output.flush().map_err(KeysFault::of_output)?;
    Ok(told)
}

/// Says how many pairs were read over of an import, and why the first one was.
fn tell_skipped<E: Write>(out: &mut Printer<'_, E>, skipped: u64, first: Option<(u64, LineFault)>) {
    if let Some((number, fault)) = first {
        out.named("skipped ", skipped);
        out.named(", the first at line ", number);
        out.line(": ", fault);
    }
}

/// Says why a folder was not opened, and gives the exit status.
fn tell_folder<E: Write>(out: &mut Printer<'_, E>, dir: &str, fault: FolderFault) -> u8 {
    out.named("folder ", dir);
    out.line(": ", fault);
    if fault.is_damage() { 4 } else { 6 }
}

/// Says what was refused, and what may be done, and gives the exit status.
fn tell_refusal<E: Write>(out: &mut Printer<'_, E>, dir: &str, refusal: Refusal) -> u8 {
    out.line("", refusal);
    match refusal {
        Refusal::Store(StoreFault::NoSegment) => {
            out.named("folder ", dir);
            out.line(": the log is full, with segments ", MAX_LEASES);
        }
        Refusal::Store(StoreFault::Device { .. }) => {
            out.named("folder ", dir);
            out.text(b": a file was not written; is its disk full?\n");
        }
        _ => {}
    }
    if refusal.is_no_memory() { 5 } else { 4 }
}

/// Says why a store was not opened, or refused a call, and gives the exit status.
fn tell_home<E: Write>(out: &mut Printer<'_, E>, dir: &str, fault: HomeFault) -> u8 {
    match Miss::from(fault) {
        Miss::Refused(refusal) => tell_refusal(out, dir, refusal),
        Miss::Ended(Stop::Folder(fault)) => tell_folder(out, dir, fault),
        _ => 6,
    }
}

/// Says what is amiss with tables, and gives the exit status.
fn tell_table<E: Write>(out: &mut Printer<'_, E>, dir: &str, refusal: TableRefusal) -> u8 {
    out.named("folder ", dir);
    out.text(match refusal {
        TableRefusal::HasTables => b": it has tables: --table says which one is meant\n",
        TableRefusal::IsPlain => b": it has pairs that are no table's\n",
        TableRefusal::NoTable => b": no table has this name: bwlog tables --create makes one\n",
        TableRefusal::Exists => b": a table has this name already\n",
        TableRefusal::TooMany => b": it has 65536 tables, and no more can be made\n",
        TableRefusal::Broken => b": its pairs are not those of tables\n",
    });
    4
}

/// Says why a task was not done, and gives the exit status.
fn tell_fault<E: Write>(out: &mut Printer<'_, E>, dir: &str, fault: KeysFault) -> u8 {
    match fault {
        KeysFault::Home(fault) => tell_home(out, dir, fault),
        KeysFault::NoStore => {
            out.named("folder ", dir);
            out.text(b": no store\n");
            6
        }
        KeysFault::Word(name, fault) => {
            out.named("error: ", name);
            out.line(": ", fault);
            2
        }
        KeysFault::Line(number, fault) => {
            out.named("line ", number);
            out.line(": ", fault);
            3
        }
        KeysFault::Input => {
            out.text(b"input failed\n");
            6
        }
        KeysFault::Output => {
            out.text(b"output failed\n");
            6
        }
        KeysFault::Closed => 0,
        KeysFault::Table(refusal) => tell_table(out, dir, refusal),
    }
}

/// Says why a change ended early, and how much of it is durable, and gives the exit status.
fn tell_halted<E: Write>(
    out: &mut Printer<'_, E>,
    dir: &str,
    fault: KeysFault,
    effect: Effect,
    durable: u64,
) -> u8 {
    let status = tell_fault(out, dir, fault);
    if durable > 0 {
        out.named(effect.done(), durable);
        out.text(b" before that, which are durable\n");
    }
    status
}

/// Says what is to be said of a change beside its answer, and gives the exit status.
fn tell_changed<E: Write>(out: &mut Printer<'_, E>, dir: &str, changed: Changed) -> u8 {
    match changed {
        Changed::Done | Changed::Deleted(_) => 0,
        Changed::Loaded(loaded) => {
            tell_skipped(out, loaded.skipped, loaded.first);
            0
        }
        Changed::Planned(plan) => {
            tell_skipped(out, plan.skipped, plan.first);
            0
        }
        Changed::Halted(fault, effect, durable) => tell_halted(out, dir, fault, effect, durable),
    }
}

/// The word of a key that a task gets, by its position.
fn word_at<'b>(task: Option<&'b Task<'_>>, position: usize) -> Option<&'b str> {
    match task {
        Some(Task::Get(words, _)) => match words.as_slice().get(position) {
            Some(word) => Some(*word),
            None => None,
        },
        _ => None,
    }
}

/// Says which keys have no value, by their words, and gives the exit status.
fn tell_missing<E: Write>(
    out: &mut Printer<'_, E>,
    task: Option<&Task<'_>>,
    missing: &[usize],
) -> u8 {
    for position in missing {
        if let Some(word) = word_at(task, *position) {
            out.line("no value: ", word);
        }
    }
    if missing.is_empty() { 0 } else { 1 }
}

/// Says what an end has to say, and gives the exit status.
fn told<E: Write>(
    end: &Result<Told, KeysFault>,
    dir: &str,
    task: Option<&Task<'_>>,
    errors: &mut E,
) -> u8 {
    let mut out = Printer::new(errors);
    let status = match end {
        Ok(Told::Done) => 0,
        Ok(Told::NoValue) => 1,
        Ok(Told::NoValues(missing)) => tell_missing(&mut out, task, missing.as_slice()),
        Ok(Told::Changed(changed)) => tell_changed(&mut out, dir, *changed),
        Err(fault) => tell_fault(&mut out, dir, *fault),
    };
    match out.end() {
        Ok(()) => status,
        Err(_) => 6,
    }
}

/// Why a task ended early, if it did.
fn fault_of(end: &Result<Told, KeysFault>) -> Option<KeysFault> {
    match end {
        Err(fault) => Some(*fault),
        Ok(Told::Changed(Changed::Halted(fault, _, _))) => Some(*fault),
        _ => None,
    }
}

/// What was refused, if an end is a refusal.
fn refusal_of(end: &Result<Told, KeysFault>) -> Option<Refusal> {
    match fault_of(end) {
        Some(KeysFault::Home(fault)) => match Miss::from(fault) {
            Miss::Refused(refusal) => Some(refusal),
            _ => None,
        },
        _ => None,
    }
}

/// Says which file of a folder keeps a run out, if there is no lease for it; and which are at
/// fault, if recovery refused them.
fn tell_files<R: Host, E: Write>(
    rt: &R,
    dir: &str,
    refusal: Refusal,
    errors: &mut E,
) -> Result<(), Stop> {
    match refusal {
        Refusal::NoLease => tell_far(rt, dir, errors),
        Refusal::Recovery(cause) => tell_located(rt, dir, cause, errors),
        _ => Ok(()),
    }
}

/// Does a task, and says on standard error how far it is. If standard output is shown on a
/// terminal, no more is said of a listing.
fn performed<R: Host, I: Read, O: Write, E: Write + IsTerminal>(
    rt: &R,
    dir: &str,
    task: &Task<'_>,
    input: &mut I,
    output: &mut O,
    errors: &mut E,
    is_shown: bool,
) -> Result<Told, KeysFault> {
    let mut watch = Progress::new(rt, Some(dir), errors, is_shown);
    let end = perform(rt, dir, MAX_LEASES, task, input, output, &mut watch);
    watch.rest();
    end
}

/// Does a task over tables, and says on standard error how far it is.
fn performed_named<R: Host, I: Read, O: Write, E: Write + IsTerminal>(
    rt: &R,
    dir: &str,
    task: &TablesTask<'_>,
    input: &mut I,
    output: &mut O,
    errors: &mut E,
    is_shown: bool,
) -> Result<Told, KeysFault> {
    let mut watch = Progress::new(rt, Some(dir), errors, is_shown);
    let end = bw_named::perform(rt, dir, MAX_LEASES, task, input, output, &mut watch);
    watch.rest();
    end
}

/// Says what a task came to, and answers the exit status. The outputs are flushed before.
fn finished<R: Host, O: Write, E: Write>(
    rt: &R,
    dir: &str,
    task: Option<&Task<'_>>,
    end: Result<Told, KeysFault>,
    output: &mut O,
    errors: &mut E,
) -> u8 {
    let end = written(end, output);
    let status = told(&end, dir, task, errors);
    let is_told = match refusal_of(&end) {
        Some(refusal) => tell_files(rt, dir, refusal, errors).is_ok(),
        None => true,
    };
    if is_told && errors.flush().is_ok() {
        status
    } else {
        6
    }
}

/// Does a task over the keys of a folder, and answers the exit status: 0, also if nobody reads the
/// output any more; 1 if a key has no value; 2 if a word is no key or value; 3 at a line that is no
/// pair; 4, 5 and 6 as of `run`. The outputs are flushed before it answers.
pub fn keys<R: Host, I: Read, O: Write, E: Write + IsTerminal>(
    rt: &R,
    dir: &str,
    task: &Task<'_>,
    input: &mut I,
    output: &mut O,
    errors: &mut E,
    is_shown: bool,
) -> u8 {
    let end = performed(rt, dir, task, input, output, errors, is_shown);
    finished(rt, dir, Some(task), end, output, errors)
}

/// The task over the keys of one table, if it is one.
fn inner<'b>(task: &'b TablesTask<'b>) -> Option<&'b Task<'b>> {
    match task {
        TablesTask::Table(_, task) => Some(task),
        _ => None,
    }
}

/// Does a task over tables, and answers the exit status as `keys` does.
pub fn tables<R: Host, I: Read, O: Write, E: Write + IsTerminal>(
    rt: &R,
    dir: &str,
    task: &TablesTask<'_>,
    input: &mut I,
    output: &mut O,
    errors: &mut E,
    is_shown: bool,
) -> u8 {
    let end = performed_named(rt, dir, task, input, output, errors, is_shown);
    finished(rt, dir, inner(task), end, output, errors)
}
