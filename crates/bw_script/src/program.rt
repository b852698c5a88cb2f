//! The program over any reader and writers: the command line, what it asks for, and the exit
//! status.

use crate::keyed::{keys, tables};
use crate::replay::replay;
use bw_file::FolderFault;
use bw_look::{Moment, Note, Printer, Progress, Watch};
use bw_segments::{
    compact, copy, follow, look, restore, salvage, scan, tell_far, tell_located, tell_unheeded,
    upgrade, upgrade_folder, verify,
};
use bw_words::{Host, Manner, Met, Mode, Refusal, Stop, is_memory, mode_of, print};
use bw_writers::threads;
use clap::Error;
use std::io::{ErrorKind, IsTerminal, Read, Write};

/// Does what the command line asks for, and says how far that is.
fn go<R: Host, I: Read, O: Write, W: Watch>(
    rt: &R,
    mode: &Mode<'_>,
    input: &mut I,
    output: &mut O,
    watch: &mut W,
) -> Result<Met, Stop> {
    match mode {
        Mode::Lines(options, manner) => replay(rt, options, *manner, input, output, watch),
        Mode::Threads(options, pace) => threads(rt, options, input, output, *pace, watch),
        Mode::Scan(dir) => scan(rt, *dir, input, output, watch),
        Mode::Look(view, dir) => look(rt, *view, *dir, input, output, watch),
        Mode::Verify(dir, report) => verify(rt, *dir, *report, output, watch),
        Mode::Copy(ends) => copy(rt, *ends, output, watch),
        Mode::Follow(ends, every) => follow(rt, *ends, *every, output, watch),
        Mode::Compact(ends, options) => compact(rt, *ends, options, output, watch),
        Mode::Salvage(ends) => salvage(rt, *ends, output, watch),
        Mode::Restore(ends, as_of) => restore(rt, *ends, *as_of, output, watch),
        Mode::Upgrade(None) => upgrade(rt, input, output),
        Mode::Upgrade(Some(path)) => upgrade_folder(rt, *path, output, watch),
        // `run` does these.
        Mode::Keys(..) | Mode::Named(..) => Ok(Met::NOTHING),
    }
}

/// Does what a mode asks for, by a watch on standard error. It says first what the folder does not
/// heed.
fn start<R: Host, I: Read, O: Write, E: Write + IsTerminal>(
    rt: &R,
    mode: &Mode<'_>,
    input: &mut I,
    output: &mut O,
    errors: &mut E,
    is_shown: bool,
) -> Result<Met, Stop> {
    if let Some((dir, options)) = mode.in_folder() {
        tell_unheeded(rt, dir, &options, errors)?;
    }
    let mut watch = Progress::new(rt, mode.dir(), errors, is_shown).hearing(mode.hearing());
    let end = go(rt, mode, input, output, &mut watch);
    watch.rest();
    end
}

/// Says which file of the folder that was read keeps a run out, if there is no lease for it; and
/// which are at fault, if recovery refused them.
fn tell_files<R: Host, E: Write>(rt: &R, dir: &str, met: Met, errors: &mut E) -> Result<(), Stop> {
    if met.far {
        tell_far(rt, dir, errors)?;
    }
    match met.cause {
        Some(cause) => tell_located(rt, dir, cause, errors),
        None => Ok(()),
    }
}

/// Does what a mode asks for, and then says what is to be said of its folder.
fn ended<R: Host, I: Read, O: Write, E: Write + IsTerminal>(
    rt: &R,
    mode: &Mode<'_>,
    input: &mut I,
    output: &mut O,
    errors: &mut E,
    is_shown: bool,
) -> Result<Met, Stop> {
    let met = start(rt, mode, input, output, errors, is_shown)?;
    if met.far || met.cause.is_some() {
        if let Some(dir) = mode.source() {
            // What was printed stands before it, wherever the two streams end.
            if output.flush().is_err() {
                return Err(Stop::Output);
            }
            tell_files(rt, dir, met, errors)?;
        }
    }
    Ok(met)
}

/// Prints why words are no command line.
fn usage<E: Write>(error: &Error, errors: &mut E) -> Stop {
    if is_memory(error) {
        return Stop::NoMemory;
    }
    match write!(errors, "{error}") {
        Ok(()) => Stop::Usage,
        Err(_) => Stop::Output,
    }
}

/// The folders of a run.
#[derive(Clone, Copy)]
struct Folders<'a> {
    /// The one that is opened.
    dir: &'a str,
    /// The one that is read.
    source: &'a str,
}

impl<'a> Folders<'a> {
    /// Those of a mode. If it has none, none is named.
    fn of(mode: &Mode<'a>) -> Folders<'a> {
        Folders {
            dir: mode.dir().unwrap_or(""),
            source: mode.source().unwrap_or(""),
        }
    }
}

/// Says why a new folder was not made under the name that it has meanwhile.
fn tell_partial<E: Write>(out: &mut Printer<'_, E>, front: &str, fault: FolderFault) {
    out.named("folder ", front);
    out.line(".partial: ", fault);
    if is_there(fault) {
        out.named("it is not what an earlier run left: give ", front);
        out.text(b".partial another name, and run this again\n");
    }
}

/// Says why a folder was not moved, of which a whole copy takes the place.
fn tell_old<E: Write>(out: &mut Printer<'_, E>, front: &str, fault: FolderFault) {
    out.named("folder ", front);
    out.line(".old: ", fault);
    if is_there(fault) {
        out.named("the folder ", front);
        out.text(
            b".old is no copy that an earlier run replaced: give it another name, and run this again\n",
        );
    }
}

/// Says why a run ended at a fault, without its input, or without its folder.
fn tell_stop<E: Write>(errors: &mut E, folders: Folders<'_>, stop: Stop) -> Result<(), Stop> {
    let mut out = Printer::new(errors);
    match stop {
        Stop::Fault(number, fault) => {
            out.named("script line ", number);
            out.line(": ", fault);
        }
        Stop::Folder(fault) => {
            out.named("folder ", folders.dir);
            out.line(": ", fault);
        }
        Stop::Source(fault) => {
            out.named("folder ", folders.source);
            out.line(": ", fault);
        }
        Stop::Partial(fault) => tell_partial(&mut out, folders.dir.trim_end_matches('/'), fault),
        Stop::Old(fault) => tell_old(&mut out, folders.dir.trim_end_matches('/'), fault),
        Stop::Strayed(segment) => {
            out.named("folder ", folders.dir);
            out.named(": its segment ", segment);
            out.line(
                " is not that of the folder that it follows, ",
                folders.source,
            );
        }
        Stop::NoFollower(cause) => {
            out.named("folder ", folders.dir);
            out.line(": no store that follows another one: ", cause);
        }
        Stop::NoStore => {
            out.named("folder ", folders.source);
            out.text(b": no store\n");
        }
        Stop::HasTables => {
            out.named("folder ", folders.dir);
            out.text(b": it has tables: bwlog serve --tables serves them\n");
        }
        Stop::NoTables => {
            out.named("folder ", folders.dir);
            out.text(b": it has pairs that are no table's\n");
        }
        Stop::Within => {
            out.named("folder ", folders.dir);
            out.line(": it lies in the folder that is read, ", folders.source);
        }
        Stop::Unlike => {
            out.named("folder ", folders.dir.trim_end_matches('/'));
            out.text(b".partial: it does not hold what was read\n");
        }
        Stop::BadTime => out.text(
            b"error: --time: neither a time as 2026-11-29T18:20:27Z nor seconds since 1970\n",
        ),
        Stop::NotNoted(moment, first) => tell_not_noted(&mut out, folders.source, moment, first),
        Stop::GivenUp { frame, oldest } => {
            out.named("folder ", folders.source);
            out.named(": frame ", frame);
            out.line(
                " cannot be restored, since a segment was given up after it: the oldest that can is ",
                oldest,
            );
        }
        _ => out.text(b"input failed\n"),
    }
    out.end()?;
    Ok(())
}

/// Says that no frame was noted at a moment or before it.
fn tell_not_noted<E: Write>(
    out: &mut Printer<'_, E>,
    folder: &str,
    moment: Moment,
    first: Option<Note>,
) {
    out.named("folder ", folder);
    match first {
        Some(note) => {
            out.named(": no frame was noted at ", moment);
            out.named(" or before: the first is ", note.frame);
            out.line(", at ", note.moment);
        }
        None => out.text(b": no frame was noted with its time\n"),
    }
}

/// What to do if the log had no room. A mode says it whose lines can make some.
fn advice_of(mode: &Mode<'_>) -> Option<&'static [u8]> {
    match mode {
        Mode::Lines(_, manner) if manner.is_served() || manner.is_shell() => None,
        Mode::Lines(options, _) if options.most > 0 => Some(
            b"the log is full, with as many segments as --most-segments adds: a greater number, or \
                `clean` and `add`, make room\n",
        ),
        Mode::Lines(options, _) if options.reuse => Some(
            b"the log is full: `clean` gives up its oldest segment, whose room is a spare again\n",
        ),
        Mode::Lines(..) => Some(
            b"the log is full: `clean` gives up its oldest segment, and `add` adds a new one\n",
        ),
        _ => None,
    }
}

/// Says what to do if the log had no room, after what was printed.
fn hint<O: Write, E: Write>(output: &mut O, errors: &mut E, advice: &[u8]) -> Result<(), Stop> {
    if output.flush().is_err() {
        return Err(Stop::Output);
    }
    let mut out = Printer::new(errors);
    out.text(advice);
    out.end()?;
    Ok(())
}

/// The exit status of a run that came to its end, if it says what to do in a full log.
fn status_of_end<O: Write, E: Write>(
    met: Met,
    advice: Option<&[u8]>,
    output: &mut O,
    errors: &mut E,
) -> u8 {
    match advice {
        Some(advice) if met.full => match hint(output, errors, advice) {
            Ok(()) => 4,
            Err(_) => 6,
        },
        _ if met.refusal => 4,
        _ if met.bare => 7,
        _ => 0,
    }
}

/// Whether the system says that a name is taken.
fn is_there(fault: FolderFault) -> bool {
    match fault {
        FolderFault::System(error) => error.kind() == ErrorKind::AlreadyExists,
        _ => false,
    }
}

/// Prints what an end has to say, and gives its exit status.
fn status_of<O: Write, E: Write>(
    end: Result<Met, Stop>,
    folders: Folders<'_>,
    advice: Option<&[u8]>,
    output: &mut O,
    errors: &mut E,
) -> u8 {
    match end {
        Ok(met) => status_of_end(met, advice, output, errors),
        Err(Stop::Usage) => 2,
        Err(Stop::Output) => 6,
        Err(Stop::NoMemory) => match print(output, "", Refusal::NO_MEMORY) {
            Ok(()) => 5,
            Err(_) => 6,
        },
        Err(stop) => {
            // What earlier lines printed stands before it, wherever the two streams end.
            let is_told = output.flush().is_ok() && tell_stop(errors, folders, stop).is_ok();
            match stop {
                Stop::BadTime if is_told => 2,
                Stop::Fault(..) if is_told => 3,
                Stop::NotNoted(..) | Stop::GivenUp { .. } if is_told => 4,
                Stop::HasTables | Stop::NoTables if is_told => 4,
                Stop::Folder(fault) | Stop::Source(fault) | Stop::Partial(fault)
                    if is_told && fault.is_damage() => 4,
                _ => 6,
            }
        }
    }
}

/// Does what the words of a mode ask for, that is not one over keys, and answers its exit status.
fn run_mode<R: Host, I: Read, O: Write, E: Write + IsTerminal>(
    rt: &R,
    mode: &Mode<'_>,
    input: &mut I,
    output: &mut O,
    errors: &mut E,
    is_shown: bool,
) -> u8 {
    let end = ended(rt, mode, input, output, errors, is_shown);
    status_of(end, Folders::of(mode), advice_of(mode), output, errors)
}

/// Prints why words are no command line, and answers the exit status.
fn run_usage<O: Write, E: Write>(error: &Error, output: &mut O, errors: &mut E) -> u8 {
    let none = Folders {
        dir: "",
        source: "",
    };
    status_of(Err(usage(error, errors)), none, None, output, errors)
}

/// Says that the input is waited for, and how it ends.
fn tell_typed<E: Write>(errors: &mut E, manner: Option<Manner>) -> Result<(), Stop> {
    let mut out = Printer::new(errors);
    match manner {
        Some(Manner::Shell | Manner::Prompted) => {
            out.text(b"help lists the commands; quit, or Ctrl-D, ends\n");
        }
        _ => out.text(b"reading the terminal, up to an end of input (Ctrl-D)\n"),
    }
    if manner.is_some_and(|manner| manner.is_served()) {
        out.text(b"these are the requests of a program; for people there is bwlog shell\n");
    }
    out.end()?;
    Ok(())
}

/// Runs the program on the words after its name, and answers its exit status: 0; 1 if `get` finds
/// no value; 2 if the words are no command line; 3 at a fault of the script; 4 if something was
/// refused, a writer gave up, or a file of the folder is damaged; 5 at once if a growth was
/// refused; 6 if a read or a write failed; 7 if `verify` found no fault, and bytes without a
/// digest. The outputs are flushed before it answers. If the errors go to a terminal, it shows
/// there how far long work is; of a listing only if the output is not shown on one. If the input is
/// typed on a terminal, a mode that reads it says so before.
pub fn run<R: Host, I: Read, O: Write, E: Write + IsTerminal>(
    rt: &R,
    words: &[&str],
    input: &mut I,
    output: &mut O,
    errors: &mut E,
    is_shown: bool,
    is_typed: bool,
) -> u8 {
    let mode = match mode_of(rt.alloc(), words) {
        Ok(mode) => mode,
        Err(error) => {
            let status = run_usage(&error, output, errors);
            return written_out(status, output, errors);
        }
    };
    if is_typed && mode.reads_input() && tell_typed(errors, mode.manner()).is_err() {
        return 6;
    }
    if let Mode::Keys(dir, task) = &mode {
        return keys(rt, *dir, task, input, output, errors, is_shown);
    }
    if let Mode::Named(dir, task) = &mode {
        return tables(rt, *dir, task, input, output, errors, is_shown);
    }
    let mode = if is_typed && is_shown {
        mode.on_terminal()
    } else {
        mode
    };
    let status = run_mode(rt, &mode, input, output, errors, is_shown);
    written_out(status, output, errors)
}

/// The exit status, once the outputs are written out.
fn written_out<O: Write, E: Write>(status: u8, output: &mut O, errors: &mut E) -> u8 {
    let is_printed = output.flush().is_ok();
    let is_told = errors.flush().is_ok();
    if is_printed && is_told { status } else { 6 }
}
