//! What commands come to, and how that is printed.

ghost use Rattle.bw_home.specs.Ready.{IsReady};

use crate::events::{FIRST, Standing, numbers_of};
use crate::tables::{TableAnswer, write_table_answer};
use bw_codec::{Key, Leaf, Pair, Value};
use bw_core::{Cleaned, PackedEntry};
use bw_file::FolderFault;
use bw_home::Home;
use bw_look::{Printer, write_page, write_word};
use bw_rescue::Copied;
use bw_words::{Fault, Stop, write_dump, write_entry, write_pair_line, write_value};
use std::io::Write;

/// What a command comes to.
#[derive(Drop)]
pub enum Answer {
    /// Whether a group found a place in its writer's ring.
    Put(bool),
    /// The key has not what a put asks of it, and nothing was put.
    Kept,
    /// It is as it was asked for already, and nothing was put.
    Unchanged,
    /// What is asked cannot be, for this reason.
    Fault(Fault),
    /// The number that a key has from now on.
    Number(i64),
    /// How many records a turn took.
    Took(u64),
    /// The frame that was appended, if something waited.
    Frame(Option<u64>),
    /// The length of the history, once all that was accepted is taken and appended.
    Settled(u64),
    Page(Leaf),
    Value(Option<Value>),
    /// The values of some keys, in their order.
    Values(Vec<Option<Value>>),
    /// The first pair at or above a key, if there is one.
    Pair(Option<(Key, Value)>),
    /// Some pairs, in the order of their keys.
    Pairs(Vec<Pair>),
    /// How many pairs there are.
    Count(u64),
    /// How many pages there are.
    Pages(u32),
    /// The number of the last frame that was appended; 0 before the first.
    Durable(u64),
    /// Whether the page left memory.
    Evicted(bool),
    /// In how many frames a page was written again.
    Rewritten(u64),
    /// From how many frames a page is read.
    Walk(u64),
    /// What was given up with the oldest segment.
    Cleaned(Cleaned),
    /// What was given up with the oldest segment, and by how many bytes the live segments got
    /// shorter.
    Won(Cleaned, u64),
    Rolled,
    /// The bytes of a segment.
    Dump(Vec<u8>),
    /// A spare was made. It is reported once it was added.
    Spare,
    /// What a new folder holds.
    Copied(Copied),
    /// No new folder was made, by the name of the one at fault and the reason.
    NotCopied(String, FolderFault),
    /// The leases that are out.
    Leases(Vec<u32>),
    // What is printed as the store has it.
    History,
    Cuts,
    Segments,
    /// With what is said of the store beside what it says itself.
    Stats(Standing),
    /// What a call on tables comes to.
    Tables(TableAnswer),
}

fn write_cleaned<O: Write>(out: &mut Printer<'_, O>, cleaned: &Cleaned) {
    out.named("cleaned segment ", cleaned.segment);
    out.named(" lease ", cleaned.lease);
    out.named(" pages ", cleaned.pages);
    out.named(" frames ", cleaned.frames);
}

fn write_copied<O: Write>(out: &mut Printer<'_, O>, copied: Copied) {
    out.named("copied frame ", copied.frame);
    out.named(" pages ", copied.pages);
    out.line(" pairs ", copied.pairs);
}

fn write_pairs<O: Write>(out: &mut Printer<'_, O>, pairs: &[Pair]) {
    out.named("pairs ", pairs.len());
    for pair in pairs {
        out.text(b" ");
        write_word(out, pair.key());
        out.text(b"=");
        write_word(out, pair.value());
    }
    out.text(b"\n");
}

/// The word of a value. If there is none it is `=`, which no value has in its word.
fn write_word_of<O: Write>(out: &mut Printer<'_, O>, value: Option<&Value>) {
    match value {
        Some(value) => write_word(out, value.as_slice()),
        None => out.text(b"="),
    }
}

/// A word for each value.
fn write_values<O: Write>(out: &mut Printer<'_, O>, values: &[Option<Value>]) {
    out.text(b"values");
    for value in values {
        out.text(b" ");
        write_word_of(out, value.as_ref());
    }
    out.text(b"\n");
}

/// An answer that says all by itself.
fn write_answer<O: Write>(out: &mut Printer<'_, O>, answer: &Answer) {
    match answer {
        Answer::Put(true) => out.text(b"ok\n"),
        Answer::Put(false) => out.text(b"full\n"),
        Answer::Took(count) => out.line("took ", *count),
        Answer::Frame(Some(frame)) => out.line("frame ", *frame),
        Answer::Frame(None) => out.text(b"no frame\n"),
        Answer::Settled(length) => out.line("settled ", *length),
        Answer::Page(leaf) => write_page(out, leaf),
        Answer::Value(value) => write_value(out, value.as_ref()),
        Answer::Pair(pair) => write_pair_line(out, pair.as_ref()),
        Answer::Pairs(pairs) => write_pairs(out, pairs.as_slice()),
        Answer::Count(count) => out.line("count ", *count),
        Answer::Pages(count) => out.line("pages ", *count),
        Answer::Durable(frame) => out.line("durable ", *frame),
        Answer::Evicted(true) => out.text(b"evicted\n"),
        Answer::Evicted(false) => out.text(b"kept\n"),
        Answer::Rewritten(frames) => out.line("rewritten frames ", *frames),
        Answer::Walk(frames) => out.line("walk ", *frames),
        Answer::Cleaned(cleaned) => {
            write_cleaned(out, cleaned);
            out.text(b"\n");
        }
        Answer::Won(cleaned, bytes) => {
            write_cleaned(out, cleaned);
            out.line(" won ", *bytes);
        }
        Answer::Rolled => out.text(b"rolled\n"),
        Answer::Dump(bytes) => write_dump(out, bytes.as_slice()),
        Answer::Leases(leases) => write_leases(out, leases.as_slice()),
        Answer::Copied(copied) => write_copied(out, *copied),
        Answer::NotCopied(folder, fault) => {
            out.text(b"fault folder ");
            write_word(out, folder.as_bytes());
            out.line(": ", *fault);
        }
        answer => write_of_key(out, answer),
    }
}

/// An answer of a put that hangs on its key, or of several keys.
fn write_of_key<O: Write>(out: &mut Printer<'_, O>, answer: &Answer) {
    match answer {
        Answer::Values(values) => write_values(out, values.as_slice()),
        Answer::Unchanged => out.text(b"ok\n"),
        Answer::Kept => out.text(b"kept\n"),
        Answer::Fault(fault) => out.line("fault ", *fault),
        Answer::Number(number) => out.line("value ", *number),
        _ => {}
    }
}

/// The history, after a line that says how much of it left memory, if some did.
fn write_history<O: Write>(out: &mut Printer<'_, O>, forgotten: u64, entries: &[PackedEntry]) {
    if forgotten > 0 {
        out.line("forgotten ", forgotten);
    }
    out.line("history ", entries.len());
    for entry in entries {
        write_entry(out, &entry.entry());
    }
}

fn write_cuts<O: Write>(out: &mut Printer<'_, O>, cuts: &[u64]) {
    out.text(b"cuts");
    for cut in cuts {
        out.named(" ", *cut);
    }
    out.text(b"\n");
}

fn write_segments<O: Write>(out: &mut Printer<'_, O>, home: &Home)
    requires { IsReady home.now holding }
{
    for i in 0..home.store.live() {
        if let Some((segment, lease, length)) = home.store.live_segment(i) {
            out.named("segment ", segment);
            out.named(" lease ", lease);
            out.line(" bytes ", length);
        }
    }
    out.line("spares ", home.store.spares());
}

fn write_leases<O: Write>(out: &mut Printer<'_, O>, leases: &[u32]) {
    out.text(b"out");
    for lease in leases {
        out.named(" ", *lease);
    }
    out.text(b"\n");
}

/// Numbers by their names.
fn write_numbers<O: Write>(out: &mut Printer<'_, O>, numbers: &[(&'static str, u64)]) {
    for (name, number) in numbers {
        out.named(" ", *name);
        out.named(" ", *number);
    }
}

/// All numbers of a store on one line, with a word if an append failed, and one if its segments are
/// near the most that there may be.
fn write_stats<O: Write>(out: &mut Printer<'_, O>, home: &Home, standing: Standing)
    requires { IsReady home.now holding }
{
    let numbers = numbers_of(home, standing);
    out.named("", numbers[0].0);
    out.named(" ", numbers[0].1);
    write_numbers(out, &numbers[1..FIRST]);
    if standing.has_failed {
        out.text(b" failed");
    }
    write_numbers(out, &numbers[FIRST..]);
    out.text(if standing.is_near(home) {
        b" near\n"
    } else {
        b"\n"
    });
}

/// Writes an answer of this store.
fn write_all<O: Write>(out: &mut Printer<'_, O>, home: &Home, answer: &Answer)
    requires { IsReady home.now holding }
{
    match answer {
        Answer::History => write_history(out, home.store.forgotten(), home.store.history()),
        Answer::Cuts => write_cuts(out, home.store.cuts()),
        Answer::Segments => write_segments(out, home),
        Answer::Stats(standing) => write_stats(out, home, *standing),
        Answer::Tables(answer) => write_table_answer(out, answer),
        _ => write_answer(out, answer),
    }
}

/// Prints an answer.
pub fn tell<O: Write>(home: &Home, output: &mut O, answer: &Answer) -> Result<(), Stop>
    requires { IsReady home.now holding }
{
    let mut out = Printer::new(output);
    write_all(&mut out, home, answer);
    out.end()?;
    Ok(())
}
