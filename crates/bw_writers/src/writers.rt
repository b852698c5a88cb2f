//! `bwlog threads`: the scripts of several writers, each by a thread of its own, over one store.

ghost use Rattle.std.specs.Prelude.{◌≡◌, vec_len, IfOk};
ghost use Rattle.bw_home.specs.Sharing.{IsShared};

use crate::legs::{Legs, empty_scripts, lengths_of, put_behind};
use crate::readers::{Courses, Readers, Seen};
use crate::room::Made;
use crate::runs::pairs_of;
use bw_codec::{Key, Value};
use bw_home::{SharedHome, SharedLegs, with_readers};
use bw_look::{Printer, Watch};
use bw_pairs::{Lines, READS};
use bw_ring::Group;
use bw_words::{
    Host, LONGEST, Met, Miss, Options, Pace, Stop, leases_in, missed, no_input, parse_group,
    print_found, write_pairs,
};
use std::alloc::{AllocError, Global};
use std::io::{Read, Write};

// Reads a line and does what it asks for; `false` if there was none.
fn read_group<I: Read>(
    lines: &mut Lines<&mut I>,
    scripts: &mut Vec<Vec<Group>>,
    writers: usize,
) -> Result<bool, Stop>
    ensures { vec_len scripts.new ≡ vec_len scripts.old }
{
    if !lines.read_line().map_err(no_input)? {
        return Ok(false);
    }
    match parse_group(lines.line(), writers) {
        Ok(Some((writer, group))) => put_behind(scripts, writer, group)?,
        Ok(None) => {}
        Err(fault) => return Err(Stop::Fault(lines.number(), fault)),
    }
    Ok(true)
}

// The script of each writer, from all lines.
fn read_lines<I: Read>(
    alloc: Global,
    lines: &mut Lines<&mut I>,
    writers: usize,
) -> Result<Vec<Vec<Group>>, Stop>
    ensures { IfOk result (λ s. vec_len s ≡ writers) }
{
    let mut scripts = empty_scripts(alloc, writers)?;
    'lines: for _ in 0..u64::MAX {
        if !read_group(lines, &mut scripts, writers)? {
            break;
        }
    }
    Ok(scripts)
}

// The script of each writer, from the whole input.
fn read_scripts<I: Read>(
    alloc: Global,
    input: &mut I,
    writers: usize,
) -> Result<Vec<Vec<Group>>, Stop>
    ensures { IfOk result (λ s. vec_len s ≡ writers) }
{
    let mut lines = Lines::new(alloc, input, READS, LONGEST).map_err(no_input)?;
    read_lines(alloc, &mut lines, writers)
}

/// Prints how many records of each script were accepted, and answers whether a writer gave up.
fn write_accepted<O: Write>(out: &mut Printer<'_, O>, accepted: &[u64], lengths: &[u64]) -> bool {
    let mut gave_up = false;
    for (writer, (accepted, length)) in accepted.iter().zip(lengths).enumerate() {
        out.named("writer ", writer);
        out.named(" ", *accepted);
        out.line(" of ", *length);
        gave_up |= accepted < length;
    }
    gave_up
}

/// Prints how many pairs a reader has, and answers whether it saw a key go back, or has not as many
/// as the store.
fn write_reader<O: Write>(out: &mut Printer<'_, O>, number: usize, seen: Seen, pairs: u64) -> bool {
    out.named("reader ", number);
    out.line(" pairs ", seen.pairs);
    if !seen.is_sound {
        out.named("reader ", number);
        out.text(b" went back\n");
    }
    let is_behind = seen.pairs != pairs;
    if is_behind {
        out.named("reader ", number);
        out.text(b" is behind\n");
    }
    !seen.is_sound || is_behind
}

/// Prints how many pairs each reader has, and answers whether one of them saw a key go back, or has
/// not as many as the store.
fn write_readers<O: Write>(out: &mut Printer<'_, O>, readers: &[Seen], pairs: u64) -> bool {
    let mut is_wrong = false;
    for (number, seen) in readers.iter().enumerate() {
        is_wrong |= write_reader(out, number, *seen, pairs);
    }
    is_wrong
}

/// Prints what a run left, and answers whether a writer gave up, or a reader saw what it must not.
fn print_run<O: Write>(
    output: &mut O,
    legs: &Legs,
    lengths: &[u64],
    pairs: &[(Key, Value)],
    readers: &[Seen],
) -> Result<Met, Stop> {
    let mut out = Printer::new(output);
    out.line("entries ", legs.entries);
    let gave_up = write_accepted(&mut out, legs.accepted.as_slice(), lengths);
    write_pairs(&mut out, pairs);
    let is_wrong = write_readers(&mut out, readers, pairs.len() as u64);
    out.end()?;
    Ok(Met {
        refusal: gave_up || is_wrong,
        ..Met::NOTHING
    })
}

/// The scripts of all writers, over a store.
#[derive(Drop)]
struct Writers<'a, O> {
    options: &'a Options<'a>,
    pace: Pace,
    output: &'a mut O,
    legs: Legs,
    /// How many segments there were with the first that was added by itself, and with the last: 0
    /// before the first.
    added: (u32, u32),
    /// How many records each script has.
    lengths: Vec<u64>,
    /// The keys that the readers look up, before the first leg.
    courses: Option<Courses>,
    readers: Readers,
}

impl<O: Write> Writers<'_, O> {
    /// Before the first leg: says what was found, and starts the readers.
    fn begin<R: Host>(&mut self, rt: &R, home: &mut SharedHome) -> Result<(), Miss>
        requires { IsShared home.old holding }
        ensures { IsShared home.new holding }
    {
        let Some(courses) = self.courses.take() else {
            return Ok(());
        };
        print_found(self.output, home.found())?;
        self.readers.start(rt, home, self.pace.readers, courses)
    }

    /// A segment was added by itself: so many there are.
    fn count_added(&mut self, segments: u32) {
        let (first, _) = self.added;
        self.added = (if first == 0 { segments } else { first }, segments);
    }

    /// Says what a run left in the store and beside it, and answers whether a writer gave up, or a
    /// reader saw what it must not.
    fn tell_run<R: Host>(&mut self, rt: &R, home: &mut SharedHome) -> Result<Met, Stop>
        requires { IsShared home.old holding }
        ensures { IsShared home.new holding }
    {
        let readers = self.readers.end(rt)?;
        let mut pairs = match pairs_of(rt.alloc(), home) {
            Ok(pairs) => pairs,
            Err(miss) => return missed(self.output, 0, miss),
        };
        pairs.sort()?;
        print_run(
            self.output,
            &self.legs,
            self.lengths.as_slice(),
            pairs.as_slice(),
            readers.as_slice(),
        )
    }
}

impl<R: Host, O: Write> SharedLegs<R> for Writers<'_, O> {
    type Answer = Result<Met, Stop>;

    // Runs legs until a spare was made. One that cannot be added is none.
    fn leg(&mut self, rt: &R, home: &mut SharedHome) -> Option<Result<Met, Stop>> {
        if let Err(miss) = self.begin(rt, home) {
            return Some(missed(self.output, 0, miss));
        }
        match self.legs.go_on(rt, home, self.options, self.pace) {
            Ok(Some(Made::Again)) => None,
            Ok(Some(Made::Further)) => {
                // The spare that was made is added after this leg.
                let segments = home.store.live().saturating_add(home.store.spares());
                self.count_added(segments.saturating_add(1));
                None
            }
            Ok(None) => Some(self.tell_run(rt, home)),
            Err(miss) => Some(missed(self.output, 0, miss)),
        }
    }
}

/// Reports the segments that were added by themselves, from so many on.
fn tell_added<W: Watch>(watch: &mut W, added: (u32, u32)) {
    let (first, last) = added;
    for segments in first..last.saturating_add(1) {
        if segments > 0 {
            watch.added(segments);
        }
    }
}

/// Reads the writers' scripts, makes a store, or goes on from the one in a folder, and runs all
/// writers over it; answers whether something was refused, or a writer gave up.
pub fn threads<R: Host, I: Read, O: Write, W: Watch>(
    rt: &R,
    options: &Options<'_>,
    input: &mut I,
    output: &mut O,
    pace: Pace,
    watch: &mut W,
) -> Result<Met, Stop> {
    let scripts = read_scripts(rt.alloc(), input, options.store.writers)?;
    let lengths = lengths_of(rt.alloc(), scripts.as_slice())?;
    let courses = if pace.readers > 0 {
        Courses::of(rt.alloc(), scripts.as_slice())?
    } else {
        Courses::none(rt.alloc())
    };
    let mut writers = Writers {
        options,
        pace,
        output: &mut *output,
        legs: Legs::new(rt.alloc(), options, scripts)?,
        added: (0, 0),
        lengths,
        courses: Some(courses),
        readers: Readers::none(rt.alloc())?,
    };
    let leases = leases_in(rt, options.dir);
    let places = pace.readers.max(1) as usize;
    let store = &options.store;
    // If a refusal ended the run, the store has shut its readers out, and they come to their end.
    let end = with_readers(rt, options.dir, leases, places, store, &mut writers);
    tell_added(watch, writers.added);
    let met = match end {
        Ok(end) => end?,
        Err(fault) => missed(writers.output, 0, Miss::from(fault))?,
    };
    // No line of a script could make room, so no more is said of a full log.
    Ok(Met { full: false, ..met })
}
