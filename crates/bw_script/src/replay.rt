//! `bwlog replay`: a script over one store, line by line; `bwlog serve`, by the same lines, but each is
//! a request that has one line of answer, whatever it is; and `bwlog shell`, whose lines a person types,
//! by the same requests.

ghost use Rattle.bw_home.specs.Ready.{IsReady};

use crate::answers::Answer;
use crate::mark::{Kind, kind_of};
use crate::noting::joined;
use crate::script::{Done, Script};
use crate::shell::Shell;
use crate::tended::Tending;
use bw_device::MAX_LEASES;
use bw_home::{Home, Legs, with_store_at};
use bw_look::{Watch, Work, folder_bytes};
use bw_pairs::{Lines, READS};
use bw_words::{
    LONGEST, LONGEST_OF_TABLES, Manner, Met, Miss, Options, Stop, System, leases_in, missed,
    no_input,
};
use std::io::{Read, Write};

impl<I: Read + Drop, O: Write, W: Watch> Script<'_, I, O, W> {
    /// The lines that are left go to a store that is opened once more.
    pub(crate) fn begin_anew(&mut self, options: &Options<'_>) {
        self.tending = Tending::new(options);
        self.done = None;
    }

    /// Whether a store that has this may be opened in this manner.
    pub(crate) fn fits(&self, kind: Kind) -> Result<(), Stop> {
        match (self.manner, kind) {
            (Manner::Tables, Kind::Plain) => Err(Stop::NoTables),
            (Manner::Requests | Manner::Shell | Manner::Prompted, Kind::Tables) => {
                Err(Stop::HasTables)
            }
            _ => Ok(()),
        }
    }

    /// Whether the store that was opened may be: it has tables only if they are served.
    pub(crate) fn look_first(&mut self, home: &mut Home) -> Result<Met, Stop>
        requires { IsReady home.old holding }
        ensures { IsReady home.new holding }
    {
        match kind_of(home) {
            Ok(kind) => self.fits(kind).map(|()| Met::NOTHING),
            Err(fault) => {
                self.done = Some(Done::End);
                self.missed(Miss::from(fault))
            }
        }
    }

    /// Ends the run before its first line, if the store may not be opened so. What a stop left half
    /// done of tables is finished before the first call on them.
    pub(crate) fn check(&mut self, home: &mut Home)
        requires { IsReady home.old holding }
        ensures { IsReady home.new holding }
    {
        if self.done.is_some() {
            return;
        }
        self.tending.owe();
        let looked = self.look_first(home);
        self.end = joined(self.end, looked);
        if self.end.is_err() {
            self.done = Some(Done::End);
        }
    }

    /// What stands before the lines of a leg.
    pub(crate) fn begin_leg(&mut self, home: &Home)
        requires { IsReady home.now holding }
    {
        self.tell_cleaning(home);
        self.tell_further(home);
        match (self.done, home.added()) {
            (None, _) => self.begin(home),
            (Some(_), Some(added)) => self.tell_spare(home, added),
            _ => {}
        }
    }
}

impl<R: System, I: Read + Drop, O: Write, W: Watch> Legs<R> for Script<'_, I, O, W> {
    type Answer = Result<Met, Stop>;

    fn leg(&mut self, rt: &R, home: &mut Home) -> Option<Result<Met, Stop>> {
        self.check(home);
        self.begin_leg(home);
        self.do_lines(rt, home);
        if !matches!(self.done, Some(Done::End | Done::Reopen)) {
            return None;
        }
        self.tell_end(home);
        Some(self.end)
    }
}

/// How many bytes the folder of a run has, if it has one and somebody hears of it.
fn held_in<R: System, W: Watch>(rt: &R, options: &Options<'_>, watch: &W) -> u64 {
    match options.dir {
        Some(dir) => folder_bytes(rt, dir, MAX_LEASES, watch),
        None => 0,
    }
}

// Runs the lines over the store that is there; `None` if its folder is to be opened once more.
fn run_store<R: System, I: Read + Drop, O: Write, W: Watch>(
    rt: &R,
    options: &Options<'_>,
    script: &mut Script<'_, I, O, W>,
) -> Option<Result<Met, Stop>> {
    let leases = leases_in(rt, options.dir);
    let ended = with_store_at(rt, options.dir, leases, &options.store, script);
    match ended {
        Ok(end) if script.ended.is_none() => Some(end),
        Ok(_) => {
            script.begin_anew(options);
            None
        }
        Err(fault) => Some(missed(script.output, 0, Miss::from(fault))),
    }
}

// Runs the lines over one store after another.
fn run_stores<R: System, I: Read + Drop, O: Write, W: Watch>(
    rt: &R,
    options: &Options<'_>,
    script: &mut Script<'_, I, O, W>,
) -> Result<Met, Stop> {
    'stores: for _ in rt.forever() {
        if let Some(end) = run_store(rt, options, script) {
            return end;
        }
    }
    unreachable!()
}

// Runs the lines over a store.
fn run_lines<R: System, I: Read + Drop, O: Write, W: Watch>(
    rt: &R,
    options: &Options<'_>,
    manner: Manner,
    lines: Lines<I>,
    output: &mut O,
    watch: &mut W,
) -> Result<Met, Stop> {
    let held = held_in(rt, options, watch);
    watch.see(Work::Opening, 0, held);
    let mut script = Script {
        manner,
        reading: options.reading,
        writers: options.store.writers,
        reuse: options.reuse,
        lines,
        output: &mut *output,
        watch: &mut *watch,
        tending: Tending::new(options),
        in_folder: options.dir.is_some(),
        has_warned: false,
        ended: None,
        done: None,
        is_again: false,
        shell: Shell::new(),
        taken: 0,
        put: None,
        call: None,
        is_receipt: false,
        end: Ok(Met::NOTHING),
    };
    run_stores(rt, options, &mut script)
}

/// Makes a store, or goes on from the one in a folder, and runs the lines of the input over it in
/// this manner; answers what was met.
pub fn replay<R: System, I: Read, O: Write, W: Watch>(
    rt: &R,
    options: &Options<'_>,
    manner: Manner,
    input: &mut I,
    output: &mut O,
    watch: &mut W,
) -> Result<Met, Stop> {
    let longest = if manner == Manner::Tables {
        LONGEST_OF_TABLES
    } else {
        LONGEST
    };
    let lines = Lines::new(rt.alloc(), input, READS, longest).map_err(no_input)?;
    run_lines(rt, options, manner, lines, output, watch)
}
