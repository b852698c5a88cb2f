//! What is said beside the answers of lines: which store is there, what became of its segments, and
//! numbers from time to time.

ghost use Rattle.bw_home.specs.Ready.{IsReady};

use crate::calls::durable;
use crate::events::{tell_cleaned, tell_numbers, tell_reopened, tell_segment};
use crate::script::{Done, Script};
use crate::shell::Shell;
use bw_home::{Added, Home};
use bw_look::{Event, Printer, Watch};
use bw_words::{Manner, Met, Miss, PROTOCOL, Refusal, Stop, print, print_found, refuse};
use std::io::{Read, Write};

/// Says that a store is there, which frame is its last, the version of the protocol, and whether
/// tables are served.
pub(crate) fn print_ready<O: Write>(
    output: &mut O,
    frame: u64,
    manner: Manner,
) -> Result<(), Stop> {
    let mut out = Printer::new(output);
    out.named("ready frame ", frame);
    out.named(" protocol ", PROTOCOL);
    out.text(if manner == Manner::Tables {
        b" tables\n"
    } else {
        b"\n"
    });
    out.end()?;
    Ok(())
}

/// Says that a spare was added, or why not.
pub(crate) fn tell_added<O: Write>(added: Added, output: &mut O) -> Result<Met, Stop> {
    match added.refused {
        None => {
            print(output, "added ", added.lease)?;
            Ok(Met::NOTHING)
        }
        Some(fault) => refuse(output, Refusal::from(fault)),
    }
}

/// Says that the folder was opened once more: which frame is its last, and how many records that
/// were accepted are gone.
pub(crate) fn print_reopened<O: Write>(output: &mut O, frame: u64, lost: u64) -> Result<(), Stop> {
    let mut out = Printer::new(output);
    out.named("reopened frame ", frame);
    out.line(" lost ", lost);
    out.end()?;
    Ok(())
}

impl<I: Read + Drop, O: Write, W: Watch> Script<'_, I, O, W> {
    /// Says what store is there: which frame is its last, or what was found.
    pub(crate) fn tell_store(&mut self, home: &Home) -> Result<(), Stop>
        requires { IsReady home.now holding }
    {
        let last = durable(home);
        let ended = self.ended.take();
        match &ended {
            Some(ended) => tell_reopened(self.watch, last, ended.lost(last)),
            None => tell_numbers(self.watch, "opened", home, self.tending.standing()),
        }
        match (ended, self.manner) {
            (Some(ended), _) => {
                print_reopened(self.output, last, ended.lost(last))?;
                self.write_receipt()
            }
            (None, Manner::Requests | Manner::Tables) => {
                print_ready(self.output, last, self.manner)
            }
            (None, Manner::Script | Manner::Taking) => print_found(self.output, home.found()),
            (None, Manner::Shell | Manner::Prompted) => Ok(()),
        }
    }

    /// Says that a store is there.
    pub(crate) fn begin(&mut self, home: &Home)
        requires { IsReady home.now holding }
    {
        self.watch.rest();
        self.watch.durable(durable(home));
        let told = self.tell_store(home);
        if let Err(stop) = told {
            self.end = Err(stop);
            self.done = Some(Done::End);
        }
    }

    /// Says what came of a spare that was made, if that is wanted. A request that is asked again
    /// for room that was not added would be so for ever.
    pub(crate) fn tell_spare(&mut self, home: &Home, added: Added)
        requires { IsReady home.now holding }
    {
        if self.done == Some(Done::Add) {
            match added.refused {
                Some(fault) => self.count_refusal(Refusal::from(fault)),
                None => tell_segment(self.watch, home, self.tending.standing().most),
            }
            let answer = tell_added(added, self.output);
            self.note_answer(answer);
        } else if let (true, Some(fault)) = (self.is_again, added.refused) {
            self.is_again = false;
            self.shell.note_asked(true);
            self.count_refusal(Refusal::from(fault));
            let answer = self.missed(Miss::from(fault));
            self.note_answer(answer);
        }
    }

    /// Reports a segment that was added to make room for a script. A program that is served asks
    /// `stats` for that, and an operator hears it as an event.
    pub(crate) fn tell_further(&mut self, home: &Home)
        requires { IsReady home.now holding }
    {
        let is_added = matches!(home.added(), Some(Added { refused: None, .. }));
        if !self.tending.take_told_segment() || !is_added {
            return;
        }
        if self.manner.is_served() {
            tell_segment(self.watch, home, self.tending.standing().most);
        } else {
            let segments = home.store.live().saturating_add(home.store.spares());
            self.watch.added(segments);
        }
    }

    /// Reports a cleaning to an operator that made room.
    pub(crate) fn tell_cleaning(&mut self, home: &Home)
        requires { IsReady home.now holding }
    {
        if let Some(cleaned) = self.tending.take_told_cleaning() {
            tell_cleaned(self.watch, home, cleaned);
        }
    }

    /// Warns once, if a store is served or typed to, that it uses nearly as many segments as it may
    /// have.
    pub(crate) fn warn(&mut self, home: &Home)
        requires { IsReady home.now holding }
    {
        let standing = self.tending.standing();
        let is_script = matches!(self.manner, Manner::Script | Manner::Taking);
        if !self.has_warned && !is_script && standing.is_near(home) {
            self.has_warned = true;
            self.watch.filling(home.store.live(), standing.most);
        }
    }

    /// Says what is due after a line: its frame's time, a warning, and the numbers of the store.
    pub(crate) fn tell_due(&mut self, home: &Home)
        requires { IsReady home.now holding }
    {
        self.watch.durable(durable(home));
        self.warn(home);
        if self.watch.take_due() {
            tell_numbers(self.watch, Event::NUMBERS, home, self.tending.standing());
        }
    }

    /// Says that a store ends, or is to be opened once more.
    pub(crate) fn tell_end(&mut self, home: &Home)
        requires { IsReady home.now holding }
    {
        self.tell_cleaning(home);
        self.watch.closing(durable(home));
        if self.done == Some(Done::End) {
            tell_numbers(self.watch, "ended", home, self.tending.standing());
        }
    }
}
