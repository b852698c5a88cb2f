//! What the next line of an input asks for.

use crate::noting::write_out;
use crate::script::{Asked, Script};
use crate::shell::{PROMPT, Shell, tell_text};
use bw_calls::Change;
use bw_look::Watch;
use bw_pairs::Lines;
use bw_words::{
    Command, Fault, MOST_BATCH, Manner, Miss, NotTyped, Refusal, Request, TableCall, TableLine,
    Typed, no_input, parse, parse_change, parse_request, parse_table_line, parse_typed,
};
use std::alloc::Global;
use std::io::{Read, Write};

/// How many bytes the key and the value of a change have.
pub(crate) fn length_of(change: &Change) -> usize {
    let key = change.key.as_slice().len();
    match &change.value {
        Some(value) => key.saturating_add(value.len()),
        None => key,
    }
}

impl<I: Read + Drop, O: Write, W: Watch> Script<'_, I, O, W> {
    /// Reads the next line, and says whether there was one. Whoever writes the lines may wait for
    /// an answer before the next one ends: so what was printed is written out before more of the
    /// input is asked for.
    pub(crate) fn read_line(&mut self) -> Result<bool, Miss> {
        if !self.lines.holds_line() {
            if self.manner == Manner::Prompted {
                tell_text(self.output, PROMPT)?;
            }
            write_out(self.output)?;
        }
        Ok(self.lines.read_line().map_err(no_input)?)
    }

    /// Whether there is a line: the last one again, or the next one.
    pub(crate) fn next_line(&mut self) -> Result<bool, Miss> {
        if self.is_again {
            self.is_again = false;
            return Ok(true);
        }
        self.taken = 0;
        self.put = None;
        let has_line = self.read_line()?;
        if has_line {
            let tally = &mut self.tending.tally;
            tally.requests = tally.requests.saturating_add(1);
        }
        Ok(has_line)
    }

    /// What the next line asks for as a request.
    pub(crate) fn next_request(&mut self, alloc: Global) -> Result<Asked, Miss> {
        if !self.next_line()? {
            return Ok(Asked::Nothing);
        }
        match parse_request(alloc, self.lines.line(), self.reading) {
            Ok(request) => Ok(Asked::Request(request)),
            Err(Miss::Fault(fault)) => Ok(Asked::NoRequest(fault)),
            Err(miss) => Err(miss),
        }
    }

    /// Adds the change of the line that was read to a batch whose changes have so many bytes.
    pub(crate) fn add_change(
        &self,
        alloc: Global,
        changes: &mut Vec<Change>,
        bytes: &mut usize,
    ) -> Result<(), Miss> {
        let change = parse_change(alloc, self.lines.line(), self.reading)?;
        *bytes = bytes.saturating_add(length_of(&change));
        if *bytes > MOST_BATCH {
            return Err(Miss::Fault(Fault::BatchTooLong));
        }
        changes.push(change)?;
        Ok(())
    }

    /// The batch of so many further lines. All of them are read, also after one that is at fault.
    pub(crate) fn read_batch(&mut self, alloc: Global, count: u32) -> Result<Asked, Miss> {
        let mut changes = Vec::new(alloc);
        let mut bytes = 0usize;
        let mut fault = None;
        for number in 1..=count {
            if !self.read_line()? {
                return Ok(Asked::Nothing);
            }
            if fault.is_some() {
                continue;
            }
            match self.add_change(alloc, &mut changes, &mut bytes) {
                Ok(()) => {}
                Err(Miss::Fault(found)) => {
                    fault = Some((number, found));
                    changes = Vec::new(alloc);
                }
                Err(miss) => return Err(miss),
            }
        }
        match fault {
            Some((number, fault)) => Ok(Asked::NoBatch(number, fault)),
            None => Ok(Asked::Tables(TableCall::Batch(changes))),
        }
    }

    /// What the next line asks for if tables are served.
    pub(crate) fn next_of_tables(&mut self, alloc: Global) -> Result<Asked, Miss> {
        let call = self.call.take();
        if let (true, Some(call)) = (self.is_again, call) {
            self.is_again = false;
            return Ok(Asked::Tables(call));
        }
        if !self.next_line()? {
            return Ok(Asked::Nothing);
        }
        match parse_table_line(alloc, self.lines.line(), self.reading) {
            Ok(TableLine::Call(call)) => Ok(Asked::Tables(call)),
            Ok(TableLine::Store(request)) => Ok(Asked::Request(request)),
            Ok(TableLine::Batch(count)) => self.read_batch(alloc, count),
            Err(Miss::Fault(fault)) => Ok(Asked::NoRequest(fault)),
            Err(miss) => Err(miss),
        }
    }

    /// The next command. Lines that have none are skipped.
    pub(crate) fn next_command(&mut self) -> Result<Asked, Miss> {
        for _ in 0..u64::MAX {
            if !self.next_line()? {
                break;
            }
            match parse(self.lines.line(), self.writers, self.reading) {
                Ok(None) => {}
                Ok(Some(command)) => return Ok(Asked::Command(command)),
                Err(fault) => return Err(Miss::Fault(fault)),
            }
        }
        Ok(Asked::Nothing)
    }

    /// What a shell does next: what is to be done before its next line, or what that asks for.
    pub(crate) fn next_typed(&mut self, alloc: Global) -> Result<Asked, Miss> {
        self.shell
            .keep_before_wait(!self.is_again && !self.lines.holds_line());
        if let Some(request) = self.shell.next_request() {
            self.is_again = false;
            return Ok(Asked::Ahead(request));
        }
        if self.shell.is_over() || !self.next_line()? {
            return Ok(Asked::Over);
        }
        match parse_typed(alloc, self.lines.line()) {
            Err(NotTyped::NoMemory) => Err(Miss::Refused(Refusal::NO_MEMORY)),
            typed => Ok(Asked::Typed(typed)),
        }
    }

    /// What the next line asks for in this manner.
    pub(crate) fn next_asked(&mut self, alloc: Global) -> Result<Asked, Miss> {
        match self.manner {
            Manner::Script | Manner::Taking => self.next_command(),
            Manner::Requests => self.next_request(alloc),
            Manner::Tables => self.next_of_tables(alloc),
            Manner::Shell | Manner::Prompted => self.next_typed(alloc),
        }
    }
}
