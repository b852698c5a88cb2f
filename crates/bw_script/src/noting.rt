//! What came of a line is noted, and what ends a script.

use crate::events::tell_refused;
use crate::script::{Done, Script};
use bw_look::Watch;
use bw_words::{Met, Miss, Refusal, Stop, missed, refuse_after};
use std::io::{Read, Write};

/// Writes out what was printed.
pub(crate) fn write_out<O: Write>(output: &mut O) -> Result<(), Stop> {
    if output.flush().is_err() {
        return Err(Stop::Output);
    }
    Ok(())
}

/// What comes of a script and of its next line: what was met, or what ends it.
pub(crate) fn joined(end: Result<Met, Stop>, answer: Result<Met, Stop>) -> Result<Met, Stop> {
    Ok(end?.and(answer?))
}

impl<I: Read + Drop, O: Write, W: Watch> Script<'_, I, O, W> {
    /// Counts a refusal, and reports it to an operator.
    pub(crate) fn count_refusal(&mut self, refusal: Refusal) {
        let tally = &mut self.tending.tally;
        tally.refused = tally.refused.saturating_add(1);
        let refused = tally.refused;
        tell_refused(self.watch, refusal, self.lines.number(), refused);
    }

    /// Notes what came of a line.
    pub(crate) fn note(&mut self, done: Result<Done, Miss>) {
        if let Err(Miss::Refused(refusal)) = &done {
            self.count_refusal(*refusal);
        }
        let answer = match done {
            Ok(Done::Answered) => Ok(Met::NOTHING),
            Ok(done) => {
                self.done = Some(done);
                return;
            }
            Err(miss) => self.missed(miss),
        };
        self.done = Some(Done::Answered);
        self.note_answer(answer);
    }

    /// What comes of a line that has no answer. If it puts pairs, it says how many are put.
    pub(crate) fn missed(&mut self, miss: Miss) -> Result<Met, Stop> {
        match (miss, self.put) {
            (Miss::Refused(refusal), Some(count)) => refuse_after(self.output, refusal, count),
            (miss, _) => missed(self.output, self.lines.number(), miss),
        }
    }

    /// Notes what was met at an answer, or what ends the script there. A receipt is written out at
    /// once.
    pub(crate) fn note_answer(&mut self, answer: Result<Met, Stop>) {
        self.end = joined(self.end, answer);
        if self.end.is_ok() {
            if let Err(stop) = self.write_receipt() {
                self.end = Err(stop);
            }
        }
        if self.end.is_err() {
            self.done = Some(Done::End);
        }
    }
}
