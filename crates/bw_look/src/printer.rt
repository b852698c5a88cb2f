//! An output to which lines are written piece by piece.

use std::fmt::Display;
use std::io::Write;
use thiserror::Error;

/// A write failed.
#[derive(Debug, Clone, Copy, Error)]
#[error("a write failed")]
pub struct NotWritten;

/// An output that keeps in mind whether a write failed: after that one it writes nothing.
pub struct Printer<'a, O> {
    output: &'a mut O,
    has_failed: bool,
}

impl<'a, O: Write> Printer<'a, O> {
    /// Nothing was written yet.
    pub fn new(output: &'a mut O) -> Printer<'a, O> {
        Printer {
            output,
            has_failed: false,
        }
    }

    /// Writes bytes as they are.
    pub fn text(&mut self, text: &[u8]) {
        if !self.has_failed {
            self.has_failed = self.output.write_all(text).is_err();
        }
    }

    /// Writes a text, and a number or a name after it.
    pub fn named<D: Display + Copy + Drop>(&mut self, text: &str, value: D) {
        if !self.has_failed {
            self.has_failed = write!(self.output, "{text}{value}").is_err();
        }
    }

    /// Writes a text, a number or a name after it, and the end of the line.
    pub fn line<D: Display + Copy + Drop>(&mut self, text: &str, value: D) {
        self.named(text, value);
        self.text(b"\n");
    }

    /// Whether all was written.
    pub fn end(self) -> Result<(), NotWritten> {
        let Printer {
            output: _output,
            has_failed,
        } = self;
        if has_failed {
            return Err(NotWritten);
        }
        Ok(())
    }
}
