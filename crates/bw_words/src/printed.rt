//! What answers print: lines, values, entries, pairs and dumps. No memory is taken.

use crate::stop::Stop;
use bw_codec::limits::MAX_VALUE;
use bw_codec::{Key, Value};
use bw_core::Entry;
use bw_look::{Printer, write_hex, write_pair, write_record, write_word};
use std::fmt::Display;
use std::io::Write;

/// How many bytes are made digits at once.
const PART: usize = 256;

/// Bytes of any number as a word. More than a value of a store has are always in hex.
pub fn write_long_word<O: Write>(out: &mut Printer<'_, O>, bytes: &[u8]) {
    if bytes.len() <= MAX_VALUE {
        write_word(out, bytes);
        return;
    }
    out.text(b"0x");
    let mut room = [0u8; 2 * PART];
    for part in bytes.chunks(PART) {
        let count = part.len().min(PART);
        let digits = &mut room[..2 * count];
        if hex::encode_to_slice(&part[..count], digits).is_ok() {
            out.text(digits);
        }
    }
}

/// Prints a line of a text with a number or a name after it.
pub fn print<O: Write, D: Display + Copy + Drop>(
    output: &mut O,
    text: &str,
    value: D,
) -> Result<(), Stop> {
    let mut out = Printer::new(output);
    out.line(text, value);
    out.end()?;
    Ok(())
}

/// The number of pairs, and a line for each.
pub fn write_pairs<O: Write>(out: &mut Printer<'_, O>, pairs: &[(Key, Value)]) {
    out.line("pairs ", pairs.len());
    for (key, value) in pairs {
        write_pair(out, key, value);
        out.text(b"\n");
    }
}

/// The line of a pair, if there is one.
pub fn write_pair_line<O: Write>(out: &mut Printer<'_, O>, pair: Option<&(Key, Value)>) {
    match pair {
        Some((key, value)) => {
            out.text(b"pair ");
            write_pair(out, key, value);
            out.text(b"\n");
        }
        None => out.text(b"none\n"),
    }
}

/// The line of a key's value.
pub fn write_value<O: Write>(out: &mut Printer<'_, O>, value: Option<&Value>) {
    match value {
        Some(value) => {
            out.text(b"value ");
            write_word(out, value.as_slice());
            out.text(b"\n");
        }
        None => out.text(b"none\n"),
    }
}

/// The line of an entry of the history.
pub fn write_entry<O: Write>(out: &mut Printer<'_, O>, entry: &Entry) {
    out.named("", entry.writer);
    write_record(out, &entry.item);
    out.text(b"\n");
}

/// A dump's line.
pub fn write_dump<O: Write>(out: &mut Printer<'_, O>, bytes: &[u8]) {
    out.text(b"dump ");
    write_hex(out, bytes);
    out.text(b"\n");
}
