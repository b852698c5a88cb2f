//! The numbers of `bwlog stats` as an object of JSON: each line is a member, by the words of its
//! text.

use bw_look::Printer;
use std::io::Write;
use std::str::SplitWhitespace;

/// More numbers than a line has.
const MOST: u32 = 8;

/// What was written of an object.
#[derive(Debug, Clone, Copy, PartialEq, Eq)]
enum Written {
    Nothing,
    /// Members that are objects.
    Members,
    /// These, and some of the segments.
    Segments,
}

/// Writes further members of an object: each name, and its number.
fn write_members<O: Write>(out: &mut Printer<'_, O>, words: &mut SplitWhitespace<'_>) {
    for _ in 0..MOST {
        let (Some(name), Some(number)) = (words.next(), words.next()) else {
            break;
        };
        out.named(",\"", name);
        out.named("\":", number);
    }
    out.text(b"}");
}

/// Writes what stands before a line.
fn write_front<O: Write>(out: &mut Printer<'_, O>, written: Written, is_segment: bool) -> Written {
    match (written, is_segment) {
        (Written::Nothing, _) => {
            out.text(b"{");
            Written::Members
        }
        (Written::Members, true) => {
            out.text(b",\"log\":[");
            Written::Segments
        }
        (written, _) => {
            out.text(b",");
            written
        }
    }
}

/// Writes a line: a segment of the log, or a member that is an object.
fn write_line<O: Write>(out: &mut Printer<'_, O>, written: Written, line: &str) -> Written {
    let mut words = line.split_whitespace();
    let name = words.next().unwrap_or("");
    let number = words.next().unwrap_or("0");
    let is_segment = name == "segment";
    let written = write_front(out, written, is_segment);
    if is_segment {
        out.named("{\"segment\":", number);
    } else {
        out.named("\"", name);
        out.named("\":{\"count\":", number);
    }
    write_members(out, &mut words);
    written
}

/// Writes the lines of these counts as one object, and an end of line. Its `log` has the segments.
pub fn write_numbers<O: Write>(out: &mut Printer<'_, O>, counts: &str) {
    let mut written = Written::Nothing;
    for line in counts.lines() {
        written = write_line(out, written, line);
    }
    match written {
        Written::Segments => out.text(b"]}\n"),
        Written::Members => out.text(b",\"log\":[]}\n"),
        Written::Nothing => out.text(b"{}\n"),
    }
}
