//! Lines of a reader whose reads are counted, and may be interrupted: how many of them are enough.

use bw_pairs::Lines;
use bw_words::LONGEST;
use std::alloc::Global;
use std::io::{self, ErrorKind, Read};

/// Gives its text a byte a read. With interruptions the first read of each byte, and of the end, is
/// one.
#[derive(Drop)]
struct Slow<'a> {
    text: &'a [u8],
    at: usize,
    has_interruptions: bool,
    is_interrupted: bool,
}

impl Read for Slow<'_> {
    fn read(&mut self, buf: &mut [u8]) -> io::Result<usize> {
        self.is_interrupted = self.has_interruptions && !self.is_interrupted;
        if self.is_interrupted {
            return Err(io::Error::from(ErrorKind::Interrupted));
        }
        match (self.text.get(self.at), buf.first_mut()) {
            (Some(byte), Some(place)) => {
                *place = *byte;
                self.at = self.at.saturating_add(1);
                Ok(1)
            }
            _ => Ok(0),
        }
    }
}

/// Two lines of three bytes are read in so many reads, with or without interruptions: whether these
/// are enough.
type Row = (u64, bool, bool);

// Whether the next line is this one; none if the reading failed.
fn is_read<R: Read + Drop>(lines: &mut Lines<R>, text: &str) -> Option<bool> {
    match lines.read_line() {
        Ok(is_line) => Some(is_line && lines.line() == text.as_bytes()),
        Err(_) => None,
    }
}

/// Whether the row goes as expected.
fn goes(alloc: Global, row: &Row) -> bool {
    let (reads, has_interruptions, is_enough) = *row;
    let mut input = Slow {
        text: b"a\nb",
        at: 0,
        has_interruptions,
        is_interrupted: false,
    };
    let Ok(mut lines) = Lines::new(alloc, &mut input, reads, LONGEST) else {
        return false;
    };
    let told = if is_enough { Some(true) } else { None };
    is_read(&mut lines, "a") == Some(true) && is_read(&mut lines, "b") == told
}

// The first row that does not go as expected.
fn wrong_row(alloc: Global) -> Option<(&'static str, usize)> {
    for (i, row) in READS.iter().enumerate() {
        if !goes(alloc, row) {
            return Some(("reads", i));
        }
    }
    None
}

const READS: &[Row] = &[
    // Three bytes and the end.
    (4, false, true),
    (3, false, false),
    (8, true, true),
    (7, true, false),
];

#[test]
fn reads_are_counted_and_tried_again(rt: HostRuntime) {
    assert_eq!(rt; wrong_row(rt.alloc()), None);
}
