//! Lines of a script, of which one allocation is refused: the call says it. The other calls that
//! take memory stand in `memory_tests`.

use bw_pairs::Lines;
use bw_words::LONGEST;
use std::alloc::Global;
use std::io::{self, ErrorKind};
use test_kit::marks::{begin, end, refuse};

/// No call takes so many allocations.
const MOST: u32 = 1000;

const TEXT: &[u8] = b"a\nb";

fn is_memory(error: io::Error) -> bool {
    error.kind() == ErrorKind::OutOfMemory
}

/// Whether a call that went or not answered as expected: whether it was refused, then; none
/// otherwise.
fn told(went: bool, refused: bool, is_so: bool) -> Option<bool> {
    if is_so && went != refused {
        Some(refused)
    } else {
        None
    }
}

fn makes(alloc: Global) -> Option<bool> {
    begin(alloc);
    let made = Lines::new(alloc, TEXT, 9, LONGEST);
    let refused = end(alloc);
    match made {
        Ok(lines) => told(true, refused, lines.number() == 0),
        Err(error) => told(false, refused, is_memory(error)),
    }
}

/// The first line of new lines.
fn reads(alloc: Global) -> Option<bool> {
    let mut lines = Lines::new(alloc, TEXT, 9, LONGEST).ok()?;
    begin(alloc);
    let answer = lines.read_line();
    let refused = end(alloc);
    match answer {
        Ok(is_line) => {
            let is_first = lines.line() == b"a".as_slice() && lines.number() == 1;
            told(true, refused, is_line && is_first)
        }
        Err(error) => told(false, refused, is_memory(error)),
    }
}

/// The allocation whose refusal is not said; none if there is no such one.
fn wrong_number(alloc: Global, is_read: bool) -> Option<u32> {
    for number in 1..MOST {
        refuse(alloc, number);
        let answer = if is_read { reads(alloc) } else { makes(alloc) };
        match answer {
            Some(true) => {}
            Some(false) => return None,
            None => return Some(number),
        }
    }
    Some(MOST)
}

#[test]
fn lines_tell_that_memory_was_refused(rt: HostRuntime) {
    assert!(rt; wrong_number(rt.alloc(), false).is_none());
    assert!(rt; wrong_number(rt.alloc(), true).is_none());
}
