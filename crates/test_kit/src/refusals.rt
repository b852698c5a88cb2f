//! Calls that are asked again and again, each time with another of their allocations refused.
//!
//! A test makes what it needs, and then asks: `make memory` runs the tests of refused memory beside
//! a shim that refuses allocations by `marks`, and without it each call is asked once, with memory.

use crate::marks::refuse;
use std::sync::Wait;
use std::thread::Threads;

/// No row takes so many allocations.
pub const MOST: u32 = 100_000;

/// How a call went in a window.
#[derive(Clone, Copy, PartialEq, Drop)]
pub enum Try {
    /// As expected, with memory.
    Went,
    /// As expected, although memory was refused: what is only there to be fast was left out.
    Spared,
    /// It was refused, and left what it is told to leave.
    Refused,
}

/// How a call went that answered Ok or not, where what it left is as expected.
pub fn tried(went: bool, refused: bool, is_so: bool) -> Option<Try> {
    match (went, refused, is_so) {
        (true, false, true) => Some(Try::Went),
        (true, true, true) => Some(Try::Spared),
        (false, true, true) => Some(Try::Refused),
        _ => None,
    }
}

/// A first try, if the second one went.
pub fn then(first: Try, second: Option<Try>) -> Option<Try> {
    if second == Some(Try::Went) {
        Some(first)
    } else {
        None
    }
}

/// Whether a first try was refused: then the call is asked once more.
pub fn was_refused(first: Option<Try>) -> bool {
    first == Some(Try::Refused)
}

/// A first try that was refused, if the second one went.
pub fn refused_then(second: Option<Try>) -> Option<Try> {
    then(Try::Refused, second)
}

/// A call of which all is made anew each time.
pub trait Ask {
    /// Makes what it needs, and asks.
    fn asks<R: AllocGlobal + Wait>(&self, rt: &R) -> Option<Try>;
}

/// A call is asked, and once more if it was refused.
pub fn asked_again<R: AllocGlobal + Wait, A: Ask>(rt: &R, call: &A) -> Option<Try> {
    let first = call.asks(rt)?;
    if first == Try::Refused {
        return then(first, call.asks(rt));
    }
    Some(first)
}

/// What a row asks.
pub trait Row {
    /// Asks its call, and once more if it was refused. None if that went otherwise than expected.
    fn goes<R: AllocGlobal + Threads + Wait>(&self, rt: &R) -> Option<Try>;
    /// Whether the call may go without memory that it asks for.
    fn spares(&self) -> bool {
        false
    }
}

/// Whether the call of a row may go so.
fn may_go<R: Row>(row: &R, first: Option<Try>) -> bool {
    match first {
        Some(Try::Spared) => row.spares(),
        Some(_) => true,
        None => false,
    }
}

/// The allocation whose refusal is not answered as expected; none if there is no such one.
fn wrong_number<R: AllocGlobal + Threads + Wait, T: Row>(rt: &R, row: &T) -> Option<u32> {
    for number in 1..MOST {
        refuse(rt.alloc(), number);
        let first = row.goes(rt);
        if !may_go(row, first) {
            return Some(number);
        }
        if first == Some(Try::Went) {
            return None;
        }
    }
    Some(MOST)
}

/// The first row that goes otherwise than expected, and the allocation that was refused.
pub fn wrong_row<R: AllocGlobal + Threads + Wait, T: Row>(
    rt: &R,
    rows: &[T],
) -> Option<(usize, u32)> {
    for (i, row) in rows.iter().enumerate() {
        if let Some(number) = wrong_number(rt, row) {
            return Some((i, number));
        }
    }
    None
}
