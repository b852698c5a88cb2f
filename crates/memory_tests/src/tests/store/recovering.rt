//! What is recovered from boxes if memory is refused.

ghost use Rattle.std.specs.Prelude.{IfSome};
ghost use Rattle.bw_care.specs.Found.{IsRecovered};

use bw_care::{RecoverCause, Recovered, recover};
use bw_device::Segment;
use std::alloc::Global;
use test_kit::marks::{begin, end};
use test_kit::refusals::Try;

/// What is recovered from boxes.
pub(super) fn found_in(alloc: Global, boxes: Vec<Box<dyn Segment>>) -> Option<Recovered>
    ensures { IfSome result (λ r. IsRecovered holding r) }
{
    match recover(alloc, boxes) {
        Ok(found) => Some(found),
        Err(_) => None,
    }
}

// A mark of boxes: their leases and lengths, in order.
fn row_of(boxes: &[Box<dyn Segment>]) -> u64 {
    let mut row: u64 = 1;
    for one in boxes {
        row = row.wrapping_mul(1_000_003).wrapping_add(one.len());
        row = row.wrapping_mul(1_000_003).wrapping_add(one.lease() as u64);
    }
    row
}

/// What is recovered from boxes in a window, once more if memory was refused: all of them came back
/// then, in order and with what they held. None if it is otherwise.
pub(super) fn recovered(alloc: Global, boxes: Vec<Box<dyn Segment>>) -> Option<(Try, Recovered)>
    ensures { IfSome result (λ r. IsRecovered holding r.1) }
{
    let row = row_of(boxes.as_slice());
    begin(alloc);
    let answer = recover(alloc, boxes);
    let refused = end(alloc);
    match answer {
        Ok(found) => Some((if refused { Try::Spared } else { Try::Went }, found)),
        Err(fault) => {
            let is_back = row_of(fault.boxes.as_slice()) == row;
            if fault.cause != RecoverCause::NoMemory || !refused || !is_back {
                return None;
            }
            Some((Try::Refused, found_in(alloc, fault.boxes)?))
        }
    }
}

/// What was recovered, with each page in memory.
fn warm_in(found: Recovered) -> Option<Recovered>
    requires { IsRecovered (λ b. holding (b.vtable, b.value)) found }
    ensures { IfSome result (λ r. IsRecovered (λ b. holding (b.vtable, b.value)) r) }
{
    match found.warm() {
        Ok(found) => Some(found),
        Err(_) => None,
    }
}

/// What was recovered, with each page in memory, brought there in a window, once more if memory was
/// refused: what was recovered came back then. None if it is otherwise.
pub(super) fn warmed(alloc: Global, found: Recovered) -> Option<(Try, Recovered)>
    requires { IsRecovered (λ b. holding (b.vtable, b.value)) found }
    ensures { IfSome result (λ r. IsRecovered (λ b. holding (b.vtable, b.value)) r.1) }
{
    begin(alloc);
    let answer = found.warm();
    let refused = end(alloc);
    match answer {
        Ok(found) => Some((if refused { Try::Spared } else { Try::Went }, found)),
        Err(fault) => {
            if fault.cause != RecoverCause::NoMemory || !refused {
                return None;
            }
            Some((Try::Refused, warm_in(fault.recovered)?))
        }
    }
}
