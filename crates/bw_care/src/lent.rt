//! The bytes of a box where they lie, if its segment lends them: then nothing is copied to be
//! looked at, and nothing is read that could fail.
//!
//! A segment that lends none is read. What is said of a box is the same either way: one with bytes
//! of which no further failure could be counted is refused before they are looked at, as a read of
//! it would be.

ghost use Rattle.std.specs.Prelude.{◌≡◌, ◌<◌, ◌↔◌, length, map, slice_get, IfOk, IfErr, IfSome, IsErr, IsTrue};
ghost use Rattle.bw_care.specs.Passing.{ReadStops, IsWorn};

use bw_device::{Segment, failures_of, len_of, lend_of};
use bw_lines::RecoverCause;

// Whether the box at a position holds bytes, and no further failure of it could be counted.
fn is_worn(boxes: &[Box<dyn Segment>], at: usize) -> bool
    requires { at < length boxes.now }
    ensures { IsTrue result ↔ IsWorn at (map holding boxes.now) }
{
    len_of(boxes, at) > 0 && failures_of(boxes, at) == u64::MAX
}

/// All bytes of the box at a position, if it lends them; if it lends none, `read_box` reads them.
pub(crate) fn lent_at(boxes: &[Box<dyn Segment>], at: usize) -> Result<Option<&[u8]>, RecoverCause>
    requires { at < length boxes.now }
    ensures bytes { IfOk result (λ lent. IfSome lent (λ bytes.
        IfSome (slice_get (map holding boxes.now) at) (λ h. bytes.now ≡ h.bytes))) }
    ensures worn { IsErr result ↔ IsWorn at (map holding boxes.now) }
    ensures stops { IfErr result (λ cause.
        ReadStops at (map holding boxes.now) cause (map holding boxes.now)) }
{
    if is_worn(boxes, at) {
        return Err(RecoverCause::Spent);
    }
    Ok(lend_of(boxes, at))
}
