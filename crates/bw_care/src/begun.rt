//! The beginning of a first frame, if that is all there is in segments.
//!
//! Nothing was ever durable there, and nothing is lost if it is cleared. A log that has lost its
//! first segment looks otherwise: what it has was not begun as segment 1.

use bw_codec::{HeaderRead, read_header};
use bw_device::Segment;

/// What is in the segments of a log in which no frame is whole.
#[derive(Debug, Clone, Copy, PartialEq, Eq)]
pub enum Begun {
    /// None of them has a byte.
    Nothing,
    /// Only one has bytes, and may be the first that was ever begun: its lease, and how many bytes
    /// it holds.
    First { lease: u32, bytes: u64 },
    /// Anything else.
    Other,
}

// Whether a segment with bytes may be the first that was ever begun: it has too few for a header,
// or the header of segment 1.
fn may_be_first(one: &mut Box<dyn Segment>) -> bool {
    let mut front = [0u8; 24];
    if one.len() < 24 {
        return true;
    }
    if one.failures() == u64::MAX || one.read(0, &mut front).is_err() {
        return false;
    }
    matches!(read_header(&front), HeaderRead::Whole(header) if header.number == 1)
}

/// What is in segments of a log in which no frame is whole, which is not asked here: recovery says
/// so first. At most 24 bytes of each are read, and no memory is taken.
pub fn begun_in(boxes: &mut [Box<dyn Segment>]) -> Begun {
    let mut found = Begun::Nothing;
    for one in boxes {
        let bytes = one.len();
        if bytes > 0 {
            if found != Begun::Nothing || !may_be_first(one) {
                return Begun::Other;
            }
            found = Begun::First {
                lease: one.lease(),
                bytes,
            };
        }
    }
    found
}
