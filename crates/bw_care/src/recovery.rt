//! Recovery by a scan: from any bytes to the leaves, or to the first fault.
//!
//! One changed byte may make several things wrong at once, and two recoveries of the same bytes
//! have to say the same of them. So each step is done for all segments before the next one begins,
//! and the first fault in that order is the answer. No box is moved before the last step that may
//! be refused: all come back on a refusal, and whoever was refused memory may try again.

ghost use Rattle.std.specs.Prelude.{◌≡◌, Ok, IfOk, IfErr, length, map};
ghost use Rattle.bw_care.specs.Recovery.{recovery, limit_in, live_in, pairs_in, spares_in, ends_whole};
ghost use Rattle.bw_care.specs.Found.{finding_of, IsRecovered, Refuses};
ghost use Rattle.bw_log.specs.Views.{seen_by};
ghost use Rattle.bw_page.specs.Seats.{numbers_from};

use crate::boxes::{Parts, part};
use crate::recovered::Recovered;
use crate::steps::{Findings, boxes_of, places, prepare};
use bw_device::Segment;
use bw_lines::RecoverCause;
use bw_log::Log;
use std::alloc::Global;
use std::fmt::{self, Debug, Formatter};
use thiserror::Error;

/// Why boxes could not be recovered, and all of them in the order in which they were handed in.
/// Their bytes are as they were; if the cause is `Device`, that box counts one failure more.
#[derive(Drop, Error)]
#[error("{cause}")]
pub struct RecoverFault {
    pub boxes: Vec<Box<dyn Segment>>,
    pub cause: RecoverCause,
}

// Boxes of other crates' kinds need not be shown.
impl Debug for RecoverFault {
    fn fmt<W: fmt::Write>(&self, f: &mut Formatter<W>) -> fmt::Result {
        write!(f, "RecoverFault({:?})", self.cause)
    }
}

/// Reads all boxes, in any order, and makes of them the log that they hold, with the pages for
/// which its frames stand. No page is in memory afterwards: each is read from the log when it is
/// asked for.
///
/// Step by step, and the first fault is the answer. E10 for too many boxes or one that is too
/// large. E13 for the first box, in list order, with bytes that are neither a header, nor a frame,
/// nor a tail. E15 if headers differ in their page limit, if those of one version differ in their
/// frame limit, and if a segment of version 1 is numbered above one of version 2. E14 for a gap
/// among the numbers of segments or of frames. E12 if there is no whole frame. E10 for a spare
/// without room for a header and a frame. E16 with the page of the first wrong link. E17 with the
/// least page at fault. E1, E6 and E8 may come at any growth and any read. A box of no bytes is a
/// spare and is not read; one that holds a part of a header is dropped, and its lease comes back.
///
/// On Ok the live segments stand in the order of their numbers and the spares in list order, with
/// every byte as it was. The log's page limit is that of its segments. Its frame limit is that of
/// its segments of version 2, or 65,536 if it has none. The newest segment takes frames exactly if
/// it has version 2 and no tail.
///
/// It goes twice through each box with bytes, if the segment lends them, or else by a read, which
/// holds the bytes of one box at a time. Beside them it holds a line for each frame and for each
/// page that a block touches, with the keys of that page and the lengths of its values. Nothing is
/// sized by a number that was only read. In time it costs the bytes, a search among the pages for
/// each block and among the pairs of its page for each record, however many these are between two
/// blocks. For each segment it also costs up to 4,096 comparisons to put them in order, and as many
/// of its header with the others.
pub fn recover(alloc: Global, boxes: Vec<Box<dyn Segment>>) -> Result<Recovered, RecoverFault>
    requires { Unit {0} }
    ensures found { IfOk result (λ r. recovery (map holding boxes.items) ≡ Ok (finding_of r)) }
    ensures recovered { IfOk result (λ r. IsRecovered holding r) }
    ensures away { IfOk result (λ r.
        r.leaves.evicted ≡ numbers_from 1 (length r.leaves.leaves)) }
    ensures live { IfOk result (λ r.
        (seen_by holding r.log).live ≡ live_in (map holding boxes.items)) }
    ensures spares { IfOk result (λ r.
        (seen_by holding r.log).spares ≡ spares_in (map holding boxes.items)) }
    ensures open { IfOk result (λ r.
        (seen_by holding r.log).is_open ≡ ends_whole (live_in (map holding boxes.items))) }
    ensures limit { IfOk result (λ r.
        (seen_by holding r.log).f ≡ limit_in (map holding boxes.items)) }
    ensures pairs { IfOk result (λ r.
        (seen_by holding r.log).m ≡ pairs_in (map holding boxes.items)) }

    ensures refuses { IfErr result (λ e.
        Refuses (map holding boxes.items) e.cause (map holding e.boxes.items)) }
{
    let mut boxes = boxes;
    let (numbered, live, spares) = match places(alloc, boxes.len()) {
        Ok(places) => places,
        Err(cause) => return Err(RecoverFault { boxes, cause }),
    };
    match prepare(alloc, &mut boxes) {
        Err(cause) => Err(RecoverFault { boxes, cause }),
        Ok(findings) => {
            let Findings {
                kinds,
                tables,
                leaves,
                pairs,
                first,
                last,
                tail,
                dropped,
            } = findings;
            let parts = part(
                boxes,
                &kinds,
                Parts {
                    live: numbered,
                    spares,
                },
            );
            let Parts {
                live: numbered,
                spares,
            } = parts;
            let live = boxes_of(numbered, live);
            let log = Log::adopt(live, spares, tables);
            Ok(Recovered {
                log,
                leaves,
                pairs,
                first,
                last,
                tail,
                dropped,
            })
        }
    }
}
