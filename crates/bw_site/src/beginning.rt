//! What boxes of a site hold: a store, which is settled once recovery has taken it; or the
//! beginning of a first frame only. Then no store was ever there, and nothing is lost if it is
//! cleared.

ghost use Rattle.std.specs.Prelude.{◌≡◌, true, map, IfOk, OnOk, OnErr};
ghost use Rattle.bw_care.specs.Found.{IsFoundIn, IsRecovered};

use crate::fault::HomeFault;
use crate::found::Found;
use crate::site::Site;
use crate::system::System;
use bw_care::{Begun, RecoverCause, RecoverFault, Recovered, begun_in, recover};
use bw_device::Segment;

/// The beginning of a first frame, of which nothing was ever durable: the file that has it, and how
/// many bytes it holds.
#[derive(Clone, Copy)]
pub struct Beginning {
    lease: u32,
    bytes: u64,
}

/// The beginning of a first frame, if that is all there is in what was not recovered; else why it
/// was not. The boxes are dropped.
pub fn beginning_of(fault: RecoverFault) -> Result<Beginning, HomeFault> {
    let RecoverFault { mut boxes, cause } = fault;
    if matches!(cause, RecoverCause::Empty) {
        if let Begun::First { lease, bytes } = begun_in(&mut boxes) {
            return Ok(Beginning { lease, bytes });
        }
    }
    Err(HomeFault::from(cause))
}

/// Why there is no store in boxes.
pub enum NotHeld {
    Fault(HomeFault),
    /// There was the beginning of a first frame only, as this says. It was cleared, so another
    /// attempt finds a folder of no bytes.
    Cleared(Found),
}

impl From<HomeFault> for NotHeld {
    fn from(fault: HomeFault) -> NotHeld {
        NotHeld::Fault(fault)
    }
}

// Empties the file of the beginning of a first frame, if that is all there was in so many segments,
// and says what was found.
fn cleared<R: System>(
    rt: &R,
    site: &mut Site,
    fault: RecoverFault,
    count: usize,
) -> Result<Found, HomeFault>
    ensures unsettled { site.new.is_settled ≡ site.old.is_settled }
{
    let beginning = beginning_of(fault)?;
    // An emptied file is locked by nobody.
    site.forget();
    site.empty(rt, beginning.lease)?;
    Ok(Found::none(count, beginning.bytes))
}

/// The store that these boxes of the site hold. Their files are settled once recovery has taken
/// them, and not before: if there is none, they stay unsettled.
pub fn held_in<R: System>(
    rt: &R,
    site: &mut Site,
    boxes: Vec<Box<dyn Segment>>,
) -> Result<Recovered, NotHeld>
    requires { Unit {0} }
    ensures recovered { IfOk result (λ found. IsRecovered holding found) }
    ensures found { IfOk result (λ found. IsFoundIn holding (map holding boxes.items) found) }
    ensures settled { OnOk result (site.new.is_settled ≡ true) }
    ensures unsettled { OnErr result (site.new.is_settled ≡ site.old.is_settled) }
{
    let count = boxes.len();
    match recover(rt.alloc(), boxes) {
        Ok(found) => {
            site.settle(rt)?;
            Ok(found)
        }
        Err(fault) => {
            let found = cleared(rt, site, fault, count)?;
            Err(NotHeld::Cleared(found))
        }
    }
}
