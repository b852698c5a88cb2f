//! The end of one life, and the beginning of the next.

ghost use Rattle.std.specs.Prelude.{◌≡◌, ◌≤◌, ◌+◌, ◌++◌, length, map, vec_len, IfErr, IfOk};
ghost use Rattle.std.specs.Vec.{vec_capacity};
ghost use Rattle.bw_ring.specs.Ends.{ring_of_feed};
ghost use Rattle.bw_core.specs.Opened.{AreUnused};
ghost use Rattle.bw_core.specs.Views.{kept_by, IsSound};
ghost use Rattle.bw_core.specs.Relived.{Relives};
ghost use Rattle.bw_core.specs.Reopened.{Begins};
ghost use Rattle.bw_log.specs.Contents.{boxes as boxes_of};
ghost use Rattle.bw_lives.specs.Lives.{IsNotRelived};

use crate::fault::ReliveFault;
use bw_care::recover;
use bw_core::Core;
use bw_device::Segment;
use bw_ring::Feed;
use std::alloc::Global;

// Adds boxes, for which there is room.
fn add_all(boxes: &mut Vec<Box<dyn Segment>>, more: Vec<Box<dyn Segment>>)
    requires { vec_len boxes.old + length more.items ≤ vec_capacity boxes.old }
    ensures items { boxes.new.items ≡ boxes.old.items ++ more.items }
    ensures len { vec_len boxes.new ≡ vec_len boxes.old + length more.items }
    ensures capacity { vec_capacity boxes.new ≡ vec_capacity boxes.old }
{
    for one in more {
        boxes.push_reserved(one);
    }
}

/// Ends a store, recovers it from its boxes, and opens it again, with a feed for each of `writers`
/// writers, 1 to 64, with rings of `places` places, 1 to 4,096. What was not flushed is gone, and
/// what was not taken.
///
/// The store goes on with the pages up to the last durable cut. If an append failed, it may be
/// those up to the cut of that frame: all of it may have been written. So each record that
/// `durable_of` said to be durable is there.
///
/// Refused `NoMemory` if nothing was begun: the store comes back. Refused `Recovery`, for want of
/// memory, if a box could not be read, and if nothing was ever kept. Refused `Reopening`, as
/// `Core::reopen` is. It costs a recovery.
pub fn relive(
    alloc: Global,
    store: Core,
    writers: usize,
    places: usize,
) -> Result<(Core, Vec<Feed>), ReliveFault>
    requires { IsSound store holding }
    ensures begins { IfOk result (λ r.
        Begins (boxes_of (kept_by store holding).log) (kept_by r.0 holding)) }
    ensures lives { IfOk result (λ r.
        Relives (kept_by store holding) (kept_by r.0 holding)) }
    ensures sound { IfOk result (λ r. IsSound r.0 holding) }
    ensures feeds { IfOk result (λ r. AreUnused writers places r.1.items) }
    ensures rings { IfOk result (λ r.
        map ring_of_feed r.1.items ≡ (kept_by r.0 holding).rings) }
    ensures refused { IfErr result
        (IsNotRelived store (kept_by store holding) writers places
        (λ b. holding (b.vtable, b.value))) }
{
    let count = store.live() as usize + store.spares() as usize;
    let Ok(mut boxes) = Vec::with_capacity(alloc, count) else {
        return Err(ReliveFault::NoMemory(store));
    };
    let (live, spares) = store.shut();
    add_all(&mut boxes, live);
    add_all(&mut boxes, spares);
    let recovered = match recover(alloc, boxes) {
        Ok(recovered) => recovered,
        Err(fault) => return Err(ReliveFault::Recovery(fault)),
    };
    match Core::reopen(alloc, recovered, writers, places) {
        Ok(begun) => Ok(begun),
        Err(fault) => Err(ReliveFault::Reopening(fault)),
    }
}
