//! Stores are opened for readers.

ghost use Rattle.std.specs.Prelude.{◌≡◌, map, IfSome};
ghost use Rattle.bw_ring.specs.Ends.{ring_of_feed};
ghost use Rattle.bw_store.specs.Views.{kept_beside, IsSound, IsSoundBeside};

use bw_device::{Desk, MemSegment, Segment};
use bw_ring::Feed;
use bw_store::{Config, Store};
use std::alloc::Global;
use std::sync::Wait;

/// So many boxes of the least capacity for frames of 65,536 bytes.
pub(super) fn supplied(alloc: Global, many: u32) -> Option<Vec<Box<dyn Segment>>> {
    let mut desk = Desk::new(alloc, 128).ok()?;
    let mut boxes: Vec<Box<dyn Segment>> = Vec::new(alloc);
    for _ in 0..many {
        let segment = MemSegment::new(alloc, desk.take().ok()?, 65_560).ok()?;
        boxes.push(Box::new(alloc, segment).ok()?).ok()?;
    }
    Some(boxes)
}

/// A store, and a feed for each of its writers.
pub(super) struct Served {
    pub(super) store: Store,
    pub(super) feeds: Vec<Feed>,
}

/// A store over these boxes.
pub(super) fn store_over<R: AllocGlobal + Wait>(
    rt: &R,
    boxes: Vec<Box<dyn Segment>>,
    config: &Config,
) -> Option<Served>
    ensures sound { IfSome result (λ s. IsSoundBeside s.store holding) }
    ensures feeds { IfSome result (λ s.
        map ring_of_feed s.feeds.items ≡ (kept_beside s.store holding).rings) }
{
    match Store::open(rt, rt.alloc(), config, boxes) {
        Ok((store, feeds)) => Some(Served { store, feeds }),
        Err(_fault) => None,
    }
}

/// It is shut, and its boxes are dropped.
pub(super) fn ended<R: Wait>(rt: &R, served: Served)
    requires { IsSound served.store holding }
{
    let Served {
        store,
        feeds: _feeds,
    } = served;
    let _ = store.shut(rt);
}
