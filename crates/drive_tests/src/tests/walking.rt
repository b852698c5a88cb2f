//! Tables are walked.

ghost use Rattle.std.specs.Prelude.{◌≡◌, map};
ghost use Rattle.bw_ring.specs.Ends.{ring_of_feed};
ghost use Rattle.bw_store.specs.Views.{kept_by, IsSound};

use super::boxes::boxes_of;
use super::scripts::{Sizes, are_whole};
use super::steps::{Step, goes};
use bw_device::Segment;
use bw_drive::{Gate, OpenGate};
use bw_ring::Feed;
use bw_store::{Config, Store};
use std::sync::Wait;
use std::thread::Threads;
use test_boxes::NEVER;

/// A store, its boxes and its steps.
#[derive(Drop)]
pub(super) struct Table {
    pub(super) name: &'static str,
    pub(super) writers: usize,
    pub(super) places: usize,
    pub(super) boxes: u32,
    pub(super) capacity: u64,
    /// The first box fails after so many calls.
    pub(super) fuse: Option<u64>,
    pub(super) steps: &'static [Step],
    /// How the records of all its runs stand in groups. Those of mixed sizes are whole in the
    /// history after each step.
    pub(super) sizes: Sizes,
}

/// Two writers with rings of eight places, and four boxes that do not fail; each record by itself.
pub(super) const PLAIN: Table = Table {
    name: "plain",
    writers: 2,
    places: 8,
    boxes: 4,
    capacity: 65_560,
    fuse: None,
    steps: &[],
    sizes: Sizes::One,
};

/// The first step that did not go as expected.
fn wrong_step<R: AllocGlobal + Threads + Wait, G: Gate>(
    rt: &R,
    store: &mut Store,
    feeds: Vec<Feed>,
    table: &Table,
    gate: &G,
) -> Option<usize>
    requires sound { IsSound store.old holding }
    requires feeds { map ring_of_feed feeds.items ≡ (kept_by store.old holding).rings }
    ensures { IsSound store.new holding }
{
    let mut feeds = feeds;
    for (i, step) in table.steps.iter().enumerate() {
        let (back, went) = goes(rt, store, feeds, gate, table.sizes, step);
        feeds = back;
        if !went || (table.sizes == Sizes::Mixed && !are_whole(store.history())) {
            return Some(i);
        }
    }
    None
}

/// Live segments, and spares.
pub(super) type Left = (Vec<Box<dyn Segment>>, Vec<Box<dyn Segment>>);

/// The boxes of the store after the table's steps, if all of them went as expected through this
/// gate; and else the first that did not, which is the first one if there was no store.
pub(super) fn walked<R: AllocGlobal + Threads + Wait, G: Gate>(
    rt: &R,
    table: &Table,
    gate: &G,
) -> Result<Left, usize> {
    let fuse = table.fuse.map_or(NEVER, |calls| (calls, 0));
    let Some(boxes) = boxes_of(rt.alloc(), table.boxes as usize, table.capacity, fuse) else {
        return Err(0);
    };
    let config = Config {
        writers: table.writers,
        places: table.places,
        readers: 1,
        m: 4,
        f: 65_536,
    };
    let Ok((mut store, feeds)) = Store::open(rt, rt.alloc(), &config, boxes) else {
        return Err(0);
    };
    let wrong = wrong_step(rt, &mut store, feeds, table, gate);
    let left = store.shut(rt);
    match wrong {
        Some(step) => Err(step),
        None => Ok(left),
    }
}

/// The first table that does not go as expected if all pass the gate, and its step.
pub(super) fn wrong_table<R: AllocGlobal + Threads + Wait>(
    rt: &R,
    tables: &[&Table],
) -> Option<(&'static str, usize)> {
    for table in tables {
        if let Err(step) = walked(rt, *table, &OpenGate) {
            return Some((table.name, step));
        }
    }
    None
}
