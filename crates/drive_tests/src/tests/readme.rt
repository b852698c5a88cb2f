//! Writers in threads beside the store's, as docs/EMBED.md shows it.

ghost use Rattle.std.specs.Prelude.{◌≡◌, map};
ghost use Rattle.bw_ring.specs.Ends.{ring_of_feed};
ghost use Rattle.bw_store.specs.Views.{kept_by, IsSound};

use super::boxes::{TWO_WRITERS, four_boxes};
use super::scripts::{Part, Sizes, scripts};
use bw_drive::{OpenGate, Plan, drive};
use bw_ring::Feed;
use bw_store::Store;
use std::alloc::{AllocError, Global};
use std::sync::Wait;
use std::thread::Threads;

// How many entries the history has once each writer has put its part.
fn example<R: Threads + Wait>(
    rt: &R,
    alloc: Global,
    store: &mut Store,
    feeds: Vec<Feed>,
    part: Part,
) -> Result<Option<u64>, AllocError>
    requires sound { IsSound store.old holding }
    requires feeds { map ring_of_feed feeds.items ≡ (kept_by store.old holding).rings }
    ensures { IsSound store.new holding }
{
    let scripts = scripts(alloc, feeds.len(), part, Sizes::One)?; // a Vec<Group> for each writer
    let plan = Plan {
        limit: 64,
        flush_every: 4,
        clean_at: 3,
        forgets: false,
    };
    let tries = 1_000_000_000; // for each group
    match drive(rt, store, feeds, scripts, &OpenGate, plan, tries) {
        Ok(driven) => Ok(Some(driven.entries)), // accepted, settled, and in the segments
        Err(_) => Ok(None), // the feeds are back, with the first refusal
    }
}

// Whether a new store of two writers has all entries in its history once each has put its part.
fn is_settled<R: Threads + Wait>(rt: &R, alloc: Global) -> bool {
    let Some(boxes) = four_boxes(alloc) else {
        return false;
    };
    let Ok((mut store, feeds)) = Store::open(rt, alloc, TWO_WRITERS, boxes) else {
        return false;
    };
    let entries = example(rt, alloc, &mut store, feeds, Part(0, 10, 10));
    let _ = store.shut(rt);
    matches!(entries, Ok(Some(20)))
}

#[test]
fn the_example_of_readme_settles(rt: HostRuntime) {
    assert!(rt; is_settled(&rt, rt.alloc()));
}
