//! The example of docs/EMBED.md: a store, a put from a thread, a settlement, the value.

ghost use Rattle.std.specs.Prelude.{◌≡◌, map};
ghost use Rattle.bw_ring.specs.Ends.{ring_of_feed};
ghost use Rattle.bw_store.specs.Views.{kept_by, IsSound};

use super::serving::supplied;
use super::threads::OfOneRing;
use bw_codec::{Key, Record, Value};
use bw_device::Segment;
use bw_ring::Feed;
use bw_store::{Config, Store};
use std::snapshot::Snapshot;
use std::sync::Wait;
use std::test::Fail;
use std::thread;
use std::thread::Threads;

// What a writer's thread does: its feed accepts a record, or hands it back if the ring is full.
fn put(mut feed: Feed, record: Record) -> Feed
    ensures { ring_of_feed result ≡ ring_of_feed feed }
{
    let _ = feed.put(record);
    feed
}

// The value of k after a settlement.
fn example<R: Threads + Wait>(
    rt: &R,
    store: &mut Store,
    feeds: &mut Vec<Feed>,
) -> Result<Option<Value>, Fail>
    requires sound { IsSound store.old holding }
    requires feeds { map ring_of_feed feeds.old.items ≡ (kept_by store.old holding).rings }
    ensures { IsSound store.new holding }
{
    let record = Record::Put(Key::new(b"k")?, Value::new(b"v")?);
    let Some(feed) = feeds.pop() else {
        return Ok(None);
    };
    let promise = OfOneRing(Snapshot::of(&feed)); // the feed that comes back is the one that left
    let writer = thread::spawn_with(rt, promise, move || { put(feed, record) })?;
    feeds.push(writer.join(rt))?;
    store.settle(rt, feeds)?; // what was accepted is in the segments, once
    let value = store.get(&Key::new(b"k")?)?;
    Ok(value)
}

// The value of k after a settlement of a new store of one writer.
fn is_there<R: AllocGlobal + Threads + Wait>(rt: &R) -> Result<Option<Value>, Fail> {
    let alloc = rt.alloc();
    let Some(boxes) = supplied(alloc, 2) else {
        return Ok(None);
    };
    let config = Config {
        writers: 1,
        places: 8,
        readers: 1,
        m: 4,
        f: 65_536,
    };
    let Ok((mut store, mut feeds)) = Store::open(rt, alloc, &config, boxes) else {
        return Ok(None); // the boxes are in the refusal
    };
    let value = example(rt, &mut store, &mut feeds);
    let (_live, _spares) = store.shut(rt); // the boxes, as they stand
    value
}

#[test]
fn the_example_of_readme_reads_its_value(rt: HostRuntime) -> Result<(), Fail> {
    let read = match is_there(&rt)? {
        Some(value) => value.as_slice() == b"v".as_slice(),
        None => false,
    };
    assert!(rt; read);
    Ok(())
}
