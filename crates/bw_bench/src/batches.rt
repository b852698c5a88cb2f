//! Records are put, turned and flushed in batches, by one writer in the store's own thread.

ghost use Rattle.std.specs.Prelude.{◌≡◌};
ghost use Rattle.bw_ring.specs.Ends.{ring_of_feed};
ghost use Rattle.bw_store.specs.Views.{IsSound};
ghost use Rattle.bw_bench.specs.Lent.{Keeps};

use crate::bench::Bench;
use crate::cost::Cost;
use crate::stop::Stop;
use crate::watch::Meter;
use bw_codec::Record;
use bw_ring::Feed;
use bw_store::Store;
use std::sync::Wait;

/// Puts all of a batch.
pub fn put_all(bench: &Bench, feed: &mut Feed, batch: &[Record]) -> Option<()>
    ensures { ring_of_feed feed.new ≡ ring_of_feed feed.old }
{
    'puts: for item in batch {
        if feed.put(item.copy()).is_err() {
            return bench.stop(Stop::Refused, "a full ring");
        }
    }
    Some(())
}

/// Takes so many records, each in a group of its own.
fn take_all(bench: &Bench, store: &mut Store, many: usize) -> Option<()>
    requires { IsSound store.old holding }
    ensures { Keeps store.old store.new holding }
{
    let many = u32::try_from(many).unwrap_or(u32::MAX);
    match store.turn(many) {
        Ok(taken) if taken == u64::from(many) => Some(()),
        Ok(_) => bench.stop(Stop::Refused, "a turn that took fewer"),
        Err(fault) => bench.refused(fault.cause),
    }
}

/// Flushes if it is due.
fn flush_if<R: Wait>(rt: &R, bench: &Bench, store: &mut Store, is_due: bool) -> Option<()>
    requires { IsSound store.old holding }
    ensures { Keeps store.old store.new holding }
{
    if !is_due {
        return Some(());
    }
    match store.flush(rt) {
        Ok(_) => Some(()),
        Err(fault) => bench.refused(fault),
    }
}

/// Puts and takes a batch, and flushes it if that is due: with its cost.
fn one_batch<R: Wait>(
    rt: &R,
    bench: &Bench,
    store: &mut Store,
    feed: &mut Feed,
    batch: &[Record],
    is_due: bool,
    cost: Cost,
) -> Option<Cost>
    requires { IsSound store.old holding }
    ensures store { Keeps store.old store.new holding }
    ensures feed { ring_of_feed feed.new ≡ ring_of_feed feed.old }
{
    let start = bench.now();
    put_all(bench, feed, batch)?;
    let put = bench.now();
    take_all(bench, store, batch.len())?;
    let taken = bench.now();
    flush_if(rt, bench, store, is_due)?;
    Some(cost.and(start, put, taken, bench.now()))
}

/// Puts and takes a script, a batch at once, and flushes after each, or once after the last.
pub fn put_script<R: Wait>(
    rt: &R,
    bench: &Bench,
    store: &mut Store,
    feed: &mut Feed,
    script: &[Record],
    is_late: bool,
    name: &'static str,
) -> Option<Cost>
    requires { IsSound store.old holding }
    ensures store { Keeps store.old store.new holding }
    ensures feed { ring_of_feed feed.new ≡ ring_of_feed feed.old }
{
    let size = usize::from(bench.options.batch).max(1);
    let mut cost = Cost::NONE;
    let mut done = 0u64;
    let all = script.len() as u64;
    let mut meter = Meter::start(bench, name, all);
    'batches: for batch in script.chunks(size) {
        done = done.saturating_add(batch.len() as u64);
        let is_due = !is_late || done == all;
        cost = one_batch(rt, bench, store, feed, batch, is_due, cost)?;
        meter.tell(bench, done);
    }
    Some(cost)
}

/// The bytes of all live segments.
pub fn bytes_of(store: &Store) -> u64
    requires { IsSound store.now holding }
{
    let mut bytes = 0u64;
    'segments: for i in 0..store.live() {
        if let Some((_, _, length)) = store.live_segment(i) {
            bytes = bytes.saturating_add(length);
        }
    }
    bytes
}
