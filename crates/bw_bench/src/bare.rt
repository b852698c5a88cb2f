//! One writer and a store without readers, in one thread: what `alone` does, without what readers
//! cost; or what `cold` does.

ghost use Rattle.bw_core.specs.Views.{IsSound};

use crate::batches::put_all;
use crate::bench::Bench;
use crate::cold::cold;
use crate::cost::Cost;
use crate::segments::{CAPACITY, count_of, memory};
use crate::shape::{Span, WHOLE};
use crate::stop::Stop;
use crate::watch::{Meter, resident};
use bw_codec::limits::MAX_PAIRS;
use bw_codec::{Pair, Record, Value};
use bw_core::{Config, Core};
use bw_device::{Desk, Segment};
use bw_ring::Feed;

// Takes so many records, each in a group of its own, and flushes.
fn take_and_flush(bench: &Bench, core: &mut Core, many: usize) -> Option<(u64, u64)>
    requires { IsSound core.old holding }
    ensures { IsSound core.new holding }
{
    let many = u32::try_from(many).unwrap_or(u32::MAX);
    if let Err(fault) = core.turn(many) {
        return bench.refused(fault.cause);
    }
    let taken = bench.now();
    if let Err(fault) = core.flush() {
        return bench.refused(fault);
    }
    Some((taken, bench.now()))
}

/// Puts, takes and flushes a batch: with its cost.
pub fn one_batch(
    bench: &Bench,
    core: &mut Core,
    feed: &mut Feed,
    batch: &[Record],
    cost: Cost,
) -> Option<Cost>
    requires { IsSound core.old holding }
    ensures { IsSound core.new holding }
{
    let start = bench.now();
    put_all(bench, feed, batch)?;
    let put = bench.now();
    let (taken, flushed) = take_and_flush(bench, core, batch.len())?;
    Some(cost.and(start, put, taken, flushed))
}

/// Puts, takes and flushes a script, a batch at once.
pub fn put_script(
    bench: &Bench,
    core: &mut Core,
    feed: &mut Feed,
    script: &[Record],
    name: &'static str,
) -> Option<Cost>
    requires { IsSound core.old holding }
    ensures { IsSound core.new holding }
{
    let size = usize::from(bench.options.batch).max(1);
    let mut cost = Cost::NONE;
    let mut done = 0u64;
    let mut meter = Meter::start(bench, name, script.len() as u64);
    'batches: for batch in script.chunks(size) {
        cost = one_batch(bench, core, feed, batch, cost)?;
        done = done.saturating_add(batch.len() as u64);
        meter.tell(bench, done);
    }
    Some(cost)
}

/// The bytes of all live segments.
pub fn bytes_of(core: &Core) -> u64
    requires { IsSound core.now holding }
{
    let mut bytes = 0u64;
    'segments: for i in 0..core.live() {
        if let Some((_, _, length)) = core.live_segment(i) {
            bytes = bytes.saturating_add(length);
        }
    }
    bytes
}

// Asks for so many keys: each must have the value of the last of so many puts.
fn get_all(bench: &Bench, core: &mut Core, name: &'static str, keys: u64, puts: u64) -> Option<()>
    requires { IsSound core.old holding }
    ensures { IsSound core.new holding }
{
    let shape = bench.options.shape();
    let mut wrong = 0u64;
    let mut meter = Meter::start(bench, "get", keys);
    'keys: for put in 0..keys {
        match core.get(&shape.key(put)?) {
            Ok(found) => {
                let expected = shape.value(shape.last(put, puts))?;
                wrong = wrong.saturating_add(u64::from(found != Some(expected)));
            }
            Err(fault) => return bench.refused(fault),
        }
        meter.tell_some(bench, put);
    }
    let nanos = meter.nanos(bench);
    bench.tell("get", keys, nanos);
    bench.tell_wrong(name, keys, wrong)
}

// Whether a pair was found that has this value.
fn is_value(found: &Option<Pair>, expected: &Value) -> bool {
    match found {
        Some(pair) => pair.value() == expected.as_slice(),
        None => false,
    }
}

// Asks for so many keys by pairs that share their bytes with their pages.
fn share_all(bench: &Bench, core: &mut Core, name: &'static str, keys: u64, puts: u64) -> Option<()>
    requires { IsSound core.old holding }
    ensures { IsSound core.new holding }
{
    let shape = bench.options.shape();
    let mut wrong = 0u64;
    let mut meter = Meter::start(bench, "get, shared", keys);
    'keys: for put in 0..keys {
        match core.get_shared(&shape.key(put)?) {
            Ok(found) => {
                let expected = shape.value(shape.last(put, puts))?;
                wrong = wrong.saturating_add(u64::from(!is_value(&found, &expected)));
            }
            Err(fault) => return bench.refused(fault),
        }
        meter.tell_some(bench, put);
    }
    let nanos = meter.nanos(bench);
    bench.tell("get, shared", keys, nanos);
    bench.tell_wrong(name, keys, wrong)
}

// The records of a span are put, with what that costs; then all keys are asked for.
fn put_span(bench: &Bench, core: &mut Core, feed: &mut Feed, span: Span) -> Option<()>
    requires { IsSound core.old holding }
    ensures { IsSound core.new holding }
{
    let script = bench.options.shape().script(bench.alloc, span, WHOLE)?;
    let (before, had) = (resident(bench), bytes_of(core));
    let cost = put_script(bench, core, feed, &script, span.name)?;
    bench.tell_cost(span, cost);
    let added = bytes_of(core).saturating_sub(had);
    bench.tell_each("  in the log", span.count(), added, "bytes");
    let grown = resident(bench).saturating_sub(before).saturating_sub(added);
    bench.tell_each("  in memory, beside the log", span.count(), grown, "bytes");
    let keys = u64::from(bench.options.keys);
    get_all(bench, core, span.name, keys, span.to)?;
    share_all(bench, core, span.name, keys, span.to)
}

// New keys, then old ones.
fn put_both(bench: &Bench, core: &mut Core, feed: &mut Feed) -> Option<()>
    requires { IsSound core.old holding }
    ensures { IsSound core.new holding }
{
    let (load, update) = bench.options.spans();
    put_span(bench, core, feed, load)?;
    put_span(bench, core, feed, update)
}

// Runs a course over a store of these boxes.
fn over(bench: &Bench, boxes: Vec<Box<dyn Segment>>, is_cold: bool) -> Option<()> {
    let config = Config {
        writers: 1,
        places: usize::from(bench.options.batch),
        m: MAX_PAIRS,
        f: bench.options.frame,
    };
    let (mut core, mut feeds) = match Core::open(bench.alloc, &config, boxes) {
        Ok(opened) => opened,
        Err(fault) => return bench.refused(fault.cause),
    };
    let Some(mut feed) = feeds.pop() else {
        return bench.stop(Stop::Refused, "a store without a writer");
    };
    if is_cold {
        cold(bench, &mut core, &mut feed)
    } else {
        put_both(bench, &mut core, &mut feed)
    }
}

// Runs a course over so many segments in memory.
fn over_memory(bench: &Bench, many: u32, is_cold: bool) -> Option<()> {
    let mut desk = Desk::new(bench.alloc, many).ok()?;
    let mut boxes: Vec<Box<dyn Segment>> = Vec::new(bench.alloc);
    for _ in 0..many {
        boxes
            .push(memory(bench.alloc, &mut desk, CAPACITY, &[])?)
            .ok()?;
    }
    over(bench, boxes, is_cold)
}

/// One writer over a store without readers, its segments in memory: new keys, then old ones.
pub fn bare(bench: &Bench) -> Option<()> {
    over_memory(bench, count_of(bench.options), false)
}

/// A core whose pages leave memory. They are also written again, which takes segments.
pub fn bare_and_cold(bench: &Bench) -> Option<()> {
    over_memory(bench, count_of(bench.options).saturating_mul(4), true)
}
