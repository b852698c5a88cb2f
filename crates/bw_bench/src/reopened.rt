//! A store goes on from the boxes of another.

ghost use Rattle.bw_store.specs.Views.{IsSound};
ghost use Rattle.bw_bench.specs.Lent.{Keeps};

use crate::asking::read_back;
use crate::batches::bytes_of;
use crate::bench::Bench;
use crate::stop::Stop;
use bw_care::recover;
use bw_device::Segment;
use bw_store::Store;
use std::sync::Wait;

/// Prints what it took to open the store from the start on, and reads all keys back.
pub fn tell_opened(bench: &Bench, store: &mut Store, opened: u64) -> Option<()>
    requires { IsSound store.old holding }
    ensures { Keeps store.old store.new holding }
{
    let (keys, puts) = (u64::from(bench.options.keys), bench.options.puts());
    bench.tell("open, records", puts, opened);
    bench.tell_each("  in the log", puts, bytes_of(store), "bytes");
    read_back(bench, store, "open", keys, puts)
}

/// Recovers what the boxes hold, opens a store over it, prints what it took, and reads all keys
/// back. The time runs from before the boxes were made.
pub fn reopened<R: Wait>(
    rt: &R,
    bench: &Bench,
    start: u64,
    boxes: Vec<Box<dyn Segment>>,
) -> Option<()> {
    let Ok(found) = recover(bench.alloc, boxes) else {
        return bench.stop(Stop::Refused, "a recovery");
    };
    let recovered = bench.since(start);
    match Store::reopen(rt, bench.alloc, found, 1, 1, 1) {
        Ok((mut store, _feeds)) => {
            let opened = bench.since(start);
            bench.tell_each("recover, records", bench.options.puts(), recovered, "ns");
            let went = tell_opened(bench, &mut store, opened);
            let _ = store.shut(rt);
            went
        }
        Err(fault) => bench.refused(fault.cause),
    }
}
