//! Values are asked for, and pages leave memory.

ghost use Rattle.bw_store.specs.Views.{IsSound};
ghost use Rattle.bw_bench.specs.Lent.{Keeps};

use crate::bench::Bench;
use crate::stop::Stop;
use crate::watch::Meter;
use bw_codec::Value;
use bw_store::{ReadFault, Reader, Store};

/// The value of a put's key.
fn found(bench: &Bench, store: &mut Store, put: u64) -> Option<Option<Value>>
    requires { IsSound store.old holding }
    ensures { Keeps store.old store.new holding }
{
    match store.get(&bench.options.shape().key(put)?) {
        Ok(value) => Some(value),
        Err(fault) => bench.refused(fault),
    }
}

/// A reader of the store.
pub fn reader_of(bench: &Bench, store: &mut Store) -> Option<Reader>
    requires { IsSound store.old holding }
    ensures { Keeps store.old store.new holding }
{
    match store.reader() {
        Ok(reader) => Some(reader),
        Err(ReadFault::NoMemory) => None,
        Err(fault) => bench.stop(Stop::Refused, fault),
    }
}

/// Reads so many keys back: each must have the value of the last of so many puts.
pub fn read_back(
    bench: &Bench,
    store: &mut Store,
    name: &'static str,
    keys: u64,
    puts: u64,
) -> Option<()>
    requires { IsSound store.old holding }
    ensures { Keeps store.old store.new holding }
{
    let shape = bench.options.shape();
    let mut wrong = 0u64;
    let mut meter = Meter::start(bench, "reading back", keys);
    'keys: for put in 0..keys {
        let expected = shape.value(shape.last(put, puts))?;
        let is_right = found(bench, store, put)? == Some(expected);
        wrong = wrong.saturating_add(u64::from(!is_right));
        meter.tell_some(bench, put);
    }
    bench.tell_wrong(name, keys, wrong)
}

/// The store gives a value for the keys of so many puts.
pub fn get_all(bench: &Bench, store: &mut Store, name: &'static str, puts: u64) -> Option<()>
    requires { IsSound store.old holding }
    ensures { Keeps store.old store.new holding }
{
    let mut meter = Meter::start(bench, name, puts);
    'gets: for put in 0..puts {
        if found(bench, store, put)?.is_none() {
            return bench.stop(Stop::Refused, "a key without a value");
        }
        meter.tell_some(bench, put);
    }
    let nanos = meter.nanos(bench);
    bench.tell(name, puts, nanos);
    Some(())
}

/// A reader does.
pub fn read_all(bench: &Bench, reader: &mut Reader, puts: u64) -> Option<()> {
    let shape = bench.options.shape();
    let mut meter = Meter::start(bench, "reader", puts);
    for put in 0..puts {
        match reader.get(&shape.key(put)?) {
            Ok(Some(_)) => meter.tell_some(bench, put),
            _ => return bench.stop(Stop::Refused, "a reader without a value"),
        }
    }
    let nanos = meter.nanos(bench);
    bench.tell("get of a reader", puts, nanos);
    Some(())
}

/// All pages leave memory: how many there are.
pub fn evict_all(bench: &Bench, store: &mut Store) -> Option<u64>
    requires { IsSound store.old holding }
    ensures { Keeps store.old store.new holding }
{
    'pages: for page in 1..u32::MAX {
        match store.evict(page) {
            Ok(true) => {}
            Ok(false) => return bench.stop(Stop::Refused, "a page that stays"),
            Err(_) => return Some(u64::from(page).saturating_sub(1)),
        }
    }
    bench.stop(Stop::Refused, "too many pages")
}
