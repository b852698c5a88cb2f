//! A reader in a thread of its own, which looks up while records are put.

ghost use Rattle.bw_store.specs.Views.{IsSound};
ghost use Rattle.bw_bench.specs.Lent.{Keeps};

use crate::asking::reader_of;
use crate::bench::Bench;
use crate::report::Seen;
use crate::shape::Shape;
use crate::stop::Stop;
use bw_store::{Reader, Store};
use std::thread;
use std::thread::{JoinHandle, Threads};

/// After how many look-ups the reader looks whether it is over.
const LOOKS: u64 = 64;

/// Whether the reader finds the value of this put, or nothing any more.
fn is_over(reader: &mut Reader, shape: Shape, put: u64) -> bool {
    let (Some(key), Some(last)) = (shape.key(put), shape.value(put)) else {
        return true;
    };
    match reader.get(&key) {
        Ok(Some(value)) => value == last,
        Ok(None) => false,
        Err(_) => true,
    }
}

/// Looks up the key of this put.
fn look_once(reader: &mut Reader, shape: Shape, put: u64, puts: u64, seen: &mut Seen) {
    let Some(key) = shape.key(put) else {
        return;
    };
    seen.lookups = seen.lookups.saturating_add(1);
    if let Ok(Some(value)) = reader.get(&key) {
        seen.found = seen.found.saturating_add(1);
        let is_wrong = !shape.is_put(put, &value, puts);
        seen.wrong = seen.wrong.saturating_add(u64::from(is_wrong));
    }
}

/// Looks up one key after the other until the last of so many puts is there, or the store is shut.
fn look_up(mut reader: Reader, shape: Shape, puts: u64) -> Seen {
    let mut seen = Seen {
        lookups: 0,
        found: 0,
        wrong: 0,
    };
    for put in 0..u64::MAX {
        if put % LOOKS == 0 && is_over(&mut reader, shape, puts.saturating_sub(1)) {
            break;
        }
        look_once(&mut reader, shape, put, puts, &mut seen);
    }
    seen
}

/// A reader of the store that begins to look up the keys of so many puts, if there is to be one.
pub fn start_if<R: Threads>(
    rt: &R,
    bench: &Bench,
    store: &mut Store,
    puts: u64,
    is_read: bool,
) -> Option<Option<JoinHandle<Seen>>>
    requires { IsSound store.old holding }
    ensures { Keeps store.old store.new holding }
{
    if !is_read {
        return Some(None);
    }
    let shape = bench.options.shape();
    let reader = reader_of(bench, store)?;
    match thread::spawn(rt, move || look_up(reader, shape, puts)) {
        Ok(thread) => Some(Some(thread)),
        Err(_) => bench.stop(Stop::System, "no thread could be made"),
    }
}

/// What the reader saw, if there is one. If the puts were refused, it is not waited for: it ends
/// once its store is shut.
pub fn end_if<R: Threads>(rt: &R, looker: Option<JoinHandle<Seen>>, are_put: bool) -> Option<Seen> {
    match looker {
        Some(thread) => {
            if are_put {
                return Some(thread.join(rt));
            }
            None
        }
        None => None,
    }
}
