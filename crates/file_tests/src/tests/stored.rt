//! A store and a cleaner over files: what was flushed is there again after a stop, and of what
//! could not be flushed either the whole frame or none.

ghost use Rattle.bw_care.specs.Views.{IsSound as IsSoundLog};
ghost use Rattle.bw_store.specs.Views.{IsSound};

use super::recovered::Said::Found;
use super::recovered::{Said, Worked, boxes_of, wrong_worked};
use super::steps::Act::{First, Tells};
use super::steps::goes_outside;
use super::watching::WatchedFile;
use super::{Watched, clear};
use bw_care::{Cleaned, clean};
use bw_codec::{Key, Record, Value};
use bw_device::Segment;
use bw_file::Folder;
use bw_log::Log;
use bw_ring::Feed;
use bw_store::{Config, Store, StoreFault};
use std::sync::Wait;
use test_kit::vectors::{THIRD_LOST, THIRD_OLDER};

const KV: &[(&str, &str)] = &[("k", "v")];

const JKV: &[(&str, &str)] = &[("j", "w"), ("k", "v")];

/// What the first flush writes, of k=v, and the second, of j=w.
const BOTH: &str =
    "42574c4f475347320100000000000000040000000000010046524d3201000000000000002100000002000000\
    02010000000000000101000000010000000000000000000000010001016b01007646524d3202000000000000\
    0019000000010000000101000000010000000000000001000000010001016a010077";

/// How many of these bytes are of the second frame.
const SECOND_LENGTH: u64 = 45;

// Whether writer 0 could put a record.
fn is_put(feeds: &mut [Feed], (key, value): (&[u8], &[u8])) -> bool {
    let (Ok(key), Ok(value)) = (Key::new(key), Value::new(value)) else {
        return false;
    };
    match feeds.first_mut() {
        Some(feed) => feed.put(Record::Put(key, value)).is_ok(),
        None => false,
    }
}

// Whether one record is taken.
fn is_taken(store: &mut Store) -> bool
    requires { IsSound store.old holding }
    ensures { IsSound store.new holding }
{
    match store.turn(1) {
        Ok(count) => count == 1,
        Err(_) => false,
    }
}

/// The answer of a flush that fails on the segment of lease 0. No frame has this number.
const FAILS: u64 = 0;

// Whether a flush answers so: the number of its frame, or that it fails.
fn answers<R: Wait>(rt: &R, store: &mut Store, told: u64) -> bool
    requires { IsSound store.old holding }
    ensures { IsSound store.new holding }
{
    match store.flush(rt) {
        Ok(Some(number)) => told == number,
        Ok(None) => false,
        Err(fault) => told == FAILS && fault == StoreFault::Device { lease: 0 },
    }
}

// Whether a record of writer 0 is taken, and its flush then answers so.
fn is_flushed<R: Wait>(
    rt: &R,
    store: &mut Store,
    feeds: &mut [Feed],
    pair: (&[u8], &[u8]),
    told: u64,
) -> bool
    requires { IsSound store.old holding }
    ensures { IsSound store.new holding }
{
    let put = is_put(feeds, pair);
    let taken = is_taken(store);
    let flushed = answers(rt, store, told);
    put & taken & flushed
}

/// After so many calls of a second flush one fails, a write with so many bytes kept.
#[derive(Clone, Copy)]
struct Stop(u64, u64);

// Two flushes: the first one passes, and the second one as long as no call of it is to fail.
fn are_flushed<R: Wait>(
    wait: &R,
    rt: &Watched,
    store: &mut Store,
    feeds: &mut [Feed],
    stop: Stop,
) -> bool
    requires { IsSound store.old holding }
    ensures { IsSound store.new holding }
{
    let first = is_flushed(wait, store, feeds, (b"k", b"v"), 1);
    rt.watch.fail_after(stop.0, stop.1);
    let told = if stop.0 < 3 { FAILS } else { 2 };
    let second = is_flushed(wait, store, feeds, (b"j", b"w"), told);
    first & second
}

const CONFIG: Config = Config {
    writers: 1,
    places: 8,
    readers: 1,
    m: 4,
    f: 65_536,
};

// A life of a store over these boxes, until it is shut.
fn lives_over<R: Wait>(wait: &R, rt: &Watched, boxes: Vec<Box<dyn Segment>>, stop: Stop) -> bool {
    let Ok((mut store, mut feeds)) = Store::open(wait, rt.alloc(), &CONFIG, boxes) else {
        return false;
    };
    let flushed = are_flushed(wait, rt, &mut store, &mut feeds, stop);
    let _ = store.shut(wait);
    flushed
}

// A life of a store over two files of the folder.
fn lives<R: Wait>(wait: &R, rt: &Watched, stop: Stop) -> bool {
    let Ok(mut folder) = Folder::open(rt, rt.path) else {
        return false;
    };
    match boxes_of(rt, &mut folder, 2) {
        Some(boxes) => lives_over(wait, rt, boxes, stop),
        None => false,
    }
}

// What is said if so many bytes of the second frame stand, which is a frame if it is whole.
fn said_of(of_second: u64) -> Said {
    if of_second == SECOND_LENGTH {
        Found(1, 2, 0, 1, 1, 0, JKV)
    } else {
        Found(1, 1, of_second, 1, 1, 0, KV)
    }
}

// Whether after a life with such a stop the first file has so many bytes of the second frame, and
// the files say so.
fn is_there<R: Wait>(wait: &R, rt: HostRuntime, stop: Stop, of_second: u64) -> bool {
    let Some(rt) = Watched::new(rt, "stored") else {
        return false;
    };
    let length = 77 + of_second.min(SECOND_LENGTH) as usize;
    lives(wait, &rt, stop)
        && goes_outside(&rt, &First(BOTH, length))
        && goes_outside(&rt, &Tells(2, said_of(of_second)))
}

// The first stop after which it is otherwise: how many calls passed, or how many bytes were kept.
fn wrong_stop<R: Wait>(wait: &R, rt: HostRuntime) -> Option<(&'static str, usize)> {
    // No call fails; or the write of the sum, or the sync: the frame was not promised, and is
    // there.
    for passes in [99, 2, 1] {
        if !is_there(wait, rt, Stop(passes, 0), SECOND_LENGTH) {
            return Some(("passed", passes as usize));
        }
    }
    // Or the write, after each of its bytes and after its last one.
    for keep in 0..=SECOND_LENGTH {
        if !is_there(wait, rt, Stop(0, keep), keep) {
            return Some(("kept", keep as usize));
        }
    }
    None
}

#[test]
fn what_was_flushed_is_there_after_a_stop(rt: HostRuntime) {
    let wrong = wrong_stop(&rt, rt);
    clear(rt, "stored");
    assert_eq!(rt; wrong, None);
}

/// The pages of two segments: k=1 on the empty page 1, then j=2.
const JK: &[(&str, &str)] = &[("j", "2"), ("k", "1")];

/// What the cleaning of the older one says.
const GIVEN_UP: Cleaned = Cleaned {
    segment: 1,
    lease: 0,
    pages: 1,
    frames: 1,
};

/// Whether the older of two segments is given up. The file is then emptied if that is asked, while
/// the log stands.
pub(super) fn is_given_up(
    rt: &Watched,
    folder: &Folder<WatchedFile>,
    log: &mut Log,
    empties: bool,
) -> bool
    requires { IsSoundLog log.old holding }
{
    let given_up = clean(rt.alloc(), log) == Ok(GIVEN_UP);
    given_up & (!empties || folder.empty(rt, 0).is_ok())
}

/// Two segments, the first of which is given up.
const TWO: &[(&str, usize)] = &[(THIRD_LOST, 77), (THIRD_OLDER, 69)];

/// A cleaning and a stop, before the file is emptied and after it.
const CLEANED: &[Worked] = &[
    Worked("given", TWO, Some(false), 3, Found(1, 3, 0, 2, 1, 0, JK)),
    Worked("emptied", TWO, Some(true), 3, Found(2, 3, 0, 1, 2, 0, JK)),
];

#[test]
fn a_segment_that_was_given_up_is_gone_once_its_file_is_empty(rt: HostRuntime) {
    assert_eq!(rt; wrong_worked(rt, CLEANED), None);
}
