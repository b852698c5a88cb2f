//! A folder is opened, and one allocation on the way is refused: the call says it, and goes when it
//! is made again.

use bw_codec::limits::MIN_FRAME;
use bw_codec::{Key, Record, Value};
use bw_core::StoreFault;
use bw_home::{Course, Home, HomeFault, NotPut, Options, System, with_store};
use std::fs;
use test_kit::marks::{begin, end, refuse};

const PATH: &str = "folder_tests_memory";

/// No call takes so many allocations.
const MOST: u32 = 2_000;

const SMALL: Options = Options {
    writers: 1,
    queue_groups: 2,
    pairs_a_page: 4,
    frame_bytes: MIN_FRAME,
    segments: 2,
    capacity: 65_560,
    page_bytes: u64::MAX,
};

/// Puts a record and settles.
#[derive(Drop)]
struct Settle;

fn record() -> Option<Record> {
    Some(Record::Put(Key::new(b"k").ok()?, Value::new(b"v").ok()?))
}

impl<R: System> Course<R> for Settle {
    type Answer = Result<(), StoreFault>;

    fn run(self, _rt: &R, home: &mut Home) -> Result<(), StoreFault> {
        let Some(item) = record() else {
            return Ok(());
        };
        if let Err(
            NotPut {
                cause: Some(cause),
                ..
            },
        ) = home.put(item)
        {
            return Err(cause);
        }
        let _ = home.settle()?;
        Ok(())
    }
}

/// Whether a call was refused memory, if it went or said that; none if it said something else. What
/// only makes a call faster may be refused, and the call goes.
fn tried<R: System>(rt: &R) -> Option<bool> {
    begin(rt.alloc());
    let answer = with_store(rt, PATH, &SMALL, Settle);
    let refused = end(rt.alloc());
    match answer {
        Ok(Ok(())) => Some(refused),
        Ok(Err(StoreFault::NoMemory)) | Err(HomeFault::NoMemory) if refused => Some(true),
        _ => None,
    }
}

/// Whether a call goes with memory.
fn goes<R: System>(rt: &R) -> bool {
    matches!(with_store(rt, PATH, &SMALL, Settle), Ok(Ok(())))
}

/// Whether the folder is as a try wants it: not there, or with one record.
fn prepares<R: System>(rt: &R, is_new: bool) -> bool {
    let _ = fs::remove_dir_all(rt, PATH);
    is_new || goes(rt)
}

/// The allocation whose refusal is not said, or after which the call does not go; none if there is
/// no such one. The folder is new for each, or has one record.
fn wrong_number<R: System>(rt: &R, is_new: bool) -> Option<u32> {
    for number in 1..MOST {
        if !prepares(rt, is_new) {
            return Some(number);
        }
        refuse(rt.alloc(), number);
        match tried(rt) {
            Some(true) if goes(rt) => {}
            Some(false) => return None,
            _ => return Some(number),
        }
    }
    Some(MOST)
}

#[test]
fn a_call_tells_that_memory_was_refused(rt: HostRuntime) {
    assert!(&rt; wrong_number(&rt, true).is_none());
    assert!(&rt; wrong_number(&rt, false).is_none());
    let _ = fs::remove_dir_all(&rt, PATH);
}
