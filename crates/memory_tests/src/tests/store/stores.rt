//! The worked runs of a store, each call of which is refused memory in turn.

ghost use Rattle.std.specs.Prelude.{◌≡◌, map};
ghost use Rattle.bw_ring.specs.Ends.{ring_of_feed};
ghost use Rattle.bw_care.specs.Found.{IsRecovered};
ghost use Rattle.bw_store.specs.Views.{kept_beside, kept_by, IsSound, IsSoundBeside};

mod picture;
mod steps;
mod telling;

use self::picture::is_out;
use self::steps::Step::{
    Bytes, Clean, CleanFails, Count, Counted, Cuts, Evict, Flush, FlushFails, Forget, Frame, Get,
    Group, History, Live, NewSees, News, Next, Out, Page, PageFails, Put, Roll, Sees, Settle,
    Stands, Turn,
};
use self::steps::{Beside, Step, goes};
use super::boxes::{Supply, supplied};
use super::recovering::recovered;
use bw_care::Recovered;
use bw_device::{Desk, Segment};
use bw_ring::Feed;
use bw_store::{Config, Store, StoreFault};
use std::alloc::Global;
use std::sync::Wait;
use std::thread::Threads;
use test_kit::marks::{begin, begin_without, end};
use test_kit::refusals::{Row, Try, then, tried, wrong_row};
use test_kit::vectors::{SECOND, THIRD_NEWER, THIRD_OLDER};

/// A run: what its first box does, its steps, and those of the store that is opened again over what
/// it left.
#[derive(Drop)]
struct Run {
    /// After how many calls the first box fails once, and how many bytes it then keeps.
    fuse: Option<(u64, u64)>,
    steps: &'static [Step],
    again: Option<Again>,
}

/// The first and last frame that are recovered, and the steps that follow.
type Again = (u64, u64, &'static [Step]);

const CONFIG: &Config = &Config {
    writers: 1,
    places: 4,
    readers: 3,
    m: 4,
    f: 65_536,
};

/// How two calls went of which one may have been refused.
fn both(first: Option<Try>, second: Option<Try>) -> Option<Try> {
    match (first?, second?) {
        (Try::Went, second) => Some(second),
        (first, _) => Some(first),
    }
}

// How all steps went.
fn walk<R: Wait>(
    rt: &R,
    alloc: Global,
    store: &mut Store,
    feeds: &mut Vec<Feed>,
    beside: &mut Beside,
    steps: &[Step],
) -> Option<Try>
    requires sound { IsSound store.old holding }
    requires feeds { map ring_of_feed feeds.old.items ≡ (kept_by store.old holding).rings }
    ensures { IsSound store.new holding }
{
    let mut went = Some(Try::Went);
    for step in steps {
        let one = goes(rt, alloc, store, feeds, beside, step);
        went = both(went, one);
        if went.is_none() {
            return None;
        }
    }
    went
}

/// What a life leaves: how it went, and its boxes.
#[derive(Drop)]
struct Left {
    went: Option<Try>,
    boxes: Vec<Box<dyn Segment>>,
    desk: Desk,
}

// A life of a store, with a reader, after which it is shut.
fn lives<R: Wait>(
    rt: &R,
    alloc: Global,
    store: Store,
    feeds: Vec<Feed>,
    desk: Desk,
    steps: &[Step],
) -> Option<Left>
    requires sound { IsSoundBeside store holding }
    requires feeds { map ring_of_feed feeds.items ≡ (kept_beside store holding).rings }
{
    let (mut store, mut feeds) = (store, feeds);
    let Ok(reader) = store.reader() else {
        let _ = store.shut(rt);
        return None;
    };
    let mut beside = Beside { reader, desk };
    let went = walk(rt, alloc, &mut store, &mut feeds, &mut beside, steps);
    begin_without(alloc);
    let (mut boxes, mut spares) = store.shut(rt);
    let went = if end(alloc) { None } else { went };
    let Beside {
        reader: _reader,
        desk,
    } = beside;
    match boxes.append(&mut spares) {
        Ok(()) => Some(Left { went, boxes, desk }),
        Err(_) => None,
    }
}

// Opens a store in a window; once more if memory was refused: all boxes came back then, in order.
fn opens<R: Wait>(rt: &R, alloc: Global, supply: Supply, steps: &[Step]) -> Option<Left> {
    let Supply { boxes, desk } = supply;
    begin(alloc);
    let made = Store::open(rt, alloc, CONFIG, boxes);
    let refused = end(alloc);
    match made {
        Ok((store, feeds)) => with(refused, false, lives(rt, alloc, store, feeds, desk, steps)),
        Err(fault) => {
            if fault.cause != StoreFault::NoMemory || !are_in_order(fault.segments.as_slice()) {
                return None;
            }
            match Store::open(rt, alloc, CONFIG, fault.segments) {
                Ok((store, feeds)) => with(
                    refused,
                    true,
                    lives(rt, alloc, store, feeds, desk, steps),
                ),
                Err(_) => None,
            }
        }
    }
}

// Whether these are four boxes with leases 0 to 3 that hold nothing.
fn are_in_order(boxes: &[Box<dyn Segment>]) -> bool {
    for (i, one) in boxes.iter().enumerate() {
        if one.lease() as usize != i || one.len() != 0 {
            return false;
        }
    }
    boxes.len() == 4
}

// A life after a call that was refused or not, and answered so.
fn with(refused: bool, failed: bool, left: Option<Left>) -> Option<Left> {
    let Left { went, boxes, desk } = left?;
    let first = match (refused, failed) {
        (false, false) => Some(Try::Went),
        (true, false) => Some(Try::Spared),
        (true, true) => Some(Try::Refused),
        (false, true) => None,
    };
    Some(Left {
        went: both(first, went),
        boxes,
        desk,
    })
}

// The numbers of what was recovered.
fn numbers(recovered: &Recovered) -> (u64, u64, u64) {
    (recovered.first, recovered.last, recovered.tail)
}

// How a life went.
fn went_in(left: Option<Left>) -> Option<Try> {
    let Left {
        went,
        boxes: _boxes,
        desk: _desk,
    } = left?;
    went
}

// How a call went that answered Ok.
fn first_of(refused: bool) -> Option<Try> {
    Some(if refused { Try::Spared } else { Try::Went })
}

// Opens a store again in a window; once more if memory was refused: what was recovered came back
// then.
fn reopens<R: Wait>(
    rt: &R,
    alloc: Global,
    recovered: Recovered,
    desk: Desk,
    steps: &[Step],
) -> Option<Try>
    requires { IsRecovered (λ b. holding (b.vtable, b.value)) recovered }
{
    let told = numbers(&recovered);
    begin(alloc);
    let made = Store::reopen(rt, alloc, recovered, 1, 4, 3);
    let refused = end(alloc);
    match made {
        Ok((store, feeds)) => {
            both(
                first_of(refused),
                went_in(lives(rt, alloc, store, feeds, desk, steps)),
            )
        }
        Err(fault) => {
            if fault.cause != StoreFault::NoMemory || !refused {
                return None;
            }
            if numbers(&fault.recovered) != told {
                return None;
            }
            match Store::reopen(rt, alloc, fault.recovered, 1, 4, 3) {
                Ok((store, feeds)) => {
                    both(
                        Some(Try::Refused),
                        went_in(lives(rt, alloc, store, feeds, desk, steps)),
                    )
                }
                Err(_) => None,
            }
        }
    }
}

// What is recovered of the boxes of a life, and the life that follows: how they went.
fn goes_on<R: Wait>(rt: &R, alloc: Global, left: Left, again: &Again) -> Option<Try> {
    let Left { went, boxes, desk } = left;
    let (first, found) = recovered(alloc, boxes)?;
    let (first_frame, last_frame, steps) = again;
    if numbers(&found) != (*first_frame, *last_frame, 0) {
        return None;
    }
    let again = reopens(rt, alloc, found, desk, *steps);
    both(both(went, Some(first)), again)
}

impl Row for Run {
    fn goes<R: AllocGlobal + Threads + Wait>(&self, rt: &R) -> Option<Try> {
        let alloc = rt.alloc();
        let supply = supplied(alloc, 4, &[], self.fuse)?;
        let left = opens(rt, alloc, supply, self.steps)?;
        match &self.again {
            Some(again) => goes_on(rt, alloc, left, again),
            None => {
                let Left {
                    went,
                    boxes,
                    mut desk,
                } = left;
                drop(boxes);
                // All leases came back with the boxes.
                if is_out(&mut desk, &[]) { went } else { None }
            }
        }
    }

    fn spares(&self) -> bool {
        true
    }
}

/// Five puts, each flushed; the last one cuts page 1 in two.
const FIVE: &[Step] = &[
    Frame(b"a", b"1", 1),
    Frame(b"b", b"2", 2),
    Sees(b"b", b"2"),
    Frame(b"c", b"3", 3),
    Frame(b"d", b"4", 4),
    Frame(b"e", b"5", 5),
    Page(1, b": a=1 b=2"),
    Page(2, b"c: c=3 d=4 e=5"),
    PageFails(3, StoreFault::NoPage),
    Live(0, 1, 0, 297),
    Counted(5, 297, 42, false),
    Stands(1, 3),
    Bytes(1, SECOND),
    History("a=1 b=2 c=3 d=4 e=5 "),
    Cuts(&[1, 2, 3, 4, 5], 5),
    Next(6),
    News(b"e", b"5"),
];

/// Three segments, of which the first is given up: its page is written again. Then the second is,
/// whose page stands in the third, and then none.
const CLEANED: &[Step] = &[
    Frame(b"k", b"1", 1),
    Roll,
    Frame(b"j", b"2", 2),
    Roll,
    Frame(b"k", b"3", 3),
    Out(&[0, 1, 2, 3]),
    Clean(1, 0, 1, 1),
    Page(1, b": j=2 k=3"),
    Cuts(&[1, 2, 3, 3], 4),
    Live(0, 2, 1, 69),
    Live(1, 3, 2, 107),
    Counted(3, 253, 0, false),
    Stands(2, 1),
    Out(&[1, 2, 3]),
    Sees(b"k", b"3"),
    Bytes(2, THIRD_OLDER),
    Bytes(3, THIRD_NEWER),
    Clean(2, 1, 0, 0),
    Out(&[2, 3]),
    Live(0, 3, 2, 107),
    Stands(1, 1),
    CleanFails(StoreFault::NothingOld),
    Page(1, b": j=2 k=3"),
];

/// The first frame is appended whole, and answered as failed.
const FAILED: &[Step] = &[
    Put(b"k", b"v"),
    Turn(1),
    FlushFails(StoreFault::Device { lease: 0 }),
    FlushFails(StoreFault::Failed),
    Page(1, b": k=v"),
    Cuts(&[1], 0),
    Stands(1, 3),
    Sees(b"k", b""),
];

/// What is recovered has it.
const RECOVERED: &[Step] = &[
    Page(1, b": k=v"),
    Put(b"l", b"4"),
    Settle(1),
    NewSees(b"k", b"v"),
    Evict(1, true),
    Put(b"m", b"5"),
    Turn(1),
    Get(b"l", b"4"),
    Flush(Some(3)),
    Page(1, b": k=v l=4 m=5"),
];

/// A page leaves memory only if it stands in the log, and is read back; the first read fails.
const EVICTED: &[Step] = &[
    Put(b"k", b"v"),
    Turn(1),
    Evict(1, false),
    Flush(Some(1)),
    Evict(1, true),
    Evict(1, false),
    PageFails(1, StoreFault::Device { lease: 0 }),
    Page(1, b": k=v"),
    Get(b"k", b"v"),
    Count(1),
];

/// What waits is flushed by the cleaning itself; two records wait in the ring for a settling.
const CLEANS_WHAT_WAITS: &[Step] = &[
    Frame(b"k", b"1", 1),
    Roll,
    Frame(b"j", b"2", 2),
    Put(b"i", b"3"),
    Turn(1),
    Clean(1, 0, 1, 1),
    Sees(b"i", b"3"),
    Put(b"g", b"4"),
    Put(b"h", b"5"),
    Settle(5),
    Settle(5),
    Sees(b"h", b"5"),
    History("k=1 j=2 i=3 g=4 h=5 "),
    Forget(5, 5, 5),
    History(""),
    Count(5),
];

/// Groups: one that cuts a page, and then the new one; and one over three pages that are evicted,
/// of which it cuts none.
const GROUPS: &[Step] = &[
    Group(&[(b"a", b"1"), (b"b", b"2"), (b"c", b"3"), (b"d", b"4")]),
    Turn(4),
    Flush(Some(1)),
    Group(&[(b"e", b"5"), (b"f", b"6"), (b"g", b"7"), (b"h", b"8")]),
    Turn(4),
    Flush(Some(2)),
    Sees(b"h", b"8"),
    Evict(1, true),
    Evict(2, true),
    Evict(3, true),
    Group(&[(b"b", b"9"), (b"d", b"9"), (b"h", b"9"), (b"bz", b"9")]),
    Turn(4),
    Group(&[(b"h", b"0"), (b"a", b"0")]),
    Settle(14),
    Sees(b"h", b"0"),
    Page(1, b": a=0 b=9 bz=9"),
    Page(2, b"c: c=3 d=9"),
    Page(3, b"e: e=5 f=6 g=7 h=0"),
    PageFails(4, StoreFault::NoPage),
    History("a=1 b=2 c=3 d=4 e=5 f=6 g=7 h=8 b=9 d=9 h=9 bz=9 h=0 a=0 "),
    Cuts(&[4, 8, 14], 3),
];

const RUNS: &[Run] = &[
    Run {
        fuse: None,
        steps: FIVE,
        again: None,
    },
    Run {
        fuse: None,
        steps: CLEANED,
        again: None,
    },
    Run {
        fuse: Some((1, 1000)),
        steps: FAILED,
        again: Some((1, 1, RECOVERED)),
    },
    Run {
        fuse: Some((2, 0)),
        steps: EVICTED,
        again: None,
    },
    Run {
        fuse: None,
        steps: CLEANS_WHAT_WAITS,
        again: None,
    },
    Run {
        fuse: None,
        steps: GROUPS,
        again: None,
    },
];

/// One try of a box more: it comes back if it is refused.
fn adds(
    alloc: Global,
    store: &mut Store,
    one: Box<dyn Segment>,
) -> (Option<Try>, Option<Box<dyn Segment>>)
    requires { IsSoundBeside store.old holding }
    ensures { IsSoundBeside store.new holding }
{
    begin(alloc);
    let answer = store.add_segment(one);
    let refused = end(alloc);
    let spares = store.spares();
    match answer {
        Ok(()) => (tried(true, refused, spares == 5), None),
        Err((one, fault)) => {
            let is_back = one.lease() == 0 && one.len() == 0 && spares == 4;
            let is_so = is_back && fault == StoreFault::NoMemory;
            (tried(false, refused, is_so), Some(one))
        }
    }
}

/// A box is added, once more if that was refused.
fn is_added(alloc: Global, store: &mut Store, one: Box<dyn Segment>) -> Option<Try>
    requires { IsSoundBeside store.old holding }
    ensures { IsSoundBeside store.new holding }
{
    match adds(alloc, store, one) {
        (Some(Try::Refused), Some(one)) => then(Try::Refused, adds(alloc, store, one).0),
        (first, _) => first,
    }
}

/// A box more is added to a store of these.
fn with_one_more<R: Wait>(
    rt: &R,
    alloc: Global,
    boxes: Vec<Box<dyn Segment>>,
    one: Box<dyn Segment>,
) -> Option<Try> {
    match Store::open(rt, alloc, CONFIG, boxes) {
        Ok((mut store, _feeds)) => {
            let went = is_added(alloc, &mut store, one);
            let _ = store.shut(rt);
            went
        }
        Err(_) => None,
    }
}

/// A store of four boxes takes one more, of another desk.
#[derive(Drop)]
struct Added;

impl Row for Added {
    fn goes<R: AllocGlobal + Threads + Wait>(&self, rt: &R) -> Option<Try> {
        let alloc = rt.alloc();
        let Supply { boxes, desk: _desk } = supplied(alloc, 4, &[], None)?;
        let Supply {
            boxes: mut more,
            desk: _other,
        } = supplied(alloc, 1, &[], None)?;
        let one = more.pop()?;
        with_one_more(rt, alloc, boxes, one)
    }
}

#[test]
fn a_store_takes_a_segment_more(rt: HostRuntime) {
    assert_eq!(rt; wrong_row(&rt, &[Added]), None);
}

#[test]
fn worked_runs_of_a_store(rt: HostRuntime) {
    assert_eq!(rt; wrong_row(&rt, RUNS), None);
}
