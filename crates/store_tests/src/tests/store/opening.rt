//! Cores and stores are opened; and what `open` refuses: the boxes come back.

ghost use Rattle.std.specs.Prelude.{IfSome};
ghost use Rattle.bw_care.specs.Found.{IsRecovered};
ghost use Rattle.test_subjects.specs.Views.{AreItsFeeds, IsSoundBeside};

use super::boxes::{plain, supplied};
use super::telling::went;
use bw_care::Recovered;
use bw_device::Segment;
use bw_ring::Feed;
use bw_store::{Config, StoreFault};
use std::mem;
use std::sync::Wait;
use test_subjects::subject::{BOTH, Over, Subject};

/// The boxes that a store is opened over, and those that there are more.
#[derive(Drop)]
pub(super) struct Supply {
    pub(super) boxes: Vec<Box<dyn Segment>>,
    pub(super) more: Vec<Box<dyn Segment>>,
}

/// A core or a store with a feed for each of its writers, and the boxes that there are more.
pub(super) struct Held {
    pub(super) store: Subject,
    pub(super) feeds: Vec<Feed>,
    pub(super) more: Vec<Box<dyn Segment>>,
}

/// A core or a store over the boxes of a supply, which is then empty.
pub(super) fn opened<R: AllocGlobal + Wait>(
    rt: &R,
    over: Over,
    config: &Config,
    supply: &mut Supply,
) -> Option<Held>
    ensures sound { IfSome result (λ o. IsSoundBeside o.store holding) }
    ensures feeds { IfSome result (λ o. AreItsFeeds o.feeds.items o.store holding) }
{
    let alloc = rt.alloc();
    let boxes = mem::replace(&mut supply.boxes, Vec::new(alloc));
    let more = mem::replace(&mut supply.more, Vec::new(alloc));
    match Subject::open(rt, alloc, over, config, boxes) {
        Ok((store, feeds)) => Some(Held { store, feeds, more }),
        Err(_fault) => None,
    }
}

/// A core or a store of two writers that goes on from what was recovered, each with a ring of so
/// many places.
pub(super) fn reopened<R: AllocGlobal + Wait>(
    rt: &R,
    over: Over,
    recovered: Recovered,
    places: usize,
    supply: &mut Supply,
) -> Option<Held>
    requires { IsRecovered holding recovered }
    ensures sound { IfSome result (λ o. IsSoundBeside o.store holding) }
    ensures feeds { IfSome result (λ o. AreItsFeeds o.feeds.items o.store holding) }
{
    let more = mem::replace(&mut supply.more, Vec::new(rt.alloc()));
    match Subject::reopen(rt, rt.alloc(), over, recovered, 2, places) {
        Ok((store, feeds)) => Some(Held { store, feeds, more }),
        Err(_fault) => None,
    }
}

/// It is shut; whether all boxes are in the supply again.
pub(super) fn shut<R: Wait>(rt: &R, opened: Held, supply: &mut Supply) -> bool
    requires { IsSoundBeside opened.store holding }
{
    let Held {
        store,
        feeds: _feeds,
        more,
    } = opened;
    let (live, mut spares) = store.shut(rt);
    supply.boxes = live;
    supply.more = more;
    supply.boxes.append(&mut spares).is_ok()
}

// Whether it is refused over two boxes, and both come back.
fn is_refused<R: AllocGlobal + Wait>(rt: &R, over: Over, config: &Config) -> bool {
    let Some(supply) = supplied(rt.alloc(), &plain(2, 0)) else {
        return false;
    };
    match Subject::open(rt, rt.alloc(), over, config, supply.boxes) {
        Ok((store, _feeds)) => {
            let _ = store.shut(rt);
            false
        }
        Err(fault) => fault.cause == StoreFault::BadConfig && fault.segments.len() == 2,
    }
}

/// Writers, places, readers, pairs of a page and bytes of a frame.
type Numbers = (usize, usize, usize, u16, u32);

/// Boxes have room for 65,536.
const BAD: &[Numbers] = &[
    (0, 8, 1, 4, 65_536),
    (65, 8, 1, 4, 65_536),
    (1, 0, 1, 4, 65_536),
    (1, 4097, 1, 4, 65_536),
    (1, 8, 1, 3, 65_536),
    (1, 8, 1, 33, 65_536),
    (1, 8, 1, 4, 65_535),
    (1, 8, 1, 4, 262_145),
    (1, 8, 1, 4, 65_537),
];

/// A core does not know of readers.
const BAD_READERS: &[Numbers] = &[(1, 8, 0, 4, 65_536), (1, 8, 65, 4, 65_536)];

// The first of them that is not refused.
fn first_taken<R: AllocGlobal + Wait>(rt: &R, over: Over, rows: &[Numbers]) -> Option<usize> {
    for (i, (writers, places, readers, m, f)) in rows.iter().enumerate() {
        let config = Config {
            writers: *writers,
            places: *places,
            readers: *readers,
            m: *m,
            f: *f,
        };
        if !is_refused(rt, over, &config) {
            return Some(i);
        }
    }
    None
}

#[test]
fn a_bad_config_is_refused(rt: HostRuntime) {
    for over in BOTH {
        went(&rt, over, first_taken(&rt, over, BAD));
    }
    went(&rt, Over::Store, first_taken(&rt, Over::Store, BAD_READERS));
}
