//! A core lives twice: what was flushed is there in its second life, and what was not is not.

ghost use Rattle.std.specs.Prelude.{IfSome};
ghost use Rattle.bw_core.specs.Views.{IsSoundBeside as IsSoundCore};
ghost use Rattle.test_subjects.specs.Views.{AreItsFeeds, IsSoundBeside};

use super::boxes::{Row, fused, plain, supplied};
use super::opening::{Held, opened, shut};
use super::telling::went;
use super::turning::FAILED;
use super::walking::wrong_step;
use bw_core::Core;
use bw_device::Segment;
use bw_lives::relive;
use std::alloc::Global;
use std::sync::Wait;
use test_subjects::steps::Step;
use test_subjects::steps::Step::{Cuts, Flush, Get, History, Page, Put, Turn};
use test_subjects::subject::{Over, Subject, config_of};

// The second life of a core, with the same writers.
fn relived<R: AllocGlobal + Wait>(rt: &R, held: Held) -> Option<Held>
    requires { IsSoundBeside held.store holding }
    ensures sound { IfSome result (λ o. IsSoundBeside o.store holding) }
    ensures feeds { IfSome result (λ o. AreItsFeeds o.feeds.items o.store holding) }
{
    let Held {
        store,
        feeds: _feeds,
        more,
    } = held;
    match store {
        Subject::Bare(core) => again(rt.alloc(), core, more),
        Subject::Shown(store) => {
            let _ = store.shut(rt);
            None
        }
    }
}

fn again(alloc: Global, core: Core, more: Vec<Box<dyn Segment>>) -> Option<Held>
    requires { IsSoundCore core holding }
    ensures sound { IfSome result (λ o. IsSoundBeside o.store holding) }
    ensures feeds { IfSome result (λ o. AreItsFeeds o.feeds.items o.store holding) }
{
    match relive(alloc, core, 2, 8) {
        Ok((core, feeds)) => Some(Held {
            store: Subject::Bare(core),
            feeds,
            more,
        }),
        Err(_fault) => None,
    }
}

// The first step of two lives that did not go as expected; the first one if there is no life.
fn two_lives<R: AllocGlobal + Wait>(
    rt: &R,
    boxes: &Row,
    first: &[Step],
    second: &[Step],
) -> Option<usize> {
    let Some(mut supply) = supplied(rt.alloc(), boxes) else {
        return Some(0);
    };
    let Some(mut held) = opened(rt, Over::Core, &config_of(2, 8, 1), &mut supply) else {
        return Some(0);
    };
    let wrong = wrong_step(rt, &mut held, first);
    if wrong.is_some() {
        let _ = shut(rt, held, &mut supply);
        return wrong;
    }
    let Some(mut held) = relived(rt, held) else {
        return Some(first.len());
    };
    let wrong = wrong_step(rt, &mut held, second);
    let _ = shut(rt, held, &mut supply);
    wrong
}

// Two flushes, and a record that is taken and one that waits.
const FLUSHED: &[Step] = &[
    Put(0, b"k", b"v"),
    Turn(8, 1),
    Flush(Some(1)),
    Put(1, b"l", b"w"),
    Turn(8, 1),
    Flush(Some(2)),
    Put(0, b"m", b"x"),
    Turn(8, 1),
    Put(0, b"n", b"y"),
];

// The first two are there, the history begins anew, and frame 3 is the next one.
const AFTER: &[Step] = &[
    Get(b"k", b"v"),
    Get(b"l", b"w"),
    Get(b"m", b""),
    Get(b"n", b""),
    History(""),
    Cuts(&[], 0),
    Put(1, b"m", b"z"),
    Turn(8, 1),
    Flush(Some(3)),
    Get(b"m", b"z"),
];

#[test]
fn what_was_flushed_is_there_in_the_second_life(rt: HostRuntime) {
    went(
        &rt,
        Over::Core,
        two_lives(&rt, &plain(4, 0), FLUSHED, AFTER),
    );
}

// All bytes of the append that failed were kept: so its record is there, too.
const WRITTEN: &[Step] = &[
    Page(1, "1 : k=v"),
    Put(0, b"j", b"w"),
    Turn(8, 1),
    Flush(Some(2)),
];

#[test]
fn a_frame_whose_append_failed_may_be_there(rt: HostRuntime) {
    went(
        &rt,
        Over::Core,
        two_lives(&rt, &fused(0, (1, 53), 3), FAILED, WRITTEN),
    );
}
