//! What is done with a store that has readers or threads beside it, which is then shut.

ghost use Rattle.std.specs.Prelude.{◌≡◌, map};
ghost use Rattle.bw_ring.specs.Ends.{ring_of_feed};
ghost use Rattle.bw_store.specs.Views.{kept_by, IsSound};

use super::serving::{Served, ended, store_over, supplied};
use super::{readers, threads};
use bw_store::Config;
use std::sync::Wait;
use std::thread::Threads;

/// What is done.
#[derive(Drop)]
pub(super) enum Case {
    /// A reader in a thread of its own reads beside the flushes.
    Race,
    /// Four writers in threads of their own put while the store turns.
    Writers,
}

fn does<R: Threads + Wait>(rt: &R, served: &mut Served, case: &Case) -> bool
    requires sound { IsSound served.old.store holding }
    requires feeds { map ring_of_feed served.old.feeds.items
        ≡ (kept_by served.old.store holding).rings }
    ensures { IsSound served.new.store holding }
{
    match case {
        Case::Race => readers::race(rt, served),
        Case::Writers => threads::are_settled(rt, served),
    }
}

/// Whether it went as expected over so many boxes; none if there was no such store.
pub(super) fn over<R: AllocGlobal + Threads + Wait>(
    rt: &R,
    boxes: u32,
    config: &Config,
    case: &Case,
) -> Option<bool> {
    let supply = supplied(rt.alloc(), boxes)?;
    let mut served = store_over(rt, supply, config)?;
    let went = does(rt, &mut served, case);
    ended(rt, served);
    Some(went)
}
