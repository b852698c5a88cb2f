//! One of two stores side by side, with its reader.

ghost use Rattle.bw_store.specs.Views.{IsSound};

use super::readers::is_taken;
use super::serving::Served;
use bw_store::Reader;
use std::sync::Wait;

/// Which of the two stores.
#[derive(Clone, Copy, PartialEq, Eq)]
pub(super) enum Side {
    Left,
    Right,
}

#[derive(Clone, Copy)]
pub(super) enum Step {
    /// No store does anything.
    Rest,
    /// A store takes this value of `k`.
    Takes(Side, &'static [u8]),
    Flushes(Side),
}

use Step::{Flushes, Takes};

/// A store and its reader.
pub(super) struct Sided {
    pub(super) served: Served,
    pub(super) reader: Reader,
}

/// Whether a store takes and flushes as expected.
pub(super) fn goes<R: Wait>(rt: &R, sided: &mut Sided, side: Side, step: &Step) -> bool
    requires { IsSound sided.old.served.store holding }
    ensures { IsSound sided.new.served.store holding }
{
    match step {
        Takes(of, value) if *of == side => {
            is_taken(&mut sided.served.store, &mut sided.served.feeds, *value)
        }
        Flushes(of) if *of == side => sided.served.store.flush(rt).is_ok(),
        _ => true,
    }
}
