//! What the two rings of a writer hold: the first record of each group, and its others.

ghost use Rattle.std.specs.Prelude.{◌≡◌, ◌∷◌};
ghost use Rattle.bw_ring.specs.Rings.{rest_of};

use crate::group::{Group, Items};
use bw_codec::Record;

/// The first record of a group, by whether others follow it.
#[derive(Drop)]
pub enum First {
    Alone(Record),
    Leads(Record),
}

/// The records of a group after its first.
#[derive(Drop)]
pub enum Rest {
    One([Record; 1]),
    Two([Record; 2]),
    Three([Record; 3]),
}

impl Rest {
    // The group of this first record and of these. No memory is taken.
    pub(crate) fn behind(self, item: Record) -> Group
        ensures { result ≡ item ∷ rest_of self }
    {
        Group::of(match self {
            Rest::One([a]) => Items::Two([item, a]),
            Rest::Two([a, b]) => Items::Three([item, a, b]),
            Rest::Three([a, b, c]) => Items::Four([item, a, b, c]),
        })
    }

    // A copy of these records. No memory is taken.
    pub(crate) fn copy(&self) -> Rest
        ensures { result ≡ self.now }
    {
        match self {
            Rest::One([a]) => Rest::One([a.copy()]),
            Rest::Two([a, b]) => Rest::Two([a.copy(), b.copy()]),
            Rest::Three([a, b, c]) => Rest::Three([a.copy(), b.copy(), c.copy()]),
        }
    }
}
