//! The leaves at which a store starts, as they wait to be shown.
//!
//! Nobody searches among them, so they have no index of their low keys.

ghost use Rattle.std.specs.Prelude.{◌≡◌, [], IfOk};

use crate::index::{copy_all, copy_seats};
use crate::leaves::Leaves;
use crate::seats::Seats;
use std::alloc::AllocError;
use std::marker::Model;

/// The leaves of all pages, all of them in memory, with at most `m` pairs each.
#[derive(Drop)]
pub struct Start {
    /// The most pairs that a page holds.
    m: u16,
    /// Page n at index n - 1.
    leaves: Seats,
}

impl Model for Start {
    ghost use Rattle.bw_page.specs.Shown.{Shown};

    ghost Value = { Shown };

    ghost use Rattle.bw_page.specs.Beginning.{start_view, IsStart};

    ghost view = { start_view };

    ghost invariant = { IsStart };
}

impl Start {
    /// These leaves, all of them in memory. No memory is taken.
    pub fn of(leaves: Leaves) -> Start
        requires here { leaves.evicted ≡ [] }
        ensures { result ≡ leaves }
    {
        let m = leaves.limit();
        Start {
            m,
            leaves: leaves.into_seats(),
        }
    }

    /// A copy of these leaves, all of them in memory, in no more room than they need. A refused
    /// growth is the only error. It costs all pages.
    pub fn copy_of(leaves: &Leaves) -> Result<Start, AllocError>
        requires here { leaves.now.evicted ≡ [] }
        ensures { IfOk result (λ start. start ≡ leaves.now) }
    {
        // Shows the proof that they are lawful.
        let _ = leaves.count();
        Ok(Start {
            m: leaves.limit(),
            leaves: copy_seats(leaves.seats())?,
        })
    }

    /// A copy of the leaves, to be changed. A refused growth is the only error. It costs all pages.
    pub fn leaves(&self) -> Result<Leaves, AllocError>
        ensures { IfOk result (λ l. l ≡ self.now) }
    {
        Leaves::of(copy_all(self.leaves.allocator(), &self.leaves)?, self.m)
    }
}
