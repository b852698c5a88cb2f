//! A list of records is what a Delta holds.

ghost use Rattle.std.specs.Prelude.{◌≡◌, [], ◌∷◌, IfOk};

use crate::packed::Packed;
use crate::record::Record;
use std::alloc::{AllocError, Global};
use std::marker::Model;
use std::slice;

// How they stand in memory: one by itself, as nearly each Delta has it, takes no list of its own.
#[derive(Drop)]
enum Items {
    One(Packed),
    Several(Vec<Packed>),
}

/// Records, in the order in which they apply, each in no more room than it takes: pages that they
/// are applied to share their bytes.
#[derive(Drop)]
pub struct Ops {
    items: Items,
}

impl Model for Ops {
    ghost use Rattle.std.specs.Prelude.{List};
    ghost use Rattle.bw_record.specs.declared.record.Record.{Record};

    ghost Value = { List Record };

    ghost use Rattle.bw_record.specs.Listed.{listed};

    ghost view = { λ o. listed o.items };
}

impl Ops {
    /// One record. It takes memory, whose refusal is the only error.
    pub fn one(alloc: Global, item: &Record) -> Result<Ops, AllocError>
        ensures { IfOk result (λ ops. ops ≡ item.now ∷ []) }
    {
        Ok(Ops::single(Packed::of(alloc, item)?))
    }

    /// One record that is packed already.
    pub fn single(item: Packed) -> Ops
        ensures { result ≡ item ∷ [] }
    {
        Ops {
            items: Items::One(item),
        }
    }

    /// Records as they stand in a `Vec`.
    pub fn of(items: Vec<Packed>) -> Ops
        ensures { result ≡ items.items }
    {
        Ops {
            items: Items::Several(items),
        }
    }

    /// The records.
    pub fn as_slice(&self) -> &[Packed]
        ensures { result.now ≡ self.now }
    {
        match &self.items {
            Items::One(item) => slice::from_ref(item),
            Items::Several(items) => items.as_slice(),
        }
    }
}
