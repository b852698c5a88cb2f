//! The blocks of one record.
//!
//! A record that leaves its page whole is a Delta of one record. One that makes it too long is a
//! Delta and a Split, in one frame: read without the Split, the page would have more pairs than a
//! page may have, and recovery would refuse it.

ghost use Rattle.std.specs.Prelude.{◌≡◌, IfOk};
ghost use Rattle.bw_buffer.specs.Filling.{frame_of};
ghost use Rattle.bw_making.specs.Adding.{here_for, planned};
ghost use Rattle.bw_making.specs.Planning.{listed};

use bw_buffer::Buffer;
use bw_codec::{Block, Leaf, Ops, Place, Record};
use std::alloc::{AllocError, Global};

/// The blocks of one record: its Delta, and a Split if its page is split.
#[derive(Drop)]
pub enum Blocks {
    One([Block; 1]),
    Two([Block; 2]),
}

impl Blocks {
    pub fn as_slice(&self) -> &[Block]
        ensures { result.now ≡ listed self.now }
    {
        match self {
            Blocks::One(blocks) => blocks,
            Blocks::Two(blocks) => blocks,
        }
    }
}

/// The blocks of a record of a page. It takes memory for the record, whose refusal is the only
/// error.
pub fn blocks_of(
    alloc: Global,
    page: u32,
    back: Place,
    here: Place,
    item: &Record,
    upper: Option<Leaf>,
) -> Result<Blocks, AllocError>
    ensures { IfOk result (λ blocks. listed blocks ≡ planned page back here item.now upper) }
{
    let delta = Block::Delta {
        page,
        back,
        ops: Ops::one(alloc, item)?,
    };
    let Some(upper) = upper else {
        return Ok(Blocks::One([delta]));
    };
    let split = Block::Split {
        page,
        back: here,
        upper,
    };
    Ok(Blocks::Two([delta, split]))
}

/// Where the Delta of a record of this page goes: into the block that it joins, or to the end.
pub fn place_for(making: &Buffer, page: u32) -> Place
    ensures { result ≡ here_for (frame_of making.now) page }
{
    match making.joins(page) {
        Some(place) => place,
        None => Place {
            frame: making.frame(),
            index: making.count(),
        },
    }
}
