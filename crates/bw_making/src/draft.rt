//! What the records of a group add to the frame in the making, one after the other.
//!
//! Nothing is changed while a group is planned, since the frame may have to be appended first, and
//! that may be refused. So a draft keeps, for each record so far, which page it changed, which it
//! made and where the last block of both goes.

ghost use Rattle.std.specs.Prelude.{◌≡◌, ◌≤◌, ◌<◌, ◌+◌, ◌-◌, ◌^◌, ◌++◌, [], None, length, vec_len, unwrap_or, OnOk};
ghost use Rattle.std.specs.Vec.{vec_capacity};
ghost use Rattle.bw_making.specs.Adding.{count_after, nowhere};
ghost use Rattle.bw_buffer.specs.Counting.{grown};
ghost use Rattle.bw_buffer.specs.Joining.{takes};
ghost use Rattle.bw_making.specs.Drafting.{Added, count_with, is_row_of, open_in, place_in, place_with, records_in, row_by, row_in};
ghost use Rattle.bw_making.specs.Planning.{listed};

use crate::blocks::{Blocks, blocks_of};
use bw_buffer::Buffer;
use bw_codec::limits::MAX_OPS;
use bw_codec::{Block, Leaf, Place, Record};
use std::alloc::{AllocError, Global};

/// What one record of a group does: the page that it changes, the page that it makes, if it does,
/// where the last block of both goes, and how many records that block has, if it is a Delta.
#[derive(Clone, Copy)]
pub struct Row {
    pub page: u32,
    pub made: Option<u32>,
    pub place: Place,
    pub records: Option<usize>,
}

/// The blocks of the first records of a group, and what these records do.
#[derive(Drop)]
pub struct Draft {
    pub blocks: Vec<Block>,
    pub rows: Vec<Row>,
    /// How many blocks the frame in the making has with these.
    pub count: u32,
}

impl Row {
    // Whether its record changed this page, or made it.
    fn is_of(&self, page: u32) -> bool
        ensures { result ≡ is_row_of page self.now }
    {
        match self.made {
            Some(made) => self.page == page || made == page,
            None => self.page == page,
        }
    }
}

impl Draft {
    /// A draft of no record.
    pub fn new(alloc: Global, making: &Buffer) -> Draft
        ensures blocks { result.blocks.items ≡ [] }
        ensures rows { result.rows.items ≡ [] }
        ensures count { result.count ≡ length making.now.blocks }
    {
        Draft {
            blocks: Vec::new(alloc),
            rows: Vec::new(alloc),
            count: making.count(),
        }
    }

    /// Adds the blocks of a record of this page, after those of the records before it.
    pub fn add(
        &mut self,
        making: &Buffer,
        newest: &[Place],
        item: &Record,
        page: u32,
        upper: Option<Leaf>,
    ) -> Result<(), AllocError>
        requires inside { row_in self.old.rows.items page ≡ None
            → (1 ≤ page) × (page ≤ length newest.now) }
        requires few { self.old.count + 2 < 2 ^ 32 }
        ensures { OnOk result
            (Added self.old making.now newest.now item.now page upper self.new) }
    {
        let alloc = *self.blocks.allocator();
        let back = self.back(newest, page);
        let joins = self.open(making, page);
        let here = place_of(making, joins, self.count);
        let count = counted(joins, self.count);
        let records = one_more(self.records(making, page));
        let row = row_of(page, here, making.frame(), count, records, &upper);
        let count = count_behind(&upper, count);
        self.rows.reserve(1)?;
        self.blocks.reserve(2)?;
        let blocks = blocks_of(alloc, page, back, here, item, upper)?;
        push_blocks(&mut self.blocks, blocks);
        self.rows.push_reserved(row);
        self.count = count;
        Ok(())
    }

    // The last row of a page.
    fn last(&self, page: u32) -> Option<Row>
        ensures { result ≡ row_in self.now.rows.items page }
    {
        let mut found = None;
        'rows: for row in &self.rows {
            if row.is_of(page) {
                found = Some(*row);
            }
        }
        found
    }

    // The last block of a page.
    fn back(&self, newest: &[Place], page: u32) -> Place
        requires { row_in self.now.rows.items page ≡ None
            → (1 ≤ page) × (page ≤ length newest.now) }
        ensures { result ≡ unwrap_or (place_in self.now.rows.items newest.now page) nowhere }
    {
        match self.last(page) {
            Some(row) => row.place,
            None => newest[page as usize - 1],
        }
    }

    // The index of the Delta that a Delta of one record of this page joins, if there is one.
    fn open(&self, making: &Buffer, page: u32) -> Option<u32>
        ensures { result ≡ open_in self.now.rows.items making.now.blocks page }
    {
        match self.last(page) {
            Some(row) => {
                if takes_one(row.records) {
                    Some(row.place.index)
                } else {
                    None
                }
            }
            None => match making.joins(page) {
                Some(place) => Some(place.index),
                None => None,
            },
        }
    }

    // How many records the last block of a page has, if it is a Delta of the frame in the making.
    fn records(&self, making: &Buffer, page: u32) -> Option<usize>
        ensures { result ≡ records_in self.now.rows.items making.now.blocks page }
    {
        match self.last(page) {
            Some(row) => row.records,
            None => making.records(page),
        }
    }
}

// Whether a Delta of so many records has room for one more, if there is one.
fn takes_one(records: Option<usize>) -> bool
    ensures { result ≡ takes 1 records }
{
    match records {
        Some(records) => records < MAX_OPS,
        None => false,
    }
}

// How many records a Delta has with one more, or a new one if it has no room.
fn one_more(records: Option<usize>) -> usize
    ensures { result ≡ grown records 1 }
{
    match records {
        Some(records) => { if records < MAX_OPS { records + 1 } else { 1 } }
        None => 1,
    }
}

// Where a Delta goes: into the block that it joins, or after all blocks.
fn place_of(making: &Buffer, joins: Option<u32>, count: u32) -> Place
    ensures { result ≡ place_with making.now.frame (unwrap_or joins count) }
{
    let index = match joins {
        Some(index) => index,
        None => count,
    };
    Place {
        frame: making.frame(),
        index,
    }
}

// How many blocks there are with it.
fn counted(joins: Option<u32>, count: u32) -> u32
    requires { count + 1 < 2 ^ 32 }
    ensures { result ≡ count_after joins count }
{
    match joins {
        Some(_) => count,
        None => count + 1,
    }
}

// How many blocks there are with its Split, if there is one.
fn count_behind(upper: &Option<Leaf>, count: u32) -> u32
    requires { count + 1 < 2 ^ 32 }
    ensures { result ≡ count_with upper.now count }
{
    match upper {
        Some(_) => count + 1,
        None => count,
    }
}

// What the record does: a Split goes after all blocks.
fn row_of(
    page: u32,
    here: Place,
    frame: u64,
    count: u32,
    records: usize,
    upper: &Option<Leaf>,
) -> Row
    ensures { result ≡ row_by page here (place_with frame count) records upper.now }
{
    match upper {
        Some(leaf) => Row {
            page,
            made: Some(leaf.page),
            place: Place {
                frame,
                index: count,
            },
            records: None,
        },
        None => Row {
            page,
            made: None,
            place: here,
            records: Some(records),
        },
    }
}

// Adds the blocks of one record.
fn push_blocks(blocks: &mut Vec<Block>, more: Blocks)
    requires { vec_len blocks.old + 2 ≤ vec_capacity blocks.old }
    ensures { blocks.new.items ≡ blocks.old.items ++ listed more }
{
    match more {
        Blocks::One([delta]) => blocks.push_reserved(delta),
        Blocks::Two([delta, split]) => {
            blocks.push_reserved(delta);
            blocks.push_reserved(split);
        }
    }
}
