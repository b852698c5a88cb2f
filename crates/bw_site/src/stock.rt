//! What a home has of its site beside the store: the segment that was given up last, and those that
//! were made and are no spares yet. Nothing here changes the store.

ghost use Rattle.std.specs.Prelude.{◌≡◌, false, true, length, take, IfOk, IfErr, OnOk, OnErr, IsNone};
ghost use Rattle.bw_site.specs.Faults.{IsOfSite};

use crate::fault::HomeFault;
use crate::found::Found;
use crate::site::{Made, Site};
use crate::system::System;
use bw_file::FolderFault;
use bw_terms::StoreFault;
use std::alloc::{AllocError, Global};

/// A spare that was handed to the store between two legs.
#[derive(Debug, Clone, Copy)]
pub struct Added {
    pub lease: u32,
    /// Why the store did not take it; it is gone then.
    pub refused: Option<StoreFault>,
}

/// A site, and what was given up and made there.
#[derive(Drop)]
pub struct Stock {
    site: Site,
    /// How many bytes a new segment has room for.
    capacity: u64,
    /// What was there before the store.
    pub found: Option<Found>,
    /// The lease of the segment that was given up last, as long as its file was not emptied.
    given_up: Option<u32>,
    /// Whether a new segment is still to stand in its place.
    is_owed: bool,
    /// Segments that were made: spares from the next leg on.
    made: Vec<Made>,
    pub added: Option<Added>,
}

// The leases of a list that are not in a row go after those in it.
fn add_missing(row: &mut Vec<u32>, leases: &[u32]) -> Result<(), AllocError>
    ensures { OnOk result (take (length row.old.items) row.new.items ≡ row.old.items) }
{
    for lease in leases {
        if !row.as_slice().contains(lease) {
            row.push(*lease)?;
        }
    }
    Ok(())
}

impl Stock {
    /// Nothing was given up or made there yet.
    pub fn of(alloc: Global, site: Site, capacity: u64, found: Option<Found>) -> Stock
        ensures { IsNone result.given_up }
    {
        Stock {
            site,
            capacity,
            found,
            given_up: None,
            is_owed: false,
            made: Vec::new(alloc),
            added: None,
        }
    }

    /// How many bytes a new segment has room for.
    pub fn capacity(&self) -> u64 {
        self.capacity
    }

    /// Notes that the segment of this lease was given up: its file is to be emptied. That of an
    /// earlier one has to be emptied before, since a stop must never show a later segment gone and
    /// an earlier one still there.
    pub fn give_up(&mut self, lease: u32)
        requires { IsNone self.old.given_up }
        ensures noted { self.new.given_up ≡ Some lease }
        ensures owed { self.new.is_owed ≡ self.old.is_owed }
        ensures added { self.new.added ≡ self.old.added }
    {
        self.given_up = Some(lease);
    }

    /// Notes that a new segment is to stand in the place of the one that was given up.
    pub fn owe(&mut self)
        ensures noted { self.new.is_owed ≡ true }
        ensures same { self.new.given_up ≡ self.old.given_up }
        ensures added { self.new.added ≡ self.old.added }
    {
        self.is_owed = true;
    }

    /// Empties the file of the segment that was given up last. Refused, it is tried again by the
    /// next call.
    pub fn empty<R: System>(&mut self, rt: &R) -> Result<(), HomeFault>
        ensures refused { IfErr result IsOfSite }
        ensures emptied { OnOk result (IsNone self.new.given_up) }
        ensures waits { OnErr result (self.new.given_up ≡ self.old.given_up) }
        ensures owed { self.new.is_owed ≡ self.old.is_owed }
    {
        if let Some(lease) = self.given_up {
            self.site.empty(rt, lease)?;
            self.given_up = None;
        }
        Ok(())
    }

    /// Empties that file, and makes a new segment in its place, if one is owed.
    pub fn renew<R: System>(&mut self, rt: &R) -> Result<(), HomeFault>
        ensures refused { IfErr result IsOfSite }
        ensures emptied { OnOk result (IsNone self.new.given_up) }
        ensures made { OnOk result (self.new.is_owed ≡ false) }
        ensures owed { OnErr result (self.new.is_owed ≡ self.old.is_owed) }
    {
        self.empty(rt)?;
        if self.is_owed {
            self.make_spare(rt)?;
            self.is_owed = false;
        }
        Ok(())
    }

    /// Makes a segment with the least lease that is free. This may be that of the segment that was
    /// given up last: so its file is emptied before, and never again.
    pub fn make_spare<R: System>(&mut self, rt: &R) -> Result<(), HomeFault>
        ensures refused { IfErr result IsOfSite }
        ensures emptied { OnOk result (IsNone self.new.given_up) }
        ensures owed { self.new.is_owed ≡ self.old.is_owed }
    {
        self.empty(rt)?;
        let made = self.site.spare(rt, self.capacity)?;
        self.made.push(made)?;
        Ok(())
    }

    /// A segment that was made, and is no spare yet.
    pub fn next_made(&mut self) -> Option<Made> {
        self.made.pop()
    }

    /// The leases that are out, ascending, once those that came back are free.
    pub fn leases(&mut self, alloc: Global) -> Result<Vec<u32>, AllocError> {
        self.site.out(alloc)
    }

    /// Those leases, but that these stand first, in their order.
    pub fn row(&mut self, alloc: Global, first: Vec<u32>) -> Result<Vec<u32>, AllocError>
        ensures { IfOk result (λ row. take (length first.items) row.items ≡ first.items) }
    {
        let leases = self.site.out(alloc)?;
        let mut row = first;
        add_missing(&mut row, leases.as_slice())?;
        Ok(row)
    }

    /// Empties the files of those of these leases that came back, in this order.
    pub fn empty_row<R: System>(&mut self, rt: &R, row: &[u32]) -> Result<(), FolderFault> {
        self.site.empty_free(rt, row)
    }
}
