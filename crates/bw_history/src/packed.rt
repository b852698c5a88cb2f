//! An entry in no more room than it takes.

ghost use Rattle.std.specs.Prelude.{◌≡◌, IfOk};

use crate::entry::Entry;
use bw_codec::{Packed, Record};
use bw_page::HasRecord;
use std::alloc::{AllocError, Global};
use std::marker::Model;

/// An entry as a history keeps it: it shares the bytes of its record with the pages that have them,
/// whereas a `Record` has room for the longest key and the longest value.
#[derive(Drop)]
pub struct PackedEntry {
    writer: u16,
    more: bool,
    /// The page at which the record may be directed, or 0: a guess of whoever took it, of which
    /// nothing is known. It fits into room that the entry has anyway, and goes with it.
    page: u32,
    item: Packed,
}

impl Model for PackedEntry {
    ghost use Rattle.bw_history.specs.declared.entry.Entry.{Entry};

    ghost Value = { Entry };

    ghost use Rattle.bw_history.specs.Packed.{unpacked};

    ghost view = { unpacked };
}

impl HasRecord for PackedEntry {
    ghost record_of = { λ e. e.item };

    fn record(&self) -> &Packed {
        &self.item
    }

    fn guess(&self) -> u32 {
        self.page
    }
}

impl PackedEntry {
    /// The entry of this record, of which no page is guessed. It takes memory, whose refusal is the
    /// only error.
    pub fn of(
        alloc: Global,
        writer: u16,
        more: bool,
        item: &Record,
    ) -> Result<PackedEntry, AllocError>
        ensures { IfOk result (λ e.
            e ≡ record { writer = writer; more = more; item = item.now }) }
    {
        Ok(PackedEntry {
            writer,
            more,
            page: 0,
            item: Packed::of(alloc, item)?,
        })
    }

    /// This entry, with a guess of the page at which its record is directed: what looks there first
    /// need not search if it is right. No memory is taken.
    pub fn on(self, page: u32) -> PackedEntry
        ensures { result ≡ self }
    {
        let mut entry = self;
        entry.page = page;
        entry
    }

    /// A copy of this entry with its guess, which shares the bytes of this one. No memory is taken;
    /// it is refused only if the count of those that share is full.
    pub fn copy(&self) -> Result<PackedEntry, AllocError>
        ensures { IfOk result (λ e. e ≡ self.now) }
    {
        let PackedEntry {
            writer,
            more,
            page,
            item,
        } = self;
        Ok(PackedEntry {
            writer: *writer,
            more: *more,
            page: *page,
            item: item.copy()?,
        })
    }

    /// Another guess of that page.
    pub fn direct_at(&mut self, page: u32)
        ensures { self.new ≡ self.old }
    {
        self.page = page;
    }

    /// The page that was guessed, or 0.
    pub fn page(&self) -> u32 {
        self.page
    }

    /// The writer.
    pub fn writer(&self) -> u16
        ensures { result ≡ self.now.writer }
    {
        self.writer
    }

    /// The record.
    pub fn item(&self) -> &Packed
        ensures { result.now ≡ self.now.item }
    {
        &self.item
    }

    /// The entry in fixed room. No memory is taken.
    pub fn entry(&self) -> Entry
        ensures { result ≡ self.now }
    {
        Entry {
            writer: self.writer,
            more: self.more,
            item: self.item.record(),
        }
    }
}
