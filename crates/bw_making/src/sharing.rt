//! What the records of a group do to the pages, and what of them is shared.
//!
//! A record's bytes stand in memory once: page, history and readers share one run. So what is
//! applied to a page here is the run that the history keeps, and no copy of it.

ghost use Rattle.std.specs.Prelude.{◌≡◌, ◌<◌, Err, length, IfOk, OnOk, OnErr};
ghost use Rattle.bw_record.specs.Record.{key_of};
ghost use Rattle.bw_history.specs.Entries.{records as records_of};
ghost use Rattle.bw_page.specs.Aim.{IsFound};
ghost use Rattle.bw_page.specs.Batch.{AreHere, SomeIsSpent, steps_of};
ghost use Rattle.bw_page.specs.Leaves.{directed_at, HasPages};
ghost use Rattle.bw_page.specs.Shown.{IsHere, IsSpent, after_record, run};

use crate::draft::Row;
use bw_codec::{Leaf, Record};
use bw_history::PackedEntry;
use bw_page::{Applied, ApplyError, Leaves, Step};
use std::alloc::{AllocError, Global};

/// Applies the record of an entry to its page, which is known: the page shares the record's bytes.
pub fn apply_entry(
    leaves: &mut Leaves,
    page: u32,
    _item: &Record,
    entry: &PackedEntry,
) -> Result<Applied, ApplyError>
    requires same { entry.now.item ≡ _item.now }
    requires here { IsHere (key_of _item.now) leaves.old }
    requires page { page ≡ directed_at leaves.old.leaves _item.now }
    ensures ok { OnOk result (leaves.new ≡ after_record leaves.old _item.now) }
    ensures evicted { leaves.new.evicted ≡ leaves.old.evicted }
    ensures spent { IsSpent leaves.old _item.now → result ≡ Err ApplyError.Spent }
    ensures only_spent { result ≡ Err ApplyError.Spent → IsSpent leaves.old _item.now }
    ensures unchanged { OnErr result (leaves.new ≡ leaves.old) }
{
    leaves.apply_on(page, entry.item())
}

/// Applies the record of an entry to its page, which is known, and on which the search for its key
/// ended so: the page shares the record's bytes.
pub fn apply_found(
    leaves: &mut Leaves,
    page: u32,
    found: Result<usize, usize>,
    _item: &Record,
    entry: &PackedEntry,
) -> Result<Applied, ApplyError>
    requires same { entry.now.item ≡ _item.now }
    requires here { IsHere (key_of _item.now) leaves.old }
    requires page { page ≡ directed_at leaves.old.leaves _item.now }
    requires found { IsFound leaves.old.leaves (key_of _item.now) found }
    ensures ok { OnOk result (leaves.new ≡ after_record leaves.old _item.now) }
    ensures evicted { leaves.new.evicted ≡ leaves.old.evicted }
    ensures spent { IsSpent leaves.old _item.now → result ≡ Err ApplyError.Spent }
    ensures only_spent { result ≡ Err ApplyError.Spent → IsSpent leaves.old _item.now }
    ensures unchanged { OnErr result (leaves.new ≡ leaves.old) }
{
    leaves.apply_found(page, found, entry.item())
}

/// What each of these records does, one after the other: they stand in entries.
pub fn steps_in(
    leaves: &mut Leaves,
    _records: &[Record],
    entries: &[PackedEntry],
) -> Result<Vec<Step>, ApplyError>
    requires entries { records_of entries.now ≡ _records.now }
    requires here { AreHere leaves.old _records.now }
    ensures steps { IfOk result (λ steps. steps.items ≡ steps_of leaves.old _records.now) }
    ensures room { OnOk result (HasPages leaves.old.m leaves.old.leaves _records.now) }
    ensures same { leaves.new ≡ leaves.old }
    ensures only_spent { result ≡ Err ApplyError.Spent → SomeIsSpent leaves.old _records.now }
{
    leaves.steps(entries)
}

/// Applies these records, all or none: they stand in entries, and the pages share their bytes.
pub fn apply_entries(
    leaves: &mut Leaves,
    _records: &[Record],
    entries: &[PackedEntry],
) -> Result<(), ApplyError>
    requires entries { records_of entries.now ≡ _records.now }
    requires here { AreHere leaves.old _records.now }
    ensures ok { OnOk result (leaves.new ≡ run leaves.old _records.now) }
    ensures only_spent { result ≡ Err ApplyError.Spent → SomeIsSpent leaves.old _records.now }
    ensures unchanged { OnErr result (leaves.new ≡ leaves.old) }
{
    leaves.apply_all_of(entries)
}

/// These entries, with the pages of these rows as their guesses. Readers' copies look for each
/// record there first, and search if it is not the right page, so nothing has to be known of them.
pub fn guessed(entries: Vec<PackedEntry>, rows: &[Row]) -> Vec<PackedEntry>
    ensures { result.items ≡ entries.items }
{
    let mut entries = entries;
    let count = entries.len().min(rows.len());
    'entries: for at in 0..count {
        guess_at(&mut entries, at, rows[at].page);
    }
    entries
}

// These entries, with a guess of the page of one of them.
fn guess_at(entries: &mut Vec<PackedEntry>, at: usize, page: u32)
    requires { at < length entries.old.items }
    ensures { entries.new.items ≡ entries.old.items }
{
    let _ = entries.as_slice().len(); // For the proof.
    entries[at].direct_at(page);
}

/// A copy of a page, if there is one.
pub fn copy_of(upper: &Option<Leaf>) -> Result<Option<Leaf>, AllocError>
    ensures { IfOk result (λ o. o ≡ upper.now) }
{
    match upper {
        Some(leaf) => Ok(Some(leaf.copy()?)),
        None => Ok(None),
    }
}
