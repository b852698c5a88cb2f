//! What the store below has of tables, without their values: how many rows a table has, and how
//! many bytes of log a call on tables takes.
//!
//! A call writes many groups, and no spare is added between two of them. So it is reckoned before
//! how much it writes at most, and the room for that is made.

ghost use Rattle.bw_home.specs.Ready.{IsReady};

use arrayvec::ArrayVec;
use bw_calls::Change;
use bw_codec::limits::MAX_KEY;
use bw_codec::{Key, Pair};
use bw_core::StoreFault;
use bw_home::Home;
use bw_keys::above;
use bw_rows::{Head, Name, RowKey, TableNumber, name_key, row_key, stands_key};
use bw_words::{Miss, TableCall};
use std::alloc::Global;

/// How many pairs of the store are looked at in one search.
const PART: usize = 512;

/// The kinds of keys that say what is left half done: numbers whose chunks go away, and tables
/// whose rows do.
const DOOMED: u8 = 2;

const GONE: u8 = 3;

/// Those of names, rows aside, chunks and rows.
const NAME: u8 = 1;

const ASIDE: u8 = 6;

const CHUNK: u8 = 7;

const ROW: u8 = 8;

/// More than a call adds to the log beside what is counted: a few records, and the splits of their
/// pages.
const CALL: u64 = 65_536;

/// More than a record adds beside twice its bytes, which go in with it, and once more as its page
/// is split.
const RECORD: u64 = 128;

/// More than the put of a chunk adds.
const CHUNK_PUT: u64 = 2 * (13 + 512) + RECORD;

/// More than the delete of a chunk adds.
const CHUNK_DELETE: u64 = 13 + 64;

/// More than the records add by which a number is doomed, spared, taken and freed.
const NUMBER: u64 = 4 * (2 * 9 + RECORD);

/// More than the chunks of an old value add that go away.
const LONGEST_OLD: u64 = 32_768 * CHUNK_DELETE + NUMBER;

/// What the pairs come to whose keys begin so.
#[derive(Debug, Clone, Copy)]
pub struct Sum {
    /// How many there are.
    pub count: u64,
    /// How many bytes of log it takes at most that they go away, with the chunks that they name.
    pub bytes: u64,
}

impl Sum {
    const NOTHING: Sum = Sum { count: 0, bytes: 0 };

    /// Both together.
    fn and(self, other: Sum) -> Sum {
        Sum {
            count: self.count.saturating_add(other.count),
            bytes: self.bytes.saturating_add(other.bytes),
        }
    }

    /// That of one pair.
    fn of(key: &[u8], value: &[u8]) -> Sum {
        let named = match key {
            [ROW | ASIDE, ..] => head_bytes(Head::read(value)),
            _ => 0,
        };
        Sum {
            count: 1,
            bytes: (key.len() as u64).saturating_add(64).saturating_add(named),
        }
    }
}

/// How many chunks a value of this length has at most.
fn chunks_of(length: u64) -> u64 {
    length / 512 + 1
}

/// How many bytes of log the chunks take that go away with a row.
fn head_bytes(head: Option<Head>) -> u64 {
    match head {
        Some(head) => chunks_of(head.len)
            .saturating_mul(CHUNK_DELETE)
            .saturating_add(NUMBER),
        None => 0,
    }
}

/// The number of a table; `None` if no table has this name.
pub fn number_of(home: &mut Home, name: &Name) -> Result<Option<TableNumber>, StoreFault>
    requires { IsReady home.old holding }
    ensures { IsReady home.new holding }
{
    let Some(row) = home.get(&name_key(name))? else {
        return Ok(None);
    };
    match row.as_slice() {
        [high, low, ..] => Ok(Some(TableNumber {
            bytes: [*high, *low],
        })),
        _ => Ok(None),
    }
}

/// The least name of a table above this one, or of all.
pub fn next_name(home: &mut Home, above_name: Option<&Name>) -> Result<Option<Name>, StoreFault>
    requires { IsReady home.old holding }
    ensures { IsReady home.new holding }
{
    let from = match above_name {
        Some(name) => above(name_key(name).as_slice()),
        None => front_of(NAME, &[]),
    };
    let Some(from) = from else {
        return Ok(None);
    };
    match home.next_at(&from)? {
        Some((key, _)) => match key.as_slice() {
            [NAME, bytes @ ..] => Ok(Name::new(bytes).ok()),
            _ => Ok(None),
        },
        None => Ok(None),
    }
}

/// Whether a batch stands that is not carried out yet.
pub fn has_batch(home: &mut Home) -> Result<bool, StoreFault>
    requires { IsReady home.old holding }
    ensures { IsReady home.new holding }
{
    Ok(home.get(&stands_key())?.is_some())
}

/// Adds the pairs of a part whose keys begin so, and answers where the next part begins, if there
/// may be one.
fn add_part(sum: &mut Sum, front: &Key, part: &[Pair]) -> Option<Key> {
    for pair in part {
        if !pair.key().starts_with(front.as_slice()) {
            return None;
        }
        *sum = sum.and(Sum::of(pair.key(), pair.value()));
    }
    if part.len() < PART {
        return None;
    }
    above(part.last()?.key())
}

/// The pairs of the store from a key on, a part of them.
fn part_from(alloc: Global, home: &mut Home, from: &Key) -> Result<Vec<Pair>, StoreFault>
    requires { IsReady home.old holding }
    ensures { IsReady home.new holding }
{
    let mut found = Vec::new(alloc);
    home.scan_shared(from, PART, &mut found)?;
    Ok(found)
}

/// What all pairs come to whose keys begin so.
fn sum_over(alloc: Global, home: &mut Home, front: &Key) -> Result<Sum, StoreFault>
    requires { IsReady home.old holding }
    ensures { IsReady home.new holding }
{
    let mut sum = Sum::NOTHING;
    let mut from = front.copy();
    'parts: for _ in 0..u64::MAX {
        let part = part_from(alloc, home, &from)?;
        match add_part(&mut sum, front, part.as_slice()) {
            Some(next) => from = next,
            None => return Ok(sum),
        }
    }
    Ok(sum)
}

/// The key of a kind, and of what follows it. What a key of the store has no room for is none.
fn front_of(kind: u8, number: &[u8]) -> Option<Key> {
    let mut bytes: ArrayVec<u8, MAX_KEY> = ArrayVec::new();
    bytes.try_push(kind).ok()?;
    bytes.try_extend_from_slice(number).ok()?;
    Key::new(bytes.as_slice()).ok()
}

/// What the pairs come to whose keys have this number after their kind.
fn sum_of(alloc: Global, home: &mut Home, kind: u8, number: &[u8]) -> Result<Sum, StoreFault>
    requires { IsReady home.old holding }
    ensures { IsReady home.new holding }
{
    match front_of(kind, number) {
        Some(front) => sum_over(alloc, home, &front),
        None => Ok(Sum::NOTHING),
    }
}

/// What the rows of a table come to.
pub fn sum_of_table(alloc: Global, home: &mut Home, table: TableNumber) -> Result<Sum, StoreFault>
    requires { IsReady home.old holding }
    ensures { IsReady home.new holding }
{
    sum_of(alloc, home, ROW, &table.bytes)
}

/// What goes away with a key that says that something is left half done.
fn sum_after(alloc: Global, home: &mut Home, key: &[u8]) -> Result<Sum, StoreFault>
    requires { IsReady home.old holding }
    ensures { IsReady home.new holding }
{
    match key {
        [DOOMED, number @ ..] => sum_of(alloc, home, CHUNK, number),
        [GONE, number @ ..] => sum_of(alloc, home, ROW, number),
        _ => Ok(Sum::NOTHING),
    }
}

/// What goes away with the keys of this kind.
fn sum_of_kind(alloc: Global, home: &mut Home, kind: u8) -> Result<Sum, StoreFault>
    requires { IsReady home.old holding }
    ensures { IsReady home.new holding }
{
    let mut sum = Sum::NOTHING;
    let mut from = front_of(kind, &[]);
    'keys: for _ in 0..u64::MAX {
        let Some(at) = from else {
            return Ok(sum);
        };
        let Some((key, value)) = home.next_at(&at)? else {
            return Ok(sum);
        };
        if !key.as_slice().starts_with(&[kind]) {
            return Ok(sum);
        }
        let after = sum_after(alloc, home, key.as_slice())?;
        sum = sum
            .and(after)
            .and(Sum::of(key.as_slice(), value.as_slice()));
        from = above(key.as_slice());
    }
    Ok(sum)
}

/// How many bytes of log it takes at most to finish what a stop or a refusal left half done. A row
/// aside is put, and goes away.
pub fn left_bytes(alloc: Global, home: &mut Home) -> Result<u64, StoreFault>
    requires { IsReady home.old holding }
    ensures { IsReady home.new holding }
{
    let gone = sum_of_kind(alloc, home, GONE)?;
    let doomed = sum_of_kind(alloc, home, DOOMED)?;
    let aside = sum_of(alloc, home, ASIDE, &[])?;
    let rows = aside
        .count
        .saturating_mul(2 * (128 + 512) + RECORD + NUMBER);
    Ok(
        gone.and(doomed)
            .and(aside)
            .bytes
            .saturating_add(rows)
            .saturating_add(CALL),
    )
}

/// How many bytes the old value of a key takes that goes away.
fn old_bytes(home: &mut Home, name: &Name, key: &RowKey) -> Result<u64, StoreFault>
    requires { IsReady home.old holding }
    ensures { IsReady home.new holding }
{
    let Some(table) = number_of(home, name)? else {
        return Ok(0);
    };
    match home.get(&row_key(table, key))? {
        Some(row) => Ok(head_bytes(Head::read(row.as_slice()))),
        None => Ok(0),
    }
}

/// How many bytes a change takes at most, but for the old value. Its row may go in twice, as that
/// of a batch does.
fn new_bytes(change: &Change) -> u64 {
    let key = change.key.as_slice().len() as u64;
    let length = match &change.value {
        Some(value) => value.len() as u64,
        None => 0,
    };
    let chunks = if length > 511 {
        chunks_of(length)
            .saturating_mul(CHUNK_PUT + CHUNK_DELETE)
            .saturating_add(NUMBER)
    } else {
        length.saturating_mul(4)
    };
    key.saturating_mul(5)
        .saturating_add(4 * RECORD)
        .saturating_add(chunks)
}

/// How many bytes the changes of a batch take at most.
fn batch_bytes(home: &mut Home, changes: &[Change]) -> Result<u64, StoreFault>
    requires { IsReady home.old holding }
    ensures { IsReady home.new holding }
{
    let mut bytes = CALL;
    'changes: for change in changes {
        let old = old_bytes(home, &change.table, &change.key)?;
        bytes = bytes.saturating_add(old).saturating_add(new_bytes(change));
    }
    Ok(bytes)
}

/// How many bytes a drop takes at most.
fn drop_bytes(alloc: Global, home: &mut Home, name: &Name) -> Result<u64, StoreFault>
    requires { IsReady home.old holding }
    ensures { IsReady home.new holding }
{
    match number_of(home, name)? {
        Some(table) => {
            let sum = sum_of_table(alloc, home, table)?;
            Ok(sum.bytes.saturating_add(CALL))
        }
        None => Ok(CALL),
    }
}

/// How many bytes of log a call takes at most, without a look at the store; `None` if one is
/// needed.
pub fn quick_bytes(call: &TableCall) -> Option<u64> {
    match call {
        TableCall::Change(change) => {
            Some(
                new_bytes(change)
                    .saturating_add(LONGEST_OLD)
                    .saturating_add(CALL),
            )
        }
        TableCall::Drop(_) | TableCall::Batch(_) => None,
        _ => Some(CALL),
    }
}

/// How many bytes of log a call takes at most.
pub fn bytes_of(alloc: Global, home: &mut Home, call: &TableCall) -> Result<u64, Miss>
    requires { IsReady home.old holding }
    ensures { IsReady home.new holding }
{
    match call {
        TableCall::Change(change) => {
            let old = old_bytes(home, &change.table, &change.key)?;
            Ok(new_bytes(change).saturating_add(old).saturating_add(CALL))
        }
        TableCall::Batch(changes) => Ok(batch_bytes(home, changes.as_slice())?),
        TableCall::Drop(name) => Ok(drop_bytes(alloc, home, name)?),
        _ => Ok(CALL),
    }
}
