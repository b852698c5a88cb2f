//! A walk over the rows of a table, in the order of their keys.

ghost use Rattle.bw_home.specs.Ready.{IsReady};

use crate::fault::{of_word, told};
use bw_calls::get;
use bw_codec::{Key, Pair, Value};
use bw_home::Home;
use bw_keys::{KeysFault, Span, TableRefusal, above};
use bw_pairs::long_from;
use bw_rows::{Head, Name, RowKey, TableNumber, read_row_key, row_key};
use std::alloc::Global;

/// How many rows are looked up at once.
const PART: usize = 256;

/// A key of a table, and what stands there.
#[derive(Drop)]
pub struct Found {
    pub key: RowKey,
    pub row: Value,
}

impl Found {
    /// How many bytes a value has that stands by itself; 0 if the row has it.
    pub fn long(&self) -> u64 {
        match Head::read(self.row.as_slice()) {
            Some(head) => head.len,
            None => 0,
        }
    }
}

/// The rows of a table, a part of them at a time.
#[derive(Drop)]
pub struct Walk {
    table: TableNumber,
    span: Span,
    /// The key of the store at which the next part begins, if there may be one.
    next: Option<Key>,
    part: Vec<Pair>,
    /// How many rows of the part were handed out.
    passed: usize,
}

/// The key of a row as one of a stretch.
fn row_key_at(table: TableNumber, key: &Key) -> Option<Key> {
    match RowKey::new(key.as_slice()) {
        Ok(key) => Some(row_key(table, &key)),
        Err(_) => None,
    }
}

/// The key of a table's row.
fn key_in(bytes: &[u8], table: TableNumber) -> Option<RowKey> {
    let (its, key) = read_row_key(bytes)?;
    if its.bytes != table.bytes {
        return None;
    }
    RowKey::new(key).ok()
}

/// A copy of a pair's value.
fn row_in(pair: &Pair) -> Result<Value, KeysFault> {
    Value::new(pair.value()).map_err(|_| KeysFault::Table(TableRefusal::Broken))
}

impl Walk {
    /// Those of a stretch of keys.
    pub fn new(alloc: Global, table: TableNumber, span: Span) -> Walk {
        let next = row_key_at(table, &span.start_key());
        Walk {
            table,
            span,
            next,
            part: Vec::new(alloc),
            passed: 0,
        }
    }

    /// Looks the next rows up, if all of a part were handed out.
    fn look(&mut self, home: &mut Home) -> Result<(), KeysFault>
        requires { IsReady home.old holding }
        ensures { IsReady home.new holding }
    {
        if self.passed < self.part.len() {
            return Ok(());
        }
        self.part.clear();
        self.passed = 0;
        let Some(key) = self.next.take() else {
            return Ok(());
        };
        home.scan_shared(&key, PART, &mut self.part)?;
        self.next = self.part.last().and_then(|pair| above(pair.key()));
        Ok(())
    }

    /// The next row that was looked up, if it is one of the stretch.
    fn next_found(&mut self) -> Result<Option<Found>, KeysFault> {
        let Some(pair) = self.part.get(self.passed) else {
            return Ok(None);
        };
        let Some(key) = key_in(pair.key(), self.table) else {
            return Ok(None);
        };
        if self.span.is_over(key.as_slice()) {
            return Ok(None);
        }
        let row = row_in(pair)?;
        self.passed = self.passed.saturating_add(1);
        Ok(Some(Found { key, row }))
    }

    /// The next row; `None` after the last.
    pub fn next(&mut self, home: &mut Home) -> Result<Option<Found>, KeysFault>
        requires { IsReady home.old holding }
        ensures { IsReady home.new holding }
    {
        self.look(home)?;
        self.next_found()
    }
}

/// The value of a row that has it.
fn whole_in(alloc: Global, row: &[u8]) -> Result<Vec<u8>, KeysFault> {
    let bytes = match row {
        [_, rest @ ..] => rest,
        [] => row,
    };
    long_from(alloc, bytes).map_err(|fault| of_word("VALUE", fault))
}

/// The value of a key, as it is called for.
pub fn value_at(home: &mut Home, name: &Name, key: &RowKey) -> Result<Option<Vec<u8>>, KeysFault>
    requires { IsReady home.old holding }
    ensures { IsReady home.new holding }
{
    match get(home, name, key) {
        Ok(value) => Ok(value),
        Err(fault) => Err(told(fault)),
    }
}

/// The value of a row that was found.
pub fn value_of(home: &mut Home, name: &Name, found: &Found) -> Result<Vec<u8>, KeysFault>
    requires { IsReady home.old holding }
    ensures { IsReady home.new holding }
{
    if Head::read(found.row.as_slice()).is_none() {
        return whole_in(*home.feeds.allocator(), found.row.as_slice());
    }
    match value_at(home, name, &found.key)? {
        Some(value) => Ok(value),
        None => Err(KeysFault::Table(TableRefusal::Broken)),
    }
}
