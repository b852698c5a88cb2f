//! The groups that calls write. Each is one step of the store, and its contract says which tables
//! stand after it.

ghost use Rattle.std.specs.Prelude.{◌≡◌, ◌+◌, ◌-◌, ◌*◌, ◌≤◌, ◌<◌, ◌∷◌, ◌++◌, [], None, Some, length};
ghost use Rattle.bw_record.specs.declared.record.Record.TheVariants.{Put};
ghost use Rattle.bw_rows.specs.Spelling as spelling;
ghost use Rattle.bw_rows.specs.Meaning.{over};
ghost use Rattle.bw_rows.specs.Steps.{aside_group, row_group};
ghost use Rattle.bw_tables.specs.Calls.{Begins, CarriesOut, DropsRow, DropsTable, EndsBatch, Frees, GoesOn, KeepsMarks, MakesBatch, MakesLong, MakesShort, MakesTable, SetsAside};
ghost use Rattle.bw_tables.specs.Writing.{chunk_record, chunk_records, named, row_to, taking};

use bw_record::{Key, Record, Value};
use bw_ring::Group;
use bw_rows::{
    Head, Name, Number, RowKey, TableNumber, aside_key, chunk, chunk_key, doomed_key, free_key,
    gone_key, is_no_row, mark_key, name_key, row_key, stands_key, whole,
};

// A value of no bytes, which marks have.
fn nothing() -> Value
    ensures { result ≡ [] }
{
    match Value::new(&[]) {
        Ok(value) => value,
        Err(_) => unreachable!(),
    }
}

// Adds a record to a group that has room for it.
fn add(group: &mut Group, item: Record)
    requires { length group.old < 4 }
    ensures { group.new ≡ group.old ++ item ∷ [] }
{
    let _ = group.push(item);
}

// A chunk of a value under a number.
fn chunk_of(number: Number, value: &[u8], i: u32) -> Record
    requires { 512 * i ≤ length value.now }
    ensures { result ≡ chunk_record number.bytes value.now i }
{
    Record::Put(chunk_key(number, i), chunk(value, i))
}

// Adds these chunks to a group that has room for them.
fn add_chunks(group: &mut Group, number: Number, value: &[u8], from: u32, to: u32)
    requires order { from ≤ to }
    requires room { length group.old + (to - from) ≤ 4 }
    requires there { 512 * to < length value.now + 512 }
    ensures { group.new ≡ group.old ++ chunk_records number.bytes value.now from (to - from) }
{
    for i in from..to {
        add(group, chunk_of(number, value, i));
    }
}

/// The first group of a put of a long value: its number is taken, and its first chunks are written,
/// up to two.
///
/// The number is doomed: what a stop leaves here is collected.
pub fn first_group(number: Number, value: &[u8], to: u32) -> Group
    requires few { to ≤ 2 }
    requires there { 512 * to < length value.now + 512 }
    ensures records { result ≡ taking number.bytes ++ chunk_records number.bytes value.now 0 to }
    ensures begins { Begins number.bytes value.now to result }
{
    let mut group = Group::one(Record::Put(doomed_key(number), nothing()));
    add(&mut group, Record::Del(free_key(number)));
    add_chunks(&mut group, number, value, 0, to);
    group
}

/// A group of the next chunks, one to four: all from `from` on and below `to`.
pub fn chunk_group(number: Number, value: &[u8], from: u32, to: u32) -> Group
    requires some { from < to }
    requires few { to ≤ from + 4 }
    requires there { 512 * to < length value.now + 512 }
    ensures records { result ≡ chunk_records number.bytes value.now from (to - from) }
    ensures goes_on { GoesOn number.bytes value.now from to result }
{
    let mut group = Group::one(chunk_of(number, value, from));
    add_chunks(&mut group, number, value, from + 1, to);
    group
}

// The record of a row, which is written or goes away.
fn row_record(key: Key, row: Option<Value>) -> Record
    ensures { result ≡ row_to key row }
{
    match row {
        Some(row) => Record::Put(key, row),
        None => Record::Del(key),
    }
}

// The group of a row, which is written or goes away. What it names is doomed no more, and what the
// row before it named is doomed.
fn row_change(
    table: TableNumber,
    key: &RowKey,
    row: Option<Value>,
    next: Option<Head>,
    old: Option<Head>,
) -> Group
    ensures { result ≡ row_group (spelling.row_place table.bytes key.now)
        row (named next) (named old) }
{
    let mut group = Group::one(row_record(row_key(table, key), row));
    if let Some(head) = next {
        add(&mut group, Record::Del(doomed_key(head.number)));
    }
    if let Some(head) = old {
        add(&mut group, Record::Put(doomed_key(head.number), nothing()));
    }
    group
}

/// The step of a put of a long value, after the group of its last chunk.
///
/// `old` is what the row of the key names so far. Its chunks are collected from then on.
pub fn long_step(
    table: TableNumber,
    key: &RowKey,
    number: Number,
    value: &[u8],
    old: Option<Head>,
) -> Group
    requires { 0 < length value.now }
    ensures step { MakesLong table.bytes key.now number.bytes value.now (named old) result }
{
    let head = Head {
        number,
        len: value.len() as u64,
    };
    row_change(table, key, Some(head.row()), Some(head), old)
}

/// The step of a put of a value that stands in its row: the only group of it.
pub fn short_step(table: TableNumber, key: &RowKey, value: &[u8], old: Option<Head>) -> Group
    requires { length value.now ≤ 511 }
    ensures step { MakesShort table.bytes key.now (Some value.now) (named old) result }
{
    row_change(table, key, Some(whole(value)), None, old)
}

/// The step of a delete: the only group of it.
pub fn delete_step(table: TableNumber, key: &RowKey, old: Option<Head>) -> Group
    ensures step { MakesShort table.bytes key.now None (named old) result }
{
    row_change(table, key, None, None, old)
}

/// The last group of a collection, after the last chunk: the number may be taken again.
pub fn free_group(number: Number) -> Group
    ensures frees { Frees number.bytes result }
    ensures marks { KeepsMarks result }
{
    let mut group = Group::one(Record::Del(doomed_key(number)));
    add(&mut group, Record::Put(free_key(number), nothing()));
    group
}

/// A row is written aside: what the row of this key becomes once the batch stands.
pub fn aside_row(table: TableNumber, key: &RowKey, row: Value) -> Group
    ensures aside { SetsAside table.bytes key.now row result }
    ensures item { result
        ≡ Put (spelling.aside_key (spelling.row_place table.bytes key.now)) row ∷ [] }
{
    Group::one(Record::Put(aside_key(table, key), row))
}

/// The step of a batch, after its rows aside and their chunks.
pub fn batch_step() -> Group
    ensures { MakesBatch result }
{
    Group::one(Record::Put(stands_key(), nothing()))
}

// The row that a row aside becomes; `None` if it takes its row away.
fn carried(aside: Value) -> Option<Value>
    ensures { result ≡ over (Some aside) None }
{
    if is_no_row(aside.as_slice()) {
        None
    } else {
        Some(aside)
    }
}

// The records that carry out a row aside.
fn aside_change(table: TableNumber, key: &RowKey, aside: Value, old: Option<Head>) -> Group
    ensures { result ≡ aside_group (spelling.row_place table.bytes key.now)
        (over (Some aside) None) (spelling.head_of aside) (named old) }
{
    let next = Head::read(aside.as_slice());
    let mut group = Group::one(row_record(row_key(table, key), carried(aside)));
    add(&mut group, Record::Del(aside_key(table, key)));
    if let Some(head) = next {
        add(&mut group, Record::Del(doomed_key(head.number)));
    }
    if let Some(head) = old {
        add(&mut group, Record::Put(doomed_key(head.number), nothing()));
    }
    group
}

/// The group that carries out a row aside. The row takes it, and it goes away; what it names is
/// doomed no more, and what the row named before, `old`, is doomed.
pub fn carry_row(table: TableNumber, key: &RowKey, aside: Value, old: Option<Head>) -> Group
    ensures carries { CarriesOut (spelling.row_place table.bytes key.now) aside (named old) result }
{
    aside_change(table, key, aside, old)
}

/// The group that ends a batch, once nothing is left aside.
pub fn batch_end() -> Group
    ensures ends { EndsBatch result }
    ensures marks { KeepsMarks result }
{
    Group::one(Record::Del(stands_key()))
}

// What stands at the name of a table: its number, and that it may have long values.
fn table_row(table: TableNumber) -> Value
    ensures { result ≡ table.bytes ++ 1 ∷ [] }
{
    let [high, low] = table.bytes;
    match Value::new(&[high, low, 1]) {
        Ok(row) => row,
        Err(_) => unreachable!(),
    }
}

/// The step of a new table, under a number that no table and no row has. What stands at its name is
/// that number, and that it may have long values; the mark has the next number.
pub fn create_step(name: &Name, table: TableNumber, mark: Value) -> Group
    ensures step { MakesTable name.now table.bytes result }
{
    let mut group = Group::one(Record::Put(name_key(name), table_row(table)));
    add(&mut group, Record::Put(mark_key(), mark));
    group
}

/// The step of a drop: the table goes away, and its number is gone, up to the last of its rows.
pub fn drop_step(name: &Name, table: TableNumber) -> Group
    ensures step { DropsTable name.now table.bytes result }
{
    let mut group = Group::one(Record::Del(name_key(name)));
    add(&mut group, Record::Put(gone_key(table), nothing()));
    group
}

/// A row of a table that is gone goes away; `old` is what it names.
pub fn drop_row(table: TableNumber, key: &RowKey, old: Option<Head>) -> Group
    ensures drops { DropsRow table.bytes key.now (named old) result }
    ensures marks { KeepsMarks result }
{
    row_change(table, key, None, None, old)
}
