//! Calls on tables, as `bw_calls` does them, and how their answers are printed.

ghost use Rattle.bw_home.specs.Ready.{IsReady};

use crate::answers::Answer;
use crate::rows::{next_name, number_of, sum_of_table};
use bw_calls::{
    Change, TableFault, batch, create, delete, drop_table, get, next_above, next_at, put,
};
use bw_core::StoreFault;
use bw_home::Home;
use bw_look::{Printer, write_word};
use bw_rows::{Name, RowKey};
use bw_words::{Miss, Refusal, TableCall, write_long_word};
use std::alloc::Global;
use std::io::Write;

/// An answer with so many bytes of keys and values has no further pair.
const MOST_ANSWER: usize = 1_048_576;

/// A key of a table and its value.
pub type Row = (RowKey, Vec<u8>);

/// What a call on tables comes to, if it answers more than that it was done.
#[derive(Drop)]
pub enum TableAnswer {
    /// The value of a key.
    Value(Option<Vec<u8>>),
    /// The first pair from a key on.
    Pair(Option<Row>),
    /// Some pairs in the order of their keys, and whether there would be more if they were shorter.
    Pairs(Vec<Row>, bool),
    /// Names of tables, in their order.
    Names(Vec<Name>),
}

/// Refuses a name that no table has: if nothing was found, this says why.
fn has_table(home: &mut Home, name: &Name) -> Result<(), Miss>
    requires { IsReady home.old holding }
    ensures { IsReady home.new holding }
{
    match number_of(home, name)? {
        Some(_) => Ok(()),
        None => Err(Miss::Refused(Refusal::NoTable)),
    }
}

/// The value of a key of a table.
fn value_at(home: &mut Home, name: &Name, key: &RowKey) -> Result<Answer, Miss>
    requires { IsReady home.old holding }
    ensures { IsReady home.new holding }
{
    match get(home, name, key)? {
        Some(value) => Ok(Answer::Tables(TableAnswer::Value(Some(value)))),
        None => {
            has_table(home, name)?;
            Ok(Answer::Tables(TableAnswer::Value(None)))
        }
    }
}

/// The first pair of a table at or above a key.
fn pair_at(home: &mut Home, name: &Name, key: &RowKey) -> Result<Answer, Miss>
    requires { IsReady home.old holding }
    ensures { IsReady home.new holding }
{
    match next_at(home, name, key)? {
        Some(pair) => Ok(Answer::Tables(TableAnswer::Pair(Some(pair)))),
        None => {
            has_table(home, name)?;
            Ok(Answer::Tables(TableAnswer::Pair(None)))
        }
    }
}

/// Where a walk begins: at a key, or above it.
#[derive(Clone, Copy)]
struct Start<'a> {
    key: &'a RowKey,
    is_above: bool,
}

/// The pair after those that were found, or the first of a walk.
fn next_of(
    home: &mut Home,
    name: &Name,
    start: Start<'_>,
    found: &[Row],
) -> Result<Option<Row>, TableFault>
    requires { IsReady home.old holding }
    ensures { IsReady home.new holding }
{
    match found.last() {
        Some((key, _)) => next_above(home, name, key),
        None if start.is_above => next_above(home, name, start.key),
        None => next_at(home, name, start.key),
    }
}

/// The pairs of a walk, no more than so many.
fn pairs_from(
    alloc: Global,
    home: &mut Home,
    name: &Name,
    start: Start<'_>,
    most: u32,
) -> Result<TableAnswer, Miss>
    requires { IsReady home.old holding }
    ensures { IsReady home.new holding }
{
    let mut found: Vec<Row> = Vec::new(alloc);
    let mut bytes = 0usize;
    'pairs: for _ in 0..most {
        if bytes >= MOST_ANSWER {
            return Ok(TableAnswer::Pairs(found, true));
        }
        let Some((key, value)) = next_of(home, name, start, found.as_slice())? else {
            return Ok(TableAnswer::Pairs(found, false));
        };
        bytes = bytes
            .saturating_add(key.as_slice().len())
            .saturating_add(value.len());
        found.push((key, value))?;
    }
    Ok(TableAnswer::Pairs(found, false))
}

/// The pairs of a walk over a table.
fn walk(
    alloc: Global,
    home: &mut Home,
    name: &Name,
    start: Start<'_>,
    most: u32,
) -> Result<Answer, Miss>
    requires { IsReady home.old holding }
    ensures { IsReady home.new holding }
{
    has_table(home, name)?;
    Ok(Answer::Tables(pairs_from(alloc, home, name, start, most)?))
}

/// How many keys a table has.
fn count(alloc: Global, home: &mut Home, name: &Name) -> Result<Answer, Miss>
    requires { IsReady home.old holding }
    ensures { IsReady home.new holding }
{
    match number_of(home, name)? {
        Some(table) => Ok(Answer::Count(sum_of_table(alloc, home, table)?.count)),
        None => Err(Miss::Refused(Refusal::NoTable)),
    }
}

/// The name of the table after those that were found, or the first above another one.
fn name_after(
    home: &mut Home,
    above: Option<&Name>,
    found: &[Name],
) -> Result<Option<Name>, StoreFault>
    requires { IsReady home.old holding }
    ensures { IsReady home.new holding }
{
    match found.last() {
        Some(name) => next_name(home, Some(name)),
        None => next_name(home, above),
    }
}

/// The names of tables, no more than so many.
fn names(alloc: Global, home: &mut Home, above: Option<&Name>, most: u32) -> Result<Answer, Miss>
    requires { IsReady home.old holding }
    ensures { IsReady home.new holding }
{
    let mut found = Vec::new(alloc);
    'names: for _ in 0..most {
        match name_after(home, above, found.as_slice())? {
            Some(name) => found.push(name)?,
            None => return Ok(Answer::Tables(TableAnswer::Names(found))),
        }
    }
    Ok(Answer::Tables(TableAnswer::Names(found)))
}

/// Puts or deletes a key.
fn change(home: &mut Home, change: &Change) -> Result<(), TableFault>
    requires { IsReady home.old holding }
    ensures { IsReady home.new holding }
{
    match &change.value {
        Some(value) => put(home, &change.table, &change.key, value.as_slice()),
        None => delete(home, &change.table, &change.key),
    }
}

/// Does what changes tables, if the call does.
fn make(home: &mut Home, call: &TableCall) -> Result<(), TableFault>
    requires { IsReady home.old holding }
    ensures { IsReady home.new holding }
{
    match call {
        TableCall::Create(name) => create(home, name),
        TableCall::Drop(name) => drop_table(home, name),
        TableCall::Change(one) => change(home, one),
        TableCall::Batch(changes) => batch(home, changes.as_slice()),
        _ => Ok(()),
    }
}

/// Does what changes tables.
pub fn write_tables(home: &mut Home, call: &TableCall) -> Result<Answer, TableFault>
    requires { IsReady home.old holding }
    ensures { IsReady home.new holding }
{
    make(home, call)?;
    Ok(Answer::Put(true))
}

/// Does what looks at tables.
pub fn read_tables(alloc: Global, home: &mut Home, call: &TableCall) -> Result<Answer, Miss>
    requires { IsReady home.old holding }
    ensures { IsReady home.new holding }
{
    match call {
        TableCall::Get(name, key) => value_at(home, name, key),
        TableCall::Next(name, key) => pair_at(home, name, key),
        TableCall::Scan(name, key, most) => {
            let start = Start {
                key,
                is_above: false,
            };
            walk(alloc, home, name, start, *most)
        }
        TableCall::Above(name, key, most) => {
            let start = Start {
                key,
                is_above: true,
            };
            walk(alloc, home, name, start, *most)
        }
        TableCall::Count(name) => count(alloc, home, name),
        TableCall::Names(above, most) => names(alloc, home, above.as_ref(), *most),
        _ => Ok(Answer::Put(true)),
    }
}

/// A key, `=` and its value.
fn write_row<O: Write>(out: &mut Printer<'_, O>, row: &Row) {
    write_word(out, row.0.as_slice());
    out.text(b"=");
    write_long_word(out, row.1.as_slice());
}

/// How many pairs there are, each after a space, and whether there would be more.
fn write_rows<O: Write>(out: &mut Printer<'_, O>, rows: &[Row], is_cut: bool) {
    out.named("pairs ", rows.len());
    for row in rows {
        out.text(b" ");
        write_row(out, row);
    }
    if is_cut {
        out.text(b" more");
    }
    out.text(b"\n");
}

/// How many names there are, and each after a space.
fn write_names<O: Write>(out: &mut Printer<'_, O>, names: &[Name]) {
    out.named("tables ", names.len());
    for name in names {
        out.text(b" ");
        write_word(out, name.as_slice());
    }
    out.text(b"\n");
}

/// The line of an answer.
pub fn write_table_answer<O: Write>(out: &mut Printer<'_, O>, answer: &TableAnswer) {
    match answer {
        TableAnswer::Value(Some(value)) => {
            out.text(b"value ");
            write_long_word(out, value.as_slice());
            out.text(b"\n");
        }
        TableAnswer::Pair(Some(row)) => {
            out.text(b"pair ");
            write_row(out, row);
            out.text(b"\n");
        }
        TableAnswer::Value(None) | TableAnswer::Pair(None) => out.text(b"none\n"),
        TableAnswer::Pairs(rows, is_cut) => write_rows(out, rows.as_slice(), *is_cut),
        TableAnswer::Names(names) => write_names(out, names.as_slice()),
    }
}
