//! A line of a script, as what it asks.

use anyhow::{Context, Result, bail};
use bw_calls::Change;
use bw_codec::{Key, Value};
use bw_rows::{Name, RowKey};
use std::alloc::Global;

/// What a line asks.
#[derive(Drop)]
pub enum Request {
    /// Finishes what a stop left half done.
    Open,
    /// Makes all durable.
    Keep,
    /// Gives up the oldest segment of the log.
    Clean,
    /// Prints all tables.
    Show,
    /// Makes a table.
    Create(Name),
    /// Drops one.
    Drop(Name),
    /// A put or a delete: a call of its own, or one of a batch.
    Change(Change),
    /// So many changes follow, which are one call.
    Batch(usize),
    /// A pair of the store itself is set, or deleted.
    Raw(Key, Option<Value>),
}

// The bytes of a word, which is hex, or `-` for none.
fn bytes_of(alloc: Global, word: Option<&str>) -> Result<Vec<u8>> {
    match word {
        Some("-") => Ok(Vec::new(alloc)),
        Some(word) => Ok(hex::decode(alloc, word)?),
        None => bail!("a word is missing"),
    }
}

fn name_of(alloc: Global, word: Option<&str>) -> Result<Name> {
    Ok(Name::new(bytes_of(alloc, word)?.as_slice())?)
}

fn row_key_of(alloc: Global, word: Option<&str>) -> Result<RowKey> {
    Ok(RowKey::new(bytes_of(alloc, word)?.as_slice())?)
}

// A pair of the store itself, without a value if it is to go.
fn raw_of(alloc: Global, key: Option<&str>, value: Option<&str>) -> Result<Request> {
    let key = Key::new(bytes_of(alloc, key)?.as_slice())?;
    if value.is_none() {
        return Ok(Request::Raw(key, None));
    }
    let value = Value::new(bytes_of(alloc, value)?.as_slice())?;
    Ok(Request::Raw(key, Some(value)))
}

// A put, or a delete if there is no value.
fn change_of(
    alloc: Global,
    table: Option<&str>,
    key: Option<&str>,
    value: Option<Vec<u8>>,
) -> Result<Request> {
    let table = name_of(alloc, table)?;
    let key = row_key_of(alloc, key)?;
    Ok(Request::Change(Change { table, key, value }))
}

/// What a line asks. Names, keys and values are hex, and `-` stands for no bytes.
pub fn request_of(alloc: Global, line: &str) -> Result<Request> {
    let mut words = line.split(' ');
    let word = words.next();
    let first = words.next();
    let second = words.next();
    let third = words.next();
    match word {
        Some("open") => Ok(Request::Open),
        Some("keep") => Ok(Request::Keep),
        Some("clean") => Ok(Request::Clean),
        Some("show") => Ok(Request::Show),
        Some("create") => Ok(Request::Create(name_of(alloc, first)?)),
        Some("drop") => Ok(Request::Drop(name_of(alloc, first)?)),
        Some("put") => change_of(alloc, first, second, Some(bytes_of(alloc, third)?)),
        Some("del") => change_of(alloc, first, second, None),
        Some("batch") => Ok(Request::Batch(first.context("a count is missing")?.parse()?)),
        Some("raw") => raw_of(alloc, first, second),
        _ => bail!("no such call: {line}"),
    }
}
