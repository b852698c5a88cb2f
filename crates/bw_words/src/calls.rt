//! One line of a program that drives tables: a call on them, a request to the store below, or a
//! fault.

use crate::miss::Miss;
use crate::request::{MOST_PAIRS, Request, path_of};
use crate::script::{Command, Fault, Reading, alone, bytes_of, number_of, single, text_up_to};
use bw_calls::Change;
use bw_codec::limits::MAX_VALUE;
use bw_rows::limits::{MAX_LEN, MAX_NAME, MAX_ROW_KEY};
use bw_rows::{Name, RowKey};
use std::alloc::Global;
use std::str::SplitWhitespace;

/// The most bytes of a line: a put with the longest words, of which each byte is two digits.
pub const LONGEST_OF_TABLES: u32 = (2 * (MAX_NAME + MAX_ROW_KEY + MAX_LEN) + 64) as u32;

/// The most changes that one batch makes.
pub const MOST_CHANGES: u32 = 65_536;

/// The most bytes that the keys and values of one batch have together.
pub const MOST_BATCH: usize = 67_108_864;

/// A call on tables.
#[derive(Drop)]
pub enum TableCall {
    /// A table of this name comes.
    Create(Name),
    /// It goes away, with all that it has.
    Drop(Name),
    /// The names of tables, above this one if there is one, no more than so many.
    Names(Option<Name>, u32),
    /// A key is put or deleted.
    Change(Change),
    /// All of these are, in one step.
    Batch(Vec<Change>),
    /// The value of a key.
    Get(Name, RowKey),
    /// The first pair at or above a key.
    Next(Name, RowKey),
    /// The pairs at or above a key, no more than so many.
    Scan(Name, RowKey, u32),
    /// The pairs above a key, likewise.
    Above(Name, RowKey, u32),
    /// How many keys a table has.
    Count(Name),
}

impl TableCall {
    /// Whether it changes tables.
    pub fn writes(&self) -> bool {
        matches!(
            self,
            TableCall::Create(_) | TableCall::Drop(_) | TableCall::Change(_) | TableCall::Batch(_)
        )
    }
}

/// What a line asks for if tables are served.
#[derive(Drop)]
pub enum TableLine {
    Call(TableCall),
    /// What it asks of any store.
    Store(Request),
    /// The changes of so many further lines, in one step.
    Batch(u32),
}

/// The bytes of a short word come to the front of `room`.
fn short_of<'a>(
    reading: Reading,
    word: &'a str,
    room: &'a mut [u8; MAX_VALUE],
) -> Result<&'a [u8], Fault> {
    bytes_of(reading, word.as_bytes(), room)
}

/// The name of a table, of 1 to 127 bytes.
fn name_of(reading: Reading, word: &str) -> Result<Name, Fault> {
    let mut room = [0u8; MAX_VALUE];
    Name::new(short_of(reading, word, &mut room)?).map_err(|_| Fault::BadWord)
}

/// The key of a table, of 1 to 124 bytes.
fn row_key_of(reading: Reading, word: &str) -> Result<RowKey, Fault> {
    let mut room = [0u8; MAX_VALUE];
    RowKey::new(short_of(reading, word, &mut room)?).map_err(|_| Fault::BadWord)
}

/// A copy of a word's bytes.
fn own_of(alloc: Global, word: &[u8]) -> Result<Vec<u8>, Miss> {
    let mut bytes = Vec::new(alloc);
    bytes.extend_from_slice(word)?;
    Ok(bytes)
}

/// The bytes of hex digits.
fn decoded(alloc: Global, digits: &[u8]) -> Result<Vec<u8>, Miss> {
    let mut bytes = vec![in alloc; 0u8; digits.len() / 2]?;
    match hex::decode_to_slice(digits, bytes.as_mut_slice()) {
        Ok(()) => Ok(bytes),
        Err(_) => Err(Miss::Fault(Fault::BadWord)),
    }
}

/// A value, of 0 to 16 MiB.
fn long_of(alloc: Global, reading: Reading, word: &str) -> Result<Vec<u8>, Miss> {
    let word = word.as_bytes();
    if reading == Reading::Raw || !word.starts_with(b"0x") {
        if word.len() > MAX_LEN {
            return Err(Miss::Fault(Fault::BadWord));
        }
        return own_of(alloc, word);
    }
    let digits = &word[2..];
    if digits.len() / 2 > MAX_LEN {
        return Err(Miss::Fault(Fault::BadWord));
    }
    decoded(alloc, digits)
}

/// The words of a call: so many, and no more.
fn two<'a>(words: &mut SplitWhitespace<'a>) -> Result<(&'a str, &'a str), Fault> {
    let Some(first) = words.next() else {
        return Err(Fault::WrongNumberOfWords);
    };
    Ok((first, single(words.next(), words.next())?))
}

/// The three words of a call.
fn three<'a>(words: &mut SplitWhitespace<'a>) -> Result<(&'a str, &'a str, &'a str), Fault> {
    let Some(first) = words.next() else {
        return Err(Fault::WrongNumberOfWords);
    };
    let (second, third) = two(words)?;
    Ok((first, second, third))
}

/// A change by its words. They are counted before any is looked at.
fn change_of(
    alloc: Global,
    name: &str,
    words: &mut SplitWhitespace<'_>,
    reading: Reading,
) -> Result<Change, Miss> {
    if name == "del" {
        let (table, key) = two(words)?;
        return Ok(Change {
            table: name_of(reading, table)?,
            key: row_key_of(reading, key)?,
            value: None,
        });
    }
    let (table, key, value) = three(words)?;
    Ok(Change {
        table: name_of(reading, table)?,
        key: row_key_of(reading, key)?,
        value: Some(long_of(alloc, reading, value)?),
    })
}

/// How many of something, of 1 to so many.
fn up_to(word: &str, most: u32) -> Result<u32, Fault> {
    let number = number_of(word)?;
    if number == 0 || number > most {
        return Err(Fault::BadNumber);
    }
    Ok(number)
}

/// The names that are asked for.
fn names_of(words: &mut SplitWhitespace<'_>, reading: Reading) -> Result<TableCall, Fault> {
    let Some(word) = words.next() else {
        return Ok(TableCall::Names(None, MOST_PAIRS));
    };
    let most = words.next();
    if words.next().is_some() {
        return Err(Fault::WrongNumberOfWords);
    }
    let above = name_of(reading, word)?;
    match most {
        Some(most) => Ok(TableCall::Names(Some(above), up_to(most, MOST_PAIRS)?)),
        None => Ok(TableCall::Names(Some(above), MOST_PAIRS)),
    }
}

/// A call that takes a table and a key.
fn at_key(
    name: &str,
    words: &mut SplitWhitespace<'_>,
    reading: Reading,
) -> Result<TableCall, Fault> {
    let (table, key) = two(words)?;
    let table = name_of(reading, table)?;
    let key = row_key_of(reading, key)?;
    match name {
        "get" => Ok(TableCall::Get(table, key)),
        _ => Ok(TableCall::Next(table, key)),
    }
}

/// A walk: a table, a key, and how many pairs from there on, of 1 to `MOST_PAIRS`.
fn walk_of(
    name: &str,
    words: &mut SplitWhitespace<'_>,
    reading: Reading,
) -> Result<TableCall, Fault> {
    let (table, key, most) = three(words)?;
    let table = name_of(reading, table)?;
    let key = row_key_of(reading, key)?;
    let most = up_to(most, MOST_PAIRS)?;
    match name {
        "scan" => Ok(TableCall::Scan(table, key, most)),
        _ => Ok(TableCall::Above(table, key, most)),
    }
}

/// A call that takes a table.
fn of_table(
    name: &str,
    words: &mut SplitWhitespace<'_>,
    reading: Reading,
) -> Result<TableCall, Fault> {
    let table = name_of(reading, single(words.next(), words.next())?)?;
    match name {
        "create" => Ok(TableCall::Create(table)),
        "drop" => Ok(TableCall::Drop(table)),
        _ => Ok(TableCall::Count(table)),
    }
}

/// The request of a name that takes no word.
fn plain_of(name: &str) -> Option<Request> {
    match name {
        "flush" => Some(Request::Do(Command::Flush)),
        "settle" => Some(Request::Do(Command::Settle)),
        "durable" => Some(Request::Durable),
        "stats" => Some(Request::Stats),
        "pages" => Some(Request::Pages),
        "clean" => Some(Request::Do(Command::Clean)),
        "add" => Some(Request::Do(Command::Add)),
        "reopen" => Some(Request::Reopen),
        "quit" => Some(Request::Quit),
        _ => None,
    }
}

/// What a line asks for if tables are served. What is none of that is a fault; a refused growth
/// is refused.
pub fn parse_table_line(alloc: Global, line: &[u8], reading: Reading) -> Result<TableLine, Miss> {
    let text = text_up_to(line, LONGEST_OF_TABLES)?.unwrap_or("");
    let mut words = text.split_whitespace();
    let name = words.next().unwrap_or("");
    let call = match name {
        "put" | "del" => TableCall::Change(change_of(alloc, name, &mut words, reading)?),
        "get" | "next" => at_key(name, &mut words, reading)?,
        "scan" | "above" => walk_of(name, &mut words, reading)?,
        "create" | "drop" | "count" => of_table(name, &mut words, reading)?,
        "tables" => names_of(&mut words, reading)?,
        "batch" => {
            let most = single(words.next(), words.next())?;
            return Ok(TableLine::Batch(up_to(most, MOST_CHANGES)?));
        }
        "backup" => {
            let path = path_of(single(words.next(), words.next())?, reading)?;
            return Ok(TableLine::Store(Request::Backup(path)));
        }
        _ => return Ok(TableLine::Store(alone(plain_of(name), words.next())?)),
    };
    Ok(TableLine::Call(call))
}

/// The change that a line of a batch makes. What is none is a fault; a refused growth is refused.
pub fn parse_change(alloc: Global, line: &[u8], reading: Reading) -> Result<Change, Miss> {
    let text = text_up_to(line, LONGEST_OF_TABLES)?.unwrap_or("");
    let mut words = text.split_whitespace();
    match words.next().unwrap_or("") {
        name @ ("put" | "del") => change_of(alloc, name, &mut words, reading),
        _ => Err(Miss::Fault(Fault::UnknownCommand)),
    }
}
