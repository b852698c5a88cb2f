//! One line of a program that drives a store: a request, or a fault.

use crate::miss::Miss;
use crate::script::{
    Command, Fault, Reading, alone, asked_of, group_of, key_of, number_of, ops_of, single, text_of,
    value_of,
};
use bw_codec::{Key, Record, Value};
use std::alloc::Global;
use std::str;
use std::str::SplitWhitespace;

/// The most pairs that one answer has.
pub const MOST_PAIRS: u32 = 1024;

/// The most keys that one line asks for, and the most pairs that it puts.
const MOST_KEYS: usize = 64;

/// A put that hangs on what its key has, as all that was put before leaves it.
#[derive(Drop)]
pub enum Condition {
    /// The number at a key gets greater by so much. A key without a value has 0.
    Incr(Key, i64),
    /// A key gets the second value if it has the first.
    Swap(Key, Value, Value),
    /// A key gets a value if it has none.
    Absent(Key, Value),
    /// The value of the first key goes to the second, in one step.
    Rename(Key, Key),
}

/// What a line asks for. There is one writer, so no request names one.
#[derive(Drop)]
pub enum Request {
    /// What a command of a script asks for, of the writer 0.
    Do(Command),
    /// A put, if its key is as it says.
    If(Condition),
    /// The values of some keys.
    GetMany(Vec<Key>),
    /// Puts of some pairs, one after the other.
    PutMany(Vec<Record>),
    /// The first pair at or above a key.
    Next(Key),
    /// The last pair at or below a key.
    Prev(Key),
    /// The last pair below a key.
    Below(Key),
    /// The pairs at or above a key, no more than so many.
    Scan(Key, u32),
    /// How many pairs there are.
    Count,
    /// How many pages there are.
    Pages,
    /// The number of the last frame that was appended.
    Durable,
    /// All numbers of the store.
    Stats,
    /// The folder is opened once more, after a failed append.
    Reopen,
    /// A copy in a new folder, whose path is a text in these bytes.
    Backup(Value),
    /// The run ends.
    Quit,
}

impl Request {
    /// Whether its answer is a receipt, for which a program may wait before it speaks to others.
    pub fn is_receipt(&self) -> bool {
        match self {
            Request::Do(command) => command.is_receipt(),
            Request::Durable | Request::Backup(_) => true,
            _ => false,
        }
    }

    /// Whether what was accepted before is taken first, so that a program reads what it put.
    pub fn takes(&self) -> bool {
        match self {
            Request::Do(command) => !matches!(command, Command::Clean | Command::Add),
            Request::Next(_) | Request::Prev(_) | Request::Below(_) => true,
            Request::Scan(_, _) | Request::Backup(_) | Request::If(_) => true,
            Request::Pages | Request::Count | Request::GetMany(_) => true,
            _ => false,
        }
    }
}

/// The path that a word gives: a text of 1 to 512 bytes.
pub fn path_of(word: &str, reading: Reading) -> Result<Value, Fault> {
    let path = value_of(reading, word)?;
    if path.as_slice().is_empty() || str::from_utf8(path.as_slice()).is_err() {
        return Err(Fault::BadWord);
    }
    Ok(path)
}

/// The request of a name that takes one word.
fn request_of(name: &str, word: &str, reading: Reading) -> Result<Request, Fault> {
    match name {
        "next" => Ok(Request::Next(key_of(reading, word)?)),
        "prev" => Ok(Request::Prev(key_of(reading, word)?)),
        "below" => Ok(Request::Below(key_of(reading, word)?)),
        "backup" => Ok(Request::Backup(path_of(word, reading)?)),
        _ => Ok(Request::Do(asked_of(name, word, reading)?)),
    }
}

/// The request of a walk: a key, and how many pairs from there on, of 1 to `MOST_PAIRS`.
fn scan_of(words: &mut SplitWhitespace<'_>, reading: Reading) -> Result<Request, Fault> {
    let Some(word) = words.next() else {
        return Err(Fault::WrongNumberOfWords);
    };
    let most = single(words.next(), words.next())?;
    let key = key_of(reading, word)?;
    match number_of(most)? {
        most @ 1..=MOST_PAIRS => Ok(Request::Scan(key, most)),
        _ => Err(Fault::BadNumber),
    }
}

/// The number of a word or of a value: decimal digits, after a hyphen if it is below 0.
pub fn signed_of(text: &str) -> Result<i64, Fault> {
    let digits = text.strip_prefix("-").unwrap_or(text);
    if !digits.bytes().all(|byte| byte.is_ascii_digit()) {
        return Err(Fault::BadNumber);
    }
    text.parse().map_err(|_| Fault::BadNumber)
}

/// The condition of a name that takes a key and one word.
fn condition_of(name: &str, key: &str, word: &str, reading: Reading) -> Result<Condition, Fault> {
    let key = key_of(reading, key)?;
    match name {
        "incr" => Ok(Condition::Incr(key, signed_of(word)?)),
        "rename" => Ok(Condition::Rename(key, key_of(reading, word)?)),
        _ => Ok(Condition::Absent(key, value_of(reading, word)?)),
    }
}

/// The put that hangs on what its key has.
fn if_of(name: &str, words: &mut SplitWhitespace<'_>, reading: Reading) -> Result<Request, Fault> {
    let (Some(key), Some(word)) = (words.next(), words.next()) else {
        return Err(Fault::WrongNumberOfWords);
    };
    if name != "cas" {
        return match words.next() {
            None => Ok(Request::If(condition_of(name, key, word, reading)?)),
            Some(_) => Err(Fault::WrongNumberOfWords),
        };
    }
    let new = single(words.next(), words.next())?;
    Ok(Request::If(Condition::Swap(
        key_of(reading, key)?,
        value_of(reading, word)?,
        value_of(reading, new)?,
    )))
}

/// The words that are left, up to so many.
fn up_to<'a>(
    alloc: Global,
    words: &mut SplitWhitespace<'a>,
    most: usize,
) -> Result<Vec<&'a str>, Miss> {
    let mut found = Vec::new(alloc);
    for _ in 0..most {
        match words.next() {
            Some(word) => found.push(word)?,
            None => return Ok(found),
        }
    }
    Ok(found)
}

/// All words that are left: one at least, and no more than so many.
fn some_of<'a>(
    alloc: Global,
    words: &mut SplitWhitespace<'a>,
    most: usize,
) -> Result<Vec<&'a str>, Miss> {
    let found = up_to(alloc, words, most)?;
    if found.is_empty() || words.next().is_some() {
        return Err(Miss::Fault(Fault::WrongNumberOfWords));
    }
    Ok(found)
}

/// The request of 1 to `MOST_KEYS` keys. The words are counted before any is looked at.
fn gets_of(
    alloc: Global,
    words: &mut SplitWhitespace<'_>,
    reading: Reading,
) -> Result<Request, Miss> {
    let words = some_of(alloc, words, MOST_KEYS)?;
    let mut keys = Vec::new(alloc);
    for word in words.as_slice() {
        keys.push(key_of(reading, word)?)?;
    }
    Ok(Request::GetMany(keys))
}

/// A put of the pair of these words.
fn put_of(pair: &[&str], reading: Reading) -> Result<Record, Fault> {
    match pair {
        [key, value] => Ok(Record::Put(key_of(reading, key)?, value_of(reading, value)?)),
        _ => Err(Fault::WrongNumberOfWords),
    }
}

/// The request of 1 to `MOST_KEYS` pairs. The words are counted before any is looked at.
fn puts_of(
    alloc: Global,
    words: &mut SplitWhitespace<'_>,
    reading: Reading,
) -> Result<Request, Miss> {
    let words = some_of(alloc, words, 2 * MOST_KEYS)?;
    if words.len() % 2 != 0 {
        return Err(Miss::Fault(Fault::WrongNumberOfWords));
    }
    let mut puts = Vec::new(alloc);
    for pair in words.as_slice().chunks(2) {
        puts.push(put_of(pair, reading)?)?;
    }
    Ok(Request::PutMany(puts))
}

/// The request of a name that takes no word.
fn plain_of(name: &str) -> Option<Request> {
    match name {
        "pages" => Some(Request::Pages),
        "count" => Some(Request::Count),
        "flush" => Some(Request::Do(Command::Flush)),
        "settle" => Some(Request::Do(Command::Settle)),
        "durable" => Some(Request::Durable),
        "stats" => Some(Request::Stats),
        "clean" => Some(Request::Do(Command::Clean)),
        "add" => Some(Request::Do(Command::Add)),
        "reopen" => Some(Request::Reopen),
        "quit" => Some(Request::Quit),
        _ => None,
    }
}

/// What the words of a line ask for.
fn request_in(
    name: &str,
    words: &mut SplitWhitespace<'_>,
    reading: Reading,
) -> Result<Request, Fault> {
    match name {
        "put" | "del" | "group" => {
            let group = group_of(reading, ops_of(name, words)?)?;
            Ok(Request::Do(Command::Put(0, group)))
        }
        "get" | "next" | "prev" | "below" | "page" | "evict" | "rewrite" | "walk" | "backup" => {
            request_of(name, single(words.next(), words.next())?, reading)
        }
        "scan" => scan_of(words, reading),
        "incr" | "cas" | "setnx" | "rename" => if_of(name, words, reading),
        _ => alone(plain_of(name), words.next()),
    }
}

/// What a line asks for. A line that a script would skip is no command here, since each line has an
/// answer. What is no request is a fault; a refused growth is refused.
pub fn parse_request(alloc: Global, line: &[u8], reading: Reading) -> Result<Request, Miss> {
    let mut words = text_of(line)?.unwrap_or("").split_whitespace();
    let name = words.next().unwrap_or("");
    match name {
        "gets" => gets_of(alloc, &mut words, reading),
        "puts" => puts_of(alloc, &mut words, reading),
        _ => Ok(request_in(name, &mut words, reading)?),
    }
}
