//! What is done with the keys of a folder.

use crate::changes::{Changed, Import, del, del_all, import_pairs, put};
use crate::fault::KeysFault;
use crate::listing::{Listing, Order, Style};
use crate::pages::ask_in;
use crate::reading::{CountOf, PairsOf, ValueOf, ValuesOf};
use crate::span::Span;
use bw_codec::limits::MAX_VALUE;
use bw_codec::{Key, Record, Value};
use bw_home::System;
use bw_look::Watch;
use bw_pairs::{
    PairsFault, Spelling, key_from, key_of, value_from, value_of, write_line, write_word,
};
use std::alloc::Global;
use std::collections::VecDeque;
use std::io::{Read, Write};

/// A stretch of keys, by words of the command line.
#[derive(Debug, Clone, Copy)]
pub struct Range<'a> {
    /// The least key.
    pub from: Option<&'a str>,
    /// The least key above it that is not meant.
    pub to: Option<&'a str>,
    /// What each key begins with.
    pub prefix: Option<&'a str>,
}

/// Which pairs are listed, by words of the command line.
#[derive(Debug, Clone, Copy)]
pub struct Listed<'a> {
    pub range: Range<'a>,
    /// How many pairs are printed at most.
    pub limit: u64,
    /// Only so many with the greatest keys are meant.
    pub last: u64,
    /// Whether the greatest key comes first.
    pub reverse: bool,
    pub style: Style,
}

/// What is done with the keys of a folder, by words of the command line.
#[derive(Debug, Drop)]
pub enum Task<'a> {
    /// A value, or `-` for all bytes of the input; whether the words are their own bytes.
    Put(&'a str, &'a str, bool),
    /// The values of these keys.
    Get(Vec<&'a str>, Spelling),
    /// These keys are deleted.
    Del(Vec<&'a str>),
    /// All keys of a stretch are.
    DelAll(Range<'a>),
    List(Listed<'a>),
    Count(Range<'a>),
    Import(Import),
    Export(Range<'a>, Style),
}

impl Task<'_> {
    /// Whether it reads the input.
    pub fn reads_input(&self) -> bool {
        match self {
            Task::Import(_) => true,
            Task::Put(_, value, _) => *value == "-",
            _ => false,
        }
    }
}

/// What a task came to.
#[derive(Debug, Drop)]
pub enum Told {
    /// It is done.
    Done,
    /// The key has no value.
    NoValue,
    /// The keys have no value whose words stand at these positions among those that were given.
    NoValues(Vec<usize>),
    /// What a change came to.
    Changed(Changed),
}

/// A key by its word on the command line.
fn key_by(name: &'static str, word: &str) -> Result<Key, KeysFault> {
    key_of(word.as_bytes()).map_err(|fault| KeysFault::Word(name, fault))
}

/// A key to be put, by its word on the command line, which may be its own bytes.
fn put_key_by(word: &str, is_raw: bool) -> Result<Key, KeysFault> {
    if !is_raw {
        return key_by("KEY", word);
    }
    key_from(word.as_bytes()).map_err(|fault| KeysFault::Word("KEY", fault))
}

/// What each key begins with. A word that stands for no byte says nothing.
fn prefix_by(word: Option<&str>) -> Result<Option<Key>, KeysFault> {
    match word {
        Some("" | "0x") => Ok(None),
        word => some_key_by("--prefix", word),
    }
}

/// The key of a word, if there is one.
fn some_key_by(name: &'static str, word: Option<&str>) -> Result<Option<Key>, KeysFault> {
    match word {
        Some(word) => Ok(Some(key_by(name, word)?)),
        None => Ok(None),
    }
}

/// All bytes of the input, as a value.
fn value_in<I: Read>(alloc: Global, input: &mut I) -> Result<Value, KeysFault> {
    let mut bytes = Vec::new(alloc);
    // One more than the longest shows that there are too many.
    let mut front = input.take(MAX_VALUE as u64 + 1);
    let _ = front.read_to_end(&mut bytes).map_err(PairsFault::of_read)?;
    value_from(bytes.as_slice()).map_err(|fault| KeysFault::Word("VALUE", fault))
}

/// A value by its word on the command line, which may be its own bytes.
fn value_by<I: Read>(
    alloc: Global,
    word: &str,
    is_raw: bool,
    input: &mut I,
) -> Result<Value, KeysFault> {
    if word == "-" {
        return value_in(alloc, input);
    }
    let bytes = word.as_bytes();
    let value = if is_raw {
        value_from(bytes)
    } else {
        value_of(bytes)
    };
    value.map_err(|fault| KeysFault::Word("VALUE", fault))
}

/// The keys of words.
fn keys_by(alloc: Global, words: &[&str]) -> Result<VecDeque<Key>, KeysFault> {
    let mut keys = VecDeque::new(alloc);
    for word in words {
        keys.push_back(key_by("KEY", *word)?)?;
    }
    Ok(keys)
}

/// Writes a value, and nothing else.
fn write_value<O: Write>(
    value: &Value,
    spelling: Spelling,
    output: &mut O,
) -> Result<(), KeysFault> {
    let written = if spelling == Spelling::Raw {
        write_word(output, spelling, value.as_slice())
    } else {
        write_line(output, spelling, value.as_slice())
    };
    written.map_err(KeysFault::of_output)
}

/// Writes the value of a key.
fn get<R: System, O: Write, W: Watch>(
    rt: &R,
    dir: &str,
    leases: u32,
    key: &Key,
    spelling: Spelling,
    output: &mut O,
    watch: &mut W,
) -> Result<Told, KeysFault> {
    let found = ask_in(rt, dir, leases, &mut ValueOf { key }, watch)?;
    watch.rest();
    match found {
        Some(value) => match value? {
            Some(value) => {
                write_value(&value, spelling, output)?;
                Ok(Told::Done)
            }
            None => Ok(Told::NoValue),
        },
        None => Ok(Told::NoValue),
    }
}

/// The values of these keys, in a folder.
fn values_in<R: System, W: Watch>(
    rt: &R,
    dir: &str,
    leases: u32,
    keys: &VecDeque<Key>,
    watch: &mut W,
) -> Result<Vec<Option<Value>>, KeysFault> {
    match ask_in(rt, dir, leases, &mut ValuesOf { keys }, watch)? {
        Some(values) => values,
        None => Ok(Vec::new(rt.alloc())),
    }
}

/// Writes a line for each of these keys that has a value, and answers the positions of the others.
fn get_all<R: System, O: Write, W: Watch>(
    rt: &R,
    dir: &str,
    leases: u32,
    keys: &VecDeque<Key>,
    spelling: Spelling,
    output: &mut O,
    watch: &mut W,
) -> Result<Told, KeysFault> {
    let values = values_in(rt, dir, leases, keys, watch)?;
    watch.rest();
    let mut missing = Vec::new(rt.alloc());
    for position in 0..keys.len() {
        match values.as_slice().get(position) {
            Some(Some(value)) => {
                write_line(output, spelling, value.as_slice()).map_err(KeysFault::of_output)?;
            }
            _ => missing.push(position)?,
        }
    }
    Ok(Told::NoValues(missing))
}

/// Writes the values of the keys of these words. A single one is written as it is.
fn get_words<R: System, O: Write, W: Watch>(
    rt: &R,
    dir: &str,
    leases: u32,
    words: &[&str],
    spelling: Spelling,
    output: &mut O,
    watch: &mut W,
) -> Result<Told, KeysFault> {
    let keys = keys_by(rt.alloc(), words)?;
    match keys.front() {
        Some(key) if keys.len() == 1 => get(rt, dir, leases, key, spelling, output, watch),
        _ => get_all(rt, dir, leases, &keys, spelling, output, watch),
    }
}

/// Deletes the keys of these words. Of a single one it is not said whether it was there.
fn del_words<R: System, W: Watch>(
    rt: &R,
    dir: &str,
    leases: u32,
    words: &[&str],
    watch: &mut W,
) -> Result<Told, KeysFault> {
    let keys = keys_by(rt.alloc(), words)?;
    let is_one = keys.len() == 1;
    match del(rt, dir, leases, keys, watch)? {
        Changed::Deleted(_) if is_one => Ok(Told::Done),
        changed => Ok(Told::Changed(changed)),
    }
}

/// Writes how many pairs a stretch of keys has.
fn count<R: System, O: Write, W: Watch>(
    rt: &R,
    dir: &str,
    leases: u32,
    span: &Span,
    output: &mut O,
    watch: &mut W,
) -> Result<Told, KeysFault> {
    let mut asked = CountOf {
        alloc: rt.alloc(),
        span,
    };
    let count = match ask_in(rt, dir, leases, &mut asked, watch)? {
        Some(count) => count?,
        None => 0,
    };
    watch.rest();
    writeln!(output, "{count}").map_err(KeysFault::of_output)?;
    Ok(Told::Done)
}

/// Writes the pairs of a stretch of keys.
fn list<R: System, O: Write, W: Watch>(
    rt: &R,
    dir: &str,
    leases: u32,
    span: &Span,
    order: Order,
    output: &mut O,
    watch: &mut W,
) -> Result<Told, KeysFault> {
    let mut listed = PairsOf {
        alloc: rt.alloc(),
        span,
        order,
        output: &mut *output,
    };
    match ask_in(rt, dir, leases, &mut listed, watch)? {
        Some(listed) => listed?,
        // A folder in which nothing was ever durable has no pair.
        None => Listing::new(order, span).none(output)?,
    }
    Ok(Told::Done)
}

/// The stretch of keys that is meant.
fn span_of(range: &Range<'_>) -> Result<Span, KeysFault> {
    Ok(Span {
        from: some_key_by("--from", range.from)?,
        to: some_key_by("--to", range.to)?,
        prefix: prefix_by(range.prefix)?,
    })
}

/// The put of a key and a value, by their words on the command line.
fn put_by<I: Read>(
    alloc: Global,
    key: &str,
    value: &str,
    is_raw: bool,
    input: &mut I,
) -> Result<Record, KeysFault> {
    let key = put_key_by(key, is_raw)?;
    Ok(Record::Put(key, value_by(alloc, value, is_raw, input)?))
}

/// How pairs are listed.
fn order_of(listed: &Listed<'_>) -> Order {
    Order {
        style: listed.style,
        limit: listed.limit,
        last: listed.last,
        reverse: listed.reverse,
    }
}

/// The order in which pairs are exported, in this style.
fn ascending(style: Style) -> Order {
    Order {
        style,
        limit: u64::MAX,
        last: u64::MAX,
        reverse: false,
    }
}

/// Does a task over the keys of a folder, by so many leases at most. What it reads and prints comes
/// from this input and goes to this output, and a watch hears how far it is.
pub fn perform<R: System, I: Read, O: Write, W: Watch>(
    rt: &R,
    dir: &str,
    leases: u32,
    task: &Task<'_>,
    input: &mut I,
    output: &mut O,
    watch: &mut W,
) -> Result<Told, KeysFault> {
    match task {
        Task::Put(key, value, is_raw) => {
            let item = put_by(rt.alloc(), *key, *value, *is_raw, input)?;
            let _ = put(rt, dir, leases, item, watch)?;
            Ok(Told::Done)
        }
        Task::Get(words, spelling) => {
            let words = words.as_slice();
            get_words(rt, dir, leases, words, *spelling, output, watch)
        }
        Task::Del(words) => del_words(rt, dir, leases, words.as_slice(), watch),
        Task::DelAll(range) => {
            let span = span_of(range)?;
            Ok(Told::Changed(del_all(rt, dir, leases, span, watch)?))
        }
        Task::List(listed) => {
            let span = span_of(&listed.range)?;
            list(rt, dir, leases, &span, order_of(listed), output, watch)
        }
        Task::Count(range) => count(rt, dir, leases, &span_of(range)?, output, watch),
        Task::Import(wanted) => {
            let changed = import_pairs(rt, dir, leases, input, *wanted, watch)?;
            Ok(Told::Changed(changed))
        }
        Task::Export(range, style) => {
            let span = span_of(range)?;
            list(rt, dir, leases, &span, ascending(*style), output, watch)
        }
    }
}
