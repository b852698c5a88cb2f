//! What the words of a command line stand for.

use crate::fault::of_word;
use bw_codec::Key;
use bw_keys::{KeysFault, Range, Span};
use bw_pairs::{
    LineFault, PairsFault, WordFault, limited, long_from, long_of, name_of, row_key_from,
    row_key_of,
};
use bw_rows::limits::MAX_LEN;
use bw_rows::{Name, RowKey};
use std::alloc::Global;
use std::collections::VecDeque;
use std::io::Read;

/// The name of a table.
pub fn name_by(word: &str) -> Result<Name, KeysFault> {
    name_of(word.as_bytes()).map_err(|fault| KeysFault::Word("NAME", fault))
}

/// A key, by its word.
pub fn key_by(name: &'static str, word: &str) -> Result<RowKey, KeysFault> {
    row_key_of(word.as_bytes()).map_err(|fault| KeysFault::Word(name, fault))
}

/// A key to be put, by its word, which may be its own bytes.
pub fn put_key_by(word: &str, is_raw: bool) -> Result<RowKey, KeysFault> {
    if !is_raw {
        return key_by("KEY", word);
    }
    row_key_from(word.as_bytes()).map_err(|fault| KeysFault::Word("KEY", fault))
}

/// The keys of words.
pub fn keys_by(alloc: Global, words: &[&str]) -> Result<VecDeque<RowKey>, KeysFault> {
    let mut keys = VecDeque::new(alloc);
    for word in words {
        keys.push_back(key_by("KEY", *word)?)?;
    }
    Ok(keys)
}

/// All bytes of the input, as a value.
fn value_in<I: Read>(alloc: Global, input: &mut I) -> Result<Vec<u8>, KeysFault> {
    let mut bytes = Vec::new(alloc);
    // One more than the longest shows that there are too many.
    let mut front = input.take(MAX_LEN as u64 + 1);
    let _ = front.read_to_end(&mut bytes).map_err(PairsFault::of_read)?;
    limited(bytes).map_err(|fault| of_word("VALUE", fault))
}

/// A value by its word, which may be its own bytes, or say that it is the input.
pub fn value_by<I: Read>(
    alloc: Global,
    word: &str,
    is_raw: bool,
    input: &mut I,
) -> Result<Vec<u8>, KeysFault> {
    if word == "-" {
        return value_in(alloc, input);
    }
    let bytes = word.as_bytes();
    let value = if is_raw {
        long_from(alloc, bytes)
    } else {
        long_of(alloc, bytes)
    };
    value.map_err(|fault| of_word("VALUE", fault))
}

/// A key of a table as one of a stretch of keys.
fn bound_by(name: &'static str, word: &str) -> Result<Key, KeysFault> {
    let key = key_by(name, word)?;
    match Key::new(key.as_slice()) {
        Ok(key) => Ok(key),
        Err(_) => Err(of_word(name, WordFault::Line(LineFault::BadRowKey))),
    }
}

/// The key of a bound, if one is given.
fn some_bound_by(name: &'static str, word: Option<&str>) -> Result<Option<Key>, KeysFault> {
    match word {
        Some(word) => Ok(Some(bound_by(name, word)?)),
        None => Ok(None),
    }
}

/// What each key begins with. A word that stands for no byte says nothing.
fn prefix_by(word: Option<&str>) -> Result<Option<Key>, KeysFault> {
    match word {
        Some("" | "0x") => Ok(None),
        word => some_bound_by("--prefix", word),
    }
}

/// The stretch of keys that is meant.
pub fn span_of(range: &Range<'_>) -> Result<Span, KeysFault> {
    Ok(Span {
        from: some_bound_by("--from", range.from)?,
        to: some_bound_by("--to", range.to)?,
        prefix: prefix_by(range.prefix)?,
    })
}

/// All keys.
pub fn whole() -> Span {
    Span {
        from: None,
        to: None,
        prefix: None,
    }
}
