//! One line of a shell: words as a person types them, with quotes and escapes, and what they ask
//! for.

use crate::request::{Condition, MOST_PAIRS, Request};
use crate::script::{Command, LONGEST, number_of};
use bw_codec::{Key, Record, Value};
use bw_pairs::{LineFault, key_from, key_of, value_from, value_of};
use bw_ring::Group;
use std::alloc::{AllocError, AllocFailed, Global};
use std::fmt::{self, Display, Formatter};

/// How many pairs a walk has that does not say how many.
const SOME_PAIRS: u32 = 20;

/// Why a line asks for nothing that a shell does.
#[derive(Debug, Clone, Copy, PartialEq, Eq)]
pub enum NotTyped {
    /// A growth was refused.
    NoMemory,
    LineTooLong,
    /// A quote has no end.
    OpenQuote,
    /// What stands after a backslash is no escape.
    BadEscape,
    UnknownCommand,
    WrongNumberOfWords,
    /// It is no number of 1 to `MOST_PAIRS`.
    BadNumber,
    /// A word is no key or value.
    Word(LineFault),
}

impl Display for NotTyped {
    fn fmt<W: fmt::Write>(&self, f: &mut Formatter<W>) -> fmt::Result {
        match self {
            NotTyped::NoMemory => write!(f, "no memory"),
            NotTyped::LineTooLong => write!(f, "line too long"),
            NotTyped::OpenQuote => write!(f, "a quote without its end"),
            NotTyped::BadEscape => write!(f, "bad escape"),
            NotTyped::UnknownCommand => write!(f, "unknown command"),
            NotTyped::WrongNumberOfWords => write!(f, "wrong number of words"),
            NotTyped::BadNumber => write!(f, "bad number"),
            NotTyped::Word(fault) => write!(f, "{fault}"),
        }
    }
}

impl From<AllocError> for NotTyped {
    fn from(_error: AllocError) -> NotTyped {
        NotTyped::NoMemory
    }
}

impl<T: Drop> From<AllocFailed<T>> for NotTyped {
    fn from(_error: AllocFailed<T>) -> NotTyped {
        NotTyped::NoMemory
    }
}

impl From<LineFault> for NotTyped {
    fn from(fault: LineFault) -> NotTyped {
        NotTyped::Word(fault)
    }
}

/// What a line asks for.
#[derive(Drop)]
pub enum Typed {
    Nothing,
    Request(Request),
    /// All pairs whose keys begin so.
    List(Option<Key>),
    Help,
    Quit,
}

/// A word of a line.
#[derive(Drop)]
struct Word {
    bytes: Vec<u8>,
    /// Whether it has a quote or an escape: then it is its own bytes, also if these begin with
    /// `0x`.
    is_quoted: bool,
}

impl Word {
    fn key(&self) -> Result<Key, NotTyped> {
        let bytes = self.bytes.as_slice();
        let key = if self.is_quoted {
            key_from(bytes)
        } else {
            key_of(bytes)
        };
        Ok(key?)
    }

    fn value(&self) -> Result<Value, NotTyped> {
        let bytes = self.bytes.as_slice();
        let value = if self.is_quoted {
            value_from(bytes)
        } else {
            value_of(bytes)
        };
        Ok(value?)
    }

    fn text(&self) -> &str {
        std::str::from_utf8(self.bytes.as_slice()).unwrap_or("")
    }

    /// A number of pairs.
    fn count(&self) -> Result<u32, NotTyped> {
        match number_of(self.text()) {
            Ok(count @ 1..=MOST_PAIRS) => Ok(count),
            _ => Err(NotTyped::BadNumber),
        }
    }
}

/// Where in a line its reader stands.
#[derive(Clone, Copy, PartialEq, Eq)]
enum At {
    /// Between words, or within one that is not quoted.
    Bare,
    /// Between single quotes, in which there is no escape.
    Single,
    /// Between double quotes.
    Double,
}

/// Where in an escape it stands.
#[derive(Clone, Copy)]
enum Escape {
    /// In none.
    Outside,
    /// After the backslash.
    Begun,
    /// After `\x`.
    Digits,
    /// After its first digit, which this is.
    Half(u8),
}

/// The words of a line, as far as it was read.
#[derive(Drop)]
struct Reader {
    alloc: Global,
    words: Vec<Word>,
    /// The word in the making, if one was begun.
    word: Option<Word>,
    at: At,
    escape: Escape,
}

/// The byte that a letter after a backslash stands for.
fn escaped(letter: u8) -> Result<u8, NotTyped> {
    match letter {
        b'n' => Ok(b'\n'),
        b't' => Ok(b'\t'),
        b'r' => Ok(b'\r'),
        b'0' => Ok(0),
        b'\\' | b'"' | b'\'' | b' ' => Ok(letter),
        _ => Err(NotTyped::BadEscape),
    }
}

/// The value of a hex digit.
fn digit_of(letter: u8) -> Result<u8, NotTyped> {
    match letter {
        b'0'..=b'9' => Ok(letter - b'0'),
        b'a'..=b'f' => Ok(letter - b'a' + 10),
        b'A'..=b'F' => Ok(letter - b'A' + 10),
        _ => Err(NotTyped::BadEscape),
    }
}

impl Reader {
    fn new(alloc: Global) -> Reader {
        Reader {
            alloc,
            words: Vec::new(alloc),
            word: None,
            at: At::Bare,
            escape: Escape::Outside,
        }
    }

    /// Begins a word, if none is, or notes that the one that was begun is quoted.
    fn begin(&mut self, is_quoted: bool) {
        match &mut self.word {
            Some(word) => word.is_quoted |= is_quoted,
            None => {
                self.word = Some(Word {
                    bytes: Vec::new(self.alloc),
                    is_quoted,
                });
            }
        }
    }

    /// A byte more of a word.
    fn push(&mut self, byte: u8) -> Result<(), NotTyped> {
        self.begin(false);
        if let Some(word) = &mut self.word {
            word.bytes.push(byte)?;
        }
        Ok(())
    }

    /// Ends the word, if one was begun.
    fn end_word(&mut self) -> Result<(), NotTyped> {
        if let Some(word) = self.word.take() {
            self.words.push(word)?;
        }
        Ok(())
    }

    /// Begins quotes, or an escape.
    fn quote(&mut self, at: At, escape: Escape) {
        self.begin(true);
        self.at = at;
        self.escape = escape;
    }

    /// Reads a letter outside of quotes.
    fn take_bare(&mut self, letter: u8) -> Result<(), NotTyped> {
        match letter {
            b' ' | b'\t' => self.end_word(),
            b'\'' => {
                self.quote(At::Single, Escape::Outside);
                Ok(())
            }
            b'"' => {
                self.quote(At::Double, Escape::Outside);
                Ok(())
            }
            b'\\' => {
                self.quote(At::Bare, Escape::Begun);
                Ok(())
            }
            letter => self.push(letter),
        }
    }

    /// Reads a letter between quotes.
    fn take_quoted(&mut self, letter: u8) -> Result<(), NotTyped> {
        match (self.at, letter) {
            (At::Single, b'\'') | (At::Double, b'"') => {
                self.at = At::Bare;
                Ok(())
            }
            (At::Double, b'\\') => {
                self.escape = Escape::Begun;
                Ok(())
            }
            _ => self.push(letter),
        }
    }

    /// Reads a letter of an escape that was begun.
    fn take_escaped(&mut self, letter: u8) -> Result<(), NotTyped> {
        if letter == b'x' {
            self.escape = Escape::Digits;
            return Ok(());
        }
        self.escape = Escape::Outside;
        self.push(escaped(letter)?)
    }

    /// Reads a letter.
    fn take(&mut self, letter: u8) -> Result<(), NotTyped> {
        match self.escape {
            Escape::Begun => self.take_escaped(letter),
            Escape::Digits => {
                self.escape = Escape::Half(digit_of(letter)?);
                Ok(())
            }
            Escape::Half(first) => {
                self.escape = Escape::Outside;
                self.push((first & 0x0f) << 4 | digit_of(letter)?)
            }
            Escape::Outside if self.at == At::Bare => self.take_bare(letter),
            Escape::Outside => self.take_quoted(letter),
        }
    }

    /// The words of all that was read.
    fn finished(mut self) -> Result<Vec<Word>, NotTyped> {
        if self.at != At::Bare {
            return Err(NotTyped::OpenQuote);
        }
        if !matches!(self.escape, Escape::Outside) {
            return Err(NotTyped::BadEscape);
        }
        self.end_word()?;
        Ok(self.words)
    }
}

/// The words of a line.
fn words_of(alloc: Global, line: &[u8]) -> Result<Vec<Word>, NotTyped> {
    if line.len() > LONGEST as usize {
        return Err(NotTyped::LineTooLong);
    }
    let mut reader = Reader::new(alloc);
    for letter in line {
        reader.take(*letter)?;
    }
    reader.finished()
}

/// A put or a delete.
fn change(item: Record) -> Typed {
    Typed::Request(Request::Do(Command::Put(0, Group::one(item))))
}

/// What a command asks for that has no word after it.
fn plain_of(name: &str) -> Result<Typed, NotTyped> {
    match name {
        "count" => Ok(Typed::Request(Request::Count)),
        "stats" => Ok(Typed::Request(Request::Stats)),
        "list" => Ok(Typed::List(None)),
        "help" => Ok(Typed::Help),
        "quit" => Ok(Typed::Quit),
        "put" | "get" | "del" | "scan" | "prev" | "rename" => Err(NotTyped::WrongNumberOfWords),
        _ => Err(NotTyped::UnknownCommand),
    }
}

/// What each key begins with. A word that stands for no byte says nothing.
fn prefix_of(word: &Word) -> Result<Option<Key>, NotTyped> {
    if word.bytes.is_empty() {
        return Ok(None);
    }
    Ok(Some(word.key()?))
}

/// What a command asks for with one word after it.
fn single_of(name: &str, word: &Word) -> Result<Typed, NotTyped> {
    match name {
        "get" => Ok(Typed::Request(Request::Do(Command::Get(word.key()?)))),
        "del" => Ok(change(Record::Del(word.key()?))),
        "prev" => Ok(Typed::Request(Request::Prev(word.key()?))),
        "scan" => Ok(Typed::Request(Request::Scan(word.key()?, SOME_PAIRS))),
        "list" => Ok(Typed::List(prefix_of(word)?)),
        name => Err(too_many(name)),
    }
}

/// What a command asks for with two words after it.
fn double_of(name: &str, one: &Word, two: &Word) -> Result<Typed, NotTyped> {
    match name {
        "put" => Ok(change(Record::Put(one.key()?, two.value()?))),
        "scan" => Ok(Typed::Request(Request::Scan(one.key()?, two.count()?))),
        "rename" => Ok(Typed::Request(Request::If(Condition::Rename(one.key()?, two.key()?)))),
        name => Err(too_many(name)),
    }
}

/// Why a command with this many words asks for nothing.
fn too_many(name: &str) -> NotTyped {
    match plain_of(name) {
        Err(NotTyped::UnknownCommand) => NotTyped::UnknownCommand,
        _ => NotTyped::WrongNumberOfWords,
    }
}

/// What a line asks for. A word that is not quoted and begins with `0x` is hex, and any other is
/// its own bytes.
pub fn parse_typed(alloc: Global, line: &[u8]) -> Result<Typed, NotTyped> {
    let words = words_of(alloc, line)?;
    match words.as_slice() {
        [] => Ok(Typed::Nothing),
        [name] => plain_of(name.text()),
        [name, word] => single_of(name.text(), word),
        [name, one, two] => double_of(name.text(), one, two),
        [name, ..] => Err(too_many(name.text())),
    }
}
