//! One line of a script: a command, nothing, or a fault.

use bw_codec::limits::MAX_VALUE;
use bw_codec::{Key, Record, Value};
use bw_ring::Group;
use std::str::SplitWhitespace;
use thiserror::Error;

/// The most bytes of a line that is not skipped.
pub const LONGEST: u32 = 4096;

/// Why a line is no command, or no segment of a scan. If a line has two faults, the one that stands
/// first here is the answer.
#[derive(Debug, Clone, Copy, Error)]
pub enum Fault {
    /// Over 4,096 bytes; of a scan over 2,097,152.
    #[error("line too long")]
    LineTooLong,
    /// A byte outside 0x20 to 0x7e.
    #[error("bad byte")]
    BadByte,
    /// The first word is no command.
    #[error("unknown command")]
    UnknownCommand,
    /// The command takes more words, or fewer.
    #[error("wrong number of words")]
    WrongNumberOfWords,
    /// A number's word is no number, or out of range there.
    #[error("bad number")]
    BadNumber,
    /// A key's or value's word is no hex, or of a length out of range; a line of a scan is no hex.
    #[error("bad word")]
    BadWord,
    /// The changes of a batch have over 64 MiB together.
    #[error("batch too long")]
    BatchTooLong,
}

/// How a word gives its bytes.
#[derive(Debug, Clone, Copy, PartialEq, Eq)]
pub enum Reading {
    /// They are its own, or those of its hex digits after `0x`.
    Words,
    /// They are its own, whatever these are.
    Raw,
}

/// What a line asks for.
#[derive(Drop)]
pub enum Command {
    /// A writer puts a group: a single put or delete is a group of one.
    Put(usize, Group),
    /// At most so many groups are taken.
    Turn(u32),
    /// All that waits is taken, and the frame in the making is appended.
    Flush,
    /// All that was accepted is taken and appended.
    Settle,
    /// A page is printed.
    Page(u32),
    /// A key's value is printed.
    Get(Key),
    /// A page leaves memory.
    Evict(u32),
    /// A page is written again, whole.
    Rewrite(u32),
    /// From how many frames a page is read.
    Walk(u32),
    /// The oldest segment is given up.
    Clean,
    /// The current segment is closed.
    Roll,
    /// A spare is added.
    Add,
    History,
    Cuts,
    Segments,
    Leases,
    /// A segment's bytes are printed.
    Dump(u32),
}

impl Command {
    /// Whether its answer is a receipt, for which whoever writes the lines may wait.
    pub fn is_receipt(&self) -> bool {
        matches!(self, Command::Flush | Command::Settle | Command::Clean)
    }
}

/// A number of decimal digits.
pub fn number_of(word: &str) -> Result<u32, Fault> {
    if !word.bytes().all(|byte| byte.is_ascii_digit()) {
        return Err(Fault::BadNumber);
    }
    word.parse().map_err(|_| Fault::BadNumber)
}

/// A writer's number.
fn writer_of(word: &str, writers: usize) -> Result<usize, Fault> {
    let writer = number_of(word)? as usize;
    if writer < writers {
        Ok(writer)
    } else {
        Err(Fault::BadNumber)
    }
}

/// The bytes that a word stands for in this reading; those of hex digits come to the front of
/// `room`. The room is enough for a value, and a key is shorter.
pub fn bytes_of<'a>(
    reading: Reading,
    word: &'a [u8],
    room: &'a mut [u8; MAX_VALUE],
) -> Result<&'a [u8], Fault> {
    if reading == Reading::Raw || !word.starts_with(b"0x") {
        return Ok(word);
    }
    let digits = &word[2..];
    let count = digits.len() / 2;
    if count > MAX_VALUE {
        return Err(Fault::BadWord);
    }
    match hex::decode_to_slice(digits, &mut room[..count]) {
        Ok(()) => Ok(&room[..count]),
        Err(_) => Err(Fault::BadWord),
    }
}

pub fn key_of(reading: Reading, word: &str) -> Result<Key, Fault> {
    let mut room = [0u8; MAX_VALUE];
    let bytes = bytes_of(reading, word.as_bytes(), &mut room)?;
    Key::new(bytes).map_err(|_| Fault::BadWord)
}

pub fn value_of(reading: Reading, word: &str) -> Result<Value, Fault> {
    let mut room = [0u8; MAX_VALUE];
    let bytes = bytes_of(reading, word.as_bytes(), &mut room)?;
    Value::new(bytes).map_err(|_| Fault::BadWord)
}

/// The words of one put or delete.
#[derive(Clone, Copy)]
pub enum OpWords<'a> {
    /// Key and value.
    Put(&'a str, &'a str),
    /// The key.
    Del(&'a str),
}

/// The words of one to four puts and deletes, from the left. There are none after one that is not
/// there.
#[derive(Clone, Copy)]
pub struct Ops<'a> {
    first: OpWords<'a>,
    second: Option<OpWords<'a>>,
    third: Option<OpWords<'a>>,
    fourth: Option<OpWords<'a>>,
}

/// A put or delete, by the words after its name.
fn op_of<'a>(name: &str, words: &mut SplitWhitespace<'a>) -> Result<OpWords<'a>, Fault> {
    let Some(key) = words.next() else {
        return Err(Fault::WrongNumberOfWords);
    };
    match (name, words) {
        ("del", _) => Ok(OpWords::Del(key)),
        ("put", words) => match words.next() {
            Some(value) => Ok(OpWords::Put(key, value)),
            None => Err(Fault::WrongNumberOfWords),
        },
        _ => Err(Fault::WrongNumberOfWords),
    }
}

/// The next put or delete of a group, if there is a further word.
fn next_op<'a>(words: &mut SplitWhitespace<'a>) -> Result<Option<OpWords<'a>>, Fault> {
    match words.next() {
        Some(name) => Ok(Some(op_of(name, words)?)),
        None => Ok(None),
    }
}

/// The puts and deletes of a group, by all words after the writer.
fn grouped_of<'a>(words: &mut SplitWhitespace<'a>) -> Result<Ops<'a>, Fault> {
    let Some(first) = next_op(words)? else {
        return Err(Fault::WrongNumberOfWords);
    };
    let second = next_op(words)?;
    let third = next_op(words)?;
    let fourth = next_op(words)?;
    Ok(Ops {
        first,
        second,
        third,
        fourth,
    })
}

/// What a line of this name puts and deletes, by all words after the writer.
pub fn ops_of<'a>(name: &str, words: &mut SplitWhitespace<'a>) -> Result<Ops<'a>, Fault> {
    let ops = match name {
        "group" => grouped_of(words)?,
        _ => Ops {
            first: op_of(name, words)?,
            second: None,
            third: None,
            fourth: None,
        },
    };
    match words.next() {
        Some(_) => Err(Fault::WrongNumberOfWords),
        None => Ok(ops),
    }
}

fn record_of(reading: Reading, op: OpWords<'_>) -> Result<Record, Fault> {
    match op {
        OpWords::Put(key, value) => Ok(Record::Put(
            key_of(reading, key)?,
            value_of(reading, value)?,
        )),
        OpWords::Del(key) => Ok(Record::Del(key_of(reading, key)?)),
    }
}

/// The put or delete of these words goes into the group, if it is there.
fn push_op(group: &mut Group, reading: Reading, op: Option<OpWords<'_>>) -> Result<(), Fault> {
    let Some(op) = op else {
        return Ok(());
    };
    match group.push(record_of(reading, op)?) {
        Ok(()) => Ok(()),
        Err(_) => Err(Fault::WrongNumberOfWords),
    }
}

/// The group of these words; the first of them from the left that is wrong is the fault.
pub fn group_of(reading: Reading, ops: Ops<'_>) -> Result<Group, Fault> {
    let mut group = Group::one(record_of(reading, ops.first)?);
    push_op(&mut group, reading, ops.second)?;
    push_op(&mut group, reading, ops.third)?;
    push_op(&mut group, reading, ops.fourth)?;
    Ok(group)
}

/// What a writer puts in a line of this name. The words are counted before any is looked at.
fn put_of(
    name: &str,
    words: &mut SplitWhitespace<'_>,
    writers: usize,
    reading: Reading,
) -> Result<Command, Fault> {
    let Some(writer) = words.next() else {
        return Err(Fault::WrongNumberOfWords);
    };
    let ops = ops_of(name, words)?;
    let writer = writer_of(writer, writers)?;
    Ok(Command::Put(writer, group_of(reading, ops)?))
}

/// The word of a command that takes one.
pub fn single<'a>(one: Option<&'a str>, two: Option<&'a str>) -> Result<&'a str, Fault> {
    match (one, two) {
        (Some(word), None) => Ok(word),
        _ => Err(Fault::WrongNumberOfWords),
    }
}

/// The command of a name that takes one word, a key or a number.
pub fn asked_of(name: &str, word: &str, reading: Reading) -> Result<Command, Fault> {
    if name == "get" {
        return Ok(Command::Get(key_of(reading, word)?));
    }
    let number = number_of(word)?;
    match name {
        "turn" => Ok(Command::Turn(number)),
        "page" => Ok(Command::Page(number)),
        "evict" => Ok(Command::Evict(number)),
        "rewrite" => Ok(Command::Rewrite(number)),
        "walk" => Ok(Command::Walk(number)),
        _ => Ok(Command::Dump(number)),
    }
}

/// What a name asks for that takes no word, if it is known.
pub fn alone<T: Drop>(asked: Option<T>, one: Option<&str>) -> Result<T, Fault> {
    match (asked, one) {
        (None, _) => Err(Fault::UnknownCommand),
        (Some(asked), None) => Ok(asked),
        (Some(_), Some(_)) => Err(Fault::WrongNumberOfWords),
    }
}

/// The command of a name that takes no word.
fn plain_of(name: &str) -> Option<Command> {
    match name {
        "flush" => Some(Command::Flush),
        "settle" => Some(Command::Settle),
        "clean" => Some(Command::Clean),
        "roll" => Some(Command::Roll),
        "add" => Some(Command::Add),
        "history" => Some(Command::History),
        "cuts" => Some(Command::Cuts),
        "segments" => Some(Command::Segments),
        "leases" => Some(Command::Leases),
        _ => None,
    }
}

/// The command of words that are parted by spaces.
fn command_of(text: &str, writers: usize, reading: Reading) -> Result<Command, Fault> {
    let mut words = text.split_whitespace();
    let name = words.next().unwrap_or("");
    match name {
        "put" | "del" | "group" => put_of(name, &mut words, writers, reading),
        "turn" | "page" | "evict" | "rewrite" | "walk" | "dump" | "get" => {
            asked_of(name, single(words.next(), words.next())?, reading)
        }
        _ => alone(plain_of(name), words.next()),
    }
}

/// Whether all bytes are those of plain text on one line: 0x20 to 0x7e.
pub fn are_printable(line: &[u8]) -> bool {
    line.iter().all(|byte| matches!(*byte, 0x20..=0x7e))
}

/// A line as text: nothing if it is empty or begins with `#`, whatever its length.
pub fn text_of(line: &[u8]) -> Result<Option<&str>, Fault> {
    text_up_to(line, LONGEST)
}

/// A line of at most so many bytes as text: nothing if it is empty or begins with `#`.
pub fn text_up_to(line: &[u8], longest: u32) -> Result<Option<&str>, Fault> {
    if line.is_empty() || line.starts_with(b"#") {
        return Ok(None);
    }
    if line.len() > longest as usize {
        return Err(Fault::LineTooLong);
    }
    if !are_printable(line) {
        return Err(Fault::BadByte);
    }
    match std::str::from_utf8(line) {
        Ok(text) => Ok(Some(text)),
        Err(_) => Err(Fault::BadByte),
    }
}

/// What a line asks for, if there are so many writers; nothing if it is skipped.
pub fn parse(line: &[u8], writers: usize, reading: Reading) -> Result<Option<Command>, Fault> {
    match text_of(line)? {
        Some(text) => Ok(Some(command_of(text, writers, reading)?)),
        None => Ok(None),
    }
}

/// A writer and what it puts, if a line may ask for nothing else; nothing if it is skipped.
pub fn parse_group(line: &[u8], writers: usize) -> Result<Option<(usize, Group)>, Fault> {
    let Some(text) = text_of(line)? else {
        return Ok(None);
    };
    match text.split_whitespace().next().unwrap_or("") {
        "put" | "del" | "group" => match command_of(text, writers, Reading::Words)? {
            Command::Put(writer, group) => Ok(Some((writer, group))),
            _ => Err(Fault::UnknownCommand),
        },
        _ => Err(Fault::UnknownCommand),
    }
}
