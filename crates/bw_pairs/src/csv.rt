//! A pair as a line of CSV: key, comma, value. What has a comma or a quote in it stands between
//! quotes, and what is no text in hex after `0x`, without quotes.

ghost use Rattle.std.specs.Prelude.{◌≡◌, ◌≤◌, ◌<◌, [], ◌∷◌, ◌++◌, ◌&&◌, ◌==◌, List, ℕ, Some, true, false, length, IsOk, OnOk, OnErr, IfOk, IfSome, flat_map, option_copied};
ghost use Rattle.std.specs.List.{list_any};
ghost use Rattle.std.specs.Io.KnownBytes.{Appends};
ghost use Rattle.std.specs.Result.{result_ok};
ghost use Rattle.bw_pairs.specs.Csv.{is_apart, doubled, quoted, field, lone_field, csv_line, onto, field_from, is_outside, is_closed, read_of, field_key, field_value, put_behind, csv_put, csv_del};

use crate::buffer::Buffer;
use crate::fault::LineFault;
use crate::spelling::{Spelling, is_text, key_from, key_of, value_from, value_of, write_word};
use arrayvec::ArrayVec;
use bw_codec::limits::MAX_VALUE;
use bw_codec::{Key, Record, Value};
use std::io::{self, Write};

/// More bytes than the word of the longest value has.
const LONGEST: usize = 2 * MAX_VALUE + 2;

// ---- out

/// Writes a byte between quotes: a quote twice.
fn write_doubled<O: Write>(output: &mut O, byte: u8) -> io::Result<()>
    ensures { OnOk result (Appends (O.contents output.old) (O.contents output.new) (doubled byte)) }
{
    if byte == b'"' {
        output.write_all(b"\"")?;
    }
    output.write_all(&[byte])
}

/// Writes bytes that stand between quotes.
fn write_within<O: Write>(output: &mut O, bytes: &[u8]) -> io::Result<()>
    ensures { OnOk result (Appends (O.contents output.old) (O.contents output.new)
        (flat_map doubled bytes.now)) }
{
    for byte in bytes {
        write_doubled(output, *byte)?;
    }
    Ok(())
}

/// Writes bytes between quotes.
fn write_quoted<O: Write>(output: &mut O, bytes: &[u8]) -> io::Result<()>
    ensures { OnOk result (Appends (O.contents output.old) (O.contents output.new)
        (quoted bytes.now)) }
{
    output.write_all(b"\"")?;
    write_within(output, bytes)?;
    output.write_all(b"\"")
}

/// Whether bytes have a comma or a quote.
fn is_apart(bytes: &[u8]) -> bool
    ensures { result ≡ list_any is_apart bytes.now }
{
    bytes.iter().any(|byte| *byte == b',' || *byte == b'"')
}

/// Writes a field.
fn write_field<O: Write>(output: &mut O, bytes: &[u8]) -> io::Result<()>
    ensures { OnOk result (Appends (O.contents output.old) (O.contents output.new)
        (field bytes.now)) }
{
    if is_apart(bytes) && is_text(bytes) {
        return write_quoted(output, bytes);
    }
    write_word(output, Spelling::Words, bytes)
}

/// Writes only a key or a value, and an end of line. A line without a field would be none.
pub fn write_csv_field<O: Write>(output: &mut O, bytes: &[u8]) -> io::Result<()>
    ensures { OnOk result (Appends (O.contents output.old) (O.contents output.new)
        (lone_field bytes.now ++ 10 ∷ [])) }
{
    if bytes.is_empty() {
        return output.write_all(b"\"\"\n");
    }
    write_field(output, bytes)?;
    output.write_all(b"\n")
}

/// Writes the line of a pair.
pub fn write_csv<O: Write>(output: &mut O, key: &[u8], value: &[u8]) -> io::Result<()>
    ensures { OnOk result (Appends (O.contents output.old) (O.contents output.new)
        (csv_line (key.now, value.now) ++ 10 ∷ [])) }
{
    write_field(output, key)?;
    output.write_all(b",")?;
    write_field(output, value)?;
    output.write_all(b"\n")
}

// ---- in

/// Where in a field a reader stands.
#[derive(Clone, Copy, PartialEq, Eq)]
enum At {
    /// Before it.
    Begin,
    /// In one without quotes.
    Bare,
    /// Between quotes.
    Quoted,
    /// After a quote, which ends it, if not another one follows.
    Closed,
}

/// A field of a line.
#[derive(Drop)]
pub struct Field<B> {
    pub bytes: B,
    pub is_quoted: bool,
}

/// A field, as far as it was read.
#[derive(Drop)]
struct Reading<B> {
    field: Field<B>,
    at: At,
}

/// A field of a pair of a store.
type Short = Field<ArrayVec<u8, LONGEST>>;

impl Short {
    fn key(&self) -> Result<Key, LineFault>
        ensures { result_ok result ≡ field_key (read_of self.now.bytes.items self.now.is_quoted) }
    {
        let bytes = self.bytes.as_slice();
        if self.is_quoted {
            key_from(bytes)
        } else {
            key_of(bytes)
        }
    }

    fn value(&self) -> Result<Value, LineFault>
        ensures { result_ok result ≡ field_value (read_of self.now.bytes.items self.now.is_quoted) }
    {
        let bytes = self.bytes.as_slice();
        if self.is_quoted {
            value_from(bytes)
        } else {
            value_of(bytes)
        }
    }
}

impl<B: Buffer> Reading<B> {
    /// A byte more of the field.
    fn push(&mut self, at: At, byte: u8) -> Result<(), LineFault>
        ensures at { self.new.at ≡ at }
        ensures quoted { self.new.field.is_quoted ≡ self.old.field.is_quoted }
        ensures added { OnOk result
            (B.held self.new.field.bytes ≡ B.held self.old.field.bytes ++ byte ∷ []) }
        ensures full { OnErr result
            (B.room self.old.field.bytes ≤ length (B.held self.old.field.bytes)) }
        ensures room { B.room self.old.field.bytes ≤ B.room self.new.field.bytes }
    {
        self.at = at;
        self.field.bytes.add(byte)
    }

    /// Goes on without a byte.
    fn go(&mut self, at: At) -> Result<(), LineFault>
        ensures ok { IsOk result }
        ensures at { self.new.at ≡ at }
        ensures quoted { self.new.field.is_quoted ≡ true }
        ensures same { self.new.field.bytes ≡ self.old.field.bytes }
    {
        self.at = at;
        self.field.is_quoted = true;
        Ok(())
    }

    /// Whether a byte ends the field here.
    fn is_end(&self, byte: u8) -> bool
        ensures { result ≡ (byte == 44) && is_outside self.now.at }
    {
        byte == b',' && self.at != At::Quoted
    }

    /// Reads a byte that does not end the field.
    fn take(&mut self, byte: u8) -> Result<(), LineFault>
        ensures ok { OnOk result ((rest : List ℕ) → (byte == 44) && is_outside self.old.at ≡ false
            → onto (B.held self.new.field.bytes) (field_from self.new.at rest)
            ≡ onto (B.held self.old.field.bytes) (field_from self.old.at (byte ∷ rest))) }
        ensures err { OnErr result ((rest : List ℕ) → (byte == 44) && is_outside self.old.at ≡ false
            → IfSome (onto (B.held self.old.field.bytes) (field_from self.old.at (byte ∷ rest)))
            (λ read. B.room self.old.field.bytes < length read.bytes)) }
        ensures quoted { OnOk result (self.old.field.is_quoted ≡ is_closed self.old.at
            → self.new.field.is_quoted ≡ is_closed self.new.at) }
        ensures room { B.room self.old.field.bytes ≤ B.room self.new.field.bytes }
    {
        match self.at {
            At::Begin if byte == b'"' => self.go(At::Quoted),
            At::Begin => self.push(At::Bare, byte),
            At::Bare => self.push(At::Bare, byte),
            At::Quoted if byte == b'"' => self.go(At::Closed),
            At::Quoted => self.push(At::Quoted, byte),
            At::Closed if byte == b'"' => self.push(At::Quoted, byte),
            At::Closed => Err(LineFault::BadQuotes),
        }
    }
}

/// The first field of a line, whose bytes go into a buffer that has none, and what stands after its
/// comma, if it has one.
pub fn field_of<B: Buffer>(line: &[u8], bytes: B) -> Result<(Field<B>, Option<&[u8]>), LineFault>
    ensures ok { IfOk result (λ read. onto (B.held bytes) (field_from At.Begin line.now)
        ≡ Some (record {
          bytes = B.held read.0.bytes;
          is_quoted = read.0.is_quoted;
          rest = option_copied read.1;
        })) }
    ensures err { OnErr result (IfSome (onto (B.held bytes) (field_from At.Begin line.now))
        (λ read. B.room bytes < length read.bytes)) }
{
    let mut reading = Reading {
        field: Field {
            bytes,
            is_quoted: false,
        },
        at: At::Begin,
    };
    for (index, byte) in line.iter().enumerate() {
        if reading.is_end(*byte) {
            return Ok((reading.field, line.get(index + 1..)));
        }
        reading.take(*byte)?;
    }
    if reading.at == At::Quoted {
        return Err(LineFault::BadQuotes);
    }
    Ok((reading.field, None))
}

/// The first field of a line, if it is no longer than a pair of a store wants it, and what stands
/// after its comma, if it has one.
fn short_of(line: &[u8]) -> Result<(Short, Option<&[u8]>), LineFault>
    ensures ok { IfOk result (λ read. field_from At.Begin line.now
        ≡ Some (record {
          bytes = read.0.bytes.items;
          is_quoted = read.0.is_quoted;
          rest = option_copied read.1;
        })) }
    ensures err { OnErr result (IfSome (field_from At.Begin line.now)
        (λ read. 1026 < length read.bytes)) }
{
    field_of(line, ArrayVec::new())
}

/// The put of a first field and of what stands after its comma.
fn put_behind(first: &Short, rest: &[u8]) -> Result<Record, LineFault>
    ensures { result_ok result
        ≡ put_behind (read_of first.now.bytes.items first.now.is_quoted) rest.now }
{
    let (second, rest) = short_of(rest)?;
    if rest.is_some() {
        return Err(LineFault::BadCsv);
    }
    Ok(Record::Put(first.key()?, second.value()?))
}

/// The put of a line of CSV.
pub fn csv_put_of(line: &[u8]) -> Result<Record, LineFault>
    ensures { result_ok result ≡ csv_put line.now }
{
    let (first, rest) = short_of(line)?;
    match rest {
        Some(rest) => put_behind(&first, rest),
        None => Err(LineFault::BadCsv),
    }
}

/// The delete of its key, the first field.
pub fn csv_del_of(line: &[u8]) -> Result<Record, LineFault>
    ensures { result_ok result ≡ csv_del line.now }
{
    let (first, _) = short_of(line)?;
    Ok(Record::Del(first.key()?))
}
