//! The text format of `mdb_dump` and `db_dump`, version 3: a header of `name=value` lines up to
//! `HEADER=END`, then a line for each key and one for its value, each after a space, up to
//! `DATA=END`.

ghost use Rattle.std.specs.Prelude.{◌≡◌, ◌≤◌, ◌<◌, ◌+◌, ◌*◌, ◌%◌, [], ◌∷◌, ◌++◌, List, ℕ, length, OnOk, OnErr, IfOk, IfSome, flat_map, None, option_copied};
ghost use Rattle.std.specs.Io.KnownBytes.{Appends, prepend_known};
ghost use Rattle.std.specs.Result.{result_ok};
ghost use Rattle.hex.specs.Hex.{decode_of, hex_digit_value};
ghost use Rattle.bw_pairs.specs.Headers.{letters_named, parted_by, header_by};
ghost use Rattle.bw_pairs.specs.Dumps.{escape, dump_line, unescaped, behind_space, dump_meant, dump_key, dump_value, dump_header, dump_end, format_line, name_line, size_line};

use crate::buffer::Buffer;
use crate::fault::LineFault;
use crate::spelling::{decoded, key_from, value_from, write_hex};
use arrayvec::ArrayVec;
use bw_codec::limits::MAX_VALUE;
use bw_codec::{Key, Value};
use std::io::{self, Write};

/// How a dump spells bytes.
#[derive(Debug, Clone, Copy, PartialEq, Eq)]
pub enum Letters {
    /// `bytevalue`: hex digits.
    Hex,
    /// `print`: printable ASCII as it is, and all else, and a backslash, as a backslash and two hex
    /// digits.
    Print,
}

// ---- out

/// Writes the header of a dump. A size of the map, in bytes, stands in it if one is wanted:
/// otherwise `mdb_load` makes a database of 1 MiB, and `db_load` refuses the line.
pub fn write_header<O: Write>(
    output: &mut O,
    letters: Letters,
    mapsize: Option<u64>,
) -> io::Result<()>
    ensures { OnOk result (Appends (O.contents output.old) (O.contents output.new)
        (dump_header letters None mapsize)) }
{
    write_named_header(output, letters, None, mapsize)
}

/// Writes the header of a dump of a database, with its name if it has one. A name is spelled as
/// `db_dump` spells it: printable ASCII as it is, and all else with escapes.
pub fn write_named_header<O: Write>(
    output: &mut O,
    letters: Letters,
    name: Option<&[u8]>,
    mapsize: Option<u64>,
) -> io::Result<()>
    ensures { OnOk result (Appends (O.contents output.old) (O.contents output.new)
        (dump_header letters (option_copied name.entry) mapsize)) }
{
    output.write_all(b"VERSION=3\n")?;
    write_format(output, letters)?;
    write_name(output, name)?;
    output.write_all(b"type=btree\n")?;
    write_size(output, mapsize)?;
    output.write_all(b"HEADER=END\n")
}

/// Writes how a dump spells bytes.
fn write_format<O: Write>(output: &mut O, letters: Letters) -> io::Result<()>
    ensures { OnOk result (Appends (O.contents output.old) (O.contents output.new)
        (format_line letters)) }
{
    match letters {
        Letters::Hex => output.write_all(b"format=bytevalue\n"),
        Letters::Print => output.write_all(b"format=print\n"),
    }
}

/// Writes the name of a database, if it has one.
fn write_name<O: Write>(output: &mut O, name: Option<&[u8]>) -> io::Result<()>
    ensures { OnOk result (Appends (O.contents output.old) (O.contents output.new)
        (name_line (option_copied name.entry))) }
{
    let Some(name) = name else {
        return Ok(());
    };
    output.write_all(b"database=")?;
    write_escaped(output, name)?;
    output.write_all(b"\n")
}

/// Writes the size of a map, if one is wanted.
fn write_size<O: Write>(output: &mut O, mapsize: Option<u64>) -> io::Result<()>
    ensures { OnOk result (Appends (O.contents output.old) (O.contents output.new)
        (size_line mapsize)) }
{
    match mapsize {
        Some(size) => writeln!(output, "mapsize={size}"),
        None => Ok(()),
    }
}

/// Writes the end of a dump.
pub fn write_end<O: Write>(output: &mut O) -> io::Result<()>
    ensures { OnOk result (Appends (O.contents output.old) (O.contents output.new) dump_end) }
{
    output.write_all(b"DATA=END\n")
}

/// Writes a byte, with its escape if it has one.
fn write_letter<O: Write>(output: &mut O, byte: u8) -> io::Result<()>
    ensures { OnOk result (Appends (O.contents output.old) (O.contents output.new) (escape byte)) }
{
    let one = [byte];
    if matches!(byte, 0x20..=0x7e) && byte != b'\\' {
        return output.write_all(&one);
    }
    output.write_all(b"\\")?;
    write_hex(output, &one)
}

/// Writes bytes with escapes.
fn write_escaped<O: Write>(output: &mut O, bytes: &[u8]) -> io::Result<()>
    ensures { OnOk result (Appends (O.contents output.old) (O.contents output.new)
        (flat_map escape bytes.now)) }
{
    for byte in bytes {
        write_letter(output, *byte)?;
    }
    Ok(())
}

/// Writes the line of a key or a value.
fn write_bytes<O: Write>(output: &mut O, letters: Letters, bytes: &[u8]) -> io::Result<()>
    ensures { OnOk result (Appends (O.contents output.old) (O.contents output.new)
        (dump_line letters bytes.now ++ 10 ∷ [])) }
{
    output.write_all(b" ")?;
    match letters {
        Letters::Hex => write_hex(output, bytes)?,
        Letters::Print => write_escaped(output, bytes)?,
    }
    output.write_all(b"\n")
}

/// Writes the two lines of a pair.
pub fn write_dumped<O: Write>(
    output: &mut O,
    letters: Letters,
    key: &[u8],
    value: &[u8],
) -> io::Result<()>
    ensures { OnOk result (Appends (O.contents output.old) (O.contents output.new)
        (dump_line letters key.now ++ 10 ∷ dump_line letters value.now ++ 10 ∷ [])) }
{
    write_bytes(output, letters, key)?;
    write_bytes(output, letters, value)
}

// ---- in

/// Where in an escape a reader stands.
#[derive(Clone, Copy)]
enum Escape {
    /// In none.
    Outside,
    /// After the backslash.
    Begun,
    /// After the first digit, which this is.
    Half(u8),
}

/// The bytes of a line with escapes, as far as it was read.
#[derive(Drop)]
struct Unescaping<B> {
    bytes: B,
    escape: Escape,
    too_long: LineFault,
}

/// The value of a hex digit.
fn digit_of(letter: u8) -> Result<u8, LineFault>
    ensures value { result_ok result ≡ hex_digit_value letter }
    ensures digit { IfOk result (λ digit. digit < 16) }
{
    match letter {
        b'0'..=b'9' => Ok(letter - b'0'),
        b'a'..=b'f' => Ok(letter - b'a' + 10),
        b'A'..=b'F' => Ok(letter - b'A' + 10),
        _ => Err(LineFault::BadEscape),
    }
}

/// The byte of two digits; of the first no more counts than a digit has.
fn byte_of(first: u8, second: u8) -> u8
    requires { second < 16 }
    ensures { result ≡ first % 16 * 16 + second }
{
    (first & 0x0f) << 4 | second
}

impl<B: Buffer> Unescaping<B> {
    /// A byte of the line was read to its end.
    fn push(&mut self, byte: u8) -> Result<(), LineFault>
        ensures escape { self.new.escape ≡ Escape.Outside }
        ensures added { OnOk result (B.held self.new.bytes ≡ B.held self.old.bytes ++ byte ∷ []) }
        ensures full { OnErr result (B.room self.old.bytes ≤ length (B.held self.old.bytes)) }
        ensures room { B.room self.old.bytes ≤ B.room self.new.bytes }
    {
        self.escape = Escape::Outside;
        match self.bytes.add(byte) {
            Ok(()) => Ok(()),
            Err(_) => Err(self.too_long),
        }
    }

    /// Reads a letter.
    fn take(&mut self, letter: u8) -> Result<(), LineFault>
        ensures ok { OnOk result ((rest : List ℕ) →
            prepend_known (B.held self.new.bytes) (unescaped self.new.escape rest)
            ≡ prepend_known (B.held self.old.bytes) (unescaped self.old.escape (letter ∷ rest))) }
        ensures err { OnErr result ((rest : List ℕ) →
            IfSome (prepend_known (B.held self.old.bytes)
            (unescaped self.old.escape (letter ∷ rest)))
            (λ all. B.room self.old.bytes < length all)) }
        ensures room { B.room self.old.bytes ≤ B.room self.new.bytes }
    {
        match self.escape {
            Escape::Outside if letter == b'\\' => {
                self.escape = Escape::Begun;
                Ok(())
            }
            Escape::Outside => self.push(letter),
            Escape::Begun if letter == b'\\' => self.push(letter),
            Escape::Begun => {
                self.escape = Escape::Half(digit_of(letter)?);
                Ok(())
            }
            Escape::Half(first) => self.push(byte_of(first, digit_of(letter)?)),
        }
    }
}

/// The bytes of a line with escapes, in a buffer that had none; `too_long` if it has not room for
/// so many.
pub fn unescaped<B: Buffer>(line: &[u8], bytes: B, too_long: LineFault) -> Result<B, LineFault>
    ensures ok { IfOk result (λ read.
        prepend_known (B.held bytes) (unescaped Escape.Outside line.now) ≡ Some (B.held read)) }
    ensures err { OnErr result (IfSome
        (prepend_known (B.held bytes) (unescaped Escape.Outside line.now))
        (λ all. B.room bytes < length all)) }
{
    let mut read = Unescaping {
        bytes,
        escape: Escape::Outside,
        too_long,
    };
    for letter in line {
        read.take(*letter)?;
    }
    match read.escape {
        Escape::Outside => Ok(read.bytes),
        _ => Err(LineFault::BadEscape),
    }
}

/// What stands after the space of a line of data.
pub fn behind_space(line: &[u8]) -> Result<&[u8], LineFault>
    ensures ok { IfOk result (λ text. behind_space line.now ≡ Some text.now) }
    ensures err { OnErr result (behind_space line.now ≡ None) }
{
    match line.strip_prefix(b" ") {
        Some(text) => Ok(text),
        None => Err(LineFault::NoSpace),
    }
}

/// The bytes of hex digits; `too_long` if a value has not so many.
fn undigited(digits: &[u8], too_long: LineFault) -> Result<ArrayVec<u8, MAX_VALUE>, LineFault>
    ensures ok { IfOk result (λ bytes. result_ok (decode_of digits.now) ≡ Some bytes.items) }
    ensures err { OnErr result (IfSome (result_ok (decode_of digits.now))
        (λ bytes. 512 < length bytes)) }
{
    let mut room = [0u8; MAX_VALUE];
    let mut bytes = ArrayVec::new();
    match bytes.try_extend_from_slice(decoded(digits, &mut room, too_long)?) {
        Ok(()) => Ok(bytes),
        Err(_) => Err(too_long),
    }
}

/// The bytes of a line; `too_long` if a value has not so many.
fn bytes_in(
    letters: Letters,
    line: &[u8],
    too_long: LineFault,
) -> Result<ArrayVec<u8, MAX_VALUE>, LineFault>
    ensures ok { IfOk result (λ bytes. dump_meant letters line.now ≡ Some bytes.items) }
    ensures err { OnErr result (IfSome (dump_meant letters line.now)
        (λ bytes. 512 < length bytes)) }
{
    let text = behind_space(line)?;
    match letters {
        Letters::Hex => undigited(text, too_long),
        Letters::Print => unescaped(text, ArrayVec::new(), too_long),
    }
}

/// The key of a line.
pub fn key_in(letters: Letters, line: &[u8]) -> Result<Key, LineFault>
    ensures { result_ok result ≡ dump_key letters line.now }
{
    key_from(bytes_in(letters, line, LineFault::BadKey)?.as_slice())
}

/// The value of a line.
pub fn value_in(letters: Letters, line: &[u8]) -> Result<Value, LineFault>
    ensures { result_ok result ≡ dump_value letters line.now }
{
    value_from(bytes_in(letters, line, LineFault::BadValue)?.as_slice())
}

/// What is known of a dump from its header, as far as that was read.
#[derive(Debug, Clone, Copy, PartialEq, Eq)]
pub enum Header {
    /// Its first line comes next.
    First,
    /// Another one comes next.
    Rest(Letters),
    /// It is at its end.
    End(Letters),
}

/// How bytes are spelled, by the value of `format`.
fn letters_of(value: &str) -> Result<Letters, LineFault>
    ensures { result ≡ letters_named value.now }
{
    match value {
        "bytevalue" => Ok(Letters::Hex),
        "print" => Ok(Letters::Print),
        _ => Err(LineFault::BadFormat),
    }
}

/// What is known once a line after the first one is read. What says how another store lays out its
/// pages, or orders its keys, is read over.
fn with_line(letters: Letters, text: &str) -> Result<Header, LineFault>
    ensures { result ≡ parted_by letters text.now }
{
    let Some((name, value)) = text.split_once('=') else {
        return Err(LineFault::BadHeader);
    };
    match (name, value) {
        ("HEADER", "END") => Ok(Header::End(letters)),
        ("HEADER", _) => Err(LineFault::BadHeader),
        ("format", value) => Ok(Header::Rest(letters_of(value)?)),
        ("type", "btree" | "hash") => Ok(Header::Rest(letters)),
        ("type", _) | ("keys", "0") => Err(LineFault::BadType),
        ("duplicates" | "dupsort", "1") => Err(LineFault::Duplicates),
        _ => Ok(Header::Rest(letters)),
    }
}

impl Header {
    /// What is known once a line more is read.
    pub fn then(self, line: &[u8]) -> Result<Header, LineFault>
        ensures { result ≡ header_by self line.now }
    {
        let Ok(text) = std::str::from_utf8(line) else {
            return Err(LineFault::BadHeader);
        };
        match self {
            Header::First if text == "VERSION=3" => Ok(Header::Rest(Letters::Hex)),
            Header::First => Err(LineFault::NoVersion),
            Header::Rest(letters) => with_line(letters, text),
            Header::End(letters) => Ok(Header::End(letters)),
        }
    }
}
