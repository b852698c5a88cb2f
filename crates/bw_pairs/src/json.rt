//! A pair as a line of JSON: an object of its key and its value, as texts, or in base64 if they are
//! no UTF-8.

ghost use Rattle.std.specs.Prelude.{◌≡◌, ◌≤◌, ◌<◌, [], ◌∷◌, ◌++◌, Some, None, length, OnOk, OnErr, IfOk, IfSome, flat_map, option_copied, false, ◌==◌, slice_get, option_and_then};
ghost use Rattle.std.specs.Io.KnownBytes.{Appends, prepend_known};
ghost use Rattle.std.specs.Result.{result_ok};
ghost use Rattle.std.specs.Str.{is_utf8};
ghost use Rattle.hex.specs.Hex.{hex_digit_value};
ghost use Rattle.base64.specs.GeneralPurpose.{encode_of};
ghost use Rattle.base64.specs.Engines.{standard};
ghost use Rattle.bw_pairs.specs.Words.{as_key, as_value};
ghost use Rattle.bw_pairs.specs.Json.{letter, text, based, name_of, member, members, object, after_blanks, after, onto, lettered, is_first_half, is_second_half, joined, escaped, lettered_onto, unit_of, number_from, behind_mark, text_from, text_of, with_key, with_value, unbased, noted, read_member, read_more, closed, members_of, json_put, json_del};
ghost use Rattle.bw_pairs.specs.Json.Within.{Letters, Escape, Number, Half};
ghost use Rattle.bw_pairs.specs.declared.json.Members.{Members};

use crate::buffer::Buffer;
use crate::fault::LineFault;
use crate::spelling::{key_from, value_from, write_hex};
use arrayvec::ArrayVec;
use base64::engine::general_purpose::STANDARD;
use bw_codec::limits::MAX_VALUE;
use bw_codec::{Key, Record, Value};
use std::io::{self, Write};

/// How many letters of base64 the longest value has.
const LETTERS: usize = (MAX_VALUE + 2) / 3 * 4;

/// How many bytes are written in base64 at once: whole groups of three, so that only the last part
/// has signs after it that stand for nothing.
const PART: usize = MAX_VALUE / 3 * 3;

// ---- out

/// Writes a byte of a text between quotes.
fn write_letter<O: Write>(output: &mut O, byte: u8) -> io::Result<()>
    ensures { OnOk result (Appends (O.contents output.old) (O.contents output.new) (letter byte)) }
{
    match byte {
        b'"' => output.write_all(b"\\\""),
        b'\\' => output.write_all(b"\\\\"),
        b'\n' => output.write_all(b"\\n"),
        b'\r' => output.write_all(b"\\r"),
        b'\t' => output.write_all(b"\\t"),
        0..=0x1f => {
            output.write_all(b"\\u00")?;
            write_hex(output, &[byte])
        }
        _ => output.write_all(&[byte]),
    }
}

/// Writes the letters of a text.
fn write_letters<O: Write>(output: &mut O, text: &[u8]) -> io::Result<()>
    ensures { OnOk result (Appends (O.contents output.old) (O.contents output.new)
        (flat_map letter text.now)) }
{
    for byte in text {
        write_letter(output, *byte)?;
    }
    Ok(())
}

/// Writes a text between quotes.
fn write_text<O: Write>(output: &mut O, bytes: &[u8]) -> io::Result<()>
    ensures { OnOk result (Appends (O.contents output.old) (O.contents output.new)
        (text bytes.now)) }
{
    output.write_all(b"\"")?;
    write_letters(output, bytes)?;
    output.write_all(b"\"")
}

/// Writes the base64 of no more bytes than a value of a store has.
fn write_part<O: Write>(output: &mut O, bytes: &[u8]) -> io::Result<()>
    requires { length bytes.now ≤ 512 }
    ensures { OnOk result (Appends (O.contents output.old) (O.contents output.new)
        (encode_of standard bytes.now)) }
{
    let mut room = [0u8; LETTERS];
    let count = STANDARD.encode_slice(bytes, &mut room).unwrap_or(0);
    output.write_all(room.get(..count).unwrap_or(&[]))
}

/// Writes the base64 of bytes, a part after the other.
fn write_parts<O: Write>(output: &mut O, bytes: &[u8]) -> io::Result<()>
    ensures { OnOk result (Appends (O.contents output.old) (O.contents output.new)
        (encode_of standard bytes.now)) }
{
    let mut rest = bytes;
    'parts: while rest.len() > PART {
        let (part, after) = rest.split_at(PART);
        write_part(output, part)?;
        rest = after;
    }
    write_part(output, rest)
}

/// Writes bytes in base64, between quotes.
fn write_base64<O: Write>(output: &mut O, bytes: &[u8]) -> io::Result<()>
    ensures { OnOk result (Appends (O.contents output.old) (O.contents output.new)
        (based bytes.now)) }
{
    output.write_all(b"\"")?;
    write_parts(output, bytes)?;
    output.write_all(b"\"")
}

/// Writes the name of a member, whose bytes stand there as a text or in base64.
fn write_name<O: Write>(output: &mut O, name: &str, is_text: bool) -> io::Result<()>
    ensures { OnOk result (Appends (O.contents output.old) (O.contents output.new)
        (name_of name.now is_text)) }
{
    output.write_all(b"\"")?;
    output.write_all(name.as_bytes())?;
    if is_text {
        output.write_all(b"\":")
    } else {
        output.write_all(b"_base64\":")
    }
}

/// Whether bytes are UTF-8.
fn is_utf8(bytes: &[u8]) -> bool
    ensures { result ≡ is_utf8 bytes.now }
{
    match std::str::from_utf8(bytes) {
        Ok(_) => true,
        Err(_) => false,
    }
}

/// Writes a member of an object.
fn write_member<O: Write>(output: &mut O, name: &str, bytes: &[u8]) -> io::Result<()>
    ensures { OnOk result (Appends (O.contents output.old) (O.contents output.new)
        (member name.now bytes.now)) }
{
    let is_text = is_utf8(bytes);
    write_name(output, name, is_text)?;
    if is_text {
        write_text(output, bytes)
    } else {
        write_base64(output, bytes)
    }
}

/// Writes the members that are there.
fn write_members<O: Write>(
    output: &mut O,
    key: Option<&[u8]>,
    value: Option<&[u8]>,
) -> io::Result<()>
    ensures { OnOk result (Appends (O.contents output.old) (O.contents output.new)
        (members (option_copied key.entry) (option_copied value.entry))) }
{
    match (key, value) {
        (Some(key), Some(value)) => {
            write_member(output, "key", key)?;
            output.write_all(b",")?;
            write_member(output, "value", value)
        }
        (Some(key), None) => write_member(output, "key", key),
        (None, Some(value)) => write_member(output, "value", value),
        (None, None) => Ok(()),
    }
}

/// Writes the object of a key, a value, or both, and an end of line.
pub fn write_json<O: Write>(
    output: &mut O,
    key: Option<&[u8]>,
    value: Option<&[u8]>,
) -> io::Result<()>
    ensures { OnOk result (Appends (O.contents output.old) (O.contents output.new)
        (object (option_copied key.entry) (option_copied value.entry) ++ 10 ∷ [])) }
{
    output.write_all(b"{")?;
    write_members(output, key, value)?;
    output.write_all(b"}\n")
}

// ---- in

/// A text of a line, which has room for the longest value in base64.
type Text = ArrayVec<u8, LETTERS>;

/// A line, as far as it is not read.
#[derive(Clone, Copy)]
pub struct Rest<'a> {
    pub bytes: &'a [u8],
}

/// Adds the bytes of a letter.
fn push_all<B: Buffer>(text: &mut B, bytes: &[u8]) -> Result<(), LineFault>
    ensures ok { OnOk result (B.held text.new ≡ B.held text.old ++ bytes.now) }
    ensures err { OnErr result (B.room text.old < length (B.held text.old ++ bytes.now)) }
    ensures room { B.room text.old ≤ B.room text.new }
{
    for byte in bytes {
        text.add(*byte)?;
    }
    Ok(())
}

/// Adds a letter, by its number.
fn push_letter<B: Buffer>(text: &mut B, code: u32) -> Result<(), LineFault>
    ensures ok { OnOk result
        (prepend_known (B.held text.old) (lettered code) ≡ Some (B.held text.new)) }
    ensures err { OnErr result (IfSome (prepend_known (B.held text.old) (lettered code))
        (λ all. B.room text.old < length all)) }
    ensures room { B.room text.old ≤ B.room text.new }
{
    let Some(letter) = char::from_u32(code) else {
        return Err(LineFault::BadJson);
    };
    let mut room = [0u8; 4];
    push_all(text, letter.encode_utf8(&mut room).as_bytes())
}

/// The value of a hex digit.
fn digit_of(letter: u8) -> Result<u32, LineFault>
    ensures value { result_ok result ≡ hex_digit_value letter }
    ensures digit { IfOk result (λ digit. digit < 16) }
{
    match letter {
        b'0'..=b'9' => Ok(u32::from(letter - b'0')),
        b'a'..=b'f' => Ok(u32::from(letter - b'a' + 10)),
        b'A'..=b'F' => Ok(u32::from(letter - b'A' + 10)),
        _ => Err(LineFault::BadJson),
    }
}

/// The number of four hex digits.
fn number_of(a: u8, b: u8, c: u8, d: u8) -> Result<u32, LineFault>
    ensures { result_ok result ≡ unit_of a b c d }
{
    let first = digit_of(a)?;
    let second = digit_of(b)?;
    let third = digit_of(c)?;
    let fourth = digit_of(d)?;
    Ok(((first * 16 + second) * 16 + third) * 16 + fourth)
}

/// What a letter after a backslash stands for, but for the `u` of a number.
fn escaped(letter: u8) -> Result<u8, LineFault>
    ensures { result_ok result ≡ escaped letter }
{
    match letter {
        b'n' => Ok(b'\n'),
        b'r' => Ok(b'\r'),
        b't' => Ok(b'\t'),
        b'b' => Ok(8),
        b'f' => Ok(12),
        b'"' | b'\\' | b'/' => Ok(letter),
        _ => Err(LineFault::BadJson),
    }
}

/// Whether a number is the first half of a letter that has two of them.
fn is_first_half(unit: u32) -> bool
    ensures { result ≡ is_first_half unit }
{
    matches!(unit, 0xd800..=0xdbff)
}

/// Whether a number is the second half of a letter.
fn is_second_half(unit: u32) -> bool
    ensures { result ≡ is_second_half unit }
{
    matches!(unit, 0xdc00..=0xdfff)
}

/// The letter of two halves.
fn joined(first: u32, second: u32) -> u32
    ensures { result ≡ joined first second }
{
    0x1_0000 + ((first & 0x03ff) << 10 | second & 0x03ff)
}

impl Rest<'_> {
    /// Reads a byte.
    pub fn next(&mut self) -> Result<u8, LineFault>
        ensures ok { IfOk result (λ byte. self.old.bytes.now ≡ byte ∷ self.new.bytes.now) }
        ensures err { OnErr result (self.old.bytes.now ≡ []) }
    {
        match self.bytes {
            [first, rest @ ..] => {
                self.bytes = rest;
                Ok(*first)
            }
            [] => Err(LineFault::BadJson),
        }
    }

    /// Reads over blanks.
    fn skip_blanks(&mut self)
        ensures { self.new.bytes.now ≡ after_blanks self.old.bytes.now }
    {
        self.bytes = self.bytes.trim_ascii_start();
    }

    /// Reads over blanks, and answers the byte after them.
    pub fn peek(&mut self) -> Option<u8>
        ensures rest { self.new.bytes.now ≡ after_blanks self.old.bytes.now }
        ensures byte { result ≡ slice_get (after_blanks self.old.bytes.now) 0 }
    {
        self.skip_blanks();
        self.bytes.first().copied()
    }

    /// Reads this byte, after blanks.
    pub fn expect(&mut self, byte: u8) -> Result<(), LineFault>
        ensures ok { OnOk result (after byte self.old.bytes.now ≡ Some self.new.bytes.now) }
        ensures err { OnErr result (after byte self.old.bytes.now ≡ None) }
    {
        self.skip_blanks();
        if self.next()? == byte {
            Ok(())
        } else {
            Err(LineFault::BadJson)
        }
    }

    /// Reads four hex digits.
    fn unit(&mut self) -> Result<u32, LineFault>
        ensures ok { IfOk result (λ unit.
            number_from self.old.bytes.now ≡ Some (unit, self.new.bytes.now)) }
        ensures err { OnErr result (number_from self.old.bytes.now ≡ None) }
    {
        match self.bytes {
            [a, b, c, d, rest @ ..] => {
                self.bytes = rest;
                number_of(*a, *b, *c, *d)
            }
            _ => Err(LineFault::BadJson),
        }
    }

    /// Reads over the mark of a number.
    fn mark(&mut self) -> Result<(), LineFault>
        ensures ok { OnOk result (behind_mark self.old.bytes.now ≡ Some self.new.bytes.now) }
        ensures err { OnErr result (behind_mark self.old.bytes.now ≡ None) }
    {
        match self.bytes {
            [b'\\', b'u', rest @ ..] => {
                self.bytes = rest;
                Ok(())
            }
            _ => Err(LineFault::BadJson),
        }
    }

    /// Reads the second half of a letter that has two of them, and gives its number.
    fn second_unit(&mut self, first: u32) -> Result<u32, LineFault>
        ensures ok { IfOk result (λ code. text_from (Half first) self.old.bytes.now
            ≡ lettered_onto code (text_from Letters self.new.bytes.now)) }
        ensures err { OnErr result (text_from (Half first) self.old.bytes.now ≡ None) }
        ensures shorter { OnOk result (length self.new.bytes.now ≤ length self.old.bytes.now) }
    {
        self.mark()?;
        let second = self.unit()?;
        if is_second_half(second) {
            Ok(joined(first, second))
        } else {
            Err(LineFault::BadJson)
        }
    }

    /// Reads the number of a letter.
    fn code(&mut self) -> Result<u32, LineFault>
        ensures ok { IfOk result (λ code. text_from Number self.old.bytes.now
            ≡ lettered_onto code (text_from Letters self.new.bytes.now)) }
        ensures err { OnErr result (text_from Number self.old.bytes.now ≡ None) }
        ensures shorter { OnOk result (length self.new.bytes.now ≤ length self.old.bytes.now) }
    {
        let unit = self.unit()?;
        if is_first_half(unit) {
            return self.second_unit(unit);
        }
        Ok(unit)
    }

    /// Reads a letter by its number.
    fn numbered<B: Buffer>(&mut self, text: &mut B) -> Result<(), LineFault>
        ensures ok { OnOk result (onto (B.held text.old) (text_from Number self.old.bytes.now)
            ≡ onto (B.held text.new) (text_from Letters self.new.bytes.now)) }
        ensures err { OnErr result (IfSome
            (onto (B.held text.old) (text_from Number self.old.bytes.now))
            (λ all. B.room text.old < length all.bytes)) }
        ensures shorter { OnOk result (length self.new.bytes.now ≤ length self.old.bytes.now) }
        ensures room { B.room text.old ≤ B.room text.new }
    {
        let code = self.code()?;
        push_letter(text, code)
    }

    /// Reads what stands after a backslash.
    fn escape<B: Buffer>(&mut self, text: &mut B) -> Result<(), LineFault>
        ensures ok { OnOk result (onto (B.held text.old) (text_from Escape self.old.bytes.now)
            ≡ onto (B.held text.new) (text_from Letters self.new.bytes.now)) }
        ensures err { OnErr result (IfSome
            (onto (B.held text.old) (text_from Escape self.old.bytes.now))
            (λ all. B.room text.old < length all.bytes)) }
        ensures shorter { OnOk result (length self.new.bytes.now ≤ length self.old.bytes.now) }
        ensures room { B.room text.old ≤ B.room text.new }
    {
        let letter = self.next()?;
        if letter == b'u' {
            return self.numbered(text);
        }
        text.add(escaped(letter)?)
    }

    /// Reads on in a text, after a byte that is no quote.
    fn letter<B: Buffer>(&mut self, byte: u8, text: &mut B) -> Result<(), LineFault>
        ensures ok { OnOk result (byte == 34 ≡ false
            → onto (B.held text.old) (text_from Letters (byte ∷ self.old.bytes.now))
            ≡ onto (B.held text.new) (text_from Letters self.new.bytes.now)) }
        ensures err { OnErr result (byte == 34 ≡ false → IfSome
            (onto (B.held text.old) (text_from Letters (byte ∷ self.old.bytes.now)))
            (λ all. B.room text.old < length all.bytes)) }
        ensures shorter { OnOk result (length self.new.bytes.now ≤ length self.old.bytes.now) }
        ensures room { B.room text.old ≤ B.room text.new }
    {
        if byte == b'\\' {
            return self.escape(text);
        }
        if byte < 0x20 {
            return Err(LineFault::BadJson);
        }
        text.add(byte)
    }

    /// Reads a text up to the quote after it, into a buffer that has none.
    fn letters<B: Buffer>(&mut self, bytes: B) -> Result<B, LineFault>
        ensures ok { IfOk result (λ text.
            onto (B.held bytes) (text_from Letters self.old.bytes.now)
            ≡ Some (record { bytes = B.held text; rest = self.new.bytes.now })) }
        ensures err { OnErr result (IfSome
            (onto (B.held bytes) (text_from Letters self.old.bytes.now))
            (λ all. B.room bytes < length all.bytes)) }
    {
        let mut text = bytes;
        for _ in 0..self.bytes.len() {
            let byte = self.next()?;
            if byte == b'"' {
                return Ok(text);
            }
            self.letter(byte, &mut text)?;
        }
        Err(LineFault::BadJson)
    }

    /// Reads a text between quotes into a buffer that has none.
    pub fn text<B: Buffer>(&mut self, bytes: B) -> Result<B, LineFault>
        ensures ok { IfOk result (λ text. onto (B.held bytes) (text_of self.old.bytes.now)
            ≡ Some (record { bytes = B.held text; rest = self.new.bytes.now })) }
        ensures err { OnErr result (IfSome (onto (B.held bytes) (text_of self.old.bytes.now))
            (λ all. B.room bytes < length all.bytes)) }
    {
        self.expect(b'"')?;
        self.letters(bytes)
    }

    /// Reads the end of an object, after which nothing but blanks may stand.
    fn close(&mut self) -> Result<(), LineFault>
        ensures ok { OnOk result ((members : Members)
            → closed (record { members = members; rest = self.old.bytes.now }) ≡ Some members) }
        ensures err { OnErr result ((members : Members)
            → closed (record { members = members; rest = self.old.bytes.now }) ≡ None) }
    {
        self.expect(b'}')?;
        match self.peek() {
            None => Ok(()),
            Some(_) => Err(LineFault::BadJson),
        }
    }

    /// Reads a text that is no longer than a pair of a store wants it.
    fn short(&mut self) -> Result<Text, LineFault>
        ensures ok { IfOk result (λ text. text_of self.old.bytes.now
            ≡ Some (record { bytes = text.items; rest = self.new.bytes.now })) }
        ensures err { OnErr result (IfSome (text_of self.old.bytes.now)
            (λ all. 684 < length all.bytes)) }
    {
        self.text(ArrayVec::new())
    }
}

/// The key and the value of an object, as far as they were read.
#[derive(Drop)]
struct Members {
    key: Option<Key>,
    value: Option<Value>,
}

/// The bytes of a text in base64.
fn decoded<'a>(text: &Text, room: &'a mut [u8; LETTERS]) -> Result<&'a [u8], LineFault>
    ensures ok { IfOk result (λ bytes. unbased text.now.items ≡ Some bytes.now) }
    ensures err { OnErr result (IfSome (unbased text.now.items) (λ bytes. 512 < length bytes)) }
{
    let Ok(count) = STANDARD.decode_slice(text.as_slice(), room) else {
        return Err(LineFault::BadBase64);
    };
    match room.get(..count) {
        Some(bytes) => Ok(bytes),
        None => Err(LineFault::BadBase64),
    }
}

/// The key of a text in base64.
fn key_based(text: &Text) -> Result<Key, LineFault>
    ensures { result_ok result ≡ option_and_then as_key (unbased text.now.items) }
{
    let mut room = [0u8; LETTERS];
    key_from(decoded(text, &mut room)?)
}

/// The value of a text in base64.
fn value_based(text: &Text) -> Result<Value, LineFault>
    ensures { result_ok result ≡ option_and_then as_value (unbased text.now.items) }
{
    let mut room = [0u8; LETTERS];
    value_from(decoded(text, &mut room)?)
}

impl Members {
    /// Notes a key, which is the only one.
    fn note_key(&mut self, key: Result<Key, LineFault>) -> Result<(), LineFault>
        ensures ok { OnOk result (with_key self.old (result_ok key) ≡ Some self.new) }
        ensures err { OnErr result (with_key self.old (result_ok key) ≡ None) }
    {
        match self.key.replace(key?) {
            None => Ok(()),
            Some(_) => Err(LineFault::BadJson),
        }
    }

    /// Notes a value, which is the only one.
    fn note_value(&mut self, value: Result<Value, LineFault>) -> Result<(), LineFault>
        ensures ok { OnOk result (with_value self.old (result_ok value) ≡ Some self.new) }
        ensures err { OnErr result (with_value self.old (result_ok value) ≡ None) }
    {
        match self.value.replace(value?) {
            None => Ok(()),
            Some(_) => Err(LineFault::BadJson),
        }
    }

    /// Notes a member.
    fn note(&mut self, name: &[u8], text: &Text) -> Result<(), LineFault>
        ensures ok { OnOk result (noted self.old name.now text.now.items ≡ Some self.new) }
        ensures err { OnErr result (noted self.old name.now text.now.items ≡ None) }
    {
        match std::str::from_utf8(name) {
            Ok("key") => self.note_key(key_from(text.as_slice())),
            Ok("value") => self.note_value(value_from(text.as_slice())),
            Ok("key_base64") => self.note_key(key_based(text)),
            Ok("value_base64") => self.note_value(value_based(text)),
            _ => Err(LineFault::BadJson),
        }
    }

    /// Reads a member.
    fn read(&mut self, rest: &mut Rest<'_>) -> Result<(), LineFault>
        ensures ok { OnOk result (read_member self.old rest.old.bytes.now
            ≡ Some (record { members = self.new; rest = rest.new.bytes.now })) }
        ensures err { OnErr result (read_member self.old rest.old.bytes.now ≡ None) }
    {
        let name = rest.short()?;
        rest.expect(b':')?;
        let text = rest.short()?;
        self.note(name.as_slice(), &text)
    }

    /// Reads a second member, if a comma follows.
    fn read_more(&mut self, rest: &mut Rest<'_>) -> Result<(), LineFault>
        ensures ok { OnOk result (option_and_then closed
            (read_more (record { members = self.old; rest = rest.old.bytes.now }))
            ≡ closed (record { members = self.new; rest = rest.new.bytes.now })) }
        ensures err { OnErr result (option_and_then closed
            (read_more (record { members = self.old; rest = rest.old.bytes.now })) ≡ None) }
    {
        match rest.peek() {
            Some(b',') => {
                let _ = rest.next()?;
                self.read(rest)
            }
            _ => Ok(()),
        }
    }
}

/// The key and the value of a line: an object that has a key, a value, or both, and nothing else.
fn members_of(line: &[u8]) -> Result<Members, LineFault>
    ensures { result_ok result ≡ members_of line.now }
{
    if !is_utf8(line) {
        return Err(LineFault::BadJson);
    }
    let mut rest = Rest { bytes: line };
    let mut members = Members {
        key: None,
        value: None,
    };
    rest.expect(b'{')?;
    members.read(&mut rest)?;
    members.read_more(&mut rest)?;
    rest.close()?;
    Ok(members)
}

/// The put of a line of JSON.
pub fn json_put_of(line: &[u8]) -> Result<Record, LineFault>
    ensures { result_ok result ≡ json_put line.now }
{
    let members = members_of(line)?;
    match (members.key, members.value) {
        (Some(key), Some(value)) => Ok(Record::Put(key, value)),
        _ => Err(LineFault::BadJson),
    }
}

/// The delete of its key; it may have no value.
pub fn json_del_of(line: &[u8]) -> Result<Record, LineFault>
    ensures { result_ok result ≡ json_del line.now }
{
    match members_of(line)?.key {
        Some(key) => Ok(Record::Del(key)),
        None => Err(LineFault::BadJson),
    }
}
