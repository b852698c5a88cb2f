//! Keys and values as words of a line, and back.

ghost use Rattle.std.specs.Prelude.{◌≡◌, ◌<◌, [], ◌∷◌, ◌++◌, OnOk, OnErr, IfOk, IfSome, length};
ghost use Rattle.std.specs.Io.KnownBytes.{Appends};
ghost use Rattle.std.specs.Result.{result_ok};
ghost use Rattle.hex.specs.Hex.{encode_lower, decode_of};
ghost use Rattle.bw_pairs.specs.Words.{has_no_control, is_text, word, meant, as_key, as_value, key_meant, value_meant};

use crate::fault::LineFault;
use bw_codec::limits::MAX_VALUE;
use bw_codec::{Key, Value};
use std::io::{self, Write};

/// How keys and values are written.
#[derive(Debug, Clone, Copy, PartialEq, Eq)]
pub enum Spelling {
    /// Text as it is, and all else as `0x` and hex digits, so that each word is read back.
    Words,
    /// The bytes as they are.
    Raw,
    /// All as `0x` and hex digits.
    Hex,
}

/// Whether no letter of a text is a control character.
fn has_no_control(text: &str) -> bool
    ensures { result ≡ has_no_control text.now }
{
    text.chars().all(|letter| !letter.is_control())
}

/// Whether bytes are written as they are: text without a control character, tab and end of line
/// among these, that does not look like hex.
pub fn is_text(bytes: &[u8]) -> bool
    ensures { result ≡ is_text bytes.now }
{
    if bytes.starts_with(b"0x") {
        return false;
    }
    match std::str::from_utf8(bytes) {
        Ok(text) => has_no_control(text),
        Err(_) => false,
    }
}

/// Writes a byte as two lower-case hex digits.
fn write_digits<O: Write>(output: &mut O, byte: u8) -> io::Result<()>
    ensures { OnOk result (Appends (O.contents output.old) (O.contents output.new)
        (encode_lower (byte ∷ []))) }
{
    let mut digits = [0u8; 2];
    if hex::encode_to_slice([byte].as_slice(), &mut digits).is_ok() {
        output.write_all(&digits)?;
    }
    Ok(())
}

/// Writes bytes as lower-case hex digits.
pub fn write_hex<O: Write>(output: &mut O, bytes: &[u8]) -> io::Result<()>
    ensures { OnOk result (Appends (O.contents output.old) (O.contents output.new)
        (encode_lower bytes.now)) }
{
    for byte in bytes {
        write_digits(output, *byte)?;
    }
    Ok(())
}

/// Writes a key or a value.
pub fn write_word<O: Write>(output: &mut O, spelling: Spelling, bytes: &[u8]) -> io::Result<()>
    ensures { OnOk result (Appends (O.contents output.old) (O.contents output.new)
        (word spelling bytes.now)) }
{
    let is_plain = match spelling {
        Spelling::Words => is_text(bytes),
        Spelling::Raw => true,
        Spelling::Hex => false,
    };
    if is_plain {
        return output.write_all(bytes);
    }
    output.write_all(b"0x")?;
    write_hex(output, bytes)
}

/// Writes a key or a value, and an end of line.
pub fn write_line<O: Write>(output: &mut O, spelling: Spelling, bytes: &[u8]) -> io::Result<()>
    ensures { OnOk result (Appends (O.contents output.old) (O.contents output.new)
        (word spelling bytes.now ++ 10 ∷ [])) }
{
    write_word(output, spelling, bytes)?;
    output.write_all(b"\n")
}

/// The bytes of hex digits, at the front of `room`; `too_long` if there are more than it has room
/// for. That is enough for a value, and a key is shorter.
#[tactic(auto, using(crate::proofs::Hexing::too_long))]
pub fn decoded<'a>(
    digits: &[u8],
    room: &'a mut [u8; MAX_VALUE],
    too_long: LineFault,
) -> Result<&'a [u8], LineFault>
    ensures ok { IfOk result (λ bytes. result_ok (decode_of digits.now) ≡ Some bytes.now) }
    ensures err { OnErr result (IfSome (result_ok (decode_of digits.now))
        (λ bytes. 512 < length bytes)) }
{
    let count = digits.len() / 2;
    if count > MAX_VALUE {
        return Err(too_long);
    }
    match hex::decode_to_slice(digits, &mut room[..count]) {
        Ok(()) => Ok(&room[..count]),
        Err(_) => Err(LineFault::BadHex),
    }
}

/// The key of these bytes.
pub fn key_from(bytes: &[u8]) -> Result<Key, LineFault>
    ensures { result_ok result ≡ as_key bytes.now }
{
    Key::new(bytes).map_err(|_| LineFault::BadKey)
}

/// The value of these bytes.
pub fn value_from(bytes: &[u8]) -> Result<Value, LineFault>
    ensures { result_ok result ≡ as_value bytes.now }
{
    Value::new(bytes).map_err(|_| LineFault::BadValue)
}

/// The bytes that a word stands for: its own, or those of its hex digits after `0x`, which come to
/// the front of `room`.
pub fn bytes_of<'a>(
    word: &'a [u8],
    room: &'a mut [u8; MAX_VALUE],
    too_long: LineFault,
) -> Result<&'a [u8], LineFault>
    ensures ok { IfOk result (λ bytes. meant word.now ≡ Some bytes.now) }
    ensures err { OnErr result (IfSome (meant word.now) (λ bytes. 512 < length bytes)) }
{
    match word.strip_prefix(b"0x") {
        Some(digits) => decoded(digits, room, too_long),
        None => Ok(word),
    }
}

/// The key that a word stands for: its own bytes, or those of its hex digits after `0x`.
pub fn key_of(word: &[u8]) -> Result<Key, LineFault>
    ensures { result_ok result ≡ key_meant word.now }
{
    let mut room = [0u8; MAX_VALUE];
    key_from(bytes_of(word, &mut room, LineFault::BadKey)?)
}

/// The value that a word stands for, likewise.
pub fn value_of(word: &[u8]) -> Result<Value, LineFault>
    ensures { result_ok result ≡ value_meant word.now }
{
    let mut room = [0u8; MAX_VALUE];
    value_from(bytes_of(word, &mut room, LineFault::BadValue)?)
}
