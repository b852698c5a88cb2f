//! Bytes as hex digits, and frames around the blocks of a row.

use bw_codec::encode_frame_head;
use std::alloc::Global;

/// A hex digit's number.
fn digit_of(digit: u8) -> Option<u8> {
    match digit {
        b'0'..=b'9' => Some(digit - b'0'),
        b'a'..=b'f' => Some(digit - b'a' + 10),
        _ => None,
    }
}

/// Appends the bytes that hex digits spell. Spaces are for reading only. A byte after a `v` is the
/// length of a value: it has a second byte, zero, in format 2.
fn spell(version: u16, hex: &str, bytes: &mut Vec<u8>) -> Option<()> {
    let mut high = None;
    let mut is_length = false;
    for c in hex.as_bytes() {
        match (*c, high) {
            (b' ', _) => {}
            (b'v', _) => is_length = version == 2,
            (c, None) => high = Some(digit_of(c)?),
            (c, Some(sixteens)) => {
                bytes.push(sixteens << 4 | digit_of(c)?).ok()?;
                if is_length {
                    bytes.push(0).ok()?;
                }
                high = None;
                is_length = false;
            }
        }
    }
    Some(())
}

/// The bytes that hex digits spell.
pub fn bytes_of(alloc: Global, hex: &str) -> Option<Vec<u8>> {
    let mut bytes = Vec::new(alloc);
    spell(1, hex, &mut bytes)?;
    Some(bytes)
}

/// The body of a frame of this format that hex digits spell, in which a byte after a `v` is the
/// length of a value; and how many of these there are.
pub fn spelled_body(alloc: Global, version: u16, hex: &str) -> Option<(Vec<u8>, usize)> {
    let mut bytes = Vec::new(alloc);
    spell(version, hex, &mut bytes)?;
    Some((bytes, hex.bytes().filter(|c| *c == b'v').count()))
}

/// A segment and one byte more, of which one byte was changed.
pub fn changed(alloc: Global, segment: &str, at: usize, to: u8) -> Option<Vec<u8>> {
    let mut bytes = bytes_of(alloc, segment)?;
    bytes.push(0).ok()?;
    *bytes.as_mut_slice().get_mut(at)? = to;
    Some(bytes)
}

/// A body of this format: what the digits in front spell, a length in one byte or in two, so many
/// bytes `61`, and what the digits after it spell.
pub fn body_of(
    alloc: Global,
    version: u16,
    ends: (&str, &str),
    is_wide: bool,
    many: u16,
) -> Option<Vec<u8>> {
    let mut bytes = Vec::new(alloc);
    spell(version, ends.0, &mut bytes)?;
    let [low, high] = many.to_le_bytes();
    bytes.push(low).ok()?;
    if is_wide {
        bytes.push(high).ok()?;
    }
    for _ in 0..many {
        bytes.push(b'a').ok()?;
    }
    spell(version, ends.1, &mut bytes)?;
    Some(bytes)
}

/// Frame 1 of this format with so many blocks, of which this is the body.
pub fn framed_in(alloc: Global, version: u16, count: u32, body: &[u8]) -> Option<Vec<u8>> {
    let mut bytes = framed(alloc, count, body)?;
    if version == 1 {
        *bytes.as_mut_slice().get_mut(3)? = b'1';
    }
    Some(bytes)
}

/// Frame 1 with so many blocks, of which this is the body.
pub fn framed(alloc: Global, count: u32, body: &[u8]) -> Option<Vec<u8>> {
    let mut bytes = Vec::new(alloc);
    encode_frame_head(1, u32::try_from(body.len()).ok()?, count, &mut bytes).ok()?;
    bytes.extend_from_slice(body).ok()?;
    Some(bytes)
}
