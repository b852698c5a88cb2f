//! Keys, values, records and pages as words. No memory is taken.

use crate::printer::Printer;
use bw_codec::{Key, Leaf, Packed, Pair, Record, Value};
use std::io::Write;

/// Bytes as lower-case hex digits.
pub fn write_hex<O: Write>(out: &mut Printer<'_, O>, bytes: &[u8]) {
    for byte in bytes {
        let mut digits = [0u8; 2];
        if hex::encode_to_slice([*byte].as_slice(), &mut digits).is_ok() {
            out.text(&digits);
        }
    }
}

/// Whether bytes are printed as they are.
fn is_plain(bytes: &[u8]) -> bool {
    !bytes.is_empty()
        && !bytes.starts_with(b"0x")
        && bytes
            .iter()
            .all(|byte| matches!(*byte, 0x21..=0x7e) && *byte != b'=')
}

/// A key, value or low key: its bytes if that is plain, and else `0x` and hex digits.
pub fn write_word<O: Write>(out: &mut Printer<'_, O>, bytes: &[u8]) {
    if is_plain(bytes) {
        out.text(bytes);
    } else {
        out.text(b"0x");
        write_hex(out, bytes);
    }
}

/// A key, `=` and its value.
pub fn write_pair<O: Write>(out: &mut Printer<'_, O>, key: &Key, value: &Value) {
    write_word(out, key.as_slice());
    out.text(b"=");
    write_word(out, value.as_slice());
}

/// How many pairs there are, and each after a space.
pub fn write_counted<O: Write>(out: &mut Printer<'_, O>, pairs: &[Pair]) {
    out.named("pairs ", pairs.len());
    for pair in pairs {
        out.text(b" ");
        write_word(out, pair.key());
        out.text(b"=");
        write_word(out, pair.value());
    }
}

/// A page's low key and its pairs.
pub(crate) fn write_leaf<O: Write>(out: &mut Printer<'_, O>, leaf: &Leaf) {
    out.text(b" low ");
    write_word(out, leaf.low.as_slice());
    out.text(b" ");
    write_counted(out, leaf.pairs.as_slice());
}

/// A page's line.
pub fn write_page<O: Write>(out: &mut Printer<'_, O>, leaf: &Leaf) {
    out.named("page ", leaf.page);
    write_leaf(out, leaf);
    out.text(b"\n");
}

/// A record, after a space: what it does, its key, and its value if it has one.
pub fn write_record<O: Write>(out: &mut Printer<'_, O>, item: &Record) {
    match item {
        Record::Put(key, value) => write_put(out, key.as_slice(), value.as_slice()),
        Record::Del(key) => write_del(out, key.as_slice()),
    }
}

/// A packed record, after a space: what it does, its key, and its value if it has one.
pub fn write_packed<O: Write>(out: &mut Printer<'_, O>, item: &Packed) {
    match item.pair() {
        Ok(pair) => write_put(out, pair.key(), pair.value()),
        Err(pair) => write_del(out, pair.key()),
    }
}

fn write_put<O: Write>(out: &mut Printer<'_, O>, key: &[u8], value: &[u8]) {
    out.text(b" put ");
    write_word(out, key);
    out.text(b" ");
    write_word(out, value);
}

fn write_del<O: Write>(out: &mut Printer<'_, O>, key: &[u8]) {
    out.text(b" del ");
    write_word(out, key);
}
