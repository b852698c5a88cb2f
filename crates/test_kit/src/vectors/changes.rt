//! Records, and the same as pages apply them.

ghost use Rattle.std.specs.Prelude.{◌≡◌, IfSome};

use bw_codec::{Key, Packed, Record, Value};
use std::alloc::Global;

/// A put; none if the key or the value is too long.
pub fn put(key: &[u8], value: &[u8]) -> Option<Record> {
    Some(Record::Put(Key::new(key).ok()?, Value::new(value).ok()?))
}

/// A delete; none if the key is too long.
pub fn del(key: &[u8]) -> Option<Record> {
    Some(Record::Del(Key::new(key).ok()?))
}

/// A record as pages apply it.
pub fn packed(alloc: Global, record: &Record) -> Option<Packed>
    ensures { IfSome result (λ packed. packed ≡ record.now) }
{
    Packed::of(alloc, record).ok()
}

/// A put as pages apply it.
pub fn packed_put(alloc: Global, key: &[u8], value: &[u8]) -> Option<Packed> {
    packed(alloc, &put(key, value)?)
}

/// Puts, and a delete if there is no value.
pub fn records(alloc: Global, changes: &[(&str, Option<&str>)]) -> Option<Vec<Record>> {
    let mut records = Vec::new(alloc);
    for (key, value) in changes {
        let record = match value {
            Some(value) => put(key.as_bytes(), value.as_bytes()),
            None => del(key.as_bytes()),
        };
        records.push(record?).ok()?;
    }
    Some(records)
}

/// Puts, and a delete if there is no value, as pages apply them.
pub fn all_packed(alloc: Global, changes: &[(&str, Option<&str>)]) -> Option<Vec<Packed>> {
    let mut all = Vec::new(alloc);
    for record in records(alloc, changes)?.as_slice() {
        all.push(packed(alloc, record)?).ok()?;
    }
    Some(all)
}
