//! What writers put.

ghost use Rattle.std.specs.Prelude.{◌≡◌, ◌<◌, length, map};
ghost use Rattle.bw_ring.specs.Ends.{ring_of_feed};

use bw_codec::{Key, LengthError, Record, Value};
use bw_ring::{Feed, Group};

/// A put, or with no value a delete.
pub fn record(key: &[u8], value: Option<&[u8]>) -> Result<Record, LengthError> {
    let key = Key::new(key)?;
    match value {
        Some(value) => Ok(Record::Put(key, Value::new(value)?)),
        None => Ok(Record::Del(key)),
    }
}

/// A writer's record of a number: its key is the writer's letter and the number, which its value
/// is too.
pub fn numbered(writer: u8, number: u32) -> Record {
    let [_, high, middle, low] = number.to_be_bytes();
    let Ok(key) = Key::new(&[writer, high, middle, low]) else {
        unreachable!()
    };
    let Ok(value) = Value::new(&[middle, low]) else {
        unreachable!()
    };
    Record::Put(key, value)
}

/// Whether a writer's feed takes the record.
pub fn is_put(feeds: &mut Vec<Feed>, writer: usize, item: Record) -> bool
    requires { writer < length feeds.old.items }
    ensures { map ring_of_feed feeds.new.items ≡ map ring_of_feed feeds.old.items }
{
    let _ = feeds.as_slice().len();
    put_one(&mut feeds[writer], item)
}

fn put_one(feed: &mut Feed, item: Record) -> bool
    ensures { ring_of_feed feed.new ≡ ring_of_feed feed.old }
{
    feed.put(item).is_ok()
}

/// Whether a writer's feed takes its first so many records.
pub fn are_put(feeds: &mut Vec<Feed>, writer: usize, count: u32) -> bool
    requires { writer < length feeds.old.items }
    ensures { map ring_of_feed feeds.new.items ≡ map ring_of_feed feeds.old.items }
{
    let letter = if writer == 0 { b'a' } else { b'b' };
    let _ = feeds.as_slice().len();
    put_all(&mut feeds[writer], letter, count)
}

fn put_all(feed: &mut Feed, writer: u8, count: u32) -> bool
    ensures { ring_of_feed feed.new ≡ ring_of_feed feed.old }
{
    'numbers: for number in 0..count {
        if feed.put(numbered(writer, number)).is_err() {
            return false;
        }
    }
    true
}

/// A record of a group.
#[derive(Drop)]
pub enum Op {
    /// A key and its new value.
    Set(&'static [u8], &'static [u8]),
    /// A key that is deleted.
    Unset(&'static [u8]),
}

use Op::{Set, Unset};

/// Of two keys the first is set again.
pub const AGAIN: &[Op] = &[Set(b"k", b"1"), Set(b"j", b"2"), Set(b"k", b"3")];

/// Two records of other keys.
pub const TWO: &[Op] = &[Set(b"a", b"1"), Set(b"b", b"2")];

/// As many as a page holds.
pub const FOUR: &[Op] = &[
    Set(b"a", b"1"),
    Set(b"b", b"2"),
    Set(b"c", b"3"),
    Set(b"d", b"4"),
];

/// The next four.
pub const NEXT: &[Op] = &[
    Set(b"e", b"5"),
    Set(b"f", b"6"),
    Set(b"g", b"7"),
    Set(b"h", b"8"),
];

/// Five records; the third one's key is the second one's with a byte 0 after it.
pub const BESIDE_ZERO: &[Op] = &[
    Set(b"A", b"1"),
    Set(b"a", b"2"),
    Set(b"a\0", b"3"),
    Set(b"b", b"4"),
    Set(b"c", b"5"),
];

/// The last of these cuts the page.
pub const FIVE: &[Op] = &[
    Set(b"a", b"1"),
    Set(b"b", b"2"),
    Set(b"c", b"3"),
    Set(b"d", b"4"),
    Set(b"e", b"5"),
];

fn record_of(op: &Op) -> Result<Record, LengthError> {
    match op {
        Set(key, value) => record(*key, Some(*value)),
        Unset(key) => record(*key, None),
    }
}

// The group of these; none if there are none, or too many.
fn group_of(ops: &[Op]) -> Option<Group> {
    let (first, rest) = ops.split_first()?;
    let mut group = Group::one(record_of(first).ok()?);
    for op in rest {
        group.push(record_of(op).ok()?).ok()?;
    }
    Some(group)
}

fn put_group(feed: &mut Feed, group: Group) -> bool
    ensures { ring_of_feed feed.new ≡ ring_of_feed feed.old }
{
    feed.put_group(group).is_ok()
}

/// Whether a writer's feed takes the group, as expected.
pub fn is_grouped(feeds: &mut Vec<Feed>, writer: usize, ops: &[Op], told: bool) -> bool
    requires { writer < length feeds.old.items }
    ensures { map ring_of_feed feeds.new.items ≡ map ring_of_feed feeds.old.items }
{
    let Some(group) = group_of(ops) else {
        return false;
    };
    let _ = feeds.as_slice().len();
    put_group(&mut feeds[writer], group) == told
}

/// Whether a writer's feed takes each of the records, by itself.
pub fn are_each_put(feeds: &mut Vec<Feed>, writer: usize, ops: &[Op]) -> bool
    requires { writer < length feeds.old.items }
    ensures { map ring_of_feed feeds.new.items ≡ map ring_of_feed feeds.old.items }
{
    let _ = feeds.as_slice().len();
    put_each(&mut feeds[writer], ops)
}

fn put_each(feed: &mut Feed, ops: &[Op]) -> bool
    ensures { ring_of_feed feed.new ≡ ring_of_feed feed.old }
{
    'records: for op in ops {
        let is_put = match record_of(op) {
            Ok(item) => feed.put(item).is_ok(),
            Err(_) => false,
        };
        if !is_put {
            return false;
        }
    }
    true
}

/// Whether a writer's feed takes so many puts of a key, each with a value of so many bytes.
pub fn are_same(feeds: &mut Vec<Feed>, writer: usize, key: &[u8], count: u32, bytes: usize) -> bool
    requires { writer < length feeds.old.items }
    ensures { map ring_of_feed feeds.new.items ≡ map ring_of_feed feeds.old.items }
{
    let value = [b'v'; 512];
    let Some(value) = value.get(..bytes) else {
        return false;
    };
    let Ok(item) = record(key, Some(value)) else {
        return false;
    };
    let _ = feeds.as_slice().len();
    put_same(&mut feeds[writer], &item, count)
}

fn put_same(feed: &mut Feed, item: &Record, count: u32) -> bool
    ensures { ring_of_feed feed.new ≡ ring_of_feed feed.old }
{
    'copies: for _ in 0..count {
        if feed.put(item.copy()).is_err() {
            return false;
        }
    }
    true
}
