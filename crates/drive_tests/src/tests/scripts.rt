//! What writers put, and what stands of it in a history.

ghost use Rattle.std.specs.Prelude.{◌≡◌, vec_len, IfOk};

use bw_codec::{Key, Record, Value};
use bw_ring::Group;
use bw_store::PackedEntry;
use std::alloc::{AllocError, Global};

/// A part of each writer's records: from which number on, how many, and how many keys they have in
/// turn.
#[derive(Clone, Copy)]
pub(super) struct Part(pub(super) u32, pub(super) u32, pub(super) u32);

fn digits(number: u32) -> [u8; 4] {
    let digit = |place: u32| (number / place % 10) as u8 + b'0';
    [digit(1000), digit(100), digit(10), digit(1)]
}

/// A writer's record of a number: its key is the writer's letter, `a` for writer 0, and four
/// digits; its value is the four digits of the number.
pub(super) fn numbered(writer: usize, number: u32, keys: u32) -> Record {
    let letter = (writer % 64) as u8 + b'a';
    let [a, b, c, d] = digits(number % keys.max(1));
    match (Key::new(&[letter, a, b, c, d]), Value::new(&digits(number))) {
        (Ok(key), Ok(value)) => Record::Put(key, value),
        _ => unreachable!(),
    }
}

/// How the records of a script stand in groups.
#[derive(Clone, Copy, PartialEq, Eq)]
pub(super) enum Sizes {
    /// Each by itself.
    One,
    /// One, two, three and four, in turn, counted from number 0 on.
    Mixed,
}

// Whether the record of a number stands in the group of the one before it.
fn joins(number: u32) -> bool {
    matches!(number % 10, 2 | 4 | 5 | 7 | 8 | 9)
}

// The record goes into the last group, or after it.
fn put_behind(script: &mut Vec<Group>, item: Record, is_joined: bool) -> Result<(), AllocError> {
    if is_joined && let Some(last) = script.as_mut_slice().last_mut() {
        let _ = last.push(item);
        return Ok(());
    }
    script.push(Group::one(item))?;
    Ok(())
}

fn script(
    alloc: Global,
    writer: usize,
    part: Part,
    sizes: Sizes,
) -> Result<Vec<Group>, AllocError> {
    let Part(from, records, keys) = part;
    let mut script = Vec::new(alloc);
    for number in from..from.saturating_add(records) {
        let is_joined = sizes == Sizes::Mixed && joins(number);
        put_behind(&mut script, numbered(writer, number, keys), is_joined)?;
    }
    Ok(script)
}

/// A script for each of so many writers.
pub(super) fn scripts(
    alloc: Global,
    writers: usize,
    part: Part,
    sizes: Sizes,
) -> Result<Vec<Vec<Group>>, AllocError>
    ensures { IfOk result (λ s. vec_len s ≡ writers) }
{
    let mut scripts = Vec::new(alloc);
    'writers: for writer in 0..writers {
        scripts.push(script(alloc, writer, part, sizes)?)?;
    }
    Ok(scripts)
}

/// How many entries each writer has, if they are its first records in order.
pub(super) fn begun(entries: &[PackedEntry], keys: u32) -> Option<[u32; 64]> {
    let mut next: [u32; 64] = [0; 64];
    for packed in entries {
        let entry = packed.entry();
        let writer = usize::from(entry.writer);
        let number = next.get_mut(writer)?;
        if entry.item != numbered(writer, *number, keys) {
            return None;
        }
        *number = number.saturating_add(1);
    }
    Some(next)
}

/// Whether the entries are whole groups of scripts of mixed sizes: an entry has `more` just where
/// the next of its writer's records stands in the same group, and then that one is the next entry.
pub(super) fn are_whole(entries: &[PackedEntry]) -> bool {
    let mut next: [u32; 64] = [0; 64];
    let mut behind: Option<u16> = None;
    for packed in entries {
        let entry = packed.entry();
        let Some(number) = next.get_mut(usize::from(entry.writer)) else {
            return false;
        };
        *number = number.saturating_add(1);
        if behind.is_some_and(|writer| writer != entry.writer) || entry.more != joins(*number) {
            return false;
        }
        behind = if entry.more { Some(entry.writer) } else { None };
    }
    behind.is_none()
}
