//! Keys of the store, each with its kind in front.

ghost use Rattle.std.specs.Prelude.{◌≡◌, ◌+◌, ◌<◌, [], ◌∷◌, ◌++◌, None, Some, length, MatchOption};
ghost use Rattle.bw_rows.specs.Spelling as spelled;
ghost use Rattle.bw_rows.specs.Spelling.{four};

use crate::names::{Name, Number, RowKey, TableNumber};
use bw_record::Key;
use bw_record::limits::MAX_KEY;

const MARK: u8 = 0;

const NAME: u8 = 1;

const DOOMED: u8 = 2;

const GONE: u8 = 3;

const FREE: u8 = 4;

const STANDS: u8 = 5;

const ASIDE: u8 = 6;

const CHUNK: u8 = 7;

const ROW: u8 = 8;

// The key of a kind, and of what stands after it in two parts.
fn spelled(kind: u8, front: &[u8], back: &[u8]) -> Key
    requires { length front.now + length back.now < 128 }
    ensures { result ≡ kind ∷ (front.now ++ back.now) }
{
    let middle = 1 + front.len();
    let end = middle + back.len();
    let mut bytes = [0; MAX_KEY];
    bytes[0] = kind;
    bytes[1..middle].copy_from_slice(front);
    bytes[middle..end].copy_from_slice(back);
    match Key::new(&bytes[..end]) {
        Ok(key) => key,
        Err(_) => unreachable!(),
    }
}

/// The key of the mark that a folder has tables.
pub fn mark_key() -> Key
    ensures { result ≡ spelled.mark_key }
{
    spelled(MARK, &[], &[])
}

/// The key of a table's name.
pub fn name_key(name: &Name) -> Key
    ensures { result ≡ spelled.name_key name.now }
{
    spelled(NAME, name.as_slice(), &[])
}

/// The key that dooms a value's number.
pub fn doomed_key(number: Number) -> Key
    ensures { result ≡ spelled.doomed_key number.bytes }
{
    spelled(DOOMED, &number.bytes, &[])
}

/// The key that says that a table's number is gone.
pub fn gone_key(table: TableNumber) -> Key
    ensures { result ≡ spelled.gone_key table.bytes }
{
    spelled(GONE, &table.bytes, &[])
}

/// The key that says that a value's number may be taken again.
pub fn free_key(number: Number) -> Key
    ensures { result ≡ spelled.free_key number.bytes }
{
    spelled(FREE, &number.bytes, &[])
}

/// The key that makes a batch stand.
pub fn stands_key() -> Key
    ensures { result ≡ spelled.stands_key }
{
    spelled(STANDS, &[], &[])
}

/// The key of a row aside: that of its row, but for the kind.
pub fn aside_key(table: TableNumber, key: &RowKey) -> Key
    ensures { result ≡ spelled.aside_key (spelled.row_place table.bytes key.now) }
{
    spelled(ASIDE, &table.bytes, key.as_slice())
}

/// The key of a chunk of a long value; the first is 0.
#[tactic(auto, unfolding(crate::specs::Spelling::four))]
pub fn chunk_key(number: Number, i: u32) -> Key
    ensures { result ≡ spelled.chunk_key (spelled.chunk_place number.bytes i) }
{
    spelled(CHUNK, &number.bytes, &i.to_be_bytes())
}

/// The key of a row.
pub fn row_key(table: TableNumber, key: &RowKey) -> Key
    ensures { result ≡ spelled.row_key (spelled.row_place table.bytes key.now) }
{
    spelled(ROW, &table.bytes, key.as_slice())
}

/// The number of a row's table, and its own key; `None` if this is the key of no row.
pub fn read_row_key(bytes: &[u8]) -> Option<(TableNumber, &[u8])>
    ensures { MatchOption result (spelled.row_of bytes.now ≡ None)
        (λ row. spelled.row_of bytes.now ≡ Some (row.0.bytes, row.1.now)) }
{
    match bytes {
        [ROW, high, low, key @ ..] => Some((
            TableNumber {
                bytes: [*high, *low],
            },
            key,
        )),
        _ => None,
    }
}

/// The number of a row's table, and its own key, in the key of the row aside; `None` if this is the
/// key of no row aside.
pub fn read_aside_key(bytes: &[u8]) -> Option<(TableNumber, &[u8])>
    ensures { MatchOption result (spelled.aside_of bytes.now ≡ None)
        (λ row. spelled.aside_of bytes.now ≡ Some (row.0.bytes, row.1.now)) }
{
    match bytes {
        [ASIDE, high, low, key @ ..] => Some((
            TableNumber {
                bytes: [*high, *low],
            },
            key,
        )),
        _ => None,
    }
}
