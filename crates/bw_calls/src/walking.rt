//! The keys of a table, in their order.

ghost use Rattle.std.specs.Prelude.{◌≡◌, [], ◌∷◌, ◌++◌, false, None, Some, IfErr, IfOk, OnOk};
ghost use Rattle.bw_leaf.specs.Changed.{Bytes};
ghost use Rattle.bw_rows.specs.Spelling as spelling;
ghost use Rattle.bw_rows.specs.Meaning.{value_of};
ghost use Rattle.bw_rows.specs.Laws.{IsLawful};
ghost use Rattle.bw_home.specs.Maps.{maps_of};
ghost use Rattle.bw_home.specs.Ready.{IsReady};
ghost use Rattle.bw_calls.specs.Standing.{plain_in, tables_in, waits};
ghost use Rattle.bw_calls.specs.Lives.{Reads};
ghost use Rattle.bw_calls.specs.Walks.{rows_of, table_by, told, IsNextIn, IsRowOf};

use crate::fault::TableFault;
use crate::naming::front_of;
use crate::reading::{number_of, value_of};
use crate::ways;
use arrayvec::ArrayVec;
use bw_codec::limits::MAX_KEY;
use bw_codec::{Key, Value};
use bw_home::Home;
use bw_rows::{Name, RowKey, TableNumber, read_row_key, row_key};

// A key with a zero more, which is the least above it. The key of a row has room for it.
fn raised(key: &Key) -> Result<Key, TableFault>
    ensures raised { IfOk result (λ longer. longer ≡ key.now ++ 0 ∷ []) }
    ensures before { IfErr result (λ fault. waits fault ≡ false) }
{
    let mut bytes: ArrayVec<u8, MAX_KEY> = ArrayVec::new();
    let Ok(()) = bytes.try_extend_from_slice(key.as_slice()) else {
        return Err(TableFault::NotTables);
    };
    let Ok(()) = bytes.try_push(0) else {
        return Err(TableFault::NotTables);
    };
    match Key::new(bytes.as_slice()) {
        Ok(longer) => Ok(longer),
        Err(_) => Err(TableFault::NotTables),
    }
}

// The key of a row, if it is one of this table.
fn row_in(key: &[u8], table: TableNumber) -> Result<Option<RowKey>, TableFault>
    ensures row { IfOk result (λ row.
        IsRowOf (spelling.row_of key.now) table.bytes row) }
    ensures before { IfErr result (λ fault. waits fault ≡ false) }
{
    let Some((its, bytes)) = read_row_key(key) else {
        return Ok(None);
    };
    if its.bytes != table.bytes {
        return Ok(None);
    }
    match RowKey::new(bytes) {
        Ok(key) => Ok(Some(key)),
        Err(_) => Err(TableFault::NotTables),
    }
}

// The first row of a table at or above a place, which is that of a key.
fn row_from(
    home: &mut Home,
    table: TableNumber,
    place: &Key,
) -> Result<Option<(RowKey, Value)>, TableFault>
    requires { IsReady home.old holding }
    ensures ready { IsReady home.new holding }
    ensures same { (maps_of home.new holding).put ≡ (maps_of home.old holding).put }
    ensures row { (from : Bytes)
        → place.now ≡ spelling.row_key (spelling.row_place table.bytes from)
        → IfOk result (λ row.
        IsNextIn (Some (rows_of (plain_in home.old holding) table.bytes)) from row) }
    ensures before { IfErr result (λ fault. waits fault ≡ false) }
    ensures leaves { Reads home.old home.new holding }
{
    match ways::from(home, place)? {
        None => Ok(None),
        Some((key, row)) => match row_in(key.as_slice(), table)? {
            Some(key) => Ok(Some((key, row))),
            None => Ok(None),
        },
    }
}

// A pair, of a row that was read.
fn valued(home: &mut Home, key: RowKey, row: Value) -> Result<Option<(RowKey, Vec<u8>)>, TableFault>
    requires { IsReady home.old holding }
    ensures ready { IsReady home.new holding }
    ensures same { (maps_of home.new holding).put ≡ (maps_of home.old holding).put }
    ensures value { IfOk result (λ pair. told pair
        ≡ Some (key, value_of (plain_in home.old holding) row)) }
    ensures before { IfErr result (λ fault. waits fault ≡ false) }
    ensures leaves { Reads home.old home.new holding }
{
    let value = value_of(home, row.as_slice())?;
    Ok(Some((key, value)))
}

// The first pair of a table at or above a place.
fn pair_from(
    home: &mut Home,
    table: TableNumber,
    place: &Key,
) -> Result<Option<(RowKey, Vec<u8>)>, TableFault>
    requires { IsReady home.old holding }
    ensures ready { IsReady home.new holding }
    ensures same { (maps_of home.new holding).put ≡ (maps_of home.old holding).put }
    ensures pair { IsLawful (plain_in home.old holding) → (from : Bytes)
        → place.now ≡ spelling.row_key (spelling.row_place table.bytes from)
        → IfOk result (λ pair.
        IsNextIn (Some (table_by (plain_in home.old holding) table.bytes)) from (told pair)) }
    ensures before { IfErr result (λ fault. waits fault ≡ false) }
    ensures leaves { Reads home.old home.new holding }
{
    match row_from(home, table, place)? {
        None => Ok(None),
        Some((key, row)) => valued(home, key, row),
    }
}

/// The pair of a table with the least key; `None` if it has no key, or if no table has this name.
///
/// Refused as `get` is.
pub fn first(home: &mut Home, name: &Name) -> Result<Option<(RowKey, Vec<u8>)>, TableFault>
    requires { IsReady home.old holding }
    ensures ready { IsReady home.new holding }
    ensures same { (maps_of home.new holding).put ≡ (maps_of home.old holding).put }
    ensures pair { IsLawful (plain_in home.old holding)
        → IfOk result (λ pair. IsNextIn (tables_in home.old holding name.now) [] (told pair)) }
    ensures before { IfErr result (λ fault. waits fault ≡ false) }
    ensures quiet { OnOk result (plain_in home.old holding spelling.stands_key ≡ None) }
    ensures leaves { Reads home.old home.new holding }
{
    let Some(table) = number_of(home, name)? else {
        return Ok(None);
    };
    pair_from(home, table, &front_of(table))
}

/// The pair of a table with the least key at or above this one; `None` if there is none, or if no
/// table has this name. A walk over keys that begin so begins here, and goes on by `next_above`.
///
/// Refused as `get` is.
pub fn next_at(
    home: &mut Home,
    name: &Name,
    key: &RowKey,
) -> Result<Option<(RowKey, Vec<u8>)>, TableFault>
    requires { IsReady home.old holding }
    ensures ready { IsReady home.new holding }
    ensures same { (maps_of home.new holding).put ≡ (maps_of home.old holding).put }
    ensures pair { IsLawful (plain_in home.old holding)
        → IfOk result (λ pair.
        IsNextIn (tables_in home.old holding name.now) key.now (told pair)) }
    ensures before { IfErr result (λ fault. waits fault ≡ false) }
    ensures quiet { OnOk result (plain_in home.old holding spelling.stands_key ≡ None) }
    ensures leaves { Reads home.old home.new holding }
{
    let Some(table) = number_of(home, name)? else {
        return Ok(None);
    };
    pair_from(home, table, &row_key(table, key))
}

/// The pair of a table with the least key above this one, which is at or above the key and a zero;
/// `None` if there is none, or if no table has this name.
///
/// Refused as `get` is.
pub fn next_above(
    home: &mut Home,
    name: &Name,
    key: &RowKey,
) -> Result<Option<(RowKey, Vec<u8>)>, TableFault>
    requires { IsReady home.old holding }
    ensures ready { IsReady home.new holding }
    ensures same { (maps_of home.new holding).put ≡ (maps_of home.old holding).put }
    ensures pair { IsLawful (plain_in home.old holding)
        → IfOk result (λ pair.
        IsNextIn (tables_in home.old holding name.now) (key.now ++ 0 ∷ []) (told pair)) }
    ensures before { IfErr result (λ fault. waits fault ≡ false) }
    ensures quiet { OnOk result (plain_in home.old holding spelling.stands_key ≡ None) }
    ensures leaves { Reads home.old home.new holding }
{
    let Some(table) = number_of(home, name)? else {
        return Ok(None);
    };
    let place = raised(&row_key(table, key))?;
    pair_from(home, table, &place)
}
