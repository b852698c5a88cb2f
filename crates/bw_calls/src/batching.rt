//! Batches: any number of changes, in any tables, as one step.
//!
//! Each change is written aside, under a key of its own. Then one pair more makes the batch stand:
//! that is the step, so from there on the tables have all its changes. The rows are carried out one
//! by one after that, and no answer changes. What a stop leaves of that an opening does.

ghost use Rattle.std.specs.Prelude.{◌≡◌, ◌<◌, ◌≤◌, [], ◌∷◌, true, false, None, Some, length, nat_eq, IfErr, IfOk, IfSome, IsTrue, OnOk};
ghost use Rattle.std.specs.List.{starts_with};
ghost use Rattle.bw_rows.specs.Spelling.{stands_key};
ghost use Rattle.bw_rows.specs.Meaning.{Tables};
ghost use Rattle.bw_rows.specs.Laws.{IsLawful, IsTables};
ghost use Rattle.bw_rows.specs.Batches.{said, FitsAside, HasNoAside, IsGathering, IsLeft, IsStanding};
ghost use Rattle.bw_home.specs.Maps.{maps_of};
ghost use Rattle.bw_home.specs.Ready.{IsReady};
ghost use Rattle.bw_calls.specs.Batches.{bytes_in, with_change, with_changes, Gathers, IsBatchLeftBy, IsOneRecord, IsShort, IsUpTo};
ghost use Rattle.bw_calls.specs.Changes.{IsFirstOf};
ghost use Rattle.bw_calls.specs.Lives.{Goes, Reads, Stays};
ghost use Rattle.bw_calls.specs.Standing.{plain_in, tables_in, waits};

use crate::collecting::collect_all;
use crate::fault::TableFault;
use crate::reading::{check, head_of, number_of};
use crate::ways;
use crate::writing::write;
use bw_codec::{Key, Record, Value};
use bw_home::Home;
use bw_ring::Group;
use bw_rows::limits::{MAX_LEN, MAX_WHOLE};
use bw_rows::{
    Head, Name, RowKey, TableNumber, no_row, read_aside_key, row_key, stands_key, whole,
};
use bw_tables::{aside_row, batch_end, batch_step, carry_row};

// The kind of keys of rows aside.
const ASIDE: u8 = 6;

// How many records a group may have.
const MOST: usize = 4;

/// What a batch does with one key of a table.
#[derive(Debug, Drop)]
pub struct Change {
    /// The name of the table.
    pub table: Name,
    /// The key in it.
    pub key: RowKey,
    /// The value that the key gets, of up to 16,777,216 bytes; `None` if the key goes away.
    pub value: Option<Vec<u8>>,
}

// A row aside, by a hint, with its key of the store.
fn first_aside(home: &mut Home, hint: &Key) -> Result<Option<(Key, Value)>, TableFault>
    requires { IsReady home.old holding }
    ensures ready { IsReady home.new holding }
    ensures same { (maps_of home.new holding).put ≡ (maps_of home.old holding).put }
    ensures first { IfOk result (λ pair. IsFirstOf (plain_in home.old holding) (6 ∷ []) pair) }
    ensures before { IfErr result (λ fault. waits fault ≡ false) }
    ensures leaves { Reads home.old home.new holding }
{
    ways::some_of(home, ways::key_of(&[ASIDE]), hint)
}

// A row aside goes away, of a batch that does not stand.
fn drop_aside(home: &mut Home, key: Key) -> Result<(), TableFault>
    requires ready { IsReady home.old holding }
    ensures ready { IsReady home.new holding }
    ensures stays { IsLawful (plain_in home.old holding) → IsTrue (starts_with nat_eq key (6 ∷ []))
        → IsTables (tables_in home.old holding) (plain_in home.new holding) }
    ensures before { IfErr result (λ fault. waits fault ≡ false) }
    ensures leaves { IsLawful (plain_in home.old holding) → IsTrue (starts_with nat_eq key (6 ∷ []))
        → Stays (tables_in home.old holding) home.old home.new holding }
{
    ways::prepare(home, Group::one(Record::Del(key)))
}

// All rows aside go away, of a batch that does not stand.
fn clear_asides(home: &mut Home) -> Result<(), TableFault>
    requires { IsReady home.old holding }
    ensures ready { IsReady home.new holding }
    ensures stays { IsLawful (plain_in home.old holding)
        → IsTables (tables_in home.old holding) (plain_in home.new holding) }
    ensures none { OnOk result (HasNoAside (plain_in home.new holding)) }
    ensures before { IfErr result (λ fault. waits fault ≡ false) }
    ensures leaves { IsLawful (plain_in home.old holding)
        → Stays (tables_in home.old holding) home.old home.new holding }
{
    let mut hint = ways::key_of(&[ASIDE]);
    'rows: for _ in 0..u64::MAX {
        match first_aside(home, &hint)? {
            Some((key, _)) => {
                hint = key.copy();
                drop_aside(home, key)?;
            }
            None => return Ok(()),
        }
    }
    Err(TableFault::NotTables)
}

// ---- the changes are set aside

// A row is written aside.
fn put_aside(
    home: &mut Home,
    table: TableNumber,
    key: &RowKey,
    row: Value,
) -> Result<(), TableFault>
    requires ready { IsReady home.old holding }
    ensures ready { IsReady home.new holding }
    ensures gathers { OnOk result (FitsAside (plain_in home.old holding) row
        → Gathers (plain_in home.old holding) table.bytes key.now
        (said (plain_in home.old holding) (Some row) None) (plain_in home.new holding)) }
    ensures stays { IsLawful (plain_in home.old holding)
        → IsTables (tables_in home.old holding) (plain_in home.new holding) }
    ensures before { IfErr result (λ fault. waits fault ≡ false) }
    ensures leaves { IsLawful (plain_in home.old holding)
        → Stays (tables_in home.old holding) home.old home.new holding }
{
    ways::prepare(home, aside_row(table, key, row))
}

// A key is to go away.
fn set_none(home: &mut Home, table: TableNumber, key: &RowKey) -> Result<(), TableFault>
    requires ready { IsReady home.old holding }
    ensures ready { IsReady home.new holding }
    ensures gathers { OnOk result (Gathers (plain_in home.old holding) table.bytes key.now
        None (plain_in home.new holding)) }
    ensures stays { IsLawful (plain_in home.old holding)
        → IsTables (tables_in home.old holding) (plain_in home.new holding) }
    ensures before { IfErr result (λ fault. waits fault ≡ false) }
    ensures leaves { IsLawful (plain_in home.old holding)
        → Stays (tables_in home.old holding) home.old home.new holding }
{
    put_aside(home, table, key, no_row())
}

// A key is to get a value that stands in its row.
fn set_short(
    home: &mut Home,
    table: TableNumber,
    key: &RowKey,
    value: &[u8],
) -> Result<(), TableFault>
    requires ready { IsReady home.old holding }
    requires short { length value.now ≤ 511 }
    ensures ready { IsReady home.new holding }
    ensures gathers { OnOk result (Gathers (plain_in home.old holding) table.bytes key.now
        (Some value.now) (plain_in home.new holding)) }
    ensures stays { IsLawful (plain_in home.old holding)
        → IsTables (tables_in home.old holding) (plain_in home.new holding) }
    ensures before { IfErr result (λ fault. waits fault ≡ false) }
    ensures leaves { IsLawful (plain_in home.old holding)
        → Stays (tables_in home.old holding) home.old home.new holding }
{
    put_aside(home, table, key, whole(value))
}

// A key is to get a long value, whose chunks go in first.
fn set_long(
    home: &mut Home,
    table: TableNumber,
    key: &RowKey,
    value: &[u8],
) -> Result<(), TableFault>
    requires ready { IsReady home.old holding }
    requires long { 511 < length value.now }
    requires few { length value.now ≤ 16777216 }
    ensures ready { IsReady home.new holding }
    ensures gathers { OnOk result (Gathers (plain_in home.old holding) table.bytes key.now
        (Some value.now) (plain_in home.new holding)) }
    ensures stays { IsLawful (plain_in home.old holding)
        → IsTables (tables_in home.old holding) (plain_in home.new holding) }
    ensures before { IfErr result (λ fault. waits fault ≡ false) }
    ensures leaves { IsLawful (plain_in home.old holding)
        → Stays (tables_in home.old holding) home.old home.new holding }
{
    let number = write(home, value)?;
    let head = Head {
        number,
        len: value.len() as u64,
    };
    put_aside(home, table, key, head.row())
}

// A key is to get a value of any length.
fn set_value(
    home: &mut Home,
    table: TableNumber,
    key: &RowKey,
    value: &[u8],
) -> Result<(), TableFault>
    requires ready { IsReady home.old holding }
    ensures ready { IsReady home.new holding }
    ensures gathers { OnOk result (Gathers (plain_in home.old holding) table.bytes key.now
        (Some value.now) (plain_in home.new holding)) }
    ensures stays { IsLawful (plain_in home.old holding)
        → IsTables (tables_in home.old holding) (plain_in home.new holding) }
    ensures before { IfErr result (λ fault. waits fault ≡ false) }
    ensures leaves { IsLawful (plain_in home.old holding)
        → Stays (tables_in home.old holding) home.old home.new holding }
{
    if value.len() <= MAX_WHOLE {
        return set_short(home, table, key, value);
    }
    if value.len() > MAX_LEN {
        return Err(TableFault::TooLong);
    }
    set_long(home, table, key, value)
}

// A key of a table is to get a value, or to go away.
fn set_at(
    home: &mut Home,
    table: TableNumber,
    key: &RowKey,
    value: &Option<Vec<u8>>,
) -> Result<(), TableFault>
    requires ready { IsReady home.old holding }
    ensures ready { IsReady home.new holding }
    ensures gathers { OnOk result (Gathers (plain_in home.old holding) table.bytes key.now
        (bytes_in value.now) (plain_in home.new holding)) }
    ensures stays { IsLawful (plain_in home.old holding)
        → IsTables (tables_in home.old holding) (plain_in home.new holding) }
    ensures before { IfErr result (λ fault. waits fault ≡ false) }
    ensures leaves { IsLawful (plain_in home.old holding)
        → Stays (tables_in home.old holding) home.old home.new holding }
{
    match value {
        Some(value) => set_value(home, table, key, value.as_slice()),
        None => set_none(home, table, key),
    }
}

// A change is set aside.
fn set_aside(home: &mut Home, change: &Change) -> Result<(), TableFault>
    requires ready { IsReady home.old holding }
    ensures ready { IsReady home.new holding }
    ensures gathers { (tables next : Tables) → IsGathering tables next (plain_in home.old holding)
        → OnOk result (IsGathering tables (with_change next change.now)
        (plain_in home.new holding)) }
    ensures stays { IsLawful (plain_in home.old holding)
        → IsTables (tables_in home.old holding) (plain_in home.new holding) }
    ensures before { IfErr result (λ fault. waits fault ≡ false) }
    ensures leaves { IsLawful (plain_in home.old holding)
        → Stays (tables_in home.old holding) home.old home.new holding }
{
    match number_of(home, &change.table)? {
        Some(table) => set_at(home, table, &change.key, &change.value),
        None => Err(TableFault::NoTable),
    }
}

// All changes are set aside, in their order.
fn gather(home: &mut Home, changes: &[Change]) -> Result<(), TableFault>
    requires ready { IsReady home.old holding }
    ensures ready { IsReady home.new holding }
    ensures gathers { (tables next : Tables) → IsGathering tables next (plain_in home.old holding)
        → OnOk result (IsGathering tables (with_changes next changes.now)
        (plain_in home.new holding)) }
    ensures stays { IsLawful (plain_in home.old holding)
        → IsTables (tables_in home.old holding) (plain_in home.new holding) }
    ensures before { IfErr result (λ fault. waits fault ≡ false) }
    ensures leaves { IsLawful (plain_in home.old holding)
        → Stays (tables_in home.old holding) home.old home.new holding }
{
    'changes: for i in 0..changes.len() {
        set_aside(home, &changes[i])?;
    }
    Ok(())
}

// ---- the batch is carried out

// The group that carries out a row aside, of a batch that stands.
fn carry(home: &mut Home, key: &Key, aside: Value) -> Result<(), TableFault>
    requires ready { IsReady home.old holding }
    ensures ready { IsReady home.new holding }
    ensures stands { (tables : Tables) → IsStanding tables (plain_in home.old holding)
        → plain_in home.old holding key.now ≡ Some aside
        → IsStanding tables (plain_in home.new holding) }
    ensures leaves { (tables : Tables) → IsStanding tables (plain_in home.old holding)
        → plain_in home.old holding key.now ≡ Some aside
        → Stays tables home.old home.new holding }
{
    let Some((table, bytes)) = read_aside_key(key.as_slice()) else {
        return Err(TableFault::NotTables);
    };
    let Ok(key) = RowKey::new(bytes) else {
        return Err(TableFault::NotTables);
    };
    let old = head_of(home, table, &key)?;
    ways::prepare(home, carry_row(table, &key, aside, old))
}

// Nothing is left aside, so the batch stands no more.
fn end_batch(home: &mut Home) -> Result<(), TableFault>
    requires ready { IsReady home.old holding }
    ensures ready { IsReady home.new holding }
    ensures done { (tables : Tables) → IsStanding tables (plain_in home.old holding)
        → HasNoAside (plain_in home.old holding)
        → OnOk result (IsTables tables (plain_in home.new holding)) }
    ensures left { (tables : Tables) → IsStanding tables (plain_in home.old holding)
        → HasNoAside (plain_in home.old holding)
        → IsLeft tables (plain_in home.new holding) }
    ensures none { HasNoAside (plain_in home.old holding)
        → HasNoAside (plain_in home.new holding) }
    ensures leaves { (tables : Tables) → IsStanding tables (plain_in home.old holding)
        → HasNoAside (plain_in home.old holding)
        → Stays tables home.old home.new holding }
{
    ways::prepare(home, batch_end())
}

// All rows aside are carried out, of a batch that stands, and then it stands no more.
fn carry_all(home: &mut Home) -> Result<(), TableFault>
    requires ready { IsReady home.old holding }
    ensures ready { IsReady home.new holding }
    ensures done { (tables : Tables) → IsStanding tables (plain_in home.old holding)
        → OnOk result (IsTables tables (plain_in home.new holding)) }
    ensures left { (tables : Tables) → IsStanding tables (plain_in home.old holding)
        → IsLeft tables (plain_in home.new holding) }
    ensures none { OnOk result (HasNoAside (plain_in home.new holding)) }
    ensures leaves { (tables : Tables) → IsStanding tables (plain_in home.old holding)
        → Stays tables home.old home.new holding }
{
    let mut hint = ways::key_of(&[ASIDE]);
    'rows: for _ in 0..u64::MAX {
        match first_aside(home, &hint)? {
            Some((key, aside)) => {
                carry(home, &key, aside)?;
                hint = key;
            }
            None => return end_batch(home),
        }
    }
    Err(TableFault::NotTables)
}

/// What a stop or a refusal left of a batch is finished: if it stands, it is carried out, and else
/// what is aside of it goes away.
pub(crate) fn settle(home: &mut Home) -> Result<(), TableFault>
    requires ready { IsReady home.old holding }
    ensures ready { IsReady home.new holding }
    ensures stays { IsLawful (plain_in home.old holding)
        → IsTables (tables_in home.old holding) (plain_in home.new holding) }
    ensures done { (tables : Tables) → IsLeft tables (plain_in home.old holding)
        → OnOk result (IsTables tables (plain_in home.new holding)) }
    ensures left { (tables : Tables) → IsLeft tables (plain_in home.old holding)
        → IsLeft tables (plain_in home.new holding) }
    ensures none { OnOk result (HasNoAside (plain_in home.new holding)) }
    ensures leaves { (tables : Tables) → IsLeft tables (plain_in home.old holding)
        → Stays tables home.old home.new holding }
{
    match ways::get(home, &stands_key())? {
        Some(_) => carry_all(home),
        None => clear_asides(home),
    }
}

// What follows the step of a batch. If that is refused, an opening does it.
fn finish(home: &mut Home) -> Result<(), TableFault>
    requires ready { IsReady home.old holding }
    ensures ready { IsReady home.new holding }
    ensures left { (tables : Tables) → IsStanding tables (plain_in home.old holding)
        → IsLeft tables (plain_in home.new holding) }
    ensures leaves { (tables : Tables) → IsStanding tables (plain_in home.old holding)
        → Stays tables home.old home.new holding }
{
    carry_all(home)?;
    collect_all(home)
}

// ---- a small batch

// The record of a change whose value stands in its row.
fn short_record(table: TableNumber, change: &Change) -> Option<Record>
    ensures { IfSome result (λ r. IsShort table.bytes change.now r) }
{
    match &change.value {
        None => Some(Record::Del(row_key(table, &change.key))),
        Some(value) if value.len() <= MAX_WHOLE => Some(Record::Put(
            row_key(table, &change.key),
            whole(value.as_slice()),
        )),
        Some(_) => None,
    }
}

// The record of a change, if its value stands in its row and the row before it names nothing.
fn record_of(home: &mut Home, change: &Change) -> Result<Option<Record>, TableFault>
    requires { IsReady home.old holding }
    ensures ready { IsReady home.new holding }
    ensures same { (maps_of home.new holding).put ≡ (maps_of home.old holding).put }
    ensures found { IfOk result (λ found. IfSome found (λ r.
        IsOneRecord (plain_in home.old holding) change.now r)) }
    ensures before { IfErr result (λ fault. waits fault ≡ false) }
    ensures leaves { Reads home.old home.new holding }
{
    let Some(table) = number_of(home, &change.table)? else {
        return Err(TableFault::NoTable);
    };
    match head_of(home, table, &change.key)? {
        Some(_) => Ok(None),
        None => Ok(short_record(table, change)),
    }
}

// Adds the record of a change to a group that makes those before it; answers whether it has one,
// and there was room.
fn join(home: &mut Home, change: &Change, group: &mut Group) -> Result<bool, TableFault>
    requires { IsReady home.old holding }
    ensures ready { IsReady home.new holding }
    ensures same { (maps_of home.new holding).put ≡ (maps_of home.old holding).put }
    ensures joined { (tables : Tables) → IsUpTo (plain_in home.old holding) tables group.old
        → IfOk result (λ has. has ≡ true → IsUpTo (plain_in home.old holding)
        (with_change tables change.now) group.new) }
    ensures before { IfErr result (λ fault. waits fault ≡ false) }
    ensures leaves { Reads home.old home.new holding }
{
    match record_of(home, change)? {
        Some(item) => Ok(group.push(item).is_ok()),
        None => Ok(false),
    }
}

// The one group that makes all changes: there are at most four, each value stands in its row, and
// no row before them names anything. `None` if it is not so.
fn group_of(home: &mut Home, changes: &[Change]) -> Result<Option<Group>, TableFault>
    requires { IsReady home.old holding }
    ensures ready { IsReady home.new holding }
    ensures same { (maps_of home.new holding).put ≡ (maps_of home.old holding).put }
    ensures group { IsLawful (plain_in home.old holding)
        → IfOk result (λ group. IfSome group (λ g. IsUpTo (plain_in home.old holding)
        (with_changes (tables_in home.old holding) changes.now) g)) }
    ensures before { IfErr result (λ fault. waits fault ≡ false) }
    ensures leaves { Reads home.old home.new holding }
{
    if changes.is_empty() || changes.len() > MOST {
        return Ok(None);
    }
    let Some(first) = record_of(home, &changes[0])? else {
        return Ok(None);
    };
    let mut group = Group::one(first);
    'changes: for i in 1..changes.len() {
        if !join(home, &changes[i], &mut group)? {
            return Ok(None);
        }
    }
    Ok(Some(group))
}

// A batch of any size.
fn batch_by_rows(home: &mut Home, changes: &[Change]) -> Result<(), TableFault>
    requires ready { IsReady home.old holding }
    ensures ready { IsReady home.new holding }
    ensures made { IsLawful (plain_in home.old holding)
        → OnOk result (IsLeft (with_changes (tables_in home.old holding) changes.now)
        (plain_in home.new holding)) }
    ensures refused { IsLawful (plain_in home.old holding)
        → IfErr result (λ fault. IsBatchLeftBy fault (tables_in home.old holding)
        (with_changes (tables_in home.old holding) changes.now) (plain_in home.new holding)) }
    ensures leaves { IsLawful (plain_in home.old holding)
        → Goes (tables_in home.old holding)
        (with_changes (tables_in home.old holding) changes.now) home.old home.new holding }
{
    clear_asides(home)?;
    gather(home, changes)?;
    match ways::step(home, batch_step()) {
        Ok(()) => {
            let _ = finish(home);
            Ok(())
        }
        Err(fault) => Err(fault),
    }
}

/// Makes any number of changes, in any tables, as one step: a stop leaves all of them or none. A
/// later change of a key takes the place of an earlier one. It is seen from then on; `Home::keep`
/// makes it durable.
///
/// Up to four short values over such ones go in as one group. Else each row is written twice, and
/// the chunks of long values once. Refused `NoTable`, `TooLong`, and else as `put` is: after
/// `Waits` the tables have all changes, and after any other none. If what follows the step is
/// refused, it answers Ok all the same. The batch is then not carried out, nor is it after `Waits`:
/// until `open` has done so, each call is refused `Unfinished`.
pub fn batch(home: &mut Home, changes: &[Change]) -> Result<(), TableFault>
    requires ready { IsReady home.old holding }
    ensures ready { IsReady home.new holding }
    ensures made { IsLawful (plain_in home.old holding)
        → OnOk result (IsLeft (with_changes (tables_in home.old holding) changes.now)
        (plain_in home.new holding)) }
    ensures refused { IsLawful (plain_in home.old holding)
        → IfErr result (λ fault. IsBatchLeftBy fault (tables_in home.old holding)
        (with_changes (tables_in home.old holding) changes.now) (plain_in home.new holding)) }
    ensures quiet { OnOk result (plain_in home.old holding stands_key ≡ None) }
    ensures leaves { IsLawful (plain_in home.old holding)
        → Goes (tables_in home.old holding)
        (with_changes (tables_in home.old holding) changes.now) home.old home.new holding }
{
    check(home)?;
    match group_of(home, changes)? {
        Some(group) => ways::step(home, group),
        None => batch_by_rows(home, changes),
    }
}
