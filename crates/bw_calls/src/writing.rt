//! Values come and go.

ghost use Rattle.std.specs.Prelude.{◌≡◌, ◌+◌, ◌*◌, ◌<◌, ◌≤◌, false, Some, None, length, IfErr, IfOk, OnErr, OnOk};
ghost use Rattle.bw_rows.specs.Spelling.{chunks_in, stands_key, Bytes};
ghost use Rattle.bw_rows.specs.Meaning.{chunks_of, Tables, with_value};
ghost use Rattle.bw_rows.specs.Batches.{HasOthers};
ghost use Rattle.bw_rows.specs.Laws.{HasNumber, IsLawful, IsTables, IsUnnamed};
ghost use Rattle.bw_tables.specs.Writing.{IsWriting};
ghost use Rattle.bw_home.specs.Maps.{maps_of};
ghost use Rattle.bw_home.specs.Ready.{IsReady};
ghost use Rattle.bw_calls.specs.Lives.{Goes, Reads, Stays};
ghost use Rattle.bw_calls.specs.Standing.{plain_in, tables_in, waits, IsLeftBy, IsNotSet};
ghost use Rattle.bw_calls.specs.Changes.{HasSame, IsSet};

use crate::collecting::{CHUNK, DOOMED, collect};
use crate::fault::TableFault;
use crate::reading::{head_of, number_of};
use crate::ways;
use bw_home::Home;
use bw_rows::limits::{MAX_LEN, MAX_WHOLE};
use bw_rows::{Head, Name, Number, RowKey, TableNumber, chunk_count, chunk_key};
use bw_tables::{chunk_group, delete_step, first_group, long_step, short_step};

// The kind of keys of numbers that are free.
const FREE: u8 = 4;

// The number after the kind of a key.
fn number_in(key: &[u8]) -> Option<Number> {
    if key.len() < 9 {
        return None;
    }
    let mut bytes = [0; 8];
    bytes.copy_from_slice(&key[1..9]);
    Some(Number { bytes })
}

// The first number of a kind.
fn first_of(home: &mut Home, kind: u8) -> Result<Option<Number>, TableFault>
    requires { IsReady home.old holding }
    ensures ready { IsReady home.new holding }
    ensures same { (maps_of home.new holding).put ≡ (maps_of home.old holding).put }
    ensures before { IfErr result (λ fault. waits fault ≡ false) }
    ensures leaves { Reads home.old home.new holding }
{
    match ways::first(home, ways::key_of(&[kind]))? {
        Some((key, _)) => Ok(number_in(key.as_slice())),
        None => Ok(None),
    }
}

// One above the last number of a kind; 0 if there is none.
fn behind(home: &mut Home, kind: u8) -> Result<u64, TableFault>
    requires ready { IsReady home.old holding }
    requires least { kind < 255 }
    ensures ready { IsReady home.new holding }
    ensures same { (maps_of home.new holding).put ≡ (maps_of home.old holding).put }
    ensures before { IfErr result (λ fault. waits fault ≡ false) }
    ensures leaves { Reads home.old home.new holding }
{
    let Some((key, _)) = ways::below(home, &ways::key_of(&[kind + 1]))? else {
        return Ok(0);
    };
    if !key.as_slice().starts_with(&[kind]) {
        return Ok(0);
    }
    match number_in(key.as_slice()) {
        Some(number) => Ok(number.value().saturating_add(1)),
        None => Ok(0),
    }
}

// A number above all that have chunks, and no less than this one.
fn above(home: &mut Home, doomed: u64) -> Result<Number, TableFault>
    requires { IsReady home.old holding }
    ensures ready { IsReady home.new holding }
    ensures same { (maps_of home.new holding).put ≡ (maps_of home.old holding).put }
    ensures before { IfErr result (λ fault. waits fault ≡ false) }
    ensures leaves { Reads home.old home.new holding }
{
    let taken = behind(home, CHUNK)?;
    Ok(Number::of(doomed.max(taken)))
}

// A number that is to be taken next: the least one that may be taken again, or one above all that
// are taken.
fn candidate(home: &mut Home) -> Result<Number, TableFault>
    requires { IsReady home.old holding }
    ensures ready { IsReady home.new holding }
    ensures same { (maps_of home.new holding).put ≡ (maps_of home.old holding).put }
    ensures before { IfErr result (λ fault. waits fault ≡ false) }
    ensures leaves { Reads home.old home.new holding }
{
    if let Some(number) = first_of(home, FREE)? {
        return Ok(number);
    }
    let doomed = behind(home, DOOMED)?;
    above(home, doomed)
}

// A number that no row names, since its first chunk is not there.
fn fresh(home: &mut Home) -> Result<Number, TableFault>
    requires { IsReady home.old holding }
    ensures ready { IsReady home.new holding }
    ensures same { (maps_of home.new holding).put ≡ (maps_of home.old holding).put }
    ensures unnamed { IsLawful (plain_in home.old holding)
        → IfOk result (λ number. IsUnnamed (plain_in home.old holding) number.bytes) }
    ensures first { IfOk result (λ number.
        chunks_of (plain_in home.old holding) number.bytes 0 ≡ None) }
    ensures before { IfErr result (λ fault. waits fault ≡ false) }
    ensures leaves { Reads home.old home.new holding }
{
    let number = candidate(home)?;
    match ways::get(home, &chunk_key(number, 0))? {
        Some(_) => Err(TableFault::NotTables),
        None => Ok(number),
    }
}

// The first chunks of a value go in, under a number that no row names.
fn begin(home: &mut Home, number: Number, value: &[u8], to: u32) -> Result<(), TableFault>
    requires ready { IsReady home.old holding }
    requires few { to ≤ 2 }
    requires there { 512 * to < length value.now + 512 }
    ensures ready { IsReady home.new holding }
    ensures begins { IsLawful (plain_in home.old holding)
        → IsUnnamed (plain_in home.old holding) number.bytes
        → OnOk result (IsWriting (tables_in home.old holding) (plain_in home.new holding)
        number.bytes value.now to) }
    ensures rows { OnOk result (HasSame (plain_in home.old holding) (plain_in home.new holding)) }
    ensures others { OnOk result (HasOthers number.bytes (plain_in home.old holding)
        (plain_in home.new holding)) }
    ensures stays { IsLawful (plain_in home.old holding)
        → IsUnnamed (plain_in home.old holding) number.bytes
        → OnErr result (IsTables (tables_in home.old holding) (plain_in home.new holding)) }
    ensures before { IfErr result (λ fault. waits fault ≡ false) }
    ensures leaves { IsLawful (plain_in home.old holding)
        → IsUnnamed (plain_in home.old holding) number.bytes
        → Stays (tables_in home.old holding) home.old home.new holding }
{
    ways::prepare(home, first_group(number, value, to))
}

// The next chunks of a value go in, one to four.
fn add(home: &mut Home, number: Number, value: &[u8], from: u32, to: u32) -> Result<(), TableFault>
    requires ready { IsReady home.old holding }
    requires some { from < to }
    requires few { to ≤ from + 4 }
    requires there { 512 * to < length value.now + 512 }
    ensures ready { IsReady home.new holding }
    ensures goes_on { (tables : Tables)
        → IsWriting tables (plain_in home.old holding) number.bytes value.now from
        → OnOk result (IsWriting tables (plain_in home.new holding) number.bytes value.now to) }
    ensures rows { OnOk result (HasSame (plain_in home.old holding) (plain_in home.new holding)) }
    ensures others { OnOk result (HasOthers number.bytes (plain_in home.old holding)
        (plain_in home.new holding)) }
    ensures stays { (tables : Tables)
        → IsWriting tables (plain_in home.old holding) number.bytes value.now from
        → OnErr result (IsTables tables (plain_in home.new holding)) }
    ensures before { IfErr result (λ fault. waits fault ≡ false) }
    ensures leaves { (tables : Tables)
        → IsWriting tables (plain_in home.old holding) number.bytes value.now from
        → Stays tables home.old home.new holding }
{
    ways::prepare(home, chunk_group(number, value, from, to))
}

// The end of a group of chunks that begins here.
fn end_of(from: u32, to: u32) -> u32
    requires { from < to }
    ensures { (from < result) × (result ≤ from + 4) × (result ≤ to) }
{
    if to - from > 4 { from + 4 } else { to }
}

// All chunks from this one on go in.
fn add_all(
    home: &mut Home,
    number: Number,
    value: &[u8],
    from: u32,
    to: u32,
) -> Result<(), TableFault>
    requires ready { IsReady home.old holding }
    requires order { from ≤ to }
    requires there { 512 * to < length value.now + 512 }
    ensures ready { IsReady home.new holding }
    ensures goes_on { (tables : Tables)
        → IsWriting tables (plain_in home.old holding) number.bytes value.now from
        → OnOk result (IsWriting tables (plain_in home.new holding) number.bytes value.now to) }
    ensures rows { OnOk result (HasSame (plain_in home.old holding) (plain_in home.new holding)) }
    ensures others { OnOk result (HasOthers number.bytes (plain_in home.old holding)
        (plain_in home.new holding)) }
    ensures stays { (tables : Tables)
        → IsWriting tables (plain_in home.old holding) number.bytes value.now from
        → OnErr result (IsTables tables (plain_in home.new holding)) }
    ensures before { IfErr result (λ fault. waits fault ≡ false) }
    ensures leaves { (tables : Tables)
        → IsWriting tables (plain_in home.old holding) number.bytes value.now from
        → Stays tables home.old home.new holding }
{
    let mut at = from;
    'groups: while at < to {
        let end = end_of(at, to);
        add(home, number, value, at, end)?;
        at = end;
    }
    Ok(())
}

// How many chunks the first group of a value has.
fn first_count(count: u32) -> u32
    ensures { (result ≤ 2) × (result ≤ count) }
{
    if count < 2 { count } else { 2 }
}

/// All chunks of a value go in, under a number that no row names.
pub(crate) fn write(home: &mut Home, value: &[u8]) -> Result<Number, TableFault>
    requires ready { IsReady home.old holding }
    requires few { length value.now ≤ 16777216 }
    ensures ready { IsReady home.new holding }
    ensures written { IsLawful (plain_in home.old holding)
        → IfOk result (λ number. IsWriting (tables_in home.old holding) (plain_in home.new holding)
        number.bytes value.now (chunks_in (length value.now))) }
    ensures rows { OnOk result (HasSame (plain_in home.old holding) (plain_in home.new holding)) }
    ensures others { IfOk result (λ number. HasOthers number.bytes (plain_in home.old holding)
        (plain_in home.new holding)) }
    ensures first { IfOk result (λ number.
        chunks_of (plain_in home.old holding) number.bytes 0 ≡ None) }
    ensures stays { IsLawful (plain_in home.old holding)
        → OnErr result (IsTables (tables_in home.old holding) (plain_in home.new holding)) }
    ensures before { IfErr result (λ fault. waits fault ≡ false) }
    ensures leaves { IsLawful (plain_in home.old holding)
        → Stays (tables_in home.old holding) home.old home.new holding }
{
    let number = fresh(home)?;
    let count = chunk_count(value.len() as u64) as u32;
    let first = first_count(count);
    begin(home, number, value, first)?;
    add_all(home, number, value, first, count)?;
    Ok(number)
}

// What the old row named is collected, if it named anything. If that is refused, an opening does
// it.
fn collect_old(home: &mut Home, old: Option<Head>)
    requires ready { IsReady home.old holding }
    ensures ready { IsReady home.new holding }
    ensures stays { IsLawful (plain_in home.old holding)
        → IsTables (tables_in home.old holding) (plain_in home.new holding) }
    ensures leaves { IsLawful (plain_in home.old holding)
        → Stays (tables_in home.old holding) home.old home.new holding }
{
    if let Some(head) = old {
        let _ = collect(home, head.number);
    }
}

// A value that stands in its row.
fn put_short(
    home: &mut Home,
    table: TableNumber,
    key: &RowKey,
    value: &[u8],
) -> Result<(), TableFault>
    requires ready { IsReady home.old holding }
    requires short { length value.now ≤ 511 }
    ensures ready { IsReady home.new holding }
    ensures set { IsLawful (plain_in home.old holding)
        → OnOk result (IsSet (plain_in home.old holding) table.bytes key.now
        (Some value.now) (plain_in home.new holding)) }
    ensures refused { IsLawful (plain_in home.old holding)
        → IfErr result (λ fault. IsNotSet fault (plain_in home.old holding)
        table.bytes key.now (Some value.now) (plain_in home.new holding)) }
    ensures leaves { IsLawful (plain_in home.old holding) → (name : Bytes)
        → HasNumber (plain_in home.old holding) name table.bytes
        → Goes (tables_in home.old holding)
        (with_value (tables_in home.old holding) name key.now (Some value.now)) home.old home.new holding }
{
    let old = head_of(home, table, key)?;
    match ways::step(home, short_step(table, key, value, old)) {
        Ok(()) => {
            collect_old(home, old);
            Ok(())
        }
        Err(fault) => Err(fault),
    }
}

// A long value.
fn put_long(
    home: &mut Home,
    table: TableNumber,
    key: &RowKey,
    value: &[u8],
) -> Result<(), TableFault>
    requires ready { IsReady home.old holding }
    requires long { 511 < length value.now }
    requires few { length value.now ≤ 16777216 }
    ensures ready { IsReady home.new holding }
    ensures set { IsLawful (plain_in home.old holding)
        → OnOk result (IsSet (plain_in home.old holding) table.bytes key.now
        (Some value.now) (plain_in home.new holding)) }
    ensures refused { IsLawful (plain_in home.old holding)
        → IfErr result (λ fault. IsNotSet fault (plain_in home.old holding)
        table.bytes key.now (Some value.now) (plain_in home.new holding)) }
    ensures leaves { IsLawful (plain_in home.old holding) → (name : Bytes)
        → HasNumber (plain_in home.old holding) name table.bytes
        → Goes (tables_in home.old holding)
        (with_value (tables_in home.old holding) name key.now (Some value.now)) home.old home.new holding }
{
    let number = write(home, value)?;
    let old = head_of(home, table, key)?;
    match ways::step(home, long_step(table, key, number, value, old)) {
        Ok(()) => {
            collect_old(home, old);
            Ok(())
        }
        Err(fault) => Err(fault),
    }
}

// A value of any length.
fn put_at(home: &mut Home, table: TableNumber, key: &RowKey, value: &[u8]) -> Result<(), TableFault>
    requires ready { IsReady home.old holding }
    requires few { length value.now ≤ 16777216 }
    ensures ready { IsReady home.new holding }
    ensures set { IsLawful (plain_in home.old holding)
        → OnOk result (IsSet (plain_in home.old holding) table.bytes key.now
        (Some value.now) (plain_in home.new holding)) }
    ensures refused { IsLawful (plain_in home.old holding)
        → IfErr result (λ fault. IsNotSet fault (plain_in home.old holding)
        table.bytes key.now (Some value.now) (plain_in home.new holding)) }
    ensures leaves { IsLawful (plain_in home.old holding) → (name : Bytes)
        → HasNumber (plain_in home.old holding) name table.bytes
        → Goes (tables_in home.old holding)
        (with_value (tables_in home.old holding) name key.now (Some value.now)) home.old home.new holding }
{
    if value.len() <= MAX_WHOLE {
        put_short(home, table, key, value)
    } else {
        put_long(home, table, key, value)
    }
}

/// Puts a value of up to 16 MiB at a key of a table. It is seen from then on; `Home::keep` makes it
/// durable.
///
/// Refused `NoTable`, and `TooLong`. Else as the store is: `Waits` says that the change waits in
/// the queue, and the tables have it; after any other the tables are as they were. Chunks that were
/// written in vain are doomed, and an opening collects them.
pub fn put(home: &mut Home, name: &Name, key: &RowKey, value: &[u8]) -> Result<(), TableFault>
    requires ready { IsReady home.old holding }
    ensures ready { IsReady home.new holding }
    ensures put { IsLawful (plain_in home.old holding)
        → OnOk result (IsTables (with_value (tables_in home.old holding) name.now key.now (Some value.now))
        (plain_in home.new holding)) }
    ensures refused { IsLawful (plain_in home.old holding)
        → IfErr result (λ fault. IsLeftBy fault (tables_in home.old holding)
        (with_value (tables_in home.old holding) name.now key.now (Some value.now))
        (plain_in home.new holding)) }
    ensures quiet { OnOk result (plain_in home.old holding stands_key ≡ None) }
    ensures leaves { IsLawful (plain_in home.old holding)
        → Goes (tables_in home.old holding)
        (with_value (tables_in home.old holding) name.now key.now (Some value.now)) home.old home.new holding }
{
    if value.len() > MAX_LEN {
        return Err(TableFault::TooLong);
    }
    match number_of(home, name)? {
        Some(table) => put_at(home, table, key, value),
        None => Err(TableFault::NoTable),
    }
}

// A row goes away, and what it named.
fn delete_at(home: &mut Home, table: TableNumber, key: &RowKey) -> Result<(), TableFault>
    requires ready { IsReady home.old holding }
    ensures ready { IsReady home.new holding }
    ensures set { IsLawful (plain_in home.old holding)
        → OnOk result (IsSet (plain_in home.old holding) table.bytes key.now
        None (plain_in home.new holding)) }
    ensures refused { IsLawful (plain_in home.old holding)
        → IfErr result (λ fault. IsNotSet fault (plain_in home.old holding)
        table.bytes key.now None (plain_in home.new holding)) }
    ensures leaves { IsLawful (plain_in home.old holding) → (name : Bytes)
        → HasNumber (plain_in home.old holding) name table.bytes
        → Goes (tables_in home.old holding)
        (with_value (tables_in home.old holding) name key.now None) home.old home.new holding }
{
    let old = head_of(home, table, key)?;
    match ways::step(home, delete_step(table, key, old)) {
        Ok(()) => {
            collect_old(home, old);
            Ok(())
        }
        Err(fault) => Err(fault),
    }
}

/// Drops the value of a key of a table, if it has one. Refused as `put` is.
pub fn delete(home: &mut Home, name: &Name, key: &RowKey) -> Result<(), TableFault>
    requires ready { IsReady home.old holding }
    ensures ready { IsReady home.new holding }
    ensures deleted { IsLawful (plain_in home.old holding)
        → OnOk result (IsTables (with_value (tables_in home.old holding) name.now key.now None)
        (plain_in home.new holding)) }
    ensures refused { IsLawful (plain_in home.old holding)
        → IfErr result (λ fault. IsLeftBy fault (tables_in home.old holding)
        (with_value (tables_in home.old holding) name.now key.now None)
        (plain_in home.new holding)) }
    ensures quiet { OnOk result (plain_in home.old holding stands_key ≡ None) }
    ensures leaves { IsLawful (plain_in home.old holding)
        → Goes (tables_in home.old holding)
        (with_value (tables_in home.old holding) name.now key.now None) home.old home.new holding }
{
    match number_of(home, name)? {
        Some(table) => delete_at(home, table, key),
        None => Err(TableFault::NoTable),
    }
}
