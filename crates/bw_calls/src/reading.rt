//! What tables have.

ghost use Rattle.std.specs.Prelude.{◌≡◌, ◌++◌, false, None, drop, IfErr, IfOk, OnOk};
ghost use Rattle.std.specs.Option.{option_map};
ghost use Rattle.bw_rows.specs.Spelling as spelling;
ghost use Rattle.bw_rows.specs.Meaning.{chunks_of, or_nothing, table_in, value_of, joined};
ghost use Rattle.bw_rows.specs.Law.{head_at};
ghost use Rattle.bw_rows.specs.Laws.{IsLawful};
ghost use Rattle.bw_tables.specs.Writing.{named};
ghost use Rattle.bw_home.specs.Maps.{maps_of};
ghost use Rattle.bw_home.specs.Ready.{IsReady};
ghost use Rattle.bw_calls.specs.Lives.{Reads};
ghost use Rattle.bw_calls.specs.Standing.{plain_in, tables_in, waits};
ghost use Rattle.bw_calls.specs.Changes.{value_at};

use crate::fault::TableFault;
use crate::ways;
use bw_home::Home;
use bw_rows::limits::MAX_LEN;
use bw_rows::{
    Head, Name, Number, RowKey, TableNumber, chunk_count, chunk_key, name_key, row_key, stands_key,
};

/// The number of a table, in what stands at its name.
pub(crate) fn number_in(row: &[u8]) -> Result<TableNumber, TableFault>
    ensures number { IfOk result (λ table. table.bytes ≡ table_in row.now) }
    ensures before { IfErr result (λ fault. waits fault ≡ false) }
{
    match row {
        [high, low, ..] => Ok(TableNumber {
            bytes: [*high, *low],
        }),
        _ => Err(TableFault::NotTables),
    }
}

/// Refuses to go on if a batch stands: rows are not what counts then.
pub(crate) fn check(home: &mut Home) -> Result<(), TableFault>
    requires { IsReady home.old holding }
    ensures ready { IsReady home.new holding }
    ensures same { (maps_of home.new holding).put ≡ (maps_of home.old holding).put }
    ensures quiet { OnOk result (plain_in home.old holding spelling.stands_key ≡ None) }
    ensures before { IfErr result (λ fault. waits fault ≡ false) }
    ensures leaves { Reads home.old home.new holding }
{
    match ways::get(home, &stands_key())? {
        Some(_) => Err(TableFault::Unfinished),
        None => Ok(()),
    }
}

/// The number of a table; `None` if no table has this name. Refused `Unfinished` if a batch stands.
pub(crate) fn number_of(home: &mut Home, name: &Name) -> Result<Option<TableNumber>, TableFault>
    requires { IsReady home.old holding }
    ensures ready { IsReady home.new holding }
    ensures same { (maps_of home.new holding).put ≡ (maps_of home.old holding).put }
    ensures number { IfOk result (λ number. option_map (λ t. t.bytes) number
        ≡ option_map table_in (plain_in home.old holding (spelling.name_key name.now))) }
    ensures before { IfErr result (λ fault. waits fault ≡ false) }
    ensures quiet { OnOk result (plain_in home.old holding spelling.stands_key ≡ None) }
    ensures leaves { Reads home.old home.new holding }
{
    check(home)?;
    let Some(row) = ways::get(home, &name_key(name))? else {
        return Ok(None);
    };
    Ok(Some(number_in(row.as_slice())?))
}

/// What the row of a key names, if it names a long value.
pub(crate) fn head_of(
    home: &mut Home,
    table: TableNumber,
    key: &RowKey,
) -> Result<Option<Head>, TableFault>
    requires { IsReady home.old holding }
    ensures ready { IsReady home.new holding }
    ensures same { (maps_of home.new holding).put ≡ (maps_of home.old holding).put }
    ensures head { IfOk result (λ head. named head
        ≡ head_at (plain_in home.old holding) (spelling.row_place table.bytes key.now)) }
    ensures before { IfErr result (λ fault. waits fault ≡ false) }
    ensures leaves { Reads home.old home.new holding }
{
    match ways::get(home, &row_key(table, key))? {
        Some(row) => Ok(Head::read(row.as_slice())),
        None => Ok(None),
    }
}

// Adds a copy of these bytes.
fn add(value: &mut Vec<u8>, bytes: &[u8]) -> Result<(), TableFault>
    ensures added { OnOk result (value.new.items ≡ value.old.items ++ bytes.now) }
    ensures before { IfErr result (λ fault. waits fault ≡ false) }
{
    match value.extend_from_slice(bytes) {
        Ok(()) => Ok(()),
        Err(_) => Err(TableFault::NoMemory),
    }
}

// Adds a chunk, if it is there.
fn add_chunk(home: &mut Home, number: Number, i: u32, value: &mut Vec<u8>) -> Result<(), TableFault>
    requires { IsReady home.old holding }
    ensures ready { IsReady home.new holding }
    ensures same { (maps_of home.new holding).put ≡ (maps_of home.old holding).put }
    ensures added { OnOk result (value.new.items ≡ value.old.items
        ++ or_nothing (chunks_of (plain_in home.old holding) number.bytes i)) }
    ensures before { IfErr result (λ fault. waits fault ≡ false) }
    ensures leaves { Reads home.old home.new holding }
{
    match ways::get(home, &chunk_key(number, i))? {
        Some(chunk) => add(value, chunk.as_slice()),
        None => Ok(()),
    }
}

// The first chunks of a number, one after the other.
fn join(home: &mut Home, number: Number, count: u32) -> Result<Vec<u8>, TableFault>
    requires { IsReady home.old holding }
    ensures ready { IsReady home.new holding }
    ensures same { (maps_of home.new holding).put ≡ (maps_of home.old holding).put }
    ensures value { IfOk result (λ value. value.items
        ≡ joined (chunks_of (plain_in home.old holding) number.bytes) count) }
    ensures before { IfErr result (λ fault. waits fault ≡ false) }
    ensures leaves { Reads home.old home.new holding }
{
    let mut value = Vec::new(*home.feeds.allocator());
    'chunks: for i in 0..count {
        add_chunk(home, number, i, &mut value)?;
    }
    Ok(value)
}

// The value itself, in the row that has it.
fn itself(home: &Home, row: &[u8]) -> Result<Vec<u8>, TableFault>
    ensures value { IfOk result (λ value. value.items ≡ drop 1 row.now) }
    ensures before { IfErr result (λ fault. waits fault ≡ false) }
{
    let mut value = Vec::new(*home.feeds.allocator());
    match row {
        [_, rest @ ..] => add(&mut value, rest)?,
        [] => (),
    }
    Ok(value)
}

/// The value that a row stands for.
pub(crate) fn value_of(home: &mut Home, row: &[u8]) -> Result<Vec<u8>, TableFault>
    requires { IsReady home.old holding }
    ensures ready { IsReady home.new holding }
    ensures same { (maps_of home.new holding).put ≡ (maps_of home.old holding).put }
    ensures value { IfOk result (λ value. value.items
        ≡ value_of (plain_in home.old holding) row.now) }
    ensures before { IfErr result (λ fault. waits fault ≡ false) }
    ensures leaves { Reads home.old home.new holding }
{
    match Head::read(row) {
        None => itself(home, row),
        Some(head) if head.len <= MAX_LEN as u64 => {
            join(home, head.number, chunk_count(head.len) as u32)
        }
        Some(_) => Err(TableFault::NotTables),
    }
}

/// The value of a key of a table; `None` if the key has none, or no table has this name.
///
/// Refused `NotRead` as the store is, `NoMemory`, `NotTables` if the store has other pairs than
/// those of tables, and `Unfinished` if a batch stands that is not carried out.
pub fn get(home: &mut Home, name: &Name, key: &RowKey) -> Result<Option<Vec<u8>>, TableFault>
    requires { IsReady home.old holding }
    ensures ready { IsReady home.new holding }
    ensures same { (maps_of home.new holding).put ≡ (maps_of home.old holding).put }
    ensures value { IsLawful (plain_in home.old holding)
        → IfOk result (λ value. option_map (λ bytes. bytes.items) value
        ≡ value_at (tables_in home.old holding) name.now key.now) }
    ensures before { IfErr result (λ fault. waits fault ≡ false) }
    ensures quiet { OnOk result (plain_in home.old holding spelling.stands_key ≡ None) }
    ensures leaves { Reads home.old home.new holding }
{
    let Some(table) = number_of(home, name)? else {
        return Ok(None);
    };
    match ways::get(home, &row_key(table, key))? {
        Some(row) => Ok(Some(value_of(home, row.as_slice())?)),
        None => Ok(None),
    }
}
