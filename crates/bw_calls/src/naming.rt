//! Tables come and go.
//!
//! A table has a number of two bytes, which stands at its name and in the keys of its rows. A new
//! table gets one that no name and no row has. A table goes away with its name; its rows go away
//! after that, one by one, and up to the last of them its number is *gone*.

ghost use Rattle.std.specs.Prelude.{◌≡◌, ◌⊎◌, ◌∷◌, true, false, Some, None, IfErr, IfOk, OnOk};
ghost use Rattle.bw_rows.specs.Spelling.{name_key, stands_key};
ghost use Rattle.bw_rows.specs.Laws.{empty_table, with_table, IsLawful, HasNoRow, IsNoTable, IsOfTable, IsTables};
ghost use Rattle.bw_home.specs.Maps.{maps_of};
ghost use Rattle.bw_home.specs.Ready.{IsReady};
ghost use Rattle.bw_calls.specs.Standing.{plain_in, tables_in, waits, IsLeftBy};
ghost use Rattle.bw_calls.specs.Changes.{kind_in, HasNoneGone, HasSameAsides, HasSameMarks};
ghost use Rattle.bw_calls.specs.Lives.{Goes, Reads, Stays};
ghost use Rattle.bw_calls.specs.Names.{HasLooked, Judges};

use crate::collecting::collect;
use crate::fault::TableFault;
use crate::reading::{head_of, number_in, number_of};
use crate::ways;
use bw_codec::{Key, Record, Value};
use bw_home::Home;
use bw_ring::Group;
use bw_rows::{Head, Name, RowKey, TableNumber, gone_key, read_row_key};
use bw_tables::{create_step, drop_row, drop_step};

// The kind of keys of names.
const NAME: u8 = 1;

// The kind of keys of tables that are gone.
const GONE: u8 = 3;

// The kind of keys of rows.
const ROW: u8 = 8;

// How many tables there may be.
const MOST: u32 = 65_536;

// What a look at the last name below a key found.
#[derive(Drop)]
enum Looked {
    // It has the number that was looked for.
    Taken,
    // It has another: the names below this key are left.
    Below(Key),
    // There is none.
    Last,
}

// The first byte of a key.
fn kind_of(key: &[u8]) -> u8
    ensures { result ≡ kind_in key.now }
{
    match key {
        [kind, ..] => *kind,
        [] => 0,
    }
}

// One above the number in what stands at a name; 0 above the last.
fn above(row: &[u8]) -> u16 {
    match row {
        [high, low, ..] => u16::from_be_bytes([*high, *low]).wrapping_add(1),
        _ => 0,
    }
}

// What a key says of the number, with what stands at it.
fn judge(key: Key, row: &[u8], table: TableNumber) -> Result<Looked, TableFault>
    ensures judges { IfOk result (λ looked. Judges key row.now table.bytes looked) }
    ensures before { IfErr result (λ fault. waits fault ≡ false) }
{
    let kind = kind_of(key.as_slice());
    if kind < NAME {
        return Ok(Looked::Last);
    }
    if kind > NAME {
        return Ok(Looked::Below(key));
    }
    let its = number_in(row)?;
    if its.bytes == table.bytes {
        return Ok(Looked::Taken);
    }
    Ok(Looked::Below(key))
}

// The last name below a key: whether it has this number.
fn look(home: &mut Home, at: &Key, table: TableNumber) -> Result<Looked, TableFault>
    requires { IsReady home.old holding }
    ensures ready { IsReady home.new holding }
    ensures same { (maps_of home.new holding).put ≡ (maps_of home.old holding).put }
    ensures looked { IfOk result (λ looked.
        HasLooked (plain_in home.old holding) at.now table.bytes looked) }
    ensures before { IfErr result (λ fault. waits fault ≡ false) }
    ensures leaves { Reads home.old home.new holding }
{
    match ways::below(home, at)? {
        Some((key, row)) => judge(key, row.as_slice(), table),
        None => Ok(Looked::Last),
    }
}

// Whether a table has this number: the names are looked at, from the last to the first.
fn has_table(home: &mut Home, table: TableNumber) -> Result<bool, TableFault>
    requires { IsReady home.old holding }
    ensures ready { IsReady home.new holding }
    ensures same { (maps_of home.new holding).put ≡ (maps_of home.old holding).put }
    ensures none { IfOk result (λ has. has ≡ false
        → IsNoTable (plain_in home.old holding) table.bytes) }
    ensures has { IfOk result (λ has. has ≡ true
        → IsOfTable (plain_in home.old holding) table.bytes) }
    ensures before { IfErr result (λ fault. waits fault ≡ false) }
    ensures leaves { Reads home.old home.new holding }
{
    let mut at = ways::key_of(&[NAME + 1]);
    'names: for _ in 0..=MOST {
        match look(home, &at, table)? {
            Looked::Taken => return Ok(true),
            Looked::Last => return Ok(false),
            Looked::Below(next) => at = next,
        }
    }
    Err(TableFault::NotTables)
}

// One above the greatest number of a table, so that a search for a free one begins well.
fn next_number(home: &mut Home) -> Result<u16, TableFault>
    requires { IsReady home.old holding }
    ensures ready { IsReady home.new holding }
    ensures same { (maps_of home.new holding).put ≡ (maps_of home.old holding).put }
    ensures before { IfErr result (λ fault. waits fault ≡ false) }
    ensures leaves { Reads home.old home.new holding }
{
    let mut at = ways::key_of(&[NAME + 1]);
    let mut next = 0;
    'names: for _ in 0..=MOST {
        let Some((key, row)) = ways::below(home, &at)? else {
            return Ok(next);
        };
        if kind_of(key.as_slice()) != NAME {
            return Ok(next);
        }
        next = next.max(above(row.as_slice()));
        at = key;
    }
    Err(TableFault::NotTables)
}

/// What the keys of a table's rows begin with.
pub(crate) fn front_of(table: TableNumber) -> Key
    ensures { result ≡ 8 ∷ table.bytes }
{
    let mut bytes = [ROW; 3];
    bytes[1..].copy_from_slice(&table.bytes);
    ways::key_of(&bytes)
}

// A row of a table's number, by a hint.
fn first_row(home: &mut Home, table: TableNumber, hint: &Key) -> Result<Option<Key>, TableFault>
    requires { IsReady home.old holding }
    ensures ready { IsReady home.new holding }
    ensures same { (maps_of home.new holding).put ≡ (maps_of home.old holding).put }
    ensures none { IfOk result (λ first. first ≡ None
        → HasNoRow (plain_in home.old holding) table.bytes) }
    ensures before { IfErr result (λ fault. waits fault ≡ false) }
    ensures leaves { Reads home.old home.new holding }
{
    match ways::some_of(home, front_of(table), hint)? {
        Some((key, _)) => Ok(Some(key)),
        None => Ok(None),
    }
}

// Whether no name and no row has this number.
fn is_free(home: &mut Home, table: TableNumber) -> Result<bool, TableFault>
    requires { IsReady home.old holding }
    ensures ready { IsReady home.new holding }
    ensures same { (maps_of home.new holding).put ≡ (maps_of home.old holding).put }
    ensures free { IfOk result (λ free. free ≡ true
        → IsNoTable (plain_in home.old holding) table.bytes
        × HasNoRow (plain_in home.old holding) table.bytes) }
    ensures before { IfErr result (λ fault. waits fault ≡ false) }
    ensures leaves { Reads home.old home.new holding }
{
    if has_table(home, table)? {
        return Ok(false);
    }
    match first_row(home, table, &front_of(table))? {
        Some(_) => Ok(false),
        None => Ok(true),
    }
}

// The first number from this one on that no name and no row has; after the last comes 0.
fn free_from(home: &mut Home, first: u16) -> Result<TableNumber, TableFault>
    requires { IsReady home.old holding }
    ensures ready { IsReady home.new holding }
    ensures same { (maps_of home.new holding).put ≡ (maps_of home.old holding).put }
    ensures free { IfOk result (λ table. IsNoTable (plain_in home.old holding) table.bytes
        × HasNoRow (plain_in home.old holding) table.bytes) }
    ensures before { IfErr result (λ fault. waits fault ≡ false) }
    ensures leaves { Reads home.old home.new holding }
{
    'numbers: for step in 0..MOST {
        let table = TableNumber {
            bytes: first.wrapping_add(step as u16).to_be_bytes(),
        };
        if is_free(home, table)? {
            return Ok(table);
        }
    }
    Err(TableFault::TooMany)
}

// A number that no name and no row has.
fn free_number(home: &mut Home) -> Result<TableNumber, TableFault>
    requires { IsReady home.old holding }
    ensures ready { IsReady home.new holding }
    ensures same { (maps_of home.new holding).put ≡ (maps_of home.old holding).put }
    ensures free { IfOk result (λ table. IsNoTable (plain_in home.old holding) table.bytes
        × HasNoRow (plain_in home.old holding) table.bytes) }
    ensures before { IfErr result (λ fault. waits fault ≡ false) }
    ensures leaves { Reads home.old home.new holding }
{
    let first = next_number(home)?;
    free_from(home, first)
}

// What stands at the mark of a folder with tables.
fn nothing() -> Value {
    match Value::new(&[]) {
        Ok(value) => value,
        Err(_) => unreachable!(),
    }
}

// Makes a table of a name that no table has.
fn create_new(home: &mut Home, name: &Name) -> Result<(), TableFault>
    requires { IsReady home.old holding }
    ensures ready { IsReady home.new holding }
    ensures created { IsLawful (plain_in home.old holding)
        → plain_in home.old holding (name_key name.now) ≡ None
        → OnOk result (IsTables
        (with_table (tables_in home.old holding) name.now (Some empty_table))
        (plain_in home.new holding)) }
    ensures refused { IsLawful (plain_in home.old holding)
        → plain_in home.old holding (name_key name.now) ≡ None
        → IfErr result (λ fault. IsLeftBy fault (tables_in home.old holding)
        (with_table (tables_in home.old holding) name.now (Some empty_table))
        (plain_in home.new holding)) }
    ensures leaves { IsLawful (plain_in home.old holding)
        → plain_in home.old holding (name_key name.now) ≡ None
        → Goes (tables_in home.old holding)
        (with_table (tables_in home.old holding) name.now (Some empty_table))
        home.old home.new holding }
{
    let table = free_number(home)?;
    ways::step(home, create_step(name, table, nothing()))
}

/// Makes a table with no key. It looks at all names, so it costs more the more tables there are.
///
/// Refused `Exists` if a table has this name, and `TooMany` if there are 65,536. Else as the store
/// is: `Waits` says that the change waits in the queue, and the tables have it; after any other the
/// tables are as they were.
pub fn create(home: &mut Home, name: &Name) -> Result<(), TableFault>
    requires { IsReady home.old holding }
    ensures ready { IsReady home.new holding }
    ensures created { IsLawful (plain_in home.old holding)
        → OnOk result (IsTables
        (with_table (tables_in home.old holding) name.now (Some empty_table))
        (plain_in home.new holding)) }
    ensures refused { IsLawful (plain_in home.old holding)
        → IfErr result (λ fault. IsLeftBy fault (tables_in home.old holding)
        (with_table (tables_in home.old holding) name.now (Some empty_table))
        (plain_in home.new holding)) }
    ensures quiet { OnOk result (plain_in home.old holding stands_key ≡ None) }
    ensures leaves { IsLawful (plain_in home.old holding)
        → Goes (tables_in home.old holding)
        (with_table (tables_in home.old holding) name.now (Some empty_table))
        home.old home.new holding }
{
    match number_of(home, name)? {
        Some(_) => Err(TableFault::Exists),
        None => create_new(home, name),
    }
}

// What a row named goes away, if it named anything.
fn collect_named(home: &mut Home, old: Option<Head>) -> Result<(), TableFault>
    requires { IsReady home.old holding }
    ensures ready { IsReady home.new holding }
    ensures stays { IsLawful (plain_in home.old holding)
        → IsTables (tables_in home.old holding) (plain_in home.new holding) }
    ensures marks { HasSameMarks (plain_in home.old holding) (plain_in home.new holding) }
    ensures before { IfErr result (λ fault. waits fault ≡ false) }
    ensures leaves { IsLawful (plain_in home.old holding)
        → Stays (tables_in home.old holding) home.old home.new holding }
{
    match old {
        Some(head) => collect(home, head.number),
        None => Ok(()),
    }
}

// The group that takes a row away, which no table has.
fn take_row(home: &mut Home, table: TableNumber, key: &RowKey) -> Result<Option<Head>, TableFault>
    requires { IsReady home.old holding }
    ensures ready { IsReady home.new holding }
    ensures stays { IsLawful (plain_in home.old holding)
        → IsNoTable (plain_in home.old holding) table.bytes
        → IsTables (tables_in home.old holding) (plain_in home.new holding) }
    ensures marks { HasSameMarks (plain_in home.old holding) (plain_in home.new holding) }
    ensures before { IfErr result (λ fault. waits fault ≡ false) }
    ensures leaves { IsLawful (plain_in home.old holding)
        → IsNoTable (plain_in home.old holding) table.bytes
        → Stays (tables_in home.old holding) home.old home.new holding }
{
    let old = head_of(home, table, key)?;
    ways::prepare(home, drop_row(table, key, old))?;
    Ok(old)
}

// A row that no table has goes away, and what it names.
fn drop_at(home: &mut Home, table: TableNumber, key: &RowKey) -> Result<(), TableFault>
    requires { IsReady home.old holding }
    ensures ready { IsReady home.new holding }
    ensures stays { IsLawful (plain_in home.old holding)
        → IsNoTable (plain_in home.old holding) table.bytes
        → IsTables (tables_in home.old holding) (plain_in home.new holding) }
    ensures marks { HasSameMarks (plain_in home.old holding) (plain_in home.new holding) }
    ensures before { IfErr result (λ fault. waits fault ≡ false) }
    ensures leaves { IsLawful (plain_in home.old holding)
        → IsNoTable (plain_in home.old holding) table.bytes
        → Stays (tables_in home.old holding) home.old home.new holding }
{
    let old = take_row(home, table, key)?;
    collect_named(home, old)
}

// The row of this key goes away.
fn drop_key(home: &mut Home, table: TableNumber, key: &Key) -> Result<(), TableFault>
    requires { IsReady home.old holding }
    ensures ready { IsReady home.new holding }
    ensures stays { IsLawful (plain_in home.old holding)
        → IsNoTable (plain_in home.old holding) table.bytes
        → IsTables (tables_in home.old holding) (plain_in home.new holding) }
    ensures marks { HasSameMarks (plain_in home.old holding) (plain_in home.new holding) }
    ensures before { IfErr result (λ fault. waits fault ≡ false) }
    ensures leaves { IsLawful (plain_in home.old holding)
        → IsNoTable (plain_in home.old holding) table.bytes
        → Stays (tables_in home.old holding) home.old home.new holding }
{
    let Some((_, bytes)) = read_row_key(key.as_slice()) else {
        return Err(TableFault::NotTables);
    };
    let Ok(key) = RowKey::new(bytes) else {
        return Err(TableFault::NotTables);
    };
    drop_at(home, table, &key)
}

// A number is gone no more, which no row has, or which a table has.
fn forget(home: &mut Home, table: TableNumber) -> Result<(), TableFault>
    requires { IsReady home.old holding }
    ensures ready { IsReady home.new holding }
    ensures stays { IsLawful (plain_in home.old holding)
        → HasNoRow (plain_in home.old holding) table.bytes
        ⊎ IsOfTable (plain_in home.old holding) table.bytes
        → IsTables (tables_in home.old holding) (plain_in home.new holding) }
    ensures asides { HasSameAsides (plain_in home.old holding) (plain_in home.new holding) }
    ensures before { IfErr result (λ fault. waits fault ≡ false) }
    ensures leaves { IsLawful (plain_in home.old holding)
        → HasNoRow (plain_in home.old holding) table.bytes
        ⊎ IsOfTable (plain_in home.old holding) table.bytes
        → Stays (tables_in home.old holding) home.old home.new holding }
{
    ways::prepare(home, Group::one(Record::Del(gone_key(table))))
}

// All rows of a number that no table has go away, and then it is gone no more.
fn clear_rows(home: &mut Home, table: TableNumber) -> Result<(), TableFault>
    requires { IsReady home.old holding }
    ensures ready { IsReady home.new holding }
    ensures stays { IsLawful (plain_in home.old holding)
        → IsNoTable (plain_in home.old holding) table.bytes
        → IsTables (tables_in home.old holding) (plain_in home.new holding) }
    ensures asides { OnOk result
        (HasSameAsides (plain_in home.old holding) (plain_in home.new holding)) }
    ensures before { IfErr result (λ fault. waits fault ≡ false) }
    ensures leaves { IsLawful (plain_in home.old holding)
        → IsNoTable (plain_in home.old holding) table.bytes
        → Stays (tables_in home.old holding) home.old home.new holding }
{
    let mut hint = front_of(table);
    'rows: for _ in 0..u64::MAX {
        match first_row(home, table, &hint)? {
            Some(key) => {
                drop_key(home, table, &key)?;
                hint = key;
            }
            None => return forget(home, table),
        }
    }
    Err(TableFault::NotTables)
}

// The rows of a number that is gone go away. If a table has the number all the same, it stays.
fn clear(home: &mut Home, table: TableNumber) -> Result<(), TableFault>
    requires { IsReady home.old holding }
    ensures ready { IsReady home.new holding }
    ensures stays { IsLawful (plain_in home.old holding)
        → IsTables (tables_in home.old holding) (plain_in home.new holding) }
    ensures asides { OnOk result
        (HasSameAsides (plain_in home.old holding) (plain_in home.new holding)) }
    ensures before { IfErr result (λ fault. waits fault ≡ false) }
    ensures leaves { IsLawful (plain_in home.old holding)
        → Stays (tables_in home.old holding) home.old home.new holding }
{
    if has_table(home, table)? {
        return forget(home, table);
    }
    clear_rows(home, table)
}

/// Drops a table. Its rows go away in the same call; what a refusal or a stop leaves of them an
/// opening drops.
///
/// Refused `NoTable`, and else as `create` is.
pub fn drop_table(home: &mut Home, name: &Name) -> Result<(), TableFault>
    requires { IsReady home.old holding }
    ensures ready { IsReady home.new holding }
    ensures dropped { IsLawful (plain_in home.old holding)
        → OnOk result (IsTables (with_table (tables_in home.old holding) name.now None)
        (plain_in home.new holding)) }
    ensures refused { IsLawful (plain_in home.old holding)
        → IfErr result (λ fault. IsLeftBy fault (tables_in home.old holding)
        (with_table (tables_in home.old holding) name.now None) (plain_in home.new holding)) }
    ensures quiet { OnOk result (plain_in home.old holding stands_key ≡ None) }
    ensures leaves { IsLawful (plain_in home.old holding)
        → Goes (tables_in home.old holding)
        (with_table (tables_in home.old holding) name.now None) home.old home.new holding }
{
    let Some(table) = number_of(home, name)? else {
        return Err(TableFault::NoTable);
    };
    match ways::step(home, drop_step(name, table)) {
        Ok(()) => {
            let _ = clear(home, table);
            Ok(())
        }
        Err(fault) => Err(fault),
    }
}

// The first number that is gone.
fn first_gone(home: &mut Home) -> Result<Option<TableNumber>, TableFault>
    requires { IsReady home.old holding }
    ensures ready { IsReady home.new holding }
    ensures same { (maps_of home.new holding).put ≡ (maps_of home.old holding).put }
    ensures none { IfOk result (λ first. first ≡ None
        → HasNoneGone (plain_in home.old holding)) }
    ensures before { IfErr result (λ fault. waits fault ≡ false) }
    ensures leaves { Reads home.old home.new holding }
{
    match ways::first(home, ways::key_of(&[GONE]))? {
        None => Ok(None),
        Some((key, _)) => match key.as_slice() {
            [_, high, low] => Ok(Some(TableNumber {
                bytes: [*high, *low],
            })),
            _ => Err(TableFault::NotTables),
        },
    }
}

/// The rows of all tables that are gone go away.
pub(crate) fn clear_gone(home: &mut Home) -> Result<(), TableFault>
    requires { IsReady home.old holding }
    ensures ready { IsReady home.new holding }
    ensures stays { IsLawful (plain_in home.old holding)
        → IsTables (tables_in home.old holding) (plain_in home.new holding) }
    ensures asides { OnOk result
        (HasSameAsides (plain_in home.old holding) (plain_in home.new holding)) }
    ensures none { OnOk result (HasNoneGone (plain_in home.new holding)) }
    ensures before { IfErr result (λ fault. waits fault ≡ false) }
    ensures leaves { IsLawful (plain_in home.old holding)
        → Stays (tables_in home.old holding) home.old home.new holding }
{
    'tables: for _ in 0..=MOST {
        match first_gone(home)? {
            Some(table) => clear(home, table)?,
            None => return Ok(()),
        }
    }
    Err(TableFault::NotTables)
}
