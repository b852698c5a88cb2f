//! The names and numbers of tables, and the rows of keys.

ghost use Rattle.bw_home.specs.Ready.{IsReady};

use crate::fault::told;
use bw_calls::{last_name, name_before};
use bw_codec::Value;
use bw_home::Home;
use bw_keys::{KeysFault, TableRefusal};
use bw_rows::{Name, RowKey, TableNumber, name_key, row_key};

/// More tables than there may be.
const MOST: u32 = 65_537;

/// The number of a table, if one has this name.
pub fn number_if_there(home: &mut Home, name: &Name) -> Result<Option<TableNumber>, KeysFault>
    requires { IsReady home.old holding }
    ensures { IsReady home.new holding }
{
    let Some(row) = home.get(&name_key(name))? else {
        return Ok(None);
    };
    match row.as_slice() {
        [high, low, ..] => Ok(Some(TableNumber {
            bytes: [*high, *low],
        })),
        _ => Err(KeysFault::Table(TableRefusal::Broken)),
    }
}

/// The number of a table, which has to be there.
pub fn number_of(home: &mut Home, name: &Name) -> Result<TableNumber, KeysFault>
    requires { IsReady home.old holding }
    ensures { IsReady home.new holding }
{
    match number_if_there(home, name)? {
        Some(table) => Ok(table),
        None => Err(KeysFault::Table(TableRefusal::NoTable)),
    }
}

/// Whether a key of a table has a value.
pub fn has_value(home: &mut Home, name: &Name, key: &RowKey) -> Result<bool, KeysFault>
    requires { IsReady home.old holding }
    ensures { IsReady home.new holding }
{
    let table = number_of(home, name)?;
    let row: Option<Value> = home.get(&row_key(table, key))?;
    Ok(row.is_some())
}

/// A name once more.
pub fn copy_of(name: &Name) -> Result<Name, KeysFault> {
    Name::new(name.as_slice()).map_err(|_| KeysFault::Table(TableRefusal::Broken))
}

/// The last name before this one.
fn before(home: &mut Home, name: &Name) -> Result<Option<Name>, KeysFault>
    requires { IsReady home.old holding }
    ensures { IsReady home.new holding }
{
    match name_before(home, name) {
        Ok(name) => Ok(name),
        Err(fault) => Err(told(fault)),
    }
}

/// The last name of all.
fn last(home: &mut Home) -> Result<Option<Name>, KeysFault>
    requires { IsReady home.old holding }
    ensures { IsReady home.new holding }
{
    match last_name(home) {
        Ok(name) => Ok(name),
        Err(fault) => Err(told(fault)),
    }
}

/// The last name before those that were found.
fn next_down(home: &mut Home, names: &[Name]) -> Result<Option<Name>, KeysFault>
    requires { IsReady home.old holding }
    ensures { IsReady home.new holding }
{
    match names.last() {
        Some(name) => before(home, name),
        None => last(home),
    }
}

/// The names of all tables, the last one first.
pub fn names_down(home: &mut Home) -> Result<Vec<Name>, KeysFault>
    requires { IsReady home.old holding }
    ensures { IsReady home.new holding }
{
    let mut names = Vec::new(*home.feeds.allocator());
    'names: for _ in 0..MOST {
        match next_down(home, names.as_slice())? {
            Some(name) => names.push(name)?,
            None => return Ok(names),
        }
    }
    Err(KeysFault::Table(TableRefusal::Broken))
}
