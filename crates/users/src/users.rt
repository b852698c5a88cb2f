//! The users of a store: a table of them by number, and an index of it by name.
//!
//! Each change is one batch over both tables. So whatever stops, the index has the users that are
//! there, under the names that they have, and no others.

ghost use Rattle.bw_home.specs.Ready.{IsReady};

use crate::user::{User, name_front, name_key, number_in, user_key};
use anyhow::{Result, bail, ensure};
use bw_calls::{Change, TableFault, batch, create, first, get, next_above, next_at};
use bw_home::Home;
use bw_rows::{Name, RowKey};
use std::alloc::Global;

// The table of users, from a number to a record.
fn users() -> Result<Name> {
    Ok(Name::new(b"users")?)
}

// Its index, from a name and a number to nothing.
fn names() -> Result<Name> {
    Ok(Name::new(b"names")?)
}

// Makes a table, if it is not there.
fn create_once(home: &mut Home, name: &Name) -> Result<()>
    requires { IsReady home.old holding }
    ensures { IsReady home.new holding }
{
    match create(home, name) {
        Ok(()) | Err(TableFault::Exists) => Ok(()),
        Err(fault) => Err(anyhow::Error::from(fault)),
    }
}

/// Finishes what a stop left half done, and makes the two tables, if they are not there.
pub fn open(home: &mut Home) -> Result<()>
    requires { IsReady home.old holding }
    ensures { IsReady home.new holding }
{
    bw_calls::open(home)?;
    create_once(home, &users()?)?;
    create_once(home, &names()?)
}

// The change by which a user has this record; without one the user goes.
fn set(number: u32, record: Option<Vec<u8>>) -> Result<Change> {
    Ok(Change {
        table: users()?,
        key: user_key(number)?,
        value: record,
    })
}

// The change by which the index has a user under a name.
fn enter(alloc: Global, name: &str, number: u32) -> Result<Change> {
    Ok(Change {
        table: names()?,
        key: name_key(alloc, name, number)?,
        value: Some(Vec::new(alloc)),
    })
}

// The change by which it has no longer.
fn strike(alloc: Global, name: &str, number: u32) -> Result<Change> {
    Ok(Change {
        table: names()?,
        key: name_key(alloc, name, number)?,
        value: None,
    })
}

// The record of a user.
fn record_of(home: &mut Home, number: u32) -> Result<Vec<u8>>
    requires { IsReady home.old holding }
    ensures { IsReady home.new holding }
{
    match get(home, &users()?, &user_key(number)?)? {
        Some(record) => Ok(record),
        None => bail!("nobody has number {number}"),
    }
}

/// Adds a user under a number that nobody has.
pub fn add(home: &mut Home, alloc: Global, number: u32, user: User<'_>) -> Result<()>
    requires { IsReady home.old holding }
    ensures { IsReady home.new holding }
{
    let taken = get(home, &users()?, &user_key(number)?)?;
    ensure!(taken.is_none(), "number {number} is taken");
    let changes = [
        set(number, Some(user.record(alloc)?))?,
        enter(alloc, user.name, number)?,
    ];
    Ok(batch(home, &changes)?)
}

/// Gives a user another name.
pub fn rename(home: &mut Home, alloc: Global, number: u32, name: &str) -> Result<()>
    requires { IsReady home.old holding }
    ensures { IsReady home.new holding }
{
    let old = record_of(home, number)?;
    let old = User::read(old.as_slice())?;
    let new = User {
        name,
        city: old.city,
    };
    let changes = [
        set(number, Some(new.record(alloc)?))?,
        strike(alloc, old.name, number)?,
        enter(alloc, new.name, number)?,
    ];
    Ok(batch(home, &changes)?)
}

/// Deletes a user.
pub fn delete(home: &mut Home, alloc: Global, number: u32) -> Result<()>
    requires { IsReady home.old holding }
    ensures { IsReady home.new holding }
{
    let old = record_of(home, number)?;
    let old = User::read(old.as_slice())?;
    let changes = [set(number, None)?, strike(alloc, old.name, number)?];
    Ok(batch(home, &changes)?)
}

/// Whether there are no users.
pub fn are_none(home: &mut Home) -> Result<bool>
    requires { IsReady home.old holding }
    ensures { IsReady home.new holding }
{
    Ok(first(home, &users()?)?.is_none())
}

// The key of a pair. In the index only keys say anything.
fn key_of(pair: Option<(RowKey, Vec<u8>)>) -> Option<RowKey> {
    let (key, _) = pair?;
    Some(key)
}

/// The numbers of all users of a name, the least first.
pub fn named(home: &mut Home, alloc: Global, name: &str) -> Result<Vec<u32>>
    requires { IsReady home.old holding }
    ensures { IsReady home.new holding }
{
    let mut numbers = Vec::new(alloc);
    let front = name_front(alloc, name)?;
    let mut at = key_of(next_at(home, &names()?, &front)?);
    'keys: for _ in 0..u64::MAX {
        let Some(key) = at else { break };
        if !key.as_slice().starts_with(front.as_slice()) {
            break;
        }
        numbers.push(number_in(&key)?)?;
        at = key_of(next_above(home, &names()?, &key)?);
    }
    Ok(numbers)
}

/// Prints all users in the order of their names.
pub fn print_all(rt: &impl Print, home: &mut Home) -> Result<()>
    requires { IsReady home.old holding }
    ensures { IsReady home.new holding }
{
    let mut at = key_of(first(home, &names()?)?);
    'keys: for _ in 0..u64::MAX {
        let Some(key) = at else { break };
        print_one(rt, home, number_in(&key)?)?;
        at = key_of(next_above(home, &names()?, &key)?);
    }
    Ok(())
}

// Prints a user.
fn print_one(rt: &impl Print, home: &mut Home, number: u32) -> Result<()>
    requires { IsReady home.old holding }
    ensures { IsReady home.new holding }
{
    let record = record_of(home, number)?;
    let user = User::read(record.as_slice())?;
    println!(rt; "{number} {}, {}", user.name, user.city)?;
    Ok(())
}
