//! Pairs that are set in the store itself, put in a table one by one, or put in batches: the same
//! ones each way.

ghost use Rattle.bw_home.specs.Ready.{IsReady};

use anyhow::Result;
use bw_calls::{Change, batch, get, keep, put};
use bw_codec::{Key, Value};
use bw_home::Home;
use bw_rows::{Name, RowKey};
use std::alloc::Global;

/// How many bytes a value has.
pub const LENGTH: usize = 100;

/// After so many calls what was put is appended.
const FLUSH: u64 = 64;

// The key of a number, in a scattered order.
fn key_of(i: u64) -> [u8; 8] {
    i.wrapping_mul(0x9e37_79b9_7f4a_7c15).to_be_bytes()
}

// Appends what was put, if so many calls were made.
fn keep_if_due(home: &mut Home, i: u64) -> Result<()>
    requires { IsReady home.old holding }
    ensures { IsReady home.new holding }
{
    if i % FLUSH == FLUSH - 1 {
        keep(home)?;
    }
    Ok(())
}

/// Sets so many pairs of the store itself.
pub fn set_all(home: &mut Home, count: u64, byte: u8) -> Result<()>
    requires { IsReady home.old holding }
    ensures { IsReady home.new holding }
{
    'pairs: for i in 0..count {
        home.set(Key::new(&key_of(i))?, Value::new(&[byte; LENGTH])?)?;
        keep_if_due(home, i)?;
    }
    Ok(())
}

/// How many pairs of the store itself have this byte in each place.
pub fn count_set(home: &mut Home, count: u64, byte: u8) -> Result<u64>
    requires { IsReady home.old holding }
    ensures { IsReady home.new holding }
{
    let wanted: &[u8] = &[byte; LENGTH];
    let mut right = 0u64;
    'pairs: for i in 0..count {
        if let Some(value) = home.get(&Key::new(&key_of(i))?)?
            && value.as_slice() == wanted
        {
            right = right.saturating_add(1);
        }
    }
    Ok(right)
}

/// Puts so many pairs in a table.
pub fn put_all(home: &mut Home, table: &Name, count: u64, byte: u8) -> Result<()>
    requires { IsReady home.old holding }
    ensures { IsReady home.new holding }
{
    'pairs: for i in 0..count {
        put(home, table, &RowKey::new(&key_of(i))?, &[byte; LENGTH])?;
        keep_if_due(home, i)?;
    }
    Ok(())
}

/// How many pairs of a table have this byte in each place.
pub fn count_put(home: &mut Home, table: &Name, count: u64, byte: u8) -> Result<u64>
    requires { IsReady home.old holding }
    ensures { IsReady home.new holding }
{
    let wanted: &[u8] = &[byte; LENGTH];
    let mut right = 0u64;
    'pairs: for i in 0..count {
        if let Some(value) = get(home, table, &RowKey::new(&key_of(i))?)?
            && value.as_slice() == wanted
        {
            right = right.saturating_add(1);
        }
    }
    Ok(right)
}

// The changes of one batch.
fn changes_of(alloc: Global, table: &Name, from: u64, to: u64, byte: u8) -> Result<Vec<Change>> {
    let mut changes = Vec::new(alloc);
    'changes: for i in from..to {
        let mut value = Vec::new(alloc);
        value.extend_from_slice(&[byte; LENGTH])?;
        changes.push(Change {
            table: Name::new(table.as_slice())?,
            key: RowKey::new(&key_of(i))?,
            value: Some(value),
        })?;
    }
    Ok(changes)
}

/// Puts so many pairs in a table, in batches of so many.
pub fn batch_all(
    home: &mut Home,
    alloc: Global,
    table: &Name,
    count: u64,
    size: u64,
    byte: u8,
) -> Result<()>
    requires { IsReady home.old holding }
    ensures { IsReady home.new holding }
{
    let mut at = 0u64;
    'batches: for _ in 0..count {
        if at >= count {
            return Ok(());
        }
        let to = at.saturating_add(size.max(1)).min(count);
        let changes = changes_of(alloc, table, at, to, byte)?;
        batch(home, changes.as_slice())?;
        keep(home)?;
        at = to;
    }
    Ok(())
}
