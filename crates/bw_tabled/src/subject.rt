//! What is measured: each subject has a store in memory of its own.

ghost use Rattle.bw_home.specs.Ready.{IsReady};

use crate::meter::{Host, Meter, now};
use crate::pairs::{batch_all, count_put, count_set, put_all, set_all};
use anyhow::Result;
use bw_calls::{create, delete, get, keep, open, put};
use bw_codec::Key;
use bw_home::{Course, Home, System};
use bw_rows::{Name, RowKey};

/// The bytes of a long value.
const LONG: usize = 1_048_576;

/// One thing that is measured.
#[derive(Clone, Copy, Drop)]
pub enum Subject {
    /// Pairs of the store itself.
    Plain,
    /// Pairs in a table that never had a long value.
    Table,
    /// Pairs in a table that has a long value.
    TableWithLong,
    /// Pairs in a table, in batches of so many.
    Batches(u64),
    /// Values of 1 MiB.
    Long,
    /// Openings that find nothing left half done.
    Openings,
}

/// A subject over so many pairs.
#[derive(Drop)]
pub struct Bench {
    pub subject: Subject,
    pub count: u64,
    pub meter: Meter,
}

fn table() -> Result<Name> {
    Ok(Name::new(b"table")?)
}

// The pairs of the store itself: new, changed, read.
fn plain(host: &impl Host, home: &mut Home, count: u64, meter: Meter) -> Result<()>
    requires { IsReady home.old holding }
    ensures { IsReady home.new holding }
{
    let start = now(host)?;
    set_all(home, count, b'a')?;
    meter.tell(host, "set, new", count, start)?;
    let start = now(host)?;
    set_all(home, count, b'b')?;
    meter.tell(host, "set, changed", count, start)?;
    let start = now(host)?;
    let right = count_set(home, count, b'b')?;
    meter.tell(host, "get of the store", count, start)?;
    meter.tell_right(host, count, right)
}

// The pairs of a table: new, changed, read.
fn rows(host: &impl Host, home: &mut Home, count: u64, meter: Meter) -> Result<()>
    requires { IsReady home.old holding }
    ensures { IsReady home.new holding }
{
    let table = table()?;
    let start = now(host)?;
    put_all(home, &table, count, b'a')?;
    meter.tell(host, "put, new", count, start)?;
    let start = now(host)?;
    put_all(home, &table, count, b'b')?;
    meter.tell(host, "put, changed", count, start)?;
    let start = now(host)?;
    let right = count_put(home, &table, count, b'b')?;
    meter.tell(host, "get of a table", count, start)?;
    meter.tell_right(host, count, right)
}

// The pairs of a table in batches: new, changed.
fn batches<R: Host + System>(
    rt: &R,
    home: &mut Home,
    count: u64,
    size: u64,
    meter: Meter,
) -> Result<()>
    requires { IsReady home.old holding }
    ensures { IsReady home.new holding }
{
    let table = table()?;
    let start = now(rt)?;
    batch_all(home, rt.alloc(), &table, count, size, b'a')?;
    meter.tell(rt, "batches, new", count, start)?;
    let start = now(rt)?;
    batch_all(home, rt.alloc(), &table, count, size, b'b')?;
    meter.tell(rt, "batches, changed", count, start)?;
    let right = count_put(home, &table, count, b'b')?;
    meter.tell_right(rt, count, right)
}

// Puts so many long values, one after the other.
fn put_long(home: &mut Home, table: &Name, count: u64, value: &[u8]) -> Result<()>
    requires { IsReady home.old holding }
    ensures { IsReady home.new holding }
{
    'values: for i in 0..count {
        put(home, table, &RowKey::new(&i.to_be_bytes())?, value)?;
        keep(home)?;
    }
    Ok(())
}

// How many values are these bytes.
fn count_long(home: &mut Home, table: &Name, count: u64, value: &[u8]) -> Result<u64>
    requires { IsReady home.old holding }
    ensures { IsReady home.new holding }
{
    let mut right = 0u64;
    'values: for i in 0..count {
        if let Some(found) = get(home, table, &RowKey::new(&i.to_be_bytes())?)?
            && found.as_slice() == value
        {
            right = right.saturating_add(1);
        }
    }
    Ok(right)
}

fn delete_long(home: &mut Home, table: &Name, count: u64) -> Result<()>
    requires { IsReady home.old holding }
    ensures { IsReady home.new holding }
{
    'values: for i in 0..count {
        delete(home, table, &RowKey::new(&i.to_be_bytes())?)?;
        keep(home)?;
    }
    Ok(())
}

// How many long values there are. One is enough to see that it is read back.
fn many_long(meter: Meter) -> u64 {
    if meter.is_timed { 16 } else { 1 }
}

// Long values: new, changed, read, deleted.
fn long<R: Host + System>(rt: &R, home: &mut Home, count: u64, meter: Meter) -> Result<()>
    requires { IsReady home.old holding }
    ensures { IsReady home.new holding }
{
    let table = table()?;
    let mut value = Vec::new(rt.alloc());
    value.resize(LONG, b'a')?;
    let start = now(rt)?;
    put_long(home, &table, count, value.as_slice())?;
    meter.tell(rt, "1 MiB, new", count, start)?;
    let start = now(rt)?;
    put_long(home, &table, count, value.as_slice())?;
    meter.tell(rt, "1 MiB, changed", count, start)?;
    let start = now(rt)?;
    let right = count_long(home, &table, count, value.as_slice())?;
    meter.tell(rt, "1 MiB, read", count, start)?;
    meter.tell_right(rt, count, right)?;
    let start = now(rt)?;
    delete_long(home, &table, count)?;
    meter.tell(rt, "1 MiB, deleted", count, start)
}

fn open_often(home: &mut Home, count: u64) -> Result<()>
    requires { IsReady home.old holding }
    ensures { IsReady home.new holding }
{
    'openings: for _ in 0..count {
        open(home)?;
    }
    Ok(())
}

// Searches for a key that is not there, as an opening makes them.
fn look_often(home: &mut Home, count: u64) -> Result<()>
    requires { IsReady home.old holding }
    ensures { IsReady home.new holding }
{
    'looks: for _ in 0..count {
        let _ = home.get(&Key::new(&[5])?)?;
    }
    Ok(())
}

// Openings beside single searches, over a table of so many keys.
fn openings(host: &impl Host, home: &mut Home, count: u64, meter: Meter) -> Result<()>
    requires { IsReady home.old holding }
    ensures { IsReady home.new holding }
{
    put_all(home, &table()?, count, b'a')?;
    let start = now(host)?;
    look_often(home, count)?;
    meter.tell(host, "a search", count, start)?;
    let start = now(host)?;
    open_often(home, count)?;
    meter.tell(host, "an opening", count, start)
}

impl<R: Host + System> Course<R> for Bench {
    type Answer = Result<()>;

    fn run(self, rt: &R, home: &mut Home) -> Result<()> {
        if let Subject::Plain = self.subject {
            return plain(rt, home, self.count, self.meter);
        }
        create(home, &table()?)?;
        match self.subject {
            Subject::Plain | Subject::Table => rows(rt, home, self.count, self.meter),
            Subject::TableWithLong => {
                put(home, &table()?, &RowKey::new(b"long")?, &[b'x'; 1000])?;
                rows(rt, home, self.count, self.meter)
            }
            Subject::Batches(size) => batches(rt, home, self.count, size, self.meter),
            Subject::Long => long(rt, home, many_long(self.meter), self.meter),
            Subject::Openings => openings(rt, home, self.count, self.meter),
        }
    }
}
