//! A script over a store, a leg for each line.

ghost use Rattle.bw_home.specs.Ready.{IsReady};

use crate::request::{Request, request_of};
use anyhow::{Result, bail};
use bw_calls::{
    Change, batch, create, delete, drop_table, first, keep, last_name, name_before, next_above,
    open, put,
};
use bw_codec::{Key, Value};
use bw_home::{Home, Legs, System};
use bw_rows::{Name, RowKey};
use std::alloc::Global;
use std::io::{self, BufWriter, Write};

/// A script that runs.
#[derive(Drop)]
pub struct Run<'a> {
    lines: &'a [String],
    at: usize,
    /// The changes of a batch that were read.
    changes: Vec<Change>,
    /// How many of them are to come.
    wanted: usize,
}

impl<'a> Run<'a> {
    pub fn new(alloc: Global, lines: &'a [String]) -> Run<'a> {
        Run {
            lines,
            at: 0,
            changes: Vec::new(alloc),
            wanted: 0,
        }
    }

    // A change: it is made, or stands by for the batch that it is one of.
    fn change(&mut self, home: &mut Home, change: Change) -> Result<()>
        requires { IsReady home.old holding }
        ensures { IsReady home.new holding }
    {
        if self.wanted == 0 {
            return make(home, &change);
        }
        self.changes.push(change)?;
        self.wanted -= 1;
        if self.wanted > 0 {
            return Ok(());
        }
        let made = batch(home, self.changes.as_slice());
        self.changes.clear();
        Ok(made?)
    }

    // Does what a line asks. A batch is answered at its last line.
    fn does<R: System + Print>(&mut self, rt: &R, home: &mut Home, line: &str) -> Result<()>
        requires { IsReady home.old holding }
        ensures { IsReady home.new holding }
    {
        match request_of(rt.alloc(), line)? {
            Request::Open => open(home)?,
            Request::Keep => keep(home)?,
            Request::Clean => {
                home.clean(rt)?;
            }
            Request::Show => show(rt, home)?,
            Request::Create(name) => create(home, &name)?,
            Request::Drop(name) => drop_table(home, &name)?,
            Request::Change(change) => self.change(home, change)?,
            Request::Batch(count) => self.wanted = count,
            Request::Raw(key, value) => set_raw(home, key, value)?,
        }
        Ok(())
    }

    // Does what the next line asks, and answers it; `false` after the last line.
    fn step<R: System + Print>(&mut self, rt: &R, home: &mut Home) -> Result<bool>
        requires { IsReady home.old holding }
        ensures { IsReady home.new holding }
    {
        let Some(line) = self.lines.get(self.at) else {
            return Ok(false);
        };
        self.at = self.at.saturating_add(1);
        match self.does(rt, home, line.as_str()) {
            Ok(()) => println!(rt; "ok")?,
            Err(error) => println!(rt; "refused {error}")?,
        }
        Ok(true)
    }
}

impl<R: System + Print> Legs<R> for Run<'_> {
    type Answer = Result<()>;

    fn leg(&mut self, rt: &R, home: &mut Home) -> Option<Result<()>> {
        match self.step(rt, home) {
            Ok(true) => None,
            Ok(false) => Some(Ok(())),
            Err(error) => Some(Err(error)),
        }
    }
}

// A change that is a call of its own.
fn make(home: &mut Home, change: &Change) -> Result<()>
    requires { IsReady home.old holding }
    ensures { IsReady home.new holding }
{
    match &change.value {
        Some(value) => put(home, &change.table, &change.key, value.as_slice())?,
        None => delete(home, &change.table, &change.key)?,
    }
    Ok(())
}

// Sets or deletes a pair of the store itself.
fn set_raw(home: &mut Home, key: Key, value: Option<Value>) -> Result<()>
    requires { IsReady home.old holding }
    ensures { IsReady home.new holding }
{
    match value {
        Some(value) => home.set(key, value)?,
        None => home.delete(key)?,
    }
    Ok(())
}

// A word of these bytes: hex, or `-` for none.
fn word_of(alloc: Global, bytes: &[u8]) -> Result<String> {
    if bytes.is_empty() {
        return Ok(format!(in alloc; "-")?);
    }
    Ok(hex::encode(alloc, bytes)?)
}

// Prints a pair of a table.
fn show_row(out: &mut impl Write, alloc: Global, key: &RowKey, value: &[u8]) -> Result<()> {
    let key = word_of(alloc, key.as_slice())?;
    let value = word_of(alloc, value)?;
    writeln!(out, "row {key} {value}")?;
    Ok(())
}

// Prints the pairs of a table in their order.
fn show_table(out: &mut impl Write, alloc: Global, home: &mut Home, name: &Name) -> Result<()>
    requires { IsReady home.old holding }
    ensures { IsReady home.new holding }
{
    let word = word_of(alloc, name.as_slice())?;
    writeln!(out, "table {word}")?;
    let mut pair = first(home, name)?;
    'pairs: for _ in 0..u64::MAX {
        let Some((key, value)) = pair else {
            return Ok(())
        };
        show_row(out, alloc, &key, value.as_slice())?;
        pair = next_above(home, name, &key)?;
    }
    bail!("a table without an end")
}

// Prints all tables, from the last name to the first.
fn show<R: System + Print>(rt: &R, home: &mut Home) -> Result<()>
    requires { IsReady home.old holding }
    ensures { IsReady home.new holding }
{
    let mut out = BufWriter::new(rt.alloc(), io::writer(rt))?;
    let mut at = last_name(home)?;
    'tables: for _ in 0..u64::MAX {
        let Some(name) = at else { break };
        show_table(&mut out, rt.alloc(), home, &name)?;
        at = name_before(home, &name)?;
    }
    out.flush()?;
    Ok(())
}
