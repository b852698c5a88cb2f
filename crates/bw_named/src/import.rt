//! The pairs of an input go into tables.

ghost use Rattle.bw_home.specs.Ready.{IsReady};

use crate::fault::{answer_of, is_made};
use crate::names::{has_value, number_if_there};
use crate::needs::{OLD, STEP, of_put};
use crate::run::{Calls, Need};
use bw_calls::{TableFault, create, delete, put};
use bw_home::Home;
use bw_keys::{Effect, KeysFault, TableRefusal};
use bw_pairs::{Item, Row, Rows};
use bw_rows::Name;
use std::io::Read;

/// The pairs of an input, which go into tables.
#[derive(Drop)]
pub struct Import<I> {
    pub rows: Rows<I>,
    /// The table into which the next pairs go.
    pub name: Option<Name>,
    /// Whether it is looked at, and made if it is missing.
    pub is_there: bool,
    /// The next pair.
    pub row: Option<Row>,
    pub effect: Effect,
    /// How many pairs went in, or how many keys were deleted.
    pub count: u64,
    /// How many pairs were passed over.
    pub passed: u64,
}

/// Puts a row, or deletes its key.
fn change(home: &mut Home, name: &Name, row: &Row) -> Result<(), TableFault>
    requires { IsReady home.old holding }
    ensures { IsReady home.new holding }
{
    match &row.value {
        Some(value) => put(home, name, &row.key, value.as_slice()),
        None => delete(home, name, &row.key),
    }
}

/// How much a change adds to the log.
fn need_of(row: &Row) -> Need {
    match &row.value {
        Some(value) => Need::Bytes(of_put(value.len())),
        None => Need::Less(STEP + OLD),
    }
}

/// Whether a row is put, or deleted.
fn is_wanted(home: &mut Home, effect: Effect, name: &Name, row: &Row) -> Result<bool, KeysFault>
    requires { IsReady home.old holding }
    ensures { IsReady home.new holding }
{
    match effect {
        Effect::Put => Ok(true),
        Effect::Add => Ok(!has_value(home, name, &row.key)?),
        Effect::Delete => has_value(home, name, &row.key),
    }
}

impl<I: Read + Drop> Import<I> {
    /// Notes what the input has next; whether it has anything.
    fn read(&mut self) -> Result<bool, KeysFault> {
        match self.rows.next_item()? {
            Some(Item::Table(name)) => {
                self.name = Some(name);
                self.is_there = false;
                Ok(true)
            }
            Some(Item::Row(row)) => {
                self.row = Some(row);
                Ok(true)
            }
            None => Ok(false),
        }
    }

    /// Whether the table has to be made. It is not made for deletes.
    fn has_to_make(&mut self, home: &mut Home) -> Result<bool, KeysFault>
        requires { IsReady home.old holding }
        ensures { IsReady home.new holding }
    {
        let Some(name) = &self.name else {
            return Ok(false);
        };
        if self.is_there {
            return Ok(false);
        }
        match number_if_there(home, name)? {
            Some(_) => Ok(false),
            None if self.effect == Effect::Delete => {
                Err(KeysFault::Table(TableRefusal::NoTable))
            }
            None => Ok(true),
        }
    }

    /// How much the change of the next pair adds to the log, if it is wanted; otherwise it is
    /// passed over.
    fn need(&mut self, home: &mut Home) -> Result<Option<Need>, KeysFault>
        requires { IsReady home.old holding }
        ensures { IsReady home.new holding }
    {
        let (Some(name), Some(row)) = (&self.name, &self.row) else {
            return Ok(None);
        };
        if is_wanted(home, self.effect, name, row)? {
            return Ok(Some(need_of(row)));
        }
        self.row = None;
        self.passed = self.passed.saturating_add(1);
        Ok(None)
    }

    /// How much the next call adds to the log, if it is known which one that is.
    fn look(&mut self, home: &mut Home) -> Result<Option<Need>, KeysFault>
        requires { IsReady home.old holding }
        ensures { IsReady home.new holding }
    {
        if self.has_to_make(home)? {
            return Ok(Some(Need::Bytes(STEP)));
        }
        self.is_there = true;
        self.need(home)
    }

    /// How much the next call adds to the log; `None` after the last.
    fn next_need(&mut self, home: &mut Home) -> Result<Option<Need>, KeysFault>
        requires { IsReady home.old holding }
        ensures { IsReady home.new holding }
    {
        'items: for _ in 0..u64::MAX {
            if let Some(need) = self.look(home)? {
                return Ok(Some(need));
            }
            if !self.read()? {
                return Ok(None);
            }
        }
        Ok(None)
    }

    /// Makes the table.
    fn make(&mut self, home: &mut Home) -> Result<(), KeysFault>
        requires { IsReady home.old holding }
        ensures { IsReady home.new holding }
    {
        let Some(name) = &self.name else {
            return Ok(());
        };
        let answer = create(home, name);
        self.is_there = is_made(&answer);
        answer_of(answer)
    }

    /// Makes the change of the pair.
    fn change(&mut self, home: &mut Home) -> Result<(), KeysFault>
        requires { IsReady home.old holding }
        ensures { IsReady home.new holding }
    {
        let (Some(name), Some(row)) = (&self.name, &self.row) else {
            return Ok(());
        };
        let answer = change(home, name, row);
        if is_made(&answer) {
            self.row = None;
            self.count = self.count.saturating_add(1);
        }
        answer_of(answer)
    }
}

impl<I: Read + Drop> Calls for Import<I> {
    fn next(&mut self, home: &mut Home) -> Result<Option<Need>, KeysFault> {
        self.next_need(home)
    }

    fn call(&mut self, home: &mut Home) -> Result<(), KeysFault> {
        if self.is_there {
            self.change(home)
        } else {
            self.make(home)
        }
    }

    fn bytes(&self) -> u64 {
        self.rows.bytes()
    }

    fn only_read(&self) -> bool {
        false
    }
}
