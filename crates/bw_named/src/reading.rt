//! Values of keys, how many there are, and the names of tables.

ghost use Rattle.bw_home.specs.Ready.{IsReady};

use crate::names::{names_down, number_of};
use crate::run::{Calls, Need};
use crate::walk::{Walk, value_at};
use bw_home::Home;
use bw_keys::{KeysFault, Span};
use bw_pairs::{Spelling, write_line, write_word};
use bw_rows::{Name, RowKey};
use std::collections::VecDeque;
use std::io::Write;

/// The next call of what is done by one, which adds nothing to the log.
pub fn once(is_over: bool) -> Option<Need> {
    if is_over { None } else { Some(Need::Nothing) }
}

/// Values of keys are written, a line each; a single one is written as it is.
#[derive(Drop)]
pub struct Get<'a, O> {
    pub name: Name,
    pub keys: VecDeque<RowKey>,
    pub spelling: Spelling,
    pub output: &'a mut O,
    pub is_over: bool,
    /// The positions of the keys that have no value.
    pub missing: Vec<usize>,
}

/// Writes a value that is the only one.
fn write_alone<O: Write>(
    output: &mut O,
    spelling: Spelling,
    value: &[u8],
) -> Result<(), KeysFault> {
    let written = if spelling == Spelling::Raw {
        write_word(output, spelling, value)
    } else {
        write_line(output, spelling, value)
    };
    written.map_err(KeysFault::of_output)
}

impl<O: Write> Get<'_, O> {
    /// Writes a value, if there is one; whether there is.
    fn write(&mut self, value: Option<Vec<u8>>, is_alone: bool) -> Result<bool, KeysFault> {
        let Some(value) = value else {
            return Ok(false);
        };
        if is_alone {
            write_alone(self.output, self.spelling, value.as_slice())?;
        } else {
            write_line(self.output, self.spelling, value.as_slice()).map_err(KeysFault::of_output)?;
        }
        Ok(true)
    }

    /// Writes the values of all keys.
    fn write_all(&mut self, home: &mut Home) -> Result<(), KeysFault>
        requires { IsReady home.old holding }
        ensures { IsReady home.new holding }
    {
        let is_alone = self.keys.len() == 1;
        let count = self.keys.len();
        'keys: for position in 0..count {
            let Some(key) = self.keys.pop_front() else {
                break;
            };
            let value = value_at(home, &self.name, &key)?;
            if !self.write(value, is_alone)? {
                self.missing.push(position)?;
            }
        }
        Ok(())
    }
}

impl<O: Write> Calls for Get<'_, O> {
    fn next(&mut self, home: &mut Home) -> Result<Option<Need>, KeysFault> {
        let _ = number_of(home, &self.name)?;
        Ok(once(self.is_over))
    }

    fn call(&mut self, home: &mut Home) -> Result<(), KeysFault> {
        self.is_over = true;
        self.write_all(home)
    }

    fn bytes(&self) -> u64 {
        0
    }

    fn only_read(&self) -> bool {
        true
    }
}

/// How many keys of a stretch a table has.
#[derive(Drop)]
pub struct Count {
    pub name: Name,
    /// The stretch, up to the count.
    pub span: Option<Span>,
    pub count: u64,
}

/// How many rows a walk has.
fn count_of(home: &mut Home, walk: Walk) -> Result<u64, KeysFault>
    requires { IsReady home.old holding }
    ensures { IsReady home.new holding }
{
    let mut walk = walk;
    let mut count = 0u64;
    'rows: for _ in 0..u64::MAX {
        match walk.next(home)? {
            Some(_) => count = count.saturating_add(1),
            None => return Ok(count),
        }
    }
    Ok(count)
}

impl Calls for Count {
    fn next(&mut self, _home: &mut Home) -> Result<Option<Need>, KeysFault> {
        Ok(once(self.span.is_none()))
    }

    fn call(&mut self, home: &mut Home) -> Result<(), KeysFault> {
        let table = number_of(home, &self.name)?;
        let alloc = *home.feeds.allocator();
        let Some(span) = self.span.take() else {
            return Ok(());
        };
        self.count = count_of(home, Walk::new(alloc, table, span))?;
        Ok(())
    }

    fn bytes(&self) -> u64 {
        0
    }

    fn only_read(&self) -> bool {
        true
    }
}

/// The names of all tables are written, a line each, in their order.
#[derive(Drop)]
pub struct Names<'a, O> {
    pub output: &'a mut O,
    pub is_over: bool,
}

/// Writes names that come the last one first.
fn write_names<O: Write>(output: &mut O, names: &[Name]) -> Result<(), KeysFault> {
    for name in names.iter().rev() {
        write_line(output, Spelling::Words, name.as_slice()).map_err(KeysFault::of_output)?;
    }
    Ok(())
}

impl<O: Write> Calls for Names<'_, O> {
    fn next(&mut self, _home: &mut Home) -> Result<Option<Need>, KeysFault> {
        Ok(once(self.is_over))
    }

    fn call(&mut self, home: &mut Home) -> Result<(), KeysFault> {
        self.is_over = true;
        let names = names_down(home)?;
        write_names(self.output, names.as_slice())
    }

    fn bytes(&self) -> u64 {
        0
    }

    fn only_read(&self) -> bool {
        true
    }
}
