//! Pairs of tables are written, in the order of their keys.

ghost use Rattle.bw_home.specs.Ready.{IsReady};

use crate::names::{copy_of, names_down, number_of};
use crate::reading::once;
use crate::run::{Calls, Need};
use crate::walk::{Found, Walk, value_of};
use crate::words::whole;
use bw_home::Home;
use bw_keys::{KeysFault, Span, Style};
use bw_pairs::{write_end, write_named_header};
use bw_rows::Name;
use std::io::Write;

/// The pairs of a table are written, or those of all.
#[derive(Drop)]
pub struct List<'a, O> {
    /// The table that is meant; each with its name if there is none.
    pub name: Option<Name>,
    /// The stretch of keys that is meant, up to the listing.
    pub span: Option<Span>,
    pub style: Style,
    /// How many pairs are written at most.
    pub left: u64,
    pub output: &'a mut O,
    pub is_over: bool,
}

/// The value of a row, which is only read if this style writes it.
fn value_for(
    home: &mut Home,
    style: Style,
    name: &Name,
    found: &Found,
) -> Result<Vec<u8>, KeysFault>
    requires { IsReady home.old holding }
    ensures { IsReady home.new holding }
{
    if style.has_values() {
        return value_of(home, name, found);
    }
    Ok(Vec::new(*home.feeds.allocator()))
}

impl<O: Write> List<'_, O> {
    /// Writes what stands before the pairs of a table.
    fn begin(&mut self, name: Option<&Name>) -> Result<(), KeysFault> {
        let Style::Dump(letters, mapsize) = self.style else {
            return Ok(());
        };
        let written = match name {
            Some(name) => write_named_header(self.output, letters, Some(name.as_slice()), mapsize),
            None => write_named_header(self.output, letters, None, mapsize),
        };
        written.map_err(KeysFault::of_output)
    }

    /// Writes what stands after them.
    fn end(&mut self) -> Result<(), KeysFault> {
        match self.style {
            Style::Dump(..) => write_end(self.output).map_err(KeysFault::of_output),
            _ => Ok(()),
        }
    }

    /// Writes a pair.
    fn pair(&mut self, home: &mut Home, name: &Name, found: Found) -> Result<(), KeysFault>
        requires { IsReady home.old holding }
        ensures { IsReady home.new holding }
    {
        let style = self.style;
        let value = value_for(home, style, name, &found)?;
        style
            .write(self.output, found.key.as_slice(), value.as_slice())
            .map_err(KeysFault::of_output)
    }

    /// Writes the pairs of a walk, as many as are wanted.
    fn pairs(&mut self, home: &mut Home, name: &Name, walk: Walk) -> Result<(), KeysFault>
        requires { IsReady home.old holding }
        ensures { IsReady home.new holding }
    {
        let mut walk = walk;
        let left = self.left;
        'rows: for _ in 0..left {
            match walk.next(home)? {
                Some(found) => self.pair(home, name, found)?,
                None => return Ok(()),
            }
        }
        Ok(())
    }

    /// Writes the pairs of a table, of this stretch.
    fn table(&mut self, home: &mut Home, name: &Name, span: Span) -> Result<(), KeysFault>
        requires { IsReady home.old holding }
        ensures { IsReady home.new holding }
    {
        let table = number_of(home, name)?;
        let walk = Walk::new(*home.feeds.allocator(), table, span);
        self.pairs(home, name, walk)
    }

    /// Writes the pairs of a table after its name.
    fn named(&mut self, home: &mut Home, name: &Name) -> Result<(), KeysFault>
        requires { IsReady home.old holding }
        ensures { IsReady home.new holding }
    {
        self.begin(Some(name))?;
        self.table(home, name, whole())?;
        self.end()
    }

    /// Writes the pairs of all tables.
    fn all(&mut self, home: &mut Home) -> Result<(), KeysFault>
        requires { IsReady home.old holding }
        ensures { IsReady home.new holding }
    {
        let mut names = names_down(home)?;
        let count = names.len();
        'tables: for _ in 0..count {
            match names.pop() {
                Some(name) => self.named(home, &name)?,
                None => break,
            }
        }
        Ok(())
    }

    /// Writes the pairs of the one that is meant.
    fn one(&mut self, home: &mut Home, name: &Name) -> Result<(), KeysFault>
        requires { IsReady home.old holding }
        ensures { IsReady home.new holding }
    {
        let _ = number_of(home, name)?;
        self.begin(None)?;
        let span = self.span.take().unwrap_or(whole());
        self.table(home, name, span)?;
        self.end()
    }

    /// The name of the table that is meant.
    fn meant(&self) -> Result<Option<Name>, KeysFault> {
        match &self.name {
            Some(name) => Ok(Some(copy_of(name)?)),
            None => Ok(None),
        }
    }
}

impl<O: Write> Calls for List<'_, O> {
    fn next(&mut self, _home: &mut Home) -> Result<Option<Need>, KeysFault> {
        Ok(once(self.is_over))
    }

    fn call(&mut self, home: &mut Home) -> Result<(), KeysFault> {
        self.is_over = true;
        match self.meant()? {
            Some(name) => self.one(home, &name),
            None => self.all(home),
        }
    }

    fn bytes(&self) -> u64 {
        0
    }

    fn only_read(&self) -> bool {
        true
    }
}
