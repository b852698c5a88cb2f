//! A value is put; a table is made, or goes away.

ghost use Rattle.bw_home.specs.Ready.{IsReady};

use crate::fault::{answer_of, is_made};
use crate::names::number_of;
use crate::needs::{STEP, of_put, of_row};
use crate::run::{Calls, Need};
use crate::walk::Walk;
use crate::words::whole;
use bw_calls::{create, drop_table, put};
use bw_home::Home;
use bw_keys::KeysFault;
use bw_rows::{Name, RowKey};

/// A value is put.
#[derive(Drop)]
pub struct Put {
    pub name: Name,
    pub key: RowKey,
    pub value: Vec<u8>,
    pub is_over: bool,
}

impl Calls for Put {
    fn next(&mut self, _home: &mut Home) -> Result<Option<Need>, KeysFault> {
        if self.is_over {
            return Ok(None);
        }
        Ok(Some(Need::Bytes(of_put(self.value.len()))))
    }

    fn call(&mut self, home: &mut Home) -> Result<(), KeysFault> {
        let answer = put(home, &self.name, &self.key, self.value.as_slice());
        self.is_over = is_made(&answer);
        answer_of(answer)
    }

    fn bytes(&self) -> u64 {
        0
    }

    fn only_read(&self) -> bool {
        false
    }
}

/// A table is made.
#[derive(Drop)]
pub struct Create {
    pub name: Name,
    pub is_over: bool,
}

impl Calls for Create {
    fn next(&mut self, _home: &mut Home) -> Result<Option<Need>, KeysFault> {
        if self.is_over {
            return Ok(None);
        }
        Ok(Some(Need::Bytes(STEP)))
    }

    fn call(&mut self, home: &mut Home) -> Result<(), KeysFault> {
        let answer = create(home, &self.name);
        self.is_over = is_made(&answer);
        answer_of(answer)
    }

    fn bytes(&self) -> u64 {
        0
    }

    fn only_read(&self) -> bool {
        false
    }
}

/// A table goes away, with its rows and their values.
#[derive(Drop)]
pub struct DropTable {
    pub name: Name,
    pub is_over: bool,
    /// How many bytes that adds to the log, once it was reckoned.
    pub needed: Option<u64>,
}

/// How many bytes the deletes of all rows of a walk add to the log.
fn needed_by(home: &mut Home, walk: Walk) -> Result<u64, KeysFault>
    requires { IsReady home.old holding }
    ensures { IsReady home.new holding }
{
    let mut walk = walk;
    let mut needed = STEP;
    'rows: for _ in 0..u64::MAX {
        match walk.next(home)? {
            Some(found) => needed = needed.saturating_add(of_row(found.long())),
            None => return Ok(needed),
        }
    }
    Ok(needed)
}

impl DropTable {
    /// How many bytes it adds to the log.
    fn need(&mut self, home: &mut Home) -> Result<u64, KeysFault>
        requires { IsReady home.old holding }
        ensures { IsReady home.new holding }
    {
        if let Some(needed) = self.needed {
            return Ok(needed);
        }
        let table = number_of(home, &self.name)?;
        let alloc = *home.feeds.allocator();
        let needed = needed_by(home, Walk::new(alloc, table, whole()))?;
        self.needed = Some(needed);
        Ok(needed)
    }
}

impl Calls for DropTable {
    fn next(&mut self, home: &mut Home) -> Result<Option<Need>, KeysFault> {
        if self.is_over {
            return Ok(None);
        }
        Ok(Some(Need::Less(self.need(home)?)))
    }

    fn call(&mut self, home: &mut Home) -> Result<(), KeysFault> {
        let answer = drop_table(home, &self.name);
        self.is_over = is_made(&answer);
        answer_of(answer)
    }

    fn bytes(&self) -> u64 {
        0
    }

    fn only_read(&self) -> bool {
        false
    }
}
