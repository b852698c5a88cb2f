//! Deletes of keys that were named, and of all keys of a stretch.

ghost use Rattle.bw_home.specs.Ready.{IsReady};

use crate::fault::{answer_of, is_made};
use crate::names::{has_value, number_of};
use crate::needs::{OLD, STEP};
use crate::run::{Calls, Need};
use crate::walk::Walk;
use bw_calls::delete;
use bw_home::Home;
use bw_keys::{KeysFault, Span};
use bw_rows::{Name, RowKey};
use std::collections::VecDeque;

/// What a delete adds to the log at most.
const NEED: Need = Need::Less(STEP + OLD);

/// Which keys are deleted.
#[derive(Drop)]
pub enum Meant {
    /// These.
    Named(VecDeque<RowKey>),
    /// All of a stretch, which is not looked at yet.
    Stretch(Span),
    /// Those that are left of it.
    Rows(Walk),
    /// None.
    Nothing,
}

/// Deletes of a table's keys.
#[derive(Drop)]
pub struct Deletes {
    pub name: Name,
    pub meant: Meant,
    /// The next one.
    pub key: Option<RowKey>,
    /// How many keys were deleted that had a value.
    pub count: u64,
}

/// The key of the next row.
fn next_in(home: &mut Home, walk: &mut Walk) -> Result<Option<RowKey>, KeysFault>
    requires { IsReady home.old holding }
    ensures { IsReady home.new holding }
{
    match walk.next(home)? {
        Some(found) => Ok(Some(found.key)),
        None => Ok(None),
    }
}

/// The next key that has a value.
fn next_named(
    home: &mut Home,
    name: &Name,
    keys: &mut VecDeque<RowKey>,
) -> Result<Option<RowKey>, KeysFault>
    requires { IsReady home.old holding }
    ensures { IsReady home.new holding }
{
    'keys: for _ in 0..u64::MAX {
        let Some(key) = keys.pop_front() else {
            return Ok(None);
        };
        if has_value(home, name, &key)? {
            return Ok(Some(key));
        }
    }
    Ok(None)
}

impl Deletes {
    /// Begins with the rows of a stretch, if one is meant.
    fn begin(&mut self, home: &mut Home) -> Result<(), KeysFault>
        requires { IsReady home.old holding }
        ensures { IsReady home.new holding }
    {
        let table = number_of(home, &self.name)?;
        let alloc = *home.feeds.allocator();
        self.meant = match std::mem::replace(&mut self.meant, Meant::Nothing) {
            Meant::Stretch(span) => Meant::Rows(Walk::new(alloc, table, span)),
            meant => meant,
        };
        Ok(())
    }

    /// The next key that has a value.
    fn next_key(&mut self, home: &mut Home) -> Result<Option<RowKey>, KeysFault>
        requires { IsReady home.old holding }
        ensures { IsReady home.new holding }
    {
        match &mut self.meant {
            Meant::Named(keys) => next_named(home, &self.name, keys),
            Meant::Rows(walk) => next_in(home, walk),
            Meant::Stretch(_) | Meant::Nothing => Ok(None),
        }
    }
}

impl Deletes {
    /// What the delete of the next key adds to the log, if there is one.
    fn need(&self) -> Option<Need> {
        if self.key.is_some() { Some(NEED) } else { None }
    }
}

impl Calls for Deletes {
    fn next(&mut self, home: &mut Home) -> Result<Option<Need>, KeysFault> {
        if self.key.is_some() {
            return Ok(Some(NEED));
        }
        self.begin(home)?;
        self.key = self.next_key(home)?;
        Ok(self.need())
    }

    fn call(&mut self, home: &mut Home) -> Result<(), KeysFault> {
        let Some(key) = self.key.take() else {
            return Ok(());
        };
        let answer = delete(home, &self.name, &key);
        if is_made(&answer) {
            self.count = self.count.saturating_add(1);
        } else {
            self.key = Some(key);
        }
        answer_of(answer)
    }

    fn bytes(&self) -> u64 {
        0
    }

    fn only_read(&self) -> bool {
        false
    }
}
