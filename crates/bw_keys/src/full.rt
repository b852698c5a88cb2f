//! A log in which no room can be made: puts are refused while there is still room for deletes, for
//! a flush of what was taken, and for a cleaning.

ghost use Rattle.std.specs.Prelude.{◌≡◌};
ghost use Rattle.bw_home.specs.Ready.{IsReady};

use crate::measure::taken;
use crate::tending::Tending;
use bw_codec::Record;
use bw_core::StoreFault;
use bw_home::{Home, HomeFault, System};
use bw_ring::Group;

/// More than a delete has in the log beside its key, with a frame of its own.
const DELETE: u64 = 64;

/// A log in which no room can be made.
#[derive(Debug, Clone, Copy)]
pub struct Full {
    /// How many records were taken when that was found.
    pub taken: u64,
    /// How many bytes deletes may still add; `None` before the first of them.
    pub left: Option<u64>,
}

/// Whether a group is taken into a store.
#[derive(Debug, Clone, Copy, PartialEq, Eq)]
pub enum Admission {
    Yes,
    /// A spare was made. Once it was added, the same is asked again.
    Room,
    /// The log is full.
    No,
}

/// How many bytes a group adds to the log, at most, if it only deletes; `None` of any other.
fn bytes_of_deletes(group: &Group) -> Option<u64> {
    let mut bytes = 0u64;
    for item in group.as_slice() {
        match item {
            Record::Del(key) => {
                bytes = bytes.saturating_add(DELETE + key.as_slice().len() as u64);
            }
            Record::Put(..) => return None,
        }
    }
    Some(bytes)
}

/// Whether it is asked once more if room can be made: so much was taken since that each page needs
/// to be looked at no more than once for eight records.
pub(crate) fn is_asked_again(home: &Home, full: Full) -> bool {
    let since = taken(home).saturating_sub(full.taken);
    since > u64::from(home.store.pages()) / 8
}

impl Tending {
    /// Whether no room can be made, and groups have to be admitted one by one.
    pub fn is_full(&self) -> bool {
        self.full.is_some()
    }

    /// Makes what was taken durable, and answers how many bytes deletes may add from then on: what
    /// is left of the newest segment, or of a spare, but for what a cleaning wants.
    fn room_to_delete(&mut self, home: &mut Home) -> Result<u64, HomeFault>
        requires { IsReady home.old holding }
        ensures ready { IsReady home.new holding }
        ensures feeds { home.new.feeds ≡ home.old.feeds }
    {
        match home.flush() {
            Ok(Some(_)) => self.has_flushed = true,
            Ok(None) => {}
            Err(StoreFault::NoSegment) => return Ok(0),
            Err(fault) => return Err(HomeFault::from(fault)),
        }
        let rest = self.rest(home);
        let kept = self.measure.kept(home, self.most);
        if kept == 1 {
            return Ok(rest.saturating_sub(self.measure.half()));
        }
        if home.store.spares() >= kept {
            return Ok(self.measure.room());
        }
        Ok(rest)
    }

    /// How many bytes deletes may still add.
    pub(crate) fn left_to_delete(&mut self, home: &mut Home, full: Full) -> Result<u64, HomeFault>
        requires { IsReady home.old holding }
        ensures ready { IsReady home.new holding }
        ensures feeds { home.new.feeds ≡ home.old.feeds }
    {
        match full.left {
            Some(left) => Ok(left),
            None => self.room_to_delete(home),
        }
    }

    /// Whether there is room for a group that only deletes.
    fn admits_deletes(
        &mut self,
        home: &mut Home,
        full: Full,
        group: &Group,
    ) -> Result<bool, HomeFault>
        requires { IsReady home.old holding }
        ensures ready { IsReady home.new holding }
        ensures feeds { home.new.feeds ≡ home.old.feeds }
    {
        let Some(bytes) = bytes_of_deletes(group) else {
            return Ok(false);
        };
        let left = self.left_to_delete(home, full)?;
        self.full = Some(Full {
            taken: full.taken,
            left: Some(left.saturating_sub(bytes)),
        });
        Ok(bytes <= left)
    }

    /// Asks once more whether room can be made, if enough was taken since.
    fn asks_again<R: System>(
        &mut self,
        rt: &R,
        home: &mut Home,
        full: Full,
    ) -> Result<Admission, HomeFault>
        requires { IsReady home.old holding }
        ensures ready { IsReady home.new holding }
        ensures feeds { home.new.feeds ≡ home.old.feeds }
    {
        if !is_asked_again(home, full) {
            return Ok(Admission::No);
        }
        if self.make_room(rt, home)? {
            return Ok(Admission::Room);
        }
        if self.is_full() {
            Ok(Admission::No)
        } else {
            Ok(Admission::Yes)
        }
    }

    /// Whether a group is taken in, once all that was put before is. In a full log one that only
    /// deletes is as long as there is room for it beside what a cleaning wants, and no other.
    pub fn admits<R: System>(
        &mut self,
        rt: &R,
        home: &mut Home,
        group: &Group,
    ) -> Result<Admission, HomeFault>
        requires { IsReady home.old holding }
        ensures ready { IsReady home.new holding }
        ensures feeds { home.new.feeds ≡ home.old.feeds }
    {
        let Some(full) = self.full else {
            return Ok(Admission::Yes);
        };
        if self.has_spares(home) {
            return Ok(Admission::Yes);
        }
        if self.admits_deletes(home, full, group)? {
            return Ok(Admission::Yes);
        }
        self.asks_again(rt, home, full)
    }
}
