//! A store of tables that is served. Before a call on tables there is room made for all that it
//! writes, and what a stop or a refusal left half done is finished.

ghost use Rattle.bw_home.specs.Ready.{IsReady};

use crate::answers::Answer;
use crate::rows::{bytes_of, has_batch, left_bytes, quick_bytes};
use crate::tables::{read_tables, write_tables};
use crate::tended::{Served, Tending};
use bw_calls::TableFault;
use bw_core::StoreFault;
use bw_home::Home;
use bw_keys::Admission;
use bw_words::{Miss, System, TableCall};
use std::alloc::Global;

/// Whether a call only deletes, so that it is let in if a log is full.
fn only_deletes(call: &TableCall) -> bool {
    match call {
        TableCall::Drop(_) => true,
        TableCall::Change(change) => change.value.is_none(),
        _ => false,
    }
}

/// Whether a refusal may leave something half done.
fn leaves_some(fault: &TableFault) -> bool {
    matches!(
        fault,
        TableFault::NotMade(_) | TableFault::Waits(_) | TableFault::Unfinished
    )
}

/// Whether a call that was done may have left something half done: a batch that is not carried out.
fn has_left(home: &mut Home, call: &TableCall) -> bool
    requires { IsReady home.old holding }
    ensures { IsReady home.new holding }
{
    if !matches!(call, TableCall::Batch(_)) {
        return false;
    }
    match has_batch(home) {
        Ok(stands) => stands,
        Err(_) => true,
    }
}

/// How many records were taken since the store was opened.
fn taken(home: &Home) -> u64 {
    let kept = home.store.history().len() as u64;
    home.store.forgotten().saturating_add(kept)
}

impl Tending {
    /// Notes that something may be left half done: it is finished before the next call on tables.
    pub fn owe(&mut self) {
        self.owes = true;
    }

    /// Counts what was taken, and lets what is durable of it leave memory, and pages.
    fn count_taken(&mut self, home: &mut Home)
        requires { IsReady home.old holding }
        ensures { IsReady home.new holding }
    {
        self.tally.accepted = taken(home);
        let _ = home.store.forget();
        let _ = home.keep_pages();
    }

    /// Finishes what is left half done.
    fn finish(&mut self, home: &mut Home) -> Result<(), Miss>
        requires { IsReady home.old holding }
        ensures { IsReady home.new holding }
    {
        let finished = bw_calls::open(home);
        self.count_taken(home);
        finished?;
        self.owes = false;
        Ok(())
    }

    /// Finishes what is left half done, if there is room for it; `true` if a spare was made first.
    fn finish_with_room<R: System>(&mut self, rt: &R, home: &mut Home) -> Result<bool, Miss>
        requires { IsReady home.old holding }
        ensures { IsReady home.new holding }
    {
        let bytes = left_bytes(rt.alloc(), home)?;
        match self.room.reserve(rt, home, bytes, true)? {
            Admission::Room => Ok(true),
            Admission::No => Err(Miss::from(StoreFault::NoSegment)),
            Admission::Yes => {
                self.finish(home)?;
                Ok(false)
            }
        }
    }

    /// Whether a call may be done after a refusal to finish what is left half done: one that only
    /// looks may, if no batch stands, since the tables are the same then.
    fn goes_on(&self, home: &mut Home, call: &TableCall, miss: Miss) -> Result<(), Miss>
        requires { IsReady home.old holding }
        ensures { IsReady home.new holding }
    {
        if call.writes() {
            return Err(miss);
        }
        if has_batch(home)? {
            return Err(miss);
        }
        Ok(())
    }

    /// Finishes what is left half done before a call; `true` if a spare was made first.
    fn finish_before<R: System>(
        &mut self,
        rt: &R,
        home: &mut Home,
        call: &TableCall,
    ) -> Result<bool, Miss>
        requires { IsReady home.old holding }
        ensures { IsReady home.new holding }
    {
        if !self.owes {
            return Ok(false);
        }
        match self.finish_with_room(rt, home) {
            Ok(is_made) => Ok(is_made),
            Err(miss) => {
                self.goes_on(home, call, miss)?;
                Ok(false)
            }
        }
    }

    /// Whether there is room for a call, as far as that is known without a look at the store.
    fn has_quick_room(&mut self, home: &Home, call: &TableCall) -> bool
        requires { IsReady home.now holding }
    {
        match quick_bytes(call) {
            Some(bytes) => self.room.has_room(home, bytes),
            None => false,
        }
    }

    /// Whether there is room for a call, or a spare was made on the way to it.
    fn admits_call<R: System>(
        &mut self,
        rt: &R,
        home: &mut Home,
        call: &TableCall,
    ) -> Result<Admission, Miss>
        requires { IsReady home.old holding }
        ensures { IsReady home.new holding }
    {
        if self.has_quick_room(home, call) {
            return Ok(Admission::Yes);
        }
        let bytes = bytes_of(rt.alloc(), home, call)?;
        Ok(self.room.reserve(rt, home, bytes, only_deletes(call))?)
    }

    /// Changes tables, if there is room for that.
    fn written<R: System>(
        &mut self,
        rt: &R,
        home: &mut Home,
        call: &TableCall,
    ) -> Result<Served, Miss>
        requires { IsReady home.old holding }
        ensures { IsReady home.new holding }
    {
        match self.admits_call(rt, home, call)? {
            Admission::Yes => {}
            Admission::Room => return Ok(Served::Room),
            Admission::No => return Err(Miss::from(StoreFault::NoSegment)),
        }
        let written = write_tables(home, call);
        self.count_taken(home);
        match written {
            Ok(answer) => {
                self.owes |= has_left(home, call);
                Ok(Served::Answer(answer))
            }
            Err(fault) => {
                self.owes |= leaves_some(&fault);
                Err(Miss::from(fault))
            }
        }
    }

    /// Looks at tables, or changes them.
    fn called<R: System>(
        &mut self,
        rt: &R,
        home: &mut Home,
        call: &TableCall,
    ) -> Result<Served, Miss>
        requires { IsReady home.old holding }
        ensures { IsReady home.new holding }
    {
        if call.writes() {
            return self.written(rt, home, call);
        }
        Ok(Served::Answer(read_tables(rt.alloc(), home, call)?))
    }

    /// Does a call, if no append failed. What waits in the queue is taken before.
    fn done_on_tables<R: System>(
        &mut self,
        rt: &R,
        home: &mut Home,
        call: &TableCall,
    ) -> Result<Served, Miss>
        requires { IsReady home.old holding }
        ensures { IsReady home.new holding }
    {
        if self.room.first_look(rt, home)? {
            return Ok(Served::Room);
        }
        if self.room.take_waiting(rt, home)? {
            return Ok(Served::Room);
        }
        if self.finish_before(rt, home, call)? {
            return Ok(Served::Room);
        }
        self.called(rt, home, call)
    }

    /// Does a call after an append that failed: nothing is changed.
    fn called_failed(
        &mut self,
        alloc: Global,
        home: &mut Home,
        call: &TableCall,
    ) -> Result<Served, Miss>
        requires { IsReady home.old holding }
        ensures { IsReady home.new holding }
    {
        if call.writes() {
            return Err(Miss::from(StoreFault::Failed));
        }
        self.goes_on(home, call, Miss::from(StoreFault::Failed))?;
        Ok(Served::Answer(read_tables(alloc, home, call)?))
    }

    /// Does a call on tables, and makes room if it wants some. A spare that is made is not added
    /// here: the same is asked again once it was.
    pub fn serve_tables<R: System>(
        &mut self,
        rt: &R,
        home: &mut Home,
        call: &TableCall,
    ) -> Result<Served, Miss>
        requires { IsReady home.old holding }
        ensures { IsReady home.new holding }
    {
        if self.has_failed() {
            return self.called_failed(rt.alloc(), home, call);
        }
        let served = self.done_on_tables(rt, home, call);
        self.note(home, served.as_ref().err());
        served
    }
}
