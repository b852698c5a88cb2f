//! Calls on the tables of a store, one after another, in legs: room is made before each for all
//! that it writes.

ghost use Rattle.bw_home.specs.Ready.{IsReady};

use crate::fault::{answer_of, is_full};
use bw_calls::{keep, open};
use bw_codec::Key;
use bw_core::StoreFault;
use bw_home::{Home, Legs, System};
use bw_keys::{
    Admission, KeysFault, TableRefusal, Tending, forget, has_tables, last_frame, refused_spare,
};
use bw_look::{Watch, Work};

/// How much a call adds to the log.
#[derive(Debug, Clone, Copy, PartialEq, Eq)]
pub enum Need {
    /// Nothing.
    Nothing,
    /// So many bytes at most.
    Bytes(u64),
    /// So many bytes at most, and it makes less of what stands there.
    Less(u64),
}

/// Calls, one after another.
pub trait Calls: Drop {
    /// How much the next one adds to the log; `None` after the last. It is asked again after room
    /// was made, and after the call was refused for want of room.
    fn next(&mut self, home: &mut Home) -> Result<Option<Need>, KeysFault>
        requires { IsReady home.old holding }
        ensures ready { IsReady home.new holding };

    /// Makes it.
    fn call(&mut self, home: &mut Home) -> Result<(), KeysFault>
        requires { IsReady home.old holding }
        ensures ready { IsReady home.new holding };

    /// How many bytes of an input were read for those so far; 0 if there is none.
    fn bytes(&self) -> u64;

    /// Whether none of them changes anything.
    fn only_read(&self) -> bool;
}

/// What comes next.
#[derive(Debug, Clone, Copy, PartialEq, Eq)]
enum Step {
    /// The next step.
    On,
    /// The next leg, by which a spare was added.
    Room,
    /// All is over.
    End,
}

/// How far a run is.
#[derive(Debug, Clone, Copy, PartialEq, Eq)]
enum Stage {
    /// Whether the folder has tables is looked at.
    Look,
    /// What was left half done is finished.
    Open,
    /// The calls are made.
    Calls,
    /// What they wrote is made durable.
    Keep,
    /// It is.
    End,
}

/// Calls on the tables of a store.
#[derive(Drop)]
pub struct Run<'a, C, W> {
    calls: &'a mut C,
    /// How many bytes the input has; 0 if that is not known.
    all: u64,
    watch: &'a mut W,
    tending: Tending,
    stage: Stage,
    /// Why there are no more calls.
    fault: Option<KeysFault>,
    /// Whether all that was done is durable.
    is_kept: bool,
}

/// The least of all keys.
fn least() -> Key {
    match Key::new(&[0]) {
        Ok(key) => key,
        Err(_) => unreachable!(),
    }
}

/// Refuses a store that has pairs, if these are not those of tables.
fn look(home: &mut Home) -> Result<(), KeysFault>
    requires { IsReady home.old holding }
    ensures { IsReady home.new holding }
{
    if has_tables(home)? {
        return Ok(());
    }
    match home.next_at(&least())? {
        Some(_) => Err(KeysFault::Table(TableRefusal::IsPlain)),
        None => Ok(()),
    }
}

impl<'a, C: Calls, W: Watch> Run<'a, C, W> {
    /// These calls, over a store that is tended so.
    pub fn new(calls: &'a mut C, all: u64, watch: &'a mut W, tending: Tending) -> Run<'a, C, W> {
        Run {
            calls,
            all,
            watch,
            tending,
            stage: Stage::Look,
            fault: None,
            is_kept: false,
        }
    }

    /// Whether all that was done is durable, once all has ended.
    pub fn is_kept(&self) -> bool {
        self.is_kept
    }

    /// The stage that comes after an opening.
    fn opened(&self) -> Stage {
        if self.fault.is_some() {
            Stage::Keep
        } else {
            Stage::Calls
        }
    }

    /// Whether there is room for the next call.
    fn admits<R: System>(
        &mut self,
        rt: &R,
        home: &mut Home,
        need: Need,
    ) -> Result<Admission, KeysFault>
        requires { IsReady home.old holding }
        ensures { IsReady home.new holding }
    {
        let (bytes, is_less) = match need {
            Need::Nothing => return Ok(Admission::Yes),
            Need::Bytes(bytes) => (bytes, false),
            Need::Less(bytes) => (bytes, true),
        };
        match self.tending.admits_call(rt, home, bytes)? {
            Admission::No if is_less && self.tending.has_rest(home, bytes) => Ok(Admission::Yes),
            admission => Ok(admission),
        }
    }

    /// Makes a call for which there is room, and looks at the spares then.
    fn make_call<R: System>(&mut self, rt: &R, home: &mut Home) -> Result<Step, KeysFault>
        requires { IsReady home.old holding }
        ensures { IsReady home.new holding }
    {
        if self.calls.only_read() {
            self.watch.rest();
            self.calls.call(home)?;
            return Ok(Step::On);
        }
        self.calls.call(home)?;
        forget(home);
        self.watch
            .see(Work::Importing, self.calls.bytes(), self.all);
        self.watch.durable(last_frame(home));
        if self.tending.look(rt, home)? {
            Ok(Step::Room)
        } else {
            Ok(Step::On)
        }
    }

    /// The next call, if there is one.
    fn next_call<R: System>(&mut self, rt: &R, home: &mut Home) -> Result<Step, KeysFault>
        requires { IsReady home.old holding }
        ensures { IsReady home.new holding }
    {
        let Some(need) = self.calls.next(home)? else {
            self.stage = Stage::Keep;
            return Ok(Step::On);
        };
        match self.admits(rt, home, need)? {
            Admission::Yes => self.make_call(rt, home),
            Admission::Room => Ok(Step::Room),
            Admission::No => Err(KeysFault::from(StoreFault::NoSegment)),
        }
    }

    /// Makes durable what the calls wrote, if any does.
    fn keep(&mut self, home: &mut Home) -> Result<(), KeysFault>
        requires { IsReady home.old holding }
        ensures { IsReady home.new holding }
    {
        if self.calls.only_read() {
            self.stage = Stage::End;
            return Ok(());
        }
        answer_of(keep(home))?;
        self.is_kept = true;
        self.stage = Stage::End;
        Ok(())
    }

    /// Does what comes next.
    fn step<R: System>(&mut self, rt: &R, home: &mut Home) -> Result<Step, KeysFault>
        requires { IsReady home.old holding }
        ensures { IsReady home.new holding }
    {
        match self.stage {
            Stage::Look => {
                look(home)?;
                self.stage = Stage::Open;
                Ok(Step::On)
            }
            Stage::Open => {
                answer_of(open(home))?;
                self.stage = self.opened();
                Ok(Step::On)
            }
            Stage::Calls => self.next_call(rt, home),
            Stage::Keep => {
                self.keep(home)?;
                Ok(Step::On)
            }
            Stage::End => Ok(Step::End),
        }
    }

    /// Whether room was made for what was refused for want of it.
    fn makes_room<R: System>(
        &mut self,
        rt: &R,
        home: &mut Home,
        fault: &KeysFault,
    ) -> Result<bool, KeysFault>
        requires { IsReady home.old holding }
        ensures { IsReady home.new holding }
    {
        if !is_full(fault) {
            return Ok(false);
        }
        Ok(self.tending.make_some(rt, home)?)
    }

    /// What comes after a refusal: the same again, once room was made for it; or what was done
    /// before it is made durable. An opening comes first, since a refusal may leave something half
    /// done.
    fn after<R: System>(
        &mut self,
        rt: &R,
        home: &mut Home,
        fault: KeysFault,
    ) -> Result<Step, KeysFault>
        requires { IsReady home.old holding }
        ensures { IsReady home.new holding }
    {
        if self.makes_room(rt, home, &fault)? {
            if self.stage == Stage::Calls {
                self.stage = Stage::Open;
            }
            return Ok(Step::Room);
        }
        if self.stage != Stage::Calls || self.calls.only_read() {
            return Err(fault);
        }
        self.fault = Some(fault);
        self.stage = Stage::Open;
        Ok(Step::On)
    }

    /// Does what comes next, or what comes after its refusal.
    fn go<R: System>(&mut self, rt: &R, home: &mut Home) -> Result<Step, KeysFault>
        requires { IsReady home.old holding }
        ensures { IsReady home.new holding }
    {
        match self.step(rt, home) {
            Ok(step) => Ok(step),
            Err(fault) => self.after(rt, home, fault),
        }
    }

    /// Goes on up to a spare that was made, or the end.
    fn up_to_room<R: System>(&mut self, rt: &R, home: &mut Home) -> Result<Step, KeysFault>
        requires { IsReady home.old holding }
        ensures { IsReady home.new holding }
    {
        refused_spare(home)?;
        if self.tending.first_look(rt, home)? {
            return Ok(Step::Room);
        }
        'steps: for _ in 0..u64::MAX {
            let step = self.go(rt, home)?;
            if step != Step::On {
                return Ok(step);
            }
        }
        Ok(Step::Room)
    }

    /// What a run came to. Why its calls ended is said before why what they wrote was not kept.
    fn answer(&self, end: Result<(), KeysFault>) -> Result<(), KeysFault> {
        match self.fault {
            Some(fault) => Err(fault),
            None => end,
        }
    }
}

impl<C: Calls, W: Watch> Run<'_, C, W> {
    /// Goes on in a leg; nothing is answered if another leg has to follow.
    fn go_on<R: System>(&mut self, rt: &R, home: &mut Home) -> Option<Result<(), KeysFault>>
        requires { IsReady home.old holding }
        ensures { IsReady home.new holding }
    {
        match self.up_to_room(rt, home) {
            Ok(Step::End) => Some(self.answer(Ok(()))),
            Ok(_) => None,
            Err(fault) => Some(self.answer(Err(fault))),
        }
    }
}

impl<R: System, C: Calls, W: Watch> Legs<R> for Run<'_, C, W> {
    type Answer = Result<(), KeysFault>;

    fn leg(&mut self, rt: &R, home: &mut Home) -> Option<Result<(), KeysFault>> {
        let ended = self.go_on(rt, home);
        if ended.is_some() && !self.calls.only_read() {
            self.watch.closing(last_frame(home));
        }
        ended
    }
}
