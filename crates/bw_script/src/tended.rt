//! A store that is served, or over which a script with `--most-segments` runs, makes room by
//! itself, as `bw_keys` does it. A spare that was made is added before the next leg, and the line
//! that wants it is asked again then. If no room can be made, a store that is served refuses puts
//! while deletes, flushes and a cleaning still find room.

ghost use Rattle.bw_home.specs.Ready.{IsReady};

use crate::answers::Answer;
use crate::calls::{Decided, answer, decide, durable};
use crate::events::{Standing, Tally};
use bw_codec::Record;
use bw_core::{Cleaned, StoreFault};
use bw_home::Home;
use bw_keys::Admission;
use bw_ring::{FullGroup, Group};
use bw_words::{Command, Condition, Miss, Options, Refusal, Request, System};

/// How a store is tended.
#[derive(Debug, Clone, Copy)]
pub struct Tending {
    /// Whether it is: a script without `--most-segments` has no room made.
    is_on: bool,
    pub(crate) room: bw_keys::Tending,
    /// Whether an append of the log failed.
    has_failed: bool,
    /// Up to how many segments there may be; 0 if no room is made.
    most: u32,
    /// What is counted of the lines.
    pub tally: Tally,
    /// Whether something may be left half done of tables, which is finished before the next call on
    /// them.
    pub(crate) owes: bool,
}

/// What comes of a request.
#[derive(Drop)]
pub enum Served {
    Answer(Answer),
    /// A spare was made. Once it was added, the same is asked again.
    Room,
}

/// What a put hangs on, if the request is one; and else the request.
fn hanging(request: Request) -> Result<Condition, Request> {
    match request {
        Request::If(condition) => Ok(condition),
        request => Err(request),
    }
}

/// Whether a segment was wanted and too few spares stood.
fn is_full(miss: &Miss) -> bool {
    matches!(miss, Miss::Refused(Refusal::Store(StoreFault::NoSegment)))
}

/// Whether a device failed, or an append did before.
fn is_of_device(miss: &Miss) -> bool {
    matches!(
        miss,
        Miss::Refused(Refusal::Store(StoreFault::Device { .. } | StoreFault::Failed))
    )
}

/// The group that a request puts.
fn group_in(request: &Request) -> Option<&Group> {
    match request {
        Request::Do(Command::Put(_, group)) => Some(group),
        _ => None,
    }
}

impl Tending {
    /// As the options say.
    pub fn new(options: &Options<'_>) -> Tending {
        Tending {
            is_on: options.most > 0,
            room: bw_keys::Tending::new(
                options.store.capacity,
                u64::from(options.store.frame_bytes),
                options.most,
            ),
            has_failed: false,
            most: options.most,
            tally: Tally::NONE,
            owes: false,
        }
    }

    /// Whether an append failed, after which no other goes.
    pub fn has_failed(&self) -> bool {
        self.has_failed
    }

    /// What is said of the store beside what it says itself.
    pub fn standing(&self) -> Standing {
        Standing {
            has_failed: self.has_failed,
            most: self.most,
            tally: self.tally,
        }
    }

    /// Makes room if a segment was begun since the spares were looked at last, or a cleaning left
    /// one spare: as `bw_keys` says.
    pub fn look<R: System>(&mut self, rt: &R, home: &mut Home) -> Result<bool, Miss>
        requires { IsReady home.old holding }
        ensures { IsReady home.new holding }
    {
        if !self.is_on {
            return Ok(false);
        }
        let made = self.room.look(rt, home).map_err(Miss::from);
        self.note(home, made.as_ref().err());
        made
    }

    /// Notes whether an append failed, after which no other goes: a flush says it.
    pub(crate) fn note(&mut self, home: &mut Home, miss: Option<&Miss>)
        requires { IsReady home.old holding }
        ensures { IsReady home.new holding }
    {
        if miss.is_some_and(|miss| is_of_device(miss)) {
            self.has_failed = matches!(home.flush(), Err(StoreFault::Failed));
        }
    }

    /// Whether a further segment was made since this was asked last, as `bw_keys` says.
    pub fn take_told_segment(&mut self) -> bool {
        self.room.take_told_segment()
    }

    /// The last cleaning, as `bw_keys` answers it.
    pub fn take_told_cleaning(&mut self) -> Option<Cleaned> {
        self.room.take_told_cleaning()
    }

    /// Makes room for what was refused, if it was for want of a segment and there is a way.
    pub fn room_for<R: System>(&mut self, rt: &R, home: &mut Home, miss: Miss) -> Result<(), Miss>
        requires { IsReady home.old holding }
        ensures { IsReady home.new holding }
    {
        if !self.is_on || !is_full(&miss) {
            return Err(miss);
        }
        if self.room.make_room(rt, home)? {
            Ok(())
        } else {
            Err(miss)
        }
    }

    /// The answer, if a flush finds nothing that a cleaning did not make durable since the last
    /// one: the number of the last frame shows that it is.
    pub fn told(&mut self, home: &Home, answer: Answer) -> Answer
        requires { IsReady home.now holding }
    {
        match answer {
            Answer::Frame(frame) => {
                let has_flushed = self.room.take_told_flush();
                let is_told = frame.is_some() || !has_flushed;
                Answer::Frame(if is_told { frame } else { Some(durable(home)) })
            }
            Answer::Stats(_) => Answer::Stats(self.standing()),
            answer => answer,
        }
    }

    /// The answer of a request; or room, if it was refused for want of some.
    fn answered<R: System>(
        &mut self,
        rt: &R,
        home: &mut Home,
        request: Request,
    ) -> Result<Served, Miss>
        requires { IsReady home.old holding }
        ensures { IsReady home.new holding }
    {
        match answer(rt, home, request) {
            Ok(answer) => Ok(Served::Answer(self.told(home, answer))),
            Err(miss) => {
                self.room_for(rt, home, miss)?;
                Ok(Served::Room)
            }
        }
    }

    /// Whether it is a put, and the queue of the one writer had a place for it.
    fn is_put_at_once(&mut self, home: &mut Home, request: &Request) -> bool
        requires { IsReady home.old holding }
        ensures { IsReady home.new holding }
    {
        match group_in(request) {
            Some(group) => self.room.waits(group) && home.offer(0, group.copy()).is_ok(),
            None => false,
        }
    }

    /// Whether room was made for what waits, if a request has all of that taken before.
    fn take_waiting<R: System>(
        &mut self,
        rt: &R,
        home: &mut Home,
        request: &Request,
    ) -> Result<bool, Miss>
        requires { IsReady home.old holding }
        ensures { IsReady home.new holding }
    {
        if !request.takes() {
            return Ok(false);
        }
        Ok(self.room.take_waiting(rt, home)?)
    }

    /// Whether a request may be done: a put if the log has room for it, a cleaning if it finds room
    /// for what it writes, and any other.
    fn admits<R: System>(
        &mut self,
        rt: &R,
        home: &mut Home,
        request: &Request,
    ) -> Result<Admission, Miss>
        requires { IsReady home.old holding }
        ensures { IsReady home.new holding }
    {
        if let Some(group) = group_in(request) {
            return Ok(self.room.admits(rt, home, group)?);
        }
        let is_cleaning = matches!(request, Request::Do(Command::Clean));
        if is_cleaning && !self.room.may_clean(home) {
            return Ok(Admission::No);
        }
        Ok(Admission::Yes)
    }

    /// The answer of a request that is admitted. What somebody asked for may have made room.
    fn served<R: System>(
        &mut self,
        rt: &R,
        home: &mut Home,
        request: Request,
    ) -> Result<Served, Miss>
        requires { IsReady home.old holding }
        ensures { IsReady home.new holding }
    {
        match self.admits(rt, home, &request)? {
            Admission::Yes => {}
            Admission::Room => return Ok(Served::Room),
            Admission::No => return Err(Miss::from(StoreFault::NoSegment)),
        }
        let served = self.answered(rt, home, request)?;
        if matches!(served, Served::Answer(Answer::Won(..) | Answer::Spare)) {
            self.room.look_again();
        }
        Ok(served)
    }

    /// The answer of a request to a log that failed: what was taken is read, and nothing is put.
    fn served_failed<R: System>(
        &mut self,
        rt: &R,
        home: &mut Home,
        request: Request,
    ) -> Result<Served, Miss>
        requires { IsReady home.old holding }
        ensures { IsReady home.new holding }
    {
        if group_in(&request).is_some() || matches!(request, Request::If(_)) {
            return Err(Miss::from(StoreFault::Failed));
        }
        self.answered(rt, home, request)
    }

    /// Does what a request asks for, and makes room if it wants some. What was accepted is taken
    /// before anything is read, so a program reads what it put. A spare that is asked for is not
    /// added here. After an append that failed every put is refused.
    pub fn serve<R: System>(
        &mut self,
        rt: &R,
        home: &mut Home,
        request: Request,
    ) -> Result<Served, Miss>
        requires { IsReady home.old holding }
        ensures { IsReady home.new holding }
    {
        if self.has_failed {
            return self.served_failed(rt, home, request);
        }
        let served = self.done(rt, home, request);
        self.note(home, served.as_ref().err());
        served
    }

    /// Puts a record at once, if one of its line was put before and the queue has a place for it;
    /// else gives it back as a group.
    fn offer_next(&mut self, home: &mut Home, put: Record, is_next: bool) -> Result<(), Group>
        requires { IsReady home.old holding }
        ensures { IsReady home.new holding }
    {
        let group = Group::one(put);
        if !is_next || self.has_failed || !self.room.waits(&group) {
            return Err(group);
        }
        match home.offer(0, group) {
            Ok(()) => Ok(()),
            Err(FullGroup(group)) => Err(group),
        }
    }

    /// Puts a record, as `serve` does it.
    fn serve_put<R: System>(
        &mut self,
        rt: &R,
        home: &mut Home,
        put: Record,
        is_next: bool,
    ) -> Result<Served, Miss>
        requires { IsReady home.old holding }
        ensures { IsReady home.new holding }
    {
        match self.offer_next(home, put, is_next) {
            Ok(()) => Ok(Served::Answer(Answer::Put(true))),
            Err(group) => self.serve(rt, home, Request::Do(Command::Put(0, group))),
        }
    }

    /// Puts some pairs, but for so many that were put before, and counts each there. If a spare was
    /// made the others are put once it was added.
    pub fn serve_pairs<R: System>(
        &mut self,
        rt: &R,
        home: &mut Home,
        puts: Vec<Record>,
        count: &mut u64,
    ) -> Result<Served, Miss>
        requires { IsReady home.old holding }
        ensures { IsReady home.new holding }
    {
        let before = *count;
        let mut passed = 0u64;
        'puts: for put in puts {
            passed = passed.saturating_add(1);
            if passed <= before {
                continue;
            }
            let served = self.serve_put(rt, home, put, *count > before)?;
            if !matches!(served, Served::Answer(Answer::Put(true))) {
                return Ok(served);
            }
            *count = count.saturating_add(1);
        }
        Ok(Served::Answer(Answer::Put(true)))
    }

    /// Does what a request asks for, if no append failed.
    fn done<R: System>(&mut self, rt: &R, home: &mut Home, request: Request) -> Result<Served, Miss>
        requires { IsReady home.old holding }
        ensures { IsReady home.new holding }
    {
        if self.room.first_look(rt, home)? {
            return Ok(Served::Room);
        }
        if self.is_put_at_once(home, &request) {
            return Ok(Served::Answer(Answer::Put(true)));
        }
        if self.take_waiting(rt, home, &request)? {
            return Ok(Served::Room);
        }
        match hanging(request) {
            Ok(condition) => self.served_if(rt, home, condition),
            Err(request) => self.served(rt, home, request),
        }
    }

    /// The answer of a put that hangs on its key, after a take of all that was put before.
    fn served_if<R: System>(
        &mut self,
        rt: &R,
        home: &mut Home,
        condition: Condition,
    ) -> Result<Served, Miss>
        requires { IsReady home.old holding }
        ensures { IsReady home.new holding }
    {
        let (group, told) = match decide(rt.alloc(), home, condition)? {
            Decided::Put(group, told) => (group, told),
            Decided::Answer(answer) => return Ok(Served::Answer(answer)),
        };
        match self.served(rt, home, Request::Do(Command::Put(0, group)))? {
            Served::Answer(Answer::Put(true)) => Ok(Served::Answer(told)),
            served => Ok(served),
        }
    }
}
