//! Records that go into a store, in bounded memory: what is durable leaves the history, and room is
//! made if there is too little.

ghost use Rattle.std.specs.Prelude.{◌≡◌, ◌++◌, [], ◌∷◌, IfOk, IfSome, OnOk, IsSome};
ghost use Rattle.bw_home.specs.Ready.{IsReady};
ghost use Rattle.bw_keys.specs.Loading.{got, records_of, waits, queues, Comes, Puts, PutsAll, IsStored, UnlessRefused};

use crate::fault::{KeysFault, TableRefusal};
use crate::full::Admission;
use crate::measure::last_frame;
use crate::records::Records;
use crate::tables::has_tables;
use crate::tending::{Tending, forget};
use bw_codec::Record;
use bw_core::StoreFault;
use bw_home::{Added, Home, HomeFault, Legs, System};
use bw_look::{Watch, Work};
use bw_ring::{FullGroup, Group};

/// How a load goes on.
#[derive(Debug, Clone, Copy, PartialEq, Eq)]
enum Step {
    /// By the next record.
    On,
    /// By the next leg, by which a spare was added.
    Room,
    /// All is durable.
    End,
}

/// Which of its records a load puts.
#[derive(Debug, Clone, Copy, PartialEq, Eq)]
pub enum Wanted {
    /// All.
    All,
    /// Those of a key that has no value yet.
    Absent,
    /// Those of a key that has one.
    Present,
}

/// What comes next of the records.
#[derive(Drop)]
enum Next {
    /// One that waits to be put, if there is one; after it the next one is read.
    Open(Option<Group>),
    /// No more; for this reason, if they ended early.
    Over(Option<KeysFault>),
}

/// What a load tends its store with, and who hears of it.
#[derive(Drop)]
struct Room<'a, W> {
    tending: Tending,
    watch: &'a mut W,
    /// How many bytes the input of the records has; 0 if that is not known.
    all: u64,
    /// How many segments are still given up after the records, so that the log gets short; none
    /// before that was asked.
    left: Option<u32>,
}

impl<W: Watch> Room<'_, W> {
    /// Takes what waits in the queue, and lets what got durable leave memory. So many bytes of the
    /// input were read.
    fn take<R: System>(&mut self, rt: &R, home: &mut Home, bytes: u64) -> Result<Step, KeysFault>
        requires { IsReady home.old holding }
        ensures ready { IsReady home.new holding }
        ensures feeds { home.new.feeds ≡ home.old.feeds }
        ensures goes_on { IfOk result (λ step. step ≡ Step.End → ⊥) }
    {
        if self.tending.take_waiting(rt, home)? {
            return Ok(Step::Room);
        }
        forget(home);
        self.watch.see(Work::Importing, bytes, self.all);
        self.watch.durable(last_frame(home));
        Ok(Step::On)
    }

    /// Reports a segment that was added.
    fn tell_added(&mut self, home: &Home)
        requires { IsReady home.now holding }
    {
        if self.tending.take_told_segment() {
            let segments = home.store.live().saturating_add(home.store.spares());
            self.watch.added(segments);
        }
    }

    /// Whether room was made for what waits, which a full log takes before anything else.
    fn make_first<R: System>(
        &mut self,
        rt: &R,
        home: &mut Home,
        bytes: u64,
    ) -> Result<bool, KeysFault>
        requires { IsReady home.old holding }
        ensures ready { IsReady home.new holding }
        ensures feeds { home.new.feeds ≡ home.old.feeds }
    {
        if !self.tending.is_full() {
            return Ok(false);
        }
        Ok(self.take(rt, home, bytes)? == Step::Room)
    }

    /// How many segments are still given up.
    fn to_shorten(&self, home: &Home) -> u32
        requires { IsReady home.now holding }
    {
        match self.left {
            Some(left) => left,
            None => self.tending.to_shorten(home),
        }
    }

    /// Gives up the next segment of those that are, once all is durable.
    fn shorten<R: System>(&mut self, rt: &R, home: &mut Home, left: u32) -> Result<Step, KeysFault>
        requires { IsReady home.old holding }
        ensures ready { IsReady home.new holding }
        ensures feeds { home.new.feeds ≡ home.old.feeds }
        ensures goes_on { IfOk result (λ step. step ≡ Step.End → ⊥) }
    {
        self.left = Some(left.saturating_sub(1));
        if self.tending.shorten(rt, home)? {
            return Ok(Step::Room);
        }
        // There is no way to give up more of them.
        self.left = Some(0);
        Ok(Step::On)
    }

    /// Appends what was taken. All has ended if the log is as short as it gets, or is not made
    /// shorter.
    fn settle<R: System>(
        &mut self,
        rt: &R,
        home: &mut Home,
        is_short: bool,
    ) -> Result<Step, KeysFault>
        requires { IsReady home.old holding }
        ensures ready { IsReady home.new holding }
        ensures queues { queues home.new ≡ queues home.old }
        ensures stored { IfOk result (λ step. step ≡ Step.End → IsStored home.new holding) }
    {
        if let Err(fault) = home.settle() {
            self.tending.room_for(rt, home, HomeFault::from(fault))?;
            return Ok(Step::Room);
        }
        let left = self.to_shorten(home);
        if left == 0 || is_short {
            return Ok(Step::End);
        }
        self.shorten(rt, home, left)
    }

    /// Takes and appends all that is there.
    fn close<R: System>(
        &mut self,
        rt: &R,
        home: &mut Home,
        bytes: u64,
        is_short: bool,
    ) -> Result<Step, KeysFault>
        requires { IsReady home.old holding }
        ensures ready { IsReady home.new holding }
        ensures queues { queues home.new ≡ queues home.old }
        ensures stored { IfOk result (λ step. step ≡ Step.End → IsStored home.new holding) }
    {
        if self.take(rt, home, bytes)? == Step::Room {
            return Ok(Step::Room);
        }
        self.settle(rt, home, is_short)
    }
}

/// Records that go into a store.
#[derive(Drop)]
pub struct Load<'a, S, W> {
    records: &'a mut S,
    wanted: Wanted,
    room: Room<'a, W>,
    next: Next,
    /// Whether it was looked whether the store has tables.
    has_looked: bool,
    /// How many went in.
    count: u64,
    /// How many were passed over, since they are not wanted.
    passed: u64,
    /// How many of these are durable, once all has ended.
    durable: u64,
}

impl<'a, S: Records, W: Watch> Load<'a, S, W> {
    /// Those of these records that are wanted, of an input of so many bytes, into a store that is
    /// tended so.
    pub fn new(
        records: &'a mut S,
        wanted: Wanted,
        all: u64,
        watch: &'a mut W,
        tending: Tending,
    ) -> Load<'a, S, W>
        ensures { waits result.next ≡ [] }
    {
        Load {
            records,
            wanted,
            room: Room {
                tending,
                watch,
                all,
                left: None,
            },
            next: Next::Open(None),
            has_looked: false,
            count: 0,
            passed: 0,
            durable: 0,
        }
    }

    /// How many records were passed over, since they are not wanted.
    pub fn passed(&self) -> u64 {
        self.passed
    }

    /// How many records are durable, once all has ended.
    pub fn durable(&self) -> u64 {
        self.durable
    }

    /// The next record of the store, or of the input.
    fn next_record(&mut self, home: &mut Home) -> Result<Option<Record>, KeysFault>
        requires { IsReady home.old holding }
        ensures ready { IsReady home.new holding }
        ensures feeds { home.new.feeds ≡ home.old.feeds }
        ensures next { self.new.next ≡ self.old.next }
        ensures given { S.given self.new.records.now ≡ S.given self.old.records.now ++ got result }
    {
        self.records.look(home)?;
        self.records.next_record()
    }

    /// The next record: one that waits, or one that is read. What is at fault ends the records.
    fn next_group(&mut self, home: &mut Home) -> Option<Group>
        requires { IsReady home.old holding }
        ensures ready { IsReady home.new holding }
        ensures feeds { home.new.feeds ≡ home.old.feeds }
        ensures empty { waits self.new.next ≡ [] }
        ensures came { Comes (S.given self.old.records.now) (S.given self.new.records.now)
            (waits self.old.next) (records_of result) }
    {
        match &mut self.next {
            Next::Over(_) => return None,
            Next::Open(waiting) => {
                if let Some(group) = waiting.take() {
                    return Some(group);
                }
            }
        }
        match self.next_record(home) {
            Ok(Some(record)) => Some(Group::one(record)),
            Ok(None) => {
                self.next = Next::Over(None);
                None
            }
            Err(fault) => {
                self.next = Next::Over(Some(fault));
                None
            }
        }
    }

    /// Puts a record into the queue, if the log has room for it.
    fn put<R: System>(&mut self, rt: &R, home: &mut Home, group: Group) -> Result<Step, KeysFault>
        requires ready { IsReady home.old holding }
        requires empty { waits self.old.next ≡ [] }
        ensures ready { IsReady home.new holding }
        ensures given { S.given self.new.records.now ≡ S.given self.old.records.now }
        ensures puts { IfOk result (λ _. Puts (queues home.old) (queues home.new) []
            (waits self.new.next) group) }
        ensures goes_on { IfOk result (λ step. step ≡ Step.End → ⊥) }
    {
        let bytes = self.records.bytes();
        if self.room.make_first(rt, home, bytes)? {
            self.next = Next::Open(Some(group));
            return Ok(Step::Room);
        }
        match self.room.tending.admits(rt, home, &group)? {
            Admission::Yes => self.queue(rt, home, group),
            Admission::Room => {
                self.next = Next::Open(Some(group));
                Ok(Step::Room)
            }
            Admission::No => {
                // There is room for what was taken before.
                let _ = home.flush();
                Err(KeysFault::from(StoreFault::NoSegment))
            }
        }
    }

    /// Puts a record into the queue; if that is full, what waits is taken first.
    fn queue<R: System>(&mut self, rt: &R, home: &mut Home, group: Group) -> Result<Step, KeysFault>
        requires ready { IsReady home.old holding }
        requires empty { waits self.old.next ≡ [] }
        ensures ready { IsReady home.new holding }
        ensures given { S.given self.new.records.now ≡ S.given self.old.records.now }
        ensures puts { IfOk result (λ _. Puts (queues home.old) (queues home.new) []
            (waits self.new.next) group) }
        ensures goes_on { IfOk result (λ step. step ≡ Step.End → ⊥) }
    {
        match home.offer(0, group) {
            Ok(()) => {
                self.count = self.count.saturating_add(1);
                Ok(Step::On)
            }
            Err(FullGroup(group)) => {
                self.next = Next::Open(Some(group));
                self.room.take(rt, home, self.records.bytes())
            }
        }
    }

    /// Puts a record, once all before it was taken, if it is wanted.
    fn put_if_wanted<R: System>(
        &mut self,
        rt: &R,
        home: &mut Home,
        group: Group,
        wanted: Wanted,
    ) -> Result<Step, KeysFault>
        requires ready { IsReady home.old holding }
        requires empty { waits self.old.next ≡ [] }
        ensures ready { IsReady home.new holding }
        ensures goes_on { IfOk result (λ step. step ≡ Step.End → ⊥) }
    {
        if self.room.take(rt, home, self.records.bytes())? == Step::Room {
            self.next = Next::Open(Some(group));
            return Ok(Step::Room);
        }
        if is_wanted(home, &group, wanted)? {
            return self.put(rt, home, group);
        }
        self.passed = self.passed.saturating_add(1);
        Ok(Step::On)
    }

    /// Does what comes next.
    fn step<R: System>(
        &mut self,
        rt: &R,
        home: &mut Home,
        wanted: Wanted,
    ) -> Result<Step, KeysFault>
        requires { IsReady home.old holding }
        ensures ready { IsReady home.new holding }
        ensures puts { wanted ≡ Wanted.All → IfOk result (λ _. PutsAll
            (S.given self.old.records.now) (S.given self.new.records.now)
            (queues home.old) (queues home.new) (waits self.old.next) (waits self.new.next)) }
        ensures stored { IfOk result (λ step. step ≡ Step.End → IsStored home.new holding) }
        ensures empty { IfOk result (λ step. step ≡ Step.End → waits self.new.next ≡ []) }
    {
        if let Next::Over(fault) = &self.next {
            let is_short = fault.is_some();
            return self.room.close(rt, home, self.records.bytes(), is_short);
        }
        match self.next_group(home) {
            Some(group) if wanted == Wanted::All => self.put(rt, home, group),
            Some(group) => self.put_if_wanted(rt, home, group, wanted),
            None => Ok(Step::On),
        }
    }

    /// Goes on up to a spare that was made, or the end.
    fn up_to_room<R: System>(&mut self, rt: &R, home: &mut Home) -> Result<Step, KeysFault>
        requires { IsReady home.old holding }
        ensures ready { IsReady home.new holding }
        ensures puts { self.old.wanted ≡ Wanted.All → IfOk result (λ _. PutsAll
            (S.given self.old.records.now) (S.given self.new.records.now)
            (queues home.old) (queues home.new) (waits self.old.next) (waits self.new.next)) }
        ensures stored { IfOk result (λ step. step ≡ Step.End → IsStored home.new holding) }
        ensures empty { IfOk result (λ step. step ≡ Step.End → waits self.new.next ≡ []) }
    {
        if self.room.tending.first_look(rt, home)? {
            return Ok(Step::Room);
        }
        let wanted = self.wanted;
        'steps: for _ in 0..u64::MAX {
            let step = self.step(rt, home, wanted)?;
            if step != Step::On {
                return Ok(step);
            }
        }
        Ok(Step::Room)
    }

    /// How many records went in, or why there were no more.
    fn answer(&self) -> Result<u64, KeysFault> {
        match self.next {
            Next::Over(Some(fault)) => Err(fault),
            _ => Ok(self.count),
        }
    }

    /// Goes on with the records in a leg; none is answered if another leg has to follow.
    ///
    /// If all records are wanted, those that the source hands out in this leg go into the queue of
    /// the first writer, in their order, after the one that waited; one of them may wait for the
    /// next leg. On Ok none waits, and all that was ever put is durable.
    pub fn go_on<R: System>(&mut self, rt: &R, home: &mut Home) -> Option<Result<u64, KeysFault>>
        requires { IsReady home.old holding }
        ensures ready { IsReady home.new holding }
        ensures puts { self.old.wanted ≡ Wanted.All → UnlessRefused result (PutsAll
            (S.given self.old.records.now) (S.given self.new.records.now)
            (queues home.old) (queues home.new) (waits self.old.next) (waits self.new.next)) }
        ensures stored { IfSome result (λ answer. OnOk answer (IsStored home.new holding)) }
        ensures empty { IfSome result (λ answer. OnOk answer (waits self.new.next ≡ [])) }
    {
        if let Err(fault) = refused(&mut self.has_looked, home) {
            self.durable = home.store.durable_of(0);
            return Some(Err(fault));
        }
        self.room.tell_added(home);
        self.room.watch.durable(last_frame(home));
        match self.up_to_room(rt, home) {
            Ok(Step::End) => {
                self.durable = self.count;
                Some(self.answer())
            }
            Ok(_) => None,
            Err(fault) => {
                self.durable = home.store.durable_of(0);
                Some(Err(fault))
            }
        }
    }
}

/// Whether the record of a group is wanted, as all that was taken leaves its key.
fn is_wanted(home: &mut Home, group: &Group, wanted: Wanted) -> Result<bool, KeysFault>
    requires { IsReady home.old holding }
    ensures { IsReady home.new holding }
{
    let Some(item) = group.as_slice().first() else {
        return Ok(false);
    };
    let has_value = home.get(item.key())?.is_some();
    Ok(has_value == (wanted == Wanted::Present))
}

/// Why the spare that was made for this leg was not added. What wants it would ask for ever.
pub fn refused_spare(home: &Home) -> Result<(), KeysFault>
    requires { IsReady home.now holding }
{
    match home.added() {
        Some(
            Added {
                refused: Some(fault),
                ..
            },
        ) => Err(KeysFault::from(fault)),
        _ => Ok(()),
    }
}

/// Refuses a store that has tables, once.
fn look(has_looked: &mut bool, home: &mut Home) -> Result<(), KeysFault>
    requires { IsReady home.old holding }
    ensures ready { IsReady home.new holding }
    ensures feeds { home.new.feeds ≡ home.old.feeds }
{
    if *has_looked {
        return Ok(());
    }
    *has_looked = true;
    match has_tables(home)? {
        true => Err(KeysFault::Table(TableRefusal::HasTables)),
        false => Ok(()),
    }
}

/// Why no leg begins here: the store has tables, or it refused the spare that was made for it.
fn refused(has_looked: &mut bool, home: &mut Home) -> Result<(), KeysFault>
    requires { IsReady home.old holding }
    ensures ready { IsReady home.new holding }
    ensures feeds { home.new.feeds ≡ home.old.feeds }
{
    refused_spare(home)?;
    look(has_looked, home)
}

impl<R: System, S: Records, W: Watch> Legs<R> for Load<'_, S, W> {
    type Answer = Result<u64, KeysFault>;

    fn leg(&mut self, rt: &R, home: &mut Home) -> Option<Result<u64, KeysFault>> {
        let ended = self.go_on(rt, home);
        if ended.is_some() {
            self.room.watch.closing(last_frame(home));
        }
        ended
    }
}
