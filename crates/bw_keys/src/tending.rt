//! A store that makes room by itself. If few spares are left, its oldest segment is given up if
//! that writes at most half of a segment again, and else a segment is added. If none can be added,
//! the oldest is given up as long as that wins an eighth of a segment, or as an eighth of all bytes
//! is not needed, wherever it stands. Each spare is only made here: it is added before the next
//! leg, and what wants it is asked again then.

ghost use Rattle.std.specs.Prelude.{◌≡◌};
ghost use Rattle.bw_home.specs.Ready.{IsReady};

use crate::full::{Admission, Full};
use crate::measure::{Measure, needed_of_oldest, newest, taken};
use bw_codec::Record;
use bw_core::{Cleaned, StoreFault};
use bw_device::NotTaken;
use bw_home::{Home, HomeFault, System};
use bw_ring::Group;

/// More than the blocks of one group have with a frame of their own.
const GROUP: u64 = 65_536;

/// More than a record adds to the log beside its own bytes, unless it splits a page of long pairs.
const RECORD: u64 = 2_048;

/// Cleanings of a log to which no segment can be added.
#[derive(Debug, Clone, Copy)]
struct Circle {
    /// How many records were taken when it began.
    taken: u64,
    /// How many cleanings may follow before a further record is taken: as many as there are
    /// segments, so that those come to an end that win nothing.
    left: u32,
    /// How many of them follow whatever each wins, since all of them together win something.
    known: u32,
}

/// How such a store is tended.
#[derive(Debug, Clone, Copy)]
pub struct Tending {
    pub(crate) measure: Measure,
    /// Up to so many segments are added.
    pub(crate) most: u32,
    /// The newest segment when the spares were looked at last; 0 before.
    seen: u64,
    /// The newest segment and its length at the first look, if a tail may have closed it.
    closed: Option<(u64, u64)>,
    /// Whether a cleaning came since, so that the next segment may have to go too.
    has_cleaned: bool,
    /// Whether something was made durable that `take_told_flush` did not report yet.
    pub(crate) has_flushed: bool,
    /// Whether a further segment was made that `take_told_segment` did not report yet.
    has_added: bool,
    /// The last cleaning, if `take_told_cleaning` did not report it yet.
    cleaned: Option<Cleaned>,
    circle: Circle,
    /// What is known of the log if no room can be made.
    pub(crate) full: Option<Full>,
    /// How many bytes wait in the queues at most, as they were put at once.
    queued: u64,
}

/// Whether a segment was wanted and too few spares stood.
fn is_full(fault: &HomeFault) -> bool {
    matches!(fault, HomeFault::Store(StoreFault::NoSegment))
}

/// Whether records were taken after the last frame.
fn has_unflushed(home: &Home) -> bool {
    let length = taken(home);
    match home.store.cuts().last() {
        Some(cut) => *cut < length,
        None => length > 0,
    }
}

/// Whether a frame may be unable to follow the last one in its segment, since bytes follow there,
/// or it is of format 1.
fn may_be_closed(home: &Home) -> bool
    requires { IsReady home.now holding }
{
    match home.found() {
        Some(found) => found.tail > 0 || home.store.old_segments() == home.store.live(),
        None => false,
    }
}

/// The bytes of a record's key and value.
fn bytes_of(item: &Record) -> u64 {
    match item {
        Record::Put(key, value) => {
            (key.as_slice().len() as u64).saturating_add(value.as_slice().len() as u64)
        }
        Record::Del(key) => key.as_slice().len() as u64,
    }
}

/// Lets go of the history as far as it is durable, and of pages that need not stay in memory.
pub fn forget(home: &mut Home)
    requires { IsReady home.old holding }
    ensures ready { IsReady home.new holding }
    ensures feeds { home.new.feeds ≡ home.old.feeds }
{
    let _ = home.store.forget();
    let _ = home.keep_pages();
}

/// Gives up the oldest segment, and makes what stands in its place.
fn renew<R: System>(rt: &R, home: &mut Home) -> Result<Cleaned, HomeFault>
    requires { IsReady home.old holding }
    ensures ready { IsReady home.new holding }
    ensures feeds { home.new.feeds ≡ home.old.feeds }
{
    let cleaned = home.clean(rt)?;
    forget(home);
    Ok(cleaned)
}

impl Tending {
    /// Of a store whose segments have room for so many bytes, whose frames have so many at most,
    /// and of which up to so many segments are added.
    pub fn new(capacity: u64, frame: u64, most: u32) -> Tending {
        Tending {
            measure: Measure { capacity, frame },
            most,
            seen: 0,
            closed: None,
            has_cleaned: false,
            has_flushed: false,
            has_added: false,
            cleaned: None,
            circle: Circle {
                taken: 0,
                left: 0,
                known: 0,
            },
            full: None,
            queued: 0,
        }
    }

    /// How many groups are taken before the spares are looked at: one, or as many as surely fit
    /// half of a segment. So what is taken after the last frame leaves room for a cleaning that
    /// pays.
    fn part(&self) -> u32 {
        let groups = self.measure.half() / GROUP;
        u32::try_from(groups).unwrap_or(u32::MAX).max(1)
    }

    /// How many bytes are left of the newest segment.
    pub(crate) fn rest(&self, home: &Home) -> u64
        requires { IsReady home.now holding }
    {
        let newest = newest(home);
        if newest.0 == 0 || self.closed == Some(newest) {
            return 0;
        }
        self.measure.capacity.saturating_sub(newest.1)
    }

    /// Whether a cleaning surely finds room that writes so many bytes of pages again.
    fn fits(&self, home: &Home, needed: u64) -> bool
        requires { IsReady home.now holding }
    {
        // What was counted fits what is left of the newest segment.
        let is_counted = matches!(self.full, Some(Full { left: Some(_), .. }));
        let waits = has_unflushed(home) && !is_counted;
        self.measure.fits(home, self.rest(home), waits, needed)
    }

    /// Whether a cleaning that is asked for surely finds room; also if there is nothing to clean.
    pub fn may_clean(&self, home: &Home) -> bool
        requires { IsReady home.now holding }
    {
        match needed_of_oldest(home) {
            Some(needed) => self.fits(home, needed),
            None => true,
        }
    }

    /// Whether a cleaning writes at most half of what it gives back.
    fn wins(&self, home: &Home, needed: Option<u64>) -> bool
        requires { IsReady home.now holding }
    {
        match needed {
            Some(needed) => self.measure.wins_half(needed) && self.fits(home, needed),
            None => false,
        }
    }

    /// Whether the cleanings of all segments in turn are worth it, as one look at all of them shows
    /// for as many cleanings as there are.
    fn circle_wins(&mut self, home: &Home) -> bool
        requires { IsReady home.now holding }
    {
        if self.circle.known == 0 {
            if !self.measure.is_eighth_waste(home) {
                return false;
            }
            self.circle.known = home.store.live();
        }
        self.circle.known = self.circle.known.saturating_sub(1);
        true
    }

    /// Whether a cleaning is worth it if no segment can be added.
    fn wins_at_last(&mut self, home: &Home, needed: Option<u64>) -> bool
        requires { IsReady home.now holding }
    {
        let Some(needed) = needed else {
            return false;
        };
        let taken = taken(home);
        if self.circle.taken != taken {
            self.circle.taken = taken;
            self.circle.left = home.store.live();
        }
        let is_sure = self.fits(home, needed) && self.measure.takes_one(self.rest(home), needed);
        if self.circle.left == 0 || !is_sure {
            return false;
        }
        self.circle.left = self.circle.left.saturating_sub(1);
        self.measure.wins_eighth(needed) || self.circle_wins(home)
    }

    /// Gives up the oldest segment for a spare; `false` if there was too little room for that.
    pub(crate) fn clean_for_room<R: System>(
        &mut self,
        rt: &R,
        home: &mut Home,
    ) -> Result<bool, HomeFault>
        requires { IsReady home.old holding }
        ensures ready { IsReady home.new holding }
        ensures feeds { home.new.feeds ≡ home.old.feeds }
    {
        let had_unflushed = has_unflushed(home);
        let made = renew(rt, home);
        self.has_flushed |= had_unflushed && !has_unflushed(home);
        self.has_cleaned = true;
        self.seen = newest(home).0;
        match made {
            Ok(cleaned) => {
                self.cleaned = Some(cleaned);
                Ok(true)
            }
            Err(fault) if is_full(&fault) => Ok(false),
            Err(fault) => Err(fault),
        }
    }

    /// Gives up the oldest segment for a spare, if that pays; `false` if it was not given up.
    fn clean_if_it_pays<R: System>(
        &mut self,
        rt: &R,
        home: &mut Home,
        needed: Option<u64>,
    ) -> Result<bool, HomeFault>
        requires { IsReady home.old holding }
        ensures ready { IsReady home.new holding }
        ensures feeds { home.new.feeds ≡ home.old.feeds }
    {
        if !self.wins(home, needed) {
            return Ok(false);
        }
        self.clean_for_room(rt, home)
    }

    /// Gives up the oldest segment, if that wins anything now that no segment can be added; `false`
    /// if it was not given up.
    fn clean_at_last<R: System>(
        &mut self,
        rt: &R,
        home: &mut Home,
        needed: Option<u64>,
    ) -> Result<bool, HomeFault>
        requires { IsReady home.old holding }
        ensures ready { IsReady home.new holding }
        ensures feeds { home.new.feeds ≡ home.old.feeds }
    {
        if !self.wins_at_last(home, needed) {
            return Ok(false);
        }
        self.clean_for_room(rt, home)
    }

    /// Makes a further segment, if there are fewer than may be added; `false` if none was made.
    pub(crate) fn add_segment_if_allowed<R: System>(
        &mut self,
        rt: &R,
        home: &mut Home,
    ) -> Result<bool, HomeFault>
        requires { IsReady home.old holding }
        ensures ready { IsReady home.new holding }
        ensures feeds { home.new.feeds ≡ home.old.feeds }
    {
        let segments = home.store.live().saturating_add(home.store.spares());
        if segments >= self.most {
            return Ok(false);
        }
        match home.make_spare(rt) {
            Ok(()) => {
                self.has_added = true;
                // More spares are kept the nearer the last segment is.
                self.seen = u64::MAX;
                Ok(true)
            }
            Err(HomeFault::Lease(NotTaken::NoLease)) => Ok(false),
            Err(fault) => Err(fault),
        }
    }

    /// Whether more spares are left than room is made for. Then the log is not full.
    pub(crate) fn has_spares(&mut self, home: &Home) -> bool
        requires { IsReady home.now holding }
    {
        self.measure.capacity = home.capacity();
        let is_so = home.store.spares() > self.measure.kept(home, self.most);
        if is_so {
            self.full = None;
        }
        is_so
    }

    /// Notes that no room can be made, if there is more than one segment to make it of.
    fn note_full(&mut self, home: &Home)
        requires { IsReady home.now holding }
    {
        if home.store.live() > 1 {
            self.full = Some(Full {
                taken: taken(home),
                left: None,
            });
        }
    }

    /// Makes room if few spares are left: by a cleaning if that pays, and else by a further
    /// segment; if there can be none, by a cleaning that wins anything. `false` if there is no
    /// need, or no way.
    pub fn make_room<R: System>(&mut self, rt: &R, home: &mut Home) -> Result<bool, HomeFault>
        requires { IsReady home.old holding }
        ensures ready { IsReady home.new holding }
        ensures feeds { home.new.feeds ≡ home.old.feeds }
    {
        if self.has_spares(home) {
            return Ok(false);
        }
        self.make_some(rt, home)
    }

    /// Makes room, however many spares are left; `false` if there is no way.
    pub fn make_some<R: System>(&mut self, rt: &R, home: &mut Home) -> Result<bool, HomeFault>
        requires { IsReady home.old holding }
        ensures ready { IsReady home.new holding }
        ensures feeds { home.new.feeds ≡ home.old.feeds }
    {
        let needed = needed_of_oldest(home);
        if self.clean_if_it_pays(rt, home, needed)? {
            return Ok(true);
        }
        if self.add_segment_if_allowed(rt, home)? {
            return Ok(true);
        }
        if self.clean_at_last(rt, home, needed)? {
            return Ok(true);
        }
        self.note_full(home);
        Ok(false)
    }

    /// Whether the spares have room for a call that adds so many bytes of records, beside those
    /// that are kept for a flush and a cleaning. If they have not, a spare is made, and the same is
    /// asked again once it was added.
    pub fn admits_call<R: System>(
        &mut self,
        rt: &R,
        home: &mut Home,
        bytes: u64,
    ) -> Result<Admission, HomeFault>
        requires { IsReady home.old holding }
        ensures ready { IsReady home.new holding }
        ensures feeds { home.new.feeds ≡ home.old.feeds }
    {
        self.measure.capacity = home.capacity();
        let kept = self.measure.kept(home, self.most);
        let wanted = kept.saturating_add(self.measure.segments_of(bytes));
        if home.store.spares() >= wanted {
            return Ok(Admission::Yes);
        }
        if self.make_some(rt, home)? {
            Ok(Admission::Room)
        } else {
            Ok(Admission::No)
        }
    }

    /// Whether what is left of the newest segment has room for so many bytes of records, and a
    /// frame beside them. So a call that deletes finds room in a full log.
    pub fn has_rest(&self, home: &Home, bytes: u64) -> bool
        requires { IsReady home.now holding }
    {
        bytes.saturating_add(self.measure.frame) <= self.rest(home)
    }

    /// Makes room after a cleaning: another one follows if the log gets shorter by it, so this
    /// comes to an end. No segment is added.
    fn make_room_again<R: System>(&mut self, rt: &R, home: &mut Home) -> Result<bool, HomeFault>
        requires { IsReady home.old holding }
        ensures ready { IsReady home.new holding }
        ensures feeds { home.new.feeds ≡ home.old.feeds }
    {
        if self.has_spares(home) {
            return Ok(false);
        }
        if home.store.pays() && self.may_clean(home) {
            return self.clean_for_room(rt, home);
        }
        if home.store.live().saturating_add(home.store.spares()) < self.most {
            return Ok(false);
        }
        self.make_room(rt, home)
    }

    /// Makes room if a segment was begun since the spares were looked at last, or after a cleaning:
    /// to ask whether one pays costs a look at each page.
    pub fn look<R: System>(&mut self, rt: &R, home: &mut Home) -> Result<bool, HomeFault>
        requires { IsReady home.old holding }
        ensures ready { IsReady home.new holding }
        ensures feeds { home.new.feeds ≡ home.old.feeds }
    {
        let newest = newest(home);
        if newest.0 != self.seen {
            if self.seen == 0 && may_be_closed(home) {
                self.closed = Some(newest);
            }
            self.seen = newest.0;
            return self.make_room(rt, home);
        }
        if !self.has_cleaned {
            return Ok(false);
        }
        self.has_cleaned = false;
        self.make_room_again(rt, home)
    }

    /// Makes room if the spares were not looked at yet.
    pub fn first_look<R: System>(&mut self, rt: &R, home: &mut Home) -> Result<bool, HomeFault>
        requires { IsReady home.old holding }
        ensures ready { IsReady home.new holding }
        ensures feeds { home.new.feeds ≡ home.old.feeds }
    {
        if self.seen != 0 {
            return Ok(false);
        }
        self.look(rt, home)
    }

    /// Has the spares looked at once more, since somebody else changed them.
    pub fn look_again(&mut self) {
        self.seen = u64::MAX;
        self.full = None;
    }

    /// Whether a group may go into the queue before what waits there is taken: it may as long as
    /// all of that has an eighth of a segment at most.
    pub fn waits(&mut self, group: &Group) -> bool {
        let mut bytes = self.queued;
        for item in group.as_slice() {
            bytes = bytes.saturating_add(RECORD).saturating_add(bytes_of(item));
        }
        if self.full.is_some() || bytes > self.measure.capacity / 8 {
            return false;
        }
        self.queued = bytes;
        true
    }

    /// Makes room for what was refused, if it was for want of a segment and there is a way.
    pub fn room_for<R: System>(
        &mut self,
        rt: &R,
        home: &mut Home,
        fault: HomeFault,
    ) -> Result<(), HomeFault>
        requires { IsReady home.old holding }
        ensures ready { IsReady home.new holding }
        ensures feeds { home.new.feeds ≡ home.old.feeds }
    {
        if !is_full(&fault) {
            return Err(fault);
        }
        if self.make_room(rt, home)? {
            Ok(())
        } else {
            Err(fault)
        }
    }

    /// Takes all that waits, a part at a time, and looks at the spares after each; `true` if room
    /// was made before all was taken.
    pub fn take_waiting<R: System>(&mut self, rt: &R, home: &mut Home) -> Result<bool, HomeFault>
        requires { IsReady home.old holding }
        ensures ready { IsReady home.new holding }
        ensures feeds { home.new.feeds ≡ home.old.feeds }
    {
        'parts: for _ in 0..u64::MAX {
            match home.turn(self.part()) {
                Ok(0) => {
                    self.queued = 0;
                    return Ok(false);
                }
                Ok(_) => {}
                Err(fault) => {
                    self.room_for(rt, home, HomeFault::from(fault))?;
                    return Ok(true);
                }
            }
            if self.look(rt, home)? {
                return Ok(true);
            }
        }
        Ok(false)
    }

    /// Forgets whether a further segment was made since this was called last, and says so. It is a
    /// spare from the next leg on.
    pub fn take_told_segment(&mut self) -> bool {
        let has_added = self.has_added;
        self.has_added = false;
        has_added
    }

    /// Forgets the last cleaning, if there was one since this was called last, and answers it. One
    /// that was refused after it gave something up is not answered.
    pub fn take_told_cleaning(&mut self) -> Option<Cleaned> {
        self.cleaned.take()
    }

    /// Forgets whether a cleaning made something durable since this was called last, and says so.
    pub fn take_told_flush(&mut self) -> bool {
        let has_flushed = self.has_flushed;
        self.has_flushed = false;
        has_flushed
    }
}
