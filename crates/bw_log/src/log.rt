//! The log itself: its boxes, its tables and the questions that they answer.
//!
//! A read may not search the segments. For each page a line has the places of its last block and of
//! the last that sets it, and from there blocks link back; for each frame a line says where it
//! stands. The tables are on no disk: recovery makes them of the bytes again, so the two never
//! disagree.
//!
//! After a failed append nobody knows what the device holds. A later frame might stand after bytes
//! at which recovery ends, and be lost although it was answered. So a log that failed takes no
//! frame any more, and only recovery says what is there.

ghost use Rattle.std.specs.Prelude.{◌≡◌, ◌+◌, ◌-◌, ◌<◌, ◌≤◌, ◌==◌, ◌↔◌, ◌⊎◌, ◌∷◌, ◌++◌, [], length, map, Some, None, false, slice_get, if◌then◌else◌, IsTrue, IfOk, IfErr, OnOk, MatchOption, MatchResult, IsErrAnd, vec_len};
ghost use Rattle.std.specs.Vec.{vec_capacity};
ghost use Rattle.std.specs.Option.{option_map};
ghost use Rattle.bw_codec.specs.Reading.{version_in};
ghost use Rattle.bw_log.specs.Segments.{version_at};
ghost use Rattle.bw_log.specs.Contents.{counted, some_place};
ghost use Rattle.bw_log.specs.Limits.{fresh, AreLimits, IsFit, IsNotTaken};
ghost use Rattle.bw_log.specs.Reads.{IsPage};
ghost use Rattle.bw_log.specs.Places.{place_of, base_of, walk_of};

use crate::fault::LogFault;
use crate::places::{FrameAt, PageAt};
use bw_codec::Place;
use bw_codec::limits::{HEADER_LEN, LATEST, MAX_FRAME, MAX_PAIRS, MIN_FRAME, MIN_PAIRS};
use bw_device::{Segment, are_spares, is_spare, lease_of, len_of};
use std::alloc::Global;

/// How many boxes a log has at most.
const MAX_BOXES: usize = 4096;

/// Segments in order, and where pages stand in them.
#[derive(Drop)]
pub struct Log {
    /// The live segments, in the order of their numbers.
    pub(crate) live: Vec<Box<dyn Segment>>,
    /// The spares, in the order in which they came.
    pub(crate) spares: Vec<Box<dyn Segment>>,
    pub(crate) m: u16,
    pub(crate) f: u32,
    /// The oldest live segment's number, or else the next segment's.
    pub(crate) number: u64,
    /// The segments up to this number have version 1, those after it version 2.
    pub(crate) old_to: u64,
    /// Whether the newest live segment takes frames.
    pub(crate) is_open: bool,
    /// Whether an append failed.
    pub(crate) is_failed: bool,
    /// The next frame's number.
    pub(crate) next: Option<u64>,
    /// Where the counted frames stand, in the order of their numbers.
    pub(crate) frames: Vec<FrameAt>,
    /// Where the pages stand, from page 1 on.
    pub(crate) pages: Vec<PageAt>,
}

fn are_limits(m: u16, f: u32) -> bool
    ensures { IsTrue result ↔ AreLimits m f }
{
    MIN_PAIRS <= m && m <= MAX_PAIRS && MIN_FRAME <= f && f <= MAX_FRAME
}

// How many bytes a spare has room for at least: a header and one frame.
fn least_room(f: u32) -> u64
    ensures { result ≡ 24 + f }
{
    HEADER_LEN as u64 + u64::from(f)
}

fn are_fit(m: u16, f: u32, spares: &[Box<dyn Segment>]) -> bool
    ensures { IsTrue result ↔ IsFit m f (map holding spares.now) }
{
    are_limits(m, f) && spares.len() <= MAX_BOXES && are_spares(spares, least_room(f))
}

fn place_or_none(place: Place) -> Option<Place>
    ensures { result ≡ some_place place }
{
    if place.frame == 0 { None } else { Some(place) }
}

impl Log {
    ghost use Rattle.bw_log.specs.Views.{seen_by, IsSound};

    /// A log of spares only, for pages of at most `m` pairs, 4 to 32, and frames of at most `f`
    /// bytes, 65,536 to 262,144. Each of at most 4,096 boxes is empty and has room for 24 + `f`
    /// bytes to 1,073,741,824; else all come back with `BadConfig`.
    pub fn new(
        alloc: Global,
        spares: Vec<Box<dyn Segment>>,
        m: u16,
        f: u32,
    ) -> Result<Log, (Vec<Box<dyn Segment>>, LogFault)>
        requires { Unit {0} }
        ensures made { IfOk result (λ l. seen_by holding l ≡ fresh m f (map holding spares.items)) }
        ensures sound { IfOk result (IsSound holding) }

        ensures bad_config { MatchResult result
            (λ _. IsFit m f (map holding spares.items))
            (λ e. (e.1 ≡ LogFault.BadConfig) × (IsFit m f (map holding spares.items) → ⊥)) }
        ensures back { IfErr result (λ e. e.0.items ≡ spares.items) }
    {
        if !are_fit(m, f, &spares) {
            return Err((spares, LogFault::BadConfig));
        }
        Ok(Log {
            live: Vec::new(alloc),
            spares,
            m,
            f,
            number: 1,
            old_to: 0,
            is_open: false,
            is_failed: false,
            next: Some(1),
            frames: Vec::new(alloc),
            pages: Vec::new(alloc),
        })
    }

    /// A further spare, which goes last. A box that is no spare, or one too many, comes back with
    /// `BadConfig`. Any box comes back with `NoMemory` if a growth is refused. The log is then as
    /// it was.
    pub fn add_segment(&mut self, one: Box<dyn Segment>) -> Result<(), (Box<dyn Segment>, LogFault)>
        requires { IsSound holding self.old }
        ensures sound { IsSound holding self.new }
        ensures added { OnOk result
            (seen_by holding self.new
            ≡ record (seen_by holding self.old) {
              spares = (seen_by holding self.old).spares ++ holding one ∷ [];
            }) }

        // The box is looked at first, then memory.
        ensures bad_config { IsErrAnd result (λ e. e.1 ≡ LogFault.BadConfig)
            ↔ IsNotTaken (seen_by holding self.old) (holding one) }
        ensures memory { IfErr result (λ e.
            (e.1 ≡ LogFault.BadConfig)
            ⊎ ((e.1 ≡ LogFault.NoMemory)
            × (vec_capacity self.old.spares ≤ vec_len self.old.spares))) }
        ensures back { IfErr result (λ e. e.0 ≡ one) }
        ensures unchanged { IfErr result
            (λ _. seen_by holding self.new ≡ seen_by holding self.old) }
    {
        if self.live.len() + self.spares.len() >= MAX_BOXES || !is_spare(&one, least_room(self.f)) {
            return Err((one, LogFault::BadConfig));
        }
        match self.spares.push(one) {
            Ok(()) => Ok(()),
            Err(refused) => Err((refused.value, LogFault::NoMemory)),
        }
    }

    /// All boxes: the live ones in the order of their numbers, and the spares in theirs.
    pub fn into_segments(self) -> (Vec<Box<dyn Segment>>, Vec<Box<dyn Segment>>)
        requires { IsSound holding self }
        ensures live { map holding result.0.items ≡ (seen_by holding self).live }
        ensures spares { map holding result.1.items ≡ (seen_by holding self).spares }
    {
        let Log { live, spares, .. } = self;
        (live, spares)
    }

    /// Closes the current segment, if any: the next append begins another. No memory is taken.
    pub fn roll(&mut self)
        requires { IsSound holding self.old }
        ensures sound { IsSound holding self.new }
        ensures closed { seen_by holding self.new
            ≡ record (seen_by holding self.old) { is_open = false } }
    {
        self.is_open = false;
    }

    /// The most pairs that a page may have.
    pub fn m(&self) -> u16
        ensures { result ≡ (seen_by holding self.now).m }
    {
        self.m
    }

    /// The most bytes that a frame may have.
    pub fn limit(&self) -> u32
        ensures { result ≡ (seen_by holding self.now).f }
    {
        self.f
    }

    /// The next frame's number; `None` after the greatest.
    pub fn next_frame(&self) -> Option<u64>
        ensures { result ≡ (seen_by holding self.now).next }
    {
        self.next
    }

    /// Whether an append failed. Such a log takes no more frames.
    pub fn is_failed(&self) -> bool
        ensures { result ≡ (seen_by holding self.now).is_failed }
    {
        self.is_failed
    }

    /// How many pages there are: they are numbered from 1.
    pub fn pages(&self) -> u32
        requires { IsSound holding self.now }
        ensures { result ≡ length (seen_by holding self.now).pages }
    {
        self.pages.len() as u32
    }

    /// The last block that touches a page; `None` if there is no such page.
    pub fn place_of(&self, page: u32) -> Option<Place>
        requires { IsSound holding self.now }
        ensures some { 1 ≤ page → result ≡ place_of page (counted (seen_by holding self.now)) }
        ensures none { (IsPage (seen_by holding self.now) page → ⊥) → result ≡ None }
    {
        match self.page_at(page) {
            Some(entry) => place_or_none(entry.place),
            None => None,
        }
    }

    /// The last block that sets a page; `None` if there is no such page.
    pub fn base_of(&self, page: u32) -> Option<Place>
        requires { IsSound holding self.now }
        ensures some { 1 ≤ page → result ≡ base_of page (counted (seen_by holding self.now)) }
        ensures none { (IsPage (seen_by holding self.now) page → ⊥) → result ≡ None }
    {
        match self.page_at(page) {
            Some(entry) => place_or_none(entry.base),
            None => None,
        }
    }

    /// From how many frames a page is read: those with a block of it since the last that sets it,
    /// that one among them; 0 if there is no such page. It takes no memory, and constant time.
    pub fn walk_of(&self, page: u32) -> u64
        requires { IsSound holding self.now }
        ensures some { 1 ≤ page → result ≡ walk_of page (counted (seen_by holding self.now)) }
        ensures none { (IsPage (seen_by holding self.now) page → ⊥) → result ≡ 0 }
    {
        match self.page_at(page) {
            Some(entry) => entry.walk,
            None => 0,
        }
    }

    /// Where the counted frame of this index stands, from 0, the oldest; none after the last.
    pub fn line(&self, i: usize) -> Option<&FrameAt>
        ensures { option_map (λ line. line.now) result
            ≡ slice_get (seen_by holding self.now).frames i }
    {
        self.frames.as_slice().get(i)
    }

    // The table's line of a page.
    pub(crate) fn page_at(&self, page: u32) -> Option<PageAt>
        ensures { result ≡ (if page == 0 then None else slice_get self.now.pages.items (page - 1)) }
    {
        if page == 0 {
            return None;
        }
        self.pages.as_slice().get(page as usize - 1).copied()
    }

    /// How many segments are live.
    pub fn live(&self) -> u32
        requires { IsSound holding self.now }
        ensures { result ≡ length (seen_by holding self.now).live }
    {
        self.live.len() as u32
    }

    /// How many spares stand.
    pub fn spares(&self) -> u32
        requires { IsSound holding self.now }
        ensures { result ≡ length (seen_by holding self.now).spares }
    {
        self.spares.len() as u32
    }

    // The number of the i-th live segment, from 0.
    pub(crate) fn number_at(&self, i: u32) -> Option<u64>
        requires { IsSound holding self.now }
        ensures { MatchOption result
            (length self.now.live.items ≤ i)
            (λ number. (i < length self.now.live.items) × (number ≡ self.now.number + i)) }
    {
        if i as usize >= self.live.len() {
            return None;
        }
        Some(self.number + u64::from(i))
    }

    /// The number, the lease and the length in bytes of the i-th live segment, from 0.
    pub fn live_segment(&self, i: u32) -> Option<(u64, u32, u64)>
        requires { IsSound holding self.now }
        ensures { MatchOption (slice_get (seen_by holding self.now).live i)
            (result ≡ None)
            (λ h. result ≡ Some ((seen_by holding self.now).number + i, h.lease, length h.bytes)) }
    {
        let number = self.number_at(i)?;
        let lease = lease_of(&self.live, i as usize);
        let len = len_of(&self.live, i as usize);
        Some((number, lease, len))
    }

    /// The version of the i-th live segment, from 0: 1, or 2 for what is written now.
    pub fn live_version(&self, i: u32) -> Option<u16>
        requires { IsSound holding self.now }
        ensures { MatchOption (slice_get (seen_by holding self.now).live i)
            (result ≡ None)
            (λ h. result ≡ Some (version_in h.bytes)) }
    {
        let number = self.number_at(i)?;
        Some(self.version_at(number))
    }

    // The version of a live segment of this number.
    pub(crate) fn version_at(&self, number: u64) -> u16
        ensures { result ≡ version_at self.now.old_to number }
    {
        if number <= self.old_to { 1 } else { LATEST }
    }

    /// The lease of the i-th spare, from 0.
    pub fn spare_leases(&self, i: u32) -> Option<u32>
        requires { IsSound holding self.now }
        ensures { MatchOption (slice_get (seen_by holding self.now).spares i)
            (result ≡ None)
            (λ h. result ≡ Some h.lease) }
    {
        let at = i as usize;
        if at >= self.spares.len() {
            return None;
        }
        Some(lease_of(&self.spares, at))
    }
}
