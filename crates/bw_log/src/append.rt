//! Appending: a frame goes whole to the end of the current segment, or another segment is begun
//! for it.
//!
//! A device may fail at any byte, and nobody knows then what it wrote. So all that the log itself
//! could refuse is asked before (`ready`), and the tables change after the device's answer, into
//! room that was reserved: a log says of no frame that it is there which may not be. One failure
//! ends it for good, since an append after a piece of unknown length would stand where no scan
//! finds it. A header is an append of its own: torn, it is a segment with a part of a header, which
//! is a spare again.
//!
//! An ordinary append leaves one spare. A cleaning writes before it gives room back, and without
//! that spare a log that is full could never be cleaned.

ghost use Rattle.std.specs.Prelude.{◌≡◌, ◌+◌, ◌-◌, ◌^◌, ◌/◌, ◌<◌, ◌≤◌, Some, None, Ok, Err, true, false, length, map, slice_get, IfSome, OnOk, MatchResult, vec_len};
ghost use Rattle.std.specs.Vec.{vec_capacity};
ghost use Rattle.bw_codec.specs.Grammar.{frame_bytes};
ghost use Rattle.bw_buffer.specs.Filling.{frame_of};
ghost use Rattle.bw_log.specs.Appends.{wants_segment, refusal, begun, roomy, Checks, IsOkOrDevice, MayFollow, AfterAppend};
ghost use Rattle.bw_log.specs.Appending.{OfDevice, Beginnable, SpareTorn, FramePut, FrameTorn};
ghost use Rattle.bw_log.specs.PageTable.{HaveLines, top_page, grown_to};

use crate::current::{is_first_worn, is_last_worn, last_has_room};
use crate::fault::LogFault;
use crate::log::Log;
use crate::place_changes::{grow, note_all, top};
use crate::places::FrameAt;
use crate::starts::Starts;
use bw_buffer::Buffer;
use bw_codec::header_cells;
use bw_device::{append_to, lease_of, len_of};

impl Log {
    ghost use Rattle.bw_log.specs.Views.{seen_by, IsSound, IsReady};

    // Whether the current segment is missing, closed, or without room for so many bytes.
    fn wants_segment(&self, len: u32) -> bool
        ensures { result ≡ wants_segment (seen_by holding self.now) len }
    {
        !(self.is_open && last_has_room(&self.live, len))
    }

    // Why no frame of this length can be appended, memory and the device aside.
    fn refusal(&self, len: u32, takes_last: bool) -> Option<LogFault>
        ensures { result ≡ refusal (seen_by holding self.now) len takes_last }
    {
        if self.is_failed {
            return Some(LogFault::Failed);
        }
        let wanted = if takes_last { 1 } else { 2 };
        if self.wants_segment(len) {
            if self.spares.as_slice().len() < wanted {
                return Some(LogFault::NoSegment);
            }
            if self.next.is_none()
                || u64::MAX - self.number < self.live.as_slice().len() as u64
                || is_first_worn(&self.spares)
            {
                return Some(LogFault::Spent);
            }
            return None;
        }
        if self.next.is_none() || is_last_worn(&self.live) {
            return Some(LogFault::Spent);
        }
        None
    }

    /// Makes the checks and growths of an append of a frame of so many bytes, and appends nothing:
    /// after an Ok the next append of that length answers Ok or a failure of the device. With
    /// `takes_last` one spare is enough if a segment is begun, else two. Refused as `append` is,
    /// but for the device, which is not asked.
    pub fn ready(&mut self, len: u32, takes_last: bool) -> Result<(), LogFault>
        requires sound { IsSound holding self.old }
        requires short { len ≤ (seen_by holding self.old).f }
        ensures sound { IsSound holding self.new }
        ensures same { seen_by holding self.new ≡ seen_by holding self.old }
        ensures checks { Checks (refusal (seen_by holding self.old) len takes_last) result }
        ensures ready { OnOk result (IsReady holding self.new len takes_last) }
        ensures still { IsReady holding self.old len takes_last → result ≡ Ok tt }
    {
        if let Some(fault) = self.refusal(len, takes_last) {
            return Err(fault);
        }
        self.live.reserve(1)?;
        self.frames.reserve(1)?;
        self.pages.reserve((len / 8) as usize)?;
        Ok(())
    }

    // Appends a header to the first spare, which is the current segment from then on. If the device
    // fails, the box stays a spare.
    fn begin(&mut self) -> Result<(), LogFault>
        requires some { 0 < length self.old.spares.items }
        requires fits { IfSome (slice_get (map holding self.old.spares.items) 0)
            (λ h. length h.bytes + 24 ≤ h.room) }
        requires countable { IfSome (slice_get (map holding self.old.spares.items) 0)
            (λ h. h.failed < u64.MAX) }
        requires number { self.old.number + length self.old.live.items < 2 ^ 64 }
        requires room { vec_len self.old.live + 1 ≤ vec_capacity self.old.live }
        ensures outcome { MatchResult result
            (λ _. seen_by holding self.new ≡ begun (seen_by holding self.old))
            (λ fault. OfDevice fault
            (λ lease. SpareTorn lease (seen_by holding self.old) (seen_by holding self.new))) }
        ensures frames { self.new.frames ≡ self.old.frames }
        ensures pages { self.new.pages ≡ self.old.pages }
    {
        let number = self.number + self.live.as_slice().len() as u64;
        let header = header_cells(number, self.m, self.f);
        match append_to(&mut self.spares, 0, &header) {
            Ok(()) => {
                let first = self.spares.remove(0);
                self.live.push_reserved(first);
                self.is_open = true;
                Ok(())
            }
            Err(_) => {
                self.is_failed = true;
                let lease = lease_of(&self.spares, 0);
                Err(LogFault::Device { lease })
            }
        }
    }

    // Begins a segment if one is wanted for so many bytes.
    fn make_room(&mut self, len: u32) -> Result<(), LogFault>
        requires asks { wants_segment (seen_by holding self.old) len ≡ true
            → Beginnable (seen_by holding self.old) }
        requires room { vec_len self.old.live + 1 ≤ vec_capacity self.old.live }
        ensures outcome { MatchResult result
            (λ _. seen_by holding self.new ≡ roomy (seen_by holding self.old) len)
            (λ fault. OfDevice fault
            (λ lease. (wants_segment (seen_by holding self.old) len ≡ true)
            × SpareTorn lease (seen_by holding self.old) (seen_by holding self.new))) }
        ensures frames { self.new.frames ≡ self.old.frames }
        ensures pages { self.new.pages ≡ self.old.pages }
    {
        if self.wants_segment(len) {
            self.begin()
        } else {
            Ok(())
        }
    }

    // Appends a frame's bytes to the current segment, and says in the tables where they stand. The
    // tables change once the device has answered.
    fn put(&mut self, buffer: &Buffer) -> Result<(), LogFault>
        requires sealed { buffer.now.is_sealed ≡ true }
        requires some { 0 < length self.old.live.items }
        requires fits { IfSome
            (slice_get (map holding self.old.live.items) (length self.old.live.items - 1))
            (λ h. length h.bytes + length (frame_bytes (frame_of buffer.now)) ≤ h.room) }
        requires countable { IfSome
            (slice_get (map holding self.old.live.items) (length self.old.live.items - 1))
            (λ h. h.failed < u64.MAX) }
        requires number { self.old.number + length self.old.live.items ≤ 2 ^ 64 }
        requires short { length (frame_bytes (frame_of buffer.now)) < 2 ^ 32 }
        requires frames { vec_len self.old.frames + 1 ≤ vec_capacity self.old.frames }
        requires pages { vec_len self.old.pages
            + (top_page buffer.now.blocks - length self.old.pages.items)
            ≤ vec_capacity self.old.pages }
        requires lines { HaveLines buffer.now.blocks
            (length (grown_to (top_page buffer.now.blocks) self.old.pages.items)) }
        ensures outcome { MatchResult result
            (λ _. FramePut (seen_by holding self.old) (frame_of buffer.now)
            (seen_by holding self.new))
            (λ fault. OfDevice fault
            (λ lease. FrameTorn lease (seen_by holding self.old) (frame_of buffer.now)
            (seen_by holding self.new))) }
    {
        let last = self.live.as_slice().len() - 1;
        let at = len_of(&self.live, last);
        let bytes = buffer.bytes();
        match append_to(&mut self.live, last, bytes) {
            Ok(()) => {
                self.frames.push_reserved(FrameAt {
                    number: buffer.frame(),
                    segment: self.number + last as u64,
                    at,
                    len: bytes.len() as u32,
                    starts: Starts::of_appended(*self.frames.allocator(), buffer),
                });
                grow(&mut self.pages, top(buffer));
                note_all(&mut self.pages, buffer);
                self.next = buffer.frame().checked_add(1);
                Ok(())
            }
            Err(_) => {
                self.is_failed = true;
                let lease = lease_of(&self.live, last);
                Err(LogFault::Device { lease })
            }
        }
    }

    fn append_with(&mut self, buffer: &Buffer, takes_last: bool) -> Result<(), LogFault>
        requires sound { IsSound holding self.old }
        requires sealed { buffer.now.is_sealed ≡ true }
        requires limit { buffer.now.limit ≡ (seen_by holding self.old).f }
        requires follows { MayFollow (seen_by holding self.old) (frame_of buffer.now) }
        ensures leaves { AfterAppend (seen_by holding self.old) (frame_of buffer.now) takes_last
            result (seen_by holding self.new) }
        ensures prepared { IsReady holding self.old (length (frame_bytes (frame_of buffer.now))) takes_last
            → IsOkOrDevice result }
    {
        let len = buffer.bytes().len() as u32;
        self.ready(len, takes_last)?;
        self.make_room(len)?;
        self.put(buffer)
    }

    /// Appends a sealed buffer's frame whole. The frame has to follow the counted ones: its number
    /// is `next_frame`, its blocks are lawful for the log's limits, and its links and pages go on
    /// from what stands. If the current segment is missing, closed or without room for the frame,
    /// the first spare is made the current segment by a header in an append of its own, unless it
    /// is the last spare. Refused `Failed`, then `NoSegment` if a segment has to be begun and fewer
    /// than two spares stand, then `Spent`, then `NoMemory`. After each of these nothing was
    /// changed. `Device`: a beginning of the header or of the frame may stand, nothing more counts,
    /// and the log is `Failed`. Time is linear in the frame's bytes and blocks, whatever the log's
    /// length, unless a table grows, which is moved then.
    pub fn append(&mut self, buffer: &Buffer) -> Result<(), LogFault>
        requires sound { IsSound holding self.old }
        requires sealed { buffer.now.is_sealed ≡ true }
        requires limit { buffer.now.limit ≡ (seen_by holding self.old).f }
        requires follows { MayFollow (seen_by holding self.old) (frame_of buffer.now) }
        ensures leaves { AfterAppend (seen_by holding self.old) (frame_of buffer.now) false result
            (seen_by holding self.new) }
        ensures prepared { IsReady holding self.old (length (frame_bytes (frame_of buffer.now))) false
            → IsOkOrDevice result }
    {
        self.append_with(buffer, false)
    }

    /// Appends a sealed buffer's frame for the cleaner, which may take the last spare: `NoSegment`
    /// only if none stands. As `append` otherwise.
    pub fn append_care(&mut self, buffer: &Buffer) -> Result<(), LogFault>
        requires sound { IsSound holding self.old }
        requires sealed { buffer.now.is_sealed ≡ true }
        requires limit { buffer.now.limit ≡ (seen_by holding self.old).f }
        requires follows { MayFollow (seen_by holding self.old) (frame_of buffer.now) }
        ensures leaves { AfterAppend (seen_by holding self.old) (frame_of buffer.now) true result
            (seen_by holding self.new) }
        ensures prepared { IsReady holding self.old (length (frame_bytes (frame_of buffer.now))) true
            → IsOkOrDevice result }
    {
        self.append_with(buffer, true)
    }
}
