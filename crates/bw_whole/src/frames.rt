//! Pages in frames, and frames in segments.
//!
//! Each begins the next one if it would be too long. All that may be refused is asked before
//! anything changes, so that a refusal leaves what stands as it was.

ghost use Rattle.std.specs.Prelude.{◌≡◌, ◌≤◌, ◌+◌, ◌++◌, ◌∷◌, [], true, false, if◌then◌else◌, length, OnOk, OnErr, IfOk, IfErr};
ghost use Rattle.bw_codec.specs.Writing.{HasRoom, Adds};
ghost use Rattle.bw_buffer.specs.Filling.{size_of};
ghost use Rattle.bw_whole.specs.Framing.{header_of, unwritten, bytes_in, fits, filled, with_frame, framed_for, with_page, IsPageBlock, IsLastFrame};
ghost use Rattle.bw_whole.specs.Paging.{segments_of, AreLimits};
ghost use Rattle.bw_whole.specs.Listing.{bytes_of};
ghost use Rattle.bw_whole.specs.declared.fault.WholeFault.{WholeFault as FaultValue};

use crate::fault::WholeFault;
use bw_buffer::Buffer;
use bw_codec::laws::largest_blocks;
use bw_codec::limits::LATEST;
use bw_codec::{Block, Header, encode_header};
use std::alloc::{AllocError, Global};
use std::marker::Model;
use std::{mem, slice};

/// Frames that are being written into segments.
#[derive(Drop)]
pub struct Frames {
    /// The most pairs of a page, 4 to 32.
    m: u16,
    /// The most bytes of a segment: at least a header and a frame.
    room: u64,
    /// The segments that take no more.
    closed: Vec<Vec<u8>>,
    /// The one that takes frames.
    newest: Vec<u8>,
    /// The frame that takes pages.
    filling: Buffer,
}

impl Model for Frames {
    ghost use Rattle.bw_whole.specs.Framing.{Framed};

    ghost Value = { Framed };

    ghost use Rattle.bw_whole.specs.Inner.{framed_of, IsFramed};

    ghost view = { framed_of };

    ghost invariant = { IsFramed };
}

// Appends if there is room.
fn push(out: &mut Vec<u8>, bytes: &[u8])
    requires { HasRoom out.old (length bytes.now) }
    ensures { Adds out.old out.new bytes.now }
{
    match out.extend_from_slice(bytes) {
        Ok(()) => {}
        Err(_) => unreachable!(),
    }
}

// A segment in which nothing stands yet, with room for so many bytes more.
fn begun(alloc: Global, m: u16, f: u32, number: u64, len: usize) -> Result<Vec<u8>, AllocError>
    ensures bytes { IfOk result (λ bytes. bytes.items ≡ header_of m f number) }
    ensures room { IfOk result (λ bytes. HasRoom bytes len) }
{
    let mut bytes = Vec::new(alloc);
    let header = Header {
        version: LATEST,
        number,
        m,
        f,
    };
    encode_header(&header, &mut bytes)?;
    bytes.reserve(len)?;
    Ok(bytes)
}

// Puts the next segment in the place of the newest one, which is closed.
fn replace(closed: &mut Vec<Vec<u8>>, newest: &mut Vec<u8>, next: Vec<u8>) -> Result<(), AllocError>
    ensures closed { OnOk result (bytes_of closed.new.items
        ≡ bytes_of closed.old.items ++ newest.old.items ∷ []) }
    ensures newest { OnOk result (newest.new ≡ next) }
    ensures err { OnErr result ((closed.new.items ≡ closed.old.items)
        × (newest.new ≡ newest.old)) }
{
    closed.reserve(1)?;
    closed.push_reserved(mem::replace(newest, next));
    Ok(())
}

/// The limits of a log.
#[derive(Clone, Copy)]
struct Limits {
    m: u16,
    f: u32,
    room: u64,
}

// Makes room for a frame of this length: in the newest segment, or else in the next one, which is
// begun.
fn make_room(
    closed: &mut Vec<Vec<u8>>,
    newest: &mut Vec<u8>,
    limits: Limits,
    len: u32,
) -> Result<(), AllocError>
    ensures closed { OnOk result (bytes_of closed.new.items
        ≡ (if fits limits.room newest.old.items len then bytes_of closed.old.items
        else bytes_of closed.old.items ++ newest.old.items ∷ [])) }
    ensures newest { OnOk result (newest.new.items
        ≡ (if fits limits.room newest.old.items len then newest.old.items
        else header_of limits.m limits.f (length (bytes_of closed.old.items) + 2))) }
    ensures room { OnOk result (HasRoom newest.new len) }
    ensures err { OnErr result ((closed.new.items ≡ closed.old.items)
        × (newest.new.items ≡ newest.old.items)) }
{
    if newest.as_slice().len() as u64 + u64::from(len) <= limits.room {
        return newest.reserve(len as usize);
    }
    let number = closed.as_slice().len() as u64 + 2;
    let alloc = *closed.allocator();
    let next = begun(alloc, limits.m, limits.f, number, len as usize)?;
    replace(closed, newest, next)
}

// The bytes of a sealed frame go to the end of a segment with room for them.
fn append(newest: &mut Vec<u8>, filling: &Buffer)
    requires sealed { filling.now.is_sealed ≡ true }
    requires room { HasRoom newest.old (length (bytes_in filling.now)) }
    ensures { newest.new.items ≡ newest.old.items ++ bytes_in filling.now }
{
    push(newest, filling.bytes());
}

impl Frames {
    /// Nothing is written yet.
    pub fn new(alloc: Global, m: u16, f: u32, room: u64) -> Result<Frames, AllocError>
        requires { AreLimits m f room }
        ensures { IfOk result (λ frames. frames ≡ unwritten m f room) }
    {
        let newest = begun(alloc, m, f, 1, 0)?;
        let filling = Buffer::new(alloc, 1, f)?;
        Ok(Frames {
            m,
            room,
            closed: Vec::new(alloc),
            newest,
            filling,
        })
    }

    // Puts the frame at the end of the newest segment, or of the next one, and begins another frame
    // of this number.
    fn put_frame(&mut self, number: u64) -> Result<(), AllocError>
        requires { number ≡ self.old.filling.frame + 1 }
        ensures ok { OnOk result (self.new ≡ with_frame self.old) }
        ensures err { OnErr result (self.new ≡ self.old) }
    {
        let limits = Limits {
            m: self.m,
            f: self.filling.limit(),
            room: self.room,
        };
        make_room(
            &mut self.closed,
            &mut self.newest,
            limits,
            self.filling.len(),
        )?;
        self.filling.seal();
        append(&mut self.newest, &self.filling);
        self.filling.restart(number);
        Ok(())
    }

    /// Ends the frame: it stands in a segment, and the next one is empty. A refusal changes
    /// nothing.
    pub fn end_frame(&mut self) -> Result<(), WholeFault>
        ensures ok { OnOk result (self.new ≡ with_frame self.old) }
        ensures cause { IfErr result (λ cause. cause ≡ FaultValue.NotAbove → ⊥) }
        ensures spent { IfErr result (λ cause. cause ≡ FaultValue.Spent → IsLastFrame self.old) }
        ensures err { OnErr result (self.new ≡ self.old) }
    {
        let Some(number) = self.filling.frame().checked_add(1) else {
            return Err(WholeFault::Spent);
        };
        self.put_frame(number)?;
        Ok(())
    }

    // Ends the frame, if a page does not fit it.
    fn fit(&mut self, page: &Block) -> Result<(), WholeFault>
        requires { IsPageBlock 32 page.now }
        ensures ok { OnOk result (self.new ≡ framed_for page.now self.old) }
        ensures fits { OnOk result (size_of (filled self.new.filling page.now)
            ≤ self.new.filling.limit) }
        ensures unsealed { OnOk result (self.new.filling.is_sealed ≡ false) }
        ensures cause { IfErr result (λ cause. cause ≡ FaultValue.NotAbove → ⊥) }
        ensures spent { IfErr result (λ cause. cause ≡ FaultValue.Spent → IsLastFrame self.old) }
        ensures err { OnErr result (self.new ≡ self.old) }
    {
        // Both calls show the proof that each page fits an empty frame.
        largest_blocks();
        let _ = self.filling.limit();
        if self.filling.has_room(slice::from_ref(page)) {
            return Ok(());
        }
        self.end_frame()
    }

    /// Puts a page, a Base, after all others. A refusal changes nothing.
    pub fn put(&mut self, page: &Block) -> Result<(), WholeFault>
        requires { IsPageBlock 32 page.now }
        ensures ok { OnOk result (self.new ≡ with_page self.old page.now) }
        ensures cause { IfErr result (λ cause. cause ≡ FaultValue.NotAbove → ⊥) }
        ensures spent { IfErr result (λ cause. cause ≡ FaultValue.Spent → IsLastFrame self.old) }
        ensures err { OnErr result (self.new ≡ self.old) }
    {
        self.fit(page)?;
        match self.filling.put_all(slice::from_ref(page)) {
            Ok(_) => Ok(()),
            Err(_) => unreachable!(),
        }
    }

    /// The segments, the oldest first. What the frame has that takes pages is not in them.
    pub fn into_segments(self) -> Result<Vec<Vec<u8>>, AllocError>
        ensures { IfOk result (λ segments. bytes_of segments.items ≡ segments_of self) }
    {
        let Frames { closed, newest, .. } = self;
        let mut segments = closed;
        segments.push(newest)?;
        Ok(segments)
    }
}
