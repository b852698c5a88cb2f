//! One block of a counted frame, read by its place.
//!
//! A frame of which no block was read before is read whole and looked through; of any other only
//! the block's bytes are read. If the segment lends its bytes, the block's are decoded where they
//! lie, and the frame's are copied.

ghost use Rattle.std.specs.Prelude.{◌≡◌, ◌≢◌, ◌+◌, ◌-◌, ◌<◌, ◌≤◌, ◌++◌, length, map, take, drop, slice_get, Err, IfOk, IfErr, OnOk, OnErr, IfSome};
ghost use Rattle.bw_record.specs.declared.block.Block.{Block};
ghost use Rattle.bw_log.specs.Places.{all_placed, first_number};
ghost use Rattle.bw_log.specs.Contents.{counted};
ghost use Rattle.bw_log.specs.Reads.{IsLineIn, ReadStops};
ghost use Rattle.bw_log.specs.Walking.{PlacedAt, IsPlace};
ghost use Rattle.bw_log.specs.BlockBytes.{IsSpelled, SpellsOne, IsSpelledAt, IsOne, HasIndex, BlockAt, IsSpot};

use crate::fault::LogFault;
use crate::log::Log;
use crate::starts::{span_in, starts_in};
use bw_codec::{Block, CodecFault, Place, read_block};
use bw_device::{failures_of, lease_of, len_of, lend_of, read_from};
use std::alloc::Global;

// The lawful block that these bytes begin with.
fn block_of(alloc: Global, bytes: &[u8], version: u16, m: u16) -> Result<Block, LogFault>
    requires { SpellsOne version m bytes.now }
    ensures found { (block : Block) → IsSpelled version m bytes.now block
        → IfOk result (λ b. b ≡ block) }
    ensures memory { IfErr result (λ fault. fault ≡ LogFault.NoMemory) }
{
    match read_block(alloc, bytes, version, m) {
        Ok(block) => Ok(block),
        Err(CodecFault::NoMemory) => Err(LogFault::NoMemory),
        Err(CodecFault::BadBytes) => unreachable!(),
    }
}

// The lawful block that these bytes begin with, from this one on.
fn block_from(
    alloc: Global,
    bytes: &[u8],
    start: u32,
    version: u16,
    m: u16,
) -> Result<Block, LogFault>
    requires inside { start ≤ length bytes.now }
    requires spelled { SpellsOne version m (drop start bytes.now) }
    ensures found { (block : Block) → IsSpelled version m (drop start bytes.now) block
        → IfOk result (λ b. b ≡ block) }
    ensures memory { IfErr result (λ fault. fault ≡ LogFault.NoMemory) }
{
    block_of(alloc, &bytes[start as usize..], version, m)
}

/// Where a counted frame stands: in which live segment, from where on, how many bytes, and in which
/// format.
#[derive(Clone, Copy)]
pub(crate) struct Spot {
    pub(crate) at: usize,
    pub(crate) from: u64,
    pub(crate) len: u32,
    pub(crate) version: u16,
}

impl Log {
    ghost use Rattle.bw_log.specs.Views.{seen_by, IsSound};

    /// Where the counted frame of an index stands.
    pub(crate) fn spot(&self, i: usize) -> Spot
        requires sound { IsSound holding self.now }
        requires inside { i < length self.now.frames.items }
        ensures { IsSpot (seen_by holding self.now) i result }
    {
        let line = &self.frames[i];
        Spot {
            at: (line.segment - self.number) as usize,
            from: line.at,
            len: line.len,
            version: self.version_at(line.segment),
        }
    }

    // Appends bytes of the live segment at an index, which are copied if the segment lends them. A
    // refusal leaves the `Vec` as it was.
    pub(crate) fn read_onto(
        &mut self,
        at: usize,
        from: u64,
        len: u32,
        out: &mut Vec<u8>,
    ) -> Result<(), LogFault>
        requires inside { at < length self.old.live.items }
        requires within { IfSome (slice_get (map holding self.old.live.items) at)
            (λ h. from + len ≤ length h.bytes) }
        ensures bytes { OnOk result
            (IfSome (slice_get (map holding self.old.live.items) at)
            (λ h. out.new.items ≡ out.old.items ++ take len (drop from h.bytes))) }
        ensures unchanged { OnErr result (out.new.items ≡ out.old.items) }
        ensures stops { ReadStops (λ i. i ≡ at)
            (seen_by holding self.old) result (seen_by holding self.new) }
        ensures paged { result ≢ Err LogFault.NoPage }
    {
        if let Some(held) = lend_of(&self.live, at) {
            out.extend_from_slice(&held[from as usize..][..len as usize])?;
            return Ok(());
        }
        if failures_of(&self.live, at) == u64::MAX {
            return Err(LogFault::Spent);
        }
        let had = out.len();
        out.resize(had + len as usize, 0u8)?;
        match read_from(&mut self.live, at, from, &mut out[had..]) {
            Ok(()) => Ok(()),
            Err(_) => {
                out.truncate(had);
                let lease = lease_of(&self.live, at);
                Err(LogFault::Device { lease })
            }
        }
    }

    // The block that so many bytes of a live segment are.
    fn read_alone(
        &mut self,
        at: usize,
        from: u64,
        len: u32,
        version: u16,
    ) -> Result<Block, LogFault>
        requires { IsOne version self.old.m (map holding self.old.live.items) at from len }
        ensures found { (block : Block)
            → IsSpelledAt version self.old.m (map holding self.old.live.items) at from len block
            → IfOk result (λ b. b ≡ block) }
        ensures stops { ReadStops (λ i. i ≡ at)
            (seen_by holding self.old) result (seen_by holding self.new) }
        ensures paged { result ≢ Err LogFault.NoPage }
    {
        let alloc = *self.frames.allocator();
        if let Some(held) = lend_of(&self.live, at) {
            return block_of(
                alloc,
                &held[from as usize..][..len as usize],
                version,
                self.m,
            );
        }
        let mut bytes = Vec::new(alloc);
        self.read_onto(at, from, len, &mut bytes)?;
        block_of(alloc, &bytes, version, self.m)
    }

    // The block of an index in a counted frame, which is read whole and looked through.
    fn read_whole(&mut self, i: usize, index: u32) -> Result<Block, LogFault>
        requires sound { IsSound holding self.old }
        requires inside { i < length self.old.frames.items }
        requires there { HasIndex (counted (seen_by holding self.old)) i index }
        ensures found { (block : Block) → BlockAt (counted (seen_by holding self.old)) i index block
            → IfOk result (λ b. b ≡ block) }
        ensures stops { ReadStops (λ j. IsLineIn (seen_by holding self.old) i j)
            (seen_by holding self.old) result (seen_by holding self.new) }
        ensures paged { result ≢ Err LogFault.NoPage }
    {
        let spot = self.spot(i);
        let len = spot.len;
        let m = self.m;
        let alloc = *self.frames.allocator();
        let mut bytes = Vec::new(alloc);
        self.read_onto(spot.at, spot.from, len, &mut bytes)?;
        let known = match starts_in(alloc, spot.version, &bytes) {
            Ok(known) => known,
            Err(CodecFault::NoMemory) => return Err(LogFault::NoMemory),
            Err(CodecFault::BadBytes) => unreachable!(),
        };
        let Some((start, _)) = span_in(&known, len, index) else {
            unreachable!();
        };
        self.frames[i].starts.learn(known);
        block_from(alloc, &bytes, start, spot.version, m)
    }

    /// The block at a place in a counted frame. Of a frame that was looked through before it reads
    /// only the block's bytes, and else the frame's.
    pub(crate) fn block_at(&mut self, place: Place) -> Result<Block, LogFault>
        requires sound { IsSound holding self.old }
        requires there { IsPlace (all_placed (counted (seen_by holding self.old))) place }
        ensures found { (block : Block)
            → PlacedAt (all_placed (counted (seen_by holding self.old))) place block
            → IfOk result (λ b. b ≡ block) }
        ensures stops { ReadStops (λ j. IsLineIn (seen_by holding self.old)
            (place.frame - first_number (counted (seen_by holding self.old))) j)
            (seen_by holding self.old) result (seen_by holding self.new) }
        ensures paged { result ≢ Err LogFault.NoPage }
    {
        let i = (place.frame - self.frames[0].number) as usize;
        let spot = self.spot(i);
        match self.frames[i].starts.span(spot.len, place.index) {
            None => self.read_whole(i, place.index),
            Some((start, end)) => {
                // The length shows the proof that the sum fits.
                let _ = len_of(&self.live, spot.at);
                let from = spot.from + u64::from(start);
                self.read_alone(spot.at, from, end - start, spot.version)
            }
        }
    }
}
