//! Where the blocks of a frame begin in it.
//!
//! Nobody has to know that before a single block is read. So a frame is looked through when the
//! first of its blocks is asked for, and what was found is kept: four bytes a block. The proof
//! knows from the start which frame it is, so to look through it changes nothing.

ghost use Rattle.std.specs.Prelude.{◌≡◌, ◌<◌, ◌≤◌, ◌^◌, ℕ, Some, None, length, drop, slice_get, IfOk, IfSome, IfErr, MatchOption};
ghost use Rattle.bw_record.specs.Version.{latest};
ghost use Rattle.bw_codec.specs.Grammar.{frame_bytes_in, IsFrameIn};
ghost use Rattle.bw_codec.specs.Reading.{Gives};
ghost use Rattle.bw_record.specs.declared.block.Frame.{Frame as FrameValue};
ghost use Rattle.bw_buffer.specs.Filling.{frame_of};
ghost use Rattle.bw_log.specs.Starts.{starts_of, IsSpan};

use bw_buffer::Buffer;
use bw_codec::limits::{HEAD_LEN, LATEST};
use bw_codec::{CodecFault, Frame, Outline};
use bw_told::Told;
use std::alloc::Global;
use std::marker::Model;

/// Where the blocks of a frame begin in it, once somebody asked.
#[derive(Drop)]
pub struct Starts {
    frame: Told<Frame>,
    /// Its format.
    version: u16,
    known: Vec<u32>,
}

impl Model for Starts {
    ghost use Rattle.std.specs.Prelude.{ℕ, List};

    ghost Value = { List ℕ };

    ghost use Rattle.bw_log.specs.Starting.{starts_view, IsStarts};

    ghost view = { starts_view };

    ghost invariant = { IsStarts };
}

// Where a block begins and ends among those that begin here, in a frame of so many bytes.
pub(crate) fn span_in(starts: &[u32], len: u32, index: u32) -> Option<(u32, u32)>
    ensures { MatchOption result
        (slice_get starts.now index ≡ None)
        (IsSpan starts.now len index) }
{
    let index = index as usize;
    let from = *starts.get(index)?;
    let to = match starts.get(index + 1) {
        Some(next) => *next,
        None => len,
    };
    Some((from, to))
}

impl Starts {
    /// Those of a frame that is appended.
    pub(crate) fn of_appended(alloc: Global, buffer: &Buffer) -> Starts
        ensures { result ≡ starts_of latest (frame_of buffer.now) }
    {
        Starts {
            frame: Told::about(buffer),
            version: LATEST,
            known: Vec::new(alloc),
        }
    }

    /// Those of the frame that the bytes spell in a format. Nothing is read, and no memory is
    /// taken.
    pub fn of_found(alloc: Global, version: u16, bytes: &[u8]) -> Starts
        ghost frame: { FrameValue }
        requires { bytes.now ≡ frame_bytes_in version frame }
        ensures { result ≡ starts_of version frame }
    {
        Starts {
            frame: Told::about(&bytes),
            version,
            known: Vec::new(alloc),
        }
    }

    /// Where the block of an index begins and ends in the frame, of so many bytes; `None` if nobody
    /// has looked the frame through.
    pub(crate) fn span(&self, len: u32, index: u32) -> Option<(u32, u32)>
        ensures { IfSome result (IsSpan self.now len index) }
    {
        span_in(&self.known, len, index)
    }

    /// Keeps what was found.
    pub(crate) fn learn(&mut self, known: Vec<u32>)
        requires { known.items ≡ self.old }
        ensures { self.new ≡ self.old }
    {
        self.known = known;
    }
}

// The bytes after so many, which are there and some.
fn behind(bytes: &[u8], len: usize) -> Result<&[u8], CodecFault>
    ensures there { 1 ≤ len → len ≤ length bytes.now
        → Gives (λ x. x.now) result (Some (drop len bytes.now)) }
    ensures shorter { IfOk result (λ rest. length rest.now < length bytes.now) }
    ensures bad { IfErr result (λ fault. fault ≡ CodecFault.BadBytes) }
{
    if len == 0 || bytes.len() < len {
        return Err(CodecFault::BadBytes);
    }
    Ok(&bytes[len..])
}

/// Where the blocks of the frame begin that the bytes spell in a format.
pub(crate) fn starts_in(alloc: Global, version: u16, bytes: &[u8]) -> Result<Vec<u32>, CodecFault>
    requires { length bytes.now < 2 ^ 32 }
    ensures { (m f : ℕ) (frame : FrameValue) → m < 2 ^ 16 → IsFrameIn version m f frame
        → bytes.now ≡ frame_bytes_in version frame
        → Gives (λ x. x.items) result (Some (starts_of version frame)) }
{
    let mut starts = Vec::new(alloc);
    let mut rest = behind(bytes, HEAD_LEN)?;
    while !rest.is_empty() {
        match Outline::read(version, rest) {
            None => return Err(CodecFault::BadBytes),
            Some(outline) => {
                starts.push((bytes.len() - rest.len()) as u32)?;
                rest = behind(rest, outline.len)?;
            }
        }
    }
    Ok(starts)
}
