//! The frames of a segment, one after the other.

use bw_codec::{CodecFault, Frame, FrameRead, Header, read_frame};
use std::alloc::{AllocError, Global};

/// What stands in a segment after what was read of it.
#[derive(Drop)]
pub enum Step {
    /// A frame, in so many bytes.
    Frame(Frame, usize),
    /// So many bytes, perhaps none, at which a frame was torn off.
    Tail(usize),
    /// Other bytes.
    Bad,
}

/// A segment that is read frame by frame.
#[derive(Clone, Copy)]
pub struct Frames<'a> {
    bytes: &'a [u8],
    header: Header,
    at: usize,
}

impl<'a> Frames<'a> {
    /// The frames after this header, which takes so many bytes.
    pub fn behind(bytes: &'a [u8], header: Header, at: usize) -> Frames<'a> {
        Frames { bytes, header, at }
    }

    /// Where the next one begins.
    pub fn at(&self) -> usize {
        self.at
    }

    /// The bytes that were not read yet.
    fn rest(&self) -> &'a [u8] {
        if self.at <= self.bytes.len() {
            &self.bytes[self.at..]
        } else {
            &[]
        }
    }

    /// What stands there. After a frame the next one is looked at.
    pub fn step(&mut self, alloc: Global) -> Result<Step, AllocError> {
        let rest = self.rest();
        match read_frame(alloc, rest, &self.header) {
            Ok(FrameRead::Whole(frame, len)) => {
                self.at = self.at.saturating_add(len);
                Ok(Step::Frame(frame, len))
            }
            Ok(FrameRead::Tail) => Ok(Step::Tail(rest.len())),
            Err(CodecFault::BadBytes) => Ok(Step::Bad),
            Err(CodecFault::NoMemory) => Err(AllocError),
        }
    }
}
