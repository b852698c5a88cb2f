//! A folder is opened to be read.

use crate::asking::Ask;
use crate::host::Host;
use crate::miss::Miss;
use crate::standing::{Stood, ask_standing, standing};
use bw_file::{FolderFault, FolderReader};
use bw_look::Watch;

/// How often a folder that somebody writes is read at most.
pub const TRIES: u32 = 10;

/// A folder that is open to be read.
#[derive(Drop)]
pub enum Opened {
    /// Nobody writes it as long as this stands.
    Alone(FolderReader),
    /// Somebody writes it. What was read of it stood there at a frame.
    Beside(Stood),
}

/// Opens the folder of this path, which has to be there, beside other readers; if somebody writes
/// it, reads it as it stands, up to ten times. Nothing in it is changed, and no writer is kept out
/// in that case.
///
/// Of a folder that somebody writes, what is answered stood there at a frame that was the last when
/// this began, or a later one. It may be one that is not durable yet.
///
/// `InUse` if somebody writes it, and none of ten readings gave that: as when nothing was ever
/// durable there, it is damaged, or it is written faster than it is read. Else it is refused as
/// `FolderReader::open` is.
pub fn open<R: Host, W: Watch>(rt: &R, path: &str, watch: &mut W) -> Result<Opened, FolderFault> {
    for _ in 0..TRIES {
        match FolderReader::open(rt, path) {
            Ok(reader) => return Ok(Opened::Alone(reader)),
            Err(FolderFault::InUse) => {}
            Err(fault) => return Err(fault),
        }
        match standing(rt, path, watch) {
            Ok(stood) => return Ok(Opened::Beside(stood)),
            Err(Miss::NoMemory) => return Err(FolderFault::NoMemory),
            Err(Miss::Moved) => {}
        }
    }
    Err(FolderFault::InUse)
}

/// A folder whose pages were to be asked.
#[derive(Drop)]
pub enum Asked<T> {
    /// Nobody writes it as long as this stands, and its pages were not asked.
    Alone(FolderReader),
    /// Somebody writes it, and its pages answered this as they stood there at a frame.
    Beside(T),
}

/// Asks the pages of the folder of this path, if somebody writes it; else it is opened, and they
/// are not asked. Of what stood there, and of each refusal, `open` says what is to be known.
///
/// It takes memory for all bytes, and the time of a reading, of a recovery and of what is asked; of
/// up to ten readings and recoveries if the folder is changed meanwhile.
pub fn ask<R: Host, W: Watch, A: Ask<W>>(
    rt: &R,
    path: &str,
    ask: &mut A,
    watch: &mut W,
) -> Result<Asked<A::Answer>, FolderFault> {
    for _ in 0..TRIES {
        match FolderReader::open(rt, path) {
            Ok(reader) => return Ok(Asked::Alone(reader)),
            Err(FolderFault::InUse) => {}
            Err(fault) => return Err(fault),
        }
        match ask_standing(rt, path, ask, watch) {
            Ok(answer) => return Ok(Asked::Beside(answer)),
            Err(Miss::NoMemory) => return Err(FolderFault::NoMemory),
            Err(Miss::Moved) => {}
        }
    }
    Err(FolderFault::InUse)
}
