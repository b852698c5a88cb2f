//! Where what recovery refuses of a folder stands: the files, as far as the bytes say.

use crate::fault::RescueFault;
use crate::reading::allowed;
use crate::verifying::{Hurt, Verdict, verify};
use bw_beside::frames_in;
use bw_care::RecoverCause;
use bw_codec::{HeaderRead, read_header};
use bw_file::FolderReader;
use bw_home::System;
use bw_look::Unseen;
use std::alloc::Global;
use std::collections::BTreeMap;
use std::fmt::{self, Display, Formatter};

/// What is known of a file in which something is wrong, or between which something is missing.
#[derive(Debug, Clone, Copy, PartialEq, Eq)]
pub enum Located {
    /// The first fault of a file.
    Hurt(Hurt),
    /// Between the segments in these files, named by their leases, those with these numbers are
    /// missing.
    Segments {
        first: u64,
        last: u64,
        below: u32,
        above: u32,
    },
    /// Between the segments in these files the frames with these numbers are missing.
    Frames {
        first: u64,
        last: u64,
        below: u32,
        above: u32,
    },
    /// Two files have the segment of this number.
    Twice {
        segment: u64,
        one: u32,
        other: u32,
    },
    /// The oldest segment that is there has this number, and stands in this file.
    Oldest {
        segment: u64,
        lease: u32,
    },
}

/// Some numbers in a row, in words.
fn write_row<W: fmt::Write>(
    f: &mut Formatter<W>,
    one: &str,
    many: &str,
    first: u64,
    last: u64,
) -> fmt::Result {
    if first == last {
        write!(f, "{one} {first} is missing")
    } else {
        write!(f, "{many} {first} to {last} are missing")
    }
}

fn write_between<W: fmt::Write>(f: &mut Formatter<W>, below: u32, above: u32) -> fmt::Result {
    write!(
        f,
        ", between segment-{below:04}.bw and segment-{above:04}.bw"
    )
}

impl Display for Located {
    fn fmt<W: fmt::Write>(&self, f: &mut Formatter<W>) -> fmt::Result {
        match self {
            Located::Hurt(hurt) => write!(f, "{hurt}"),
            Located::Segments {
                first,
                last,
                below,
                above,
            } => {
                write_row(f, "segment", "segments", *first, *last)?;
                write_between(f, *below, *above)
            }
            Located::Frames {
                first,
                last,
                below,
                above,
            } => {
                write_row(f, "frame", "frames", *first, *last)?;
                write_between(f, *below, *above)
            }
            Located::Twice {
                segment,
                one,
                other,
            } => write!(
                f,
                "segment {segment} is there twice, in segment-{one:04}.bw and segment-{other:04}.bw"
            ),
            Located::Oldest { segment, lease } => write!(
                f,
                "the oldest segment is number {segment}, in segment-{lease:04}.bw: an older one was given up, or is missing"
            ),
        }
    }
}

/// A live segment of a folder: its file, and its first and last whole frame, if it has one.
#[derive(Debug, Clone, Copy)]
struct Live {
    lease: u32,
    frames: Option<(u64, u64)>,
}

/// The live segments of a folder, by their numbers, and the first that is there twice.
#[derive(Drop)]
struct Row {
    live: BTreeMap<u64, Live>,
    twice: Option<Located>,
}

impl Row {
    /// Adds the segment of a lease, if these bytes begin with a header.
    fn add(&mut self, lease: u32, bytes: &[u8]) -> Result<(), RescueFault> {
        let HeaderRead::Whole(header) = read_header(bytes) else {
            return Ok(());
        };
        let live = Live {
            lease,
            frames: frames_in(bytes, &header),
        };
        if let Some(one) = self.live.insert(header.number, live)? {
            self.twice = Some(Located::Twice {
                segment: header.number,
                one: one.lease,
                other: lease,
            });
        }
        Ok(())
    }

    /// Those of the folder of this path, which has so many leases at most.
    fn of<R: System>(rt: &R, path: &str, leases: u32) -> Result<Row, RescueFault> {
        let reader = FolderReader::open(rt, path)?;
        let mut row = Row {
            live: BTreeMap::new(rt.alloc()),
            twice: None,
        };
        for lease in &reader.leases(rt)? {
            let lease = allowed(*lease, leases)?;
            let bytes = reader.bytes(rt, lease)?;
            row.add(lease, bytes.as_slice())?;
        }
        Ok(row)
    }

    /// What is missing first between two segments, or is there twice.
    fn gap(&self) -> Option<Located> {
        if self.twice.is_some() {
            return self.twice;
        }
        let mut before: Option<(u64, Live)> = None;
        for (number, live) in &self.live {
            if let Some((last, below)) = before {
                let found = between(last, below, *number, *live);
                if found.is_some() {
                    return found;
                }
            }
            before = Some((*number, *live));
        }
        None
    }

    /// The oldest segment, if it is not the first that there ever was.
    fn oldest(&self) -> Option<Located> {
        match self.live.iter().next() {
            Some((number, live)) if *number > 1 => Some(Located::Oldest {
                segment: *number,
                lease: live.lease,
            }),
            _ => None,
        }
    }
}

/// What is missing between two segments that follow one another in a folder.
fn between(last: u64, below: Live, next: u64, above: Live) -> Option<Located> {
    if next > last.saturating_add(1) {
        return Some(Located::Segments {
            first: last.saturating_add(1),
            last: next.saturating_sub(1),
            below: below.lease,
            above: above.lease,
        });
    }
    match (below.frames, above.frames) {
        (Some((_, end)), Some((begin, _))) if begin > end.saturating_add(1) => Some(
            Located::Frames {
                first: end.saturating_add(1),
                last: begin.saturating_sub(1),
                below: below.lease,
                above: above.lease,
            },
        ),
        _ => None,
    }
}

/// The first fault of each file.
fn hurts_of<R: System>(rt: &R, path: &str, leases: u32) -> Result<Vec<Located>, RescueFault> {
    let mut found = Vec::new(rt.alloc());
    if let Verdict::Hurt(hurts) = verify(rt, path, leases, &mut Unseen)? {
        for hurt in hurts.as_slice() {
            found.push(Located::Hurt(*hurt))?;
        }
    }
    Ok(found)
}

/// What is known of one thing, as a list.
fn list_of(alloc: Global, found: Option<Located>) -> Result<Vec<Located>, RescueFault> {
    let mut list = Vec::new(alloc);
    if let Some(one) = found {
        list.push(one)?;
    }
    Ok(list)
}

/// Where that stands for which recovery refused the folder of this path, which is not changed:
/// bytes that are no frame, what is missing between two segments, or the oldest one if a page is
/// not whole. Nothing is known of other causes. There are so many leases. It reads the folder once
/// more.
pub fn locate<R: System>(
    rt: &R,
    path: &str,
    leases: u32,
    cause: RecoverCause,
) -> Result<Vec<Located>, RescueFault> {
    match cause {
        RecoverCause::BadBytes { .. } => hurts_of(rt, path, leases),
        RecoverCause::Gap => list_of(rt.alloc(), Row::of(rt, path, leases)?.gap()),
        RecoverCause::BadLink { .. } | RecoverCause::Unlawful { .. } => {
            list_of(rt.alloc(), Row::of(rt, path, leases)?.oldest())
        }
        _ => Ok(Vec::new(rt.alloc())),
    }
}
