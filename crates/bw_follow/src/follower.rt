//! A folder that follows another one, round by round.

use crate::fault::FollowFault;
use crate::growth::{compare, growth_of, last_sum, still};
use crate::halt::Halt;
use crate::judged::judge;
use crate::target::Target;
use crate::whole::{copy, mend, replace};
use bw_beside::{Host, Live, Row, TRIES, is_unfinished};
use bw_file::{FolderFault, FolderReader};
use bw_look::{Image, Watch};
use std::io::{self, ErrorKind};

/// What a round did.
#[derive(Debug, Clone, Copy, PartialEq, Eq)]
pub struct Followed {
    /// The number of the last frame that is there now.
    pub frame: u64,
    /// How many bytes were written: those that were appended, or a whole copy's.
    pub bytes: u64,
    /// How many segments were given up.
    pub given_up: u64,
    /// Whether it was a whole copy.
    pub is_whole: bool,
}

impl Followed {
    /// Whether the folder is another one than before.
    pub fn is_change(&self) -> bool {
        self.bytes > 0 || self.given_up > 0 || self.is_whole
    }
}

/// A folder that follows another one, which nobody else writes meanwhile.
#[derive(Drop)]
pub struct Follower {
    from: String,
    to: String,
    /// None before the first whole copy.
    target: Option<Target>,
}

/// What is to be said of a followed folder that ten readings did not give.
fn why<R: Host>(rt: &R, from: &str) -> FollowFault {
    let reader = match FolderReader::open(rt, from) {
        Ok(reader) => reader,
        Err(fault) => return FollowFault::of_source(fault),
    };
    match why_alone(rt, &reader) {
        Ok(()) => FollowFault::Source(FolderFault::InUse),
        Err(fault) => fault,
    }
}

/// What is wrong with a folder in which nobody writes, if anything is.
fn why_alone<R: Host>(rt: &R, reader: &FolderReader) -> Result<(), FollowFault> {
    let mut images = Vec::new(rt.alloc());
    for lease in &reader.leases(rt).map_err(FollowFault::of_source)? {
        let bytes = reader
            .sound_bytes(rt, *lease)
            .map_err(FollowFault::of_source)?;
        images.push(Image {
            lease: Some(*lease),
            bytes,
        })?;
    }
    let _ = judge(rt.alloc(), images.as_slice()).map_err(FollowFault::of_recovery)?;
    Ok(())
}

/// Compares an older segment with what is here, unless its last sum says that it is the same.
fn agree<R: Host>(rt: &R, from: &str, target: &mut Target, live: Live) -> Result<(), Halt> {
    let Some(held) = target.held(live.number) else {
        return Ok(());
    };
    let sum = last_sum(rt, from, live)?;
    if sum.is_some() && (sum == held.last || sum == held.other) {
        return Ok(());
    }
    compare(rt, from, live, &held, target.path())?;
    let mut held = held;
    held.other = sum;
    target.note(held);
    Ok(())
}

/// Appends what a segment has more that is the newest one here, or newer; how many bytes.
fn extend<R: Host>(rt: &R, from: &str, target: &mut Target, live: Live) -> Result<u64, Halt> {
    let held = match target.held(live.number) {
        Some(held) => held,
        None => target.begin(rt, still(rt, from, live)?)?,
    };
    let growth = growth_of(rt, from, live, &held, target.path())?;
    target.append(rt, held, &growth)
}

/// Appends what the live segments have more, the oldest first; how many bytes.
fn extend_all<R: Host>(
    rt: &R,
    from: &str,
    target: &mut Target,
    live: &[Live],
) -> Result<u64, Halt> {
    let mut bytes = 0u64;
    let newest = target.newest();
    for it in live {
        if it.number < newest {
            agree(rt, from, target, *it)?;
        } else {
            bytes = bytes.saturating_add(extend(rt, from, target, *it)?);
        }
    }
    Ok(bytes)
}

/// How a round goes on from what is seen of the followed folder.
#[derive(Clone, Copy, PartialEq, Eq)]
enum Way {
    /// What is added is appended.
    Append,
    /// It gave up more than is here.
    Copy,
}

/// How a round goes on; refused if this folder has a segment that the other one has not yet.
fn way_of(target: &Target, live: &[Live]) -> Result<Way, Halt> {
    let (Some(oldest), Some(newest)) = (live.first(), live.last()) else {
        return Err(Halt::Moved);
    };
    if newest.number < target.newest() {
        return Err(Halt::Fault(FollowFault::Strayed {
            segment: target.newest(),
        }));
    }
    if oldest.number > target.newest() {
        return Ok(Way::Copy);
    }
    Ok(Way::Append)
}

impl Follower {
    /// A follower of the folder FROM, which is TO: that is opened and read if it is there, and made
    /// by the first round if it is not. What a stop left between two renames is mended before.
    ///
    /// `NoStore` if TO is no store that a follower made, `Target` if it is in use or damaged. It
    /// stays as it is then.
    pub fn open<R: Host, W: Watch>(
        rt: &R,
        from: &str,
        to: &str,
        watch: &mut W,
    ) -> Result<Follower, FollowFault> {
        let name = to.trim_end_matches('/');
        if name.is_empty() {
            let missing = FolderFault::System(io::Error::from(ErrorKind::NotFound));
            return Err(FollowFault::Target(missing));
        }
        let target = if mend(rt, name)? {
            Some(Target::open(rt, name, watch)?)
        } else {
            None
        };
        Ok(Follower {
            from: String::from_str(rt.alloc(), from)?,
            to: String::from_str(rt.alloc(), name)?,
            target,
        })
    }

    /// What is here is brought up to what was durable in the followed folder when this began, or to
    /// some later frame.
    ///
    /// `Source` with `InUse` if somebody writes the followed folder and ten readings did not give
    /// that: a later round may. After any refusal this folder is a store as of some frame of the
    /// other one, not of an earlier one than before; what was appended before it stays.
    pub fn round<R: Host, W: Watch>(
        &mut self,
        rt: &R,
        watch: &mut W,
    ) -> Result<Followed, FollowFault> {
        for _ in 0..TRIES {
            match self.step(rt, watch) {
                Ok(followed) => return Ok(followed),
                Err(Halt::Fault(fault)) => return Err(fault),
                Err(Halt::Moved) => {}
            }
        }
        Err(why(rt, self.from.as_str()))
    }

    /// A whole copy, which is opened then.
    fn whole<R: Host, W: Watch>(&mut self, rt: &R, watch: &mut W) -> Result<Followed, Halt> {
        let (from, to) = (self.from.as_str(), self.to.as_str());
        let (frame, bytes) = match &self.target {
            Some(target) => replace(rt, from, to, target.newest(), target.frame(), watch)?,
            None => copy(rt, from, to, watch)?,
        };
        let target = Target::open(rt, to, watch)?;
        self.target = Some(target);
        Ok(Followed {
            frame,
            bytes,
            given_up: 0,
            is_whole: true,
        })
    }

    /// One try of a round.
    fn step<R: Host, W: Watch>(&mut self, rt: &R, watch: &mut W) -> Result<Followed, Halt> {
        if self.target.is_none() {
            return self.whole(rt, watch);
        }
        if is_unfinished(rt, self.from.as_str())? {
            return Err(Halt::Moved);
        }
        let row = Row::of(rt, self.from.as_str())?;
        let way = match &self.target {
            Some(target) => way_of(target, row.live())?,
            None => Way::Copy,
        };
        if way == Way::Copy {
            return self.whole(rt, watch);
        }
        let Some(target) = &mut self.target else {
            return Err(Halt::Moved);
        };
        append(rt, self.from.as_str(), target, row.live(), watch)
    }
}

/// Appends what the live segments have more, and gives up here what was given up there.
fn append<R: Host, W: Watch>(
    rt: &R,
    from: &str,
    target: &mut Target,
    live: &[Live],
    watch: &mut W,
) -> Result<Followed, Halt> {
    let bytes = extend_all(rt, from, target, live)?;
    let oldest = live.first().map_or(0, |live| live.number);
    let given_up = target.give_up(rt, oldest, watch)?;
    Ok(Followed {
        frame: target.frame(),
        bytes,
        given_up,
        is_whole: false,
    })
}
