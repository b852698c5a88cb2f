//! One call that opens a store, runs a course over it, and ends it.

ghost use Rattle.std.specs.Prelude.{◌≡◌, IfOk, IfSome, IsNone};

use crate::begun::begin;
use crate::course::{Course, Legs, Whole};
use crate::options::Options;
use bw_care::RecoverCause;
use bw_device::{MAX_LEASES, Segment};
use bw_site::{Found, HomeFault, Made, NotHeld, Site, System, look};

/// How the folder of a store is opened.
#[derive(Clone, Copy)]
pub(crate) enum Way {
    /// Over the files that are there, of which each is read once: nothing is made or written before
    /// recovery has taken them. Only a folder that was open before is opened so.
    Again,
    /// A copy of it is looked at before. So the caller learns why the other way failed, and a
    /// folder that was never open stays as it is if it is refused.
    Anew,
}

/// One of the attempts to open a store.
#[derive(Clone, Copy)]
pub(crate) struct Attempt {
    pub(crate) way: Way,
    /// What an attempt before found, and cleared.
    pub(crate) found: Option<Found>,
}

impl Attempt {
    /// The first one.
    pub(crate) fn first(dir: Option<&str>) -> Attempt {
        let way = match dir {
            Some(_) => Way::Again,
            None => Way::Anew,
        };
        Attempt { way, found: None }
    }

    /// The next one, after one that found more to be made or said.
    pub(crate) fn anew(self) -> Attempt {
        Attempt {
            way: Way::Anew,
            found: self.found,
        }
    }

    /// The next one, after one that cleared this.
    pub(crate) fn cleared(self, found: Found) -> Attempt {
        Attempt {
            way: Way::Anew,
            found: Some(found),
        }
    }
}

/// A site, how many segments the store begins with, and how many bytes a new one has room for.
type Place = (Site, u32, u64);

// The folder of this path over the files that are there, if it was open before. Why it cannot be
// opened is said by the other way.
fn place_again<R: System>(rt: &R, path: &str, leases: u32, options: &Options) -> Option<Place> {
    let Ok(site) = Site::open_again(rt, path, leases) else {
        return None;
    };
    let Ok((count, longest)) = site.present(rt, options.segments) else {
        return None;
    };
    Some((site, count, options.capacity_beside(longest)))
}

/// Where the segments of a store stand, how many it begins with, and how many bytes a new one has
/// room for; none if the folder cannot be opened by this way. By the other way a folder is looked
/// at before: what would be refused is refused before anything is written there.
pub(crate) fn site_of<R: System>(
    rt: &R,
    dir: Option<&str>,
    leases: u32,
    options: &Options,
    way: Way,
) -> Result<Option<Place>, HomeFault> {
    let longest = match (dir, way) {
        (Some(path), Way::Again) => return Ok(place_again(rt, path, leases, options)),
        (Some(path), Way::Anew) => look(rt, path, leases, options.segments, options.capacity)?,
        (None, _) => 0,
    };
    let site = Site::open(rt, dir, leases)?;
    let count = site.count(rt, options.segments)?;
    Ok(Some((site, count, options.capacity_beside(longest))))
}

/// The next segment; none if there is none by this way, and the other one says why.
pub(crate) fn segment_of<R: System>(
    rt: &R,
    site: &mut Site,
    capacity: u64,
    way: Way,
) -> Result<Option<Made>, HomeFault> {
    match site.segment(rt, capacity) {
        Ok(made) => Ok(Some(made)),
        Err(fault) => match way {
            Way::Again => Ok(None),
            Way::Anew => Err(fault),
        },
    }
}

// Opens a store, goes leg by leg over it, and ends it; `None` if another attempt is to be made: the
// folder cannot be opened by this way, or it had only the beginning of a first frame, which was
// cleared. Boxes are made only here: a function that takes or gives a box, or a home, makes none.
fn go<R: System, L: Legs<R>>(
    rt: &R,
    dir: Option<&str>,
    leases: u32,
    options: &Options,
    attempt: &mut Attempt,
    legs: &mut L,
) -> Result<Option<L::Answer>, HomeFault>
    ensures answer { IfOk result (λ went. IfSome went (λ answer. L.says legs.old answer)) }
    ensures anew { IfOk result (λ went. IsNone went → legs.new ≡ legs.old) }
{
    let this = *attempt;
    let Some((mut site, count, capacity)) = site_of(rt, dir, leases, options, this.way)? else {
        *attempt = this.anew();
        return Ok(None);
    };
    let options = &Options {
        capacity,
        ..*options
    };
    let mut boxes: Vec<Box<dyn Segment>> = Vec::new(rt.alloc());
    let mut are_new = true;
    for _ in 0..count {
        let Some(made) = segment_of(rt, &mut site, options.capacity, this.way)? else {
            *attempt = this.anew();
            return Ok(None);
        };
        are_new &= made.is_empty();
        let segment: Box<dyn Segment> = match made {
            Made::Memory(segment) => segment,
            Made::File(segment) => segment,
        };
        boxes.push(segment)?;
    }
    let mut home = match begin(rt, options, boxes, are_new, site, this.found) {
        Ok(home) => home,
        Err(NotHeld::Fault(fault)) => return Err(fault),
        Err(NotHeld::Cleared(cleared)) => {
            *attempt = this.cleared(cleared);
            return Ok(None);
        }
    };
    'legs: for _ in rt.forever() {
        if let Some(made) = home.next_made() {
            let spare: Box<dyn Segment> = match made {
                Made::Memory(segment) => segment,
                Made::File(segment) => segment,
            };
            home.add(spare);
        } else if let Some(answer) = legs.leg(rt, &mut home) {
            return Ok(Some(answer));
        }
    }
    unreachable!()
}

/// Opens the folder of this path, or begins a store in memory if there is none, goes leg by leg
/// over the store, and ends it. What was not flushed is gone then, and what stands in memory too.
/// There are so many leases, 1 to 4,096 (`Made` else): `Lease` if more segments are wanted, or if a
/// file is that of another one. Otherwise as `with_store`.
pub fn with_store_at<R: System, L: Legs<R>>(
    rt: &R,
    dir: Option<&str>,
    leases: u32,
    options: &Options,
    legs: &mut L,
) -> Result<L::Answer, HomeFault>
    ensures answer { IfOk result (λ answer. L.says legs.old answer) }
{
    let mut attempt = Attempt::first(dir);
    if let Some(answer) = go(rt, dir, leases, options, &mut attempt, legs)? {
        return Ok(answer);
    }
    if let Some(answer) = go(rt, dir, leases, options, &mut attempt, legs)? {
        return Ok(answer);
    }
    match go(rt, dir, leases, options, &mut attempt, legs)? {
        Some(answer) => Ok(answer),
        // Only somebody else can have put such a beginning there once more.
        None => Err(HomeFault::Recovery(RecoverCause::Empty)),
    }
}

/// Opens the folder of this path, goes leg by leg over the store in it, and ends the store: what
/// was not flushed is gone then. Otherwise as `with_store`.
pub fn with_store_in_legs<R: System, L: Legs<R>>(
    rt: &R,
    path: &str,
    options: &Options,
    legs: &mut L,
) -> Result<L::Answer, HomeFault>
    ensures answer { IfOk result (λ answer. L.says legs.old answer) }
{
    with_store_at(rt, Some(path), MAX_LEASES, options, legs)
}

/// Opens the folder of this path, runs the course over the store in it, and ends the store: what
/// was not flushed is gone then.
///
/// What recovery refuses of the folder is refused, `Recovery`, and stays as it is. It is locked,
/// and made if it is missing. A folder without bytes has a new store, and so has one with nothing
/// but the beginning of a first frame, which was never durable. Any other goes on with what it
/// holds, whatever the limits of pages and frames in the options are. Its new segments have room
/// for as many bytes as the longest one has, at least, in whole MiB.
///
/// `Folder`: it, or a file in it, was not listed, opened or made, `InUse` among the reasons.
/// `Store`: `BadConfig` if a number of the options is out of its range. `Lease`: more than 4,096
/// segments. Files without bytes may have been made then, and no other is written.
///
/// A folder that was open before is read once: it takes the time of a recovery, and memory for its
/// files, for one of them twice for a moment. Any other is looked at before anything is made in it:
/// that takes memory for all files twice for a moment, and twice the time of a recovery. So it is
/// with one that is refused before recovery has taken it.
pub fn with_store<R: System, C: Course<R>>(
    rt: &R,
    path: &str,
    options: &Options,
    course: C,
) -> Result<C::Answer, HomeFault>
    ensures answer { IfOk result (λ answer. C.says course answer) }
{
    let mut whole = Whole {
        course: Some(course),
    };
    with_store_in_legs(rt, path, options, &mut whole)
}

/// Begins a store in memory, runs the course over it, and drops it. Otherwise as `with_store`, but
/// that there is no folder.
pub fn with_store_in_memory<R: System, C: Course<R>>(
    rt: &R,
    options: &Options,
    course: C,
) -> Result<C::Answer, HomeFault>
    ensures answer { IfOk result (λ answer. C.says course answer) }
{
    let mut whole = Whole {
        course: Some(course),
    };
    with_store_at(rt, None, MAX_LEASES, options, &mut whole)
}
