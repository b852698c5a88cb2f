//! Room that is made between two legs.

ghost use Rattle.bw_home.specs.Sharing.{IsShared};

use bw_core::StoreFault;
use bw_device::NotTaken;
use bw_home::{HomeFault, SharedHome};
use bw_words::{Host, Miss, Options, Pace};

/// What a cleaning writes beside the pages, at most: the heads of its frames, and of the segments
/// that it begins.
const LOST: u64 = 4_096;

/// A spare that was made.
#[derive(Debug, Clone, Copy, PartialEq, Eq)]
pub enum Made {
    /// In place of the oldest segment.
    Again,
    /// A further one.
    Further,
}

/// Whether the room of the oldest segment is to come back: so many segments are live as the pace
/// says, and it pays.
pub fn is_due(home: &SharedHome, pace: Pace) -> bool
    requires { IsShared home.now holding }
{
    pace.clean_at != 0 && home.store.live() >= pace.clean_at && home.store.pays()
}

/// Whether a cleaning of the oldest segment writes at most half of what it gives back, and makes
/// the log shorter.
fn wins(home: &SharedHome, capacity: u64) -> bool
    requires { IsShared home.now holding }
{
    match home.store.needed(0) {
        Some(needed) if home.store.live() > 1 => {
            needed < (capacity / 2).saturating_sub(LOST) && home.store.pays()
        }
        _ => false,
    }
}

// Whether the oldest segment was given up for a spare; `false` if there was too little room for
// that.
fn clean_for_room<R: Host>(rt: &R, home: &mut SharedHome) -> Result<bool, Miss>
    requires { IsShared home.old holding }
    ensures { IsShared home.new holding }
{
    match home.clean(rt) {
        Ok(_) => Ok(true),
        Err(HomeFault::Store(StoreFault::NoSegment)) => Ok(false),
        Err(fault) => Err(Miss::from(fault)),
    }
}

// A further segment, if there are fewer than are added by themselves.
fn further<R: Host>(rt: &R, home: &mut SharedHome, most: u32) -> Result<Option<Made>, Miss>
    requires { IsShared home.old holding }
    ensures { IsShared home.new holding }
{
    let segments = home.store.live().saturating_add(home.store.spares());
    if segments >= most {
        return Ok(None);
    }
    match home.make_spare(rt) {
        Ok(()) => Ok(Some(Made::Further)),
        Err(HomeFault::Lease(NotTaken::NoLease)) => Ok(None),
        Err(fault) => Err(Miss::from(fault)),
    }
}

// The room of the oldest segment, or a further one if there was too little for that.
fn won_or_further<R: Host>(rt: &R, home: &mut SharedHome, most: u32) -> Result<Option<Made>, Miss>
    requires { IsShared home.old holding }
    ensures { IsShared home.new holding }
{
    if clean_for_room(rt, home)? {
        return Ok(Some(Made::Again));
    }
    further(rt, home, most)
}

/// Makes room if the options want it and one spare is left, or none: by a cleaning if that pays,
/// and else by a further segment; `None` if there is no need, or no way. What a leg appends fits
/// one segment, so with two spares it finds its room.
pub fn make_room<R: Host>(
    rt: &R,
    home: &mut SharedHome,
    options: &Options<'_>,
) -> Result<Option<Made>, Miss>
    requires { IsShared home.old holding }
    ensures { IsShared home.new holding }
{
    if options.most == 0 || home.store.spares() > 1 {
        return Ok(None);
    }
    let most = options.most;
    if wins(home, options.store.capacity) {
        return won_or_further(rt, home, most);
    }
    further(rt, home, most)
}
