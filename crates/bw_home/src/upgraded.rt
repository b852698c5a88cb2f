//! The store in a folder is brought to format 2, where it stands.

use crate::course::Legs;
use crate::home::Home;
use crate::opened::with_store_at;
use crate::options::Options;
use bw_core::{StoreFault, Upgraded};
use bw_site::{HomeFault, Old, System, look_for_old};

/// An upgrade, one try a leg: if the spares do not suffice, a further one is asked for.
#[derive(Drop)]
struct Upgrades {
    old: Old,
}

impl<R: System> Legs<R> for Upgrades {
    type Answer = Result<Upgraded, HomeFault>;

    fn leg(&mut self, rt: &R, home: &mut Home) -> Option<Result<Upgraded, HomeFault>> {
        match home.upgrade(rt) {
            Ok(Upgraded { segments, .. }) => Some(Ok(Upgraded {
                segments,
                pages: self.old.pages,
                frames: home.next_frame().wrapping_sub(self.old.next),
            })),
            Err(HomeFault::Store(StoreFault::NoSegment)) => {
                match home.make_spare(rt) {
                    Ok(()) => None,
                    Err(fault) => Some(Err(fault)),
                }
            }
            Err(fault) => Some(Err(fault)),
        }
    }
}

/// Upgrades the store in the folder of this path, which has to be there: each page that was last
/// set in a segment of format 1 is written again in format 2, and then the files of these segments
/// are emptied, the oldest first. It has a desk of so many leases, and adds spares if they run out:
/// a new segment has room for the longest frame, and for as many bytes as the longest file has.
///
/// A stop at any point leaves a folder with the same pages, and the next call finishes what it
/// left.
///
/// The folder is looked at first. What recovery refuses of it is refused, `Recovery`. Then it is
/// refused `Store`: `NothingOld`, if no segment has format 1. It stays as it is then. `Folder`: it,
/// or a file in it, was not opened, made or emptied. `Lease`: there are fewer leases than segments.
///
/// It takes memory for all files twice for a moment, and three times the time of a recovery, beside
/// what `Core::upgrade` costs, at most once for each spare that is added.
pub fn upgrade<R: System>(rt: &R, path: &str, leases: u32) -> Result<Upgraded, HomeFault> {
    let old = look_for_old(rt, path, leases)?;
    // Nobody puts.
    let options = Options {
        writers: 1,
        queue_groups: 1,
        segments: 0,
        capacity: old.capacity,
        ..Options::default()
    };
    let mut upgrades = Upgrades { old };
    with_store_at(rt, Some(path), leases, &options, &mut upgrades)?
}
