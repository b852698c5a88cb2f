//! Questions of the current segment, and of the spare that would follow it.
//!
//! A frame is sealed once, and its cut stands from then on. So whether there is room for it, and
//! whether the segment may be asked at all, is looked at before the seal, only by lengths. A
//! segment whose count of failures is at its greatest is asked nothing: a failure that cannot be
//! counted would count as none.

ghost use Rattle.std.specs.Prelude.{◌≡◌, map, slice_get};
ghost use Rattle.bw_log.specs.Appends.{has_room, is_worn, last_of};

use bw_device::{Segment, capacity_of, failures_of, len_of};

/// Whether the last box has room for so many bytes more.
pub(crate) fn last_has_room(all: &[Box<dyn Segment>], len: u32) -> bool
    ensures { result ≡ has_room len (last_of (map holding all.now)) }
{
    if all.is_empty() {
        return false;
    }
    let last = all.len() - 1;
    let used = len_of(all, last);
    let capacity = capacity_of(all, last);
    u64::from(len) <= capacity - used
}

/// Whether the last box could not count one more failure.
pub(crate) fn is_last_worn(all: &[Box<dyn Segment>]) -> bool
    ensures { result ≡ is_worn (last_of (map holding all.now)) }
{
    if all.is_empty() {
        return false;
    }
    failures_of(all, all.len() - 1) == u64::MAX
}

/// Whether the first box could not count one more failure.
pub(crate) fn is_first_worn(all: &[Box<dyn Segment>]) -> bool
    ensures { result ≡ is_worn (slice_get (map holding all.now) 0) }
{
    if all.is_empty() {
        return false;
    }
    failures_of(all, 0) == u64::MAX
}
