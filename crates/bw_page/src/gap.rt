//! Keys between which no page has a pair, as far as a walk has found.
//!
//! A queue is emptied at its lower end. The pages there have no pairs, and each walk from below them
//! would look at all of them. So the pages remember one gap: from the key at which a walk began up
//! to the low to which it came. A record of a key in it ends it. Of walks in several places the one
//! that passes by the most pages has the gap: each page that another passes by takes one from it.

ghost use Rattle.std.specs.Prelude.{◌≡◌};
ghost use Rattle.bw_leaf.specs.Changed.{Map};
ghost use Rattle.bw_page.specs.Ahead.{HasCome};
ghost use Rattle.bw_page.specs.Gap.{IsGap, IsPassed, is_inside, is_at};

use bw_codec::{Key, is_before};

/// No key at or above the one, and below the other, has a value.
#[derive(Drop)]
pub(crate) struct Gap {
    from: Key,
    to: Key,
    /// How many pages it passes by, less what other walks took from it.
    pages: u32,
}

impl Gap {
    // Whether a key is in it.
    fn has(&self, key: &[u8]) -> bool
        ensures { result ≡ is_inside key.now self.now }
    {
        !is_before(key, self.from.as_slice()) && is_before(key, self.to.as_slice())
    }

    // Whether a key is in it, or is its end.
    fn touches(&self, key: &[u8]) -> bool
        ensures { result ≡ is_at key.now self.now }
    {
        !is_before(key, self.from.as_slice()) && !is_before(self.to.as_slice(), key)
    }
}

/// The key at which a walk from this one may go on: the end of the gap, if the key is in it.
pub(crate) fn past(gap: &Option<Gap>, key: &Key) -> Key
    ensures { (map : Map) → IsGap map gap.now → HasCome map key.now result }
{
    match gap {
        Some(gap) if gap.has(key.as_slice()) => gap.to.copy(),
        _ => key.copy(),
    }
}

/// The gap, unless a record of this key ends it.
pub(crate) fn pass(gap: &mut Option<Gap>, key: &[u8])
    ensures { IsPassed gap.old key.now gap.new }
{
    let is_ended = match gap {
        Some(gap) => gap.has(key),
        None => false,
    };
    if is_ended {
        *gap = None;
    }
}

/// A walk has come from one key to another: they are a gap with the one before if they touch it, or
/// in its place if that passes by no more pages.
pub(crate) fn grow(gap: &mut Option<Gap>, from: &Key, to: &Key)
    ensures { (map : Map) → IsGap map gap.old → HasCome map from.now to.now → IsGap map gap.new }
{
    match gap {
        Some(gap) if gap.touches(from.as_slice()) => {
            gap.to = to.copy();
            gap.pages = gap.pages.saturating_add(1);
        }
        Some(gap) if gap.pages > 0 => {
            gap.pages -= 1;
        }
        _ => {
            *gap = Some(Gap {
                from: from.copy(),
                to: to.copy(),
                pages: 1,
            });
        }
    }
}
