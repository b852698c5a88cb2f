//! What recovery found if a store goes on.

ghost use Rattle.bw_care.specs.Views.{IsSound};

use bw_care::Recovered;

/// What recovery found in the segments of a store, or of a store that begins anew in their place.
#[derive(Debug, Clone, Copy, PartialEq, Eq)]
pub struct Found {
    /// How many segments are live.
    pub live: u32,
    /// How many have no byte.
    pub spares: u32,
    /// How many held a part of a header, and were dropped.
    pub dropped: u32,
    /// The number of the first whole frame; 0 if there is none.
    pub first: u64,
    /// The number of the last whole frame; 0 if there is none.
    pub last: u64,
    /// How many bytes follow the last whole frames of all segments.
    pub tail: u64,
}

impl Found {
    ghost use Rattle.std.specs.Prelude.{◌≡◌, length};
    ghost use Rattle.bw_care.specs.Views.{seen};

    /// What was recovered, in numbers.
    pub fn of(found: &Recovered) -> Found
        requires { IsSound found.now.log holding }
        ensures live { result.live ≡ length (seen found.now.log holding).live }
        ensures spares { result.spares ≡ length (seen found.now.log holding).spares }
        ensures dropped { result.dropped ≡ found.now.dropped }
        ensures first { result.first ≡ found.now.first }
        ensures last { result.last ≡ found.now.last }
        ensures tail { result.tail ≡ found.now.tail }
    {
        Found {
            live: found.log.live(),
            spares: found.log.spares(),
            dropped: found.dropped,
            first: found.first,
            last: found.last,
            tail: found.tail,
        }
    }

    /// No frame: so many spares, and so many bytes that are gone.
    pub fn none(spares: usize, bytes: u64) -> Found {
        Found {
            live: 0,
            spares: u32::try_from(spares).unwrap_or(u32::MAX),
            dropped: 0,
            first: 0,
            last: 0,
            tail: bytes,
        }
    }
}
