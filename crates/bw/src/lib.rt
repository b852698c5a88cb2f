//! The door: all that a program names which keeps a store in its own process.
//!
//! `with_store` opens a folder, and hands a `Course` a `Home`. With one writer a home is a map: `set`,
//! `delete`, `change` for several at once, `get`, `next_at`, `prev_at`, `scan`, and `keep`, which
//! makes all of it durable. `get_shared` and `scan_shared` copy no pair of a page in memory. With
//! several writers each has a queue of its own, a `Feed`, which may go to another thread.
//! `with_readers` hands out a `SharedHome`, whose `Reader`s may. A `Walk` goes over the pairs of a
//! home whose keys begin with a prefix.
//!
//! Each name stands in the crate that proves it; whoever needs more of that crate lists it too.
#![tactic(auto)]

mod keys;
mod walk;

pub use bw_codec::{Key, LengthError, Pair, Record, Value};
pub use bw_core::{Cleaned, StoreFault, TurnFault, Upgraded};
pub use bw_home::{
    Course, Found, GroupNotPut, Home, HomeFault, Legs, MapFault, NotPut, Options, SharedHome,
    SharedLegs, System, upgrade, with_readers, with_segments, with_store, with_store_at,
    with_store_in_legs, with_store_in_memory,
};
pub use bw_ring::{Feed, FullGroup, Group};
pub use bw_store::Reader;
pub use keys::after;
pub use walk::Walk;
