//! One call that opens a store in memory or in a folder, gives a course the store with the feeds of
//! its writers, and ends it.
//!
//! `with_store` looks before it writes anything: what recovery refuses of the folder is refused,
//! and the folder stays as it is. Then it locks the folder, which is made if it is missing, goes on
//! from the store there or begins a new one, and runs the course. `with_store_in_memory` and
//! `with_segments` do the same over segments in memory. A `Course` is handed a `Home`: the store,
//! its feeds, and where its segments stand. The store is sound and the rings are those of the feeds
//! (`specs/Ready.antt`), and the course has to leave them so: each call of `Home` does. The home is
//! *begun*: nothing was put, and nothing was taken yet (`specs/Beginning.antt`). With one writer a
//! home is a map: `set`, `delete`, `get`, `next_at`, `scan`, and `keep`, which makes it durable
//! (`specs/Maps.antt`). A stop leaves one of its *cuts*: the map that is kept, or one that a later
//! group made, and a store that begins over its segments has that map (`specs/Cuts.antt`,
//! `specs/Laws.antt`).
#![tactic(auto)]

mod begun;
mod cleaning;
mod course;
mod fault;
mod home;
mod laws;
mod map;
mod memory;
mod opened;
mod options;
mod segments;
mod shared;
mod upgraded;

pub use bw_site::{Added, Found, HomeFault, System};
pub use course::{Course, Legs};
pub use fault::{GroupNotPut, MapFault, NotPut};
pub use home::Home;
pub use laws::{
    a_begun_home_begins, a_begun_home_is_a_map, a_begun_home_is_found, a_begun_home_keeps_its_map,
    a_map_goes_on, a_stop_leaves_a_cut,
};
pub use opened::{with_store, with_store_at, with_store_in_legs, with_store_in_memory};
pub use options::Options;
pub use segments::with_segments;
pub use shared::{SharedHome, SharedLegs, with_readers};
pub use upgraded::upgrade;
