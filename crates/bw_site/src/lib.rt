//! Where the segments of a store stand: in memory, or in the files of a folder, and what is looked
//! at, made and emptied there beside the store.
//!
//! A `Site` makes segments, each with a lease of its desk. A `Stock` is a site that knows which
//! file is still to be emptied, and which segments were made and are no spares yet: a stop must
//! never show a later segment gone and an earlier one still there. `look` reads a folder before
//! anything is written in it.
#![tactic(auto)]

mod beginning;
mod fault;
mod folder_look;
mod found;
mod site;
mod stock;
mod system;

pub use beginning::{Beginning, NotHeld, beginning_of, held_in};
pub use fault::HomeFault;
pub use folder_look::{Old, copy_of, look, look_for_old};
pub use found::Found;
pub use site::{Made, Site, count_over, desk_of, taken};
pub use stock::{Added, Stock};
pub use system::System;
