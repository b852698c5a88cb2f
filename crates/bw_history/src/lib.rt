//! What was taken: records with their writers, in groups, as a history keeps them, and the lanes
//! from which they come.
//!
//! `PackedEntry` is a record that was taken, with its writer; its bytes are shared with the pages
//! that have them. `Intake` is the lanes and the history together: what is taken from a lane stands
//! in the history at once, so each writer's records in the history are always those that its lane
//! gave, in order. `specs/History.antt` has what a history says: streams of writers, groups, cuts
//! and shares. `specs/Machine.antt` has the machine that a store is, `specs/Lives.antt` its lives,
//! and `laws` what holds of them.
#![tactic(auto)]

mod beside;
mod cuts;
mod entry;
mod history;
mod intake;
mod laws;
mod packed;

pub use cuts::{frames_between, push_many};
pub use entry::Entry;
pub use history::History;
pub use intake::Intake;
pub use laws::{
    a_stop_leaves_a_beginning, calls_are_steps, lives_go_on, lives_lose_nothing,
    what_is_durable_stays,
};
pub use packed::PackedEntry;
