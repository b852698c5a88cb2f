//! A folder that follows another one: what is flushed there stands here soon after, and stays here.
//!
//! A `Follower` holds the lock of its own folder, and goes by rounds. A round reads what the
//! followed folder has more, beside its writer, and appends it: the oldest segment first, and in
//! each the bytes before their sums (`target`). What that one gave up is given up here too, at the
//! end of a round, once recovery took what is left without it. So whatever stops a round, the
//! folder is a store as of some frame of the other one, and never of an earlier frame than before.
//! If the other folder gave up more than this one has, the round is a whole copy that takes its
//! place (`whole`). Why that is enough stands in `docs/FORMAT.md`, "A folder that follows another
//! one".
#![tactic(auto)]

mod fault;
mod files;
mod follower;
mod growth;
mod halt;
mod held;
mod judged;
mod pen;
mod target;
mod whole;

pub use fault::FollowFault;
pub use follower::{Followed, Follower};
