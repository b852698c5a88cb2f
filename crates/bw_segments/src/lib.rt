//! The modes of the program `bwlog` over segments as they stand, those of a folder or lines in hex:
//! `scan`, `print`, `stats` and `picture` say what they hold; `verify`, `copy`, `salvage` and
//! `restore` find damage, and make folders of others, by `bw_rescue`; `follow` keeps one up to date
//! with another, by `bw_follow`; and `upgrade` brings segments of format 1 to format 2.
#![tactic(auto)]

mod followed;
mod heed;
mod images;
mod judged;
mod looks;
mod numbers;
mod rescued;
mod scanned;
mod upgraded;
mod verdicts;

pub use followed::follow;
pub use heed::{tell_far, tell_located, tell_unheeded};
pub use looks::look;
pub use rescued::{compact, copy, restore, salvage, verify};
pub use scanned::scan;
pub use upgraded::{upgrade, upgrade_folder};
