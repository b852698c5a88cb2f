//! The groups that calls on tables write to a store of small pairs.
//!
//! A call on tables is a row of groups, each of which the store takes as one step. One of them is
//! the step of the call: before it the tables are the old ones, after it the new ones. The contract
//! of each group says so of every lawful map, so it does not matter where a stop comes.
#![tactic(auto)]

mod groups;
mod laws;

pub use groups::{
    aside_row, batch_end, batch_step, carry_row, chunk_group, create_step, delete_step, drop_row,
    drop_step, first_group, free_group, long_step, short_step,
};
pub use laws::a_put_is_one_step;
