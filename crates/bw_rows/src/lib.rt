//! Tables in a store of small pairs: how their rows and values are spelled, which tables a plain
//! map stands for, and the law of each group that a call on them writes.
//!
//! A table is a name and a map from keys to values of up to 16 MiB. The store below has keys of 1
//! to 128 bytes, values of up to 512, and groups of up to four records that go in as one step. A
//! longer value is cut into chunks under a number of its own, and its row names that number. While
//! a value is not whole, or no longer wanted, its number is doomed: that is one pair of the store,
//! which goes in or out in the very group that makes the step. So the tables are a function of the
//! plain map.
//!
//! Here are bytes and plain maps only: no store is opened.
#![tactic(auto)]

mod chunks;
mod keys;
mod laws;
pub mod limits;
mod names;
mod rows;

pub use chunks::{chunk, chunk_count};
pub use keys::{
    aside_key, chunk_key, doomed_key, free_key, gone_key, mark_key, name_key, read_aside_key,
    read_row_key, row_key, stands_key,
};
pub use laws::{
    a_batch_is_gathered, a_batch_is_one_step, chunks_make_the_value, each_group_is_lawful,
    tables_come_and_go, the_order_is_kept, the_worked_bytes,
};
pub use names::{Name, Number, RowKey, TableNumber};
pub use rows::{Head, is_no_row, no_row, whole};
