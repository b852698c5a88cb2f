//! Digests of the pieces of a file that grows by appends: what is changed in it is found when it is
//! read again.
//!
//! A *sum* is 24 bytes: where a piece of the file ends, the digest of its bytes, and a mark by
//! which the sum follows the one before it. A *row* of sums stands in a file of its own, beside the
//! bytes, and may lag behind them, or end in anything that a crash left: what does not follow is
//! not looked at. Here is the layout and the check; there are no files.
#![tactic(auto)]

mod checking;
mod digest;
pub mod laws;
mod row;
mod sum;

pub use checking::{Damage, check, told_end};
pub use row::Row;
pub use sum::{SUM_LEN, Sum};
