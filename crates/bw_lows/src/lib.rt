//! The index of low keys: the page of each, and of the greatest that is not above a key.
//!
//! Lows stand in ascending order in blocks of at most 256, and a block that is full is halved
//! before it takes one more: no change moves more than a block's lows and the row of blocks. A low
//! of at most eight bytes is known by its head, which is its first eight bytes as a number, and its
//! length; it takes forty bytes. A longer one has a run of its own besides.
//!
//! Lows that stand next to each other often begin with the same bytes, and their heads are all one
//! then. So a block has a row of other heads, taken after the bytes that its lows share, at eight
//! bytes a low; and so have the first lows of all blocks. The pages stand in a row of their own.
//!
//! A search counts heads in the row of the blocks' first lows, and then in that of one block. It
//! reads whole lows only if a head is the key's own, and halves these; so it does if there is no
//! row.
#![tactic(auto)]

mod block;
mod blocks;
mod entry;
mod lows;
mod row;

pub use lows::LowIndex;
