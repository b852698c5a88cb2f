//! Flush buffers: all blocks of a call or none, and none after the seal.
//!
//! A buffer is a frame in the making. Callers see its blocks. A Delta joins the last block of its
//! page if that is a Delta too, so a page that is changed often has one Delta a frame. The bytes
//! are laid out at the seal; until then each block is a row, and its bytes are pieces of an arena.
//! A sealed buffer gives out no more space: it is what the log appends as one unit.
//!
//! No put and no seal is refused memory: `Buffer::new` reserves all that the frame's limit can ever
//! need, since a block has eight bytes at least and a piece three. And a call's blocks enter all or
//! none, since whether they fit is worked out before the first of them enters, with what joins.
//!
//! A piece never moves once it is in the arena. So a record that joins an earlier Delta costs what
//! its own bytes cost, however many blocks came between, and the place that was given of a block
//! stays true to the end.
#![tactic(auto)]

mod back;
mod buffer;
mod fault;
mod index;
mod layout;
mod mark;
mod rows;

pub use buffer::Buffer;
pub use fault::PutError;
pub use mark::Mark;
