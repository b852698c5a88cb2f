//! Keys, values, records, blocks and frames as bytes: each has one spelling, and reading gives back
//! what was written.
//!
//! A frame is what one flush writes: a head of 20 bytes and blocks. A block says what became of one
//! page: it is set (`Base`), changed by records (`Delta`) or split in two (`Split`).
//! `docs/FORMAT.md` has the tables. The spelling is a function of the value (`specs/Grammar.antt`);
//! reading is its inverse, and says of all other bytes whether they are a frame that was torn or no
//! frame at all.
//!
//! A value has one spelling, since each length stands before what it measures, each number has its
//! width, and keys ascend. So a reader knows after each part where the next one begins, and no two
//! values share their bytes. A proper beginning of a frame is neither a frame nor begins one, since
//! its head says how long it is (`laws`).
//!
//! Both formats are one grammar over a version's numbers (`specs/Version.antt`): either is read,
//! each with its own limits, and only format 2 is written.
#![tactic(auto)]

mod check;
mod decoder;
mod encoder;
mod fault;
mod head;
pub mod laws;
mod lent;
pub mod limits;
mod outline;
mod parts;
mod words;

pub use bw_record::{
    Block, Blocks, Frame, Key, Leaf, LengthError, Low, Ops, Packed, Pair, Pairs, Place, Record,
    Value, ascend, compare, is_before,
};
pub use check::{FrameSeen, check_frame};
pub use decoder::{read_block, read_frame, read_header};
pub use encoder::{
    base_length, block_length, encode_block, encode_frame_head, encode_header, frame_cells,
    header_cells, ops_length, record_length, write_block, write_delta_head, write_ops,
};
pub use fault::CodecFault;
pub use head::{FrameRead, Head, Header, HeaderRead};
pub use lent::{find_frame, lent_base, lent_delta, lent_op, lent_pair, lent_split};
pub use outline::Outline;
