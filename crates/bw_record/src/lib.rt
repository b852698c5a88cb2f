//! Keys, values, records, pages and blocks as values: what is stored, before anybody spells it as
//! bytes.
//!
//! A record is one change of one key. A pair is a key with its value, as pages hold it. Its bytes
//! stand once in memory, and whoever holds the pair shares them. So does a packed record. A leaf is
//! a page: its number, its low key, and its pairs in the order of their keys.
//!
//! A block says what became of one page: it is set (`Base`), changed by records (`Delta`) or split
//! in two (`Split`). A frame is the blocks that one flush writes. `version` has the numbers in
//! which the two formats differ.
//!
//! Lengths are kept by the types: a `Key` has 1 to 128 bytes and a `Value` 0 to 512, so nobody
//! above has to ask. Keys are ordered by their bytes, a beginning before its continuation.
#![tactic(auto)]

mod block;
mod heads;
mod key;
mod leaf;
pub mod limits;
mod ops;
mod packed;
mod pair;
mod record;
pub mod version;

pub use block::{Block, Blocks, Frame, Place};
pub use heads::{Skip, beginning, behind, compare, head_of};
pub use key::{Key, LengthError, Value, is_before};
pub use leaf::{Leaf, Low, Pairs};
pub use ops::Ops;
pub use packed::Packed;
pub use pair::{Pair, ascend};
pub use record::Record;
