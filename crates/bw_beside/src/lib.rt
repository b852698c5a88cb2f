//! A folder is read, also beside somebody who writes it: what is read stood there at one of its
//! frames; and a new one is made.
//!
//! `open` takes the lock beside other readers if nobody writes. If somebody does, the files are
//! read as they stand (`standing`), in an order by which no segment is missing unseen (`Row`), and
//! recovery says whether they are those of one moment. If it refuses them, or a file became another
//! one meanwhile, they are read once more. Why that is enough stands in `docs/FORMAT.md`, "A folder
//! that is read while it is written". Nothing in a folder that is read is made or written.
//!
//! What recovery says of segments that were read is asked by `ask_images` and `ask_owned`; `ask`
//! asks a folder that somebody writes, as `open` reads it.
//!
//! Who goes on reading what is added (`bw_follow`) looks at the live segments by a `Row` too, and
//! reads single files.
//!
//! A new folder is made under another name, beside its own, until it is whole (`Making`): its own
//! with `.partial` at the end. What a stop or a refusal left under that name is known by a file in
//! it (`begin`), and whoever makes that folder next takes it over; what anybody else has under that
//! name is refused, and stays. `ends_of` says in which pieces a segment is written there.
#![tactic(auto)]

mod asking;
mod files;
mod found;
mod host;
mod miss;
mod opened;
mod partial;
mod pieces;
mod row;
mod standing;

pub use asking::{Ask, ask_images, ask_owned};
pub use files::{bytes_in, header_in, stretch_in, sums_from, sums_in, sums_length};
pub use found::{Found, found_in};
pub use host::Host;
pub use miss::Miss;
pub use opened::{Asked, Opened, TRIES, ask, open};
pub use partial::{
    Making, already_there, begin, is_left, is_there, partial_of, refuse_there, remove_left, rename,
};
pub use pieces::{ends_of, frames_in};
pub use row::{Live, Row};
pub use standing::{Stood, is_unfinished};
