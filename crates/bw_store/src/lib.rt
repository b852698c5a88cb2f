//! The page store with readers: the core, and what it publishes of itself to other threads.
//!
//! `Core` of `bw_core` is the store itself. This one holds a core, and shows its readers what is
//! durable: after each flush, settlement, cleaning, upgrade and rewriting. Each call is the core's,
//! and then the publication. A reader looks keys up in any thread, and waits for nobody; what it
//! saw it never loses. For that the pages are kept twice more, and each record is applied twice
//! more: who needs no readers takes a `Core`. `specs/Kept.antt` has what holds between calls,
//! `specs/Following.antt` what no call takes back, and `specs/Showing.antt` what a publication
//! leaves.
#![tactic(auto)]

mod cleaning;
mod config;
mod flush;
mod forget;
mod open;
mod publish;
mod questions;
mod reads;
mod reopen;
mod segments;
mod settle;
mod store;
mod turn;

pub use bw_core::{
    Cleaned, Core, Counters, Edge, Entry, OpenFault, PackedEntry, ReopenFault, StoreFault,
    TurnFault, Upgraded,
};
pub use bw_versions::{News, NoReader, ReadFault, Reader};
pub use config::Config;
pub use store::Store;
