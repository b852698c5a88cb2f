//! Readers of what a store has published, by versions: a look-up waits for nobody, and what a
//! reader saw or heard it never loses.
//!
//! What is published is a list of batches, each with the entries from one published cut of the
//! history to a later durable one; the first also brings the leaves at which the store started.
//! Every batch is entered in a book, of which each version that readers are shown, each news and
//! each reader has a beginning: its front. Two fronts of one book are beginnings of one list, so a
//! comparison of two numbers says which is the longer. `specs/Keeping.antt` has the rule that holds
//! at every step of writer and readers, `specs/Heard.antt` what a reader saw and heard, and
//! `specs/Versioned.antt` what the store's end of it is.
#![tactic(auto)]

mod board;
mod book;
mod laws;
mod publisher;
mod reader;
mod threads;
mod versions;
mod view;
mod writer;

pub use board::{Batch, Board};
pub use laws::batches_are_joined;
pub use publisher::{Publisher, Unpublished};
pub use reader::{News, NoReader, ReadFault, Reader, ReaderOf};
pub use versions::Versions;
