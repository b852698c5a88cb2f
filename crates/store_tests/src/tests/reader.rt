//! A store with readers, with writers in threads, and two stores side by side: what readers see,
//! that a value never goes back, and that writers put while the store turns.

mod cases;
mod readers;
mod readme;
mod serving;
mod sides;
mod threads;
mod two_stores;
