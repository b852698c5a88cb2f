//! A core and a store, and a store beside readers and writers in threads.

mod reader;
mod store;
