//! People's commands on tables: a table is made, goes away and is named; keys of it are put, got,
//! deleted, listed and counted; and whole sets come in and go out as `bw_pairs` spells them.
//!
//! `perform` does one `TablesTask` of `bw_keys` over a folder, by the calls of `bw_calls`. Each task
//! opens the folder for itself, also one that only reads, and finishes first what a stop left half
//! done. Before each call room is made for all that it writes (`bw_keys::Tending`), since no segment
//! is added within one. What writes ends by making durable what it wrote.
#![tactic(auto)]

mod changes;
mod deletes;
mod fault;
mod import;
mod listing;
mod names;
mod needs;
mod reading;
mod run;
mod task;
mod walk;
mod words;

pub use task::perform;
