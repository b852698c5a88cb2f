//! The program `bwlog`: `replay` runs a script over a store, line by line, and prints what each
//! line answers; `serve` answers the requests of another program, and `shell` the lines of a
//! person, by the same steps. With `--tables` a program's requests are calls on tables. The other
//! modes stand in `bw_segments`, `bw_writers` and `bw_keys`, and the words of all of them in
//! `bw_words`.
//!
//! A script has a `Home` before it, which `bw_home` opens: a store over segments in memory or in a
//! folder, and a feed for each writer. `run` is the whole program `bwlog` over any reader and
//! writers.
#![tactic(auto)]

mod answers;
mod asking;
mod calls;
mod doing;
mod events;
mod keyed;
mod mark;
mod noting;
mod program;
mod replay;
mod rows;
mod script;
mod shell;
mod tabled;
mod tables;
mod telling;
mod tended;

pub use program::run;
