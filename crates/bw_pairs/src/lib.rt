//! Pairs as text: a line for each, in a spelling that gives back any bytes, and the dumps of other
//! stores.
//!
//! `Pairs` reads an input in bounded memory, and gives the line of what is no pair. `Rows` reads
//! the pairs of tables, whose values are longer. What writes takes any output.
#![tactic(auto)]

mod buffer;
mod csv;
mod dump;
mod fault;
mod input;
mod json;
pub mod laws;
mod lines;
mod long;
mod rows;
mod spelling;
mod tabs;

pub use csv::{csv_del_of, csv_put_of, write_csv, write_csv_field};
pub use dump::{
    Letters, key_in, value_in, write_dumped, write_end, write_header, write_named_header,
};
pub use fault::{LineFault, PairsFault};
pub use input::{Pairs, Skipped, Source};
pub use json::{json_del_of, json_put_of, write_json};
pub use lines::{Lines, READS};
pub use long::{
    WordFault, limited, long_from, long_of, name_from, name_of, row_key_from, row_key_of,
};
pub use rows::{Item, Row, Rows};
pub use spelling::{Spelling, key_from, key_of, value_from, value_of, write_line, write_word};
pub use tabs::{del_of, put_of, raw_del_of, raw_put_of, write_pair};
