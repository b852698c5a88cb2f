//! The words of the program `bwlog`: those of its command line, of a script's lines and of the
//! requests to a store that is served; and what is printed of refusals, and of what ends a run. No
//! store stands here, and no function has a clause.
#![tactic(auto)]

mod calls;
mod found;
mod miss;
mod mode;
mod options;
mod people;
mod printed;
mod refusal;
mod request;
mod script;
mod stop;
mod system;
mod table;
mod typed;

pub use calls::{
    LONGEST_OF_TABLES, MOST_BATCH, TableCall, TableLine, parse_change, parse_table_line,
};
pub use found::{print_found, write_found};
pub use miss::Miss;
pub use mode::{AsOf, Ends, LEASES, Manner, Mode, Options, Pace, Report, View, leases_in};
pub use options::{is_memory, mode_of};
pub use printed::{
    print, write_dump, write_entry, write_long_word, write_pair_line, write_pairs, write_value,
};
pub use refusal::Refusal;
pub use request::{Condition, Request, parse_request, signed_of};
pub use script::{Command, Fault, LONGEST, Reading, are_printable, parse, parse_group};
pub use stop::{Met, Stop, missed, no_input, refuse, refuse_after};
pub use system::{Host, System};
pub use table::PROTOCOL;
pub use typed::{NotTyped, Typed, parse_typed};
