//! Calls on tables in a home: what each answers, and which tables stand after it.
//!
//! A home stands for tables by what was put into it. All calls go to it by the same ways (`ways`):
//! a value is read, the pair next to a key is found, and a group is written.
//!
//! Each call says which tables it leaves, and which a stop in the middle of it may leave: the old
//! ones, or those that it makes. So over any number of lives what is found is the tables as some
//! call left them (`specs/Lives.antt`, `specs/Laws.antt`).
#![tactic(auto)]

mod batching;
mod collecting;
mod fault;
mod laws;
mod listing;
mod naming;
mod opening;
mod reading;
mod walking;
mod ways;
mod writing;

pub use batching::{Change, batch};
pub use fault::TableFault;
pub use laws::{a_stop_leaves_tables, an_empty_store_is_lawful, tables_go_on};
pub use listing::{last_name, name_before};
pub use naming::{create, drop_table};
pub use opening::{keep, open};
pub use reading::get;
pub use walking::{first, next_above, next_at};
pub use writing::{delete, put};
