//! Keys and values of a folder for people and for pipes: one is put, some are got or deleted, all
//! are listed and counted, and whole sets come in and go out as `bw_pairs` spells them.
//!
//! `perform` does one `Task` over a folder. What reads opens the folder beside other readers, or
//! beside whoever writes it (`bw_beside`), looks at it as recovery does, and changes nothing; what
//! writes opens it for itself, by `bw_home`, makes room by itself (`Tending`), and ends with a
//! flush.
#![tactic(auto)]

mod ahead;
mod changes;
mod deletes;
mod fault;
mod filling;
mod full;
mod held;
mod leases;
mod listing;
mod load;
mod measure;
mod pages;
mod plan;
mod reading;
mod records;
mod shortening;
mod span;
mod tables;
mod tables_task;
mod task;
mod tending;

pub use changes::{Changed, Effect, Import, Loaded, options};
pub use fault::{KeysFault, TableRefusal};
pub use filling::Filling;
pub use full::Admission;
pub use leases::{FEW, leases_of};
pub use listing::{Order, Parts, Style};
pub use load::{Load, Wanted, refused_spare};
pub use measure::last_frame;
pub use pages::{check_store, count_in};
pub use plan::Plan;
pub use reading::{count_of, count_stretch, list_stretch, value_of, values_of};
pub use records::{Input, Records, Single};
pub use span::{Span, above};
pub use tables::has_tables;
pub use tables_task::TablesTask;
pub use task::{Listed, Range, Task, Told, perform};
pub use tending::{Tending, forget};
