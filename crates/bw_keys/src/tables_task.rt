//! What is asked of the tables of a folder. `bw_named` does it.

use crate::changes::Import;
use crate::listing::Style;
use crate::task::Task;

/// What is done with the tables of a folder, by words of the command line.
#[derive(Debug, Drop)]
pub enum TablesTask<'a> {
    /// Their names are listed.
    Names,
    /// One of this name is made.
    Create(&'a str),
    /// One goes away.
    Drop(&'a str),
    /// This is done with the keys of one.
    Table(&'a str, Task<'a>),
    /// The databases of a dump go into tables of their names.
    Import(Import),
    /// All are exported as the databases of a dump.
    Export(Style),
}

impl TablesTask<'_> {
    /// Whether it reads the input.
    pub fn reads_input(&self) -> bool {
        match self {
            TablesTask::Table(_, task) => task.reads_input(),
            TablesTask::Import(_) => true,
            _ => false,
        }
    }
}
