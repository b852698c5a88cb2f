//! Tables of rows and of steps: a test goes through each to the first that goes otherwise than
//! expected.
//!
//! A row and a table answer by their traits, since a closure in a test is proved three times over.

use std::alloc::Global;

/// The row that went otherwise than expected, by its index: what a test fails with.
#[derive(Debug, Drop)]
pub struct WrongRow(pub usize);

/// The table, and its row or step that went otherwise than expected, by their indices.
#[derive(Debug, Drop)]
pub struct WrongStep(pub usize, pub usize);

/// A row of a table.
pub trait Row {
    /// Whether it goes as expected; none if memory was wanted.
    fn goes(&self, alloc: Global) -> Option<bool>;
}

/// A table of rows or of steps.
pub trait Table {
    /// The first that does not go as expected.
    fn wrong_step(&self, alloc: Global) -> Option<usize>;
}

/// Whether each row goes as expected, up to the first that does not.
pub fn rows_go<T: Row>(alloc: Global, rows: &[T]) -> Result<(), WrongRow> {
    for (i, row) in rows.iter().enumerate() {
        if row.goes(alloc) != Some(true) {
            return Err(WrongRow(i));
        }
    }
    Ok(())
}

/// Whether each table goes as expected, up to the first that does not.
pub fn tables_go<T: Table>(alloc: Global, tables: &[T]) -> Result<(), WrongStep> {
    for (i, table) in tables.iter().enumerate() {
        if let Some(step) = table.wrong_step(alloc) {
            return Err(WrongStep(i, step));
        }
    }
    Ok(())
}

/// The first row that does not go as expected; `goes` answers `None` if memory was wanted.
pub fn wrong_row<T, F: FnMut(&T) -> Option<bool>>(rows: &[T], mut goes: F) -> Option<usize>
    requires { F.IsAlwaysCallable goes }
{
    for (i, row) in rows.iter().enumerate() {
        if goes(row) != Some(true) {
            return Some(i);
        }
    }
    None
}

/// The first table that does not go as expected, and its step; `wrong_step` answers the first step
/// if memory was wanted before it.
pub fn wrong_table<T, F: FnMut(&T) -> Option<usize>>(
    tables: &[T],
    mut wrong_step: F,
) -> Option<(usize, usize)>
    requires { F.IsAlwaysCallable wrong_step }
{
    for (i, table) in tables.iter().enumerate() {
        if let Some(step) = wrong_step(table) {
            return Some((i, step));
        }
    }
    None
}

/// The first of these that does not hold.
pub fn first_false(said: &[bool]) -> Option<usize> {
    said.iter().position(|holds| !*holds)
}
