//! Rows and steps, each tried again and again with one allocation more before the one that is
//! refused.

mod file;
mod page;
mod store;
