//! The cleaner and recovery: worked boxes, whole, cut, changed and exchanged, as tables of rows,
//! each walked to the first row that goes otherwise than expected.

mod boxes;
mod changed;
mod cleaned;
mod many;
mod recovered;
mod steps;
mod upgraded;
