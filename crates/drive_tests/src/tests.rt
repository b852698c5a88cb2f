//! Runs of writers and streams as tables, each walked to the first step or row that goes otherwise
//! than expected.

mod boxes;
mod cleaned;
mod courses;
mod grouped;
mod meeting;
mod memory;
mod reading;
mod readme;
mod scripts;
mod steps;
mod streams;
mod telling;
mod walking;
