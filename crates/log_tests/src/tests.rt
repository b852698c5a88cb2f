//! The log, and its cleaner and recovery.

mod care;
mod log;
