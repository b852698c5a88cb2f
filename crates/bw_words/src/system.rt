//! What the program asks of the system beside its streams.

pub use bw_home::System;
use std::thread::Threads;
use std::time::Clock;

/// One by which a call may start threads, too, and which knows the time.
pub trait Host: System + Threads + Clock {}

impl<R: System + Threads + Clock> Host for R {}
