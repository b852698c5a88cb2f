//! What a folder asks of the system.

use std::fs::File;
use std::rt::Files;
use std::sync::Wait;

/// A handle that gives memory and files, and by which a call may wait.
pub trait System: AllocGlobal + Files<File = File> + Wait + Clone + Drop {}

impl<R: AllocGlobal + Files<File = File> + Wait + Clone + Drop> System for R {}
