//! What a reading asks of the system.

use std::fs::File;
use std::rt::Files;

/// A handle that gives memory and files.
pub trait Host: AllocGlobal + Files<File = File> + Clone + Drop {}

impl<R: AllocGlobal + Files<File = File> + Clone + Drop> Host for R {}
