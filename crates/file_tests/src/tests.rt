//! Folders as tables of steps, each walked to the first step that goes otherwise than expected.

mod again;
mod failing;
mod folders;
mod listed;
mod lost;
mod recovered;
mod steps;
mod stored;
mod summed;
mod unsettled;
mod watching;

use std::fs;
use std::test::*;

/// The system, watched.
type Watched = watching::Watched<HostRuntime>;

/// A folder and its files are gone, if they were there.
fn clear(rt: HostRuntime, path: &str) {
    let _ = fs::remove_dir_all(&rt, path);
}

/// What went otherwise than expected in a folder, which is gone then.
fn cleared(
    rt: HostRuntime,
    path: &str,
    wrong: Option<(&'static str, usize)>,
) -> Option<(&'static str, usize)> {
    clear(rt, path);
    wrong
}
