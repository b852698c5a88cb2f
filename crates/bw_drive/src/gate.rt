//! What stands around each group's puts.

use std::alloc::{AllocError, Global};
use std::sync::atomic::{AtomicBool, AtomicU64, Ordering};
use std::thread;

/// Is called for each group before the first of its puts and after the last, in its writer's
/// thread. Writers and groups are numbered from 0.
pub trait Gate: Sync {
    fn before(&self, writer: usize, index: u64);

    fn after(&self, writer: usize, index: u64);

    /// Is called in the store's thread, after each flush and after the last settle, with how many
    /// records of the writer are durable: `Store::durable_of`. So a writer may answer its own
    /// client.
    fn durable(&self, _writer: usize, _count: u64) {}
}

/// Lets every group pass.
#[derive(Clone, Copy)]
pub struct OpenGate;

impl Gate for OpenGate {
    fn before(&self, _writer: usize, _index: u64) {}

    fn after(&self, _writer: usize, _index: u64) {}
}

/// Says whether all writers ran at once. No clause speaks of it: another thread may change a flag
/// at any time.
#[derive(Drop)]
pub struct MeetGate {
    /// Which writers came to their first group.
    arrived: Vec<AtomicBool>,
    /// How many of them found all others there.
    found: AtomicU64,
    /// How often each looks.
    turns: u64,
}

impl MeetGate {
    /// A gate for so many writers, each of which looks for the others at most so many times, before
    /// its first group.
    pub fn new(alloc: Global, writers: usize, turns: u64) -> Result<MeetGate, AllocError> {
        let mut arrived = Vec::with_capacity(alloc, writers)?;
        for _ in 0..writers {
            arrived.push(AtomicBool::new(false))?;
        }
        Ok(MeetGate {
            arrived,
            found: AtomicU64::new(0),
            turns,
        })
    }

    /// Whether every writer found all others.
    pub fn met(&self) -> bool {
        self.found.load(Ordering::SeqCst) == self.arrived.len() as u64
    }

    fn have_all_arrived(&self) -> bool {
        for flag in self.arrived.as_slice() {
            if !flag.load(Ordering::SeqCst) {
                return false;
            }
        }
        true
    }
}

impl Gate for MeetGate {
    fn before(&self, writer: usize, _index: u64) {
        let Some(mine) = self.arrived.as_slice().get(writer) else {
            return;
        };
        if mine.swap(true, Ordering::SeqCst) {
            return;
        }
        for _ in 0..self.turns {
            if self.have_all_arrived() {
                self.found.fetch_add(1, Ordering::SeqCst);
                return;
            }
            thread::yield_now();
        }
    }

    fn after(&self, _writer: usize, _index: u64) {}
}
