//! What the caller's thread and the writers say to each other.

ghost use Rattle.std.specs.Prelude.{◌≡◌};

use std::sync::atomic::{AtomicBool, AtomicU64, Ordering};

/// Plain atomics, of which no clause speaks: each may change at any time.
#[derive(Drop)]
pub(crate) struct Flags {
    is_stopped: AtomicBool,
    ended: AtomicU64,
}

/// How many writers had ended when the flags were asked. Nothing but that look makes one, so a loop
/// that hands it out has looked.
#[derive(Clone, Copy)]
pub(crate) struct Ended {
    count: u64,
}

impl Ended {
    pub(crate) fn count(self) -> u64
        ensures { result ≡ self.count }
    {
        self.count
    }
}

impl Flags {
    pub(crate) fn new() -> Flags {
        Flags {
            is_stopped: AtomicBool::new(false),
            ended: AtomicU64::new(0),
        }
    }

    /// The writers end at their next try.
    pub(crate) fn stop(&self) {
        self.is_stopped.store(true, Ordering::SeqCst);
    }

    pub(crate) fn is_stopped(&self) -> bool {
        self.is_stopped.load(Ordering::SeqCst)
    }

    /// One writer more has ended.
    pub(crate) fn end(&self) {
        self.ended.fetch_add(1, Ordering::SeqCst);
    }

    /// How many writers have ended.
    pub(crate) fn ended(&self) -> Ended {
        Ended {
            count: self.ended.load(Ordering::SeqCst),
        }
    }
}
