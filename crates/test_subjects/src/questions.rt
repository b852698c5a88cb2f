//! What a core or a store answers of itself.

ghost use Rattle.test_subjects.specs.Views.{IsSound};

use crate::subject::Subject;
use bw_store::{Counters, PackedEntry};

impl Subject {
    pub fn history(&self) -> &[PackedEntry] {
        match self {
            Subject::Bare(core) => core.history(),
            Subject::Shown(store) => store.history(),
        }
    }

    pub fn forgotten(&self) -> u64 {
        match self {
            Subject::Bare(core) => core.forgotten(),
            Subject::Shown(store) => store.forgotten(),
        }
    }

    pub fn cuts(&self) -> &[u64] {
        match self {
            Subject::Bare(core) => core.cuts(),
            Subject::Shown(store) => store.cuts(),
        }
    }

    pub fn durable(&self) -> u64 {
        match self {
            Subject::Bare(core) => core.durable(),
            Subject::Shown(store) => store.durable(),
        }
    }

    pub fn durable_of(&self, writer: u16) -> u64
        requires { IsSound self.now holding }
    {
        match self {
            Subject::Bare(core) => core.durable_of(writer),
            Subject::Shown(store) => store.durable_of(writer),
        }
    }

    pub fn live(&self) -> u32
        requires { IsSound self.now holding }
    {
        match self {
            Subject::Bare(core) => core.live(),
            Subject::Shown(store) => store.live(),
        }
    }

    pub fn spares(&self) -> u32
        requires { IsSound self.now holding }
    {
        match self {
            Subject::Bare(core) => core.spares(),
            Subject::Shown(store) => store.spares(),
        }
    }

    pub fn live_segment(&self, i: u32) -> Option<(u64, u32, u64)>
        requires { IsSound self.now holding }
    {
        match self {
            Subject::Bare(core) => core.live_segment(i),
            Subject::Shown(store) => store.live_segment(i),
        }
    }

    pub fn needed(&self, i: u32) -> Option<u64>
        requires { IsSound self.now holding }
    {
        match self {
            Subject::Bare(core) => core.needed(i),
            Subject::Shown(store) => store.needed(i),
        }
    }

    pub fn walk_of(&self, page: u32) -> Option<u64>
        requires { IsSound self.now holding }
    {
        match self {
            Subject::Bare(core) => core.walk_of(page),
            Subject::Shown(store) => store.walk_of(page),
        }
    }

    pub fn pays(&self) -> bool
        requires { IsSound self.now holding }
    {
        match self {
            Subject::Bare(core) => core.pays(),
            Subject::Shown(store) => store.pays(),
        }
    }

    pub fn counters(&self) -> Counters
        requires { IsSound self.now holding }
    {
        match self {
            Subject::Bare(core) => core.counters(),
            Subject::Shown(store) => store.counters(),
        }
    }

    /// How many publications showed readers something new; none if there are no readers.
    pub fn publications(&self) -> Option<u64> {
        match self {
            Subject::Bare(_) => None,
            Subject::Shown(store) => Some(store.publications()),
        }
    }
}
