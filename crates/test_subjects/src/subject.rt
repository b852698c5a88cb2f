//! What the steps of a table are made on: a core, or a store with readers.

ghost use Rattle.std.specs.Prelude.{◌≡◌, map, IfOk};
ghost use Rattle.bw_care.specs.Found.{IsRecovered};
ghost use Rattle.bw_ring.specs.Ends.{ring_of_feed};

use bw_care::Recovered;
use bw_codec::{Key, Leaf, Pair, Value};
use bw_core::Core;
use bw_device::Segment;
use bw_ring::Feed;
use bw_store::{Cleaned, Config, OpenFault, ReopenFault, Store, StoreFault, TurnFault, Upgraded};
use std::alloc::Global;
use std::sync::Wait;

/// The numbers of a store whose pages have at most four pairs.
pub fn config_of(writers: usize, places: usize, readers: usize) -> Config {
    Config {
        writers,
        places,
        readers,
        m: 4,
        f: 65_536,
    }
}

/// Which of the two a table is walked over.
#[derive(Debug, Clone, Copy, PartialEq, Eq)]
pub enum Over {
    Core,
    Store,
}

/// Both, in the order in which a table is walked over them.
pub const BOTH: [Over; 2] = [Over::Core, Over::Store];

/// A core, or a store with readers: they have the same calls and the same answers. Each method is
/// the call of its name, of whichever of the two there is.
pub enum Subject {
    /// A store without readers, which waits for nobody.
    Bare(Core),
    /// A store that shows what is durable to readers.
    Shown(Store),
}

impl Subject {
    ghost use Rattle.test_subjects.specs.Views.{rings_by, rings_beside, AreItsFeeds, IsSound, IsSoundBeside};

    /// Opened over empty segments. A core has no readers, so their number is not looked at.
    pub fn open<R: Wait>(
        rt: &R,
        alloc: Global,
        over: Over,
        config: &Config,
        segments: Vec<Box<dyn Segment>>,
    ) -> Result<(Subject, Vec<Feed>), OpenFault>
        ensures sound { IfOk result (λ r. IsSoundBeside r.0 holding) }
        ensures feeds { IfOk result (λ r. AreItsFeeds r.1.items r.0 holding) }
    {
        match over {
            Over::Core => Subject::open_core(alloc, config, segments),
            Over::Store => {
                let (store, feeds) = Store::open(rt, alloc, config, segments)?;
                Ok((Subject::Shown(store), feeds))
            }
        }
    }

    fn open_core(
        alloc: Global,
        config: &Config,
        segments: Vec<Box<dyn Segment>>,
    ) -> Result<(Subject, Vec<Feed>), OpenFault>
        ensures sound { IfOk result (λ r. IsSoundBeside r.0 holding) }
        ensures feeds { IfOk result (λ r. AreItsFeeds r.1.items r.0 holding) }
    {
        let config = bw_core::Config {
            writers: config.writers,
            places: config.places,
            m: config.m,
            f: config.f,
        };
        let (core, feeds) = Core::open(alloc, &config, segments)?;
        Ok((Subject::Bare(core), feeds))
    }

    /// Opened again over what was recovered, with a place for one reader, if any.
    pub fn reopen<R: Wait>(
        rt: &R,
        alloc: Global,
        over: Over,
        recovered: Recovered,
        writers: usize,
        places: usize,
    ) -> Result<(Subject, Vec<Feed>), ReopenFault>
        requires { IsRecovered (λ b. holding (b.vtable, b.value)) recovered }
        ensures sound { IfOk result (λ r. IsSound r.0 holding) }
        ensures feeds { IfOk result (λ r. map ring_of_feed r.1.items ≡ rings_by r.0 holding) }
    {
        match over {
            Over::Core => {
                let (core, feeds) = Core::reopen(alloc, recovered, writers, places)?;
                Ok((Subject::Bare(core), feeds))
            }
            Over::Store => {
                let (store, feeds) = Store::reopen(rt, alloc, recovered, writers, places, 1)?;
                Ok((Subject::Shown(store), feeds))
            }
        }
    }

    /// The boxes, the live ones before the spares.
    pub fn shut<R: Wait>(self, rt: &R) -> (Vec<Box<dyn Segment>>, Vec<Box<dyn Segment>>)
        requires { IsSoundBeside self holding }
    {
        match self {
            Subject::Bare(core) => core.shut(),
            Subject::Shown(store) => store.shut(rt),
        }
    }

    pub fn turn(&mut self, limit: u32) -> Result<u64, TurnFault>
        requires { IsSound self.old holding }
        ensures sound { IsSound self.new holding }
        ensures rings { rings_by self.new holding ≡ rings_by self.old holding }
    {
        match self {
            Subject::Bare(core) => core.turn(limit),
            Subject::Shown(store) => store.turn(limit),
        }
    }

    pub fn flush<R: Wait>(&mut self, rt: &R) -> Result<Option<u64>, StoreFault>
        requires { IsSound self.old holding }
        ensures sound { IsSound self.new holding }
        ensures rings { rings_by self.new holding ≡ rings_by self.old holding }
    {
        match self {
            Subject::Bare(core) => core.flush(),
            Subject::Shown(store) => store.flush(rt),
        }
    }

    pub fn settle<R: Wait>(&mut self, rt: &R, feeds: &mut Vec<Feed>) -> Result<u64, StoreFault>
        requires sound { IsSound self.old holding }
        requires feeds { map ring_of_feed feeds.old.items ≡ rings_by self.old holding }
        ensures sound { IsSound self.new holding }
        ensures feeds { map ring_of_feed feeds.new.items ≡ rings_by self.new holding }
    {
        match self {
            Subject::Bare(core) => core.settle(feeds),
            Subject::Shown(store) => store.settle(rt, feeds),
        }
    }

    pub fn clean<R: Wait>(&mut self, rt: &R) -> Result<Cleaned, StoreFault>
        requires { IsSound self.old holding }
        ensures sound { IsSound self.new holding }
        ensures rings { rings_by self.new holding ≡ rings_by self.old holding }
    {
        match self {
            Subject::Bare(core) => core.clean(),
            Subject::Shown(store) => store.clean(rt),
        }
    }

    pub fn upgrade<R: Wait>(&mut self, rt: &R) -> Result<Upgraded, StoreFault>
        requires { IsSound self.old holding }
        ensures sound { IsSound self.new holding }
        ensures rings { rings_by self.new holding ≡ rings_by self.old holding }
    {
        match self {
            Subject::Bare(core) => core.upgrade(),
            Subject::Shown(store) => store.upgrade(rt),
        }
    }

    pub fn rewrite<R: Wait>(&mut self, rt: &R, pages: &[u32]) -> Result<u64, StoreFault>
        requires { IsSound self.old holding }
        ensures sound { IsSound self.new holding }
        ensures rings { rings_by self.new holding ≡ rings_by self.old holding }
    {
        match self {
            Subject::Bare(core) => core.rewrite(pages),
            Subject::Shown(store) => store.rewrite(rt, pages),
        }
    }

    /// Closes the current segment.
    pub fn roll(&mut self)
        requires { IsSound self.old holding }
        ensures sound { IsSound self.new holding }
        ensures rings { rings_by self.new holding ≡ rings_by self.old holding }
    {
        match self {
            Subject::Bare(core) => core.roll(),
            Subject::Shown(store) => store.roll(),
        }
    }

    /// Whether a spare more was taken.
    pub fn is_added(&mut self, one: Box<dyn Segment>) -> bool
        requires { IsSoundBeside self.old holding }
        ensures sound { IsSoundBeside self.new holding }
        ensures rings { rings_beside self.new holding ≡ rings_beside self.old holding }
    {
        match self {
            Subject::Bare(core) => core.add_segment(one).is_ok(),
            Subject::Shown(store) => store.add_segment(one).is_ok(),
        }
    }

    pub fn page(&mut self, page: u32) -> Result<Leaf, StoreFault>
        requires { IsSound self.old holding }
        ensures sound { IsSound self.new holding }
        ensures rings { rings_by self.new holding ≡ rings_by self.old holding }
    {
        match self {
            Subject::Bare(core) => core.page(page),
            Subject::Shown(store) => store.page(page),
        }
    }

    pub fn get(&mut self, key: &Key) -> Result<Option<Value>, StoreFault>
        requires { IsSound self.old holding }
        ensures sound { IsSound self.new holding }
        ensures rings { rings_by self.new holding ≡ rings_by self.old holding }
    {
        match self {
            Subject::Bare(core) => core.get(key),
            Subject::Shown(store) => store.get(key),
        }
    }

    pub fn get_shared(&mut self, key: &Key) -> Result<Option<Pair>, StoreFault>
        requires { IsSound self.old holding }
        ensures sound { IsSound self.new holding }
        ensures rings { rings_by self.new holding ≡ rings_by self.old holding }
    {
        match self {
            Subject::Bare(core) => core.get_shared(key),
            Subject::Shown(store) => store.get_shared(key),
        }
    }

    pub fn prev_at(&mut self, key: &Key) -> Result<Option<(Key, Value)>, StoreFault>
        requires { IsSound self.old holding }
        ensures sound { IsSound self.new holding }
        ensures rings { rings_by self.new holding ≡ rings_by self.old holding }
    {
        match self {
            Subject::Bare(core) => core.prev_at(key),
            Subject::Shown(store) => store.prev_at(key),
        }
    }

    pub fn prev_below(&mut self, key: &Key) -> Result<Option<(Key, Value)>, StoreFault>
        requires { IsSound self.old holding }
        ensures sound { IsSound self.new holding }
        ensures rings { rings_by self.new holding ≡ rings_by self.old holding }
    {
        match self {
            Subject::Bare(core) => core.prev_below(key),
            Subject::Shown(store) => store.prev_below(key),
        }
    }

    /// The pairs at or above a key, no more than so many: `scan_shared`.
    pub fn pairs_from(
        &mut self,
        alloc: Global,
        key: &Key,
        most: usize,
    ) -> Result<Vec<Pair>, StoreFault>
        requires { IsSound self.old holding }
        ensures sound { IsSound self.new holding }
        ensures rings { rings_by self.new holding ≡ rings_by self.old holding }
    {
        let mut found = Vec::new(alloc);
        match self {
            Subject::Bare(core) => core.scan_shared(key, most, &mut found)?,
            Subject::Shown(store) => store.scan_shared(key, most, &mut found)?,
        }
        Ok(found)
    }

    pub fn count(&mut self) -> Result<u64, StoreFault>
        requires { IsSound self.old holding }
        ensures sound { IsSound self.new holding }
        ensures rings { rings_by self.new holding ≡ rings_by self.old holding }
    {
        match self {
            Subject::Bare(core) => core.count(),
            Subject::Shown(store) => store.count(),
        }
    }

    pub fn evict(&mut self, page: u32) -> Result<bool, StoreFault>
        requires { IsSound self.old holding }
        ensures sound { IsSound self.new holding }
        ensures rings { rings_by self.new holding ≡ rings_by self.old holding }
    {
        match self {
            Subject::Bare(core) => core.evict(page),
            Subject::Shown(store) => store.evict(page),
        }
    }

    /// Forgets what is durable; over a store what readers have, which is the same after a flush.
    pub fn forget(&mut self) -> u64
        requires { IsSound self.old holding }
        ensures sound { IsSound self.new holding }
        ensures rings { rings_by self.new holding ≡ rings_by self.old holding }
    {
        match self {
            Subject::Bare(core) => core.forget(),
            Subject::Shown(store) => store.forget(),
        }
    }

    /// The bytes of a live segment are added.
    pub fn dump(&mut self, segment: u64, out: &mut Vec<u8>) -> Result<bool, StoreFault>
        requires { IsSound self.old holding }
        ensures sound { IsSound self.new holding }
        ensures rings { rings_by self.new holding ≡ rings_by self.old holding }
    {
        match self {
            Subject::Bare(core) => core.dump(segment, out),
            Subject::Shown(store) => store.dump(segment, out),
        }
    }
}
