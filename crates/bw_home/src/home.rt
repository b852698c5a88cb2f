//! A store with the feeds of its writers, and where its segments stand.

ghost use Rattle.std.specs.Prelude.{◌≡◌, ◌<◌, ◌≤◌, List, Some, Err, false, true, length, map, slice_get, IfOk, IfErr, OnOk, OnErr, MatchOption, MatchResult};
ghost use Rattle.std.specs.FinMap as finite;
ghost use Rattle.bw_page.specs.Ahead.{IsFirst, IsStretch};
ghost use Rattle.bw_page.specs.Leaves.{home, plain};
ghost use Rattle.bw_ring.specs.Ends.{accepted, ring_of_feed};
ghost use Rattle.bw_log.specs.Reads.{HoldsPage};
ghost use Rattle.bw_care.specs.Found.{IsFoundIn, IsRecovered};
ghost use Rattle.bw_device.specs.Holding.{Holding};
ghost use Rattle.bw_history.specs.Entries.{records};
ghost use Rattle.bw_history.specs.Lanes.{AreDry};
ghost use Rattle.bw_history.specs.Machine.{Stops, TakesAndKeeps, TakesAndStops, TakesMany, keeps};
ghost use Rattle.bw_walks.specs.Back.{IsLast, IsLastBelow};
ghost use Rattle.bw_walks.specs.Shared.{with_key};
ghost use Rattle.bw_core.specs.Faults.{FlushAnswers, FlushLeaves, flush_refusal};
ghost use Rattle.bw_core.specs.Following.{Follows, HasBoxes, RefusedAfter, TookInTurn, Turned, groups_since};
ghost use Rattle.bw_core.specs.Goal.{Goal, SameFeeds, Sequel};
ghost use Rattle.bw_core.specs.Heard.{IsOfFeeds};
ghost use Rattle.bw_core.specs.Kept.{EachCutStands};
ghost use Rattle.bw_core.specs.Machine.{machine_of, MayBeStopped};
ghost use Rattle.bw_core.specs.Opened.{opened, AreUnused};
ghost use Rattle.bw_core.specs.Reading.{HasRead, ReadLeaves, leaves_now};
ghost use Rattle.bw_core.specs.Reopened.{Begins};
ghost use Rattle.bw_core.specs.Rounds.{IsFair};
ghost use Rattle.bw_core.specs.Settled.{IsSettled};
ghost use Rattle.bw_core.specs.Settling.{SettleRefuses};
ghost use Rattle.bw_home.specs.Putting.{Added, AddedGroup};
ghost use Rattle.bw_home.specs.Reasons.{AreTaken, IsWaitRefused};

use crate::fault::{GroupNotPut, NotPut};
use crate::options::Options;
use bw_care::Recovered;
use bw_codec::{Key, Pair, Record, Value};
use bw_core::{Core, StoreFault, TurnFault};
use bw_device::Segment;
use bw_ring::{Feed, FullGroup, Group, Items};
use bw_site::{Found, HomeFault, Site, Stock, System};

/// A store, the feeds of its writers, and where its segments stand and have their leases from.
///
/// The store and the feeds may be used by themselves, also by threads: what a course has to keep is
/// that the store is sound, and that the feeds are all there, in order. What was not flushed is
/// gone with it.
#[derive(Drop)]
pub struct Home {
    pub store: Core,
    pub feeds: Vec<Feed>,
    pub(crate) stock: Stock,
    /// How many bytes the pages in memory may take once they were looked through.
    pub(crate) page_bytes: u64,
    /// The number of the next frame when the pages were looked through last.
    pub(crate) looked: Option<u64>,
}

// Whether the feed of this writer took the group; else it comes back.
fn put_at(feeds: &mut Vec<Feed>, writer: usize, group: Group) -> Result<(), FullGroup>
    requires { writer < length feeds.old.items }
    ensures rings { map ring_of_feed feeds.new.items ≡ map ring_of_feed feeds.old.items }
    ensures added { OnOk result (AddedGroup writer group feeds.old.items feeds.new.items) }
    ensures back { IfErr result (λ full. full.0 ≡ group) }
    ensures unchanged { OnErr result (map accepted feeds.new.items ≡ map accepted feeds.old.items) }
{
    let _ = feeds.as_slice().len(); // For the proof.
    feeds[writer].put_group(group)
}

// The first record of a group.
fn first_of(group: Group) -> Record
    ensures { slice_get group 0 ≡ Some result }
{
    match group.into_items() {
        Items::One([item]) => item,
        Items::Two([item, _]) => item,
        Items::Three([item, _, _]) => item,
        Items::Four([item, _, _, _]) => item,
    }
}

impl Home {
    ghost use Rattle.bw_core.specs.Looking.{Walks};
    ghost use Rattle.bw_core.specs.Views.{away_in, is_evicted, kept_beside, kept_by, lanes_of, noted_of, IsSound};
    ghost use Rattle.bw_home.specs.Beginning.{IsBegun, IsBegunBeside};
    ghost use Rattle.bw_home.specs.Maps.{StaysMap};
    ghost use Rattle.bw_home.specs.Ready.{kept_in, IsReady, IsReadyBeside};

    // A store and its feeds, over a site. Of the options it has the capacity of new segments, and
    // how many bytes of pages may stay in memory.
    fn of(
        store: Core,
        feeds: Vec<Feed>,
        site: Site,
        options: &Options,
        found: Option<Found>,
    ) -> Home
        requires sound { IsSound store holding }
        requires feeds { map ring_of_feed feeds.items ≡ (kept_by store holding).rings }
        ensures ready { IsReady result holding }
        ensures store { result.store ≡ store }
        ensures feeds { result.feeds ≡ feeds }
    {
        let stock = Stock::of(*feeds.allocator(), site, options.capacity, found);
        Home {
            store,
            feeds,
            stock,
            page_bytes: options.page_bytes,
            looked: None,
        }
    }

    /// A new store over these boxes, whose leases are the site's. It may have something that was
    /// found before.
    pub(crate) fn open<R: System>(
        rt: &R,
        options: &Options,
        segments: Vec<Box<dyn Segment>>,
        site: Site,
        found: Option<Found>,
    ) -> Result<Home, HomeFault>
        requires { Unit {0} }
        ensures ready { IfOk result (λ home. IsReadyBeside home holding) }
        ensures made { IfOk result (λ home. kept_beside home.store holding
            ≡ opened (map ring_of_feed home.feeds.items) options.now.pairs_a_page
            options.now.frame_bytes (map holding segments.items)) }
        ensures feeds { IfOk result (λ home. AreUnused options.now.writers
            options.now.queue_groups home.feeds.items) }
        ensures begun { IfOk result (λ home. IsBegunBeside home holding) }
    {
        match Core::open(rt.alloc(), &options.config(), segments) {
            Ok((store, feeds)) => Ok(Home::of(store, feeds, site, options, found)),
            Err(fault) => Err(HomeFault::from(fault.cause)),
        }
    }

    /// A store that goes on from what was recovered, with the limits of its pages and frames.
    pub(crate) fn reopen<R: System>(
        rt: &R,
        options: &Options,
        recovered: Recovered,
        site: Site,
    ) -> Result<Home, HomeFault>
        requires { IsRecovered (λ b. holding (b.vtable, b.value)) recovered }
        ensures ready { IfOk result (λ home. IsReady home holding) }
        ensures begins { IfOk result (λ home. (held : List Holding)
            → IsFoundIn (λ b. holding (b.vtable, b.value)) held recovered
            → Begins held (kept_in home holding)) }
        ensures feeds { IfOk result (λ home. AreUnused options.now.writers
            options.now.queue_groups home.feeds.items) }
        ensures begun { IfOk result (λ home. IsBegun home holding) }
    {
        let Options {
            writers,
            queue_groups,
            ..
        } = *options;
        let found = Found::of(&recovered);
        match Core::reopen(rt.alloc(), recovered, writers, queue_groups) {
            Ok((store, feeds)) => Ok(Home::of(store, feeds, site, options, Some(found))),
            Err(fault) => Err(HomeFault::from(fault.cause)),
        }
    }

    /// How many bytes a new segment has room for.
    pub fn capacity(&self) -> u64 {
        self.stock.capacity()
    }

    /// What recovery found in the segments, or that the beginning of a first frame was all that
    /// there was; `None` if all segments were new.
    pub fn found(&self) -> Option<Found>
        ensures { result ≡ self.now.stock.found }
    {
        self.stock.found
    }

    /// Puts a record into the queue of the first writer. If that is full, the store takes all that
    /// waits before.
    ///
    /// If the store is refused that, the queue is full all the same, or there is no writer, the
    /// record comes back, and no queue has more than before. It costs a turn if the queue is full.
    pub fn put(&mut self, item: Record) -> Result<(), NotPut>
        requires { IsReady self.old holding }
        ensures ready { IsReady self.new holding }
        ensures added { OnOk result (Added 0 item self.old.feeds.items self.new.feeds.items) }

        ensures back { IfErr result (λ not_put. not_put.record ≡ item) }
        ensures unchanged { OnErr result
            (map accepted self.new.feeds.items ≡ map accepted self.old.feeds.items) }
        ensures refused { IfErr result (λ not_put. MatchOption not_put.cause
            (AreTaken (kept_in self.old holding) (kept_in self.new holding))
            (IsWaitRefused (kept_in self.old holding) (lanes_of self.new.store)
            (away_in self.new.store) (kept_in self.new holding))) }
        ensures follows { Follows (kept_in self.old holding) (kept_in self.new holding) }
    {
        match self.put_group(0, Group::one(item)) {
            Ok(()) => Ok(()),
            Err(GroupNotPut { group, cause }) => Err(NotPut {
                record: first_of(group),
                cause,
            }),
        }
    }

    /// Puts a group into the queue of this writer, of which the first is 0. If that is full, the
    /// store takes all that waits before. It is refused as `put` is, and the group comes back.
    pub fn put_group(&mut self, writer: usize, group: Group) -> Result<(), GroupNotPut>
        requires { IsReady self.old holding }
        ensures ready { IsReady self.new holding }
        ensures added { OnOk result
            (AddedGroup writer group self.old.feeds.items self.new.feeds.items) }

        ensures back { IfErr result (λ not_put. not_put.group ≡ group) }
        ensures unchanged { OnErr result
            (map accepted self.new.feeds.items ≡ map accepted self.old.feeds.items) }
        ensures refused { IfErr result (λ not_put. MatchOption not_put.cause
            (AreTaken (kept_in self.old holding) (kept_in self.new holding))
            (IsWaitRefused (kept_in self.old holding) (lanes_of self.new.store)
            (away_in self.new.store) (kept_in self.new holding))) }
        ensures follows { Follows (kept_in self.old holding) (kept_in self.new holding) }
    {
        let group = match self.offer(writer, group) {
            Ok(()) => return Ok(()),
            Err(FullGroup(group)) => group,
        };
        if let Err(TurnFault { cause, .. }) = self.store.turn(u32::MAX) {
            return Err(GroupNotPut {
                group,
                cause: Some(cause),
            });
        }
        match self.offer(writer, group) {
            Ok(()) => Ok(()),
            Err(FullGroup(group)) => Err(GroupNotPut { group, cause: None }),
        }
    }

    /// Puts a group into the queue of this writer, of which the first is 0, and takes nothing. If
    /// the queue is full, or there is no such writer, the group comes back.
    pub fn offer(&mut self, writer: usize, group: Group) -> Result<(), FullGroup>
        requires { IsReady self.old holding }
        ensures ready { IsReady self.new holding }
        ensures added { OnOk result
            (AddedGroup writer group self.old.feeds.items self.new.feeds.items) }

        ensures back { IfErr result (λ full. full.0 ≡ group) }
        ensures unchanged { OnErr result
            (map accepted self.new.feeds.items ≡ map accepted self.old.feeds.items) }
        ensures same { kept_in self.new holding ≡ kept_in self.old holding }
        ensures noted { noted_of self.new.store ≡ noted_of self.old.store }
    {
        if writer >= self.feeds.len() {
            return Err(FullGroup(group));
        }
        put_at(&mut self.feeds, writer, group)
    }

    /// Takes so many of the groups that wait into the pages; answers how many records they have. A
    /// refusal says how many were taken before it. As `Core::turn`.
    pub fn turn(&mut self, limit: u32) -> Result<u64, TurnFault>
        requires { IsReady self.old holding }
        ensures ready { IsReady self.new holding }
        ensures feeds { self.new.feeds ≡ self.old.feeds }
        ensures turned { MatchResult result
            (λ n. Turned n (kept_in self.old holding) (kept_in self.new holding))
            (λ fault. Turned fault.taken (kept_in self.old holding) (kept_in self.new holding)) }
        ensures within { IfOk result (λ n.
            groups_since (kept_in self.old holding) (kept_in self.new holding) ≤ limit) }
        ensures dry { IfOk result (λ n.
            groups_since (kept_in self.old holding) (kept_in self.new holding) < limit
            → AreDry (lanes_of self.new.store)) }
        ensures took { IfOk result (λ n.
            TookInTurn n (kept_in self.old holding) (kept_in self.new holding)) }
        ensures refused { IfErr result (λ fault. RefusedAfter fault.taken
            (kept_in self.old holding) (lanes_of self.new.store)
            (away_in self.new.store) fault.cause (kept_in self.new holding)) }
        ensures tried { IfErr result (λ fault.
            groups_since (kept_in self.old holding) (kept_in self.new holding) < limit) }
        ensures fair { IsFair (lanes_of self.old.store) (kept_in self.old holding)
            (kept_in self.new holding) }
        ensures steps { MatchResult result
            (λ _. TakesMany (groups_since (kept_in self.old holding) (kept_in self.new holding))
            (machine_of (kept_in self.old holding)) (machine_of (kept_in self.new holding)))
            (λ _. TakesAndStops (machine_of (kept_in self.old holding))
            (machine_of (kept_in self.new holding))) }
        ensures may_leave { MayBeStopped (kept_in self.new holding) }
    {
        self.store.turn(limit)
    }

    /// Appends what was taken as a frame, and publishes it. It answers the frame's number, or
    /// `None` if nothing was taken. What waits in the queues stays there. As `Core::flush`.
    pub fn flush(&mut self) -> Result<Option<u64>, StoreFault>
        requires { IsReady self.old holding }
        ensures ready { IsReady self.new holding }
        ensures feeds { self.new.feeds ≡ self.old.feeds }
        ensures answers { FlushAnswers (flush_refusal (kept_in self.old holding)) result }
        ensures leaves { FlushLeaves (kept_in self.old holding) result (kept_in self.new holding) }
        ensures settled { OnOk result (IsSettled (kept_in self.new holding)) }
        ensures each_cut { EachCutStands (kept_in self.new holding) }
        ensures follows { Follows (kept_in self.old holding) (kept_in self.new holding) }
        ensures boxes { HasBoxes (kept_in self.old holding) (kept_in self.new holding) }
        ensures steps { MatchResult result
            (λ _. machine_of (kept_in self.new holding)
            ≡ keeps (machine_of (kept_in self.old holding)))
            (λ _. Stops (machine_of (kept_in self.old holding))
            (machine_of (kept_in self.new holding))) }
        ensures may_leave { MayBeStopped (kept_in self.new holding) }
        ensures stays { StaysMap self.old self.new holding }
    {
        self.store.flush()
    }

    /// Takes all that was put, flushes, and answers the length of the history: on Ok the segments
    /// hold, page for page, each record that was put exactly once. As `Core::settle`.
    pub fn settle(&mut self) -> Result<u64, StoreFault>
        requires { IsReady self.old holding }
        ensures ready { IsReady self.new holding }
        ensures goal { IfOk result
            (Goal self.new.feeds.items (kept_in self.old holding) (kept_in self.new holding)) }
        ensures refused { IfErr result (λ cause. SettleRefuses (kept_in self.old holding)
            (lanes_of self.new.store) (away_in self.new.store) cause
            (kept_in self.new holding)) }
        ensures failed { (kept_in self.old holding).log.is_failed ≡ true
            → result ≡ Err StoreFault.Failed }
        ensures steps { MatchResult result
            (λ _. TakesAndKeeps (machine_of (kept_in self.old holding))
            (machine_of (kept_in self.new holding)))
            (λ _. TakesAndStops (machine_of (kept_in self.old holding))
            (machine_of (kept_in self.new holding))) }
        ensures heard { IsOfFeeds self.new.feeds.items (kept_in self.new holding).entries }
        ensures feeds { SameFeeds self.old.feeds.items self.new.feeds.items }
        ensures sequel { Sequel (kept_in self.old holding) (kept_in self.new holding)
            (noted_of self.old.store) (noted_of self.new.store) }
        ensures stays { StaysMap self.old self.new holding }
    {
        self.store.settle(&mut self.feeds)
    }

    /// The value of a key as all that was taken leaves it, flushed or not. As `Core::get`.
    pub fn get(&mut self, key: &Key) -> Result<Option<Value>, StoreFault>
        requires { IsReady self.old holding }
        ensures ready { IsReady self.new holding }
        ensures feeds { self.new.feeds ≡ self.old.feeds }
        ensures value { IfOk result (λ value. value
            ≡ finite.get (plain (kept_in self.old holding).start
            (records (kept_in self.old holding).entries)) key.now) }
        ensures leaves { ReadLeaves (HoldsPage (kept_in self.old holding).log
            (home key.now (leaves_now (kept_in self.old holding))).page)
            (kept_in self.old holding) result (kept_in self.new holding) }
        ensures memory { is_evicted (home key.now (leaves_now (kept_in self.old holding))).page
            self.old.store ≡ false → IfErr result (λ fault. fault ≡ StoreFault.NoMemory) }
        ensures read { HasRead (kept_in self.old holding) (kept_in self.new holding) }
        ensures follows { Follows (kept_in self.old holding) (kept_in self.new holding) }
        ensures boxes { HasBoxes (kept_in self.old holding) (kept_in self.new holding) }
        ensures stays { StaysMap self.old self.new holding }
    {
        self.store.get(key)
    }

    /// The pair of a key, with the value that `get` finds. If its page is in memory, the pair
    /// shares its bytes with the page, and nothing is copied. As `Core::get_shared`.
    pub fn get_shared(&mut self, key: &Key) -> Result<Option<Pair>, StoreFault>
        requires { IsReady self.old holding }
        ensures ready { IsReady self.new holding }
        ensures feeds { self.new.feeds ≡ self.old.feeds }
        ensures value { IfOk result (λ pair. pair ≡ with_key key.now
            (finite.get (plain (kept_in self.old holding).start
            (records (kept_in self.old holding).entries)) key.now)) }
        ensures leaves { ReadLeaves (HoldsPage (kept_in self.old holding).log
            (home key.now (leaves_now (kept_in self.old holding))).page)
            (kept_in self.old holding) result (kept_in self.new holding) }
        ensures memory { is_evicted (home key.now (leaves_now (kept_in self.old holding))).page
            self.old.store ≡ false → IfErr result (λ fault. fault ≡ StoreFault.NoMemory) }
        ensures read { HasRead (kept_in self.old holding) (kept_in self.new holding) }
        ensures follows { Follows (kept_in self.old holding) (kept_in self.new holding) }
        ensures boxes { HasBoxes (kept_in self.old holding) (kept_in self.new holding) }
        ensures stays { StaysMap self.old self.new holding }
    {
        self.store.get_shared(key)
    }

    /// The pair with the least key at or above this one, as all that was taken leaves it, flushed
    /// or not; `None` after the last pair. As `Core::next_at`.
    pub fn next_at(&mut self, key: &Key) -> Result<Option<(Key, Value)>, StoreFault>
        requires { IsReady self.old holding }
        ensures ready { IsReady self.new holding }
        ensures feeds { self.new.feeds ≡ self.old.feeds }
        ensures value { IfOk result (λ pair. IsFirst (plain (kept_in self.old holding).start
            (records (kept_in self.old holding).entries)) key.now pair) }
        ensures walks { Walks self.old.store result self.new.store holding }
        ensures read { HasRead (kept_in self.old holding) (kept_in self.new holding) }
        ensures follows { Follows (kept_in self.old holding) (kept_in self.new holding) }
        ensures boxes { HasBoxes (kept_in self.old holding) (kept_in self.new holding) }
        ensures stays { StaysMap self.old self.new holding }
    {
        self.store.next_at(key)
    }

    /// The pair with the greatest key at or below this one, as all that was taken leaves it,
    /// flushed or not; `None` before the first pair. As `Core::prev_at`.
    pub fn prev_at(&mut self, key: &Key) -> Result<Option<(Key, Value)>, StoreFault>
        requires { IsReady self.old holding }
        ensures ready { IsReady self.new holding }
        ensures feeds { self.new.feeds ≡ self.old.feeds }
        ensures value { IfOk result (λ pair. IsLast (plain (kept_in self.old holding).start
            (records (kept_in self.old holding).entries)) key.now pair) }
        ensures walks { Walks self.old.store result self.new.store holding }
        ensures read { HasRead (kept_in self.old holding) (kept_in self.new holding) }
        ensures follows { Follows (kept_in self.old holding) (kept_in self.new holding) }
        ensures boxes { HasBoxes (kept_in self.old holding) (kept_in self.new holding) }
        ensures stays { StaysMap self.old self.new holding }
    {
        self.store.prev_at(key)
    }

    /// The pair with the greatest key below this one, as all that was taken leaves it; `None`
    /// before the first pair. As `Core::prev_below`.
    pub fn prev_below(&mut self, key: &Key) -> Result<Option<(Key, Value)>, StoreFault>
        requires { IsReady self.old holding }
        ensures ready { IsReady self.new holding }
        ensures feeds { self.new.feeds ≡ self.old.feeds }
        ensures value { IfOk result (λ pair. IsLastBelow (plain (kept_in self.old holding).start
            (records (kept_in self.old holding).entries)) key.now pair) }
        ensures walks { Walks self.old.store result self.new.store holding }
        ensures read { HasRead (kept_in self.old holding) (kept_in self.new holding) }
        ensures follows { Follows (kept_in self.old holding) (kept_in self.new holding) }
        ensures boxes { HasBoxes (kept_in self.old holding) (kept_in self.new holding) }
        ensures stays { StaysMap self.old self.new holding }
    {
        self.store.prev_below(key)
    }

    /// Puts the pairs at or above a key into `found`, in the order of keys and no more than so
    /// many, as all that was taken leaves them, flushed or not. As `Core::scan`.
    pub fn scan(
        &mut self,
        key: &Key,
        most: usize,
        found: &mut Vec<(Key, Value)>,
    ) -> Result<(), StoreFault>
        requires { IsReady self.old holding }
        ensures ready { IsReady self.new holding }
        ensures feeds { self.new.feeds ≡ self.old.feeds }
        ensures value { OnOk result (IsStretch (plain (kept_in self.old holding).start
            (records (kept_in self.old holding).entries)) key.now most found.new.items) }
        ensures walks { Walks self.old.store result self.new.store holding }
        ensures read { HasRead (kept_in self.old holding) (kept_in self.new holding) }
        ensures follows { Follows (kept_in self.old holding) (kept_in self.new holding) }
        ensures boxes { HasBoxes (kept_in self.old holding) (kept_in self.new holding) }
        ensures stays { StaysMap self.old self.new holding }
    {
        self.store.scan(key, most, found)
    }

    /// Puts the pairs at or above a key into `found`, as `scan` does, but copies none of their
    /// bytes. As `Core::scan_shared`.
    pub fn scan_shared(
        &mut self,
        key: &Key,
        most: usize,
        found: &mut Vec<Pair>,
    ) -> Result<(), StoreFault>
        requires { IsReady self.old holding }
        ensures ready { IsReady self.new holding }
        ensures feeds { self.new.feeds ≡ self.old.feeds }
        ensures value { OnOk result (IsStretch (plain (kept_in self.old holding).start
            (records (kept_in self.old holding).entries)) key.now most found.new.items) }
        ensures walks { Walks self.old.store result self.new.store holding }
        ensures read { HasRead (kept_in self.old holding) (kept_in self.new holding) }
        ensures follows { Follows (kept_in self.old holding) (kept_in self.new holding) }
        ensures boxes { HasBoxes (kept_in self.old holding) (kept_in self.new holding) }
        ensures stays { StaysMap self.old self.new holding }
    {
        self.store.scan_shared(key, most, found)
    }
}
