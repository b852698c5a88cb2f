//! A store with readers: it is opened as one without, and shows what is durable to other threads.

ghost use Rattle.std.specs.Prelude.{◌≡◌, false, true, map, List, IfErr, IfOk, IfSome, IsNone, MatchOption};
ghost use Rattle.bw_device.specs.Holding.{Holding};
ghost use Rattle.bw_ring.specs.Ends.{ring_of_feed};
ghost use Rattle.bw_care.specs.Found.{IsFoundIn, IsRecovered};
ghost use Rattle.bw_core.specs.Opened.{AreUnused};
ghost use Rattle.bw_core.specs.Reopened.{Begins};
ghost use Rattle.bw_store.specs.Following.{Continues};
ghost use Rattle.bw_store.specs.Kept.{EachCutStands, core_of};
ghost use Rattle.bw_store.specs.Opened.{opened};
ghost use Rattle.bw_store.specs.Views.{kept_beside};
ghost use Rattle.bw_site.specs.Faults.{IsOfSite};
ghost use Rattle.bw_home.specs.Beginning.{IsSharedBegun, IsSharedBegunBeside};
ghost use Rattle.bw_home.specs.Renewing.{SharedCleans};
ghost use Rattle.bw_home.specs.Sharing.{IsShared, IsSharedBeside};

use crate::opened::{Attempt, segment_of, site_of};
use crate::options::Options;
use bw_care::{RecoverCause, Recovered};
use bw_device::Segment;
use bw_file::FolderFault;
use bw_ring::Feed;
use bw_site::{Found, HomeFault, Made, NotHeld, Site, Stock, System, held_in};
use bw_store::{Cleaned, Config, Store};
use std::alloc::{AllocError, Global};

/// A store with readers, the feeds of its writers, and where its segments stand. Otherwise as
/// `Home`.
pub struct SharedHome {
    pub store: Store,
    pub feeds: Vec<Feed>,
    stock: Stock,
    /// How many bytes the pages in memory may take once they were looked through.
    page_bytes: u64,
}

/// What is done with a store that has readers, in legs. Otherwise as `Legs`.
pub trait SharedLegs<R>: Drop {
    /// What it answers.
    type Answer;

    // What it says of its answer: nothing by default. A leg adds nothing to that.
    ghost says: { Self → Self.Answer → Type 0 } = { λ _ _. Unit {0} };

    // Whether the next leg has to be the first one, as in `Legs`.
    ghost begins: { Self → Type 0 } = { λ _. ⊥ };

    /// Goes on, up to the answer; `None` asks for another leg.
    fn leg(&mut self, rt: &R, home: &mut SharedHome) -> Option<Self::Answer>
        requires ready { IsShared home.old holding }
        requires begun { begins self.old → IsSharedBegun home.old holding }
        ensures ready { IsShared home.new holding }
        ensures answer { MatchOption result
            ((answer : Self.Answer) → says self.new answer → says self.old answer)
            (λ answer. says self.old answer) }
        ensures begun { IsNone result → begins self.new → ⊥ };
}

impl SharedHome {
    ghost use Rattle.bw_store.specs.Views.{kept_by, noted_of, IsSound};
    ghost use Rattle.bw_home.specs.Sharing.{shared_in};

    // A store and its feeds, over a site. Of the options it has the capacity of new segments, and
    // how many bytes of pages may stay in memory.
    fn of(
        store: Store,
        feeds: Vec<Feed>,
        site: Site,
        options: &Options,
        found: Option<Found>,
    ) -> SharedHome
        requires sound { IsSound store holding }
        requires feeds { map ring_of_feed feeds.items ≡ (kept_by store holding).rings }
        ensures ready { IsShared result holding }
        ensures store { result.store ≡ store }
        ensures feeds { result.feeds ≡ feeds }
    {
        let stock = Stock::of(*feeds.allocator(), site, options.capacity, found);
        SharedHome {
            store,
            feeds,
            stock,
            page_bytes: options.page_bytes,
        }
    }

    fn open<R: System>(
        rt: &R,
        options: &Options,
        readers: usize,
        segments: Vec<Box<dyn Segment>>,
        site: Site,
        found: Option<Found>,
    ) -> Result<SharedHome, HomeFault>
        requires { Unit {0} }
        ensures ready { IfOk result (λ home. IsSharedBeside home holding) }
        ensures made { IfOk result (λ home. kept_beside home.store holding
            ≡ opened (map ring_of_feed home.feeds.items) options.now.pairs_a_page
            options.now.frame_bytes (map holding segments.items)
            (kept_beside home.store holding).versions) }
        ensures feeds { IfOk result (λ home. AreUnused options.now.writers
            options.now.queue_groups home.feeds.items) }
        ensures begun { IfOk result (λ home. IsSharedBegunBeside home holding) }
    {
        let config = Config {
            writers: options.writers,
            places: options.queue_groups,
            readers,
            m: options.pairs_a_page,
            f: options.frame_bytes,
        };
        match Store::open(rt, rt.alloc(), &config, segments) {
            Ok((store, feeds)) => Ok(SharedHome::of(store, feeds, site, options, found)),
            Err(fault) => Err(HomeFault::from(fault.cause)),
        }
    }

    fn reopen<R: System>(
        rt: &R,
        options: &Options,
        readers: usize,
        recovered: Recovered,
        site: Site,
    ) -> Result<SharedHome, HomeFault>
        requires { IsRecovered (λ b. holding (b.vtable, b.value)) recovered }
        ensures ready { IfOk result (λ home. IsShared home holding) }
        ensures begins { IfOk result (λ home. (held : List Holding)
            → IsFoundIn (λ b. holding (b.vtable, b.value)) held recovered
            → Begins held (core_of (shared_in home holding))) }
        ensures feeds { IfOk result (λ home. AreUnused options.now.writers
            options.now.queue_groups home.feeds.items) }
        ensures begun { IfOk result (λ home. IsSharedBegun home holding) }
    {
        let Options {
            writers,
            queue_groups,
            ..
        } = *options;
        let found = Found::of(&recovered);
        match Store::reopen(rt, rt.alloc(), recovered, writers, queue_groups, readers) {
            Ok((store, feeds)) => Ok(SharedHome::of(store, feeds, site, options, Some(found))),
            Err(fault) => Err(HomeFault::from(fault.cause)),
        }
    }

    /// As `Home::found`.
    pub fn found(&self) -> Option<Found>
        ensures { result ≡ self.now.stock.found }
    {
        self.stock.found
    }

    /// Gives up the oldest segment, and empties its file, as `Home::clean` does; what is durable
    /// then is published. What the store says of its cleaning holds here, word for word.
    pub fn clean<R: System>(&mut self, rt: &R) -> Result<Cleaned, HomeFault>
        requires { IsShared self.old holding }
        ensures ready { IsShared self.new holding }
        ensures feeds { self.new.feeds ≡ self.old.feeds }
        ensures cleans { SharedCleans (shared_in self.old holding) (noted_of self.old.store) result
            (shared_in self.new holding) (noted_of self.new.store) }
        ensures each_cut { EachCutStands (shared_in self.new holding) }
        ensures follows { Continues (shared_in self.old holding) (shared_in self.new holding) }
    {
        self.stock.renew(rt)?;
        let cleaned = self.store.clean(rt)?;
        self.stock.give_up(cleaned.lease);
        self.stock.owe();
        self.stock.renew(rt)?;
        Ok(cleaned)
    }

    /// As `Home::make_spare`.
    pub fn make_spare<R: System>(&mut self, rt: &R) -> Result<(), HomeFault>
        requires { IsShared self.old holding }
        ensures ready { IsShared self.new holding }
        ensures feeds { self.new.feeds ≡ self.old.feeds }
        ensures same { shared_in self.new holding ≡ shared_in self.old holding }
        ensures noted { noted_of self.new.store ≡ noted_of self.old.store }
        ensures refused { IfErr result IsOfSite }
    {
        self.stock.make_spare(rt)
    }

    /// Lets pages leave memory until those that stay take at most `Options::page_bytes`, and
    /// answers how many bytes they take. As `Home::keep_pages`, but no page is written again first.
    /// What readers are shown stays in memory.
    pub fn keep_pages(&mut self) -> u64
        requires { IsShared self.old holding }
        ensures ready { IsShared self.new holding }
        ensures feeds { self.new.feeds ≡ self.old.feeds }
        ensures same { shared_in self.new holding ≡ shared_in self.old holding }
        ensures noted { noted_of self.new.store ≡ noted_of self.old.store }
    {
        let mut none = Vec::new(*self.feeds.allocator());
        self.store.keep_pages(self.page_bytes, &mut none)
    }

    // The leases of the live segments, the oldest first.
    fn live_leases(&self) -> Result<Vec<u32>, AllocError>
        requires { IsShared self.now holding }
    {
        let mut leases = Vec::new(*self.feeds.allocator());
        for i in 0..self.store.live() {
            if let Some((_, lease, _)) = self.store.live_segment(i) {
                leases.push(lease)?;
            }
        }
        Ok(leases)
    }

    /// As `Home::row`.
    pub fn row(&mut self) -> Result<Vec<u32>, AllocError>
        requires { IsShared self.old holding }
        ensures ready { IsShared self.new holding }
        ensures feeds { self.new.feeds ≡ self.old.feeds }
        ensures same { shared_in self.new holding ≡ shared_in self.old holding }
        ensures noted { noted_of self.new.store ≡ noted_of self.old.store }
    {
        let live = self.live_leases()?;
        self.stock.row(*self.feeds.allocator(), live)
    }

    /// As `Home::empty_row`.
    pub fn empty_row<R: System>(&mut self, rt: &R, row: &[u32]) -> Result<(), FolderFault>
        requires { IsShared self.old holding }
        ensures ready { IsShared self.new holding }
        ensures feeds { self.new.feeds ≡ self.old.feeds }
        ensures same { shared_in self.new holding ≡ shared_in self.old holding }
        ensures noted { noted_of self.new.store ≡ noted_of self.old.store }
    {
        self.stock.empty_row(rt, row)
    }

    fn next_made(&mut self) -> Option<Made>
        requires { IsShared self.old holding }
        ensures ready { IsShared self.new holding }
        ensures begun { IsSharedBegun self.old holding → IsSharedBegun self.new holding }
    {
        self.stock.next_made()
    }

    fn add(&mut self, spare: Box<dyn Segment>)
        requires { IsSharedBeside self.old holding }
        ensures ready { IsSharedBeside self.new holding }
        ensures begun { IsSharedBegunBeside self.old holding
            → IsSharedBegunBeside self.new holding }
    {
        let _ = self.store.add_segment(spare);
    }

    // Ends the store: its readers are refused from then on.
    fn shut<R: System>(self, rt: &R)
        requires { IsShared self holding }
    {
        let SharedHome {
            store,
            feeds: _feeds,
            stock: _stock,
            page_bytes: _,
        } = self;
        let _ = store.shut(rt);
    }
}

// As `begin`.
fn begin<R: System>(
    rt: &R,
    options: &Options,
    readers: usize,
    boxes: Vec<Box<dyn Segment>>,
    are_new: bool,
    mut site: Site,
    found: Option<Found>,
) -> Result<SharedHome, NotHeld>
    requires { Unit {0} }
    ensures ready { IfOk result (λ home. IsSharedBeside home holding) }
    ensures made { are_new ≡ true → IfOk result (λ home. kept_beside home.store holding
        ≡ opened (map ring_of_feed home.feeds.items) options.now.pairs_a_page
        options.now.frame_bytes (map holding boxes.items)
        (kept_beside home.store holding).versions) }
    ensures begins { are_new ≡ false → IfOk result (λ home.
        Begins (map holding boxes.items) (core_of (kept_beside home.store holding))) }
    ensures feeds { IfOk result (λ home. AreUnused options.now.writers
        options.now.queue_groups home.feeds.items) }
    ensures begun { IfOk result (λ home. IsSharedBegunBeside home holding) }
{
    if are_new {
        site.settle(rt)?;
        return Ok(SharedHome::open(rt, options, readers, boxes, site, found)?);
    }
    let found = held_in(rt, &mut site, boxes)?;
    Ok(SharedHome::reopen(rt, options, readers, found, site)?)
}

/// How a store with readers is opened, and what was found there.
#[derive(Clone, Copy)]
struct Opening<'a> {
    dir: Option<&'a str>,
    leases: u32,
    readers: usize,
    attempt: Attempt,
}

// As `go` of a store without readers.
fn go<R: System, L: SharedLegs<R>>(
    rt: &R,
    opening: &mut Opening<'_>,
    options: &Options,
    legs: &mut L,
) -> Result<Option<L::Answer>, HomeFault>
    ensures answer { IfOk result (λ went. IfSome went (λ answer. L.says legs.old answer)) }
    ensures anew { IfOk result (λ went. IsNone went → legs.new ≡ legs.old) }
{
    let attempt = opening.attempt;
    let Some((mut site, count, capacity)) = site_of(
        rt,
        opening.dir,
        opening.leases,
        options,
        attempt.way,
    )?
    else {
        opening.attempt = attempt.anew();
        return Ok(None);
    };
    let options = &Options {
        capacity,
        ..*options
    };
    let mut boxes: Vec<Box<dyn Segment>> = Vec::new(rt.alloc());
    let mut are_new = true;
    for _ in 0..count {
        let Some(made) = segment_of(rt, &mut site, options.capacity, attempt.way)? else {
            opening.attempt = attempt.anew();
            return Ok(None);
        };
        are_new &= made.is_empty();
        let segment: Box<dyn Segment> = match made {
            Made::Memory(segment) => segment,
            Made::File(segment) => segment,
        };
        boxes.push(segment)?;
    }
    let mut home = match begin(
        rt,
        options,
        opening.readers,
        boxes,
        are_new,
        site,
        attempt.found,
    ) {
        Ok(home) => home,
        Err(NotHeld::Fault(fault)) => return Err(fault),
        Err(NotHeld::Cleared(cleared)) => {
            opening.attempt = attempt.cleared(cleared);
            return Ok(None);
        }
    };
    'legs: for _ in rt.forever() {
        if let Some(made) = home.next_made() {
            let spare: Box<dyn Segment> = match made {
                Made::Memory(segment) => segment,
                Made::File(segment) => segment,
            };
            home.add(spare);
        } else if let Some(answer) = legs.leg(rt, &mut home) {
            home.shut(rt);
            return Ok(Some(answer));
        }
    }
    unreachable!()
}

/// Opens a store as `with_store_at` does, but with places for so many readers, 1 to 64, goes leg by
/// leg over it, and ends it.
pub fn with_readers<R: System, L: SharedLegs<R>>(
    rt: &R,
    dir: Option<&str>,
    leases: u32,
    readers: usize,
    options: &Options,
    legs: &mut L,
) -> Result<L::Answer, HomeFault>
    ensures answer { IfOk result (λ answer. L.says legs.old answer) }
{
    let mut opening = Opening {
        dir,
        leases,
        readers,
        attempt: Attempt::first(dir),
    };
    if let Some(answer) = go(rt, &mut opening, options, legs)? {
        return Ok(answer);
    }
    if let Some(answer) = go(rt, &mut opening, options, legs)? {
        return Ok(answer);
    }
    match go(rt, &mut opening, options, legs)? {
        Some(answer) => Ok(answer),
        None => Err(HomeFault::Recovery(RecoverCause::Empty)),
    }
}
