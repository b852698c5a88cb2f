//! One writer in the store's own thread.

ghost use Rattle.std.specs.Prelude.{◌≡◌, ◌<◌, length, map};
ghost use Rattle.bw_ring.specs.Ends.{ring_of_feed};
ghost use Rattle.bw_store.specs.Views.{IsSound};
ghost use Rattle.bw_bench.specs.Lent.{Keeps};

use crate::asking::{evict_all, get_all, read_all, read_back, reader_of};
use crate::batches::{bytes_of, put_script};
use crate::bench::Bench;
use crate::beside::{end_if, start_if};
use crate::cost::Cost;
use crate::report::Seen;
use crate::shape::{Span, WHOLE};
use crate::stop::Stop;
use crate::subject::Subject;
use crate::walks::walks;
use crate::watch::resident;
use bw_ring::Feed;
use bw_store::Store;
use std::sync::Wait;
use std::thread::Threads;

/// Of how many keys one is asked for when all pages are evicted.
const KEYS_AWAY: u64 = 16;

/// How many bytes the log and the memory have gained over those before.
fn tell_growth(bench: &Bench, store: &Store, span: Span, before: u64, had: u64)
    requires { IsSound store.now holding }
{
    let added = bytes_of(store).saturating_sub(had);
    bench.tell_each("  in the log", span.count(), added, "bytes");
    // Segments of this run stand in memory: what they got is no part of what stands beside them.
    let grown = resident(bench).saturating_sub(before).saturating_sub(added);
    bench.tell_each("  in memory, beside the log", span.count(), grown, "bytes");
}

/// Gets of the store, and of a reader.
fn gets(bench: &Bench, store: &mut Store) -> Option<()>
    requires { IsSound store.old holding }
    ensures { Keeps store.old store.new holding }
{
    let count = u64::from(bench.options.operations);
    get_all(bench, store, "get", count)?;
    let mut reader = reader_of(bench, store)?;
    read_all(bench, &mut reader, count)
}

/// Pages leave memory, and some values are asked for.
fn gets_evicted(bench: &Bench, store: &mut Store) -> Option<()>
    requires { IsSound store.old holding }
    ensures { Keeps store.old store.new holding }
{
    let start = bench.now();
    let pages = evict_all(bench, store)?;
    let nanos = bench.since(start);
    bench.tell_each("evict, pages", pages, nanos, "ns");
    let count = (u64::from(bench.options.keys) / KEYS_AWAY).max(1);
    let puts = bench.options.puts();
    get_all(bench, store, "get of an evicted page", count)?;
    read_back(bench, store, "evicted", count, puts)
}

impl<R: Threads + Wait> Subject<'_, R> {
    /// Puts, takes and flushes the records of a span, a reader beside it or not.
    fn put(&self, store: &mut Store, feed: &mut Feed, span: Span) -> Option<(Cost, Option<Seen>)>
        requires { IsSound store.old holding }
        ensures store { Keeps store.old store.new holding }
        ensures feed { ring_of_feed feed.new ≡ ring_of_feed feed.old }
    {
        let Subject { rt, bench, course } = *self;
        let script = bench.options.shape().script(bench.alloc, span, WHOLE)?;
        let looker = start_if(rt, bench, store, span.to, course.is_read)?;
        let cost = put_script(rt, bench, store, feed, &script, course.is_late, span.name);
        let seen = end_if(rt, looker, cost.is_some());
        Some((cost?, seen))
    }

    /// Puts, takes and flushes the records of a span, and says what that cost; then all keys are
    /// read back.
    fn put_span(&self, store: &mut Store, feed: &mut Feed, span: Span) -> Option<()>
        requires { IsSound store.old holding }
        ensures store { Keeps store.old store.new holding }
        ensures feed { ring_of_feed feed.new ≡ ring_of_feed feed.old }
    {
        let bench = self.bench;
        let (before, had) = (resident(bench), bytes_of(store));
        let (cost, seen) = self.put(store, feed, span)?;
        bench.tell_cost(span, cost);
        bench.tell_seen(seen)?;
        tell_growth(bench, store, span, before, had);
        let keys = u64::from(bench.options.keys);
        read_back(bench, store, span.name, keys, span.to)
    }

    /// New keys, then old ones; and if there is nothing beside and readers see all, gets and walks.
    fn put_and_get(&self, store: &mut Store, feed: &mut Feed) -> Option<()>
        requires { IsSound store.old holding }
        ensures store { Keeps store.old store.new holding }
        ensures feed { ring_of_feed feed.new ≡ ring_of_feed feed.old }
    {
        let (load, update) = self.bench.options.spans();
        self.put_span(store, feed, load)?;
        self.put_span(store, feed, update)?;
        if self.course.is_read || self.course.is_late {
            return Some(());
        }
        gets(self.bench, store)?;
        walks(self.bench, store)?;
        gets_evicted(self.bench, store)
    }

    // What `put_and_get` does, by the first of the feeds, of which there is one.
    fn by_first(&self, store: &mut Store, feeds: &mut Vec<Feed>) -> Option<()>
        requires sound { IsSound store.old holding }
        requires some { 0 < length feeds.old.items }
        ensures store { Keeps store.old store.new holding }
        ensures feeds { map ring_of_feed feeds.new.items ≡ map ring_of_feed feeds.old.items }
    {
        self.put_and_get(store, &mut feeds[0])
    }

    /// What `put_and_get` does, by the first of the feeds; refused if there is none.
    pub fn alone(&self, store: &mut Store, feeds: &mut Vec<Feed>) -> Option<()>
        requires { IsSound store.old holding }
        ensures store { Keeps store.old store.new holding }
        ensures feeds { map ring_of_feed feeds.new.items ≡ map ring_of_feed feeds.old.items }
    {
        if feeds.is_empty() {
            return self.bench.stop(Stop::Refused, "a store without a writer");
        }
        self.by_first(store, feeds)
    }
}
