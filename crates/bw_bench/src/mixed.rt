//! As many gets as puts, of keys of which some are asked for far more often than others: with all
//! pages in memory, and with as many as take a tenth of their bytes.

ghost use Rattle.bw_core.specs.Views.{IsSound};

use crate::bare::{bytes_of, one_batch};
use crate::bench::Bench;
use crate::chances::Chances;
use crate::cold::write_whole;
use crate::cost::Cost;
use crate::reads::get_each;
use crate::rounds::{Found, Rounds};
use bw_core::Core;
use bw_ring::Feed;

/// How many pages are written again at once, before they leave.
const LONG: usize = 16;

/// How often pages are written again at most until so few are in memory.
const TIMES: u32 = 64;

/// What a mix took, in nanoseconds, and how many keys were not read as they are.
#[derive(Clone, Copy)]
struct Took {
    gets: u64,
    puts: u64,
    keeps: u64,
    wrong: u64,
}

impl Took {
    const NONE: Took = Took {
        gets: 0,
        puts: 0,
        keeps: 0,
        wrong: 0,
    };

    /// With what one more batch took.
    fn and(self, more: Took) -> Took {
        Took {
            gets: self.gets.saturating_add(more.gets),
            puts: self.puts.saturating_add(more.puts),
            keeps: self.keeps.saturating_add(more.keeps),
            wrong: self.wrong.saturating_add(more.wrong),
        }
    }
}

/// Prints what so many gets and as many puts took.
fn tell_took(bench: &Bench, name: &'static str, half: u64, took: Took) -> Option<()> {
    let all = took
        .gets
        .saturating_add(took.puts)
        .saturating_add(took.keeps);
    let both = half.saturating_mul(2);
    bench.tell("  get", half, took.gets);
    bench.tell("  put", half, took.puts);
    bench.tell_each("  keep_pages", both, took.keeps, "ns");
    bench.tell_each("  all of it", both, all, "ns");
    bench.tell_wrong(name, half, took.wrong)
}

// Writes these pages again, and lets them leave.
fn write_again(bench: &Bench, core: &mut Core, pages: &[u32]) -> Option<()>
    requires { IsSound core.old holding }
    ensures { IsSound core.new holding }
{
    if let Err(fault) = core.rewrite(pages) {
        return bench.refused(fault);
    }
    'pages: for page in pages {
        let _ = core.evict(*page);
    }
    Some(())
}

// Lets pages leave until those in memory take so many bytes. Those that would be read from many
// frames are first written again.
fn keep(bench: &Bench, core: &mut Core, bytes: u64) -> Option<()>
    requires { IsSound core.old holding }
    ensures { IsSound core.new holding }
{
    'times: for _ in 0..TIMES {
        let mut long = Vec::with_capacity(bench.alloc, LONG).ok()?;
        let _ = core.keep_pages(bytes, &mut long);
        if long.is_empty() {
            return Some(());
        }
        write_again(bench, core, &long)?;
    }
    Some(())
}

// Gets of keys that are drawn, then puts of others; then pages leave.
fn mix_once(
    bench: &Bench,
    core: &mut Core,
    feed: &mut Feed,
    rounds: &mut Rounds,
    chances: &mut Chances,
    half: u64,
    bytes: u64,
) -> Option<Took>
    requires { IsSound core.old holding }
    ensures { IsSound core.new holding }
{
    let mut found = Found::new(bench.alloc);
    let asked = chances.some(bench.alloc, half)?;
    let changed = chances.some(bench.alloc, half)?;
    let start = bench.now();
    get_each(bench, core, &asked, &mut found.copied)?;
    let gets = bench.since(start);
    let wrong = rounds.wrong_copies(&asked, &found.copied);
    let script = rounds.changes(bench.alloc, &changed)?;
    let cost = one_batch(bench, core, feed, &script, Cost::NONE)?;
    let start = bench.now();
    keep(bench, core, bytes)?;
    Some(Took {
        gets,
        puts: cost.all(),
        keeps: bench.since(start),
        wrong,
    })
}

// The mix, with so many bytes of pages in memory at most.
fn mix(
    bench: &Bench,
    core: &mut Core,
    feed: &mut Feed,
    rounds: &mut Rounds,
    bytes: u64,
    name: &'static str,
) -> Option<()>
    requires { IsSound core.old holding }
    ensures { IsSound core.new holding }
{
    bench.tell_name(name);
    let mut chances = Chances::new(bench.alloc, bench.options.shape())?;
    let half = (u64::from(bench.options.batch) / 2).max(1);
    let times = u64::from(bench.options.operations).div_ceil(half.saturating_mul(2).max(1));
    let mut took = Took::NONE;
    'times: for _ in 0..times {
        let more = mix_once(bench, core, feed, rounds, &mut chances, half, bytes)?;
        took = took.and(more);
    }
    tell_took(bench, name, half.saturating_mul(times), took)
}

// The mix over pages that were written whole, and what it had to read and to write.
fn mix_and_tell(
    bench: &Bench,
    core: &mut Core,
    feed: &mut Feed,
    rounds: &mut Rounds,
    bytes: u64,
    name: &'static str,
) -> Option<()>
    requires { IsSound core.old holding }
    ensures { IsSound core.new holding }
{
    write_whole(bench, core)?;
    keep(bench, core, bytes)?;
    let (had, before) = (bytes_of(core), core.counters());
    mix(bench, core, feed, rounds, bytes, name)?;
    let (has, after) = (bytes_of(core), core.counters());
    let operations = u64::from(bench.options.operations);
    let added = has.saturating_sub(had);
    let reads = after.reads.saturating_sub(before.reads);
    let left = after.evictions.saturating_sub(before.evictions);
    bench.tell_each("  in the log", operations, added, "bytes");
    bench.tell_each("  reads of pages in the log", reads, 0, "");
    bench.tell_each("  pages that left", left, 0, "");
    Some(())
}

/// The mix with all pages in memory, and with a tenth of them.
pub fn mixed(bench: &Bench, core: &mut Core, feed: &mut Feed, rounds: &mut Rounds) -> Option<()>
    requires { IsSound core.old holding }
    ensures { IsSound core.new holding }
{
    let tenth = core.bytes_here() / 10;
    mix_and_tell(bench, core, feed, rounds, u64::MAX, "mixed, all in memory")?;
    mix_and_tell(bench, core, feed, rounds, tenth, "mixed, a tenth in memory")
}
