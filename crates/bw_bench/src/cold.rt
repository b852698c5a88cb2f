//! Pages that stand only in the log: what it costs to read them, and to bring them back by a put.
//!
//! All pages are first written whole, so each is read from one block. Then a key of each page is
//! changed four times, each time in another frame, so each is read from five. All keys are read in
//! between, and the same from pages in memory.

ghost use Rattle.bw_core.specs.Views.{IsSound};

use crate::bare::put_script;
use crate::bench::Bench;
use crate::mixed::mixed;
use crate::reads::read_in_each_way;
use crate::rounds::Rounds;
use crate::shape::{Shape, Span, WHOLE};
use crate::stop::Stop;
use bw_codec::Leaf;
use bw_core::Core;
use bw_ring::Feed;
use std::alloc::Global;

/// How often a key of each page is changed while its page is in memory, after the change that
/// brought it back.
const MORE: u32 = 3;

// The numbers of so many pages.
fn numbers_of(alloc: Global, pages: u32) -> Option<Vec<u32>> {
    let mut numbers = Vec::new(alloc);
    for before in 0..pages {
        numbers.push(before.saturating_add(1)).ok()?;
    }
    Some(numbers)
}

/// Writes all pages whole.
pub fn write_whole(bench: &Bench, core: &mut Core) -> Option<()>
    requires { IsSound core.old holding }
    ensures { IsSound core.new holding }
{
    let pages = numbers_of(bench.alloc, core.pages())?;
    let start = bench.now();
    if let Err(fault) = core.rewrite(&pages) {
        return bench.refused(fault);
    }
    bench.tell(
        "pages written whole",
        pages.len() as u64,
        bench.since(start),
    );
    Some(())
}

// All pages leave memory.
fn let_go(bench: &Bench, core: &mut Core) -> Option<()>
    requires { IsSound core.old holding }
    ensures { IsSound core.new holding }
{
    let pages = numbers_of(bench.alloc, core.pages())?;
    let start = bench.now();
    'pages: for page in &pages {
        match core.evict(*page) {
            Ok(true) => {}
            Ok(false) => return bench.stop(Stop::Refused, "a page that stays"),
            Err(fault) => return bench.refused(fault),
        }
    }
    bench.tell("pages that left", pages.len() as u64, bench.since(start));
    Some(())
}

// The number of the first key on a page.
fn first_on(shape: Shape, page: &Leaf) -> Option<u64> {
    Some(shape.number_of(page.pairs.as_slice().first()?.key()))
}

// The number of the first key on each page.
fn firsts_of(bench: &Bench, core: &mut Core) -> Option<Vec<u64>>
    requires { IsSound core.old holding }
    ensures { IsSound core.new holding }
{
    let mut firsts = Vec::new(bench.alloc);
    'pages: for page in &numbers_of(bench.alloc, core.pages())? {
        match core.page(*page) {
            Ok(leaf) => firsts.push(first_on(bench.options.shape(), &leaf)?).ok()?,
            Err(fault) => return bench.refused(fault),
        }
    }
    Some(firsts)
}

// Changes each of these keys once more.
fn put_each(
    bench: &Bench,
    core: &mut Core,
    feed: &mut Feed,
    rounds: &mut Rounds,
    numbers: &[u64],
    name: &'static str,
) -> Option<()>
    requires { IsSound core.old holding }
    ensures { IsSound core.new holding }
{
    let script = rounds.changes(bench.alloc, numbers)?;
    let cost = put_script(bench, core, feed, &script, name)?;
    let span = Span {
        name,
        from: 0,
        to: numbers.len() as u64,
    };
    bench.tell_cost(span, cost);
    Some(())
}

// Changes a key of each page that is in the log, and then again while it is in memory.
fn change_pages(
    bench: &Bench,
    core: &mut Core,
    feed: &mut Feed,
    rounds: &mut Rounds,
    firsts: &[u64],
) -> Option<()>
    requires { IsSound core.old holding }
    ensures { IsSound core.new holding }
{
    put_each(
        bench,
        core,
        feed,
        rounds,
        firsts,
        "put, its page in the log",
    )?;
    'times: for _ in 0..MORE {
        put_each(bench, core, feed, rounds, firsts, "put, its page in memory")?;
    }
    Some(())
}

// New keys, whose pages are then written whole: how often each key was changed.
fn load(bench: &Bench, core: &mut Core, feed: &mut Feed) -> Option<Rounds>
    requires { IsSound core.old holding }
    ensures { IsSound core.new holding }
{
    let shape = bench.options.shape();
    let (load, _) = bench.options.spans();
    let script = shape.script(bench.alloc, load, WHOLE)?;
    let cost = put_script(bench, core, feed, &script, load.name)?;
    bench.tell_cost(load, cost);
    write_whole(bench, core)?;
    Rounds::new(bench.alloc, shape)
}

// Reads pages of one block, and of five.
fn read_pages(
    bench: &Bench,
    core: &mut Core,
    feed: &mut Feed,
    rounds: &mut Rounds,
    firsts: &[u64],
) -> Option<()>
    requires { IsSound core.old holding }
    ensures { IsSound core.new holding }
{
    read_in_each_way(bench, core, rounds, "in memory")?;
    let_go(bench, core)?;
    read_in_each_way(bench, core, rounds, "in the log, one block")?;
    change_pages(bench, core, feed, rounds, firsts)?;
    let_go(bench, core)?;
    read_in_each_way(bench, core, rounds, "in the log, five blocks")?;
    put_each(
        bench,
        core,
        feed,
        rounds,
        firsts,
        "put, its page in the log",
    )
}

/// Reads and changes pages in the log and in memory, and then a mix of both.
pub fn cold(bench: &Bench, core: &mut Core, feed: &mut Feed) -> Option<()>
    requires { IsSound core.old holding }
    ensures { IsSound core.new holding }
{
    let mut rounds = load(bench, core, feed)?;
    let firsts = firsts_of(bench, core)?;
    read_pages(bench, core, feed, &mut rounds, &firsts)?;
    mixed(bench, core, feed, &mut rounds)
}
