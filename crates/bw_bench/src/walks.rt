//! Walks over all pairs in the order of their keys, and ranges of pairs from scattered keys on: a
//! pair a call, and by stretches of pairs that are copied, or that share their bytes with the
//! pages.

ghost use Rattle.bw_store.specs.Views.{IsSound};
ghost use Rattle.bw_bench.specs.Lent.{Keeps};

use crate::bench::Bench;
use crate::shape::Shape;
use crate::stop::Stop;
use bw_codec::{Key, Pair, Value};
use bw_store::{Store, StoreFault};

/// How the pairs of a stretch are taken.
#[derive(Clone, Copy)]
enum Way {
    PairByPair,
    Copied,
    Shared,
}

/// A walk, which is made of stretches.
#[derive(Clone, Copy)]
struct Walk {
    name: &'static str,
    way: Way,
    /// How many pairs a stretch has at most.
    most: u64,
    /// Whether a stretch begins anywhere; else it begins where the one before it ended.
    is_scattered: bool,
}

const WALKS: &[Walk] = &[
    Walk {
        name: "walk, a pair a call",
        way: Way::PairByPair,
        most: 1,
        is_scattered: false,
    },
    Walk {
        name: "walk, pairs copied",
        way: Way::Copied,
        most: 64,
        is_scattered: false,
    },
    Walk {
        name: "walk, pairs shared",
        way: Way::Shared,
        most: 64,
        is_scattered: false,
    },
    Walk {
        name: "ranges of 100, pairs shared",
        way: Way::Shared,
        most: 100,
        is_scattered: true,
    },
];

impl Walk {
    /// How many lesser keys there are than the first of a stretch.
    fn first(self, shape: Shape, stretch: u64) -> u64 {
        if self.is_scattered {
            shape.number(stretch)
        } else {
            stretch.saturating_mul(self.most)
        }
    }
}

/// Pairs that were found.
#[derive(Drop)]
struct Found {
    copied: Vec<(Key, Value)>,
    shared: Vec<Pair>,
}

/// How many pairs a walk has, and how many bytes their values.
#[derive(Clone, Copy)]
struct Walked {
    pairs: u64,
    bytes: u64,
}

fn bytes_of_copies(pairs: &[(Key, Value)]) -> u64 {
    let mut bytes = 0u64;
    for pair in pairs {
        bytes = bytes.saturating_add(pair.1.as_slice().len() as u64);
    }
    bytes
}

fn bytes_of_shared(pairs: &[Pair]) -> u64 {
    let mut bytes = 0u64;
    for pair in pairs {
        bytes = bytes.saturating_add(pair.value().len() as u64);
    }
    bytes
}

/// How many bytes the values of a stretch have, which begins at a key.
fn taken(store: &mut Store, walk: Walk, from: &Key, found: &mut Found) -> Result<u64, StoreFault>
    requires { IsSound store.old holding }
    ensures { Keeps store.old store.new holding }
{
    let most = walk.most as usize;
    match walk.way {
        Way::PairByPair => match store.next_at(from)? {
            Some((_, value)) => Ok(value.as_slice().len() as u64),
            None => Ok(0),
        },
        Way::Copied => {
            store.scan(from, most, &mut found.copied)?;
            Ok(bytes_of_copies(&found.copied))
        }
        Way::Shared => {
            store.scan_shared(from, most, &mut found.shared)?;
            Ok(bytes_of_shared(&found.shared))
        }
    }
}

/// How many bytes the values of a stretch have, which begins at a key. A refusal is printed.
fn stretch(
    bench: &Bench,
    store: &mut Store,
    walk: Walk,
    from: &Key,
    found: &mut Found,
) -> Option<u64>
    requires { IsSound store.old holding }
    ensures { Keeps store.old store.new holding }
{
    match taken(store, walk, from, found) {
        Ok(bytes) => Some(bytes),
        Err(fault) => bench.refused(fault),
    }
}

/// The stretches of a walk, one after the other: as many as all pairs fill.
fn stretches(bench: &Bench, store: &mut Store, walk: Walk, found: &mut Found) -> Option<Walked>
    requires { IsSound store.old holding }
    ensures { Keeps store.old store.new holding }
{
    let shape = bench.options.shape();
    let mut pairs = 0u64;
    let mut bytes = 0u64;
    'stretches: for i in 0..shape.keys.div_ceil(walk.most.max(1)) {
        let first = walk.first(shape, i);
        let from = shape.key_at(first)?;
        bytes = bytes.saturating_add(stretch(bench, store, walk, &from, found)?);
        pairs = pairs.saturating_add(walk.most.min(shape.keys.saturating_sub(first)));
    }
    Some(Walked { pairs, bytes })
}

/// Makes a walk and prints what it took. It may leave nothing out.
fn make(bench: &Bench, store: &mut Store, walk: Walk, found: &mut Found) -> Option<()>
    requires { IsSound store.old holding }
    ensures { Keeps store.old store.new holding }
{
    let start = bench.now();
    let walked = stretches(bench, store, walk, found)?;
    bench.tell(walk.name, walked.pairs, bench.since(start));
    if walked.bytes
        != walked
            .pairs
            .saturating_mul(u64::from(bench.options.value_length))
    {
        return bench.stop(Stop::Wrong, "a walk that leaves something out");
    }
    Some(())
}

/// Makes each walk.
pub fn walks(bench: &Bench, store: &mut Store) -> Option<()>
    requires { IsSound store.old holding }
    ensures { Keeps store.old store.new holding }
{
    let mut found = Found {
        copied: Vec::new(bench.alloc),
        shared: Vec::new(bench.alloc),
    };
    'walks: for walk in WALKS {
        make(bench, store, *walk, &mut found)?;
    }
    Some(())
}
