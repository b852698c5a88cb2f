//! All keys are read from a store without readers, in four ways, and each is compared.

ghost use Rattle.bw_core.specs.Views.{IsSound};

use crate::bench::Bench;
use crate::rounds::{Found, Rounds};
use crate::shape::Shape;
use bw_codec::{Key, Pair, Value};
use bw_core::{Core, StoreFault};
use std::alloc::Global;

/// How many keys are read before they are compared, and how many a walk finds at once.
const STRETCH: u64 = 64;

/// How keys are read.
#[derive(Clone, Copy)]
enum Way {
    /// One after the other in a scattered order.
    Get,
    /// In their order, a pair a call.
    PairByPair,
    /// In their order, by stretches.
    Copied,
    Shared,
}

const WAYS: &[(&str, Way)] = &[
    ("  get", Way::Get),
    ("  next_at, a pair", Way::PairByPair),
    ("  scan, a pair", Way::Copied),
    ("  scan_shared, a pair", Way::Shared),
];

/// Asks for these keys: the pairs of those that have a value.
pub fn get_each(
    bench: &Bench,
    core: &mut Core,
    numbers: &[u64],
    pairs: &mut Vec<(Key, Value)>,
) -> Option<()>
    requires { IsSound core.old holding }
    ensures { IsSound core.new holding }
{
    pairs.clear();
    'keys: for number in numbers {
        let key = bench.options.shape().key_at(*number)?;
        match core.get(&key) {
            Ok(Some(value)) => pairs.push((key, value)).ok()?,
            Ok(None) => {}
            Err(fault) => return bench.refused(fault),
        }
    }
    Some(())
}

// Asks for the first pair at or above each of these keys.
fn next_each(
    bench: &Bench,
    core: &mut Core,
    numbers: &[u64],
    pairs: &mut Vec<(Key, Value)>,
) -> Option<()>
    requires { IsSound core.old holding }
    ensures { IsSound core.new holding }
{
    pairs.clear();
    'keys: for number in numbers {
        match core.next_at(&bench.options.shape().key_at(*number)?) {
            Ok(Some(pair)) => pairs.push(pair).ok()?,
            Ok(None) => {}
            Err(fault) => return bench.refused(fault),
        }
    }
    Some(())
}

// What a walk answered. A refusal is printed.
fn went(bench: &Bench, answer: Result<(), StoreFault>) -> Option<()> {
    match answer {
        Ok(()) => Some(()),
        Err(fault) => bench.refused(fault),
    }
}

// Reads these keys.
fn read_some(
    bench: &Bench,
    core: &mut Core,
    way: Way,
    numbers: &[u64],
    found: &mut Found,
) -> Option<()>
    requires { IsSound core.old holding }
    ensures { IsSound core.new holding }
{
    let from = bench.options.shape().key_at(*numbers.first()?)?;
    let most = numbers.len();
    match way {
        Way::Get => get_each(bench, core, numbers, &mut found.copied),
        Way::PairByPair => next_each(bench, core, numbers, &mut found.copied),
        Way::Copied => went(bench, core.scan(&from, most, &mut found.copied)),
        Way::Shared => went(bench, core.scan_shared(&from, most, &mut found.shared)),
    }
}

// The numbers of the keys of a stretch.
fn numbers_of(alloc: Global, shape: Shape, way: Way, stretch: u64) -> Option<Vec<u64>> {
    let first = stretch.saturating_mul(STRETCH);
    let mut numbers = Vec::new(alloc);
    for at in first..first.saturating_add(STRETCH).min(shape.keys) {
        let number = match way {
            Way::Get => shape.number(at),
            _ => at,
        };
        numbers.push(number).ok()?;
    }
    Some(numbers)
}

// How many of these keys were not read as they are.
fn wrong_of(rounds: &Rounds, way: Way, numbers: &[u64], found: &Found) -> u64 {
    match way {
        Way::Shared => rounds.wrong_shared(numbers, &found.shared),
        _ => rounds.wrong_copies(numbers, &found.copied),
    }
}

// Reads all keys in one way, and says how many were not read as they are.
fn read_all(
    bench: &Bench,
    core: &mut Core,
    rounds: &Rounds,
    name: &'static str,
    way: Way,
) -> Option<u64>
    requires { IsSound core.old holding }
    ensures { IsSound core.new holding }
{
    let shape = bench.options.shape();
    let mut found = Found::new(bench.alloc);
    let (mut nanos, mut wrong) = (0u64, 0u64);
    'stretches: for stretch in 0..shape.keys.div_ceil(STRETCH) {
        let numbers = numbers_of(bench.alloc, shape, way, stretch)?;
        let start = bench.now();
        read_some(bench, core, way, &numbers, &mut found)?;
        nanos = nanos.saturating_add(bench.since(start));
        wrong = wrong.saturating_add(wrong_of(rounds, way, &numbers, &found));
    }
    bench.tell(name, shape.keys, nanos);
    Some(wrong)
}

/// Reads all keys in each way.
pub fn read_in_each_way(
    bench: &Bench,
    core: &mut Core,
    rounds: &Rounds,
    name: &'static str,
) -> Option<()>
    requires { IsSound core.old holding }
    ensures { IsSound core.new holding }
{
    let (mut keys, mut wrong) = (0u64, 0u64);
    bench.tell_name(name);
    'ways: for &(how, way) in WAYS {
        wrong = wrong.saturating_add(read_all(bench, core, rounds, how, way)?);
        keys = keys.saturating_add(bench.options.shape().keys);
    }
    bench.tell_wrong(name, keys, wrong)
}
