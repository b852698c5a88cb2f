//! Two publishers, each with readers of its own.

ghost use Rattle.std.specs.Prelude.{◌≡◌};

use super::{entries, start, value_is};
use bw_versions::{Batch, Publisher};
use std::alloc::Global;
use std::sync::Wait;
use test_kit::tables::first_false;

fn batch(alloc: Global, value: &str) -> Option<Batch> {
    let entries = entries(alloc, &[("k", value)])?;
    Some(Batch::new(Some(start(alloc).ok()?), entries))
}

// Whether a value is published to all readers.
fn publishes<R: Wait>(rt: &R, alloc: Global, publisher: &mut Publisher, value: &str) -> bool
    ensures { publisher.new.entered.book ≡ publisher.old.entered.book }
{
    let Some(batch) = batch(alloc, value) else {
        return false;
    };
    publisher.publish(rt, batch).is_ok() && publisher.catch_up(rt).is_ok()
}

// Whether a value is published, and a reader that learnt what is published reads it.
fn reads<R: Wait>(rt: &R, alloc: Global, publisher: &mut Publisher, value: &str) -> bool {
    let Ok(mut reader) = publisher.reader() else {
        return false;
    };
    let are_told = publishes(rt, alloc, publisher, value);
    reader.learn(publisher.news());
    are_told && value_is(&mut reader, "k", value)
}

// Whether a value is read by both, and by readers that were made before anything was published.
fn both_read<R: Wait>(
    rt: &R,
    alloc: Global,
    one: &mut Publisher,
    other: &mut Publisher,
) -> Option<[bool; 4]> {
    let mut first = one.reader().ok()?;
    let mut second = other.reader().ok()?;
    let are_read = [
        reads(rt, alloc, one, "1"),
        reads(rt, alloc, other, "2"),
        value_is(&mut first, "k", "1"),
        value_is(&mut second, "k", "2"),
    ];
    Some(are_read)
}

fn two_read<R: AllocGlobal + Wait>(rt: &R) -> Option<[bool; 4]> {
    let mut one = Publisher::open(rt, rt.alloc(), 2).ok()?;
    let Ok(mut other) = Publisher::open(rt, rt.alloc(), 2) else {
        one.shut(rt);
        return None;
    };
    let said = both_read(rt, rt.alloc(), &mut one, &mut other);
    one.shut(rt);
    other.shut(rt);
    said
}

#[test]
fn readers_read_what_their_own_publisher_published(rt: HostRuntime) {
    assert_eq!(rt; first_false(&two_read(&rt).unwrap_or([false; 4])), None);
}
