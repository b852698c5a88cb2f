//! One reader beside publications, step by step.

ghost use Rattle.std.specs.Prelude.{◌≡◌, []};
ghost use mathlib.Core.List.{IsPrefix};
ghost use Rattle.bw_versions.specs.Batches.{entries_of};

use super::{Case, Stand, enter, over, page_is, publish, stretch_is, value_is};
use bw_versions::Reader;
use std::sync::Wait;
use test_kit::vectors::{del, put};

/// One call, with what it has to answer.
#[derive(Drop)]
pub(super) enum Step {
    /// Enters a record in the history.
    Put(&'static str, &'static str),
    Del(&'static str),
    /// Publishes the history.
    Publish,
    /// The reader hears what is published.
    Learn,
    /// The value of a key; no text if there is none.
    Get(&'static str, &'static str),
    /// A page; no text if there is none.
    Page(u32, &'static str),
    /// The pairs from a key on, and no more than so many.
    Scan(&'static str, usize, &'static str),
}

use Step::{Del, Get, Learn, Page, Publish, Put, Scan};

// The second try is for a run in which a growth of the first is refused.
fn published<R: Wait>(rt: &R, stand: &mut Stand) -> bool
    requires begins { IsPrefix (entries_of stand.old.versions.entered) stand.old.history.items }
    ensures begins { IsPrefix (entries_of stand.new.versions.entered) stand.new.history.items }
    ensures book { stand.new.versions.book ≡ stand.old.versions.book }
{
    publish(rt, stand) || publish(rt, stand)
}

/// Whether the step went as expected.
fn goes<R: Wait>(rt: &R, stand: &mut Stand, reader: &mut Reader, step: &Step) -> bool
    requires begins { IsPrefix (entries_of stand.old.versions.entered) stand.old.history.items }
    requires own { reader.old.book ≡ stand.old.versions.book }
    ensures begins { IsPrefix (entries_of stand.new.versions.entered) stand.new.history.items }
    ensures own { reader.new.book ≡ stand.new.versions.book }
{
    match step {
        Put(key, value) => enter(stand, 0, put(key.as_bytes(), value.as_bytes())),
        Del(key) => enter(stand, 0, del(key.as_bytes())),
        Publish => published(rt, stand),
        Learn => {
            reader.learn(stand.versions.news());
            true
        }
        Get(key, text) => value_is(reader, *key, *text),
        Page(page, text) => page_is(reader, *page, *text),
        Scan(key, most, text) => stretch_is(reader, *key, *most, *text),
    }
}

/// The first step that did not go as expected with a new reader.
pub(super) fn walked<R: Wait>(rt: &R, stand: &mut Stand, steps: &[Step]) -> Option<usize>
    requires { stand.old.versions.entered ≡ [] }
{
    let Ok(mut reader) = stand.versions.reader() else {
        return Some(0);
    };
    for (i, step) in steps.iter().enumerate() {
        if !goes(rt, stand, &mut reader, step) {
            return Some(i);
        }
    }
    None
}

const FIRST: &[Step] = &[
    Get("a", ""),
    Page(1, ""),
    Scan("a", 9, ""),
    Publish,
    Get("a", ""),
    Scan("a", 9, ""),
    Page(1, ":"),
    Page(2, ""),
    Put("a", "1"),
    Get("a", ""),
    Page(0, ""),
];

/// The worked split: the fifth pair cuts page 1, which keeps the first two.
const SPLIT: &[Step] = &[
    Put("a", "1"),
    Publish,
    Put("b", "2"),
    Put("c", "3"),
    Publish,
    Page(1, ": a=1 b=2 c=3"),
    Put("d", "4"),
    Put("e", "5"),
    Page(1, ": a=1 b=2 c=3"),
    Publish,
    Page(1, ": a=1 b=2"),
    Page(2, "c: c=3 d=4 e=5"),
    Scan("a", 9, " a=1 b=2 c=3 d=4 e=5"),
    Scan("b", 3, " b=2 c=3 d=4"),
    Scan("bz", 1, " c=3"),
    Scan("d", 2, " d=4 e=5"),
    Scan("e", 0, ""),
    Scan("f", 9, ""),
    Page(3, ""),
    Put("bz", "6"),
    Put("c", "7"),
    Publish,
    Page(1, ": a=1 b=2 bz=6"),
    Page(2, "c: c=7 d=4 e=5"),
    Get("c", "7"),
];

/// A record twice, and its deletion twice; what is published stays until the next publication.
const DELETED: &[Step] = &[
    Put("k", "1"),
    Put("k", "1"),
    Publish,
    Del("k"),
    Get("k", "1"),
    Publish,
    Publish,
    Get("k", ""),
    Del("k"),
    Put("k", "2"),
    Publish,
    Learn,
    Get("k", "2"),
];

/// News of nothing, news heard twice, and news after a read.
const TOLD: &[Step] = &[
    Learn,
    Get("k", ""),
    Put("k", "1"),
    Publish,
    Learn,
    Learn,
    Get("k", "1"),
    Put("k", "2"),
    Learn,
    Publish,
    Get("k", "2"),
    Learn,
    Page(1, ": k=2"),
    Get("j", ""),
];

#[test]
fn a_reader_reads_what_is_published(rt: HostRuntime) {
    assert_eq!(rt; over(&rt, 1, &Case::Steps(FIRST)), None);
    assert_eq!(rt; over(&rt, 2, &Case::Steps(SPLIT)), None);
    assert_eq!(rt; over(&rt, 64, &Case::Steps(DELETED)), None);
    assert_eq!(rt; over(&rt, 1, &Case::Steps(TOLD)), None);
}
