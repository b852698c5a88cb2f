//! Calls on one chain.

use bw_codec::{Leaf, Place};
use bw_page::{Chain, empty_page};
use std::alloc::Global;
use test_kit::tables::{Table, WrongStep, tables_go};
use test_kit::vectors::{is_shown, packed_put};

/// One call on a chain, with what it has to answer.
enum Step {
    Put(&'static str, &'static str),
    /// The page as it is now stands in the log at this place.
    Mark(Place),
    /// The page stands in the log at this place, and nothing above it.
    Rest(Place),
    Evict(bool),
    Consolidate(bool),
    Reserve(usize),
    Deltas(usize),
    EndsOnLog(Option<Place>),
    /// The content over the page below, which is then the page below.
    Content(&'static str),
    /// The content over an empty page below.
    Alone(&'static str),
}

const FIRST: Place = Place { frame: 1, index: 1 };

const SECOND: Place = Place { frame: 2, index: 0 };

fn prepended(alloc: Global, chain: &mut Chain, key: &str, value: &str) -> bool {
    match packed_put(alloc, key.as_bytes(), value.as_bytes()) {
        Some(record) => chain.prepend(record).is_ok(),
        None => false,
    }
}

fn consolidates(chain: &mut Chain, below: &Leaf, told: bool) -> bool {
    match chain.consolidate(below) {
        Ok(acts) => acts == told,
        Err(_) => false,
    }
}

fn content(chain: &Chain, below: &mut Leaf, text: &str) -> bool {
    let Ok(leaf) = chain.content(below) else {
        return false;
    };
    *below = leaf;
    is_shown(Some(below), text)
}

fn alone(alloc: Global, chain: &Chain, text: &str) -> bool {
    match chain.content(&empty_page(alloc)) {
        Ok(leaf) => is_shown(Some(&leaf), text),
        Err(_) => false,
    }
}

/// Whether the step went as expected.
fn goes(alloc: Global, chain: &mut Chain, below: &mut Leaf, step: &Step) -> bool {
    match step {
        Step::Put(key, value) => prepended(alloc, chain, key, value),
        Step::Mark(place) => chain.mark_flushed(*place).is_ok(),
        Step::Rest(place) => {
            chain.rest_on(*place);
            true
        }
        Step::Evict(told) => chain.evict() == *told,
        Step::Consolidate(told) => consolidates(chain, below, *told),
        Step::Reserve(more) => chain.reserve(*more).is_ok(),
        Step::Deltas(count) => chain.deltas() == *count,
        Step::EndsOnLog(told) => chain.ends_on_log() == *told,
        Step::Content(text) => content(chain, below, text),
        Step::Alone(text) => alone(alloc, chain, text),
    }
}

/// The first step that did not go as expected over an empty page below.
fn walked(alloc: Global, chain: &mut Chain, steps: &[Step]) -> Option<usize> {
    let mut below = empty_page(alloc);
    for (i, step) in steps.iter().enumerate() {
        if !goes(alloc, chain, &mut below, step) {
            return Some(i);
        }
    }
    None
}

/// Steps over a chain of an empty page, or of one that stands in the log here.
struct Walk(Option<Place>, &'static [Step]);

impl Table for Walk {
    fn wrong_step(&self, alloc: Global) -> Option<usize> {
        let mut chain = match self.0 {
            Some(place) => Chain::on_log(alloc, place),
            None => Chain::whole(alloc, empty_page(alloc)),
        };
        walked(alloc, &mut chain, self.1)
    }
}

/// What was not flushed stays above the log's page.
const EVICTION: &[Step] = &[
    Step::Deltas(0),
    Step::Put("a", "1"),
    Step::Evict(false),
    Step::Content(": a=1"),
    Step::Mark(FIRST),
    Step::Put("b", "2"),
    Step::Deltas(2),
    Step::Evict(true),
    Step::EndsOnLog(Some(FIRST)),
    Step::Deltas(1),
    Step::Content(": a=1 b=2"),
    Step::Evict(false),
    Step::EndsOnLog(Some(FIRST)),
];

/// Afterwards the page below is of no use.
const CONSOLIDATION: &[Step] = &[
    Step::Reserve(2),
    Step::Put("a", "1"),
    Step::Consolidate(false),
    Step::Mark(FIRST),
    Step::Consolidate(true),
    Step::EndsOnLog(None),
    Step::Alone(": a=1"),
    Step::Deltas(0),
];

const RESERVED: &[Step] = &[
    Step::Reserve(9),
    Step::Put("a", "1"),
    Step::Put("b", "1"),
    Step::Put("c", "1"),
    Step::Put("d", "1"),
    Step::Put("e", "1"),
    Step::Put("f", "1"),
    Step::Put("g", "1"),
    Step::Put("h", "1"),
    Step::Mark(FIRST),
    Step::Deltas(8),
    Step::Alone(": a=1 b=1 c=1 d=1 e=1 f=1 g=1 h=1"),
];

const ON_LOG: &[Step] = &[
    Step::EndsOnLog(Some(FIRST)),
    Step::Put("b", "2"),
    Step::Put("b", "3"),
    Step::Alone(": b=3"),
];

/// Records that stand in the log are forgotten, and new ones are read over its page.
const RESTED: &[Step] = &[
    Step::Put("a", "1"),
    Step::Put("b", "2"),
    Step::Content(": a=1 b=2"),
    Step::Rest(SECOND),
    Step::Deltas(0),
    Step::EndsOnLog(Some(SECOND)),
    Step::Evict(false),
    Step::Put("c", "3"),
    Step::Content(": a=1 b=2 c=3"),
];

const TABLES: &[Walk] = &[
    Walk(None, EVICTION),
    Walk(None, CONSOLIDATION),
    Walk(None, RESERVED),
    Walk(None, RESTED),
    Walk(Some(FIRST), ON_LOG),
];

#[test]
fn chains_go_as_told(rt: HostRuntime) -> Result<(), WrongStep> {
    tables_go(rt.alloc(), TABLES)
}
