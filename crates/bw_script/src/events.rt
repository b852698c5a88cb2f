//! What an operator hears of a store that is served: its numbers, and what happens to it.

ghost use Rattle.bw_home.specs.Ready.{IsReady};

use crate::calls::{durable, live_bytes};
use bw_core::Cleaned;
use bw_home::Home;
use bw_look::{Event, Watch};
use bw_words::Refusal;

/// What is counted of the lines of a run over a store, since that was opened.
#[derive(Debug, Clone, Copy)]
pub struct Tally {
    /// How many lines were read.
    pub requests: u64,
    /// How many of their requests were refused.
    pub refused: u64,
    /// How many records were accepted.
    pub accepted: u64,
}

impl Tally {
    /// Nothing was asked yet.
    pub const NONE: Tally = Tally {
        requests: 0,
        refused: 0,
        accepted: 0,
    };
}

/// What is said of a store beside what it says itself.
#[derive(Debug, Clone, Copy)]
pub struct Standing {
    /// Whether an append failed, so that no other goes.
    pub has_failed: bool,
    /// Up to how many segments there may be; 0 if none is added by itself.
    pub most: u32,
    pub tally: Tally,
}

impl Standing {
    /// Nothing is known yet.
    pub const NONE: Standing = Standing {
        has_failed: false,
        most: 0,
        tally: Tally::NONE,
    };

    /// Whether the segments that a store uses are four fifths of the most that there may be. One
    /// that is kept for the cleaner counts as used.
    pub fn is_near(&self, home: &Home) -> bool
        requires { IsReady home.now holding }
    {
        let used = u64::from(home.store.live()).saturating_add(1);
        used.saturating_mul(5) >= u64::from(self.most).saturating_mul(4)
    }
}

/// How many of a store's numbers stand at the beginning of an answer to `stats`.
pub const FIRST: usize = 5;

/// The numbers of a store, by their names.
pub fn numbers_of(home: &Home, standing: Standing) -> [(&'static str, u64); 17]
    requires { IsReady home.now holding }
{
    let kept = home.store.history().len() as u64;
    let counters = home.store.counters();
    [
        ("history", home.store.forgotten().saturating_add(kept)),
        ("durable", durable(home)),
        ("segments", u64::from(home.store.live())),
        ("spares", u64::from(home.store.spares())),
        ("pages", u64::from(home.store.pages())),
        ("most", u64::from(standing.most)),
        ("bytes", live_bytes(home)),
        ("capacity", home.capacity()),
        ("requests", standing.tally.requests),
        ("refused", standing.tally.refused),
        ("accepted", standing.tally.accepted),
        ("kept", home.store.durable_of(0)),
        ("frames", counters.frames),
        ("written", counters.bytes),
        ("cleanings", counters.cleanings),
        ("evictions", counters.evictions),
        ("reads", counters.reads),
    ]
}

/// Writes an event with all numbers of a store.
pub fn tell_numbers<W: Watch>(watch: &mut W, name: &'static str, home: &Home, standing: Standing)
    requires { IsReady home.now holding }
{
    let numbers = numbers_of(home, standing);
    watch.happened(&Event {
        name,
        numbers: &numbers,
    });
}

/// Writes that the oldest segment was given up.
pub fn tell_cleaned<W: Watch>(watch: &mut W, home: &Home, cleaned: Cleaned)
    requires { IsReady home.now holding }
{
    let numbers = [
        ("segment", cleaned.segment),
        ("lease", u64::from(cleaned.lease)),
        ("pages", cleaned.pages as u64),
        ("frames", cleaned.frames),
        ("segments", u64::from(home.store.live())),
        ("spares", u64::from(home.store.spares())),
    ];
    watch.happened(&Event {
        name: "cleaned",
        numbers: &numbers,
    });
}

/// Writes that a segment was added.
pub fn tell_segment<W: Watch>(watch: &mut W, home: &Home, most: u32)
    requires { IsReady home.now holding }
{
    let numbers = [
        ("segments", u64::from(home.store.live())),
        ("spares", u64::from(home.store.spares())),
        ("most", u64::from(most)),
    ];
    watch.happened(&Event {
        name: "added",
        numbers: &numbers,
    });
}

/// Writes that the request of a line was refused, and how many were so far.
pub fn tell_refused<W: Watch>(watch: &mut W, refusal: Refusal, line: u64, refused: u64) {
    let numbers = [
        ("error", refusal.number()),
        ("line", line),
        ("refused", refused),
    ];
    watch.happened(&Event {
        name: Event::REFUSED,
        numbers: &numbers,
    });
}

/// Writes that a store was opened once more, and how many records are gone.
pub fn tell_reopened<W: Watch>(watch: &mut W, frame: u64, lost: u64) {
    watch.happened(&Event {
        name: "reopened",
        numbers: &[("durable", frame), ("lost", lost)],
    });
}
