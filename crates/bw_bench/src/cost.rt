//! What the parts of a course took.

use crate::bench::Bench;
use crate::shape::Span;

/// The nanoseconds of each part of a course.
#[derive(Clone, Copy)]
pub struct Cost {
    pub puts: u64,
    pub turns: u64,
    pub flushes: u64,
}

impl Cost {
    /// Nothing took any time yet.
    pub const NONE: Cost = Cost {
        puts: 0,
        turns: 0,
        flushes: 0,
    };

    /// The nanoseconds of all parts.
    pub fn all(self) -> u64 {
        self.puts
            .saturating_add(self.turns)
            .saturating_add(self.flushes)
    }

    /// With the parts of one more batch, which stand between these times.
    pub fn and(self, start: u64, put: u64, taken: u64, flushed: u64) -> Cost {
        Cost {
            puts: self.puts.saturating_add(put.saturating_sub(start)),
            turns: self.turns.saturating_add(taken.saturating_sub(put)),
            flushes: self.flushes.saturating_add(flushed.saturating_sub(taken)),
        }
    }
}

impl Bench {
    /// What the puts, turns and flushes of a span took.
    pub fn tell_cost(&self, span: Span, cost: Cost) {
        let count = span.count();
        self.tell(span.name, count, cost.all());
        self.tell_each("  its puts", count, cost.puts, "ns");
        self.tell_each("  its turns", count, cost.turns, "ns");
        self.tell_each("  its flushes", count, cost.flushes, "ns");
    }
}
