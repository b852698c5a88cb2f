//! Which key is next, where some keys are asked for far more often than others: the key of rank r
//! as often as 1 in r to the power of 0.99.

use crate::shape::Shape;
use std::alloc::Global;

/// The weight of the first rank.
const FIRST: u64 = 72_057_594_037_927_936;

/// Keys by their rank, and how far the draws are.
#[derive(Drop)]
pub struct Chances {
    shape: Shape,
    /// The weights of all ranks up to each.
    ends: Vec<u64>,
    state: u64,
}

/// The weight of a rank, by that of the one before it: so many times (1 - 1 / rank) to the power of
/// 0.99, of which the first terms of the series are taken.
fn weight_of(rank: u64, before: u64) -> u64 {
    let part = before.checked_div(rank).unwrap_or(0);
    let of_part = part.checked_div(rank).unwrap_or(0);
    before
        .saturating_sub(part.saturating_sub(part / 100))
        .saturating_sub(of_part / 202)
}

impl Chances {
    /// Those of so many keys.
    pub fn new(alloc: Global, shape: Shape) -> Option<Chances> {
        let mut ends = Vec::new(alloc);
        let (mut weight, mut end) = (FIRST, FIRST);
        for before in 0..shape.keys {
            ends.push(end).ok()?;
            weight = weight_of(before.saturating_add(2), weight);
            end = end.saturating_add(weight);
        }
        Some(Chances {
            shape,
            ends,
            state: 1,
        })
    }

    /// The number of the next key.
    fn next(&mut self) -> u64 {
        let ends = self.ends.as_slice();
        self.state = self
            .state
            .wrapping_mul(6_364_136_223_846_793_005)
            .wrapping_add(1_442_695_040_888_963_407);
        let all = ends.last().copied().unwrap_or(1);
        let drawn = (self.state ^ (self.state >> 32)).checked_rem(all);
        let rank = match ends.binary_search(&drawn.unwrap_or(0)) {
            Ok(at) => (at as u64).saturating_add(1),
            Err(at) => at as u64,
        };
        self.shape.number(rank)
    }

    /// The numbers of the next so many keys.
    pub fn some(&mut self, alloc: Global, many: u64) -> Option<Vec<u64>> {
        let mut numbers = Vec::new(alloc);
        for _ in 0..many {
            numbers.push(self.next()).ok()?;
        }
        Some(numbers)
    }
}
