//! Which value each key has, where keys are changed in no order.

use crate::shape::Shape;
use bw_codec::{Key, Pair, Record, Value};
use std::alloc::Global;

/// How often each key was changed since it was put.
#[derive(Drop)]
pub struct Rounds {
    shape: Shape,
    rounds: Vec<u32>,
}

/// Pairs that were read: copies, or pairs that share their bytes with pages.
#[derive(Drop)]
pub struct Found {
    pub copied: Vec<(Key, Value)>,
    pub shared: Vec<Pair>,
}

impl Found {
    /// None.
    pub fn new(alloc: Global) -> Found {
        Found {
            copied: Vec::new(alloc),
            shared: Vec::new(alloc),
        }
    }
}

impl Rounds {
    /// No key was changed yet.
    pub fn new(alloc: Global, shape: Shape) -> Option<Rounds> {
        let mut rounds = Vec::new(alloc);
        for _ in 0..shape.keys {
            rounds.push(0u32).ok()?;
        }
        Some(Rounds { shape, rounds })
    }

    /// The value of a key now.
    fn value(&self, number: u64) -> Option<Value> {
        let round = *self.rounds.get(number as usize)?;
        self.shape.value_at(number, u64::from(round))
    }

    /// The record that changes a key once more.
    fn change(&mut self, number: u64) -> Option<Record> {
        let round = self.rounds.get_mut(number as usize)?;
        *round = round.saturating_add(1);
        Some(Record::Put(self.shape.key_at(number)?, self.value(number)?))
    }

    /// The records that change each of these keys once more.
    pub fn changes(&mut self, alloc: Global, numbers: &[u64]) -> Option<Vec<Record>> {
        let mut records = Vec::new(alloc);
        for number in numbers {
            records.push(self.change(*number)?).ok()?;
        }
        Some(records)
    }

    /// Whether a pair is that of a key.
    fn is_right(&self, number: u64, key: &[u8], value: &[u8]) -> bool {
        match (self.shape.key_at(number), self.value(number)) {
            (Some(right), Some(last)) => key == right.as_slice() && value == last.as_slice(),
            _ => false,
        }
    }

    /// How many of these keys were not read as they are.
    pub fn wrong_copies(&self, numbers: &[u64], pairs: &[(Key, Value)]) -> u64 {
        let mut right = 0u64;
        for (number, pair) in numbers.iter().zip(pairs) {
            let is_right = self.is_right(*number, pair.0.as_slice(), pair.1.as_slice());
            right = right.saturating_add(u64::from(is_right));
        }
        (numbers.len() as u64).saturating_sub(right)
    }

    /// How many of these keys were not read as they are.
    pub fn wrong_shared(&self, numbers: &[u64], pairs: &[Pair]) -> u64 {
        let mut right = 0u64;
        for (number, pair) in numbers.iter().zip(pairs) {
            let is_right = self.is_right(*number, pair.key(), pair.value());
            right = right.saturating_add(u64::from(is_right));
        }
        (numbers.len() as u64).saturating_sub(right)
    }
}
