//! Pages that are about to change are read ahead.
//!
//! A record waits for its page's seat, for the row of heads there, and mostly for one pair, each of
//! which may be far away in memory. If many records are to come, these loops ask for all of their
//! pages one after the other, and the processor waits for many at once.
//!
//! What they answer is of no use; but the reads are made only if it is used.

use super::{HasRecord, Leaves};

/// How many heads of a row stand side by side in memory.
const ROW: usize = 8;

impl Leaves {
    /// Reads ahead what these records will look at, if the page of each is the one that was
    /// guessed.
    pub(super) fn read_ahead<T: HasRecord>(&self, items: &[T]) -> u64 {
        self.read_fronts(items) ^ self.read_rows(items) ^ self.read_pairs(items)
    }

    fn read_fronts<T: HasRecord>(&self, items: &[T]) -> u64 {
        let mut sum = 0;
        for item in items {
            sum ^= self.head_at(item.guess(), 0);
        }
        sum
    }

    fn read_rows<T: HasRecord>(&self, items: &[T]) -> u64 {
        let mut sum = 0;
        for item in items {
            let page = item.guess();
            sum ^= self.head_at(page, ROW)
                ^ self.head_at(page, 2 * ROW)
                ^ self.head_at(page, 3 * ROW);
        }
        sum
    }

    fn read_pairs<T: HasRecord>(&self, items: &[T]) -> u64 {
        let mut sum = 0;
        for item in items {
            sum ^= self.length_at(item.guess(), item.record().key());
        }
        sum
    }

    /// A head in the row of a page, or 0.
    fn head_at(&self, page: u32, at: usize) -> u64 {
        match self.page(page) {
            Some(leaf) => match leaf.pairs.heads().get(at) {
                Some(head) => *head,
                None => 0,
            },
            None => 0,
        }
    }

    /// The length of the first key on a page that a search for this key will look at, or 0.
    fn length_at(&self, page: u32, key: &[u8]) -> u64 {
        let Some(leaf) = self.page(page) else {
            return 0;
        };
        let skip = leaf.pairs.skip_for(key);
        if skip.is_above {
            return 0;
        }
        match leaf.pairs.as_slice().get(skip.count) {
            Some(pair) => pair.key().len() as u64,
            None => 0,
        }
    }
}
