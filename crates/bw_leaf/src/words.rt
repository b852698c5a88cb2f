//! What records and blocks say of one key. The newest word counts, so a value is found from the
//! newest block back, and what stands before the first word need not be read.

ghost use Rattle.std.specs.Prelude.{◌≡◌, IsTrue};
ghost use Rattle.std.specs.List.{AllByRecursion};
ghost use Rattle.std.specs.FinMap.Entries.{find};
ghost use Rattle.bw_record.specs.Keys.{ascends};
ghost use Rattle.bw_leaf.specs.Changed.{order};
ghost use Rattle.bw_leaf.specs.Words.{newer, told_by, record_word, records_word, block_word, blocks_word, split_word, HasOrder};
ghost use Rattle.bw_leaf.specs.Words.{word_of as word_of_value};

use crate::changes::value_in;
use bw_codec::{Block, Key, Leaf, Low, Packed, Value, compare};
use std::cmp::Ordering;

/// What records or blocks say of a key.
#[derive(Drop)]
pub enum Word {
    /// Nothing: the key has the value that it had before them.
    Silent,
    /// It has no value.
    Gone,
    /// Its value.
    Holds(Value),
}

impl Word {
    /// The value of the key, if it had this one before.
    pub fn over(self, was: Option<Value>) -> Option<Value>
        ensures { result ≡ told_by self was }
    {
        match self {
            Word::Silent => was,
            Word::Gone => None,
            Word::Holds(value) => Some(value),
        }
    }

    /// The newer of two words.
    pub(crate) fn then(self, next: Word) -> Word
        ensures { result ≡ newer self next }
    {
        match next {
            Word::Silent => self,
            Word::Gone => Word::Gone,
            Word::Holds(value) => Word::Holds(value),
        }
    }
}

/// What a packed record says of a key.
pub(crate) fn word_packed(item: &Packed, key: &Key) -> Word
    ensures { result ≡ record_word key.now item.now }
{
    match compare(key.as_slice(), item.key()) {
        Ordering::Less => Word::Silent,
        Ordering::Greater => Word::Silent,
        Ordering::Equal => match item.pair() {
            Ok(pair) => Word::Holds(pair.to_value()),
            Err(_) => Word::Gone,
        },
    }
}

/// What the newest of these records that speaks of a key says, oldest first. No memory is taken.
pub fn word_in_records(records: &[Packed], key: &Key) -> Word
    ensures { result ≡ records_word key.now records.now }
{
    let mut word = Word::Silent;
    for item in records {
        word = word.then(word_packed(item, key));
    }
    word
}

// What a page that is known whole says of a key.
fn word_in_leaf(leaf: &Leaf, key: &Key) -> Word
    requires { IsTrue (ascends leaf.now.pairs) }
    ensures { result ≡ word_of_value (find order key.now leaf.now.pairs) }
{
    match value_in(leaf, key) {
        Some(value) => Word::Holds(value),
        None => Word::Gone,
    }
}

// What the split of a page at this key says.
fn word_of_split(separator: &Low, key: &Key) -> Word
    ensures { result ≡ split_word key.now separator.now }
{
    if bw_codec::is_before(key.as_slice(), separator.as_slice()) {
        Word::Silent
    } else {
        Word::Gone
    }
}

// What a block says of a key on a page.
fn word_of_block(page: u32, key: &Key, block: &Block) -> Word
    requires { HasOrder block.now }
    ensures { result ≡ block_word page key.now block.now }
{
    match block {
        Block::Delta { page: of, ops, .. } => {
            if *of == page {
                word_in_records(ops.as_slice(), key)
            } else {
                Word::Silent
            }
        }
        Block::Base(leaf) => {
            if leaf.page == page {
                word_in_leaf(leaf, key)
            } else {
                Word::Silent
            }
        }
        Block::Split {
            page: of,
            upper,
            ..
        } => {
            if upper.page == page {
                word_in_leaf(upper, key)
            } else if *of == page {
                word_of_split(&upper.low, key)
            } else {
                Word::Silent
            }
        }
    }
}

/// What the newest of these blocks that speaks of a key on a page says, oldest first: a record of
/// the key, a block that sets the page, or one that splits the key off. Their pairs ascend. No
/// memory is taken.
pub fn word_in_blocks(page: u32, key: &Key, blocks: &[Block]) -> Word
    requires { AllByRecursion HasOrder blocks.now }
    ensures { result ≡ blocks_word page key.now blocks.now }
{
    let mut word = Word::Silent;
    for block in blocks {
        word = word.then(word_of_block(page, key, block));
    }
    word
}
