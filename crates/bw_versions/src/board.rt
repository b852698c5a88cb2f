//! What readers are shown: a batch of entries, a board of pages, and how far into the book it goes.
//!
//! Readers cannot look at the store's own pages: its thread changes them while they look. So there
//! are two boards, which take in the same batches and change places. A board is the fold of all
//! entries that were published, over the pages at the start, and that has to hold after the store
//! forgot those entries. So the board knows them by snapshots, which take no bytes: only the proof
//! reads them.
//!
//! A batch is taken in whole or not at all. One of which a part was taken in would show half of a
//! group.

ghost use Rattle.std.specs.Prelude.{◌≡◌, ◌++◌, ◌∷◌, [], map, ◌+◌, ◌≤◌, Err, vec_len, length, IfOk, OnOk, OnErr, IsErr};
ghost use Rattle.std.specs.Vec.{vec_capacity};
ghost use Rattle.bw_page.specs.Ahead.{IsFirst, IsStretch};
ghost use Rattle.bw_walks.specs.Shared.{with_key};
ghost use Rattle.bw_page.specs.Leaves.{plain, union};
ghost use Rattle.bw_page.specs.Batch.{SomeIsSpent};
ghost use Rattle.bw_history.specs.Entries.{records};
ghost use Rattle.bw_versions.specs.Posted.{pages_of, brings, posted_of, value_in, pair_in, leaf_in, IsFirstIn, IsStretchIn};
ghost use Rattle.std.specs.Option.{ForSome};
ghost use Rattle.std.specs.FinMap as finite;

use crate::book::Front;
use bw_codec::{Key, Leaf, Pair, Value};
use bw_history::PackedEntry;
use bw_page::{ApplyError, Leaves, Start};
use bw_walks::{share_of, share_stretch};
use std::alloc::{AllocError, Global};
use std::marker::Model;
use std::snapshot::Snapshot;

/// Published pages: the fold of the published entries, from the start leaves. Start and entries
/// take no bytes: only the proof knows them.
#[derive(Drop)]
pub struct Board {
    leaves: Leaves,
    start: Snapshot<Leaves>,
    entries: Vec<Snapshot<PackedEntry>>,
}

impl Model for Board {
    ghost use Rattle.bw_versions.specs.Posted.{Posted};

    ghost Value = { Posted };

    ghost use Rattle.bw_versions.specs.Posting.{view_of, IsPosted};

    ghost view = { view_of };

    ghost invariant = { IsPosted };
}

impl Board {
    /// Start leaves, all of them in memory, and no entry. A refused growth is the only error. It
    /// costs all pages.
    pub fn new(alloc: Global, start: &Leaves) -> Result<Board, AllocError>
        requires here { start.now.evicted ≡ [] }
        ensures made { IfOk result (λ b. b ≡ record { start = start.now; entries = [] }) }
    {
        Ok(Board {
            start: Snapshot::of(start),
            entries: Vec::new(alloc),
            leaves: start.copy()?,
        })
    }

    /// A board without entries, whose start leaves waited until now.
    pub(crate) fn at(alloc: Global, start: &Start) -> Result<Board, AllocError>
        requires here { start.now.evicted ≡ [] }
        ensures made { IfOk result (λ b. b ≡ record { start = start.now; entries = [] }) }
    {
        let leaves = start.leaves()?;
        Ok(Board {
            start: Snapshot::of(&leaves),
            entries: Vec::new(alloc),
            leaves,
        })
    }

    /// The pages, all of them in memory.
    pub fn leaves(&self) -> &Leaves
        ensures pages { result.now ≡ pages_of self.now }
        ensures plainly { union result.now.leaves
            ≡ plain self.now.start.leaves (records self.now.entries) }
        ensures here { result.now.evicted ≡ [] }
    {
        &self.leaves
    }

    /// The value of a key, if it has one.
    pub fn get(&self, key: &Key) -> Option<Value>
        ensures { result ≡ finite.get (plain self.now.start.leaves
            (records self.now.entries)) key.now }
    {
        self.leaves.get(key)
    }

    /// The pair with the least key at or above this one, if there is one.
    pub fn next_at(&self, key: &Key) -> Option<(Key, Value)>
        ensures { IsFirst (plain self.now.start.leaves (records self.now.entries)) key.now result }
    {
        self.leaves.next_at(key)
    }

    /// The pair of a key, if it has one. It shares its bytes with the pages. Refused if the count
    /// of those that share it is full.
    pub fn get_shared(&self, key: &Key) -> Result<Option<Pair>, AllocError>
        ensures { IfOk result (λ pair. pair ≡ with_key key.now
            (finite.get (plain self.now.start.leaves (records self.now.entries)) key.now)) }
    {
        share_of(&self.leaves, key)
    }

    /// Puts the pairs at or above a key into `found`, in order and no more than so many. They share
    /// their bytes with the pages. A refusal is the only error.
    pub fn scan_shared(
        &self,
        key: &Key,
        most: usize,
        found: &mut Vec<Pair>,
    ) -> Result<(), AllocError>
        ensures { OnOk result (IsStretch (plain self.now.start.leaves
            (records self.now.entries)) key.now most found.new.items) }
    {
        share_stretch(&self.leaves, key, most, found)
    }

    /// Appends entries, all or none: a refusal changes nothing. No record is copied: the pages
    /// share its bytes. Each is looked for on the page that was guessed for its entry.
    pub fn publish(&mut self, more: &[PackedEntry]) -> Result<(), ApplyError>
        ensures added { OnOk result
            (self.new ≡ record self.old { entries = self.old.entries ++ more.now }) }

        // As a batch of records: `Spent` only if one of them needs a page number that does not
        // exist, and a refusal whenever one does, perhaps for want of memory before that record.
        ensures spent { SomeIsSpent (pages_of self.old) (records more.now) → IsErr result }
        ensures only_spent { result ≡ Err ApplyError.Spent
            → SomeIsSpent (pages_of self.old) (records more.now) }
        ensures unchanged { OnErr result (self.new ≡ self.old) }
    {
        self.entries.reserve(more.len())?;
        let Board {
            start: _,
            entries,
            leaves,
        } = self;
        leaves.apply_all_of(more)?;
        append(entries, more);
        Ok(())
    }
}

// Appends entries, for which there is room. No memory is taken.
fn append(entries: &mut Vec<Snapshot<PackedEntry>>, more: &[PackedEntry])
    requires { vec_len entries.old + length more.now ≤ vec_capacity entries.old }
    ensures { map (λ s. s.value) entries.new.items
        ≡ map (λ s. s.value) entries.old.items ++ more.now }
{
    for entry in more {
        entries.push_reserved(Snapshot::of(entry));
    }
}

/// Entries, and the start leaves if the batch is the first.
#[derive(Drop)]
pub struct Batch {
    /// All of them in memory.
    pub(crate) start: Option<Start>,
    pub(crate) entries: Vec<PackedEntry>,
}

impl Model for Batch {
    ghost use Rattle.std.specs.Prelude.{◌≡◌, []};
    ghost use Rattle.std.specs.Option.{ForSome};
    ghost use Rattle.bw_versions.specs.Batches.{BatchData};

    ghost Value = { BatchData };

    ghost view = { λ b. record { start = b.start; entries = b.entries.items } };

    ghost invariant = { λ b. ForSome b.start (λ leaves. leaves.evicted ≡ []) };
}

impl Batch {
    /// A batch of these entries. No memory is taken.
    pub fn new(start: Option<Leaves>, entries: Vec<PackedEntry>) -> Batch
        requires here { ForSome start (λ leaves. leaves.evicted ≡ []) }
        ensures { result ≡ record { start = start; entries = entries.items } }
    {
        match start {
            Some(leaves) => Batch::of(Some(Start::of(leaves)), entries),
            None => Batch::of(None, entries),
        }
    }

    /// A batch of these entries, with start leaves that wait, if it brings them.
    pub(crate) fn of(start: Option<Start>, entries: Vec<PackedEntry>) -> Batch
        requires here { ForSome start (λ leaves. leaves.evicted ≡ []) }
        ensures { result ≡ record { start = start; entries = entries.items } }
    {
        Batch { start, entries }
    }

    /// The start leaves that it brings.
    pub(crate) fn into_start(self) -> Option<Start>
        ensures { result ≡ self.start }
    {
        let Batch { start, entries: _ } = self;
        start
    }
}

/// A board, beside the batches that it came from. The batches take no bytes.
#[derive(Drop)]
pub struct Posts {
    batches: Vec<Snapshot<Batch>>,
    board: Option<Board>,
}

impl Model for Posts {
    ghost use Rattle.std.specs.Prelude.{◌≡◌, List, map};
    ghost use Rattle.bw_versions.specs.Batches.{BatchData};
    ghost use Rattle.bw_versions.specs.Posted.{posted_of};

    ghost Value = { List BatchData };

    ghost view = { λ s. map (λ z. z.value) s.batches.items };

    ghost invariant = { λ s. s.board ≡ posted_of (map (λ z. z.value) s.batches.items) };
}

/// A value with a front beside it. It has a parameter because `search` finds only of a generic
/// struct that threads may share a front beside a snapshot.
#[derive(Drop)]
pub struct Marked<P: Drop> {
    pub mark: Front,
    pub posts: P,
}

/// What readers are shown.
pub type Version = Marked<Posts>;

/// Nothing published, and the front that has nothing.
pub fn blank(alloc: Global, origin: &Front) -> Version
    ensures { result ≡ record { mark = origin.now; posts = [] } }
{
    Marked {
        mark: origin.again(),
        posts: Posts::new(alloc),
    }
}

impl Posts {
    /// No batch.
    pub fn new(alloc: Global) -> Posts
        ensures { result ≡ [] }
    {
        Posts {
            batches: Vec::new(alloc),
            board: None,
        }
    }

    /// The value of a key, if it has one.
    pub fn get(&self, key: &Key) -> Option<Value>
        ensures { result ≡ value_in (posted_of self.now) key.now }
    {
        value(&self.board, key)
    }

    /// The pair with the least key at or above this one, if there is one.
    pub fn next_at(&self, key: &Key) -> Option<(Key, Value)>
        ensures { IsFirstIn (posted_of self.now) key.now result }
    {
        next(&self.board, key)
    }

    /// The pair of a key, if it has one; it shares its bytes.
    pub fn get_shared(&self, key: &Key) -> Result<Option<Pair>, AllocError>
        ensures { IfOk result (λ pair. pair ≡ pair_in (posted_of self.now) key.now) }
    {
        shared(&self.board, key)
    }

    /// The pairs at or above a key, in order and no more than so many.
    pub fn stretch(&self, key: &Key, most: usize) -> Result<Vec<Pair>, AllocError>
        ensures { IfOk result (λ pairs. IsStretchIn (posted_of self.now) key.now most pairs.items) }
    {
        stretch(*self.batches.allocator(), &self.board, key, most)
    }

    /// A page, if there is one.
    pub fn page(&self, page: u32) -> Result<Option<Leaf>, AllocError>
        ensures { IfOk result (λ leaf. leaf ≡ leaf_in (posted_of self.now) page) }
    {
        leaf(&self.board, page)
    }

    /// Takes in one batch whole, or nothing.
    pub fn take_in(&mut self, batch: &Batch) -> Result<(), AllocError>
        ensures added { OnOk result (self.new ≡ self.old ++ batch.now ∷ []) }
        ensures unchanged { OnErr result (self.new ≡ self.old) }
    {
        self.batches.reserve(1)?;
        let Posts { batches, board } = self;
        bring(*batches.allocator(), board, batch)?;
        batches.push_reserved(Snapshot::of(batch));
        Ok(())
    }
}

// Adds a batch to a board, which is made first if there is none.
fn bring(alloc: Global, board: &mut Option<Board>, batch: &Batch) -> Result<(), AllocError>
    ensures ok { OnOk result (board.new ≡ brings board.old batch.now) }
    ensures unchanged { OnErr result (board.new ≡ board.old) }
{
    match board {
        Some(old) => match old.publish(batch.entries.as_slice()) {
            Ok(()) => Ok(()),
            Err(_) => Err(AllocError),
        },
        None => {
            let Some(start) = &batch.start else {
                return Ok(());
            };
            let mut new = Board::at(alloc, start)?;
            match new.publish(batch.entries.as_slice()) {
                Ok(()) => {
                    *board = Some(new);
                    Ok(())
                }
                Err(_) => Err(AllocError),
            }
        }
    }
}

fn value(board: &Option<Board>, key: &Key) -> Option<Value>
    ensures { result ≡ value_in board.now key.now }
{
    match board {
        Some(board) => board.get(key),
        None => None,
    }
}

fn next(board: &Option<Board>, key: &Key) -> Option<(Key, Value)>
    ensures { IsFirstIn board.now key.now result }
{
    match board {
        Some(board) => board.next_at(key),
        None => None,
    }
}

fn shared(board: &Option<Board>, key: &Key) -> Result<Option<Pair>, AllocError>
    ensures { IfOk result (λ pair. pair ≡ pair_in board.now key.now) }
{
    match board {
        Some(board) => board.get_shared(key),
        None => Ok(None),
    }
}

fn stretch(
    alloc: Global,
    board: &Option<Board>,
    key: &Key,
    most: usize,
) -> Result<Vec<Pair>, AllocError>
    ensures { IfOk result (λ pairs. IsStretchIn board.now key.now most pairs.items) }
{
    let mut found = Vec::new(alloc);
    if let Some(board) = board {
        board.scan_shared(key, most, &mut found)?;
    }
    Ok(found)
}

fn leaf(board: &Option<Board>, page: u32) -> Result<Option<Leaf>, AllocError>
    ensures { IfOk result (λ leaf. leaf ≡ leaf_in board.now page) }
{
    match board {
        Some(board) => match board.leaves().page(page) {
            Some(leaf) => Ok(Some(leaf.copy()?)),
            None => Ok(None),
        },
        None => Ok(None),
    }
}
