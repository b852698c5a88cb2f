//! The history, of which a beginning may have left memory.
//!
//! What was forgotten is known only to the proof: a snapshot has no bytes, and so a `Vec` of them
//! takes no memory either. All clauses go on speaking of the whole list.

ghost use Rattle.std.specs.Prelude.{◌≡◌, ◌≤◌, ◌+◌, ◌-◌, ◌++◌, ◌∷◌, [], drop, take, length, map, vec_len, OnOk};
ghost use Rattle.std.specs.Vec.{vec_capacity};
ghost use Rattle.bw_history.specs.Remembered.{HasRoom};

use crate::packed::PackedEntry;
use std::alloc::{AllocError, Global};
use std::marker::Model;
use std::snapshot::Snapshot;

/// All entries that were taken. Those that were forgotten come first. Each that is kept has its
/// record's bytes in one run of memory, and 32 bytes here.
#[derive(Drop)]
pub struct History {
    past: Vec<Snapshot<PackedEntry>>,
    kept: Vec<PackedEntry>,
}

impl Model for History {
    ghost use Rattle.bw_history.specs.Remembered.{Remembered};

    ghost Value = { Remembered };

    ghost use Rattle.bw_history.specs.Remembering.{remembered, MayLeave};

    ghost view = { remembered };

    ghost invariant = { MayLeave };
}

impl History {
    /// No entry.
    pub(crate) fn new(alloc: Global) -> History
        ensures items { result.items ≡ [] }
        ensures gone { result.gone ≡ 0 }
    {
        History {
            past: Vec::new(alloc),
            kept: Vec::new(alloc),
        }
    }

    /// How many entries there are, the forgotten ones too.
    pub(crate) fn len(&self) -> u64
        ensures { result ≡ length self.now.items }
    {
        (self.past.len() + self.kept.len()) as u64
    }

    /// How many were forgotten.
    pub(crate) fn gone(&self) -> usize
        ensures { result ≡ self.now.gone }
    {
        self.past.len()
    }

    /// The entries that are kept.
    pub(crate) fn kept(&self) -> &[PackedEntry]
        ensures { result.now ≡ drop self.now.gone self.now.items }
    {
        self.kept.as_slice()
    }

    /// The kept entries from one index of the whole history up to another.
    pub(crate) fn between(&self, from: usize, to: usize) -> &[PackedEntry]
        requires kept { self.now.gone ≤ from }
        requires order { from ≤ to }
        requires within { to ≤ length self.now.items }
        ensures { result.now ≡ take (to - from) (drop from self.now.items) }
    {
        let gone = self.past.len();
        &self.kept[from - gone..to - gone]
    }

    /// Makes room for four more entries.
    pub(crate) fn reserve(&mut self) -> Result<(), AllocError>
        ensures items { self.new.items ≡ self.old.items }
        ensures gone { self.new.gone ≡ self.old.gone }
        ensures room { OnOk result (HasRoom 4 self.new) }
    {
        self.kept.reserve(4)?;
        let more = self.kept.len() + 4;
        self.past.reserve(more)
    }

    /// Adds an entry.
    pub(crate) fn push(&mut self, entry: PackedEntry)
        requires { HasRoom 1 self.old }
        ensures items { self.new.items ≡ self.old.items ++ entry ∷ [] }
        ensures gone { self.new.gone ≡ self.old.gone }
        ensures room { self.new.room + 1 ≡ self.old.room }
        ensures later { self.new.later + 1 ≡ self.old.later }
    {
        self.kept.push_reserved(entry);
    }

    /// Adds the entries of one group.
    pub(crate) fn push_all(&mut self, entries: Vec<PackedEntry>)
        requires { HasRoom (length entries.items) self.old }
        ensures items { self.new.items ≡ self.old.items ++ entries.items }
        ensures gone { self.new.gone ≡ self.old.gone }
    {
        append(&mut self.kept, entries);
    }

    /// Lets go of the entries up to this index of the whole history: they leave only memory.
    pub(crate) fn forget(&mut self, end: usize)
        requires kept { self.old.gone ≤ end }
        requires within { end ≤ length self.old.items }
        ensures items { self.new.items ≡ self.old.items }
        ensures gone { self.new.gone ≡ end }
    {
        let History { past, kept } = self;
        let count = end - past.len();
        note_all(past, &kept[..count]);
        let _ = kept.drain(..count);
    }
}

// Appends entries, for which there is room. No memory is taken.
fn append(kept: &mut Vec<PackedEntry>, entries: Vec<PackedEntry>)
    requires { vec_len kept.old + length entries.items ≤ vec_capacity kept.old }
    ensures items { kept.new.items ≡ kept.old.items ++ entries.items }
    ensures len { vec_len kept.new ≡ vec_len kept.old + length entries.items }
{
    for entry in entries {
        kept.push_reserved(entry);
    }
}

// Notes what the entries were.
fn note_all(past: &mut Vec<Snapshot<PackedEntry>>, entries: &[PackedEntry])
    requires { vec_len past.old + length entries.now ≤ vec_capacity past.old }
    ensures items { map (λ s. s.value) past.new.items
        ≡ map (λ s. s.value) past.old.items ++ entries.now }
    ensures len { vec_len past.new ≡ vec_len past.old + length entries.now }
    ensures capacity { vec_capacity past.new ≡ vec_capacity past.old }
{
    for entry in entries {
        past.push_reserved(Snapshot::of(entry));
    }
}
