//! Lanes and the history: what is taken from a lane stands in the history at once.

ghost use Rattle.std.specs.Prelude.{true, false, ◌≡◌, ◌≤◌, ◌<◌, ◌↔◌, ◌+◌, ◌-◌, ◌∷◌, ◌++◌, [], take, drop, length, map, replicate, vec_len, IsTrue, IfSome, IfOk, slice_set, slice_index_or, OnOk};
ghost use mathlib.Core.List.{IsPrefix};
ghost use Rattle.std.specs.List.{AllByRecursion};
ghost use Rattle.bw_ring.specs.Ends.{accepted, taken, known, given, places_of, ring_of_feed, ring_of_lane};
ghost use Rattle.bw_ring.specs.Limits.{IsConfig};
ghost use Rattle.bw_ring.specs.Marks.{marked};
ghost use Rattle.bw_history.specs.Entries.{records};
ghost use Rattle.bw_history.specs.History.{of_writer, streams, counts_of, entered, is_grouped};
ghost use Rattle.bw_history.specs.Lanes.{IsNext, IsWaiting, Dries, KnowMore, TookAt, TookKnown};
ghost use Rattle.bw_history.specs.Remembered.{HasRoom};

use crate::beside::look_at_all;
use crate::history::History;
use crate::packed::PackedEntry;
use bw_codec::Record;
use bw_ring::{Feed, Group, Lane, lanes};
use std::alloc::{AllocError, Global};

/// The lanes, and what was taken from them in order.
#[derive(Drop)]
pub struct Intake {
    lanes: Vec<Lane>,
    history: History,
    /// How many records were taken from each lane.
    counts: Vec<u64>,
    ghost few: { vec_len lanes ≤ 64 },
    ghost takes: { streams 0 (length lanes.items) history.items ≡ map taken lanes.items },
    ghost counted: { counts.items ≡ counts_of (length lanes.items) history.items },
    // No group is there in part.
    ghost grouped: { is_grouped history.items ≡ true },
}

impl Intake {
    ghost use Rattle.bw_history.specs.Entering.{Enters};

    /// Lanes from which nothing was taken, and the feeds that belong to them: a ring of so many
    /// places for each writer. A refused growth is the only error.
    pub fn open(
        alloc: Global,
        writers: usize,
        places: usize,
    ) -> Result<(Vec<Feed>, Intake), AllocError>
        requires { IsConfig writers places }
        ensures feeds { IfOk result (λ p.
            map ring_of_lane p.1.lanes.items ≡ map ring_of_feed p.0.items) }
        ensures nothing { IfOk result (λ p. map accepted p.0.items ≡ replicate writers []) }
        ensures rooms { IfOk result (λ p.
            map places_of (map ring_of_feed p.0.items) ≡ replicate writers places) }
        ensures history { IfOk result (λ p. p.1.history.items ≡ []) }
        ensures gone { IfOk result (λ p. p.1.history.gone ≡ 0) }
    {
        let Ok((feeds, ends)) = lanes(alloc, writers, places) else {
            return Err(AllocError);
        };
        let _ = ends.as_slice().len(); // For the proof.
        let counts = no_counts(alloc, writers)?;
        let intake = Intake {
            lanes: ends,
            history: History::new(alloc),
            counts,
        };
        Ok((feeds, intake))
    }

    /// How many writers there are.
    pub fn writers(&self) -> usize
        ensures { result ≡ length self.now.lanes.items }
    {
        self.lanes.as_slice().len()
    }

    /// How many entries the history has, the forgotten ones too.
    pub fn len(&self) -> u64
        ensures { result ≡ length self.now.history.items }
    {
        self.history.len()
    }

    /// How many of them were forgotten.
    pub fn gone(&self) -> usize
        ensures { result ≡ self.now.history.gone }
    {
        self.history.gone()
    }

    /// The entries that are kept.
    pub fn kept(&self) -> &[PackedEntry]
        ensures value { result.now ≡ drop self.now.history.gone self.now.history.items }
        ensures takes { streams 0 (length self.now.lanes.items) self.now.history.items
            ≡ map taken self.now.lanes.items }
        ensures grouped { is_grouped self.now.history.items ≡ true }
    {
        self.history.kept()
    }

    /// Lets go of the entries up to this index of the whole history: they leave only memory.
    pub fn forget(&mut self, end: usize)
        requires kept { self.old.history.gone ≤ end }
        requires within { end ≤ length self.old.history.items }
        ensures lanes { self.new.lanes ≡ self.old.lanes }
        ensures items { self.new.history.items ≡ self.old.history.items }
        ensures gone { self.new.history.gone ≡ end }
    {
        self.history.forget(end);
    }

    /// How many records of a writer stand before this index of the history, which is not forgotten.
    /// It costs a step for each entry after it.
    pub fn count_upto(&self, writer: u16, from: usize) -> u64
        requires kept { self.now.history.gone ≤ from }
        requires within { from ≤ length self.now.history.items }
        requires writers { AllByRecursion (λ e. e.writer < length self.now.lanes.items)
            self.now.history.items }
        ensures { result ≡ length (of_writer writer (take from self.now.history.items)) }
    {
        let lane = writer as usize;
        if lane >= self.counts.len() {
            return 0;
        }
        let to = self.history.len();
        let waiting = count_of(self.between(from, to as usize), writer, to);
        self.counts[lane] - waiting
    }

    /// Whether a lane has a group to give. If it knows of none, its ring is asked once. Nothing is
    /// taken or copied.
    pub fn finds(&mut self, lane: usize) -> bool
        requires { lane < length self.old.lanes.items }
        ensures history { self.new.history ≡ self.old.history }
        ensures entries { self.new.history.items ≡ self.old.history.items }
        ensures rings { map ring_of_lane self.new.lanes.items
            ≡ map ring_of_lane self.old.lanes.items }
        ensures count { length self.new.lanes.items ≡ length self.old.lanes.items }
        ensures taken { map taken self.new.lanes.items ≡ map taken self.old.lanes.items }
        ensures waits { IsTrue result → IsWaiting self.new.lanes.items lane }
        ensures none { result ≡ false → Dries lane self.old.lanes.items self.new.lanes.items }
        ensures knows { KnowMore self.old.lanes.items self.new.lanes.items }
    {
        finds_at(&mut self.lanes, lane)
    }

    /// A look at both ends of all rings: what was accepted is then what was taken and what the
    /// lanes know of.
    pub fn look_beside(&mut self, feeds: &mut Vec<Feed>)
        requires { map ring_of_feed feeds.old.items ≡ map ring_of_lane self.old.lanes.items }
        ensures history { self.new.history.items ≡ self.old.history.items }
        ensures gone { self.new.history.gone ≡ self.old.history.gone }
        ensures count { length self.new.lanes.items ≡ length self.old.lanes.items }
        ensures rings { map ring_of_lane self.new.lanes.items
            ≡ map ring_of_lane self.old.lanes.items }
        ensures feeds { map ring_of_feed feeds.new.items ≡ map ring_of_feed feeds.old.items }
        ensures accepted { map accepted feeds.new.items ≡ map accepted feeds.old.items }
        ensures whole { map given self.new.lanes.items ≡ map accepted feeds.old.items }
    {
        look_at_all(&mut self.lanes, feeds)
    }

    /// Whether a lane knows of a group. Its ring is not looked at.
    pub fn waits(&self, lane: usize) -> bool
        requires { lane < length self.now.lanes.items }
        ensures { IsTrue result ↔ IsWaiting self.now.lanes.items lane }
    {
        let _ = self.lanes.as_slice().len(); // For the proof.
        self.lanes[lane].is_known()
    }

    /// A copy of the group that a lane gives next, which it knows of. Its ring is not looked at.
    pub fn first(&self, lane: usize) -> Group
        requires inside { lane < length self.now.lanes.items }
        requires waits { IsWaiting self.now.lanes.items lane }
        ensures { IsNext self.now.lanes.items lane result }
    {
        let _ = self.lanes.as_slice().len(); // For the proof.
        self.lanes[lane].peek_known()
    }

    /// A copy of the record that a lane gives next, if the lane knows of a group and it has one
    /// record. Its ring is not looked at.
    pub fn alone(&self, lane: usize) -> Option<Record>
        requires { lane < length self.now.lanes.items }
        ensures { IfSome result (λ r. IsNext self.now.lanes.items lane (r ∷ [])) }
    {
        let _ = self.lanes.as_slice().len(); // For the proof.
        Some(self.lanes[lane].alone()?.copy())
    }

    /// The kept entries from one index of the whole history up to another.
    pub fn between(&self, from: usize, to: usize) -> &[PackedEntry]
        requires kept { self.now.history.gone ≤ from }
        requires order { from ≤ to }
        requires within { to ≤ length self.now.history.items }
        ensures { result.now ≡ take (to - from) (drop from self.now.history.items) }
    {
        self.history.between(from, to)
    }

    /// Makes room for the entries of one more group.
    pub fn reserve(&mut self) -> Result<(), AllocError>
        ensures lanes { self.new.lanes ≡ self.old.lanes }
        ensures history { self.new.history.items ≡ self.old.history.items }
        ensures gone { self.new.history.gone ≡ self.old.history.gone }
        ensures room { OnOk result (HasRoom 4 self.new.history) }
    {
        self.history.reserve()
    }

    /// The entries of a group of a lane, as the history keeps them.
    pub fn packed(&self, lane: usize, group: &Group) -> Result<Vec<PackedEntry>, AllocError>
        requires { lane < length self.now.lanes.items }
        ensures entries { IfOk result (λ v. v.items ≡ entered lane (marked group.now)) }
        ensures records { IfOk result (λ v. records v.items ≡ group.now) }
    {
        let _ = self.lanes.len(); // For the proof.
        pack(*self.counts.allocator(), lane as u16, group.as_slice())
    }

    /// The entry of a record of a lane that is a group of its own, on this page.
    pub fn packed_alone(
        &self,
        lane: usize,
        item: &Record,
        page: u32,
    ) -> Result<PackedEntry, AllocError>
        requires { lane < length self.now.lanes.items }
        ensures { IfOk result (λ e. e ≡ record { writer = lane; more = false; item = item.now }) }
    {
        let _ = self.lanes.len(); // For the proof.
        let entry = PackedEntry::of(*self.counts.allocator(), lane as u16, false, item)?;
        Ok(entry.on(page))
    }

    /// Takes the group that the lane gives next, and enters its entries.
    pub fn enter(&mut self, lane: usize, group: &Group, entries: Vec<PackedEntry>)
        requires inside { lane < length self.old.lanes.items }
        requires next { IsNext self.old.lanes.items lane group.now }
        requires entries { entries.items ≡ entered lane (marked group.now) }
        requires room { HasRoom 4 self.old.history }
        ensures { Enters lane group.now self.old self.new }
    {
        let Intake {
            lanes,
            history,
            counts,
        } = self;
        take_at(lanes, lane, group);
        let records = group.len() as u64;
        history.push_all(entries);
        count_more(counts, lane, records, history.len());
    }

    /// Takes the group that the lane gives next, if it is only this record, and enters it: no room
    /// is made for four records on the way.
    pub fn enter_alone(&mut self, lane: usize, item: &Record, entry: PackedEntry)
        requires inside { lane < length self.old.lanes.items }
        requires next { IsNext self.old.lanes.items lane (item.now ∷ []) }
        requires entry { entry ≡ record { writer = lane; more = false; item = item.now } }
        requires room { HasRoom 1 self.old.history }
        ensures { Enters lane (item.now ∷ []) self.old self.new }
    {
        let Intake {
            lanes,
            history,
            counts,
        } = self;
        pass_at(lanes, lane, item);
        history.push(entry);
        count_more(counts, lane, 1, history.len());
    }
}

// A count of none for each lane.
fn no_counts(alloc: Global, lanes: usize) -> Result<Vec<u64>, AllocError>
    ensures { IfOk result (λ counts. counts.items ≡ replicate lanes 0) }
{
    let mut counts = Vec::new(alloc);
    counts.resize(lanes, 0)?;
    Ok(counts)
}

// How many of the entries are of this writer; of all there are no more than `most`.
fn count_of(entries: &[PackedEntry], writer: u16, most: u64) -> u64
    requires { length entries.now ≤ most }
    ensures { result ≡ length (of_writer writer entries.now) }
{
    let _ = most;
    let mut count = 0;
    for entry in entries {
        if entry.writer() == writer {
            count += 1;
        }
    }
    count
}

// The entries of a group, as the history keeps them.
fn pack(alloc: Global, writer: u16, items: &[Record]) -> Result<Vec<PackedEntry>, AllocError>
    requires { (1 ≤ length items.now) × (length items.now ≤ 4) }
    ensures { IfOk result (λ v. v.items ≡ entered writer (marked items.now)) }
{
    let mut all = Vec::with_capacity(alloc, items.len())?;
    match items {
        [a] => add(&mut all, writer, false, a)?,
        [a, b] => {
            add(&mut all, writer, true, a)?;
            add(&mut all, writer, false, b)?;
        }
        [a, b, c] => {
            add(&mut all, writer, true, a)?;
            add(&mut all, writer, true, b)?;
            add(&mut all, writer, false, c)?;
        }
        [a, b, c, d] => {
            add(&mut all, writer, true, a)?;
            add(&mut all, writer, true, b)?;
            add(&mut all, writer, true, c)?;
            add(&mut all, writer, false, d)?;
        }
        _ => unreachable!(),
    }
    Ok(all)
}

// Adds the entry of one record.
fn add(all: &mut Vec<PackedEntry>, writer: u16, more: bool, item: &Record) -> Result<(), AllocError>
    ensures { OnOk result (all.new.items
        ≡ all.old.items ++ record { writer = writer; more = more; item = item.now } ∷ []) }
{
    let entry = PackedEntry::of(*all.allocator(), writer, more, item)?;
    all.push(entry)?;
    Ok(())
}

// So many records more of one lane; of all lanes there are no more than `most`.
fn count_more(counts: &mut Vec<u64>, lane: usize, records: u64, most: u64)
    requires inside { lane < length counts.old.items }
    requires within { slice_index_or counts.old.items lane 0 + records ≤ most }
    ensures { counts.new.items ≡ slice_set counts.old.items lane
        (slice_index_or counts.old.items lane 0 + records) }
{
    let _ = most;
    let _ = counts.as_slice().len(); // For the proof.
    counts[lane] += records;
}

fn finds_at(lanes: &mut Vec<Lane>, at: usize) -> bool
    requires { at < length lanes.old.items }
    ensures rings { map ring_of_lane lanes.new.items ≡ map ring_of_lane lanes.old.items }
    ensures count { length lanes.new.items ≡ length lanes.old.items }
    ensures len { vec_len lanes.new ≡ vec_len lanes.old }
    ensures taken { map taken lanes.new.items ≡ map taken lanes.old.items }
    ensures waits { IsTrue result → IsWaiting lanes.new.items at }
    ensures none { result ≡ false → Dries at lanes.old.items lanes.new.items }
    ensures knows { KnowMore lanes.old.items lanes.new.items }
{
    let _ = lanes.as_slice().len(); // For the proof.
    finds_one(&mut lanes[at])
}

fn finds_one(lane: &mut Lane) -> bool
    ensures ring { ring_of_lane lane.new ≡ ring_of_lane lane.old }
    ensures taken { taken lane.new ≡ taken lane.old }
    ensures some { IsTrue result → 0 < length (known lane.new) }
    ensures none { result ≡ false → known lane.new ≡ [] }
    ensures kept { 0 < length (known lane.old) → known lane.new ≡ known lane.old }
{
    lane.finds()
}

fn take_at(lanes: &mut Vec<Lane>, at: usize, item: &Group)
    requires inside { at < length lanes.old.items }
    requires next { IsNext lanes.old.items at item.now }
    ensures rings { map ring_of_lane lanes.new.items ≡ map ring_of_lane lanes.old.items }
    ensures len { vec_len lanes.new ≡ vec_len lanes.old }
    ensures count { length lanes.new.items ≡ length lanes.old.items }
    ensures took { TookAt at item.now (map taken lanes.old.items) (map taken lanes.new.items) }
    ensures given { map given lanes.new.items ≡ map given lanes.old.items }
    ensures known { TookKnown at lanes.old.items lanes.new.items }
{
    let _ = lanes.as_slice().len(); // For the proof.
    let _ = take_one(&mut lanes[at], item);
}

fn pass_at(lanes: &mut Vec<Lane>, at: usize, item: &Record)
    requires inside { at < length lanes.old.items }
    requires next { IsNext lanes.old.items at (item.now ∷ []) }
    ensures rings { map ring_of_lane lanes.new.items ≡ map ring_of_lane lanes.old.items }
    ensures len { vec_len lanes.new ≡ vec_len lanes.old }
    ensures count { length lanes.new.items ≡ length lanes.old.items }
    ensures took { TookAt at (item.now ∷ []) (map taken lanes.old.items) (map taken lanes.new.items) }
    ensures given { map given lanes.new.items ≡ map given lanes.old.items }
    ensures known { TookKnown at lanes.old.items lanes.new.items }
{
    let _ = lanes.as_slice().len(); // For the proof.
    lanes[at].pass_alone(item);
}

fn take_one(lane: &mut Lane, item: &Group) -> Group
    requires { IsPrefix (item.now ∷ []) (known lane.old) }
    ensures given { given lane.new ≡ given lane.old }
    ensures ring { ring_of_lane lane.new ≡ ring_of_lane lane.old }
    ensures taken { taken lane.new ≡ taken lane.old ++ marked item.now }
    ensures known { known lane.old ≡ item.now ∷ known lane.new }
{
    let _ = item;
    lane.take_known()
}
