//! Scripts in legs. Between two of them the room of segments that were given up comes back: nobody
//! who is lent the store makes a box.

ghost use Rattle.std.specs.Prelude.{◌≡◌, vec_len, IfOk};
ghost use Rattle.bw_home.specs.Sharing.{IsShared};

use crate::room::{Made, is_due, make_room};
use crate::runs::{Run, drive_tended};
use bw_codec::limits::HEADER_LEN;
use bw_codec::{Leaf, Record};
use bw_home::SharedHome;
use bw_ring::Group;
use bw_words::{Host, Miss, Options, Pace};
use std::alloc::{AllocError, Global};
use std::mem;

/// More than the head of a frame and that of a Delta with one record cost beside the pair.
const DELTA: u64 = 40;

/// What a Split costs beside its low key and its pairs.
const SPLIT: u64 = 24;

/// What stands before a leg.
#[derive(Clone, Copy)]
struct Held {
    /// How many pages there are.
    pages: u64,
    /// How many bytes they have as Bases.
    bytes: u64,
}

/// What a leg may append, so that a segment holds all of it, and what its groups may cost so far.
///
/// A record costs a Delta, and a Split if its page is cut. At the first cut of a page that stands
/// before the leg its Split has no more than its pairs and those that came since. From then on it,
/// and each page that the leg makes, is cut again after two records or more of its own, and a Split
/// has two pairs more than they are at most, its low key among them. No Split has more than 17
/// pairs.
#[derive(Clone, Copy)]
struct Room {
    /// How many bytes there may be.
    most: u64,
    held: Held,
    /// How many bytes a pair has at most.
    longest: u64,
    /// How many records the groups so far have.
    records: u64,
    /// How many bytes their own blocks have at most.
    own: u64,
}

/// How many bytes a pair has.
fn pair_length(key: usize, value: usize) -> u64 {
    (key as u64).saturating_add(value as u64).saturating_add(3)
}

/// How many bytes a record has as a pair, or what it takes away.
fn record_length(item: &Record) -> u64 {
    match item {
        Record::Put(key, value) => pair_length(key.as_slice().len(), value.as_slice().len()),
        Record::Del(key) => pair_length(key.as_slice().len(), 0),
    }
}

/// How many bytes the longest record of a group has.
fn longest_of(group: &Group) -> u64 {
    let mut longest: u64 = 0;
    for item in group.as_slice() {
        longest = longest.max(record_length(item));
    }
    longest
}

/// How many bytes the longest record of all groups of a script has.
fn longest_among(groups: &[Group]) -> u64 {
    let mut longest: u64 = 0;
    for group in groups {
        longest = longest.max(longest_of(group));
    }
    longest
}

/// How many bytes the longest record of all scripts has.
fn longest_in(scripts: &[Vec<Group>]) -> u64 {
    let mut longest: u64 = 0;
    for script in scripts {
        longest = longest.max(longest_among(script.as_slice()));
    }
    longest
}

impl Room {
    /// How many bytes the first Splits of the pages have at most, by so many records.
    fn first_splits(&self, records: u64) -> u64 {
        let one = self.longest.saturating_mul(18).saturating_add(SPLIT);
        let beside = self.longest.saturating_mul(2).saturating_add(SPLIT);
        let all = self.held.pages.saturating_add(1).saturating_mul(beside);
        records
            .saturating_mul(one)
            .min(self.held.bytes.saturating_add(all))
    }

    /// How many bytes all Splits of so many records have at most.
    fn splits(&self, records: u64) -> u64 {
        let each = self.longest.saturating_mul(2).saturating_add(SPLIT / 2);
        self.first_splits(records)
            .saturating_add(records.saturating_mul(each))
    }

    /// Whether a group fits too, which is then among them. The first one does.
    fn take(&mut self, group: &Group) -> bool {
        let mut own = self.own;
        for item in group.as_slice() {
            own = own
                .saturating_add(record_length(item))
                .saturating_add(DELTA);
        }
        let records = self.records.saturating_add(group.len() as u64);
        if self.records > 0 && own.saturating_add(self.splits(records)) > self.most {
            return false;
        }
        self.own = own;
        self.records = records;
        true
    }
}

/// The scripts of a run, and what came of them so far.
#[derive(Drop)]
pub struct Legs {
    /// What is left of each script, its last group first.
    rest: Vec<Vec<Group>>,
    /// How many bytes a leg appends at most, if there is a limit.
    most: Option<u64>,
    /// How many bytes the longest pair has, of the scripts and of the pages before the first leg.
    longest: u64,
    /// Whether there was no leg yet.
    is_new: bool,
    /// How many records of each script were accepted.
    pub accepted: Vec<u64>,
    /// The length of the history.
    pub entries: u64,
}

// So many counts of none.
fn no_counts(alloc: Global, count: usize) -> Result<Vec<u64>, AllocError> {
    let mut counts = Vec::new(alloc);
    counts.resize(count, 0)?;
    Ok(counts)
}

// So many records more of this writer.
fn count_more(counts: &mut Vec<u64>, writer: usize, records: u64) {
    if let Some(count) = counts.get_mut(writer) {
        *count = count.saturating_add(records);
    }
}

// How many records the groups have.
fn records_of(groups: &[Group]) -> u64 {
    let mut count: u64 = 0;
    for group in groups {
        count = count.saturating_add(group.len() as u64);
    }
    count
}

/// The group goes after those of its writer.
pub fn put_behind(
    scripts: &mut Vec<Vec<Group>>,
    writer: usize,
    group: Group,
) -> Result<(), AllocError>
    ensures { vec_len scripts.new ≡ vec_len scripts.old }
{
    if let Some(script) = scripts.get_mut(writer) {
        script.push(group)?;
    }
    Ok(())
}

impl Legs {
    /// These scripts. A leg is a run of all that is left, unless the options ask that room comes
    /// back.
    pub fn new(
        alloc: Global,
        options: &Options<'_>,
        scripts: Vec<Vec<Group>>,
    ) -> Result<Legs, AllocError> {
        let accepted = no_counts(alloc, scripts.len())?;
        let longest = longest_in(scripts.as_slice());
        let mut rest = scripts;
        for script in &mut rest {
            script.reverse();
        }
        Ok(Legs {
            rest,
            most: if options.reuse || options.most > 0 {
                Some(options.store.capacity.saturating_sub(HEADER_LEN as u64))
            } else {
                None
            },
            longest,
            is_new: true,
            accepted,
            entries: 0,
        })
    }

    // Whether all groups were put, or given up, once there was a leg.
    fn is_done(&self) -> bool {
        !self.is_new && self.rest.iter().all(|script| script.is_empty())
    }

    // The next group of a writer, if there is room for it.
    fn next_of(&mut self, writer: usize, room: &mut Room) -> Option<Group> {
        let script = self.rest.get_mut(writer)?;
        let fits = match script.as_slice().last() {
            Some(group) => room.take(group),
            None => false,
        };
        if fits { script.pop() } else { None }
    }

    // All that is left of the script of a writer.
    fn rest_of(&mut self, alloc: Global, writer: usize) -> Vec<Group> {
        match self.rest.get_mut(writer) {
            Some(script) => {
                let mut script = mem::replace(script, Vec::new(alloc));
                script.reverse();
                script
            }
            None => Vec::new(alloc),
        }
    }

    // A script of each of so many writers: all that is left.
    fn whole(&mut self, alloc: Global, writers: usize) -> Result<Vec<Vec<Group>>, AllocError>
        ensures { IfOk result (λ s. vec_len s ≡ writers) }
    {
        let mut leg = Vec::new(alloc);
        'writers: for writer in 0..writers {
            leg.push(self.rest_of(alloc, writer))?;
        }
        Ok(leg)
    }

    // A round: a group of each writer goes into the leg, if there is room for it. Answers whether
    // one did.
    fn round(&mut self, leg: &mut Vec<Vec<Group>>, room: &mut Room) -> Result<bool, AllocError>
        ensures { vec_len leg.new ≡ vec_len leg.old }
    {
        let mut is_more = false;
        'writers: for writer in 0..leg.len() {
            if let Some(group) = self.next_of(writer, room) {
                is_more = true;
                put_behind(leg, writer, group)?;
            }
        }
        Ok(is_more)
    }

    // A script of each of so many writers, for which there is room.
    fn part(
        &mut self,
        alloc: Global,
        writers: usize,
        room: Room,
    ) -> Result<Vec<Vec<Group>>, AllocError>
        ensures { IfOk result (λ s. vec_len s ≡ writers) }
    {
        let mut leg = empty_scripts(alloc, writers)?;
        let mut room = room;
        'rounds: for _ in 0..u64::MAX {
            if !self.round(&mut leg, &mut room)? {
                break;
            }
        }
        Ok(leg)
    }

    // The scripts of the next leg, over what stands before it.
    fn next(
        &mut self,
        alloc: Global,
        writers: usize,
        held: Held,
    ) -> Result<Vec<Vec<Group>>, AllocError>
        ensures { IfOk result (λ s. vec_len s ≡ writers) }
    {
        self.is_new = false;
        match self.most {
            None => self.whole(alloc, writers),
            Some(most) => {
                let room = Room {
                    most,
                    held,
                    longest: self.longest,
                    records: 0,
                    own: 0,
                };
                self.part(alloc, writers, room)
            }
        }
    }

    // Notes what came of a leg. Who gave up a group in it puts no further one.
    fn note(&mut self, lengths: &[u64], run: &Run) {
        for (writer, (accepted, length)) in run.accepted.iter().zip(lengths).enumerate() {
            count_more(&mut self.accepted, writer, *accepted);
            if accepted < length {
                self.give_up(writer);
            }
        }
        self.entries = run.entries;
    }

    fn give_up(&mut self, writer: usize) {
        if let Some(script) = self.rest.get_mut(writer) {
            script.clear();
        }
    }
}

/// So many scripts of no group.
pub fn empty_scripts(alloc: Global, writers: usize) -> Result<Vec<Vec<Group>>, AllocError>
    ensures { IfOk result (λ s. vec_len s ≡ writers) }
{
    let mut scripts = Vec::new(alloc);
    'writers: for _ in 0..writers {
        scripts.push(Vec::new(alloc))?;
    }
    Ok(scripts)
}

/// How many records each script has.
pub fn lengths_of(alloc: Global, scripts: &[Vec<Group>]) -> Result<Vec<u64>, AllocError> {
    let mut lengths = Vec::new(alloc);
    for script in scripts {
        lengths.push(records_of(script.as_slice()))?;
    }
    Ok(lengths)
}

// The longest of these lengths and of those of the pairs of a page.
fn longest_on(leaf: &Leaf, longest: u64) -> u64 {
    let mut longest = longest;
    for pair in leaf.pairs.as_slice() {
        longest = longest.max(pair_length(pair.key().len(), pair.value().len()));
    }
    longest
}

// The longer of this length and of those of the pairs of a page.
fn longest_of_page(home: &mut SharedHome, page: u32, longest: u64) -> Result<u64, Miss>
    requires { IsShared home.old holding }
    ensures { IsShared home.new holding }
{
    let leaf = home.store.page(page)?;
    Ok(longest_on(&leaf, longest))
}

// The longer of this length and of those of all pairs.
fn longest_of_all(home: &mut SharedHome, longest: u64) -> Result<u64, Miss>
    requires { IsShared home.old holding }
    ensures { IsShared home.new holding }
{
    let mut longest = longest;
    'pages: for index in 0..home.store.pages() {
        longest = longest_of_page(home, index.saturating_add(1), longest)?;
    }
    Ok(longest)
}

// What stands: each page was set last in one of the live segments.
fn held_by(home: &SharedHome) -> Held
    requires { IsShared home.now holding }
{
    let mut bytes: u64 = 0;
    for i in 0..home.store.live() {
        bytes = bytes.saturating_add(home.store.needed(i).unwrap_or(0));
    }
    Held {
        pages: u64::from(home.store.pages()),
        bytes,
    }
}

// Lets go of what readers have of the history if the pace wants it.
fn forget_by(home: &mut SharedHome, pace: Pace)
    requires { IsShared home.old holding }
    ensures { IsShared home.new holding }
{
    if pace.forgets {
        let _ = home.store.forget();
    }
}

impl Legs {
    // Before the first leg of parts, the longest pair that there is.
    fn look_ahead(&mut self, home: &mut SharedHome) -> Result<(), Miss>
        requires { IsShared home.old holding }
        ensures { IsShared home.new holding }
    {
        if !self.is_new || self.most.is_none() {
            return Ok(());
        }
        self.longest = longest_of_all(home, self.longest)?;
        Ok(())
    }

    // Runs the next leg.
    fn go<R: Host>(&mut self, rt: &R, home: &mut SharedHome, pace: Pace) -> Result<(), Miss>
        requires { IsShared home.old holding }
        ensures { IsShared home.new holding }
    {
        self.look_ahead(home)?;
        let leg = self.next(rt.alloc(), home.feeds.len(), held_by(home))?;
        let lengths = lengths_of(rt.alloc(), leg.as_slice())?;
        let run = drive_tended(rt, home, leg, pace)??;
        self.note(lengths.as_slice(), &run);
        Ok(())
    }

    // Makes a spare if the options want one: in place of the oldest segment, or a further one.
    fn make_room<R: Host>(
        &self,
        rt: &R,
        home: &mut SharedHome,
        options: &Options<'_>,
        pace: Pace,
    ) -> Result<Option<Made>, Miss>
        requires { IsShared home.old holding }
        ensures { IsShared home.new holding }
    {
        if options.reuse && is_due(home, pace) {
            let _ = home.clean(rt)?;
            forget_by(home, pace);
            return Ok(Some(Made::Again));
        }
        if self.is_done() {
            return Ok(None);
        }
        make_room(rt, home, options)
    }

    /// Runs legs until a spare was made, in place of the oldest segment or as a further one: it is
    /// one from the next leg on. `None` at the end of all scripts.
    pub fn go_on<R: Host>(
        &mut self,
        rt: &R,
        home: &mut SharedHome,
        options: &Options<'_>,
        pace: Pace,
    ) -> Result<Option<Made>, Miss>
        requires { IsShared home.old holding }
        ensures { IsShared home.new holding }
    {
        // Nothing is given up within a leg if its room is to come back.
        let within = Pace {
            clean_at: if self.most.is_some() {
                0
            } else {
                pace.clean_at
            },
            ..pace
        };
        'legs: for _ in 0..u64::MAX {
            if let Some(made) = self.make_room(rt, home, options, pace)? {
                return Ok(Some(made));
            }
            if self.is_done() {
                break;
            }
            self.go(rt, home, within)?;
        }
        Ok(None)
    }
}
