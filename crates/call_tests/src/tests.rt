//! Calls on tables in a folder: values of each length come and go, batches are one step, what was
//! kept is found again, and an opening finishes what was left half done.

ghost use Rattle.bw_home.specs.Ready.{IsReady};

use bw_calls::{
    Change, TableFault, batch, create, delete, drop_table, first, get, keep, last_name,
    name_before, next_above, next_at, open, put,
};
use bw_home::{Home, Legs, Options, System, with_store_in_legs};
use bw_rows::{Name, Number, RowKey, TableNumber, aside_key, chunk_key, no_row, row_key, whole};
use bw_tables::{aside_row, batch_step, drop_step, first_group};
use std::alloc::Global;
use std::fs;
use std::test::Fail;

/// One call, with what it has to answer.
#[derive(Drop)]
enum Step {
    /// A table of this name is made.
    Create(&'static [u8]),
    /// None is made, for this reason.
    NotMade(&'static [u8], TableFault),
    /// A table goes away.
    Drop(&'static [u8]),
    /// None does, for this reason.
    NotDropped(&'static [u8], TableFault),
    /// The first group of a drop is written alone, as a drop leaves it that is stopped there.
    Unname(&'static [u8], u8),
    /// Whether a table's number has a row of this key.
    Row(u8, &'static [u8], bool),
    /// The value of a key is this byte so many times.
    Put(&'static [u8], &'static [u8], u8, usize),
    /// It is found so.
    Get(&'static [u8], &'static [u8], u8, usize),
    /// A put that is refused for this reason.
    Refused(&'static [u8], &'static [u8], usize, TableFault),
    Delete(&'static [u8], &'static [u8]),
    /// The first key of a table.
    First(&'static [u8], &'static [u8]),
    /// It has no key.
    Empty(&'static [u8]),
    /// The first key of a table at or above one.
    At(&'static [u8], &'static [u8], &'static [u8]),
    /// There is none.
    NoneAt(&'static [u8], &'static [u8]),
    /// The first key of a table above one.
    Above(&'static [u8], &'static [u8], &'static [u8]),
    /// There is none.
    NoneAbove(&'static [u8], &'static [u8]),
    /// A key has no value.
    Absent(&'static [u8], &'static [u8]),
    /// The first chunks of a value go in under this number, as a put leaves them that is stopped.
    Leave(u64),
    /// Whether this number has a first chunk.
    Chunk(u64, bool),
    /// The batch that is made next gives a key this byte so many times.
    Add(&'static [u8], &'static [u8], u8, usize),
    /// It drops a key.
    AddNone(&'static [u8], &'static [u8]),
    /// All that was added is made.
    Batch,
    /// It is refused for this reason, and forgotten.
    BatchRefused(TableFault),
    /// A row is written aside alone, as a batch leaves it that is stopped there.
    Aside(u8, &'static [u8], u8, usize),
    /// One that takes its row away.
    AsideNone(u8, &'static [u8]),
    /// A batch stands, and is not carried out.
    Stand,
    /// Whether a table's number has a row aside of this key.
    AsideRow(u8, &'static [u8], bool),
    /// A get that is refused for this reason.
    NotRead(&'static [u8], &'static [u8], TableFault),
    /// The last name of a table.
    LastName(&'static [u8]),
    /// The last below one.
    Before(&'static [u8], &'static [u8]),
    /// There is none.
    NoneBefore(&'static [u8]),
    Open,
    Keep,
}

use Step::{
    Above, Absent, Add, AddNone, Aside, AsideNone, AsideRow, At, Batch, BatchRefused, Before,
    Chunk, Create, Delete, Drop, Empty, First, Get, Keep, LastName, Leave, NoneAbove, NoneAt,
    NoneBefore, NotDropped, NotMade, NotRead, Open, Put, Refused, Row, Stand, Unname,
};

// A byte so many times.
fn bytes_of(alloc: Global, byte: u8, len: usize) -> Result<Vec<u8>, Fail> {
    let mut bytes = Vec::new(alloc);
    bytes.resize(len, byte)?;
    Ok(bytes)
}

// What a put answers.
fn wrote(
    home: &mut Home,
    name: &[u8],
    key: &[u8],
    value: &[u8],
) -> Result<Result<(), TableFault>, Fail>
    requires { IsReady home.old holding }
    ensures { IsReady home.new holding }
{
    let name = Name::new(name)?;
    let key = RowKey::new(key)?;
    Ok(put(home, &name, &key, value))
}

// The value of a key, if it has one.
fn read(home: &mut Home, name: &[u8], key: &[u8]) -> Result<Option<Vec<u8>>, Fail>
    requires { IsReady home.old holding }
    ensures { IsReady home.new holding }
{
    let name = Name::new(name)?;
    let key = RowKey::new(key)?;
    let value = get(home, &name, &key)?;
    Ok(value)
}

fn reads(home: &mut Home, name: &[u8], key: &[u8], value: &[u8]) -> Result<bool, Fail>
    requires { IsReady home.old holding }
    ensures { IsReady home.new holding }
{
    match read(home, name, key)? {
        Some(found) => Ok(found.as_slice() == value),
        None => Ok(false),
    }
}

fn deleted(home: &mut Home, name: &[u8], key: &[u8]) -> Result<bool, Fail>
    requires { IsReady home.old holding }
    ensures { IsReady home.new holding }
{
    let name = Name::new(name)?;
    let key = RowKey::new(key)?;
    Ok(delete(home, &name, &key) == Ok(()))
}

fn created(home: &mut Home, name: &[u8]) -> Result<Result<(), TableFault>, Fail>
    requires { IsReady home.old holding }
    ensures { IsReady home.new holding }
{
    let name = Name::new(name)?;
    Ok(create(home, &name))
}

fn dropped(home: &mut Home, name: &[u8]) -> Result<Result<(), TableFault>, Fail>
    requires { IsReady home.old holding }
    ensures { IsReady home.new holding }
{
    let name = Name::new(name)?;
    Ok(drop_table(home, &name))
}

fn unnamed(home: &mut Home, name: &[u8], number: u8) -> Result<bool, Fail>
    requires { IsReady home.old holding }
    ensures { IsReady home.new holding }
{
    let name = Name::new(name)?;
    let table = TableNumber { bytes: [0, number] };
    Ok(home.change(drop_step(&name, table)) == Ok(()))
}

fn has_row(home: &mut Home, number: u8, key: &[u8]) -> Result<bool, Fail>
    requires { IsReady home.old holding }
    ensures { IsReady home.new holding }
{
    let key = RowKey::new(key)?;
    let table = TableNumber { bytes: [0, number] };
    let row = home.get(&row_key(table, &key))?;
    Ok(row.is_some())
}

// The key of a pair.
fn key_in(pair: Option<(RowKey, Vec<u8>)>) -> Option<RowKey> {
    let (key, _) = pair?;
    Some(key)
}

fn is_key(found: Option<RowKey>, wanted: &[u8]) -> bool {
    match found {
        Some(found) => found.as_slice() == wanted,
        None => false,
    }
}

fn first_of(home: &mut Home, name: &[u8]) -> Result<Option<RowKey>, Fail>
    requires { IsReady home.old holding }
    ensures { IsReady home.new holding }
{
    let name = Name::new(name)?;
    let pair = first(home, &name)?;
    Ok(key_in(pair))
}

fn found_at(home: &mut Home, name: &[u8], key: &[u8]) -> Result<Option<RowKey>, Fail>
    requires { IsReady home.old holding }
    ensures { IsReady home.new holding }
{
    let name = Name::new(name)?;
    let key = RowKey::new(key)?;
    let pair = next_at(home, &name, &key)?;
    Ok(key_in(pair))
}

fn found_above(home: &mut Home, name: &[u8], key: &[u8]) -> Result<Option<RowKey>, Fail>
    requires { IsReady home.old holding }
    ensures { IsReady home.new holding }
{
    let name = Name::new(name)?;
    let key = RowKey::new(key)?;
    let pair = next_above(home, &name, &key)?;
    Ok(key_in(pair))
}

// The first two chunks of a value that has them.
fn left(home: &mut Home, number: u64, value: &[u8]) -> Result<bool, Fail>
    requires { IsReady home.old holding }
    ensures { IsReady home.new holding }
{
    if value.len() <= 512 {
        return Ok(false);
    }
    Ok(home.change(first_group(Number::of(number), value, 2)) == Ok(()))
}

fn has_chunk(home: &mut Home, number: u64) -> Result<bool, Fail>
    requires { IsReady home.old holding }
    ensures { IsReady home.new holding }
{
    let chunk = home.get(&chunk_key(Number::of(number), 0))?;
    Ok(chunk.is_some())
}

// A change that the next batch makes.
fn add(
    changes: &mut Vec<Change>,
    name: &[u8],
    key: &[u8],
    value: Option<Vec<u8>>,
) -> Result<bool, Fail> {
    changes.push(Change {
        table: Name::new(name)?,
        key: RowKey::new(key)?,
        value,
    })?;
    Ok(true)
}

// What a batch of all that was added answers.
fn batched(home: &mut Home, changes: &mut Vec<Change>) -> Result<(), TableFault>
    requires { IsReady home.old holding }
    ensures { IsReady home.new holding }
{
    let answer = batch(home, changes.as_slice());
    changes.clear();
    answer
}

fn set_aside(home: &mut Home, number: u8, key: &[u8], value: &[u8]) -> Result<bool, Fail>
    requires { IsReady home.old holding }
    ensures { IsReady home.new holding }
{
    if value.len() > 511 {
        return Ok(false);
    }
    let key = RowKey::new(key)?;
    let table = TableNumber { bytes: [0, number] };
    Ok(home.change(aside_row(table, &key, whole(value))) == Ok(()))
}

fn set_none_aside(home: &mut Home, number: u8, key: &[u8]) -> Result<bool, Fail>
    requires { IsReady home.old holding }
    ensures { IsReady home.new holding }
{
    let key = RowKey::new(key)?;
    let table = TableNumber { bytes: [0, number] };
    Ok(home.change(aside_row(table, &key, no_row())) == Ok(()))
}

fn has_aside(home: &mut Home, number: u8, key: &[u8]) -> Result<bool, Fail>
    requires { IsReady home.old holding }
    ensures { IsReady home.new holding }
{
    let key = RowKey::new(key)?;
    let table = TableNumber { bytes: [0, number] };
    let row = home.get(&aside_key(table, &key))?;
    Ok(row.is_some())
}

// Why a get is refused, if it is.
fn not_read(home: &mut Home, name: &[u8], key: &[u8]) -> Result<Option<TableFault>, Fail>
    requires { IsReady home.old holding }
    ensures { IsReady home.new holding }
{
    let name = Name::new(name)?;
    let key = RowKey::new(key)?;
    Ok(get(home, &name, &key).err())
}

fn is_name(found: Option<Name>, wanted: &[u8]) -> bool {
    match found {
        Some(found) => found.as_slice() == wanted,
        None => false,
    }
}

fn before(home: &mut Home, name: &[u8]) -> Result<Option<Name>, Fail>
    requires { IsReady home.old holding }
    ensures { IsReady home.new holding }
{
    let name = Name::new(name)?;
    let found = name_before(home, &name)?;
    Ok(found)
}

// Whether the step goes as expected.
fn goes(
    alloc: Global,
    home: &mut Home,
    changes: &mut Vec<Change>,
    step: &Step,
) -> Result<bool, Fail>
    requires { IsReady home.old holding }
    ensures { IsReady home.new holding }
{
    match step {
        Create(name) => Ok(created(home, *name)? == Ok(())),
        NotMade(name, fault) => Ok(created(home, *name)? == Err(*fault)),
        Drop(name) => Ok(dropped(home, *name)? == Ok(())),
        NotDropped(name, fault) => Ok(dropped(home, *name)? == Err(*fault)),
        Unname(name, number) => unnamed(home, *name, *number),
        Row(number, key, there) => Ok(has_row(home, *number, *key)? == *there),
        Put(name, key, byte, len) => {
            let value = bytes_of(alloc, *byte, *len)?;
            Ok(wrote(home, *name, *key, value.as_slice())? == Ok(()))
        }
        Get(name, key, byte, len) => {
            let value = bytes_of(alloc, *byte, *len)?;
            reads(home, *name, *key, value.as_slice())
        }
        Refused(name, key, len, fault) => {
            let value = bytes_of(alloc, 0, *len)?;
            Ok(wrote(home, *name, *key, value.as_slice())? == Err(*fault))
        }
        Delete(name, key) => deleted(home, *name, *key),
        First(name, key) => Ok(is_key(first_of(home, *name)?, *key)),
        Empty(name) => Ok(first_of(home, *name)?.is_none()),
        At(name, from, key) => Ok(is_key(found_at(home, *name, *from)?, *key)),
        NoneAt(name, from) => Ok(found_at(home, *name, *from)?.is_none()),
        Above(name, from, key) => Ok(is_key(found_above(home, *name, *from)?, *key)),
        NoneAbove(name, from) => Ok(found_above(home, *name, *from)?.is_none()),
        Absent(name, key) => Ok(read(home, *name, *key)?.is_none()),
        Leave(number) => {
            let value = bytes_of(alloc, b'x', 3_000)?;
            left(home, *number, value.as_slice())
        }
        Chunk(number, there) => Ok(has_chunk(home, *number)? == *there),
        Add(name, key, byte, len) => {
            let value = bytes_of(alloc, *byte, *len)?;
            add(changes, *name, *key, Some(value))
        }
        AddNone(name, key) => add(changes, *name, *key, None),
        Batch => Ok(batched(home, changes) == Ok(())),
        BatchRefused(fault) => Ok(batched(home, changes) == Err(*fault)),
        Aside(number, key, byte, len) => {
            let value = bytes_of(alloc, *byte, *len)?;
            set_aside(home, *number, *key, value.as_slice())
        }
        AsideNone(number, key) => set_none_aside(home, *number, *key),
        Stand => Ok(home.change(batch_step()) == Ok(())),
        AsideRow(number, key, there) => Ok(has_aside(home, *number, *key)? == *there),
        NotRead(name, key, fault) => Ok(not_read(home, *name, *key)? == Some(*fault)),
        LastName(name) => Ok(is_name(last_name(home)?, *name)),
        Before(name, wanted) => Ok(is_name(before(home, *name)?, *wanted)),
        NoneBefore(name) => Ok(before(home, *name)?.is_none()),
        Open => Ok(open(home) == Ok(())),
        Keep => Ok(keep(home) == Ok(())),
    }
}

/// Steps, one a leg.
#[derive(Drop)]
struct Walks {
    steps: &'static [Step],
    at: usize,
    // What the next batch makes.
    changes: Vec<Change>,
}

impl<R: System> Legs<R> for Walks {
    // How many steps went as expected before one did not.
    type Answer = Result<usize, Fail>;

    fn leg(&mut self, rt: &R, home: &mut Home) -> Option<Result<usize, Fail>> {
        let Some(step) = self.steps.get(self.at) else {
            return Some(Ok(self.at));
        };
        match goes(rt.alloc(), home, &mut self.changes, step) {
            Ok(true) => {
                self.at = self.at.saturating_add(1);
                None
            }
            Ok(false) => Some(Ok(self.at)),
            Err(fail) => Some(Err(fail)),
        }
    }
}

// The first life in a folder, and the first step of that one, that goes otherwise than expected.
fn wrong_in<R: System>(
    rt: &R,
    path: &str,
    options: &Options,
    lives: &[&'static [Step]],
) -> Result<Option<(usize, usize)>, Fail> {
    for (life, steps) in lives.iter().enumerate() {
        let mut walks = Walks {
            steps: *steps,
            at: 0,
            changes: Vec::new(rt.alloc()),
        };
        let went = with_store_in_legs(rt, path, options, &mut walks)??;
        if went != steps.len() {
            return Ok(Some((life, went)));
        }
    }
    fs::remove_dir_all(rt, path)?;
    Ok(None)
}

// A value stands in its row up to 511 bytes, and in chunks of 512 from there on.
const LENGTHS: [Step; 20] = [
    Absent(b"t", b"k"),
    Refused(b"t", b"k", 3, TableFault::NoTable),
    Create(b"t"),
    NotMade(b"t", TableFault::Exists),
    Put(b"t", b"k", b'a', 0),
    Get(b"t", b"k", b'a', 0),
    Put(b"t", b"k", b'b', 511),
    Get(b"t", b"k", b'b', 511),
    Put(b"t", b"k", b'c', 512),
    Get(b"t", b"k", b'c', 512),
    Put(b"t", b"k", b'd', 513),
    Get(b"t", b"k", b'd', 513),
    Put(b"t", b"l", b'e', 100_000),
    Get(b"t", b"l", b'e', 100_000),
    Get(b"t", b"k", b'd', 513),
    Refused(b"t", b"l", 16_777_217, TableFault::TooLong),
    Delete(b"t", b"k"),
    Absent(b"t", b"k"),
    Keep,
    Put(b"t", b"k", b'f', 2_000),
];

// What was not kept is gone, with no chunk left.
const FOUND_AGAIN: [Step; 4] = [
    Open,
    Absent(b"t", b"k"),
    Get(b"t", b"l", b'e', 100_000),
    Delete(b"t", b"l"),
];

#[test]
fn values_of_each_length_come_and_go(rt: HostRuntime) -> Result<(), Fail> {
    let wrong = wrong_in(
        &rt,
        "call_tests_lengths",
        &Options::default(),
        &[&LENGTHS, &FOUND_AGAIN],
    )?;
    assert_eq!(&rt; wrong, None);
    Ok(())
}

// A put was stopped before its step, and the number is taken again.
const LEFT: [Step; 6] = [
    Create(b"t"),
    Put(b"t", b"k", b'a', 600),
    Leave(9),
    Chunk(0, true),
    Chunk(9, true),
    Keep,
];

const COLLECTED: [Step; 6] = [
    Open,
    Chunk(9, false),
    Get(b"t", b"k", b'a', 600),
    Put(b"t", b"k", b'b', 700),
    Chunk(9, true),
    Chunk(0, false),
];

#[test]
fn an_opening_collects_what_was_left(rt: HostRuntime) -> Result<(), Fail> {
    let wrong = wrong_in(
        &rt,
        "call_tests_left",
        &Options::default(),
        &[&LEFT, &COLLECTED],
    )?;
    assert_eq!(&rt; wrong, None);
    Ok(())
}

// Tables come and go, and each has its own keys. The numbers are taken from the least one on.
const TABLES: [Step; 18] = [
    Create(b"a"),
    Create(b"ab"),
    Create(b"b"),
    Put(b"a", b"k", b'1', 1),
    Put(b"ab", b"k", b'2', 600),
    Put(b"b", b"k", b'3', 600),
    Drop(b"ab"),
    NotDropped(b"ab", TableFault::NoTable),
    Absent(b"ab", b"k"),
    Row(1, b"k", false),
    Chunk(0, false),
    Get(b"a", b"k", b'1', 1),
    Get(b"b", b"k", b'3', 600),
    Create(b"ab"),
    Absent(b"ab", b"k"),
    Put(b"ab", b"k", b'4', 2),
    Unname(b"b", 2),
    Keep,
];

// The drop that was stopped is finished: its row goes away, and the chunks that this named.
const DROPPED: [Step; 7] = [
    Row(2, b"k", true),
    Chunk(1, true),
    Open,
    Row(2, b"k", false),
    Chunk(1, false),
    Get(b"a", b"k", b'1', 1),
    Get(b"ab", b"k", b'4', 2),
];

#[test]
fn tables_come_and_go(rt: HostRuntime) -> Result<(), Fail> {
    let wrong = wrong_in(
        &rt,
        "call_tests_tables",
        &Options::default(),
        &[&TABLES, &DROPPED],
    )?;
    assert_eq!(&rt; wrong, None);
    Ok(())
}

// The longest name, the longest key and the longest value.
const LONGEST_NAME: &'static [u8] = &[255; 127];

const LONGEST_KEY: &'static [u8] = &[255; 124];

const LONGEST: [Step; 4] = [
    Create(LONGEST_NAME),
    Put(LONGEST_NAME, LONGEST_KEY, b'z', 16_777_216),
    Get(LONGEST_NAME, LONGEST_KEY, b'z', 16_777_216),
    Keep,
];

const LONGEST_FOUND: [Step; 2] = [Open, Get(LONGEST_NAME, LONGEST_KEY, b'z', 16_777_216)];

#[test]
fn the_longest_words_are_taken(rt: HostRuntime) -> Result<(), Fail> {
    let options = Options {
        segments: 12,
        ..Options::default()
    };
    let wrong = wrong_in(
        &rt,
        "call_tests_longest",
        &options,
        &[&LONGEST, &LONGEST_FOUND],
    )?;
    assert_eq!(&rt; wrong, None);
    Ok(())
}

// A walk goes over the keys of its table in their order, a beginning before its continuation, and
// over no row of another table and no chunk.
const WALKED: [Step; 21] = [
    Create(b"a"),
    Create(b"b"),
    Create(b"c"),
    Empty(b"b"),
    Put(b"a", b"z", b'1', 1),
    Put(b"c", b"a", b'1', 600),
    Empty(b"b"),
    Put(b"b", b"k", b'1', 1),
    Put(b"b", b"k\0", b'2', 700),
    Put(b"b", b"ka", b'3', 1),
    Put(b"b", b"j", b'4', 1),
    First(b"b", b"j"),
    Above(b"b", b"j", b"k"),
    Above(b"b", b"k", b"k\0"),
    Above(b"b", b"k\0", b"ka"),
    NoneAbove(b"b", b"ka"),
    At(b"b", b"k", b"k"),
    At(b"b", b"k\0\0", b"ka"),
    NoneAt(b"b", b"kb"),
    Empty(b"d"),
    NoneAt(b"d", b"k"),
];

#[test]
fn a_walk_goes_over_one_table(rt: HostRuntime) -> Result<(), Fail> {
    let wrong = wrong_in(&rt, "call_tests_walked", &Options::default(), &[&WALKED])?;
    assert_eq!(&rt; wrong, None);
    Ok(())
}

// A batch changes keys of two tables at once, a later change of a key before an earlier one.
const BATCHES: [Step; 26] = [
    Create(b"a"),
    Create(b"b"),
    Put(b"a", b"k", b'1', 1),
    Put(b"a", b"l", b'2', 600),
    Add(b"a", b"k", b'3', 700),
    Add(b"b", b"k", b'4', 2),
    AddNone(b"a", b"l"),
    Add(b"b", b"k", b'5', 0),
    Batch,
    Get(b"a", b"k", b'3', 700),
    Absent(b"a", b"l"),
    Get(b"b", b"k", b'5', 0),
    AsideRow(0, b"k", false),
    Chunk(0, false),
    Chunk(1, true),
    Add(b"a", b"k", b'6', 1),
    Add(b"c", b"k", b'7', 1),
    BatchRefused(TableFault::NoTable),
    Get(b"a", b"k", b'3', 700),
    Batch,
    LastName(b"b"),
    Before(b"b", b"a"),
    NoneBefore(b"a"),
    Add(b"a", b"m", b'8', 16_777_217),
    BatchRefused(TableFault::TooLong),
    Keep,
];

const BATCHES_FOUND: [Step; 4] = [
    Open,
    Get(b"a", b"k", b'3', 700),
    Get(b"b", b"k", b'5', 0),
    AsideRow(0, b"k", false),
];

#[test]
fn a_batch_is_one_step(rt: HostRuntime) -> Result<(), Fail> {
    let wrong = wrong_in(
        &rt,
        "call_tests_batch",
        &Options::default(),
        &[&BATCHES, &BATCHES_FOUND],
    )?;
    assert_eq!(&rt; wrong, None);
    Ok(())
}

// A batch was stopped before its step.
const SET_ASIDE: [Step; 8] = [
    Create(b"a"),
    Put(b"a", b"k", b'1', 1),
    Put(b"a", b"l", b'2', 2),
    Aside(0, b"k", b'3', 3),
    AsideNone(0, b"l"),
    Get(b"a", b"k", b'1', 1),
    Get(b"a", b"l", b'2', 2),
    Keep,
];

// It goes away. Another is stopped after its step.
const STANDS: [Step; 11] = [
    Open,
    AsideRow(0, b"k", false),
    Get(b"a", b"k", b'1', 1),
    Get(b"a", b"l", b'2', 2),
    Aside(0, b"k", b'4', 4),
    AsideNone(0, b"l"),
    Stand,
    NotRead(b"a", b"k", TableFault::Unfinished),
    Refused(b"a", b"k", 1, TableFault::Unfinished),
    BatchRefused(TableFault::Unfinished),
    Keep,
];

// It is carried out.
const CARRIED: [Step; 6] = [
    NotRead(b"a", b"k", TableFault::Unfinished),
    Open,
    Get(b"a", b"k", b'4', 4),
    Absent(b"a", b"l"),
    AsideRow(0, b"k", false),
    Put(b"a", b"k", b'5', 1),
];

#[test]
fn an_opening_carries_a_batch_out(rt: HostRuntime) -> Result<(), Fail> {
    let wrong = wrong_in(
        &rt,
        "call_tests_stands",
        &Options::default(),
        &[&SET_ASIDE, &STANDS, &CARRIED],
    )?;
    assert_eq!(&rt; wrong, None);
    Ok(())
}
