//! A walk goes over the pairs of a prefix, or over all, as they are at each step; a stretch of
//! pairs stays as it was found; and the least key above another.

ghost use Rattle.bw_home.specs.Ready.{IsReady};

use super::again::SMALL;
use bw::{Home, Key, Legs, Pair, System, Value, Walk, after, with_store_at};
use bw_codec::limits::MAX_KEY;
use std::alloc::Global;
use std::test::Fail;

/// One call, with what it has to answer.
#[derive(Drop)]
enum Step {
    /// Sets the value of a key, to the key's bytes.
    Set(&'static [u8]),
    /// A walk over all pairs begins.
    All,
    /// A walk over the pairs whose keys begin so begins.
    Over(&'static [u8]),
    /// The walk comes to this key; with no bytes, to its end.
    Comes(&'static [u8]),
    /// Pairs are found from a key on, no more than so many.
    Finds(&'static [u8], usize),
    /// They are those of these keys.
    Found(&'static [&'static [u8]]),
}

use Step::{All, Comes, Finds, Found, Over, Set};

fn set(home: &mut Home, key: &[u8]) -> Result<bool, Fail>
    requires { IsReady home.old holding }
    ensures { IsReady home.new holding }
{
    let value = Value::new(key)?;
    let key = Key::new(key)?;
    Ok(home.set(key, value) == Ok(()))
}

fn comes(walk: &mut Walk, home: &mut Home, key: &[u8]) -> Result<bool, Fail>
    requires { IsReady home.old holding }
    ensures { IsReady home.new holding }
{
    match walk.next(home)? {
        Some((at, value)) => Ok(at.as_slice() == key && value.as_slice() == key),
        None => Ok(key.is_empty()),
    }
}

fn finds(found: &mut Vec<Pair>, home: &mut Home, key: &[u8], most: usize) -> Result<bool, Fail>
    requires { IsReady home.old holding }
    ensures { IsReady home.new holding }
{
    home.scan_shared(&Key::new(key)?, most, found)?;
    Ok(true)
}

fn are_those_of(pairs: &[Pair], keys: &[&'static [u8]]) -> bool {
    pairs.len() == keys.len()
        && pairs
            .iter()
            .zip(keys)
            .all(|(pair, key)| pair.key() == *key && pair.value() == *key)
}

// Whether the step goes as expected.
fn goes(going: &mut Going, home: &mut Home, step: &Step) -> Result<bool, Fail>
    requires { IsReady home.old holding }
    ensures { IsReady home.new holding }
{
    match step {
        Set(key) => return set(home, *key),
        Comes(key) => return comes(&mut going.walk, home, *key),
        Finds(key, most) => return finds(&mut going.found, home, *key, *most),
        Found(keys) => return Ok(are_those_of(&going.found, *keys)),
        All => going.walk = Walk::all(),
        Over(prefix) => going.walk = Walk::over(Key::new(*prefix)?),
    }
    Ok(true)
}

/// A walk, and the pairs that were found last.
#[derive(Drop)]
struct Going {
    walk: Walk,
    found: Vec<Pair>,
}

/// Steps, one a leg.
#[derive(Drop)]
struct Steps {
    steps: &'static [Step],
    at: usize,
    going: Going,
}

impl Steps {
    fn of(alloc: Global, steps: &'static [Step]) -> Steps {
        let going = Going {
            walk: Walk::all(),
            found: Vec::new(alloc),
        };
        Steps {
            steps,
            at: 0,
            going,
        }
    }
}

impl<R: System> Legs<R> for Steps {
    // How many steps went as expected before one did not.
    type Answer = Result<usize, Fail>;

    fn leg(&mut self, _rt: &R, home: &mut Home) -> Option<Result<usize, Fail>> {
        let Some(step) = self.steps.get(self.at) else {
            return Some(Ok(self.at));
        };
        match goes(&mut self.going, home, step) {
            Ok(true) => {
                self.at = self.at.saturating_add(1);
                None
            }
            Ok(false) => Some(Ok(self.at)),
            Err(fail) => Some(Err(fail)),
        }
    }
}

/// An empty home: a walk that is at its end stays there.
const EMPTY: [Step; 6] = [
    Comes(b""),
    Over(b"b"),
    Comes(b""),
    Set(b"b"),
    Comes(b""),
    Comes(b""),
];

/// Nine pairs on several pages, and a prefix that ends with the greatest byte.
const PREFIX: [Step; 29] = [
    Set(b"c"),
    Set(b"b\xff\xffz"),
    Set(b"b\xff\xff"),
    Set(b"b\xff\x00"),
    Set(b"b\xff"),
    Set(b"b\xfe\xff"),
    Set(b"b"),
    Set(b"a"),
    Set(b"\x00"),
    Over(b"b\xff"),
    Comes(b"b\xff"),
    Comes(b"b\xff\x00"),
    Comes(b"b\xff\xff"),
    Comes(b"b\xff\xffz"),
    Comes(b""),
    Over(b"bz"),
    Comes(b""),
    All,
    Comes(b"\x00"),
    Comes(b"a"),
    Comes(b"b"),
    Comes(b"b\xfe\xff"),
    Comes(b"b\xff"),
    Comes(b"b\xff\x00"),
    Comes(b"b\xff\xff"),
    Comes(b"b\xff\xffz"),
    Comes(b"c"),
    Comes(b""),
    Comes(b""),
];

/// A pair that is put ahead of the walk is come to, and one behind it is not.
const PUT: [Step; 10] = [
    Set(b"ka"),
    Set(b"kc"),
    Over(b"k"),
    Comes(b"ka"),
    Set(b"k"),
    Set(b"ka\x00"),
    Comes(b"ka\x00"),
    Set(b"kb"),
    Comes(b"kb"),
    Comes(b"kc"),
];

/// Pairs that were found stay while their pages change.
const FOUND: [Step; 12] = [
    Finds(b"a", 9),
    Found(&[]),
    Set(b"d"),
    Set(b"b"),
    Set(b"c"),
    Set(b"e"),
    Set(b"a"),
    Finds(b"b", 3),
    Set(b"bb"),
    Found(&[b"b", b"c", b"d"]),
    Finds(b"bb", 9),
    Found(&[b"bb", b"c", b"d", b"e"]),
];

// How many steps over an empty home in memory went as expected before one did not.
fn gone<R: System>(rt: &R, steps: &'static [Step]) -> Result<usize, Fail> {
    with_store_at(rt, None, 4, &SMALL, &mut Steps::of(rt.alloc(), steps))?
}

#[test]
fn a_walk_goes_over_a_prefix(rt: HostRuntime) -> Result<(), Fail> {
    assert_eq!(&rt; gone(&rt, &EMPTY)?, EMPTY.len());
    assert_eq!(&rt; gone(&rt, &PREFIX)?, PREFIX.len());
    assert_eq!(&rt; gone(&rt, &PUT)?, PUT.len());
    Ok(())
}

#[test]
fn pairs_that_were_found_stay(rt: HostRuntime) -> Result<(), Fail> {
    assert_eq!(&rt; gone(&rt, &FOUND)?, FOUND.len());
    Ok(())
}

/// The bytes of a key.
#[derive(Drop)]
enum Bytes {
    These(&'static [u8]),
    /// 128: these, then one again and again, and a last one.
    Whole(&'static [u8], u8, u8),
}

use Bytes::{These, Whole};

fn whole(front: &[u8], fill: u8, last: u8) -> Result<Key, Fail> {
    let mut bytes = [fill; MAX_KEY];
    for (byte, given) in bytes.iter_mut().zip(front) {
        *byte = *given;
    }
    bytes[MAX_KEY - 1] = last;
    Ok(Key::new(&bytes)?)
}

fn key_of(bytes: &Bytes) -> Result<Key, Fail> {
    match bytes {
        These(bytes) => Ok(Key::new(*bytes)?),
        Whole(front, fill, last) => whole(*front, *fill, *last),
    }
}

/// A key, and the least one above it, if there is one.
type Row = (Bytes, Option<Bytes>);

// Whether the least key above a row's is the one that it says.
fn is_told(row: &Row) -> Result<bool, Fail> {
    let found = after(&key_of(&row.0)?);
    match (&row.1, found) {
        (Some(next), Some(found)) => Ok(key_of(next)? == found),
        (None, None) => Ok(true),
        _ => Ok(false),
    }
}

const ROWS: [Row; 10] = [
    (These(b"\x00"), Some(These(b"\x00\x00"))),
    (These(b"a"), Some(These(b"a\x00"))),
    (These(b"a\xff"), Some(These(b"a\xff\x00"))),
    (Whole(b"a", 0xff, 0xff), Some(These(b"b"))),
    (Whole(b"a\xfe", 0xff, 0xff), Some(These(b"a\xff"))),
    (Whole(b"a\x00\xff", 0xff, 0xff), Some(These(b"a\x01"))),
    (Whole(b"", b'a', b'a'), Some(Whole(b"", b'a', b'b'))),
    (Whole(b"", 0, 0xfe), Some(Whole(b"", 0, 0xff))),
    (Whole(b"", 0xff, 0xfe), Some(Whole(b"", 0xff, 0xff))),
    (Whole(b"", 0xff, 0xff), None),
];

// How many rows are as expected before one is not.
fn told(rows: &[Row]) -> Result<usize, Fail> {
    for (at, row) in rows.iter().enumerate() {
        if !is_told(row)? {
            return Ok(at);
        }
    }
    Ok(rows.len())
}

#[test]
fn the_least_key_above_is_as_told(rt: HostRuntime) -> Result<(), Fail> {
    assert_eq!(&rt; told(&ROWS)?, ROWS.len());
    Ok(())
}
