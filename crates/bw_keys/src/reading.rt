//! What is asked of the pages of a folder: values, a count, and pairs that are written.
//!
//! Which pages have the keys that are meant is known without a look at any. Of these each is read
//! when its turn comes, and none stays, so memory holds one page beside the bytes of the folder.

ghost use Rattle.std.specs.Prelude.{◌≡◌, ◌-◌, ◌^◌, min, length, IfOk, OnOk};
ghost use Rattle.std.specs.Io.KnownBytes.{Appends};
ghost use Rattle.std.specs.FinMap as finite;
ghost use Rattle.bw_care.specs.Found.{IsRecovered};
ghost use Rattle.bw_page.specs.Leaves.{union};
ghost use Rattle.bw_keys.specs.Stretches.{stretch};
ghost use Rattle.bw_keys.specs.Asked.{count_at, counted, values};
ghost use Rattle.bw_keys.specs.Listed.{listing};

use crate::fault::KeysFault;
use crate::listing::{Listing, Order};
use crate::pages::{count_in, pages_over};
use crate::span::Span;
use bw_beside::Ask;
use bw_care::{RecoverCause, Recovered};
use bw_codec::{Key, Value};
use bw_look::Watch;
use std::alloc::Global;
use std::collections::VecDeque;
use std::io::Write;

/// The value of a key is asked.
#[derive(Drop)]
pub(crate) struct ValueOf<'a> {
    pub(crate) key: &'a Key,
}

/// The value of a key. Refused as `Recovered::get` is.
pub fn value_of(pages: Recovered, key: &Key) -> Result<Option<Value>, RecoverCause>
    requires { IsRecovered (λ b. holding (b.vtable, b.value)) pages }
    ensures { IfOk result (λ value. value ≡ finite.get (union pages.leaves.leaves) key.now) }
{
    let mut pages = pages;
    pages.get(key)
}

impl<W> Ask<W> for ValueOf<'_> {
    type Answer = Result<Option<Value>, RecoverCause>;

    fn ask(&mut self, pages: Recovered, _watch: &mut W) -> Result<Option<Value>, RecoverCause> {
        value_of(pages, self.key)
    }
}

/// The values of these keys are asked.
#[derive(Drop)]
pub(crate) struct ValuesOf<'a> {
    pub(crate) keys: &'a VecDeque<Key>,
}

/// The values of these keys, in their order. Refused `NoMemory`, and as `Recovered::get` is.
pub fn values_of(pages: Recovered, keys: &VecDeque<Key>) -> Result<Vec<Option<Value>>, KeysFault>
    requires { IsRecovered (λ b. holding (b.vtable, b.value)) pages }
    ensures { IfOk result (λ found. found.items ≡ values pages.leaves.leaves keys.now.items) }
{
    let mut pages = pages;
    let mut values = Vec::new(*keys.allocator());
    'keys: for key in keys {
        values.push(pages.get(key)?)?;
    }
    Ok(values)
}

impl<W> Ask<W> for ValuesOf<'_> {
    type Answer = Result<Vec<Option<Value>>, KeysFault>;

    fn ask(&mut self, pages: Recovered, _watch: &mut W) -> Result<Vec<Option<Value>>, KeysFault> {
        values_of(pages, self.keys)
    }
}

/// How many keys of a stretch there are, is asked.
#[derive(Drop)]
pub(crate) struct CountOf<'a> {
    pub(crate) alloc: Global,
    pub(crate) span: &'a Span,
}

/// How many keys of a stretch the page of a number has, if it is there.
fn count_at(pages: &mut Recovered, number: u32, span: &Span) -> Result<u64, RecoverCause>
    requires { IsRecovered (λ b. holding (b.vtable, b.value)) pages.old }
    ensures recovered { IsRecovered (λ b. holding (b.vtable, b.value)) pages.new }
    ensures same { pages.new.leaves.leaves ≡ pages.old.leaves.leaves }
    ensures count { IfOk result (λ count.
        count ≡ count_at span.now pages.old.leaves.leaves number) }
{
    match pages.page(number)? {
        Some(leaf) => Ok(count_in(&leaf, span)),
        None => Ok(0),
    }
}

/// How many keys of a stretch the pages of these numbers have, and no more than 2^64 - 1; a number
/// that is no page's counts none. If each key is wanted it is the number of all pairs, whatever the
/// numbers, and no page is read. Refused as `Recovered::page` is.
pub fn count_of(pages: &mut Recovered, numbers: &[u32], span: &Span) -> Result<u64, RecoverCause>
    requires { IsRecovered (λ b. holding (b.vtable, b.value)) pages.old }
    ensures recovered { IsRecovered (λ b. holding (b.vtable, b.value)) pages.new }
    ensures same { pages.new.leaves.leaves ≡ pages.old.leaves.leaves }
    ensures count { IfOk result (λ count.
        count ≡ counted span.now pages.old.leaves.leaves numbers.now) }
{
    if span.has_all() {
        return Ok(pages.pairs);
    }
    let mut count = 0u64;
    'pages: for number in numbers {
        count = count.saturating_add(count_at(pages, *number, span)?);
    }
    Ok(count)
}

/// How many keys of a stretch there are, and no more than 2^64 - 1. Refused `NoMemory`, and as
/// `Recovered::page` is.
pub fn count_stretch(alloc: Global, pages: &mut Recovered, span: &Span) -> Result<u64, KeysFault>
    requires { IsRecovered (λ b. holding (b.vtable, b.value)) pages.old }
    ensures recovered { IsRecovered (λ b. holding (b.vtable, b.value)) pages.new }
    ensures count { IfOk result (λ count.
        count ≡ min (length (stretch span.now (union pages.old.leaves.leaves))) (2 ^ 64 - 1)) }
{
    let numbers = pages_over(alloc, &pages.leaves, span)?;
    Ok(count_of(pages, numbers.as_slice(), span)?)
}

impl<W> Ask<W> for CountOf<'_> {
    type Answer = Result<u64, KeysFault>;

    fn ask(&mut self, pages: Recovered, _watch: &mut W) -> Result<u64, KeysFault> {
        let mut pages = pages;
        count_stretch(self.alloc, &mut pages, self.span)
    }
}

/// Writes the pairs of a stretch of keys that an order means, each as its style spells it, and what
/// stands before and after them. Of the stretch only the `last` pairs with the greatest keys are
/// meant. They go out in the order of their keys, or the other way round with `reverse`, and no
/// more than `limit` of them.
///
/// Refused `NoMemory`, and as `Recovered::page` is; `Output` or `Closed` if the output refuses a
/// write. Then a beginning may have been written. Each page of the stretch is read once, up to the
/// last pair that goes out, and once more before that if not all are meant and the least of them
/// comes first. None stays in memory.
pub fn list_stretch<O: Write, W: Watch>(
    alloc: Global,
    pages: &mut Recovered,
    span: &Span,
    order: Order,
    output: &mut O,
    watch: &mut W,
) -> Result<(), KeysFault>
    requires { IsRecovered (λ b. holding (b.vtable, b.value)) pages.old }
    ensures recovered { IsRecovered (λ b. holding (b.vtable, b.value)) pages.new }
    ensures same { pages.new.leaves.leaves ≡ pages.old.leaves.leaves }
    ensures listed { OnOk result (Appends (O.contents output.old) (O.contents output.new)
        (listing order (stretch span.now (union pages.old.leaves.leaves)))) }
{
    let numbers = pages_over(alloc, &pages.leaves, span)?;
    let listing = Listing::new(order, span);
    listing.all(pages, numbers.as_slice(), output, watch)
}

/// The pairs of a stretch of keys are written.
#[derive(Drop)]
pub(crate) struct PairsOf<'a, O> {
    pub(crate) alloc: Global,
    pub(crate) span: &'a Span,
    pub(crate) order: Order,
    pub(crate) output: &'a mut O,
}

impl<O: Write, W: Watch> Ask<W> for PairsOf<'_, O> {
    type Answer = Result<(), KeysFault>;

    fn ask(&mut self, pages: Recovered, watch: &mut W) -> Result<(), KeysFault> {
        let mut pages = pages;
        list_stretch(
            self.alloc,
            &mut pages,
            self.span,
            self.order,
            self.output,
            watch,
        )
    }
}
