//! Pairs that are written, in the order of their keys or against it.

ghost use Rattle.std.specs.Prelude.{◌≡◌, ◌-◌, ◌^◌, ◌<◌, true, false, OnOk, IfOk, [], ◌∷◌, ◌++◌, length, reverse};
ghost use Rattle.std.specs.FinMap as finite;
ghost use Rattle.std.specs.Io.KnownBytes.{Appends};
ghost use Rattle.bw_care.specs.Found.{IsRecovered};
ghost use Rattle.bw_page.specs.Leaves.{leaf_at, union};
ghost use Rattle.bw_keys.specs.Styles.{in_csv, in_json, styled};
ghost use Rattle.bw_keys.specs.Stretches.{stretch, stretch_on, wanted_of, wanted_on};
ghost use Rattle.bw_keys.specs.Listed.{before, behind, chosen, listing, spelled, Writes};

use crate::fault::KeysFault;
use crate::reading::count_of;
use crate::span::Span;
use bw_care::Recovered;
use bw_codec::{Leaf, Pair};
use bw_look::{Watch, Work};
use bw_pairs::{
    Letters, Spelling, write_csv, write_csv_field, write_dumped, write_end, write_header,
    write_json, write_line, write_pair,
};
use std::io::{self, Write};

/// How pairs are written.
#[derive(Debug, Clone, Copy, PartialEq, Eq)]
pub enum Style {
    /// A pair a line: key, tab, value.
    Tabs(Spelling),
    /// A key a line.
    Keys(Spelling),
    /// A value a line.
    Values(Spelling),
    /// An object of JSON a line.
    Json(Parts),
    /// A line of CSV.
    Csv(Parts),
    /// A dump, with the size of the other store's map if that is given.
    Dump(Letters, Option<u64>),
}

/// What is written of a pair.
#[derive(Debug, Clone, Copy, PartialEq, Eq)]
pub enum Parts {
    Both,
    Keys,
    Values,
}

impl Parts {
    /// Writes an object of JSON.
    fn write_json<O: Write>(self, output: &mut O, key: &[u8], value: &[u8]) -> io::Result<()>
        ensures { OnOk result (Appends (O.contents output.old) (O.contents output.new)
            (in_json self key.now value.now ++ 10 ∷ [])) }
    {
        match self {
            Parts::Both => write_json(output, Some(key), Some(value)),
            Parts::Keys => write_json(output, Some(key), None),
            Parts::Values => write_json(output, None, Some(value)),
        }
    }

    /// Writes a line of CSV.
    fn write_csv<O: Write>(self, output: &mut O, key: &[u8], value: &[u8]) -> io::Result<()>
        ensures { OnOk result (Appends (O.contents output.old) (O.contents output.new)
            (in_csv self key.now value.now ++ 10 ∷ [])) }
    {
        match self {
            Parts::Both => write_csv(output, key, value),
            Parts::Keys => write_csv_field(output, key),
            Parts::Values => write_csv_field(output, value),
        }
    }
}

impl Style {
    /// Writes a key and its value.
    pub fn write<O: Write>(self, output: &mut O, key: &[u8], value: &[u8]) -> io::Result<()>
        ensures { OnOk result (Appends (O.contents output.old) (O.contents output.new)
            (styled self key.now value.now)) }
    {
        match self {
            Style::Tabs(spelling) => write_pair(output, spelling, key, value),
            Style::Keys(spelling) => write_line(output, spelling, key),
            Style::Values(spelling) => write_line(output, spelling, value),
            Style::Json(parts) => parts.write_json(output, key, value),
            Style::Csv(parts) => parts.write_csv(output, key, value),
            Style::Dump(letters, _) => write_dumped(output, letters, key, value),
        }
    }

    /// Whether it writes values.
    pub fn has_values(self) -> bool {
        !matches!(
            self,
            Style::Keys(_) | Style::Json(Parts::Keys) | Style::Csv(Parts::Keys)
        )
    }
}

/// Which pairs of a stretch go out, and how.
#[derive(Debug, Clone, Copy)]
pub struct Order {
    pub style: Style,
    /// How many at most.
    pub limit: u64,
    /// Only so many with the greatest keys.
    pub last: u64,
    /// Whether the greatest key comes first.
    pub reverse: bool,
}

/// Pairs that go out.
#[derive(Drop)]
pub(crate) struct Listing<'a> {
    order: Order,
    span: &'a Span,
}

/// How far a listing is.
#[derive(Clone, Copy)]
pub(crate) struct Due {
    /// How many pairs are passed over before the next one that is written.
    passed: u64,
    /// How many more are wanted.
    left: u64,
}

/// Writes what stands before the pairs.
fn begin<O: Write>(style: Style, output: &mut O) -> Result<(), KeysFault>
    ensures { OnOk result (Appends (O.contents output.old) (O.contents output.new)
        (before style)) }
{
    match style {
        Style::Dump(letters, mapsize) => {
            write_header(output, letters, mapsize).map_err(KeysFault::of_output)
        }
        _ => Ok(()),
    }
}

/// Writes what stands after them.
fn end<O: Write>(style: Style, output: &mut O) -> Result<(), KeysFault>
    ensures { OnOk result (Appends (O.contents output.old) (O.contents output.new)
        (behind style)) }
{
    match style {
        Style::Dump(..) => write_end(output).map_err(KeysFault::of_output),
        _ => Ok(()),
    }
}

/// How many pairs all pages have.
fn pairs_of(pages: &Recovered) -> u64
    ensures all { result ≡ finite.len (union pages.now.leaves.leaves) }
    ensures fits { finite.len (union pages.now.leaves.leaves) < 2 ^ 64 }
{
    pages.pairs
}

impl<'a> Listing<'a> {
    /// Pairs of a stretch of keys.
    pub(crate) fn new(order: Order, span: &'a Span) -> Listing<'a>
        ensures order { result.order ≡ order }
        ensures span { result.span.now ≡ span.now }
    {
        Listing { order, span }
    }

    /// Writes no pair.
    pub(crate) fn none<O: Write>(&self, output: &mut O) -> Result<(), KeysFault>
        ensures { OnOk result (Appends (O.contents output.old) (O.contents output.new)
            (listing self.now.order [])) }
    {
        begin(self.order.style, output)?;
        end(self.order.style, output)
    }

    /// Writes a pair.
    fn write<O: Write>(&self, pair: &Pair, output: &mut O) -> Result<(), KeysFault>
        ensures { OnOk result (Appends (O.contents output.old) (O.contents output.new)
            (styled self.now.order.style pair.now.0 pair.now.1)) }
    {
        let style = self.order.style;
        style
            .write(output, pair.key(), pair.value())
            .map_err(KeysFault::of_output)
    }

    /// Writes a pair, if it is wanted.
    fn pair<O: Write>(&self, due: Due, pair: &Pair, output: &mut O) -> Result<Due, KeysFault>
        ensures { IfOk result (λ next. Writes self.now.order.style due next
            (O.contents output.old) (O.contents output.new)
            (wanted_of self.now.span.now (pair.now ∷ []))) }
    {
        let key = pair.key();
        if due.left == 0 || !self.span.has(key) {
            return Ok(due);
        }
        if due.passed > 0 {
            let passed = due.passed - 1;
            return Ok(Due { passed, ..due });
        }
        self.write(pair, output)?;
        let left = due.left - 1;
        Ok(Due { left, ..due })
    }

    /// Writes the pairs of a page, in the order of their keys.
    fn up<O: Write>(&self, due: Due, leaf: &Leaf, output: &mut O) -> Result<Due, KeysFault>
        ensures { IfOk result (λ next. Writes self.now.order.style due next
            (O.contents output.old) (O.contents output.new)
            (wanted_of self.now.span.now leaf.now.pairs)) }
    {
        let mut due = due;
        let pairs = leaf.pairs.as_slice();
        for pair in pairs {
            due = self.pair(due, pair, output)?;
        }
        Ok(due)
    }

    /// Writes the pairs of a page, against the order of their keys.
    fn down<O: Write>(&self, due: Due, leaf: &Leaf, output: &mut O) -> Result<Due, KeysFault>
        ensures { IfOk result (λ next. Writes self.now.order.style due next
            (O.contents output.old) (O.contents output.new)
            (reverse (wanted_of self.now.span.now leaf.now.pairs))) }
    {
        let mut due = due;
        let mut rest = leaf.pairs.as_slice();
        'pairs: while let [before @ .., pair] = rest {
            due = self.pair(due, pair, output)?;
            rest = before;
        }
        Ok(due)
    }

    /// Writes the pairs of a page that may not be there, in the order of their keys.
    fn some_up<O: Write>(
        &self,
        due: Due,
        page: &Option<Leaf>,
        output: &mut O,
    ) -> Result<Due, KeysFault>
        ensures { IfOk result (λ next. Writes self.now.order.style due next
            (O.contents output.old) (O.contents output.new)
            (wanted_on self.now.span.now page.now)) }
    {
        match page {
            Some(leaf) => self.up(due, leaf, output),
            None => Ok(due),
        }
    }

    /// Writes the pairs of a page that may not be there, against the order of their keys.
    fn some_down<O: Write>(
        &self,
        due: Due,
        page: &Option<Leaf>,
        output: &mut O,
    ) -> Result<Due, KeysFault>
        ensures { IfOk result (λ next. Writes self.now.order.style due next
            (O.contents output.old) (O.contents output.new)
            (reverse (wanted_on self.now.span.now page.now))) }
    {
        match page {
            Some(leaf) => self.down(due, leaf, output),
            None => Ok(due),
        }
    }

    /// How many pairs of these pages are passed over before those with the greatest keys that are
    /// wanted.
    fn passed(&self, pages: &mut Recovered, numbers: &[u32]) -> Result<u64, KeysFault>
        requires recovered { IsRecovered (λ b. holding (b.vtable, b.value)) pages.old }
        requires whole { stretch_on self.now.span.now pages.old.leaves.leaves numbers.now
            ≡ stretch self.now.span.now (union pages.old.leaves.leaves) }
        ensures recovered { IsRecovered (λ b. holding (b.vtable, b.value)) pages.new }
        ensures same { pages.new.leaves.leaves ≡ pages.old.leaves.leaves }
        ensures passed { IfOk result (λ passed. passed
            ≡ length (stretch self.now.span.now (union pages.old.leaves.leaves))
            - self.now.order.last) }
    {
        let _all = pairs_of(pages);
        if self.order.last == u64::MAX {
            return Ok(0);
        }
        let count = count_of(pages, numbers, self.span)?;
        Ok(count.saturating_sub(self.order.last))
    }

    /// Writes the pairs of a page in the order of their keys, if any more are wanted.
    #[tactic(auto, using(crate::proofs::Written::none_is_left,))]
    fn page_up<O: Write>(
        &self,
        due: Due,
        pages: &mut Recovered,
        number: u32,
        output: &mut O,
    ) -> Result<Due, KeysFault>
        requires { IsRecovered (λ b. holding (b.vtable, b.value)) pages.old }
        ensures recovered { IsRecovered (λ b. holding (b.vtable, b.value)) pages.new }
        ensures same { pages.new.leaves.leaves ≡ pages.old.leaves.leaves }
        ensures written { IfOk result (λ next. Writes self.now.order.style due next
            (O.contents output.old) (O.contents output.new)
            (wanted_on self.now.span.now (leaf_at number pages.old.leaves.leaves))) }
    {
        if due.left == 0 {
            return Ok(due);
        }
        let page = pages.page(number)?;
        self.some_up(due, &page, output)
    }

    /// Writes the pairs of a page against the order of their keys, if any more are wanted.
    #[tactic(auto, using(crate::proofs::Written::none_is_left,))]
    fn page_down<O: Write>(
        &self,
        due: Due,
        pages: &mut Recovered,
        number: u32,
        output: &mut O,
    ) -> Result<Due, KeysFault>
        requires { IsRecovered (λ b. holding (b.vtable, b.value)) pages.old }
        ensures recovered { IsRecovered (λ b. holding (b.vtable, b.value)) pages.new }
        ensures same { pages.new.leaves.leaves ≡ pages.old.leaves.leaves }
        ensures written { IfOk result (λ next. Writes self.now.order.style due next
            (O.contents output.old) (O.contents output.new)
            (reverse (wanted_on self.now.span.now (leaf_at number pages.old.leaves.leaves)))) }
    {
        if due.left == 0 {
            return Ok(due);
        }
        let page = pages.page(number)?;
        self.some_down(due, &page, output)
    }

    /// Writes the pairs of these pages, in the order of their keys.
    fn all_up<O: Write, W: Watch>(
        &self,
        due: Due,
        pages: &mut Recovered,
        numbers: &[u32],
        output: &mut O,
        watch: &mut W,
    ) -> Result<Due, KeysFault>
        requires { IsRecovered (λ b. holding (b.vtable, b.value)) pages.old }
        ensures recovered { IsRecovered (λ b. holding (b.vtable, b.value)) pages.new }
        ensures same { pages.new.leaves.leaves ≡ pages.old.leaves.leaves }
        ensures written { IfOk result (λ next. Writes self.now.order.style due next
            (O.contents output.old) (O.contents output.new)
            (stretch_on self.now.span.now pages.old.leaves.leaves numbers.now)) }
    {
        let mut due = due;
        'pages: for (index, number) in numbers.iter().enumerate() {
            watch.see(Work::Listing, index as u64, numbers.len() as u64);
            due = self.page_up(due, pages, *number, output)?;
        }
        Ok(due)
    }

    /// Writes the pairs of these pages, against the order of their keys.
    fn all_down<O: Write, W: Watch>(
        &self,
        due: Due,
        pages: &mut Recovered,
        numbers: &[u32],
        output: &mut O,
        watch: &mut W,
    ) -> Result<Due, KeysFault>
        requires { IsRecovered (λ b. holding (b.vtable, b.value)) pages.old }
        ensures recovered { IsRecovered (λ b. holding (b.vtable, b.value)) pages.new }
        ensures same { pages.new.leaves.leaves ≡ pages.old.leaves.leaves }
        ensures written { IfOk result (λ next. Writes self.now.order.style due next
            (O.contents output.old) (O.contents output.new)
            (reverse (stretch_on self.now.span.now pages.old.leaves.leaves numbers.now))) }
    {
        let mut due = due;
        let mut rest = numbers;
        'pages: while let [before @ .., number] = rest {
            let done = numbers.len() - rest.len();
            watch.see(Work::Listing, done as u64, numbers.len() as u64);
            due = self.page_down(due, pages, *number, output)?;
            rest = before;
        }
        Ok(due)
    }

    /// Writes those pairs of these pages that are wanted, in the order of their keys.
    fn wanted_up<O: Write, W: Watch>(
        &self,
        pages: &mut Recovered,
        numbers: &[u32],
        output: &mut O,
        watch: &mut W,
    ) -> Result<(), KeysFault>
        requires way { self.now.order.reverse ≡ false }
        requires recovered { IsRecovered (λ b. holding (b.vtable, b.value)) pages.old }
        requires whole { stretch_on self.now.span.now pages.old.leaves.leaves numbers.now
            ≡ stretch self.now.span.now (union pages.old.leaves.leaves) }
        ensures recovered { IsRecovered (λ b. holding (b.vtable, b.value)) pages.new }
        ensures same { pages.new.leaves.leaves ≡ pages.old.leaves.leaves }
        ensures written { OnOk result (Appends (O.contents output.old) (O.contents output.new)
            (spelled self.now.order.style (chosen self.now.order
            (stretch self.now.span.now (union pages.old.leaves.leaves))))) }
    {
        let left = self.order.limit.min(self.order.last);
        let passed = self.passed(pages, numbers)?;
        let _ = self.all_up(Due { passed, left }, pages, numbers, output, watch)?;
        Ok(())
    }

    /// Writes those pairs of these pages that are wanted, against the order of their keys.
    fn wanted_down<O: Write, W: Watch>(
        &self,
        pages: &mut Recovered,
        numbers: &[u32],
        output: &mut O,
        watch: &mut W,
    ) -> Result<(), KeysFault>
        requires way { self.now.order.reverse ≡ true }
        requires recovered { IsRecovered (λ b. holding (b.vtable, b.value)) pages.old }
        requires whole { stretch_on self.now.span.now pages.old.leaves.leaves numbers.now
            ≡ stretch self.now.span.now (union pages.old.leaves.leaves) }
        ensures recovered { IsRecovered (λ b. holding (b.vtable, b.value)) pages.new }
        ensures same { pages.new.leaves.leaves ≡ pages.old.leaves.leaves }
        ensures written { OnOk result (Appends (O.contents output.old) (O.contents output.new)
            (spelled self.now.order.style (chosen self.now.order
            (stretch self.now.span.now (union pages.old.leaves.leaves))))) }
    {
        let left = self.order.limit.min(self.order.last);
        let _ = self.all_down(Due { passed: 0, left }, pages, numbers, output, watch)?;
        Ok(())
    }

    /// Writes those pairs of these pages that are wanted.
    fn wanted<O: Write, W: Watch>(
        &self,
        pages: &mut Recovered,
        numbers: &[u32],
        output: &mut O,
        watch: &mut W,
    ) -> Result<(), KeysFault>
        requires recovered { IsRecovered (λ b. holding (b.vtable, b.value)) pages.old }
        requires whole { stretch_on self.now.span.now pages.old.leaves.leaves numbers.now
            ≡ stretch self.now.span.now (union pages.old.leaves.leaves) }
        ensures recovered { IsRecovered (λ b. holding (b.vtable, b.value)) pages.new }
        ensures same { pages.new.leaves.leaves ≡ pages.old.leaves.leaves }
        ensures written { OnOk result (Appends (O.contents output.old) (O.contents output.new)
            (spelled self.now.order.style (chosen self.now.order
            (stretch self.now.span.now (union pages.old.leaves.leaves))))) }
    {
        if self.order.reverse {
            self.wanted_down(pages, numbers, output, watch)
        } else {
            self.wanted_up(pages, numbers, output, watch)
        }
    }

    /// Writes those pairs of these pages that are wanted, and what stands around them.
    pub(crate) fn all<O: Write, W: Watch>(
        &self,
        pages: &mut Recovered,
        numbers: &[u32],
        output: &mut O,
        watch: &mut W,
    ) -> Result<(), KeysFault>
        requires recovered { IsRecovered (λ b. holding (b.vtable, b.value)) pages.old }
        requires whole { stretch_on self.now.span.now pages.old.leaves.leaves numbers.now
            ≡ stretch self.now.span.now (union pages.old.leaves.leaves) }
        ensures recovered { IsRecovered (λ b. holding (b.vtable, b.value)) pages.new }
        ensures same { pages.new.leaves.leaves ≡ pages.old.leaves.leaves }
        ensures listed { OnOk result (Appends (O.contents output.old) (O.contents output.new)
            (listing self.now.order (stretch self.now.span.now
            (union pages.old.leaves.leaves)))) }
    {
        begin(self.order.style, output)?;
        self.wanted(pages, numbers, output, watch)?;
        end(self.order.style, output)
    }
}
