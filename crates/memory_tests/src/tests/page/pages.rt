//! Leaves and chains.

ghost use Rattle.std.specs.Prelude.{◌≡◌, [], IfOk, IfSome};

use super::changed;
use super::versions::entries;
use bw_codec::{Block, Key, Leaf, Ops, Packed, Place};
use bw_history::PackedEntry;
use bw_page::{
    Applied, ApplyError, Chain, Draft, Leaves, Start, change, change_all, empty_page, read_block,
    read_blocks, split_in_two,
};
use std::alloc::{AllocError, Global};
use std::sync::Wait;
use std::thread::Threads;
use test_kit::marks::{begin, end};
use test_kit::refusals::{Ask, Row, Try, asked_again, refused_then, tried, was_refused, wrong_row};
use test_kit::vectors::{leaf_of, packed_put, put, shows};

/// Whether a record comes in after the others.
fn is_added(records: &mut Vec<Packed>, record: Option<Packed>) -> bool {
    match record {
        Some(record) => records.push(record).is_ok(),
        None => false,
    }
}

/// One letter a put, without values.
fn lettered(alloc: Global, letters: &[u8]) -> Option<Vec<Packed>> {
    let mut records = Vec::new(alloc);
    for letter in letters {
        if !is_added(&mut records, packed_put(alloc, &[*letter], b"")) {
            return None;
        }
    }
    Some(records)
}

/// One call that may be refused.
#[derive(Drop)]
enum Call {
    OneEmpty,
    /// Leaves are made of two, and these are copied.
    Of,
    CopyLeaves,
    /// They are copied as a start, and leaves are made of that.
    CopyStart,
    /// A fifth pair, which splits the page, by each call that applies records.
    Apply(Way),
    /// What a fifth pair would do, and a stretch of pairs.
    Look(Way),
    /// A pair is put into a leaf.
    Change,
    /// And so many into one that is handed over.
    ChangeAll(u8),
    Halves,
    /// A page is read over a Base, a Delta of so many puts and a Split.
    Read(Reading, u8),
    /// What a chain is asked.
    Chain(Link),
}

/// How records are applied.
#[derive(Clone, Copy, PartialEq, Drop)]
enum Way {
    One,
    On,
    /// Its page is looked at first.
    Hinted,
    All,
    AllOf,
    /// They are not, but what they would do is said.
    Steps,
    /// What the first would do.
    Step,
    /// None is, and a stretch of pairs is read.
    Scan,
}

/// How blocks are read.
#[derive(Clone, Copy, Drop)]
enum Reading {
    /// All at once.
    Blocks,
    /// One after the other.
    Block,
    /// All at once, as a draft.
    DraftAll,
    Draft,
    /// Records over a draft, which is then a leaf.
    Records,
}

/// Calls on a chain.
#[derive(Clone, Copy, PartialEq, Drop)]
enum Link {
    Reserve,
    Prepend,
    Mark,
    Content,
    Consolidate,
}

const BACK: Place = Place { frame: 1, index: 0 };

/// Page 1 with `a`, and page 2 from `c` on with `d`: leaves are made of them in a window, if that
/// is asked.
fn two_pages(alloc: Global, counts: bool) -> Result<Leaves, AllocError>
    ensures { IfOk result (λ l. l.evicted ≡ []) }
{
    let mut leaves = Vec::new(alloc);
    leaves.push(leaf_of(alloc, 1, b"", b"a", b"1")?)?;
    leaves.push(leaf_of(alloc, 2, b"c", b"d", b"4")?)?;
    if counts {
        begin(alloc);
    }
    Leaves::of(leaves, 4)
}

/// Whether leaves have these pages, and no more.
fn are_pages(leaves: &Leaves, first: &[u8], second: &[u8]) -> bool {
    let is_first = match leaves.page(1) {
        Some(leaf) => shows(leaf, first),
        None => false,
    };
    is_first
        && match leaves.page(2) {
            Some(leaf) => leaves.count() == 2 && shows(leaf, second),
            None => leaves.count() == 1 && second.is_empty(),
        }
}

fn makes_leaves(alloc: Global, is_empty: bool) -> Option<Try> {
    let made = if is_empty {
        begin(alloc);
        Leaves::one_empty(alloc, 4)
    } else {
        two_pages(alloc, true)
    };
    let refused = end(alloc);
    let (first, second): (&[u8], &[u8]) = if is_empty {
        (b":", b"")
    } else {
        (b": a=1", b"c: d=4")
    };
    match made {
        Ok(leaves) => tried(true, refused, are_pages(&leaves, first, second)),
        Err(_) => tried(false, refused, true),
    }
}

/// These pages by way of a start.
fn started(leaves: &Leaves) -> Result<Leaves, AllocError>
    requires { leaves.now.evicted ≡ [] }
{
    Start::copy_of(leaves)?.leaves()
}

/// One try of a copy of pages, or of these pages by way of a start. The first ones stay as they
/// were.
fn copies(alloc: Global, leaves: &Leaves, starts: bool) -> Option<Try>
    requires { leaves.now.evicted ≡ [] }
{
    begin(alloc);
    let copy = if starts {
        started(leaves)
    } else {
        leaves.copy()
    };
    let refused = end(alloc);
    match copy {
        Ok(copy) => tried(true, refused, are_pages(&copy, b": a=1", b"c: d=4")),
        Err(_) => tried(false, refused, are_pages(leaves, b": a=1", b"c: d=4")),
    }
}

fn copies_two(alloc: Global, starts: bool) -> Option<Try> {
    match two_pages(alloc, false) {
        Ok(leaves) => copies(alloc, &leaves, starts),
        Err(_) => None,
    }
}

/// A full page.
fn full(alloc: Global) -> Option<Leaves>
    ensures { IfSome result (λ l. l.evicted ≡ []) }
{
    let Ok(mut leaves) = Leaves::one_empty(alloc, 4) else {
        return None;
    };
    let Some(records) = lettered(alloc, b"abcd") else {
        return None;
    };
    match leaves.apply_all(records.as_slice()) {
        Ok(()) => Some(leaves),
        Err(_) => None,
    }
}

/// What is put beside a to d: e and after it f and g, as records and as entries; if a stretch is
/// read, the first is b.
#[derive(Drop)]
struct Given {
    first: Packed,
    records: Vec<Packed>,
    entries: Vec<PackedEntry>,
}

fn beside(alloc: Global, way: Way) -> Option<Given> {
    let key: &[u8] = if way == Way::Scan { b"b" } else { b"e" };
    let Some(first) = packed_put(alloc, key, b"") else {
        return None;
    };
    match (lettered(alloc, b"efg"), entries(alloc, b"efg")) {
        (Some(records), Some(entries)) => Some(Given {
            first,
            records,
            entries,
        }),
        _ => None,
    }
}

/// What a record does if it is applied.
fn applies(leaves: &mut Leaves, change: &Packed, way: Way) -> Result<bool, ApplyError>
    requires { leaves.old.evicted ≡ [] }
    ensures { leaves.new.evicted ≡ [] }
{
    let told = Applied {
        page: 1,
        made: Some(2),
    };
    let Ok(key) = Key::new(change.key()) else {
        return Ok(false);
    };
    let page = leaves.find(&key);
    let done = match way {
        Way::On => leaves.apply_on(page, change),
        Way::Hinted => leaves.apply_hinted(page, change),
        _ => leaves.apply(change),
    };
    Ok(done? == told)
}

/// Whether a stretch from the key of a record on has two pairs.
fn scanned(alloc: Global, leaves: &Leaves, first: &Packed) -> Result<bool, ApplyError>
    requires { leaves.now.evicted ≡ [] }
{
    let Ok(key) = Key::new(first.key()) else {
        return Ok(false);
    };
    let mut found = Vec::new(alloc);
    match leaves.scan(&key, 2, &mut found) {
        Ok(()) => Ok(found.as_slice().len() == 2),
        Err(_) => Err(ApplyError::NoMemory),
    }
}

/// Whether three entries would do something each.
fn foretold(leaves: &mut Leaves, entries: &[PackedEntry]) -> Result<bool, ApplyError>
    requires { leaves.old.evicted ≡ [] }
    ensures { leaves.new.evicted ≡ [] }
{
    match leaves.steps(entries) {
        Ok(steps) => Ok(steps.as_slice().len() == 3),
        Err(fault) => Err(fault),
    }
}

/// Whether a record would split the page.
fn would_split(leaves: &mut Leaves, first: &Packed) -> Result<bool, ApplyError>
    requires { leaves.old.evicted ≡ [] }
    ensures { leaves.new.evicted ≡ [] }
{
    match leaves.step(first) {
        Ok(step) => Ok(step.upper.is_some()),
        Err(fault) => Err(fault),
    }
}

/// One try of a call that leaves the pages as they are.
fn looks_at(alloc: Global, leaves: &mut Leaves, given: &Given, way: Way) -> Option<Try>
    requires { leaves.old.evicted ≡ [] }
    ensures { leaves.new.evicted ≡ [] }
{
    begin(alloc);
    let answer = match way {
        Way::Step => would_split(leaves, &given.first),
        Way::Scan => scanned(alloc, leaves, &given.first),
        _ => foretold(leaves, given.entries.as_slice()),
    };
    let refused = end(alloc);
    let is_left = are_pages(leaves, b": a= b= c= d=", b"");
    match answer {
        Ok(is_so) => tried(true, refused, is_so && is_left),
        Err(fault) => tried(false, refused, is_left && fault == ApplyError::NoMemory),
    }
}

/// Whether a batch went.
fn went(done: Result<(), ApplyError>) -> Result<bool, ApplyError> {
    match done {
        Ok(()) => Ok(true),
        Err(fault) => Err(fault),
    }
}

/// Whether the pages are those after only e, or after f and g as well.
fn are_split(leaves: &Leaves, way: Way) -> bool {
    match way {
        Way::One | Way::On | Way::Hinted => are_pages(leaves, b": a= b=", b"c: c= d= e="),
        _ => leaves.count() == 3,
    }
}

/// One try: e is put beside a to d, or f and g after it.
fn applied(alloc: Global, leaves: &mut Leaves, given: &Given, way: Way) -> Option<Try>
    requires { leaves.old.evicted ≡ [] }
    ensures { leaves.new.evicted ≡ [] }
{
    begin(alloc);
    let answer = match way {
        Way::One | Way::On | Way::Hinted => applies(leaves, &given.first, way),
        Way::All => went(leaves.apply_all(given.records.as_slice())),
        _ => went(leaves.apply_all_of(given.entries.as_slice())),
    };
    let refused = end(alloc);
    match answer {
        Ok(is_so) => tried(true, refused, is_so && are_split(leaves, way)),
        Err(fault) => {
            let is_left = are_pages(leaves, b": a= b= c= d=", b"");
            tried(false, refused, is_left && fault == ApplyError::NoMemory)
        }
    }
}

/// One try of what a fifth pair does, or would do.
fn tries(alloc: Global, leaves: &mut Leaves, given: &Given, way: Way) -> Option<Try>
    requires { leaves.old.evicted ≡ [] }
    ensures { leaves.new.evicted ≡ [] }
{
    match way {
        Way::Steps | Way::Step | Way::Scan => looks_at(alloc, leaves, given, way),
        _ => applied(alloc, leaves, given, way),
    }
}

/// What a fifth pair does, or would do, and once more if it was refused.
fn tries_again(alloc: Global, leaves: &mut Leaves, given: &Given, way: Way) -> Option<Try>
    requires { leaves.old.evicted ≡ [] }
{
    let first = tries(alloc, leaves, given, way);
    if was_refused(first) {
        return refused_then(tries(alloc, leaves, given, way));
    }
    first
}

fn is_tried(alloc: Global, way: Way) -> Option<Try> {
    let Some(given) = beside(alloc, way) else {
        return None;
    };
    match full(alloc) {
        Some(mut leaves) => tries_again(alloc, &mut leaves, &given, way),
        None => None,
    }
}

/// One try of a pair that is put into a leaf.
fn changes(alloc: Global, leaf: &mut Leaf) -> Option<Try> {
    let record = put(b"b", b"2")?;
    begin(alloc);
    let went = change(leaf, &record).is_ok();
    changed(leaf, went, end(alloc), b": a=1 b=2", b": a=1")
}

fn is_changed(alloc: Global) -> Option<Try> {
    let Ok(mut leaf) = leaf_of(alloc, 1, b"", b"a", b"1") else {
        return None;
    };
    let first = changes(alloc, &mut leaf);
    if was_refused(first) {
        return refused_then(changes(alloc, &mut leaf));
    }
    first
}

/// So many keys of one byte.
fn numbered(alloc: Global, count: u8) -> Option<Vec<Packed>> {
    let mut records = Vec::new(alloc);
    for at in 0..count {
        if !is_added(&mut records, packed_put(alloc, &[at], b"")) {
            return None;
        }
    }
    Some(records)
}

/// A leaf that is handed over and has so many pairs then.
fn has_all(alloc: Global, made: Result<Leaf, AllocError>, count: usize) -> Option<Try> {
    let refused = end(alloc);
    match made {
        Ok(leaf) => tried(true, refused, leaf.pairs.as_slice().len() == count),
        Err(_) => tried(false, refused, true),
    }
}

fn all_change(alloc: Global, count: u8) -> Option<Try> {
    let records = numbered(alloc, count)?;
    let leaf = empty_page(alloc);
    begin(alloc);
    let made = change_all(leaf, records.as_slice());
    has_all(alloc, made, count as usize)
}

/// A leaf is split if it has more than four pairs.
fn splits(alloc: Global, leaf: Leaf) -> Option<Try> {
    if leaf.pairs.as_slice().len() <= 4 {
        return None;
    }
    begin(alloc);
    let halves = split_in_two(alloc, 4, leaf, 7);
    let refused = end(alloc);
    match halves {
        Ok(halves) => {
            let is_so = shows(&halves.lower, b": a= b=") && shows(&halves.upper, b"c: c= d= e=");
            tried(true, refused, is_so && halves.upper.page == 7)
        }
        Err(_) => tried(false, refused, true),
    }
}

/// A leaf of five pairs is split in two.
fn splits_five(alloc: Global) -> Option<Try> {
    let Some(records) = lettered(alloc, b"abcde") else {
        return None;
    };
    match change_all(empty_page(alloc), records.as_slice()) {
        Ok(leaf) => splits(alloc, leaf),
        Err(_) => None,
    }
}

/// Page 1 empty, these puts, and page 2 from the last of them on.
fn blocks(alloc: Global, records: Vec<Packed>, last: u8) -> Option<Vec<Block>> {
    let Ok(upper) = leaf_of(alloc, 2, &[last], &[last], b"") else {
        return None;
    };
    let delta = Block::Delta {
        page: 1,
        back: BACK,
        ops: Ops::of(records),
    };
    let split = Block::Split {
        page: 1,
        back: BACK,
        upper,
    };
    Vec::from_array(alloc, [Block::Base(empty_page(alloc)), delta, split]).ok()
}

/// The page after blocks that are read one after the other.
fn read_each(blocks: Vec<Block>) -> Result<Option<Leaf>, AllocError> {
    let mut was = None;
    for block in blocks {
        was = read_block(1, was, block)?;
    }
    Ok(was)
}

fn drawn(draft: Option<Draft>) -> Result<Option<Leaf>, AllocError> {
    match draft {
        Some(draft) => Ok(Some(draft.into_leaf()?)),
        None => Ok(None),
    }
}

fn draft_each(blocks: Vec<Block>) -> Result<Option<Leaf>, AllocError> {
    let mut was = None;
    for block in blocks {
        was = Draft::after(1, was, block)?;
    }
    drawn(was)
}

/// A draft with these records, as a leaf without the last one.
fn drafted(leaf: Leaf, records: &[Packed], end: &[u8]) -> Result<Option<Leaf>, AllocError> {
    let mut draft = Draft::of(leaf);
    draft.apply_all(records)?;
    Ok(Some(draft.keep_below(end).into_leaf()?))
}

/// A page in the middle after all of these blocks at once, as a leaf.
fn draft_all(blocks: Vec<Block>) -> Result<Option<Leaf>, AllocError> {
    match Draft::after_all(1, None, blocks) {
        Ok(draft) => drawn(draft),
        Err(fault) => Err(fault),
    }
}

/// The page after blocks, or after only records.
fn read_over(
    how: Reading,
    leaf: Leaf,
    blocks: Vec<Block>,
    records: &[Packed],
    last: u8,
) -> Result<Option<Leaf>, AllocError> {
    match how {
        Reading::Blocks => read_blocks(1, None, blocks),
        Reading::Block => read_each(blocks),
        Reading::DraftAll => draft_all(blocks),
        Reading::Draft => draft_each(blocks),
        Reading::Records => drafted(leaf, records, &[last]),
    }
}

/// How a page went that has so many pairs then.
fn is_read(read: Result<Option<Leaf>, AllocError>, refused: bool, pairs: usize) -> Option<Try> {
    match read {
        Ok(Some(leaf)) => tried(true, refused, leaf.pairs.as_slice().len() == pairs),
        Ok(None) => None,
        Err(_) => tried(false, refused, true),
    }
}

/// One try over these blocks and records.
fn reads_over(
    alloc: Global,
    how: Reading,
    blocks: Vec<Block>,
    records: &[Packed],
    last: u8,
) -> Option<Try> {
    let leaf = empty_page(alloc);
    begin(alloc);
    let answer = read_over(how, leaf, blocks, records, last);
    is_read(answer, end(alloc), usize::from(last))
}

fn reads(alloc: Global, how: Reading, count: u8) -> Option<Try> {
    let last = count.saturating_sub(1);
    let (Some(records), Some(ops)) = (numbered(alloc, count), numbered(alloc, count)) else {
        return None;
    };
    match blocks(alloc, ops, last) {
        Some(blocks) => reads_over(alloc, how, blocks, records.as_slice(), last),
        None => None,
    }
}

/// Whether a=1 is put on a chain.
fn is_prepended(alloc: Global, chain: &mut Chain) -> bool {
    match packed_put(alloc, b"a", b"1") {
        Some(record) => chain.prepend(record).is_ok(),
        None => false,
    }
}

/// A chain with a=1, which stands in the log if that is asked.
fn chain(alloc: Global, marked: bool) -> Option<Chain> {
    let mut chain = Chain::whole(alloc, empty_page(alloc));
    let is_so = is_prepended(alloc, &mut chain)
        && if marked {
            chain.mark_flushed(BACK).is_ok()
        } else {
            // What stands in the chain itself is used up.
            is_prepended(alloc, &mut chain) && is_prepended(alloc, &mut chain)
        };
    if is_so { Some(chain) } else { None }
}

/// Whether the content of a chain is shown so.
fn has(alloc: Global, chain: &Chain, text: &[u8]) -> bool {
    match chain.content(&empty_page(alloc)) {
        Ok(leaf) => shows(&leaf, text),
        Err(_) => false,
    }
}

/// Whether a chain went so.
fn went_so(done: Result<(), AllocError>) -> Result<bool, AllocError> {
    match done {
        Ok(()) => Ok(true),
        Err(fault) => Err(fault),
    }
}

/// Whether the content of a chain over a page is a=1.
fn content(chain: &Chain, below: &Leaf) -> Result<bool, AllocError> {
    match chain.content(below) {
        Ok(leaf) => Ok(shows(&leaf, b": a=1")),
        Err(fault) => Err(fault),
    }
}

/// What a call on a chain answers.
fn linked(chain: &mut Chain, below: &Leaf, record: Packed, link: Link) -> Result<bool, AllocError> {
    match link {
        Link::Reserve => went_so(chain.reserve(100)),
        Link::Prepend => went_so(chain.prepend(record)),
        Link::Mark => went_so(chain.mark_flushed(BACK)),
        Link::Content => content(chain, below),
        Link::Consolidate => chain.consolidate(below),
    }
}

/// One try of a call on a chain.
fn links(alloc: Global, chain: &mut Chain, link: Link) -> Option<Try> {
    let Some(record) = packed_put(alloc, b"b", b"2") else {
        return None;
    };
    let below = empty_page(alloc);
    begin(alloc);
    let answer = linked(chain, &below, record, link);
    let refused = end(alloc);
    let text: &[u8] = if answer.is_ok() && link == Link::Prepend {
        b": a=1 b=2"
    } else {
        b": a=1"
    };
    let is_left = has(alloc, chain, text);
    match answer {
        Ok(is_so) => tried(true, refused, is_so && is_left),
        Err(_) => tried(false, refused, is_left),
    }
}

fn is_linked(alloc: Global, link: Link) -> Option<Try> {
    let Some(mut chain) = chain(alloc, link == Link::Consolidate) else {
        return None;
    };
    let first = links(alloc, &mut chain, link);
    if was_refused(first) {
        return refused_then(links(alloc, &mut chain, link));
    }
    first
}

impl Ask for Call {
    fn asks<R: AllocGlobal + Wait>(&self, rt: &R) -> Option<Try> {
        let alloc = rt.alloc();
        match self {
            Call::OneEmpty => makes_leaves(alloc, true),
            Call::Of => makes_leaves(alloc, false),
            Call::CopyLeaves => copies_two(alloc, false),
            Call::CopyStart => copies_two(alloc, true),
            Call::ChangeAll(count) => all_change(alloc, *count),
            Call::Read(how, count) => reads(alloc, *how, *count),
            _ => splits_five(alloc),
        }
    }
}

impl Row for Call {
    fn goes<R: AllocGlobal + Threads + Wait>(&self, rt: &R) -> Option<Try> {
        let alloc = rt.alloc();
        match self {
            Call::Apply(way) | Call::Look(way) => is_tried(alloc, *way),
            Call::Change => is_changed(alloc),
            Call::Chain(link) => is_linked(alloc, *link),
            _ => asked_again(rt, self),
        }
    }

    // The row of heads beside the pairs of a leaf, and the entry of its page in the ring of those
    // in memory.
    fn spares(&self) -> bool {
        match self {
            Call::Chain(Link::Reserve | Link::Prepend | Link::Mark) => false,
            _ => true,
        }
    }
}

const CALLS: &[Call] = &[
    Call::OneEmpty,
    Call::Of,
    Call::CopyLeaves,
    Call::CopyStart,
    Call::Apply(Way::One),
    Call::Apply(Way::On),
    Call::Apply(Way::Hinted),
    Call::Apply(Way::All),
    Call::Apply(Way::AllOf),
    Call::Look(Way::Steps),
    Call::Look(Way::Step),
    Call::Look(Way::Scan),
    Call::Change,
    Call::ChangeAll(3),
    Call::ChangeAll(100),
    Call::Halves,
    Call::Read(Reading::Blocks, 3),
    Call::Read(Reading::Blocks, 100),
    Call::Read(Reading::Block, 3),
    Call::Read(Reading::DraftAll, 100),
    Call::Read(Reading::Draft, 3),
    Call::Read(Reading::Draft, 100),
    Call::Read(Reading::Records, 3),
    Call::Read(Reading::Records, 100),
    Call::Chain(Link::Reserve),
    Call::Chain(Link::Prepend),
    Call::Chain(Link::Mark),
    Call::Chain(Link::Content),
    Call::Chain(Link::Consolidate),
];

#[test]
fn leaves_and_chains(rt: HostRuntime) {
    assert_eq!(rt; wrong_row(&rt, CALLS), None);
}
