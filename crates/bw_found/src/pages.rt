//! Which page is at fault. Nothing is as large as a page number: a page is a line of the map.

ghost use Rattle.std.specs.Prelude.{◌≡◌, ◌≤◌, ◌==◌, ◌||◌, ◌<◌, ◌^◌, [], Some, None, nat_lt, map, IfErr, length, IfOk, OnOk, List, if◌then◌else◌};
ghost use Rattle.std.specs.List.{list_any, AllByRecursion};
ghost use Rattle.std.specs.BTreeMap as tree;
ghost use Rattle.std.specs.Ordering.{nat_cmp};
ghost use Rattle.std.specs.FinMap as finite;
ghost use Rattle.bw_record.specs.Keys.{is_below, IsKey};
ghost use Rattle.bw_leaf.specs.Changed.{Bytes, order};
ghost use Rattle.bw_page.specs.Leaves.{union, AreLeaves};
ghost use Rattle.bw_page.specs.Seats.{numbers_from};
ghost use Rattle.bw_lines.specs.Lawful.{HasLawful, is_bad_leaf, is_bad_page};
ghost use Rattle.bw_lines.specs.Paging.{IsNext, is_past, has_low, taken_before, IsLows, IsShortIf, IsIndex, first_wrong, Rise, leaves_in, at_line, AreOf, IsMapOf, HasFrames, IsRight, PageFaultIs, fault_among};
ghost use Rattle.bw_record.specs.declared.block.Frame.{Frame as FrameValue};
ghost use Rattle.bw_record.specs.declared.leaf.Leaf.{Leaf as LeafValue};

use crate::links::{Found, Touched};
use bw_codec::Key;
use bw_leaf::HollowPage;
use bw_lines::{Pages, RecoverCause};
use bw_log::PageAt;
use bw_page::Leaves;
use std::alloc::{AllocError, Global};
use std::collections::BTreeMap;
use std::ops::Bound;

// The least low above this one.
fn low_above(lows: &BTreeMap<Key, u32>, low: &Key) -> Option<Key>
    ensures { IsNext low.now (tree.get order lows.now) result }
{
    match lows
        .range((Bound::Excluded(low.copy()), Bound::Unbounded))
        .next()
    {
        Some((next, _)) => Some(next.copy()),
        None => None,
    }
}

// The least low of all, but the empty one.
fn least_low(lows: &BTreeMap<Key, u32>) -> Option<Key>
    ensures { IsNext [] (tree.get order lows.now) result }
{
    match lows.first_key_value() {
        Some((next, _)) => Some(next.copy()),
        None => None,
    }
}

// Whether there is a key below the page's low, or not below the next one.
fn some_astray(leaf: &HollowPage, next: &Option<Key>) -> bool
    ensures { result
        ≡ list_any (λ p. is_below p.0 leaf.now.low || is_past next.now p.0) leaf.now.pairs }
{
    for at in 0..leaf.count() {
        if is_astray(leaf.key(at), leaf.low(), next) {
            return true;
        }
    }
    false
}

fn is_astray(key: &[u8], low: &[u8], next: &Option<Key>) -> bool
    ensures { result ≡ (is_below key.now low.now || is_past next.now key.now) }
{
    bw_codec::is_before(key, low) || is_past_next(key, next)
}

fn is_past_next(key: &[u8], next: &Option<Key>) -> bool
    ensures { result ≡ is_past next.now key.now }
{
    match next {
        Some(next) => !bw_codec::is_before(key, next.as_slice()),
        None => false,
    }
}

// Whether a page before this one has the same low.
fn is_taken(lows: &BTreeMap<Key, u32>, low: &Key, page: u32) -> bool
    ensures { result ≡ taken_before (tree.get order lows.now low.now) page }
{
    match lows.get(low) {
        Some(first) => *first < page,
        None => false,
    }
}

// Whether this low, which is not empty, is that of page 1 or of a page before this one.
fn is_wrong_low(lows: &BTreeMap<Key, u32>, low: &Key, page: u32) -> bool
    ensures { result ≡ ((page == 1) || taken_before (tree.get order lows.now low.now) page) }
{
    page == 1 || is_taken(lows, low, page)
}

// Whether there are too many pairs, or one that does not lie between the page's low and the next.
fn has_bad_pairs(m: u16, leaf: &HollowPage, next: Option<Key>) -> bool
    ensures { result ≡ (nat_lt m (length leaf.now.pairs)
        || list_any (λ p. is_below p.0 leaf.now.low || is_past next p.0) leaf.now.pairs) }
{
    usize::from(m) < leaf.count() || some_astray(leaf, &next)
}

// Whether a page that was set is at fault.
fn is_wrong_leaf(m: u16, leaf: &HollowPage, lows: &BTreeMap<Key, u32>) -> bool
    ensures { (set : List LeafValue) → IsLows set (tree.get order lows.now)
        → length leaf.now.low ≤ 128 → result ≡ is_bad_leaf m set leaf.now }
{
    match Key::new(leaf.low()) {
        Err(_) => leaf.page() != 1 || has_bad_pairs(m, leaf, least_low(lows)),
        Ok(low) => {
            is_wrong_low(lows, &low, leaf.page()) || has_bad_pairs(m, leaf, low_above(lows, &low))
        }
    }
}

// Whether a page is at fault; one that was only touched is.
fn is_wrong_line(m: u16, line: &Found, lows: &BTreeMap<Key, u32>) -> bool
    ensures { (set : List LeafValue) → IsLows set (tree.get order lows.now)
        → IsShortIf line.now.leaf → result ≡ is_bad_page m set line.now.leaf }
{
    match &line.page {
        Some(leaf) => is_wrong_leaf(m, leaf, lows),
        None => true,
    }
}

/// The least page at fault, of pages in the order of their numbers.
pub fn wrong_page(m: u16, pages: &[(u32, Found)], lows: &BTreeMap<Key, u32>) -> Option<u32>
    requires { Rise 0 pages.now }
    ensures { (set : List LeafValue) → IsLows set (tree.get order lows.now)
        → AllByRecursion (λ e. IsShortIf e.1.leaf) pages.now
        → result ≡ first_wrong m set 0 pages.now }
{
    let mut before: u32 = 0;
    let mut at = 0;
    'pages: while at < pages.len() {
        let (page, line) = &pages[at];
        let page = *page;
        if before + 1 != page || is_wrong_line(m, line, lows) {
            return Some(before + 1);
        }
        before = page;
        at += 1;
    }
    None
}

/// The first page with each low that is a key. It goes from the last page down, so that the first
/// counts.
pub fn lows_of(alloc: Global, pages: &[(u32, Found)]) -> Result<BTreeMap<Key, u32>, AllocError>
    ensures { IfOk result (λ lows. IsIndex pages.now (tree.get order lows)) }
{
    let mut lows = BTreeMap::new(alloc);
    let mut at = pages.len();
    'down: while at > 0 {
        at -= 1;
        let (page, line) = &pages[at];
        add_low(&mut lows, *page, line)?;
    }
    Ok(lows)
}

// One page more, from the last one down.
fn add_low(lows: &mut BTreeMap<Key, u32>, page: u32, line: &Found) -> Result<(), AllocError>
    ensures { (k : Bytes) → IsKey k → OnOk result (tree.get order lows.new k
        ≡ (if has_low k line.now.leaf then Some page else tree.get order lows.old k)) }
{
    let Some(leaf) = &line.page else {
        return Ok(());
    };
    let Ok(low) = Key::new(leaf.low()) else {
        return Ok(());
    };
    let _ = lows.insert(low, page)?;
    Ok(())
}

/// The lines of a map, in the order of their pages.
pub fn in_page_order(
    alloc: Global,
    lines: BTreeMap<u32, Touched>,
) -> Result<Vec<(u32, Found)>, AllocError>
    ensures same { IfOk result (λ pages. pages.items ≡ lines.entries) }
    ensures ordered { tree.IsOrdered nat_cmp lines }
{
    let mut lines = lines;
    let mut pages = Vec::with_capacity(alloc, lines.len())?;
    'next: while let Some((page, line)) = lines.pop_first() {
        pages.push((page, line.into_found(alloc)?))?;
    }
    Ok(pages)
}

// The least page at fault.
fn wrong_among(alloc: Global, m: u16, pages: &[(u32, Found)]) -> Result<Option<u32>, AllocError>
    requires { Rise 0 pages.now }
    ensures { (frames : List FrameValue) → AllByRecursion (HasLawful m) frames
        → AreOf frames pages.now
        → IfOk result (λ page. page ≡ fault_among m frames) }
{
    let lows = lows_of(alloc, pages)?;
    Ok(wrong_page(m, pages, &lows))
}

// The leaves that were set, and the places.
fn take_apart(
    alloc: Global,
    pages: Vec<(u32, Found)>,
) -> Result<(Vec<HollowPage>, Vec<PageAt>), AllocError>
    ensures leaves { IfOk result (λ r. r.0.items ≡ leaves_in pages.items) }
    ensures table { IfOk result (λ r. r.1.items ≡ map at_line pages.items) }
{
    let mut pages = pages;
    let mut leaves = Vec::with_capacity(alloc, pages.len())?;
    let mut table = Vec::with_capacity(alloc, pages.len())?;
    pages.reverse();
    'next: while let Some(page) = pages.pop() {
        let (_, line) = page;
        let Found { at, page } = line;
        table.push(at)?;
        match page {
            Some(page) => leaves.push(page)?,
            None => {}
        }
    }
    Ok((leaves, table))
}

// How many pairs a page has. Its number, which is small, bounds how many pages there are.
fn count_of(page: &HollowPage) -> usize
    ensures value { result ≡ length page.now.pairs }
    ensures small { page.now.page < 2 ^ 32 }
{
    let _ = page.page();
    page.count()
}

// How many pairs lawful pages have.
fn count_pairs(m: u16, pages: &[HollowPage]) -> u64
    requires limit { m ≤ 32 }
    requires lawful { AreLeaves m pages.now }
    ensures { result ≡ finite.len (union pages.now) }
{
    let mut pairs = 0;
    for page in pages {
        pairs += count_of(page) as u64;
    }
    pairs
}

/// The pages of lines that were read, if none is at fault; else the least one that is.
pub fn pages_of(alloc: Global, m: u16, lines: BTreeMap<u32, Touched>) -> Result<Pages, RecoverCause>
    requires limit { (4 ≤ m) × (m ≤ 32) }
    requires read { HasFrames m lines }
    ensures right { (frames : List FrameValue) → AllByRecursion (HasLawful m) frames
        → IsMapOf frames lines
        → IfOk result (IsRight m frames) }
    ensures away { IfOk result (λ r.
        r.leaves.evicted ≡ numbers_from 1 (length r.leaves.leaves)) }
    ensures fault { (frames : List FrameValue) → AllByRecursion (HasLawful m) frames
        → IsMapOf frames lines
        → IfErr result (PageFaultIs (fault_among m frames)) }
{
    let pages = in_page_order(alloc, lines)?;
    match wrong_among(alloc, m, &pages)? {
        Some(page) => Err(RecoverCause::Unlawful { page }),
        None => {
            let (leaves, table) = take_apart(alloc, pages)?;
            let pairs = count_pairs(m, leaves.as_slice());
            let leaves = Leaves::found(leaves, m)?;
            Ok(Pages {
                leaves,
                table,
                pairs,
            })
        }
    }
}
