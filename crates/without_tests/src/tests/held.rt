//! Of `bw_page` and `bw_buffer`.

ghost use Rattle.std.specs.Prelude.{◌≡◌, ◌≤◌, [], IfSome, IsTrue, length};
ghost use Rattle.std.specs.List.{AllByRecursion};
ghost use Rattle.bw_record.specs.Keys.{ascends};
ghost use Rattle.bw_codec.specs.Grammar.{IsBlock};

use super::{asked, spared};
use bw_buffer::{Buffer, Mark};
use bw_codec::limits::MIN_FRAME;
use bw_codec::{Block, Blocks, Key, Leaf, Packed, Place, encode_block};
use bw_page::{Chain, Draft, Leaves, change, count_after, empty_page, keep_below, value_in};
use std::alloc::Global;
use test_kit::marks::begin_without;
use test_kit::vectors::{blocks_in, is, packed_put, put, shows};

const BACK: Place = Place { frame: 1, index: 0 };

/// A page with these keys of one letter, without values.
fn lettered(alloc: Global, letters: &[u8]) -> Option<Leaf> {
    let mut leaf = empty_page(alloc);
    for letter in letters {
        change(&mut leaf, &put(&[*letter], b"")?).ok()?;
    }
    Some(leaf)
}

/// Page 1 with `a`.
fn one_page(alloc: Global) -> Option<Leaves>
    ensures { IfSome result (λ l. l.evicted ≡ []) }
{
    let mut leaves = Leaves::one_empty(alloc, 4).ok()?;
    match leaves.apply_all(&[packed_put(alloc, b"a", b"1")?]) {
        Ok(()) => Some(leaves),
        Err(_) => None,
    }
}

fn are_so(leaves: &Leaves, key: &Key) -> bool
    requires { leaves.now.evicted ≡ [] }
{
    let is_page = match leaves.page(1) {
        Some(leaf) => shows(leaf, b": a=1"),
        None => false,
    };
    let has = match leaves.get(key) {
        Some(value) => is(value.as_slice(), b"1"),
        None => false,
    };
    is_page && has && leaves.count() == 1 && leaves.limit() == 4 && leaves.is_here(1)
}

fn leaves(alloc: Global) -> Option<bool> {
    let leaves = one_page(alloc)?;
    let key = Key::new(b"a").ok()?;
    begin_without(alloc);
    let is_so = leaves.find(&key) == 1 && are_so(&leaves, &key);
    asked(alloc, is_so)
}

fn a_page_goes_and_comes(alloc: Global) -> Option<bool> {
    let mut leaves = one_page(alloc)?;
    let kept = match leaves.page(1) {
        Some(leaf) if leaves.count() == 1 => leaf.copy(),
        _ => return None,
    };
    let kept = kept.ok()?;
    begin_without(alloc);
    leaves.evict_page(1);
    let is_evicted_page = !leaves.is_here(1);
    leaves.bring_back(1, kept);
    asked(alloc, is_evicted_page && leaves.is_here(1))
}

/// The hand gives the page that somebody asked for once it has passed it.
fn the_hand_goes_on(alloc: Global) -> Option<bool> {
    let mut leaves = one_page(alloc)?;
    begin_without(alloc);
    leaves.ask(1);
    let given = leaves.next_to_leave();
    asked(alloc, given == Some(1) && leaves.bytes_here() == 13)
}

/// Whether a key has this value in a leaf; no text if it has none.
fn tells(leaf: &Leaf, key: &Key, text: &[u8]) -> bool
    requires { IsTrue (ascends leaf.now.pairs) }
{
    match value_in(leaf, key) {
        Some(found) => is(found.as_slice(), text),
        None => text.is_empty(),
    }
}

fn one_leaf(alloc: Global) -> Option<bool> {
    let mut leaves = Leaves::one_empty(alloc, 4).ok()?;
    leaves.apply_all(&[packed_put(alloc, b"a", b"1")?]).ok()?;
    let (key, record) = (Key::new(b"a").ok()?, put(b"b", b"2")?);
    let leaf = leaves.page(1)?;
    begin_without(alloc);
    let is_so = count_after(leaf, &record) == 2 && tells(leaf, &key, b"1");
    asked(alloc, is_so)
}

/// Pairs are dropped from a key on, in a leaf and in a draft: no row is asked for that is not
/// there.
fn pairs_are_dropped(alloc: Global) -> Option<bool> {
    let (leaf, other) = (lettered(alloc, b"abc")?, lettered(alloc, b"abc")?);
    begin_without(alloc);
    let leaf = keep_below(leaf, b"b");
    let draft = Draft::of(other).keep_below(b"c");
    let page = empty_page(alloc);
    let is_so = shows(&leaf, b": a=") && shows(&page, b":");
    drop(draft);
    spared(alloc, is_so)
}

/// A chain with a=1, which stands in the log.
fn chain(alloc: Global) -> Option<Chain> {
    let mut chain = Chain::whole(alloc, empty_page(alloc));
    chain.prepend(packed_put(alloc, b"a", b"1")?).ok()?;
    chain.mark_flushed(BACK).ok()?;
    Some(chain)
}

fn chains(alloc: Global) -> Option<bool> {
    let mut chain = chain(alloc)?;
    let page = empty_page(alloc);
    begin_without(alloc);
    let new = Chain::whole(alloc, page);
    let on_log = Chain::on_log(alloc, BACK);
    let are_made = new.deltas() == 0 && on_log.ends_on_log() == Some(BACK);
    let is_so = chain.deltas() == 1 && chain.evict() && chain.ends_on_log() == Some(BACK);
    chain.rest_on(BACK);
    asked(alloc, are_made && is_so && chain.deltas() == 0)
}

/// Puts one pair and marks it.
fn grows(chain: &mut Chain, record: Packed) -> bool {
    chain.prepend(record).is_ok() && chain.mark_flushed(BACK).is_ok()
}

/// What was reserved is not refused.
fn reserved_chains(alloc: Global) -> Option<bool> {
    let mut chain = chain(alloc)?;
    chain.reserve(4).ok()?;
    let one = packed_put(alloc, b"b", b"2")?;
    let other = packed_put(alloc, b"c", b"3")?;
    begin_without(alloc);
    let is_so = grows(&mut chain, one) && grows(&mut chain, other);
    asked(alloc, is_so)
}

/// A frame of the empty page 1.
const FRAME: &[u8] = b"FRM2\x01\0\0\0\0\0\0\0\x08\0\0\0\x01\0\0\0\x02\x01\0\0\0\0\0\0";

/// Whether a buffer is the frame of one block of 8 bytes, sealed.
fn is_frame(buffer: &Buffer, mark: Mark) -> bool {
    let is_one = buffer.count() == 1 && buffer.room() == 65_508 && buffer.is_sealed();
    is_one
        && buffer.limit() == MIN_FRAME
        && buffer.frame() == 1
        && is(buffer.bytes(), FRAME)
        && 0 < buffer.count()
        && buffer.mark(0) == mark
}

fn fills(buffer: &mut Buffer, blocks: &Blocks) -> bool
    requires some { 1 ≤ length blocks.now }
    requires lawful { AllByRecursion (IsBlock 32) blocks.now }
{
    let has_room = buffer.has_room(blocks.as_slice());
    has_room && buffer.put_all(blocks.as_slice()) == Ok(BACK)
}

fn buffers(alloc: Global) -> Option<bool> {
    let blocks = blocks_in(alloc, FRAME)?;
    let [first, ..] = blocks.as_slice() else {
        return None;
    };
    let mut buffer = Buffer::new(alloc, 1, MIN_FRAME).ok()?;
    begin_without(alloc);
    let is_put = fills(&mut buffer, &blocks);
    buffer.seal();
    let is_so = is_put && is_frame(&buffer, Mark::of(first));
    buffer.restart(2);
    asked(alloc, is_so && buffer.frame() == 2 && buffer.count() == 0)
}

/// A Base is copied as its bytes.
fn is_copied(alloc: Global, buffer: &mut Buffer) -> Option<bool> {
    let blocks = blocks_in(alloc, FRAME)?;
    let [first, ..] = blocks.as_slice() else {
        return None;
    };
    let Block::Base(leaf) = first else {
        return None;
    };
    let mut bytes = Vec::new(alloc);
    encode_block(first, &mut bytes).ok()?;
    begin_without(alloc);
    let answer = buffer.put_base(&bytes, leaf.page);
    asked(alloc, answer == Ok(BACK))
}

fn bases(alloc: Global) -> Option<bool> {
    let mut buffer = Buffer::new(alloc, 1, MIN_FRAME).ok()?;
    is_copied(alloc, &mut buffer)
}

/// What each of these says.
pub(super) fn said(alloc: Global) -> [Option<bool>; 9] {
    [
        leaves(alloc),
        a_page_goes_and_comes(alloc),
        the_hand_goes_on(alloc),
        one_leaf(alloc),
        pairs_are_dropped(alloc),
        chains(alloc),
        reserved_chains(alloc),
        buffers(alloc),
        bases(alloc),
    ]
}
