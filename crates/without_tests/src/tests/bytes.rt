//! Of `bw_codec`.

ghost use Rattle.std.specs.Prelude.{IfSome};
ghost use Rattle.bw_codec.specs.Grammar.{IsBlock};

use super::{asked, spared};
use bw_codec::limits::LATEST;
use bw_codec::{
    Block, Blocks, FrameSeen, Head, Header, HeaderRead, Key, Low, Ops, Outline, Packed, Pair,
    Pairs, Place, Value, ascend, block_length, check_frame, frame_cells, header_cells, is_before,
    read_block, read_header, write_block,
};
use std::alloc::Global;
use test_kit::marks::begin_without;
use test_kit::vectors::{is, packed_put, put};

/// A key and a value, copied.
fn pair() -> Option<(Key, Value)> {
    let key = Key::new(b"k").ok()?;
    let value = Value::new(b"v").ok()?;
    Some((key.copy(), value.copy()))
}

fn is_pair() -> bool {
    match pair() {
        Some((key, value)) => {
            is(key.as_slice(), b"k") && is(value.as_slice(), b"v") && key.head() == 0x6b << 56
        }
        None => false,
    }
}

fn keys_and_values(alloc: Global) -> Option<bool> {
    begin_without(alloc);
    let is_so = is_pair()
        && is_before(b"a", b"aa")
        && Key::new(b"").is_err()
        && Value::new(&[0; 513]).is_err();
    asked(alloc, is_so)
}

fn is_record() -> bool {
    let Some(record) = put(b"k", b"v") else {
        return false;
    };
    record == record.copy() && is(record.key().as_slice(), b"k")
}

/// Records of a list.
fn listed(alloc: Global) -> Option<bool> {
    let mut items = Vec::new(alloc);
    items.push(packed_put(alloc, b"k", b"v")?).ok()?;
    let item = packed_put(alloc, b"k", b"w")?;
    begin_without(alloc);
    let ops = Ops::of(items);
    let one = Ops::single(item);
    let is_so = ops.as_slice().len() == 1 && one.as_slice().len() == 1;
    drop(ops);
    drop(one);
    asked(alloc, is_so)
}

fn records(alloc: Global) -> Option<bool> {
    begin_without(alloc);
    let is_one = asked(alloc, is_record());
    if is_one == Some(true) {
        listed(alloc)
    } else {
        is_one
    }
}

/// The header of the first segment with pages of four pairs and frames of 65,536 bytes.
const HEADER: &[u8] = b"BWLOGSG2\x01\0\0\0\0\0\0\0\x04\0\0\0\0\0\x01\0";

/// The head of the first frame, with 33 bytes of two blocks.
const HEAD: &[u8] = b"FRM2\x01\0\0\0\0\0\0\0\x21\0\0\0\x02\0\0\0";

/// Frame 2, which puts v at k into page 1, after the first block of frame 1.
const FRAME: &[u8] =
    b"FRM2\x02\0\0\0\0\0\0\0\x19\0\0\0\x01\0\0\0\x01\x01\0\0\0\x01\0\0\0\0\0\0\0\0\0\0\0\x01\0\x01\x01k\x01\0v";

/// Whether a frame is checked as what it is, whole and cut.
fn is_checked() -> bool {
    let header = Header {
        version: LATEST,
        number: 1,
        m: 4,
        f: 65_536,
    };
    check_frame(FRAME, &header) == Ok(FrameSeen::Whole(2, 45))
        && check_frame(&FRAME[..44], &header) == Ok(FrameSeen::Tail)
        && check_frame(&FRAME[1..], &header).is_err()
}

fn are_heads() -> bool {
    let head = Head {
        number: 1,
        body: 33,
        blocks: 2,
    };
    let is_header = match read_header(HEADER) {
        HeaderRead::Whole(header) => header.number == 1 && header.is_lawful(),
        _ => false,
    };
    is_header && head.is_lawful(53)
}

fn heads(alloc: Global) -> Option<bool> {
    begin_without(alloc);
    let is_so = are_heads()
        && is_checked()
        && is(&header_cells(1, 4, 65_536), HEADER)
        && is(&frame_cells(1, 33, 2), HEAD);
    asked(alloc, is_so)
}

fn lows(alloc: Global) -> Option<bool> {
    let bytes = Vec::from_slice(alloc, b"low").ok()?;
    begin_without(alloc);
    let low = Low::of(bytes);
    let is_so = is(low.as_slice(), b"low");
    let bytes = low.into_vec();
    asked(alloc, is_so && is(bytes.as_slice(), b"low"))
}

/// The pairs a, b and c.
fn three(alloc: Global) -> Option<Vec<Pair>> {
    let mut items = Vec::new(alloc);
    for key in [b"a", b"b", b"c"] {
        let pair = Pair::of(alloc, &Key::new(key).ok()?, &Value::new(b"").ok()?);
        items.push(pair.ok()?).ok()?;
    }
    Some(items)
}

fn pairs(alloc: Global) -> Option<bool> {
    let mut pairs = Pairs::of(three(alloc)?);
    let (key, value) = pair()?;
    let last = Pair::of(alloc, &key, &value).ok()?;
    if pairs.as_slice().len() != 3 {
        return None;
    }
    begin_without(alloc);
    let steps = pairs.skipped(b"c") == 2;
    let _ = pairs.set(2, last);
    pairs.remove(0);
    pairs.truncate(1);
    let is_so = steps && ascend(pairs.as_slice()) && pairs.as_slice().len() == 1;
    let items = pairs.into_vec();
    asked(alloc, is_so && items.len() == 1)
}

/// Pairs stand without their row if there is no memory for it.
fn pairs_are_made(alloc: Global) -> Option<bool> {
    let items = three(alloc)?;
    begin_without(alloc);
    let pairs = Pairs::of(items);
    let is_so = pairs.as_slice().len() == 3 && pairs.skipped(b"c") <= 2;
    spared(alloc, is_so)
}

/// Page 1 with k=v.
const DELTA: &[u8] = b"\x01\x01\0\0\0\x01\0\0\0\0\0\0\0\0\0\0\0\x01\0\x01\x01k\x01\0v";

const BACK: Place = Place { frame: 1, index: 0 };

/// The lawful block of these bytes.
fn block_of(alloc: Global, bytes: &[u8]) -> Option<Block>
    ensures { IfSome result (IsBlock 32) }
{
    read_block(alloc, bytes, LATEST, 32).ok()
}

fn is_delta(block: &Block) -> bool {
    !block.sets(1) && block.touches(1) && block.back(1) == Some(BACK) && !block.touches(2)
}

fn blocks(alloc: Global) -> Option<bool> {
    let mut items = Vec::new(alloc);
    items.push(block_of(alloc, DELTA)?).ok()?;
    begin_without(alloc);
    let blocks = Blocks::of(items);
    let is_so = match blocks.as_slice() {
        [block] => is_delta(block),
        _ => false,
    };
    let items = blocks.into_vec();
    asked(alloc, is_so && items.len() == 1)
}

fn outlines(alloc: Global) -> Option<bool> {
    begin_without(alloc);
    let is_so = match Outline::read(LATEST, DELTA) {
        Some(outline) => outline.touches(1) && !outline.touches(2),
        None => false,
    };
    asked(alloc, is_so)
}

fn a_block_is_written(alloc: Global) -> Option<bool> {
    let block = block_of(alloc, DELTA)?;
    let mut out = Vec::with_capacity(alloc, block_length(&block)).ok()?;
    begin_without(alloc);
    let length = block_length(&block);
    write_block(&block, &mut out);
    asked(alloc, length == DELTA.len() && is(out.as_slice(), DELTA))
}

/// Whether a packed put of k=v and what shares its bytes are so.
fn is_shared(packed: &Packed) -> bool {
    let Ok(copy) = packed.copy() else {
        return false;
    };
    let is_put = packed.pair().is_ok() && is(packed.record().key().as_slice(), b"k");
    match copy.into_pair() {
        Ok(pair) => is_put && is(pair.value(), b"v") && is(Packed::del(pair).key(), b"k"),
        Err(_) => false,
    }
}

fn packed_records(alloc: Global) -> Option<bool> {
    let packed = packed_put(alloc, b"k", b"v")?;
    let (key, value) = pair()?;
    let pair = Pair::of(alloc, &key, &value).ok()?;
    begin_without(alloc);
    let is_so = is_shared(&packed) && is_shared(&Packed::put(pair));
    asked(alloc, is_so)
}

/// What each of these says.
pub(super) fn said(alloc: Global) -> [Option<bool>; 10] {
    [
        keys_and_values(alloc),
        records(alloc),
        heads(alloc),
        lows(alloc),
        pairs(alloc),
        pairs_are_made(alloc),
        blocks(alloc),
        outlines(alloc),
        a_block_is_written(alloc),
        packed_records(alloc),
    ]
}
