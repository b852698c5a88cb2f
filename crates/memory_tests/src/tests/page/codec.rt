//! Bytes, blocks, leaves and buffers.

ghost use Rattle.std.specs.Prelude.{IfSome};
ghost use Rattle.bw_codec.specs.Grammar.{IsBlock};

use super::changed;
use bw_buffer::Buffer;
use bw_codec::limits::{LATEST, MIN_FRAME};
use bw_codec::{
    Block, CodecFault, FrameRead, Header, Key, Leaf, Low, Pair, Pairs, Value, encode_block,
    encode_frame_head, encode_header, read_block, read_frame,
};
use std::alloc::Global;
use std::sync::Wait;
use std::thread::Threads;
use test_kit::marks::{begin, end};
use test_kit::refusals::{Ask, Row, Try, asked_again, refused_then, tried, was_refused, wrong_row};
use test_kit::vectors::{is, shows};

/// The header of the first segment with pages of four pairs and frames of 65,536 bytes.
const HEADER: &[u8] = b"BWLOGSG2\x01\0\0\0\0\0\0\0\x04\0\0\0\0\0\x01\0";

/// The head of the first frame, with 33 bytes of two blocks.
const HEAD: &[u8] = b"FRM2\x01\0\0\0\0\0\0\0\x21\0\0\0\x02\0\0\0";

/// Page 1 as it begins.
const BASE: &[u8] = b"\x02\x01\0\0\0\0\0\0";

/// Page 1 with k=v.
const DELTA: &[u8] = b"\x01\x01\0\0\0\x01\0\0\0\0\0\0\0\0\0\0\0\x01\0\x01\x01k\x01\0v";

/// Page 2 from b on, out of page 1.
const SPLIT: &[u8] = b"\x03\x01\0\0\0\x01\0\0\0\0\0\0\0\0\0\0\0\x01b\x02\0\0\0\x01\0\x01b\x01\02";

const HEADING: Header = Header {
    version: LATEST,
    number: 1,
    m: 4,
    f: MIN_FRAME,
};

/// One call that may be refused.
#[derive(Drop)]
enum Call {
    EncodeHeader,
    EncodeHead,
    /// A block of these bytes is written.
    EncodeBlock(&'static [u8]),
    /// And read.
    ReadBlock(&'static [u8]),
    ReadFrame,
    CopyLow,
    CopyPairs,
    CopyPairsOf,
    CopyLeaf,
    Insert,
    NewBuffer,
}

/// Whether bytes are `x`, with these after it if the call went.
fn is_left(out: &[u8], went: bool, bytes: &[u8]) -> bool {
    match out.split_first() {
        Some((first, rest)) => *first == b'x' && if went { rest == bytes } else { rest.is_empty() },
        None => false,
    }
}

/// One try of a call that writes what is no block.
fn writes(alloc: Global, out: &mut Vec<u8>, head: bool) -> Option<Try> {
    begin(alloc);
    let went = if head {
        encode_frame_head(1, 33, 2, out).is_ok()
    } else {
        encode_header(&HEADING, out).is_ok()
    };
    let refused = end(alloc);
    let bytes = if head { HEAD } else { HEADER };
    tried(went, refused, is_left(out.as_slice(), went, bytes))
}

/// Writes what is no block, and once more if it was refused.
fn writes_again(alloc: Global, out: &mut Vec<u8>, head: bool) -> Option<Try> {
    let first = writes(alloc, out, head);
    if was_refused(first) {
        return refused_then(writes(alloc, out, head));
    }
    first
}

fn is_written(alloc: Global, head: bool) -> Option<Try> {
    match Vec::from_slice(alloc, b"x") {
        Ok(mut out) => writes_again(alloc, &mut out, head),
        Err(_) => None,
    }
}

/// The lawful block of these bytes.
fn block_of(alloc: Global, bytes: &[u8]) -> Option<Block>
    ensures { IfSome result (IsBlock 32) }
{
    read_block(alloc, bytes, LATEST, 32).ok()
}

/// One try of a block that is written.
fn encodes(alloc: Global, out: &mut Vec<u8>, block: &Block, bytes: &[u8]) -> Option<Try>
    requires { IsBlock 32 block.now }
{
    begin(alloc);
    let went = encode_block(block, out).is_ok();
    let refused = end(alloc);
    tried(went, refused, is_left(out.as_slice(), went, bytes))
}

/// Writes a block, and once more if it was refused.
fn encodes_again(alloc: Global, out: &mut Vec<u8>, block: &Block, bytes: &[u8]) -> Option<Try>
    requires { IsBlock 32 block.now }
{
    let first = encodes(alloc, out, block, bytes);
    if was_refused(first) {
        return refused_then(encodes(alloc, out, block, bytes));
    }
    first
}

/// Writes a block after an x, and once more if it was refused.
fn encodes_block(alloc: Global, block: &Block, bytes: &[u8]) -> Option<Try>
    requires { IsBlock 32 block.now }
{
    match Vec::from_slice(alloc, b"x") {
        Ok(mut out) => encodes_again(alloc, &mut out, block, bytes),
        Err(_) => None,
    }
}

fn is_encoded(alloc: Global, bytes: &[u8]) -> Option<Try> {
    match block_of(alloc, bytes) {
        Some(block) => encodes_block(alloc, &block, bytes),
        None => None,
    }
}

/// Whether the block is that of these bytes: it is written as they are.
fn spells(alloc: Global, bytes: &[u8], block: &Block) -> bool
    requires { IsBlock 32 block.now }
{
    let mut out = Vec::new(alloc);
    encode_block(block, &mut out).is_ok() && out.as_slice() == bytes
}

/// One try of a block that is read.
fn reads_block(alloc: Global, bytes: &[u8]) -> Option<Try> {
    begin(alloc);
    let answer = read_block(alloc, bytes, LATEST, 32);
    let refused = end(alloc);
    match answer {
        Ok(block) => tried(true, refused, spells(alloc, bytes, &block)),
        Err(fault) => tried(false, refused, fault == CodecFault::NoMemory),
    }
}

/// The first frame as bytes.
fn frame_bytes(alloc: Global) -> Option<Vec<u8>> {
    let mut bytes = Vec::new(alloc);
    for part in [HEAD, BASE, DELTA] {
        if bytes.extend_from_slice(part).is_err() {
            return None;
        }
    }
    Some(bytes)
}

/// One try of a frame that is read.
fn reads_frame_of(alloc: Global, bytes: &[u8]) -> Option<Try> {
    begin(alloc);
    let answer = read_frame(alloc, bytes, &HEADING);
    let refused = end(alloc);
    match answer {
        Ok(FrameRead::Whole(frame, used)) => {
            tried(
                true,
                refused,
                used == 53 && frame.blocks.as_slice().len() == 2,
            )
        }
        Ok(FrameRead::Tail) => None,
        Err(fault) => tried(false, refused, fault == CodecFault::NoMemory),
    }
}

fn reads_frame(alloc: Global) -> Option<Try> {
    match frame_bytes(alloc) {
        Some(bytes) => reads_frame_of(alloc, bytes.as_slice()),
        None => None,
    }
}

fn pair(alloc: Global, key: &[u8], value: &[u8]) -> Option<Pair> {
    match (Key::new(key), Value::new(value)) {
        (Ok(key), Ok(value)) => Pair::of(alloc, &key, &value).ok(),
        _ => None,
    }
}

/// The pairs a=1 and c=3.
fn pairs(alloc: Global) -> Option<Vec<Pair>> {
    match (pair(alloc, b"a", b"1"), pair(alloc, b"c", b"3")) {
        (Some(first), Some(second)) => Vec::from_array(alloc, [first, second]).ok(),
        _ => None,
    }
}

/// Page 7 from `a` on, with these pairs.
fn leaf(alloc: Global) -> Option<Leaf> {
    let Some(pairs) = pairs(alloc) else {
        return None;
    };
    match Vec::from_slice(alloc, b"a") {
        Ok(low) => Some(Leaf {
            page: 7,
            low: Low::of(low),
            pairs: Pairs::of(pairs),
        }),
        Err(_) => None,
    }
}

/// Whether pairs are a=1 and c=3.
fn are_pairs(pairs: &Pairs) -> bool {
    match pairs.as_slice() {
        [first, second] => {
            is(first.key(), b"a")
                && is(first.value(), b"1")
                && is(second.key(), b"c")
                && is(second.value(), b"3")
        }
        _ => false,
    }
}

fn copies_low(alloc: Global, low: &Low) -> Option<Try> {
    begin(alloc);
    let copy = low.copy();
    let refused = end(alloc);
    match copy {
        Ok(copy) => tried(true, refused, is(copy.as_slice(), b"a")),
        Err(_) => tried(false, refused, is(low.as_slice(), b"a")),
    }
}

fn copies_pairs(alloc: Global, pairs: &Pairs, of: bool) -> Option<Try> {
    begin(alloc);
    let copy = if of {
        Pairs::copy_of(alloc, pairs.as_slice())
    } else {
        pairs.copy()
    };
    let refused = end(alloc);
    match copy {
        Ok(copy) => tried(true, refused, are_pairs(&copy)),
        Err(_) => tried(false, refused, are_pairs(pairs)),
    }
}

fn copies_leaf(alloc: Global, leaf: &Leaf) -> Option<Try> {
    begin(alloc);
    let copy = leaf.copy();
    let refused = end(alloc);
    match copy {
        Ok(copy) => tried(true, refused, copy.page == 7 && shows(&copy, b"a: a=1 c=3")),
        Err(_) => tried(false, refused, shows(leaf, b"a: a=1 c=3")),
    }
}

/// One try of a copy of a leaf, or of a part of it by itself.
fn copies(alloc: Global, leaf: Leaf, call: &Call) -> Option<Try> {
    if matches!(call, Call::CopyLeaf) {
        return copies_leaf(alloc, &leaf);
    }
    let (low, pairs) = leaf.into_parts();
    match call {
        Call::CopyLow => copies_low(alloc, &low),
        Call::CopyPairs => copies_pairs(alloc, &pairs, false),
        _ => copies_pairs(alloc, &pairs, true),
    }
}

fn is_copied(alloc: Global, call: &Call) -> Option<Try> {
    match leaf(alloc) {
        Some(leaf) => copies(alloc, leaf, call),
        None => None,
    }
}

/// Whether b=2 comes in between the pairs.
fn goes_in(alloc: Global, leaf: &mut Leaf, key: &Key, value: &Value) -> bool {
    if leaf.pairs.as_slice().len() < 1 {
        return false;
    }
    match Pair::of(alloc, key, value) {
        Ok(pair) => leaf.pairs.insert(1, pair).is_ok(),
        Err(_) => false,
    }
}

/// One try of that: if it is refused, they are what they were.
fn inserts(alloc: Global, leaf: &mut Leaf) -> Option<Try> {
    let (Ok(key), Ok(value)) = (Key::new(b"b"), Value::new(b"2")) else {
        return None;
    };
    begin(alloc);
    let went = goes_in(alloc, leaf, &key, &value);
    changed(leaf, went, end(alloc), b"a: a=1 b=2 c=3", b"a: a=1 c=3")
}

/// Inserts a pair into a leaf, and once more if it was refused.
fn inserts_again(alloc: Global, leaf: &mut Leaf) -> Option<Try> {
    let first = inserts(alloc, leaf);
    if was_refused(first) {
        return refused_then(inserts(alloc, leaf));
    }
    first
}

fn is_inserted(alloc: Global) -> Option<Try> {
    match leaf(alloc) {
        Some(mut leaf) => inserts_again(alloc, &mut leaf),
        None => None,
    }
}

fn makes_buffer(alloc: Global) -> Option<Try> {
    begin(alloc);
    let made = Buffer::new(alloc, 5, MIN_FRAME);
    let refused = end(alloc);
    match made {
        Ok(buffer) => tried(
            true,
            refused,
            buffer.frame() == 5 && buffer.room() == 65_516,
        ),
        Err(_) => tried(false, refused, true),
    }
}

/// A call that changes nothing.
impl Ask for Call {
    fn asks<R: AllocGlobal + Wait>(&self, rt: &R) -> Option<Try> {
        let alloc = rt.alloc();
        match self {
            Call::ReadBlock(bytes) => reads_block(alloc, *bytes),
            Call::ReadFrame => reads_frame(alloc),
            Call::NewBuffer => makes_buffer(alloc),
            _ => is_copied(alloc, self),
        }
    }
}

impl Row for Call {
    fn goes<R: AllocGlobal + Threads + Wait>(&self, rt: &R) -> Option<Try> {
        let alloc = rt.alloc();
        match self {
            Call::EncodeHeader => is_written(alloc, false),
            Call::EncodeHead => is_written(alloc, true),
            Call::EncodeBlock(bytes) => is_encoded(alloc, *bytes),
            Call::Insert => is_inserted(alloc),
            _ => asked_again(rt, self),
        }
    }

    // The row of heads beside pairs.
    fn spares(&self) -> bool {
        match self {
            Call::EncodeHeader | Call::EncodeHead | Call::EncodeBlock(_) => false,
            Call::CopyLow | Call::NewBuffer => false,
            _ => true,
        }
    }
}

const CALLS: &[Call] = &[
    Call::EncodeHeader,
    Call::EncodeHead,
    Call::EncodeBlock(BASE),
    Call::EncodeBlock(DELTA),
    Call::EncodeBlock(SPLIT),
    Call::ReadBlock(BASE),
    Call::ReadBlock(DELTA),
    Call::ReadBlock(SPLIT),
    Call::ReadFrame,
    Call::CopyLow,
    Call::CopyPairs,
    Call::CopyPairsOf,
    Call::CopyLeaf,
    Call::Insert,
    Call::NewBuffer,
];

#[test]
fn bytes_leaves_and_buffers(rt: HostRuntime) {
    assert_eq!(rt; wrong_row(&rt, CALLS), None);
}
