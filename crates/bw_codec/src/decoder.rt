//! Blocks, frames and headers, read from the front of bytes.

ghost use Rattle.std.specs.Prelude.{◌≡◌, ◌≤◌, IfOk, IfErr, Some, length};
ghost use Rattle.bw_codec.specs.declared.head.FrameRead.{FrameRead};
ghost use Rattle.bw_record.specs.declared.block.Block.{Block};
ghost use Rattle.bw_codec.specs.Grammar.{agrees, IsFirst, IsFront, IsHeading};
ghost use Rattle.bw_codec.specs.Reading.{Gives, delta_at, base_at, upper_at, split_at, block_at, many_at, head_at, front_at, heading_of, version_in, is_led};

use crate::fault::CodecFault;
use crate::head::{FrameRead, Head, Header, HeaderRead};
use crate::limits::{HEAD_LEN, HEADER_LEN, MIN_BLOCK};
use crate::parts::{
    eight_of, four_of, low_of, page_of, pairs_of, place_of, room_for, some_ops, two_of,
};
use crate::words::{frame_word, segment_word};
use bw_record::{Block, Blocks, Frame, Leaf};
use byteorder::{ByteOrder, LittleEndian};
use std::alloc::Global;

#[tactic(auto, unfolding(crate::specs::Reading::delta_at))]
fn delta_of(alloc: Global, version: u16, bytes: &[u8]) -> Result<(Block, &[u8]), CodecFault>
    ensures { Gives (λ x. (x.0, x.1.now)) result (delta_at version bytes.now) }
{
    let (page, rest) = page_of(bytes)?;
    let (back, rest) = place_of(rest)?;
    let (count, rest) = two_of(rest)?;
    if count < 1 {
        return Err(CodecFault::BadBytes);
    }
    let (ops, rest) = some_ops(alloc, version, count, rest)?;
    Ok((Block::Delta { page, back, ops }, rest))
}

#[tactic(auto, unfolding(crate::specs::Reading::base_at))]
fn base_of(alloc: Global, version: u16, m: u16, bytes: &[u8]) -> Result<(Block, &[u8]), CodecFault>
    ensures { Gives (λ x. (x.0, x.1.now)) result (base_at version m bytes.now) }
{
    let (page, rest) = page_of(bytes)?;
    let (low, rest) = low_of(alloc, version, rest)?;
    let (pairs, rest) = pairs_of(alloc, version, m, rest)?;
    Ok((Block::Base(Leaf { page, low, pairs }), rest))
}

/// Whether the first pair's key is the low key.
fn leads(leaf: &Leaf) -> bool
    ensures { result ≡ is_led leaf.now.low leaf.now.pairs }
{
    match leaf.pairs.as_slice().first() {
        None => false,
        Some(pair) => pair.key() == leaf.low.as_slice(),
    }
}

/// The new page of a Split.
#[tactic(auto, unfolding(crate::specs::Reading::upper_at))]
fn upper_of(alloc: Global, version: u16, m: u16, bytes: &[u8]) -> Result<(Leaf, &[u8]), CodecFault>
    ensures { Gives (λ x. (x.0, x.1.now)) result (upper_at version m bytes.now) }
{
    let (low, rest) = low_of(alloc, version, bytes)?;
    let (page, rest) = four_of(rest)?;
    let (pairs, rest) = pairs_of(alloc, version, m, rest)?;
    if page < 2 {
        return Err(CodecFault::BadBytes);
    }
    let leaf = Leaf { page, low, pairs };
    if !leads(&leaf) {
        return Err(CodecFault::BadBytes);
    }
    Ok((leaf, rest))
}

#[tactic(auto, unfolding(crate::specs::Reading::split_at))]
fn split_of(alloc: Global, version: u16, m: u16, bytes: &[u8]) -> Result<(Block, &[u8]), CodecFault>
    ensures { Gives (λ x. (x.0, x.1.now)) result (split_at version m bytes.now) }
{
    let (page, rest) = page_of(bytes)?;
    let (back, rest) = place_of(rest)?;
    let (upper, rest) = upper_of(alloc, version, m, rest)?;
    if upper.page == page {
        return Err(CodecFault::BadBytes);
    }
    Ok((Block::Split { page, back, upper }, rest))
}

#[tactic(auto, unfolding(crate::specs::Reading::block_at))]
fn block_of(alloc: Global, version: u16, m: u16, bytes: &[u8]) -> Result<(Block, &[u8]), CodecFault>
    ensures { Gives (λ x. (x.0, x.1.now)) result (block_at version m bytes.now) }
{
    match bytes {
        [] => Err(CodecFault::BadBytes),
        [tag, rest @ ..] => {
            if *tag == 1 {
                delta_of(alloc, version, rest)
            } else if *tag == 2 {
                base_of(alloc, version, m, rest)
            } else if *tag == 3 {
                split_of(alloc, version, m, rest)
            } else {
                Err(CodecFault::BadBytes)
            }
        }
    }
}

fn some_blocks(
    alloc: Global,
    version: u16,
    m: u16,
    count: u32,
    bytes: &[u8],
) -> Result<(Blocks, &[u8]), CodecFault>
    ensures { Gives (λ x. (x.0, x.1.now)) result (many_at (block_at version m) count bytes.now) }
{
    let mut items = room_for(alloc, count as usize, bytes, MIN_BLOCK as usize)?;
    let mut rest = bytes;
    for _i in 0..count {
        let (block, others) = block_of(alloc, version, m, rest)?;
        items.push(block)?;
        rest = others;
    }
    Ok((Blocks::of(items), rest))
}

/// Whether bytes agree with a word as far as both go.
pub(crate) fn begins_as(bytes: &[u8], word: &[u8]) -> bool
    ensures { result ≡ agrees bytes.now word.now }
{
    word.iter().zip(bytes).all(|(a, b)| *a == *b)
}

#[tactic(auto, unfolding(crate::specs::Reading::head_at))]
pub(crate) fn head_of(version: u16, limit: u32, bytes: &[u8]) -> Result<(Head, &[u8]), CodecFault>
    requires { 20 ≤ length bytes.now }
    ensures gives { Gives (λ x. (x.0, x.1.now)) result (head_at version limit bytes.now) }
    ensures bad { IfErr result (λ fault. fault ≡ CodecFault.BadBytes) }
{
    if !begins_as(bytes, &frame_word(version)) {
        return Err(CodecFault::BadBytes);
    }
    let (number, rest) = eight_of(&bytes[4..])?;
    let (body, rest) = four_of(rest)?;
    let (blocks, rest) = four_of(rest)?;
    let head = Head {
        number,
        body,
        blocks,
    };
    if !head.is_lawful(limit) {
        return Err(CodecFault::BadBytes);
    }
    Ok((head, rest))
}

#[tactic(auto, unfolding(crate::specs::Reading::front_at))]
fn front_of(
    alloc: Global,
    version: u16,
    m: u16,
    limit: u32,
    bytes: &[u8],
) -> Result<FrameRead, CodecFault>
    ensures { Gives (λ x. x) result (front_at version m limit bytes.now) }
{
    if bytes.len() < HEAD_LEN {
        if begins_as(bytes, &frame_word(version)) {
            return Ok(FrameRead::Tail);
        }
        return Err(CodecFault::BadBytes);
    }
    let (head, rest) = head_of(version, limit, bytes)?;
    let body = head.body as usize;
    if rest.len() < body {
        return Ok(FrameRead::Tail);
    }
    let (blocks, after) = some_blocks(alloc, version, m, head.blocks, &rest[..body])?;
    if !after.is_empty() {
        return Err(CodecFault::BadBytes);
    }
    let frame = Frame {
        number: head.number,
        blocks,
    };
    Ok(FrameRead::Whole(frame, body + HEAD_LEN))
}

/// The format whose word the first bytes agree with, if there is one.
fn version_of(bytes: &[u8]) -> u16
    ensures { result ≡ version_in bytes.now }
{
    if begins_as(bytes, &segment_word(1)) {
        1
    } else {
        2
    }
}

#[tactic(auto, unfolding(crate::specs::Reading::heading_of))]
fn heading(bytes: &[u8]) -> HeaderRead
    ensures { result ≡ heading_of bytes.now }
{
    let version = version_of(bytes);
    if !begins_as(bytes, &segment_word(version)) {
        return HeaderRead::Bad;
    }
    if bytes.len() < HEADER_LEN {
        return if bytes.is_empty() {
            HeaderRead::Bad
        } else {
            HeaderRead::Part
        };
    }
    if LittleEndian::read_u16(&bytes[18..]) != 0 {
        return HeaderRead::Bad;
    }
    let header = Header {
        version,
        number: LittleEndian::read_u64(&bytes[8..]),
        m: LittleEndian::read_u16(&bytes[16..]),
        f: LittleEndian::read_u32(&bytes[20..]),
    };
    if header.is_lawful() {
        HeaderRead::Whole(header)
    } else {
        HeaderRead::Bad
    }
}

/// `read_frame` with the header's numbers by value, whose ranges the proof needs.
fn read_within(
    alloc: Global,
    version: u16,
    m: u16,
    limit: u32,
    bytes: &[u8],
) -> Result<FrameRead, CodecFault>
    ensures found { IfOk result (IsFront version m limit bytes.now) }
    ensures only { (read : FrameRead) → IsFront version m limit bytes.now read
        → Gives (λ x. x) result (Some read) }
{
    front_of(alloc, version, m, limit, bytes)
}

/// What stands at the front of the bytes after a header or a frame: a whole frame of a segment with
/// this header, in the format that it names, or bytes at which one was torn off. `BadBytes` for all
/// other bytes, `NoMemory` only if a growth was refused. Time and memory are linear in the bytes:
/// room is made for no more blocks, records and pairs than the bytes can hold, whatever counts were
/// read.
pub fn read_frame(alloc: Global, bytes: &[u8], header: &Header) -> Result<FrameRead, CodecFault>
    // What is answered stands there.
    ensures found { IfOk result (IsFront header.now.version header.now.m header.now.f bytes.now) }

    // What stands there is answered, unless memory runs out.
    ensures only { (read : FrameRead)
        → IsFront header.now.version header.now.m header.now.f bytes.now read
        → Gives (λ x. x) result (Some read) }
{
    read_within(alloc, header.version, header.m, header.f, bytes)
}

/// The block at the front of the bytes, in a segment of this format whose pages have at most `m`
/// pairs, whatever follows it. `BadBytes` if no lawful block stands there, `NoMemory` only if a
/// growth was refused. Time and memory are linear in the block.
pub fn read_block(alloc: Global, bytes: &[u8], version: u16, m: u16) -> Result<Block, CodecFault>
    // What is answered stands there.
    ensures found { IfOk result (IsFirst version m bytes.now) }

    // What stands there is answered, unless memory runs out.
    ensures only { (block : Block) → IsFirst version m bytes.now block
        → Gives (λ x. x) result (Some block) }
{
    let (block, _) = block_of(alloc, version, m, bytes)?;
    Ok(block)
}

/// What a segment begins with: a header, a part of one, or neither. No bytes at all are `Bad`: such
/// a segment is a spare, and its caller asks for its length first. No memory is taken.
pub fn read_header(bytes: &[u8]) -> HeaderRead
    ensures { IsHeading bytes.now result }
{
    heading(bytes)
}
