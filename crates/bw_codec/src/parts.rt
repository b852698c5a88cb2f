//! The parts of a block, each read from the front of bytes: numbers, runs of bytes, records, pairs.
//! What follows a part is handed on with it. A count that was read is no reason to take memory:
//! room is made for no more than the bytes after it can hold.

ghost use Rattle.std.specs.Prelude.{◌≡◌, ◌≤◌, ◌/◌, [], length, min, IfOk, IfErr};
ghost use Rattle.std.specs.Vec.{vec_capacity};
ghost use Rattle.bw_record.specs.Version.{key_limit, value_width};
ghost use Rattle.bw_codec.specs.Reading.{Gives, number_at, run_at, text_at, value_at, op_at, pair_at, many_at, place_at, page_at, pairs_at};

use crate::fault::CodecFault;
use crate::limits::{MIN_OP, MIN_PAIR};
use bw_record::version::{key_limit, value_limit};
use bw_record::{Low, Ops, Packed, Pair, Pairs, Place, ascend};
use byteorder::{ByteOrder, LittleEndian};
use std::alloc::{AllocError, Global};

/// A number in two bytes, the lowest first.
pub(crate) fn two_of(bytes: &[u8]) -> Result<(u16, &[u8]), CodecFault>
    ensures gives { Gives (λ x. (x.0, x.1.now)) result (number_at 2 bytes.now) }
    ensures bad { IfErr result (λ fault. fault ≡ CodecFault.BadBytes) }
{
    if bytes.len() < 2 {
        return Err(CodecFault::BadBytes);
    }
    Ok((LittleEndian::read_u16(bytes), &bytes[2..]))
}

/// A number in four bytes.
pub(crate) fn four_of(bytes: &[u8]) -> Result<(u32, &[u8]), CodecFault>
    ensures gives { Gives (λ x. (x.0, x.1.now)) result (number_at 4 bytes.now) }
    ensures bad { IfErr result (λ fault. fault ≡ CodecFault.BadBytes) }
{
    if bytes.len() < 4 {
        return Err(CodecFault::BadBytes);
    }
    Ok((LittleEndian::read_u32(bytes), &bytes[4..]))
}

/// A number in eight bytes.
pub(crate) fn eight_of(bytes: &[u8]) -> Result<(u64, &[u8]), CodecFault>
    ensures gives { Gives (λ x. (x.0, x.1.now)) result (number_at 8 bytes.now) }
    ensures bad { IfErr result (λ fault. fault ≡ CodecFault.BadBytes) }
{
    if bytes.len() < 8 {
        return Err(CodecFault::BadBytes);
    }
    Ok((LittleEndian::read_u64(bytes), &bytes[8..]))
}

/// One byte of length, and that many bytes.
pub(crate) fn run_of(bytes: &[u8]) -> Result<(&[u8], &[u8]), CodecFault>
    ensures gives { Gives (λ x. (x.0.now, x.1.now)) result (run_at bytes.now) }
    ensures bad { IfErr result (λ fault. fault ≡ CodecFault.BadBytes) }
{
    match bytes {
        [] => Err(CodecFault::BadBytes),
        [length, rest @ ..] => {
            let length = *length as usize;
            if rest.len() < length {
                return Err(CodecFault::BadBytes);
            }
            Ok((&rest[..length], &rest[length..]))
        }
    }
}

#[tactic(auto, unfolding(crate::specs::Reading::text_at))]
pub(crate) fn key_at(version: u16, bytes: &[u8]) -> Result<(&[u8], &[u8]), CodecFault>
    ensures gives { Gives (λ x. (x.0.now, x.1.now)) result
        (text_at 1 (key_limit version) bytes.now) }
    ensures some { IfOk result (λ x. 1 ≤ length x.0.now) }
    ensures short { IfOk result (λ x. length x.0.now ≤ 128) }
    ensures bad { IfErr result (λ fault. fault ≡ CodecFault.BadBytes) }
{
    let (run, rest) = run_of(bytes)?;
    if run.is_empty() || key_limit(version) < run.len() {
        return Err(CodecFault::BadBytes);
    }
    Ok((run, rest))
}

/// A number in one byte.
fn one_of(bytes: &[u8]) -> Result<(u16, &[u8]), CodecFault>
    ensures gives { Gives (λ x. (x.0, x.1.now)) result (number_at 1 bytes.now) }
    ensures bad { IfErr result (λ fault. fault ≡ CodecFault.BadBytes) }
{
    match bytes {
        [] => Err(CodecFault::BadBytes),
        [byte, rest @ ..] => Ok((u16::from(*byte), rest)),
    }
}

/// The length of a value.
pub(crate) fn size_of(version: u16, bytes: &[u8]) -> Result<(u16, &[u8]), CodecFault>
    ensures gives { Gives (λ x. (x.0, x.1.now)) result (number_at (value_width version) bytes.now) }
    ensures bad { IfErr result (λ fault. fault ≡ CodecFault.BadBytes) }
{
    if version == 1 {
        one_of(bytes)
    } else {
        two_of(bytes)
    }
}

#[tactic(auto, unfolding(crate::specs::Reading::value_at))]
pub(crate) fn value_at(version: u16, bytes: &[u8]) -> Result<(&[u8], &[u8]), CodecFault>
    ensures gives { Gives (λ x. (x.0.now, x.1.now)) result (value_at version bytes.now) }
    ensures short { IfOk result (λ x. length x.0.now ≤ 512) }
    ensures bad { IfErr result (λ fault. fault ≡ CodecFault.BadBytes) }
{
    let (size, rest) = size_of(version, bytes)?;
    let size = size as usize;
    if value_limit(version) < size || rest.len() < size {
        return Err(CodecFault::BadBytes);
    }
    Ok((&rest[..size], &rest[size..]))
}

/// A low key, which may be empty.
#[tactic(auto, unfolding(crate::specs::Reading::text_at))]
pub(crate) fn low_at(version: u16, bytes: &[u8]) -> Result<(&[u8], &[u8]), CodecFault>
    ensures gives { Gives (λ x. (x.0.now, x.1.now)) result
        (text_at 0 (key_limit version) bytes.now) }
    ensures bad { IfErr result (λ fault. fault ≡ CodecFault.BadBytes) }
{
    let (run, rest) = run_of(bytes)?;
    if key_limit(version) < run.len() {
        return Err(CodecFault::BadBytes);
    }
    Ok((run, rest))
}

pub(crate) fn low_of(alloc: Global, version: u16, bytes: &[u8]) -> Result<(Low, &[u8]), CodecFault>
    ensures { Gives (λ x. (x.0, x.1.now)) result (text_at 0 (key_limit version) bytes.now) }
{
    let (run, rest) = low_at(version, bytes)?;
    let low = Vec::from_slice(alloc, run)?;
    Ok((Low::of(low), rest))
}

/// One record after its tag.
#[tactic(auto, unfolding(crate::specs::Reading::op_at))]
pub(crate) fn op_of(
    alloc: Global,
    version: u16,
    bytes: &[u8],
) -> Result<(Packed, &[u8]), CodecFault>
    ensures { Gives (λ x. (x.0, x.1.now)) result (op_at version bytes.now) }
{
    match bytes {
        [] => Err(CodecFault::BadBytes),
        [tag, rest @ ..] => {
            if *tag == 1 {
                let (key, rest) = key_at(version, rest)?;
                let (value, rest) = value_at(version, rest)?;
                let pair = Pair::of_bytes(alloc, key, value)?;
                Ok((Packed::put(pair), rest))
            } else if *tag == 2 {
                let (key, rest) = key_at(version, rest)?;
                let pair = Pair::of_bytes(alloc, key, &[])?;
                Ok((Packed::del(pair), rest))
            } else {
                Err(CodecFault::BadBytes)
            }
        }
    }
}

/// A key and its value.
#[tactic(auto, unfolding(crate::specs::Reading::pair_at))]
pub(crate) fn pair_of(
    alloc: Global,
    version: u16,
    bytes: &[u8],
) -> Result<(Pair, &[u8]), CodecFault>
    ensures { Gives (λ x. (x.0, x.1.now)) result (pair_at version bytes.now) }
{
    let (key, rest) = key_at(version, bytes)?;
    let (value, rest) = value_at(version, rest)?;
    let pair = Pair::of_bytes(alloc, key, value)?;
    Ok((pair, rest))
}

/// Room for so many things, or for as many as can stand in the bytes if these are fewer: each has
/// `least` bytes or more.
pub(crate) fn room_for<T>(
    alloc: Global,
    count: usize,
    bytes: &[u8],
    least: usize,
) -> Result<Vec<T>, AllocError>
    requires { 1 ≤ least }
    ensures items { IfOk result (λ things. things.items ≡ []) }
    ensures exact { IfOk result (λ things. vec_capacity things ≡ min count (length bytes.now / least)) }
{
    Vec::with_capacity(alloc, count.min(bytes.len() / least))
}

pub(crate) fn some_pairs(
    alloc: Global,
    version: u16,
    count: u16,
    bytes: &[u8],
) -> Result<(Pairs, &[u8]), CodecFault>
    ensures { Gives (λ x. (x.0, x.1.now)) result (many_at (pair_at version) count bytes.now) }
{
    let mut items = room_for(alloc, count as usize, bytes, MIN_PAIR)?;
    let mut rest = bytes;
    for _i in 0..count {
        let (pair, others) = pair_of(alloc, version, rest)?;
        items.push(pair)?;
        rest = others;
    }
    Ok((Pairs::of(items), rest))
}

/// So many records, one after the other. One by itself takes no list.
pub(crate) fn some_ops(
    alloc: Global,
    version: u16,
    count: u16,
    bytes: &[u8],
) -> Result<(Ops, &[u8]), CodecFault>
    ensures { Gives (λ x. (x.0, x.1.now)) result (many_at (op_at version) count bytes.now) }
{
    if count == 1 {
        let (op, rest) = op_of(alloc, version, bytes)?;
        return Ok((Ops::single(op), rest));
    }
    several_ops(alloc, version, count, bytes)
}

fn several_ops(
    alloc: Global,
    version: u16,
    count: u16,
    bytes: &[u8],
) -> Result<(Ops, &[u8]), CodecFault>
    ensures { Gives (λ x. (x.0, x.1.now)) result (many_at (op_at version) count bytes.now) }
{
    let mut items = room_for(alloc, count as usize, bytes, MIN_OP)?;
    let mut rest = bytes;
    for _i in 0..count {
        let (op, others) = op_of(alloc, version, rest)?;
        items.push(op)?;
        rest = others;
    }
    Ok((Ops::of(items), rest))
}

/// A count of at most `m`, and that many pairs in the order of their keys.
#[tactic(auto, unfolding(crate::specs::Reading::pairs_at))]
pub(crate) fn pairs_of(
    alloc: Global,
    version: u16,
    m: u16,
    bytes: &[u8],
) -> Result<(Pairs, &[u8]), CodecFault>
    ensures { Gives (λ x. (x.0, x.1.now)) result (pairs_at version m bytes.now) }
{
    let (count, rest) = two_of(bytes)?;
    if m < count {
        return Err(CodecFault::BadBytes);
    }
    let (pairs, rest) = some_pairs(alloc, version, count, rest)?;
    if !ascend(pairs.as_slice()) {
        return Err(CodecFault::BadBytes);
    }
    Ok((pairs, rest))
}

/// A page number, which is not zero.
#[tactic(auto, unfolding(crate::specs::Reading::page_at))]
pub(crate) fn page_of(bytes: &[u8]) -> Result<(u32, &[u8]), CodecFault>
    ensures gives { Gives (λ x. (x.0, x.1.now)) result (page_at bytes.now) }
    ensures bad { IfErr result (λ fault. fault ≡ CodecFault.BadBytes) }
{
    let (page, rest) = four_of(bytes)?;
    if page < 1 {
        return Err(CodecFault::BadBytes);
    }
    Ok((page, rest))
}

/// A place, whose frame is not zero.
#[tactic(auto, unfolding(crate::specs::Reading::place_at))]
pub(crate) fn place_of(bytes: &[u8]) -> Result<(Place, &[u8]), CodecFault>
    ensures gives { Gives (λ x. (x.0, x.1.now)) result (place_at bytes.now) }
    ensures bad { IfErr result (λ fault. fault ≡ CodecFault.BadBytes) }
{
    let (frame, rest) = eight_of(bytes)?;
    let (index, rest) = four_of(rest)?;
    if frame < 1 {
        return Err(CodecFault::BadBytes);
    }
    Ok((Place { frame, index }, rest))
}
