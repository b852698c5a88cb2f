//! Whether bytes are a lawful frame, without making one.
//!
//! A recovery reads each frame twice: it judges all bytes before it believes any. The first reading
//! would make each record only to drop it again, which costs more than all else that it does. So
//! here the same is asked of bytes as by `read_frame`, and nothing is kept but where the next part
//! begins.

ghost use Rattle.std.specs.Prelude.{◌≡◌, Ok, Some, IfOk, IfErr};
ghost use Rattle.std.specs.Option.{option_map};
ghost use Rattle.bw_codec.specs.declared.head.FrameRead.{FrameRead};
ghost use Rattle.bw_codec.specs.Grammar.{IsFront};
ghost use Rattle.bw_codec.specs.Reading.{Gives, op_at, pair_at, pairs_at, many_at, delta_at, base_at, upper_at, split_at, block_at, front_at};
ghost use Rattle.bw_codec.specs.Checking.{past, keyed, rising_after, led_by, paged, seen_of, IsSeen};

use crate::decoder::{begins_as, head_of};
use crate::fault::CodecFault;
use crate::head::Header;
use crate::limits::HEAD_LEN;
use crate::parts::{four_of, key_at, low_at, page_of, place_of, two_of, value_at};
use crate::words::frame_word;
use bw_record::is_before;

/// What stands at the front of the bytes after a header or a frame, in short.
#[derive(Debug, Clone, Copy, PartialEq, Eq)]
pub enum FrameSeen {
    /// A frame of this number, in so many bytes.
    Whole(u64, usize),
    /// Bytes at which a frame was torn off; also no bytes at all.
    Tail,
}

/// One record after its tag.
#[tactic(auto, unfolding(crate::specs::Reading::op_at))]
fn check_op(version: u16, bytes: &[u8]) -> Result<&[u8], CodecFault>
    ensures gives { Gives (λ x. x.now) result (past (op_at version bytes.now)) }
    ensures bad { IfErr result (λ fault. fault ≡ CodecFault.BadBytes) }
{
    match bytes {
        [] => Err(CodecFault::BadBytes),
        [tag, rest @ ..] => {
            if *tag == 1 {
                let (_, rest) = key_at(version, rest)?;
                let (_, rest) = value_at(version, rest)?;
                Ok(rest)
            } else if *tag == 2 {
                let (_, rest) = key_at(version, rest)?;
                Ok(rest)
            } else {
                Err(CodecFault::BadBytes)
            }
        }
    }
}

fn check_ops(version: u16, count: u16, bytes: &[u8]) -> Result<&[u8], CodecFault>
    ensures gives { Gives (λ x. x.now) result (past (many_at (op_at version) count bytes.now)) }
    ensures bad { IfErr result (λ fault. fault ≡ CodecFault.BadBytes) }
{
    let mut rest = bytes;
    for _i in 0..count {
        rest = check_op(version, rest)?;
    }
    Ok(rest)
}

#[tactic(auto, unfolding(crate::specs::Reading::delta_at))]
fn check_delta(version: u16, bytes: &[u8]) -> Result<&[u8], CodecFault>
    ensures gives { Gives (λ x. x.now) result (past (delta_at version bytes.now)) }
    ensures bad { IfErr result (λ fault. fault ≡ CodecFault.BadBytes) }
{
    let (_, rest) = page_of(bytes)?;
    let (_, rest) = place_of(rest)?;
    let (count, rest) = two_of(rest)?;
    if count < 1 {
        return Err(CodecFault::BadBytes);
    }
    check_ops(version, count, rest)
}

/// The key of a pair.
#[tactic(auto, unfolding(crate::specs::Reading::pair_at))]
fn check_pair(version: u16, bytes: &[u8]) -> Result<(&[u8], &[u8]), CodecFault>
    ensures gives { Gives (λ x. (x.0.now, x.1.now)) result (keyed (pair_at version bytes.now)) }
    ensures bad { IfErr result (λ fault. fault ≡ CodecFault.BadBytes) }
{
    let (key, rest) = key_at(version, bytes)?;
    let (_, rest) = value_at(version, rest)?;
    Ok((key, rest))
}

/// So many pairs after one with this key.
fn check_rising<'a>(
    version: u16,
    count: u16,
    key: &'a [u8],
    bytes: &'a [u8],
) -> Result<&'a [u8], CodecFault>
    ensures gives { Gives (λ x. x.now) result (rising_after version count key.now bytes.now) }
    ensures bad { IfErr result (λ fault. fault ≡ CodecFault.BadBytes) }
{
    let mut before = key;
    let mut rest = bytes;
    for _i in 0..count {
        let (next, others) = check_pair(version, rest)?;
        if !is_before(before, next) {
            return Err(CodecFault::BadBytes);
        }
        before = next;
        rest = others;
    }
    Ok(rest)
}

/// A count of at most `m`, and that many pairs in the order of their keys: the first key.
fn check_pairs(version: u16, m: u16, bytes: &[u8]) -> Result<(Option<&[u8]>, &[u8]), CodecFault>
    ensures gives { Gives (λ x. (option_map (λ k. k.now) x.0, x.1.now)) result
        (led_by (pairs_at version m bytes.now)) }
    ensures bad { IfErr result (λ fault. fault ≡ CodecFault.BadBytes) }
{
    let (count, rest) = two_of(bytes)?;
    if m < count {
        return Err(CodecFault::BadBytes);
    }
    if count == 0 {
        return Ok((None, rest));
    }
    let (first, rest) = check_pair(version, rest)?;
    let rest = check_rising(version, count - 1, first, rest)?;
    Ok((Some(first), rest))
}

#[tactic(auto, unfolding(crate::specs::Reading::base_at))]
fn check_base(version: u16, m: u16, bytes: &[u8]) -> Result<&[u8], CodecFault>
    ensures gives { Gives (λ x. x.now) result (past (base_at version m bytes.now)) }
    ensures bad { IfErr result (λ fault. fault ≡ CodecFault.BadBytes) }
{
    let (_, rest) = page_of(bytes)?;
    let (_, rest) = low_at(version, rest)?;
    let (_, rest) = check_pairs(version, m, rest)?;
    Ok(rest)
}

/// The number of a Split's new page.
#[tactic(auto, unfolding(crate::specs::Reading::upper_at))]
fn check_upper(version: u16, m: u16, bytes: &[u8]) -> Result<(u32, &[u8]), CodecFault>
    ensures gives { Gives (λ x. (x.0, x.1.now)) result (paged (upper_at version m bytes.now)) }
    ensures bad { IfErr result (λ fault. fault ≡ CodecFault.BadBytes) }
{
    let (low, rest) = low_at(version, bytes)?;
    let (page, rest) = four_of(rest)?;
    let (first, rest) = check_pairs(version, m, rest)?;
    if page < 2 {
        return Err(CodecFault::BadBytes);
    }
    match first {
        None => Err(CodecFault::BadBytes),
        Some(key) => {
            if key == low {
                Ok((page, rest))
            } else {
                Err(CodecFault::BadBytes)
            }
        }
    }
}

#[tactic(auto, unfolding(crate::specs::Reading::split_at))]
fn check_split(version: u16, m: u16, bytes: &[u8]) -> Result<&[u8], CodecFault>
    ensures gives { Gives (λ x. x.now) result (past (split_at version m bytes.now)) }
    ensures bad { IfErr result (λ fault. fault ≡ CodecFault.BadBytes) }
{
    let (page, rest) = page_of(bytes)?;
    let (_, rest) = place_of(rest)?;
    let (made, rest) = check_upper(version, m, rest)?;
    if made == page {
        return Err(CodecFault::BadBytes);
    }
    Ok(rest)
}

#[tactic(auto, unfolding(crate::specs::Reading::block_at))]
fn check_block(version: u16, m: u16, bytes: &[u8]) -> Result<&[u8], CodecFault>
    ensures gives { Gives (λ x. x.now) result (past (block_at version m bytes.now)) }
    ensures bad { IfErr result (λ fault. fault ≡ CodecFault.BadBytes) }
{
    match bytes {
        [] => Err(CodecFault::BadBytes),
        [tag, rest @ ..] => {
            if *tag == 1 {
                check_delta(version, rest)
            } else if *tag == 2 {
                check_base(version, m, rest)
            } else if *tag == 3 {
                check_split(version, m, rest)
            } else {
                Err(CodecFault::BadBytes)
            }
        }
    }
}

fn check_blocks(version: u16, m: u16, count: u32, bytes: &[u8]) -> Result<&[u8], CodecFault>
    ensures gives { Gives (λ x. x.now) result (past (many_at (block_at version m) count bytes.now)) }
    ensures bad { IfErr result (λ fault. fault ≡ CodecFault.BadBytes) }
{
    let mut rest = bytes;
    for _i in 0..count {
        rest = check_block(version, m, rest)?;
    }
    Ok(rest)
}

#[tactic(auto, unfolding(crate::specs::Reading::front_at))]
fn check_front(version: u16, m: u16, limit: u32, bytes: &[u8]) -> Result<FrameSeen, CodecFault>
    ensures gives { Gives (λ x. x) result (option_map seen_of (front_at version m limit bytes.now)) }
    ensures bad { IfErr result (λ fault. fault ≡ CodecFault.BadBytes) }
{
    if bytes.len() < HEAD_LEN {
        if begins_as(bytes, &frame_word(version)) {
            return Ok(FrameSeen::Tail);
        }
        return Err(CodecFault::BadBytes);
    }
    let (head, rest) = head_of(version, limit, bytes)?;
    let body = head.body as usize;
    if rest.len() < body {
        return Ok(FrameSeen::Tail);
    }
    let after = check_blocks(version, m, head.blocks, &rest[..body])?;
    if !after.is_empty() {
        return Err(CodecFault::BadBytes);
    }
    Ok(FrameSeen::Whole(head.number, body + HEAD_LEN))
}

/// `check_frame` with the header's numbers by value, whose ranges the proof needs.
fn check_within(version: u16, m: u16, limit: u32, bytes: &[u8]) -> Result<FrameSeen, CodecFault>
    ensures found { IfOk result (IsSeen version m limit bytes.now) }
    ensures only { (read : FrameRead) → IsFront version m limit bytes.now read
        → result ≡ Ok (seen_of read) }
    ensures bad { IfErr result (λ fault. fault ≡ CodecFault.BadBytes) }
{
    check_front(version, m, limit, bytes)
}

/// What `read_frame` would find, in short: no memory is taken, and time is linear in the bytes.
/// `BadBytes` is the only error, and given exactly if `read_frame` would give it.
pub fn check_frame(bytes: &[u8], header: &Header) -> Result<FrameSeen, CodecFault>
    // What is said stands there.
    ensures found { IfOk result (IsSeen header.now.version header.now.m header.now.f bytes.now) }

    // What stands there is said.
    ensures only { (read : FrameRead)
        → IsFront header.now.version header.now.m header.now.f bytes.now read
        → result ≡ Ok (seen_of read) }
    ensures bad { IfErr result (λ fault. fault ≡ CodecFault.BadBytes) }
{
    check_within(header.version, header.m, header.f, bytes)
}
