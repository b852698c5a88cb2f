//! Blocks whose records and pairs stay where they lie: what stands before them is read, and each of
//! them is lent when it is asked for. No memory is taken.
//!
//! Whoever reads so knows that the bytes are lawful: neither the order of keys nor the limits of a
//! page are looked at again.

ghost use Rattle.std.specs.Prelude.{◌≡◌, ◌≤◌, length, IfOk, IfErr};
ghost use Rattle.std.specs.Option.{option_map};
ghost use Rattle.bw_codec.specs.declared.head.FrameRead.{FrameRead};
ghost use Rattle.bw_codec.specs.Grammar.{IsFront};
ghost use Rattle.bw_codec.specs.Checking.{seen_of};
ghost use Rattle.bw_codec.specs.Reading.{Gives, op_at, pair_at};
ghost use Rattle.bw_codec.specs.Lent.{delta_parts, base_parts, split_parts, record_of, frame_found};

use crate::check::FrameSeen;
use crate::decoder::head_of;
use crate::fault::CodecFault;
use crate::head::Header;
use crate::limits::HEAD_LEN;
use crate::parts::{four_of, key_at, low_at, page_of, place_of, two_of, value_at};
use bw_record::Place;

/// One record: its key, its value if it puts one, and what follows it.
#[tactic(auto, unfolding(crate::specs::Reading::op_at))]
pub fn lent_op(version: u16, bytes: &[u8]) -> Result<(&[u8], Option<&[u8]>, &[u8]), CodecFault>
    ensures gives { Gives (λ x. (record_of x.0.now (option_map (λ v. v.now) x.1), x.2.now)) result
        (op_at version bytes.now) }
    ensures bad { IfErr result (λ fault. fault ≡ CodecFault.BadBytes) }
{
    match bytes {
        [] => Err(CodecFault::BadBytes),
        [tag, rest @ ..] => {
            if *tag == 1 {
                let (key, rest) = key_at(version, rest)?;
                let (value, rest) = value_at(version, rest)?;
                Ok((key, Some(value), rest))
            } else if *tag == 2 {
                let (key, rest) = key_at(version, rest)?;
                Ok((key, None, rest))
            } else {
                Err(CodecFault::BadBytes)
            }
        }
    }
}

/// A key, its value, and what follows them.
#[tactic(auto, unfolding(crate::specs::Reading::pair_at))]
pub fn lent_pair(version: u16, bytes: &[u8]) -> Result<(&[u8], &[u8], &[u8]), CodecFault>
    ensures gives { Gives (λ x. ((x.0.now, x.1.now), x.2.now)) result (pair_at version bytes.now) }
    ensures bad { IfErr result (λ fault. fault ≡ CodecFault.BadBytes) }
{
    let (key, rest) = key_at(version, bytes)?;
    let (value, rest) = value_at(version, rest)?;
    Ok((key, value, rest))
}

/// What stands before the records of a Delta, after its tag: its page, where the block before it
/// stands, how many records there are; and what follows.
#[tactic(auto, unfolding(crate::specs::Lent::delta_parts))]
pub fn lent_delta(bytes: &[u8]) -> Result<(u32, Place, u16, &[u8]), CodecFault>
    ensures gives { Gives (λ x. ((x.0, x.1, x.2), x.3.now)) result (delta_parts bytes.now) }
    ensures bad { IfErr result (λ fault. fault ≡ CodecFault.BadBytes) }
{
    let (page, rest) = page_of(bytes)?;
    let (back, rest) = place_of(rest)?;
    let (count, rest) = two_of(rest)?;
    Ok((page, back, count, rest))
}

/// What stands before the pairs of a Base, after its tag: its page, its low key, how many pairs
/// there are; and what follows.
#[tactic(auto, unfolding(crate::specs::Lent::base_parts))]
pub fn lent_base(version: u16, bytes: &[u8]) -> Result<(u32, &[u8], u16, &[u8]), CodecFault>
    ensures gives { Gives (λ x. ((x.0, x.1.now, x.2), x.3.now)) result
        (base_parts version bytes.now) }
    ensures bad { IfErr result (λ fault. fault ≡ CodecFault.BadBytes) }
{
    let (page, rest) = page_of(bytes)?;
    let (low, rest) = low_at(version, rest)?;
    let (count, rest) = two_of(rest)?;
    Ok((page, low, count, rest))
}

/// What stands before the pairs of a Split, after its tag: the page that it splits, where the block
/// before it stands, the new page's low key and number, how many pairs there are; and what follows.
#[tactic(auto, unfolding(crate::specs::Lent::split_parts))]
pub fn lent_split(
    version: u16,
    bytes: &[u8],
) -> Result<(u32, Place, &[u8], u32, u16, &[u8]), CodecFault>
    ensures gives { Gives (λ x. ((x.0, x.1, x.2.now, x.3, x.4), x.5.now)) result
        (split_parts version bytes.now) }
    ensures bad { IfErr result (λ fault. fault ≡ CodecFault.BadBytes) }
{
    let (page, rest) = page_of(bytes)?;
    let (back, rest) = place_of(rest)?;
    let (low, rest) = low_at(version, rest)?;
    let (made, rest) = four_of(rest)?;
    let (count, rest) = two_of(rest)?;
    Ok((page, back, low, made, count, rest))
}

#[tactic(auto, unfolding(crate::specs::Lent::frame_found))]
fn found_front(version: u16, limit: u32, bytes: &[u8]) -> FrameSeen
    ensures { result ≡ frame_found version limit bytes.now }
{
    if bytes.len() < HEAD_LEN {
        return FrameSeen::Tail;
    }
    match head_of(version, limit, bytes) {
        Ok((head, rest)) => {
            let body = head.body as usize;
            if rest.len() < body {
                FrameSeen::Tail
            } else {
                FrameSeen::Whole(head.number, body + HEAD_LEN)
            }
        }
        Err(_) => FrameSeen::Tail,
    }
}

/// `find_frame` with the header's numbers by value, whose ranges the proof needs.
fn find_within(version: u16, _m: u16, limit: u32, bytes: &[u8]) -> FrameSeen
    ensures { (read : FrameRead) → IsFront version _m limit bytes.now read
        → result ≡ seen_of read }
{
    found_front(version, limit, bytes)
}

/// What `check_frame` says of bytes that are known to be lawful: only the head is read.
pub fn find_frame(bytes: &[u8], header: &Header) -> FrameSeen
    ensures { (read : FrameRead)
        → IsFront header.now.version header.now.m header.now.f bytes.now read
        → result ≡ seen_of read }
{
    find_within(header.version, header.m, header.f, bytes)
}
