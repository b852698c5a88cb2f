//! What is said of a block without its records and pairs: a reader that looks for the blocks of one
//! page steps over all others.

ghost use Rattle.std.specs.Prelude.{◌≡◌, ◌^◌, ◌<◌, ◌++◌, ℕ, List, Some, IfErr};
ghost use Rattle.bw_codec.specs.Grammar.{block_bytes_in, IsBlockIn};
ghost use Rattle.bw_codec.specs.Reading.{Gives};
ghost use Rattle.bw_record.specs.declared.block.Block.{Block};
ghost use Rattle.bw_codec.specs.Outline.{outline_of, outline_touches};
ghost use Rattle.bw_codec.specs.Skipping.{run_after, value_after, pair_after, op_after, many_after, counted_after, delta_after, base_after, upper_after, split_after, block_after};

use crate::fault::CodecFault;
use crate::parts::{four_of, page_of, place_of, run_of, size_of, two_of};
use byteorder::{ByteOrder, LittleEndian};

/// A block in short.
#[derive(Debug, Clone, Copy, PartialEq, Eq)]
pub struct Outline {
    /// How many bytes spell the block.
    pub len: usize,
    /// The page that it changes, sets or splits.
    pub page: u32,
    /// The page that it makes, if it is a Split.
    pub made: Option<u32>,
}

impl Outline {
    /// The outline of the block at the front of bytes, in a segment of this format. Of bytes that
    /// begin with no lawful block it may answer anything or `None`. No memory is taken, and no
    /// record or pair is looked at but for its lengths.
    #[inline(always)]
    pub fn read(version: u16, bytes: &[u8]) -> Option<Outline>
        ensures { (m : ℕ) (block : Block) (rest : List ℕ) → m < 2 ^ 16
            → IsBlockIn version m block → bytes.now ≡ block_bytes_in version block ++ rest
            → result ≡ Some (outline_of version block) }
    {
        match skip_block(version, bytes) {
            Ok(((page, made), rest)) => Some(Outline {
                len: bytes.len().saturating_sub(rest.len()),
                page,
                made,
            }),
            Err(_) => None,
        }
    }

    /// Whether a block with this outline says anything of a page.
    pub fn touches(&self, page: u32) -> bool
        ensures { result ≡ outline_touches page self.now }
    {
        self.page == page
            || match self.made {
                None => false,
                Some(made) => made == page,
            }
    }
}

/// The bytes after a run of bytes.
fn skip_run(bytes: &[u8]) -> Result<&[u8], CodecFault>
    ensures gives { Gives (λ x. x.now) result (run_after bytes.now) }
    ensures bad { IfErr result (λ fault. fault ≡ CodecFault.BadBytes) }
{
    let (_, rest) = run_of(bytes)?;
    Ok(rest)
}

/// The bytes after a value.
#[tactic(auto, unfolding(crate::specs::Skipping::value_after))]
fn skip_value(version: u16, bytes: &[u8]) -> Result<&[u8], CodecFault>
    ensures gives { Gives (λ x. x.now) result (value_after version bytes.now) }
    ensures bad { IfErr result (λ fault. fault ≡ CodecFault.BadBytes) }
{
    let (size, rest) = size_of(version, bytes)?;
    let size = size as usize;
    if rest.len() < size {
        return Err(CodecFault::BadBytes);
    }
    Ok(&rest[size..])
}

#[tactic(auto, unfolding(crate::specs::Skipping::pair_after))]
fn skip_pair(version: u16, bytes: &[u8]) -> Result<&[u8], CodecFault>
    ensures gives { Gives (λ x. x.now) result (pair_after version bytes.now) }
    ensures bad { IfErr result (λ fault. fault ≡ CodecFault.BadBytes) }
{
    skip_value(version, skip_run(bytes)?)
}

#[tactic(auto, unfolding(crate::specs::Skipping::op_after))]
fn skip_op(version: u16, bytes: &[u8]) -> Result<&[u8], CodecFault>
    ensures gives { Gives (λ x. x.now) result (op_after version bytes.now) }
    ensures bad { IfErr result (λ fault. fault ≡ CodecFault.BadBytes) }
{
    match bytes {
        [] => Err(CodecFault::BadBytes),
        [tag, rest @ ..] => {
            let rest = skip_run(rest)?;
            if *tag == 1 {
                skip_value(version, rest)
            } else {
                Ok(rest)
            }
        }
    }
}

fn skip_pairs(version: u16, count: u16, bytes: &[u8]) -> Result<&[u8], CodecFault>
    ensures gives { Gives (λ x. x.now) result (many_after (pair_after version) count bytes.now) }
    ensures bad { IfErr result (λ fault. fault ≡ CodecFault.BadBytes) }
{
    let mut rest = bytes;
    for _i in 0..count {
        rest = skip_pair(version, rest)?;
    }
    Ok(rest)
}

fn skip_ops(version: u16, count: u16, bytes: &[u8]) -> Result<&[u8], CodecFault>
    ensures gives { Gives (λ x. x.now) result (many_after (op_after version) count bytes.now) }
    ensures bad { IfErr result (λ fault. fault ≡ CodecFault.BadBytes) }
{
    let mut rest = bytes;
    for _i in 0..count {
        rest = skip_op(version, rest)?;
    }
    Ok(rest)
}

#[tactic(auto, unfolding(crate::specs::Skipping::counted_after))]
fn after_pairs(version: u16, bytes: &[u8]) -> Result<&[u8], CodecFault>
    ensures gives { Gives (λ x. x.now) result (counted_after (pair_after version) bytes.now) }
    ensures bad { IfErr result (λ fault. fault ≡ CodecFault.BadBytes) }
{
    let (count, rest) = two_of(bytes)?;
    skip_pairs(version, count, rest)
}

#[tactic(auto, unfolding(crate::specs::Skipping::counted_after))]
fn after_ops(version: u16, bytes: &[u8]) -> Result<&[u8], CodecFault>
    ensures gives { Gives (λ x. x.now) result (counted_after (op_after version) bytes.now) }
    ensures bad { IfErr result (λ fault. fault ≡ CodecFault.BadBytes) }
{
    let (count, rest) = two_of(bytes)?;
    skip_ops(version, count, rest)
}

#[tactic(auto, unfolding(crate::specs::Skipping::delta_after))]
fn skip_delta(version: u16, bytes: &[u8]) -> Result<((u32, Option<u32>), &[u8]), CodecFault>
    ensures gives { Gives (λ x. (x.0, x.1.now)) result (delta_after version bytes.now) }
    ensures bad { IfErr result (λ fault. fault ≡ CodecFault.BadBytes) }
{
    // One test for the page and the link back, since each walk over a page takes this path.
    if bytes.len() < 16 {
        return Err(CodecFault::BadBytes);
    }
    let page = LittleEndian::read_u32(bytes);
    let rest = after_ops(version, &bytes[16..])?;
    Ok(((page, None), rest))
}

#[tactic(auto, unfolding(crate::specs::Skipping::base_after))]
fn skip_base(version: u16, bytes: &[u8]) -> Result<((u32, Option<u32>), &[u8]), CodecFault>
    ensures gives { Gives (λ x. (x.0, x.1.now)) result (base_after version bytes.now) }
    ensures bad { IfErr result (λ fault. fault ≡ CodecFault.BadBytes) }
{
    let (page, rest) = page_of(bytes)?;
    let rest = skip_run(rest)?;
    let rest = after_pairs(version, rest)?;
    Ok(((page, None), rest))
}

#[tactic(auto, unfolding(crate::specs::Skipping::upper_after))]
fn skip_upper(version: u16, bytes: &[u8]) -> Result<(u32, &[u8]), CodecFault>
    ensures gives { Gives (λ x. (x.0, x.1.now)) result (upper_after version bytes.now) }
    ensures bad { IfErr result (λ fault. fault ≡ CodecFault.BadBytes) }
{
    let rest = skip_run(bytes)?;
    let (page, rest) = four_of(rest)?;
    let rest = after_pairs(version, rest)?;
    Ok((page, rest))
}

#[tactic(auto, unfolding(crate::specs::Skipping::split_after))]
fn skip_split(version: u16, bytes: &[u8]) -> Result<((u32, Option<u32>), &[u8]), CodecFault>
    ensures gives { Gives (λ x. (x.0, x.1.now)) result (split_after version bytes.now) }
    ensures bad { IfErr result (λ fault. fault ≡ CodecFault.BadBytes) }
{
    let (page, rest) = page_of(bytes)?;
    let (_, rest) = place_of(rest)?;
    let (made, rest) = skip_upper(version, rest)?;
    Ok(((page, Some(made)), rest))
}

#[inline(always)]
#[tactic(auto, unfolding(crate::specs::Skipping::block_after))]
fn skip_block(version: u16, bytes: &[u8]) -> Result<((u32, Option<u32>), &[u8]), CodecFault>
    ensures gives { Gives (λ x. (x.0, x.1.now)) result (block_after version bytes.now) }
    ensures bad { IfErr result (λ fault. fault ≡ CodecFault.BadBytes) }
{
    match bytes {
        [] => Err(CodecFault::BadBytes),
        [tag, rest @ ..] => {
            if *tag == 1 {
                skip_delta(version, rest)
            } else if *tag == 2 {
                skip_base(version, rest)
            } else if *tag == 3 {
                skip_split(version, rest)
            } else {
                Err(CodecFault::BadBytes)
            }
        }
    }
}
