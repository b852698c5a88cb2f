//! The spelling of blocks, headers and frame heads. A block's length is known before it is written,
//! so there is one growth at most, and if that is refused, nothing was written.

ghost use Rattle.std.specs.Prelude.{◌≡◌, ◌≤◌, ◌<◌, ◌+◌, ◌*◌, ◌^◌, ◌++◌, length, OnOk, OnErr};
ghost use Rattle.std.specs.List.{flat_map};
ghost use Rattle.bw_codec.specs.Bytes.{number_bytes, text, value_bytes};
ghost use Rattle.bw_record.specs.Version.{latest};
ghost use Rattle.bw_record.specs.declared.record.Record.TheVariants.{Put, Del};
ghost use Rattle.bw_codec.specs.Grammar.{op_bytes, pair_bytes, place_bytes, pairs_bytes, ops_bytes, delta_front, upper_bytes, block_bytes, head_bytes, header_bytes, IsBase, IsBlock};
ghost use Rattle.bw_codec.specs.Writing.{HasRoom, Adds};

use crate::head::Header;
use crate::limits::{HEAD_LEN, HEADER_LEN};
use bw_record::{Block, Leaf, Packed, Pair, Place, Record};
use byteorder::{ByteOrder, LittleEndian};
use std::alloc::AllocError;

// ---- lengths

fn pairs_length(pairs: &[Pair]) -> usize
    requires { length pairs.now < 2 ^ 16 }
    ensures value { result ≡ length (flat_map pair_bytes pairs.now) }
    ensures small { result ≤ 643 * length pairs.now }
{
    let mut total = 0;
    for pair in pairs {
        total += 3 + pair.key().len() + pair.value().len();
    }
    total
}

/// How many bytes a record is spelled in.
pub fn record_length(item: &Record) -> usize
    ensures value { result ≡ length (op_bytes item.now) }
    ensures small { result ≤ 644 }
{
    match item {
        Record::Put(key, value) => 4 + key.as_slice().len() + value.as_slice().len(),
        Record::Del(key) => 2 + key.as_slice().len(),
    }
}

fn op_length(op: &Packed) -> usize
    ensures value { result ≡ length (op_bytes op.now) }
    ensures small { result ≤ 644 }
{
    match op.pair() {
        Ok(pair) => 4 + pair.key().len() + pair.value().len(),
        Err(pair) => 2 + pair.key().len(),
    }
}

/// How many bytes records are spelled in. Linear in their number.
pub fn ops_length(ops: &[Packed]) -> usize
    requires { length ops.now < 2 ^ 16 }
    ensures value { result ≡ length (flat_map op_bytes ops.now) }
    ensures small { result ≤ 644 * length ops.now }
{
    let mut total = 0;
    for op in ops {
        total += op_length(op);
    }
    total
}

// ---- writing into room that is there

fn push(out: &mut Vec<u8>, bytes: &[u8])
    requires { HasRoom out.old (length bytes.now) }
    ensures { Adds out.old out.new bytes.now }
{
    match out.extend_from_slice(bytes) {
        Ok(()) => {}
        Err(_) => unreachable!(),
    }
}

#[tactic(auto, unfolding(crate::specs::Bytes::number_bytes))]
fn push_two(out: &mut Vec<u8>, number: u16)
    requires { HasRoom out.old 2 }
    ensures { Adds out.old out.new (number_bytes 2 number) }
{
    let mut cells = [0u8; 2];
    LittleEndian::write_u16(&mut cells, number);
    push(out, &cells);
}

#[tactic(auto, unfolding(crate::specs::Bytes::number_bytes))]
fn push_four(out: &mut Vec<u8>, number: u32)
    requires { HasRoom out.old 4 }
    ensures { Adds out.old out.new (number_bytes 4 number) }
{
    let mut cells = [0u8; 4];
    LittleEndian::write_u32(&mut cells, number);
    push(out, &cells);
}

#[tactic(auto, unfolding(crate::specs::Bytes::number_bytes))]
fn push_eight(out: &mut Vec<u8>, number: u64)
    requires { HasRoom out.old 8 }
    ensures { Adds out.old out.new (number_bytes 8 number) }
{
    let mut cells = [0u8; 8];
    LittleEndian::write_u64(&mut cells, number);
    push(out, &cells);
}

fn push_text(out: &mut Vec<u8>, bytes: &[u8])
    requires room { HasRoom out.old (1 + length bytes.now) }
    requires short { length bytes.now ≤ 128 }
    ensures { Adds out.old out.new (text bytes.now) }
{
    push(out, &[bytes.len() as u8]);
    push(out, bytes);
}

fn push_value(out: &mut Vec<u8>, bytes: &[u8])
    requires room { HasRoom out.old (2 + length bytes.now) }
    requires short { length bytes.now ≤ 512 }
    ensures { Adds out.old out.new (value_bytes latest bytes.now) }
{
    push_two(out, bytes.len() as u16);
    push(out, bytes);
}

fn push_place(out: &mut Vec<u8>, place: &Place)
    requires { HasRoom out.old 12 }
    ensures { Adds out.old out.new (place_bytes place.now) }
{
    push_eight(out, place.frame);
    push_four(out, place.index);
}

fn push_pair(out: &mut Vec<u8>, pair: &Pair)
    requires { HasRoom out.old (length (pair_bytes pair.now)) }
    ensures { Adds out.old out.new (pair_bytes pair.now) }
{
    push_text(out, pair.key());
    push_value(out, pair.value());
}

fn push_pairs(out: &mut Vec<u8>, pairs: &[Pair])
    requires room { HasRoom out.old (length (pairs_bytes pairs.now)) }
    requires few { length pairs.now < 2 ^ 16 }
    ensures { Adds out.old out.new (pairs_bytes pairs.now) }
{
    push_two(out, pairs.len() as u16);
    for pair in pairs {
        push_pair(out, pair);
    }
}

// A put of this key and this value.
fn push_put(out: &mut Vec<u8>, key: &[u8], value: &[u8])
    requires room { HasRoom out.old (4 + length key.now + length value.now) }
    requires key { length key.now ≤ 128 }
    requires value { length value.now ≤ 512 }
    ensures { Adds out.old out.new (op_bytes (Put key.now value.now)) }
{
    push(out, &[1]);
    push_text(out, key);
    push_value(out, value);
}

// A delete of this key.
fn push_del(out: &mut Vec<u8>, key: &[u8])
    requires room { HasRoom out.old (2 + length key.now) }
    requires key { length key.now ≤ 128 }
    ensures { Adds out.old out.new (op_bytes (Del key.now)) }
{
    push(out, &[2]);
    push_text(out, key);
}

fn push_op(out: &mut Vec<u8>, op: &Packed)
    requires { HasRoom out.old (length (op_bytes op.now)) }
    ensures { Adds out.old out.new (op_bytes op.now) }
{
    match op.pair() {
        Ok(pair) => push_put(out, pair.key(), pair.value()),
        Err(pair) => push_del(out, pair.key()),
    }
}

/// Appends the bytes of records, without their count, if there is room for them, as `ops_length`
/// says. No memory is taken.
pub fn write_ops(ops: &[Packed], out: &mut Vec<u8>)
    requires { HasRoom out.old (length (flat_map op_bytes ops.now)) }
    ensures { Adds out.old out.new (flat_map op_bytes ops.now) }
{
    for op in ops {
        push_op(out, op);
    }
}

fn push_ops(out: &mut Vec<u8>, ops: &[Packed])
    requires room { HasRoom out.old (length (ops_bytes ops.now)) }
    requires few { length ops.now < 2 ^ 16 }
    ensures { Adds out.old out.new (ops_bytes ops.now) }
{
    push_two(out, ops.len() as u16);
    write_ops(ops, out);
}

// ---- heads

/// The 24 bytes of a segment header of the latest format. The numbers are not checked: see
/// `Header::is_lawful`. No memory is taken.
#[tactic(auto, unfolding(crate::specs::Bytes::number_bytes))]
pub fn header_cells(number: u64, m: u16, f: u32) -> [u8; HEADER_LEN]
    ensures { result ≡ header_bytes (record { version = latest; number = number; m = m; f = f }) }
{
    // From the back, so that what stands after each number is known when it is written.
    let mut cells = [0u8; HEADER_LEN];
    LittleEndian::write_u32(&mut cells[20..], f);
    LittleEndian::write_u16(&mut cells[18..], 0);
    LittleEndian::write_u16(&mut cells[16..], m);
    LittleEndian::write_u64(&mut cells[8..], number);
    cells[..8].copy_from_slice(b"BWLOGSG2");
    cells
}

/// The first 20 bytes of a frame of the latest format. The numbers are not checked: see
/// `Head::is_lawful`. No memory is taken.
#[tactic(auto, unfolding(crate::specs::Bytes::number_bytes))]
pub fn frame_cells(number: u64, body: u32, blocks: u32) -> [u8; HEAD_LEN]
    ensures { result ≡ head_bytes number body blocks }
{
    let mut cells = [0u8; HEAD_LEN];
    LittleEndian::write_u32(&mut cells[16..], blocks);
    LittleEndian::write_u32(&mut cells[12..], body);
    LittleEndian::write_u64(&mut cells[4..], number);
    cells[..4].copy_from_slice(b"FRM2");
    cells
}

/// Appends the 24 bytes of a segment header of the latest format. The numbers are not checked. A
/// refused growth is the only error, and changes nothing.
pub fn encode_header(header: &Header, out: &mut Vec<u8>) -> Result<(), AllocError>
    requires { header.now.version ≡ latest }
    ensures ok { OnOk result (out.new.items ≡ out.old.items ++ header_bytes header.now) }
    ensures err { OnErr result (out.new.items ≡ out.old.items) }
{
    out.extend_from_slice(&header_cells(header.number, header.m, header.f))
}

/// Appends a frame's first 20 bytes: its number, the length of its blocks in bytes, and their
/// count. The numbers are not checked. A refused growth is the only error, and changes nothing.
pub fn encode_frame_head(
    number: u64,
    body: u32,
    blocks: u32,
    out: &mut Vec<u8>,
) -> Result<(), AllocError>
    ensures ok { OnOk result (out.new.items ≡ out.old.items ++ head_bytes number body blocks) }
    ensures err { OnErr result (out.new.items ≡ out.old.items) }
{
    out.extend_from_slice(&frame_cells(number, body, blocks))
}

// ---- blocks

/// How many bytes a block, lawful for 32 pairs a page, is spelled in. Linear in its pairs or
/// records, whatever their lengths.
pub fn block_length(block: &Block) -> usize
    requires { IsBlock 32 block.now }
    ensures value { result ≡ length (block_bytes block.now) }
    ensures small { result < 2 ^ 26 }
{
    match block {
        Block::Delta { ops, .. } => 19 + ops_length(ops.as_slice()),
        Block::Base(leaf) => 8 + leaf.low.as_slice().len() + pairs_length(leaf.pairs.as_slice()),
        Block::Split { upper, .. } => {
            24 + upper.low.as_slice().len() + pairs_length(upper.pairs.as_slice())
        }
    }
}

/// Appends the front of a Delta, all but its records, of which there are so many. No memory is
/// taken.
pub fn write_delta_head(page: u32, back: &Place, ops: u16, out: &mut Vec<u8>)
    requires { HasRoom out.old 19 }
    ensures { Adds out.old out.new (delta_front page back.now ops) }
{
    push(out, &[1]);
    push_four(out, page);
    push_place(out, back);
    push_two(out, ops);
}

fn push_upper(out: &mut Vec<u8>, upper: &Leaf)
    requires room { HasRoom out.old (length (upper_bytes upper.now)) }
    requires low { length upper.now.low ≤ 128 }
    requires few { length upper.now.pairs < 2 ^ 16 }
    ensures { Adds out.old out.new (upper_bytes upper.now) }
{
    push_text(out, upper.low.as_slice());
    push_four(out, upper.page);
    push_pairs(out, upper.pairs.as_slice());
}

/// Appends a block's bytes if there is room for them, as `block_length` says. No memory is taken.
pub fn write_block(block: &Block, out: &mut Vec<u8>)
    requires lawful { IsBlock 32 block.now }
    requires room { HasRoom out.old (length (block_bytes block.now)) }
    ensures { Adds out.old out.new (block_bytes block.now) }
{
    match block {
        Block::Delta { page, back, ops } => {
            push(out, &[1]);
            push_four(out, *page);
            push_place(out, back);
            push_ops(out, ops.as_slice());
        }
        Block::Base(leaf) => {
            push(out, &[2]);
            push_four(out, leaf.page);
            push_text(out, leaf.low.as_slice());
            push_pairs(out, leaf.pairs.as_slice());
        }
        Block::Split { page, back, upper } => {
            push(out, &[3]);
            push_four(out, *page);
            push_place(out, back);
            push_upper(out, upper);
        }
    }
}

/// Appends the bytes of a block that is lawful for 32 pairs a page. A refused growth is the only
/// error, and changes nothing.
pub fn encode_block(block: &Block, out: &mut Vec<u8>) -> Result<(), AllocError>
    requires { IsBlock 32 block.now }
    ensures ok { OnOk result (out.new.items ≡ out.old.items ++ block_bytes block.now) }
    ensures err { OnErr result (out.new.items ≡ out.old.items) }
{
    out.reserve(block_length(block))?;
    write_block(block, out);
    Ok(())
}

/// How many bytes the Base of a leaf, lawful for 32 pairs a page, is spelled in. Linear in its
/// pairs, whatever their lengths.
pub fn base_length(leaf: &Leaf) -> usize
    requires { IsBase 32 leaf.now }
    ensures value { result ≡ length (block_bytes (Block.Base leaf.now)) }
    ensures small { result < 2 ^ 24 }
{
    8 + leaf.low.as_slice().len() + pairs_length(leaf.pairs.as_slice())
}
