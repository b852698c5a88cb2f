// A log of one page: each call on it leaves one page, which is known.

ghost use Rattle.std.specs.Prelude.{◌≡◌, ◌≤◌, ◌∷◌, [], true, IfSome, OnOk, OnSome};
ghost use Rattle.bw_codec.specs.Grammar.{IsBlock};
ghost use Rattle.bw_record.specs.declared.block.Block.TheVariants.{Delta};
ghost use Rattle.bw_record.specs.declared.record.Record.TheVariants.{Put};
ghost use Rattle.bw_buffer.specs.Filling.{frame_of};
ghost use Rattle.bw_log.specs.Appends.{MayFollow, AfterAppend};
ghost use Rattle.bw_log.specs.Views.{seen_by};
ghost use Rattle.test_boxes.specs.Views.{seen, IsSound};
ghost use Rattle.log_tests.specs.OnePage.{Counts, HoldsOne, Opens, first_with, put_after, put_of};

use super::{Yard, sealed, taken_out, yard_of};
use bw_buffer::Buffer;
use bw_codec::{Block, Key, Leaf, Ops, Packed, Place, Record, Value};
use bw_device::Segment;
use bw_log::{Log, LogFault};
use bw_page::{change, count_after, empty_page};
use std::alloc::Global;
use test_boxes::Fuse;

/// A put of this value at this key.
pub(crate) fn record_of(key: &[u8], value: &[u8]) -> Option<Record>
    ensures { IfSome result (λ r. r ≡ Put key.now value.now) }
{
    let Ok(key) = Key::new(key) else {
        return None;
    };
    let Ok(value) = Value::new(value) else {
        return None;
    };
    Some(Record::Put(key, value))
}

/// A put of this value at this key, as a Delta has it.
pub(crate) fn packed_of(alloc: Global, key: &[u8], value: &[u8]) -> Option<Packed>
    ensures { IfSome result (λ r. r ≡ Put key.now value.now) }
{
    Packed::of(alloc, &record_of(key, value)?).ok()
}

// A put of one byte at one byte.
fn one_put(key: u8, value: u8) -> Option<Record>
    ensures { IfSome result (λ r. r ≡ put_of key value) }
{
    record_of(&[key], &[value])
}

pub(crate) fn ops_of(alloc: Global, key: u8, value: u8) -> Option<Ops>
    ensures { IfSome result (λ ops. ops ≡ put_of key value ∷ []) }
{
    Ops::one(alloc, &one_put(key, value)?).ok()
}

// A sealed frame of one Delta of page 1.
pub(crate) fn put_frame(
    alloc: Global,
    number: u64,
    back: Place,
    key: u8,
    value: u8,
) -> Option<Buffer>
    requires number { 1 ≤ number }
    requires back { 1 ≤ back.frame }
    ensures made { IfSome result (λ b. b ≡ record {
      frame = number;
      limit = 65536;
      blocks = put_after back key value ∷ [];
      is_sealed = true;
    }) }
{
    let ops = ops_of(alloc, key, value)?;
    let block = Block::Delta { page: 1, back, ops };
    sealed(alloc, number, &[block])
}

/// The first frame: page 1 empty, then with these changes.
pub(crate) fn first_frame(alloc: Global, ops: Ops) -> Option<Buffer>
    requires { IsBlock 32 (Delta 1 (record { frame = 1; index = 0 }) ops) }
    ensures { IfSome result (λ b.
        b ≡ record { frame = 1; limit = 65536; blocks = first_with ops; is_sealed = true }) }
{
    let blocks = [
        Block::Base(empty_page(alloc)),
        Block::Delta {
            page: 1,
            back: Place { frame: 1, index: 0 },
            ops,
        },
    ];
    sealed(alloc, 1, &blocks)
}

/// As an ordinary append, or as the cleaner's.
pub(crate) fn append(log: &mut Log, buffer: &Buffer, takes_last: bool) -> Result<(), LogFault>
    requires sound { IsSound log.old holding }
    requires sealed { buffer.now.is_sealed ≡ true }
    requires limit { buffer.now.limit ≡ (seen log.old holding).f }
    requires follows { MayFollow (seen log.old holding) (frame_of buffer.now) }
    ensures { AfterAppend (seen log.old holding) (frame_of buffer.now) takes_last result
        (seen log.new holding) }
{
    if takes_last {
        log.append_care(buffer)
    } else {
        log.append(buffer)
    }
}

/// Puts one pair, if that leaves four pairs at most; whether the append is refused as expected.
pub(crate) fn put(
    alloc: Global,
    log: &mut Log,
    leaf: &mut Leaf,
    key: u8,
    value: u8,
    told: Option<LogFault>,
) -> Option<bool>
    requires { HoldsOne (seen log.old holding) leaf.old }
    ensures { OnSome result (HoldsOne (seen log.new holding) leaf.new) }
{
    let change_of = one_put(key, value)?;
    let (Some(back), Some(number)) = (log.place_of(1), log.next_frame()) else {
        return None;
    };
    if back.frame == 0 || number == 0 || count_after(leaf, &change_of) > 4 {
        return None;
    }
    let buffer = put_frame(alloc, number, back, key, value)?;
    // Shows the proof that the frame is within its limit.
    let _ = buffer.bytes();
    match append(log, &buffer, false) {
        Ok(()) => match change(leaf, &change_of) {
            Ok(()) => Some(told.is_none()),
            Err(_) => None,
        },
        Err(fault) => Some(told == Some(fault)),
    }
}

/// Writes the page again as it stands, as the cleaner does; whether that is refused as expected.
pub(crate) fn rewrite(
    alloc: Global,
    log: &mut Log,
    leaf: &Leaf,
    told: Option<LogFault>,
) -> Option<bool>
    requires { HoldsOne (seen log.old holding) leaf.now }
    ensures { OnSome result (HoldsOne (seen log.new holding) leaf.now) }
{
    let number = log.next_frame()?;
    if number == 0 {
        return None;
    }
    let Ok(copy) = leaf.copy() else {
        return None;
    };
    let buffer = sealed(alloc, number, &[Block::Base(copy)])?;
    let _ = buffer.bytes();
    Some(append(log, &buffer, true).err() == told)
}

/// Gives up the oldest segment, if the page does not need it.
pub(crate) fn give_up(log: &mut Log, leaf: &Leaf) -> bool
    requires { HoldsOne (seen log.old holding) leaf.now }
    ensures { HoldsOne (seen log.new holding) leaf.now }
{
    let (Some(base), Some((_, last))) = (log.base_of(1), log.oldest()) else {
        return false;
    };
    if log.pages() != 1 || log.live() < 2 || log.is_failed() || base.frame <= last {
        return false;
    }
    log.give_up_oldest();
    true
}

/// A log over a box that fails so and so many more, all of the least capacity with leases from 0
/// on, and a yard with one more box.
pub(crate) fn log_over(alloc: Global, more: u32, fuse: Fuse) -> Option<(Log, Yard)>
    requires { Unit {0} }
    ensures { IfSome result (λ o. Counts (seen_by holding o.0) []) }
{
    let mut yard = yard_of(alloc, more, fuse)?;
    let boxes = taken_out(&mut yard, 65_560)?;
    match Log::new(alloc, boxes, 4, 65_536) {
        Ok(log) => Some((log, yard)),
        Err(_) => None,
    }
}

/// A first frame, which puts k=v, and the page that it leaves.
pub(crate) fn opening(alloc: Global) -> Option<(Buffer, Leaf)>
    ensures { IfSome result (λ o. Opens o.0 o.1) }
{
    let frame = first_frame(alloc, ops_of(alloc, b'k', b'v')?)?;
    let mut leaf = empty_page(alloc);
    let change_of = one_put(b'k', b'v')?;
    match change(&mut leaf, &change_of) {
        Ok(()) => Some((frame, leaf)),
        Err(_) => None,
    }
}

/// Appends a first frame, which leaves this page.
pub(crate) fn begin(log: &mut Log, frame: &Buffer, leaf: &Leaf) -> Result<(), LogFault>
    requires empty { Counts (seen log.old holding) [] }
    requires opens { Opens frame.now leaf.now }
    ensures sound { IsSound log.new holding }
    ensures begun { OnOk result (HoldsOne (seen log.new holding) leaf.now) }
{
    append(log, frame, false)
}
