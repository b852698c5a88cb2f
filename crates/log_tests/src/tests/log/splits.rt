// The vector of a page that is split in two, appended by buffers.

ghost use Rattle.std.specs.Prelude.{◌≡◌, ◌+◌, ◌≤◌, ◌∷◌, [], true, IfSome, OnSome};
ghost use Rattle.test_boxes.specs.Views.{seen, IsSound};
ghost use Rattle.log_tests.specs.OnePage.{Counts};
ghost use Rattle.log_tests.specs.Examples.{fifth_blocks, split_blocks, split_frames, split_upper};

use super::page::{append, first_frame, log_over, ops_of, put_frame};
use super::sealed;
use bw_buffer::Buffer;
use bw_codec::{Block, Key, Leaf, Low, Pair, Pairs, Place, Value};
use bw_device::Segment;
use bw_log::{Log, LogFault};
use std::alloc::Global;
use test_boxes::{NEVER, are_bytes, is_page};
use test_kit::vectors::SECOND;

// A pair of a byte at a byte.
fn pair(alloc: Global, key: u8, value: u8) -> Option<Pair>
    ensures { IfSome result (λ p. p ≡ (key ∷ [], value ∷ [])) }
{
    let Ok(key) = Key::new(&[key]) else {
        return None;
    };
    let Ok(value) = Value::new(&[value]) else {
        return None;
    };
    match Pair::of(alloc, &key, &value) {
        Ok(pair) => Some(pair),
        Err(_) => None,
    }
}

// The page that the Split makes.
fn upper(alloc: Global) -> Option<Leaf>
    ensures { IfSome result (λ l. l ≡ split_upper) }
{
    let pairs = [
        pair(alloc, b'c', b'3')?,
        pair(alloc, b'd', b'4')?,
        pair(alloc, b'e', b'5')?,
    ];
    let Ok(pairs) = Pairs::copy_of(alloc, &pairs) else {
        return None;
    };
    let Ok(low) = Vec::from_slice(alloc, b"c") else {
        return None;
    };
    Some(Leaf {
        page: 2,
        low: Low::of(low),
        pairs,
    })
}

fn fifth(alloc: Global) -> Option<Buffer>
    ensures { IfSome result (λ b.
        b ≡ record { frame = 5; limit = 65536; blocks = fifth_blocks; is_sealed = true }) }
{
    let blocks = [
        Block::Delta {
            page: 1,
            back: Place { frame: 4, index: 0 },
            ops: ops_of(alloc, b'e', b'5')?,
        },
        Block::Split {
            page: 1,
            back: Place { frame: 5, index: 0 },
            upper: upper(alloc)?,
        },
    ];
    sealed(alloc, 5, &blocks)
}

// The vector's frame of this number, of five.
fn frame_of(alloc: Global, number: u64) -> Option<Buffer>
    ensures { IfSome result (λ b. b ≡ record {
      frame = number;
      limit = 65536;
      blocks = split_blocks number;
      is_sealed = true;
    }) }
{
    match number {
        1 => first_frame(alloc, ops_of(alloc, b'a', b'1')?),
        2 => put_frame(alloc, 2, Place { frame: 1, index: 1 }, b'b', b'2'),
        3 => put_frame(alloc, 3, Place { frame: 2, index: 0 }, b'c', b'3'),
        4 => put_frame(alloc, 4, Place { frame: 3, index: 0 }, b'd', b'4'),
        5 => fifth(alloc),
        _ => None,
    }
}

// Appends the vector's frame of this number.
fn append_next(alloc: Global, log: &mut Log, number: u64) -> Option<()>
    requires from { 1 ≤ number }
    requires to { number ≤ 5 }
    requires counts { Counts (seen log.old holding) (split_frames number) }
    ensures { OnSome result (Counts (seen log.new holding) (split_frames (number + 1))) }
{
    let frame = frame_of(alloc, number)?;
    match append(log, &frame, false) {
        Ok(()) => Some(()),
        Err(_) => None,
    }
}

// Whether both were last touched by the Split, and there is no third.
fn has_places(log: &mut Log) -> bool
    requires { IsSound log.old holding }
    ensures { IsSound log.new holding }
{
    let places = [
        log.place_of(1),
        log.base_of(1),
        log.place_of(2),
        log.base_of(2),
    ];
    let split = Some(Place { frame: 5, index: 1 });
    places == [split, Some(Place { frame: 1, index: 0 }), split, split]
        && log.read_page(3).err() == Some(LogFault::NoPage)
}

// Appends all five.
fn append_all(alloc: Global, log: &mut Log) -> Option<()>
    requires { Counts (seen log.old holding) [] }
    ensures { OnSome result (IsSound log.new holding) }
{
    for number in 1..6 {
        append_next(alloc, log, number)?;
    }
    Some(())
}

// Whether the segment's bytes, both pages and their places stand then.
fn stands(alloc: Global, log: &mut Log) -> bool
    requires { IsSound log.old holding }
{
    if !are_bytes(alloc, log, 1, SECOND) {
        return false;
    }
    if !is_page(log, 1, "1 : a=1 b=2;") {
        return false;
    }
    if !is_page(log, 2, "2 c: c=3 d=4 e=5;") {
        return false;
    }
    has_places(log)
}

fn splits(alloc: Global) -> Option<bool> {
    let (mut log, _more) = log_over(alloc, 1, NEVER)?;
    append_all(alloc, &mut log)?;
    Some(stands(alloc, &mut log))
}

#[test]
fn a_split_page_is_read_back(rt: HostRuntime) {
    assert!(rt; splits(rt.alloc()) == Some(true));
}
