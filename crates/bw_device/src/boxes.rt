// Calls on one box of many. A clause speaks of a box's holding, and a call goes to the value in the
// box: so each call of the trait has a function of one box, and a function of a `Vec` over it.
ghost use Rattle.std.specs.Prelude.{◌≡◌, ◌+◌, ◌<◌, ◌≤◌, ◌↔◌, length, take, drop, map, slice_get, IsTrue, OnOk, IfSome, MatchResult};
ghost use Rattle.std.specs.List.{AllByRecursion};
ghost use Rattle.bw_device.specs.Boxes.{ChangedAt, IsAfterAppend, IsAfterRead, IsSpareOf};
ghost use Rattle.bw_device.specs.Holding.{appended, failed_once, IsTorn};

use crate::memory::MAX_CAPACITY;
use crate::segments::{Fault, Segment};

// ---- one box

fn append_one(one: &mut Box<dyn Segment>, piece: &[u8]) -> Result<(), Fault>
    requires fits { length (holding one.old).bytes + length piece.now ≤ (holding one.old).room }
    requires countable { (holding one.old).failed < u64.MAX }
    ensures { IsAfterAppend result (holding one.old) piece.now (holding one.new) }
{
    one.append(piece)
}

fn read_one(one: &mut Box<dyn Segment>, at: u64, out: &mut [u8]) -> Result<(), Fault>
    requires within { at + length out.old ≤ length (holding one.old).bytes }
    requires countable { (holding one.old).failed < u64.MAX }
    ensures bytes { OnOk result
        (out.new ≡ take (length out.old) (drop at (holding one.old).bytes)) }
    ensures holding { IsAfterRead result (holding one.old) (holding one.new) }
{
    one.read(at, out)
}

fn len_one(one: &Box<dyn Segment>) -> u64
    ensures value { result ≡ length (holding one.now).bytes }
    ensures within { result ≤ (holding one.now).room }
{
    one.len()
}

fn capacity_one(one: &Box<dyn Segment>) -> u64
    ensures { result ≡ (holding one.now).room }
{
    one.capacity()
}

fn lease_one(one: &Box<dyn Segment>) -> u32
    ensures { result ≡ (holding one.now).lease }
{
    one.lease()
}

fn failures_one(one: &Box<dyn Segment>) -> u64
    ensures { result ≡ (holding one.now).failed }
{
    one.failures()
}

fn lend_one(one: &Box<dyn Segment>) -> Option<&[u8]>
    ensures { IfSome result (λ bytes. bytes.now ≡ (holding one.now).bytes) }
{
    one.lend()
}

/// Whether a box is empty, and has room for so many bytes at least and for `MAX_CAPACITY` at most.
pub fn is_spare(one: &Box<dyn Segment>, least: u64) -> bool
    ensures { IsTrue result ↔ IsSpareOf least (holding one.now) }
{
    let len = len_one(one);
    let capacity = capacity_one(one);
    len == 0 && least <= capacity && capacity <= MAX_CAPACITY
}

// ---- one box of a `Vec`

/// Appends to the i-th box, and changes no other.
pub fn append_to(all: &mut Vec<Box<dyn Segment>>, i: usize, piece: &[u8]) -> Result<(), Fault>
    requires inside { i < length all.old.items }
    requires fits { IfSome (slice_get (map holding all.old.items) i)
        (λ h. length h.bytes + length piece.now ≤ h.room) }
    requires countable { IfSome (slice_get (map holding all.old.items) i)
        (λ h. h.failed < u64.MAX) }
    ensures len { length all.new.items ≡ length all.old.items }
    ensures changed { MatchResult result
        (λ _. ChangedAt (λ h k. k ≡ appended h piece.now) i
        (map holding all.old.items) (map holding all.new.items))
        (λ _. ChangedAt (λ h k. IsTorn h piece.now k) i
        (map holding all.old.items) (map holding all.new.items)) }
{
    append_one(&mut all[i], piece)
}

/// Reads from the i-th box, and changes no other.
pub fn read_from(
    all: &mut Vec<Box<dyn Segment>>,
    i: usize,
    at: u64,
    out: &mut [u8],
) -> Result<(), Fault>
    requires inside { i < length all.old.items }
    requires within { IfSome (slice_get (map holding all.old.items) i)
        (λ h. at + length out.old ≤ length h.bytes) }
    requires countable { IfSome (slice_get (map holding all.old.items) i)
        (λ h. h.failed < u64.MAX) }
    ensures len { length all.new.items ≡ length all.old.items }
    ensures bytes { OnOk result
        (IfSome (slice_get (map holding all.old.items) i)
        (λ h. out.new ≡ take (length out.old) (drop at h.bytes))) }
    ensures changed { MatchResult result
        (λ _. map holding all.new.items ≡ map holding all.old.items)
        (λ _. ChangedAt (λ h k. k ≡ failed_once h) i
        (map holding all.old.items) (map holding all.new.items)) }
{
    read_one(&mut all[i], at, out)
}

/// All bytes that the i-th box holds, if it lends them.
pub fn lend_of(all: &[Box<dyn Segment>], i: usize) -> Option<&[u8]>
    requires { i < length all.now }
    ensures { IfSome result (λ bytes. IfSome (slice_get (map holding all.now) i)
        (λ h. bytes.now ≡ h.bytes)) }
{
    lend_one(&all[i])
}

/// How many bytes the i-th box holds.
pub fn len_of(all: &[Box<dyn Segment>], i: usize) -> u64
    requires { i < length all.now }
    ensures value { IfSome (slice_get (map holding all.now) i) (λ h. result ≡ length h.bytes) }
    ensures within { IfSome (slice_get (map holding all.now) i) (λ h. result ≤ h.room) }
{
    len_one(&all[i])
}

/// How many bytes the i-th box has room for, those that it holds among them.
pub fn capacity_of(all: &[Box<dyn Segment>], i: usize) -> u64
    requires { i < length all.now }
    ensures { IfSome (slice_get (map holding all.now) i) (λ h. result ≡ h.room) }
{
    capacity_one(&all[i])
}

/// The number of the i-th box's lease.
pub fn lease_of(all: &[Box<dyn Segment>], i: usize) -> u32
    requires { i < length all.now }
    ensures { IfSome (slice_get (map holding all.now) i) (λ h. result ≡ h.lease) }
{
    lease_one(&all[i])
}

/// How many appends and reads of the i-th box have failed.
pub fn failures_of(all: &[Box<dyn Segment>], i: usize) -> u64
    requires { i < length all.now }
    ensures { IfSome (slice_get (map holding all.now) i) (λ h. result ≡ h.failed) }
{
    failures_one(&all[i])
}

/// Whether all boxes are spares with room for so many bytes at least.
pub fn are_spares(all: &[Box<dyn Segment>], least: u64) -> bool
    ensures { IsTrue result ↔ AllByRecursion (IsSpareOf least) (map holding all.now) }
{
    for one in all {
        if !is_spare(one, least) {
            return false;
        }
    }
    true
}
