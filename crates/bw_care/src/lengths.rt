//! How many bytes live segments have, and when it pays to give the oldest up.

ghost use Rattle.std.specs.Prelude.{◌≡◌, ◌≤◌, ◌+◌, ◌*◌, ◌↔◌, IsTrue, take};
ghost use Rattle.bw_care.specs.Tallies.{bytes_of, length_at, up};
ghost use Rattle.bw_care.specs.Views.{seen, IsSound};

use bw_device::Segment;
use bw_log::Log;

/// How many bytes the i-th live segment has, from 0; 0 if there is no such segment.
pub fn length_of(log: &Log, i: u32) -> u64
    requires { IsSound log.now holding }
    ensures { result ≡ length_at (seen log.now holding).live i }
{
    match log.live_segment(i) {
        Some((_, _, length)) => length,
        None => 0,
    }
}

/// How many bytes the first live segments have, so many of them.
pub fn bytes_upto(log: &Log, count: u32) -> u64
    requires { IsSound log.now holding }
    ensures { result ≡ up 0 (bytes_of (take count (seen log.now holding).live)) }
{
    let mut bytes: u64 = 0;
    'segments: for i in 0..count {
        bytes = bytes.saturating_add(length_of(log, i));
    }
    bytes
}

/// How many bytes the live segments have.
pub fn live_bytes(log: &Log) -> u64
    requires { IsSound log.now holding }
    ensures { result ≡ up 0 (bytes_of (seen log.now holding).live) }
{
    bytes_upto(log, log.live())
}

/// Whether a segment of this length is twice what is needed of it, and 88 bytes more.
pub fn is_won(length: u64, needed: u64) -> bool
    ensures { IsTrue result ↔ 2 * needed + 88 ≤ length }
{
    length >= 88 && needed <= (length - 88) / 2
}
