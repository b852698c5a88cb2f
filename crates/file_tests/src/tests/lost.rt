//! What a loss of power may leave of the sums for which nobody waited: any of them, with other
//! bytes in place of those that are lost, up to any length. The bytes of the segment are all there,
//! and nothing is said.

use super::cleared;
use super::steps::Act::{Holds, Make, Open, Opens, Segment, Stop, Write};
use super::steps::Told::Done;
use super::steps::{Act, Row, Stand, at, is_told};
use std::alloc::Global;
use std::fs;

/// What was appended, in four pieces.
const HELD: &str = "abcdefg";

/// The sums of "a", "bc", "d" and "efg", worked out by another program.
const SUMS: &str = "010000000000000013189bb8d2487440822ac33e049507c4\
    03000000000000003a0a40c2b38327d2416da5c883ba2994\
    0400000000000000c0faeac492d96843a547ac528a10488c\
    0700000000000000abdd9b1161b96679bb9f1c70f1ce28d5";

/// Those of "z", "yx", "w" and "vut", which an earlier segment had in that file.
const EARLIER: &str = "0100000000000000065fa586ae5f99df9ab5e49c13df9248\
    0300000000000000317ef7a7360124561a731ae7858359ec\
    04000000000000007bf52e4a1cbaccef6cf7928c63f407d7\
    0700000000000000103ab7ec389e757cd47a487b20444cb3";

/// How many bytes a sum has.
const SUM: usize = 24;

// Whether a sum is among those that are left, by the bits of a number.
fn is_left(left: u32, sum: usize) -> bool {
    left.wrapping_shr((sum % 4) as u32) % 2 == 1
}

// The sums that are left, and in place of the others those of the earlier segment, or bytes of 0.
fn torn(alloc: Global, left: u32, is_stale: bool) -> Option<Vec<u8>> {
    let sums = hex::decode(alloc, SUMS).ok()?;
    let earlier = hex::decode(alloc, EARLIER).ok()?;
    let mut all = Vec::new(alloc);
    for (i, (new, old)) in sums.iter().zip(earlier.iter()).enumerate() {
        let other = if is_stale { *old } else { 0 };
        let byte = if is_left(left, i / SUM) { *new } else { other };
        all.push(byte).ok()?;
    }
    Some(all)
}

// Whether a row goes as expected.
fn goes(stand: &mut Stand, act: Act, letters: &'static str) -> bool {
    is_told(stand, &Row(act, Done, letters))
}

// Whether a segment beside these sums is opened, and each of its bytes has a sum then.
fn is_opened(rt: HostRuntime, sums: &[u8]) -> bool {
    let Some(mut stand) = at(rt, "lost") else {
        return false;
    };
    goes(&mut stand, Make, "")
        && goes(&mut stand, Write("segment-0000.bw", HELD), "")
        && fs::write(&rt, "lost/segment-0000.sum", sums).is_ok()
        && goes(&mut stand, Open, "dnool")
        && goes(&mut stand, Opens(0, 64), "")
        && goes(&mut stand, Holds(0, HELD, 0), "")
        && goes(&mut stand, Stop(0), "")
        && goes(&mut stand, Segment(0, 64), "nnolomrmra")
}

// Whether a segment beside so many bytes of what is left of its sums is opened, and each of its
// bytes has a sum then.
fn is_opened_with(rt: HostRuntime, left: u32, is_stale: bool, length: usize) -> bool {
    match torn(rt.alloc(), left, is_stale) {
        Some(sums) => is_opened(rt, &sums[..length.min(sums.len())]),
        None => false,
    }
}

/// Up to which length.
const LENGTHS: [usize; 7] = [7, 24, 40, 48, 72, 80, 96];

// The first that is not, by the sums that are left.
fn wrong_lost(rt: HostRuntime) -> Option<(&'static str, usize)> {
    for left in 0..16u32 {
        for length in &LENGTHS {
            if !is_opened_with(rt, left, false, *length) {
                return Some(("zeros", left as usize));
            }
            // All of the earlier ones, from the first on, would be those of another segment.
            if left % 2 == 1 && !is_opened_with(rt, left, true, *length) {
                return Some(("earlier", left as usize));
            }
        }
    }
    None
}

#[test]
fn a_loss_of_power_is_no_damage(rt: HostRuntime) {
    assert_eq!(rt; cleared(rt, "lost", wrong_lost(rt)), None);
}
