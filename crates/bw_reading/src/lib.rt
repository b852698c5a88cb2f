//! The store in a folder, to be read by a program in another language: its files are read by C, and
//! what they say is answered here.
//!
//! C hands in the bytes of all segments with the sums beside them, and gets the pairs in the order
//! of their keys, as an image in memory of its own: `bw_pairs_in`. From then on it looks up keys
//! there: `bw_index_of` notes once where each pair begins, and `bw_first_at` finds the first pair
//! at or above a key. These two take no memory, and read only what C lends, so any number of
//! threads may call. Nothing of Rattle's stays after a call. `bw_number_in` says which segment a
//! file has: by it C finds whether files that somebody writes are those of one moment.
//!
//! The pages are those that recovery finds in the very bytes that C handed in, cut by the lengths
//! beside them, which fit their sums (`specs/Handed.antt`). An image has all their pairs in the
//! order of their keys, each once (`specs/Images.antt`). Its lengths lead from each pair to the
//! next: so an index notes where each pair stands, and a search in it finds the pair with the least
//! key at or above one, and the pair before it. What no clause says, and the tests of the program
//! show: that C hands in what its files hold, and reads a pair of an image as `pair_at` does.
//!
//! `clients/c/hechdoram_read.c` has the part in C, and `include/hechdoram_read.h` the calls for a
//! program.
#![tactic(auto)]

ghost use Rattle.std.specs.Prelude.{◌≡◌, ◌⊎◌, ◌≤◌, ◌++◌, [], ◌∷◌, pos, map, take, length, true, false, IfOk};
ghost use Rattle.std.specs.List.Sorted.{IsPartitionedBy, IsPartitionPoint};
ghost use Rattle.bw_record.specs.Keys.{is_below};
ghost use Rattle.bw_codec.specs.Reading.{heading_of};
ghost use Rattle.bw_leaf.specs.Changed.{Bytes, Pairs, Map};
ghost use Rattle.bw_page.specs.Ahead.{IsFirst};
ghost use Rattle.bw_reading.specs.Answers.{IsRefusal};
ghost use Rattle.bw_reading.specs.Calls.{pair_at, is_below_at, number_told};
ghost use Rattle.bw_reading.specs.Images.{image_bytes, starts_from, pair_of, pair_before, IsLastBefore, IsImageOfPages, IsTold, IsIndexOf, IsWholeIndexOf};

mod answer;
mod image;
mod segments;

use answer::{DONE, Fault};
use bw_codec::{HeaderRead, is_before, read_header};
use image::{Image, end_of, image_of, key_of, write};
use segments::pages_in;
use std::alloc::Global;

// The image of what these segments hold.
fn image_in(
    alloc: Global,
    bytes: &[u8],
    sums: &[u8],
    parts: &[u64],
    room: usize,
) -> Result<Image, Fault>
    ensures { IfOk result (λ image. IsImageOfPages bytes.now sums.now parts.now
        image.bytes.items image.count) }
{
    let leaves = pages_in(alloc, bytes, sums, parts)?;
    image_of(alloc, &leaves, room)
}

/// Writes the image of all pairs that these segments hold: as many bytes as there is room for; and
/// how many it has, and how many pairs. If that is refused, nothing is written.
///
/// The bytes of the segments stand one after the other, and so do those of the sums beside them; of
/// each segment `parts` has two lengths, of its bytes and of its sums. A length without its other
/// is of no segment. No segment, and more than 4,096, are refused.
#[unsafe(no_mangle)]
pub extern "C" fn bw_pairs_in(
    alloc: Global,
    bytes: &[u8],
    sums: &[u8],
    parts: &[u64],
    image: &mut [u8],
    needed: &mut u64,
    count: &mut u64,
) -> i32
    ensures told { (result ≡ pos 0) ⊎ IsRefusal result }
    ensures written { result ≡ pos 0 → IsTold bytes.now sums.now parts.now
        image.old image.new needed.new count.new }
    ensures image { IsRefusal result → image.new ≡ image.old }
    ensures needed { IsRefusal result → needed.new ≡ needed.old }
    ensures count { IsRefusal result → count.new ≡ count.old }
{
    match image_in(alloc, bytes, sums, parts, image.len()) {
        Ok(found) => {
            write(found.bytes.as_slice(), image);
            *needed = found.bytes.len() as u64;
            *count = found.count;
            DONE
        }
        Err(fault) => fault.number(),
    }
}

/// The number of the segment whose header these bytes begin with; 0 if they begin with none that is
/// whole.
#[unsafe(no_mangle)]
pub extern "C" fn bw_number_in(bytes: &[u8]) -> u64
    ensures { result ≡ number_told (heading_of bytes.now) }
{
    match read_header(bytes) {
        HeaderRead::Whole(header) => header.number,
        HeaderRead::Part => 0,
        HeaderRead::Bad => 0,
    }
}

/// Notes where each pair of an image begins, as many as there is room for: what is read there are
/// its first pairs, in order.
#[unsafe(no_mangle)]
pub extern "C" fn bw_index_of(image: &[u8], starts: &mut [u64])
    ensures noted { starts.new ≡ starts_from image.now (length starts.old) 0 }
    ensures lead { (pairs : Pairs) (rest : Bytes) → image.now ≡ image_bytes pairs ++ rest
        → length starts.old ≤ length pairs
        → map (pair_at image.now) starts.new ≡ take (length starts.old) pairs }
{
    let mut at = 0u64;
    for i in 0..starts.len() {
        starts[i] = at;
        at = end_of(image, at);
    }
}

/// How many of these pairs, in the order of their keys, have a key below this one: where the first
/// is that is at or above it. No memory is taken.
///
/// In an index of an image the keys need not be asked whether they ascend (`parts`). In a whole one
/// the pair of this number is the one with the least key at or above this one, if there is one
/// (`least`), and the one before it is that with the greatest key below (`before`).
#[unsafe(no_mangle)]
pub extern "C" fn bw_first_at(image: &[u8], starts: &[u64], key: &[u8]) -> usize
    ensures within { result ≤ length starts.now }
    ensures first { IsPartitionedBy (is_below_at image.now key.now) starts.now
        → IsPartitionPoint (λ at. is_below_at image.now key.now at ≡ true)
        (λ at. is_below_at image.now key.now at ≡ false) starts.now result }
    ensures parts { (map : Map) → IsIndexOf map image.now starts.now
        → IsPartitionPoint (λ at. is_below_at image.now key.now at ≡ true)
        (λ at. is_below_at image.now key.now at ≡ false) starts.now result }
    ensures least { (map : Map) → IsWholeIndexOf map image.now starts.now
        → is_below key.now (0 ∷ []) ≡ false
        → IsFirst map key.now (pair_of image.now starts.now result) }
    ensures before { (map : Map) → IsWholeIndexOf map image.now starts.now
        → IsLastBefore map key.now (pair_before image.now starts.now result) }
{
    starts.partition_point(|start| is_before(key_of(image, *start), key))
}
