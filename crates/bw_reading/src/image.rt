//! Pairs as bytes, for C: an image.
//!
//! Each pair is the key's length, the value's in two bytes, the lower first, the key and the value.
//! Pairs stand in the order of their keys, one after the other.

ghost use Rattle.std.specs.Prelude.{◌≡◌, ◌++◌, [], ◌∷◌, drop, IfOk, OnOk};
ghost use Rattle.bw_page.specs.Leaves.{union};
ghost use Rattle.bw_reading.specs.Calls.{over, pair_bytes, key_at};
ghost use Rattle.bw_reading.specs.Images.{image_bytes, end_at, AreAll, IsImage};

use crate::answer::Fault;
use bw_codec::{Key, Pair};
use bw_page::Leaves;
use bw_walks::share_stretch;
use std::alloc::{AllocError, Global};

/// An image that is being made, and how many pairs it has.
#[derive(Drop)]
pub(crate) struct Image {
    pub(crate) bytes: Vec<u8>,
    pub(crate) count: u64,
}

// The least key of all.
fn least() -> Key
    ensures { result ≡ 0 ∷ [] }
{
    match Key::new(&[0]) {
        Ok(key) => key,
        Err(_) => unreachable!(),
    }
}

// Adds a pair to an image.
fn add_pair(image: &mut Vec<u8>, pair: &Pair) -> Result<(), AllocError>
    ensures { OnOk result (image.new.items ≡ image.old.items ++ pair_bytes pair.now) }
{
    let key = pair.key();
    let value = pair.value();
    image.push(key.len() as u8)?;
    image.push((value.len() % 256) as u8)?;
    image.push((value.len() / 256) as u8)?;
    image.extend_from_slice(key)?;
    image.extend_from_slice(value)?;
    Ok(())
}

// The image of these pairs.
fn bytes_of(alloc: Global, pairs: &[Pair], room: usize) -> Result<Vec<u8>, AllocError>
    ensures { IfOk result (λ image. image.items ≡ image_bytes pairs.now) }
{
    let mut image = Vec::with_capacity(alloc, room)?;
    for pair in pairs {
        add_pair(&mut image, pair)?;
    }
    Ok(image)
}

// All pairs of these pages, of which none is evicted, in the order of their keys.
fn pairs_of(alloc: Global, leaves: &Leaves) -> Result<Vec<Pair>, Fault>
    requires { leaves.now.evicted ≡ [] }
    ensures { IfOk result (λ pairs. AreAll (union leaves.now.leaves) pairs.items) }
{
    let mut pairs = Vec::new(alloc);
    share_stretch(leaves, &least(), usize::MAX, &mut pairs)?;
    // No memory holds so many.
    if pairs.len() == usize::MAX {
        return Err(Fault::NoMemory);
    }
    Ok(pairs)
}

/// The image of all pairs of these pages, of which none is evicted.
pub(crate) fn image_of(alloc: Global, leaves: &Leaves, room: usize) -> Result<Image, Fault>
    requires { leaves.now.evicted ≡ [] }
    ensures { IfOk result
        (λ image. IsImage (union leaves.now.leaves) image.bytes.items image.count) }
{
    let pairs = pairs_of(alloc, leaves)?;
    let bytes = bytes_of(alloc, pairs.as_slice(), room)?;
    Ok(Image {
        bytes,
        count: pairs.len() as u64,
    })
}

/// Writes as many of these bytes as there is room for.
pub(crate) fn write(bytes: &[u8], room: &mut [u8])
    ensures { room.new ≡ over room.old bytes.now }
{
    let len = bytes.len().min(room.len());
    room[..len].copy_from_slice(&bytes[..len]);
}

// The bytes from a place on.
fn from_place(image: &[u8], at: u64) -> &[u8]
    ensures { result.now ≡ drop at image.now }
{
    let at = at.min(image.len() as u64);
    &image[at as usize..]
}

/// The key of the pair that begins there, or no bytes if none does.
pub(crate) fn key_of(image: &[u8], at: u64) -> &[u8]
    ensures { result.now ≡ key_at image.now at }
{
    match from_place(image, at) {
        [len, _, _, rest @ ..] => &rest[..usize::from(*len).min(rest.len())],
        _ => &[],
    }
}

/// Where the pair ends that begins there, and the next one begins; there, if none does.
pub(crate) fn end_of(image: &[u8], at: u64) -> u64
    ensures { result ≡ end_at image.now at }
{
    if at >= image.len() as u64 {
        return at;
    }
    match from_place(image, at) {
        [len, low, high, ..] => {
            at + (3 + u64::from(*len) + u64::from(*low) + 256 * u64::from(*high))
        }
        _ => at,
    }
}
