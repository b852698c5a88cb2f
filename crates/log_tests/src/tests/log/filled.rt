// A frame of the greatest length: in a segment of the least capacity it fills it to the last byte.

ghost use Rattle.std.specs.Prelude.{◌≡◌, ◌∷◌, ◌++◌, [], IfSome, replicate};
ghost use Rattle.log_tests.specs.Examples.{last_put, long_put};
ghost use Rattle.log_tests.specs.OnePage.{Opens};

use super::page::{first_frame, packed_of, record_of};
use bw_buffer::Buffer;
use bw_codec::{Leaf, Ops};
use bw_page::{change, empty_page};
use std::alloc::Global;

const LONG: [u8; 512] = [b'v'; 512];

const LAST: [u8; 342] = [b'w'; 342];

fn puts(alloc: Global) -> Option<Ops>
    ensures { IfSome result (λ ops. ops ≡ replicate 126 long_put ++ last_put ∷ []) }
{
    let mut ops = Vec::new(alloc);
    for _ in 0..126usize {
        let Ok(()) = ops.push(packed_of(alloc, b"k", &LONG)?) else {
            return None;
        };
    }
    match ops.push(packed_of(alloc, b"k", &LAST)?) {
        Ok(()) => Some(Ops::of(ops)),
        Err(_) => None,
    }
}

/// A first frame of the greatest length, and the page that it leaves: only the last of the puts.
pub(crate) fn full_opening(alloc: Global) -> Option<(Buffer, Leaf)>
    ensures { IfSome result (λ o. Opens o.0 o.1) }
{
    let frame = first_frame(alloc, puts(alloc)?)?;
    if frame.room() != 0 {
        return None;
    }
    let mut leaf = empty_page(alloc);
    let change_of = record_of(b"k", &LAST)?;
    match change(&mut leaf, &change_of) {
        Ok(()) => Some((frame, leaf)),
        Err(_) => None,
    }
}
