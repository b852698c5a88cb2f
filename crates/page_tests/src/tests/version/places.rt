//! More readers than places.

use super::{Case, Stand, over};
use bw_versions::ReadFault;

// How many of four readers were made, if each is dropped before the next; `None` if memory was
// wanted.
pub(super) fn made(stand: &mut Stand) -> Option<usize> {
    let mut made = 0usize;
    for _ in 0..4u32 {
        match stand.versions.reader() {
            Ok(_) => made = made.saturating_add(1),
            Err(ReadFault::NoReader) => {}
            Err(ReadFault::NoMemory) => return None,
        }
    }
    Some(made)
}

#[test]
fn a_dropped_reader_frees_no_place(rt: HostRuntime) {
    assert_eq!(rt; over(&rt, 3, &Case::Places), None);
}
