//! Calls that take no memory: each allocation is refused while they run, none is asked for, and
//! they answer as they do with memory. What may take some and is never refused is asked in the same
//! way.

mod bytes;
mod ends;
mod held;

use std::alloc::Global;
use test_kit::marks::end;

/// Whether what was asked since the last `begin_without` is so, and asked for no memory.
fn asked(alloc: Global, is_so: bool) -> Option<bool> {
    Some(!end(alloc) & is_so)
}

/// Whether what was asked since the last `begin_without` is so, whether it asked for memory or not.
fn spared(alloc: Global, is_so: bool) -> Option<bool> {
    let _ = end(alloc);
    Some(is_so)
}

/// The first of these that is not so.
fn wrong(said: &[Option<bool>]) -> Option<usize> {
    said.iter().position(|is_so| *is_so != Some(true))
}

#[test]
fn bytes_take_no_memory(rt: HostRuntime) {
    assert_eq!(rt; wrong(&bytes::said(rt.alloc())), None);
}

#[test]
fn pages_buffers_and_chains_take_no_memory(rt: HostRuntime) {
    assert_eq!(rt; wrong(&held::said(rt.alloc())), None);
}

#[test]
fn rings_segments_and_logs_take_no_memory(rt: HostRuntime) {
    assert_eq!(rt; wrong(&ends::said(rt.alloc())), None);
}
