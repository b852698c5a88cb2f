//! Of each page whose last block is a Delta, the index of that block.
//!
//! A page that is closed keeps its place in the map without an index: so an entry once made is
//! never given back before the map is cleared, and the room for all that may come is known. The end
//! of a frame closes its pages too: the map is cleared only if it keeps too many for the next
//! frame.

ghost use Rattle.std.specs.Prelude.{ℕ, ◌≡◌, ◌≤◌, ◌<◌, ◌+◌, ◌==◌, nat_eq, is_some, true, false, Some, None, [], if◌then◌else◌};
ghost use Rattle.std.specs.HashMap.{get, spare, hash_map_len};
ghost use Rattle.bw_buffer.specs.Index.{index_at};

use std::collections::HashMap;

pub(crate) type Index = HashMap<u32, Option<u32>>;

/// The index at a page.
pub(crate) fn look(index: &Index, page: u32) -> Option<u32>
    ensures { result ≡ index_at index.now page }
{
    match index.get(&page) {
        Some(at) => *at,
        None => None,
    }
}

// Another index, or none, at a page that the map has.
fn set(index: &mut Index, page: u32, at: Option<u32>) -> bool
    ensures known { result ≡ is_some (get nat_eq index.old page) }
    ensures value { result ≡ true → (q : ℕ) → index_at index.new q
        ≡ (if page == q then at else index_at index.old q) }
    ensures none { result ≡ false → index.new ≡ index.old }
    ensures len { hash_map_len index.new ≡ hash_map_len index.old }
    ensures room { spare index.new ≡ spare index.old }
{
    match index.get_mut(&page) {
        Some(old) => {
            *old = at;
            true
        }
        None => false,
    }
}

/// The page has this index from now on. No memory is taken.
pub(crate) fn note(index: &mut Index, page: u32, at: u32)
    requires { 0 < spare index.old }
    ensures value { (q : ℕ) → index_at index.new q
        ≡ (if page == q then Some at else index_at index.old q) }
    ensures len { hash_map_len index.new ≤ hash_map_len index.old + 1 }
    ensures room { hash_map_len index.old + spare index.old
        ≤ hash_map_len index.new + spare index.new }
{
    if set(index, page, Some(at)) {
        return;
    }
    match index.insert(page, Some(at)) {
        Ok(_) => {}
        Err(_) => unreachable!(),
    }
}

/// The page has no index from now on. No memory is taken.
pub(crate) fn forget(index: &mut Index, page: u32)
    ensures value { (q : ℕ) → index_at index.new q
        ≡ (if page == q then None else index_at index.old q) }
    ensures len { hash_map_len index.new ≡ hash_map_len index.old }
    ensures room { spare index.new ≡ spare index.old }
{
    let _ = set(index, page, None);
}

/// No page has an index from now on, and none is kept. The map's room stays. Time is linear in that
/// room, however few pages are kept.
pub(crate) fn forget_all(index: &mut Index)
    ensures none { index.new.entries ≡ [] }
    ensures room { hash_map_len index.old + spare index.old ≤ spare index.new }
{
    index.clear();
}
