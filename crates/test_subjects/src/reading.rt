//! All pages of two writers' puts, read back.

ghost use Rattle.std.specs.Prelude.{◌≡◌};
ghost use Rattle.test_subjects.specs.Views.{rings_by, IsSound};

use crate::putting::numbered;
use crate::subject::Subject;
use bw_codec::{Leaf, Record};
use bw_store::StoreFault;

// How many pairs a leaf has, if each is the put of a number.
fn count_in(leaf: &Leaf) -> Option<u32> {
    let mut count: u32 = 0;
    for pair in leaf.pairs.as_slice() {
        let [writer, _, middle, low] = pair.key() else {
            return None;
        };
        let number = u32::from(*middle) * 256 + u32::from(*low);
        if numbered(*writer, number) != Record::Put(pair.to_key(), pair.to_value()) {
            return None;
        }
        count = count.saturating_add(1);
    }
    Some(count)
}

// How many pairs a page has; none if there is no such page.
fn pairs_of(store: &mut Subject, page: u32) -> Result<Option<u32>, StoreFault>
    requires { IsSound store.old holding }
    ensures sound { IsSound store.new holding }
    ensures rings { rings_by store.new holding ≡ rings_by store.old holding }
{
    match store.page(page) {
        Ok(leaf) => Ok(count_in(&leaf)),
        Err(StoreFault::NoPage) => Ok(None),
        Err(fault) => Err(fault),
    }
}

// How many pairs all pages have.
fn pairs(store: &mut Subject) -> Result<u32, StoreFault>
    requires { IsSound store.old holding }
    ensures sound { IsSound store.new holding }
    ensures rings { rings_by store.new holding ≡ rings_by store.old holding }
{
    let mut count: u32 = 0;
    'pages: for page in 1..100_000 {
        let Some(more) = pairs_of(store, page)? else {
            return Ok(count);
        };
        count = count.saturating_add(more);
    }
    Ok(count)
}

// Whether the key of a put has its value.
fn is_read(store: &mut Subject, writer: u8, number: u32) -> bool
    requires { IsSound store.old holding }
    ensures sound { IsSound store.new holding }
    ensures rings { rings_by store.new holding ≡ rings_by store.old holding }
{
    let Record::Put(key, value) = numbered(writer, number) else {
        return false;
    };
    match store.get(&key) {
        Ok(Some(found)) => found == value,
        _ => false,
    }
}

/// Whether all pages together have the first so many puts of writers 0 and 1 and no more, and so
/// has each key.
pub fn reads(store: &mut Subject, many: u32) -> bool
    requires { IsSound store.old holding }
    ensures sound { IsSound store.new holding }
    ensures rings { rings_by store.new holding ≡ rings_by store.old holding }
{
    'numbers: for number in 0..many {
        let first = is_read(store, b'a', number);
        let second = is_read(store, b'b', number);
        if !(first & second) {
            return false;
        }
    }
    match pairs(store) {
        Ok(count) => count == many.saturating_mul(2),
        Err(_) => false,
    }
}
