//! Readers in threads of their own.

ghost use Rattle.std.specs.Prelude.{◌≡◌, []};
ghost use mathlib.Core.List.{IsPrefix};
ghost use Rattle.bw_versions.specs.Batches.{entries_of};

use super::{Case, Stand, enter, over, publish};
use bw_codec::Key;
use bw_versions::Reader;
use std::sync::Wait;
use std::thread;
use std::thread::Threads;
use test_kit::vectors::{gone_back, put};

/// How many times the reader reads beside the publications.
const READS: u32 = 10_000;

/// The values of `k`, one a publication: numbers that rise.
const VALUES: u16 = 2_000;

// How many reads were refused or went back.
fn read_all(mut reader: Reader) -> u32 {
    let Ok(key) = Key::new(b"k") else {
        return READS;
    };
    gone_back(READS, || reader.get(&key))
}

// Publishes the values one by one; whether no publication was refused.
fn publish_all<R: Wait>(rt: &R, stand: &mut Stand) -> bool
    requires { IsPrefix (entries_of stand.old.versions.entered) stand.old.history.items }
{
    for value in 0..VALUES {
        if !enter(stand, 0, put(b"k", &value.to_be_bytes())) || !publish(rt, stand) {
            return false;
        }
    }
    true
}

// Whether no publication was refused, and no read beside them was or went back; none if there was
// no reader.
pub(super) fn race<R: Threads + Wait>(rt: &R, stand: &mut Stand) -> Option<bool>
    requires { stand.old.versions.entered ≡ [] }
{
    let reader = stand.versions.reader().ok()?;
    let child = thread::spawn(rt, move || read_all(reader)).ok()?;
    let published = publish_all(rt, stand);
    Some(child.join(rt) == 0 && published)
}

#[test]
fn a_value_never_goes_back(rt: HostRuntime) {
    assert_eq!(rt; over(&rt, 4, &Case::Race), None);
}
