//! A reader that outlives its store's versions.

ghost use Rattle.std.specs.Prelude.{◌≡◌, []};

use super::{Stand, enter, opened, publish, shut, value_is};
use bw_codec::Key;
use bw_versions::{ReadFault, Reader};
use std::sync::Wait;
use test_kit::vectors::put;

// A reader that saw the entry.
fn seen<R: Wait>(rt: &R, stand: &mut Stand) -> Option<Reader>
    requires { stand.old.versions.entered ≡ [] }
{
    let mut reader = stand.versions.reader().ok()?;
    let told = enter(stand, 0, put(b"k", b"v")) && publish(rt, stand);
    if told && value_is(&mut reader, "k", "v") {
        return Some(reader);
    }
    None
}

// Whether each call of a reader is refused, the first one once more at the end.
fn is_refused(reader: &mut Reader) -> Option<bool> {
    let key = Key::new(b"k").ok()?;
    let first = reader.get(&key).is_err();
    let second = matches!(reader.page(1), Err(ReadFault::NoReader));
    let third = reader.get(&key).is_err();
    Some(first && second && third)
}

fn outlives<R: AllocGlobal + Wait>(rt: &R) -> Option<bool> {
    let mut stand = opened(rt, 1)?;
    let seen = seen(rt, &mut stand);
    shut(rt, stand);
    is_refused(&mut seen?)
}

#[test]
fn a_reader_is_refused_once_its_versions_are_shut(rt: HostRuntime) {
    assert!(rt; outlives(&rt) == Some(true));
}
