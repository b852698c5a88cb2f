//! A store with a reader, in memory.

ghost use Rattle.bw_home.specs.Sharing.{IsShared};

use super::again::SMALL;
use bw_codec::Key;
use bw_home::{SharedHome, SharedLegs, System, with_readers};
use std::test::Fail;

// Whether a reader has its place, and sees no pair of a new store.
fn sees_nothing(home: &mut SharedHome) -> Result<bool, Fail>
    requires { IsShared home.old holding }
    ensures { IsShared home.new holding }
{
    let mut reader = home.store.reader()?;
    Ok(reader.get(&Key::new(b"k")?)?.is_none())
}

/// A look by a reader.
#[derive(Drop)]
struct Look;

impl<R: System> SharedLegs<R> for Look {
    type Answer = Result<bool, Fail>;

    fn leg(&mut self, _rt: &R, home: &mut SharedHome) -> Option<Result<bool, Fail>> {
        Some(sees_nothing(home))
    }
}

#[test]
fn a_reader_sees_no_pair_of_a_new_store(rt: HostRuntime) -> Result<(), Fail> {
    let went = with_readers(&rt, None, 64, 1, &SMALL, &mut Look)??;
    assert!(&rt; went);
    Ok(())
}
