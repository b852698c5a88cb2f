//! A store in four small segments takes many times the bytes that they hold: what is given up comes
//! back between legs.

ghost use Rattle.bw_home.specs.Ready.{IsReady};

use super::{Pair, Walk};
use bw_codec::limits::MIN_FRAME;
use bw_codec::{Key, Record, Value};
use bw_file::FolderReader;
use bw_home::{Home, Legs, Options, System, with_store, with_store_in_legs};
use std::fs;
use std::test::Fail;

pub(super) const SMALL: Options = Options {
    writers: 1,
    queue_groups: 8,
    pairs_a_page: 4,
    frame_bytes: MIN_FRAME,
    segments: 4,
    capacity: 65_560,
    page_bytes: u64::MAX,
};

/// How many records are put, each flushed by itself: more than a megabyte.
const RECORDS: u32 = 10_000;

// Puts a record of one of 16 keys and settles, and gives up the oldest segment if one spare is left
// and it pays.
fn update<R: System>(rt: &R, home: &mut Home, number: u32) -> Result<(), Fail>
    requires { IsReady home.old holding }
    ensures { IsReady home.new holding }
{
    let key = Key::new(&[b'k', (number % 16) as u8])?;
    let value = Value::new(&[(number % 251) as u8; 100])?;
    home.put(Record::Put(key, value))?;
    home.settle()?;
    if home.store.spares() < 2 && home.store.pays() {
        let _ = home.clean(rt)?;
    }
    Ok(())
}

/// Updates, one a leg.
#[derive(Drop)]
struct Updates {
    left: u32,
}

impl<R: System> Legs<R> for Updates {
    type Answer = Result<(), Fail>;

    fn leg(&mut self, rt: &R, home: &mut Home) -> Option<Result<(), Fail>> {
        if self.left == 0 {
            return Some(Ok(()));
        }
        self.left -= 1;
        match update(rt, home, self.left) {
            Ok(()) => None,
            Err(fail) => Some(Err(fail)),
        }
    }
}

// Whether it is the pair that is put last of its key, which is the least.
fn is_last(pair: Option<Pair>) -> bool {
    match pair {
        Some((key, value)) => key.as_slice() == [b'k', 0].as_slice()
            && value.as_slice() == [0; 100].as_slice(),
        None => false,
    }
}

#[test]
fn four_small_segments_take_a_megabyte(rt: HostRuntime) -> Result<(), Fail> {
    let path = "folder_tests_again";
    let mut updates = Updates { left: RECORDS };
    with_store_in_legs(&rt, path, &SMALL, &mut updates)??;
    let reader = FolderReader::open(&rt, path)?;
    assert!(&rt; reader.leases(&rt)?.len() == 4);
    drop(reader);
    let pair = with_store(&rt, path, &SMALL, Walk)??;
    assert!(&rt; is_last(pair));
    fs::remove_dir_all(&rt, path)?;
    Ok(())
}
