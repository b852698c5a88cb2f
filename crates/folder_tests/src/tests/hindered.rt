//! A file that cannot be emptied hinders all others: a stop must never show a later segment gone
//! and an earlier one still there.

ghost use Rattle.bw_home.specs.Ready.{IsReady};

use super::again::SMALL;
use bw_codec::{Key, Record, Value};
use bw_file::FolderFault;
use bw_home::{Course, Home, HomeFault, System, with_store};
use std::fs;
use std::test::Fail;

const PATH: &str = "folder_tests_hindered";

const FIRST: &str = "folder_tests_hindered/segment-0000.bw";

const SECOND: &str = "folder_tests_hindered/segment-0001.bw";

const ASIDE: &str = "folder_tests_hindered/aside";

// Puts a record, settles, and ends the segment.
pub(super) fn put_one(home: &mut Home, name: u8) -> Result<(), Fail>
    requires { IsReady home.old holding }
    ensures { IsReady home.new holding }
{
    home.put(Record::Put(Key::new(&[name])?, Value::new(b"v")?))?;
    home.settle()?;
    home.store.roll();
    Ok(())
}

// Whether a cleaning is refused since a file is no plain one.
fn is_hindered<R: System>(rt: &R, home: &mut Home) -> bool
    requires { IsReady home.old holding }
    ensures { IsReady home.new holding }
{
    matches!(
        home.clean(rt),
        Err(HomeFault::Folder(FolderFault::NotPlain))
    )
}

// How many bytes the file of this path has.
pub(super) fn length_of<R: System>(rt: &R, path: &str) -> Result<u64, Fail> {
    Ok(fs::metadata(rt, path)?.len())
}

/// Has three live segments, and a folder in the place of the file of the first, which is then given
/// up: whether the next one stays until that file is there again and empty.
#[derive(Drop)]
struct Hindered;

impl<R: System> Course<R> for Hindered {
    type Answer = Result<bool, Fail>;

    fn run(self, rt: &R, home: &mut Home) -> Result<bool, Fail> {
        put_one(home, b'a')?;
        put_one(home, b'b')?;
        put_one(home, b'c')?;
        fs::rename(rt, FIRST, ASIDE)?;
        fs::create_dir(rt, FIRST)?;
        let (first, again) = (is_hindered(rt, home), is_hindered(rt, home));
        let stays = length_of(rt, SECOND)? > 0;
        fs::remove_dir(rt, FIRST)?;
        fs::rename(rt, ASIDE, FIRST)?;
        let _ = home.clean(rt)?;
        let goes = length_of(rt, FIRST)? == 0 && length_of(rt, SECOND)? == 0;
        Ok(first && again && stays && goes)
    }
}

#[test]
fn no_file_is_emptied_before_the_one_before_it(rt: HostRuntime) -> Result<(), Fail> {
    let went = with_store(&rt, PATH, &SMALL, Hindered)??;
    assert!(&rt; went);
    fs::remove_dir_all(&rt, PATH)?;
    Ok(())
}
