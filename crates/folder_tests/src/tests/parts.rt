//! A cleaning in parts: what is given up keeps its file until that is emptied, and nothing stands
//! in its place but what is made.

ghost use Rattle.bw_home.specs.Ready.{IsReady};

use super::again::SMALL;
use super::hindered::{length_of, put_one};
use bw_home::{Course, Home, Legs, System, with_store, with_store_at};
use std::fs;
use std::test::Fail;

const PATH: &str = "folder_tests_parts";

const FIRST: &str = "folder_tests_parts/segment-0000.bw";

// Whether the first segment is given up, whose file keeps its bytes up to a second call.
fn goes_in_parts<R: System>(rt: &R, home: &mut Home) -> Result<bool, Fail>
    requires { IsReady home.old holding }
    ensures { IsReady home.new holding }
{
    let lease = home.give_up(rt)?.lease;
    let kept = length_of(rt, FIRST)?;
    home.empty(rt)?;
    Ok(lease == 0 && kept > 0 && length_of(rt, FIRST)? == 0)
}

/// Gives up the first of two segments, and makes a spare, which the next leg sees.
#[derive(Drop)]
struct Parts {
    is_made: bool,
}

impl Parts {
    fn go<R: System>(&mut self, rt: &R, home: &mut Home) -> Result<bool, Fail>
        requires { IsReady home.old holding }
        ensures { IsReady home.new holding }
    {
        put_one(home, b'a')?;
        put_one(home, b'b')?;
        if !goes_in_parts(rt, home)? {
            return Ok(false);
        }
        let leases = home.leases()?;
        home.make_spare(rt)?;
        self.is_made = true;
        Ok(leases.as_slice() == [1, 2, 3].as_slice())
    }
}

impl<R: System> Legs<R> for Parts {
    type Answer = Result<bool, Fail>;

    fn leg(&mut self, rt: &R, home: &mut Home) -> Option<Result<bool, Fail>> {
        if self.is_made {
            return Some(Ok(
                matches!(home.added(), Some(added) if added.lease == 0 && added.refused.is_none()),
            ));
        }
        match self.go(rt, home) {
            Ok(true) => None,
            went => Some(went),
        }
    }
}

#[test]
fn a_cleaning_goes_in_parts(rt: HostRuntime) -> Result<(), Fail> {
    let mut parts = Parts { is_made: false };
    let went = with_store_at(&rt, Some(PATH), 64, &SMALL, &mut parts)??;
    assert!(&rt; went);
    fs::remove_dir_all(&rt, PATH)?;
    Ok(())
}

const TAKEN: &str = "folder_tests_taken";

const TAKEN_FIRST: &str = "folder_tests_taken/segment-0000.bw";

/// Gives up the first of two segments, whose file is not emptied, and makes two spares, of which
/// the first stands over that file. Whether what this one has stays if what was given up is
/// emptied.
#[derive(Drop)]
struct Taken {
    made: u32,
}

impl Taken {
    // Makes a spare over the file of what was given up.
    fn begin<R: System>(&mut self, rt: &R, home: &mut Home) -> Result<bool, Fail>
        requires { IsReady home.old holding }
        ensures { IsReady home.new holding }
    {
        put_one(home, b'a')?;
        put_one(home, b'b')?;
        let lease = home.give_up(rt)?.lease;
        self.further(rt, home)?;
        Ok(lease == 0)
    }

    fn further<R: System>(&mut self, rt: &R, home: &mut Home) -> Result<bool, Fail>
        requires { IsReady home.old holding }
        ensures { IsReady home.new holding }
    {
        home.make_spare(rt)?;
        self.made = self.made.saturating_add(1);
        Ok(true)
    }

    // Makes the next spare.
    fn make<R: System>(&mut self, rt: &R, home: &mut Home) -> Result<bool, Fail>
        requires { IsReady home.old holding }
        ensures { IsReady home.new holding }
    {
        if self.made == 0 {
            return self.begin(rt, home);
        }
        self.further(rt, home)
    }
}

// Fills three segments, that of the first file among them.
fn fill<R: System>(rt: &R, home: &mut Home) -> Result<bool, Fail>
    requires { IsReady home.old holding }
    ensures { IsReady home.new holding }
{
    put_one(home, b'c')?;
    put_one(home, b'd')?;
    put_one(home, b'e')?;
    let written = length_of(rt, TAKEN_FIRST)?;
    home.empty(rt)?;
    Ok(written > 0 && length_of(rt, TAKEN_FIRST)? == written)
}

impl<R: System> Legs<R> for Taken {
    type Answer = Result<bool, Fail>;

    fn leg(&mut self, rt: &R, home: &mut Home) -> Option<Result<bool, Fail>> {
        if self.made > 1 {
            return Some(fill(rt, home));
        }
        match self.make(rt, home) {
            Ok(true) => None,
            went => Some(went),
        }
    }
}

#[test]
fn a_file_that_has_a_new_segment_is_not_emptied(rt: HostRuntime) -> Result<(), Fail> {
    let mut taken = Taken { made: 0 };
    let went = with_store_at(&rt, Some(TAKEN), 64, &SMALL, &mut taken)??;
    assert!(&rt; went);
    fs::remove_dir_all(&rt, TAKEN)?;
    Ok(())
}

const ROW: &str = "folder_tests_row";

const ROW_FIRST: &str = "folder_tests_row/segment-0000.bw";

// Gives the oldest segment up, whose file stays as it is.
fn clean(home: &mut Home) -> Result<(), Fail>
    requires { IsReady home.old holding }
    ensures { IsReady home.new holding }
{
    let _ = home.store.clean()?;
    Ok(())
}

/// Cleans the store by itself, and then empties the file of what was given up.
#[derive(Drop)]
struct Row;

impl<R: System> Course<R> for Row {
    type Answer = Result<bool, Fail>;

    fn run(self, rt: &R, home: &mut Home) -> Result<bool, Fail> {
        put_one(home, b'a')?;
        put_one(home, b'b')?;
        let row = home.row()?;
        clean(home)?;
        let kept = length_of(rt, ROW_FIRST)?;
        home.empty_row(rt, row.as_slice())?;
        let is_empty = length_of(rt, ROW_FIRST)? == 0;
        Ok(row.as_slice() == [0, 1, 2, 3].as_slice() && kept > 0 && is_empty)
    }
}

#[test]
fn files_of_what_was_given_up_are_emptied(rt: HostRuntime) -> Result<(), Fail> {
    let went = with_store(&rt, ROW, &SMALL, Row)??;
    assert!(&rt; went);
    fs::remove_dir_all(&rt, ROW)?;
    Ok(())
}
