//! A store in a folder or in memory, by one call: what a course puts there is found again, what is
//! refused stays as it is, and the room of segments that are given up comes back.

mod again;
mod hindered;
mod in_memory;
mod mapped;
mod memory;
mod parts;
mod refused;
mod shared;
mod walked;

use bw_codec::{Key, Record, Value};
use bw_home::{Course, Home, Options, System, with_store};
use std::fs;
use std::test::Fail;

/// A key and its value.
type Pair = (Key, Value);

/// Puts two records, and walks to the first pair.
#[derive(Drop)]
struct PutAndWalk;

impl<R: System> Course<R> for PutAndWalk {
    type Answer = Result<Option<Pair>, Fail>;

    fn run(self, _rt: &R, home: &mut Home) -> Result<Option<Pair>, Fail> {
        home.put(Record::Put(Key::new(b"k")?, Value::new(b"v")?))?;
        home.put(Record::Put(Key::new(b"l")?, Value::new(b"w")?))?;
        home.settle()?; // taken from the queue, and in the folder
        let pair = home.next_at(&Key::new(b"a")?)?; // the first pair at or above "a"
        Ok(pair)
    }
}

/// Walks to the first pair of what the folder has.
#[derive(Drop)]
struct Walk;

impl<R: System> Course<R> for Walk {
    type Answer = Result<Option<Pair>, Fail>;

    fn run(self, _rt: &R, home: &mut Home) -> Result<Option<Pair>, Fail> {
        let pair = home.next_at(&Key::new(b"a")?)?;
        Ok(pair)
    }
}

// Whether it is the pair that `PutAndWalk` puts first.
fn is_first(pair: Option<Pair>) -> bool {
    match pair {
        Some((key, value)) => key.as_slice() == b"k".as_slice()
            && value.as_slice() == b"v".as_slice(),
        None => false,
    }
}

#[test]
fn the_first_example_of_readme_reads_its_pair(rt: HostRuntime) -> Result<(), Fail> {
    let path = "folder_tests_first";
    let pair = with_store(&rt, path, &Options::default(), PutAndWalk)??;
    assert!(&rt; is_first(pair));
    fs::remove_dir_all(&rt, path)?;
    Ok(())
}

#[test]
fn a_second_call_reads_the_pair_again(rt: HostRuntime) -> Result<(), Fail> {
    let path = "folder_tests_second";
    let _put = with_store(&rt, path, &Options::default(), PutAndWalk)??;
    let pair = with_store(&rt, path, &Options::default(), Walk)??;
    assert!(&rt; is_first(pair));
    fs::remove_dir_all(&rt, path)?;
    Ok(())
}
